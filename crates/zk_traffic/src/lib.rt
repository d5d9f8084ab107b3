//! The items of a capture: what its packets come to, record by record.
#![tactic(auto)]

mod connections;
mod datagram;
mod frame;
mod item;
mod news;
mod options;
mod queue;
mod reading;
mod segment;
mod stream_table;
mod streams;
mod table;
mod traffic;
mod waiting;

pub use item::{Item, What};
pub use news::Fresh;
pub use options::Options;
pub use traffic::{Traffic, items_are_own, items_stay};
