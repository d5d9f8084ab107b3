//! The tables and sets of scripts: entries in the order of insertion, found by key and by the moment at
//! which they expire.
#![tactic(auto)]

mod entries;
mod heap;
mod index;
mod objects;
mod slot;
mod table;
mod watched;

pub use heap::Heap;
pub use objects::Lent;
pub use slot::{Pair, moment_after};
pub use table::Table;
pub use zk_tree::Expiry;
