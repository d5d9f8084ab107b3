//! Values and objects, and what a program gives out.
#![tactic(auto)]

mod address;
mod cell;
mod key;
mod laws;
mod object;
mod out;
mod series;
mod shared;
mod store;
mod texts;
mod value;

pub use address::SharedAddr;
pub use cell::{Atom, Cell, Column};
pub use key::Key;
pub use laws::{equal_keys, tables_in_their_places};
pub use object::Object;
pub use out::Out;
pub use series::Series;
pub use shared::SharedBytes;
pub use store::Store;
pub use texts::{push_addr, push_count, push_int, push_port, push_span, push_subnet};
pub use value::Value;
