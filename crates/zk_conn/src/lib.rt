//! Connections: which packets belong together, who began, how it went, and when it is over. The
//! rules are this project's own; the names of the states and of the history letters are Zeek's.
#![tactic(auto)]

mod conns;
mod facts;
mod half;
mod history;
mod instance;
mod key;
mod removals;
mod view;

pub use conns::{Conns, Removed, Touched};
pub use facts::{ConnState, EndFacts, Facts};
pub use history::History;
pub use view::L4View;
