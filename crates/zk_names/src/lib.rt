//! The names of scripts, made out of their trees.
#![tactic(auto)]

mod bodies;
mod given;
mod making;
mod nodes;
mod order;
mod outright;
mod words;

pub use making::names;
pub use outright::outright_name;
