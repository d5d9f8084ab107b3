//! The syntax tree of a script, from its tokens.
#![tactic(auto)]

mod decls;
mod fault;
mod parsing;
mod stmts;

pub use fault::ParseFault;
pub use parsing::{Front, parse, parse_front};
