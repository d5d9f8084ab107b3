//! The tokens of scripts: names, numbers, ports, addresses, subnets, strings, attributes, loads and
//! signs, each the longest that fits at its place, or the first byte at which there is none.
#![tactic(auto)]

mod fault;
mod numerals;
mod signs;
mod splitting;
mod strings;
mod words;

pub use fault::LexFault;
pub use splitting::{script_tokens, tokens};
