//! Checks the names and types of scripts.
#![tactic(auto)]

mod fault;
mod judged;
mod logs;
mod program;
mod rules;
mod scripts;

pub use fault::CheckFault;
pub use scripts::{check, one_program};
