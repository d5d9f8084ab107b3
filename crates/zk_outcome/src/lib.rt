//! What a part of a run does to the outside, what may stop it, and how parts are put together.
#![tactic(auto)]

mod found;
mod stop;

pub use found::Found;
pub use stop::{Stop, written};
