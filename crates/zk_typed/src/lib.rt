//! Typed programs, and what scripts mean.
#![tactic(auto)]

mod copying;
mod ends;
mod refusal;
mod rule;
pub mod script;

pub use copying::{copied_keys, copied_type};
pub use ends::{BodyEnd, FaultKind};
pub use refusal::{Broken, Refusal, one_broken};
pub use rule::Rule;
pub use zk_tree::{ZEEK_DONE, ZEEK_INIT};
