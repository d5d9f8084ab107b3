//! Checks declarations: the rules that rest on no body of a function, handler or hook.
#![tactic(auto)]

mod bodiless;
mod defaults;
mod edges;
mod fields;
mod globals;
mod ground;
mod groups;
mod heads;
mod heights;
mod logging;
mod mentions;
mod naming;
mod order;
mod paths;
mod records;
mod redefs;
mod rising;
mod rounds;
mod seen;
mod signatures;
mod source;
mod told;
mod types;
mod values;
mod variables;

pub use ground::Ground;
pub use groups::Groups;
pub use heights::Depths;
pub use logging::{StreamPath, all_streams, log_call, logged, one_use, stream_uses};
pub use naming::{Named, declares, twice_rules};
pub use paths::{PathUse, Paths};
pub use records::{FieldNames, own_names};
pub use rising::depths;
pub use rounds::{known_types, told_types};
pub use seen::Seen;
pub use source::Source;
pub use told::{dropped, require};
pub use values::{Given, Values, given_values};
pub use variables::{Declaration, Valued};
