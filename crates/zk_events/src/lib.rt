//! The run of a program over the items of a capture: what each item raises, what is due before it, and
//! the queue (Zeek manual, Events).
#![tactic(auto)]

mod connections;
mod dispatcher;
mod dns;
mod engine;
mod facts;
mod http;
mod laws;
mod numbers;
mod sealed;
mod turns;
mod values;

pub use engine::{Engine, ItemEnd};
pub use http::reason_number;
pub use laws::{agenda_holds, lines_given, lines_stay};
pub use values::state_name;
