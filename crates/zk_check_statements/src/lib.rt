//! Checks the statements of a body and makes their typed form.
#![tactic(auto)]

mod acting;
mod assigning;
mod begins;
mod body;
mod context;
mod elements;
mod events;
mod expressions;
mod joins;
mod loops;
mod made;
mod mentions;
mod numbers;
mod over;
mod plain;
mod returns;
mod turns;

pub use body::body_typed;
pub use context::{Context, Within};
pub use made::no_stmt;
