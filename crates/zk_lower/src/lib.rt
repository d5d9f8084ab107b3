//! The code of programs, and what it means.
#![tactic(auto)]

mod code;
mod copies;
mod exprs;
mod laws;
mod leaves;
mod op;
mod ops;
mod order;
mod program;
mod stmts;
mod tail;
mod types;
mod ways;

pub use code::{BodyCode, Code, GlobalCode, HandlerCode, number_at};
pub use copies::{default_copy, literal_value};
pub use laws::{code_ends, code_means, told_stays};
pub use leaves::Leaf;
pub use op::Op;
pub use program::lower;
