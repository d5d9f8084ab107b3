//! The readers of expressions, types and initial values.
#![tactic(auto)]

mod expr;
mod inits;
mod operands;
mod parts;
mod types;

pub use expr::Counted;
pub use inits::{exprs, initial, named_args, variable};
pub use operands::nested_expr;
pub use parts::{fields, params, signature, typed};
pub use types::{attrs, nested_type, words};
