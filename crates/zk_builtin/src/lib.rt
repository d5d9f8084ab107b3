//! The operators and built-in functions of scripts that need nothing but values.
#![tactic(auto)]

mod addresses;
mod fault;
mod format;
mod numbers;
mod operators;
mod relations;
mod strings;
mod texts;

pub use addresses::addr_to_counts;
pub use fault::{BuiltinFault, OperatorFault, STRING_LENGTH_MAX};
pub use format::{cat, fmt, join_string_vec};
pub use numbers::to_count;
pub use operators::{binary, stepped, unary};
pub use relations::{holds, in_subnet, is_within};
pub use strings::{starts_with, strstr, sub_bytes, to_lower, to_upper};
pub use texts::push_value;
