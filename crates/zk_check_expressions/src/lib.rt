//! The typing of expressions.
#![tactic(auto)]

mod arguments;
mod assigning;
mod built_ins;
mod called;
mod calls;
mod chains;
mod choices;
mod comparing;
mod containers;
mod elements;
mod env;
mod expr;
mod fields;
mod forms;
mod found;
mod judge;
mod lefts;
mod locals;
mod log;
mod log_columns;
mod log_made;
mod log_names;
mod log_parts;
mod log_settings;
mod log_wordless;
mod log_words;
mod members;
mod membership;
mod names;
mod parts;
mod records;
mod refuse;
mod rows;
mod side;
mod whole;

pub use called::{Called, called_name};
pub use elements::keys_fit;
pub use env::{Env, GlobalType, Globals, LocalName};
pub use expr::expr_to;
pub use fields::{Read, is_wire, wire_read};
pub use found::{Found, look_up};
pub use judge::Judge;
pub use locals::Locals;
pub use names::{local_meant, name_typed};
pub use refuse::refused;
pub use side::{Side, assignable};
pub use whole::{
    call_of, each_printed, each_typed, expr_typed, init_typed, left_side, post_typed, rest_of,
    signed_arguments, wrong_name,
};
