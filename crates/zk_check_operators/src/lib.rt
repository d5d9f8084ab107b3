//! The types of operators, and what they make of operands that have types.
#![tactic(auto)]

mod attributes;
mod attrs;
mod defaults;
mod gather;
mod gathering;
mod kinds;
mod laws;
mod literals;
mod membership;
mod operands;
mod operators;
mod placed;
mod relations;
mod same;
mod shapes;
mod table;
mod texts;

pub use attributes::{
    field_attribute, global_attribute, is_column, is_expiry, is_made, with_value,
};
pub use attrs::{Attributes, attr_rules};
pub use defaults::constant_typed;
pub use gather::{along, also, both};
pub use gathering::with_part;
pub use kinds::signature_attrs;
pub use laws::operators_keep_types;
pub use literals::{constant, interval_of, literal_typed};
pub use membership::{is_left_of_in, operands_of, size_typed, vector_alone};
pub use operands::{
    Typed, Wanted, applied, apply, beside, fit, fits, one_operand, simple_type, to_int,
    value_operand,
};
pub use operators::{arithmetic, choice, inverted, negative, related, truths, turned};
pub use relations::{binary_of, is_ordered, relates, relation_of};
pub use same::{is_simple, same_keys, same_simple, same_type, same_types};
pub use shapes::{added_type, empty_of, is_vector, keys_in, plain_shape, update_of};
pub use table::{arithmetic_of, takes_left};
pub use texts::{verb_takes, verbs, verbs_take};
