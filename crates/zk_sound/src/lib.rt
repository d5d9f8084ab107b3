//! Values have the types that their expressions were given: no typed program comes to a value of another type.
#![tactic(auto)]

mod laws;

pub use laws::{
    bodies_keep_types, broken_is_told, forms_keep_types, operations_take_types,
    rows_fit_their_columns, typed_bodies_fit, typed_programs_keep_types, typed_tables_stay,
    values_have_types,
};
