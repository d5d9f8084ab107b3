use crate::home::Home;
use zk_tree::Expr;
use zk_typed::script::ValueType;

/// A field of a record type (Zeek manual, Types, record), with the place where its text stands.
#[derive(Drop)]
pub struct FieldInfo<'a> {
    pub name: &'a [u8],
    /// None where the type is broken, which is told in the field's text.
    pub field_type: Option<ValueType>,
    pub log: bool,
    pub wire: bool,
    pub optional: bool,
    /// The value of `&default`.
    pub default: Option<&'a Expr>,
    pub home: Home<'a>,
}
