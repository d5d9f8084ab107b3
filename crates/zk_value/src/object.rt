use crate::value::Value;
use zk_base::RecordNo;

/// An object of a store, lent.
#[derive(Clone, Copy, Debug)]
pub enum Object<'a> {
    /// A record of a type: the value of each field, by the field's number, where it has one.
    Record {
        of: RecordNo,
        fields: &'a [Option<Value>],
    },
    /// The items of a vector.
    Vector(&'a [Value]),
    /// A set or a table, by its place among the sets and tables.
    Table(usize),
}
