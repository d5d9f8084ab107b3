use sqlite_items::Boxed;
use zk_base::{RecordNo, Sequence};

/// A type whose values have no parts (Zeek manual, Types). The keys of tables and sets have such types.
#[derive(Clone, Copy, Debug, PartialEq, Eq)]
pub enum SimpleType {
    Bool,
    Count,
    Int,
    String,
    Time,
    Interval,
    Addr,
    Port,
    Subnet,
    /// An enum, by its number.
    Enum(u32),
}

/// A type, with names followed to what they stand for.
#[derive(Debug, Drop)]
pub enum ValueType {
    Simple(SimpleType),
    Record(RecordNo),
    Table {
        keys: Sequence<SimpleType>,
        value: Boxed<ValueType>,
    },
    Set {
        keys: Sequence<SimpleType>,
    },
    Vector {
        item: Boxed<ValueType>,
    },
}
