use crate::script::primitive::{Binary, FieldNo};
use zk_base::EventNo;

/// What a statement does with the values of its operands.
#[derive(Clone, Copy, Debug, PartialEq, Eq)]
pub enum Action {
    /// `print a, b;`
    Print,
    /// `left = x;`: the value, then the operands of the left side.
    Assign(Left),
    /// `left += x;` or `left -= x;`: the value, then the operands of the left side.
    Update { left: Left, by: Binary },
    /// `local x: T;` of a type that has no empty value: the local has no value any more.
    Forget { local: u32 },
    /// `add s[k1, k2];`: the set, then the keys.
    Add,
    /// `delete t[k1, k2];`: the table or set, then the keys.
    Delete,
    /// `event N(..);`: the arguments.
    Queue(EventNo),
    /// `schedule d { N(..) };`: the delay, then the arguments.
    Schedule(EventNo),
}

/// What can be assigned.
#[derive(Clone, Copy, Debug, PartialEq, Eq)]
pub enum Left {
    /// A local or a parameter; it has no operands.
    Local(u32),
    /// A global or a constant; it has no operands.
    Global(u32),
    /// A field of its operand, a record.
    Field(FieldNo),
    /// An element of a table: the table, then the keys.
    Element,
    /// An item of a vector: the vector, then the index.
    Item,
}
