use crate::script::action::Left;
use crate::script::literal::DefaultValue;
use crate::script::log_call::LogCall;
use zk_base::RecordNo;
use zk_tree::Expiry;

/// A field of a record type, by its number among the fields of that type, from 0.
#[derive(Clone, Copy, Debug, PartialEq, Eq)]
pub struct FieldNo {
    pub record: RecordNo,
    pub field: u32,
}

/// What an expression does with the values of its operands, which are computed from left to right (Zeek
/// manual, Expressions). An operator that a script writes for several types is one primitive, which
/// goes by its values; a conversion is one of its own.
#[derive(Debug, Drop)]
pub enum Primitive {
    Unary(Unary),
    Binary(Binary),
    Compare(Relation),
    /// `k in t`, or `[k1, k2] in t`: the keys, then the table or set.
    HasKey,
    /// `s in t` of strings.
    HasText,
    /// `a in n` of an address and a subnet.
    HasAddress,
    /// `n in v` of a count and a vector, which has that index.
    HasIndex,
    /// `|x|`
    Size,
    /// `r$f`
    Field(FieldNo),
    /// `r?$f`
    HasField(FieldNo),
    /// `t[k1, k2]`: the table, then the keys.
    Element,
    /// `v[n]`
    Item,
    /// `table([k1, k2] = v, ..)`: for each entry its keys, then its value.
    NewTable(Shape),
    /// `set([k1, k2], ..)`: for each member its keys.
    NewSet(Shape),
    /// `vector(x, ..)`
    NewVector,
    /// `++x` or `--x`: the operands of its left side.
    Step { left: Left, by: Direction },
    BuiltIn(BuiltIn),
    /// A call of the log framework that runs no hook. It has no operands.
    Log(LogCall),
}

/// An operator before its operand.
#[derive(Clone, Copy, Debug, PartialEq, Eq)]
pub enum Unary {
    /// `!b`
    Not,
    /// `-x`
    Negate,
    /// A count becomes an int.
    ToInt,
}

/// An operator that computes.
#[derive(Clone, Copy, Debug, PartialEq, Eq)]
pub enum Binary {
    /// `+`
    Plus,
    /// `-`
    Minus,
    /// `*`
    Times,
    /// `/`
    Over,
    /// `%`
    Modulo,
}

/// An operator that compares.
#[derive(Clone, Copy, Debug, PartialEq, Eq)]
pub enum Relation {
    /// `==`
    Equal,
    /// `!=`
    NotEqual,
    /// `<`
    Less,
    /// `<=`
    LessEqual,
    /// `>`
    Greater,
    /// `>=`
    GreaterEqual,
}

/// Which way a number is stepped.
#[derive(Clone, Copy, Debug, PartialEq, Eq)]
pub enum Direction {
    /// `++`
    Up,
    /// `--`
    Down,
}

/// What a table or set is made with: how many values a key of it has, when its entries expire, and what an
/// absent key gives.
#[derive(Debug, Drop)]
pub struct Shape {
    pub keys: u32,
    pub expiry: Option<Expiry>,
    pub default: Option<DefaultValue>,
}

/// A function that the language has (Zeek manual, Built-in functions).
#[derive(Clone, Copy, Debug, PartialEq, Eq)]
pub enum BuiltIn {
    Fmt,
    Cat,
    ToLower,
    ToUpper,
    SubBytes,
    Strstr,
    ToCount,
    StartsWith,
    JoinStringVec,
    AddrToCounts,
    NetworkTime,
    Copy,
}
