use zk_base::{Addr, Bytes, Proto, Sequence, Span};

/// A value that stands in the text of a script.
#[derive(Debug, Drop)]
pub enum Literal {
    Bool(bool),
    Count(u64),
    String(Bytes),
    Interval(Span),
    Addr(Addr),
    Port { port: u16, proto: Proto },
    /// An IPv4 prefix, as the number that its bytes make in network order, and its width in bits.
    Subnet { prefix: u32, width: u8 },
    /// An enum word, by its name as `print` writes it.
    Enum(Bytes),
}

/// What is done to a literal before it is used.
#[derive(Clone, Copy, Debug, PartialEq, Eq)]
pub enum Sign {
    /// Nothing.
    Plain,
    /// A count becomes an int.
    Converted,
    /// It is negated.
    Negated,
}

/// The value of `&default` (Zeek manual, Attributes, &default), and what a field or a name of a container
/// type begins with.
#[derive(Debug, Drop)]
pub enum DefaultValue {
    Literal { literal: Literal, sign: Sign },
    /// A new table or set without entries.
    EmptyTable,
    /// A new vector without items.
    EmptyVector,
}
