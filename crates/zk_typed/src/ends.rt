use zk_tree::Place;

/// What can go wrong while a script runs.
#[derive(Clone, Copy, Debug, PartialEq, Eq)]
pub enum FaultKind {
    /// A table without a default lacks the key, or a vector ends before the index.
    NoIndex,
    /// A record has no value in the field.
    NoField,
    /// A name has no value, or a function ended without one.
    Unset,
    /// A division by 0.
    ZeroDivisor,
    /// A number past the range of its type.
    Overflow,
    /// More than 200 calls within one another.
    Depth,
    /// A string of more than 1,048,576 bytes.
    TooLong,
}

/// How the body of a handler ends.
#[derive(Clone, Copy, Debug, PartialEq, Eq)]
pub enum BodyEnd {
    /// It ran to its end.
    Done,
    /// Something went wrong in the statement at this place.
    Fault { kind: FaultKind, place: Place },
    /// The statement at this place wanted a unit, and none was left.
    Spent { place: Place },
}
