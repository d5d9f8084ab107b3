/// How tightly operators bind that associate to the left, the loosest first.
#[derive(Clone, Copy, Debug, PartialEq, Eq)]
pub enum Level {
    /// `||`
    Or,
    /// `&&`
    And,
    /// `+ -`
    Sum,
    /// `* / %`
    Term,
}

/// An operator that associates to the left.
#[derive(Clone, Copy, Debug, PartialEq, Eq)]
pub enum Operator {
    /// `||`
    Or,
    /// `&&`
    And,
    /// `+`
    Plus,
    /// `-`
    Minus,
    /// `*`
    Times,
    /// `/`
    Over,
    /// `%`
    Modulo,
}

/// An operator that compares, and doesn't associate.
#[derive(Clone, Copy, Debug, PartialEq, Eq)]
pub enum Comparing {
    /// `==`
    Equal,
    /// `!=`
    NotEqual,
    /// `<`
    Less,
    /// `<=`
    LessEqual,
    /// `>`
    Greater,
    /// `>=`
    GreaterEqual,
    /// `in`
    In,
    /// `!in`
    NotIn,
}

/// An operator that assigns.
#[derive(Clone, Copy, Debug, PartialEq, Eq)]
pub enum Assigning {
    /// `=`
    Set,
    /// `+=`
    Add,
    /// `-=`
    Subtract,
}

/// An operator before its operand.
#[derive(Clone, Copy, Debug, PartialEq, Eq)]
pub enum Prefix {
    /// `!`
    Not,
    /// `-`
    Negate,
    /// `++`
    Increment,
    /// `--`
    Decrement,
}

/// A kind of container that a script makes.
#[derive(Clone, Copy, Debug, PartialEq, Eq)]
pub enum Container {
    /// `table`
    Table,
    /// `set`
    Set,
    /// `vector`
    Vector,
}

/// A unit of time.
#[derive(Clone, Copy, Debug, PartialEq, Eq)]
pub enum TimeUnit {
    /// `usec`
    Microsecond,
    /// `msec`
    Millisecond,
    /// `sec`
    Second,
    /// `min`
    Minute,
    /// `hr`
    Hour,
    /// `day`
    Day,
}
