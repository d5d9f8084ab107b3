use crate::name::Name;
use crate::operator::{Assigning, Comparing, Container, Level, Operator, Prefix, TimeUnit};
use sqlite_items::{Boxed, Items};
use zk_base::{Bytes, Proto};

/// An expression (Zeek manual, Expressions). An expression that begins with a token of its own has the
/// place of its first byte; that of any other is its first part's.
#[derive(Debug, Drop)]
#[cycle(expr)]
pub enum Expr {
    /// `LEFT = RIGHT`, `LEFT += RIGHT` or `LEFT -= RIGHT`.
    Assign {
        left: Boxed<Expr>,
        operator: Assigning,
        right: Boxed<Expr>,
    },
    /// `TEST ? YES : NO`
    Choice {
        test: Boxed<Expr>,
        yes: Boxed<Expr>,
        no: Boxed<Expr>,
    },
    /// Operands with operators of one level between them, which associate to the left:
    /// `a || b || c`, `a && b`, `a + b - c`, `a * b / c`.
    Chain {
        level: Level,
        first: Boxed<Expr>,
        others: Items<Link>,
    },
    /// `LEFT == RIGHT`, `LEFT in RIGHT` and the like, which don't associate.
    Compare {
        left: Boxed<Expr>,
        operator: Comparing,
        right: Boxed<Expr>,
    },
    /// `!a`, `-a`, `++a`, `--a`
    Unary {
        place: u64,
        operator: Prefix,
        operand: Boxed<Expr>,
    },
    /// `a$b`, `a?$b`, `a[b]`, `a(b)` and the like, one after another.
    Post {
        first: Boxed<Expr>,
        parts: Items<Part>,
    },
    /// Decimal digits.
    Number {
        place: u64,
        number: u64,
    },
    /// Decimal digits and a unit of time: `5 min`, and with `plural` `5 mins`.
    Interval {
        place: u64,
        number: u64,
        unit: TimeUnit,
        plural: bool,
    },
    /// A string, a port, an address or a subnet.
    Literal {
        place: u64,
        literal: Literal,
    },
    /// `T` or `F`
    Truth {
        place: u64,
        truth: bool,
    },
    /// A name.
    Name {
        name: Name,
    },
    /// `(a)`
    Parenthesis {
        place: u64,
        inner: Boxed<Expr>,
    },
    /// `|a|`
    Size {
        place: u64,
        inner: Boxed<Expr>,
    },
    /// `[a, b]`, `[$f=a]`
    List {
        place: u64,
        items: Items<Item>,
    },
    /// `table(..)`, `set(..)`, `vector(..)`
    Make {
        place: u64,
        container: Container,
        items: Items<Item>,
    },
    /// `hook NAME(..)`
    Hook {
        place: u64,
        name: Name,
        items: Items<Item>,
    },
}

/// A value that one token writes.
#[derive(Debug, Drop)]
pub enum Literal {
    /// The bytes of a string in quotes.
    String(Bytes),
    /// `80/tcp`
    Port { port: u16, proto: Proto },
    /// `10.0.0.1`
    Address(u32),
    /// `10.0.0.0/8`
    Subnet { prefix: u32, width: u8 },
}

/// An operator and the operand behind it.
#[derive(Debug, Drop)]
#[cycle(expr)]
pub struct Link {
    pub operator: Operator,
    pub operand: Expr,
}

/// What stands behind an expression and belongs to it.
#[derive(Debug, Drop)]
#[cycle(expr)]
pub enum Part {
    /// `$NAME`
    Field { name: Name },
    /// `?$NAME`
    HasField { name: Name },
    /// `[a, b]`
    Index { keys: Items<Expr> },
    /// `(a, $f=b)`
    Call { items: Items<Item> },
}

/// An argument of a call, or an item of a constructor.
#[derive(Debug, Drop)]
#[cycle(expr)]
pub enum Item {
    /// An expression.
    Value { value: Expr },
    /// `$NAME=a`
    Field { place: u64, name: Name, value: Expr },
}
