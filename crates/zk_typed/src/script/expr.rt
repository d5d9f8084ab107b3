use crate::script::literal::Literal;
use crate::script::primitive::{FieldNo, Primitive};
use sqlite_items::{Boxed, Items};
use zk_base::{HookNo, LogId, RecordNo};

/// An expression (Zeek manual, Expressions). Most forms compute operands and then do something with their
/// values; the others are those that skip an operand or run a body.
#[derive(Debug, Drop)]
#[cycle(expr)]
pub enum Expr {
    Literal(Literal),
    /// A parameter or a local, by its number: the parameters come first.
    Local(u32),
    /// A global or a constant, by its number in load order.
    Global(u32),
    /// A primitive and its operands.
    Apply {
        primitive: Primitive,
        operands: Items<Expr>,
    },
    /// `R($f=x, ..)`, or `[$f=x, ..]` where a record is wanted.
    New {
        record: RecordNo,
        given: Items<Given>,
    },
    /// `a && b`
    And(Boxed<Expr>, Boxed<Expr>),
    /// `a || b`
    Or(Boxed<Expr>, Boxed<Expr>),
    /// `test ? yes : no`
    Choice {
        test: Boxed<Expr>,
        yes: Boxed<Expr>,
        no: Boxed<Expr>,
    },
    /// A call of a function with a result, by its number.
    Call {
        function: u32,
        operands: Items<Expr>,
    },
    /// `hook h(..)`
    Hook {
        hook: HookNo,
        operands: Items<Expr>,
    },
    /// `Log::write(ID, r)`
    Write {
        log: LogId,
        row: Boxed<Expr>,
    },
}

/// A field that a constructor gives.
#[derive(Debug, Drop)]
#[cycle(expr)]
pub enum Given {
    /// By the value of an expression.
    Value {
        field: u32,
        value: Expr,
    },
    /// A field marked `&wire`, by the value of a field marked `&wire`, which is read for nothing else.
    Wire {
        field: u32,
        from: Expr,
        read: FieldNo,
    },
}
