use crate::script::action::Action;
use crate::script::expr::Expr;
use crate::script::primitive::FieldNo;
use sqlite_items::{Boxed, Items};
use zk_base::Sequence;
use zk_tree::Place;

/// The locals that a `for` sets at each turn.
#[derive(Debug, Drop)]
pub struct Names {
    /// One for each value of a key, or the one for an index.
    pub keys: Sequence<u32>,
    /// The one for the value of an entry or item.
    pub value: Option<u32>,
}

/// A statement (Zeek manual, Statements), with the place of its first byte where it costs a unit.
#[derive(Debug, Drop)]
#[cycle(stmt)]
pub enum Stmt {
    /// `{ .. }`, and `;` as a block of no statements. It costs no unit.
    Block(Items<Stmt>),
    /// An action and its operands.
    Do {
        place: Place,
        action: Action,
        operands: Items<Expr>,
    },
    /// `a$f = b$g;` of two fields marked `&wire`, the second of which is read for nothing else.
    Move {
        place: Place,
        to: Expr,
        field: FieldNo,
        from: Expr,
        read: FieldNo,
    },
    /// An expression whose value is not used.
    Evaluate {
        place: Place,
        value: Expr,
    },
    /// A call of a function without a result, by its number.
    Call {
        place: Place,
        function: u32,
        operands: Items<Expr>,
    },
    If {
        place: Place,
        test: Expr,
        yes: Boxed<Stmt>,
        no: Boxed<Stmt>,
    },
    While {
        place: Place,
        test: Expr,
        body: Boxed<Stmt>,
    },
    /// `for` over the keys of a table or a set.
    ForKeys {
        place: Place,
        names: Names,
        over: Expr,
        body: Boxed<Stmt>,
    },
    /// `for` over the indexes of a vector.
    ForIndexes {
        place: Place,
        names: Names,
        over: Expr,
        body: Boxed<Stmt>,
    },
    Return {
        place: Place,
        value: Option<Expr>,
    },
    Next {
        place: Place,
    },
    Break {
        place: Place,
    },
}
