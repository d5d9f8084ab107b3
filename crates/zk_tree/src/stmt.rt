use crate::expr::{Expr, Item};
use crate::name::Name;
use crate::types::Type;
use sqlite_items::{Boxed, Items};

/// An initial value.
#[derive(Debug, Drop)]
pub enum Init {
    /// An expression.
    Value {
        value: Expr,
    },
    /// `{ a, b }`, with a comma behind the last value where `comma` says so.
    Braces {
        place: u64,
        values: Items<Expr>,
        comma: bool,
    },
}

/// Statements between braces.
#[derive(Debug, Drop)]
#[cycle(stmt)]
pub struct Block {
    pub place: u64,
    pub stmts: Items<Stmt>,
}

/// What a `for` names at each turn.
#[derive(Debug, Drop)]
pub enum Keys {
    /// `NAME`
    One { name: Name },
    /// `[NAME, ..]`
    Several { names: Items<Name> },
}

/// A statement (Zeek manual, Statements). One that begins with a token of its own has the place of its
/// first byte; that of an expression or a block is its part's.
#[derive(Debug, Drop)]
#[cycle(stmt)]
pub enum Stmt {
    /// `{ .. }`
    Block {
        block: Block,
    },
    /// `;`
    Empty {
        place: u64,
    },
    /// `if ( TEST ) YES`
    If {
        place: u64,
        test: Expr,
        yes: Boxed<Stmt>,
    },
    /// `if ( TEST ) YES else NO`
    IfElse {
        place: u64,
        test: Expr,
        yes: Boxed<Stmt>,
        no: Boxed<Stmt>,
    },
    /// `while ( TEST ) BODY`
    While {
        place: u64,
        test: Expr,
        body: Boxed<Stmt>,
    },
    /// `for ( KEYS in OVER ) BODY` or `for ( KEYS, VALUE in OVER ) BODY`
    For {
        place: u64,
        keys: Keys,
        value: Option<Name>,
        over: Expr,
        body: Boxed<Stmt>,
    },
    /// `local NAME: TYPE = INIT;`
    Local {
        place: u64,
        name: Name,
        local_type: Option<Type>,
        init: Option<Init>,
    },
    /// `print VALUE, ..;`
    Print {
        place: u64,
        values: Items<Expr>,
    },
    /// `event NAME(..);`
    Event {
        place: u64,
        name: Name,
        items: Items<Item>,
    },
    /// `schedule DELAY { NAME(..) };`
    Schedule {
        place: u64,
        delay: Expr,
        name: Name,
        items: Items<Item>,
    },
    /// `add ELEMENT;`
    Add {
        place: u64,
        element: Expr,
    },
    /// `delete ELEMENT;`
    Delete {
        place: u64,
        element: Expr,
    },
    /// `return;` or `return VALUE;`
    Return {
        place: u64,
        value: Option<Expr>,
    },
    /// `next;`
    Next {
        place: u64,
    },
    /// `break;`
    Break {
        place: u64,
    },
    /// `VALUE;`
    Expr {
        value: Expr,
    },
}
