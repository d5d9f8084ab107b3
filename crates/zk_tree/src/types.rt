use crate::expr::Expr;
use crate::name::Name;
use sqlite_items::{Boxed, Items};
use zk_base::Bytes;

/// A type (Zeek manual, Types). A type has the place of its first byte.
#[derive(Debug, Drop)]
#[cycle(types)]
pub enum Type {
    /// `bool`, `count` and the like.
    Atomic {
        place: u64,
        atomic: Atomic,
    },
    /// A name.
    Named {
        name: Name,
    },
    /// `table[KEY, ..] of VALUE`
    Table {
        place: u64,
        keys: Items<Type>,
        value: Boxed<Type>,
    },
    /// `set[KEY, ..]`
    Set {
        place: u64,
        keys: Items<Type>,
    },
    /// `vector of ITEM`
    Vector {
        place: u64,
        item: Boxed<Type>,
    },
    /// `record { .. }`
    Record {
        place: u64,
        fields: Items<Field>,
    },
    /// `enum { .. }`, with a comma behind the last word where `comma` says so.
    Enum {
        place: u64,
        words: Items<Name>,
        comma: bool,
    },
    /// `event (..)`
    Event {
        place: u64,
        params: Items<Param>,
    },
    /// `hook (..)`
    Hook {
        place: u64,
        params: Items<Param>,
    },
    /// `function (..)`
    Procedure {
        place: u64,
        params: Items<Param>,
    },
    /// `function (..): RESULT`
    Function {
        place: u64,
        params: Items<Param>,
        result: Boxed<Type>,
    },
}

/// A type whose values have no parts.
#[derive(Clone, Copy, Debug, PartialEq, Eq)]
pub enum Atomic {
    Bool,
    Count,
    Int,
    String,
    Time,
    Interval,
    Addr,
    Port,
    Subnet,
}

/// A field of a record, `NAME: TYPE ATTRIBUTES;`.
#[derive(Debug, Drop)]
#[cycle(types)]
pub struct Field {
    pub name: Name,
    pub field_type: Type,
    pub attrs: Items<Attr>,
}

/// A parameter, `NAME: TYPE`.
#[derive(Debug, Drop)]
#[cycle(types)]
pub struct Param {
    pub name: Name,
    pub param_type: Type,
}

/// An attribute, `&NAME` or `&NAME=VALUE`.
#[derive(Debug, Drop)]
pub struct Attr {
    pub place: u64,
    pub name: Bytes,
    pub value: Option<Expr>,
}
