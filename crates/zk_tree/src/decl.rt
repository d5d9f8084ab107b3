use crate::expr::Expr;
use crate::name::Name;
use crate::stmt::{Block, Init};
use crate::types::{Attr, Field, Param, Type};
use sqlite_items::Items;
use zk_base::Bytes;

/// The declarations of a text, in order.
#[derive(Debug, Drop)]
pub struct Tree {
    pub decls: Items<Decl>,
}

/// A declaration (Zeek manual, Declarations), with the place of its first byte.
#[derive(Debug, Drop)]
pub enum Decl {
    /// `module NAME;`
    Module {
        place: u64,
        name: Name,
    },
    /// `export { .. }`
    Export {
        place: u64,
        decls: Items<Decl>,
    },
    /// `@load FILE`
    Load {
        place: u64,
        file: Bytes,
    },
    /// `global NAME: TYPE = INIT ATTRIBUTES;`, or with `const`
    Variable {
        place: u64,
        lasting: Lasting,
        name: Name,
        variable_type: Option<Type>,
        init: Option<Init>,
        attrs: Items<Attr>,
    },
    /// `redef NAME = INIT;` or `redef NAME += INIT;`
    Redef {
        place: u64,
        name: Name,
        operator: Redefining,
        init: Init,
    },
    /// `redef enum NAME += { .. };`, with a comma behind the last word where `comma` says so
    RedefEnum {
        place: u64,
        name: Name,
        words: Items<Name>,
        comma: bool,
    },
    /// `redef record NAME += { .. };`
    RedefRecord {
        place: u64,
        name: Name,
        fields: Items<Field>,
    },
    /// `type NAME: TYPE;`
    Type {
        place: u64,
        name: Name,
        meant: Type,
    },
    /// `event NAME(..) ATTRIBUTES { .. }`, or with `hook`
    Body {
        place: u64,
        kind: BodyKind,
        name: Name,
        params: Items<Param>,
        attrs: Items<Attr>,
        body: Block,
    },
    /// `function NAME(..): RESULT { .. }`
    Function {
        place: u64,
        name: Name,
        params: Items<Param>,
        result_type: Option<Type>,
        body: Block,
    },
}

/// Whether a variable can be assigned.
#[derive(Clone, Copy, Debug, PartialEq, Eq)]
pub enum Lasting {
    /// `global`
    Global,
    /// `const`
    Const,
}

/// What stands behind `redef`.
#[derive(Debug, Drop)]
pub enum Redefinition {
    /// `NAME = INIT` or `NAME += INIT`
    Value {
        name: Name,
        operator: Redefining,
        init: Init,
    },
    /// `enum NAME += { .. }`, with a comma behind the last word where `comma` says so
    Enum {
        name: Name,
        words: Items<Name>,
        comma: bool,
    },
    /// `record NAME += { .. }`
    Record {
        name: Name,
        fields: Items<Field>,
    },
}

/// How a value is given anew.
#[derive(Clone, Copy, Debug, PartialEq, Eq)]
pub enum Redefining {
    /// `=`
    Set,
    /// `+=`
    Add,
}

/// What a body belongs to.
#[derive(Clone, Copy, Debug, PartialEq, Eq)]
pub enum BodyKind {
    /// `event`
    Event,
    /// `hook`
    Hook,
}
