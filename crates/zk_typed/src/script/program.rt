use crate::script::expr::Expr;
use crate::script::literal::DefaultValue;
use crate::script::stmt::Stmt;
use crate::script::types::ValueType;
use zk_base::{Bytes, EventNo, RecordNo, Sequence};
use zk_tree::{Expiry, Place};

/// A typed program. Its files, record types, logs, globals, functions, hooks and handlers stand in load
/// order, and each is named by its number in that order, from 0.
#[derive(Debug, Drop)]
pub struct Program {
    /// The names of the files.
    pub files: Sequence<Bytes>,
    pub records: Sequence<RecordType>,
    /// The words of `Log::ID`.
    pub logs: Sequence<Log>,
    /// The globals and constants.
    pub globals: Sequence<Global>,
    pub functions: Sequence<Function>,
    pub hooks: Sequence<Hook>,
    pub events: Sequence<Event>,
    pub handlers: Sequence<Handler>,
}

/// A record type (Zeek manual, Types, record): its fields in order, those of `redef record` last.
#[derive(Debug, Drop)]
pub struct RecordType {
    pub fields: Sequence<Field>,
}

/// A field of a record type.
#[derive(Debug, Drop)]
pub struct Field {
    pub name: Bytes,
    pub field_type: ValueType,
    /// `&log`: it is a column of the streams whose record type this is.
    pub log: bool,
    /// `&wire`: it counts packets, which another cut of the same streams may change.
    pub wire: bool,
    /// What it begins with where a constructor doesn't give it.
    pub begins: Option<DefaultValue>,
}

/// A word of `Log::ID`, and the record type of the columns of its stream, where the program creates one.
#[derive(Debug, Drop)]
pub struct Log {
    pub word: Bytes,
    pub columns: Option<RecordNo>,
}

/// A global or a constant (Zeek manual, Declarations, global).
#[derive(Debug, Drop)]
pub struct Global {
    /// Of its declaration.
    pub place: Place,
    pub global_type: ValueType,
    /// Its last `=`, or the empty value of its type.
    pub initial: Option<Expr>,
    /// The values of each `+=` after that, in load order.
    pub added: Sequence<Expr>,
    /// When its entries expire, where they do.
    pub expiry: Option<Expiry>,
    /// `&expire_func`: the function that is called with a table and a key before the key's entry expires.
    pub expire_func: Option<u32>,
}

/// A function (Zeek manual, Declarations, function).
#[derive(Debug, Drop)]
pub struct Function {
    pub params: Sequence<ValueType>,
    pub result: Option<ValueType>,
    /// How many parameters and locals its body has.
    pub locals: u32,
    pub body: Stmt,
}

/// A hook (Zeek manual, Types, hook), with its bodies in load order.
#[derive(Debug, Drop)]
pub struct Hook {
    pub params: Sequence<ValueType>,
    pub bodies: Sequence<HookBody>,
}

/// A body of a hook.
#[derive(Debug, Drop)]
pub struct HookBody {
    /// `&priority`: bodies of a greater one run first.
    pub priority: i64,
    /// How many parameters and locals it has.
    pub locals: u32,
    pub body: Stmt,
}

/// An event (Zeek manual, Types, event).
#[derive(Debug, Drop)]
pub struct Event {
    pub name: Bytes,
    pub params: Sequence<ValueType>,
}

/// A handler of an event.
#[derive(Debug, Drop)]
pub struct Handler {
    pub event: EventNo,
    /// `&priority`: handlers of a greater one run first.
    pub priority: i64,
    /// How many parameters and locals its body has.
    pub locals: u32,
    pub body: Stmt,
}
