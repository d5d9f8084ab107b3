//! Typed programs of the whole language: scripts in which each name is replaced by what it stands for, each
//! conversion is written out, and the attributes stand where they count.

mod action;
mod expr;
mod literal;
mod log_call;
mod primitive;
mod program;
mod stmt;
mod types;

pub use action::{Action, Left};
pub use expr::{Expr, Given};
pub use literal::{DefaultValue, Literal, Sign};
pub use log_call::LogCall;
pub use primitive::{Binary, BuiltIn, Direction, FieldNo, Primitive, Relation, Shape, Unary};
pub use program::{
    Event, Field, Function, Global, Handler, Hook, HookBody, Log, Program, RecordType,
};
pub use stmt::{Names, Stmt};
pub use types::{SimpleType, ValueType};
