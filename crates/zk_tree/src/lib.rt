//! Tokens and syntax trees of scripts, each with its place in the text, and the predefined events.
#![tactic(auto)]

mod decl;
mod events;
mod expiry;
mod expr;
mod keyword;
mod laws;
mod name;
mod operator;
mod place;
mod places;
mod stmt;
mod token;
mod types;

pub use decl::{BodyKind, Decl, Lasting, Redefining, Redefinition, Tree};
pub use events::{ZEEK_DONE, ZEEK_INIT};
pub use expiry::Expiry;
pub use expr::{Expr, Item, Link, Literal, Part};
pub use keyword::{Keyword, Mark};
pub use laws::{equal_values, first_dues};
pub use name::Name;
pub use operator::{Assigning, Comparing, Container, Level, Operator, Prefix, TimeUnit};
pub use place::Place;
pub use stmt::{Block, Init, Keys, Stmt};
pub use token::{Sign, Token, TokenKind};
pub use types::{Atomic, Attr, Field, Param, Type};
