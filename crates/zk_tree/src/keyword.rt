ghost use Rattle.std.specs.Prelude.{◌≡◌};
ghost use Rattle.zk_tree.specs.Marks.{text_of, keyword_of};

use crate::token::Sign;

/// A reserved word. No name that a script gives is one.
#[derive(Clone, Copy, Debug, PartialEq, Eq)]
pub enum Keyword {
    Module,
    Export,
    Global,
    Const,
    Redef,
    Type,
    Enum,
    Record,
    Event,
    Hook,
    Function,
    Bool,
    Count,
    Int,
    String,
    Time,
    Interval,
    Addr,
    Port,
    Subnet,
    Table,
    Of,
    Set,
    Vector,
    If,
    Else,
    While,
    For,
    In,
    Local,
    Print,
    Schedule,
    Add,
    Delete,
    Return,
    Next,
    Break,
    True,
    False,
}

/// A sign or a reserved word.
#[derive(Clone, Copy, Debug, PartialEq, Eq)]
pub enum Mark {
    Sign(Sign),
    Word(Keyword),
}

/// Every reserved word.
const ALL: [Keyword; 39] = [
    Keyword::Module,
    Keyword::Export,
    Keyword::Global,
    Keyword::Const,
    Keyword::Redef,
    Keyword::Type,
    Keyword::Enum,
    Keyword::Record,
    Keyword::Event,
    Keyword::Hook,
    Keyword::Function,
    Keyword::Bool,
    Keyword::Count,
    Keyword::Int,
    Keyword::String,
    Keyword::Time,
    Keyword::Interval,
    Keyword::Addr,
    Keyword::Port,
    Keyword::Subnet,
    Keyword::Table,
    Keyword::Of,
    Keyword::Set,
    Keyword::Vector,
    Keyword::If,
    Keyword::Else,
    Keyword::While,
    Keyword::For,
    Keyword::In,
    Keyword::Local,
    Keyword::Print,
    Keyword::Schedule,
    Keyword::Add,
    Keyword::Delete,
    Keyword::Return,
    Keyword::Next,
    Keyword::Break,
    Keyword::True,
    Keyword::False,
];

impl Keyword {
    /// The bytes of the word.
    pub fn text(self) -> &'static [u8]
        ensures { result.now ≡ text_of self }
    {
        match self {
            Keyword::Module => b"module",
            Keyword::Export => b"export",
            Keyword::Global => b"global",
            Keyword::Const => b"const",
            Keyword::Redef => b"redef",
            Keyword::Type => b"type",
            Keyword::Enum => b"enum",
            Keyword::Record => b"record",
            Keyword::Event => b"event",
            Keyword::Hook => b"hook",
            Keyword::Function => b"function",
            Keyword::Bool => b"bool",
            Keyword::Count => b"count",
            Keyword::Int => b"int",
            Keyword::String => b"string",
            Keyword::Time => b"time",
            Keyword::Interval => b"interval",
            Keyword::Addr => b"addr",
            Keyword::Port => b"port",
            Keyword::Subnet => b"subnet",
            Keyword::Table => b"table",
            Keyword::Of => b"of",
            Keyword::Set => b"set",
            Keyword::Vector => b"vector",
            Keyword::If => b"if",
            Keyword::Else => b"else",
            Keyword::While => b"while",
            Keyword::For => b"for",
            Keyword::In => b"in",
            Keyword::Local => b"local",
            Keyword::Print => b"print",
            Keyword::Schedule => b"schedule",
            Keyword::Add => b"add",
            Keyword::Delete => b"delete",
            Keyword::Return => b"return",
            Keyword::Next => b"next",
            Keyword::Break => b"break",
            Keyword::True => b"T",
            Keyword::False => b"F",
        }
    }

    /// The reserved word of these bytes.
    #[tactic(auto, unfolding(crate::specs::Marks::keyword_of))]
    pub fn of(name: &[u8]) -> Option<Keyword>
        ensures { result ≡ keyword_of name.now }
    {
        ALL.iter().copied().find(|keyword| name == keyword.text())
    }
}
