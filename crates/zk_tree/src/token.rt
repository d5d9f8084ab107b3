use zk_base::{Bytes, Proto};

/// A token of a script.
#[derive(Debug, PartialEq, Eq, Drop)]
pub struct Token {
    /// What it is.
    pub kind: TokenKind,
    /// The place of its first byte in the text.
    pub place: u64,
}

/// What a token is (Zeek manual, Script Reference).
#[derive(Debug, PartialEq, Eq, Drop)]
pub enum TokenKind {
    /// A letter or `_`, then letters, digits and `_`, or two such joined by `::`. Reserved words are
    /// names too.
    Name(Bytes),
    /// Decimal digits, below 2^64.
    Number(u64),
    /// A port and its protocol: `80/tcp`.
    Port { port: u16, proto: Proto },
    /// An IPv4 address, as the number that its bytes make in network order.
    Address(u32),
    /// An IPv4 address and a width of 0 to 32 bits, `10.0.0.0/8`. The bits of `prefix` behind the width
    /// are 0.
    Subnet { prefix: u32, width: u8 },
    /// The bytes of a string, each escape replaced by its byte.
    String(Bytes),
    /// `&` and a name: the name.
    Attribute(Bytes),
    /// `@load` and the name of a file: the file's name.
    Load(Bytes),
    /// A sign.
    Sign(Sign),
}

/// A sign of the script language.
#[derive(Clone, Copy, Debug, PartialEq, Eq)]
pub enum Sign {
    /// `(`
    OpenParenthesis,
    /// `)`
    CloseParenthesis,
    /// `[`
    OpenBracket,
    /// `]`
    CloseBracket,
    /// `{`
    OpenBrace,
    /// `}`
    CloseBrace,
    /// `,`
    Comma,
    /// `;`
    Semicolon,
    /// `:`
    Colon,
    /// `?`
    Question,
    /// `$`
    Dollar,
    /// `?$`
    QuestionDollar,
    /// `=`
    Equal,
    /// `==`
    EqualEqual,
    /// `!=`
    NotEqual,
    /// `<`
    Less,
    /// `<=`
    LessEqual,
    /// `>`
    Greater,
    /// `>=`
    GreaterEqual,
    /// `+`
    Plus,
    /// `-`
    Minus,
    /// `*`
    Star,
    /// `/`
    Slash,
    /// `%`
    Percent,
    /// `!`
    Not,
    /// `!in`
    NotIn,
    /// `&&`
    And,
    /// `||`
    Or,
    /// `+=`
    PlusEqual,
    /// `-=`
    MinusEqual,
    /// `++`
    PlusPlus,
    /// `--`
    MinusMinus,
    /// `|`
    Bar,
}
