ghost use Rattle.std.specs.Prelude.{◌≡◌};
ghost use Rattle.zk_base.specs.Ending.{exit_status, kind_name};

use crate::{Bytes, Moment};

/// How a run of the program ends.
#[derive(Debug, PartialEq, Eq, Drop)]
pub enum Ending {
    /// All that was asked for was done.
    Done,
    /// The words are no command. `word` is the least n such that words 0 to n begin no command,
    /// or the number of words.
    Usage {
        word: usize,
    },
    /// A script was refused, at a byte of a file.
    ScriptRefused {
        file: Bytes,
        place: u64,
        kind: ScriptKind,
    },
    /// No input has this name.
    NoInput {
        name: Bytes,
    },
    /// The header of a capture was refused, at a byte of the file.
    CaptureRefused {
        name: Bytes,
        place: u64,
    },
    /// The capture is cut: at this byte of the file begins a record that isn't whole, or that says
    /// more bytes were captured than a record may have.
    CutShort {
        name: Bytes,
        place: u64,
    },
    /// An input failed while it was opened or read.
    ReadFault,
    /// An output failed while it was made or written.
    WriteFault,
    /// Memory ran out.
    NoMemory,
    /// After the beginning, or after an item of the capture, more than 1,000,000 events were to be
    /// dispatched. `moment` is network time then.
    Flood {
        moment: Moment,
    },
}

/// Why a script was refused. So far `TooLarge`, the kinds of tokens (`BadByte`, `OpenString`,
/// `BigNumber`) and `NoTree` occur; the others come with the rules that they name.
#[derive(Clone, Copy, Debug, PartialEq, Eq)]
pub enum ScriptKind {
    /// The file has more than 1,048,576 bytes.
    TooLarge,
    /// More than 256 files are loaded.
    TooMany,
    /// A byte begins no token, or a string has an escape that isn't one.
    BadByte,
    /// A string isn't closed on its line.
    OpenString,
    /// A number is past 2^64 - 1.
    BigNumber,
    /// No declaration reads from here.
    NoTree,
    /// A name means nothing visible.
    Unknown,
    /// Something is declared twice, two logs of one path have different columns, or a path is that of
    /// `reporter`.
    Twice,
    /// A value has another type than its place asks.
    WrongType,
    /// A record lacks a field, or a constructor one that it needs.
    Field,
    /// A record type reaches itself, or the parts of a type nest more than 200 deep.
    Recursive,
    /// A value that has to be a literal isn't one.
    NotConst,
    /// A constant is assigned to, or a name redefined that may not be.
    FixedGlobal,
    /// The arguments or parameters are others in number or type.
    Arguments,
    /// A return with a value where none is declared, or without one where it is.
    Return,
    /// A `break` or `next` where none may stand.
    Break,
    /// An attribute that its place doesn't take.
    Attribute,
    /// A format text, path or filter name that can't be used.
    Format,
}

impl Ending {
    /// The exit status of the program: 0 for `Done` alone.
    pub fn status(&self) -> u8
        ensures { result ≡ exit_status self.now }
    {
        match self {
            Ending::Done => 0,
            Ending::Usage { .. } => 1,
            Ending::ScriptRefused { .. } => 2,
            Ending::CaptureRefused { .. } => 3,
            Ending::CutShort { .. } => 4,
            Ending::ReadFault => 5,
            Ending::WriteFault => 6,
            Ending::NoMemory => 7,
            Ending::Flood { .. } => 8,
            Ending::NoInput { .. } => 9,
        }
    }
}

impl ScriptKind {
    /// The bare name of the kind, as a complaint gives it.
    pub fn name(self) -> &'static [u8]
        ensures { result.now ≡ kind_name self }
    {
        match self {
            ScriptKind::TooLarge => b"TooLarge",
            ScriptKind::TooMany => b"TooMany",
            ScriptKind::BadByte => b"BadByte",
            ScriptKind::OpenString => b"OpenString",
            ScriptKind::BigNumber => b"BigNumber",
            ScriptKind::NoTree => b"NoTree",
            ScriptKind::Unknown => b"Unknown",
            ScriptKind::Twice => b"Twice",
            ScriptKind::WrongType => b"WrongType",
            ScriptKind::Field => b"Field",
            ScriptKind::Recursive => b"Recursive",
            ScriptKind::NotConst => b"NotConst",
            ScriptKind::FixedGlobal => b"FixedGlobal",
            ScriptKind::Arguments => b"Arguments",
            ScriptKind::Return => b"Return",
            ScriptKind::Break => b"Break",
            ScriptKind::Attribute => b"Attribute",
            ScriptKind::Format => b"Format",
        }
    }
}
