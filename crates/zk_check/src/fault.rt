ghost use Rattle.std.specs.Prelude.{◌≡◌};
ghost use Rattle.zk_check.specs.declared.fault.CheckFault.TheVariants as fault;
ghost use Rattle.zk_check.specs.Faults.{fault_of};

use thiserror::Error;
use zk_base::Mem;
use zk_typed::{Broken, Rule};

/// Why scripts were not checked to their end: a rule of names and types that is broken, with the number of
/// its file and the place of the construct that breaks it.
#[derive(Clone, Copy, Debug, PartialEq, Eq, Error)]
pub enum CheckFault {
    /// A name means nothing that is visible.
    #[error("nothing visible has the name at byte {place} of file {file}")]
    Unknown { file: usize, place: u64 },
    /// Something is declared twice, or two streams or filters share a path but not their columns.
    #[error("what stands at byte {place} of file {file} is there already")]
    Twice { file: usize, place: u64 },
    /// A value has another type than its place asks.
    #[error("another type is wanted at byte {place} of file {file}")]
    WrongType { file: usize, place: u64 },
    /// A record lacks a field.
    #[error("a record lacks a field at byte {place} of file {file}")]
    Field { file: usize, place: u64 },
    /// A record type reaches itself, or a type nests more than 200 deep.
    #[error("the type at byte {place} of file {file} nests too deep")]
    Recursive { file: usize, place: u64 },
    /// What has to be a literal or an empty container is neither.
    #[error("the value at byte {place} of file {file} is no literal")]
    NotConst { file: usize, place: u64 },
    /// A constant is assigned, or a name is given a value anew that isn't marked `&redef`.
    #[error("what is assigned at byte {place} of file {file} is fixed")]
    FixedGlobal { file: usize, place: u64 },
    /// Other arguments or parameters than were declared.
    #[error("other arguments are declared than stand at byte {place} of file {file}")]
    Arguments { file: usize, place: u64 },
    /// `return` has a value where none is declared, or none where one is.
    #[error("a return at byte {place} of file {file} doesn't give what is declared")]
    Return { file: usize, place: u64 },
    /// `break` or `next` stands where it may not.
    #[error("nothing is left or gone on with at byte {place} of file {file}")]
    Break { file: usize, place: u64 },
    /// An attribute stands where it may not.
    #[error("the attribute at byte {place} of file {file} may not stand there")]
    Attribute { file: usize, place: u64 },
    /// A text doesn't fit its use.
    #[error("the text at byte {place} of file {file} doesn't fit its use")]
    Format { file: usize, place: u64 },
    /// Memory ran out.
    #[error("out of memory")]
    NoMemory,
}

impl From<Mem> for CheckFault {
    ghost from_gives = { λ _ e. e ≡ fault.NoMemory };

    fn from(_: Mem) -> CheckFault {
        CheckFault::NoMemory
    }
}

/// A broken rule as a fault.
pub fn fault_of(one: Broken) -> CheckFault
    ensures { result ≡ fault_of one }
{
    let file = one.place.file;
    let place = one.place.byte;
    match one.rule {
        Rule::Unknown => CheckFault::Unknown { file, place },
        Rule::Twice => CheckFault::Twice { file, place },
        Rule::WrongType => CheckFault::WrongType { file, place },
        Rule::Field => CheckFault::Field { file, place },
        Rule::Recursive => CheckFault::Recursive { file, place },
        Rule::NotConst => CheckFault::NotConst { file, place },
        Rule::FixedGlobal => CheckFault::FixedGlobal { file, place },
        Rule::Arguments => CheckFault::Arguments { file, place },
        Rule::Return => CheckFault::Return { file, place },
        Rule::Break => CheckFault::Break { file, place },
        Rule::Attribute => CheckFault::Attribute { file, place },
        Rule::Format => CheckFault::Format { file, place },
    }
}
