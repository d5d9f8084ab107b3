ghost use Rattle.std.specs.Prelude.{◌≡◌, All, IsUtf8, IfOk, IfErr};
ghost use Rattle.std.specs.Vec.Iter.{into_iter_items};
ghost use Rattle.zk_system.specs.Arguments.{exit_status, words_behind_name};

use std::alloc::{AllocError, Global};
use std::env::{Args, Env};
use std::{env, io};
use zk_base::{Bytes, Ending, Word};

/// Why the words of the command line can't be had. Nothing is said of it but the exit status.
#[derive(Clone, Copy, Debug, PartialEq, Eq)]
pub enum ArgumentFault {
    /// Memory ran out.
    NoMemory,
    /// The system doesn't give them as UTF-8 texts.
    NotText,
}

impl ArgumentFault {
    /// The exit status of the program.
    pub fn status(self) -> u8
        ensures { result ≡ exit_status self }
    {
        match self {
            ArgumentFault::NoMemory => Ending::NoMemory.status(),
            ArgumentFault::NotText => 10,
        }
    }
}

impl From<io::Error> for ArgumentFault {
    ghost use Rattle.std.specs.IoError.{error_kind};
    ghost use Rattle.zk_system.specs.Arguments.{fault_of};

    ghost from_gives = { λ error fault. fault ≡ fault_of (error_kind error) };

    fn from(error: io::Error) -> ArgumentFault {
        match error.kind() {
            io::ErrorKind::OutOfMemory => ArgumentFault::NoMemory,
            _ => ArgumentFault::NotText,
        }
    }
}

impl From<AllocError> for ArgumentFault {
    ghost use Rattle.zk_system.specs.declared.arguments.ArgumentFault.TheVariants.{NoMemory};

    ghost from_gives = { λ _ fault. fault ≡ NoMemory };

    fn from(_: AllocError) -> ArgumentFault {
        ArgumentFault::NoMemory
    }
}

/// The words of the command line, without the program's own name. All are texts.
pub fn words<R: Env + AllocGlobal>(rt: &R) -> Result<Vec<Word>, ArgumentFault>
    ensures texts { IfOk result (λ words. All IsUtf8 words.items) }
{
    let arguments = env::args(rt)?;
    words_of(rt.alloc(), arguments)
}

/// The words of some arguments, of which the first is the program's name.
fn words_of(alloc: Global, arguments: Args) -> Result<Vec<Word>, ArgumentFault>
    ensures words { IfOk result (λ words. words.items ≡ words_behind_name (into_iter_items arguments)) }
    ensures memory { IfErr result (λ fault. fault ≡ ArgumentFault.NoMemory) }
{
    let words = arguments
        .skip(1)
        .map(|argument| Word::from(Bytes::from(argument.into_bytes())))
        .collect(alloc)?;
    Ok(words)
}
