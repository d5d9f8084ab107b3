ghost use Rattle.std.specs.Prelude.{◌≡◌};
ghost use Rattle.zk_token.specs.declared.fault.LexFault.TheVariants as fault;

use std::alloc::AllocFailed;
use thiserror::Error;
use zk_base::Mem;

/// Why a text was not read as tokens. A place is that of a byte in the text, from 0.
#[derive(Clone, Copy, Debug, PartialEq, Eq, Error)]
pub enum LexFault {
    /// The byte begins no token, or it is the backslash of an escape that isn't one.
    #[error("no token begins at byte {place}")]
    BadByte { place: u64 },
    /// The quote opens a string that isn't closed on its line.
    #[error("the string at byte {place} isn't closed")]
    OpenString { place: u64 },
    /// The digit begins a number past 2^64 - 1.
    #[error("the number at byte {place} is too great")]
    BigNumber { place: u64 },
    /// Memory ran out.
    #[error("out of memory")]
    NoMemory,
}

impl From<Mem> for LexFault {
    ghost from_gives = { λ _ e. e ≡ fault.NoMemory };

    fn from(_: Mem) -> LexFault {
        LexFault::NoMemory
    }
}

impl<T: Drop> From<AllocFailed<T>> for LexFault {
    ghost from_gives = { λ _ e. e ≡ fault.NoMemory };

    fn from(_: AllocFailed<T>) -> LexFault {
        LexFault::NoMemory
    }
}
