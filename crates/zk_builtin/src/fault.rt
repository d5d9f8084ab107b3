ghost use Rattle.std.specs.Prelude.{◌≡◌};
ghost use Rattle.zk_builtin.specs.declared.fault.BuiltinFault.TheVariants.{NoMemory};
ghost use Rattle.zk_builtin.specs.declared.fault.OperatorFault.TheVariants as operator;

use std::alloc::{AllocError, AllocFailed};
use thiserror::Error;
use zk_base::Mem;
use zk_typed::FaultKind;

/// The length of the longest string, in bytes.
pub const STRING_LENGTH_MAX: usize = 1_048_576;

/// Why a built-in function gives no value.
#[derive(Clone, Copy, Debug, PartialEq, Eq, Error)]
pub enum BuiltinFault {
    /// The string would be longer than 1,048,576 bytes.
    #[error("a string would be longer than 1048576 bytes")]
    TooLong,
    /// Want of memory.
    #[error("out of memory")]
    NoMemory,
}

impl From<Mem> for BuiltinFault {
    ghost from_gives = { λ _ fault. fault ≡ NoMemory };

    fn from(_: Mem) -> BuiltinFault {
        BuiltinFault::NoMemory
    }
}

impl From<AllocError> for BuiltinFault {
    ghost from_gives = { λ _ fault. fault ≡ NoMemory };

    fn from(_: AllocError) -> BuiltinFault {
        BuiltinFault::NoMemory
    }
}

impl<T: Drop> From<AllocFailed<T>> for BuiltinFault {
    ghost from_gives = { λ _ fault. fault ≡ NoMemory };

    fn from(_: AllocFailed<T>) -> BuiltinFault {
        BuiltinFault::NoMemory
    }
}

/// Why an operator gives no value.
#[derive(Clone, Copy, Debug, PartialEq, Eq, Error)]
pub enum OperatorFault {
    /// What the statement is at fault with. Operands of other types, which no typed program has, are
    /// `Unset`.
    #[error("a fault of the statement")]
    Fault(FaultKind),
    /// Want of memory.
    #[error("out of memory")]
    NoMemory,
}

impl From<Mem> for OperatorFault {
    ghost from_gives = { λ _ fault. fault ≡ operator.NoMemory };

    fn from(_: Mem) -> OperatorFault {
        OperatorFault::NoMemory
    }
}

impl From<AllocError> for OperatorFault {
    ghost from_gives = { λ _ fault. fault ≡ operator.NoMemory };

    fn from(_: AllocError) -> OperatorFault {
        OperatorFault::NoMemory
    }
}
