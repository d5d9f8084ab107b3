ghost use Rattle.std.specs.Prelude.{◌≡◌};
ghost use Rattle.zk_machine.specs.declared.halt.Halt.TheVariants.{NoMemory};
ghost use Rattle.zk_machine.specs.Halted.{halted_by};

use std::alloc::{AllocError, AllocFailed};
use zk_base::Mem;
use zk_builtin::OperatorFault;
use zk_typed::FaultKind;

/// What stops a statement before it is done.
#[derive(Clone, Copy, Debug, PartialEq, Eq)]
pub enum Halt {
    /// Something went wrong.
    Fault(FaultKind),
    /// A unit was wanted, and none was left.
    Spent,
    /// Memory ran out.
    NoMemory,
}

impl From<OperatorFault> for Halt {
    ghost from_gives = { λ fault halt. halt ≡ halted_by fault };

    fn from(fault: OperatorFault) -> Halt {
        match fault {
            OperatorFault::Fault(kind) => Halt::Fault(kind),
            OperatorFault::NoMemory => Halt::NoMemory,
        }
    }
}

impl From<Mem> for Halt {
    ghost from_gives = { λ _ halt. halt ≡ NoMemory };

    fn from(_: Mem) -> Halt {
        Halt::NoMemory
    }
}

impl From<AllocError> for Halt {
    ghost from_gives = { λ _ halt. halt ≡ NoMemory };

    fn from(_: AllocError) -> Halt {
        Halt::NoMemory
    }
}

impl<T: Drop> From<AllocFailed<T>> for Halt {
    ghost from_gives = { λ _ halt. halt ≡ NoMemory };

    fn from(_: AllocFailed<T>) -> Halt {
        Halt::NoMemory
    }
}
