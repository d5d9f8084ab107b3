ghost use Rattle.std.specs.Prelude.{◌≡◌};
ghost use Rattle.zk_outcome.specs.declared.stop.Stop.TheVariants.{NoMemory};
ghost use Rattle.zk_outcome.specs.Stop.{written_by};

use std::alloc::{AllocError, AllocFailed};
use zk_base::{Ending, Mem, Wrote};

/// What stops a run before its end.
#[derive(Clone, Copy, Debug, PartialEq, Eq)]
pub enum Stop {
    /// An input failed.
    ReadFault,
    /// An output failed.
    WriteFault,
    /// Memory ran out.
    NoMemory,
}

/// What a write comes to: it is done, or it stops the run.
pub fn written(wrote: Wrote) -> Result<(), Stop>
    ensures { result ≡ written_by wrote }
{
    match wrote {
        Wrote::Done => Ok(()),
        Wrote::Failed => Err(Stop::WriteFault),
        Wrote::NoMemory => Err(Stop::NoMemory),
    }
}

impl From<Mem> for Stop {
    ghost from_gives = { λ _ stop. stop ≡ NoMemory };

    fn from(_: Mem) -> Stop {
        Stop::NoMemory
    }
}

impl From<AllocError> for Stop {
    ghost from_gives = { λ _ stop. stop ≡ NoMemory };

    fn from(_: AllocError) -> Stop {
        Stop::NoMemory
    }
}

impl<T: Drop> From<AllocFailed<T>> for Stop {
    ghost from_gives = { λ _ stop. stop ≡ NoMemory };

    fn from(_: AllocFailed<T>) -> Stop {
        Stop::NoMemory
    }
}

impl From<Stop> for Ending {
    ghost use Rattle.zk_outcome.specs.Stop.{ending_of};

    ghost from_gives = { λ stop ending. ending ≡ ending_of stop };

    fn from(stop: Stop) -> Ending {
        match stop {
            Stop::ReadFault => Ending::ReadFault,
            Stop::WriteFault => Ending::WriteFault,
            Stop::NoMemory => Ending::NoMemory,
        }
    }
}
