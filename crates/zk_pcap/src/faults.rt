ghost use Rattle.std.specs.Prelude.{◌≡◌, ◌≢◌};
ghost use Rattle.zk_pcap.specs.CaptureFault.{place_of};
ghost use Rattle.zk_pcap.specs.declared.faults.CaptureFault.TheVariants.{NoMemory};

use crate::headers::{LINK, MAGIC, MAJOR};
use thiserror::Error;
use zk_base::Mem;

/// Why a capture was refused.
#[derive(Clone, Copy, Debug, PartialEq, Eq, Error)]
pub enum CaptureFault {
    /// The file ends within its header, at this place.
    #[error("the file ends within the header, at byte {place}")]
    Short { place: u64 },
    /// The file begins with no magic number of a capture.
    #[error("the file begins with no magic number of a capture")]
    Magic,
    /// The version of the format isn't 2.4.
    #[error("the version of the format is not 2.4")]
    Version,
    /// The frames are of a link type that isn't read.
    #[error("the frames are of a link type that is not read")]
    Link,
    /// Memory ran out.
    #[error("out of memory")]
    NoMemory,
}

impl CaptureFault {
    /// The place in the file that was refused. Not to be asked of `NoMemory`, which refuses none.
    pub fn place(&self) -> u64
        requires { self.now ≢ NoMemory }
        ensures { result ≡ place_of self.now }
    {
        match self {
            CaptureFault::Short { place } => *place,
            CaptureFault::Magic => MAGIC as u64,
            CaptureFault::Version => MAJOR as u64,
            CaptureFault::Link => LINK as u64,
            CaptureFault::NoMemory => unreachable!(),
        }
    }
}

impl From<Mem> for CaptureFault {
    ghost from_gives = { λ _ fault. fault ≡ NoMemory };

    fn from(_: Mem) -> CaptureFault {
        CaptureFault::NoMemory
    }
}
