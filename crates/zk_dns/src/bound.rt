ghost use Rattle.std.specs.Prelude.{◌≡◌, ◌≤◌, ◌+◌, length};
ghost use Rattle.zk_dns.specs.Name.{whole, within};

use crate::DnsFault;

/// Up to where a name's own bytes may stand, and the fault of passing that.
#[derive(Clone, Copy, Debug)]
pub struct Bound {
    pub end: usize,
    pub fault: DnsFault,
}

impl Bound {
    /// The bytes of the whole message.
    pub fn whole(bytes: &[u8]) -> Bound
        ensures { result ≡ whole bytes.now }
    {
        Bound {
            end: bytes.len(),
            fault: DnsFault::Short { place: bytes.len() },
        }
    }

    /// A record's data, from a place on.
    pub fn data(at: usize, end: usize) -> Bound
        ensures { result ≡ within at end }
    {
        Bound {
            end,
            fault: DnsFault::Data { place: at },
        }
    }
}
