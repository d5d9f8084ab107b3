ghost use Rattle.std.specs.Prelude.{◌≡◌};
ghost use Rattle.zk_link_ip.specs.Views.{packet};
ghost use Rattle.zk_frag.specs.Ip4Fragments.{key_of};

use zk_base::Addr;
use zk_link_ip::Ip4;

/// What the fragments of one datagram have in common (RFC 791, section 3.2).
#[derive(Clone, Copy, Debug, PartialEq, Eq, PartialOrd, Ord)]
pub struct Key {
    pub source: Addr,
    pub destination: Addr,
    pub protocol: u8,
    pub identification: u16,
}

impl Key {
    /// The key of a packet's fragments: fields of its header alone.
    pub fn of(ip: &Ip4<'_>) -> Key
        ensures { result ≡ key_of (packet ip.now).now }
    {
        Key {
            source: ip.src(),
            destination: ip.dst(),
            protocol: ip.protocol(),
            identification: ip.identification(),
        }
    }
}
