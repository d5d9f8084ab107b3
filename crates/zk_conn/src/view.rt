ghost use Rattle.std.specs.Prelude.{◌≡◌};
ghost use Rattle.zk_conn.specs.Segment.{control, has, is_plain};

use zk_base::{Addr, Proto};
use zk_l4::flags::{FIN, RST, SYN};

/// A TCP or UDP packet, as far as connections look at it (RFC 9293, section 3.1; RFC 768).
#[derive(Clone, Copy, Debug, PartialEq, Eq)]
pub struct L4View {
    pub src: Addr,
    pub dst: Addr,
    pub sport: u16,
    pub dport: u16,
    pub proto: Proto,
    /// The control bits of TCP. They are not looked at in a UDP packet.
    pub flags: u8,
    /// The sequence number of TCP. It is for the streams: no rule of connections looks at it.
    pub seq: u32,
    /// The full length of the payload, of which the capture may lack bytes.
    pub payload_len: u32,
    /// The length of the IP datagram, header and all.
    pub ip_len: u32,
}

impl L4View {
    /// The control bits. A UDP packet has none.
    fn control(&self) -> u8
        ensures { result ≡ control self.now }
    {
        match self.proto {
            Proto::Tcp => self.flags,
            Proto::Udp => 0,
        }
    }

    /// Whether a control bit is set.
    pub(crate) fn has(&self, bit: u8) -> bool
        ensures { result ≡ has self.now bit }
    {
        self.control() & bit != 0
    }

    /// Whether it has no SYN, FIN and RST, as most have: such a packet opens and closes no end.
    pub(crate) fn is_plain(&self) -> bool
        ensures { result ≡ is_plain self.now }
    {
        !(self.has(SYN) || self.has(FIN) || self.has(RST))
    }
}
