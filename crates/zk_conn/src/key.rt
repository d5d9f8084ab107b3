ghost use Rattle.std.specs.Prelude.{◌≡◌};
ghost use Rattle.zk_conn.specs.Segment.{sender, receiver, is_before, address_is_before, same_endpoint, key_of, key_with, low_end, high_end};

use crate::view::L4View;
use zk_base::{Addr, Proto};

/// One end of a connection.
#[derive(Clone, Copy, Debug, PartialEq, Eq)]
pub struct Endpoint {
    pub addr: Addr,
    pub port: u16,
}

/// An odd number whose bits are spread evenly: 2^64 by the golden ratio.
const SPREAD: u64 = 0x9E37_79B9_7F4A_7C15;

/// Whether an address comes before another: IPv4 before IPv6, and by their numbers.
fn address_is_before(a: Addr, b: Addr) -> bool
    ensures { result ≡ address_is_before a b }
{
    match (a, b) {
        (Addr::V4(a), Addr::V4(b)) => a < b,
        (Addr::V6(a), Addr::V6(b)) => a < b,
        (Addr::V4(_), Addr::V6(_)) => true,
        (Addr::V6(_), Addr::V4(_)) => false,
    }
}

impl Endpoint {
    /// Where a packet comes from.
    pub fn sender(p: &L4View) -> Endpoint
        ensures { result ≡ sender p.now }
    {
        Endpoint {
            addr: p.src,
            port: p.sport,
        }
    }

    /// Where a packet goes.
    pub fn receiver(p: &L4View) -> Endpoint
        ensures { result ≡ receiver p.now }
    {
        Endpoint {
            addr: p.dst,
            port: p.dport,
        }
    }

    /// Whether the end comes before another, by address and then by port.
    pub fn is_before(&self, other: &Endpoint) -> bool
        ensures { result ≡ is_before self.now other.now }
    {
        address_is_before(self.addr, other.addr)
            || self.addr == other.addr && self.port < other.port
    }
}

/// A number that two ends seldom share.
fn scattered(addr: &Addr, port: u16) -> u64 {
    let addr = match addr {
        Addr::V4(addr) => *addr as u64,
        Addr::V6(addr) => (*addr & 0xFFFF_FFFF_FFFF_FFFF) as u64 ^ (*addr >> 64) as u64,
    };
    (addr.rotate_left(16) ^ port as u64).wrapping_mul(SPREAD)
}

/// What the packets of a connection have in common: the protocol and the two ends, whichever of
/// them sends. What tells two keys apart most often stands first: so a comparison seldom comes to the
/// addresses, which many connections share, and no choice of them makes one dear.
#[derive(Clone, Copy, Debug, PartialEq, Eq, PartialOrd, Ord)]
pub struct Key {
    pub low_port: u16,
    pub high_port: u16,
    pub proto: Proto,
    pub low_addr: Addr,
    pub high_addr: Addr,
}

impl Key {
    /// The key of a packet.
    pub fn of(p: &L4View) -> Key
        ensures { result ≡ key_of p.now }
    {
        let from = Endpoint::sender(p);
        let to = Endpoint::receiver(p);
        if to.is_before(&from) {
            Key::with(p.proto, &to, &from)
        } else {
            Key::with(p.proto, &from, &to)
        }
    }

    /// The key of two ends, the low one first.
    fn with(proto: Proto, low: &Endpoint, high: &Endpoint) -> Key
        ensures { result ≡ key_with proto low.now high.now }
    {
        Key {
            low_port: low.port,
            high_port: high.port,
            proto,
            low_addr: low.addr,
            high_addr: high.addr,
        }
    }

    /// The end that stands before the other.
    pub fn low(&self) -> Endpoint
        ensures { result ≡ low_end self.now }
    {
        Endpoint {
            addr: self.low_addr,
            port: self.low_port,
        }
    }

    /// The end that does not stand before the other.
    pub fn high(&self) -> Endpoint
        ensures { result ≡ high_end self.now }
    {
        Endpoint {
            addr: self.high_addr,
            port: self.high_port,
        }
    }

    /// Whether a packet comes from the low end.
    pub fn low_sends(&self, p: &L4View) -> bool
        ensures { result ≡ same_endpoint (sender p.now) (low_end self.now) }
    {
        p.src == self.low_addr && p.sport == self.low_port
    }

    /// Whether a packet comes from the high end.
    pub fn high_sends(&self, p: &L4View) -> bool
        ensures { result ≡ same_endpoint (sender p.now) (high_end self.now) }
    {
        p.src == self.high_addr && p.sport == self.high_port
    }

    /// A place among so many that two keys seldom share: for hints alone, since whoever writes a capture
    /// can choose keys that share one.
    pub fn place_among(&self, places: usize) -> usize {
        let low = scattered(&self.low_addr, self.low_port);
        let ends = low.rotate_left(29) ^ scattered(&self.high_addr, self.high_port);
        // The upper half as a part of 2^32, of so many places.
        let part = ends.wrapping_mul(SPREAD) >> 32;
        (part.wrapping_mul(places as u64) >> 32) as usize
    }
}
