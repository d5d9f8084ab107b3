ghost use Rattle.std.specs.Prelude.{◌≡◌};
ghost use Rattle.zk_dns.specs.Stream.{step_of};

use crate::numbers::u16_at;

/// The length of the length before each message (RFC 1035, section 4.2.2).
const LENGTH_LEN: usize = 2;

/// What stands next on a side of a TCP connection.
#[derive(Clone, Copy, Debug, PartialEq, Eq)]
pub enum DnsStep {
    /// Fewer bytes than a length and its message.
    More,
    /// A length and its message, of `used` bytes together. The message's bytes are those from `from` up
    /// to and without `to`.
    One { used: usize, from: usize, to: usize },
}

/// One side of DNS over TCP. It keeps nothing of the bytes: each step is given its side's bytes after what
/// was used so far.
#[derive(Clone, Copy, Debug, Default)]
pub struct TcpDns {}

impl TcpDns {
    /// A side of which nothing was used yet.
    pub fn new() -> TcpDns {
        TcpDns {}
    }

    /// The next message, from the side's bytes after what was used so far. No memory is taken.
    pub fn step(&mut self, bytes: &[u8]) -> DnsStep
        ensures { result ≡ step_of bytes.now }
    {
        if bytes.len() < LENGTH_LEN {
            return DnsStep::More;
        }
        let used = LENGTH_LEN + usize::from(u16_at(bytes, 0));
        if bytes.len() < used {
            return DnsStep::More;
        }
        DnsStep::One {
            used,
            from: LENGTH_LEN,
            to: used,
        }
    }
}
