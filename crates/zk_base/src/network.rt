ghost use Rattle.zk_base.specs.Sides.{other};
ghost use Rattle.std.specs.Prelude.{◌≡◌};

/// The link type of Ethernet frames (LINKTYPE_ETHERNET in the list of link types of the capture
/// format).
pub const LINKTYPE_ETHERNET: u16 = 1;

/// The link type of frames that are IP packets with nothing before them (LINKTYPE_RAW in that list).
pub const LINKTYPE_RAW: u16 = 101;

/// The greatest total length of an IPv4 packet, in bytes (RFC 791, section 3.1). The payload of a
/// datagram, and what stands in one, is bounded by the same number.
pub const IP4_TOTAL_LENGTH_MAX: usize = 65_535;

/// An address of an internet host, as the number that its bytes make in network order.
#[derive(Clone, Copy, Debug, PartialEq, Eq, PartialOrd, Ord, Hash)]
pub enum Addr {
    /// An IPv4 address (RFC 791).
    V4(u32),
    /// An IPv6 address (RFC 8200).
    V6(u128),
}

/// A transport protocol: TCP (RFC 9293) or UDP (RFC 768).
#[derive(Clone, Copy, Debug, PartialEq, Eq, PartialOrd, Ord, Hash)]
pub enum Proto {
    /// The Transmission Control Protocol.
    Tcp,
    /// The User Datagram Protocol.
    Udp,
}

/// An end of a connection.
#[derive(Clone, Copy, Debug, PartialEq, Eq)]
pub enum Side {
    /// The originator.
    Orig,
    /// The responder.
    Resp,
}

impl Side {
    /// The other end.
    pub fn other(self) -> Side
        ensures { result ≡ other self }
    {
        match self {
            Side::Orig => Side::Resp,
            Side::Resp => Side::Orig,
        }
    }
}
