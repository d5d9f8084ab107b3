use zk_base::Side;
use zk_dns::DnsRecord;
use zk_http::Unit;

/// The next thing that a side of a connection says.
#[derive(Debug, Drop)]
pub enum StreamUnit {
    /// A part of a message of HTTP.
    Http(Unit),
    /// A message of DNS, which has so many bytes.
    Dns { len: u32, message: DnsRecord },
    /// So many bytes that are no message of DNS, for a fault of this number: 1 to 6 are those of
    /// `DnsFault` in their order, and 7 is a gap in a length or a message.
    DnsBad { fault: u8, len: u32 },
}

/// A unit, and the side that says it.
#[derive(Debug, Drop)]
pub struct Freed {
    pub side: Side,
    pub unit: StreamUnit,
}
