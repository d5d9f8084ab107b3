use zk_base::{ConnNo, Moment, Side};
use zk_conn::Facts;
use zk_dns::DnsRecord;
use zk_http::Unit;

/// One thing that happens in a capture.
#[derive(Debug, Drop)]
pub struct Item {
    /// When it happens, in network time.
    pub moment: Moment,
    pub what: What,
}

/// What happens. The facts of a connection are those behind the record at which the item stands.
#[derive(Debug, Drop)]
pub enum What {
    /// A packet was captured: its own time, and its captured and original length.
    Seen {
        own: Moment,
        caplen: u32,
        len: u32,
    },
    /// A connection began.
    Opened {
        conn: ConnNo,
        facts: Facts,
    },
    /// The originator has sent a SYN, and the responder one with ACK.
    Established {
        conn: ConnNo,
        facts: Facts,
    },
    /// Places of a side's stream that the peer has and the capture lacks are passed over: the first
    /// of them, and how many they are.
    Gap {
        conn: ConnNo,
        facts: Facts,
        side: Side,
        from: u64,
        length: u64,
    },
    /// A side's stream frees the next part of a message of HTTP.
    Http {
        conn: ConnNo,
        facts: Facts,
        side: Side,
        unit: Unit,
    },
    /// A side sends a message of DNS, which has so many bytes.
    Dns {
        conn: ConnNo,
        facts: Facts,
        side: Side,
        len: u32,
        message: DnsRecord,
    },
    /// A side sends so many bytes that are no message of DNS, for a fault of this number: 1 to 6 are
    /// those of `DnsFault` in their order. 7 is a gap in a length or a message over TCP, after which
    /// the side gives nothing more.
    DnsBad {
        conn: ConnNo,
        facts: Facts,
        side: Side,
        fault: u8,
        len: u32,
    },
    /// A side has closed its end by a FIN.
    Ended {
        conn: ConnNo,
        facts: Facts,
        side: Side,
    },
    /// More bytes than are allowed lie above the front of a side's stream, which takes no more.
    GaveUp {
        conn: ConnNo,
        facts: Facts,
        side: Side,
    },
    /// An RST has closed an end, and both streams stop.
    Reset {
        conn: ConnNo,
        facts: Facts,
    },
    /// A connection was removed.
    Removed {
        conn: ConnNo,
        facts: Facts,
    },
}
