use zk_base::{Bytes, Sequence};

/// The next part of a side's messages.
#[derive(Debug, Drop)]
pub struct Unit {
    /// The place in the side's stream behind the last byte or gap that shows it.
    pub place: u64,
    /// What it is.
    pub what: UnitKind,
}

/// What a unit is.
#[derive(Debug, Drop)]
pub enum UnitKind {
    /// The head of a message (RFC 9112, sections 2 to 5).
    Head(Head),
    /// The end of a message: how many places its body has, how many bytes the lines of its head have
    /// without their line ends, and how many places of the body are gaps.
    Done { body: u64, head: u32, gap: u64 },
    /// The connection has become a tunnel (RFC 9110, sections 9.3.6 and 15.2.2): what follows are no
    /// messages.
    Tunnel,
    /// What stands here is no message: the side gives nothing more.
    Violation(Reason),
}

/// The head of a message: its start line, and the names and values of its header fields in order. A
/// value stands without the white space around it.
#[derive(Debug, Drop)]
pub struct Head {
    pub start: Start,
    pub headers: Sequence<(Bytes, Bytes)>,
}

/// The start line of a message of HTTP/1.0 or HTTP/1.1, which `minor` tells.
#[derive(Debug, Drop)]
pub enum Start {
    /// A request line (RFC 9112, section 3).
    Request {
        method: Bytes,
        target: Bytes,
        minor: u8,
    },
    /// A status line (RFC 9112, section 4). A line without a reason phrase has an empty one.
    Response {
        minor: u8,
        code: u16,
        reason: Bytes,
    },
}

/// Why what stands in a stream is no message.
#[derive(Clone, Copy, Debug, PartialEq, Eq)]
pub enum Reason {
    /// 65,536 bytes hold no whole head.
    HeadTooLong = 1,
    /// It is no head by the grammar that is read (RFC 9112, sections 2 to 5, and what `httparse` takes beside it).
    HeadBad = 2,
    /// The head has more than 100 header lines.
    TooManyHeaders = 3,
    /// The Content-Length fields do not name one number of 1 to 18 digits (RFC 9112, section 6.3).
    LengthBad = 4,
    /// The last transfer coding of a request is not `chunked` (RFC 9112, section 6.3).
    CodingBad = 5,
    /// A chunk line, the line end behind a chunk or the trailer is not that of a chunked body (RFC
    /// 9112, section 7.1).
    ChunkBad = 6,
    /// More than 65,536 places wait for the other side.
    Unpaired = 7,
    /// A place that a head, a chunk line, the line end behind a chunk or a trailer needs is a gap.
    Gap = 8,
}

/// What a call has read.
#[derive(Debug, Drop)]
pub struct Step {
    /// How many of the bytes and places that it was given it has used.
    pub used: usize,
    /// The side's next unit, if there is one.
    pub unit: Option<Unit>,
}
