ghost use Rattle.std.specs.Prelude.{◌≡◌};

use crate::history::History;
use zk_base::{Addr, Moment, Proto};

/// The state of a connection, by Zeek's names. Of these rows the first that fits is the state.
#[derive(Clone, Copy, Debug, PartialEq, Eq)]
pub enum ConnState {
    /// The originator's SYN alone, or a UDP connection whose responder never spoke.
    S0,
    /// Established, and neither end is closed.
    S1,
    /// Established, and the originator alone has closed its end.
    S2,
    /// Established, and the responder alone has closed its end.
    S3,
    /// Established, and both ends are closed; or a UDP connection whose responder spoke.
    SF,
    /// The originator's SYN was answered by an RST.
    REJ,
    /// Established, and the originator reset it.
    RSTO,
    /// Established, and the responder reset it.
    RSTR,
    /// The originator sent a SYN and then an RST, and the responder no SYN.
    RSTOS0,
    /// The responder sent a SYN with ACK and then an RST, and the originator no SYN.
    RSTRH,
    /// The originator sent a SYN and then a FIN, and the responder no SYN.
    SH,
    /// The responder sent a SYN with ACK and then a FIN, and the originator no SYN.
    SHR,
    /// Anything else.
    OTH,
}

/// What is known of one side of a connection.
#[derive(Clone, Copy, Debug, PartialEq, Eq)]
pub struct EndFacts {
    /// Of a TCP side with a SYN the bytes up to its stream's front, gaps counted; of a UDP side
    /// that spoke the bytes of its full payloads; else nothing.
    pub size: Option<u64>,
    /// The number of its packets.
    pub pkts: u64,
    /// The bytes of its IP datagrams, headers and all.
    pub ip_bytes: u64,
}

/// What is known of a connection.
#[derive(Debug, Drop)]
pub struct Facts {
    pub orig_h: Addr,
    pub orig_p: u16,
    pub resp_h: Addr,
    pub resp_p: u16,
    pub proto: Proto,
    /// The moment of its first packet.
    pub start: Moment,
    /// The moment of its last packet.
    pub last: Moment,
    pub orig: EndFacts,
    pub resp: EndFacts,
    pub state: ConnState,
    pub history: History,
}
