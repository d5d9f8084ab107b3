ghost use Rattle.std.specs.Prelude.{◌≡◌, ◌≤◌, not, length};
ghost use Rattle.zk_base.specs.declared.time.Moment.{Moment};
ghost use Rattle.zk_conn.specs.Segment.{control, has, has_ack, has_fin, has_rst, has_syn, is_tcp};

use zk_base::Proto;
use zk_conn::L4View;
use zk_l4::flags::{ACK, FIN, RST, SYN};

/// A TCP segment or a UDP datagram of a capture (RFC 9293, section 3.1; RFC 768).
#[derive(Clone, Copy, Debug)]
pub struct Segment<'a> {
    pub view: L4View,
    /// The acknowledgment number of TCP.
    pub ack: u32,
    /// What was captured of the payload.
    pub payload: &'a [u8],
    ghost short: { length payload.now ≤ 65535 },
}

impl Segment<'_> {
    ghost use Rattle.zk_traffic.specs.Conversation.{fin_number, is_cut, payload_number};
    ghost use Rattle.zk_traffic.specs.Taken.{segment_of};

    /// The control bits. A UDP datagram has none.
    fn control(&self) -> u8
        ensures { result ≡ control self.now.view }
    {
        match self.view.proto {
            Proto::Tcp => self.view.flags,
            Proto::Udp => 0,
        }
    }

    fn has(&self, bit: u8) -> bool
        ensures { result ≡ has self.now.view bit }
    {
        self.control() & bit != 0
    }

    pub fn has_syn(&self) -> bool
        ensures { result ≡ has_syn self.now.view }
    {
        self.has(SYN)
    }

    pub fn has_ack(&self) -> bool
        ensures { result ≡ has_ack self.now.view }
    {
        self.has(ACK)
    }

    pub fn has_fin(&self) -> bool
        ensures { result ≡ has_fin self.now.view }
    {
        self.has(FIN)
    }

    pub fn has_rst(&self) -> bool
        ensures { result ≡ has_rst self.now.view }
    {
        self.has(RST)
    }

    /// Whether not all of the payload was captured.
    pub fn was_cut(&self) -> bool
        ensures { (t : Moment) → result ≡ is_cut (segment_of t self.now) }
    {
        (self.payload.len() as u64) < u64::from(self.view.payload_len)
    }

    /// Whether it is a UDP datagram.
    pub fn is_datagram(&self) -> bool
        ensures { result ≡ not (is_tcp self.now.view.proto) }
    {
        match self.view.proto {
            Proto::Tcp => false,
            Proto::Udp => true,
        }
    }

    /// The sequence number of the payload, which stands behind the SYN.
    pub fn payload_number(&self) -> u32
        ensures { (t : Moment) → result ≡ payload_number (segment_of t self.now) }
    {
        let behind_syn = if self.has_syn() { 1 } else { 0 };
        self.view.seq.wrapping_add(behind_syn)
    }

    /// The sequence number of the FIN, which stands behind the full payload.
    pub fn fin_number(&self) -> u32
        ensures { (t : Moment) → result ≡ fin_number (segment_of t self.now) }
    {
        self.payload_number().wrapping_add(self.view.payload_len)
    }
}
