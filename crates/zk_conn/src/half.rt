ghost use Rattle.std.specs.Prelude.{◌≡◌, ◌+◌, Some, if◌then◌else◌};
ghost use Rattle.zk_conn.specs.Half.{syn_after, end_after, sent, seen, end_facts_of};
ghost use Rattle.zk_conn.specs.Instance.{counted, closed_by};
ghost use Rattle.zk_conn.specs.State.{is_rst, is_open, is_no, tcp_state};

use crate::facts::{ConnState, EndFacts};
use crate::view::L4View;
use zk_l4::flags::{ACK, FIN, RST, SYN};

/// What a side's first SYN was.
#[derive(Clone, Copy, Debug, PartialEq, Eq)]
pub enum SynSent {
    /// It sent none.
    No,
    /// A SYN without ACK.
    Syn,
    /// A SYN with ACK.
    SynAck,
}

/// How a side's end stands. An end that is closed never opens again.
#[derive(Clone, Copy, Debug, PartialEq, Eq)]
pub enum StreamEnd {
    /// It is not closed.
    Open,
    /// A FIN closed it.
    Fin,
    /// An RST closed it.
    Rst,
}

/// A side's first SYN with one more packet.
fn syn_after(syn: SynSent, p: &L4View) -> SynSent
    ensures { result ≡ syn_after syn p.now }
{
    match syn {
        SynSent::No if p.has(SYN) && p.has(ACK) => SynSent::SynAck,
        SynSent::No if p.has(SYN) => SynSent::Syn,
        _ => syn,
    }
}

/// How a packet closes its side's end.
fn closed_by(has_sent_syn: bool, p: &L4View) -> Option<StreamEnd>
    ensures { result ≡ closed_by has_sent_syn p.now }
{
    if p.has(RST) {
        Some(StreamEnd::Rst)
    } else if p.has(FIN) && !(has_sent_syn || p.has(SYN)) {
        Some(StreamEnd::Fin)
    } else {
        None
    }
}

/// The sum of two counts, which stands still at the end of its type.
fn counted(count: u64, more: u32) -> u64
    ensures { result ≡ counted (count + more) }
{
    count.saturating_add(u64::from(more))
}

/// What is kept of one side of a connection.
#[derive(Clone, Copy, Debug, PartialEq, Eq)]
pub struct Half {
    pub syn: SynSent,
    pub end: StreamEnd,
    pub packets: u64,
    pub ip_bytes: u64,
    /// The bytes of the full payloads.
    pub payload_bytes: u64,
    /// The front of the stream, as it was told last.
    pub front: u64,
}

impl Half {
    /// A side that has sent nothing.
    pub fn new() -> Half
        ensures { result ≡ record { syn = SynSent.No; end = StreamEnd.Open; packets = 0; ip_bytes = 0; payload_bytes = 0; front = 0 } }
    {
        Half {
            syn: SynSent::No,
            end: StreamEnd::Open,
            packets: 0,
            ip_bytes: 0,
            payload_bytes: 0,
            front: 0,
        }
    }

    /// Closes the end where it is open.
    fn close(&mut self, closing: Option<StreamEnd>)
        ensures { self.new ≡ record self.old { end = end_after self.old.end closing } }
    {
        if self.end == StreamEnd::Open {
            self.end = closing.unwrap_or(StreamEnd::Open);
        }
    }

    /// Counts a packet of this side.
    pub fn send(&mut self, p: &L4View)
        ensures { self.new ≡ sent self.old p.now }
    {
        let syn = self.syn;
        self.close(closed_by(syn != SynSent::No, p));
        self.syn = syn_after(syn, p);
        self.count(p);
    }

    /// Counts a packet of this side, whatever it opens or closes.
    pub fn count(&mut self, p: &L4View)
        ensures { self.new ≡ record self.old {
          packets = counted (self.old.packets + 1);
          ip_bytes = counted (self.old.ip_bytes + p.now.ip_len);
          payload_bytes = counted (self.old.payload_bytes + p.now.payload_len);
        } }
    {
        self.packets = counted(self.packets, 1);
        self.ip_bytes = counted(self.ip_bytes, p.ip_len);
        self.payload_bytes = counted(self.payload_bytes, p.payload_len);
    }

    /// The stream has reached its FIN.
    pub fn reach_fin(&mut self)
        ensures { self.new ≡ record self.old { end = end_after self.old.end (Some StreamEnd.Fin) } }
    {
        self.close(Some(StreamEnd::Fin));
    }

    /// Whether the side sent a packet.
    fn spoke(&self) -> bool
        ensures { result ≡ (seen self.now).spoke }
    {
        self.packets > 0
    }

    /// What is told of the side.
    pub fn facts(&self, is_tcp: bool) -> EndFacts
        ensures { result ≡ end_facts_of is_tcp self.now }
    {
        let size = match is_tcp {
            true if self.syn != SynSent::No => Some(self.front),
            false if self.spoke() => Some(self.payload_bytes),
            _ => None,
        };
        EndFacts {
            size,
            pkts: self.packets,
            ip_bytes: self.ip_bytes,
        }
    }
}

/// The state of a TCP connection: the first row that fits.
pub fn tcp_state(orig: &Half, resp: &Half) -> ConnState
    ensures { result ≡ tcp_state (seen orig.now) (seen resp.now) }
{
    use ConnState as State;
    use StreamEnd::{Fin, Rst};
    use SynSent::{No, Syn, SynAck};
    match (orig.syn, resp.syn, orig.end, resp.end) {
        (Syn, No, _, Rst) => State::REJ,
        (Syn, No, Rst, _) => State::RSTOS0,
        (No, SynAck, _, Rst) => State::RSTRH,
        (Syn, SynAck, Rst, _) => State::RSTO,
        (Syn, SynAck, _, Rst) => State::RSTR,
        (Syn, SynAck, Fin, Fin) => State::SF,
        (Syn, SynAck, Fin, _) => State::S2,
        (Syn, SynAck, _, Fin) => State::S3,
        (Syn, SynAck, _, _) => State::S1,
        (Syn, No, Fin, _) => State::SH,
        (No, SynAck, _, Fin) => State::SHR,
        (Syn, _, _, _) if !resp.spoke() => State::S0,
        _ => State::OTH,
    }
}

/// The state of a UDP connection.
pub fn udp_state(resp: &Half) -> ConnState
    ensures { result ≡ (if (seen resp.now).spoke then ConnState.SF else ConnState.S0) }
{
    if resp.spoke() {
        ConnState::SF
    } else {
        ConnState::S0
    }
}
