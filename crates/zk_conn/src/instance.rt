ghost use Rattle.std.specs.Prelude.{◌≡◌, true, pos, ◌||◌, []};
ghost use Rattle.zk_conn.specs.Half.{seen};
ghost use Rattle.zk_conn.specs.Instance.{side_of, wait};
ghost use Rattle.zk_conn.specs.Segment.{is_plain, is_tcp};
ghost use Rattle.zk_conn.specs.State.{are_established, is_fin, is_open, is_rst, state_of};
ghost use Rattle.zk_conn.specs.Told.{Packet, Front, Reached};

use crate::conns::Touched;
use crate::facts::{ConnState, Facts};
use crate::half::{Half, StreamEnd, SynSent, tcp_state, udp_state};
use crate::history::History;
use crate::key::{Endpoint, Key};
use crate::removals::Filing;
use crate::view::L4View;
use zk_base::{ConnNo, Moment, Proto, Side};
use zk_l4::flags::{ACK, SYN};

/// How many microseconds a connection waits for its next packet: 5 seconds where an end was reset
/// or both are closed, else 300 seconds for TCP and 60 seconds for UDP.
fn wait(proto: Proto, orig: StreamEnd, resp: StreamEnd) -> i64
    ensures { result ≡ pos (wait (is_tcp proto) orig resp) }
{
    match (proto, orig, resp) {
        (_, StreamEnd::Rst, _) | (_, _, StreamEnd::Rst) => 5_000_000,
        (_, StreamEnd::Fin, StreamEnd::Fin) => 5_000_000,
        (Proto::Tcp, _, _) => 300_000_000,
        (Proto::Udp, _, _) => 60_000_000,
    }
}

/// What is kept of a live connection.
#[derive(Debug, Drop)]
pub struct Instance {
    pub number: u64,
    /// Where the index of removals has it: at its removal moment or before.
    pub filed: Moment,
    pub last: Moment,
    pub start: Moment,
    pub key: Key,
    pub orig: Half,
    pub resp: Half,
    pub history: History,
    /// The originator is the low end of the key, and else the high one.
    pub originator_is_low: bool,
}

impl Instance {
    ghost use Rattle.zk_conn.specs.Holds.{Follows, Has, facts_in, originator_in, responder_in, removal_of, touched_between, end_in};
    ghost use Rattle.zk_conn.specs.Removals.{filing_of};

    /// A connection that begins with a packet, before the packet is counted.
    pub fn before(number: u64, t: Moment, p: &L4View) -> Instance
        ensures has { Has (record { moment = t; packet = p.now }) result [] }
        ensures number { result.number ≡ number }
    {
        let from = Endpoint::sender(p);
        let to = Endpoint::receiver(p);
        let is_answer = p.has(SYN) && p.has(ACK);
        Instance {
            number,
            filed: t,
            last: t,
            start: t,
            key: Key::of(p),
            orig: Half::new(),
            resp: Half::new(),
            history: History::new(),
            originator_is_low: is_answer == to.is_before(&from),
        }
    }

    /// The originator, which began the connection.
    pub fn originator(&self) -> Endpoint
        ensures { result ≡ originator_in self.now }
    {
        if self.originator_is_low {
            self.key.low()
        } else {
            self.key.high()
        }
    }

    /// The responder, the other end.
    pub fn responder(&self) -> Endpoint
        ensures { result ≡ responder_in self.now }
    {
        if self.originator_is_low {
            self.key.high()
        } else {
            self.key.low()
        }
    }

    /// The side that sends a packet: where both ends are equal it is the originator.
    pub fn side_of(&self, p: &L4View) -> Side
        ensures { result ≡ side_of (originator_in self.now) p.now }
    {
        let is_originator = if self.originator_is_low {
            self.key.low_sends(p)
        } else {
            self.key.high_sends(p)
        };
        if is_originator {
            Side::Orig
        } else {
            Side::Resp
        }
    }

    /// Counts a packet.
    fn take(&mut self, t: Moment, p: &L4View)
        ensures follows { Follows self.old self.new (Packet t p.now) }
        ensures filed { self.new.filed ≡ self.old.filed }
    {
        let side = self.side_of(p);
        match side {
            Side::Orig => self.orig.send(p),
            Side::Resp => self.resp.send(p),
        }
        self.history.note(side, p);
        self.last = t;
    }

    /// When it is removed if no packet comes before.
    #[tactic(auto, unfolding(crate::specs::Holds::removal_of))]
    pub fn removal(&self) -> Moment
        ensures { result ≡ removal_of self.now }
    {
        let wait = wait(self.key.proto, self.orig.end, self.resp.end);
        Moment(self.last.0.saturating_add(wait))
    }

    /// Where the index of removals has it, in a slot.
    pub fn filing(&self, slot: usize) -> Filing
        ensures { result ≡ filing_of slot self.now }
    {
        Filing {
            at: self.filed,
            number: self.number,
            slot,
        }
    }

    /// Counts a packet, which begins the instance or not, and says what it did.
    pub fn touch(&mut self, opened: bool, t: Moment, p: &L4View) -> Touched
        ensures follows { Follows self.old self.new (Packet t p.now) }
        ensures filed { self.new.filed ≡ self.old.filed }
        ensures touched { result ≡ touched_between self.old self.new opened p.now }
    {
        if p.is_plain() {
            self.touch_plain(opened, t, p)
        } else {
            self.touch_any(opened, t, p)
        }
    }

    /// Counts a packet without SYN, FIN and RST: it establishes, resets and ends nothing.
    fn touch_plain(&mut self, opened: bool, t: Moment, p: &L4View) -> Touched
        requires { is_plain p.now ≡ true }
        ensures follows { Follows self.old self.new (Packet t p.now) }
        ensures filed { self.new.filed ≡ self.old.filed }
        ensures touched { result ≡ touched_between self.old self.new opened p.now }
    {
        let side = self.side_of(p);
        match side {
            Side::Orig => self.orig.count(p),
            Side::Resp => self.resp.count(p),
        }
        self.history.note_plain(side, p);
        self.last = t;
        Touched {
            conn: ConnNo(self.number),
            side,
            opened,
            established: false,
            reset: false,
            ended: false,
        }
    }

    /// Counts a packet, whatever it opens or closes.
    fn touch_any(&mut self, opened: bool, t: Moment, p: &L4View) -> Touched
        ensures follows { Follows self.old self.new (Packet t p.now) }
        ensures filed { self.new.filed ≡ self.old.filed }
        ensures touched { result ≡ touched_between self.old self.new opened p.now }
    {
        let side = self.side_of(p);
        let was_established = self.is_established();
        let was_reset = self.is_reset();
        let had_ended = self.has_ended(side);
        self.take(t, p);
        Touched {
            conn: ConnNo(self.number),
            side,
            opened,
            established: self.is_established() && !was_established,
            reset: self.is_reset() && !was_reset,
            ended: self.has_ended(side) && !had_ended,
        }
    }

    /// A side's stream has this front.
    pub fn front(&mut self, side: Side, front: u64)
        ensures follows { (key : Key) → Follows self.old self.new (Front key side front) }
        ensures filed { self.new.filed ≡ self.old.filed }
    {
        match side {
            Side::Orig => self.orig.front = front,
            Side::Resp => self.resp.front = front,
        }
    }

    /// A side's stream has reached its FIN.
    pub fn reach_fin(&mut self, side: Side)
        ensures follows { (key : Key) → Follows self.old self.new (Reached key side) }
        ensures filed { self.new.filed ≡ self.old.filed }
    {
        match side {
            Side::Orig => self.orig.reach_fin(),
            Side::Resp => self.resp.reach_fin(),
        }
    }

    /// Its state.
    fn state(&self) -> ConnState
        ensures { result ≡ state_of (is_tcp self.now.key.proto) (seen self.now.orig) (seen self.now.resp) }
    {
        match self.key.proto {
            Proto::Tcp => tcp_state(&self.orig, &self.resp),
            Proto::Udp => udp_state(&self.resp),
        }
    }

    /// What is told of it.
    pub fn facts(&self) -> Facts
        ensures { result ≡ facts_in self.now }
    {
        let is_tcp = matches!(self.key.proto, Proto::Tcp);
        let originator = self.originator();
        let responder = self.responder();
        Facts {
            orig_h: originator.addr,
            orig_p: originator.port,
            resp_h: responder.addr,
            resp_p: responder.port,
            proto: self.key.proto,
            start: self.start,
            last: self.last,
            orig: self.orig.facts(is_tcp),
            resp: self.resp.facts(is_tcp),
            state: self.state(),
            history: self.history.copy(),
        }
    }

    /// Whether it is established.
    pub fn is_established(&self) -> bool
        ensures { result ≡ are_established (seen self.now.orig) (seen self.now.resp) }
    {
        self.orig.syn == SynSent::Syn && self.resp.syn == SynSent::SynAck
    }

    /// Whether an RST closed an end.
    pub fn is_reset(&self) -> bool
        ensures { result ≡ (is_rst self.now.orig.end || is_rst self.now.resp.end) }
    {
        self.orig.end == StreamEnd::Rst || self.resp.end == StreamEnd::Rst
    }

    /// Whether a side's end is open.
    pub fn is_open(&self, side: Side) -> bool
        ensures { result ≡ is_open (end_in self.now side) }
    {
        match side {
            Side::Orig => self.orig.end == StreamEnd::Open,
            Side::Resp => self.resp.end == StreamEnd::Open,
        }
    }

    /// Whether a FIN closed a side's end.
    pub fn has_ended(&self, side: Side) -> bool
        ensures { result ≡ is_fin (end_in self.now side) }
    {
        match side {
            Side::Orig => self.orig.end == StreamEnd::Fin,
            Side::Resp => self.resp.end == StreamEnd::Fin,
        }
    }
}
