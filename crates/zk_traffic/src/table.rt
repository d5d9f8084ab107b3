ghost use Rattle.std.specs.Prelude.{◌≡◌, ◌≤ℤ◌, ◌^◌, ◌&&◌, ◌∷◌, ◌++◌, ℕ, Bool, pos, true, false, [], List, Some, IfOk, IfNone, IfSome, OnOk};
ghost use Rattle.zk_base.specs.declared.time.Moment.{Moment};
ghost use Rattle.zk_conn.specs.declared.key.Key.{Key};
ghost use Rattle.zk_conn.specs.Histories.{NoneDue, NoneLive};
ghost use Rattle.zk_conn.specs.Histories.{latest as conn_latest, IsLive};
ghost use Rattle.zk_conn.specs.Instance.{Opening, end_of, is_reset, opening, originator, responder};
ghost use Rattle.zk_conn.specs.Segment.{has_syn, is_tcp};
ghost use Rattle.zk_conn.specs.Standing.{StandsFor};
ghost use Rattle.zk_conn.specs.State.{is_open};
ghost use Rattle.zk_conn.specs.Told.{Ending, Front, Reached, Removal, Told};
ghost use Rattle.zk_traffic.specs.Conversation.{Conversation, datagram_units, protocol_of, sender_in, speaks_dns};
ghost use Rattle.zk_traffic.specs.Items.{facts};
ghost use Rattle.zk_traffic.specs.News.{runs_of};
ghost use Rattle.zk_traffic.specs.Segments.{Segment as SegmentData};
ghost use Rattle.zk_traffic.specs.Table.{HasLive, Holds, IsCurrent, IsFirst, IsLeast, Removes, TakesSegment, front_told, moved_told};
ghost use Rattle.zk_traffic.specs.Taken.{segment_of};
ghost use Rattle.zk_units.specs.Protocols.{protocol_at};

use crate::news::News;
use crate::segment::Segment;
use crate::stream_table::StreamTable;
use crate::streams::{Moved, Stops};
use std::alloc::Global;
use zk_base::{ConnNo, Mem, Moment, Side};
use zk_conn::{Conns, Facts, Removed};
use zk_units::{Freed, Protocol, message_unit, protocol_at};

/// What a segment did.
#[derive(Clone, Copy, Debug, PartialEq, Eq)]
pub struct Done {
    pub conn: ConnNo,
    /// The side that sent it.
    pub side: Side,
    pub opened: bool,
    pub established: bool,
    /// The sender's end has become Fin.
    pub sender_ended: bool,
    /// The receiver's end has become Fin.
    pub receiver_ended: bool,
    /// The sender's stream gave up.
    pub gave_up: bool,
    pub reset: bool,
}

/// The live connections of a capture and their streams.
#[derive(Debug, Drop)]
pub struct Table {
    alloc: Global,
    conns: Conns,
    streams: StreamTable,
}

/// Whether a connection speaks DNS.
fn speaks_dns(protocol: Option<Protocol>) -> bool
    ensures { result ≡ speaks_dns protocol }
{
    match protocol {
        Some(Protocol::Dns) => true,
        Some(Protocol::Http) | None => false,
    }
}

impl Table {
    /// No connections. No memory is taken.
    pub fn new(alloc: Global, limit: u64) -> Table
        ensures { (t : Moment) → IsCurrent result limit [] t }
    {
        Table {
            alloc,
            conns: Conns::new(alloc),
            streams: StreamTable::new(alloc, limit),
        }
    }

    /// How many bytes all streams hold, with those that wait to be read.
    pub fn kept(&self) -> u64
        ensures { result ≡ self.now.streams.kept }
    {
        self.streams.kept()
    }

    /// Removes the first connection that is due by a moment.
    pub fn remove_due(&mut self, t: Moment) -> Option<Removed>
        ensures none { IfNone result ((limit : ℕ) (segments : List SegmentData) (gone : Key → Bool) (told : List Told) → Holds self.old limit segments gone told
            → NoneDue told t × Holds self.new limit segments gone told) }
        ensures removed { IfSome result (λ removed. (limit : ℕ) (segments : List SegmentData) (gone : Key → Bool) (told : List Told)
            → Holds self.old limit segments gone told
            → (found : Removes limit segments gone removed (λ key. Removal key removed.at) told self.new) × IsFirst limit segments gone removed t found.c) }
    {
        let removed = self.conns.remove_due(t)?;
        self.streams.forget(removed.conn);
        Some(removed)
    }

    /// Removes the live connection of least number, at the end of the capture.
    pub fn end(&mut self, last: Moment) -> Option<Removed>
        ensures none { IfNone result ((limit : ℕ) (segments : List SegmentData) (gone : Key → Bool) (told : List Told) → Holds self.old limit segments gone told
            → NoneLive told × Holds self.new limit segments gone told) }
        ensures removed { IfSome result (λ removed. (limit : ℕ) (segments : List SegmentData) (gone : Key → Bool) (told : List Told)
            → Holds self.old limit segments gone told
            → Removes limit segments gone removed (λ key. Ending key last) told self.new × IsLeast limit segments gone removed last) }
    {
        let removed = self.conns.end(last)?;
        self.streams.forget(removed.conn);
        Some(removed)
    }

    /// What is known of a connection, where it is live.
    #[inline(always)]
    pub fn facts(&self, conn: ConnNo) -> Option<Facts>
        ensures { (limit : ℕ) (segments : List SegmentData) (gone : Key → Bool) (told : List Told) (key : Key) (c : Conversation) → Holds self.now limit segments gone told
            → HasLive limit segments gone key conn.0 c → result ≡ Some (facts c) }
    {
        if self.conns.is_live(conn) {
            Some(self.conns.facts(conn))
        } else {
            None
        }
    }

    /// Takes a segment, at a moment at which no connection is due.
    pub fn take(&mut self, t: Moment, segment: &Segment<'_>, news: &mut News) -> Result<Done, Mem>
        requires early { pos 0 ≤ℤ t.0 }
        requires late { t.0 ≤ℤ pos (2 ^ 62) }
        ensures { IfOk result (λ done. (limit : ℕ) (segments : List SegmentData) → IsCurrent self.old limit segments t
            → TakesSegment limit segments (segment_of t segment.now) done self.new news.old news.new) }
    {
        let touched = self.conns.packet(t, &segment.view)?;
        let conn = touched.conn;
        let side = touched.side;
        let stops = self.stops(conn, touched.reset, segment);
        let protocol = self.protocol(conn, segment);
        self.read_datagram(side, protocol, segment, news)?;
        let place = self.conns.place(conn);
        let moves = self
            .streams
            .take(conn, place, side, stops, protocol, segment, news)?;
        let reached = self.tell(conn, side, moves.sender);
        let receiver_ended = self.tell(conn, side.other(), moves.receiver);
        Ok(Done {
            conn,
            side,
            opened: touched.opened,
            established: touched.established,
            sender_ended: touched.ended || reached,
            receiver_ended,
            gave_up: moves.gave_up,
            reset: touched.reset,
        })
    }

    /// What a connection speaks, where that is asked for: a SYN may begin a stream, and a datagram is read
    /// at once.
    fn protocol(&self, conn: ConnNo, segment: &Segment<'_>) -> Option<Protocol>
        ensures syn { (told : List Told) (key : Key) (first : Opening) → StandsFor self.now.conns told → IsLive told key conn.0 → opening (conn_latest key told) ≡ Some first
            → has_syn segment.now.view ≡ true → result ≡ protocol_at first.packet.proto (responder first.packet).port }
        ensures datagram { (told : List Told) (key : Key) (first : Opening) → StandsFor self.now.conns told → IsLive told key conn.0 → opening (conn_latest key told) ≡ Some first
            → is_tcp segment.now.view.proto ≡ false → result ≡ protocol_at first.packet.proto (responder first.packet).port }
    {
        if segment.has_syn() || segment.is_datagram() {
            self.protocol_of(conn)
        } else {
            None
        }
    }

    /// What a connection speaks.
    fn protocol_of(&self, conn: ConnNo) -> Option<Protocol>
        ensures { (told : List Told) (key : Key) (first : Opening) → StandsFor self.now.conns told → IsLive told key conn.0 → opening (conn_latest key told) ≡ Some first
            → result ≡ protocol_at first.packet.proto (responder first.packet).port }
    {
        if !self.conns.is_live(conn) {
            return None;
        }
        let (proto, port) = self.conns.service(conn);
        protocol_at(proto, port)
    }

    /// Adds the message or the fault that a datagram of DNS is, unless it was cut.
    fn read_datagram(
        &self,
        side: Side,
        protocol: Option<Protocol>,
        segment: &Segment<'_>,
        news: &mut News,
    ) -> Result<(), Mem>
        ensures runs { runs_of news.new ≡ runs_of news.old }
        ensures gaps { news.new.gaps.items ≡ news.old.gaps.items }
        ensures units { OnOk result ((t : Moment) (c : Conversation) → side ≡ sender_in c (segment_of t segment.now)
            → (is_tcp segment.now.view.proto ≡ false → protocol ≡ protocol_of c)
            → news.new.units.items ≡ news.old.units.items ++ datagram_units c (segment_of t segment.now)) }
    {
        if !segment.is_datagram() || !speaks_dns(protocol) || segment.was_cut() {
            return Ok(());
        }
        let unit = message_unit(self.alloc, segment.payload)?;
        news.units.push_back(Freed { side, unit })?;
        Ok(())
    }

    /// How a segment stops the streams of its connection. Whether that was reset is asked where the
    /// segment may begin a stream.
    fn stops(&self, conn: ConnNo, resets: bool, segment: &Segment<'_>) -> Stops
        ensures resets { result.resets ≡ resets }
        ensures was_reset { (told : List Told) (key : Key) (first : Opening) → StandsFor self.now.conns told → IsLive told key conn.0 → opening (conn_latest key told) ≡ Some first
            → has_syn segment.now.view ≡ true → result.was_reset ≡ is_reset (originator first.packet) (conn_latest key told) }
    {
        Stops {
            resets,
            was_reset: segment.has_syn() && self.was_reset(conn),
        }
    }

    /// Whether a connection was reset.
    fn was_reset(&self, conn: ConnNo) -> bool
        ensures { (told : List Told) (key : Key) (first : Opening) → StandsFor self.now.conns told → IsLive told key conn.0 → opening (conn_latest key told) ≡ Some first
            → result ≡ is_reset (originator first.packet) (conn_latest key told) }
    {
        self.conns.is_live(conn) && self.conns.is_reset(conn)
    }

    /// Tells connections how a side's stream has moved. Whether the side's end becomes Fin.
    #[inline(always)]
    fn tell(&mut self, conn: ConnNo, side: Side, moved: Moved) -> bool
        ensures streams { self.new.streams ≡ self.old.streams }
        ensures told { (told : List Told) (key : Key) → StandsFor self.old.conns told → IsLive told key conn.0
            → StandsFor self.new.conns (told ++ moved_told key side moved) }
        ensures ended { (told : List Told) (key : Key) (first : Opening) → StandsFor self.old.conns told → IsLive told key conn.0 → opening (conn_latest key told) ≡ Some first
            → result ≡ (moved.ended && is_open (end_of (originator first.packet) side (conn_latest key told))) }
    {
        self.tell_front(conn, side, moved.front);
        moved.ended && self.tell_end(conn, side)
    }

    /// Tells connections the front of a side's stream, where it has moved.
    #[inline(always)]
    fn tell_front(&mut self, conn: ConnNo, side: Side, front: Option<u64>)
        ensures streams { self.new.streams ≡ self.old.streams }
        ensures told { (told : List Told) (key : Key) → StandsFor self.old.conns told → IsLive told key conn.0
            → StandsFor self.new.conns (told ++ front_told key side front) }
    {
        if let Some(front) = front {
            self.set_front(conn, side, front);
        }
    }

    /// Tells connections the front of a side's stream.
    #[inline(never)]
    fn set_front(&mut self, conn: ConnNo, side: Side, front: u64)
        ensures streams { self.new.streams ≡ self.old.streams }
        ensures told { (told : List Told) (key : Key) → StandsFor self.old.conns told → IsLive told key conn.0
            → StandsFor self.new.conns (told ++ Front key side front ∷ []) }
    {
        if self.conns.is_live(conn) {
            self.conns.front(conn, side, front);
        }
    }

    /// Tells connections that a side's stream has reached its FIN. Whether the side's end becomes Fin.
    #[inline(never)]
    fn tell_end(&mut self, conn: ConnNo, side: Side) -> bool
        ensures streams { self.new.streams ≡ self.old.streams }
        ensures told { (told : List Told) (key : Key) → StandsFor self.old.conns told → IsLive told key conn.0
            → StandsFor self.new.conns (told ++ Reached key side ∷ []) }
        ensures ended { (told : List Told) (key : Key) (first : Opening) → StandsFor self.old.conns told → IsLive told key conn.0 → opening (conn_latest key told) ≡ Some first
            → result ≡ is_open (end_of (originator first.packet) side (conn_latest key told)) }
    {
        if !self.conns.is_live(conn) {
            return false;
        }
        let was_open = self.conns.is_open(conn, side);
        self.conns.fin_reached(conn, side);
        was_open
    }
}
