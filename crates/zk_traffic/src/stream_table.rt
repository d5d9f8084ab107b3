ghost use Rattle.indexmap.specs.IndexMap.{index_map_len};
ghost use Rattle.std.specs.Prelude.{◌≡◌, ◌≢◌, ◌<◌, ◌≤◌, ◌+◌, ℕ, true, false, None, IsSome, IfNone, IfOk, IfSome, OnOk};
ghost use Rattle.zk_base.specs.declared.time.Moment.{Moment};
ghost use Rattle.zk_conn.specs.Segment.{has_syn};
ghost use Rattle.zk_traffic.specs.Conversation.{Conversation, protocol_of, resets, sender_in, was_reset_with};
ghost use Rattle.zk_traffic.specs.Kept.{held_in};
ghost use Rattle.zk_traffic.specs.StreamTable.{HasStreams, StandAt, Takes, entry_at};
ghost use Rattle.zk_traffic.specs.Taken.{segment_of};

use crate::news::News;
use crate::segment::Segment;
use crate::streams::{Moved, Moves, Stops, Streams};
use indexmap::IndexMap;
use std::alloc::Global;
use zk_base::{ConnNo, Mem, Side};
use zk_units::Protocol;

/// The streams of live connections.
#[derive(Debug, Drop)]
pub struct StreamTable {
    alloc: Global,
    limit: u64,
    /// The streams of the connections that have one, by the number of the connection.
    streams: IndexMap<u64, Streams>,
    /// Where those of a connection stood last, by the connection's place. They save the look-up by its
    /// number, and no more: one counts where the streams of that very number stand there.
    hints: Vec<u32>,
    /// How many bytes all streams hold, with those that wait to be read.
    kept: u64,
}

/// That no streams are noted at a place.
const NOT_NOTED: u32 = u32::MAX;

/// What a segment does to no streams.
const NO_MOVES: Moves = Moves {
    sender: Moved {
        front: None,
        ended: false,
    },
    receiver: Moved {
        front: None,
        ended: false,
    },
    gave_up: false,
};

#[tactic(auto, unfolding(crate::specs::StreamTable::entry_at))]
impl StreamTable {
    /// No streams. No memory is taken.
    pub fn new(alloc: Global, limit: u64) -> StreamTable
        ensures limit { result.limit ≡ limit }
        ensures kept { result.kept ≡ 0 }
        ensures entries { (number : ℕ) → entry_at result number ≡ None }
    {
        StreamTable {
            alloc,
            limit,
            streams: IndexMap::new(alloc),
            hints: Vec::new(alloc),
            kept: 0,
        }
    }

    /// How many bytes all streams hold, with those that wait to be read.
    pub fn kept(&self) -> u64
        ensures { result ≡ self.now.kept }
    {
        self.kept
    }

    /// Tells the streams of a connection of a segment of this side. The connection's place is for
    /// hints alone.
    pub fn take(
        &mut self,
        conn: ConnNo,
        place: usize,
        side: Side,
        stops: Stops,
        protocol: Option<Protocol>,
        segment: &Segment<'_>,
        news: &mut News,
    ) -> Result<Moves, Mem>
        ensures limit { self.new.limit ≡ self.old.limit }
        ensures others { OnOk result ((number : ℕ) → number ≢ conn.0 → entry_at self.new number ≡ entry_at self.old number) }
        ensures taken { IfOk result (λ moves. (t : Moment) (c : Conversation) → HasStreams self.old.limit (entry_at self.old conn.0) c
            → side ≡ sender_in c (segment_of t segment.now) → stops.resets ≡ resets c (segment_of t segment.now)
            → (has_syn segment.now.view ≡ true → stops.was_reset ≡ was_reset_with c (segment_of t segment.now))
            → (has_syn segment.now.view ≡ true → protocol ≡ protocol_of c) → held_in self.old.limit c ≤ self.old.kept
            → Takes self.old.limit conn c (segment_of t segment.now) moves self.old self.new news.old news.new) }
    {
        if segment.has_syn() {
            self.make(conn, protocol)?;
            self.make_hint(place)?;
        }
        self.tell(conn, place, side, stops, segment, news)
    }

    /// Forgets the streams of a connection.
    pub fn forget(&mut self, conn: ConnNo)
        ensures limit { self.new.limit ≡ self.old.limit }
        ensures entry { entry_at self.new conn.0 ≡ None }
        ensures others { (number : ℕ) → number ≢ conn.0 → entry_at self.new number ≡ entry_at self.old number }
        ensures kept { (c : Conversation) → HasStreams self.old.limit (entry_at self.old conn.0) c → held_in self.old.limit c ≤ self.old.kept
            → self.new.kept + held_in self.old.limit c ≡ self.old.kept }
    {
        if let Some(streams) = self.streams.swap_remove(&conn.0) {
            self.kept = self.kept.saturating_sub(streams.kept().unwrap_or(0));
        }
    }

    /// Makes an entry for the streams of a connection, if there is none.
    fn make(&mut self, conn: ConnNo, protocol: Option<Protocol>) -> Result<(), Mem>
        ensures limit { self.new.limit ≡ self.old.limit }
        ensures kept { self.new.kept ≡ self.old.kept }
        ensures there { OnOk result (IsSome (entry_at self.new conn.0)) }
        ensures entry { OnOk result ((limit : ℕ) (c : Conversation) → protocol ≡ protocol_of c → HasStreams limit (entry_at self.old conn.0) c → HasStreams limit (entry_at self.new conn.0) c) }
        ensures others { OnOk result ((number : ℕ) → number ≢ conn.0 → entry_at self.new number ≡ entry_at self.old number) }
    {
        if !self.streams.contains_key(&conn.0) {
            let streams = Streams::new(self.alloc, protocol)?;
            self.streams.insert(conn.0, streams)?;
        }
        Ok(())
    }

    /// Makes room for the hint of a place.
    fn make_hint(&mut self, place: usize) -> Result<(), Mem>
        ensures limit { self.new.limit ≡ self.old.limit }
        ensures kept { self.new.kept ≡ self.old.kept }
        ensures streams { self.new.streams ≡ self.old.streams }
    {
        if self.hints.len() <= place {
            let more = place.saturating_add(place / 2).saturating_add(64);
            self.hints.resize(more, NOT_NOTED)?;
        }
        Ok(())
    }

    /// Where the streams of a connection stand: at the hint of its place, or found by its number, and
    /// then noted.
    fn find(&mut self, conn: ConnNo, place: usize) -> Option<usize>
        ensures limit { self.new.limit ≡ self.old.limit }
        ensures kept { self.new.kept ≡ self.old.kept }
        ensures streams { self.new.streams ≡ self.old.streams }
        ensures within { IfSome result (λ index. index < index_map_len self.new.streams) }
        ensures there { IfSome result (λ index. StandAt self.new index conn.0) }
        ensures none { IfNone result (entry_at self.old conn.0 ≡ None) }
    {
        if let Some(index) = self.hinted(conn, place) {
            return Some(index);
        }
        let (index, _, _) = self.streams.get_full(&conn.0)?;
        self.note(place, index);
        Some(index)
    }

    /// Where the hint of a place says that streams stand, if they are those of this connection.
    fn hinted(&self, conn: ConnNo, place: usize) -> Option<usize>
        ensures within { IfSome result (λ index. index < index_map_len self.now.streams) }
        ensures there { IfSome result (λ index. StandAt self.now index conn.0) }
    {
        let index = *self.hints.get(place)? as usize;
        let (number, _) = self.streams.get_index(index)?;
        if *number == conn.0 { Some(index) } else { None }
    }

    /// Notes at a place where streams stand.
    fn note(&mut self, place: usize, index: usize)
        ensures limit { self.new.limit ≡ self.old.limit }
        ensures kept { self.new.kept ≡ self.old.kept }
        ensures streams { self.new.streams ≡ self.old.streams }
    {
        let noted = u32::try_from(index).unwrap_or(NOT_NOTED);
        if place < self.hints.len() {
            self.hints[place] = noted;
        }
    }

    /// Tells the streams of a connection of a segment, if it has an entry.
    fn tell(
        &mut self,
        conn: ConnNo,
        place: usize,
        side: Side,
        stops: Stops,
        segment: &Segment<'_>,
        news: &mut News,
    ) -> Result<Moves, Mem>
        ensures limit { self.new.limit ≡ self.old.limit }
        ensures others { OnOk result ((number : ℕ) → number ≢ conn.0 → entry_at self.new number ≡ entry_at self.old number) }
        ensures taken { IfOk result (λ moves. (t : Moment) (c : Conversation) → HasStreams self.old.limit (entry_at self.old conn.0) c
            → (entry_at self.old conn.0 ≡ None → has_syn segment.now.view ≡ false)
            → side ≡ sender_in c (segment_of t segment.now) → stops.resets ≡ resets c (segment_of t segment.now)
            → (has_syn segment.now.view ≡ true → stops.was_reset ≡ was_reset_with c (segment_of t segment.now)) → held_in self.old.limit c ≤ self.old.kept
            → Takes self.old.limit conn c (segment_of t segment.now) moves self.old self.new news.old news.new) }
    {
        match self.find(conn, place) {
            Some(index) => self.tell_at(index, conn, side, stops, segment, news),
            None => Ok(NO_MOVES),
        }
    }

    /// Tells the streams that stand at an index, those of this connection, of a segment.
    fn tell_at(
        &mut self,
        index: usize,
        conn: ConnNo,
        side: Side,
        stops: Stops,
        segment: &Segment<'_>,
        news: &mut News,
    ) -> Result<Moves, Mem>
        requires within { index < index_map_len self.old.streams }
        requires there { StandAt self.old index conn.0 }
        ensures limit { self.new.limit ≡ self.old.limit }
        ensures others { OnOk result ((number : ℕ) → number ≢ conn.0 → entry_at self.new number ≡ entry_at self.old number) }
        ensures taken { IfOk result (λ moves. (t : Moment) (c : Conversation) → HasStreams self.old.limit (entry_at self.old conn.0) c
            → side ≡ sender_in c (segment_of t segment.now) → stops.resets ≡ resets c (segment_of t segment.now)
            → (has_syn segment.now.view ≡ true → stops.was_reset ≡ was_reset_with c (segment_of t segment.now)) → held_in self.old.limit c ≤ self.old.kept
            → Takes self.old.limit conn c (segment_of t segment.now) moves self.old self.new news.old news.new) }
    {
        let (_, streams) = self.streams.pair_mut(index);
        let before = streams.kept().ok_or(Mem)?;
        let moves = streams.take(self.alloc, self.limit, conn, side, stops, segment, news)?;
        streams.read(side, news)?;
        let after = streams.kept().ok_or(Mem)?;
        let others = self.kept.saturating_sub(before);
        self.kept = others.checked_add(after).ok_or(Mem)?;
        Ok(moves)
    }
}
