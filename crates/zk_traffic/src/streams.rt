ghost use Rattle.std.specs.Prelude.{◌≡◌, ℕ, ◌+◌, ◌≤◌, ◌<◌, ◌^◌, Bool, true, false, not, ◌&&◌, if◌then◌else◌, List, [], ◌++◌, length, Option, None, Some, IfOk, IfSome, IfNone, OnOk, MatchOption};
ghost use Rattle.zk_base.specs.declared.network.Side.{Side as SideData};
ghost use Rattle.zk_base.specs.declared.network.Side.TheVariants.{Orig, Resp};
ghost use Rattle.zk_base.specs.declared.time.Moment.{Moment};
ghost use Rattle.zk_conn.specs.Segment.{has_ack, has_rst, has_syn};
ghost use Rattle.zk_http.specs.Places.{Both, Stream as Placed, of_side};
ghost use Rattle.zk_reasm.specs.Histories.{content, ended_of, front_of, put_of};
ghost use Rattle.zk_reasm.specs.Standing.{StandsFor};
ghost use Rattle.zk_reasm.specs.Told.{Told};
ghost use Rattle.zk_traffic.specs.Conversation.{Conversation, Direction, resets, sender_in, was_reset_with, acknowledged_told, begun_by, direction_with, fin_told, front_at, has_ended, is_gave_up, payload_number, put_with, sent_told, stop_told, told_more};
ghost use Rattle.zk_traffic.specs.Items.{news_of};
ghost use Rattle.zk_traffic.specs.Kept.{held_by};
ghost use Rattle.zk_traffic.specs.News.{runs_of};
ghost use Rattle.zk_traffic.specs.Moves.{Begins, HasMoved, HasTaken, IsDrained, IsTaken, front_moved};
ghost use Rattle.zk_traffic.specs.Places.{gaps_from, runs_from};
ghost use Rattle.zk_traffic.specs.Streams.{AreStreams, IsStream};
ghost use Rattle.zk_traffic.specs.Taken.{segment_of};
ghost use Rattle.zk_units.specs.Cuts.{byte_places};
ghost use Rattle.zk_traffic.specs.Reading.{Reads, StandsFor as ReadersStand, held_in};
ghost use Rattle.zk_units.specs.Standing.{ended_by, no_streams, with_stream};
ghost use Rattle.zk_units.specs.Units.{no_units};
ghost use Rattle.zk_units.specs.declared.protocol.Protocol.{Protocol as Speaks};
ghost use Rattle.zk_units.specs.declared.stream_unit.StreamUnit.{StreamUnit as Said};

use crate::news::News;
use crate::reading::Reading;
use crate::segment::Segment;
use std::alloc::Global;
use zk_base::{ConnNo, Mem, Side};
use zk_reasm::{Put, Stream};
use zk_units::Protocol;

/// The streams of a connection's two sides, each from its side's first SYN on.
#[derive(Debug, Drop)]
pub struct Streams {
    orig: Option<Stream>,
    resp: Option<Stream>,
    readers: Reading,
}

/// How a stream has moved.
#[derive(Clone, Copy, Debug, PartialEq, Eq)]
pub struct Moved {
    /// Its front, where that is another one than before.
    pub front: Option<u64>,
    /// It has reached its FIN.
    pub ended: bool,
}

/// What a segment did to the streams.
#[derive(Clone, Copy, Debug, PartialEq, Eq)]
pub struct Moves {
    pub sender: Moved,
    pub receiver: Moved,
    /// The sender's stream gave up.
    pub gave_up: bool,
}

/// How a segment stops streams.
#[derive(Clone, Copy, Debug, PartialEq, Eq)]
pub struct Stops {
    /// It resets the connection.
    pub resets: bool,
    /// The connection was reset, by it or before.
    pub was_reset: bool,
}

/// A stream that has not moved.
const UNMOVED: Moved = Moved {
    front: None,
    ended: false,
};

impl Streams {
    /// No streams, of a connection that speaks this protocol.
    pub fn new(alloc: Global, protocol: Option<Protocol>) -> Result<Streams, Mem>
        ensures streams { IfOk result (λ streams. (limit : ℕ) → AreStreams limit streams None None) }
        ensures readers { IfOk result (λ streams. ReadersStand streams.readers protocol no_streams no_units) }
        ensures held { IfOk result (λ streams. (side : SideData) → held_in side streams.readers ≡ 0) }
    {
        Ok(Streams {
            orig: None,
            resp: None,
            readers: Reading::new(alloc, protocol)?,
        })
    }

    /// How many bytes the streams hold, with those that wait to be read: nothing where that passes the
    /// greatest number.
    pub fn kept(&self) -> Option<u64>
        ensures { (limit : ℕ) (orig resp : Option Direction) → AreStreams limit self.now orig resp
            → MatchOption result (2 ^ 64 ≤ held_by limit orig + held_by limit resp + (held_in Orig self.now.readers + held_in Resp self.now.readers))
            (λ n. n ≡ held_by limit orig + held_by limit resp + (held_in Orig self.now.readers + held_in Resp self.now.readers)) }
    {
        let streams = kept(&self.orig).checked_add(kept(&self.resp))?;
        let orig = self.readers.held(Side::Orig);
        streams.checked_add(orig.checked_add(self.readers.held(Side::Resp))?)
    }

    /// Adds the units that the streams free: those of this side first.
    pub fn read(&mut self, first: Side, news: &mut News) -> Result<(), Mem>
        ensures streams { (self.new.orig ≡ self.old.orig) × (self.new.resp ≡ self.old.resp) }
        ensures news { (runs_of news.new ≡ runs_of news.old) × (news.new.gaps.items ≡ news.old.gaps.items) }
        ensures units { OnOk result ((protocol : Option Speaks) (streams : Both Placed) (given : Both (List Said)) → ReadersStand self.old.readers protocol streams given
            → Reads first self.old.readers self.new.readers news.old.units.items news.new.units.items protocol streams given) }
    {
        self.readers.read(first, &mut news.units)
    }

    /// Tells the streams of a segment of this side.
    pub fn take(
        &mut self,
        alloc: Global,
        limit: u64,
        conn: ConnNo,
        side: Side,
        stops: Stops,
        segment: &Segment<'_>,
        news: &mut News,
    ) -> Result<Moves, Mem>
        ensures { IfOk result (λ moves. (t : Moment) (c : Conversation) → AreStreams limit self.old c.orig c.resp → side ≡ sender_in c (segment_of t segment.now)
            → stops.resets ≡ resets c (segment_of t segment.now) → (has_syn segment.now.view ≡ true → stops.was_reset ≡ was_reset_with c (segment_of t segment.now))
            → HasTaken limit conn c (segment_of t segment.now) moves self.old.readers self.new news.old news.new) }
    {
        match side {
            Side::Orig => {
                let stop = begin(alloc, limit, &mut self.orig, stops, segment);
                let (sender, gave_up) = send(
                    &mut self.orig,
                    conn,
                    Side::Orig,
                    stop,
                    segment,
                    &mut self.readers,
                    news,
                )?;
                let receiver = acknowledge(
                    &mut self.resp,
                    conn,
                    Side::Resp,
                    stops,
                    segment,
                    &mut self.readers,
                    news,
                )?;
                Ok(Moves {
                    sender,
                    receiver,
                    gave_up,
                })
            }
            Side::Resp => {
                let stop = begin(alloc, limit, &mut self.resp, stops, segment);
                let (sender, gave_up) = send(
                    &mut self.resp,
                    conn,
                    Side::Resp,
                    stop,
                    segment,
                    &mut self.readers,
                    news,
                )?;
                let receiver = acknowledge(
                    &mut self.orig,
                    conn,
                    Side::Orig,
                    stops,
                    segment,
                    &mut self.readers,
                    news,
                )?;
                Ok(Moves {
                    sender,
                    receiver,
                    gave_up,
                })
            }
        }
    }
}

/// How many bytes a stream holds.
fn kept(stream: &Option<Stream>) -> u64
    ensures { (limit : ℕ) (d : Option Direction) → IsStream limit stream.now d → result ≡ held_by limit d }
{
    match stream {
        Some(stream) => stream.kept(),
        None => 0,
    }
}

/// Begins the sender's stream where the segment is its first SYN. Whether the stream is to be
/// stopped.
fn begin(
    alloc: Global,
    limit: u64,
    stream: &mut Option<Stream>,
    stops: Stops,
    segment: &Segment<'_>,
) -> bool
    ensures { (t : Moment) (d : Option Direction) → IsStream limit stream.old d
        → Begins limit stops.resets stops.was_reset (segment_of t segment.now) d result stream.new }
{
    if stream.is_none() && segment.has_syn() {
        *stream = Some(Stream::new(alloc, segment.view.seq, limit));
        stops.was_reset
    } else {
        stops.resets
    }
}

/// Tells the sender's stream of a segment. How it has moved, and whether it gave up.
#[inline(always)]
fn send(
    stream: &mut Option<Stream>,
    conn: ConnNo,
    side: Side,
    stop: bool,
    segment: &Segment<'_>,
    readers: &mut Reading,
    news: &mut News,
) -> Result<(Moved, bool), Mem>
    ensures moves { IfOk result (λ done. (t : Moment) (limit : ℕ) (d : Option Direction) → IsStream limit stream.old d
        → HasMoved limit conn side d (told_more (sent_told (segment_of t segment.now)) (told_more (stop_told stop) d)) done.0 stream.new news.old news.new readers.old readers.new) }
    ensures gave_up { IfOk result (λ done. (t : Moment) (limit : ℕ) (d : Option Direction) → IsStream limit stream.old d
        → done.1 ≡ (not (has_rst segment.now.view) && put_with limit (segment_of t segment.now) (told_more (fin_told (segment_of t segment.now)) (told_more (stop_told stop) d)))) }
{
    let Some(stream) = stream else {
        return Ok((UNMOVED, false));
    };
    let front = stream.front();
    let had_ended = stream.ended();
    stop_if(stream, stop);
    let gave_up = take_payload(stream, conn, side, front, segment, readers, news)?;
    end_if(readers, side, stream.ended());
    Ok((moved_from(stream, front, had_ended), gave_up))
}

/// Tells a stream what its side sends, and takes all places from its old front to its new one. Whether
/// it gave up.
fn take_payload(
    stream: &mut Stream,
    conn: ConnNo,
    side: Side,
    front: u64,
    segment: &Segment<'_>,
    readers: &mut Reading,
    news: &mut News,
) -> Result<bool, Mem>
    ensures drained { OnOk result ((t : Moment) (base limit : ℕ) (told : List Told) → StandsFor stream.old base limit told front → front ≤ front_of base limit told
        → IsDrained conn side base limit (told ++ sent_told (segment_of t segment.now)) front stream.new news.old news.new readers.old readers.new) }
    ensures gave_up { IfOk result (λ gave_up. (t : Moment) (base limit taken : ℕ) (told : List Told) → StandsFor stream.old base limit told taken
        → gave_up ≡ (not (has_rst segment.now.view) && is_gave_up (put_of base limit (told ++ fin_told (segment_of t segment.now))
        (payload_number (segment_of t segment.now)) segment.now.payload.now))) }
{
    if let Some(run) = pass_on(stream, segment) {
        news.add_run(conn, side, front, run)?;
        readers.add_bytes(side, run)?;
        return Ok(false);
    }
    let gave_up = put(stream, segment)?;
    catch_up(stream, conn, side, front, readers, news)?;
    Ok(gave_up)
}

/// Tells a stream what its side sends, and lends what of it is new, where the stream may pass that on
/// at once. Else the stream is as it was.
fn pass_on<'a>(stream: &mut Stream, segment: &Segment<'a>) -> Option<&'a [u8]>
    ensures told { IfSome result (λ run. (t : Moment) (base limit taken : ℕ) (told : List Told) → StandsFor stream.old base limit told taken
        → StandsFor stream.new base limit (told ++ sent_told (segment_of t segment.now)) (taken + length run.now)) }
    ensures bytes { IfSome result (λ run. (t : Moment) (base limit taken : ℕ) (told : List Told) → StandsFor stream.old base limit told taken
        → content base limit (told ++ sent_told (segment_of t segment.now)) taken ≡ byte_places run.now) }
    ensures goes_on { IfSome result (λ run. (t : Moment) (base limit taken : ℕ) (told : List Told) → StandsFor stream.old base limit told taken
        → (not (has_rst segment.now.view) && is_gave_up (put_of base limit (told ++ fin_told (segment_of t segment.now))
        (payload_number (segment_of t segment.now)) segment.now.payload.now)) ≡ false) }
    ensures same { IfNone result (stream.new ≡ stream.old) }
{
    if segment.has_rst() || segment.has_fin() {
        return None;
    }
    stream.pass_on(segment.payload_number(), segment.payload)
}

/// Tells the receiver's stream of a segment. How it has moved.
#[inline(always)]
fn acknowledge(
    stream: &mut Option<Stream>,
    conn: ConnNo,
    side: Side,
    stops: Stops,
    segment: &Segment<'_>,
    readers: &mut Reading,
    news: &mut News,
) -> Result<Moved, Mem>
    ensures { IfOk result (λ moved. (t : Moment) (limit : ℕ) (d : Option Direction) → IsStream limit stream.old d
        → HasMoved limit conn side d (told_more (acknowledged_told (segment_of t segment.now)) (told_more (stop_told stops.resets) d)) moved stream.new news.old news.new readers.old readers.new) }
{
    let Some(stream) = stream else {
        return Ok(UNMOVED);
    };
    let front = stream.front();
    let had_ended = stream.ended();
    stop_if(stream, stops.resets);
    acknowledge_by(stream, segment);
    catch_up(stream, conn, side, front, readers, news)?;
    end_if(readers, side, stream.ended());
    Ok(moved_from(stream, front, had_ended))
}

/// Stops a stream where that is asked for.
fn stop_if(stream: &mut Stream, stop: bool)
    ensures { (base limit taken : ℕ) (told : List Told) → StandsFor stream.old base limit told taken
        → StandsFor stream.new base limit (told ++ stop_told stop) taken }
{
    if stop {
        stream.stop();
    }
}

/// Tells a stream what the other side acknowledges: nothing beside an RST.
fn acknowledge_by(stream: &mut Stream, segment: &Segment<'_>)
    ensures { (t : Moment) (base limit taken : ℕ) (told : List Told) → StandsFor stream.old base limit told taken
        → StandsFor stream.new base limit (told ++ acknowledged_told (segment_of t segment.now)) taken }
{
    if !segment.has_rst() && segment.has_ack() {
        stream.ack(segment.ack);
    }
}

/// Tells a stream of a FIN.
fn fin_by(stream: &mut Stream, segment: &Segment<'_>)
    ensures { (t : Moment) (base limit taken : ℕ) (told : List Told) → StandsFor stream.old base limit told taken
        → StandsFor stream.new base limit (told ++ fin_told (segment_of t segment.now)) taken }
{
    if segment.has_fin() {
        stream.fin(segment.fin_number());
    }
}

/// Tells a stream what its side sends: nothing beside an RST. Whether it gave up.
fn put(stream: &mut Stream, segment: &Segment<'_>) -> Result<bool, Mem>
    ensures told { OnOk result ((t : Moment) (base limit taken : ℕ) (told : List Told) → StandsFor stream.old base limit told taken
        → StandsFor stream.new base limit (told ++ sent_told (segment_of t segment.now)) taken) }
    ensures gave_up { IfOk result (λ gave_up. (t : Moment) (base limit taken : ℕ) (told : List Told) → StandsFor stream.old base limit told taken
        → gave_up ≡ (not (has_rst segment.now.view) && is_gave_up (put_of base limit (told ++ fin_told (segment_of t segment.now))
        (payload_number (segment_of t segment.now)) segment.now.payload.now))) }
{
    if segment.has_rst() {
        return Ok(false);
    }
    fin_by(stream, segment);
    let put = stream.put(segment.payload_number(), segment.payload)?;
    Ok(is_gave_up(put))
}

/// Whether a stream gave up.
fn is_gave_up(put: Put) -> bool
    ensures { result ≡ is_gave_up put }
{
    match put {
        Put::GaveUp => true,
        Put::Grew | Put::Kept | Put::Old => false,
    }
}

/// How a stream has moved from what it was.
fn moved_from(stream: &Stream, front: u64, had_ended: bool) -> Moved
    ensures { (base limit taken : ℕ) (told : List Told) → StandsFor stream.now base limit told taken
        → (result.front ≡ front_moved front (front_of base limit told)) × (result.ended ≡ (ended_of base limit told && not had_ended)) }
{
    let now = stream.front();
    Moved {
        front: if front == now { None } else { Some(now) },
        ended: stream.ended() && !had_ended,
    }
}

/// Tells the readers that a side has ended, where it has.
fn end_if(readers: &mut Reading, side: Side, ended: bool)
    ensures { (protocol : Option Speaks) (streams : Both Placed) (units : Both (List Said)) → ReadersStand readers.old protocol streams units
        → ReadersStand readers.new protocol (with_stream side (ended_by (of_side side streams) ended) streams) units }
{
    if ended {
        readers.end(side);
    }
}

/// Takes all places of a stream from its old front to its new one: none where it has not moved.
#[inline(always)]
fn catch_up(
    stream: &mut Stream,
    conn: ConnNo,
    side: Side,
    front: u64,
    readers: &mut Reading,
    news: &mut News,
) -> Result<(), Mem>
    ensures { OnOk result ((base limit : ℕ) (told : List Told) → StandsFor stream.old base limit told front → front ≤ front_of base limit told
        → IsDrained conn side base limit told front stream.new news.old news.new readers.old readers.new) }
{
    if stream.front() <= front {
        return Ok(());
    }
    drain(stream, conn, side, front, readers, news)
}

/// Takes all places of a stream from its old front to its new one.
#[inline(never)]
fn drain(
    stream: &mut Stream,
    conn: ConnNo,
    side: Side,
    front: u64,
    readers: &mut Reading,
    news: &mut News,
) -> Result<(), Mem>
    ensures { OnOk result ((base limit : ℕ) (told : List Told) → StandsFor stream.old base limit told front → front ≤ front_of base limit told
        → IsDrained conn side base limit told front stream.new news.old news.new readers.old readers.new) }
{
    let mut place = front;
    while let Some(next) = take_run(stream, conn, side, place, readers, news)? {
        place = next;
    }
    Ok(())
}

/// Takes the bytes of a stream from a place on to the first gap or the front, and the gap behind
/// them. Where it goes on: nowhere at the front.
fn take_run(
    stream: &mut Stream,
    conn: ConnNo,
    side: Side,
    place: u64,
    readers: &mut Reading,
    news: &mut News,
) -> Result<Option<u64>, Mem>
    ensures taken { IfOk result (λ next. (base limit : ℕ) (told : List Told) → StandsFor stream.old base limit told place → place ≤ front_of base limit told
        → IsTaken conn side base limit told place next stream.new news.old news.new readers.old readers.new) }
    ensures further { IfOk result (λ next. IfSome next (λ n. place < n)) }
{
    if stream.front() <= place {
        return Ok(None);
    }
    let run = stream.run();
    let len = run.len();
    news.add_run(conn, side, place, run)?;
    readers.add_bytes(side, run)?;
    stream.take(len);
    let end = place.saturating_add(len as u64);
    let gap = stream.gap();
    news.add_gap(side, end, gap)?;
    readers.add_gap(side, gap)?;
    stream.skip(gap);
    let next = end.saturating_add(gap);
    if next == place {
        Ok(None)
    } else {
        Ok(Some(next))
    }
}
