ghost use Rattle.std.specs.Prelude.{◌≡◌, ℕ, ◌+◌, ◌-◌, ◌<◌, ◌≤◌, ◌==◌, true, false, nat_lt, ◌||◌, if◌then◌else◌, min, max, List, [], ◌∷◌, ◌++◌, drop, length, map, unwrap_or, Option, Some, IfOk, IfNone, IfSome, OnErr};
ghost use Rattle.zk_reasm.specs.declared.place.TheConstants.{PLACES};
ghost use Rattle.zk_reasm.specs.Held.{IsSettled};
ghost use Rattle.zk_reasm.specs.Histories.{is_reached, content, run_of, gap_of, put_of, ack_of, front_of, ended_of, over_of, kept_of};
ghost use Rattle.zk_reasm.specs.Place.{place};
ghost use Rattle.zk_reasm.specs.Told.{Told, Segment, Fin, Ack, Stop};

use crate::held::Held;
use crate::piece::Piece;
use crate::place::{PLACES, distance};
use std::alloc::Global;
use zk_base::Mem;

/// What a segment did.
#[derive(Clone, Copy, Debug, PartialEq, Eq)]
pub enum Put {
    /// The front grew.
    Grew,
    /// A byte got a place, and the front stayed.
    Kept,
    /// No byte got a place. A stream that is over answers so to each segment.
    Old,
    /// More bytes than the limit lie above the front, and the stream takes nothing more.
    GaveUp,
}

/// One direction of a TCP connection, put together from what it is told: the payloads of its
/// segments, the number of its FIN and the acknowledgement numbers of the peer (RFC 9293, section
/// 3.4; that the first copy of a byte stands, and that a hole which the peer acknowledged is a gap,
/// are this project's own rules).
///
/// Bytes are counted from 0 on. Of two copies of a byte the first stands. The front is the place up
/// to which each place has its byte or is a gap: a place without a byte that the peer acknowledged
/// and that is known to have been sent. It never falls, and stops at the FIN. A stream is over once
/// its front has reached the FIN's place, once more bytes than its limit lie above the front, or
/// once it is stopped. From then on it takes no more bytes, skips nothing more and has no FIN, and
/// what lies above its front is dropped.
#[derive(Debug, Drop)]
pub struct Stream {
    base: u32,
    /// It was stopped, has ended or gave up.
    is_over: bool,
    /// The FIN's place.
    fin: Option<u32>,
    /// The greatest place that the peer acknowledged.
    acked: u64,
    /// One past the greatest place of a payload byte.
    payload_end: u64,
    limit: u64,
    held: Held,
    ghost acked_within: { acked ≤ PLACES },
    ghost settled: { IsSettled held },
}

/// The place that an acknowledgement number names, and 0 where it has none.
fn acknowledged(base: u32, number: u32) -> u64
    ensures value { result ≡ unwrap_or (place base number) 0 }
    ensures within { result ≤ PLACES }
{
    let place = u64::from(distance(base, number));
    if place < PLACES { place } else { 0 }
}

/// What the peer acknowledged of that which is known to have been sent.
fn reach(acked: u64, payload_end: u64, fin: Option<u32>) -> u64
    ensures { result ≡ min acked (max payload_end (unwrap_or fin 0)) }
{
    acked.min(payload_end.max(u64::from(fin.unwrap_or(0))))
}

/// How far the front may go: to the FIN's place at most, but it never falls.
fn furthest(front: u64, fin: Option<u32>) -> u64
    requires { front ≤ PLACES }
    ensures { result ≡ max front (min PLACES (unwrap_or fin PLACES)) }
{
    match fin {
        Some(fin) => front.max(PLACES.min(u64::from(fin))),
        None => front.max(PLACES),
    }
}

/// Whether the front is at or past the FIN's place.
fn is_reached(fin: Option<u32>, front: u64) -> bool
    ensures { result ≡ is_reached fin front }
{
    match fin {
        Some(fin) => u64::from(fin) < PLACES && u64::from(fin) <= front,
        None => false,
    }
}

/// What a segment did that counts.
fn answer(gave_up: bool, grew: bool, placed: bool) -> Put
    ensures { result ≡ (if gave_up then Put.GaveUp else if grew then Put.Grew else if placed then Put.Kept else Put.Old) }
{
    if gave_up {
        Put::GaveUp
    } else if grew {
        Put::Grew
    } else if placed {
        Put::Kept
    } else {
        Put::Old
    }
}

impl Stream {
    ghost use Rattle.zk_reasm.specs.Gaps.{gap_behind};
    ghost use Rattle.zk_reasm.specs.Judging.{Finishes};
    ghost use Rattle.zk_reasm.specs.Standing.{StandsFor, lent};

    /// A direction whose SYN has the number `base`, and that gives up once more than `limit` bytes lie
    /// above its front. No memory is taken.
    pub fn new(alloc: Global, base: u32, limit: u64) -> Stream
        ensures { StandsFor result base limit [] 0 }
    {
        Stream {
            base,
            limit,
            acked: 0,
            payload_end: 0,
            fin: None,
            is_over: false,
            held: Held::new(alloc),
        }
    }

    /// Takes the payload of a segment, from its first sequence number on. All the room that its bytes
    /// need, now and later, is made here. `Mem` leaves the stream as it was.
    ///
    /// A segment with a FIN is told by `fin` first, and then by this call, also where it has no byte.
    pub fn put(&mut self, seq: u32, bytes: &[u8]) -> Result<Put, Mem>
        requires { length bytes.now ≤ 65535 }
        ensures answer { IfOk result (λ put. (base limit taken : ℕ) (told : List Told) → StandsFor self.old base limit told taken
            → put ≡ put_of base limit told seq bytes.now) }
        ensures told { IfOk result (λ put. (base limit taken : ℕ) (told : List Told) → StandsFor self.old base limit told taken
            → StandsFor self.new base limit (told ++ Segment seq bytes.now ∷ []) taken) }
        ensures memory { OnErr result ((base limit taken : ℕ) (told : List Told) → StandsFor self.old base limit told taken
            → StandsFor self.new base limit told taken) }
    {
        if self.is_over {
            return Ok(Put::Old);
        }
        let front = self.held.front;
        let piece = Piece::of(self.base, seq, bytes);
        let count = self.held.add(&piece.at_or_past(front), self.fin.is_none())?;
        self.payload_end = self.payload_end.max(piece.last_end());
        self.held.advance(
            reach(self.acked, self.payload_end, self.fin),
            furthest(front, self.fin),
        );
        let gave_up = self.judge();
        Ok(answer(gave_up, front < self.held.front, count > 0))
    }

    /// Lends what is new of the payload of a segment, where that begins at the front, or before it, and
    /// nothing is held. What it lends counts as taken at once, and no memory is taken. Where it lends
    /// nothing the stream is as it was, and `put` takes the payload.
    pub fn pass_on<'b>(&mut self, seq: u32, bytes: &'b [u8]) -> Option<&'b [u8]>
        requires { length bytes.now ≤ 65535 }
        ensures told { IfSome result (λ run. (base limit taken : ℕ) (told : List Told) → StandsFor self.old base limit told taken
            → StandsFor self.new base limit (told ++ Segment seq bytes.now ∷ []) (taken + length run.now)) }
        ensures bytes { IfSome result (λ run. (base limit taken : ℕ) (told : List Told) → StandsFor self.old base limit told taken
            → content base limit (told ++ Segment seq bytes.now ∷ []) taken ≡ map (λ byte. Some byte) run.now) }
        ensures answer { IfSome result (λ run. (base limit taken : ℕ) (told : List Told) → StandsFor self.old base limit told taken
            → put_of base limit told seq bytes.now ≡ (if length run.now == 0 then Put.Old else Put.Grew)) }
        ensures same { IfNone result (self.new ≡ self.old) }
    {
        let front = self.held.front;
        if self.is_over || self.fin.is_some() || self.payload_end > front || !self.held.is_clear() {
            return None;
        }
        let piece = Piece::of(self.base, seq, bytes);
        let rest = piece.at_or_past(front);
        if rest.at != front {
            return None;
        }
        self.payload_end = self.payload_end.max(piece.last_end());
        self.held.go_past(rest.bytes.len() as u64);
        Some(rest.bytes)
    }

    /// Names the sequence number of the FIN. The first one counts, unless the stream is over. The front
    /// doesn't move before the next segment or acknowledgement.
    pub fn fin(&mut self, seq: u32)
        ensures { (base limit taken : ℕ) (told : List Told) → StandsFor self.old base limit told taken
            → StandsFor self.new base limit (told ++ Fin seq ∷ []) taken }
    {
        if self.is_over {
            return;
        }
        self.fin = self.fin.or(Some(distance(self.base, seq)));
        self.judge();
    }

    /// Takes an acknowledgement number of the peer. Whether the front grew. No memory is taken.
    pub fn ack(&mut self, ack: u32) -> bool
        ensures answer { (base limit taken : ℕ) (told : List Told) → StandsFor self.old base limit told taken
            → result ≡ ack_of base limit told ack }
        ensures told { (base limit taken : ℕ) (told : List Told) → StandsFor self.old base limit told taken
            → StandsFor self.new base limit (told ++ Ack ack ∷ []) taken }
    {
        if self.is_over {
            return false;
        }
        let front = self.held.front;
        self.acked = self.acked.max(acknowledged(self.base, ack));
        self.held.advance(
            reach(self.acked, self.payload_end, self.fin),
            furthest(front, self.fin),
        );
        self.judge();
        front < self.held.front
    }

    /// Takes nothing more from now on, as after an RST.
    pub fn stop(&mut self)
        ensures { (base limit taken : ℕ) (told : List Told) → StandsFor self.old base limit told taken
            → StandsFor self.new base limit (told ++ Stop ∷ []) taken }
    {
        if !self.is_over {
            self.finish();
        }
    }

    /// The bytes from the places that were taken on to the first gap or the front.
    pub fn run(&self) -> &[u8]
        ensures lends { result.now ≡ lent self.now }
        ensures bytes { (base limit taken : ℕ) (told : List Told) → StandsFor self.now base limit told taken
            → result.now ≡ run_of (content base limit told taken) }
    {
        self.held.run()
    }

    /// How many gap places stand directly behind the run: 0 exactly where the run ends at the front.
    pub fn gap(&self) -> u64
        ensures behind { result ≡ gap_behind self.now }
        ensures places { (base limit taken : ℕ) (told : List Told) → StandsFor self.now base limit told taken
            → result ≡ gap_of (content base limit told taken) }
    {
        self.held.gap()
    }

    /// Takes bytes from the front of the run, and forgets them.
    pub fn take(&mut self, n: usize)
        requires { n ≤ length (lent self.old) }
        ensures lent { lent self.new ≡ drop n (lent self.old) }
        ensures taken { (base limit taken : ℕ) (told : List Told) → StandsFor self.old base limit told taken
            → StandsFor self.new base limit told (taken + n) }
    {
        self.held.take(n);
    }

    /// Passes gap places, where the run is empty.
    pub fn skip(&mut self, n: u64)
        requires empty { length (lent self.old) ≡ 0 }
        requires gap { n ≤ gap_behind self.old }
        ensures { (base limit taken : ℕ) (told : List Told) → StandsFor self.old base limit told taken
            → StandsFor self.new base limit told (taken + n) }
    {
        self.held.skip(n);
    }

    /// The place up to which each place has its byte or is a gap.
    pub fn front(&self) -> u64
        ensures { (base limit taken : ℕ) (told : List Told) → StandsFor self.now base limit told taken
            → result ≡ front_of base limit told }
    {
        self.held.front
    }

    /// Whether the front is at or past the FIN's place.
    pub fn ended(&self) -> bool
        ensures { (base limit taken : ℕ) (told : List Told) → StandsFor self.now base limit told taken
            → result ≡ ended_of base limit told }
    {
        is_reached(self.fin, self.held.front)
    }

    /// How many bytes are held: those of the run, and those that lie behind a gap or above the front.
    pub fn kept(&self) -> u64
        ensures exact { (base limit taken : ℕ) (told : List Told) → StandsFor self.now base limit told taken
            → result ≡ kept_of base limit told taken }
        ensures bound { (base limit taken : ℕ) (told : List Told) → StandsFor self.now base limit told taken
            → result ≤ front_of base limit told - taken + limit }
    {
        self.held.kept
    }

    /// Sees whether the stream is over: it has ended, or gives up, which is the answer.
    fn judge(&mut self) -> bool
        ensures gave_up { result ≡ nat_lt self.old.limit self.old.held.above }
        ensures over { self.new.is_over ≡ (self.old.is_over || (is_reached self.old.fin self.old.held.front || nat_lt self.old.limit self.old.held.above)) }
        ensures rest { Finishes self.old self.new (is_reached self.old.fin self.old.held.front || nat_lt self.old.limit self.old.held.above) }
    {
        let gave_up = self.held.above > self.limit;
        if is_reached(self.fin, self.held.front) || gave_up {
            self.finish();
        }
        gave_up
    }

    /// The stream is over, and what lies above the front is dropped.
    fn finish(&mut self)
        ensures over { self.new.is_over ≡ true }
        ensures rest { Finishes self.old self.new true }
    {
        self.is_over = true;
        self.held.cut();
    }
}
