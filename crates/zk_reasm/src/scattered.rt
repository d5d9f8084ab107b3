ghost use Rattle.std.specs.Prelude.{◌≡◌, ℕ, ◌+◌, ◌-◌, ◌<◌, ◌≤◌, true, ◌++◌, length, None, IsSome, MatchOption, IfOk, OnOk, OnErr};
ghost use Rattle.std.specs.Option.{option_or};
ghost use Rattle.std.specs.VecDeque.{deque_len};
ghost use Rattle.zk_reasm.specs.Between.{held_between, bytes_between};
ghost use Rattle.zk_reasm.specs.Pages.{byte_paged};
ghost use Rattle.zk_reasm.specs.Piece.{byte_in};
ghost use Rattle.zk_base.specs.ByteQueue.{bytes_of, room_of};

use crate::pages::Pages;
use crate::piece::Piece;
use crate::place::PLACES;
use crate::stretch::Stretch;
use std::alloc::Global;
use zk_base::{ByteQueue, Mem};

/// Bytes by their places, with holes between them. What came last lies in one stretch, so that bytes
/// that follow one another, upward or downward, cost no more than those of a run; what lies elsewhere
/// is on pages.
#[derive(Debug, Drop)]
pub struct Scattered {
    pages: Pages,
    last: Stretch,
    /// Where the piece began that came to the pages last, and where it ended.
    start: u64,
    end: u64,
    ghost once: { (at : ℕ) → last.at ≤ at → at < last.at + deque_len last.bytes → byte_paged pages at ≡ None },
}

#[tactic(auto, unfolding(crate::specs::Scattered::byte_scattered))]
impl Scattered {
    ghost use Rattle.zk_reasm.specs.Scattered.{byte_scattered};
    ghost use Rattle.zk_reasm.specs.Stretch.{byte_in_stretch, MayExtend};

    /// No bytes. No memory is taken.
    pub fn new(alloc: Global) -> Scattered
        ensures { (at : ℕ) → byte_scattered result at ≡ None }
    {
        Scattered {
            pages: Pages::new(alloc),
            last: Stretch::new(alloc),
            start: 0,
            end: 0,
        }
    }

    /// Whether it can be told at once that there is no byte.
    pub fn is_empty(&self) -> bool
        ensures { result ≡ true → (at : ℕ) → byte_scattered self.now at ≡ None }
    {
        self.last.is_empty() && self.pages.is_empty()
    }

    /// Puts bytes where nothing is yet. The answer is how many were put. At `Mem` the bytes stay.
    pub fn put(&mut self, piece: &Piece<'_>) -> Result<usize, Mem>
        requires { piece.now.at + length piece.now.bytes.now ≤ PLACES }
        ensures bytes { OnOk result ((at : ℕ) → byte_scattered self.new at ≡ option_or (byte_scattered self.old at) (byte_in piece.now.at piece.now.bytes.now at)) }
        ensures count { IfOk result (λ count. count + held_between (byte_scattered self.old) piece.now.at (piece.now.at + length piece.now.bytes.now) ≡ length piece.now.bytes.now) }
        ensures err { OnErr result ((at : ℕ) → byte_scattered self.new at ≡ byte_scattered self.old at) }
    {
        if piece.bytes.is_empty() {
            return Ok(0);
        }
        if self.is_next(piece) && self.pages.is_free(piece.at, piece.end()) {
            self.extend(piece)?;
            return Ok(piece.bytes.len());
        }
        self.put_on_pages(piece)
    }

    /// Whether a piece stands right behind what came last or right before it.
    fn is_next(&self, piece: &Piece<'_>) -> bool
        requires { piece.now.at + length piece.now.bytes.now ≤ PLACES }
        ensures { result ≡ true → MayExtend self.now.last piece.now.at (length piece.now.bytes.now) }
    {
        if self.last.is_empty() {
            return self.pages.is_empty() || piece.at == self.end || piece.end() == self.start;
        }
        piece.at == self.last.end() || piece.end() == self.last.start()
    }

    /// Adds a piece to the stretch, where no page has a byte.
    fn extend(&mut self, piece: &Piece<'_>) -> Result<(), Mem>
        requires within { piece.now.at + length piece.now.bytes.now ≤ PLACES }
        requires next { MayExtend self.old.last piece.now.at (length piece.now.bytes.now) }
        requires free { (at : ℕ) → piece.now.at ≤ at → at < piece.now.at + length piece.now.bytes.now → byte_paged self.old.pages at ≡ None }
        ensures bytes { OnOk result ((at : ℕ) → byte_scattered self.new at ≡ option_or (byte_scattered self.old at) (byte_in piece.now.at piece.now.bytes.now at)) }
        ensures err { OnErr result ((at : ℕ) → byte_scattered self.new at ≡ byte_scattered self.old at) }
    {
        if self.last.is_empty() {
            self.last.restart(piece.at);
            self.last.add_behind(piece.bytes)
        } else if piece.at == self.last.end() {
            self.last.add_behind(piece.bytes)
        } else {
            self.last.add_before(piece.bytes)
        }
    }

    /// Puts a piece on the pages, where nothing is yet. What came before it goes there too.
    fn put_on_pages(&mut self, piece: &Piece<'_>) -> Result<usize, Mem>
        requires { piece.now.at + length piece.now.bytes.now ≤ PLACES }
        ensures bytes { OnOk result ((at : ℕ) → byte_scattered self.new at ≡ option_or (byte_scattered self.old at) (byte_in piece.now.at piece.now.bytes.now at)) }
        ensures count { IfOk result (λ count. count + held_between (byte_scattered self.old) piece.now.at (piece.now.at + length piece.now.bytes.now) ≡ length piece.now.bytes.now) }
        ensures err { OnErr result ((at : ℕ) → byte_scattered self.new at ≡ byte_scattered self.old at) }
    {
        self.empty_stretch()?;
        let count = self.pages.put(piece.at, piece.bytes)?;
        self.start = piece.at;
        self.end = piece.end();
        Ok(count)
    }

    /// Moves the stretch to the pages. The bytes stay, at `Mem` too.
    fn empty_stretch(&mut self) -> Result<(), Mem>
        ensures bytes { (at : ℕ) → byte_scattered self.new at ≡ byte_scattered self.old at }
        ensures empty { OnOk result ((at : ℕ) → byte_in_stretch self.new.last at ≡ None) }
    {
        if self.last.is_empty() {
            return Ok(());
        }
        let start = self.last.start();
        self.pages.make_room(start, self.last.end())?;
        let (front, back) = self.last.slices();
        self.pages.fill(start, front);
        self.pages.fill(start + front.len() as u64, back);
        self.last.restart(0);
        Ok(())
    }

    /// The first place from `from` on without a byte.
    pub fn first_free(&self, from: u64) -> u64
        requires { from ≤ PLACES }
        ensures least { from ≤ result }
        ensures within { result ≤ PLACES }
        ensures before { (at : ℕ) → from ≤ at → at < result → IsSome (byte_scattered self.now at) }
        ensures free { byte_scattered self.now result ≡ None }
    {
        let place = self.pages.first_free(from);
        let end = self.last.end();
        if place < self.last.start() || end <= place {
            return place;
        }
        self.pages.first_free(end)
    }

    /// The first place from `from` on with a byte.
    pub fn first_held(&self, from: u64) -> Option<u64>
        requires { from ≤ PLACES }
        ensures { MatchOption result ((at : ℕ) → from ≤ at → byte_scattered self.now at ≡ None) (λ found.
            (from ≤ found) × (found < PLACES) × IsSome (byte_scattered self.now found)
            × ((at : ℕ) → from ≤ at → at < found → byte_scattered self.now at ≡ None)) }
    {
        let held = self.pages.first_held(from);
        let start = from.max(self.last.start());
        if self.last.end() <= start {
            return held;
        }
        match held {
            Some(place) => Some(place.min(start)),
            None => Some(start),
        }
    }

    /// How many places from one up to another have a byte.
    pub fn count(&self, from: u64, to: u64) -> u64
        requires { to ≤ PLACES }
        ensures { result ≡ held_between (byte_scattered self.now) from to }
    {
        if to <= from {
            return 0;
        }
        self.pages.count(from, to) + self.last.count(from, to)
    }

    /// Moves bytes to a run, from a place on up to the first place without a byte or to `to`. The
    /// answer is the place behind them.
    pub fn move_run(&mut self, from: u64, to: u64, run: &mut ByteQueue) -> u64
        requires within { to ≤ PLACES }
        requires order { from ≤ to }
        requires room { held_between (byte_scattered self.old) from to ≤ room_of run.old }
        ensures order { from ≤ result }
        ensures within { result ≤ to }
        ensures run { bytes_of run.new ≡ bytes_of run.old ++ bytes_between (byte_scattered self.old) from result }
        ensures room { room_of run.old ≤ room_of run.new + (result - from) }
        ensures had { (at : ℕ) → from ≤ at → at < result → IsSome (byte_scattered self.old at) }
        ensures behind { (at : ℕ) → result ≤ at → byte_scattered self.new at ≡ byte_scattered self.old at }
        ensures stop { result < to → byte_scattered self.old result ≡ None }
    {
        if from == to {
            return from;
        }
        let place = self.pages.move_run(from, to, run);
        let end = self.last.move_run(place, to, run);
        if end == place {
            return place;
        }
        self.pages.move_run(end, to, run)
    }

    /// Drops the bytes from a place on.
    pub fn cut(&mut self, from: u64)
        requires { from ≤ PLACES }
        ensures below { (at : ℕ) → at < from → byte_scattered self.new at ≡ byte_scattered self.old at }
        ensures above { (at : ℕ) → from ≤ at → byte_scattered self.new at ≡ None }
    {
        self.pages.cut(from);
        self.last.cut(from);
    }
}
