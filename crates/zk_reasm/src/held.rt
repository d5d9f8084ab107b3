ghost use Rattle.std.specs.Prelude.{◌≡◌, ℕ, ◌+◌, ◌-◌, ◌<◌, ◌≤◌, true, false, max, min, drop, length, None, IsSome, IfOk, OnOk, OnErr};
ghost use Rattle.std.specs.Option.{option_or};
ghost use Rattle.zk_reasm.specs.declared.place.TheConstants.{PLACES};
ghost use Rattle.zk_reasm.specs.Apart.{byte_apart};
ghost use Rattle.zk_reasm.specs.Between.{held_between};
ghost use Rattle.zk_reasm.specs.Parts.{byte_held, IsFirstFree};
ghost use Rattle.zk_reasm.specs.Piece.{byte_in};
ghost use Rattle.zk_base.specs.ByteQueue.{bytes_of, room_of};

use crate::apart::Apart;
use crate::piece::Piece;
use crate::place::PLACES;
use std::alloc::Global;
use zk_base::{ByteQueue, Mem};

/// The bytes that a stream holds, and its front.
#[derive(Debug, Drop)]
pub struct Held {
    /// Each place below it has its byte or is a gap.
    pub front: u64,
    /// How many bytes lie at or past the front.
    pub above: u64,
    /// How many bytes are held.
    pub kept: u64,
    /// The place behind the run.
    run_end: u64,
    /// The bytes from the taken places on to the first gap or the front.
    run: ByteQueue,
    /// The bytes behind the run, which lie behind a gap or above a hole.
    apart: Apart,
    ghost start: { length (bytes_of run) ≤ run_end },
    ghost end: { run_end ≤ PLACES },
    ghost front_within: { front ≤ PLACES },
    ghost kept_counts: { kept ≡ length (bytes_of run) + held_between (byte_apart apart) run_end PLACES },
    ghost above_counts: { above ≡ held_between (byte_held run run_end apart) front PLACES },
    ghost room: { held_between (byte_apart apart) run_end PLACES ≤ room_of run },
}

#[tactic(auto, unfolding(crate::specs::Held::byte_kept, crate::specs::Held::lent_of, crate::specs::Held::taken_of))]
impl Held {
    ghost use Rattle.zk_reasm.specs.Held.{byte_kept, lent_of, taken_of, Stays, IsSettled};

    /// No bytes. No memory is taken.
    pub fn new(alloc: Global) -> Held
        ensures front { result.front ≡ 0 }
        ensures kept { result.kept ≡ 0 }
        ensures above { result.above ≡ 0 }
        ensures taken { taken_of result ≡ 0 }
        ensures bytes { (at : ℕ) → byte_kept result at ≡ None }
        ensures settled { IsSettled result }
    {
        Held {
            front: 0,
            above: 0,
            kept: 0,
            run_end: 0,
            run: ByteQueue::new(alloc),
            apart: Apart::new(alloc),
        }
    }

    /// Puts bytes where nothing is yet, at or past the front. The answer is how many were put. They go
    /// right behind the run where they may, follow on it and nothing lies apart. All the room that the
    /// bytes need, now and later, is made here.
    pub fn add(&mut self, piece: &Piece<'_>, may_append: bool) -> Result<u64, Mem>
        requires settled { self.old.run_end ≤ self.old.front }
        requires front { self.old.front ≤ piece.now.at }
        requires within { piece.now.at + length piece.now.bytes.now ≤ PLACES }
        ensures bytes { OnOk result ((at : ℕ) → byte_kept self.new at ≡ option_or (byte_kept self.old at) (byte_in piece.now.at piece.now.bytes.now at)) }
        ensures count { IfOk result (λ count. count + held_between (byte_kept self.old) piece.now.at (piece.now.at + length piece.now.bytes.now) ≡ length piece.now.bytes.now) }
        ensures kept { IfOk result (λ count. self.new.kept ≡ self.old.kept + count) }
        ensures taken { OnOk result (taken_of self.new ≡ taken_of self.old) }
        ensures front { OnOk result (self.new.front ≡ self.old.front) }
        ensures run_end { OnOk result (may_append ≡ false → self.new.run_end ≡ self.old.run_end) }
        ensures err { OnErr result (Stays self.old self.new) }
    {
        self.reserve(piece.bytes.len())?;
        if may_append && piece.at == self.run_end && self.apart.is_empty() {
            return Ok(self.append(piece));
        }
        self.put_apart(piece)
    }

    /// Whether nothing is held, and all up to the front was taken.
    pub fn is_clear(&self) -> bool
        ensures nothing { result ≡ true → self.now.kept ≡ 0 }
        ensures taken { result ≡ true → self.now.run_end ≡ self.now.front }
    {
        self.kept == 0 && self.run_end == self.front
    }

    /// Moves the front past places whose bytes never lie here, where nothing is held and all up to the
    /// front was taken.
    pub fn go_past(&mut self, n: u64)
        requires nothing { self.old.kept ≡ 0 }
        requires taken { self.old.run_end ≡ self.old.front }
        requires within { self.old.front + n ≤ PLACES }
        ensures front { self.new.front ≡ self.old.front + n }
        ensures taken { taken_of self.new ≡ self.new.front }
        ensures bytes { (at : ℕ) → self.new.front ≤ at → byte_kept self.new at ≡ byte_kept self.old at }
        ensures above { self.new.above ≡ 0 }
        ensures settled { IsSettled self.new }
    {
        self.front += n;
        self.run_end += n;
    }

    /// Makes room in the run for all that lies apart from it and this many bytes more.
    fn reserve(&mut self, more: usize) -> Result<(), Mem>
        requires { more ≤ PLACES }
        ensures stays { Stays self.old self.new }
        ensures apart { (at : ℕ) → byte_apart self.new.apart at ≡ byte_apart self.old.apart at }
        ensures room { OnOk result (held_between (byte_apart self.new.apart) self.new.run_end PLACES + more ≤ room_of self.new.run) }
    {
        let apart = (self.kept - self.run.as_slice().len() as u64) as usize;
        self.run.reserve(apart + more)
    }

    /// Puts bytes right behind the run, where nothing lies apart. The answer is how many.
    fn append(&mut self, piece: &Piece<'_>) -> u64
        requires at { piece.now.at ≡ self.old.run_end }
        requires front { self.old.front ≤ piece.now.at }
        requires within { piece.now.at + length piece.now.bytes.now ≤ PLACES }
        requires nothing { (at : ℕ) → byte_apart self.old.apart at ≡ None }
        requires room { length piece.now.bytes.now ≤ room_of self.old.run }
        ensures bytes { (at : ℕ) → byte_kept self.new at ≡ option_or (byte_kept self.old at) (byte_in piece.now.at piece.now.bytes.now at) }
        ensures count { result + held_between (byte_kept self.old) piece.now.at (piece.now.at + length piece.now.bytes.now) ≡ length piece.now.bytes.now }
        ensures kept { self.new.kept ≡ self.old.kept + result }
        ensures taken { taken_of self.new ≡ taken_of self.old }
        ensures front { self.new.front ≡ self.old.front }
    {
        let count = piece.bytes.len() as u64;
        self.run.append(piece.bytes);
        self.run_end = piece.end();
        self.kept += count;
        self.above += count;
        count
    }

    /// Puts bytes apart from the run. The answer is how many were put.
    fn put_apart(&mut self, piece: &Piece<'_>) -> Result<u64, Mem>
        requires run_end { self.old.run_end ≤ piece.now.at }
        requires front { self.old.front ≤ piece.now.at }
        requires within { piece.now.at + length piece.now.bytes.now ≤ PLACES }
        requires room { held_between (byte_apart self.old.apart) self.old.run_end PLACES + length piece.now.bytes.now ≤ room_of self.old.run }
        ensures bytes { OnOk result ((at : ℕ) → byte_kept self.new at ≡ option_or (byte_kept self.old at) (byte_in piece.now.at piece.now.bytes.now at)) }
        ensures count { IfOk result (λ count. count + held_between (byte_kept self.old) piece.now.at (piece.now.at + length piece.now.bytes.now) ≡ length piece.now.bytes.now) }
        ensures kept { IfOk result (λ count. self.new.kept ≡ self.old.kept + count) }
        ensures taken { OnOk result (taken_of self.new ≡ taken_of self.old) }
        ensures front { OnOk result (self.new.front ≡ self.old.front) }
        ensures run_end { OnOk result (self.new.run_end ≡ self.old.run_end) }
        ensures err { OnErr result (Stays self.old self.new) }
    {
        let count = self.apart.put(piece)? as u64;
        self.kept += count;
        self.above += count;
        Ok(count)
    }

    /// Moves the front to the first place at or past the reach without a byte, but at most to `most`.
    /// Where nothing is held and the reach is no further than the front, that is known at once.
    pub fn advance(&mut self, reach: u64, most: u64)
        requires reach { reach ≤ PLACES }
        requires most { most ≤ PLACES }
        requires taken { taken_of self.old ≤ self.old.front }
        requires front { self.old.front ≤ most }
        requires run_end { self.old.run_end ≤ most }
        ensures front { (free : ℕ) → IsFirstFree (byte_kept self.old) (max self.old.front reach) free → self.new.front ≡ min free most }
        ensures bytes { (at : ℕ) → taken_of self.old ≤ at → byte_kept self.new at ≡ byte_kept self.old at }
        ensures taken { taken_of self.new ≡ taken_of self.old }
        ensures kept { self.new.kept ≡ self.old.kept }
        ensures settled { IsSettled self.new }
    {
        if self.is_clear() && reach <= self.front {
            return;
        }
        self.pass(reach, most);
        self.settle();
    }

    /// Moves the front as `advance` does, and leaves the bytes where they are.
    fn pass(&mut self, reach: u64, most: u64)
        requires reach { reach ≤ PLACES }
        requires most { most ≤ PLACES }
        requires taken { taken_of self.old ≤ self.old.front }
        requires front { self.old.front ≤ most }
        requires run_end { self.old.run_end ≤ most }
        ensures front { (free : ℕ) → IsFirstFree (byte_kept self.old) (max self.old.front reach) free → self.new.front ≡ min free most }
        ensures order { self.old.run_end ≤ self.new.front }
        ensures kept { self.new.kept ≡ self.old.kept }
        ensures run { self.new.run ≡ self.old.run }
        ensures run_end { self.new.run_end ≡ self.old.run_end }
        ensures apart { self.new.apart ≡ self.old.apart }
    {
        let known = self.front.max(self.run_end);
        let start = known.max(reach);
        let front = self.apart.first_free(start).min(most);
        let behind_gaps = start.min(front);
        let held = self.apart.count(known, behind_gaps);
        self.above -= known - self.front + held + (front - behind_gaps);
        self.front = front;
    }

    /// Moves the bytes that follow on the run to it.
    fn settle(&mut self)
        requires { self.old.run_end ≤ self.old.front }
        ensures bytes { (at : ℕ) → taken_of self.old ≤ at → byte_kept self.new at ≡ byte_kept self.old at }
        ensures taken { taken_of self.new ≡ taken_of self.old }
        ensures front { self.new.front ≡ self.old.front }
        ensures above { self.new.above ≡ self.old.above }
        ensures kept { self.new.kept ≡ self.old.kept }
        ensures settled { IsSettled self.new }
    {
        self.run_end = self.apart.move_run(self.run_end, self.front, &mut self.run);
    }

    /// Drops what lies at or past the front.
    pub fn cut(&mut self)
        requires { IsSettled self.old }
        ensures bytes { (at : ℕ) → at < self.old.front → byte_kept self.new at ≡ byte_kept self.old at }
        ensures none { (at : ℕ) → self.old.front ≤ at → byte_kept self.new at ≡ None }
        ensures taken { taken_of self.new ≡ taken_of self.old }
        ensures front { self.new.front ≡ self.old.front }
        ensures above { self.new.above ≡ 0 }
        ensures kept { self.new.kept + self.old.above ≡ self.old.kept }
        ensures settled { IsSettled self.new }
    {
        self.apart.cut(self.front);
        self.kept -= self.above;
        self.above = 0;
    }

    /// The bytes from the taken places on to the first gap or the front.
    pub fn run(&self) -> &[u8]
        ensures { result.now ≡ lent_of self.now }
    {
        self.run.as_slice()
    }

    /// How many gap places stand directly behind the run.
    pub fn gap(&self) -> u64
        ensures within { result ≤ self.now.front - self.now.run_end }
        ensures none { (at : ℕ) → self.now.run_end ≤ at → at < self.now.run_end + result → byte_kept self.now at ≡ None }
        ensures end { self.now.run_end + result < self.now.front → IsSome (byte_kept self.now (self.now.run_end + result)) }
    {
        if self.front <= self.run_end {
            return 0;
        }
        let end = match self.apart.first_held(self.run_end) {
            Some(place) => place.min(self.front),
            None => self.front,
        };
        end - self.run_end
    }

    /// Takes bytes of the run.
    pub fn take(&mut self, n: usize)
        requires order { self.old.run_end ≤ self.old.front }
        requires enough { n ≤ length (lent_of self.old) }
        ensures lent { lent_of self.new ≡ drop n (lent_of self.old) }
        ensures bytes { (at : ℕ) → taken_of self.new ≤ at → byte_kept self.new at ≡ byte_kept self.old at }
        ensures taken { taken_of self.new ≡ taken_of self.old + n }
        ensures front { self.new.front ≡ self.old.front }
        ensures run_end { self.new.run_end ≡ self.old.run_end }
        ensures above { self.new.above ≡ self.old.above }
        ensures kept { self.new.kept + n ≡ self.old.kept }
    {
        self.run.take(n);
        self.kept -= n as u64;
    }

    /// Passes gap places, where the run is empty.
    pub fn skip(&mut self, n: u64)
        requires empty { length (lent_of self.old) ≡ 0 }
        requires within { self.old.run_end + n ≤ self.old.front }
        requires none { (at : ℕ) → self.old.run_end ≤ at → at < self.old.run_end + n → byte_kept self.old at ≡ None }
        ensures bytes { (at : ℕ) → taken_of self.new ≤ at → byte_kept self.new at ≡ byte_kept self.old at }
        ensures taken { taken_of self.new ≡ taken_of self.old + n }
        ensures front { self.new.front ≡ self.old.front }
        ensures above { self.new.above ≡ self.old.above }
        ensures kept { self.new.kept ≡ self.old.kept }
        ensures settled { IsSettled self.new }
    {
        self.run_end += n;
        self.settle();
    }
}
