ghost use Rattle.std.specs.Prelude.{◌≡◌, ◌+◌, ◌<◌, ◌≤◌, [], ◌++◌, true, false, take, drop, length, slice_index, EachIndex, OnOk, OnErr, IfOk, All};
ghost use Rattle.zk_base.specs.ByteQueue.{bytes_of};
ghost use Rattle.zk_units.specs.Cuts.{byte_places, gap_places, gaps_in, runs_in};
ghost use Rattle.zk_units.specs.declared.unread.Cut.{Cut};

use std::alloc::Global;
use std::collections::VecDeque;
use zk_base::{ByteQueue, Mem};

/// How many places a stream may have.
const PLACES: u64 = 2_147_483_648;

/// A gap behind some bytes.
#[derive(Clone, Copy, Debug, PartialEq, Eq)]
struct Cut {
    run: usize,
    gap: u64,
}

/// The places of a side that its reader has not used yet: bytes, and gaps between them.
#[derive(Debug, Drop)]
pub struct Unread {
    bytes: ByteQueue,
    /// How many bytes stand ahead of the first gap, and its places: none where there is no gap.
    run: usize,
    gap: u64,
    /// The later gaps.
    cuts: VecDeque<Cut>,
    /// How many bytes stand behind the last gap: all, where there is no gap.
    tail: usize,
    /// How many places are gaps.
    gaps: u64,
    /// How many places the side has up to its front.
    front: u64,
    /// The side has ended.
    pub ended: bool,
    ghost whole: { run + runs_in cuts.items + tail ≡ length (bytes_of bytes) },
    ghost counted: { gap + gaps_in cuts.items ≡ gaps },
    ghost filled: { All (λ (cut : Cut). 0 < cut.gap) cuts.items },
    ghost uncut: { gap ≡ 0 → run + length cuts.items ≡ 0 },
    ghost behind: { gaps + length (bytes_of bytes) ≤ front },
    ghost within: { front ≤ 2147483648 },
}

impl Unread {
    ghost use Rattle.zk_units.specs.Unread.{places_of, run_of};

    /// No places. No memory is taken.
    pub fn new(alloc: Global) -> Unread
        ensures places { places_of result ≡ [] }
        ensures held { length (bytes_of result.bytes) ≡ 0 }
        ensures front { result.front ≡ 0 }
        ensures ended { result.ended ≡ false }
    {
        Unread {
            bytes: ByteQueue::new(alloc),
            run: 0,
            gap: 0,
            cuts: VecDeque::new(alloc),
            tail: 0,
            gaps: 0,
            front: 0,
            ended: false,
        }
    }

    /// The bytes up to the first gap.
    pub fn run(&self) -> &[u8]
        ensures bytes { result.now ≡ run_of self.now }
        ensures range { EachIndex result.now (λ k. slice_index result.now k < 256) }
    {
        let bytes = self.bytes.as_slice();
        if self.gap == 0 {
            bytes
        } else {
            &bytes[..self.run]
        }
    }

    /// How many places are bytes.
    pub fn held(&self) -> usize
        ensures bytes { result ≡ length (bytes_of self.now.bytes) }
        ensures within { result ≤ length (places_of self.now) }
    {
        self.bytes.as_slice().len()
    }

    /// How many places there are.
    pub fn len(&self) -> u64
        ensures { result ≡ length (places_of self.now) }
    {
        self.gaps + self.held() as u64
    }

    /// How many gap places stand behind the run: none where it is all that there is.
    pub fn gap(&self) -> u64
        ensures value { result ≡ self.now.gap }
        ensures end { result ≡ 0 → length (run_of self.now) ≡ length (places_of self.now) }
        ensures places { take result (drop (length (run_of self.now)) (places_of self.now)) ≡ gap_places result }
        ensures within { length (run_of self.now) + result ≤ length (places_of self.now) }
    {
        self.gap
    }

    /// The front, so many places further on.
    fn front_behind(&self, more: u64) -> Result<u64, Mem>
        ensures front { IfOk result (λ front. front ≡ self.now.front + more) }
        ensures within { IfOk result (λ front. front ≤ 2147483648) }
        ensures memory { OnErr result (2147483648 < self.now.front + more) }
    {
        match self.front.checked_add(more) {
            Some(front) if front <= PLACES => Ok(front),
            _ => Err(Mem),
        }
    }

    /// Adds bytes at the end.
    pub fn add_bytes(&mut self, bytes: &[u8]) -> Result<(), Mem>
        ensures places { OnOk result (places_of self.new ≡ places_of self.old ++ byte_places bytes.now) }
        ensures front { OnOk result (self.new.front ≡ self.old.front + length bytes.now) }
        ensures memory { OnErr result ((places_of self.new ≡ places_of self.old) × (self.new.front ≡ self.old.front)) }
        ensures ended { self.new.ended ≡ self.old.ended }
    {
        let front = self.front_behind(bytes.len() as u64)?;
        self.bytes.reserve(bytes.len())?;
        self.bytes.append(bytes);
        self.tail += bytes.len();
        self.front = front;
        Ok(())
    }

    /// Adds a gap at the end, if it has places.
    pub fn add_gap(&mut self, places: u64) -> Result<(), Mem>
        ensures places { OnOk result (places_of self.new ≡ places_of self.old ++ gap_places places) }
        ensures front { OnOk result (self.new.front ≡ self.old.front + places) }
        ensures memory { OnErr result ((places_of self.new ≡ places_of self.old) × (self.new.front ≡ self.old.front)) }
        ensures ended { self.new.ended ≡ self.old.ended }
    {
        if places == 0 {
            return Ok(());
        }
        let front = self.front_behind(places)?;
        if self.gap == 0 {
            self.run = self.tail;
            self.gap = places;
            self.tail = 0;
            self.gaps = places;
            self.front = front;
            return Ok(());
        }
        self.cuts.push_back(Cut {
            run: self.tail,
            gap: places,
        })?;
        self.tail = 0;
        self.gaps += places;
        self.front = front;
        Ok(())
    }

    /// Passes places of the run and of the gap behind it.
    pub fn pass(&mut self, places: usize)
        requires { places ≤ length (run_of self.old) + self.old.gap }
        ensures places { places_of self.new ≡ drop places (places_of self.old) }
        ensures front { self.new.front ≡ self.old.front }
        ensures ended { self.new.ended ≡ self.old.ended }
    {
        if self.gap == 0 {
            self.bytes.take(places);
            self.tail -= places;
            return;
        }
        let bytes = places.min(self.run);
        self.bytes.take(bytes);
        self.run -= bytes;
        self.pass_gap((places - bytes) as u64);
    }

    /// Passes places of the first gap; where they are all, the next one is the first.
    fn pass_gap(&mut self, places: u64)
        requires gap { places ≤ self.old.gap }
        requires first { 0 < places → self.old.run ≡ 0 }
        requires some { 0 < self.old.gap }
        ensures places { places_of self.new ≡ drop places (places_of self.old) }
        ensures front { self.new.front ≡ self.old.front }
        ensures ended { self.new.ended ≡ self.old.ended }
    {
        self.gap -= places;
        self.gaps -= places;
        if self.gap == 0 {
            if let Some(cut) = self.cuts.pop_front() {
                self.run = cut.run;
                self.gap = cut.gap;
            }
        }
    }

    /// The side has ended.
    pub fn end(&mut self)
        ensures places { places_of self.new ≡ places_of self.old }
        ensures front { self.new.front ≡ self.old.front }
        ensures ended { self.new.ended ≡ true }
    {
        self.ended = true;
    }

    /// Passes all places.
    pub fn clear(&mut self)
        ensures places { places_of self.new ≡ [] }
        ensures front { self.new.front ≡ self.old.front }
        ensures ended { self.new.ended ≡ self.old.ended }
    {
        let held = self.held();
        self.bytes.take(held);
        self.cuts.clear();
        self.run = 0;
        self.gap = 0;
        self.tail = 0;
        self.gaps = 0;
    }
}
