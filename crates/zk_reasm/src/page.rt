ghost use Rattle.std.specs.Prelude.{◌≡◌, ◌≢◌, ℕ, ◌+◌, ◌-◌, ◌<◌, ◌≤◌, ◌∷◌, ◌++◌, true, length, None, Some, IsSome, MatchOption};
ghost use Rattle.std.specs.Option.{option_or};
ghost use Rattle.zk_reasm.specs.Between.{held_between, bytes_between};
ghost use Rattle.zk_reasm.specs.Page.{byte_on};
ghost use Rattle.zk_reasm.specs.Piece.{byte_in};
ghost use Rattle.zk_base.specs.ByteQueue.{bytes_of, room_of};

use zk_base::ByteQueue;

/// How many places one page has.
pub const PAGE_LEN: usize = 8;

/// The bytes of neighbouring places, and a bit for each place that says whether it has one.
#[derive(Clone, Copy, Debug)]
pub struct Page {
    has: u8,
    bytes: [u8; PAGE_LEN],
}

impl Page {
    /// No bytes.
    #[tactic(auto, unfolding(crate::specs::Page::byte_on))]
    pub fn new() -> Page
        ensures { (at : ℕ) → byte_on result at ≡ None }
    {
        Page {
            has: 0,
            bytes: [0; PAGE_LEN],
        }
    }

    /// Whether no place has a byte.
    #[tactic(auto, unfolding(crate::specs::Page::byte_on))]
    pub fn is_empty(&self) -> bool
        ensures { result ≡ true → (at : ℕ) → byte_on self.now at ≡ None }
    {
        self.has == 0
    }

    /// The byte at a place.
    #[tactic(auto, unfolding(crate::specs::Page::byte_on))]
    fn get(&self, at: usize) -> Option<u8>
        requires { at < PAGE_LEN }
        ensures { result ≡ byte_on self.now at }
    {
        if (self.has >> at) & 1 == 1 {
            Some(self.bytes[at])
        } else {
            None
        }
    }

    /// Puts a byte at a place.
    #[tactic(auto, unfolding(crate::specs::Page::byte_on))]
    fn set(&mut self, at: usize, byte: u8)
        requires { at < PAGE_LEN }
        ensures here { byte_on self.new at ≡ Some byte }
        ensures others { (other : ℕ) → other ≢ at → byte_on self.new other ≡ byte_on self.old other }
    {
        self.has |= 1 << at;
        self.bytes[at] = byte;
    }

    /// Drops the byte at a place.
    #[tactic(auto, unfolding(crate::specs::Page::byte_on))]
    fn clear(&mut self, at: usize)
        requires { at < PAGE_LEN }
        ensures here { byte_on self.new at ≡ None }
        ensures others { (other : ℕ) → other ≢ at → byte_on self.new other ≡ byte_on self.old other }
    {
        self.has &= !(1 << at);
    }

    /// The first place from `from` on without a byte, or the page's end.
    pub fn first_free(&self, from: usize) -> usize
        requires { from ≤ PAGE_LEN }
        ensures least { from ≤ result }
        ensures within { result ≤ PAGE_LEN }
        ensures before { (at : ℕ) → from ≤ at → at < result → IsSome (byte_on self.now at) }
        ensures free { byte_on self.now result ≡ None }
    {
        let mut at = from;
        while at < PAGE_LEN && self.get(at).is_some() {
            at += 1;
        }
        at
    }

    /// The first place from `from` on with a byte.
    pub fn first_held(&self, from: usize) -> Option<usize>
        ensures { MatchOption result ((at : ℕ) → from ≤ at → byte_on self.now at ≡ None) (λ found.
            (from ≤ found) × (found < PAGE_LEN) × IsSome (byte_on self.now found)
            × ((at : ℕ) → from ≤ at → at < found → byte_on self.now at ≡ None)) }
    {
        for at in from..PAGE_LEN {
            if self.get(at).is_some() {
                return Some(at);
            }
        }
        None
    }

    /// Puts bytes where nothing is yet, from a place on: the first copy of a byte stands. The answer is
    /// how many were put.
    pub fn fill(&mut self, from: usize, bytes: &[u8]) -> usize
        requires { from + length bytes.now ≤ PAGE_LEN }
        ensures first { (at : ℕ) → byte_on self.new at ≡ option_or (byte_on self.old at) (byte_in from bytes.now at) }
        ensures count { result + held_between (byte_on self.old) from (from + length bytes.now) ≡ length bytes.now }
    {
        let mut count = 0;
        for (k, byte) in bytes.iter().enumerate() {
            let at = from + k;
            if self.get(at).is_none() {
                self.set(at, *byte);
                count += 1;
            }
        }
        count
    }

    /// Moves bytes to a run, from a place on up to the first place without a byte or to `to`. The answer
    /// is the place behind them.
    pub fn move_run(&mut self, from: usize, to: usize, run: &mut ByteQueue) -> usize
        requires within { to ≤ PAGE_LEN }
        requires order { from ≤ to }
        requires room { held_between (byte_on self.old) from to ≤ room_of run.old }
        ensures order { from ≤ result }
        ensures within { result ≤ to }
        ensures run { bytes_of run.new ≡ bytes_of run.old ++ bytes_between (byte_on self.old) from result }
        ensures room { room_of run.old ≤ room_of run.new + (result - from) }
        ensures had { (at : ℕ) → from ≤ at → at < result → IsSome (byte_on self.old at) }
        ensures moved { (at : ℕ) → from ≤ at → at < result → byte_on self.new at ≡ None }
        ensures before { (at : ℕ) → at < from → byte_on self.new at ≡ byte_on self.old at }
        ensures behind { (at : ℕ) → result ≤ at → byte_on self.new at ≡ byte_on self.old at }
        ensures stop { result < to → byte_on self.old result ≡ None }
    {
        let mut at = from;
        while at < to
            && let Some(byte) = self.get(at)
        {
            run.push(byte);
            self.clear(at);
            at += 1;
        }
        at
    }

    /// Drops the bytes from a place on.
    pub fn cut(&mut self, from: usize)
        ensures below { (at : ℕ) → at < from → byte_on self.new at ≡ byte_on self.old at }
        ensures above { (at : ℕ) → from ≤ at → byte_on self.new at ≡ None }
    {
        for at in from..PAGE_LEN {
            self.clear(at);
        }
    }
}
