ghost use Rattle.std.specs.Prelude.{◌≡◌, ℕ, ◌+◌, ◌-◌, ◌<◌, ◌≤◌, true, ◌++◌, length, None, IsSome, MatchOption, IfOk, OnOk, OnErr};
ghost use Rattle.std.specs.Option.{option_or};
ghost use Rattle.zk_reasm.specs.declared.place.TheConstants.{PLACES};
ghost use Rattle.zk_reasm.specs.Between.{held_between, bytes_between};
ghost use Rattle.zk_reasm.specs.Piece.{byte_in};
ghost use Rattle.zk_base.specs.ByteQueue.{bytes_of, room_of};

use crate::piece::Piece;
use crate::place::PLACES;
use crate::scattered::Scattered;
use std::alloc::Global;
use zk_base::{ByteQueue, Mem};

/// The bytes that lie apart from a run. Most streams never have one, so their table is made with the
/// first, in a box.
#[derive(Debug, Drop)]
pub struct Apart {
    alloc: Global,
    scattered: Option<Box<Scattered>>,
}

#[tactic(auto, unfolding(crate::specs::Apart::byte_apart))]
impl Apart {
    ghost use Rattle.zk_reasm.specs.Apart.{byte_apart};

    /// No bytes. No memory is taken.
    pub fn new(alloc: Global) -> Apart
        ensures { (at : ℕ) → byte_apart result at ≡ None }
    {
        Apart {
            alloc,
            scattered: None,
        }
    }

    /// Whether it can be told at once that there is no byte.
    pub fn is_empty(&self) -> bool
        ensures { result ≡ true → (at : ℕ) → byte_apart self.now at ≡ None }
    {
        match &self.scattered {
            Some(scattered) => scattered.is_empty(),
            None => true,
        }
    }

    /// Puts bytes where nothing is yet. The answer is how many were put. At `Mem` the bytes stay.
    pub fn put(&mut self, piece: &Piece<'_>) -> Result<usize, Mem>
        requires { piece.now.at + length piece.now.bytes.now ≤ PLACES }
        ensures bytes { OnOk result ((at : ℕ) → byte_apart self.new at ≡ option_or (byte_apart self.old at) (byte_in piece.now.at piece.now.bytes.now at)) }
        ensures count { IfOk result (λ count. count + held_between (byte_apart self.old) piece.now.at (piece.now.at + length piece.now.bytes.now) ≡ length piece.now.bytes.now) }
        ensures err { OnErr result ((at : ℕ) → byte_apart self.new at ≡ byte_apart self.old at) }
    {
        if let Some(scattered) = &mut self.scattered {
            return scattered.put(piece);
        }
        let mut scattered = Box::new(self.alloc, Scattered::new(self.alloc))?;
        let count = scattered.put(piece)?;
        self.scattered = Some(scattered);
        Ok(count)
    }

    /// The first place from `from` on without a byte.
    pub fn first_free(&self, from: u64) -> u64
        requires { from ≤ PLACES }
        ensures least { from ≤ result }
        ensures within { result ≤ PLACES }
        ensures before { (at : ℕ) → from ≤ at → at < result → IsSome (byte_apart self.now at) }
        ensures free { byte_apart self.now result ≡ None }
    {
        match &self.scattered {
            Some(scattered) => scattered.first_free(from),
            None => from,
        }
    }

    /// The first place from `from` on with a byte.
    pub fn first_held(&self, from: u64) -> Option<u64>
        requires { from ≤ PLACES }
        ensures { MatchOption result ((at : ℕ) → from ≤ at → byte_apart self.now at ≡ None) (λ found.
            (from ≤ found) × (found < PLACES) × IsSome (byte_apart self.now found)
            × ((at : ℕ) → from ≤ at → at < found → byte_apart self.now at ≡ None)) }
    {
        match &self.scattered {
            Some(scattered) => scattered.first_held(from),
            None => None,
        }
    }

    /// How many places from one up to another have a byte.
    pub fn count(&self, from: u64, to: u64) -> u64
        requires { to ≤ PLACES }
        ensures { result ≡ held_between (byte_apart self.now) from to }
    {
        match &self.scattered {
            Some(scattered) => scattered.count(from, to),
            None => 0,
        }
    }

    /// Moves bytes to a run, from a place on up to the first place without a byte or to `to`. The
    /// answer is the place behind them.
    pub fn move_run(&mut self, from: u64, to: u64, run: &mut ByteQueue) -> u64
        requires within { to ≤ PLACES }
        requires order { from ≤ to }
        requires room { held_between (byte_apart self.old) from to ≤ room_of run.old }
        ensures order { from ≤ result }
        ensures within { result ≤ to }
        ensures run { bytes_of run.new ≡ bytes_of run.old ++ bytes_between (byte_apart self.old) from result }
        ensures room { room_of run.old ≤ room_of run.new + (result - from) }
        ensures had { (at : ℕ) → from ≤ at → at < result → IsSome (byte_apart self.old at) }
        ensures behind { (at : ℕ) → result ≤ at → byte_apart self.new at ≡ byte_apart self.old at }
        ensures stop { result < to → byte_apart self.old result ≡ None }
    {
        match &mut self.scattered {
            Some(scattered) => scattered.move_run(from, to, run),
            None => from,
        }
    }

    /// Drops the bytes from a place on.
    pub fn cut(&mut self, from: u64)
        requires { from ≤ PLACES }
        ensures below { (at : ℕ) → at < from → byte_apart self.new at ≡ byte_apart self.old at }
        ensures above { (at : ℕ) → from ≤ at → byte_apart self.new at ≡ None }
    {
        if let Some(scattered) = &mut self.scattered {
            scattered.cut(from);
        }
    }
}
