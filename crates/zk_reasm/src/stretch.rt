ghost use Rattle.std.specs.Prelude.{◌≡◌, ℕ, ◌+◌, ◌-◌, ◌<◌, ◌≤◌, true, false, min, max, ◌++◌, [], length, None, IsSome, OnOk, OnErr};
ghost use Rattle.std.specs.VecDeque.{deque_len};
ghost use Rattle.zk_reasm.specs.declared.place.TheConstants.{PLACES};
ghost use Rattle.zk_reasm.specs.Between.{held_between, bytes_between};
ghost use Rattle.zk_base.specs.ByteQueue.{bytes_of, room_of};

use crate::place::PLACES;
use std::alloc::Global;
use std::collections::VecDeque;
use zk_base::{ByteQueue, Mem};

/// Bytes that stand one behind another from a place on, with room at both ends.
#[derive(Debug, Drop)]
pub struct Stretch {
    at: u64,
    bytes: VecDeque<u8>,
    ghost within: { at + deque_len bytes ≤ PLACES },
}

impl Stretch {
    ghost use Rattle.zk_reasm.specs.Stretch.{byte_in_stretch};

    /// No bytes. No memory is taken.
    pub fn new(alloc: Global) -> Stretch
        ensures { result.bytes.items ≡ [] }
    {
        Stretch {
            at: 0,
            bytes: VecDeque::new(alloc),
        }
    }

    /// The place of its first byte.
    pub fn start(&self) -> u64
        ensures { result ≡ self.now.at }
    {
        self.at
    }

    /// The place behind its last byte.
    pub fn end(&self) -> u64
        ensures { result ≡ self.now.at + deque_len self.now.bytes }
    {
        self.at + self.bytes.len() as u64
    }

    /// Its bytes, in two parts.
    pub fn slices(&self) -> (&[u8], &[u8])
        ensures bytes { result.0.now ++ result.1.now ≡ self.now.bytes.items }
        ensures len { length result.0.now + length result.1.now ≡ deque_len self.now.bytes }
    {
        self.bytes.as_slices()
    }

    /// Begins anew at a place, without a byte.
    pub fn restart(&mut self, at: u64)
        requires { at ≤ PLACES }
        ensures at { self.new.at ≡ at }
        ensures bytes { self.new.bytes.items ≡ [] }
    {
        self.bytes.clear();
        self.at = at;
    }

    /// Adds bytes behind the last one.
    pub fn add_behind(&mut self, bytes: &[u8]) -> Result<(), Mem>
        requires { self.old.at + deque_len self.old.bytes + length bytes.now ≤ PLACES }
        ensures at { self.new.at ≡ self.old.at }
        ensures ok { OnOk result (self.new.bytes.items ≡ self.old.bytes.items ++ bytes.now) }
        ensures err { OnErr result (self.new.bytes.items ≡ self.old.bytes.items) }
    {
        self.bytes.reserve(bytes.len())?;
        for byte in bytes {
            self.bytes.push_back_reserved(*byte);
        }
        Ok(())
    }

    /// Adds bytes before the first one.
    pub fn add_before(&mut self, bytes: &[u8]) -> Result<(), Mem>
        requires { length bytes.now ≤ self.old.at }
        ensures ok { OnOk result (self.new.bytes.items ≡ bytes.now ++ self.old.bytes.items) }
        ensures at { OnOk result (self.new.at + length bytes.now ≡ self.old.at) }
        ensures err { OnErr result (self.new.bytes.items ≡ self.old.bytes.items) }
        ensures stays { OnErr result (self.new.at ≡ self.old.at) }
    {
        self.bytes.reserve(bytes.len())?;
        self.at -= bytes.len() as u64;
        for k in (0..bytes.len()).rev() {
            self.bytes.push_front_reserved(bytes[k]);
        }
        Ok(())
    }

    /// Drops the bytes from a place on.
    pub fn cut(&mut self, from: u64)
        ensures below { (at : ℕ) → at < from → byte_in_stretch self.new at ≡ byte_in_stretch self.old at }
        ensures above { (at : ℕ) → from ≤ at → byte_in_stretch self.new at ≡ None }
    {
        self.bytes.truncate(from.saturating_sub(self.at) as usize);
    }

    /// Whether there is no byte.
    pub fn is_empty(&self) -> bool
        ensures none { result ≡ true → (at : ℕ) → byte_in_stretch self.now at ≡ None }
        ensures len { result ≡ true → deque_len self.now.bytes ≡ 0 }
        ensures some { result ≡ false → 0 < deque_len self.now.bytes }
    {
        self.bytes.is_empty()
    }

    /// How many places from one up to another have a byte.
    pub fn count(&self, from: u64, to: u64) -> u64
        ensures { result ≡ held_between (byte_in_stretch self.now) from to }
    {
        to.min(self.end()).saturating_sub(from.max(self.at))
    }

    /// Drops the bytes before a place.
    fn drop_before(&mut self, from: u64)
        ensures at { self.new.at ≡ max self.old.at (min from (self.old.at + deque_len self.old.bytes)) }
        ensures end { self.new.at + deque_len self.new.bytes ≡ self.old.at + deque_len self.old.bytes }
        ensures bytes { (at : ℕ) → self.new.at ≤ at → byte_in_stretch self.new at ≡ byte_in_stretch self.old at }
    {
        while self.at < from && self.bytes.pop_front().is_some() {
            self.at += 1;
        }
    }

    /// Moves bytes to a run, from a place on up to its end or to `to`, and drops those before. The answer
    /// is the place behind them.
    pub fn move_run(&mut self, from: u64, to: u64, run: &mut ByteQueue) -> u64
        requires within { to ≤ PLACES }
        requires order { from ≤ to }
        requires room { held_between (byte_in_stretch self.old) from to ≤ room_of run.old }
        ensures order { from ≤ result }
        ensures within { result ≤ to }
        ensures run { bytes_of run.new ≡ bytes_of run.old ++ bytes_between (byte_in_stretch self.old) from result }
        ensures room { room_of run.old ≤ room_of run.new + (result - from) }
        ensures had { (at : ℕ) → from ≤ at → at < result → IsSome (byte_in_stretch self.old at) }
        ensures behind { (at : ℕ) → result ≤ at → byte_in_stretch self.new at ≡ byte_in_stretch self.old at }
        ensures left { 0 < deque_len self.new.bytes → result ≤ self.new.at }
        ensures none { result ≡ from → from < to → byte_in_stretch self.old from ≡ None }
        ensures stop { from < result → result < to → (at : ℕ) → result ≤ at → byte_in_stretch self.old at ≡ None }
    {
        self.drop_before(from);
        if self.at != from {
            return from;
        }
        while self.at < to
            && let Some(byte) = self.bytes.pop_front()
        {
            run.push(byte);
            self.at += 1;
        }
        self.at
    }
}
