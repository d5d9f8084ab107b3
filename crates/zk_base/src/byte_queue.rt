ghost use Rattle.std.specs.Prelude.{◌≡◌, ◌+◌, ◌≤◌, [], ◌∷◌, ◌++◌, length, drop, vec_len, OnOk, OnErr};

use crate::Mem;
use std::alloc::Global;

/// Bytes that are added at the end and taken from the front. What was taken is let go of where room is
/// made and it is more than what is left, so that each byte is moved once at most.
#[derive(Debug, Drop)]
pub struct ByteQueue {
    bytes: Vec<u8>,
    taken: usize,
    ghost within: { taken ≤ vec_len bytes },
}

#[tactic(auto, unfolding(crate::specs::ByteQueue::bytes_of, crate::specs::ByteQueue::room_of))]
impl ByteQueue {
    ghost use Rattle.zk_base.specs.ByteQueue.{bytes_of, room_of};

    /// No bytes. No memory is taken.
    pub fn new(alloc: Global) -> ByteQueue
        ensures { bytes_of result ≡ [] }
    {
        ByteQueue {
            bytes: Vec::new(alloc),
            taken: 0,
        }
    }

    /// The bytes that are left, lent.
    pub fn as_slice(&self) -> &[u8]
        ensures { result.now ≡ bytes_of self.now }
    {
        &self.bytes[self.taken..]
    }

    /// Makes room for so many bytes more. At `Mem` nothing is changed.
    pub fn reserve(&mut self, more: usize) -> Result<(), Mem>
        ensures same { bytes_of self.new ≡ bytes_of self.old }
        ensures ok { OnOk result (more ≤ room_of self.new) }
        ensures room { room_of self.old ≤ room_of self.new }
    {
        self.let_go();
        self.bytes.reserve(more)?;
        Ok(())
    }

    /// Adds bytes at the end, for which there is room. No memory is taken.
    pub fn append(&mut self, bytes: &[u8])
        requires { length bytes.now ≤ room_of self.old }
        ensures bytes { bytes_of self.new ≡ bytes_of self.old ++ bytes.now }
        ensures room { room_of self.old ≤ room_of self.new + length bytes.now }
    {
        if self.bytes.extend_from_slice(bytes).is_err() {
            unreachable!()
        }
    }

    /// Adds a byte at the end, for which there is room. No memory is taken.
    pub fn push(&mut self, byte: u8)
        requires { 1 ≤ room_of self.old }
        ensures bytes { bytes_of self.new ≡ bytes_of self.old ++ byte ∷ [] }
        ensures room { room_of self.old ≤ room_of self.new + 1 }
    {
        if self.bytes.push(byte).is_err() {
            unreachable!()
        }
    }

    /// Takes bytes from the front.
    pub fn take(&mut self, n: usize)
        requires { n ≤ length (bytes_of self.old) }
        ensures bytes { bytes_of self.new ≡ drop n (bytes_of self.old) }
        ensures room { room_of self.old ≤ room_of self.new }
    {
        self.taken += n;
    }

    /// Lets go of what was taken, where it is more than what is left.
    fn let_go(&mut self)
        ensures bytes { bytes_of self.new ≡ bytes_of self.old }
        ensures room { room_of self.old ≤ room_of self.new }
    {
        let left = self.bytes.len() - self.taken;
        if left < self.taken {
            self.bytes.copy_within(self.taken.., 0);
            self.bytes.truncate(left);
            self.taken = 0;
        }
    }
}
