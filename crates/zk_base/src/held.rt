ghost use Rattle.std.specs.Prelude.{◌≡◌, ◌+◌, ◌≤◌, ◌<◌, ◌++◌, [], length, drop, vec_len, IsTrue, IfOk, OnOk, OnErr};
ghost use Rattle.zk_base.specs.Shelf.{is_open};
ghost use Rattle.zk_base.specs.Fetching.{Fetches};

use crate::{Got, Mem, Shelf};
use std::alloc::Global;

/// Bytes that come in at the end and are taken from the front. The room that they lie in is filled
/// once and stays, so that a shelf reads straight into it. What was taken is let go of where room is
/// made and it is more than what is left, so that each byte is moved once at most.
#[derive(Debug, Drop)]
pub struct Held {
    bytes: Vec<u8>,
    /// How many bytes of the room were taken.
    taken: usize,
    /// Where the bytes end. What lies behind is room.
    end: usize,
    ghost order: { taken ≤ end },
    ghost within: { end ≤ vec_len bytes },
}

#[tactic(auto, unfolding(crate::specs::Held::bytes_of))]
impl Held {
    ghost use Rattle.zk_base.specs.Held.{bytes_of};

    /// No bytes. No memory is taken.
    pub fn new(alloc: Global) -> Held
        ensures { bytes_of result ≡ [] }
    {
        Held {
            bytes: Vec::new(alloc),
            taken: 0,
            end: 0,
        }
    }

    /// The bytes that are left, lent.
    pub fn as_slice(&self) -> &[u8]
        ensures { result.now ≡ bytes_of self.now }
    {
        &self.bytes[self.taken..self.end]
    }

    /// Adds bytes at the end. At `Mem` the bytes are what they were.
    pub fn append(&mut self, piece: &[u8]) -> Result<(), Mem>
        ensures ok { OnOk result (bytes_of self.new ≡ bytes_of self.old ++ piece.now) }
        ensures err { OnErr result (bytes_of self.new ≡ bytes_of self.old) }
    {
        self.make_room(piece.len())?;
        let end = self.end + piece.len();
        self.bytes[self.end..end].copy_from_slice(piece);
        self.end = end;
        Ok(())
    }

    /// Reads the next bytes of the open input of a shelf, so many at most, and adds them. At `Mem`
    /// nothing was read, and the bytes are what they were.
    pub fn read_from<S: Shelf>(&mut self, shelf: &mut S, most: usize) -> Result<Got, Mem>
        requires most { 0 < most }
        requires input { IsTrue (is_open (S.outside shelf.old).reading) }
        ensures read { IfOk result (λ given. Fetches (S.outside shelf.old) most given (S.outside shelf.new)
            (λ piece. bytes_of self.new ≡ bytes_of self.old ++ piece)) }
        ensures unread { OnErr result (S.outside shelf.new ≡ S.outside shelf.old) }
        ensures err { OnErr result (bytes_of self.new ≡ bytes_of self.old) }
    {
        self.make_room(most)?;
        let end = self.end + most;
        let given = shelf.read(&mut self.bytes[self.end..end]);
        if let Got::Bytes(n) = given {
            self.end += n;
        }
        Ok(given)
    }

    /// Takes bytes from the front.
    pub fn take(&mut self, n: usize)
        requires { n ≤ length (bytes_of self.old) }
        ensures { bytes_of self.new ≡ drop n (bytes_of self.old) }
    {
        self.taken += n;
    }

    /// Makes room behind the bytes for so many more.
    fn make_room(&mut self, more: usize) -> Result<(), Mem>
        ensures bytes { bytes_of self.new ≡ bytes_of self.old }
        ensures room { OnOk result (self.new.end + more ≤ vec_len self.new.bytes) }
        ensures lean { self.new.taken + self.new.taken ≤ self.new.end }
    {
        self.let_go();
        let end = self.end.checked_add(more).ok_or(Mem)?;
        if self.bytes.len() < end {
            self.bytes.resize(end, 0)?;
        }
        Ok(())
    }

    /// Lets go of what was taken, where it is more than what is left.
    fn let_go(&mut self)
        ensures bytes { bytes_of self.new ≡ bytes_of self.old }
        ensures lean { self.new.taken + self.new.taken ≤ self.new.end }
    {
        let left = self.end - self.taken;
        if left < self.taken {
            self.bytes.copy_within(self.taken..self.end, 0);
            self.taken = 0;
            self.end = left;
        }
    }
}
