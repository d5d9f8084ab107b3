ghost use Rattle.std.specs.Prelude.{◌≡◌, ◌≢◌, ◌↔◌, ◌<◌, Some, IfOk, length, if◌then◌else◌, IsTrue};
ghost use Rattle.std.specs.Option.{option_copied};
ghost use Rattle.zk_base.specs.Shelf.{lies_under};
ghost use Rattle.zk_base.specs.Contents.{at_first};

use crate::contents::Contents;
use crate::{Bytes, Got, Mem, Shelf, Started, Wrote};
use std::alloc::Global;

/// A shelf in memory that tells everything, and whose calls fail where it is told to.
///
/// The six calls of the trait are numbered from 1. A call of a number that is to fail answers
/// Failed, and counts one fault of its kind. A write has then put the first half of its piece,
/// rounded down; the making of an output has emptied it, if it was there; a start has noted the
/// name and left no input open; a read has left the place as it was. A call that answers NoMemory
/// has no number, and changes nothing but that no fault is the last.
#[derive(Debug, Drop)]
pub struct MemShelf {
    contents: Contents,
    fails: Vec<u64>,
    calls: u64,
}

impl MemShelf {
    ghost use Rattle.zk_base.specs.MemShelf.{state_of, mem_outside, next_number, fails_next, EndsWrite};
    ghost use Rattle.zk_base.specs.Faults.{first_half};

    /// A shelf with these inputs, each a name and what lies under it, and the numbers of the calls
    /// that are to fail. Of two inputs with one name the first counts. So far no memory is taken, and
    /// `Mem` never comes.
    pub fn new(alloc: Global, inputs: Vec<(Bytes, Bytes)>, fails: Vec<u64>) -> Result<MemShelf, Mem>
        ensures { IfOk result (λ shelf. state_of shelf ≡ record { outside = at_first inputs.items; fails = fails.items; calls = 0 }) }
    {
        Ok(MemShelf {
            contents: Contents::new(alloc, inputs),
            fails,
            calls: 0,
        })
    }

    /// The bytes of an output. None where no output of that name was created.
    pub fn output(&self, name: &[u8]) -> Option<&[u8]>
        ensures { option_copied result ≡ lies_under (mem_outside self.now).outputs name.now }
    {
        self.contents.output(name)
    }

    /// The bytes of standard output.
    pub fn said(&self) -> &[u8]
        ensures { (mem_outside self.now).said ≡ Some result.now }
    {
        self.contents.said()
    }

    /// The bytes of standard error.
    pub fn complained(&self) -> &[u8]
        ensures { (mem_outside self.now).complained ≡ Some result.now }
    {
        self.contents.complained()
    }

    /// The number of the last call, and 0 before the first. It stops at 2^64 - 1.
    pub fn calls(&self) -> u64
        ensures { result ≡ (state_of self.now).calls }
    {
        self.calls
    }

    fn next_number(&self) -> u64
        ensures { result ≡ next_number (state_of self.now) }
    {
        self.calls.saturating_add(1)
    }

    fn fails_next(&self) -> bool
        ensures { result ≡ fails_next (state_of self.now) }
    {
        self.fails.contains(&self.next_number())
    }

    /// What the next call puts of a piece.
    fn part<'a>(&self, piece: &'a [u8]) -> &'a [u8]
        ensures { result.now ≡ (if fails_next (state_of self.now) then first_half piece.now else piece.now) }
    {
        if self.fails_next() {
            &piece[..piece.len() / 2]
        } else {
            piece
        }
    }

    /// Gives a call its number.
    fn count(&mut self)
        ensures { state_of self.new ≡ record (state_of self.old) { calls = next_number (state_of self.old) } }
    {
        self.calls = self.next_number();
    }

    /// Ends a write that has done its work or found no memory for it.
    fn end_write(&mut self, wrote: Wrote) -> Wrote
        requires { wrote ≢ Wrote.Failed }
        ensures ends { EndsWrite (state_of self.old) result (state_of self.new) }
        ensures memory { (result ≡ Wrote.NoMemory) ↔ (wrote ≡ Wrote.NoMemory) }
    {
        if wrote == Wrote::NoMemory {
            return Wrote::NoMemory;
        }
        let fails = self.fails_next();
        self.count();
        if fails {
            self.contents.count_write_fault();
            Wrote::Failed
        } else {
            Wrote::Done
        }
    }
}

impl Shelf for MemShelf {
    ghost use Rattle.zk_base.specs.Shelf.{Starts, is_open, Reads, Creates, IsCreated, Puts, after_append, after_say, after_complaint};
    ghost use Rattle.zk_base.specs.Contents.{Fills};
    ghost use Rattle.zk_base.specs.MemShelf.{state_of, mem_outside, MemStarts, MemReads, MemCreates, MemPuts};

    ghost outside = { mem_outside };

    fn start(&mut self, name: &[u8]) -> Started
        ensures leaves { Starts (mem_outside self.old) name.now result (mem_outside self.new) }
        ensures exact { MemStarts (state_of self.old) name.now result (state_of self.new) }
    {
        let started = if self.fails_next() {
            self.contents.fail_to_start(name)
        } else {
            self.contents.start(name)
        };
        if started != Started::NoMemory {
            self.count();
        }
        started
    }

    fn read(&mut self, buf: &mut [u8]) -> Got
        requires room { 0 < length buf.old }
        requires input { IsTrue (is_open (mem_outside self.old).reading) }
        ensures leaves { Reads (mem_outside self.old) buf.old result buf.new (mem_outside self.new) }
        ensures fills { Fills (mem_outside self.old) buf.old result buf.new }
        ensures exact { MemReads (state_of self.old) buf.old result buf.new (state_of self.new) }
    {
        let got = if self.fails_next() {
            self.contents.fail_to_read()
        } else {
            self.contents.read(buf)
        };
        self.count();
        got
    }

    fn create(&mut self, name: &[u8]) -> Wrote
        ensures leaves { Creates (mem_outside self.old) name.now result (mem_outside self.new) }
        ensures exact { MemCreates (state_of self.old) name.now result (state_of self.new) }
    {
        let wrote = if self.fails_next() {
            self.contents.fail_to_create(name)
        } else {
            self.contents.create(name)
        };
        if wrote != Wrote::NoMemory {
            self.count();
        }
        wrote
    }

    fn append(&mut self, name: &[u8], bytes: &[u8]) -> Wrote
        requires { IsCreated (mem_outside self.old) name.now }
        ensures leaves { Puts (after_append (mem_outside self.old) name.now) (mem_outside self.old) bytes.now result (mem_outside self.new) }
        ensures exact { MemPuts (after_append (mem_outside self.old) name.now) (state_of self.old) bytes.now result (state_of self.new) }
    {
        let part = self.part(bytes);
        let wrote = self.contents.append(name, part);
        self.end_write(wrote)
    }

    fn say(&mut self, bytes: &[u8]) -> Wrote
        ensures leaves { Puts (after_say (mem_outside self.old)) (mem_outside self.old) bytes.now result (mem_outside self.new) }
        ensures exact { MemPuts (after_say (mem_outside self.old)) (state_of self.old) bytes.now result (state_of self.new) }
    {
        let part = self.part(bytes);
        let wrote = self.contents.say(part);
        self.end_write(wrote)
    }

    fn complain(&mut self, bytes: &[u8]) -> Wrote
        ensures leaves { Puts (after_complaint (mem_outside self.old)) (mem_outside self.old) bytes.now result (mem_outside self.new) }
        ensures exact { MemPuts (after_complaint (mem_outside self.old)) (state_of self.old) bytes.now result (state_of self.new) }
    {
        let part = self.part(bytes);
        let wrote = self.contents.complain(part);
        self.end_write(wrote)
    }
}
