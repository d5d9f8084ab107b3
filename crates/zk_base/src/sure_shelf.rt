ghost use Rattle.std.specs.Prelude.{◌≡◌, ◌≢◌, ◌<◌, Some, None, [], IfOk, IsTrue, length};
ghost use Rattle.std.specs.Option.{option_copied};
ghost use Rattle.zk_base.specs.Shelf.{lies_under};
ghost use Rattle.zk_base.specs.Contents.{at_first};
ghost use Rattle.zk_base.specs.MemShelf.{state_of, mem_outside};

use crate::{Bytes, Got, Mem, MemShelf, Shelf, Started, Wrote};
use std::alloc::Global;

/// A shelf in memory that tells everything and never fails: a `MemShelf` that is told to fail at no
/// call. Its counts of faults are 0, and its calls are numbered as those of `MemShelf` are.
#[derive(Debug, Drop)]
pub struct SureShelf {
    shelf: MemShelf,
    ghost no_call_fails: { (state_of shelf).fails ≡ [] },
    ghost no_read_faults: { (mem_outside shelf).read_faults ≡ 0 },
    ghost no_write_faults: { (mem_outside shelf).write_faults ≡ 0 },
    ghost no_last_fault: { (mem_outside shelf).last ≡ None },
}

impl SureShelf {
    ghost use Rattle.zk_base.specs.SureShelf.{sure_outside, calls_of};

    /// A shelf with these inputs, each a name and what lies under it. Of two with one name the
    /// first counts. So far no memory is taken, and `Mem` never comes.
    pub fn new(alloc: Global, inputs: Vec<(Bytes, Bytes)>) -> Result<SureShelf, Mem>
        ensures outside { IfOk result (λ shelf. sure_outside shelf ≡ at_first inputs.items) }
        ensures calls { IfOk result (λ shelf. calls_of shelf ≡ 0) }
    {
        let shelf = MemShelf::new(alloc, inputs, Vec::new(alloc))?;
        Ok(SureShelf { shelf })
    }

    /// The bytes of an output. None where no output of that name was created.
    pub fn output(&self, name: &[u8]) -> Option<&[u8]>
        ensures { option_copied result ≡ lies_under (sure_outside self.now).outputs name.now }
    {
        self.shelf.output(name)
    }

    /// The bytes of standard output.
    pub fn said(&self) -> &[u8]
        ensures { (sure_outside self.now).said ≡ Some result.now }
    {
        self.shelf.said()
    }

    /// The bytes of standard error.
    pub fn complained(&self) -> &[u8]
        ensures { (sure_outside self.now).complained ≡ Some result.now }
    {
        self.shelf.complained()
    }

    /// The number of the last call, and 0 before the first. It stops at 2^64 - 1.
    pub fn calls(&self) -> u64
        ensures { result ≡ calls_of self.now }
    {
        self.shelf.calls()
    }
}

impl Shelf for SureShelf {
    ghost use Rattle.zk_base.specs.Shelf.{Starts, is_open, Reads, Creates, IsCreated, Puts, after_append, after_say, after_complaint};
    ghost use Rattle.zk_base.specs.Contents.{Fills};
    ghost use Rattle.zk_base.specs.Faults.{after_absence, one_more};
    ghost use Rattle.zk_base.specs.SureShelf.{sure_outside, calls_of, after_start, after_write};

    ghost outside = { sure_outside };

    fn start(&mut self, name: &[u8]) -> Started
        ensures leaves { Starts (sure_outside self.old) name.now result (sure_outside self.new) }
        ensures absent { result ≡ Started.Absent → sure_outside self.new ≡ after_absence (sure_outside self.old) name.now }
        ensures sure { result ≢ Started.Failed }
        ensures number { calls_of self.new ≡ after_start result (calls_of self.old) }
    {
        self.shelf.start(name)
    }

    fn read(&mut self, buf: &mut [u8]) -> Got
        requires room { 0 < length buf.old }
        requires input { IsTrue (is_open (sure_outside self.old).reading) }
        ensures leaves { Reads (sure_outside self.old) buf.old result buf.new (sure_outside self.new) }
        ensures fills { Fills (sure_outside self.old) buf.old result buf.new }
        ensures sure { result ≢ Got.Failed }
        ensures number { calls_of self.new ≡ one_more (calls_of self.old) }
    {
        self.shelf.read(buf)
    }

    fn create(&mut self, name: &[u8]) -> Wrote
        ensures leaves { Creates (sure_outside self.old) name.now result (sure_outside self.new) }
        ensures sure { result ≢ Wrote.Failed }
        ensures number { calls_of self.new ≡ after_write result (calls_of self.old) }
    {
        self.shelf.create(name)
    }

    fn append(&mut self, name: &[u8], bytes: &[u8]) -> Wrote
        requires { IsCreated (sure_outside self.old) name.now }
        ensures leaves { Puts (after_append (sure_outside self.old) name.now) (sure_outside self.old) bytes.now result (sure_outside self.new) }
        ensures sure { result ≢ Wrote.Failed }
        ensures number { calls_of self.new ≡ after_write result (calls_of self.old) }
    {
        self.shelf.append(name, bytes)
    }

    fn say(&mut self, bytes: &[u8]) -> Wrote
        ensures leaves { Puts (after_say (sure_outside self.old)) (sure_outside self.old) bytes.now result (sure_outside self.new) }
        ensures sure { result ≢ Wrote.Failed }
        ensures number { calls_of self.new ≡ after_write result (calls_of self.old) }
    {
        self.shelf.say(bytes)
    }

    fn complain(&mut self, bytes: &[u8]) -> Wrote
        ensures leaves { Puts (after_complaint (sure_outside self.old)) (sure_outside self.old) bytes.now result (sure_outside self.new) }
        ensures sure { result ≢ Wrote.Failed }
        ensures number { calls_of self.new ≡ after_write result (calls_of self.old) }
    {
        self.shelf.complain(bytes)
    }
}
