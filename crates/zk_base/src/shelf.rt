ghost use Rattle.std.specs.Prelude.{◌<◌, length, IsTrue};
ghost use Rattle.zk_base.specs.Shelf.{Outside, Starts, is_open, Reads, Creates, IsCreated, Puts, after_append, after_say, after_complaint};

/// What a call of a shelf failed at.
#[derive(Clone, Copy, Debug, PartialEq, Eq)]
pub enum Fault {
    /// An input couldn't be opened or read.
    Read,
    /// An output couldn't be made or written.
    Write,
}

/// What became of the start of an input.
#[derive(Clone, Copy, Debug, PartialEq, Eq)]
pub enum Started {
    /// The input is open, at its first byte.
    Open,
    /// There is no input of that name. None is open.
    Absent,
    /// The outside failed. The name counts as started, and no input is open.
    Failed,
    /// Memory ran out, and nothing has happened.
    NoMemory,
}

/// What a read gave.
#[derive(Clone, Copy, Debug, PartialEq, Eq)]
pub enum Got {
    /// So many bytes, at least one, at the front of the buffer.
    Bytes(usize),
    /// The input is read out.
    End,
    /// The outside failed. The input stays open, at the same place.
    Failed,
}

/// What became of a write.
#[derive(Clone, Copy, Debug, PartialEq, Eq)]
pub enum Wrote {
    /// All of it is written.
    Done,
    /// The outside failed. Of a piece some first bytes may be written, and an output that was to be
    /// made is absent or empty.
    Failed,
    /// Memory ran out, and nothing has happened.
    NoMemory,
}

/// The outside as the program sees it: inputs and outputs by name, standard output and standard
/// error. Inputs and outputs are separate name spaces.
///
/// A shelf counts how often an input has failed, an output has failed and an input was absent. The
/// counts never fall, and a count at 2^64 - 1 counts as risen. It shows too what its last call failed
/// at, if it did: each call that answers Failed sets that, and every other takes it away. Each shelf
/// says what it tells of the rest: one that stands for real files tells nothing, one in memory tells
/// all.
pub trait Shelf {
    /// What the shelf shows of the outside.
    ghost outside: { Self → Outside };

    /// Opens an input at its first byte, and gives up the one that was open.
    fn start(&mut self, name: &[u8]) -> Started
        ensures leaves { Starts (outside self.old) name.now result (outside self.new) };

    /// Reads the next bytes of the open input to the front of a buffer.
    fn read(&mut self, buf: &mut [u8]) -> Got
        requires room { 0 < length buf.old }
        requires input { IsTrue (is_open (outside self.old).reading) }
        ensures leaves { Reads (outside self.old) buf.old result buf.new (outside self.new) };

    /// Makes an empty output, or empties the one that there is.
    fn create(&mut self, name: &[u8]) -> Wrote
        ensures leaves { Creates (outside self.old) name.now result (outside self.new) };

    /// Adds a piece to an output that was created.
    fn append(&mut self, name: &[u8], bytes: &[u8]) -> Wrote
        requires { IsCreated (outside self.old) name.now }
        ensures leaves { Puts (after_append (outside self.old) name.now) (outside self.old) bytes.now result (outside self.new) };

    /// Adds a piece to standard output.
    fn say(&mut self, bytes: &[u8]) -> Wrote
        ensures leaves { Puts (after_say (outside self.old)) (outside self.old) bytes.now result (outside self.new) };

    /// Adds a piece to standard error.
    fn complain(&mut self, bytes: &[u8]) -> Wrote
        ensures leaves { Puts (after_complaint (outside self.old)) (outside self.old) bytes.now result (outside self.new) };
}
