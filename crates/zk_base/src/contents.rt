ghost use Rattle.std.specs.Prelude.{◌≡◌, ◌≢◌, Some, ◌<◌, ◌≤◌, ◌-◌, [], ◌∷◌, ◌++◌, length, take, drop, min, IsTrue, IsSome, OnOk, OnErr, MatchResult};
ghost use Rattle.std.specs.Option.{ForSome, option_copied};
ghost use Rattle.zk_base.specs.Files.{files_of, number_of, IsAt};
ghost use Rattle.zk_base.specs.Shelf.{with_file, with_piece};
ghost use Rattle.zk_base.specs.Faults.{with_emptied};

use crate::{Bytes, Counts, Got, Mem, Started, Wrote};
use std::alloc::Global;

/// A file in memory: its name and its content.
type File = (Bytes, Bytes);

/// The number of the first file of a name. A shelf in memory holds a handful, so no table is needed.
fn find(files: &[File], name: &[u8]) -> Option<usize>
    ensures { result ≡ number_of files.now name.now }
{
    files.iter().position(|file| file.0.as_slice() == name)
}

/// Gives a file this content, and makes it where there is none of the name. At `Mem` nothing is
/// changed.
fn put_file(files: &mut Vec<File>, name: Bytes, content: Bytes) -> Result<(), Mem>
    ensures ok { OnOk result (files_of files.new.items ≡ with_file (files_of files.old.items) name content) }
    ensures err { OnErr result (files.new.items ≡ files.old.items) }
{
    match find(files, name.as_slice()) {
        Some(i) => files[i] = (name, content),
        None => files.push((name, content))?,
    }
    Ok(())
}

/// Adds a piece at the end of a file. At `Mem` nothing is changed.
fn add_piece(files: &mut Vec<File>, name: &[u8], piece: &[u8]) -> Result<(), Mem>
    requires { IsSome (files_of files.old.items name.now) }
    ensures ok { OnOk result (files_of files.new.items ≡ with_piece (files_of files.old.items) name.now piece.now) }
    ensures err { OnErr result (files.new.items ≡ files.old.items) }
{
    let Some(i) = find(files, name) else {
        unreachable!()
    };
    files[i].1.append(piece)?;
    Ok(())
}

/// Takes all bytes out of a file, if there is one of the name.
fn empty_file(files: &mut Vec<File>, name: &[u8])
    ensures { files_of files.new.items ≡ with_emptied (files_of files.old.items) name.now }
{
    if let Some(i) = find(files, name) {
        files[i].1.clear();
    }
}

/// Adds a name to those that were started. At `Mem` nothing is changed.
fn note(alloc: Global, started: &mut Vec<Bytes>, name: &[u8]) -> Result<(), Mem>
    ensures ok { OnOk result (started.new.items ≡ started.old.items ++ name.now ∷ []) }
    ensures err { OnErr result (started.new.items ≡ started.old.items) }
{
    let name = Bytes::copy_of(alloc, name)?;
    started.push(name)?;
    Ok(())
}

/// Copies the bytes from a place on to the front of a buffer, as many as both hold, and answers
/// how many.
fn copy_from(content: &[u8], place: usize, buf: &mut [u8]) -> usize
    requires { place ≤ length content.now }
    ensures count { result ≡ min (length content.now - place) (length buf.old) }
    ensures copied { buf.new ≡ take result (drop place content.now) ++ drop result buf.old }
{
    let rest = &content[place..];
    let n = rest.len().min(buf.len());
    buf[..n].copy_from_slice(&rest[..n]);
    n
}

/// The answer of a write that needs nothing but memory.
fn wrote(outcome: Result<(), Mem>) -> Wrote
    ensures { MatchResult outcome (λ _. result ≡ Wrote.Done) (λ _. result ≡ Wrote.NoMemory) }
{
    match outcome {
        Ok(()) => Wrote::Done,
        Err(_) => Wrote::NoMemory,
    }
}

/// A place in a file.
#[derive(Clone, Copy, Debug)]
pub struct Position {
    /// The file's number in the list.
    pub file: usize,
    /// A byte of it, or its end.
    pub place: usize,
}

/// What a shelf in memory holds, with its counts and its last fault. Its plain calls never fail; those
/// named `fail_to_` do what a call does that fails.
#[derive(Debug, Drop)]
pub struct Contents {
    alloc: Global,
    inputs: Vec<File>,
    outputs: Vec<File>,
    said: Bytes,
    complained: Bytes,
    started: Vec<Bytes>,
    position: Option<Position>,
    counts: Counts,
    ghost found: { ForSome position (IsAt inputs.items) },
}

impl Contents {
    ghost use Rattle.zk_base.specs.Contents.{outside_of, at_first, Fills};
    ghost use Rattle.zk_base.specs.Faults.{after_absence, after_failed_start, after_failed_read, after_failed_create, with_write_fault};
    ghost use Rattle.zk_base.specs.Shelf.{Starts, is_open, Reads, Creates, IsCreated, Puts, after_append, after_say, after_complaint, without_fault};

    /// These inputs, nothing written and no count risen. No memory is taken.
    pub fn new(alloc: Global, inputs: Vec<File>) -> Contents
        ensures { outside_of result ≡ at_first inputs.items }
    {
        Contents {
            alloc,
            inputs,
            outputs: Vec::new(alloc),
            said: Bytes::new(alloc),
            complained: Bytes::new(alloc),
            started: Vec::new(alloc),
            position: None,
            counts: Counts::default(),
        }
    }

    /// Opens an input at its first byte. Memory is taken for the name.
    pub fn start(&mut self, name: &[u8]) -> Started
        ensures leaves { Starts (outside_of self.old) name.now result (outside_of self.new) }
        ensures sure { result ≢ Started.Failed }
        ensures absent { result ≡ Started.Absent → outside_of self.new ≡ after_absence (outside_of self.old) name.now }
    {
        self.counts.clear_fault();
        let Ok(()) = note(self.alloc, &mut self.started, name) else {
            return Started::NoMemory;
        };
        match find(&self.inputs, name) {
            Some(file) => {
                self.position = Some(Position { file, place: 0 });
                Started::Open
            }
            None => {
                self.position = None;
                self.counts.add_absence();
                Started::Absent
            }
        }
    }

    /// Notes the name of an input, opens none, and fails.
    pub fn fail_to_start(&mut self, name: &[u8]) -> Started
        ensures failed { result ≡ Started.Failed → outside_of self.new ≡ after_failed_start (outside_of self.old) name.now }
        ensures memory { result ≡ Started.NoMemory → outside_of self.new ≡ without_fault (outside_of self.old) }
        ensures never_open { (result ≢ Started.Open) × (result ≢ Started.Absent) }
    {
        self.counts.clear_fault();
        let Ok(()) = note(self.alloc, &mut self.started, name) else {
            return Started::NoMemory;
        };
        self.position = None;
        self.counts.add_read_fault();
        Started::Failed
    }

    /// Reads as many bytes as the open input has left and the buffer holds.
    pub fn read(&mut self, buf: &mut [u8]) -> Got
        requires room { 0 < length buf.old }
        requires input { IsTrue (is_open (outside_of self.old).reading) }
        ensures leaves { Reads (outside_of self.old) buf.old result buf.new (outside_of self.new) }
        ensures fills { Fills (outside_of self.old) buf.old result buf.new }
        ensures sure { result ≢ Got.Failed }
    {
        self.counts.clear_fault();
        let Some(position) = self.position else {
            unreachable!()
        };
        let content = self.inputs[position.file].1.as_slice();
        let n = copy_from(content, position.place, buf);
        if n == 0 {
            return Got::End;
        }
        self.position = Some(Position {
            file: position.file,
            place: position.place + n,
        });
        Got::Bytes(n)
    }

    /// Reads nothing, leaves the place as it was, and fails.
    pub fn fail_to_read(&mut self) -> Got
        ensures failed { result ≡ Got.Failed }
        ensures leaves { outside_of self.new ≡ after_failed_read (outside_of self.old) }
    {
        self.counts.add_read_fault();
        Got::Failed
    }

    /// Makes an empty output, or empties the one that there is.
    pub fn create(&mut self, name: &[u8]) -> Wrote
        ensures leaves { Creates (outside_of self.old) name.now result (outside_of self.new) }
        ensures sure { result ≢ Wrote.Failed }
    {
        self.counts.clear_fault();
        let Ok(name) = Bytes::copy_of(self.alloc, name) else {
            return Wrote::NoMemory;
        };
        let empty = Bytes::new(self.alloc);
        wrote(put_file(&mut self.outputs, name, empty))
    }

    /// Makes no output, and fails. One that is there is emptied.
    pub fn fail_to_create(&mut self, name: &[u8]) -> Wrote
        ensures failed { result ≡ Wrote.Failed }
        ensures leaves { outside_of self.new ≡ after_failed_create (outside_of self.old) name.now }
    {
        empty_file(&mut self.outputs, name);
        self.count_write_fault();
        Wrote::Failed
    }

    /// Adds a piece to an output that was created.
    pub fn append(&mut self, name: &[u8], bytes: &[u8]) -> Wrote
        requires { IsCreated (outside_of self.old) name.now }
        ensures leaves { Puts (after_append (outside_of self.old) name.now) (outside_of self.old) bytes.now result (outside_of self.new) }
        ensures sure { result ≢ Wrote.Failed }
    {
        self.counts.clear_fault();
        wrote(add_piece(&mut self.outputs, name, bytes))
    }

    /// Adds a piece to standard output.
    pub fn say(&mut self, bytes: &[u8]) -> Wrote
        ensures leaves { Puts (after_say (outside_of self.old)) (outside_of self.old) bytes.now result (outside_of self.new) }
        ensures sure { result ≢ Wrote.Failed }
    {
        self.counts.clear_fault();
        wrote(self.said.append(bytes))
    }

    /// Adds a piece to standard error.
    pub fn complain(&mut self, bytes: &[u8]) -> Wrote
        ensures leaves { Puts (after_complaint (outside_of self.old)) (outside_of self.old) bytes.now result (outside_of self.new) }
        ensures sure { result ≢ Wrote.Failed }
    {
        self.counts.clear_fault();
        wrote(self.complained.append(bytes))
    }

    /// Counts a write that fails.
    pub fn count_write_fault(&mut self)
        ensures { outside_of self.new ≡ with_write_fault (outside_of self.old) }
    {
        self.counts.add_write_fault();
    }

    /// What lies under a name among the outputs.
    pub fn output(&self, name: &[u8]) -> Option<&[u8]>
        ensures { option_copied result ≡ files_of self.now.outputs.items name.now }
    {
        let i = find(&self.outputs, name)?;
        Some(self.outputs[i].1.as_slice())
    }

    /// What was said.
    pub fn said(&self) -> &[u8]
        ensures { result.now ≡ self.now.said }
    {
        self.said.as_slice()
    }

    /// What was complained.
    pub fn complained(&self) -> &[u8]
        ensures { result.now ≡ self.now.complained }
    {
        self.complained.as_slice()
    }
}
