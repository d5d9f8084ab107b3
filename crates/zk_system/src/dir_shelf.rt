ghost use Rattle.std.specs.Prelude.{◌≡◌, ◌≢◌, ◌↔◌, ◌<◌, length, take, is_some, IsTrue, IfOk, IfErr, OnErr, IsErr, IsErrAnd, IsOk, MatchResult, false};
ghost use Rattle.std.specs.IoError.{error_kind};
ghost use Rattle.std.specs.Str.{IsUtf8};
ghost use Rattle.std.specs.Io.{ReadsAtMost};
ghost use Rattle.std.specs.Io.KnownBytes.{Appends, Consumes, Keeps, IsAtEnd};
ghost use Rattle.zk_system.specs.DirShelf.{started_of, CountsStart, CountsWrite};

use std::fs::{File, Files, Metadata, OpenFile, OpenOptions};
use std::io::{ErrorKind, Read, Write};
use std::os::unix::fs::MetadataExt;
use std::{io, str};
use zk_base::{Counts, Got, Shelf, Started, Wrote};

/// The outside as it is: inputs and outputs are files by path, below the working folder unless the
/// path says otherwise, and what is said and complained goes to two writers, as standard output and
/// standard error.
///
/// A file that doesn't exist is absent. Every other error is a fault, and so is a name that isn't
/// UTF-8. It tells nothing of what files hold.
///
/// An output is never the input that is open: an output whose name leads to that file fails, and the
/// file stays as it was.
#[derive(Debug, Drop)]
pub struct DirShelf<F: Files, O, E> {
    files: F,
    out: O,
    err: E,
    input: Option<F::File>,
    counts: Counts,
}

impl<F: Files, O: Write, E: Write> DirShelf<F, O, E> {
    ghost use Rattle.zk_base.specs.Counts.{none_counted};

    /// A shelf with no open input, which has counted nothing.
    pub fn new(files: F, out: O, err: E) -> DirShelf<F, O, E>
        ensures closed { is_some result.input ≡ false }
        ensures counts { result.counts ≡ none_counted }
    {
        DirShelf {
            files,
            out,
            err,
            input: None,
            counts: Counts::default(),
        }
    }

    /// The faults and absences that it has counted, and what its last call failed at.
    pub fn counts(&self) -> Counts
        ensures { result ≡ self.now.counts }
    {
        self.counts
    }

    /// The writer of what is said.
    pub fn out(&self) -> &O
        ensures { result.now ≡ self.now.out }
    {
        &self.out
    }

    /// The writer of what is complained.
    pub fn err(&self) -> &E
        ensures { result.now ≡ self.now.err }
    {
        &self.err
    }
}

impl<F: Files, O: Write, E: Write> Shelf for DirShelf<F, O, E> {
    ghost use Rattle.zk_base.specs.Shelf.{Starts, is_open, Reads, Creates, Puts, after_append, after_say, after_complaint};
    ghost use Rattle.zk_system.specs.DirShelf.{untold, Takes};

    ghost outside = { λ shelf. untold (is_some shelf.input) shelf.counts };

    fn start(&mut self, name: &[u8]) -> Started
        ensures leaves { Starts (untold (is_some self.old.input) self.old.counts) name.now result (untold (is_some self.new.input) self.new.counts) }
        ensures no_text { ¬ (IsUtf8 name.now) → result ≡ Started.Failed }
        ensures rest { self.new ≡ record self.old { input = self.new.input; counts = self.new.counts } }
    {
        // The file before is closed first, so that there are never two.
        self.input = None;
        let opened = open(&self.files, name);
        let answer = started(&opened, &mut self.counts);
        self.input = opened.ok();
        answer
    }

    fn read(&mut self, buf: &mut [u8]) -> Got
        requires room { 0 < length buf.old }
        requires input { IsTrue (is_open (untold (is_some self.old.input) self.old.counts).reading) }
        ensures leaves { Reads (untold (is_some self.old.input) self.old.counts) buf.old result buf.new (untold (is_some self.new.input) self.new.counts) }
        ensures took { Takes F.File.remaining self.old.input result buf.new self.new.input }
        ensures rest { self.new ≡ record self.old { input = self.new.input; counts = self.new.counts } }
    {
        let Some(file) = &mut self.input else {
            unreachable!()
        };
        self.counts.clear_fault();
        match read_some(file, buf) {
            Ok(0) => Got::End,
            Ok(n) => Got::Bytes(n),
            Err(_) => {
                self.counts.add_read_fault();
                Got::Failed
            }
        }
    }

    fn create(&mut self, name: &[u8]) -> Wrote
        ensures leaves { Creates (untold (is_some self.old.input) self.old.counts) name.now result (untold (is_some self.new.input) self.new.counts) }
        ensures no_text { ¬ (IsUtf8 name.now) → result ≡ Wrote.Failed }
        ensures rest { self.new ≡ record self.old { counts = self.new.counts } }
    {
        let created = create(&self.files, self.input.as_ref(), name);
        wrote(created, &mut self.counts)
    }

    fn append(&mut self, name: &[u8], bytes: &[u8]) -> Wrote
        ensures leaves { Puts (after_append (untold (is_some self.old.input) self.old.counts) name.now) (untold (is_some self.old.input) self.old.counts) bytes.now result (untold (is_some self.new.input) self.new.counts) }
        ensures no_text { ¬ (IsUtf8 name.now) → result ≡ Wrote.Failed }
        ensures rest { self.new ≡ record self.old { counts = self.new.counts } }
    {
        let appended = append(&self.files, self.input.as_ref(), name, bytes);
        wrote(appended, &mut self.counts)
    }

    fn say(&mut self, bytes: &[u8]) -> Wrote
        ensures leaves { Puts (after_say (untold (is_some self.old.input) self.old.counts)) (untold (is_some self.old.input) self.old.counts) bytes.now result (untold (is_some self.new.input) self.new.counts) }
        ensures written { result ≡ Wrote.Done → Appends (O.contents self.old.out) (O.contents self.new.out) bytes.now }
        ensures rest { self.new ≡ record self.old { out = self.new.out; counts = self.new.counts } }
    {
        let said = put_all(&mut self.out, bytes);
        wrote(said, &mut self.counts)
    }

    fn complain(&mut self, bytes: &[u8]) -> Wrote
        ensures leaves { Puts (after_complaint (untold (is_some self.old.input) self.old.counts)) (untold (is_some self.old.input) self.old.counts) bytes.now result (untold (is_some self.new.input) self.new.counts) }
        ensures written { result ≡ Wrote.Done → Appends (E.contents self.old.err) (E.contents self.new.err) bytes.now }
        ensures rest { self.new ≡ record self.old { err = self.new.err; counts = self.new.counts } }
    {
        let complained = put_all(&mut self.err, bytes);
        wrote(complained, &mut self.counts)
    }
}

/// What became of the opening of a file, which is counted if none was opened. An absent file is no
/// fault.
fn started<T>(opened: &io::Result<T>, counts: &mut Counts) -> Started
    ensures answer { result ≡ started_of opened.now }
    ensures counted { CountsStart counts.old result counts.new }
{
    match opened {
        Ok(_) => {
            counts.clear_fault();
            Started::Open
        }
        Err(error) if error.kind() == ErrorKind::NotFound => {
            counts.add_absence();
            Started::Absent
        }
        Err(_) => {
            counts.add_read_fault();
            Started::Failed
        }
    }
}

/// What became of a write, which is counted if it failed, and else takes the last fault away.
fn wrote(written: io::Result<()>, counts: &mut Counts) -> Wrote
    ensures done { (result ≡ Wrote.Done) ↔ IsOk written }
    ensures failed { IsErr written → result ≡ Wrote.Failed }
    ensures counted { CountsWrite counts.old result counts.new }
{
    match written {
        Ok(()) => {
            counts.clear_fault();
            Wrote::Done
        }
        Err(_) => {
            counts.add_write_fault();
            Wrote::Failed
        }
    }
}

/// The path that a name is. Only UTF-8 is one.
fn path(name: &[u8]) -> io::Result<&str>
    ensures { MatchResult result
        (λ path. IsUtf8 name.now × (path.now ≡ name.now))
        (λ error. ¬ (IsUtf8 name.now) × (error_kind error ≡ ErrorKind.InvalidInput)) }
{
    match str::from_utf8(name) {
        Ok(path) => Ok(path),
        Err(_) => Err(io::Error::from(ErrorKind::InvalidInput)),
    }
}

fn open<F: Files>(files: &F, name: &[u8]) -> io::Result<F::File>
    ensures { ¬ (IsUtf8 name.now) → IsErrAnd result (λ error. error_kind error ≡ ErrorKind.InvalidInput) }
{
    File::open(files, path(name)?)
}

/// Makes an empty file, or empties the one that is there.
fn create<F: Files>(files: &F, input: Option<&F::File>, name: &[u8]) -> io::Result<()>
    ensures { ¬ (IsUtf8 name.now) → IsErr result }
{
    let output = open_output(files, input, name, File::options().write(true).create(true))?;
    empty(&output)
}

/// Adds to the end of a file that is there. It is opened for this alone, so that no output is open
/// while something is said, and all is with the system when this returns.
fn append<F: Files>(files: &F, input: Option<&F::File>, name: &[u8], bytes: &[u8]) -> io::Result<()>
    ensures { ¬ (IsUtf8 name.now) → IsErr result }
{
    let mut output = open_output(files, input, name, File::options().append(true))?;
    put_all(&mut output, bytes)
}

/// Opens an output, and fails where it is the open input, whatever name or link has led there. That
/// is asked of the two open files and not of their names, so no other process can put one in the
/// place of another in between. It must not be opened with truncation, which would have emptied it
/// before it could be looked at.
fn open_output<F: Files>(
    files: &F,
    input: Option<&F::File>,
    name: &[u8],
    how: &OpenOptions,
) -> io::Result<F::File>
    ensures { ¬ (IsUtf8 name.now) → IsErr result }
{
    let output = how.open(files, path(name)?)?;
    if let Some(input) = input {
        if are_one_file(&input.metadata()?, &output.metadata()?) {
            return Err(io::Error::from(ErrorKind::ResourceBusy));
        }
    }
    Ok(output)
}

/// Whether two open files are one that holds bytes. A pipe or a device may be an input and an output.
fn are_one_file(input: &Metadata, output: &Metadata) -> bool {
    input.is_file() && input.dev() == output.dev() && input.ino() == output.ino()
}

/// Empties a file. A pipe or a device has no bytes of its own, and stays as it is.
fn empty<F: OpenFile>(file: &F) -> io::Result<()> {
    if file.metadata()?.is_file() {
        file.set_len(0)?;
    }
    Ok(())
}

/// Writes all bytes behind what a writer has. What it has of them after a fault isn't said.
fn put_all<W: Write>(writer: &mut W, bytes: &[u8]) -> io::Result<()>
    ensures written { IfOk result (λ _. Appends (W.contents writer.old) (W.contents writer.new) bytes.now) }
{
    writer.write_all(bytes)
}

/// Reads once, and again where a signal came between. After 2^64 - 1 signals it gives up, so that it
/// ends.
fn read_some<R: Read>(reader: &mut R, buf: &mut [u8]) -> io::Result<usize>
    ensures bound { ReadsAtMost result buf.new }
    ensures ok { IfOk result (λ n. Consumes (R.remaining reader.old) (R.remaining reader.new) (take n buf.new)) }
    ensures end { IfOk result (λ n. n ≡ 0 → 0 < length buf.old → IsAtEnd (R.remaining reader.new)) }
    ensures err { OnErr result (Keeps (R.remaining reader.old) (R.remaining reader.new)) }
    ensures retried { IfErr result (λ error. error_kind error ≢ ErrorKind.Interrupted) }
{
    for _ in 0..u64::MAX {
        match reader.read(buf) {
            Ok(n) => return Ok(n),
            Err(error) if error.kind() == ErrorKind::Interrupted => {}
            Err(error) => return Err(error),
        }
    }
    Err(io::Error::from(ErrorKind::TimedOut))
}
