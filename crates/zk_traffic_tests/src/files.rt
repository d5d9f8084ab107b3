//! A call on a shelf is proved for any files, so the tests make their shelves of any files too, and hand over the
//! runtime once.

use std::alloc::Global;
use std::fs::Files;
use std::io::Write;
use std::os::unix::fs::symlink;
use std::path::{Path, PathBuf};
use std::test::Fail;
use std::{env, fs, process};
use zk_base::{Counts, Fault, Got, Shelf, Started, Wrote};
use zk_system::DirShelf;

/// Makes a folder of this process's own in the system's folder for what is temporary.
fn own_folder(rt: &HostRuntime, name: &str) -> Result<PathBuf, Fail> {
    let name = format!(in rt.alloc(); "{name}-{}", process::id(rt.process()))?;
    let folder = env::temp_dir(rt)?.join(rt.alloc(), name.as_str())?;
    fs::create_dir(rt, folder.as_path())?;
    Ok(folder)
}

/// A shelf to which nothing was said or complained.
fn silent<F: Files>(alloc: Global, files: F) -> DirShelf<F, Vec<u8>, Vec<u8>> {
    DirShelf::new(files, Vec::new(alloc), Vec::new(alloc))
}

/// Whether nothing is there until it is made, and what is made anew is empty.
fn is_written<S: Shelf>(shelf: &mut S, name: &[u8], with_blank: &[u8]) -> bool {
    shelf.start(name) == Started::Absent
        && shelf.create(name) == Wrote::Done
        // A name is the whole of it: one that ends in a blank is another one.
        && shelf.start(with_blank) == Started::Absent
        && shelf.append(name, b"gone") == Wrote::Done
        && shelf.create(name) == Wrote::Done
        && shelf.append(name, b"zee") == Wrote::Done
        && shelf.append(name, b"ks") == Wrote::Done
}

/// Whether what was written is read, two bytes at a time.
fn is_read<S: Shelf>(shelf: &mut S, name: &[u8]) -> bool {
    let mut buf = [0; 2];
    shelf.start(name) == Started::Open
        && shelf.read(&mut buf) == Got::Bytes(2)
        && buf == *b"ze"
        && shelf.read(&mut buf) == Got::Bytes(2)
        && buf == *b"ek"
        && shelf.read(&mut buf) == Got::Bytes(1)
        && buf[0] == b's'
        && shelf.read(&mut buf) == Got::End
}

/// Whether files hold what is written to one of them.
fn hold<F: Files + Drop>(alloc: Global, files: F, name: &[u8], with_blank: &[u8]) -> bool {
    let mut shelf = silent(alloc, files);
    is_written(&mut shelf, name, with_blank) && is_read(&mut shelf, name)
}

#[test]
fn a_real_folder_holds_what_was_written(rt: HostRuntime) -> Result<(), Fail> {
    let folder = own_folder(&rt, "zeekoff-shelf")?;
    let name = folder.join(rt.alloc(), "out.log")?;
    let name = name.as_str().as_bytes();
    let with_blank = folder.join(rt.alloc(), "out.log ")?;
    let with_blank = with_blank.as_str().as_bytes();
    assert!(rt; hold(rt.alloc(), &rt, name, with_blank));
    fs::remove_dir_all(&rt, folder.as_path())?;
    Ok(())
}

/// Whether what can't be read is told as absent or as a fault.
fn is_not_read<S: Shelf>(shelf: &mut S) -> bool {
    // A folder is opened, and can't be read.
    shelf.start(b"/") == Started::Open
        && shelf.read(&mut [0; 8]) == Got::Failed
        && shelf.start(b"\xff.pcap") == Started::Failed
        && shelf.start(b"/dev/null/c.pcap") == Started::Failed
        && shelf.start(b"/dev/nothing.pcap") == Started::Absent
}

/// Whether what can't be written is told as a fault.
fn is_not_written<F: Files, O: Write, E: Write>(shelf: &mut DirShelf<F, O, E>) -> bool {
    shelf.create(b"/") == Wrote::Failed
        && shelf.create(b"\xff.log") == Wrote::Failed
        && shelf.append(b"/dev/full", b"row") == Wrote::Failed
        && shelf.append(b"/dev/nothing.log", b"row") == Wrote::Failed
        && shelf.append(b"\xff.log", b"row") == Wrote::Failed
}

/// What a shelf counts where all of that is so.
fn counted<F: Files + Drop>(alloc: Global, files: F) -> Option<Counts> {
    let mut shelf = silent(alloc, files);
    if is_not_read(&mut shelf) && is_not_written(&mut shelf) {
        Some(shelf.counts())
    } else {
        None
    }
}

#[test]
fn what_cannot_be_read_or_written_is_counted(rt: HostRuntime) -> Result<(), Fail> {
    let counts = Counts {
        read_faults: 3,
        write_faults: 5,
        absences: 1,
        last: Some(Fault::Write),
    };
    assert!(rt; counted(rt.alloc(), &rt) == Some(counts));
    Ok(())
}

/// Whether what is said and what is complained come to two writers.
fn are_told_apart<F: Files + Drop>(alloc: Global, files: F) -> bool {
    let mut shelf = silent(alloc, files);
    shelf.say(b"one, ") == Wrote::Done
        && shelf.complain(b"wrong") == Wrote::Done
        && shelf.say(b"two") == Wrote::Done
        && shelf.out().as_slice() == b"one, two".as_slice()
        && shelf.err().as_slice() == b"wrong".as_slice()
}

#[test]
fn standard_output_and_error_are_told_apart(rt: HostRuntime) -> Result<(), Fail> {
    assert!(rt; are_told_apart(rt.alloc(), &rt));
    Ok(())
}

/// Makes an input of five bytes in a folder, links of it, and one of the folder.
fn link_input<F: Files>(alloc: Global, files: &F, folder: Path<'_>) -> Result<PathBuf, Fail> {
    let input = folder.join(alloc, "in.pcap")?;
    fs::write(files, input.as_path(), "zeeks")?;
    let hard = folder.join(alloc, "hard.log")?;
    fs::hard_link(files, input.as_path(), hard.as_path())?;
    symlink(files, input.as_path(), folder.join(alloc, "absolute.log")?)?;
    symlink(files, "in.pcap", folder.join(alloc, "relative.log")?)?;
    symlink(files, ".", folder.join(alloc, "folder")?)?;
    Ok(input)
}

/// Whether an output that is the open input is neither made nor added to, and the input's bytes stand.
fn is_spared<F: Files>(
    shelf: &mut DirShelf<F, Vec<u8>, Vec<u8>>,
    input: &[u8],
    output: &[u8],
) -> bool {
    shelf.start(input) == Started::Open
        && shelf.create(output) == Wrote::Failed
        && shelf.append(output, b"row") == Wrote::Failed
        && is_read(shelf, input)
}

/// Whether another output is made beside an open input, which is an input no longer than it is open.
fn is_alone<S: Shelf>(shelf: &mut S, input: &[u8], output: &[u8]) -> bool {
    shelf.start(input) == Started::Open
        && shelf.create(output) == Wrote::Done
        && shelf.append(output, b"row") == Wrote::Done
        && is_read(shelf, input)
        && shelf.start(output) == Started::Open
        && shelf.create(input) == Wrote::Done
        && shelf.start(input) == Started::Open
        && shelf.read(&mut [0; 2]) == Got::End
}

/// Whether a device is an input and an output at once.
fn is_both<S: Shelf>(shelf: &mut S, device: &[u8]) -> bool {
    shelf.start(device) == Started::Open
        && shelf.create(device) == Wrote::Done
        && shelf.append(device, b"row") == Wrote::Done
        && shelf.read(&mut [0; 2]) == Got::End
}

/// How many failed outputs a shelf counts where all of that is so of an input in a folder.
fn spared<F: Files>(alloc: Global, files: &F, folder: Path<'_>) -> Result<Option<u64>, Fail> {
    let input = link_input(alloc, files, folder)?;
    let input = input.as_str().as_bytes();
    let mut shelf = silent(alloc, files);
    for name in [
        "in.pcap",
        "./in.pcap",
        "hard.log",
        "absolute.log",
        "relative.log",
        "folder/in.pcap",
    ] {
        let output = folder.join(alloc, name)?;
        if !is_spared(&mut shelf, input, output.as_str().as_bytes()) {
            return Ok(None);
        }
    }
    let output = folder.join(alloc, "out.log")?;
    let output = output.as_str().as_bytes();
    if is_alone(&mut shelf, input, output) && is_both(&mut shelf, b"/dev/null") {
        Ok(Some(shelf.counts().write_faults))
    } else {
        Ok(None)
    }
}

#[test]
fn no_output_is_the_open_input(rt: HostRuntime) -> Result<(), Fail> {
    let folder = own_folder(&rt, "zeekoff-input")?;
    let spared = spared(rt.alloc(), &rt, folder.as_path())?;
    assert!(rt; spared == Some(12));
    fs::remove_dir_all(&rt, folder.as_path())?;
    Ok(())
}
