ghost use Rattle.zk_base.specs.SureShelf.{sure_outside};

use crate::case::{inputs, words};
use crate::lists::{ANSWERS, GAPS, Row, WHOLE};
use std::alloc::Global;
use std::test::Fail;
use zk_base::{Ending, Got, Mem, Shelf, Started, SureShelf, Wrote};
use zk_gen::capture;
use zk_top::run;

/// A shelf that gives so many bytes at most at a read, and one at least.
#[derive(Drop)]
struct Narrow {
    shelf: SureShelf,
    most: usize,
}

impl Shelf for Narrow {
    ghost outside = { λ narrow. sure_outside narrow.shelf };

    fn start(&mut self, name: &[u8]) -> Started {
        self.shelf.start(name)
    }

    fn read(&mut self, buf: &mut [u8]) -> Got {
        let room = buf.len().min(self.most.max(1));
        self.shelf.read(&mut buf[..room])
    }

    fn create(&mut self, name: &[u8]) -> Wrote {
        self.shelf.create(name)
    }

    fn append(&mut self, name: &[u8], bytes: &[u8]) -> Wrote {
        self.shelf.append(name, bytes)
    }

    fn say(&mut self, bytes: &[u8]) -> Wrote {
        self.shelf.say(bytes)
    }

    fn complain(&mut self, bytes: &[u8]) -> Wrote {
        self.shelf.complain(bytes)
    }
}

/// Lists a capture that is read in pieces of at most so many bytes.
fn list_by(alloc: Global, bytes: &[u8], most: usize) -> Result<(Ending, Box<Narrow>), Mem> {
    let shelf = SureShelf::new(alloc, inputs(alloc, &[(b"c.pcap", bytes)])?)?;
    let mut narrow = Box::new(alloc, Narrow { shelf, most })?;
    let words = words(alloc, b"list c.pcap")?;
    let ending = run(alloc, &words, &mut *narrow);
    Ok((ending, narrow))
}

/// Whether a capture that is read in pieces of at most so many bytes has these lines.
fn is_listed_by(alloc: Global, bytes: &[u8], most: usize, lines: &[u8]) -> Result<bool, Mem> {
    let (ending, narrow) = list_by(alloc, bytes, most)?;
    Ok(matches!(ending, Ending::Done) && narrow.shelf.said() == lines)
}

/// That a capture has these lines in pieces of each of these sizes.
fn has_lines(alloc: Global, bytes: &[u8], pieces: &[usize], lines: &[u8]) -> Result<(), Fail> {
    for most in pieces {
        if !is_listed_by(alloc, bytes, *most, lines)? {
            let len = bytes.len();
            return Err(Fail::new(format_args!("{len} bytes in pieces of {most}")));
        }
    }
    Ok(())
}

/// That each of these captures has its lines in pieces of any size.
fn each_has_its_lines(alloc: Global, rows: &[Row]) -> Result<(), Fail> {
    for (bytes, lines) in rows {
        has_lines(alloc, bytes, &[1, 7, 65_536], lines)?;
    }
    Ok(())
}

#[test]
fn a_capture_has_the_same_lines_in_pieces_of_any_size(rt: HostRuntime) -> Result<(), Fail> {
    let alloc = rt.alloc();
    each_has_its_lines(alloc, WHOLE)?;
    each_has_its_lines(alloc, ANSWERS)?;
    each_has_its_lines(alloc, GAPS)
}

/// That a capture has the lines in small pieces that it has in long ones.
fn has_the_same_lines(alloc: Global, bytes: &[u8]) -> Result<(), Fail> {
    let (_, whole) = list_by(alloc, bytes, 65_536)?;
    has_lines(alloc, bytes, &[1, 7], whole.shelf.said())
}

/// A record lies in two of its pieces of 65,536 bytes.
#[test]
fn a_long_capture_has_the_same_lines_in_pieces_of_any_size(rt: HostRuntime) -> Result<(), Fail> {
    let bytes = capture(rt.alloc(), 0, 30)?;
    assert!(rt; bytes.len() > 65_536);
    has_the_same_lines(rt.alloc(), bytes.as_slice())
}

/// Whether what does not begin with a magic is refused after so many calls.
fn is_refused_after(alloc: Global, most: usize, calls: u64) -> Result<bool, Mem> {
    let (ending, narrow) = list_by(alloc, &[0; 100], most)?;
    Ok(matches!(ending, Ending::CaptureRefused { place: 0, .. }) && narrow.shelf.calls() == calls)
}

/// What does not begin with a magic is refused by its first four bytes. The last call complains.
#[test]
fn a_header_is_refused_as_soon_as_it_is_sure(rt: HostRuntime) -> Result<(), Fail> {
    let alloc = rt.alloc();
    assert!(rt; is_refused_after(alloc, 1, 6)?);
    assert!(rt; is_refused_after(alloc, 3, 4)?);
    assert!(rt; is_refused_after(alloc, 65_536, 3)?);
    Ok(())
}
