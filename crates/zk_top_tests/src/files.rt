use crate::case::words;
use std::alloc::Global;
use std::fs::Files;
use std::test::Fail;
use zk_base::{Mem, Shelf};
use zk_system::DirShelf;
use zk_top::run;

/// The status of a run with these words.
fn status_of<S: Shelf>(alloc: Global, line: &[u8], shelf: &mut S) -> Result<u8, Mem> {
    let words = words(alloc, line)?;
    Ok(run(alloc, &words, shelf).status())
}

/// Whether runs over a folder and an absent file end with the status of their fault.
fn end_so<F: Files>(alloc: Global, shelf: &mut DirShelf<F, Vec<u8>, Vec<u8>>) -> Result<bool, Mem> {
    Ok(
        status_of(alloc, b"list /", shelf)? == 5
            && shelf.err().is_empty()
            && status_of(alloc, b"list /dev/nothing.pcap", shelf)? == 9
            && shelf.err().as_slice() == b"zeekoff: no file /dev/nothing.pcap\n".as_slice(),
    )
}

/// Whether they do over files.
fn runs_end_so<F: Files + Drop>(alloc: Global, files: F) -> Result<bool, Mem> {
    let mut shelf = DirShelf::new(files, Vec::new(alloc), Vec::new(alloc));
    end_so(alloc, &mut shelf)
}

#[test]
fn a_run_over_real_files_ends_with_the_status_of_its_fault(rt: HostRuntime) -> Result<(), Fail> {
    assert!(rt; runs_end_so(rt.alloc(), &rt)?);
    Ok(())
}
