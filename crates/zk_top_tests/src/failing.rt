use crate::case::{inputs, words};
use crate::lists::QUERY;
use crate::runs::{CUT, DATAGRAM, HEADER};
use std::alloc::Global;
use std::test::Fail;
use zk_base::{Mem, MemShelf, SureShelf, Word};
use zk_top::run;

/// A run whose calls of the outside fail, one in each turn.
#[derive(Clone, Copy)]
struct Failing<'a> {
    line: &'a [u8],
    /// The files that it writes.
    files: &'a [&'a [u8]],
    /// The status where the first call fails, where the second one fails, and so on, and at last where none does.
    statuses: &'a [u8],
}

/// Whether what a run did that was stopped begins what it does where no call fails, the complaint behind all that is said.
fn begins(shelf: &MemShelf, whole: &SureShelf, files: &[&[u8]]) -> bool {
    whole.said().starts_with(shelf.said())
        && whole.complained().starts_with(shelf.complained())
        && (shelf.complained().is_empty() || shelf.said() == whole.said())
        && files.iter().all(|name| {
            whole
                .output(name)
                .unwrap_or(b"")
                .starts_with(shelf.output(name).unwrap_or(b""))
        })
}

/// Whether a run did all that it does where no call fails.
fn is_whole(shelf: &MemShelf, whole: &SureShelf, files: &[&[u8]]) -> bool {
    shelf.said() == whole.said()
        && shelf.complained() == whole.complained()
        && files
            .iter()
            .all(|name| shelf.output(name) == whole.output(name))
}

/// Whether what a run that ends with this status did is right, where a call failed or none did.
fn is_right(shelf: &MemShelf, whole: &SureShelf, files: &[&[u8]], status: u8) -> bool {
    begins(shelf, whole, files)
        && (status != 5 || shelf.complained().is_empty())
        && (status == 5 || is_whole(shelf, whole, files) == (status != 6))
}

/// Whether a run whose call of this number fails ends with its status, and what it did by then is right.
fn stops_so(
    alloc: Global,
    files: &[(&[u8], &[u8])],
    row: &Failing,
    words: &[Word],
    whole: &SureShelf,
    call: u64,
    status: u8,
) -> Result<bool, Mem> {
    let fails = vec![in alloc; call]?;
    let shelf = MemShelf::new(alloc, inputs(alloc, files)?, fails)?;
    let mut shelf = Box::new(alloc, shelf)?;
    let ending = run(alloc, words, &mut *shelf);
    Ok(ending.status() == status && is_right(&shelf, whole, row.files, status))
}

/// The number of the first call whose failing doesn't stop a run as its row says, if any. The run has these words, and
/// this is what comes of it where no call fails.
fn first_of(
    alloc: Global,
    files: &[(&[u8], &[u8])],
    row: &Failing,
    words: &[Word],
    whole: &SureShelf,
) -> Result<Option<u64>, Mem> {
    for (n, status) in row.statuses.iter().enumerate() {
        let call = n as u64 + 1;
        if !stops_so(alloc, files, row, words, whole, call, *status)? {
            return Ok(Some(call));
        }
    }
    let calls = whole.calls();
    let tried = row.statuses.len() as u64;
    Ok(if calls.wrapping_add(1) == tried {
        None
    } else {
        Some(calls)
    })
}

/// The number of the first call whose failing doesn't stop a run as its row says, if any.
fn first_otherwise(
    alloc: Global,
    files: &[(&[u8], &[u8])],
    row: &Failing,
) -> Result<Option<u64>, Mem> {
    let words = words(alloc, row.line)?;
    let whole = SureShelf::new(alloc, inputs(alloc, files)?)?;
    let mut whole = Box::new(alloc, whole)?;
    let _ = run(alloc, &words, &mut *whole);
    first_of(alloc, files, row, &words, &whole)
}

/// That each failing call stops the run of a row as it says.
fn each_stops_it(
    alloc: Global,
    files: &[(&[u8], &[u8])],
    row: &Failing,
    n: usize,
) -> Result<(), Fail> {
    match first_otherwise(alloc, files, row)? {
        None => Ok(()),
        Some(call) => Err(Fail::new(format_args!("call {call} in row {n}"))),
    }
}

/// Each packet makes this script print 40 bytes.
const WIDE: &[u8] =
    b"event packet_seen(t: time, caplen: count, len: count) { print \"0123456789012345678901234567890123456789\"; }";

/// A row when a connection begins.
const LOG: &[u8] = b"redef enum Log::ID += { L }; type R: record { n: count &log; }; \
      event zeek_init() { Log::create_stream(L, [$columns=R, $path=\"p\"]); } \
      event new_connection(c: connection) { Log::write(L, [$n=1]); }";

/// Runs over a capture that is read in pieces.
const LONG: &[Failing] = &[
    // A start, and then a piece at a time is read, and said.
    Failing {
        line: b"list c.pcap",
        files: &[],
        statuses: &[5, 5, 6, 5, 6, 5, 6, 0],
    },
    // A script is started and read twice before.
    Failing {
        line: b"run -b -r c.pcap s.zeek",
        files: &[],
        statuses: &[5, 5, 5, 5, 5, 6, 6, 5, 6, 5, 6, 0],
    },
];

/// Runs over small inputs.
const SHORT: &[(&[(&[u8], &[u8])], Failing)] = &[
    // A piece is said, and then the complaint.
    (
        &[(b"c.pcap", &CUT)],
        Failing {
            line: b"list c.pcap",
            files: &[],
            statuses: &[5, 5, 5, 6, 6, 4],
        },
    ),
    // Nothing is said or complained.
    (
        &[(b"c.pcap", &HEADER)],
        Failing {
            line: b"list c.pcap",
            files: &[],
            statuses: &[5, 5, 5, 0],
        },
    ),
    // A log is created, the capture is read to its end, and the log is written in two pieces.
    (
        &[(b"c.pcap", &DATAGRAM), (b"s.zeek", LOG)],
        Failing {
            line: b"run -b -r c.pcap s.zeek",
            files: &[b"p.log"],
            statuses: &[5, 5, 5, 5, 5, 6, 5, 6, 6, 0],
        },
    ),
    // The last call writes the closing line of a log.
    (
        &[(b"c.pcap", QUERY)],
        Failing {
            line: b"run -r c.pcap",
            files: &[b"conn.log", b"dns.log"],
            statuses: &[5, 5, 6, 5, 6, 6, 6, 6, 6, 0],
        },
    ),
];

#[test]
fn a_run_over_a_failing_shelf_stops_with_the_fault_of_the_failed_call(
    rt: HostRuntime,
) -> Result<(), Fail> {
    for (n, (inputs, row)) in SHORT.iter().enumerate() {
        each_stops_it(rt.alloc(), inputs, row, n)?;
    }
    Ok(())
}

/// A capture of so many records of no bytes.
fn many_records(alloc: Global, many: usize) -> Result<Vec<u8>, Mem> {
    let mut bytes = Vec::from_slice(alloc, &HEADER)?;
    for _ in 0..many {
        bytes.extend_from_slice(&[0; 16])?;
    }
    Ok(bytes)
}

/// That each failing call stops the long runs over a capture.
fn each_stops_long_runs(alloc: Global, capture: &[u8]) -> Result<(), Fail> {
    for (n, row) in LONG.iter().enumerate() {
        each_stops_it(alloc, &[(b"c.pcap", capture), (b"s.zeek", WIDE)], row, n)?;
    }
    Ok(())
}

#[test]
fn a_failed_piece_of_a_long_run_stops_it(rt: HostRuntime) -> Result<(), Fail> {
    let capture = many_records(rt.alloc(), 5000)?;
    each_stops_long_runs(rt.alloc(), &capture)
}
