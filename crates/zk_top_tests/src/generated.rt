use crate::case::{Case, comes_out};
use std::test::Fail;

/// A command line, the status, and what is said and complained.
const ROWS: &[(&[u8], u8, &[u8], &[u8])] = &[
    (
        b"gen 0 3",
        0,
        b"packets 156\nbytes 11230\nconn 3\ndns 1\nhttp 2\n",
        b"",
    ),
    (
        b"gen 0 0",
        0,
        b"packets 0\nbytes 24\nconn 0\ndns 0\nhttp 0\n",
        b"",
    ),
    (
        b"gen 2 1",
        0,
        b"packets 147\nbytes 10456\nconn 1\ndns 0\nhttp 1\n",
        b"",
    ),
    (
        b"gen 4294967295 3",
        0,
        b"packets 156\nbytes 11230\nconn 3\ndns 1\nhttp 2\n",
        b"",
    ),
    (
        b"gen 0 3000",
        0,
        b"packets 156000\nbytes 11206024\nconn 3000\ndns 1000\nhttp 2000\n",
        b"",
    ),
    (
        b"gen 0 100001",
        1,
        b"",
        b"zeekoff: word 2 is not understood\n",
    ),
    (
        b"gen 4294967296 0",
        1,
        b"",
        b"zeekoff: word 1 is not understood\n",
    ),
    (b"gen 00 3", 1, b"", b"zeekoff: word 1 is not understood\n"),
    (b"gen 0 +3", 1, b"", b"zeekoff: word 2 is not understood\n"),
    (b"gen 0 3 4", 1, b"", b"zeekoff: word 3 is not understood\n"),
    (b"gen 0", 1, b"", b"zeekoff: word 2 is not understood\n"),
    (b"gen", 1, b"", b"zeekoff: word 1 is not understood\n"),
];

#[test]
fn a_generated_capture_is_summed_up(rt: HostRuntime) -> Result<(), Fail> {
    for (n, (line, status, said, complained)) in ROWS.iter().enumerate() {
        let case = Case {
            line,
            inputs: &[],
            status: *status,
            said,
            complained,
            files: &[(b"conn.log", &[])],
        };
        comes_out(rt.alloc(), &case, n)?;
    }
    Ok(())
}
