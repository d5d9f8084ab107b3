use crate::case::{Case, comes_out};
use std::alloc::Global;
use std::test::Fail;

/// The header of a little-endian microsecond capture of Ethernet frames.
pub const HEADER: [u8; 24] = [
    0xd4, 0xc3, 0xb2, 0xa1, 2, 0, 4, 0, 0, 0, 0, 0, 0, 0, 0, 0, 0, 0, 4, 0, 1, 0, 0, 0,
];

/// The same with a record of 2 bytes at 1 s, and 3 bytes of the next.
pub const CUT: [u8; 45] = [
    0xd4, 0xc3, 0xb2, 0xa1, 2, 0, 4, 0, 0, 0, 0, 0, 0, 0, 0, 0, 0, 0, 4, 0, 1, 0, 0, 0, 1, 0, 0, 0,
    0, 0, 0, 0, 2, 0, 0, 0, 2, 0, 0, 0, 0xff, 0xff, 2, 0, 0,
];

/// The same with two records of no bytes, at 5 s and then at 3 s.
const BACKWARDS: [u8; 56] = [
    0xd4, 0xc3, 0xb2, 0xa1, 2, 0, 4, 0, 0, 0, 0, 0, 0, 0, 0, 0, 0, 0, 4, 0, 1, 0, 0, 0, 5, 0, 0, 0,
    0, 0, 0, 0, 0, 0, 0, 0, 0, 0, 0, 0, 3, 0, 0, 0, 0, 0, 0, 0, 0, 0, 0, 0, 0, 0, 0, 0,
];

/// A big-endian nanosecond capture with a record of no bytes at 1.999999999 s.
const NANOSECONDS: [u8; 40] = [
    0xa1, 0xb2, 0x3c, 0x4d, 0, 2, 0, 4, 0, 0, 0, 0, 0, 0, 0, 0, 0, 4, 0, 0, 0, 0, 0, 1, 0, 0, 0, 1,
    0x3b, 0x9a, 0xc9, 0xff, 0, 0, 0, 0, 0, 0, 0, 60,
];

/// A capture whose one packet, at 25 s, is a datagram of UDP.
pub const DATAGRAM: [u8; 83] = [
    0xd4, 0xc3, 0xb2, 0xa1, 0x02, 0x00, 0x04, 0x00, 0x00, 0x00, 0x00, 0x00, 0x00, 0x00, 0x00, 0x00,
    0x00, 0x00, 0x04, 0x00, 0x01, 0x00, 0x00, 0x00, 0x19, 0x00, 0x00, 0x00, 0x00, 0x00, 0x00, 0x00,
    0x2b, 0x00, 0x00, 0x00, 0x2b, 0x00, 0x00, 0x00, 0x00, 0x00, 0x00, 0x00, 0x00, 0x00, 0x00, 0x00,
    0x00, 0x00, 0x00, 0x00, 0x08, 0x00, 0x45, 0x00, 0x00, 0x1d, 0x00, 0x00, 0x00, 0x00, 0x00, 0x11,
    0xa6, 0x80, 0x0a, 0x00, 0x00, 0x01, 0x0a, 0x00, 0x00, 0x50, 0x03, 0xe9, 0x27, 0x0f, 0x00, 0x09,
    0x48, 0x93, 0x78,
];

/// The words of a run of `s.zeek` over `c.pcap`.
const RUN: &[u8] = b"run -b -r c.pcap s.zeek";

/// A command line, the bytes of `c.pcap`, the text of `s.zeek`, the status, and what is said and
/// complained.
type Row = (
    &'static [u8],
    &'static [u8],
    &'static [u8],
    u8,
    &'static [u8],
    &'static [u8],
);

/// What `list` says of a capture.
const LISTS: &[Row] = &[
    (b"list c.pcap", &HEADER, b"", 0, b"", b""),
    (
        b"list c.pcap",
        &BACKWARDS,
        b"",
        0,
        b"5.000000\tpacket\t5.000000\t0\t0\n5.000000\tpacket\t3.000000\t0\t0\n",
        b"",
    ),
    (
        b"list c.pcap",
        &NANOSECONDS,
        b"",
        0,
        b"1.999999\tpacket\t1.999999\t0\t60\n",
        b"",
    ),
    (
        b"list c.pcap",
        &CUT,
        b"",
        4,
        b"1.000000\tpacket\t1.000000\t2\t2\n",
        b"zeekoff: c.pcap cut at byte 42\n",
    ),
    (
        b"list c.pcap",
        b"",
        b"",
        3,
        b"",
        b"zeekoff: c.pcap refused at byte 0\n",
    ),
    (
        b"list x.pcap",
        b"",
        b"",
        9,
        b"",
        b"zeekoff: no file x.pcap\n",
    ),
];

/// Command lines that are understood or not.
const WORDS: &[Row] = &[
    (
        b"list",
        b"",
        b"",
        1,
        b"",
        b"zeekoff: word 1 is not understood\n",
    ),
    (
        b"list a b",
        b"",
        b"",
        1,
        b"",
        b"zeekoff: word 2 is not understood\n",
    ),
    (
        b"list -x",
        b"",
        b"",
        1,
        b"",
        b"zeekoff: word 1 is not understood\n",
    ),
    (
        b"run -r",
        &HEADER,
        b"",
        1,
        b"",
        b"zeekoff: word 2 is not understood\n",
    ),
    (
        b"run -r c.pcap s.zeek -C",
        &HEADER,
        b"",
        1,
        b"",
        b"zeekoff: word 4 is not understood\n",
    ),
    (
        b"run --budget 09 -b -r c.pcap",
        &HEADER,
        b"",
        1,
        b"",
        b"zeekoff: word 2 is not understood\n",
    ),
    (
        b"run -b -r c.pcap --buffer 67108865",
        &HEADER,
        b"",
        1,
        b"",
        b"zeekoff: word 5 is not understood\n",
    ),
    (
        b"run --buffer 67108864 -C -r c.pcap --budget 1000000000 -b",
        &HEADER,
        b"",
        0,
        b"",
        b"",
    ),
    (b"--version", b"", b"", 0, b"zeekoff 0.1.0\n", b""),
    (
        b"--help x",
        b"",
        b"",
        1,
        b"",
        b"zeekoff: word 1 is not understood\n",
    ),
    (
        b"list --help",
        b"",
        b"",
        1,
        b"",
        b"zeekoff: word 1 is not understood\n",
    ),
    (
        b"",
        &HEADER,
        b"",
        1,
        b"",
        b"zeekoff: word 0 is not understood\n",
    ),
];

/// What scripts say.
const SAID: &[Row] = &[
    // A script without handlers says nothing, and one may be empty.
    (RUN, &HEADER, b"", 0, b"", b""),
    (
        RUN,
        &HEADER,
        b"event zeek_init() { print network_time(); }\nevent zeek_done() { print network_time(); }\n",
        0,
        b"0.000000\n0.000000\n",
        b"",
    ),
    (
        RUN,
        &CUT,
        b"event packet_seen(t: time, caplen: count, len: count) { print t, caplen, len, \"x\"; }",
        4,
        b"1.000000, 2, 2, x\n",
        b"zeekoff: c.pcap cut at byte 42\n",
    ),
    // Network time is the greatest so far, and the end has the last one.
    (
        RUN,
        &BACKWARDS,
        b"event packet_seen(t: time, caplen: count, len: count) { print t, network_time(); } \
         event zeek_done() { print network_time(); }",
        0,
        b"5.000000, 5.000000\n3.000000, 5.000000\n5.000000\n",
        b"",
    ),
    // Handlers of one event run in load order, and those of the beginning before those of the end.
    (
        RUN,
        &HEADER,
        b"event zeek_done() { print 1; } event zeek_init() { print 2; } # print 9;\r\n\
         event zeek_init() { print 3; print 4; } event zeek_done() { }",
        0,
        b"2\n3\n4\n1\n",
        b"",
    ),
    (
        RUN,
        &HEADER,
        b"event zeek_init() { print \"\\n\\t\\r\\\"\\\\\\x41\\x6a\", T, F, 18446744073709551615, \"\"; }",
        0,
        b"\n\t\r\"\\Aj, T, F, 18446744073709551615, \n",
        b"",
    ),
    // A handler that raises its own event is a flood.
    (
        RUN,
        &HEADER,
        b"event e() { event e(); } event zeek_init() { event e(); }",
        8,
        b"",
        b"zeekoff: flood at 0.000000\n",
    ),
];

/// Scripts that are refused, and where.
const REFUSED: &[Row] = &[
    // A declaration that does not read is refused at its first byte.
    (
        RUN,
        &HEADER,
        b"event zeek_init() { print 1; } if",
        2,
        b"",
        b"zeekoff: s.zeek, byte 31: NoTree\n",
    ),
    (
        RUN,
        &HEADER,
        b"print 1;",
        2,
        b"",
        b"zeekoff: s.zeek, byte 0: NoTree\n",
    ),
    (
        RUN,
        &HEADER,
        b"\n  event zeek_init() { print 1; } event zeek_done() { print 1",
        2,
        b"",
        b"zeekoff: s.zeek, byte 34: NoTree\n",
    ),
    // The tree is judged before names and types, and these before the capture is asked for.
    (
        RUN,
        &HEADER,
        b"event zeek_init() { print caplen; }",
        2,
        b"",
        b"zeekoff: s.zeek, byte 26: Unknown\n",
    ),
    (
        b"run -b -r x.pcap s.zeek",
        &HEADER,
        b"global x: count = \"a\";",
        2,
        b"",
        b"zeekoff: s.zeek, byte 18: WrongType\n",
    ),
    (
        RUN,
        &HEADER,
        b"&log event zeek_init() { print 1; }",
        2,
        b"",
        b"zeekoff: s.zeek, byte 0: NoTree\n",
    ),
    // Tokens are judged before the tree, at the first fault.
    (
        RUN,
        &HEADER,
        b"print 1; event zeek_init() { print 1; }@",
        2,
        b"",
        b"zeekoff: s.zeek, byte 39: BadByte\n",
    ),
    (
        RUN,
        &HEADER,
        b"event zeek_init() { print \"fine\\n\", \"a\\q\"; }",
        2,
        b"",
        b"zeekoff: s.zeek, byte 38: BadByte\n",
    ),
    (
        RUN,
        &HEADER,
        b"global x: count = \"a",
        2,
        b"",
        b"zeekoff: s.zeek, byte 18: OpenString\n",
    ),
    (
        RUN,
        &HEADER,
        b"event zeek_init() { print 18446744073709551616; }",
        2,
        b"",
        b"zeekoff: s.zeek, byte 26: BigNumber\n",
    ),
    (
        RUN,
        &HEADER,
        b"global x: count = y;",
        2,
        b"",
        b"zeekoff: s.zeek, byte 18: Unknown\n",
    ),
    (
        RUN,
        &HEADER,
        b"global x = \"a",
        2,
        b"",
        b"zeekoff: s.zeek, byte 11: OpenString\n",
    ),
];

/// Files in the order in which they are asked for and judged.
const ASKED: &[Row] = &[
    // The script is judged before the capture is asked for.
    (
        b"run -b -r x.pcap s.zeek",
        &HEADER,
        b"if",
        2,
        b"",
        b"zeekoff: s.zeek, byte 0: NoTree\n",
    ),
    (
        b"run -b -r x.pcap x.zeek",
        &HEADER,
        b"",
        9,
        b"",
        b"zeekoff: no file x.zeek\n",
    ),
    (
        b"run -b -r x.pcap s.zeek",
        &HEADER,
        b"",
        9,
        b"",
        b"zeekoff: no file x.pcap\n",
    ),
    (
        b"run -r c.pcap",
        b"",
        b"",
        3,
        b"",
        b"zeekoff: c.pcap refused at byte 0\n",
    ),
    // A header that is refused is judged before anything runs.
    (
        RUN,
        b"",
        b"event zeek_init() { print 1; }",
        3,
        b"",
        b"zeekoff: c.pcap refused at byte 0\n",
    ),
    // The default scripts say nothing, and a capture without connections makes no log. They are loaded first.
    (b"run -r c.pcap s.zeek", &HEADER, b"", 0, b"", b""),
    (
        b"run -r c.pcap s.zeek",
        &HEADER,
        b"module Conn; type Info: record { n: count; };",
        2,
        b"",
        b"zeekoff: s.zeek, byte 13: Twice\n",
    ),
    // Their names count as read, and other scripts under `base/` are files.
    (
        b"run -r c.pcap base/dns.zeek base/x.zeek",
        &HEADER,
        b"",
        9,
        b"",
        b"zeekoff: no file base/x.zeek\n",
    ),
    (
        b"run -b -r c.pcap base/dns.zeek",
        &HEADER,
        b"",
        9,
        b"",
        b"zeekoff: no file base/dns.zeek\n",
    ),
    (
        b"run -r c -C",
        &HEADER,
        b"",
        9,
        b"",
        b"zeekoff: no file c\n",
    ),
    // Scripts are read in order, each followed by what it loads.
    (
        b"run -b -r c.pcap s.zeek t.zeek",
        &HEADER,
        b"@load base/x\n@load s.zeek",
        9,
        b"",
        b"zeekoff: no file t.zeek\n",
    ),
];

/// A command line, the text of `s.zeek`, and what is said over a capture whose one packet, a datagram,
/// comes at 25 s.
const PROGRAMS: &[(&[u8], &[u8], &[u8])] = &[
    // A loop goes over a snapshot. Entries expire at their own moments, and their function may change the table.
    (
        RUN,
        b"global t: table[count] of count &create_expire=10 sec &expire_func=gone; \
          function gone(t: table[count] of count, k: count): interval { print fmt(\"%d %s\", k, network_time()); \
          if ( k == 1 ) { delete t[2]; t[3] = 0; return 10 sec; } return 0 sec; } \
          event zeek_init() { t[1] = 0; t[2] = 0; local s = set(5, 6, 7); for ( k in s ) { print k; delete s[6]; } }",
        b"5\n7\n1 10.000000\n1 20.000000\n3 20.000000\n",
    ),
    // Bodies run by falling priority and then in load order; a break ends a hook.
    (
        RUN,
        b"hook h(n: count) { print \"h0\"; } hook h(n: count) &priority=1 { print \"h1\"; break; } \
          event zeek_init() &priority=-5 { print \"d\"; } event zeek_init() { print \"b\"; } \
          event zeek_init() &priority=5 { print \"a\", hook h(1); } event zeek_init() { print \"c\"; }",
        b"h1\na, F\nb\nc\nd\n",
    ),
    // A fault ends its body alone, which keeps what it did.
    (
        RUN,
        b"global t: table[count] of count; event zeek_init() { t[1] = 2; print t[5]; } event zeek_init() { print t[1]; }",
        b"2\n",
    ),
    (
        RUN,
        b"global t: table[count] of count; function f(t: table[count] of count) { t[2] = 5; } \
          event zeek_init() { f(t); print |t|, t[2], 7 / 2; print 7 / 0; print 1; }",
        b"1, 5, 3\n",
    ),
    (
        b"run -b --budget 9 -r c.pcap s.zeek",
        b"event zeek_init() { local i = 0; while ( i < 3 ) ++i; print i; }",
        b"3\n",
    ),
    (
        b"run -b --budget 8 -r c.pcap s.zeek",
        b"event zeek_init() { local i = 0; while ( i < 3 ) ++i; print i; }",
        b"",
    ),
    // A scheduled event has its own moment; what still waits at the end comes before it.
    (
        RUN,
        b"event tick() { print network_time(); } event new_connection(c: connection) { print c$id$resp_p; schedule 2 sec { tick() }; } \
          event zeek_init() { schedule 7 sec { tick() }; } event zeek_done() { print \"done\"; }",
        b"7.000000\n9999/udp\n25.000000\ndone\n",
    ),
];

/// That each of these runs says its lines, complains of its ending and writes no log.
fn each_ends_so(alloc: Global, rows: &[Row]) -> Result<(), Fail> {
    for (n, (line, capture, script, status, said, complained)) in rows.iter().enumerate() {
        let case = Case {
            line,
            inputs: &[(b"c.pcap", capture), (b"s.zeek", script)],
            status: *status,
            said,
            complained,
            files: &[(b"conn.log", &[]), (b"reporter.log", &[])],
        };
        comes_out(alloc, &case, n)?;
    }
    Ok(())
}

#[test]
fn each_run_says_its_lines_and_complains_of_its_ending(rt: HostRuntime) -> Result<(), Fail> {
    let alloc = rt.alloc();
    each_ends_so(alloc, LISTS)?;
    each_ends_so(alloc, WORDS)?;
    each_ends_so(alloc, SAID)?;
    each_ends_so(alloc, REFUSED)?;
    each_ends_so(alloc, ASKED)
}

#[test]
fn programs_print_what_they_mean(rt: HostRuntime) -> Result<(), Fail> {
    for (n, (line, script, said)) in PROGRAMS.iter().enumerate() {
        let case = Case {
            line,
            inputs: &[(b"c.pcap", &DATAGRAM), (b"s.zeek", script)],
            status: 0,
            said,
            complained: b"",
            files: &[],
        };
        comes_out(rt.alloc(), &case, n)?;
    }
    Ok(())
}

/// A run of a script of so many blanks ends so.
fn blanks_end_so(alloc: Global, len: usize, status: u8, complained: &[u8]) -> Result<(), Fail> {
    let blanks = vec![in alloc; b' '; len]?;
    let case = Case {
        line: RUN,
        inputs: &[(b"c.pcap", &HEADER), (b"s.zeek", &blanks)],
        status,
        said: b"",
        complained,
        files: &[],
    };
    comes_out(alloc, &case, len)
}

#[test]
fn a_script_may_have_a_mebibyte_and_no_byte_more(rt: HostRuntime) -> Result<(), Fail> {
    let alloc = rt.alloc();
    blanks_end_so(alloc, 1_048_576, 0, b"")?;
    let complained = b"zeekoff: s.zeek, byte 1048576: TooLarge\n";
    blanks_end_so(alloc, 1_048_577, 2, complained)
}
