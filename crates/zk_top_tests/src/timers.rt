use crate::case::{Case, comes_out};
use crate::lists::GAP_IN_BODY;
use crate::runs::{DATAGRAM, HEADER};
use std::alloc::Global;
use std::test::Fail;

/// A request whose head comes in pieces, the first of them twice.
const SPLIT_HEAD: &[u8] = b"\
    \xd4\xc3\xb2\xa1\x02\0\x04\0\0\0\0\0\0\0\0\0\0\0\x04\0\x01\0\0\0\
    \0\0\0\0\0\0\0\06\0\0\06\0\0\0\0\0\0\0\0\0\0\0\0\0\0\0\x08\0E\0\0(\0\0\0\0\0\x06\xa6\x80\n\0\0\x01\n\0\0P\x9cA\0P\0\0\0d\0\0\0\0P\x02\0\0\xfe\x9c\0\0\
    \0\0\0\0\xa0\x86\x01\06\0\0\06\0\0\0\0\0\0\0\0\0\0\0\0\0\0\0\x08\0E\0\0(\0\0\0\0\0\x06\xa6\x80\n\0\0P\n\0\0\x01\0P\x9cA\0\0\x01\xf4\0\0\0eP\x12\0\0\xfc\x97\0\0\
    \x01\0\0\0\0\0\0\0>\0\0\0>\0\0\0\0\0\0\0\0\0\0\0\0\0\0\0\x08\0E\0\00\0\0\0\0\0\x06\xa6x\n\0\0\x01\n\0\0P\x9cA\0P\0\0\0e\0\0\x01\xf5P\x10\0\0\xe9\xb6\0\0GET / HT\
    \x02\0\0\0 \xa1\x07\0>\0\0\0>\0\0\0\0\0\0\0\0\0\0\0\0\0\0\0\x08\0E\0\00\0\0\0\0\0\x06\xa6x\n\0\0\x01\n\0\0P\x9cA\0P\0\0\0e\0\0\x01\xf5P\x10\0\0\xe9\xb6\0\0GET / HT\
    \x03\0\0\0\0\0\0\0@\0\0\0@\0\0\0\0\0\0\0\0\0\0\0\0\0\0\0\x08\0E\0\02\0\0\0\0\0\x06\xa6v\n\0\0\x01\n\0\0P\x9cA\0P\0\0\0m\0\0\x01\xf5P\x10\0\00\xc0\0\0TP/1.1\r\n\r\n";

/// A datagram of another port at each second from 1 s to 12 s.
pub const EACH_SECOND: &[u8] = b"\
    \xd4\xc3\xb2\xa1\x02\0\x04\0\0\0\0\0\0\0\0\0\0\0\x04\0\x01\0\0\0\
    \x01\0\0\0\0\0\0\0+\0\0\0+\0\0\0\0\0\0\0\0\0\0\0\0\0\0\0\x08\0E\0\0\x1d\0\0\0\0\0\x11\xa6\x80\n\0\0\x01\n\0\0P\x03\xe9'\x0f\0\x09H\x93x\
    \x02\0\0\0\0\0\0\0+\0\0\0+\0\0\0\0\0\0\0\0\0\0\0\0\0\0\0\x08\0E\0\0\x1d\0\0\0\0\0\x11\xa6\x80\n\0\0\x01\n\0\0P\x03\xea'\x0f\0\x09H\x92x\
    \x03\0\0\0\0\0\0\0+\0\0\0+\0\0\0\0\0\0\0\0\0\0\0\0\0\0\0\x08\0E\0\0\x1d\0\0\0\0\0\x11\xa6\x80\n\0\0\x01\n\0\0P\x03\xeb'\x0f\0\x09H\x91x\
    \x04\0\0\0\0\0\0\0+\0\0\0+\0\0\0\0\0\0\0\0\0\0\0\0\0\0\0\x08\0E\0\0\x1d\0\0\0\0\0\x11\xa6\x80\n\0\0\x01\n\0\0P\x03\xec'\x0f\0\x09H\x90x\
    \x05\0\0\0\0\0\0\0+\0\0\0+\0\0\0\0\0\0\0\0\0\0\0\0\0\0\0\x08\0E\0\0\x1d\0\0\0\0\0\x11\xa6\x80\n\0\0\x01\n\0\0P\x03\xed'\x0f\0\x09H\x8fx\
    \x06\0\0\0\0\0\0\0+\0\0\0+\0\0\0\0\0\0\0\0\0\0\0\0\0\0\0\x08\0E\0\0\x1d\0\0\0\0\0\x11\xa6\x80\n\0\0\x01\n\0\0P\x03\xee'\x0f\0\x09H\x8ex\
    \x07\0\0\0\0\0\0\0+\0\0\0+\0\0\0\0\0\0\0\0\0\0\0\0\0\0\0\x08\0E\0\0\x1d\0\0\0\0\0\x11\xa6\x80\n\0\0\x01\n\0\0P\x03\xef'\x0f\0\x09H\x8dx\
    \x08\0\0\0\0\0\0\0+\0\0\0+\0\0\0\0\0\0\0\0\0\0\0\0\0\0\0\x08\0E\0\0\x1d\0\0\0\0\0\x11\xa6\x80\n\0\0\x01\n\0\0P\x03\xf0'\x0f\0\x09H\x8cx\
    \x09\0\0\0\0\0\0\0+\0\0\0+\0\0\0\0\0\0\0\0\0\0\0\0\0\0\0\x08\0E\0\0\x1d\0\0\0\0\0\x11\xa6\x80\n\0\0\x01\n\0\0P\x03\xf1'\x0f\0\x09H\x8bx\
    \n\0\0\0\0\0\0\0+\0\0\0+\0\0\0\0\0\0\0\0\0\0\0\0\0\0\0\x08\0E\0\0\x1d\0\0\0\0\0\x11\xa6\x80\n\0\0\x01\n\0\0P\x03\xf2'\x0f\0\x09H\x8ax\
    \x0b\0\0\0\0\0\0\0+\0\0\0+\0\0\0\0\0\0\0\0\0\0\0\0\0\0\0\x08\0E\0\0\x1d\0\0\0\0\0\x11\xa6\x80\n\0\0\x01\n\0\0P\x03\xf3'\x0f\0\x09H\x89x\
    \x0c\0\0\0\0\0\0\0+\0\0\0+\0\0\0\0\0\0\0\0\0\0\0\0\0\0\0\x08\0E\0\0\x1d\0\0\0\0\0\x11\xa6\x80\n\0\0\x01\n\0\0P\x03\xf4'\x0f\0\x09H\x88x";

/// A record at 10 s of which no connection is made.
const SILENT: &[u8] = b"\
    \xd4\xc3\xb2\xa1\x02\0\x04\0\0\0\0\0\0\0\0\0\0\0\x04\0\x01\0\0\0\
    \n\0\0\0\0\0\0\0*\0\0\0*\0\0\0\0\0\0\0\0\0\0\0\0\0\0\0\x08\x06\0\0\0\0\0\0\0\0\0\0\0\0\0\0\0\0\0\0\0\0\0\0\0\0\0\0\0\0";

/// The words of a run of `s.zeek` over `c.pcap`, with the default budget, a small one and a large one.
const RUN: &[u8] = b"run -b -r c.pcap s.zeek";

const SMALL: &[u8] = b"run -b --budget 9 -r c.pcap s.zeek";

const LARGE: &[u8] = b"run -b --budget 3000000 -r c.pcap s.zeek";

/// The capture of a row.
#[derive(Clone, Copy)]
enum Over {
    Header,
    Datagram,
    EachSecond,
    SplitHead,
    Silent,
    Gap,
}

impl Over {
    fn bytes(self) -> &'static [u8] {
        match self {
            Over::Header => &HEADER,
            Over::Datagram => &DATAGRAM,
            Over::EachSecond => EACH_SECOND,
            Over::SplitHead => SPLIT_HEAD,
            Over::Silent => SILENT,
            Over::Gap => GAP_IN_BODY,
        }
    }
}

/// The words, the capture, the text of `s.zeek`, and what is said.
type Row = (&'static [u8], Over, &'static [u8], &'static [u8]);

/// A table with many entries, and a function that counts those that expire.
const MANY: &[u8] =
    b"global t: table[count] of count &create_expire=1 sec &expire_func=gone; global n = 0; function gone(t: \
      table[count] of count, k: count): interval { ++n; return 0 sec; } event zeek_init() { local i = 0; while \
      ( i < 900000 ) { t[i] = i; ++i; } } event zeek_done() { print n, |t|; }";

/// When scheduled events run.
const SCHEDULED: &[Row] = &[
    // A scheduled event runs before the first item at or after its due.
    (
        RUN,
        Over::SplitHead,
        b"event tick() { print network_time(); } event new_connection(c: connection) { schedule 2 sec { \
          tick() }; } event http_request(c: connection, method: string, original_URI: string, unescaped_URI: \
          string, version: string) { print method; }",
        b"2.000000\nGET\n",
    ),
    // Scheduled events run by due, and then in the order of scheduling; a wait below 0 counts as 0.
    (
        RUN,
        Over::EachSecond,
        b"global n = 0; event tick(what: string) { print what, network_time(); } event zeek_init() { schedule \
          3 sec { tick(\"c\") }; schedule 1 sec { tick(\"a\") }; schedule 3 sec { tick(\"d\") }; schedule -5 \
          sec { tick(\"now\") }; schedule 1500 msec { tick(\"b\") }; schedule 20 sec { tick(\"late\") }; \
          schedule 12 sec { tick(\"before the last record\") }; event tick(\"queued\"); print \"init\"; } event \
          new_connection(c: connection) { ++n; if ( n <= 3 || n == 12 ) print c$uid, network_time(); }",
        b"init\nqueued, 0.000000\nnow, 0.000000\na, 1.000000\nC1, 1.000000\nb, 1.500000\nC2, 2.000000\n\
          c, 3.000000\nd, 3.000000\nC3, 3.000000\nbefore the last record, 12.000000\nC12, 12.000000\n\
          late, 12.000000\n",
    ),
    // A scheduled event schedules the next, which still runs before an item that isn't earlier.
    (
        RUN,
        Over::EachSecond,
        b"global n = 0; event again() { ++n; print n, network_time(); if ( n < 6 ) schedule 400 msec { \
          again() }; } event zeek_init() { schedule 1 sec { again() }; } event new_connection(c: connection) { \
          if ( n < 6 ) print c$uid; else if ( n == 6 ) { print c$uid; schedule 0 sec { again() }; } }",
        b"1, 1.000000\nC1\n2, 1.400000\n3, 1.800000\nC2\n4, 2.200000\n5, 2.600000\n6, 3.000000\nC3\n\
          7, 3.000000\n",
    ),
    // What waits at the end is dispatched there, and the queue is drained after each; what is scheduled then is dropped.
    (
        RUN,
        Over::Datagram,
        b"event never() { print \"never\"; } event soon(n: count) { print \"soon\", n, network_time(); } \
          event late(n: count) { print \"late\", n, network_time(); schedule 0 sec { never() }; event soon(n); \
          } event early() { print \"early\", network_time(); schedule 6 sec { late(0) }; } event zeek_init() { \
          schedule 40 sec { late(3) }; schedule 30 sec { late(1) }; schedule 30 sec { late(2) }; schedule 20 \
          sec { early() }; } event connection_state_remove(c: connection) { print \"removed\", network_time(); \
          } event zeek_done() { print \"done\", network_time(); schedule 0 sec { never() }; event soon(7); }",
        b"early, 20.000000\nremoved, 25.000000\nlate, 0, 25.000000\nsoon, 0, 25.000000\n\
          late, 1, 25.000000\nsoon, 1, 25.000000\nlate, 2, 25.000000\nsoon, 2, 25.000000\n\
          late, 3, 25.000000\nsoon, 3, 25.000000\ndone, 25.000000\nsoon, 7, 25.000000\n",
    ),
    // A due past the last moment stands there, so the order of scheduling decides.
    (
        RUN,
        Over::Datagram,
        b"event e(n: count) { print n, network_time(); } event zeek_init() { schedule 9223372036854775807 \
          usecs { e(1) }; } event new_connection(c: connection) { schedule 9223372036854775807 usecs { e(2) }; \
          schedule 9223372036854775806 usecs { e(3) }; schedule 1 day { e(4) }; }",
        b"4, 25.000000\n1, 25.000000\n2, 25.000000\n3, 25.000000\n",
    ),
];

/// What queued events are given, and what comes before them.
const QUEUED: &[Row] = &[
    // Arguments are computed where the event is queued or scheduled; a record is passed by reference.
    (
        RUN,
        Over::Header,
        b"type R: record { n: count; }; global r = R($n=1); global k = 1; event e(a: count, x: R) { print a, \
          x$n; } event zeek_init() { schedule 1 sec { e(k, r) }; event e(k, r); k = 2; r$n = 5; event e(k, r); \
          print \"init\"; }",
        b"init\n1, 5\n2, 5\n1, 5\n",
    ),
    // What initial values queue comes before zeek_init; what they schedule counts from time 0.
    (
        RUN,
        Over::Header,
        b"event e(s: string) { print s, network_time(); } function queued(n: count): count { event \
          e(\"queued\"); schedule 1 sec { e(\"scheduled\") }; print \"value\", n; return n; } global x = \
          queued(1); global y = queued(x + 1); event zeek_init() &priority=100 { print \"init\", x, y; }",
        b"value, 1\nvalue, 2\nqueued, 0.000000\nqueued, 0.000000\ninit, 1, 2\nscheduled, 0.000000\n\
          scheduled, 0.000000\n",
    ),
    // At one due entries come before events, by the order of their tables, and then by insertion.
    (
        RUN,
        Over::Datagram,
        b"global first: table[count] of count &create_expire=5 sec &expire_func=gone; global second: \
          set[string] &write_expire=5 sec &expire_func=left; global third: table[count] of count &read_expire=5 \
          sec &expire_func=gone; function gone(t: table[count] of count, k: count): interval { print \"table\", \
          t[k], k, network_time(); event queued(k); return 0 sec; } function left(s: set[string], k: string): \
          interval { print \"set\", k, network_time(); return 0 sec; } event queued(k: count) { print \"queued \
          by\", k; } event tick() { print \"tick\", |first|, |second|, |third|; } event zeek_init() { schedule \
          5 sec { tick() }; third[1] = 3; add second[\"x\"]; first[2] = 1; first[1] = 1; add second[\"a\"]; }",
        b"table, 1, 2, 5.000000\nqueued by, 2\ntable, 1, 1, 5.000000\nqueued by, 1\nset, x, 5.000000\n\
          set, a, 5.000000\ntable, 3, 1, 5.000000\nqueued by, 1\ntick, 0, 0, 0\n",
    ),
];

/// What of a capture is an item, before which what is due has its turn.
const ITEMS: &[Row] = &[
    // A record without an item moves neither scheduled events nor entries.
    (
        RUN,
        Over::Silent,
        b"global t: set[count] &create_expire=5 sec; event tick() { print \"tick\", network_time(), |t|; } \
          event zeek_init() { add t[1]; schedule 6 sec { tick() }; } event zeek_done() { print \"done\", \
          network_time(), |t|; }",
        b"tick, 10.000000, 1\ndone, 10.000000, 1\n",
    ),
    // Where packets are asked for it is one, and what is due comes first.
    (
        RUN,
        Over::Silent,
        b"global t: set[count] &create_expire=5 sec; event packet_seen(t: time, caplen: count, len: count) { \
          print \"packet\", t, caplen, len; } event tick() { print \"tick\", network_time(), |t|; } event \
          zeek_init() { add t[1]; schedule 6 sec { tick() }; } event zeek_done() { print \"done\", \
          network_time(), |t|; }",
        b"tick, 6.000000, 0\npacket, 10.000000, 42, 42\ndone, 10.000000, 0\n",
    ),
    // A hole that the peer acknowledged has its place and its length, and the body its bytes that are missing.
    (
        RUN,
        Over::Gap,
        b"event content_gap(c: connection, is_orig: bool, seq: count, length: count) { print \"gap\", \
          is_orig, seq, length; } event http_message_done(c: connection, is_orig: bool, stat: \
          http_message_stat) { print \"done\", is_orig, stat$body_length, stat$header_length, \
          stat$content_gap_length; }",
        b"done, T, 0, 14, 0\ngap, F, 43, 6\ndone, F, 10, 33, 6\n",
    ),
];

/// From when on an entry is due.
const EXPIRY: &[Row] = &[
    // `&create_expire` counts from insertion: neither an assignment nor a read puts it off.
    (
        RUN,
        Over::EachSecond,
        b"global n = 0; event new_connection(c: connection) { ++n; event at(n); } global t: table[count] of \
          count &create_expire=5 sec &expire_func=gone; function gone(t: table[count] of count, k: count): \
          interval { print \"gone\", k, t[k], network_time(); return 0 sec; } event at(n: count) { if ( n == 1 \
          ) { t[1] = 1; t[2] = 2; } if ( n == 3 ) { t[1] = 10; print 1 in t, t[2]; } if ( n == 4 ) { delete \
          t[2]; t[2] = 20; } if ( n == 6 ) print |t|; } event zeek_done() { print |t|; }",
        b"T, 2\ngone, 1, 10, 6.000000\n1\ngone, 2, 20, 9.000000\n0\n",
    ),
    // `&write_expire` counts from the last assignment too.
    (
        RUN,
        Over::EachSecond,
        b"global n = 0; event new_connection(c: connection) { ++n; event at(n); } global t: table[string] of \
          count &write_expire=3 sec &expire_func=gone; function gone(t: table[string] of count, k: string): \
          interval { print \"gone\", k, t[k], network_time(); return 0 sec; } event at(n: count) { if ( n == 1 \
          ) { t[\"a\"] = 1; t[\"b\"] = 2; t[\"c\"] = 3; } if ( n == 2 ) { t[\"a\"] = 10; print t[\"b\"], \"b\" \
          in t; } if ( n == 3 ) t[\"c\"] += 1; if ( n == 4 ) print |t|; }",
        b"2, T\ngone, b, 2, 4.000000\n2\ngone, a, 10, 5.000000\ngone, c, 4, 6.000000\n",
    ),
    // `&read_expire` counts from the last assignment, found index or `in`.
    (
        RUN,
        Over::EachSecond,
        b"global n = 0; event new_connection(c: connection) { ++n; event at(n); } global t: table[string] of \
          count &read_expire=3 sec &expire_func=gone; function gone(t: table[string] of count, k: string): \
          interval { print \"gone\", k, network_time(); return 0 sec; } event at(n: count) { if ( n == 1 ) { \
          t[\"a\"] = 1; t[\"b\"] = 2; t[\"c\"] = 3; t[\"d\"] = 4; } if ( n == 2 ) { print t[\"a\"], \"b\" in t, \
          \"zz\" in t; t[\"d\"] = 5; } if ( n == 4 ) print |t|, \"a\" !in t; }",
        b"1, T, F\ngone, c, 4.000000\n3, F\ngone, b, 5.000000\ngone, d, 5.000000\ngone, a, 7.000000\n",
    ),
];

/// What becomes of an entry by what its function does.
const KEPT: &[Row] = &[
    // An interval above 0 makes the entry due that much later; any other removes it.
    (
        RUN,
        Over::EachSecond,
        b"global t: table[string] of count &create_expire=2 sec &expire_func=gone; function gone(t: \
          table[string] of count, k: string): interval { print k, t[k], network_time(); if ( t[k] < 2 ) { \
          ++t[k]; return 1500 msec; } return -1 sec; } event zeek_init() { t[\"a\"] = 0; t[\"b\"] = 1; } event \
          zeek_done() { print |t|; }",
        b"a, 0, 2.000000\nb, 1, 2.000000\na, 1, 3.500000\nb, 2, 3.500000\na, 2, 5.000000\n0\n",
    ),
    // An entry that its function assigned is still that very entry.
    (
        RUN,
        Over::EachSecond,
        b"global t: table[count] of count &write_expire=2 sec &expire_func=gone; function gone(t: \
          table[count] of count, k: count): interval { t[k] += 10; print k, t[k], network_time(); if ( k == 2 \
          && t[k] < 20 ) return 1 sec; return 0 sec; } event zeek_init() { t[1] = 0; t[2] = 0; } event \
          zeek_done() { print |t|; }",
        b"1, 10, 2.000000\n2, 10, 2.000000\n2, 20, 3.000000\n0\n",
    ),
    // An entry that its function deleted isn't kept by an interval; another that it deleted has no turn.
    (
        RUN,
        Over::EachSecond,
        b"global t: table[count] of count &create_expire=2 sec &expire_func=gone; function gone(t: \
          table[count] of count, k: count): interval { print k, |t|, network_time(); if ( k == 1 ) { delete \
          t[1]; delete t[2]; return 5 sec; } return 0 sec; } event zeek_init() { t[1] = 0; t[2] = 0; t[3] = 0; \
          } event zeek_done() { print |t|; }",
        b"1, 3, 2.000000\n3, 1, 2.000000\n0\n",
    ),
    // One that is deleted and inserted again is another one: last in order, and due by its own insertion.
    (
        RUN,
        Over::EachSecond,
        b"global t: table[count] of count &create_expire=2 sec &expire_func=gone; function gone(t: \
          table[count] of count, k: count): interval { print k, t[k], network_time(); if ( t[k] == 0 && k == 1 \
          ) { delete t[k]; t[k] = 7; return 1 sec; } for ( x, y in t ) print \"there\", x, y; return 0 sec; } \
          event zeek_init() { t[1] = 0; t[2] = 0; }",
        b"1, 0, 2.000000\n2, 0, 2.000000\nthere, 2, 0\nthere, 1, 7\n1, 7, 4.000000\nthere, 1, 7\n",
    ),
];

/// What such a function is given, and what comes of its fault.
const FUNCTIONS: &[Row] = &[
    // After a fault in its function the entry goes all the same.
    (
        RUN,
        Over::EachSecond,
        b"global t: table[string] of count &create_expire=2 sec &expire_func=gone; global u: table[count] of \
          count; function gone(t: table[string] of count, k: string): interval { print k; if ( k == \"b\" ) \
          print u[5]; if ( k == \"c\" ) print 1 / |u|; return 0 sec; } event zeek_init() { t[\"a\"] = 1; \
          t[\"b\"] = 1; t[\"c\"] = 1; t[\"d\"] = 1; } event zeek_done() { print |t|; }",
        b"a\nb\nc\nd\n0\n",
    ),
    // The function has the whole budget at each turn; where it is spent the entry goes.
    (
        SMALL,
        Over::EachSecond,
        b"global t: table[count] of count &create_expire=2 sec &expire_func=gone; function gone(t: \
          table[count] of count, k: count): interval { local i = 0; while ( i < k ) ++i; print k; return 3 sec; \
          } event zeek_init() { t[1] = 0; t[2] = 0; t[3] = 0; } event zeek_done() { print |t|; }",
        b"1\n2\n3\n1\n2\n1\n2\n1\n2\n2\n",
    ),
    // The function gets the table or set and each of its keys.
    (
        RUN,
        Over::Datagram,
        b"global t: table[count, string] of bool &create_expire=2 sec &expire_func=gone; global s: set[addr, \
          port] &create_expire=1 sec &expire_func=left; type Color: enum { RED, BLUE }; global v: set[Color] \
          &create_expire=3 sec &expire_func=faded; function gone(t: table[count, string] of bool, n: count, s: \
          string): interval { print n, s, t[n, s], [n, s] in t, network_time(); return 0 sec; } function \
          left(s: set[addr, port], a: addr, p: port): interval { print a, p, |s|, network_time(); return 0 sec; \
          } function faded(s: set[Color], c: Color): interval { print c, network_time(); return 0 sec; } event \
          zeek_init() { t[1, \"x\"] = T; t[1, \"y\"] = F; add s[1.2.3.4, 53/udp]; add v[BLUE]; }",
        b"1.2.3.4, 53/udp, 1, 1.000000\n1, x, T, T, 2.000000\n1, y, F, T, 2.000000\nBLUE, 3.000000\n",
    ),
];

/// Expiry at its bounds, of copies, and of many entries.
const BOUNDS: &[Row] = &[
    // An expiry below 0 counts as 0: entries go before the next item, those of the end stay.
    (
        RUN,
        Over::Datagram,
        b"global t: table[count] of count &create_expire=-5 sec &expire_func=gone; global s: set[count] \
          &write_expire=0 sec; function gone(t: table[count] of count, k: count): interval { print \"gone\", k, \
          network_time(); return 0 sec; } event zeek_init() { t[1] = 1; add s[1]; print |t|, |s|; event \
          later(); } event later() { print \"later\", |t|, |s|; } event new_connection(c: connection) { print \
          \"new\", |t|, |s|; t[2] = 2; add s[2]; } event connection_state_remove(c: connection) { print \
          \"removed\", |t|, |s|; t[3] = 3; add s[3]; schedule 1 sec { later() }; }",
        b"1, 1\nlater, 1, 1\ngone, 1, 0.000000\nnew, 0, 0\ngone, 2, 25.000000\nremoved, 0, 0\n\
          later, 1, 1\n",
    ),
    // A due past the last moment stands there.
    (
        RUN,
        Over::Datagram,
        b"global t: table[count] of count &create_expire=9223372036854775807 usecs &expire_func=gone; global \
          u: table[count] of count &create_expire=5 sec &expire_func=gone; function gone(t: table[count] of \
          count, k: count): interval { print k, network_time(); return 9223372036854775807 usecs; } event \
          new_connection(c: connection) { t[1] = 1; u[3] = 3; } event zeek_init() { u[2] = 2; } event \
          zeek_done() { print |t|, |u|; }",
        b"2, 5.000000\n1, 2\n",
    ),
    // A copy has no expiry; another name for the table is the same table.
    (
        RUN,
        Over::Datagram,
        b"global t: table[count] of count &create_expire=2 sec &expire_func=gone &default=9; global u: \
          table[count] of count; global v: table[count] of count; function gone(t: table[count] of count, k: \
          count): interval { print k, network_time(); return 0 sec; } event zeek_init() { t[1] = 1; u = \
          copy(t); v = t; v[2] = 2; local w = t; delete w[1]; } event zeek_done() { print |t|, |u|, |v|, u[1], \
          u[7], v[2]; }",
        b"2, 2.000000\n0, 1, 0, 1, 9, 9\n",
    ),
    // 900,000 entries that are due at one moment go one by one; without an item nothing expires.
    (LARGE, Over::Datagram, MANY, b"900000, 0\n"),
    (LARGE, Over::Header, MANY, b"0, 900000\n"),
];

/// That each of these runs says its lines.
fn each_says(alloc: Global, rows: &[Row]) -> Result<(), Fail> {
    for (n, (line, over, script, said)) in rows.iter().enumerate() {
        let case = Case {
            line,
            inputs: &[(b"c.pcap", over.bytes()), (b"s.zeek", script)],
            status: 0,
            said,
            complained: b"",
            files: &[],
        };
        comes_out(alloc, &case, n)?;
    }
    Ok(())
}

#[test]
fn timers_and_expiry_keep_to_the_agenda(rt: HostRuntime) -> Result<(), Fail> {
    let alloc = rt.alloc();
    each_says(alloc, SCHEDULED)?;
    each_says(alloc, QUEUED)?;
    each_says(alloc, ITEMS)?;
    each_says(alloc, EXPIRY)?;
    each_says(alloc, KEPT)?;
    each_says(alloc, FUNCTIONS)?;
    each_says(alloc, BOUNDS)
}
