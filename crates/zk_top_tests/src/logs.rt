use crate::case::{Case, comes_out};
use crate::runs::{DATAGRAM, HEADER};
use crate::timers::EACH_SECOND;
use std::alloc::Global;
use std::test::Fail;

/// The words of a run of `s.zeek` over `c.pcap`.
const RUN: &[u8] = b"run -b -r c.pcap s.zeek";

/// The first lines of each log.
pub const PREFIX: &[u8] =
    b"#separator \\x09\n#set_separator\t,\n#empty_field\t(empty)\n#unset_field\t-\n";

/// A command line, the bytes of `c.pcap`, the text of `s.zeek`, what is said, and files with all that
/// they hold, in parts; one without parts isn't there.
type Row = (
    &'static [u8],
    &'static [u8],
    &'static [u8],
    &'static [u8],
    &'static [(&'static [u8], &'static [&'static [u8]])],
);

/// When a stream has a file, its filters, and its columns.
const STREAMS: &[Row] = &[
    // A log is created at its first row and closed at the last network time (Zeek manual, Log Files).
    (
        RUN,
        &DATAGRAM,
        b"module Top; export { redef enum Log::ID += { LOG }; type Info: record { ts: time &log; \
          who: string &log; n: count &log &optional; h: count; s: set[string] &log; }; } event \
          zeek_init() { Log::create_stream(LOG, [$columns=Info, $path=\"top\"]); } event new_connection(c: \
          connection) { Log::write(LOG, [$ts=network_time(), $who=\"a\\tb\", $h=1, $s=set(\"x\", \
          \",\")]); Log::write(LOG, [$ts=network_time(), $who=\"-\", $n=3, $h=1, $s=set()]); \
          }",
        b"",
        &[(
            b"top.log",
            &[
                PREFIX,
                b"#path\ttop\n#open\t1970-01-01-00-00-25\n#fields\tts\twho\tn\ts\n#types\ttime\tstring\t\
              count\tset[string]\n25.000000\ta\\x09b\t-\tx,\\x2c\n25.000000\t\\x2d\t3\t(empty)\n\
              #close\t1970-01-01-00-00-25\n",
            ],
        )],
    ),
    // A stream without a row has no file.
    (
        RUN,
        &DATAGRAM,
        b"redef enum Log::ID += { L }; type R: record { n: count &log; }; event zeek_init() \
          { Log::create_stream(L, [$columns=R, $path=\"p\"]); }",
        b"",
        &[(b"p.log", &[])],
    ),
    // Filters and their columns.
    (
        RUN,
        &DATAGRAM,
        b"redef enum Log::ID += { L }; type R: record { a: count &log; b: string &log; }; event \
          zeek_init() { print Log::create_stream(L, [$columns=R, $path=\"x\"]), Log::add_filter(L, \
          [$name=\"f\", $path=\"y\", $include=set(\"b\")]), Log::remove_default_filter(L), Log::write(L, \
          R($a=1, $b=\"q\")); }",
        b"T, T, T, T\n",
        &[(
            b"y.log",
            &[
                PREFIX,
                b"#path\ty\n#open\t1970-01-01-00-00-00\n#fields\tb\n#types\tstring\nq\n#close\t1970-01-01-00-00-25\n",
            ],
        )],
    ),
    // A stream whose filter is gone has no file.
    (
        RUN,
        &DATAGRAM,
        b"redef enum Log::ID += { L }; type R: record { n: count &log; }; event zeek_init() \
          { Log::create_stream(L, [$columns=R, $path=\"x\"]); Log::remove_default_filter(L); \
          Log::write(L, [$n=1]); }",
        b"",
        &[(b"x.log", &[])],
    ),
];

/// What is told of a body that is at fault or spent.
const FAULTS: &[Row] = &[
    // A body that is at fault is told, at the time at which it ran.
    (
        RUN,
        &DATAGRAM,
        b"event zeek_init() { print 1 / 0; } event zeek_done() { local v: vector of count; print \
          v[2]; }",
        b"",
        &[(
            b"reporter.log",
            &[
                PREFIX,
                b"#path\treporter\n#open\t1970-01-01-00-00-00\n#fields\tts\tlevel\tmessage\tlocation\n\
              #types\ttime\tenum\tstring\tstring\n0.000000\tReporter::ERROR\tZeroDivisor\ts.zeek, \
              byte 20\n25.000000\tReporter::ERROR\tNoIndex\ts.zeek, byte 81\n#close\t1970-01-01-00-00-25\n",
            ],
        )],
    ),
    // A fault and a spent budget are told at the byte of what was at fault, also of a body with another behind it.
    (
        RUN,
        &DATAGRAM,
        b"global t: table[count] of count;\nevent zeek_init() { t[1] = 2; print t[5]; }\nevent \
          zeek_init() { print t[1]; }\n",
        b"2\n",
        &[(
            b"reporter.log",
            &[
                PREFIX,
                b"#path\treporter\n#open\t1970-01-01-00-00-00\n#fields\tts\tlevel\tmessage\tlocation\n\
              #types\ttime\tenum\tstring\tstring\n0.000000\tReporter::ERROR\tNoIndex\ts.zeek, byte \
              63\n#close\t1970-01-01-00-00-25\n",
            ],
        )],
    ),
    // A budget that is spent is told at the statement for which no unit is left.
    (
        b"run -b --budget 8 -r c.pcap s.zeek",
        &HEADER,
        b"event zeek_init() { local i = 0; while ( i < 3 ) ++i; print i; }\n",
        b"",
        &[(
            b"reporter.log",
            &[
                PREFIX,
                b"#path\treporter\n#open\t1970-01-01-00-00-00\n#fields\tts\tlevel\tmessage\tlocation\n\
              #types\ttime\tenum\tstring\tstring\n0.000000\tReporter::ERROR\tSpent\ts.zeek, byte \
              54\n#close\t1970-01-01-00-00-00\n",
            ],
        )],
    ),
    // The same of the function of entries that expire, each time that it runs.
    (
        b"run -b --budget 9 -r c.pcap s.zeek",
        EACH_SECOND,
        b"# The function has the whole budget at each turn and costs nothing to begin; where \
          it is spent the entry goes.\nglobal t: table[count] of count &create_expire=2 sec \
          &expire_func=gone;\n\nfunction gone(t: table[count] of count, k: count): interval\n\
          \t{\n\tlocal i = 0;\n\twhile ( i < k )\n\t\t++i;\n\tprint k;\n\treturn 3 sec;\n\t}\n\
          \nevent zeek_init()\n\t{\n\tt[1] = 0;\n\tt[2] = 0;\n\tt[3] = 0;\n\t}\n\nevent zeek_done()\n\
          \t{\n\tprint |t|;\n\t}\n",
        b"1\n2\n3\n1\n2\n1\n2\n1\n2\n2\n",
        &[(
            b"reporter.log",
            &[
                PREFIX,
                b"#path\treporter\n#open\t1970-01-01-00-00-02\n#fields\tts\tlevel\tmessage\tlocation\n\
              #types\ttime\tenum\tstring\tstring\n2.000000\tReporter::ERROR\tSpent\ts.zeek, byte \
              296\n#close\t1970-01-01-00-00-12\n",
            ],
        )],
    ),
    // A fault in such a function.
    (
        RUN,
        EACH_SECOND,
        b"# After a fault in its function the entry goes all the same; the next turn is as ever.\n\
          global t: table[string] of count &create_expire=2 sec &expire_func=gone;\nglobal u: \
          table[count] of count;\n\nfunction gone(t: table[string] of count, k: string): interval\n\
          \t{\n\tprint k;\n\tif ( k == \"b\" )\n\t\tprint u[5];\n\tif ( k == \"c\" )\n\t\tprint \
          1 / |u|;\n\treturn 0 sec;\n\t}\n\nevent zeek_init()\n\t{\n\tt[\"a\"] = 1;\n\tt[\"b\"] \
          = 1;\n\tt[\"c\"] = 1;\n\tt[\"d\"] = 1;\n\t}\n\nevent zeek_done()\n\t{\n\tprint |t|;\n\
          \t}\n",
        b"a\nb\nc\nd\n0\n",
        &[(
            b"reporter.log",
            &[
                PREFIX,
                b"#path\treporter\n#open\t1970-01-01-00-00-02\n#fields\tts\tlevel\tmessage\tlocation\n\
              #types\ttime\tenum\tstring\tstring\n2.000000\tReporter::ERROR\tNoIndex\ts.zeek, byte \
              288\n2.000000\tReporter::ERROR\tZeroDivisor\ts.zeek, byte 319\n#close\t1970-01-01-00-00-12\n",
            ],
        )],
    ),
];

/// What a policy hook keeps out, is told, and writes itself.
const POLICIES: &[Row] = &[
    // A policy hook that breaks keeps its row out.
    (
        RUN,
        &DATAGRAM,
        b"redef enum Log::ID += { L }; type R: record { n: count &log; }; hook few(r: R, id: \
          Log::ID, f: Log::Filter) { if ( r$n > 1 ) break; } event zeek_init() { Log::create_stream(L, \
          [$columns=R, $path=\"p\", $policy=few]); Log::write(L, [$n=1]); Log::write(L, [$n=2]); \
          }",
        b"",
        &[(
            b"p.log",
            &[
                PREFIX,
                b"#path\tp\n#open\t1970-01-01-00-00-00\n#fields\tn\n#types\tcount\n1\n#close\t1970-01-01-00-00-25\n",
            ],
        )],
    ),
    // Each write tells its policy of the filter in a new record, in which a field that the script adds begins
    // with its default; what one body gives to it the next body finds.
    (
        RUN,
        &DATAGRAM,
        b"redef enum Log::ID += { L }; type R: record { n: count &log; m: count &log; }; redef \
          record Log::Filter += { k: count &default=7; }; hook p(r: R, id: Log::ID, f: Log::Filter) \
          { r$n = f$k; f$k = 8; } hook p(r: R, id: Log::ID, f: Log::Filter) { r$m = f$k; } event \
          zeek_init() { Log::create_stream(L, [$columns=R, $path=\"p\", $policy=p]); Log::write(L, \
          [$n=1, $m=1]); Log::write(L, [$n=1, $m=1]); }",
        b"",
        &[(
            b"p.log",
            &[
                PREFIX,
                b"#path\tp\n#open\t1970-01-01-00-00-00\n#fields\tn\tm\n#types\tcount\tcount\n7\t8\n7\t\
              8\n#close\t1970-01-01-00-00-25\n",
            ],
        )],
    ),
    // What a policy hook writes comes before the row that it judges, and the events in the order of the calls.
    (
        RUN,
        &HEADER,
        b"# A policy hook that writes on its own stream: the inner row comes first, the events \
          come in the order of the calls.\nredef enum Log::ID += { L };\ntype R: record { n: \
          count &log; };\nglobal told: event(r: R);\nglobal again = T;\n\nhook policy(r: R, \
          id: Log::ID, f: Log::Filter)\n\t{\n\tif ( again )\n\t\t{\n\t\tagain = F;\n\t\tLog::write(L, \
          R($n=2));\n\t\t}\n\t}\n\nevent told(r: R)\n\t{\n\tprint r$n;\n\t}\n\nevent zeek_init()\n\
          \t{\n\tLog::create_stream(L, [$columns=R, $ev=told, $path=\"w\", $policy=policy]);\n\
          \tLog::write(L, R($n=1));\n\t}\n",
        b"1\n2\n",
        &[(
            b"w.log",
            &[
                PREFIX,
                b"#path\tw\n#open\t1970-01-01-00-00-00\n#fields\tn\n#types\tcount\n2\n1\n#close\t1970-01-01-00-00-00\n",
            ],
        )],
    ),
];

/// Policy hooks that are at fault or go too deep.
const FAULTY_POLICIES: &[Row] = &[
    // A policy hook that always writes goes too deep, and no row comes of it.
    (
        RUN,
        &HEADER,
        b"# A policy hook without a guard that writes on its own stream: no row, and one fault.\n\
          redef enum Log::ID += { L };\ntype R: record { n: count &log; };\n\nhook policy(r: \
          R, id: Log::ID, f: Log::Filter)\n\t{\n\tLog::write(L, R($n=2));\n\t}\n\nevent zeek_init()\n\
          \t{\n\tLog::create_stream(L, [$columns=R, $path=\"w\", $policy=policy]);\n\tLog::write(L, \
          R($n=1));\n\t}\n",
        b"",
        &[
            (b"w.log", &[]),
            (
                b"reporter.log",
                &[
                    PREFIX,
                    b"#path\treporter\n#open\t1970-01-01-00-00-00\n#fields\tts\tlevel\tmessage\tlocation\n\
              #types\ttime\tenum\tstring\tstring\n0.000000\tReporter::ERROR\tDepth\ts.zeek, byte \
              202\n#close\t1970-01-01-00-00-00\n",
                ],
            ),
        ],
    ),
    // With fewer units it is spent before.
    (
        b"run -b --budget 7 -r c.pcap s.zeek",
        &HEADER,
        b"# A policy hook without a guard that writes on its own stream: no row, and one fault.\n\
          redef enum Log::ID += { L };\ntype R: record { n: count &log; };\n\nhook policy(r: \
          R, id: Log::ID, f: Log::Filter)\n\t{\n\tLog::write(L, R($n=2));\n\t}\n\nevent zeek_init()\n\
          \t{\n\tLog::create_stream(L, [$columns=R, $path=\"w\", $policy=policy]);\n\tLog::write(L, \
          R($n=1));\n\t}\n",
        b"",
        &[
            (b"w.log", &[]),
            (
                b"reporter.log",
                &[
                    PREFIX,
                    b"#path\treporter\n#open\t1970-01-01-00-00-00\n#fields\tts\tlevel\tmessage\tlocation\n\
              #types\ttime\tenum\tstring\tstring\n0.000000\tReporter::ERROR\tSpent\ts.zeek, byte \
              202\n#close\t1970-01-01-00-00-00\n",
                ],
            ),
        ],
    ),
    // A fault in a policy hook ends the body that wrote: the rows and events from before stay.
    (
        RUN,
        &HEADER,
        b"# A fault in a policy hook ends the writer's body: no row there, the rows and the \
          event from before stay.\nredef enum Log::ID += { L };\n\ntype R: record { n: count \
          &log; };\n\nglobal told: event(r: R);\n\nfunction check(n: count)\n\t{\n\tlocal v: \
          vector of count;\n\tif ( n == 1 )\n\t\tv[1] = n;\n\t}\n\nhook bad(r: R, id: Log::ID, \
          f: Log::Filter)\n\t{\n\tcheck(r$n);\n\t}\n\nevent told(r: R)\n\t{\n\tprint \"told\", \
          r$n;\n\t}\n\nevent zeek_init()\n\t{\n\tLog::create_stream(L, [$columns=R, $path=\"good\", \
          $ev=told]);\n\tLog::add_filter(L, [$name=\"bad\", $path=\"bad\", $policy=bad]);\n\t\
          Log::add_filter(L, [$name=\"later\", $path=\"later\"]);\n\tLog::write(L, R($n=2));\n\
          \tLog::write(L, R($n=1));\n\tprint \"not said\";\n\t}\n\nevent zeek_init()\n\t{\n\t\
          print \"next\";\n\t}\n",
        b"next\ntold, 2\ntold, 1\n",
        &[
            (
                b"good.log",
                &[
                    PREFIX,
                    b"#path\tgood\n#open\t1970-01-01-00-00-00\n#fields\tn\n#types\tcount\n2\n1\n#close\t\
              1970-01-01-00-00-00\n",
                ],
            ),
            (
                b"bad.log",
                &[
                    PREFIX,
                    b"#path\tbad\n#open\t1970-01-01-00-00-00\n#fields\tn\n#types\tcount\n2\n#close\t1970-01-01-00-00-00\n",
                ],
            ),
            (
                b"later.log",
                &[
                    PREFIX,
                    b"#path\tlater\n#open\t1970-01-01-00-00-00\n#fields\tn\n#types\tcount\n2\n#close\t1970-01-01-00-00-00\n",
                ],
            ),
            (
                b"reporter.log",
                &[
                    PREFIX,
                    b"#path\treporter\n#open\t1970-01-01-00-00-00\n#fields\tts\tlevel\tmessage\tlocation\n\
              #types\ttime\tenum\tstring\tstring\n0.000000\tReporter::ERROR\tNoIndex\ts.zeek, byte \
              271\n#close\t1970-01-01-00-00-00\n",
                ],
            ),
        ],
    ),
];

/// The text of cells, for each type, and where there is no value.
const CELLS: &[Row] = &[
    // A column of each type.
    (
        RUN,
        &DATAGRAM,
        b"# One column of each type.\nredef enum Log::ID += { L };\n\ntype Color: enum { RED, \
          GREEN };\ntype R: record {\n\tb: bool &log;\n\tc: count &log;\n\ti: int &log;\n\ts: \
          string &log;\n\tt: time &log;\n\thidden: count;\n\tv: interval &log;\n\ta: addr &log;\n\
          \tp: port &log;\n\tn: subnet &log;\n\te: Color &log;\n};\n\nevent zeek_init()\n\t{\n\
          \tLog::create_stream(L, [$columns=R, $path=\"types\"]);\n\t}\n\nevent new_connection(c: \
          connection)\n\t{\n\tLog::write(L, R($b=T, $c=18446744073709551615, $i=-5, $s=\"text\", \
          $t=network_time(), $hidden=9, $v=-1500 msec, $a=10.0.0.1,\n\t    $p=53/udp, $n=10.1.2.3/8, \
          $e=GREEN));\n\t}\n\nevent connection_state_remove(c: connection)\n\t{\n\tLog::write(L, \
          R($b=F, $c=0, $i=9223372036854775807, $s=c$uid, $t=c$start_time - 30 sec, $hidden=9, \
          $v=c$duration, $a=c$id$resp_h,\n\t    $p=0/tcp, $n=1.2.3.4/32, $e=RED));\n\t}\n",
        b"",
        &[(
            b"types.log",
            &[
                PREFIX,
                b"#path\ttypes\n#open\t1970-01-01-00-00-25\n#fields\tb\tc\ti\ts\tt\tv\ta\tp\tn\te\n#types\t\
              bool\tcount\tint\tstring\ttime\tinterval\taddr\tport\tsubnet\tenum\nT\t18446744073709551615\t\
              -5\ttext\t25.000000\t-1.500000\t10.0.0.1\t53\t10.0.0.0/8\tGREEN\nF\t0\t9223372036854775807\t\
              C1\t-5.000000\t0.000000\t10.0.0.80\t0\t1.2.3.4/32\tRED\n#close\t1970-01-01-00-00-25\n",
            ],
        )],
    ),
    // No value is `-`, and an empty string or container `(empty)`.
    (
        RUN,
        &HEADER,
        b"# Unset values are -, empty strings and containers (empty); a default stands where \
          nothing was given.\nredef enum Log::ID += { L };\n\ntype Inner: record { x: count \
          &log &optional; };\ntype R: record {\n\tn: count &log;\n\ts: string &log &optional;\n\
          \td: string &log &default=\"def\";\n\te: count &log &optional &default=7;\n\tu: set[count] \
          &log;\n\tv: vector of string &log &optional;\n\tw: vector of string &log;\n\ti: Inner \
          &log &optional;\n\ta: addr &log &optional;\n};\n\nevent zeek_init()\n\t{\n\tLog::create_stream(L, \
          [$columns=R, $path=\"w\"]);\n\tLog::write(L, R($n=1));\n\tLog::write(L, R($n=2, $s=\"\", \
          $d=\"\", $v=vector(), $i=Inner()));\n\tlocal r = R($n=3, $s=\"s\", $v=vector(\"\", \
          \"x\"), $w=vector(\"\"), $i=Inner($x=5), $a=1.2.3.4);\n\tadd r$u[4];\n\tLog::write(L, \
          r);\n\tr$w = vector(\"\", \"\");\n\tdelete r$u[4];\n\tLog::write(L, r);\n\t}\n",
        b"",
        &[(
            b"w.log",
            &[
                PREFIX,
                b"#path\tw\n#open\t1970-01-01-00-00-00\n#fields\tn\ts\td\te\tu\tv\tw\ti.x\ta\n#types\t\
              count\tstring\tstring\tcount\tset[count]\tvector[string]\tvector[string]\tcount\taddr\n\
              1\t-\tdef\t7\t(empty)\t-\t(empty)\t-\t-\n2\t(empty)\t(empty)\t7\t(empty)\t(empty)\t\
              (empty)\t-\t-\n3\ts\tdef\t7\t4\t,x\t\t5\t1.2.3.4\n3\ts\tdef\t7\t(empty)\t,x\t,\t5\t\
              1.2.3.4\n#close\t1970-01-01-00-00-00\n",
            ],
        )],
    ),
];

/// The text of strings.
const ESCAPES: &[Row] = &[
    // Escapes of strings, alone and within a vector and a set.
    (
        RUN,
        &HEADER,
        b"# How strings are escaped, alone and within a vector and a set.\nredef enum Log::ID \
          += { L };\n\nredef enum Log::ID += { M };\ntype R: record { s: string &log; n: count \
          &log; };\ntype S: record { v: vector of string &log; s: set[string] &log; };\n\nevent \
          zeek_init()\n\t{\n\tLog::create_stream(L, [$columns=R, $path=\"alone\"]);\n\tLog::create_stream(M, \
          [$columns=S, $path=\"within\"]);\n\tlocal n = 0;\n\tLog::write(L, R($s=\"\", $n=++n));\n\
          \tLog::write(L, R($s=\"-\", $n=++n));\n\tLog::write(L, R($s=\"(empty)\", $n=++n));\n\
          \tLog::write(L, R($s=\"\\t\", $n=++n));\n\tLog::write(L, R($s=\"\\\\\", $n=++n));\n\
          \tLog::write(L, R($s=\"\\xff\", $n=++n));\n\tLog::write(L, R($s=\"#x\", $n=++n));\n\
          \tLog::write(L, R($s=\"x#\", $n=++n));\n\tLog::write(L, R($s=\"a,b\", $n=++n));\n\t\
          Log::write(L, R($s=\"\\x7f\", $n=++n));\n\tLog::write(L, R($s=\"\\n\\r\", $n=++n));\n\
          \tLog::write(L, R($s=\"--\", $n=++n));\n\tLog::write(L, R($s=\" \", $n=++n));\n\tLog::write(L, \
          R($s=\"(empty) \", $n=++n));\n\tLog::write(L, R($s=\"-x\", $n=++n));\n\tLog::write(L, \
          R($s=\"\\xc3\\xa9\", $n=++n));\n\tLog::write(L, R($s=\"\\x00\\x1f\\x20~\", $n=++n));\n\
          \tLog::write(L, R($s=\"\\\"quoted\\\"\", $n=++n));\n\tLog::write(L, R($s=\"##\", $n=++n));\n\
          \tLog::write(L, R($s=\"#\", $n=++n));\n\tLog::write(L, R($s=\"\\\\x41\", $n=++n));\n\
          \tLog::write(L, R($s=\"\xc3\xa9\", $n=++n));\n\tLog::write(L, R($s=\"a\\tb\", $n=++n));\n\
          \tLog::write(M, S($v=vector(\"a,b\"), $s=set(\"a,b\")));\n\tLog::write(M, S($v=vector(\"\"), \
          $s=set(\"\")));\n\tLog::write(M, S($v=vector(\"\", \"\"), $s=set(\"\", \"\")));\n\t\
          Log::write(M, S($v=vector(\"-\"), $s=set(\"-\")));\n\tLog::write(M, S($v=vector(\"(empty)\", \
          \"-\"), $s=set(\"(empty)\", \"-\")));\n\tLog::write(M, S($v=vector(\"#a\", \"b#\", \
          \"#\"), $s=set(\"#a\", \"b#\", \"#\")));\n\tLog::write(M, S($v=vector(\"\\\\\", \"\\t\", \
          \"\\xff\"), $s=set(\"\\\\\", \"\\t\", \"\\xff\")));\n\tLog::write(M, S($v=vector(\",\", \
          \",,\"), $s=set(\",\", \",,\")));\n\tLog::write(M, S($v=vector(\"a\", \"\", \"b\"), \
          $s=set(\"a\", \"\", \"b\")));\n\tLog::write(M, S($v=vector(\" \"), $s=set(\" \")));\n\
          \t}\n",
        b"",
        &[
            (
                b"alone.log",
                &[
                    PREFIX,
                    b"#path\talone\n#open\t1970-01-01-00-00-00\n#fields\ts\tn\n#types\tstring\tcount\n(empty)\t\
              1\n\\x2d\t2\n\\x28empty)\t3\n\\x09\t4\n\\x5c\t5\n\\xff\t6\n\\x23x\t7\nx#\t8\na,b\t\
              9\n\\x7f\t10\n\\x0a\\x0d\t11\n--\t12\n \t13\n(empty) \t14\n-x\t15\n\\xc3\\xa9\t16\n\
              \\x00\\x1f ~\t17\n\"quoted\"\t18\n\\x23#\t19\n\\x23\t20\n\\x5cx41\t21\n\\xc3\\xa9\t\
              22\na\\x09b\t23\n#close\t1970-01-01-00-00-00\n",
                ],
            ),
            (
                b"within.log",
                &[
                    PREFIX,
                    b"#path\twithin\n#open\t1970-01-01-00-00-00\n#fields\tv\ts\n#types\tvector[string]\t\
              set[string]\na\\x2cb\ta\\x2cb\n\t\n,\t\n\\x2d\t\\x2d\n\\x28empty),\\x2d\t\\x28empty),\\x2d\n\
              \\x23a,b#,\\x23\t\\x23a,b#,\\x23\n\\x5c,\\x09,\\xff\t\\x5c,\\x09,\\xff\n\\x2c,\\x2c\\x2c\t\
              \\x2c,\\x2c\\x2c\na,,b\ta,,b\n \t \n#close\t1970-01-01-00-00-00\n",
                ],
            ),
        ],
    ),
];

/// The text of a string of all bytes.
const EVERY_BYTE: &[Row] = &[
    // Every byte.
    (
        RUN,
        &HEADER,
        b"redef enum Log::ID += { L };\ntype R: record { s: string &log; v: vector of string \
          &log; w: set[string] &log; };\nconst all = \"\\x00\\x01\\x02\\x03\\x04\\x05\\x06\\x07\\x08\\x09\\x0a\\x0b\\x0c\\\
          x0d\\x0e\\x0f\\x10\\x11\\x12\\x13\\x14\\x15\\x16\\x17\\x18\\x19\\x1a\\x1b\\x1c\\x1d\\x1e\\x1f\\x20\\x21\\x22\\x2\
          3\\x24\\x25\\x26\\x27\\x28\\x29\\x2a\\x2b\\x2c\\x2d\\x2e\\x2f\\x30\\x31\\x32\\x33\\x34\\x35\\x36\\x37\\x38\\x39\\\
          x3a\\x3b\\x3c\\x3d\\x3e\\x3f\\x40\\x41\\x42\\x43\\x44\\x45\\x46\\x47\\x48\\x49\\x4a\\x4b\\x4c\\x4d\\x4e\\x4f\\x5\
          0\\x51\\x52\\x53\\x54\\x55\\x56\\x57\\x58\\x59\\x5a\\x5b\\x5c\\x5d\\x5e\\x5f\\x60\\x61\\x62\\x63\\x64\\x65\\x66\\\
          x67\\x68\\x69\\x6a\\x6b\\x6c\\x6d\\x6e\\x6f\\x70\\x71\\x72\\x73\\x74\\x75\\x76\\x77\\x78\\x79\\x7a\\x7b\\x7c\\x7\
          d\\x7e\\x7f\\x80\\x81\\x82\\x83\\x84\\x85\\x86\\x87\\x88\\x89\\x8a\\x8b\\x8c\\x8d\\x8e\\x8f\\x90\\x91\\x92\\x93\\\
          x94\\x95\\x96\\x97\\x98\\x99\\x9a\\x9b\\x9c\\x9d\\x9e\\x9f\\xa0\\xa1\\xa2\\xa3\\xa4\\xa5\\xa6\\xa7\\xa8\\xa9\\xa\
          a\\xab\\xac\\xad\\xae\\xaf\\xb0\\xb1\\xb2\\xb3\\xb4\\xb5\\xb6\\xb7\\xb8\\xb9\\xba\\xbb\\xbc\\xbd\\xbe\\xbf\\xc0\\\
          xc1\\xc2\\xc3\\xc4\\xc5\\xc6\\xc7\\xc8\\xc9\\xca\\xcb\\xcc\\xcd\\xce\\xcf\\xd0\\xd1\\xd2\\xd3\\xd4\\xd5\\xd6\\xd\
          7\\xd8\\xd9\\xda\\xdb\\xdc\\xdd\\xde\\xdf\\xe0\\xe1\\xe2\\xe3\\xe4\\xe5\\xe6\\xe7\\xe8\\xe9\\xea\\xeb\\xec\\xed\\\
          xee\\xef\\xf0\\xf1\\xf2\\xf3\\xf4\\xf5\\xf6\\xf7\\xf8\\xf9\\xfa\\xfb\\xfc\\xfd\\xfe\\xff\";\n\
          event zeek_init() { Log::create_stream(L, [$columns=R, $path=\"w\"]); Log::write(L, \
          R($s=all, $v=vector(all), $w=set(all))); }\n",
        b"",
        &[(
            b"w.log",
            &[
                PREFIX,
                b"#path\tw\n#open\t1970-01-01-00-00-00\n#fields\ts\tv\tw\n#types\tstring\tvector[string]\t\
              set[string]\n\\x00\\x01\\x02\\x03\\x04\\x05\\x06\\x07\\x08\\x09\\x0a\\x0b\\x0c\\x0d\\x0e\\x0f\\x10\\x11\\x12\\x1\
              3\\x14\\x15\\x16\\x17\\x18\\x19\\x1a\\x1b\\x1c\\x1d\\x1e\\x1f !\"#$%&'()*+,-./0123456789:;<=>?@ABCDEFGHIJKLMNOPQ\
              RSTUVWXYZ[\\x5c]^_`abcdefghijklmnopqrstuvwxyz{|}~\\x7f\\x80\\x81\\x82\\x83\\x84\\x85\\x86\\x87\\x88\\x89\\x8a\\x\
              8b\\x8c\\x8d\\x8e\\x8f\\x90\\x91\\x92\\x93\\x94\\x95\\x96\\x97\\x98\\x99\\x9a\\x9b\\x9c\\x9d\\x9e\\x9f\\xa0\\xa1\
              \\xa2\\xa3\\xa4\\xa5\\xa6\\xa7\\xa8\\xa9\\xaa\\xab\\xac\\xad\\xae\\xaf\\xb0\\xb1\\xb2\\xb3\\xb4\\xb5\\xb6\\xb7\\\
              xb8\\xb9\\xba\\xbb\\xbc\\xbd\\xbe\\xbf\\xc0\\xc1\\xc2\\xc3\\xc4\\xc5\\xc6\\xc7\\xc8\\xc9\\xca\\xcb\\xcc\\xcd\\xc\
              e\\xcf\\xd0\\xd1\\xd2\\xd3\\xd4\\xd5\\xd6\\xd7\\xd8\\xd9\\xda\\xdb\\xdc\\xdd\\xde\\xdf\\xe0\\xe1\\xe2\\xe3\\xe4\\\
              xe5\\xe6\\xe7\\xe8\\xe9\\xea\\xeb\\xec\\xed\\xee\\xef\\xf0\\xf1\\xf2\\xf3\\xf4\\xf5\\xf6\\xf7\\xf8\\xf9\\xfa\\xf\
              b\\xfc\\xfd\\xfe\\xff\t\\x00\\x01\\x02\\x03\\x04\\x05\\x06\\x07\\x08\\x09\\x0a\\x0b\\x0c\\x0d\\x0e\\x0f\\x10\\x1\
              1\\x12\\x13\\x14\\x15\\x16\\x17\\x18\\x19\\x1a\\x1b\\x1c\\x1d\\x1e\\x1f !\"#$%&'()*+\\x2c-./0123456789:;<=>?@ABC\
              DEFGHIJKLMNOPQRSTUVWXYZ[\\x5c]^_`abcdefghijklmnopqrstuvwxyz{|}~\\x7f\\x80\\x81\\x82\\x83\\x84\\x85\\x86\\x87\\x8\
              8\\x89\\x8a\\x8b\\x8c\\x8d\\x8e\\x8f\\x90\\x91\\x92\\x93\\x94\\x95\\x96\\x97\\x98\\x99\\x9a\\x9b\\x9c\\x9d\\x9e\\\
              x9f\\xa0\\xa1\\xa2\\xa3\\xa4\\xa5\\xa6\\xa7\\xa8\\xa9\\xaa\\xab\\xac\\xad\\xae\\xaf\\xb0\\xb1\\xb2\\xb3\\xb4\\xb\
              5\\xb6\\xb7\\xb8\\xb9\\xba\\xbb\\xbc\\xbd\\xbe\\xbf\\xc0\\xc1\\xc2\\xc3\\xc4\\xc5\\xc6\\xc7\\xc8\\xc9\\xca\\xcb\\\
              xcc\\xcd\\xce\\xcf\\xd0\\xd1\\xd2\\xd3\\xd4\\xd5\\xd6\\xd7\\xd8\\xd9\\xda\\xdb\\xdc\\xdd\\xde\\xdf\\xe0\\xe1\\xe\
              2\\xe3\\xe4\\xe5\\xe6\\xe7\\xe8\\xe9\\xea\\xeb\\xec\\xed\\xee\\xef\\xf0\\xf1\\xf2\\xf3\\xf4\\xf5\\xf6\\xf7\\xf8\\\
              xf9\\xfa\\xfb\\xfc\\xfd\\xfe\\xff\t\\x00\\x01\\x02\\x03\\x04\\x05\\x06\\x07\\x08\\x09\\x0a\\x0b\\x0c\\x0d\\x0e\\\
              x0f\\x10\\x11\\x12\\x13\\x14\\x15\\x16\\x17\\x18\\x19\\x1a\\x1b\\x1c\\x1d\\x1e\\x1f \
              !\"#$%&'()*+\\x2c-./0123456789:;<=>?@ABCDEFGHIJKLMNOPQRSTUVWXYZ[\\x5c]^_`abcdefghijklmnopqrstuvwxyz{|}~\\x7f\\x8\
              0\\x81\\x82\\x83\\x84\\x85\\x86\\x87\\x88\\x89\\x8a\\x8b\\x8c\\x8d\\x8e\\x8f\\x90\\x91\\x92\\x93\\x94\\x95\\x96\\\
              x97\\x98\\x99\\x9a\\x9b\\x9c\\x9d\\x9e\\x9f\\xa0\\xa1\\xa2\\xa3\\xa4\\xa5\\xa6\\xa7\\xa8\\xa9\\xaa\\xab\\xac\\xa\
              d\\xae\\xaf\\xb0\\xb1\\xb2\\xb3\\xb4\\xb5\\xb6\\xb7\\xb8\\xb9\\xba\\xbb\\xbc\\xbd\\xbe\\xbf\\xc0\\xc1\\xc2\\xc3\\\
              xc4\\xc5\\xc6\\xc7\\xc8\\xc9\\xca\\xcb\\xcc\\xcd\\xce\\xcf\\xd0\\xd1\\xd2\\xd3\\xd4\\xd5\\xd6\\xd7\\xd8\\xd9\\xd\
              a\\xdb\\xdc\\xdd\\xde\\xdf\\xe0\\xe1\\xe2\\xe3\\xe4\\xe5\\xe6\\xe7\\xe8\\xe9\\xea\\xeb\\xec\\xed\\xee\\xef\\xf0\\\
              xf1\\xf2\\xf3\\xf4\\xf5\\xf6\\xf7\\xf8\\xf9\\xfa\\xfb\\xfc\\xfd\\xfe\\xff\n#close\t\
              1970-01-01-00-00-00\n",
            ],
        )],
    ),
];

/// That each of these runs says its lines and writes its files.
fn each_writes(alloc: Global, rows: &[Row]) -> Result<(), Fail> {
    for (n, (line, capture, script, said, files)) in rows.iter().enumerate() {
        let case = Case {
            line,
            inputs: &[(b"c.pcap", capture), (b"s.zeek", script)],
            status: 0,
            said,
            complained: b"",
            files,
        };
        comes_out(alloc, &case, n)?;
    }
    Ok(())
}

#[test]
fn logs_hold_the_rows_that_scripts_write(rt: HostRuntime) -> Result<(), Fail> {
    let alloc = rt.alloc();
    each_writes(alloc, STREAMS)?;
    each_writes(alloc, FAULTS)?;
    each_writes(alloc, POLICIES)?;
    each_writes(alloc, FAULTY_POLICIES)?;
    each_writes(alloc, CELLS)?;
    each_writes(alloc, ESCAPES)?;
    each_writes(alloc, EVERY_BYTE)
}
