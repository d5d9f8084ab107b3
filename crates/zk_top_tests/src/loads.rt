use crate::case::{Case, each_comes_out};
use crate::defaults::{CLOSE, CONN, DNS};
use crate::lists::QUERY;
use crate::logs::PREFIX;
use crate::runs::{CUT, DATAGRAM, HEADER};
use std::test::Fail;

/// Files that load others stand where they are loaded first.
const LOADED: &[Case] = &[
    // A loaded file stands in the place of its first `@load`, once. A name is what the text says: `./c` and `c` are two files.
    Case {
        line: b"run -b -r c.pcap a.zeek s.zeek",
        inputs: &[
            (b"c.pcap", &HEADER),
            (
                b"a.zeek",
                b"event zeek_init() { print \"a, before\"; }\n@load b.zeek\n@load ./c\nevent zeek_init() \
              { print \"a, after\"; }\n",
            ),
            (b"b.zeek", b"@load c\nevent zeek_init() { print \"b\"; }\n"),
            (b"c", b"event zeek_init() { print \"c\"; }\n"),
            (b"./c", b"event zeek_init() { print \"c\"; }\n"),
            (
                b"s.zeek",
                b"event zeek_init() { print \"s\"; }\n@load b.zeek\n",
            ),
        ],
        status: 0,
        said: b"a, before\nc\nb\nc\na, after\ns\n",
        complained: b"",
        files: &[],
    },
    // Files may load each other.
    Case {
        line: b"run -b -r c.pcap s.zeek",
        inputs: &[
            (b"c.pcap", &HEADER),
            (
                b"s.zeek",
                b"@load t.zeek\nglobal a = b + 1;\nevent zeek_init() { print \"s\", a, b, c; }\n",
            ),
            (
                b"t.zeek",
                b"@load u.zeek\nglobal b = c * 2;\nevent zeek_init() { print \"t\"; }\n",
            ),
            (
                b"u.zeek",
                b"@load s.zeek\n@load t.zeek\nglobal c = 5;\nevent zeek_init() { print \"u\"; }\n",
            ),
        ],
        status: 0,
        said: b"u\nt\ns, 11, 10, 5\n",
        complained: b"",
        files: &[],
    },
    Case {
        line: b"run -b -r c.pcap s.zeek lib.zeek s.zeek",
        inputs: &[
            (b"c.pcap", &HEADER),
            (
                b"lib.zeek",
                b"global x = 7;\nevent zeek_init() { print \"lib\"; }\n",
            ),
            (
                b"s.zeek",
                b"# A name that was read already isn't read again, as a script either. Blanks and a \
              comment after the name are passed over.\n@load lib.zeek\n@load   lib.zeek\t # again\n\
              \t@load lib.zeek\nevent zeek_init() { print x, \"s\"; }\n",
            ),
        ],
        status: 0,
        said: b"lib\n7, s\n",
        complained: b"",
        files: &[],
    },
    // Names under `base/` are passed over.
    Case {
        line: b"run -b -r c.pcap s.zeek",
        inputs: &[
            (b"c.pcap", &HEADER),
            (
                b"s.zeek",
                b"@load base/conn.zeek\n@load base/nothing/there\nevent zeek_init() { print \"s\"; }\n",
            ),
        ],
        status: 0,
        said: b"s\n",
        complained: b"",
        files: &[],
    },
];

/// What of a file is seen in others.
const EXPORTED: &[Case] = &[
    // What is loaded in an `export` is exported, in the modules that its file names.
    Case {
        line: b"run -b -r c.pcap s.zeek",
        inputs: &[
            (b"c.pcap", &HEADER),
            (
                b"lib.zeek",
                b"global x = 5;\nmodule Lib;\nglobal y = 6;\nfunction f(n: count): count { return n \
              + y; }\ntype R: record { n: count; };\n",
            ),
            (
                b"s.zeek",
                b"module M;\nexport {\n@load lib.zeek\n}\nmodule N;\nevent zeek_init() { print x, Lib::y, \
              Lib::f(4), Lib::R($n=3)$n; }\n",
            ),
        ],
        status: 0,
        said: b"5, 6, 10, 3\n",
        complained: b"",
        files: &[],
    },
    // A name that is not exported is seen in its own module alone.
    Case {
        line: b"run -b -r c.pcap s.zeek",
        inputs: &[
            (b"c.pcap", &HEADER),
            (
                b"lib.zeek",
                b"module Lib;\nexport { global shown = 1; }\nglobal hidden = 2;\n",
            ),
            (
                b"s.zeek",
                b"@load lib.zeek\nevent zeek_init() { print Lib::hidden; }\n",
            ),
        ],
        status: 2,
        said: b"",
        complained: b"zeekoff: s.zeek, byte 41: Unknown\n",
        files: &[],
    },
    // Twice in one module, in two files.
    Case {
        line: b"run -b -r c.pcap s.zeek",
        inputs: &[
            (b"c.pcap", &HEADER),
            (
                b"a.zeek",
                b"module A;\nexport { global x = 1; }\nmodule B;\nglobal x = 2;\n",
            ),
            (b"b.zeek", b"module B;\nglobal x = 3;\n"),
            (b"s.zeek", b"@load a.zeek\n@load b.zeek\n"),
        ],
        status: 2,
        said: b"",
        complained: b"zeekoff: b.zeek, byte 10: Twice\n",
        files: &[],
    },
];

/// What another file has made is used by its whole name.
const WHOLE_NAMES: &[Case] = &[
    // Another module's events, hooks, functions, types and streams are used by their whole names.
    Case {
        line: b"run -b -r c.pcap s.zeek",
        inputs: &[
            (b"c.pcap", &HEADER),
            (
                b"counter.zeek",
                b"module Counter;\n\nexport {\n\ttype Kind: enum { FIRST };\n\ttype Info: record { n: \
              count &log; kind: Kind &log; };\n\tredef enum Log::ID += { LOG };\n\tconst start = \
              0 &redef;\n\tglobal total: count;\n\tglobal bump: function(n: count);\n\tglobal bumped: \
              event(n: count);\n\tglobal allow: hook(n: count);\n}\n\nevent zeek_init() &priority=10\n\
              \t{\n\ttotal = start;\n\tLog::create_stream(LOG, [$columns=Info]);\n\t}\n\nfunction \
              bump(n: count)\n\t{\n\tlocal i = 0;\n\twhile ( ++i <= n )\n\t\tif ( hook allow(i + \
              n) )\n\t\t\t{\n\t\t\t++total;\n\t\t\tevent bumped(total);\n\t\t\t}\n\t\telse\n\t\t\
              \tprint \"not allowed\", i;\n\t}\n\nevent bumped(n: count)\n\t{\n\tprint \"counter\", \
              n;\n\t}\n\nevent zeek_done()\n\t{\n\tbump(1);\n\tLog::write(LOG, [$n=total, $kind=FIRST]);\n\
              \t}\n",
            ),
            (
                b"s.zeek",
                b"# A file uses another's exported event, hook, function, types and stream.\n@load counter.zeek\n\
              \nevent zeek_init()\n\t{\n\tCounter::bump(2);\n\tschedule 1 sec { Counter::bumped(9) \
              };\n\tLog::write(Counter::LOG, Counter::Info($n=Counter::total, $kind=OTHER));\n\t\
              }\n\nevent Counter::bumped(n: count) &priority=3\n\t{\n\tprint \"s\", n;\n\t}\n\nhook \
              Counter::allow(n: count)\n\t{\n\tif ( n > 3 )\n\t\tbreak;\n\t}\n\nredef Counter::start \
              = 100;\nredef enum Counter::Kind += { OTHER };\nredef record Counter::Info += { extra: \
              string &log &default=\"x\"; };\n",
            ),
        ],
        status: 0,
        said: b"not allowed, 2\ns, 101\ncounter, 101\ns, 9\ncounter, 9\ns, 102\ncounter, 102\n",
        complained: b"",
        files: &[(
            b"counter.log",
            &[
                PREFIX,
                b"#path\tcounter\n#open\t1970-01-01-00-00-00\n#fields\tn\tkind\textra\n#types\tcount\t\
              enum\tstring\n101\tOTHER\tx\n102\tCounter::FIRST\tx\n#close\t1970-01-01-00-00-00\n",
            ],
        )],
    },
];

/// In which file a fault or a broken rule is told.
const FAULTS: &[Case] = &[
    // A fault is told with the file of its statement, also that of an initial value.
    Case {
        line: b"run -b -r c.pcap s.zeek",
        inputs: &[
            (b"c.pcap", &DATAGRAM),
            (
                b"lib.zeek",
                b"const zero = 0;\n\nfunction get(n: count): count\n\t{\n\tlocal v = vector(1, 2);\n\
              \tif ( n == 0 )\n\t\treturn v[2];\n\treturn v[n];\n\t}\n\nevent faulty(n: count)\n\
              \t{\n\tprint \"not said\";\n\t}\n\nevent new_connection(c: connection)\n\t{\n\tprint \
              \"lib\";\n\tprint bad;\n\t}\n",
            ),
            (
                b"s.zeek",
                b"# The place of a fault is in the file of the statement, or of the global, that it \
              stands in.\n@load lib.zeek\n\nevent new_connection(c: connection)\n\t{\n\tevent faulty(get(0));\n\
              \tprint \"s\", get(1);\n\t}\n\nevent new_connection(c: connection)\n\t{\n\tprint get(0);\n\
              \t}\n\nglobal bad: count = 5 / zero;\n",
            ),
        ],
        status: 0,
        said: b"lib\n",
        complained: b"",
        files: &[(
            b"reporter.log",
            &[
                PREFIX,
                b"#path\treporter\n#open\t1970-01-01-00-00-00\n#fields\tts\tlevel\tmessage\tlocation\n\
              #types\ttime\tenum\tstring\tstring\n0.000000\tReporter::ERROR\tZeroDivisor\ts.zeek, \
              byte 253\n25.000000\tReporter::ERROR\tUnset\tlib.zeek, byte 226\n25.000000\tReporter::ERROR\t\
              NoIndex\tlib.zeek, byte 92\n25.000000\tReporter::ERROR\tNoIndex\tlib.zeek, byte 92\n\
              #close\t1970-01-01-00-00-25\n",
            ],
        )],
    },
    // The first rule that is broken is told, in the order of the declarations.
    Case {
        line: b"run -b -r c.pcap s.zeek t.zeek",
        inputs: &[
            (b"c.pcap", &HEADER),
            (b"a.zeek", b"global c = 2;\nglobal d: count = \"d\";\n"),
            (
                b"s.zeek",
                b"global a = 1;\n@load a.zeek\nglobal b: count = \"b\";\n",
            ),
            (b"t.zeek", b"global e = f;\n"),
        ],
        status: 2,
        said: b"",
        complained: b"zeekoff: a.zeek, byte 32: WrongType\n",
        files: &[],
    },
];

/// In which order files are asked for and judged.
const REFUSED: &[Case] = &[
    // A file that is not there ends the run before anything is checked or runs.
    Case {
        line: b"run -b -r c.pcap s.zeek",
        inputs: &[
            (b"c.pcap", &HEADER),
            (
                b"s.zeek",
                b"event zeek_init() { print \"s\"; }\n@load missing.zeek\n",
            ),
        ],
        status: 9,
        said: b"",
        complained: b"zeekoff: no file missing.zeek\n",
        files: &[],
    },
    Case {
        line: b"run -b -r c.pcap s.zeek t.zeek",
        inputs: &[
            (b"c.pcap", &HEADER),
            (b"a.zeek", b"global x: count = \"typed wrong\";\n"),
            (b"s.zeek", b"@load a.zeek\n@load missing\n"),
            (b"t.zeek", b"no tree\n"),
        ],
        status: 9,
        said: b"",
        complained: b"zeekoff: no file missing\n",
        files: &[],
    },
    // The tokens and the tree of a file are judged before those that it loads are asked for.
    Case {
        line: b"run -b -r c.pcap s.zeek",
        inputs: &[
            (b"c.pcap", &HEADER),
            (b"a.zeek", b"\"open\n"),
            (b"s.zeek", b"@load a.zeek\nprint 1;\n"),
        ],
        status: 2,
        said: b"",
        complained: b"zeekoff: s.zeek, byte 13: NoTree\n",
        files: &[],
    },
    Case {
        line: b"run -b -r c.pcap s.zeek t.zeek missing.zeek",
        inputs: &[
            (b"c.pcap", &HEADER),
            (b"a.zeek", b"event zeek_init() { }\n\"open\n"),
            (
                b"s.zeek",
                b"global x: count = \"typed wrong\";\n@load a.zeek\n",
            ),
            (b"t.zeek", b".\n"),
        ],
        status: 2,
        said: b"",
        complained: b"zeekoff: a.zeek, byte 22: OpenString\n",
        files: &[],
    },
];

/// A capture that is cut.
const CUT_SHORT: &[Case] = &[
    // The logs of a capture that is cut are closed behind its whole records.
    Case {
        line: b"run -b -r c.pcap s.zeek",
        inputs: &[
            (b"c.pcap", &CUT),
            (
                b"s.zeek",
                b"# After a cut the logs of the whole records' items are closed.\nredef enum Log::ID \
              += { L };\ntype R: record { t: time &log; caplen: count &log; };\n\nevent zeek_init()\n\
              \t{\n\tLog::create_stream(L, [$columns=R, $path=\"seen\"]);\n\t}\n\nevent packet_seen(t: \
              time, caplen: count, len: count)\n\t{\n\tLog::write(L, R($t=t, $caplen=caplen));\n\
              \t}\n",
            ),
        ],
        status: 4,
        said: b"",
        complained: b"zeekoff: c.pcap cut at byte 42\n",
        files: &[(
            b"seen.log",
            &[
                PREFIX,
                b"#path\tseen\n#open\t1970-01-01-00-00-01\n#fields\tt\tcaplen\n#types\ttime\tcount\n\
              1.000000\t2\n#close\t1970-01-01-00-00-01\n",
            ],
        )],
    },
];

/// Scripts beside the default ones.
const BESIDE_DEFAULTS: &[Case] = &[
    // Scripts beside the default ones, which come first; priorities go over all files.
    Case {
        line: b"run -r c.pcap a.zeek b.zeek",
        inputs: &[
            (b"c.pcap", QUERY),
            (
                b"a.zeek",
                b"# The default scripts come first, then each script; priorities go over all files.\n\
              event connection_state_remove(c: connection) &priority=-5\n\t{\n\tprint \"a\", c$missed_bytes;\n\
              \t}\n\nevent dns_end(c: connection, msg: dns_msg) &priority=-4\n\t{\n\tprint \"a sees\", \
              msg$id in c$dns;\n\t}\n",
            ),
            (
                b"b.zeek",
                b"event connection_state_remove(c: connection)\n\t{\n\tprint \"b\";\n\tc$missed_bytes \
              += 3;\n\t}\n\nevent dns_end(c: connection, msg: dns_msg) &priority=-5\n\t{\n\tprint \
              \"b sees\", msg$id in c$dns;\n\t}\n",
            ),
        ],
        status: 0,
        said: b"a sees, T\nb sees, T\na sees, T\nb sees, F\nb\na, 3\n",
        complained: b"",
        files: &[
            (
                b"conn.log",
                &[
                    CONN,
                    b"1700000000.000000\tC1\t10.0.0.1\t40000\t10.0.0.53\t53\tudp\t0.020000\t33\t63\tSF\t\
                  3\tDd\t1\t61\t1\t91\n",
                    CLOSE,
                ],
            ),
            (
                b"dns.log",
                &[
                    DNS,
                    b"1700000000.000000\tC1\t10.0.0.1\t40000\t10.0.0.53\t53\tudp\t4660\twww.example.com\t\
                  1\t1\t0\tF\tF\tT\tT\texample.com,93.184.216.34\t300.000000,300.000000\n",
                    CLOSE,
                ],
            ),
        ],
    },
];

#[test]
fn scripts_are_read_in_order_each_followed_by_what_it_loads(rt: HostRuntime) -> Result<(), Fail> {
    let alloc = rt.alloc();
    each_comes_out(alloc, LOADED)?;
    each_comes_out(alloc, EXPORTED)?;
    each_comes_out(alloc, WHOLE_NAMES)?;
    each_comes_out(alloc, FAULTS)?;
    each_comes_out(alloc, REFUSED)?;
    each_comes_out(alloc, CUT_SHORT)?;
    each_comes_out(alloc, BESIDE_DEFAULTS)
}
