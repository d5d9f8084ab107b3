//! Scripts that break the other rules: of fields, constants, calls, returns, loops, attributes and texts.
//!
//! A line holds the byte at which the rule is told, and behind a blank the script. One that begins with `#` says
//! what the next ones show.

/// Scripts that break the rule `Field` first.
pub const FIELD: &str = r#"# A field that the record lacks: the whole expression, or the item's `$`.
53 event connection_state_remove(c: connection) { print c$nosuch; }
53 event connection_state_remove(c: connection) { print c$id$nosuch; }
53 event connection_state_remove(c: connection) { print c?$nosuch; }
47 event connection_state_remove(c: connection) { c$nosuch = 1; }
68 type R: record { a: count; }; event zeek_init() { local r = R($a=1, $b=2); }
51 type R: record { a: count; }; global r: R = [$a=1, $b=2];
# A constructor without a field that has to be given.
60 type R: record { a: count; }; event zeek_init() { local r = R(); }
55 type R: record { a: count; b: string; }; global r: R = [$a=1];
44 type R: record { a: count; }; global r: R = [];
86 type R: record { a: count; }; type S: record { r: R; }; event zeek_init() { local s = S(); }
# The settings of a log call: one that there is not, and one that has to be given.
119 redef enum Log::ID += { L }; type R: record { a: count &log; }; event zeek_init() { Log::create_stream(L, [$columns=R, $nosuch=1]); }
151 redef enum Log::ID += { L }; type R: record { a: count &log; }; event zeek_init() { Log::create_stream(L, [$columns=R, $path="p"]); Log::add_filter(L, [$path="q"]); }
# Such a field added to a record that is predefined.
29 redef record connection += { a: count; };
46 redef record conn_id += { a: count &optional; b: string &log; };
# A setting that is missing, whatever the others rest on elsewhere.
140 redef enum Log::ID += { L }; type R: record { a: count &log; }; global y = Log::write(L, [$a=1]); event zeek_init() { Log::create_stream(L, [$path=y]); }
"#;

/// Scripts that break the rule `NotConst` first.
pub const NOT_CONST: &str =
    r#"# The value of an attribute is a literal with at most one `-`, or an empty container.
19 hook h() &priority=(1 + 1) { }
41 const k = 5; event zeek_init() &priority=k { }
28 event zeek_init() &priority=(5) { }
35 type R: record { a: count &default=(5); };
35 type R: record { a: count &default=(1 + 2); };
33 type R: record { a: int &default=- -5; };
40 type R: record { s: set[count] &default=set(1); };
45 type R: record { v: vector of count &default=vector(1); };
64 const d = 5 sec; global t: table[count] of count &create_expire=d;
46 global t: table[count] of count &write_expire=(1 sec);
41 global t: table[count] of count &default=|"a"|;
42 global t: table[count] of string &default=cat(1);
"#;

/// Scripts that break the rule `FixedGlobal` first.
pub const FIXED_GLOBAL: &str = r#"# An assignment to a constant: its first byte.
33 const b = 1; event zeek_init() { b = 2; }
33 const b = 1; event zeek_init() { b += 2; }
33 const b = 1; event zeek_init() { ++b; }
38 const b = set(1); event zeek_init() { b -= set(1); }
# A `redef` of a name without `&redef`: the declaration.
21 global x: count = 1; redef x = 2;
13 const x = 1; redef x = 2;
19 global s = set(1); redef s += { 2 };
14 global x = 1; redef x = "a" + nosuch;
"#;

/// Scripts that break the rule `Arguments` first.
pub const ARGUMENTS: &str = r#"# Another number of arguments: the call, or the statement.
45 function f(a: count) { } event zeek_init() { f(); }
45 function f(a: count) { } event zeek_init() { f(1, 2); }
64 function f(): count { return 1; } event zeek_init() { print 1 + f(1); }
26 event zeek_init() { print to_lower(); }
26 event zeek_init() { print network_time(1); }
47 hook h(a: count) { } event zeek_init() { print hook h(); }
42 event e(a: count) { } event zeek_init() { event e(); }
34 event e() { } event zeek_init() { schedule 1 sec { e(1) }; }
48 event zeek_init() { local t = set(1); local u = copy(t, nosuch); }
# Other parameters than are declared: the declaration.
0 event zeek_init(a: count) { }
0 event packet_seen(t: time, len: count) { }
0 event packet_seen(t: time, caplen: count, len: int) { }
27 global e: event(a: count); event e(a: string) { }
26 global h: hook(a: count); hook h() { }
37 global f: function(a: count): count; function f(a: count, b: count): count { return 1; }
37 global f: function(a: count): count; function f(a: count): string { return ""; }
22 global f: function(); function f(): count { return 1; }
22 event e(a: count) { } event e() { }
33 event e(a: string) { } module M; event e(a: count) { }
# Another number of arguments, whatever they rest on elsewhere.
20 event zeek_init() { f(x); } function f(a: count, b: count) { } global x: nosuch;
124 redef enum Log::ID += { L }; type R: record { a: count &log; }; global y = Log::write(L, [$a=1]); event zeek_init() { print copy(y, Log::create_stream(L, [$columns=nosuch])); }
118 redef enum Log::ID += { L }; type R: record { a: count &log; }; global y = Log::write(L, [$a=1]); event zeek_init() { Log::create_stream(L, [$columns=R, $path="p"], y); }
# Arguments past the parameters hide nothing.
20 event zeek_init() { f(1, nosuch); } function f(a: count) { }
"#;

/// Scripts that break the rule `Return` first.
pub const RETURN: &str = r#"20 event zeek_init() { return 1; }
15 function f() { return 1; }
11 hook h() { return T; }
22 function f(): count { return; }
54 function f(n: count): count { if ( n == 0 ) return 1; return; }
20 event zeek_init() { return x; } global x: nosuch;
"#;

/// Scripts that break the rule `Break` first.
pub const BREAK: &str = r#"20 event zeek_init() { break; }
24 function f() { if ( T ) break; }
43 event zeek_init() { while ( T ) { break; } break; }
20 event zeek_init() { next; }
11 hook h() { next; }
41 function f() { for ( i in set(1) ) next; next; }
"#;

/// Scripts that break the rule `Attribute` first.
pub const ATTRIBUTE: &str =
    r#"# An attribute that its place doesn't take, with a value too many or too few, twice, or two expiries.
13 global x = 1 &log;
13 global x = 1 &nosuch;
12 const c = 1 &default=2;
41 const c: table[count] of count = table() &create_expire=1 sec;
26 type R: record { a: count &redef; };
18 event zeek_init() &redef { }
9 hook h() &default=1 { }
13 global x = 1 &redef=1;
26 type R: record { a: count &default; };
26 type R: record { a: count &log=1; };
18 event zeek_init() &priority { }
31 type R: record { a: count &log &log; };
30 event zeek_init() &priority=1 &priority=2 { }
53 global t: table[count] of count &create_expire=1 sec &read_expire=1 sec;
13 global x = 1 &default=1;
13 global x = 1 &create_expire=1 sec;
26 global v: vector of count &default=1;
13 global x = 1 &read_expire=1 sec;
# `&wire` on a field that is neither count nor string, `&log` on one that is no column.
25 type R: record { a: addr &wire; };
24 type R: record { a: int &wire; };
42 type R: record { a: table[count] of count &log; };
39 type R: record { a: set[count, string] &log; };
41 type R: record { a: vector of set[count] &log; };
62 type S: record { b: count; }; type R: record { a: vector of S &log; };
# An assignment to a global with an expiry; a default or an expiry of a global whose value is given otherwise.
74 global t: table[count] of count &create_expire=1 sec; event zeek_init() { t = table(); }
61 global s: set[count] &read_expire=1 sec; event zeek_init() { s += set(1); }
94 function f(): table[count] of count { return table(); } global t: table[count] of count = f() &default=1;
58 function f(): set[count] { return set(); } global s = f() &write_expire=1 sec;
65 global u: table[count] of count; global t: table[count] of count &default=1 &redef; redef t = u;
"#;

/// Scripts that break the rule `Format` first.
pub const FORMAT: &str = r#"# The text of `fmt`: no literal, another verb.
45 event zeek_init() { local s = "a"; print fmt(s); }
30 event zeek_init() { print fmt("a" + "b"); }
30 event zeek_init() { print fmt(("a")); }
30 event zeek_init() { print fmt("%q", 1); }
30 event zeek_init() { print fmt("50%"); }
30 event zeek_init() { print fmt("%5d", 1); }
# Verbs and arguments disagree: the call.
26 event zeek_init() { print fmt("%s"); }
26 event zeek_init() { print fmt("%s", 1, 2); }
26 event zeek_init() { print fmt("%%", 1); }
26 event zeek_init() { print fmt("%d", "a"); }
44 event zeek_init() { local i: int = 1; print fmt("%x", i); }
# Paths and names of filters: no literal, or not 1 to 64 bytes of `a-z 0-9 _ -`.
140 redef enum Log::ID += { L }; type R: record { a: count &log; }; const p = "p"; event zeek_init() { Log::create_stream(L, [$columns=R, $path=p]); }
125 redef enum Log::ID += { L }; type R: record { a: count &log; }; event zeek_init() { Log::create_stream(L, [$columns=R, $path=""]); }
125 redef enum Log::ID += { L }; type R: record { a: count &log; }; event zeek_init() { Log::create_stream(L, [$columns=R, $path="Conn"]); }
125 redef enum Log::ID += { L }; type R: record { a: count &log; }; event zeek_init() { Log::create_stream(L, [$columns=R, $path="../p"]); }
125 redef enum Log::ID += { L }; type R: record { a: count &log; }; event zeek_init() { Log::create_stream(L, [$columns=R, $path="aaaaaaaaaaaaaaaaaaaaaaaaaaaaaaaaaaaaaaaaaaaaaaaaaaaaaaaaaaaaaaaaa"]); }
158 redef enum Log::ID += { L }; type R: record { a: count &log; }; event zeek_init() { Log::create_stream(L, [$columns=R, $path="p"]); Log::add_filter(L, [$name="N"]); }
169 redef enum Log::ID += { L }; type R: record { a: count &log; }; const n = "n"; event zeek_init() { Log::create_stream(L, [$columns=R, $path="p"]); Log::remove_filter(L, n); }
# A path taken from a module that makes none: the call.
84 redef enum Log::ID += { L }; type R: record { a: count &log; }; event zeek_init() { Log::create_stream(L, [$columns=R]); }
158 module AAAAAAAAAAAAAAAAAAAAAAAAAAAAAAAAAAAAAAAAAAAAAAAAAAAAAAAAAAAAAAAAA; redef enum Log::ID += { L }; type R: record { a: count &log; }; event zeek_init() { Log::create_stream(L, [$columns=R]); }
97 module A::B; redef enum Log::ID += { L }; type R: record { a: count &log; }; event zeek_init() { Log::create_stream(L, [$columns=R]); }
# An include or exclude that isn't `set(..)` of string literals.
203 redef enum Log::ID += { L }; type R: record { a: count &log; }; const s = set("a"); event zeek_init() { Log::create_stream(L, [$columns=R, $path="p"]); Log::add_filter(L, [$name="n", $path="q", $include=s]); }
198 redef enum Log::ID += { L }; type R: record { a: count &log; }; const s = "a"; event zeek_init() { Log::create_stream(L, [$columns=R, $path="p"]); Log::add_filter(L, [$name="n", $path="q", $exclude=set(s)]); }
"#;
