//! Scripts that break no rule, and what is asked of them beside.
//!
//! A line holds a script. One that begins with `#` says what the next ones show.

use zk_check::CheckFault;

/// Scripts that break no rule.
pub const ACCEPTED: &str =
    r#"# Look-up: a local or parameter, then the module's own name, then a global one.
global x = ""; module M; global x = 1; event zeek_init() { print x + 1; }
global x = ""; function f(x: count) { print x + 1; } module M; global y = ""; event zeek_init() { local y = 1; print y + 1, x + ""; }
module M; export { global x = 1; } module N; global x = ""; event zeek_init() { print M::x + 1, x + ""; }
module M; global a = 1; module N; global a = ""; event zeek_init() { print a + ""; } module M; event zeek_init() { print a + 1; }
module A::B; global x = 1; event zeek_init() { print x; }
module A::B; function f() { }
module M; export { global x = 5; } module N; event zeek_init() { local M::x = ""; print M::x + 1; }
# Bodies declare their names where nothing else does, in any order.
event zeek_init() { f(); event e(); hook h(); } function f() { } event e() { } hook h() { }
event e(a: count) { } module M; event zeek_init() { event e(1); }
module M; event e(a: count) { } event zeek_init() { event e(1); event M::e(2); }
module M; export { global e: event(a: count); } module N; event M::e(a: count) { } event zeek_init() { event M::e(1); }
event e(a: count) { } module M; event e(a: count) { }
module M; function f(): count { return 1; } module N; function f(): string { return ""; } event zeek_init() { print f() + ""; }
global f: function(a: count): count; event zeek_init() { print f(1); } function f(a: count): count { return a; }
event zeek_init() { print a + b; } global a = b; global b = 1;
# Locals, and the names of loops.
event zeek_init() { if ( T ) { local a = 1; } print a; }
event zeek_init() { for ( i in set(1) ) { } print i; for ( i in vector(T) ) print i + 1; }
function f(k: count) { local t: table[count, string] of bool; for ( [k, s], b in t ) print k, s, b; }
function f() { local a = 1; } function g() { local a = ""; }
event zeek_init() { local i = set(1); local j = set(2); for ( k in i ) for ( l in j ) print k + l; }
# Numbers.
global i: int = 5; global c: count = 5; global d: interval = 5 sec; event zeek_init() { print i + c, c - i, i < c, c == i, -c * i, c % i, c / i; }
function f(i: int): int { return 5; } event zeek_init() { local v: vector of int = vector(1, 2); v += 3; v[0] = 4; print f(5), 5 in set(-1); }
event zeek_init() { local s: set[int] = { 1, -1 }; add s[5]; print 5 in s; local t: table[int] of int = { [1] = 2 }; t[5] = 6; }
global i: int = T ? 1 : -1;
# Operators.
event zeek_init() { print !T, -1, -(-1), - 5 sec, 1 + 2, "a" + "b", 1 sec + 2 min, 3 sec - 1 usec, 5 sec * 2, 5 sec / 2, 5 sec * -2, 5 sec / -2; }
event zeek_init() { local t = network_time(); print t + 1 sec, t - 1 sec, t - t, t < t, t == t; }
event zeek_init() { print 1 < 2, -1 <= 2, "a" > "b", 1 sec >= 2 sec, 1.2.3.4 < 1.2.3.5, 80/tcp < 53/udp, T == F, 10.0.0.0/8 != 10.0.0.0/9; }
type E: enum { A, B }; event zeek_init() { print A == B, tcp != udp; }
event zeek_init() { print 1 in set(1), "a" in "abc", 1.2.3.4 in 10.0.0.0/8, 0 in vector("a"), "b" !in set("a"); }
global s: set[count, string]; global t: table[addr] of count; event zeek_init() { print [1, "a"] in s, 1.2.3.4 in t; }
event zeek_init() { print |"a"|, |set(1)|, |vector(1)|, |-1|, |-1| + 1; }
event zeek_init() { local a = 1; a += 2; a -= 1; local d = 1 sec; d += 1 sec; d -= 1 sec; local s = "a"; s += "b"; local t = set(1); t += set(2); t -= set(1); local v = vector(1); v += 2; }
event zeek_init() { local a = 1; print ++a, --a; local i: int = 1; ++i; }
# Containers and records take the type that is wanted.
global s: set[count] = { }; global t: table[count] of set[string] = { [1] = set(), [2] = set("a"), }; global v: vector of string = { "a" };
event zeek_init() { local s: set[count] = set(); s = set(1); local t: table[count, string] of count = table([1, "a"] = 2); local v: vector of set[count] = vector(set(), set(1)); }
type R: record { a: count; s: set[count] &optional; }; function f(r: R): R { return [$a=2]; } event zeek_init() { print f([$a=1, $s=set()])$a; local r: R = R($a=1); r = [$a=2]; }
type R: record { a: count &optional; s: set[count]; d: count &default=1; v: vector of R2 &optional; }; type R2: record { b: count; }; global r: R = []; event zeek_init() { r$v = vector([$b=1], R2($b=2)); }
type E: enum { A, B }; global s: set[E, addr, subnet, port, bool, time]; event zeek_init() { add s[A, 1.2.3.4, 10.0.0.0/8, 80/tcp, T, network_time()]; }
# What may be assigned, added and deleted.
type R: record { a: count; v: vector of count; }; global r: R = [$a=1]; global t: table[count] of R; function f(): R { return r; } event zeek_init() { r$a = 1; r$v[0] = 1; ++t[1]$a; f()$a = 2; f()$v[0] = 3; }
function f(): set[count] { return set(1); } event zeek_init() { add f()[2]; delete f()[1]; }
type R: record { s: set[count]; t: table[count, count] of count; }; function f(r: R) { add r$s[1]; delete r$s[1]; delete r$t[1, 2]; }
const c = set(1); const r: conn_id = [$orig_h=1.2.3.4, $orig_p=1/tcp, $resp_h=1.2.3.4, $resp_p=1/tcp]; event zeek_init() { add c[2]; r$orig_p = 2/tcp; }
function f(a: count): count { a = a + 1; ++a; return a; } event zeek_init() { f(1); 1; }
# Fields.
type R: record { a: count; }; redef record R += { b: count; }; event zeek_init() { local r = R($a=1, $b=2); print r$b, r?$b; }
redef record connection += { a: count &optional; b: count &default=0; s: set[count]; }; event connection_state_remove(c: connection) { c$a = c$b + |c$s|; }
# Types by their names.
type A: B; type B: C; type C: record { a: A2; }; type A2: count; global x: A = [$a=1]; event zeek_init() { local y: C = x; print y$a + 1; }
type R: record { a: count; }; type S: record { r: R; q: R &optional; v: vector of R; };
# Attributes.
type R: record { a: count &log &default=5 &wire; b: string &log &optional &wire; c: S &log; d: set[count] &log; e: vector of E &log; f: E &log; }; type S: record { x: addr &log; }; type E: enum { A };
type R: record { a: int &default=-5; b: interval &default=-1 sec; c: set[count] &default=set(); d: table[count] of count &default=table(); e: vector of count &default=vector(); f: int &default=5; g: string &default="a"; };
function gone(t: table[count, string] of count, a: count, b: string): interval { return 0 sec; } global t: table[count, string] of count &create_expire=1 min &expire_func=gone &default=0; global s: set[count] = { 1 } &read_expire=5 sec;
global x = 1 &redef; redef x = 2; redef x += 3; const c = set(1) &redef; redef c += { 2 }; redef c += set(3);
hook h() &priority=-5 { } event zeek_init() &priority=9223372036854775807 { } event zeek_init() &priority=-9223372036854775808 { }
global t: table[count] of count &create_expire=1 sec; event zeek_init() { t[1] = 2; delete t[1]; }
# Calls, returns and leaving loops.
hook h(a: count) { if ( a == 1 ) break; return; } event zeek_init() { if ( hook h(1) ) return; for ( i in set(1) ) { if ( T ) next; break; } while ( F ) { next; } }
function f() { return; } function g(): count { } event e(a: count, b: string) { } event zeek_init() { schedule 1 sec { e(1, "") }; event e(2, "a"); f(); g(); }
type E: enum { A }; event zeek_init() { local i: int = 1; print fmt("%d %d %s %x %% %s %s", 1, i, A, 2, 1.2.3.4, T), cat(), cat(1, "a", A), sub_bytes("a", 1, 2), strstr("a", "b"), to_count("1"), starts_with("a", "b"), join_string_vec(vector("a"), ","), |addr_to_counts(1.2.3.4)|, to_upper("a"), |copy(set(1))|; }
# Logs.
module M; export { redef enum Log::ID += { LOG, TWO }; } type R: record { a: count &log; b: string &log; c: int; }; global e: event(r: R); hook p(r: R, id: Log::ID, f: Log::Filter) { } event zeek_init() { Log::create_stream(LOG, [$columns=R, $ev=e, $path="my_path-1", $policy=p]); Log::add_filter(LOG, [$name="n", $path="q", $include=set("a", "nosuch"), $policy=p]); Log::add_filter(LOG, [$name="m", $path="r", $exclude=set("a")]); Log::create_stream(TWO, [$columns=R]); Log::remove_filter(LOG, "n"); Log::remove_default_filter(TWO); print Log::write(LOG, [$a=1, $b="", $c=-1]); }
redef enum Log::ID += { L, M }; type R: record { a: count &log; }; type S: record { a: count &log; b: int; }; event zeek_init() { Log::create_stream(L, [$columns=R, $path="p"]); Log::create_stream(M, [$columns=S, $path="p"]); }
"#;

/// Scripts that are blind to how streams were cut into packets.
pub const BLIND: &str = r#"event connection_state_remove(c: connection) { print c$uid; }
redef record connection += { n: count &wire &default=0; s: string &wire &default=""; p: count &default=0; }; event connection_state_remove(c: connection) { c$n = c$orig$num_pkts; c$s = c$history; }
redef record connection += { n: count &wire &default=0; s: string &wire &default=""; p: count &default=0; }; event connection_state_remove(c: connection) { c$s = (c$history); }
type R: record { h: string &wire; }; event connection_state_remove(c: connection) { local r = R($h=c$history); r = [$h=c$history]; }
redef record connection += { n: count &wire &default=0; s: string &wire &default=""; p: count &default=0; }; event connection_state_remove(c: connection) { c$n = 5; c$orig$num_pkts = 6; }
"#;

/// Scripts that are not.
pub const NOT_BLIND: &str = r#"event packet_seen(t: time, caplen: count, len: count) { }
event connection_state_remove(c: connection) { print c$history; }
event connection_state_remove(c: connection) { local h = c$history; }
event connection_state_remove(c: connection) { if ( c$orig?$num_pkts ) print 1; }
redef record connection += { n: count &wire &default=0; s: string &wire &default=""; p: count &default=0; }; event connection_state_remove(c: connection) { c$n = c$orig$num_pkts + 1; }
redef record connection += { n: count &wire &default=0; s: string &wire &default=""; p: count &default=0; }; event connection_state_remove(c: connection) { c$p = c$orig$num_pkts; }
redef record connection += { n: count &wire &default=0; s: string &wire &default=""; p: count &default=0; }; event connection_state_remove(c: connection) { c$n += 1; }
redef record connection += { n: count &wire &default=0; s: string &wire &default=""; p: count &default=0; }; event connection_state_remove(c: connection) { ++c$n; }
type R: record { h: string; }; event connection_state_remove(c: connection) { local r = R($h=c$history); }
function f(c: connection): string { return c$history; }
hook h(c: connection) { while ( c$orig$num_pkts > 1 ) break; }
"#;

/// The texts of the files `s` and `t`, and what is told of the two.
pub const FILES: [(&str, &str, Option<CheckFault>); 9] = [
    (
        "@load t\nglobal a = nosuch;",
        "global b = nosuch;",
        Some(CheckFault::Unknown { file: 1, place: 11 }),
    ),
    (
        "global a = nosuch;\n@load t\n",
        "global b = nosuch;",
        Some(CheckFault::Unknown { file: 0, place: 11 }),
    ),
    (
        "module M; global x = 1;\n@load t\n",
        "event zeek_init() { print x; }",
        Some(CheckFault::Unknown { file: 1, place: 26 }),
    ),
    (
        "@load t\nmodule N; event zeek_init() { print M::x; }",
        "module M; global x = 1;",
        Some(CheckFault::Unknown { file: 0, place: 44 }),
    ),
    (
        "export {\n@load t\n}\nmodule N; event zeek_init() { print M::x; }",
        "module M; global x = 1;",
        None,
    ),
    (
        "module M; event e(a: count) { }\n@load t\n",
        "event e(a: count) { } event zeek_init() { event e(1); }",
        None,
    ),
    (
        "global x = 1;\n@load t\n",
        "global x = 2;",
        Some(CheckFault::Twice { file: 1, place: 0 }),
    ),
    (
        "@load t\nredef x = 2;",
        "global x = 1;",
        Some(CheckFault::FixedGlobal { file: 0, place: 8 }),
    ),
    ("redef x = 2;\n@load t\n", "global x = 1 &redef;", None),
];
