//! Scripts whose names mean nothing, are declared twice, or lead back to themselves.
//!
//! A line holds the byte at which the rule is told, and behind a blank the script. One that begins with `#` says
//! what the next ones show.

/// Scripts that break the rule `Unknown` first.
pub const UNKNOWN: &str =
    r#"# A name means nothing visible: as a value, a function, a type, an event, a hook.
26 event zeek_init() { print nosuch; }
26 event zeek_init() { print nosuch(1); }
10 global x: nosuch;
18 global x: count = y;
6 redef nosuch = 1;
30 type R: record { a: vector of nosuch; };
14 function f(a: nosuch) { }
14 function f(): nosuch { return 1; }
26 event zeek_init() { event nosuch(); }
37 event zeek_init() { schedule 1 sec { nosuch() }; }
31 event zeek_init() { print hook nosuch(); }
31 event zeek_init() { for ( i in nosuch ) print i; }
11 redef enum nosuch += { A };
13 redef record nosuch += { a: count &optional; };
# A name that isn't exported is seen in its own module alone, and a module line holds up to the next.
60 module M; global x = 1; module N; event zeek_init() { print x; }
60 module M; global x = 1; module N; event zeek_init() { print M::x; }
71 module M; export { global x = 1; } module N; event zeek_init() { print x; }
92 module M; export { global x = 1; } global y = 2; module N; event zeek_init() { print M::x + M::y; }
52 module M; function f() { } module N; function g() { f(); }
60 module M; event e() { } module N; event zeek_init() { event M::e(); }
60 module M; event e() { } module N; event zeek_init() { event e(); }
58 module M; hook h() { } module N; event zeek_init() { hook h(); }
# A body whose name names another module declares nothing.
16 module N; event M::e() { }
15 module N; hook M::h() { }
19 module N; function M::f() { }
# A local is seen from the end of its statement to the end of its body.
30 event zeek_init() { local a = a; }
26 event zeek_init() { print a; local a = 1; }
51 function f() { local a = 1; } function g() { print a; }
46 function f(a: count) { } function g() { print a; }
# What a loop is over sees the names outside; a name of a loop is seen behind it.
31 event zeek_init() { for ( i in i ) print i; }
26 event zeek_init() { print i; for ( i in set(1) ) print i; }
# Names in attributes and in the settings of a log.
40 type R: record { a: count &default=(1 + y); };
19 hook h() &priority=k { }
66 global t: table[count] of count &create_expire=1 sec &expire_func=nosuch;
81 redef enum Log::ID += { L }; event zeek_init() { Log::create_stream(L, [$columns=nosuch]); }
123 redef enum Log::ID += { L }; type R: record { a: count &log; }; event zeek_init() { Log::create_stream(L, [$columns=R, $ev=nosuch, $path="p"]); }
# Among several parts the first is told, and what they are parts of breaks no rule of its own.
26 event zeek_init() { print a + "b" + c; }
47 event zeek_init() { local x: count = fmt("%s", y); }
44 event zeek_init() { g = [$a=1]; } global g: nosuch;
47 event zeek_init() { f([$a=1]); } function f(r: nosuch) { }
15 global b = b + y;
# What stands behind what is broken elsewhere.
31 event zeek_init() { print R($a=nosuch); } type R: never;
"#;

/// Scripts that break the rule `Twice` first.
pub const TWICE: &str = r#"# Names, of whatever kinds: the second declaration.
14 global a = 1; global a = 2;
14 global a = 1; const a = "x";
30 type R: record { a: count; }; type R: record { b: count; };
20 type E: enum { A }; global A = 1;
29 global a = 1; type E: enum { a };
17 function f() { } function f() { }
19 global e: event(); global e: event();
58 module M; global a = 1; module N; global a = 1; module M; global a = 2;
45 module M; export { global a = 1; } module N; global M::a = 2;
# What is declared already, and a body for a built-in function.
0 type connection: record { a: count; };
0 function to_lower(s: string): string { return s; }
# Fields, parameters and words of enums: their names.
27 type R: record { a: count; a: string; };
60 type R: record { a: count; }; redef record R += { b: count; a: count; };
21 function f(a: count, a: count) { }
18 type E: enum { A, A };
41 type E: enum { A }; redef enum E += { B, A };
53 redef enum Log::ID += { L }; redef enum Log::ID += { L };
# Locals of one body, whatever the block: the statement.
33 event zeek_init() { local a = 1; local a = 2; }
23 function f(p: count) { local p = 1; }
53 event zeek_init() { if ( T ) { local a = 1; } else { local a = 2; } }
44 event zeek_init() { for ( i in set(1) ) { } local i = 2; }
33 event zeek_init() { local x = 1; local x; }
# Two streams or filters on one path with other columns: the call. A path `reporter`: the literal.
170 redef enum Log::ID += { L, M }; type R: record { a: count &log; }; type S: record { b: count &log; }; event zeek_init() { Log::create_stream(L, [$columns=R, $path="p"]); Log::create_stream(M, [$columns=S, $path="p"]); }
147 redef enum Log::ID += { L }; type R: record { a: count &log; b: count &log; }; event zeek_init() { Log::create_stream(L, [$columns=R, $path="p"]); Log::add_filter(L, [$name="n", $include=set("a")]); }
191 redef enum Log::ID += { L }; type R: record { a: count &log; b: count &log; }; event zeek_init() { Log::create_stream(L, [$columns=R, $path="p"]); Log::add_filter(L, [$name="n", $path="q"]); Log::add_filter(L, [$name="m", $path="q", $exclude=set("b")]); }
125 redef enum Log::ID += { L }; type R: record { a: count &log; }; event zeek_init() { Log::create_stream(L, [$columns=R, $path="reporter"]); }
169 redef enum Log::ID += { L }; type R: record { a: count &log; }; event zeek_init() { Log::create_stream(L, [$columns=R, $path="p"]); Log::add_filter(L, [$name="n", $path="reporter"]); }
101 module Reporter; redef enum Log::ID += { L }; type R: record { a: count &log; }; event zeek_init() { Log::create_stream(L, [$columns=R]); }
# A constructor that gives a field twice: the second `$`.
68 type R: record { a: count; }; event zeek_init() { local r = R($a=1, $a=2); }
"#;

/// Scripts that break the rule `Recursive` first.
pub const RECURSIVE: &str =
    r#"# A record type that reaches itself: the type in it that leads back, of several the first.
20 type R: record { r: R; };
30 type R: record { a: count; r: R &optional; };
30 type R: record { r: vector of R; };
36 type R: record { t: table[count] of R; };
20 type A: record { b: B; }; type B: record { a: A; };
30 type A: record { b: vector of B; }; type C: record { a: A; }; type B: record { c: C &optional; };
53 type R: record { a: count; }; redef record R += { r: R &optional; };
# Names that lead back to themselves.
8 type A: B; type B: A;
18 type A: vector of A;
"#;
