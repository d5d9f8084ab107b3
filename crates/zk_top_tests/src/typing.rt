//! Scripts in which a value has another type than its place asks.
//!
//! A line holds the byte at which the rule is told, and behind a blank the script. One that begins with `#` says
//! what the next ones show.

/// Scripts in which a value, a member or a key breaks the rule `WrongType` first.
pub const WRONG_VALUES: &str = r#"# A value has another type than its place asks.
18 global x: count = "a";
38 event zeek_init() { local x: string = 1; }
38 global x = 1; event zeek_init() { x = "a"; }
29 function f(): count { return "a"; }
47 function f(a: count) { } event zeek_init() { f("a"); }
50 event e(a: count) { } event zeek_init() { event e("a"); }
48 hook h(a: count) { } event zeek_init() { hook h(T); }
35 event zeek_init() { print to_lower(1); }
25 event zeek_init() { if ( 1 ) print 1; }
28 event zeek_init() { while ( "a" ) print 1; }
43 event e() { } event zeek_init() { schedule 5 { e() }; }
31 event zeek_init() { for ( i in 5 ) print i; }
31 event zeek_init() { for ( i in "abc" ) print i; }
55 global t: table[count] of count; event zeek_init() { t["a"] = 1; }
68 global t: table[count, count] of count; event zeek_init() { print t["a"]; }
66 global t: table[count, count] of count; event zeek_init() { print t[1]; }
36 event zeek_init() { print vector(1)["a"]; }
26 event zeek_init() { print "abc"[0]; }
40 global x = 1; event zeek_init() { print x$a; }
40 global x = 1; event zeek_init() { print x(1); }
61 type R: record { a: count; }; event zeek_init() { print R($a="b")$a; }
35 type R: record { a: count &default="b"; };
36 type R: record { a: count &default=("a" + "b"); };
19 hook h() &priority="a" { }
19 hook h() &priority=9223372036854775808 { }
47 global t: table[count] of count &create_expire=5;
31 global x = 1 &redef; redef x = "a";
# Parentheses and the arms of a choice hand on what is wanted, and a choice is of its first arm's type.
19 global x: count = ("a");
26 global x: count = T ? 1 : "a";
23 global x: count = T ? ("a") : 1;
34 event zeek_init() { print T ? 1 : "a"; }
26 event zeek_init() { print 1 ? 1 : 2; }
# A name that is no value, and one that is visible as something else.
56 type R: record { a: count; }; event zeek_init() { print R; }
43 function f() { } event zeek_init() { print f; }
20 global x = 1; event x() { }
19 global x = 1; hook x() { }
23 global x = 1; function x() { }
6 event f() { } function f() { }
40 global x = 1; event zeek_init() { event x(); }
39 hook h() { } event zeek_init() { event h(); }
39 event e() { } event zeek_init() { hook e(); }
43 global x = 1; event zeek_init() { local y: x; }
41 type R: record { a: count; }; redef enum R += { A };
33 type E: enum { A }; redef record E += { a: count &optional; };
43 function f() { } event zeek_init() { print f(); }
# `add` and `delete` of anything else: the statement.
38 event zeek_init() { local s = set(1); add s; }
53 global t: table[count] of count; event zeek_init() { add t[1]; }
41 event zeek_init() { local v = vector(1); delete v[0]; }
75 type R: record { a: count &optional; }; event zeek_init() { local r = R(); delete r$a; }
20 event zeek_init() { delete 5; }
48 global s: set[count]; event zeek_init() { add s["a"]; }
# Neither type nor value.
20 event zeek_init() { local x; }
0 global x;
0 const c;
# A container or a record where no type is wanted.
30 event zeek_init() { local s = set(); }
30 event zeek_init() { local t = table(); }
30 event zeek_init() { local v = vector(); }
30 event zeek_init() { local s = { 1 }; }
11 global s = { };
30 event zeek_init() { local t = table([1] = 2); }
30 event zeek_init() { local s = set(1, "a"); }
30 event zeek_init() { local r = [$a=1]; }
18 global x: count = [$a=1];
26 event zeek_init() { print [$a=1]; }
47 event zeek_init() { local v: vector of count = [1, 2]; }
26 event zeek_init() { print [1] in set(1); }
23 global s: set[count] = table();
34 global t: table[count] of count = set(1);
18 global x: count = vector(1);
36 global t: table[count] of count = { 1 };
36 global t: table[count] of count = { 1 = 2 };
47 global t: table[count, count] of count = table([1] = 2);
37 global t: table[count] of count = { ["a"] = 2 };
42 global t: table[count] of count = { [1] = "a" };
28 global s: set[count] = { 1, "a" };
38 global v: vector of count = vector(1, "a");
# Keys are atomic or enums.
14 global s: set[set[count]];
53 type R: record { a: count; }; global t: table[count, R] of count;
49 type V: vector of count; type R: record { s: set[V]; };
11 global s = set(vector(1));
"#;

/// Scripts in which what is printed, computed, assigned or set breaks the rule `WrongType` first.
pub const WRONG_OPERANDS: &str = r#"# What is printed, compared or formatted is atomic or an enum.
47 event zeek_init() { local s = set(1); print 1, s; }
44 event zeek_init() { local s = set(1); print s == s; }
54 event zeek_init() { local v = vector(1); print cat(1, v); }
57 event zeek_init() { local v = vector(1); print fmt("%s", v); }
53 event connection_state_remove(c: connection) { print c$id; }
# Numbers: a count is an int where one is wanted, and not the other way round; with a unit it is an interval.
55 event zeek_init() { local i: int = 1; local c: count = i; }
18 global c: count = -1;
21 global d: interval = 5;
18 global c: count = 5 sec;
41 event zeek_init() { print fmt("%d", 1) + 1; }
16 global i: int = "a";
# Operators, each at the operand that is wrong.
27 event zeek_init() { print !1; }
27 event zeek_init() { print -"a"; }
37 event zeek_init() { local s = "a"; ++s; }
30 event zeek_init() { print 1 + "a"; }
34 event zeek_init() { print 1 + 2 + "a"; }
26 event zeek_init() { print T + 1; }
26 event zeek_init() { print "a" - "b"; }
30 event zeek_init() { print 1 + (1.2.3.4); }
30 event zeek_init() { print 1 % 2 sec; }
30 event zeek_init() { print 2 * 5 sec; }
34 event zeek_init() { print 5 sec * 5 sec; }
34 event zeek_init() { print 5 sec + network_time(); }
43 event zeek_init() { print network_time() + network_time(); }
43 event zeek_init() { print network_time() - 1; }
26 event zeek_init() { print T < F; }
30 event zeek_init() { print 1 < "a"; }
26 event zeek_init() { print 10.0.0.0/8 < 10.0.0.0/8; }
49 type E: enum { A, B }; event zeek_init() { print A < B; }
31 event zeek_init() { print 1 == "a"; }
71 type E: enum { A }; type G: enum { B }; event zeek_init() { print A == B; }
31 event zeek_init() { print T && 1; }
26 event zeek_init() { print 1 || T; }
31 event zeek_init() { print 1 in 5; }
31 event zeek_init() { print 1 in set("a"); }
44 event zeek_init() { local s = set(1); print s in s; }
33 event zeek_init() { print "a" in vector("a"); }
37 event zeek_init() { print 1.2.3.4 in "a"; }
67 global s: set[count, count]; event zeek_init() { print [1, "a"] in s; }
48 global s: set[count]; event zeek_init() { print [s, 1] in s; }
27 event zeek_init() { print |5|; }
27 event zeek_init() { print |T|; }
38 event zeek_init() { local a = 1; a += "a"; }
46 event zeek_init() { local v = vector(1); v += "a"; }
43 event zeek_init() { local s = set(1); s += 1; }
35 event zeek_init() { local s = "a"; s -= "a"; }
# An assignment has no value.
38 event zeek_init() { local a = T; if ( a = F ) print 1; }
39 event zeek_init() { local a = 1; print a = 2; }
43 event zeek_init() { local a = 1; local b = a += 1; }
50 event zeek_init() { local a = 1; local b = 1; a = b = 2; }
47 global s: set[count]; event zeek_init() { if ( s = set() ) print 1; }
# What is assigned is a name of a value, a field, or an element of a table or vector.
20 event zeek_init() { 1 = 2; }
54 function f(): count { return 1; } event zeek_init() { f() = 2; }
33 event zeek_init() { local x = 1; (x) = 2; }
22 event zeek_init() { ++1; }
35 event zeek_init() { local x = 1; --(x); }
37 function f() { } event zeek_init() { f = 2; }
40 type E: enum { A }; event zeek_init() { A = A; }
38 event zeek_init() { local s = set(1); s[1] = T; }
20 event zeek_init() { "a" += "b"; }
# A name of a loop that is there already has to have the type that is due.
40 event zeek_init() { local s = ""; for ( s in set(1) ) print s; }
29 function f(a: count) { for ( a in set("a") ) print a; }
75 event zeek_init() { local s = ""; local t: table[count] of count; for ( k, s in t ) print k; }
# An ID without `create_stream`, or with two of other columns; names of another kind in settings.
95 redef enum Log::ID += { L }; type R: record { a: count &log; }; event zeek_init() { Log::write(L, R($a=1)); }
76 redef enum Log::ID += { L }; event zeek_init() { Log::remove_default_filter(L); }
138 redef enum Log::ID += { L }; type R: record { a: count &log; }; type S: record { a: count &log; }; event zeek_init() { Log::create_stream(L, [$columns=R, $path="p"]); Log::create_stream(L, [$columns=S, $path="p"]); }
146 redef enum Log::ID += { L }; type R: record { a: count &log; }; event zeek_init() { Log::create_stream(L, [$columns=R, $path="p"]); Log::write(L, 1); }
156 redef enum Log::ID += { L }; type R: record { a: count &log; }; event e(a: count) { } event zeek_init() { Log::create_stream(L, [$columns=R, $path="p", $ev=e]); }
159 redef enum Log::ID += { L }; type R: record { a: count &log; }; hook h(a: count) { } event zeek_init() { Log::create_stream(L, [$columns=R, $path="p", $policy=h]); }
81 redef enum Log::ID += { L }; event zeek_init() { Log::create_stream(L, [$columns=L, $path="p"]); }
131 function f(t: table[count] of count): interval { return 1 sec; } global t: table[count] of count &create_expire=1 sec &expire_func=f;
154 redef enum Log::ID += { L }; type R: record { a: count &log; }; event zeek_init() { Log::create_stream(L, [$columns=R, $path="p"]); Log::remove_filter(L, 5); }
# Globals whose types rest on each other.
11 global a = b; global b = a;
32 global a: count = b; global b = b;
# The text of fmt, which is judged as a value first.
30 event zeek_init() { print fmt(5); }
# Types of events and functions stand behind a global's name alone.
20 type R: record { a: event(); };
8 type G: function(a: count);
# What can't stand where it does, whatever it rests on elsewhere.
22 event zeek_init() { f($a=x); } function f(a: count) { } global x: nosuch;
20 event zeek_init() { delete x; } global x: nosuch;
26 event zeek_init() { print [x] in t; } global x: nosuch; global t: table[count] of count;
140 redef enum Log::ID += { L }; type R: record { a: count &log; }; global y = Log::write(L, [$a=1]); event zeek_init() { Log::create_stream(L, y); }
140 redef enum Log::ID += { L }; type R: record { a: count &log; }; global y = Log::write(L, [$a=1]); event zeek_init() { Log::create_stream(L, $columns=y); }
31 event zeek_init() { Log::write(x, [$a=1]); } global x: nosuch;
"#;
