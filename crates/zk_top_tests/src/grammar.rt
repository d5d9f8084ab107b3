use std::alloc::Global;
use std::test::Fail;
use zk_base::Mem;
use zk_parse::{ParseFault, parse};
use zk_token::tokens;

/// How many declarations a text is, or the byte at which it is refused.
fn declarations(alloc: Global, text: &[u8]) -> Result<usize, Option<u64>> {
    let Ok(tokens) = tokens(alloc, text) else {
        return Err(None);
    };
    let tokens = tokens.as_slice();
    match parse(alloc, tokens) {
        Ok(tree) => Ok(tree.decls.len()),
        Err(ParseFault::NoTree { at }) => Err(tokens.get(at).map(|token| token.place)),
        Err(ParseFault::NoMemory) => Err(None),
    }
}

/// Texts of each form, and how many declarations they are.
const FORMS: [(&[u8], usize); 12] = [
    (
        b"module M; export { global x: count; type I: int; } @load base/x\n",
        3,
    ),
    (
        b"global x: count = 5 &redef &default=-1; const c = { 1, 2, }; global s = {}; global n;",
        4,
    ),
    (
        b"redef x = 1; redef x += { 1 }; redef enum E += { A, B, }; redef record R += { f: int &optional; };",
        4,
    ),
    (
        b"event e() &priority=5 {} hook h(a: int, b: string) {} function f(x: time): interval { return; }",
        3,
    ),
    (
        b"type A: table[addr, port] of subnet; type B: set[N]; type C: vector of vector of bool;",
        3,
    ),
    (
        b"type R: record { a: count &log; b: M::N; }; type E: enum { A, B }; type G: enum { A, };",
        3,
    ),
    (
        b"type V: event(x: count); type H: hook(); type G: function(): bool; type P: function();",
        4,
    ),
    (
        b"function f() { { ; } if ( a ) b; if ( a ) b; else c; while ( a ) {} for ( x in y ) z; for ( [a, b], v in y ) z; }",
        1,
    ),
    (
        b"function f() { local x; local y: count = { 1 }; print 1, 2; event e(1); schedule 5 mins { e() }; add s[1]; delete t[1, 2]; }",
        1,
    ),
    (
        b"function f() { next; break; return 1; return; a = b += c -= d; a ? b : c ? d : e; a || b && c; a !in b; a + b - c * d / e % f; }",
        1,
    ),
    (
        b"function f() { !-++--a; a$b?$c[1, 2]($f=1, 2)(); 5; 5 sec; \"x\"; 80/tcp; 1.2.3.4; 1.2.3.4/8; T; F; usec; }",
        1,
    ),
    (
        b"function f() { (a); |a|; []; [1, $f=2]; table([1] = 2); set(); vector(1); hook h(1); }",
        1,
    ),
];

/// Texts, and the byte of the first declaration that does not read.
const REFUSED: [(&[u8], u64); 8] = [
    (b"global x: count; 5;", 17),
    (b"function f() { a == b == c; }", 0),
    (b"function f() { 5 sec sec; }", 0),
    (b"function f() { a[]; }", 0),
    (b"function f() { local if; }", 0),
    (b"type E: enum {};", 0),
    (b"event e() {} event e() {", 13),
    (b"export { 5 }", 0),
];

/// A function whose body is a mark, so many times, and what stands behind. The function, the statement, the
/// expression, its condition and its operand are nested, and each prefix nests another operand.
fn nested(alloc: Global, mark: u8, times: usize, last: &[u8]) -> Result<Vec<u8>, Mem> {
    let mut text = Vec::from_slice(alloc, b"function f() {".as_slice())?;
    for _ in 0..times {
        text.push(mark)?;
    }
    text.extend_from_slice(last)?;
    Ok(text)
}

/// That a text is so many declarations, or is refused at that byte.
fn reads(alloc: Global, text: &[u8], wanted: Result<usize, Option<u64>>) -> Result<(), Fail> {
    let found = declarations(alloc, text);
    if found == wanted {
        Ok(())
    } else {
        Err(Fail::new(format_args!("{found:?} of {text:?}")))
    }
}

/// That a function whose body is a mark, so many times, and what stands behind, reads so.
fn nests(
    alloc: Global,
    mark: u8,
    times: usize,
    last: &[u8],
    wanted: Result<usize, Option<u64>>,
) -> Result<(), Fail> {
    let text = nested(alloc, mark, times, last)?;
    reads(alloc, &text, wanted)
}

#[test]
fn a_declaration_nests_200_deep(rt: HostRuntime) -> Result<(), Fail> {
    let alloc = rt.alloc();
    nests(alloc, b'!', 195, b"a; }", Ok(1))?;
    nests(alloc, b'!', 196, b"a; }", Err(Some(0)))?;
    nests(alloc, b'(', 100_000, b"", Err(Some(0)))
}

#[test]
fn every_form_of_the_language_is_read(rt: HostRuntime) -> Result<(), Fail> {
    let alloc = rt.alloc();
    for (text, count) in &FORMS {
        reads(alloc, text, Ok(*count))?;
    }
    for (text, place) in &REFUSED {
        reads(alloc, text, Err(Some(*place)))?;
    }
    Ok(())
}
