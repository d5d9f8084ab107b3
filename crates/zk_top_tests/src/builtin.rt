use std::alloc::Global;
use std::process::Abort;
use std::test::Fail;
use zk_base::{Addr, Mem, Moment, Proto, Span};
use zk_builtin::{
    BuiltinFault, addr_to_counts, cat, fmt, join_string_vec, starts_with, strstr, sub_bytes,
    to_count, to_lower, to_upper,
};
use zk_value::{SharedAddr, SharedBytes, Value};

fn string(alloc: Global, bytes: &[u8]) -> Result<Value, Mem> {
    Ok(Value::String(SharedBytes::copy_of(alloc, bytes)?))
}

/// Whether what was given is the string of a text.
fn is_string(rt: &impl Abort, given: Result<Value, BuiltinFault>, text: &str) {
    match given {
        Ok(Value::String(bytes)) => assert!(rt; bytes.as_slice() == text.as_bytes(), "{text}"),
        _ => assert!(rt; false, "{text}"),
    }
}

/// Numbers and a string.
fn numbers(alloc: Global) -> Result<Vec<Value>, Mem> {
    let mut args = Vec::new(alloc);
    args.push(Value::Count(10))?;
    args.push(Value::Count(48879))?;
    args.push(Value::Int(-7))?;
    args.push(string(alloc, b"web")?)?;
    Ok(args)
}

/// A value of each other simple type.
fn others(alloc: Global) -> Result<Vec<Value>, Mem> {
    let mut args = Vec::new(alloc);
    args.push(Value::Bool(true))?;
    args.push(Value::Time(Moment(-1)))?;
    args.push(Value::Interval(Span(1_500_000)))?;
    args.push(Value::Addr(SharedAddr::of(alloc, Addr::V4(0x0a00_0001))?))?;
    args.push(Value::Port {
        port: 80,
        proto: Proto::Tcp,
    })?;
    args.push(Value::Subnet {
        prefix: 0x0a00_0000,
        width: 8,
    })?;
    args.push(Value::Enum(SharedBytes::copy_of(alloc, b"Log::DNS")?))?;
    Ok(args)
}

#[test]
fn texts_are_those_of_print(rt: HostRuntime) -> Result<(), Fail> {
    let alloc = rt.alloc();
    let printed = fmt(alloc, b"%d %x %d of %s: 100%%", &numbers(alloc)?);
    is_string(&rt, printed, "10 beef -7 of web: 100%");
    let text = "T-0.0000011.50000010.0.0.180/tcp10.0.0.0/8Log::DNS";
    is_string(&rt, cat(alloc, &others(alloc)?), text);
    Ok(())
}

/// Strings.
fn parts(alloc: Global) -> Result<Vec<SharedBytes>, Mem> {
    let mut parts = Vec::new(alloc);
    for part in ["a", "", "c"] {
        parts.push(SharedBytes::copy_of(alloc, part.as_bytes())?)?;
    }
    Ok(parts)
}

#[test]
fn strings_are_joined_and_their_letters_changed(rt: HostRuntime) -> Result<(), Fail> {
    let alloc = rt.alloc();
    is_string(&rt, join_string_vec(alloc, &parts(alloc)?, b", "), "a, , c");
    is_string(&rt, to_lower(alloc, b"GeT /Z9"), "get /z9");
    is_string(&rt, to_upper(alloc, b"GeT /z9"), "GET /Z9");
    Ok(())
}

/// Parts of `abcdef`: a place, a length, and what they are.
const PARTS: [(u64, i64, &str); 8] = [
    (1, 3, "abc"),
    (0, 3, "abc"),
    (2, 2, "bc"),
    (3, 100, "cdef"),
    (7, 1, ""),
    (2, 0, ""),
    (2, -1, ""),
    (u64::MAX, i64::MAX, ""),
];

/// A string, another one, and where that stands in it.
const FOUND: [(&str, &str, u64); 6] = [
    ("abcabc", "ca", 3),
    ("abc", "abc", 1),
    ("abc", "", 1),
    ("", "", 1),
    ("", "a", 0),
    ("abc", "cb", 0),
];

/// Texts, and the numbers that they are read as.
const NUMBERS: [(&str, u64); 7] = [
    ("18446744073709551615", u64::MAX),
    ("18446744073709551616", 0),
    ("99999999999999999999", 0),
    ("007", 7),
    ("", 0),
    ("-1", 0),
    ("1x", 0),
];

#[test]
fn places_and_numbers_at_their_edges(rt: HostRuntime) -> Result<(), Fail> {
    let alloc = rt.alloc();
    for (start, n, text) in &PARTS {
        is_string(&rt, sub_bytes(alloc, b"abcdef", *start, *n), text);
    }
    for (big, little, place) in &FOUND {
        assert!(rt;
            strstr(big.as_bytes(), little.as_bytes()) == Ok(Value::Count(*place)),
            "{little}"
        );
    }
    for (text, number) in &NUMBERS {
        assert!(rt;
            to_count(text.as_bytes()) == Ok(Value::Count(*number)),
            "{text}"
        );
    }
    assert!(rt; starts_with(b"GET /", b"GET") == Ok(Value::Bool(true)));
    let six = addr_to_counts(alloc, Addr::V6(0x2001_0db8_0000_0000_0000_0000_ffff_0053))?;
    assert!(rt; six.as_slice() == [0x2001_0db8_u64, 0, 0, 0xffff_0053].as_slice());
    Ok(())
}
