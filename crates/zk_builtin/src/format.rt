ghost use Rattle.std.specs.Prelude.{◌≡◌, ◌==◌, ◌++◌, ◌∷◌, [], false, ℕ, List, map, drop, IfOk, OnOk, if◌then◌else◌};
ghost use Rattle.std.specs.Fmt.{digits};
ghost use Rattle.zk_tree.specs.Lists.{joined_by};
ghost use Rattle.zk_typed.specs.BuiltIns.{by_verb, formatted, joined, with_verb};
ghost use Rattle.zk_value.specs.Plain.{value_of};
ghost use Rattle.zk_builtin.specs.Given.{GivesText};

use crate::fault::{BuiltinFault, STRING_LENGTH_MAX};
use crate::texts::{is_too_long, push_value, string_of};
use memchr::memchr;
use std::alloc::{AllocError, Global};
use zk_value::{SharedBytes, Value};

/// How many bytes the strings among values have.
fn string_bytes(args: &[Value]) -> usize {
    let mut sum = 0_usize;
    for value in args {
        if let Value::String(bytes) = value {
            sum = sum.saturating_add(bytes.len());
        }
    }
    sum
}

/// The texts of values, joined, as `print` writes each (Zeek manual, Built-in functions, cat).
pub fn cat(alloc: Global, args: &[Value]) -> Result<Value, BuiltinFault>
    ensures { GivesText result (joined (map value_of args.now)) }
{
    let mut text = Vec::new(alloc);
    text.reserve(string_bytes(args).min(STRING_LENGTH_MAX))?;
    for value in args {
        push_value(&mut text, value)?;
        if is_too_long(&text) {
            return Err(BuiltinFault::TooLong);
        }
    }
    string_of(text)
}

/// Adds a string, and before it the separator where it isn't the first.
fn push_part(text: &mut Vec<u8>, number: usize, sep: &[u8], part: &[u8]) -> Result<(), AllocError>
    ensures { OnOk result (text.new.items ≡ text.old.items ++ ((if number == 0 then [] else sep.now) ++ part.now)) }
{
    if number > 0 {
        text.extend_from_slice(sep)?;
    }
    text.extend_from_slice(part)
}

/// The strings joined, with the separator between each and the next (Zeek manual, Built-in functions,
/// join_string_vec).
pub fn join_string_vec(alloc: Global, v: &[SharedBytes], sep: &[u8]) -> Result<Value, BuiltinFault>
    ensures { GivesText result (joined_by sep.now v.now) }
{
    let mut text = Vec::new(alloc);
    for (number, part) in v.iter().enumerate() {
        push_part(&mut text, number, sep, part.as_slice())?;
        if is_too_long(&text) {
            return Err(BuiltinFault::TooLong);
        }
    }
    string_of(text)
}

/// Adds a number in lower-case hexadecimal.
fn push_hexadecimal(alloc: Global, out: &mut Vec<u8>, n: u64) -> Result<(), AllocError>
    ensures { OnOk result (out.new.items ≡ out.old.items ++ digits 16 false n) }
{
    let text = format!(in alloc; "{n:x}")?;
    out.extend_from_slice(text.as_bytes())
}

/// Adds a value by a verb: a count of `%x` in lower-case hexadecimal, and any other by its text.
fn push_by_verb(alloc: Global, out: &mut Vec<u8>, verb: u8, value: &Value) -> Result<(), AllocError>
    ensures { OnOk result (out.new.items ≡ out.old.items ++ by_verb verb (value_of value.now)) }
{
    match value {
        Value::Count(n) if verb == b'x' => push_hexadecimal(alloc, out, *n),
        _ => push_value(out, value),
    }
}

/// Adds what stands for a verb: a percent sign for `%%`, and for another the value in its place. Answers
/// the place of the next value.
fn push_verb(
    alloc: Global,
    out: &mut Vec<u8>,
    verb: u8,
    args: &[Value],
    place: usize,
) -> Result<usize, AllocError>
    ensures { IfOk result (λ next. (bytes : List ℕ) → out.new.items ++ formatted bytes (drop next (map value_of args.now))
        ≡ out.old.items ++ with_verb (verb ∷ bytes) (drop place (map value_of args.now))) }
{
    if verb == b'%' {
        out.push(b'%')?;
        return Ok(place);
    }
    match args.get(place) {
        Some(value) => {
            push_by_verb(alloc, out, verb, value)?;
            Ok(place + 1)
        }
        None => Ok(place),
    }
}

/// The text with its verbs replaced by values, in their order: `%d` by a number, `%x` by a count in
/// lower-case hexadecimal, `%s` by any value, each as `print` writes it, and `%%` by a percent sign (Zeek
/// manual, Built-in functions, fmt).
pub fn fmt(alloc: Global, text: &[u8], args: &[Value]) -> Result<Value, BuiltinFault>
    ensures { GivesText result (formatted text.now (map value_of args.now)) }
{
    let mut out = Vec::new(alloc);
    out.reserve(
        text.len()
            .saturating_add(string_bytes(args))
            .min(STRING_LENGTH_MAX),
    )?;
    let mut rest = text;
    let mut place = 0;
    while let Some(at) = memchr(b'%', rest) {
        out.extend_from_slice(&rest[..at])?;
        let Some((verb, others)) = rest[at + 1..].split_first() else {
            out.push(b'%')?;
            return string_of(out);
        };
        place = push_verb(alloc, &mut out, *verb, args, place)?;
        if is_too_long(&out) {
            return Err(BuiltinFault::TooLong);
        }
        rest = others;
    }
    out.extend_from_slice(rest)?;
    string_of(out)
}
