ghost use Rattle.std.specs.Prelude.{◌≡◌, map, nat_eq, Ok};
ghost use Rattle.std.specs.Char.{to_ascii_lowercase, to_ascii_uppercase};
ghost use Rattle.std.specs.List.{starts_with};
ghost use Rattle.zk_typed.specs.BuiltIns.{strstr, sub_bytes};
ghost use Rattle.zk_builtin.specs.Given.{IsText};

use crate::fault::BuiltinFault;
use crate::texts::as_string;
use memchr::memmem;
use std::alloc::Global;
use zk_value::Value;

/// The string with its ASCII capitals made small (Zeek manual, Built-in functions, to_lower). `TooLong`
/// never comes.
pub fn to_lower(alloc: Global, s: &[u8]) -> Result<Value, BuiltinFault>
    ensures { IsText result (map to_ascii_lowercase s.now) }
{
    as_string(
        s.iter()
            .map(|byte| byte.to_ascii_lowercase())
            .collect(alloc)?,
    )
}

/// The string with its small ASCII letters made capitals (Zeek manual, Built-in functions, to_upper).
/// `TooLong` never comes.
pub fn to_upper(alloc: Global, s: &[u8]) -> Result<Value, BuiltinFault>
    ensures { IsText result (map to_ascii_uppercase s.now) }
{
    as_string(
        s.iter()
            .map(|byte| byte.to_ascii_uppercase())
            .collect(alloc)?,
    )
}

/// At most `n` bytes from a place on, which is counted from 1; the place 0 counts as 1, and an `n`
/// below 0 as 0 (Zeek manual, Built-in functions, sub_bytes). `TooLong` never comes.
pub fn sub_bytes(alloc: Global, s: &[u8], start: u64, n: i64) -> Result<Value, BuiltinFault>
    ensures { IsText result (sub_bytes s.now start n) }
{
    let from = start.saturating_sub(1).min(s.len() as u64) as usize;
    let rest = &s[from..];
    let count = if n < 0 {
        0
    } else {
        (n as u64).min(rest.len() as u64) as usize
    };
    as_string(Vec::from_slice(alloc, &rest[..count])?)
}

/// The place of the first occurrence of `little` in `big`, counted from 1, and 0 where there is none.
/// The empty string is in every string, at 1 (Zeek manual, Built-in functions, strstr).
pub fn strstr(big: &[u8], little: &[u8]) -> Result<Value, BuiltinFault>
    ensures { result ≡ Ok (Value.Count (strstr big.now little.now)) }
{
    match memmem::find(big, little) {
        Some(place) => Ok(Value::Count(place as u64 + 1)),
        None => Ok(Value::Count(0)),
    }
}

/// Whether `s` begins with `t` (Zeek manual, Built-in functions, starts_with).
pub fn starts_with(s: &[u8], t: &[u8]) -> Result<Value, BuiltinFault>
    ensures { result ≡ Ok (Value.Bool (starts_with nat_eq s.now t.now)) }
{
    Ok(Value::Bool(s.starts_with(t)))
}
