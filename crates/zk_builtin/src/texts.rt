ghost use Rattle.std.specs.Prelude.{◌≡◌, ◌++◌, length, nat_lt, OnErr, OnOk};
ghost use Rattle.zk_typed.specs.Text.{text_of};
ghost use Rattle.zk_value.specs.Plain.{value_of};
ghost use Rattle.zk_builtin.specs.Given.{GivesText, IsText, longest};

use crate::fault::{BuiltinFault, STRING_LENGTH_MAX};
use std::alloc::AllocError;
use zk_base::Bytes;
use zk_value::{
    SharedBytes, Value, push_addr, push_count, push_int, push_port, push_span, push_subnet,
};

/// Adds the text of a value as `print` writes it (Zeek manual, Statements, print). An object has none.
/// Where memory is wanting nothing is added.
pub fn push_value(out: &mut Vec<u8>, value: &Value) -> Result<(), AllocError>
    ensures ok { OnOk result (out.new.items ≡ out.old.items ++ text_of (value_of value.now)) }
    ensures err { OnErr result (out.new.items ≡ out.old.items) }
{
    match value {
        Value::Bool(truth) => out.extend_from_slice(if *truth { b"T" } else { b"F" }),
        Value::Count(count) => push_count(out, *count),
        Value::Int(int) => push_int(out, *int),
        Value::String(bytes) => out.extend_from_slice(bytes.as_slice()),
        Value::Time(moment) => push_span(out, moment.0),
        Value::Interval(span) => push_span(out, span.0),
        Value::Addr(address) => push_addr(out, address.get()),
        Value::Port { port, proto } => push_port(out, *port, *proto),
        Value::Subnet { prefix, width } => push_subnet(out, *prefix, *width),
        Value::Enum(word) => out.extend_from_slice(word.as_slice()),
        Value::Object(_) => Ok(()),
    }
}

/// Whether a text is longer than the longest string.
pub fn is_too_long(text: &[u8]) -> bool
    ensures { result ≡ nat_lt longest (length text.now) }
{
    text.len() > STRING_LENGTH_MAX
}

/// The string of a text, none of whose bytes is copied.
pub fn string_of(text: Vec<u8>) -> Result<Value, BuiltinFault>
    ensures { GivesText result text.items }
{
    if is_too_long(&text) {
        return Err(BuiltinFault::TooLong);
    }
    as_string(text)
}

/// The string of a text of any length, none of whose bytes is copied.
pub fn as_string(text: Vec<u8>) -> Result<Value, BuiltinFault>
    ensures { IsText result text.items }
{
    Ok(Value::String(SharedBytes::of(Bytes::from(text))?))
}
