ghost use Rattle.std.specs.Prelude.{◌≡◌, ◌+◌, ◌*◌, ◌-◌, ◌^◌, ◌<◌, Ok, SomeIff, IsTrue, ◌↔◌};
ghost use Rattle.zk_typed.specs.BuiltIns.{is_digit, to_count};

use crate::fault::BuiltinFault;
use zk_value::Value;

/// The number with one decimal digit more. None where it would be 2^64 or more.
fn with_digit(number: u64, byte: u8) -> Option<u64>
    requires { IsTrue (is_digit byte) }
    ensures { SomeIff result (number * 10 + (byte - 48) < 2 ^ 64) (number * 10 + (byte - 48)) }
{
    number.checked_mul(10)?.checked_add(u64::from(byte - b'0'))
}

/// The number of a text.
fn number_of(s: &[u8]) -> u64
    ensures { result ≡ to_count s.now }
{
    let mut number = 0_u64;
    for byte in s {
        if !byte.is_ascii_digit() {
            return 0;
        }
        match with_digit(number, *byte) {
            Some(more) => number = more,
            None => return 0,
        }
    }
    number
}

/// The number that decimal digits make, and 0 for any other text and from 2^64 on (Zeek manual, Built-in
/// functions, to_count).
pub fn to_count(s: &[u8]) -> Result<Value, BuiltinFault>
    ensures { result ≡ Ok (Value.Count (to_count s.now)) }
{
    Ok(Value::Count(number_of(s)))
}
