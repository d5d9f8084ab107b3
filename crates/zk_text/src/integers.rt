ghost use Rattle.std.specs.Prelude.{◌≡◌, ◌<◌, ◌≤◌, ◌↔◌, ◌++◌, decimal, drop, length, IfOk, IsErr, IsOk, OnErr, OnOk};
ghost use Rattle.std.specs.Fmt.{signed_decimal};

use crate::Short;
use crate::front::write_front;
use itoa::Buffer;

/// The length of the longest text of `count_text`, in bytes: that of 18446744073709551615.
pub const COUNT_TEXT_MAX: usize = 20;

/// Writes the decimal digits of a number to the front of a buffer, and answers how many they are.
/// `Short` comes exactly where there are more digits than the buffer has bytes.
pub fn count_text(n: u64, out: &mut [u8]) -> Result<usize, Short>
    ensures len { IfOk result (λ len. len ≡ length (decimal n)) }
    ensures text { OnOk result (out.new ≡ decimal n ++ drop (length (decimal n)) out.old) }
    ensures short { IsErr result ↔ (length out.old < length (decimal n)) }
    ensures err { OnErr result (out.new ≡ out.old) }
    ensures bound { length (decimal n) ≤ COUNT_TEXT_MAX }
    ensures room { COUNT_TEXT_MAX ≤ length out.old → IsOk result }
{
    write_front(Buffer::new().format(n).as_bytes(), out)
}

/// The length of the longest text of `int_text`, in bytes: that of -9223372036854775808.
pub const INT_TEXT_MAX: usize = 20;

/// Writes the decimal digits of a number to the front of a buffer, with `-` before a negative one,
/// and answers how many bytes they are. `Short` comes exactly where the text is longer than the buffer.
pub fn int_text(n: i64, out: &mut [u8]) -> Result<usize, Short>
    ensures len { IfOk result (λ len. len ≡ length (signed_decimal n)) }
    ensures text { OnOk result (out.new ≡ signed_decimal n ++ drop (length (signed_decimal n)) out.old) }
    ensures short { IsErr result ↔ (length out.old < length (signed_decimal n)) }
    ensures err { OnErr result (out.new ≡ out.old) }
    ensures bound { length (signed_decimal n) ≤ INT_TEXT_MAX }
    ensures room { INT_TEXT_MAX ≤ length out.old → IsOk result }
{
    let mut digits = Buffer::new();
    write_front(digits.format(n).as_bytes(), out)
}
