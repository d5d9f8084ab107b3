ghost use Rattle.std.specs.Prelude.{◌≡◌, ◌<◌, ◌≤◌, ◌↔◌, ◌++◌, ◌+◌, ◌^◌, codes, drop, length, take, ℤ, FitsSigned, IfOk, IsErr, IsOk, OnErr, OnOk};
ghost use Rattle.std.specs.Int.{w64};
ghost use Rattle.zk_text.specs.Span.{padded_decimal, seconds_decimal, span_decimal};

use crate::Short;
use crate::front::write_front;
use itoa::write_digits;

/// The length of the longest text of `span_text`, in bytes: that of -9223372036854.775808.
pub const SPAN_TEXT_MAX: usize = 21;

const MICROSECONDS_PER_SECOND: u64 = 1_000_000;

/// Writes a time or an interval of `n` microseconds as seconds with six decimals to the front of a
/// buffer, with `-` before a negative one, and answers the length in bytes.
/// `Short` comes exactly where the text is longer than the buffer.
#[tactic(auto, using(crate::proofs::Injective::span_decimal_injective))]
pub fn span_text(n: i64, out: &mut [u8]) -> Result<usize, Short>
    ensures len { IfOk result (λ len. len ≡ length (span_decimal n)) }
    ensures text { OnOk result (out.new ≡ span_decimal n ++ drop (length (span_decimal n)) out.old) }
    ensures short { IsErr result ↔ (length out.old < length (span_decimal n)) }
    ensures err { OnErr result (out.new ≡ out.old) }
    ensures bound { length (span_decimal n) ≤ SPAN_TEXT_MAX }
    ensures room { SPAN_TEXT_MAX ≤ length out.old → IsOk result }
    // The text tells the number: no other of 64 bits has the same one.
    ensures alone { (other : ℤ) → FitsSigned w64 other → span_decimal other ≡ span_decimal n → other ≡ n }
{
    let mut text = [0; SPAN_TEXT_MAX];
    let start = write_span(n, &mut text, SPAN_TEXT_MAX);
    write_front(&text[start..], out)
}

/// Writes the text that `span_text` writes so that it ends at a place of a buffer before which the longest
/// one has room, and answers where it starts. The rest of the buffer stays.
pub fn write_span(n: i64, buf: &mut [u8], end: usize) -> usize
    requires room { SPAN_TEXT_MAX ≤ end }
    requires within { end ≤ length buf.old }
    ensures start { result + length (span_decimal n) ≡ end }
    ensures written { drop result buf.new ≡ span_decimal n ++ drop end buf.old }
    ensures before { take result buf.new ≡ take result buf.old }
    ensures bound { length (span_decimal n) ≤ SPAN_TEXT_MAX }
{
    let start = write_seconds(n.unsigned_abs(), buf, end);
    if n >= 0 {
        return start;
    }
    buf[start - 1] = b'-';
    start - 1
}

/// Writes the text of a number without its sign in the same way, and leaves room for the sign.
fn write_seconds(size: u64, buf: &mut [u8], end: usize) -> usize
    requires range { size ≤ 2 ^ 63 }
    requires room { SPAN_TEXT_MAX ≤ end }
    requires within { end ≤ length buf.old }
    ensures start { result + length (seconds_decimal size) ≡ end }
    ensures written { drop result buf.new ≡ seconds_decimal size ++ drop end buf.old }
    ensures before { take result buf.new ≡ take result buf.old }
    ensures short { length (seconds_decimal size) < SPAN_TEXT_MAX }
{
    let point = write_rest(size % MICROSECONDS_PER_SECOND, buf, end);
    write_digits(size / MICROSECONDS_PER_SECOND, buf, point)
}

/// Writes the point and the six digits of the rest of a second. A whole second is added to the rest, so
/// that its zeros are written: the point takes the place of that second's digit.
fn write_rest(rest: u64, buf: &mut [u8], end: usize) -> usize
    requires rest { rest < MICROSECONDS_PER_SECOND }
    requires room { 7 ≤ end }
    requires within { end ≤ length buf.old }
    ensures start { result + 7 ≡ end }
    ensures written { drop result buf.new ≡ (codes "." ++ padded_decimal 6 rest) ++ drop end buf.old }
    ensures before { take result buf.new ≡ take result buf.old }
{
    let point = write_digits(MICROSECONDS_PER_SECOND + rest, buf, end);
    buf[point] = b'.';
    point
}
