ghost use Rattle.std.specs.Prelude.{◌≡◌, ◌<◌, ◌≤◌, ◌↔◌, ◌++◌, ◌+◌, ◌^◌, ℕ, List, All, count_by, drop, flat_map, length, take, IfOk, IsErr, OnErr, OnOk};
ghost use Rattle.zk_text.specs.Escape.{byte_text, escaped, is_escaped, is_taken, piece, IsCell};

use crate::Short;
use crate::addresses::hex_digit;

/// The length of an escape.
const ESCAPE_LEN: usize = 4;

/// Writes a string as a cell of a log has it to the front of a buffer, and answers the length in
/// bytes. `in_set` says that it stands in a set or a vector. `Short` comes exactly where the text is
/// longer than the buffer. The text of an empty string is empty: that a cell says `(empty)` is left
/// to the caller.
pub fn escape_into(text: &[u8], in_set: bool, out: &mut [u8]) -> Result<usize, Short>
    ensures len { IfOk result (λ len. len ≡ length (escaped in_set text.now)) }
    ensures text { OnOk result (out.new ≡ escaped in_set text.now ++ drop (length (escaped in_set text.now)) out.old) }
    ensures short { IsErr result ↔ (length out.old < length (escaped in_set text.now)) }
    ensures err { OnErr result (out.new ≡ out.old) }
    // The text tells the string, and a reader of the log takes it for nothing else.
    ensures alone { (other : List ℕ) → All (λ byte. byte < 2 ^ 8) other → escaped in_set other ≡ escaped in_set text.now → other ≡ text.now }
    ensures cell { IsCell in_set (escaped in_set text.now) }
{
    let [first, rest @ ..] = text else {
        return Ok(0);
    };
    let first_escaped = is_taken(text) || is_escaped(*first, in_set);
    if (out.len() as u128) < escaped_len(first_escaped, rest, in_set) {
        return Err(Short);
    }
    let mut len = write_piece(first_escaped, *first, out, 0);
    for byte in rest {
        len = write_piece(is_escaped(*byte, in_set), *byte, out, len);
    }
    Ok(len)
}

/// The length of the text of a byte and of those behind it.
fn escaped_len(first_escaped: bool, rest: &[u8], in_set: bool) -> u128
    ensures { (first : ℕ) → result ≡ length (piece first_escaped first ++ flat_map (byte_text in_set) rest.now) }
{
    let escapes = escapes_in(rest, in_set);
    let first_len = if first_escaped { ESCAPE_LEN } else { 1 };
    first_len as u128 + rest.len() as u128 + (ESCAPE_LEN - 1) as u128 * escapes as u128
}

/// How many bytes are escaped wherever they stand.
fn escapes_in(bytes: &[u8], in_set: bool) -> usize
    ensures exact { result ≡ count_by (is_escaped in_set) bytes.now }
    ensures bound { result ≤ length bytes.now }
{
    bytes
        .iter()
        .filter(|byte| is_escaped(**byte, in_set))
        .count()
}

/// Writes the text of a byte at a place of the buffer, and answers the place behind it.
fn write_piece(escape: bool, byte: u8, out: &mut [u8], place: usize) -> usize
    requires { place + length (piece escape byte) ≤ length out.old }
    ensures end { result ≡ place + length (piece escape byte) }
    ensures text { take result out.new ≡ take place out.old ++ piece escape byte }
    ensures rest { drop result out.new ≡ drop result out.old }
{
    if !escape {
        out[place] = byte;
        return place + 1;
    }
    let high = hex_digit(u16::from(byte / 16));
    let low = hex_digit(u16::from(byte % 16));
    out[place..place + ESCAPE_LEN].copy_from_slice(&[b'\\', b'x', high, low]);
    place + ESCAPE_LEN
}

/// Whether a byte is escaped wherever it stands.
fn is_escaped(byte: u8, in_set: bool) -> bool
    ensures { result ≡ is_escaped in_set byte }
{
    byte < b' ' || byte >= 0x7f || byte == b'\\' || (in_set && byte == b',')
}

/// Whether a string would be taken for a line of the header, for no value or for an empty one.
fn is_taken(text: &[u8]) -> bool
    ensures { result ≡ is_taken text.now }
{
    match text {
        [] => false,
        [first, ..] => *first == b'#' || text == b"-".as_slice() || text == b"(empty)".as_slice(),
    }
}
