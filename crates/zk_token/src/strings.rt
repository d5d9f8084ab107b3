//! Strings at the front of a text.

ghost use Rattle.std.specs.Prelude.{◌≡◌, ◌+◌, ◌<◌, ◌≤◌, ◌^◌, length, false, None, IfOk, IfSome};
ghost use Rattle.std.specs.Option.{ok_or};
ghost use Rattle.zk_token.specs.Items.{StandBetween, found_at};
ghost use Rattle.zk_token.specs.Strings.{spelled_at, escape_at, hexadecimal_at, string_at, closes_after, string_fault};
ghost use Rattle.zk_token.specs.Tokens.{UnlessNoMemory};

use crate::fault::LexFault;
use std::alloc::Global;
use zk_base::{Bytes, Mem};
use zk_tree::TokenKind;

/// The string whose opening quote stands before a text, and how many bytes it has with both quotes.
/// The quote stands at a place.
pub fn string(alloc: Global, text: &[u8], place: u64) -> Result<(TokenKind, usize), LexFault>
    requires { place + 1 + length text.now < 2 ^ 64 }
    ensures exact { UnlessNoMemory result (ok_or (string_at text.now) (string_fault place text.now)) }
    ensures some { IfOk result (λ f. 0 < f.1) }
    ensures within { IfOk result (λ f. f.1 ≤ length text.now + 1) }
{
    let (bytes, end) = string_bytes(alloc, text)?;
    if end < text.len() && text[end] == b'"' {
        Ok((TokenKind::String(Bytes::from(bytes)), 2 + end))
    } else if closes(&text[end..]) {
        let place = place + 1 + end as u64;
        Err(LexFault::BadByte { place })
    } else {
        Err(LexFault::OpenString { place })
    }
}

/// The bytes of a string up to a byte that spells none of them, and the place of that byte.
fn string_bytes(alloc: Global, text: &[u8]) -> Result<(Vec<u8>, usize), Mem>
    ensures stand { IfOk result (λ found. StandBetween (found_at spelled_at text.now) 0 found.0.items found.1) }
    ensures no_more { IfOk result (λ found. found_at spelled_at text.now found.1 ≡ None) }
    ensures few { IfOk result (λ found. length found.0.items ≤ found.1) }
    ensures within { IfOk result (λ found. found.1 ≤ length text.now) }
{
    let mut bytes = Vec::new(alloc);
    let mut place = 0;
    while let Some((byte, len)) = spelled(&text[place..]) {
        bytes.push(byte)?;
        place += len;
    }
    Ok((bytes, place))
}

/// The byte of a string that the front of a text spells, and how many bytes spell it.
fn spelled(text: &[u8]) -> Option<(u8, usize)>
    ensures exact { result ≡ spelled_at text.now }
    ensures some { IfSome result (λ f. 0 < f.1) }
    ensures within { IfSome result (λ f. f.1 ≤ length text.now) }
{
    let (first, rest) = text.split_first()?;
    match *first {
        b'"' | b'\n' => None,
        b'\\' => escape(rest),
        byte => Some((byte, 1)),
    }
}

/// The byte of an escape whose backslash stands before a text, and the length of the escape.
fn escape(text: &[u8]) -> Option<(u8, usize)>
    ensures exact { result ≡ escape_at text.now }
    ensures some { IfSome result (λ f. 0 < f.1) }
    ensures within { IfSome result (λ f. f.1 ≤ length text.now + 1) }
{
    let (first, rest) = text.split_first()?;
    match *first {
        b'n' => Some((b'\n', 2)),
        b't' => Some((b'\t', 2)),
        b'r' => Some((b'\r', 2)),
        b'"' => Some((b'"', 2)),
        b'\\' => Some((b'\\', 2)),
        b'x' => hexadecimal(rest),
        _ => None,
    }
}

/// The byte of two hexadecimal digits, and the length of the escape, whose backslash and `x` stand
/// before them.
fn hexadecimal(text: &[u8]) -> Option<(u8, usize)>
    ensures exact { result ≡ hexadecimal_at text.now }
    ensures some { IfSome result (λ f. 0 < f.1) }
    ensures within { IfSome result (λ f. f.1 ≤ length text.now + 2) }
{
    let [high, low, ..] = text else {
        return None;
    };
    let high = char::from(*high).to_digit(16)?;
    let low = char::from(*low).to_digit(16)?;
    Some(((16 * high + low) as u8, 4))
}

/// Whether a quote closes, on its line, the string that a text goes on with. A backslash stands with
/// the byte behind it.
fn closes(text: &[u8]) -> bool
    ensures { result ≡ closes_after false text.now }
{
    let mut escaped = false;
    for byte in text {
        if *byte == b'\n' {
            return false;
        }
        if *byte == b'"' && !escaped {
            return true;
        }
        escaped = *byte == b'\\' && !escaped;
    }
    false
}
