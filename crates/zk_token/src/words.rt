//! Separators, names, attributes and loads at the front of a text.

ghost use Rattle.std.specs.Prelude.{◌≡◌, ◌+◌, ◌<◌, ◌≤◌, length, true, IfOk, IfSome};
ghost use Rattle.std.specs.List.{prefix_len};
ghost use Rattle.zk_token.specs.Words.{separators, separates, begins_name, goes_on_name, begins_word, word_len, member_len, name_len, name_at, attribute_at, is_blank, unseparated_len, file_at, load_at};

use std::alloc::Global;
use zk_base::{Bytes, Mem};
use zk_tree::TokenKind;

/// How many bytes of separators and comments stand at the front of a text.
pub fn separators(text: &[u8]) -> usize
    ensures exact { result ≡ separators text.now }
    ensures within { result ≤ length text.now }
{
    let mut comment = false;
    for (index, byte) in text.iter().enumerate() {
        comment = (comment || *byte == b'#') && *byte != b'\n';
        if !comment && !separates(*byte, &text[index + 1..]) {
            return index;
        }
    }
    text.len()
}

/// Whether a byte stands between tokens, in front of the rest of a text: a blank, a tab, or a line
/// end, which is LF or CR LF.
fn separates(byte: u8, rest: &[u8]) -> bool
    ensures { result ≡ separates byte rest.now }
{
    match byte {
        b' ' | b'\t' | b'\n' => true,
        b'\r' => rest.first() == Some(&b'\n'),
        _ => false,
    }
}

/// Whether a byte is a letter or `_`.
pub fn begins_name(byte: u8) -> bool
    ensures { result ≡ begins_name byte }
{
    byte.is_ascii_alphabetic() || byte == b'_'
}

/// Whether a byte is a letter, a digit or `_`.
pub fn goes_on_name(byte: u8) -> bool
    ensures { result ≡ goes_on_name byte }
{
    begins_name(byte) || byte.is_ascii_digit()
}

/// Whether a text begins with a letter or `_`.
pub fn begins_word(text: &[u8]) -> bool
    ensures { result ≡ begins_word text.now }
{
    match text {
        [] => false,
        [first, ..] => begins_name(*first),
    }
}

/// How many letters, digits and `_` stand at the front of a text.
fn word_len(text: &[u8]) -> usize
    ensures exact { result ≡ word_len text.now }
    ensures within { result ≤ length text.now }
{
    text.iter().take_while(|byte| goes_on_name(**byte)).count()
}

/// The length of `::` and a word at the front of a text, or 0.
fn member_len(text: &[u8]) -> usize
    ensures exact { result ≡ member_len text.now }
    ensures within { result ≤ length text.now }
{
    match text {
        [b':', b':', rest @ ..] if begins_word(rest) => 2 + word_len(rest),
        _ => 0,
    }
}

/// The length of the name at the front of a text that begins a word.
fn name_len(text: &[u8]) -> usize
    ensures exact { result ≡ name_len text.now }
    ensures within { result ≤ length text.now }
{
    let first = word_len(text);
    first + member_len(&text[first..])
}

/// The name at the front of a text that begins with a letter or `_`, and its length.
pub fn name(alloc: Global, text: &[u8]) -> Result<(TokenKind, usize), Mem>
    requires { begins_word text.now ≡ true }
    ensures exact { IfOk result (λ found. name_at text.now ≡ Some found) }
    ensures some { IfOk result (λ found. 0 < found.1) }
    ensures within { IfOk result (λ found. found.1 ≤ length text.now) }
{
    let len = name_len(text);
    Ok((TokenKind::Name(Bytes::copy_of(alloc, &text[..len])?), len))
}

/// The attribute whose `&` stands before a name, and its length with the `&`.
pub fn attribute(alloc: Global, text: &[u8]) -> Result<(TokenKind, usize), Mem>
    ensures exact { IfOk result (λ found. attribute_at text.now ≡ Some found) }
    ensures some { IfOk result (λ found. 0 < found.1) }
    ensures within { IfOk result (λ found. found.1 ≤ length text.now + 1) }
{
    let len = name_len(text);
    let name = Bytes::copy_of(alloc, &text[..len])?;
    Ok((TokenKind::Attribute(name), 1 + len))
}

/// The load at the front of a text, and its length.
pub fn load(alloc: Global, text: &[u8]) -> Result<Option<(TokenKind, usize)>, Mem>
    ensures exact { IfOk result (λ found. found ≡ load_at text.now) }
    ensures some { IfOk result (λ found. IfSome found (λ f. 0 < f.1)) }
    ensures within { IfOk result (λ found. IfSome found (λ f. f.1 ≤ length text.now)) }
{
    if text.len() < 5 || &text[..5] != b"@load".as_slice() {
        return Ok(None);
    }
    file(alloc, &text[5..])
}

/// The load of the file whose name stands behind blanks, and its length with them and with `@load`.
fn file(alloc: Global, text: &[u8]) -> Result<Option<(TokenKind, usize)>, Mem>
    ensures exact { IfOk result (λ found. found ≡ file_at text.now) }
    ensures some { IfOk result (λ found. IfSome found (λ f. 0 < f.1)) }
    ensures within { IfOk result (λ found. IfSome found (λ f. f.1 ≤ length text.now + 5)) }
{
    let blanks = blanks_len(text);
    let file = &text[blanks..];
    let len = unseparated_len(file);
    if blanks == 0 || len == 0 {
        return Ok(None);
    }
    let name = Bytes::copy_of(alloc, &file[..len])?;
    Ok(Some((TokenKind::Load(name), 5 + blanks + len)))
}

/// How many blanks and tabs stand at the front of a text.
fn blanks_len(text: &[u8]) -> usize
    ensures exact { result ≡ prefix_len is_blank text.now }
    ensures within { result ≤ length text.now }
{
    text.iter()
        .take_while(|byte| matches!(**byte, b' ' | b'\t'))
        .count()
}

/// How many bytes stand before the next blank or line end, or before the end of the text.
fn unseparated_len(text: &[u8]) -> usize
    ensures exact { result ≡ unseparated_len text.now }
    ensures within { result ≤ length text.now }
{
    for (index, byte) in text.iter().enumerate() {
        if separates(*byte, &text[index + 1..]) {
            return index;
        }
    }
    text.len()
}
