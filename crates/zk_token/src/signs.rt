//! Signs at the front of a text.

ghost use Rattle.std.specs.Prelude.{◌≡◌, ◌<◌, ◌≤◌, length, IfSome};
ghost use Rattle.zk_token.specs.Signs.{single_sign, double_sign, goes_on, is_not_in, double_at, single_at, sign_at};

use crate::words::goes_on_name;
use zk_tree::{Sign, TokenKind};

/// The longest sign at the front of a text, and its length.
pub fn sign(text: &[u8]) -> Option<(TokenKind, usize)>
    ensures exact { result ≡ sign_at text.now }
    ensures some { IfSome result (λ f. 0 < f.1) }
    ensures within { IfSome result (λ f. f.1 ≤ length text.now) }
{
    if is_not_in(text) {
        return Some((TokenKind::Sign(Sign::NotIn), 3));
    }
    if let Some(sign) = double_at(text) {
        return Some((TokenKind::Sign(sign), 2));
    }
    let sign = single_at(text)?;
    Some((TokenKind::Sign(sign), 1))
}

/// Whether `!in` begins a text, and no name goes on behind it.
fn is_not_in(text: &[u8]) -> bool
    ensures { result ≡ is_not_in text.now }
{
    match text {
        [b'!', b'i', b'n', rest @ ..] => !goes_on(rest),
        _ => false,
    }
}

/// Whether a text begins with a letter, a digit or `_`.
fn goes_on(text: &[u8]) -> bool
    ensures { result ≡ goes_on text.now }
{
    match text {
        [] => false,
        [first, ..] => goes_on_name(*first),
    }
}

/// The sign of two bytes at the front of a text.
fn double_at(text: &[u8]) -> Option<Sign>
    ensures { result ≡ double_at text.now }
{
    match text {
        [first, second, ..] => double_sign(*first, *second),
        _ => None,
    }
}

/// The sign that two bytes are.
fn double_sign(first: u8, second: u8) -> Option<Sign>
    ensures { result ≡ double_sign first second }
{
    match (first, second) {
        (b'?', b'$') => Some(Sign::QuestionDollar),
        (b'=', b'=') => Some(Sign::EqualEqual),
        (b'!', b'=') => Some(Sign::NotEqual),
        (b'<', b'=') => Some(Sign::LessEqual),
        (b'>', b'=') => Some(Sign::GreaterEqual),
        (b'&', b'&') => Some(Sign::And),
        (b'|', b'|') => Some(Sign::Or),
        (b'+', b'=') => Some(Sign::PlusEqual),
        (b'-', b'=') => Some(Sign::MinusEqual),
        (b'+', b'+') => Some(Sign::PlusPlus),
        (b'-', b'-') => Some(Sign::MinusMinus),
        _ => None,
    }
}

/// The sign of one byte at the front of a text.
fn single_at(text: &[u8]) -> Option<Sign>
    ensures { result ≡ single_at text.now }
{
    match text {
        [first, ..] => single_sign(*first),
        [] => None,
    }
}

/// The sign that a byte is.
fn single_sign(byte: u8) -> Option<Sign>
    ensures { result ≡ single_sign byte }
{
    Some(match byte {
        b'(' => Sign::OpenParenthesis,
        b')' => Sign::CloseParenthesis,
        b'[' => Sign::OpenBracket,
        b']' => Sign::CloseBracket,
        b'{' => Sign::OpenBrace,
        b'}' => Sign::CloseBrace,
        b',' => Sign::Comma,
        b';' => Sign::Semicolon,
        b':' => Sign::Colon,
        b'?' => Sign::Question,
        b'$' => Sign::Dollar,
        b'=' => Sign::Equal,
        b'<' => Sign::Less,
        b'>' => Sign::Greater,
        b'+' => Sign::Plus,
        b'-' => Sign::Minus,
        b'*' => Sign::Star,
        b'/' => Sign::Slash,
        b'%' => Sign::Percent,
        b'!' => Sign::Not,
        b'|' => Sign::Bar,
        _ => return None,
    })
}
