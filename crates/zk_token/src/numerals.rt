//! Numbers, ports, addresses and subnets at the front of a text.

ghost use Rattle.std.specs.Prelude.{◌≡◌, ◌≤◌, length, take, option_map, IfSome};
ghost use Rattle.std.specs.Str.Parse.{digits_value};
ghost use Rattle.zk_token.specs.Numerals.{begins_digit, with_digit, digits_within, number_within, behind, before_point, address_at, width_at, prefix_of, located, proto_at, port_at, digits_at, numeral_form, ranged};

use zk_base::Proto;
use zk_tree::TokenKind;

/// The greatest part of an address.
const PART_MAX: u64 = 255;

/// The greatest port.
const PORT_MAX: u64 = 65_535;

/// The greatest width of a subnet, in bits.
const WIDTH_MAX: u64 = 32;

/// The number, port, address or subnet at the front of a text that begins with a digit, and what
/// stands behind it. There is none where the number is past 2^64 - 1.
pub fn numeral(text: &[u8]) -> Option<(TokenKind, &[u8])>
    ensures { option_map (λ found. (found.0, found.1.now)) result ≡ ranged (numeral_form text.now) }
{
    if let Some((address, rest)) = address(text) {
        return Some(located(address, rest));
    }
    if let Some((port, proto, rest)) = port(text) {
        return Some((TokenKind::Port { port, proto }, rest));
    }
    let (value, rest) = number(text)?;
    Some((TokenKind::Number(value), rest))
}

/// An address, or a subnet where a width stands behind it.
fn located(address: u32, rest: &[u8]) -> (TokenKind, &[u8])
    ensures kind { result.0 ≡ (located address rest.now).0 }
    ensures rest { result.1.now ≡ (located address rest.now).1 }
{
    match width(rest) {
        Some((width, behind)) => {
            let prefix = prefix_of(address, width);
            (TokenKind::Subnet { prefix, width }, behind)
        }
        None => (TokenKind::Address(address), rest),
    }
}

/// An address with the bits behind a width cleared.
fn prefix_of(address: u32, width: u8) -> u32
    requires { width ≤ 32 }
    ensures { result ≡ prefix_of address width }
{
    let addresses = 2_u64.pow(32 - u32::from(width));
    address - (u64::from(address) % addresses) as u32
}

/// An address, and what stands behind it.
fn address(text: &[u8]) -> Option<(u32, &[u8])>
    ensures { option_map (λ found. (found.0, found.1.now)) result ≡ address_at text.now }
{
    let (first, rest) = before_point(text)?;
    let (second, rest) = before_point(rest)?;
    let (third, rest) = before_point(rest)?;
    let (fourth, rest) = number_within(rest, PART_MAX)?;
    let address = ((first * 256 + second) * 256 + third) * 256 + fourth;
    Some((address as u32, rest))
}

/// A part of an address but the last, and what stands behind its point.
fn before_point(text: &[u8]) -> Option<(u64, &[u8])>
    ensures exact { option_map (λ found. (found.0, found.1.now)) result ≡ before_point text.now }
    ensures small { IfSome result (λ found. found.0 ≤ 255) }
{
    let (part, rest) = number_within(text, PART_MAX)?;
    Some((part, behind(b'.', rest)?))
}

/// The width of a subnet behind a slash, and what stands behind it.
fn width(text: &[u8]) -> Option<(u8, &[u8])>
    ensures exact { option_map (λ found. (found.0, found.1.now)) result ≡ width_at text.now }
    ensures small { IfSome result (λ found. found.0 ≤ 32) }
{
    let (width, rest) = number_within(behind(b'/', text)?, WIDTH_MAX)?;
    Some((width as u8, rest))
}

/// A port with its protocol, and what stands behind it.
fn port(text: &[u8]) -> Option<(u16, Proto, &[u8])>
    ensures { option_map (λ found. (TokenKind.Port found.0 found.1, found.2.now)) result ≡ port_at text.now }
{
    let (port, rest) = number_within(text, PORT_MAX)?;
    let (proto, rest) = proto(behind(b'/', rest)?)?;
    Some((port as u16, proto, rest))
}

/// The protocol that the front of a text names, and what stands behind it.
fn proto(text: &[u8]) -> Option<(Proto, &[u8])>
    ensures { option_map (λ found. (found.0, found.1.now)) result ≡ proto_at text.now }
{
    match text {
        [b't', b'c', b'p', rest @ ..] => Some((Proto::Tcp, rest)),
        [b'u', b'd', b'p', rest @ ..] => Some((Proto::Udp, rest)),
        _ => None,
    }
}

/// The number at the front of a text, if it is below 2^64, and what stands behind its digits.
fn number(text: &[u8]) -> Option<(u64, &[u8])>
    ensures { option_map (λ found. (TokenKind.Number found.0, found.1.now)) result ≡ ranged (digits_at text.now) }
{
    let (value, count) = digits_within(text, u64::MAX);
    let rest = &text[count..];
    if begins_digit(rest) {
        return None;
    }
    Some((value, rest))
}

/// Whether a text begins with a digit.
fn begins_digit(text: &[u8]) -> bool
    ensures { result ≡ begins_digit text.now }
{
    match text {
        [] => false,
        [first, ..] => first.is_ascii_digit(),
    }
}

/// A number of at most a bound, of as many digits as fit, and what stands behind them.
fn number_within(text: &[u8], most: u64) -> Option<(u64, &[u8])>
    ensures exact { option_map (λ found. (found.0, found.1.now)) result ≡ number_within most text.now }
    ensures small { IfSome result (λ found. found.0 ≤ most) }
{
    let (value, count) = digits_within(text, most);
    if count == 0 {
        return None;
    }
    Some((value, &text[count..]))
}

/// The number of the digits at the front of a text, as many as keep it at most a bound, and how many
/// they are.
fn digits_within(text: &[u8], most: u64) -> (u64, usize)
    ensures value { result.0 ≡ digits_value 10 (take result.1 text.now) }
    ensures count { result.1 ≡ digits_within most 0 text.now }
    ensures small { result.0 ≤ most }
    ensures within { result.1 ≤ length text.now }
{
    let mut value = 0;
    for (index, byte) in text.iter().enumerate() {
        match with_digit(value, *byte, most) {
            Some(more) => value = more,
            None => return (value, index),
        }
    }
    (value, text.len())
}

/// The value of digits and one more behind them, if the byte is a digit and the value at most a bound.
fn with_digit(value: u64, byte: u8, most: u64) -> Option<u64>
    ensures { result ≡ with_digit most value byte }
{
    if !byte.is_ascii_digit() {
        return None;
    }
    let more = value.checked_mul(10)?.checked_add(u64::from(byte - b'0'))?;
    (more <= most).then_some(more)
}

/// What stands behind a byte.
fn behind(byte: u8, text: &[u8]) -> Option<&[u8]>
    ensures { option_map (λ rest. rest.now) result ≡ behind byte text.now }
{
    match text {
        [] => None,
        [first, rest @ ..] => (*first == byte).then_some(rest),
    }
}
