ghost use Rattle.std.specs.Prelude.{◌≡◌, ◌<◌, not, [], ◌∷◌, codes, reverse, length, option_copied, IfSome};
ghost use Rattle.std.specs.List.{list_all};
ghost use Rattle.httparse.specs.Grammar.{is_ows, skip_ows, trim_ows};
ghost use Rattle.zk_http.specs.Bodies.{asked_by, asked_by_method, by_coding, by_fields, code_of, elements_if, elements_in, elements_left, elements_of, has, has_length, length_of, holds_back, first_or_none, is_bare, is_interim, is_named, last_element, makes_tunnel, one_length, request_body, response_body};

use crate::{Head, Reason, Start};
use memchr::memchr;
use zk_base::Bytes;

/// How a request bears on its response.
#[derive(Clone, Copy, Debug, PartialEq, Eq)]
pub enum Asked {
    /// By HEAD: the response has no body.
    Head,
    /// By CONNECT: a response of success makes the connection a tunnel.
    Connect,
    /// By any other method.
    Other,
}

/// What follows a head (RFC 9112, section 6.3).
#[derive(Clone, Copy, Debug, PartialEq, Eq)]
pub enum Body {
    /// Nothing.
    Empty,
    /// So many places.
    Length(u64),
    /// Chunks.
    Chunked,
    /// All up to the end of the stream.
    ToEnd,
    /// No message: the connection has become a tunnel.
    Tunnels,
    /// The head does not say how long the body is.
    Unknown(Reason),
}

/// How the request bears on its response.
pub fn asked_by(start: &Start) -> Asked
    ensures { result ≡ asked_by start.now }
{
    match start {
        Start::Request { method, .. } => asked_by_method(method.as_slice()),
        Start::Response { .. } => Asked::Other,
    }
}

fn asked_by_method(method: &[u8]) -> Asked
    ensures { result ≡ asked_by_method method.now }
{
    if method == b"HEAD".as_slice() {
        Asked::Head
    } else if method == b"CONNECT".as_slice() {
        Asked::Connect
    } else {
        Asked::Other
    }
}

fn code_of(start: &Start) -> u16
    ensures { result ≡ code_of start.now }
{
    match start {
        Start::Request { .. } => 0,
        Start::Response { code, .. } => *code,
    }
}

/// Whether a head has a field of this name, in any case.
fn has(name: &[u8], head: &Head) -> bool
    ensures { result ≡ has name.now head.now }
{
    head.headers
        .as_slice()
        .iter()
        .any(|header| header.0.as_slice().eq_ignore_ascii_case(name))
}

/// Whether the response is no answer yet: a code from 100 to 199 but 101.
pub fn is_interim(head: &Head) -> bool
    ensures { result ≡ is_interim head.now }
{
    let code = code_of(&head.start);
    (100..=199).contains(&code) && code != 101
}

/// Whether the stream of the request waits for its response.
pub fn holds_back(head: &Head) -> bool
    ensures { result ≡ holds_back head.now }
{
    asked_by(&head.start) == Asked::Connect || has(b"Upgrade".as_slice(), head)
}

/// Whether the response makes the connection a tunnel.
pub fn makes_tunnel(asked: Asked, head: &Head) -> bool
    ensures { result ≡ makes_tunnel asked head.now }
{
    let code = code_of(&head.start);
    code == 101 || (asked == Asked::Connect && (200..=299).contains(&code))
}

/// Whether the response has no body, whatever its fields say.
fn is_bare(asked: Asked, head: &Head) -> bool
    ensures { result ≡ is_bare asked head.now }
{
    let code = code_of(&head.start);
    is_interim(head) || code == 204 || code == 304 || asked == Asked::Head
}

/// Optional white space: a space or a tab.
fn is_ows(byte: u8) -> bool
    ensures { result ≡ is_ows byte }
{
    byte == b' ' || byte == b'\t'
}

/// The bytes without the white space before them.
fn trim_start(bytes: &[u8]) -> &[u8]
    ensures { result.now ≡ skip_ows bytes.now }
{
    let mut start = 0;
    while start < bytes.len() && is_ows(bytes[start]) {
        start += 1;
    }
    &bytes[start..]
}

/// The bytes without the white space behind them.
fn trim_end(bytes: &[u8]) -> &[u8]
    ensures { result.now ≡ reverse (skip_ows (reverse bytes.now)) }
{
    let mut end = bytes.len();
    while end > 0 && is_ows(bytes[end - 1]) {
        end -= 1;
    }
    &bytes[..end]
}

/// The bytes without the white space around them (RFC 9110, section 5.6.3).
#[tactic(auto, unfolding(httparse::specs::Grammar::trim_ows))]
fn trim(bytes: &[u8]) -> &[u8]
    ensures { result.now ≡ trim_ows bytes.now }
{
    trim_end(trim_start(bytes))
}

const COMMA: u8 = b',';

/// The first element of a value, and what stands behind the comma that ends it (RFC 9110, section
/// 5.6.1).
fn first_element(value: &[u8]) -> (&[u8], Option<&[u8]>)
    ensures elements { elements_in value.now ≡ result.0.now ∷ elements_left (option_copied result.1) }
    ensures shorter { IfSome result.1 (λ rest. length rest.now < length value.now) }
{
    match memchr(COMMA, value) {
        Some(at) => (trim(&value[..at]), Some(&value[at + 1..])),
        None => (trim(value), None),
    }
}

/// The last element of a value that is not empty, or the one before.
fn last_element<'a>(before: &'a [u8], value: &'a [u8]) -> &'a [u8]
    ensures { result.now ≡ last_element before.now (elements_in value.now) }
{
    let mut last = before;
    let mut left = Some(value);
    while let Some(value) = left {
        let (element, rest) = first_element(value);
        if !element.is_empty() {
            last = element;
        }
        left = rest;
    }
    last
}

/// The last element of a head's fields of a name that is not empty, or none.
fn last_of<'a>(name: &[u8], headers: &'a [(Bytes, Bytes)]) -> &'a [u8]
    ensures { result.now ≡ last_element [] (elements_of name.now headers.now) }
{
    let mut last: &[u8] = &[];
    for header in headers {
        last = last_in(name, last, header);
    }
    last
}

/// The last element of a header field that is not empty, where it has the name, or the one before.
fn last_in<'a>(name: &[u8], before: &'a [u8], header: &'a (Bytes, Bytes)) -> &'a [u8]
    ensures { result.now ≡ last_element before.now (elements_if name.now header.now) }
{
    if header.0.as_slice().eq_ignore_ascii_case(name) {
        last_element(before, header.1.as_slice())
    } else {
        before
    }
}

/// The most digits of a body's length.
const DIGITS_MAX: usize = 18;

/// The number that 1 to 18 decimal digits write.
fn length_of(element: &[u8]) -> Option<u64>
    ensures { result ≡ length_of element.now }
{
    if element.is_empty() || element.len() > DIGITS_MAX {
        return None;
    }
    let mut number = 0;
    for byte in element {
        if !byte.is_ascii_digit() {
            return None;
        }
        number = number * 10 + u64::from(*byte - b'0');
    }
    Some(number)
}

/// Whether each element of a value is this length.
fn is_length(number: u64, value: &[u8]) -> bool
    ensures { result ≡ list_all (has_length number) (elements_in value.now) }
{
    let mut left = Some(value);
    while let Some(value) = left {
        let (element, rest) = first_element(value);
        if length_of(element) != Some(number) {
            return false;
        }
        left = rest;
    }
    true
}

/// The length that the first element of the Content-Length fields names.
fn first_length(headers: &[(Bytes, Bytes)]) -> Option<u64>
    ensures { result ≡ length_of (first_or_none (elements_of (codes "Content-Length") headers.now)) }
{
    for header in headers {
        if is_content_length(header) {
            return length_of(first_element(header.1.as_slice()).0);
        }
    }
    None
}

fn is_content_length(header: &(Bytes, Bytes)) -> bool
    ensures { result ≡ is_named (codes "Content-Length") header.now }
{
    header.0.as_slice().eq_ignore_ascii_case(b"Content-Length")
}

/// Whether each element of the Content-Length fields names this length.
fn are_length(number: u64, headers: &[(Bytes, Bytes)]) -> bool
    ensures { result ≡ list_all (has_length number) (elements_of (codes "Content-Length") headers.now) }
{
    for header in headers {
        if is_content_length(header) && !is_length(number, header.1.as_slice()) {
            return false;
        }
    }
    true
}

/// The one length that all Content-Length fields name (RFC 9112, section 6.3).
fn one_length(headers: &[(Bytes, Bytes)]) -> Option<u64>
    ensures { result ≡ one_length (elements_of (codes "Content-Length") headers.now) }
{
    match first_length(headers) {
        Some(number) if are_length(number, headers) => Some(number),
        _ => None,
    }
}

/// The body that the header fields tell, where a coding other than `chunked` and no field mean these
/// (RFC 9112, section 6.3).
fn by_fields(not_chunked: Body, without: Body, head: &Head) -> Body
    ensures { result ≡ by_fields not_chunked without head.now }
{
    if has(b"Transfer-Encoding".as_slice(), head) {
        let coding = last_of(b"Transfer-Encoding".as_slice(), head.headers.as_slice());
        by_coding(coding, not_chunked)
    } else if has(b"Content-Length".as_slice(), head) {
        match one_length(head.headers.as_slice()) {
            Some(number) => Body::Length(number),
            None => Body::Unknown(Reason::LengthBad),
        }
    } else {
        without
    }
}

/// The body that the last transfer coding tells.
fn by_coding(coding: &[u8], not_chunked: Body) -> Body
    ensures { result ≡ by_coding coding.now not_chunked }
{
    if coding.eq_ignore_ascii_case(b"chunked") {
        Body::Chunked
    } else {
        not_chunked
    }
}

/// What follows the head of a request.
pub fn request_body(head: &Head) -> Body
    ensures { result ≡ request_body head.now }
{
    by_fields(Body::Unknown(Reason::CodingBad), Body::Empty, head)
}

/// What follows the head of a response.
pub fn response_body(asked: Asked, head: &Head) -> Body
    ensures { result ≡ response_body asked head.now }
{
    if makes_tunnel(asked, head) {
        Body::Tunnels
    } else if is_bare(asked, head) {
        Body::Empty
    } else {
        by_fields(Body::ToEnd, Body::ToEnd, head)
    }
}
