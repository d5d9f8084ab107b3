ghost use Rattle.std.specs.Prelude.{◌≡◌, ◌<◌, ◌≤◌, length, map, take, All, IfOk};
ghost use Rattle.httparse.specs.Spans.{IsHeaderWithin, header_bytes};
ghost use Rattle.zk_base.specs.declared.network.Side.TheVariants.{Orig, Resp};
ghost use Rattle.zk_http.specs.HeadTurns.{IsTold, IsToldWithin, judged};
ghost use Rattle.zk_http.specs.Heads.{from_start, head_limit, head_of, header_lines};
ghost use Rattle.zk_http.specs.Lines.{before_feeds};
ghost use Rattle.zk_http.specs.Search.{Knows};

use crate::search::{Ending, Found, Search};
use crate::{Head, Reason, Start, UnitKind};
use httparse::Status;
use httparse::spans::{EMPTY_HEADER_SPAN, HeaderSpan, parse_request, parse_response};
use std::alloc::Global;
use zk_base::{Bytes, Mem, Sequence, Side};

/// The most header lines of a head.
pub const HEADERS_MAX: usize = 100;

/// The names and values that stand in a text, as copies.
fn headers_of(
    alloc: Global,
    text: &[u8],
    spans: &[HeaderSpan],
) -> Result<Sequence<(Bytes, Bytes)>, Mem>
    requires { All (IsHeaderWithin (length text.now)) spans.now }
    ensures { IfOk result (λ headers. headers ≡ map (header_bytes text.now) spans.now) }
{
    let mut headers = Vec::new(alloc);
    for span in spans {
        let name = Bytes::copy_of(alloc, span.name.of(text))?;
        let value = Bytes::copy_of(alloc, span.value.of(text))?;
        headers.push((name, value))?;
    }
    Ok(Sequence::from(headers))
}

/// The head of a request that a whole text is, if it is one.
fn request_of(alloc: Global, text: &[u8]) -> Result<Option<Head>, Mem>
    ensures { header_lines text.now ≤ 100 → IfOk result (λ head. head ≡ head_of Side.Orig text.now) }
{
    let mut spans = [EMPTY_HEADER_SPAN; HEADERS_MAX];
    let Ok(status) = parse_request(text, &mut spans) else {
        return Ok(None);
    };
    let Status::Complete(request) = status else {
        return Ok(None);
    };
    if request.len < text.len() {
        return Ok(None);
    }
    let method = Bytes::copy_of(alloc, request.method.of(text))?;
    let target = Bytes::copy_of(alloc, request.path.of(text))?;
    let headers = headers_of(alloc, text, &spans[..request.headers])?;
    let start = Start::Request {
        method,
        target,
        minor: request.version,
    };
    Ok(Some(Head { start, headers }))
}

/// The head of a response that a whole text is, if it is one.
fn response_of(alloc: Global, text: &[u8]) -> Result<Option<Head>, Mem>
    ensures { header_lines text.now ≤ 100 → IfOk result (λ head. head ≡ head_of Side.Resp text.now) }
{
    let mut spans = [EMPTY_HEADER_SPAN; HEADERS_MAX];
    let Ok(status) = parse_response(text, &mut spans) else {
        return Ok(None);
    };
    let Status::Complete(response) = status else {
        return Ok(None);
    };
    if response.len < text.len() {
        return Ok(None);
    }
    let reason = Bytes::copy_of(alloc, response.reason.of(text))?;
    let headers = headers_of(alloc, text, &spans[..response.headers])?;
    let start = Start::Response {
        minor: response.version,
        code: response.code,
        reason,
    };
    Ok(Some(Head { start, headers }))
}

/// The head of a request or of a response that a whole text is, if it is one (RFC 9112, sections 2 to 5).
pub fn head_of(alloc: Global, side: Side, text: &[u8]) -> Result<Option<Head>, Mem>
    ensures { header_lines text.now ≤ 100 → IfOk result (λ head. head ≡ head_of side text.now) }
{
    match side {
        Side::Orig => request_of(alloc, text),
        Side::Resp => response_of(alloc, text),
    }
}

/// What the bytes of a head come to.
#[derive(Debug, Drop)]
pub enum Told {
    /// The first of them, so many, whose lines have so many bytes, show this.
    Is {
        len: usize,
        text: usize,
        what: UnitKind,
    },
    /// More have to come.
    Waits {
        search: Search,
    },
}

/// What a whole candidate of a head is, by what a search counted of it.
fn judge(alloc: Global, side: Side, search: Search, text: &[u8]) -> Result<UnitKind, Mem>
    ensures { search.lines ≡ length (from_start (before_feeds text.now)) → IfOk result (λ what. what ≡ judged side text.now) }
{
    if search.lines > HEADERS_MAX + 2 {
        return Ok(UnitKind::Violation(Reason::TooManyHeaders));
    }
    match head_of(alloc, side, text)? {
        Some(head) => Ok(UnitKind::Head(head)),
        None => Ok(UnitKind::Violation(Reason::HeadBad)),
    }
}

/// Reads a head with the empty lines before it, which was looked through so far.
pub fn read_head(alloc: Global, side: Side, search: Search, bytes: &[u8]) -> Result<Told, Mem>
    requires seen { search.seen ≤ length bytes.now }
    requires most { search.seen < head_limit }
    ensures told { Knows search Ending.Head (take head_limit bytes.now) → IfOk result (λ told. IsTold side bytes.now told) }
    ensures counts { IfOk result (λ told. IsToldWithin (length bytes.now) told) }
{
    match search.find_within(Ending::Head, bytes) {
        Found::Ends { search, len } => {
            let what = judge(alloc, side, search, &bytes[..len])?;
            Ok(Told::Is {
                len,
                text: search.text,
                what,
            })
        }
        Found::TooLong { limit } => Ok(Told::Is {
            len: limit,
            text: 0,
            what: UnitKind::Violation(Reason::HeadTooLong),
        }),
        Found::Waits { search } => Ok(Told::Waits { search }),
    }
}
