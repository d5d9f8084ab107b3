//! Heads, bodies and whole exchanges of HTTP, as the readers of a connection tell them.
ghost use Rattle.std.specs.Prelude.{◌<◌};

mod exchanges;

use exchanges::{EXCHANGES, Exchange, PIECE};
use std::alloc::Global;
use std::collections::VecDeque;
use std::process::Abort;
use std::test::Fail;
use zk_base::Side;
use zk_http::{Head, Start, Unit, UnitKind};
use zk_units::{Freed, Protocol, Readers, StreamUnit};

/// A request that is answered by what a test is about.
const GET: &[u8] = b"GET / HTTP/1.1\r\n\r\n";

/// The readers of a connection, and the units that they told of its requests and of its responses, a line
/// each.
#[derive(Debug, Drop)]
struct Told {
    readers: Readers,
    units: VecDeque<Freed>,
    asked: String,
    answered: String,
}

/// Adds what a unit is, as a line.
fn say(text: &mut String, unit: &Unit) -> Result<(), Fail> {
    let place = unit.place;
    match &unit.what {
        UnitKind::Head(_) => write!(text, "head {place}\n")?,
        UnitKind::Done { body, head, gap } => {
            write!(text, "done {place} {body} {head} {gap}\n")?
        }
        UnitKind::Tunnel => write!(text, "tunnel {place}\n")?,
        UnitKind::Violation(reason) => {
            let number = *reason as u8;
            write!(text, "violation {place} {number}\n")?
        }
    }
    Ok(())
}

impl Told {
    fn new(alloc: Global) -> Result<Box<Told>, Fail> {
        let told = Told {
            readers: Readers::new(alloc, Some(Protocol::Http)),
            units: VecDeque::new(alloc),
            asked: String::new(alloc),
            answered: String::new(alloc),
        };
        Ok(Box::new(alloc, told)?)
    }

    /// Reads what has come, and says the units that it frees.
    fn read(&mut self, side: Side) -> Result<(), Fail> {
        self.readers.read(side, &mut self.units)?;
        for _ in 0..self.units.len() {
            let Some(freed) = self.units.pop_front() else {
                return Ok(());
            };
            let text = match freed.side {
                Side::Orig => &mut self.asked,
                Side::Resp => &mut self.answered,
            };
            if let StreamUnit::Http(unit) = &freed.unit {
                say(text, unit)?;
            }
        }
        Ok(())
    }

    /// Bytes of a side come.
    fn give(&mut self, side: Side, bytes: &[u8]) -> Result<(), Fail> {
        self.readers.add_bytes(side, bytes)?;
        self.read(side)
    }

    /// A gap comes behind the bytes of a side, and it may end.
    fn finish(&mut self, side: Side, gap: u64, ends: bool) -> Result<(), Fail> {
        self.readers.add_gap(side, gap)?;
        self.read(side)?;
        if ends {
            self.readers.end(side);
        }
        self.read(side)
    }
}

/// The first unit that a text is, or where it is a response that of the answer to `GET`.
fn first_unit(told: &mut Told, side: Side, text: &[u8]) -> Result<StreamUnit, Fail> {
    if side == Side::Resp {
        told.give(Side::Orig, GET)?;
    }
    told.readers.add_bytes(side, text)?;
    told.readers.read(side, &mut told.units)?;
    let freed = told.units.pop_front().ok_or("no unit")?;
    Ok(freed.unit)
}

/// The first unit of new readers.
fn unit_of(alloc: Global, side: Side, text: &[u8]) -> Result<Box<StreamUnit>, Fail> {
    let mut told = Told::new(alloc)?;
    let unit = first_unit(&mut told, side, text)?;
    Ok(Box::new(alloc, unit)?)
}

/// The head that a unit is.
fn head_of(unit: &StreamUnit) -> Result<&Head, Fail> {
    match unit {
        StreamUnit::Http(unit) => match &unit.what {
            UnitKind::Head(head) => Ok(head),
            _ => Err("no head")?,
        },
        _ => Err("no unit of HTTP")?,
    }
}

#[test]
fn the_head_of_a_request_has_its_parts(rt: HostRuntime) -> Result<(), Fail> {
    let text = b"\r\nGET /a?b HTTP/1.0\nHost: \t a.test \r\nX:\r\n\n";
    let unit = unit_of(rt.alloc(), Side::Orig, text)?;
    let request = head_of(&unit)?;
    match &request.start {
        Start::Request {
            method,
            target,
            minor,
        } => {
            assert!(rt; method.as_slice() == b"GET".as_slice());
            assert!(rt; target.as_slice() == b"/a?b".as_slice());
            assert!(rt; *minor == 0);
        }
        Start::Response { .. } => Err("a response")?,
    }
    let headers = request.headers.as_slice();
    assert!(rt; headers.len() == 2);
    assert!(rt; headers[0].0.as_slice() == b"Host".as_slice());
    assert!(rt; headers[0].1.as_slice() == b"a.test".as_slice());
    assert!(rt; headers[1].1.as_slice() == b"".as_slice());
    Ok(())
}

#[test]
fn the_head_of_a_response_has_its_parts(rt: HostRuntime) -> Result<(), Fail> {
    let text = b"HTTP/1.1 404 N\xc3\xa4 o \r\n\r\n";
    let unit = unit_of(rt.alloc(), Side::Resp, text)?;
    let response = head_of(&unit)?;
    match &response.start {
        Start::Response {
            minor,
            code,
            reason,
        } => {
            assert!(rt; *minor == 1);
            assert!(rt; *code == 404);
            assert!(rt; reason.as_slice() == b"N\xc3\xa4 o ".as_slice());
        }
        Start::Request { .. } => Err("a request")?,
    }
    Ok(())
}

/// Requests, the gap behind each, and their units. The stream then ends.
const REQUESTS: [(&[u8], u64, &str); 7] = [
    // no head
    (b"GET  / HTTP/1.1\r\n\r\n", 0, "violation 19 2\n"),
    (b"GET / HTTP/2.0\r\n\r\n", 0, "violation 18 2\n"),
    (b"GET / HTTP/1.1\r\nA b: c\r\n\r\n", 0, "violation 26 2\n"),
    // no body
    (GET, 0, "head 18\ndone 18 0 14 0\n"),
    (
        b"POST / HTTP/1.1\r\nContent-Length: 7\r\n\r\n",
        7,
        "head 38\ndone 45 7 32 7\n",
    ),
    // a size of 31 with an extension, and one of 0 with blanks
    (
        b"POST / HTTP/1.1\r\nTransfer-Encoding: chunked\r\n\r\n1f;a=b\r\naaaaaaaaaaaaaaaaaaaaaaaaaaaaaaa\r\n0 \t\r\n\r\n",
        0,
        "head 47\ndone 95 31 41 0\n",
    ),
    // no sizes
    (
        b"POST / HTTP/1.1\r\nTransfer-Encoding: chunked\r\n\r\n1f\n",
        0,
        "head 47\nviolation 50 6\n",
    ),
];

/// What is told of a request behind which a gap comes, and then the end.
fn request_told(alloc: Global, text: &[u8], gap: u64) -> Result<Box<Told>, Fail> {
    let mut told = Told::new(alloc)?;
    told.give(Side::Orig, text)?;
    told.finish(Side::Orig, gap, true)?;
    Ok(told)
}

#[test]
fn a_request_tells_its_body(rt: HostRuntime) -> Result<(), Fail> {
    for (n, (text, gap, units)) in REQUESTS.iter().enumerate() {
        let told = request_told(rt.alloc(), text, *gap)?;
        assert!(rt; told.asked.as_str() == *units, "in row {n}");
    }
    Ok(())
}

/// Requests, the response to each and the gap behind it, and the units of the response (RFC 9112, section
/// 6.3). The stream of responses then ends.
const RESPONSES: [(&[u8], &[u8], u64, &str); 11] = [
    // no head
    (GET, b"HTTP/1.1 20 OK\r\n\r\n", 0, "violation 18 2\n"),
    // up to the end
    (
        GET,
        b"HTTP/1.1 200 OK\r\n\r\nabc",
        0,
        "head 19\ndone 22 3 15 0\n",
    ),
    // tunnels
    (GET, b"HTTP/1.1 101 S\r\n\r\nabc", 0, "head 18\ntunnel 18\n"),
    (
        b"CONNECT a:1 HTTP/1.1\r\n\r\n",
        b"HTTP/1.1 300 N\r\nContent-Length: 1\r\n\r\na",
        0,
        "head 37\ndone 38 1 31 0\n",
    ),
    // no body, whatever a field says
    (
        GET,
        b"HTTP/1.1 100 C\r\nContent-Length: 1\r\n\r\n",
        0,
        "head 37\ndone 37 0 31 0\n",
    ),
    (
        GET,
        b"HTTP/1.1 304 N\r\nContent-Length: 1\r\n\r\n",
        0,
        "head 37\ndone 37 0 31 0\n",
    ),
    (
        b"HEAD / HTTP/1.1\r\n\r\n",
        b"HTTP/1.1 200 OK\r\nContent-Length: 500\r\n\r\n",
        0,
        "head 40\ndone 40 0 34 0\n",
    ),
    // chunks where they are the last coding, and all up to the end where they aren't
    (
        GET,
        b"HTTP/1.1 200 OK\r\nTransfer-Encoding: gzip, CHUNKED ,\r\nContent-Length: 9\r\n\r\n0\r\n\r\n",
        0,
        "head 74\ndone 79 0 66 0\n",
    ),
    // one number, said three times
    (
        GET,
        b"HTTP/1.1 200 OK\r\nContent-Length: 42 ,042\r\ncontent-length: 42\r\n\r\n",
        42,
        "head 64\ndone 106 42 56 42\n",
    ),
    // two numbers
    (
        GET,
        b"HTTP/1.1 200 OK\r\nContent-Length: 42\r\nContent-Length: 43\r\n\r\n",
        42,
        "head 59\nviolation 59 4\n",
    ),
    (
        GET,
        b"HTTP/1.1 200 OK\r\nContent-Length: 1000000000000000000\r\n\r\n",
        0,
        "head 56\nviolation 56 4\n",
    ),
];

/// What is told of a response behind which a gap comes, and then the end.
fn response_told(
    alloc: Global,
    request: &[u8],
    response: &[u8],
    gap: u64,
) -> Result<Box<Told>, Fail> {
    let mut told = Told::new(alloc)?;
    told.give(Side::Orig, request)?;
    told.give(Side::Resp, response)?;
    told.finish(Side::Resp, gap, true)?;
    Ok(told)
}

#[test]
fn a_response_tells_its_body(rt: HostRuntime) -> Result<(), Fail> {
    for (n, (request, response, gap, units)) in RESPONSES.iter().enumerate() {
        let told = response_told(rt.alloc(), request, response, *gap)?;
        assert!(rt; told.answered.as_str() == *units, "in row {n}");
    }
    Ok(())
}

/// The bytes of a side that come at a turn, none once all have come.
fn piece(bytes: &[u8], cut: usize, turn: usize) -> &[u8] {
    let from = turn.saturating_mul(cut).min(bytes.len());
    let to = from.saturating_add(cut).min(bytes.len());
    &bytes[from..to]
}

/// What is told of an exchange whose sides come so many bytes at a time.
fn told_of(alloc: Global, exchange: &Exchange, cut: usize) -> Result<Box<Told>, Fail> {
    let mut told = Told::new(alloc)?;
    for turn in 0..10_000 {
        let request = piece(exchange.requests.bytes, cut, turn);
        let response = piece(exchange.responses.bytes, cut, turn);
        if request.is_empty() && response.is_empty() {
            break;
        }
        told.give(Side::Resp, response)?;
        told.give(Side::Orig, request)?;
    }
    let Exchange {
        requests,
        responses,
        ..
    } = exchange;
    told.finish(Side::Orig, requests.gap, requests.ends)?;
    told.finish(Side::Resp, responses.gap, responses.ends)?;
    Ok(told)
}

#[test]
fn units_are_the_same_however_streams_are_cut(rt: HostRuntime) -> Result<(), Fail> {
    for exchange in &EXCHANGES {
        for cut in [1, 7, 100_000] {
            let told = told_of(rt.alloc(), exchange, cut)?;
            assert!(rt; told.asked.as_str() == exchange.asked);
            assert!(rt; told.answered.as_str() == exchange.answered);
        }
    }
    Ok(())
}

/// Gives a response of many small chunks, of which nothing is held.
fn give_chunks(rt: &impl Abort, told: &mut Told) -> Result<(), Fail> {
    let head = b"HTTP/1.1 200 OK\r\nTransfer-Encoding: chunked\r\n\r\n";
    told.give(Side::Resp, head)?;
    for _ in 0..4_000 {
        told.give(Side::Resp, PIECE)?;
        assert!(rt; told.readers.held(Side::Resp) == 0);
    }
    told.give(Side::Resp, b"0\r\n\r\n")
}

#[test]
fn many_small_chunks_are_read_once(rt: HostRuntime) -> Result<(), Fail> {
    let mut told = Told::new(rt.alloc())?;
    told.give(Side::Orig, GET)?;
    give_chunks(&rt, &mut told)?;
    assert!(rt; told.asked.as_str() == "head 18\ndone 18 0 14 0\n");
    assert!(rt; told.answered.as_str() == "head 47\ndone 2400052 400000 41 0\n");
    Ok(())
}
