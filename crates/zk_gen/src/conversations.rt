ghost use Rattle.std.specs.Prelude.{◌≡◌, ◌+◌, ◌-◌, ◌%◌, ◌<◌, ◌≤◌, ◌++◌, [], ◌∷◌, length, IfOk, OnOk};
ghost use Rattle.zk_gen.specs.Conversations as packets;
ghost use Rattle.zk_gen.specs.Capture.{capture_of, conversation_of};
ghost use Rattle.zk_gen.specs.Capture as captures;

use crate::packet::{Talk, Transport, send};
use std::alloc::Global;
use zk_base::{Bytes, Mem, Side};

/// The header of the capture: microseconds, little-endian, version 2.4, a snaplen of 262,144, Ethernet.
const HEADER: [u8; 24] = [
    0xd4, 0xc3, 0xb2, 0xa1, 2, 0, 4, 0, 0, 0, 0, 0, 0, 0, 0, 0, 0, 0, 4, 0, 1, 0, 0, 0,
];

/// A query for the address of `www.example.com`.
const QUERY: &[u8] = b"\x12\x34\x01\x00\x00\x01\x00\x00\x00\x00\x00\x00\
    \x03www\x07example\x03com\x00\x00\x01\x00\x01";

/// Its reply: another name and that name's address, for 300 seconds.
const REPLY: &[u8] = b"\x12\x34\x81\x80\x00\x01\x00\x02\x00\x00\x00\x00\
    \x03www\x07example\x03com\x00\x00\x01\x00\x01\
    \xc0\x0c\x00\x05\x00\x01\x00\x00\x01\x2c\x00\x02\xc0\x10\
    \xc0\x10\x00\x01\x00\x01\x00\x00\x01\x2c\x00\x04\x5d\xb8\xd8\x22";

const REQUEST: &[u8] = b"GET / HTTP/1.1\r\nHost: a.test\r\n\r\n";

const RESPONSE: &[u8] = b"HTTP/1.1 200 OK\r\nContent-Length: 2\r\n\r\nhi";

/// 10.0.0.53
const DNS_SERVER: u32 = 0x0a00_0035;

/// 10.0.0.80
const HTTP_SERVER: u32 = 0x0a00_0050;

/// Control bits of TCP (RFC 9293, section 3.1).
const FIN: u8 = 1;

const SYN: u8 = 2;

const ACK: u8 = 16;

/// A query and its reply.
fn look_up(out: &mut Bytes, talk: &Talk) -> Result<(), Mem>
    ensures { OnOk result (out.new ≡ out.old ++ packets.records talk.now packets.looked_up) }
{
    let transport = Transport::Datagram;
    send(out, talk, 0, Side::Orig, transport, QUERY)?;
    send(out, talk, 20_000, Side::Resp, transport, REPLY)?;
    Ok(())
}

/// How a segment is sent.
fn segment(flags: u8, number: u32, awaited: u32) -> Transport
    ensures { result ≡ packets.by_tcp flags number awaited }
{
    Transport::Segment {
        flags,
        number,
        awaited,
    }
}

/// A connection opens.
fn open(out: &mut Bytes, talk: &Talk) -> Result<(), Mem>
    ensures { OnOk result (out.new ≡ out.old ++ packets.records talk.now packets.opening) }
{
    send(out, talk, 0, Side::Orig, segment(SYN, 100, 0), b"")?;
    send(
        out,
        talk,
        10_000,
        Side::Resp,
        segment(SYN | ACK, 500, 101),
        b"",
    )?;
    Ok(())
}

/// It closes.
fn close(out: &mut Bytes, talk: &Talk) -> Result<(), Mem>
    ensures { OnOk result (out.new ≡ out.old ++ packets.records talk.now packets.closing) }
{
    send(
        out,
        talk,
        40_000,
        Side::Orig,
        segment(FIN | ACK, 133, 541),
        b"",
    )?;
    send(
        out,
        talk,
        50_000,
        Side::Resp,
        segment(FIN | ACK, 541, 134),
        b"",
    )?;
    send(out, talk, 60_000, Side::Orig, segment(ACK, 134, 542), b"")?;
    Ok(())
}

/// Bytes of a side's message from one on.
fn send_piece(
    out: &mut Bytes,
    talk: &Talk,
    micros: u32,
    side: Side,
    from: usize,
    payload: &[u8],
) -> Result<(), Mem>
    requires place { from < 1000 }
    requires few { length payload.now < 1000 }
    ensures { OnOk result (out.new ≡ out.old ++ packets.record_with talk.now (packets.piece micros side from payload.now)) }
{
    let from = from as u32;
    let transport = match side {
        Side::Orig => segment(ACK, 101 + from, 501),
        Side::Resp => segment(ACK, 501 + from, 133),
    };
    send(out, talk, micros, side, transport, payload)
}

/// A request and its response, each in one segment.
fn request_whole(out: &mut Bytes, talk: &Talk) -> Result<(), Mem>
    ensures { OnOk result (out.new ≡ out.old ++ packets.records talk.now packets.whole) }
{
    open(out, talk)?;
    send_piece(out, talk, 20_000, Side::Orig, 0, REQUEST)?;
    send_piece(out, talk, 30_000, Side::Resp, 0, RESPONSE)?;
    close(out, talk)?;
    Ok(())
}

/// Each byte of a message in a segment of its own, from the last to the first: all but the first byte 5
/// milliseconds early, and twice.
fn send_one_by_one(
    out: &mut Bytes,
    talk: &Talk,
    early: u32,
    side: Side,
    message: &[u8],
) -> Result<(), Mem>
    requires some { 0 < length message.now }
    requires few { length message.now < 1000 }
    requires moment { early < 1000000 }
    ensures { OnOk result (out.new ≡ out.old ++ packets.records talk.now (packets.one_by_one side early message.now (length message.now - 1))) }
{
    let mut place = message.len() - 1;
    'bytes: while place > 0 {
        let byte = &message[place..place + 1];
        send_piece(out, talk, early, side, place, byte)?;
        send_piece(out, talk, early, side, place, byte)?;
        place -= 1;
    }
    send_piece(out, talk, early + 5_000, side, 0, &message[..1])?;
    Ok(())
}

/// A request and its response, byte by byte.
fn request_cut(out: &mut Bytes, talk: &Talk) -> Result<(), Mem>
    ensures { OnOk result (out.new ≡ out.old ++ packets.records talk.now packets.cut) }
{
    open(out, talk)?;
    send_one_by_one(out, talk, 15_000, Side::Orig, REQUEST)?;
    send_one_by_one(out, talk, 25_000, Side::Resp, RESPONSE)?;
    close(out, talk)?;
    Ok(())
}

/// The hosts of the conversation of a number.
fn talk_of(k: u32, client_port: u16, server: u32, server_port: u16) -> Talk
    requires { k < 100000 }
    ensures { result ≡ captures.talk_of k client_port server server_port }
{
    Talk {
        seconds: 1_700_000_000 + k,
        client: 0x0a01_0000 + k % 0x1_0000,
        client_port,
        server,
        server_port,
    }
}

/// The conversation of this number, of the kind that it has in turn.
#[tactic(auto, unfolding(crate::specs::Capture::conversation_of))]
fn append_conversation(out: &mut Bytes, kind: u64, k: u32) -> Result<(), Mem>
    requires number { k < 100000 }
    requires kinds { kind < 3 }
    ensures { OnOk result (out.new ≡ out.old ++ conversation_of kind k) }
{
    match kind {
        0 => look_up(out, &talk_of(k, 40_000, DNS_SERVER, 53)),
        1 => request_whole(out, &talk_of(k, 40_001, HTTP_SERVER, 80)),
        _ => request_cut(out, &talk_of(k, 40_001, HTTP_SERVER, 80)),
    }
}

/// The capture, one conversation behind another.
pub fn capture(alloc: Global, start: u32, count: u32) -> Result<Bytes, Mem>
    requires { count ≤ 100000 }
    ensures { IfOk result (λ bytes. bytes ≡ capture_of start count) }
{
    let mut out = Bytes::copy_of(alloc, &HEADER)?;
    for k in 0..count {
        let kind = (u64::from(start) + u64::from(k)) % 3;
        append_conversation(&mut out, kind, k)?;
    }
    Ok(out)
}
