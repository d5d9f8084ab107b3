ghost use Rattle.std.specs.Prelude.{◌≤ℤ◌, ◌^◌, pos};

use std::alloc::Global;
use std::process::Abort;
use std::test::Fail;
use zk_base::{LINKTYPE_ETHERNET, LINKTYPE_RAW, Mem, Moment, PacketView, Side};
use zk_conn::ConnState;
use zk_http::{Reason, Unit, UnitKind};
use zk_traffic::{Fresh, Options, Traffic, What};

/// What an item shows, its connection and its facts aside.
#[derive(Clone, Copy, Debug, PartialEq, Eq)]
enum Shown {
    Seen(Moment, u32, u32),
    Opened,
    Established,
    Gap(Side, u64, u64),
    Head(Side, u64),
    Done(Side, u64, u64),
    Tunnel(Side, u64),
    Violation(Side, u64, Reason),
    Dns(Side, u16, u32),
    DnsBad(Side, u8, u32),
    Ended(Side),
    GaveUp(Side),
    Reset,
    Removed(ConnState),
}

use Shown::{Done, Ended, Established, Gap, GaveUp, Head, Opened, Removed, Reset, Seen};

fn show_unit(side: Side, unit: &Unit) -> Shown {
    let place = unit.place;
    match &unit.what {
        UnitKind::Head(_) => Head(side, place),
        UnitKind::Done { body, .. } => Done(side, place, *body),
        UnitKind::Tunnel => Shown::Tunnel(side, place),
        UnitKind::Violation(reason) => Shown::Violation(side, place, *reason),
    }
}

/// The number of an item's connection, and what it shows.
fn show(what: &What) -> (u64, Shown) {
    match what {
        What::Seen { own, caplen, len } => (0, Seen(*own, *caplen, *len)),
        What::Opened { conn, .. } => (conn.0, Opened),
        What::Established { conn, .. } => (conn.0, Established),
        What::Gap {
            conn,
            side,
            from,
            length,
            ..
        } => (conn.0, Gap(*side, *from, *length)),
        What::Http {
            conn,
            side,
            unit,
            ..
        } => (conn.0, show_unit(*side, unit)),
        What::Dns {
            conn,
            side,
            len,
            message,
            ..
        } => (conn.0, Shown::Dns(*side, message.id, *len)),
        What::DnsBad {
            conn,
            side,
            fault,
            len,
            ..
        } => (conn.0, Shown::DnsBad(*side, *fault, *len)),
        What::Ended { conn, side, .. } => (conn.0, Ended(*side)),
        What::GaveUp { conn, side, .. } => (conn.0, GaveUp(*side)),
        What::Reset { conn, .. } => (conn.0, Reset),
        What::Removed { conn, facts } => (conn.0, Removed(facts.state)),
    }
}

/// Frames of an exchange of HTTP of 10.0.0.1:40001 with 10.0.0.80:80, of which the request isn't captured, each with
/// its time in hundredths of a second: SYN and its answer, a response, and the client's FIN.
const FRAMES: [(u8, &[u8]); 4] = [
    (
        0,
        b"\x00\x00\x00\x00\x00\x00\x00\x00\x00\x00\x00\x00\x08\x00\x45\x00\x00\x28\x00\x00\x00\x00\x00\x06\xa6\x80\x0a\x00\x00\x01\x0a\x00\x00\x50\x9c\x41\x00\x50\x00\x00\x00\x64\x00\x00\x00\x00\x50\x02\x00\x00\xfe\x9c\x00\x00",
    ),
    (
        1,
        b"\x00\x00\x00\x00\x00\x00\x00\x00\x00\x00\x00\x00\x08\x00\x45\x00\x00\x28\x00\x00\x00\x00\x00\x06\xa6\x80\x0a\x00\x00\x50\x0a\x00\x00\x01\x00\x50\x9c\x41\x00\x00\x01\xf4\x00\x00\x00\x65\x50\x12\x00\x00\xfc\x97\x00\x00",
    ),
    (
        3,
        b"\x00\x00\x00\x00\x00\x00\x00\x00\x00\x00\x00\x00\x08\x00\x45\x00\x00\x50\x00\x00\x00\x00\x00\x06\xa6\x58\x0a\x00\x00\x50\x0a\x00\x00\x01\x00\x50\x9c\x41\x00\x00\x01\xf5\x00\x00\x00\x85\x50\x10\x00\x00\xe4\xe6\x00\x00\x48\x54\x54\x50\x2f\x31\x2e\x31\x20\x32\x30\x30\x20\x4f\x4b\x0d\x0a\x43\x6f\x6e\x74\x65\x6e\x74\x2d\x4c\x65\x6e\x67\x74\x68\x3a\x20\x32\x0d\x0a\x0d\x0a\x68\x69",
    ),
    (
        4,
        b"\x00\x00\x00\x00\x00\x00\x00\x00\x00\x00\x00\x00\x08\x00\x45\x00\x00\x28\x00\x00\x00\x00\x00\x06\xa6\x80\x0a\x00\x00\x01\x0a\x00\x00\x50\x9c\x41\x00\x50\x00\x00\x00\x85\x00\x00\x02\x1d\x50\x11\x00\x00\xfc\x4f\x00\x00",
    ),
];

/// So many hundredths of a second after the first packet.
fn at(hundredths: u8) -> Moment
    ensures early { pos 0 ≤ℤ result.0 }
    ensures late { result.0 ≤ℤ pos (2 ^ 62) }
{
    Moment(10_000 * i64::from(hundredths))
}

/// Notes the items that are there.
fn note(traffic: &mut Traffic, items: &mut Vec<(Moment, u64, Shown)>) -> Result<(), Mem> {
    for _ in 0..100 {
        match traffic.next() {
            Some(item) => {
                let (number, shown) = show(&item.what);
                items.push((item.moment, number, shown))?;
            }
            None => return Ok(()),
        }
    }
    Ok(())
}

/// Gives frames in turn, each with its time, and notes their items.
fn give(
    rt: &impl Abort,
    traffic: &mut Traffic,
    frames: &[(u8, &[u8])],
    items: &mut Vec<(Moment, u64, Shown)>,
) -> Result<(), Mem> {
    for (hundredths, frame) in frames {
        assert!(rt; frame.len() <= 100);
        traffic.packet(PacketView {
            moment: at(*hundredths),
            orig_len: frame.len() as u32,
            bytes: frame,
            place: 0,
        })?;
        note(traffic, items)?;
    }
    Ok(())
}

/// Ethernet before its first packet.
fn no_traffic(alloc: Global) -> Result<Box<Traffic>, Fail> {
    let options = Options {
        check: true,
        buffer: 1 << 20,
        packets: false,
    };
    let traffic = Traffic::new(alloc, options, LINKTYPE_ETHERNET)?;
    Ok(Box::new(alloc, traffic)?)
}

/// Whether a run is the response of `FRAMES`.
fn is_response(run: Option<Fresh<'_>>) -> bool {
    match run {
        Some(run) => {
            run.conn.0 == 1
                && run.side == Side::Resp
                && run.from == 0
                && run.bytes == b"HTTP/1.1 200 OK\r\nContent-Length: 2\r\n\r\nhi".as_slice()
        }
        None => false,
    }
}

/// The items of `FRAMES`.
const ITEMS: [(Moment, u64, Shown); 5] = [
    (Moment(0), 1, Opened),
    (Moment(10_000), 1, Established),
    (Moment(40_000), 1, Gap(Side::Orig, 0, 32)),
    (
        Moment(40_000),
        1,
        Shown::Violation(Side::Orig, 1, Reason::Gap),
    ),
    (Moment(40_000), 1, Ended(Side::Orig)),
];

#[test]
fn bytes_that_the_capture_lacks_are_a_gap(rt: HostRuntime) -> Result<(), Fail> {
    let mut traffic = no_traffic(rt.alloc())?;
    let mut items = Vec::new(rt.alloc());
    give(&rt, &mut traffic, &FRAMES[..3], &mut items)?;
    assert!(rt; is_response(traffic.fresh(0)));
    assert!(rt; traffic.fresh(1).is_none());
    give(&rt, &mut traffic, &FRAMES[3..], &mut items)?;
    assert!(rt; traffic.fresh(0).is_none());
    assert!(rt; traffic.kept() == 40);
    assert!(rt; items.as_slice() == ITEMS.as_slice());
    Ok(())
}

/// What an Ethernet frame has ahead of its content, in bytes.
const ETHERNET_HEADER_LEN: usize = 14;

#[test]
fn raw_ip_between_ethernet_frames_makes_their_connection(rt: HostRuntime) -> Result<(), Fail> {
    let mut traffic = no_traffic(rt.alloc())?;
    let mut items = Vec::new(rt.alloc());
    let (hundredths, answer) = FRAMES[1];
    assert!(rt; answer.len() > ETHERNET_HEADER_LEN);
    let raw = [(hundredths, &answer[ETHERNET_HEADER_LEN..])];
    give(&rt, &mut traffic, &FRAMES[..1], &mut items)?;
    traffic.set_link(LINKTYPE_RAW);
    give(&rt, &mut traffic, &raw, &mut items)?;
    traffic.set_link(LINKTYPE_ETHERNET);
    give(&rt, &mut traffic, &FRAMES[2..], &mut items)?;
    assert!(rt; items.as_slice() == ITEMS.as_slice());
    Ok(())
}
