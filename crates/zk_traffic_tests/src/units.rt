use std::alloc::Global;
use std::collections::VecDeque;
use std::test::Fail;
use zk_base::{Mem, Proto, Side};
use zk_http::UnitKind;
use zk_units::{Freed, Readers, StreamUnit, protocol_at};

/// What a unit shows.
#[derive(Clone, Copy, Debug, PartialEq, Eq)]
enum Shown {
    Head(Side, u64),
    Done(Side, u64, u64),
    Other(Side, u64),
    Dns(Side, u16, u32),
    DnsBad(Side, u8, u32),
}

use Shown::{Dns, DnsBad, Done, Head, Other};

fn show(freed: &Freed) -> Shown {
    let side = freed.side;
    match &freed.unit {
        StreamUnit::Http(unit) => match &unit.what {
            UnitKind::Head(_) => Head(side, unit.place),
            UnitKind::Done { body, .. } => Done(side, unit.place, *body),
            _ => Other(side, unit.place),
        },
        StreamUnit::Dns { len, message } => Dns(side, message.id, *len),
        StreamUnit::DnsBad { fault, len } => DnsBad(side, *fault, *len),
    }
}

/// Notes the units that are there.
fn note(units: &mut VecDeque<Freed>, shown: &mut Vec<Shown>) -> Result<(), Mem> {
    for _ in 0..10 {
        match units.pop_front() {
            Some(freed) => shown.push(show(&freed))?,
            None => return Ok(()),
        }
    }
    Ok(())
}

/// The readers of a connection to this port of a server.
fn readers_at(alloc: Global, port: u16) -> Result<Box<Readers>, Fail> {
    let readers = Readers::new(alloc, protocol_at(Proto::Tcp, port));
    Ok(Box::new(alloc, readers)?)
}

/// A request, and the response that came before it.
const EXCHANGE: [Shown; 4] = [
    Head(Side::Orig, 32),
    Done(Side::Orig, 32, 0),
    Head(Side::Resp, 38),
    Done(Side::Resp, 40, 2),
];

#[test]
fn both_sides_give_their_units_in_turn(rt: HostRuntime) -> Result<(), Fail> {
    let mut readers = readers_at(rt.alloc(), 8080)?;
    let mut units = VecDeque::new(rt.alloc());
    let mut shown = Vec::new(rt.alloc());
    readers.add_bytes(
        Side::Resp,
        b"HTTP/1.1 200 OK\r\nContent-Length: 2\r\n\r\nhi",
    )?;
    readers.read(Side::Resp, &mut units)?;
    assert!(rt; units.is_empty());
    assert!(rt; readers.held(Side::Resp) == 40);
    readers.add_bytes(Side::Orig, b"GET / HTTP/1.1\r\nHost: a.test\r\n\r\n")?;
    readers.end(Side::Orig);
    readers.read(Side::Orig, &mut units)?;
    note(&mut units, &mut shown)?;
    assert!(rt; shown.as_slice() == EXCHANGE.as_slice());
    assert!(rt; readers.held(Side::Resp) == 0);
    Ok(())
}

/// A query, and the gap behind it.
const CUT_OFF: [Shown; 2] = [Dns(Side::Orig, 0x1234, 17), DnsBad(Side::Orig, 7, 0)];

#[test]
fn a_gap_ends_a_side_of_dns(rt: HostRuntime) -> Result<(), Fail> {
    let mut readers = readers_at(rt.alloc(), 53)?;
    let mut units = VecDeque::new(rt.alloc());
    let mut shown = Vec::new(rt.alloc());
    let query = b"\x00\x11\x12\x34\x01\x00\x00\x01\x00\x00\x00\x00\x00\x00\x00\x00\x01\x00\x01\x00";
    readers.add_bytes(Side::Orig, query)?;
    readers.add_gap(Side::Orig, 3)?;
    readers.read(Side::Orig, &mut units)?;
    readers.add_bytes(Side::Orig, query)?;
    readers.read(Side::Orig, &mut units)?;
    note(&mut units, &mut shown)?;
    assert!(rt; shown.as_slice() == CUT_OFF.as_slice());
    assert!(rt; readers.held(Side::Orig) == 0);
    Ok(())
}
