use std::alloc::{AllocError, Global};
use std::process::Abort;
use std::test::Fail;
use zk_base::{Mem, Moment};
use zk_frag::{Frags, Joined};
use zk_link_ip::Ip4;

const SECOND: i64 = 1_000_000;

/// The fields of a fragment from 10.0.0.1 to 10.0.0.2 that the tests vary.
#[derive(Clone, Copy)]
struct Fields<'a> {
    identification: u8,
    /// In units of 8 bytes.
    offset: u16,
    more: bool,
    /// What the total length counts beyond the payload that is there.
    cut: u8,
    payload: &'a [u8],
}

/// The packet of a fragment whose length fits one byte.
fn packet(rt: &impl Abort, alloc: Global, fields: Fields<'_>) -> Result<Vec<u8>, AllocError> {
    assert!(rt; fields.offset <= 0x1fff);
    let flags = if fields.more { 0x2000 } else { 0 };
    let [high, low] = (flags | fields.offset).to_be_bytes();
    assert!(rt; fields.payload.len() <= 200 && fields.cut <= 35);
    let total = 20 + fields.payload.len() as u8 + fields.cut;
    let header = [
        0x45,
        0x00,
        0x00,
        total,
        0x00,
        fields.identification,
        high,
        low,
        0x40,
        0x11,
        0x00,
        0x00,
        0x0a,
        0x00,
        0x00,
        0x01,
        0x0a,
        0x00,
        0x00,
        0x02,
    ];
    let mut bytes = Vec::from_slice(alloc, &header)?;
    bytes.extend_from_slice(fields.payload)?;
    Ok(bytes)
}

/// No fragments so far.
fn no_frags(alloc: Global) -> Result<Box<Frags>, Fail> {
    Ok(Box::new(alloc, Frags::new(alloc))?)
}

/// What a fragment did.
fn taken(
    rt: &impl Abort,
    alloc: Global,
    frags: &mut Frags,
    t: i64,
    fields: Fields<'_>,
) -> Result<Joined, Mem> {
    let bytes = packet(rt, alloc, fields)?;
    let ip = Ip4::read(&bytes, false).expect(rt, "the header is right");
    frags.take(Moment(t), &ip)
}

/// A fragment of the datagram 7.
fn part(offset: u16, more: bool, payload: &[u8]) -> Fields<'_> {
    Fields {
        identification: 7,
        offset,
        more,
        cut: 0,
        payload,
    }
}

/// What three fragments do whose last comes first, at 0, and the others later.
fn backwards(
    rt: &impl Abort,
    alloc: Global,
    frags: &mut Frags,
    later: i64,
) -> Result<[Joined; 3], Mem> {
    let last = taken(rt, alloc, frags, 0, part(2, false, b"CCCCCCCC"))?;
    let middle = taken(rt, alloc, frags, later, part(1, true, b"bbbbbbbbXXXXXXXX"))?;
    let first = taken(rt, alloc, frags, later, part(0, true, b"aaaaaaaaYYYYYYYY"))?;
    Ok([last, middle, first])
}

#[test]
fn a_group_takes_fragments_for_30_seconds_and_first_copies_stand(
    rt: HostRuntime,
) -> Result<(), Fail> {
    let rows = [
        (0, Joined::Whole),
        (30 * SECOND, Joined::Whole),
        (31 * SECOND, Joined::Held),
    ];
    for (later, want) in rows {
        let mut frags = no_frags(rt.alloc())?;
        let joined = backwards(&rt, rt.alloc(), &mut frags, later)?;
        assert!(rt; joined == [Joined::Held, Joined::Held, want], "at {later}");
        if want == Joined::Whole {
            assert!(rt;
                frags.whole() == b"aaaaaaaabbbbbbbbCCCCCCCC".as_slice(),
                "at {later}"
            );
        }
    }
    Ok(())
}

#[test]
fn pieces_in_any_order_make_the_datagram(rt: HostRuntime) -> Result<(), Fail> {
    let text = b"aaaaaaaabbbbbbbbccccccccddddddddeeeeeeeeffffffffgggggggghhhhh".as_slice();
    let pieces = [
        part(5, true, b"ffffffff"),
        part(2, true, b"cccccccc"),
        part(7, false, b"hhhhh"),
        part(0, true, b"aaaaaaaa"),
        part(3, true, b"ddddddddeeeeeeee"),
        part(1, true, b"bbbbbbbb"),
    ];
    let mut frags = no_frags(rt.alloc())?;
    for (n, piece) in pieces.iter().enumerate() {
        let joined = taken(&rt, rt.alloc(), &mut frags, SECOND, *piece)?;
        assert!(rt; joined == Joined::Held, "in row {n}");
    }
    let joined = taken(
        &rt,
        rt.alloc(),
        &mut frags,
        SECOND,
        part(6, true, b"gggggggg"),
    )?;
    assert!(rt; joined == Joined::Whole);
    assert!(rt; frags.whole() == text);
    // the group is gone: another copy of its last fragment begins a new one
    let joined = taken(
        &rt,
        rt.alloc(),
        &mut frags,
        SECOND,
        part(7, false, b"hhhhh"),
    )?;
    assert!(rt; joined == Joined::Held);
    Ok(())
}
