use std::test::Fail;
use zk_reasm::{Put, Stream};

/// The limit where none is to be met.
const WIDE: u64 = 1 << 20;

#[test]
fn of_two_copies_the_first_stands(rt: HostRuntime) -> Result<(), Fail> {
    let mut stream = Stream::new(rt.alloc(), 100, WIDE);
    assert!(rt; stream.put(101, b"ABCD")? == Put::Grew);
    assert!(rt; stream.put(103, b"xyZZ")? == Put::Grew);
    assert!(rt; stream.run() == b"ABCDZZ".as_slice());
    let mut stream = Stream::new(rt.alloc(), 100, WIDE);
    assert!(rt; stream.put(103, b"xyZZ")? == Put::Kept);
    assert!(rt; stream.put(101, b"ABCD")? == Put::Grew);
    assert!(rt; stream.run() == b"ABxyZZ".as_slice());
    assert!(rt; stream.kept() == 6);
    Ok(())
}

#[test]
fn numbers_count_modulo_their_width(rt: HostRuntime) -> Result<(), Fail> {
    let mut stream = Stream::new(rt.alloc(), 0xFFFF_FFFE, WIDE);
    assert!(rt; stream.put(0xFFFF_FFFF, b"0123")? == Put::Grew);
    assert!(rt; stream.put(3, b"456789")? == Put::Grew);
    assert!(rt; stream.run() == b"0123456789".as_slice());
    Ok(())
}

#[test]
fn an_acknowledged_hole_is_a_gap(rt: HostRuntime) -> Result<(), Fail> {
    let mut stream = Stream::new(rt.alloc(), 0, WIDE);
    assert!(rt; stream.put(1, b"AB")? == Put::Grew);
    assert!(rt; stream.put(5, b"EF")? == Put::Kept);
    assert!(rt; stream.ack(7));
    assert!(rt; stream.run() == b"AB".as_slice());
    let bytes = stream.run().len();
    stream.take(bytes);
    let places = stream.gap();
    assert!(rt; places == 2);
    stream.skip(places);
    assert!(rt; stream.run() == b"EF".as_slice());
    assert!(rt; stream.put(3, b"CD")? == Put::Old);
    Ok(())
}

#[test]
fn a_direction_ends_at_its_fin(rt: HostRuntime) -> Result<(), Fail> {
    let mut stream = Stream::new(rt.alloc(), 0, WIDE);
    assert!(rt; stream.put(3, b"CD")? == Put::Kept);
    stream.fin(5);
    assert!(rt; !stream.ended());
    assert!(rt; stream.put(1, b"AB")? == Put::Grew);
    assert!(rt; stream.ended());
    assert!(rt; stream.run() == b"ABCD".as_slice());
    Ok(())
}
