ghost use Rattle.std.specs.Prelude.{◌<◌, ◌≤◌, length};

use crate::shelves::one_input;
use std::alloc::Global;
use std::test::Fail;
use zk_base::{Got, Shelf, Started, SureShelf};
use zk_pcap::{CaptureEnding, CaptureFault, Feed, Header, Next, Packet, packets};

/// A header of little-endian numbers, microseconds and Ethernet.
const HEADER: [u8; 24] = [
    0xd4, 0xc3, 0xb2, 0xa1, 0x02, 0x00, 0x04, 0x00, 0x00, 0x00, 0x00, 0x00, 0x00, 0x00, 0x00, 0x00,
    0x00, 0x00, 0x04, 0x00, 0x01, 0x00, 0x00, 0x00,
];

/// Big-endian numbers and microseconds of Ethernet: a record at 1.999999 s.
const BIG_MICROSECONDS: [u8; 40] = [
    0xa1, 0xb2, 0xc3, 0xd4, 0x00, 0x02, 0x00, 0x04, 0x00, 0x00, 0x00, 0x00, 0x00, 0x00, 0x00, 0x00,
    0x00, 0x04, 0x00, 0x00, 0x00, 0x00, 0x00, 0x01, 0x00, 0x00, 0x00, 0x01, 0x00, 0x0f, 0x42, 0x3f,
    0x00, 0x00, 0x00, 0x00, 0x00, 0x00, 0x00, 0x3c,
];

/// Little-endian numbers and nanoseconds of raw IP, with bits above the low 16 of its field: a record
/// at 1 s and 1.500000999 s more.
const RAW_IP_NANOSECONDS: [u8; 40] = [
    0x4d, 0x3c, 0xb2, 0xa1, 0x02, 0x00, 0x04, 0x00, 0x00, 0x00, 0x00, 0x00, 0x00, 0x00, 0x00, 0x00,
    0x00, 0x00, 0x04, 0x00, 0x65, 0x00, 0x00, 0x10, 0x01, 0x00, 0x00, 0x00, 0xe7, 0x32, 0x68, 0x59,
    0x00, 0x00, 0x00, 0x00, 0x3c, 0x00, 0x00, 0x00,
];

/// The beginning of a capture that tcpdump made: a DNS query and its answer.
const QUERY_AND_ANSWER: [u8; 194] = [
    0xd4, 0xc3, 0xb2, 0xa1, 0x02, 0x00, 0x04, 0x00, 0x00, 0x00, 0x00, 0x00, 0x00, 0x00, 0x00, 0x00,
    0x00, 0x00, 0x04, 0x00, 0x01, 0x00, 0x00, 0x00, 0xef, 0xb2, 0x08, 0x6b, 0x8f, 0xbd, 0x05, 0x00,
    0x45, 0x00, 0x00, 0x00, 0x45, 0x00, 0x00, 0x00, 0xde, 0x3c, 0x3e, 0x68, 0x72, 0x4c, 0x66, 0x4e,
    0xc7, 0x40, 0xbf, 0x61, 0x08, 0x00, 0x45, 0x00, 0x00, 0x37, 0xc2, 0xcc, 0x00, 0x00, 0x40, 0x11,
    0xa3, 0x4d, 0x0a, 0x4d, 0x00, 0x01, 0x0a, 0x4d, 0x00, 0x02, 0x9f, 0x54, 0x00, 0x35, 0x00, 0x23,
    0x56, 0xdc, 0x96, 0x87, 0x01, 0x20, 0x00, 0x01, 0x00, 0x00, 0x00, 0x00, 0x00, 0x00, 0x01, 0x61,
    0x07, 0x65, 0x78, 0x61, 0x6d, 0x70, 0x6c, 0x65, 0x00, 0x00, 0x01, 0x00, 0x01, 0xef, 0xb2, 0x08,
    0x6b, 0x01, 0xbe, 0x05, 0x00, 0x45, 0x00, 0x00, 0x00, 0x45, 0x00, 0x00, 0x00, 0x66, 0x4e, 0xc7,
    0x40, 0xbf, 0x61, 0xde, 0x3c, 0x3e, 0x68, 0x72, 0x4c, 0x08, 0x00, 0x45, 0x00, 0x00, 0x37, 0x07,
    0x53, 0x40, 0x00, 0x40, 0x11, 0x1e, 0xc7, 0x0a, 0x4d, 0x00, 0x02, 0x0a, 0x4d, 0x00, 0x01, 0x00,
    0x35, 0x9f, 0x54, 0x00, 0x23, 0xd6, 0x78, 0x96, 0x87, 0x81, 0x83, 0x00, 0x01, 0x00, 0x00, 0x00,
    0x00, 0x00, 0x00, 0x01, 0x61, 0x07, 0x65, 0x78, 0x61, 0x6d, 0x70, 0x6c, 0x65, 0x00, 0x00, 0x01,
    0x00, 0x01,
];

/// How many packets a capture has, and how it ends.
fn summary(alloc: Global, bytes: &[u8]) -> Result<(usize, CaptureEnding), CaptureFault> {
    let capture = packets(alloc, bytes)?;
    Ok((capture.packets.len(), capture.ending))
}

#[test]
fn a_capture_cut_at_each_byte_says_where(rt: HostRuntime) {
    for n in 0..=QUERY_AND_ANSWER.len() {
        let place = n as u64;
        let wanted = match n {
            0..24 => Err(CaptureFault::Short { place }),
            24 => Ok((0, CaptureEnding::Whole)),
            25..109 => Ok((0, CaptureEnding::Cut { place: 24 })),
            109 => Ok((1, CaptureEnding::Whole)),
            110..194 => Ok((1, CaptureEnding::Cut { place: 109 })),
            _ => Ok((2, CaptureEnding::Whole)),
        };
        assert!(rt;
            summary(rt.alloc(), &QUERY_AND_ANSWER[..n]) == wanted,
            "at {n}"
        );
    }
}

#[test]
fn packets_are_what_tcpdump_shows(rt: HostRuntime) -> Result<(), Fail> {
    let capture = packets(rt.alloc(), &QUERY_AND_ANSWER)?;
    let [query, answer] = capture.packets.as_slice() else {
        panic!(rt; "two packets")
    };
    assert!(rt; (query.moment.0, query.orig_len) == (1_795_732_207_376_207, 69));
    assert!(rt; (answer.moment.0, answer.orig_len) == (1_795_732_207_376_321, 69));
    assert!(rt; query.bytes.as_slice() == &QUERY_AND_ANSWER[40..109]);
    assert!(rt; answer.bytes.as_slice() == &QUERY_AND_ANSWER[125..]);
    Ok(())
}

#[test]
fn each_form_of_file_is_read(rt: HostRuntime) -> Result<(), Fail> {
    let big = Header {
        big: true,
        nano: false,
        snaplen: 262_144,
        link: 1,
    };
    let raw_ip = Header {
        big: false,
        nano: true,
        snaplen: 262_144,
        link: 101,
    };
    let rows = [
        (&BIG_MICROSECONDS, big, 1_999_999),
        (&RAW_IP_NANOSECONDS, raw_ip, 2_500_000),
    ];
    for (file, header, moment) in rows {
        assert!(rt; Header::read(file) == Ok(header), "at {moment}");
        let capture = packets(rt.alloc(), file)?;
        let [packet] = capture.packets.as_slice() else {
            panic!(rt; "one packet")
        };
        assert!(rt; (packet.moment.0, packet.orig_len) == (moment, 60));
    }
    Ok(())
}

#[test]
fn headers_are_judged_from_the_left(rt: HostRuntime) {
    let mut bytes = HEADER;
    assert!(rt; Header::read(&[0, 0, 0, 0]) == Err(CaptureFault::Magic));
    assert!(rt; Header::read(&HEADER[..7]) == Err(CaptureFault::Short { place: 7 }));
    assert!(rt; Header::read(&HEADER[..8]) == Err(CaptureFault::Short { place: 8 }));
    bytes[20] = 113;
    assert!(rt; Header::read(&bytes) == Err(CaptureFault::Link));
    bytes[6] = 3;
    assert!(rt; Header::read(&bytes[..8]) == Err(CaptureFault::Version));
    assert!(rt; CaptureFault::Version.place() == 4 && CaptureFault::Link.place() == 20);
}

/// A feed for the packets behind this header.
fn feed_behind(alloc: Global, header: &[u8]) -> Result<Box<Feed>, Fail> {
    let feed = Feed::new(alloc, &Header::read(header)?)?;
    Ok(Box::new(alloc, feed)?)
}

/// The packets of a file that comes in pieces of so many bytes, and where an unfinished record begins.
fn in_pieces(alloc: Global, file: &[u8], size: usize) -> Result<(Vec<Packet>, Option<u64>), Fail>
    requires size { 0 < size }
    requires header { 24 ≤ length file.now }
{
    let mut feed = feed_behind(alloc, file)?;
    let mut found = Vec::new(alloc);
    for piece in file[24..].chunks(size) {
        feed.push(piece)?;
        for _ in 0..piece.len() {
            let Next::Packet(view) = feed.next() else {
                break;
            };
            found.push(Packet::copy_of(alloc, view)?)?;
            feed.advance();
        }
    }
    Ok((found, feed.rest()))
}

/// Whether these are the same packets.
fn are_same(some: &[Packet], others: &[Packet]) -> bool {
    some.len() == others.len()
        && some.iter().zip(others).all(|(packet, other)| {
            packet.moment == other.moment
                && packet.orig_len == other.orig_len
                && packet.bytes.as_slice() == other.bytes.as_slice()
                && packet.place == other.place
        })
}

/// Whether the capture has these packets where it comes in pieces of so many bytes.
fn has_in_pieces(alloc: Global, size: usize, wanted: &[Packet]) -> Result<bool, Fail>
    requires size { 0 < size }
{
    let (found, rest) = in_pieces(alloc, &QUERY_AND_ANSWER, size)?;
    Ok(rest.is_none() && are_same(found.as_slice(), wanted))
}

#[test]
fn pieces_give_the_packets_of_the_whole(rt: HostRuntime) -> Result<(), Fail> {
    let whole = packets(rt.alloc(), &QUERY_AND_ANSWER)?;
    let wanted = whole.packets.as_slice();
    assert!(rt; has_in_pieces(rt.alloc(), 1, wanted)?);
    assert!(rt; has_in_pieces(rt.alloc(), 7, wanted)?);
    assert!(rt; has_in_pieces(rt.alloc(), 65_536, wanted)?);
    Ok(())
}

/// A shelf with the records of the capture.
fn records(alloc: Global) -> Result<Box<SureShelf>, Fail> {
    let inputs = one_input(alloc, b"records", &QUERY_AND_ANSWER[24..])?;
    let shelf = SureShelf::new(alloc, inputs)?;
    Ok(Box::new(alloc, shelf)?)
}

#[test]
fn what_a_read_brings_stands_next(rt: HostRuntime) -> Result<(), Fail> {
    let mut shelf = records(rt.alloc())?;
    let mut feed = feed_behind(rt.alloc(), &HEADER)?;
    if shelf.start(b"records") == Started::Open {
        assert!(rt; feed.read_from(&mut *shelf, 100)? == Got::Bytes(100));
    }
    let Next::Packet(query) = feed.next() else {
        panic!(rt; "a packet")
    };
    assert!(rt; query.bytes == &QUERY_AND_ANSWER[40..109]);
    feed.advance();
    assert!(rt; feed.rest() == Some(109));
    Ok(())
}
