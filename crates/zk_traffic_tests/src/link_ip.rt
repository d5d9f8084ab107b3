use zk_base::{Addr, LINKTYPE_ETHERNET, LINKTYPE_RAW};
use zk_link_ip::{Ip4, IpFault, content, ip_part};

/// A frame of the capture examples/web.pcap with what tshark prints of its IPv4 header.
#[derive(Clone, Copy)]
struct Printed {
    frame: &'static [u8],
    src: Addr,
    dst: Addr,
    protocol: u8,
    identification: u16,
    /// ip.len less ip.hdr_len
    full_len: usize,
}

const FRAME_1: [u8; 69] = [
    0xde, 0x3c, 0x3e, 0x68, 0x72, 0x4c, 0x66, 0x4e, 0xc7, 0x40, 0xbf, 0x61, 0x08, 0x00, 0x45, 0x00,
    0x00, 0x37, 0xc2, 0xcc, 0x00, 0x00, 0x40, 0x11, 0xa3, 0x4d, 0x0a, 0x4d, 0x00, 0x01, 0x0a, 0x4d,
    0x00, 0x02, 0x9f, 0x54, 0x00, 0x35, 0x00, 0x23, 0x56, 0xdc, 0x96, 0x87, 0x01, 0x20, 0x00, 0x01,
    0x00, 0x00, 0x00, 0x00, 0x00, 0x00, 0x01, 0x61, 0x07, 0x65, 0x78, 0x61, 0x6d, 0x70, 0x6c, 0x65,
    0x00, 0x00, 0x01, 0x00, 0x01,
];

const FRAME_10: [u8; 74] = [
    0x66, 0x4e, 0xc7, 0x40, 0xbf, 0x61, 0xde, 0x3c, 0x3e, 0x68, 0x72, 0x4c, 0x08, 0x00, 0x45, 0x00,
    0x00, 0x3c, 0x00, 0x00, 0x40, 0x00, 0x40, 0x06, 0x26, 0x20, 0x0a, 0x4d, 0x00, 0x02, 0x0a, 0x4d,
    0x00, 0x01, 0x00, 0x50, 0xe7, 0xd0, 0x8b, 0xc7, 0x2f, 0x2e, 0x3e, 0xa8, 0x28, 0xe7, 0xa0, 0x12,
    0xfe, 0x88, 0x01, 0x7c, 0x00, 0x00, 0x02, 0x04, 0x05, 0xb4, 0x04, 0x02, 0x08, 0x0a, 0x88, 0xe9,
    0x1a, 0xb3, 0x76, 0x52, 0x0e, 0xb7, 0x01, 0x03, 0x03, 0x0a,
];

const FRAME_22: [u8; 54] = [
    0x66, 0x4e, 0xc7, 0x40, 0xbf, 0x61, 0xde, 0x3c, 0x3e, 0x68, 0x72, 0x4c, 0x08, 0x00, 0x45, 0x00,
    0x00, 0x28, 0x00, 0x00, 0x40, 0x00, 0x40, 0x06, 0x26, 0x34, 0x0a, 0x4d, 0x00, 0x02, 0x0a, 0x4d,
    0x00, 0x01, 0x00, 0x51, 0xec, 0xf2, 0x00, 0x00, 0x00, 0x00, 0x03, 0xe7, 0x4e, 0x61, 0x50, 0x14,
    0x00, 0x00, 0x5b, 0xa8, 0x00, 0x00,
];

const TEN_77_0_1: Addr = Addr::V4(0x0a4d_0001);

const TEN_77_0_2: Addr = Addr::V4(0x0a4d_0002);

/// Whether tshark prints a header so.
fn is_printed(packet: &Ip4<'_>, want: &Printed) -> bool {
    packet.src() == want.src
        && packet.dst() == want.dst
        && packet.protocol() == want.protocol
        && packet.identification() == want.identification
        && packet.full_len() == want.full_len
        && packet.offset() == 0
        && !packet.more()
}

/// Three frames.
const PRINTED: [Printed; 3] = [
    Printed {
        frame: &FRAME_1,
        src: TEN_77_0_1,
        dst: TEN_77_0_2,
        protocol: 17,
        identification: 0xc2cc,
        full_len: 55 - 20,
    },
    Printed {
        frame: &FRAME_10,
        src: TEN_77_0_2,
        dst: TEN_77_0_1,
        protocol: 6,
        identification: 0x0000,
        full_len: 60 - 20,
    },
    Printed {
        frame: &FRAME_22,
        src: TEN_77_0_2,
        dst: TEN_77_0_1,
        protocol: 6,
        identification: 0x0000,
        full_len: 40 - 20,
    },
];

#[test]
fn headers_of_a_capture_read_as_tshark_prints_them(rt: HostRuntime) {
    for (n, want) in PRINTED.iter().enumerate() {
        let part = ip_part(LINKTYPE_ETHERNET, want.frame);
        assert!(rt; part == Some(&want.frame[14..]), "in row {n}");
        let packet = Ip4::read(&want.frame[14..], true).expect(&rt, "the checksums are right");
        assert!(rt; is_printed(&packet, want), "in row {n}");
        assert!(rt; packet.payload() == &want.frame[34..], "in row {n}");
    }
}

/// A header of UDP from 192.168.0.1 to 192.168.0.199; its right checksum is 0xb861.
fn header(first: u8, total_length: u8, checksum: u8) -> [u8; 20] {
    [
        first,
        0x00,
        0x00,
        total_length,
        0x00,
        0x00,
        0x40,
        0x00,
        0x40,
        0x11,
        0xb8,
        checksum,
        0xc0,
        0xa8,
        0x00,
        0x01,
        0xc0,
        0xa8,
        0x00,
        0xc7,
    ]
}

#[test]
fn the_first_fault_is_the_one_that_is_named(rt: HostRuntime) {
    let rows = [
        (header(0x45, 0x73, 0x62), true, Some(IpFault::Checksum)),
        (header(0x45, 0x73, 0x61), true, None),
        (header(0x65, 0x13, 0x62), true, Some(IpFault::NotFour)),
        (header(0x44, 0x13, 0x62), true, Some(IpFault::Ihl)),
        (header(0x45, 0x13, 0x62), true, Some(IpFault::Total)),
    ];
    for (n, (bytes, check, want)) in rows.iter().enumerate() {
        assert!(rt; Ip4::read(bytes, *check).err() == *want, "in row {n}");
    }
}

/// A fragment with MF at place 1480, a header of six words, two bytes of payload and one of
/// padding.
const FRAGMENT: [u8; 27] = [
    0x46, 0x00, 0x00, 0x1a, 0x30, 0x39, 0x20, 0xb9, 0x40, 0x11, 0x00, 0x00, 0x0a, 0x00, 0x00, 0x01,
    0x0a, 0x00, 0x00, 0x02, 0x94, 0x04, 0x00, 0x00, 0x61, 0x62, 0x00,
];

/// The payload of a raw frame: it outlives the packet that it was taken from.
fn payload_of(frame: &[u8]) -> Option<&[u8]> {
    let packet = Ip4::read(ip_part(LINKTYPE_RAW, frame)?, false).ok()?;
    Some(packet.payload())
}

#[test]
fn a_payload_outlives_its_packet(rt: HostRuntime) {
    assert!(rt; payload_of(&FRAGMENT) == Some(&FRAGMENT[24..26]));
}

#[test]
fn content_stands_behind_at_most_two_tags(rt: HostRuntime) {
    let untagged = b"\0\0\0\0\0\x02\0\0\0\0\0\x01\x08\x06x".as_slice();
    let one_tag = b"\0\0\0\0\0\x02\0\0\0\0\0\x01\x81\0\0\x07\x08\0x".as_slice();
    let two_tags = b"\0\0\0\0\0\x02\0\0\0\0\0\x01\x88\xa8\0\x07\x81\0\0\x09\x86\xddx".as_slice();
    let three_tags =
        b"\0\0\0\0\0\x02\0\0\0\0\0\x01\x81\0\0\x07\x81\0\0\x09\x81\0\0\x05\x08\0x".as_slice();
    let raw = b"\x60x".as_slice();
    let rows = [
        (LINKTYPE_ETHERNET, untagged, Some((0x0806, &untagged[14..]))),
        (LINKTYPE_ETHERNET, one_tag, Some((0x0800, &one_tag[18..]))),
        (LINKTYPE_ETHERNET, two_tags, Some((0x86dd, &two_tags[22..]))),
        (LINKTYPE_ETHERNET, three_tags, None),
        (LINKTYPE_RAW, raw, Some((0x86dd, raw))),
    ];
    for (n, (link, frame, want)) in rows.iter().enumerate() {
        assert!(rt; content(*link, frame) == *want, "in row {n}");
    }
}
