use zk_base::Addr;
use zk_l4::{L4Fault, Tcp, Udp, flags};

/// 10.0.0.1.
const CLIENT: Addr = Addr::V4(0x0a00_0001);

/// 10.0.0.53.
const SERVER: Addr = Addr::V4(0x0a00_0035);

/// 2001:db8::1.
const CLIENT6: Addr = Addr::V6(0x2001_0db8_0000_0000_0000_0000_0000_0001);

/// 2001:db8::35.
const SERVER6: Addr = Addr::V6(0x2001_0db8_0000_0000_0000_0000_0000_0035);

/// 10.77.0.1 in the capture examples/web.pcap.
const BROWSER: Addr = Addr::V4(0x0a4d_0001);

/// 10.77.0.2 there.
const SITE: Addr = Addr::V4(0x0a4d_0002);

/// Frame 9 of examples/web.pcap: a SYN with 20 bytes of options.
const SYN: &[u8] = &[
    0xe7, 0xd0, 0x00, 0x50, 0x3e, 0xa8, 0x28, 0xe6, 0x00, 0x00, 0x00, 0x00, 0xa0, 0x02, 0xfa, 0xf0,
    0x63, 0xb7, 0x00, 0x00, 0x02, 0x04, 0x05, 0xb4, 0x04, 0x02, 0x08, 0x0a, 0x76, 0x52, 0x0e, 0xb7,
    0x00, 0x00, 0x00, 0x00, 0x01, 0x03, 0x03, 0x0a,
];

/// Frame 22 there, from a port that refuses.
const RESET: &[u8] = &[
    0x00, 0x51, 0xec, 0xf2, 0x00, 0x00, 0x00, 0x00, 0x03, 0xe7, 0x4e, 0x61, 0x50, 0x14, 0x00, 0x00,
    0x5b, 0xa8, 0x00, 0x00,
];

/// Frame 18 there, the browser's FIN.
const FINISH: &[u8] = &[
    0xe7, 0xd0, 0x00, 0x50, 0x3e, 0xa8, 0x29, 0x88, 0x8b, 0xc7, 0x31, 0x7a, 0x80, 0x11, 0x00, 0x3f,
    0x2b, 0xa6, 0x00, 0x00, 0x01, 0x01, 0x08, 0x0a, 0x76, 0x52, 0x0e, 0xb8, 0x88, 0xe9, 0x1a, 0xb4,
];

/// Frame 2 there, a DNS reply.
const REPLY: &[u8] = &[
    0x00, 0x35, 0x9f, 0x54, 0x00, 0x23, 0xd6, 0x78, 0x96, 0x87, 0x81, 0x83, 0x00, 0x01, 0x00, 0x00,
    0x00, 0x00, 0x00, 0x00, 0x01, 0x61, 0x07, 0x65, 0x78, 0x61, 0x6d, 0x70, 0x6c, 0x65, 0x00, 0x00,
    0x01, 0x00, 0x01,
];

/// Ports, numbers and control bits.
type Fields = (u16, u16, u32, u32, u8);

/// Segments without a payload, and their fields.
const SEGMENTS: [(Addr, Addr, &[u8], Fields); 3] = [
    (
        BROWSER,
        SITE,
        SYN,
        (59344, 80, 1_051_207_910, 0, flags::SYN),
    ),
    (
        SITE,
        BROWSER,
        RESET,
        (81, 60658, 0, 65_490_529, flags::RST | flags::ACK),
    ),
    (
        BROWSER,
        SITE,
        FINISH,
        (
            59344,
            80,
            1_051_208_072,
            2_345_087_354,
            flags::FIN | flags::ACK,
        ),
    ),
];

fn fields_of(tcp: Tcp<'_>) -> Fields {
    (
        tcp.src_port(),
        tcp.dst_port(),
        tcp.seq(),
        tcp.ack(),
        tcp.flags(),
    )
}

#[test]
fn tcp_fields_are_those_that_tshark_prints(rt: HostRuntime) -> Result<(), L4Fault> {
    for (n, (src, dst, bytes, fields)) in SEGMENTS.iter().enumerate() {
        assert!(rt; bytes.len() <= 65535, "in row {n}");
        let tcp = Tcp::read(*src, *dst, bytes, bytes.len(), true)?;
        assert!(rt; fields_of(tcp) == *fields, "in row {n}");
        assert!(rt; tcp.payload().is_empty(), "in row {n}");
    }
    Ok(())
}

#[test]
fn udp_fields_are_those_that_tshark_prints(rt: HostRuntime) -> Result<(), L4Fault> {
    let udp = Udp::read(SITE, BROWSER, REPLY, 35, true)?;
    assert!(rt; (udp.src_port(), udp.dst_port(), udp.full_payload()) == (53, 40788, 27));
    assert!(rt; udp.payload() == &REPLY[8..]);
    Ok(())
}

/// Made by hand, as those below are; tcpdump prints their fields and judges their checksums so. Ports
/// 49320 and 80, and a payload of 3 bytes over IPv4.
const ODD: &[u8] = &[
    0xc0, 0xa8, 0x00, 0x50, 0x01, 0x02, 0x03, 0x04, 0x0a, 0x0b, 0x0c, 0x0d, 0x50, 0x18, 0x20, 0x00,
    0x05, 0x38, 0x00, 0x00, 0x47, 0x45, 0x54,
];

/// The same with a data offset that leads past the bytes.
const HIGH_OFFSET: &[u8] = &[
    0xc0, 0xa8, 0x00, 0x50, 0x01, 0x02, 0x03, 0x04, 0x0a, 0x0b, 0x0c, 0x0d, 0x60, 0x18, 0x20, 0x00,
    0x05, 0x38, 0x00, 0x00, 0x47, 0x45, 0x54,
];

/// The same with another checksum.
const WRONG: &[u8] = &[
    0xc0, 0xa8, 0x00, 0x50, 0x01, 0x02, 0x03, 0x04, 0x0a, 0x0b, 0x0c, 0x0d, 0x50, 0x18, 0x20, 0x00,
    0x05, 0x39, 0x00, 0x00, 0x47, 0x45, 0x54,
];

/// An option of 4 bytes and a payload of 5 bytes over IPv6.
const ODD6: &[u8] = &[
    0xc0, 0xa8, 0x00, 0x50, 0xff, 0xff, 0xff, 0xfe, 0x00, 0x00, 0x00, 0x00, 0x60, 0x02, 0x20, 0x00,
    0x17, 0xb0, 0x00, 0x00, 0x02, 0x04, 0x05, 0xb4, 0x68, 0x65, 0x6c, 0x6c, 0x6f,
];

/// What was captured of a datagram, its full length, whether its checksum is asked for, and what
/// it is: the full length of its payload and what was captured of it, or its fault.
type Row = (
    &'static [u8],
    usize,
    bool,
    Result<(usize, &'static [u8]), L4Fault>,
);

#[test]
fn tcp_segments_have_the_payload_that_tcpdump_prints_or_their_first_fault(rt: HostRuntime) {
    let rows: [Row; 5] = [
        (ODD, 23, true, Ok((3, b"GET"))),
        (&ODD[..21], 23, true, Ok((3, b"G"))),
        (WRONG, 23, true, Err(L4Fault::Checksum)),
        (WRONG, 23, false, Ok((3, b"GET"))),
        (HIGH_OFFSET, 23, true, Err(L4Fault::Offset)),
    ];
    for (n, (bytes, full, check, wanted)) in rows.iter().enumerate() {
        assert!(rt; bytes.len() <= *full && *full <= 65535, "in row {n}");
        let answer = Tcp::read(CLIENT, SERVER, bytes, *full, *check);
        assert!(rt;
            answer.map(|tcp| (tcp.full_payload(), tcp.payload())) == *wanted,
            "in row {n}"
        );
    }
    let over_ipv6 = Tcp::read(CLIENT6, SERVER6, ODD6, 29, true);
    assert!(rt;
        over_ipv6.map(|tcp| (tcp.full_payload(), tcp.payload())) == Ok((5, b"hello".as_slice()))
    );
}

/// Ports 40000 and 53, no payload.
const EMPTY: &[u8] = &[0x9c, 0x40, 0x00, 0x35, 0x00, 0x08, 0x4f, 0x33];

/// The same with a wrong checksum.
const EMPTY_WRONG: &[u8] = &[0x9c, 0x40, 0x00, 0x35, 0x00, 0x08, 0x00, 0x01];

/// The same without a checksum.
const EMPTY_UNCOMPUTED: &[u8] = &[0x9c, 0x40, 0x00, 0x35, 0x00, 0x08, 0x00, 0x00];

/// The same with a length field of 7.
const LENGTH_7: &[u8] = &[0x9c, 0x40, 0x00, 0x35, 0x00, 0x07, 0x4f, 0x33];

/// A payload of 3 bytes, and 3 bytes that are not the datagram's.
const PADDED: &[u8] = &[
    0x9c, 0x40, 0x00, 0x35, 0x00, 0x0b, 0x8a, 0xca, 0x61, 0x62, 0x63, 0xaa, 0xbb, 0xcc,
];

/// A checksum that was computed as 0 and sent as ffff.
const ALL_ONES: &[u8] = &[0x9c, 0x40, 0x00, 0x35, 0x00, 0x0a, 0xff, 0xff, 0x4f, 0x2f];

/// A payload of 3 bytes over IPv6.
const UDP6: &[u8] = &[
    0x9c, 0x40, 0x00, 0x35, 0x00, 0x0b, 0x43, 0x58, 0x61, 0x62, 0x63,
];

#[test]
fn udp_datagrams_have_the_payload_that_tcpdump_prints_or_their_first_fault(rt: HostRuntime) {
    let rows: [Row; 6] = [
        (EMPTY, 8, true, Ok((0, b""))),
        (EMPTY_WRONG, 8, true, Err(L4Fault::Checksum)),
        (EMPTY_UNCOMPUTED, 8, true, Ok((0, b""))),
        (LENGTH_7, 8, true, Err(L4Fault::Length)),
        (&PADDED[..9], 14, true, Ok((3, b"a"))),
        (ALL_ONES, 10, true, Ok((2, &[0x4f, 0x2f]))),
    ];
    for (n, (bytes, full, check, wanted)) in rows.iter().enumerate() {
        assert!(rt; bytes.len() <= *full && *full <= 65535, "in row {n}");
        let answer = Udp::read(CLIENT, SERVER, bytes, *full, *check);
        assert!(rt;
            answer.map(|udp| (udp.full_payload(), udp.payload())) == *wanted,
            "in row {n}"
        );
    }
    let over_ipv6 = Udp::read(CLIENT6, SERVER6, UDP6, 11, true);
    assert!(rt;
        over_ipv6.map(|udp| (udp.full_payload(), udp.payload())) == Ok((3, b"abc".as_slice()))
    );
}
