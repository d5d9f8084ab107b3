ghost use Rattle.std.specs.Prelude.{◌≡◌};
ghost use Rattle.zk_gen.specs.Frames as frames;

use crate::packet::Path;

/// The header of an Ethernet frame with an IPv4 packet, whose addresses are 0.
pub const ETHERNET: [u8; 14] = [0, 0, 0, 0, 0, 0, 0, 0, 0, 0, 0, 0, 0x08, 0x00];

/// The checksum of words of this sum (RFC 1071, section 1).
pub fn checksum_of(total: u64) -> u16
    ensures { result ≡ frames.checksum_of total }
{
    if total == 0 {
        return 0xffff;
    }
    0xfffe - ((total - 1) % 0xffff) as u16
}

/// The checksum of words of a datagram of UDP (RFC 768).
pub fn udp_checksum_of(total: u64) -> u16
    ensures { result ≡ frames.udp_checksum_of total }
{
    match checksum_of(total) {
        0 => 0xffff,
        checksum => checksum,
    }
}

/// The header of a record in a capture.
#[tactic(auto, unfolding(crate::specs::Frames::record_header))]
pub fn record_header(seconds: u32, micros: u32, len: u32) -> [u8; 16]
    ensures { result ≡ frames.record_header seconds micros len }
{
    let [s0, s1, s2, s3] = seconds.to_le_bytes();
    let [m0, m1, m2, m3] = micros.to_le_bytes();
    let [n0, n1, n2, n3] = len.to_le_bytes();
    [
        s0, s1, s2, s3, m0, m1, m2, m3, n0, n1, n2, n3, n0, n1, n2, n3,
    ]
}

/// The header of an IPv4 packet.
#[tactic(auto, unfolding(crate::specs::Frames::ip_header))]
pub fn ip_header(checksum: u16, len: u16, protocol: u8, path: Path) -> [u8; 20]
    ensures { result ≡ frames.ip_header checksum len protocol path }
{
    let [n0, n1] = len.to_be_bytes();
    let [c0, c1] = checksum.to_be_bytes();
    let [s0, s1, s2, s3] = path.source.to_be_bytes();
    let [t0, t1, t2, t3] = path.target.to_be_bytes();
    [
        0x45, 0, n0, n1, 0, 0, 0, 0, 0, protocol, c0, c1, s0, s1, s2, s3, t0, t1, t2, t3,
    ]
}

/// What the checksum of a transport protocol covers before its header.
#[tactic(auto, unfolding(crate::specs::Frames::pseudo_header))]
pub fn pseudo_header(len: u16, protocol: u8, path: Path) -> [u8; 12]
    ensures { result ≡ frames.pseudo_header len protocol path }
{
    let [s0, s1, s2, s3] = path.source.to_be_bytes();
    let [t0, t1, t2, t3] = path.target.to_be_bytes();
    let [n0, n1] = len.to_be_bytes();
    [s0, s1, s2, s3, t0, t1, t2, t3, 0, protocol, n0, n1]
}

/// The header of a datagram of UDP.
#[tactic(auto, unfolding(crate::specs::Frames::udp_header))]
pub fn udp_header(checksum: u16, len: u16, path: Path) -> [u8; 8]
    ensures { result ≡ frames.udp_header checksum len path }
{
    let [s0, s1] = path.source_port.to_be_bytes();
    let [t0, t1] = path.target_port.to_be_bytes();
    let [n0, n1] = len.to_be_bytes();
    let [c0, c1] = checksum.to_be_bytes();
    [s0, s1, t0, t1, n0, n1, c0, c1]
}

/// The header of a segment of TCP.
#[tactic(auto, unfolding(crate::specs::Frames::tcp_header))]
pub fn tcp_header(checksum: u16, flags: u8, number: u32, awaited: u32, path: Path) -> [u8; 20]
    ensures { result ≡ frames.tcp_header checksum flags number awaited path }
{
    let [s0, s1] = path.source_port.to_be_bytes();
    let [t0, t1] = path.target_port.to_be_bytes();
    let [n0, n1, n2, n3] = number.to_be_bytes();
    let [a0, a1, a2, a3] = awaited.to_be_bytes();
    let [c0, c1] = checksum.to_be_bytes();
    [
        s0, s1, t0, t1, n0, n1, n2, n3, a0, a1, a2, a3, 0x50, flags, 0, 0, c0, c1, 0, 0,
    ]
}
