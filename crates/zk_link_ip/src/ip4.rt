ghost use Rattle.std.specs.Prelude.{◌≡◌, ◌≢◌, ◌≤◌, ◌<◌, ◌*◌, ◌^◌, length, drop, sum, false, IfOk, MatchResult, None, Some};
ghost use Rattle.byteorder.specs.Endian.{big_number};
ghost use Rattle.zk_base.specs.Checksum.{words, is_right_sum};
ghost use Rattle.zk_link_ip.specs.Ip4.{header_len, ihl, total_length};

use byteorder::{BigEndian, ByteOrder};
use thiserror::Error;
use zk_base::{Addr, IP4_TOTAL_LENGTH_MAX, is_right_checksum, word_sum};

/// Why bytes begin with no IPv4 packet: the first fault that holds, in this order.
#[derive(Clone, Copy, Debug, PartialEq, Eq, Error)]
pub enum IpFault {
    /// There are fewer than 20 bytes, the least header.
    #[error("fewer bytes than an IPv4 header has")]
    Short,
    /// The version is not 4.
    #[error("the version is not 4")]
    NotFour,
    /// The header's length is below five words, or passes the bytes.
    #[error("the header's length is below five words or passes the bytes")]
    Ihl,
    /// The total length is not 0 and below the header's.
    #[error("the total length is below the header's")]
    Total,
    /// The header's checksum was asked for and is wrong.
    #[error("the header's checksum is wrong")]
    Checksum,
}

// Places of a header's fields (RFC 791, section 3.1).

const VERSION_AND_IHL: usize = 0;

const TOTAL_LENGTH: usize = 2;

const IDENTIFICATION: usize = 4;

const FLAGS_AND_FRAGMENT_OFFSET: usize = 6;

const PROTOCOL: usize = 9;

const SOURCE_ADDRESS: usize = 12;

const DESTINATION_ADDRESS: usize = 16;

/// The flag MF in the field of flags and offset.
const MORE_FRAGMENTS: u16 = 0x2000;

/// The bits of the offset in that field.
const FRAGMENT_OFFSET: u16 = 0x1fff;

/// The length of a word, in which IHL counts.
const WORD_LEN: usize = 4;

/// The IHL of a header without options.
const IHL_MIN: usize = 5;

/// The length of a header without options.
const HEADER_LEN_MIN: usize = WORD_LEN * IHL_MIN;

/// An IPv4 packet at the front of bytes of a frame.
#[derive(Clone, Copy, Debug)]
pub struct Ip4<'a> {
    bytes: &'a [u8],
    ghost has_least_header: { 5 ≤ ihl bytes.now },
    ghost has_header: { header_len bytes.now ≤ length bytes.now },
    ghost ends_behind_header: { total_length bytes.now ≢ 0 →
        header_len bytes.now ≤ total_length bytes.now },
}

impl<'a> Ip4<'a> {
    ghost use Rattle.zk_base.specs.Slices.{BeginsAt};
    ghost use Rattle.zk_link_ip.specs.Ip4.{destination, flags_and_offset, full_len, identification, ip4_fault, more, offset, payload, protocol, source, was_cut};
    ghost use Rattle.zk_link_ip.specs.Views.{packet};

    /// The packet at the front of `bytes`, its header judged once: afterwards no accessor can
    /// fail. `check` asks for the header's checksum.
    pub fn read(bytes: &'a [u8], check: bool) -> Result<Ip4<'a>, IpFault>
        ensures fault { MatchResult result (λ _. ip4_fault bytes.now check ≡ None)
            (λ fault. ip4_fault bytes.now check ≡ Some fault) }
        ensures bytes { IfOk result (λ ip. packet ip ≡ bytes.entry) }
    {
        if bytes.len() < HEADER_LEN_MIN {
            return Err(IpFault::Short);
        }
        if bytes[VERSION_AND_IHL] >> 4 != 4 {
            return Err(IpFault::NotFour);
        }
        let header_len = header_len(bytes);
        if header_len < HEADER_LEN_MIN || bytes.len() < header_len {
            return Err(IpFault::Ihl);
        }
        let total_length = total_length(bytes);
        if total_length != 0 && total_length < header_len {
            return Err(IpFault::Total);
        }
        if check && !is_checksum_right(&bytes[..header_len]) {
            return Err(IpFault::Checksum);
        }
        Ok(Ip4 { bytes })
    }

    /// The source address.
    pub fn src(&self) -> Addr
        ensures { result ≡ source (packet self.now).now }
    {
        Addr::V4(BigEndian::read_u32(&self.bytes[SOURCE_ADDRESS..]))
    }

    /// The destination address.
    pub fn dst(&self) -> Addr
        ensures { result ≡ destination (packet self.now).now }
    {
        Addr::V4(BigEndian::read_u32(&self.bytes[DESTINATION_ADDRESS..]))
    }

    /// The number of the protocol of the payload (IANA's list of protocol numbers).
    pub fn protocol(&self) -> u8
        ensures { result ≡ protocol (packet self.now).now }
    {
        self.bytes[PROTOCOL]
    }

    /// The sender's number for the datagram, the same in all of its fragments.
    pub fn identification(&self) -> u16
        ensures { result ≡ identification (packet self.now).now }
    {
        BigEndian::read_u16(&self.bytes[IDENTIFICATION..])
    }

    /// Whether more fragments of the datagram follow (the flag MF).
    pub fn more(&self) -> bool
        ensures { result ≡ more (packet self.now).now }
    {
        self.flags_and_offset() & MORE_FRAGMENTS != 0
    }

    /// Where the payload stands in the datagram, in units of 8 bytes.
    pub fn offset(&self) -> u16
        ensures place { result ≡ offset (packet self.now).now }
        ensures bound { result < 2 ^ 13 }
    {
        self.flags_and_offset() & FRAGMENT_OFFSET
    }

    /// The length of the header in bytes.
    pub fn header_len(&self) -> usize
        ensures value { result ≡ header_len (packet self.now).now }
        ensures least { 20 ≤ result }
        ensures within { result ≤ length (packet self.now).now }
    {
        header_len(self.bytes)
    }

    /// The payload's length by the total length, in bytes. Where that is 0 the packet ends with
    /// the bytes, at the latest after 65,535.
    pub fn full_len(&self) -> usize
        ensures value { result ≡ full_len (packet self.now).now }
        ensures bound { result ≤ 65535 }
    {
        let total_length = total_length(self.bytes);
        let packet_len = if total_length == 0 {
            self.bytes.len().min(IP4_TOTAL_LENGTH_MAX)
        } else {
            total_length
        };
        packet_len - self.header_len()
    }

    /// Whether the total length passes the bytes.
    pub fn was_cut(&self) -> bool
        ensures { result ≡ was_cut (packet self.now).now }
    {
        self.bytes.len() < total_length(self.bytes)
    }

    /// What is there of the payload, a slice of the bytes that were read. What stands behind the
    /// packet is padding, and left out.
    ///
    /// The slice outlives the packet, and not the bytes. So this does not compile: `frame` is
    /// borrowed past its end (`checks/borrows` tries it).
    ///
    /// ```text
    /// pub fn payload_outlives_its_frame() -> usize {
    ///     let mut kept: &[u8] = &[];
    ///     {
    ///         let frame = [0u8; 40];
    ///         if let Ok(packet) = Ip4::read(&frame, false) {
    ///             kept = packet.payload();
    ///         }
    ///     }
    ///     kept.len()
    /// }
    /// ```
    pub fn payload(&self) -> &'a [u8]
        ensures value { result.now ≡ payload (packet self.now).now }
        ensures place { BeginsAt (header_len (packet self.now).now) (packet self.now) result }
        ensures bound { length result.now ≤ full_len (packet self.now).now }
        ensures whole { was_cut (packet self.now).now ≡ false →
            length result.now ≡ full_len (packet self.now).now }
    {
        let behind = &self.bytes[self.header_len()..];
        &behind[..self.full_len().min(behind.len())]
    }

    fn flags_and_offset(&self) -> u16
        ensures { result ≡ flags_and_offset (packet self.now).now }
    {
        BigEndian::read_u16(&self.bytes[FLAGS_AND_FRAGMENT_OFFSET..])
    }
}

/// Whether the checksum in a header is right (RFC 791, section 3.1). The five words of 32 bits that
/// each header has are added, in each of which 2^16 counts as 1 (RFC 1071, section 2), and the words
/// of the options, which few headers have.
fn is_checksum_right(header: &[u8]) -> bool
    requires least { HEADER_LEN_MIN ≤ length header.now }
    requires limit { length header.now ≤ 60 }
    ensures { result ≡ is_right_sum (sum (words header.now)) }
{
    let without_options = word(header, 0)
        + word(header, 1)
        + word(header, 2)
        + word(header, 3)
        + word(header, 4);
    is_right_checksum(without_options + word_sum(&header[HEADER_LEN_MIN..]))
}

/// One of the words of a header without options.
fn word(header: &[u8], index: usize) -> u64
    requires least { HEADER_LEN_MIN ≤ length header.now }
    requires within { index < IHL_MIN }
    ensures value { result ≡ big_number 4 (drop (4 * index) header.now) }
    ensures bound { result < 2 ^ 32 }
{
    u64::from(BigEndian::read_u32(&header[WORD_LEN * index..]))
}

/// The length of the header at the front, in bytes.
fn header_len(bytes: &[u8]) -> usize
    requires { HEADER_LEN_MIN ≤ length bytes.now }
    ensures { result ≡ header_len bytes.now }
{
    WORD_LEN * usize::from(bytes[VERSION_AND_IHL] & 0x0f)
}

/// The total length that the header at the front says, in bytes.
fn total_length(bytes: &[u8]) -> usize
    requires { HEADER_LEN_MIN ≤ length bytes.now }
    ensures value { result ≡ total_length bytes.now }
    ensures bound { result ≤ 65535 }
{
    usize::from(BigEndian::read_u16(&bytes[TOTAL_LENGTH..]))
}
