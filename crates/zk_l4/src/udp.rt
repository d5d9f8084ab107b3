ghost use Rattle.std.specs.Prelude.{◌≡◌, ◌==◌, ◌-◌, ◌≤◌, length, not, IfOk, MatchResult, None, Some};
ghost use Rattle.zk_l4.specs.Udp.{checksum_field, length_field};

use crate::L4Fault;
use crate::pseudo_header::is_checksum_right;
use byteorder::{BigEndian, ByteOrder};
use zk_base::Addr;

/// The protocol's number in an IP header.
const PROTOCOL: u8 = 17;

/// The length of the header.
const HEADER_LEN: usize = 8;

// Places of the header's fields.
const SOURCE_PORT: usize = 0;

const DESTINATION_PORT: usize = 2;

const LENGTH: usize = 4;

const CHECKSUM: usize = 6;

/// A UDP datagram, or the part of it that was captured (RFC 768).
#[derive(Clone, Copy, Debug)]
pub struct Udp<'a> {
    bytes: &'a [u8],
    ghost holds_header: { 8 ≤ length bytes.now },
    ghost covers_header: { 8 ≤ length_field bytes.now },
}

impl<'a> Udp<'a> {
    ghost use Rattle.zk_base.specs.Slices.{BeginsAt};
    ghost use Rattle.zk_l4.specs.PseudoHeader.{IsOneFamily};
    ghost use Rattle.zk_l4.specs.Udp.{destination_port, payload, source_port, udp_fault};
    ghost use Rattle.zk_l4.specs.Views.{datagram};

    /// Reads the datagram from `src` to `dst` of which `bytes` were captured and which has `full`
    /// bytes by its IP header.
    ///
    /// Bytes past its own length field are not part of it. The checksum is judged where `check` is
    /// set, the sender computed one and the datagram is not cut. The answer is the first that holds
    /// of `Short`, `Length` and `Checksum`, else the datagram.
    #[tactic(auto, unfolding(crate::specs::Udp::udp_fault))]
    pub fn read(
        src: Addr,
        dst: Addr,
        bytes: &'a [u8],
        full: usize,
        check: bool,
    ) -> Result<Udp<'a>, L4Fault>
        requires captured { length bytes.now ≤ full }
        requires limit { full ≤ 65535 }
        requires family { IsOneFamily src dst }
        ensures fault { MatchResult result (λ _. udp_fault src dst bytes.now full check ≡ None)
            (λ fault. udp_fault src dst bytes.now full check ≡ Some fault) }
        ensures bytes { IfOk result (λ udp. datagram udp ≡ bytes.entry) }
    {
        if bytes.len() < HEADER_LEN {
            return Err(L4Fault::Short);
        }
        let length = length_of(bytes);
        if length < HEADER_LEN || full < length {
            return Err(L4Fault::Length);
        }
        let is_judged = check && has_checksum(bytes) && length <= bytes.len();
        if is_judged && !is_checksum_right(src, dst, PROTOCOL, &bytes[..length]) {
            return Err(L4Fault::Checksum);
        }
        Ok(Udp { bytes })
    }

    /// The port of the sender.
    #[tactic(auto, unfolding(crate::specs::Udp::source_port))]
    pub fn src_port(&self) -> u16
        ensures { result ≡ source_port (datagram self.now).now }
    {
        BigEndian::read_u16(&self.bytes[SOURCE_PORT..])
    }

    /// The port of the receiver.
    #[tactic(auto, unfolding(crate::specs::Udp::destination_port))]
    pub fn dst_port(&self) -> u16
        ensures { result ≡ destination_port (datagram self.now).now }
    {
        BigEndian::read_u16(&self.bytes[DESTINATION_PORT..])
    }

    /// The length in bytes of the whole datagram's payload, also where less was captured.
    pub fn full_payload(&self) -> usize
        ensures value { result ≡ length_field (datagram self.now).now - 8 }
        ensures bound { result ≤ 65535 }
    {
        length_of(self.bytes) - HEADER_LEN
    }

    /// What was captured of the payload, the very slice of the bytes that were read.
    pub fn payload(&self) -> &'a [u8]
        ensures bytes { result.now ≡ payload (datagram self.now).now }
        ensures place { BeginsAt 8 (datagram self.now) result }
        ensures bound { length result.now ≤ length_field (datagram self.now).now - 8 }
    {
        let end = length_of(self.bytes).min(self.bytes.len());
        &self.bytes[HEADER_LEN..end]
    }
}

/// The length field, in bytes of header and payload.
#[tactic(auto, unfolding(crate::specs::Udp::length_field))]
fn length_of(bytes: &[u8]) -> usize
    requires { HEADER_LEN ≤ length bytes.now }
    ensures value { result ≡ length_field bytes.now }
    ensures bound { result ≤ 65535 }
{
    usize::from(BigEndian::read_u16(&bytes[LENGTH..]))
}

/// Whether the sender computed a checksum: a field of 0 says that there is none.
#[tactic(auto, unfolding(crate::specs::Udp::checksum_field))]
fn has_checksum(bytes: &[u8]) -> bool
    requires { HEADER_LEN ≤ length bytes.now }
    ensures { result ≡ not (checksum_field bytes.now == 0) }
{
    BigEndian::read_u16(&bytes[CHECKSUM..]) != 0
}
