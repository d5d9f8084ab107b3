ghost use Rattle.std.specs.Prelude.{◌≡◌, ◌-◌, ◌≤◌, length, IfOk, MatchResult, None, Some};
ghost use Rattle.zk_l4.specs.Tcp.{header_length};

use crate::L4Fault;
use crate::pseudo_header::is_checksum_right;
use byteorder::{BigEndian, ByteOrder};
use zk_base::Addr;

/// The protocol's number in an IP header.
const PROTOCOL: u8 = 6;

/// The length of a word, in which the data offset counts.
const WORD_LEN: usize = 4;

/// The data offset of a header without options.
const DATA_OFFSET_MIN: usize = 5;

/// The length of a header without options.
const HEADER_LEN_MIN: usize = WORD_LEN * DATA_OFFSET_MIN;

// Places of a header's fields.
const SOURCE_PORT: usize = 0;

const DESTINATION_PORT: usize = 2;

const SEQUENCE_NUMBER: usize = 4;

const ACKNOWLEDGMENT_NUMBER: usize = 8;

const DATA_OFFSET: usize = 12;

const CONTROL_BITS: usize = 13;

/// A TCP segment, or the part of it that was captured (RFC 9293, section 3.1).
#[derive(Clone, Copy, Debug)]
pub struct Tcp<'a> {
    bytes: &'a [u8],
    full: usize,
    ghost holds_least_header: { 20 ≤ length bytes.now },
    ghost holds_header: { header_length bytes.now ≤ length bytes.now },
    ghost within_full: { length bytes.now ≤ full },
    ghost within_limit: { full ≤ 65535 },
}

impl<'a> Tcp<'a> {
    ghost use Rattle.zk_base.specs.Slices.{BeginsAt};
    ghost use Rattle.zk_l4.specs.PseudoHeader.{IsOneFamily};
    ghost use Rattle.zk_l4.specs.Tcp.{acknowledgment_number, control_bits, destination_port, payload, sequence_number, source_port, tcp_fault};
    ghost use Rattle.zk_l4.specs.Views.{full_length, segment};

    /// Reads the segment from `src` to `dst` of which `bytes` were captured and which has `full`
    /// bytes by its IP header.
    ///
    /// The checksum is judged where `check` is set and the segment is not cut. The answer is the
    /// first that holds of `Short`, `Offset` and `Checksum`, else the segment.
    #[tactic(auto, unfolding(crate::specs::Tcp::tcp_fault, crate::specs::Tcp::data_offset))]
    pub fn read(
        src: Addr,
        dst: Addr,
        bytes: &'a [u8],
        full: usize,
        check: bool,
    ) -> Result<Tcp<'a>, L4Fault>
        requires captured { length bytes.now ≤ full }
        requires limit { full ≤ 65535 }
        requires family { IsOneFamily src dst }
        ensures fault { MatchResult result (λ _. tcp_fault src dst bytes.now full check ≡ None)
            (λ fault. tcp_fault src dst bytes.now full check ≡ Some fault) }
        ensures bytes { IfOk result (λ tcp. segment tcp ≡ bytes.entry) }
        ensures full { IfOk result (λ tcp. full_length tcp ≡ full) }
    {
        if bytes.len() < HEADER_LEN_MIN {
            return Err(L4Fault::Short);
        }
        let header_len = header_len(bytes);
        if header_len < HEADER_LEN_MIN || bytes.len() < header_len {
            return Err(L4Fault::Offset);
        }
        let is_judged = check && bytes.len() == full;
        if is_judged && !is_checksum_right(src, dst, PROTOCOL, bytes) {
            return Err(L4Fault::Checksum);
        }
        Ok(Tcp { bytes, full })
    }

    /// The port of the sender.
    #[tactic(auto, unfolding(crate::specs::Tcp::source_port))]
    pub fn src_port(&self) -> u16
        ensures { result ≡ source_port (segment self.now).now }
    {
        BigEndian::read_u16(&self.bytes[SOURCE_PORT..])
    }

    /// The port of the receiver.
    #[tactic(auto, unfolding(crate::specs::Tcp::destination_port))]
    pub fn dst_port(&self) -> u16
        ensures { result ≡ destination_port (segment self.now).now }
    {
        BigEndian::read_u16(&self.bytes[DESTINATION_PORT..])
    }

    /// The sequence number.
    #[tactic(auto, unfolding(crate::specs::Tcp::sequence_number))]
    pub fn seq(&self) -> u32
        ensures { result ≡ sequence_number (segment self.now).now }
    {
        BigEndian::read_u32(&self.bytes[SEQUENCE_NUMBER..])
    }

    /// The acknowledgment number, whether ACK is set or not.
    #[tactic(auto, unfolding(crate::specs::Tcp::acknowledgment_number))]
    pub fn ack(&self) -> u32
        ensures { result ≡ acknowledgment_number (segment self.now).now }
    {
        BigEndian::read_u32(&self.bytes[ACKNOWLEDGMENT_NUMBER..])
    }

    /// The control bits, which [`crate::flags`] names.
    #[tactic(auto, unfolding(crate::specs::Tcp::control_bits))]
    pub fn flags(&self) -> u8
        ensures { result ≡ control_bits (segment self.now).now }
    {
        self.bytes[CONTROL_BITS]
    }

    /// The length in bytes of the whole segment's payload, also where less was captured.
    pub fn full_payload(&self) -> usize
        ensures value { result ≡ full_length self.now - header_length (segment self.now).now }
        ensures bound { result ≤ 65535 }
    {
        self.full - header_len(self.bytes)
    }

    /// What was captured of the payload, the very slice of the bytes that were read.
    pub fn payload(&self) -> &'a [u8]
        ensures bytes { result.now ≡ payload (segment self.now).now }
        ensures place { BeginsAt (header_length (segment self.now).now) (segment self.now) result }
        ensures bound { length result.now ≤ full_length self.now - header_length (segment self.now).now }
    {
        let start = header_len(self.bytes);
        &self.bytes[start..]
    }
}

/// The length in bytes of the header, options among them.
#[tactic(auto, unfolding(crate::specs::Tcp::data_offset))]
fn header_len(bytes: &[u8]) -> usize
    requires { HEADER_LEN_MIN ≤ length bytes.now }
    ensures { result ≡ header_length bytes.now }
{
    // The data offset is the high half of its byte.
    WORD_LEN * usize::from(bytes[DATA_OFFSET] >> 4)
}
