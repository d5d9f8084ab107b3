use thiserror::Error;

/// Why a transport header is not accepted. Where several hold, the first in this order is answered.
#[derive(Clone, Copy, Debug, PartialEq, Eq, Error)]
pub enum L4Fault {
    /// Fewer bytes than the least header: 20 for TCP, 8 for UDP.
    #[error("the header is cut short")]
    Short,
    /// The data offset of TCP is below 5 words or leads past the bytes (RFC 9293, section 3.1).
    #[error("the data offset is wrong")]
    Offset,
    /// The length field of UDP is below 8 or above the length by the IP header (RFC 768).
    #[error("the length is wrong")]
    Length,
    /// The checksum was to be judged and is wrong.
    #[error("the checksum is wrong")]
    Checksum,
}
