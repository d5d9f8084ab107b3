//! The control bits of TCP, as [`crate::Tcp::flags`] holds them (RFC 9293, section 3.1).

/// The sender has no more bytes to send.
pub const FIN: u8 = 0x01;

/// The sequence number is the first of its stream.
pub const SYN: u8 = 0x02;

/// The connection is reset.
pub const RST: u8 = 0x04;

/// The bytes so far are to be pushed to the receiving program.
pub const PSH: u8 = 0x08;

/// The acknowledgment number counts.
pub const ACK: u8 = 0x10;

/// The urgent pointer counts.
pub const URG: u8 = 0x20;

/// The sender has noticed congestion, or knows of such notices (ECN-Echo).
pub const ECE: u8 = 0x40;

/// The sender sends less than before, for a notice of congestion (congestion window reduced).
pub const CWR: u8 = 0x80;
