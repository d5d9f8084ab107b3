//! Captures on disk in the classic pcap format: the header of a file and its packets.
#![tactic(auto)]

mod captures;
mod faults;
mod feed;
mod headers;
mod records;

pub use captures::{Capture, packets};
pub use faults::CaptureFault;
pub use feed::{Feed, Next, feeds_read_captures};
pub use headers::{HEADER_LEN, Header};
pub use records::Packet;
pub use zk_base::{CAPTURE_MAX, CaptureEnding, PacketView};
