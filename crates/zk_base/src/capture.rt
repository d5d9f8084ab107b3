use crate::Moment;

/// A captured packet, whose bytes are borrowed.
#[derive(Clone, Copy, Debug)]
pub struct PacketView<'a> {
    /// When it was captured.
    pub moment: Moment,
    /// How many bytes it had on the wire.
    pub orig_len: u32,
    /// Its captured bytes, the very slice of what holds them.
    pub bytes: &'a [u8],
    /// Where its record begins in the file.
    pub place: u64,
}

/// How a capture ends.
#[derive(Clone, Copy, Debug, PartialEq, Eq)]
pub enum CaptureEnding {
    /// The last record ends with the bytes that count.
    Whole,
    /// At this place begins a record that isn't whole within the bytes that count, or that says more
    /// bytes were captured than a record may have.
    Cut { place: u64 },
}

/// The greatest number of bytes of a file that count.
pub const CAPTURE_MAX: usize = 1 << 40;

/// The most bytes that a record may say were captured: the snaplen that tcpdump sets at most.
pub const RECORD_BYTES_MAX: usize = 262_144;
