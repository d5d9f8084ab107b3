/// How a capture is taken.
#[derive(Clone, Copy, Debug, PartialEq, Eq)]
pub struct Options {
    /// Checksums are judged, and a packet with a wrong one is ignored.
    pub check: bool,
    /// How many bytes a stream may hold above its front. With one more it gives up.
    pub buffer: u64,
    /// Each packet is an item too.
    pub packets: bool,
}
