ghost use Rattle.std.specs.Prelude.{◌≡◌};
ghost use Rattle.zk_frag.specs.Fragment.{is_ignored, shown};

use zk_base::Moment;

/// The most bytes that a datagram may have behind its header.
pub const DATAGRAM_MAX: usize = 65_535;

/// A fragment of a datagram, whose payload is borrowed.
#[derive(Debug, Drop)]
pub struct FragmentView<'a, K, T> {
    /// When it was captured.
    pub moment: Moment,
    /// What the fragments of one datagram have in common.
    pub key: K,
    /// What else it says of its datagram. That of the fragment counts whose byte 0 stands.
    pub tag: T,
    /// Where its payload stands in the datagram, in bytes.
    pub place: u32,
    /// Whether more fragments of the datagram follow.
    pub more: bool,
    /// Whether the capture lacks bytes of it.
    pub was_cut: bool,
    pub payload: &'a [u8],
}

impl<K, T> FragmentView<'_, K, T> {
    /// Whether it is cut, or its place and its payload together pass 65,535 bytes. The header is not
    /// counted.
    pub fn is_ignored(&self) -> bool
        ensures { result ≡ is_ignored (shown self.now) }
    {
        self.was_cut || self.place as usize + self.payload.len() > DATAGRAM_MAX
    }
}
