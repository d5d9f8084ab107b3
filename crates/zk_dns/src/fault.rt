use thiserror::Error;

/// Why bytes are no DNS message: the first thing that fails from the front, with its place. One step of
/// a name judges `Short`, `Label`, `Pointer` and `Name` in this order.
#[derive(Clone, Copy, Debug, PartialEq, Eq, Error)]
pub enum DnsFault {
    /// The bytes end before a part is whole. The place is their number.
    #[error("the message ends too early, at byte {place}")]
    Short { place: usize },
    /// A length byte whose two high bits are 01 or 10 (RFC 1035, section 4.1.4).
    #[error("no label and no pointer begins at byte {place}")]
    Label { place: usize },
    /// The length byte that, with the root, brings the name above 255 bytes (RFC 1035, section 2.3.4).
    #[error("the name is longer than 255 bytes, from the label at byte {place} on")]
    Name { place: usize },
    /// A pointer into the header, or not to before the run of labels that holds it.
    #[error("the pointer at byte {place} does not lead back")]
    Pointer { place: usize },
    /// Data of class 1 that isn't what its type wants. The place is the first byte of the data.
    #[error("the data at byte {place} is not what its type wants")]
    Data { place: usize },
    /// Bytes behind the last record. The place is that of the first of them.
    #[error("bytes follow the last record, from byte {place} on")]
    Trailing { place: usize },
}
