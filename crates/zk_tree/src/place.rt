/// A place in the scripts of a run.
#[derive(Clone, Copy, Debug, PartialEq, Eq)]
pub struct Place {
    /// The file, by its number in load order, from 0.
    pub file: usize,
    /// The byte in that file, from 0.
    pub byte: u64,
}
