use sqlite_items::Boxed;
use zk_base::ScriptKind;
use zk_lower::Code;

/// A program that can be run.
#[derive(Debug, Drop)]
pub struct Runnable {
    /// In a box, since it is handed on by value.
    pub code: Boxed<Code>,
    /// Whether it handles packets.
    pub packets: bool,
}

/// Where and why scripts are refused: the number of the file, the place of a byte in it, and the kind.
#[derive(Clone, Copy, Debug)]
pub struct Refusal {
    pub file: usize,
    pub place: u64,
    pub kind: ScriptKind,
}
