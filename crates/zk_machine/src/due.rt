use zk_base::Moment;

/// When something is due, and what.
#[derive(Clone, Copy, Debug, PartialEq, Eq)]
pub struct Due {
    pub at: Moment,
    pub what: DueKind,
}

/// What is due.
#[derive(Clone, Copy, Debug, PartialEq, Eq)]
pub enum DueKind {
    /// An entry of a global's table, by the global's number in load order and the entry's order number.
    Entry { table: u32, order: u64 },
    /// An event that was scheduled, by its number among those that were.
    Scheduled { order: u64 },
}
