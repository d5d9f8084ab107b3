use zk_base::{EventNo, Moment};
use zk_value::Value;

/// An event with its arguments.
#[derive(Debug, Drop)]
pub struct Queued {
    pub event: EventNo,
    pub args: Vec<Value>,
}

/// An event that is due at a moment, and which of those that were scheduled it is.
#[derive(Debug, Drop)]
pub struct Scheduled {
    pub due: Moment,
    pub order: u64,
    pub what: Queued,
}
