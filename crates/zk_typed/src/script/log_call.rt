use zk_base::{Bytes, EventNo, HookNo, LogId, Sequence};

/// A call of the log framework (Zeek manual, Logging Framework). What it says of streams and filters stands
/// in the text of the script, so it is known before the program runs.
#[derive(Debug, Drop)]
pub enum LogCall {
    /// `Log::create_stream`, with the columns of the stream by their numbers among the fields of its record
    /// type, those of a nested record in the place of the field that holds it.
    Create {
        log: LogId,
        event: Option<EventNo>,
        path: Bytes,
        policy: Option<HookNo>,
        columns: Sequence<u32>,
    },
    /// `Log::add_filter`, with the columns that it keeps by their numbers among those of the stream.
    AddFilter {
        log: LogId,
        name: Bytes,
        path: Option<Bytes>,
        policy: Option<HookNo>,
        columns: Sequence<u32>,
    },
    /// `Log::remove_filter`, and `Log::remove_default_filter` with the name `default`.
    RemoveFilter {
        log: LogId,
        name: Bytes,
    },
}
