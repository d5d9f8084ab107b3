use zk_base::EventNo;

/// `zeek_init()`, at the beginning of a run (Zeek manual, Events, zeek_init and zeek_done).
pub const ZEEK_INIT: EventNo = EventNo(0);

/// `zeek_done()`, at the end of a run.
pub const ZEEK_DONE: EventNo = EventNo(1);
