//! The types that every crate of zeekoff speaks of, and the outside as the program sees it.
#![tactic(auto)]

mod body;
mod byte_queue;
mod bytes;
mod capture;
mod checksum;
mod contents;
mod counts;
mod endings;
mod held;
mod mem_shelf;
mod memory;
mod network;
mod numbers;
mod sequence;
mod shelf;
mod sure_shelf;
mod time;

pub use body::{Body, Nowhere};
pub use byte_queue::ByteQueue;
pub use bytes::{Bytes, Word};
pub use capture::{CAPTURE_MAX, CaptureEnding, PacketView, RECORD_BYTES_MAX};
pub use checksum::{is_right_checksum, word_sum};
pub use counts::Counts;
pub use endings::{Ending, ScriptKind};
pub use held::Held;
pub use mem_shelf::MemShelf;
pub use memory::Mem;
pub use network::{Addr, IP4_TOTAL_LENGTH_MAX, LINKTYPE_ETHERNET, LINKTYPE_RAW, Proto, Side};
pub use numbers::{ConnNo, EventNo, HandlerNo, HookNo, LogId, ObjectNo, RecordNo};
pub use sequence::Sequence;
pub use shelf::{Fault, Got, Shelf, Started, Wrote};
pub use sure_shelf::SureShelf;
pub use time::{Moment, Span};
