//! The log streams that scripts make, and the filters of each (Zeek manual, Logging Framework).
#![tactic(auto)]

mod filter;
mod kept;
mod streams;

pub use filter::Filter;
pub use kept::LogStream;
pub use streams::Streams;
