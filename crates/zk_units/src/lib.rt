//! The readers of a connection: the units that its two streams free, by the protocol that it speaks.
#![tactic(auto)]

mod dns;
mod http;
mod http_reader;
mod protocol;
mod readers;
mod stream_unit;
mod unread;

pub use dns::message_unit;
pub use protocol::{Protocol, protocol_at};
pub use readers::Readers;
pub use stream_unit::{Freed, StreamUnit};
