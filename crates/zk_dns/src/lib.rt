//! DNS messages (RFC 1035, RFC 3596), read in place.
#![tactic(auto)]

mod bound;
mod content;
mod data;
mod fault;
mod iterators;
mod laws;
mod message;
mod name;
mod numbers;
mod parts;
mod record;
mod skips;
mod tcp;
mod text;
mod types;

pub use fault::DnsFault;
pub use iterators::{Answers, Questions};
pub use laws::{names, tcp_units};
pub use message::Message;
pub use parts::{AnswerPart, QuestionPart};
pub use record::{Answer, AnswerKind, DnsRecord, Question};
pub use tcp::{DnsStep, TcpDns};
