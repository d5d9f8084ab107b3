//! HTTP/1.0 and HTTP/1.1 (RFC 9112) over the two streams of a connection: the units of its messages.
#![tactic(auto)]

mod body;
mod chunk;
mod half;
mod head;
mod http;
mod laws;
mod search;
mod state;
mod turn;
mod units;

pub use http::Http;
pub use laws::{bodies_stand, heads_and_chunk_lines, readers_stand, units_stay};
pub use units::{Head, Reason, Start, Step, Unit, UnitKind};
