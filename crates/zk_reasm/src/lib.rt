//! One direction of a TCP connection, put together from its segments (RFC 9293, section 3.4).
#![tactic(auto)]

mod apart;
mod held;
mod laws;
mod page;
mod pages;
mod piece;
mod place;
mod scattered;
mod stream;
mod stretch;

pub use laws::stream_laws;
pub use place::PLACES;
pub use stream::{Put, Stream};
