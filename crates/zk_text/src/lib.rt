//! The texts of values, as zeekoff prints them. Each call writes one text to the front of a buffer
//! of the caller's, answers its length in bytes, leaves the rest of the buffer, and takes no memory.
#![tactic(auto)]

mod addresses;
mod backward;
mod escapes;
mod front;
mod integers;
mod ports;
mod times;

pub use addresses::{ADDR_TEXT_MAX, SUBNET_TEXT_MAX, addr_text, subnet_text};
pub use escapes::escape_into;
pub use front::Short;
pub use integers::{COUNT_TEXT_MAX, INT_TEXT_MAX, count_text, int_text};
pub use ports::{PORT_TEXT_MAX, port_text, proto_name};
pub use times::{SPAN_TEXT_MAX, span_text, write_span};
