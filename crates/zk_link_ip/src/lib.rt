//! What a captured frame holds, and the IPv4 packet in it, as slices of the frame. Nothing here
//! takes memory.
#![tactic(auto)]

mod frame;
mod ip4;

pub use frame::{content, ip_part};
pub use ip4::{Ip4, IpFault};
