//! Whether programs are blind to how streams were cut into packets.
#![tactic(auto)]

mod reads;

pub use reads::{PACKET_SEEN, blind};
