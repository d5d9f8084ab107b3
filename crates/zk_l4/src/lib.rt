//! TCP and UDP headers, read in place: each view borrows the bytes of its packet and takes no memory.
//!
//! So a payload can't outlive the packet. This does not compile, since `bytes` does not live long
//! enough (`checks/borrows` tries it):
//!
//! ```text
//! pub fn payload_outlives_its_segment() -> usize {
//!     let mut kept: &[u8] = &[];
//!     {
//!         let bytes = [0u8; 20];
//!         if let Ok(tcp) = Tcp::read(zk_base::Addr::V4(1), zk_base::Addr::V4(2), &bytes, 20, false) {
//!             kept = tcp.payload();
//!         }
//!     }
//!     kept.len()
//! }
//! ```
#![tactic(auto)]

mod fault;
pub mod flags;
mod pseudo_header;
mod tcp;
mod udp;

pub use fault::L4Fault;
pub use tcp::Tcp;
pub use udp::Udp;
