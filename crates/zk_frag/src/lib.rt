//! Datagrams, put together from their fragments: by any key, and those of IPv4 (RFC 791, section 3.2).
#![tactic(auto)]

mod assembly;
mod fragment;
mod frags;
mod group;
mod groups;
mod joined;
mod key;

pub use fragment::FragmentView;
pub use frags::Frags;
pub use groups::{Groups, fragment_groups};
pub use joined::{Added, Joined};
