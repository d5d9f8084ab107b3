//! Tests of what leads from a capture to its items: worked examples of the public calls of these crates.
//! They stand in a crate of their own, since a crate with tests is proved twice.
#![tactic(auto)]

#[cfg(test)]
mod arguments;
#[cfg(test)]
mod base;
#[cfg(test)]
mod conn;
#[cfg(test)]
mod dns;
#[cfg(test)]
mod files;
#[cfg(test)]
mod frag;
#[cfg(test)]
mod http;
#[cfg(test)]
mod l4;
#[cfg(test)]
mod link_ip;
#[cfg(test)]
mod pcap;
#[cfg(test)]
mod reasm;
#[cfg(test)]
mod shelves;
#[cfg(test)]
mod traffic;
#[cfg(test)]
mod units;
