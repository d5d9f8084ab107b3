//! A capture that is made by rule: conversations of DNS and HTTP, one each second. A run over it has
//! something to read whose size is known beforehand.
#![tactic(auto)]

ghost use Rattle.std.specs.Prelude.{◌≡◌, ◌≤◌, List, ℕ, IfOk};
ghost use Rattle.zk_gen.specs.declared.packet.Transport.{Transport as Protocol};
ghost use Rattle.zk_gen.specs.declared.packet.Path.{Path as Route};
ghost use Rattle.zk_gen.specs.Capture.{capture_of, HasRightChecksums};

mod conversations;
mod headers;
mod packet;

use std::alloc::Global;
use zk_base::{Bytes, Mem};

/// The greatest number of conversations of a capture.
pub const CONVERSATIONS_MAX: u32 = 100_000;

/// A capture of so many conversations, in microseconds, little-endian, of Ethernet frames without
/// padding. Conversation `k`, from 0, begins `k` seconds after the first. Its kind is `start + k` by 3: a
/// query of DNS with its reply, a request of HTTP with its response, or the same with each byte in a
/// segment of its own, most of them twice and in falling order.
pub fn capture(alloc: Global, start: u32, count: u32) -> Result<Bytes, Mem>
    requires { count ≤ CONVERSATIONS_MAX }
    ensures exact { IfOk result (λ bytes. bytes ≡ capture_of start count) }

    // Each packet that the capture may have has right checksums.
    ensures checksums { (transport : Protocol) (path : Route) (payload : List ℕ) → HasRightChecksums transport path payload }
{
    conversations::capture(alloc, start, count)
}
