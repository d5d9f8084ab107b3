ghost use Rattle.std.specs.Prelude.{◌≡◌, ◌<◌, ◌==◌, if◌then◌else◌, length, replicate, slice_index, slice_set, IfSome};
ghost use Rattle.zk_dns.specs.Skips.{AreSkips};

use crate::name::{TARGET_MIN, target_at};

/// The places that a pointer can lead to end here: it has 14 bits (RFC 1035, section 4.1.4).
pub const TARGETS_END: usize = 0x4000;

/// The least byte that begins a pointer.
const POINTER: u8 = 0xc0;

/// Fills a table that is empty: for the place of a pointer, the place that it leads to over all pointers
/// that lead to pointers alone. So no name walks a long chain of them again.
pub fn fill(bytes: &[u8], skips: &mut [u16])
    requires { skips.old ≡ replicate TARGETS_END 0 }
    ensures { AreSkips bytes.now skips.new }
{
    for place in TARGET_MIN..skips.len().min(bytes.len()) {
        if let Some(skip) = skip_from(bytes, skips, place) {
            skips[place] = skip;
        }
    }
}

/// The place that the pointer at a place leads to, if one stands there that leads back.
fn skip_from(bytes: &[u8], skips: &[u16], place: usize) -> Option<u16>
    requires place { place < length bytes.now }
    requires few { place < TARGETS_END }
    requires skips { AreSkips bytes.now skips.now }
    ensures { IfSome result (λ skip. place < length skips.now → AreSkips bytes.now (slice_set skips.now place skip)) }
{
    if bytes[place] < POINTER || bytes.len() - place < 2 {
        return None;
    }
    let target = target_at(bytes, place);
    if target < TARGET_MIN || place <= target {
        return None;
    }
    Some(skip(skips, target) as u16)
}

/// The place where a name goes on that goes on at a place.
pub fn skip(skips: &[u16], place: usize) -> usize
    ensures { result ≡ (if slice_index skips.now place == 0 then place else slice_index skips.now place) }
{
    match skips.get(place) {
        Some(skipped) if *skipped != 0 => usize::from(*skipped),
        _ => place,
    }
}
