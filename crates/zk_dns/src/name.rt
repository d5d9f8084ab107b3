ghost use Rattle.std.specs.Prelude.{◌≡◌, ◌≢◌, ◌+◌, ◌<◌, ◌≤◌, length, slice_index, IfOk};
ghost use Rattle.zk_dns.specs.Name.{byte_at, target_at};
ghost use Rattle.zk_dns.specs.Skips.{AreSkips};
ghost use Rattle.zk_dns.specs.Ends.{name_end_at, run_end_at, behind_ending};

use crate::DnsFault;
use crate::bound::Bound;
use crate::skips::skip;
use byteorder::{BigEndian, ByteOrder};

/// The most bytes of a name, with its length bytes and the root (RFC 1035, section 2.3.4).
const NAME_MAX: usize = 255;

/// The least place that a pointer may lead to: behind the header.
pub const TARGET_MIN: usize = 12;

/// The length of a pointer.
const POINTER_LEN: usize = 2;

/// The low bits of a pointer, which say where it leads (RFC 1035, section 4.1.4).
const TARGET: u16 = 0x3fff;

/// What ends a run of labels: the root, or a pointer.
#[derive(Clone, Copy, Debug)]
pub struct RunEnd {
    /// Its place.
    pub place: usize,
    /// How many bytes the name has up to it, length bytes among them.
    pub size: usize,
}

/// Reads the run of labels at a place, in a name that has `size` bytes before it.
pub fn run_end(bytes: &[u8], bound: Bound, size: usize, start: usize) -> Result<RunEnd, DnsFault>
    requires bound { bound.end ≤ length bytes.now }
    requires size { size < 255 }
    ensures exact { result ≡ run_end_at bytes.now bound size start }
    ensures within { IfOk result (λ end. behind_ending bytes.now end.place ≤ bound.end) }
    ensures size { IfOk result (λ end. end.size < 255) }
{
    let mut place = start;
    let mut size = size;
    while place < bound.end {
        let left = bound.end - place - 1;
        match bytes[place] {
            0 => return Ok(RunEnd { place, size }),
            label @ 1..=63 => {
                let len = usize::from(label);
                if left < len {
                    return Err(bound.fault);
                }
                if size + 1 + len + 1 > NAME_MAX {
                    return Err(DnsFault::Name { place });
                }
                size += 1 + len;
                place += 1 + len;
            }
            64..=191 => return Err(DnsFault::Label { place }),
            _ if left < 1 => return Err(bound.fault),
            _ => return Ok(RunEnd { place, size }),
        }
    }
    Err(bound.fault)
}

/// The place behind what ends a run of labels.
pub fn behind_ending(bytes: &[u8], ending: usize) -> usize
    requires { behind_ending bytes.now ending ≤ length bytes.now }
    ensures { result ≡ behind_ending bytes.now ending }
{
    if bytes[ending] == 0 {
        ending + 1
    } else {
        ending + POINTER_LEN
    }
}

/// Where the pointer at a place leads.
pub fn target_at(bytes: &[u8], place: usize) -> usize
    requires { place + 2 ≤ length bytes.now }
    ensures { result ≡ target_at bytes.now place }
{
    usize::from(BigEndian::read_u16(&bytes[place..]) & TARGET)
}

/// The place behind the own bytes of the name at a place, or its first fault. Pointers are followed: each
/// leads to before the run of labels that holds it.
/// `skips` cuts chains of pointers short.
pub fn name_end(bytes: &[u8], skips: &[u16], bound: Bound, place: usize) -> Result<usize, DnsFault>
    requires bound { bound.end ≤ length bytes.now }
    requires skips { AreSkips bytes.now skips.now }
    ensures exact { result ≡ name_end_at bytes.now bound place }
    ensures within { IfOk result (λ next. next ≤ bound.end) }
{
    let mut start = place;
    let mut run = run_end(bytes, bound, 0, place)?;
    let next = behind_ending(bytes, run.place);
    while bytes[run.place] != 0 {
        let target = target_at(bytes, run.place);
        if target < TARGET_MIN || start <= target {
            return Err(DnsFault::Pointer { place: run.place });
        }
        start = skip(skips, target);
        run = run_end(bytes, Bound::whole(bytes), run.size, start)?;
    }
    Ok(next)
}
