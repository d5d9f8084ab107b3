ghost use Rattle.std.specs.Prelude.{◌≡◌, ℕ, ◌+◌, ◌<◌, ◌≤◌, nat_le, length, map, None, if◌then◌else◌};
ghost use Rattle.std.specs.List.{range_with_len};
ghost use Rattle.zk_reasm.specs.Piece.{byte_in};
ghost use Rattle.zk_reasm.specs.Place.{byte_of, places_of};
ghost use Rattle.zk_reasm.specs.Told.{greatest};

use crate::place::{PLACES, distance};

/// Bytes that stand one behind another from a place on.
#[derive(Clone, Copy, Debug)]
pub struct Piece<'a> {
    pub at: u64,
    pub bytes: &'a [u8],
}

impl<'a> Piece<'a> {
    /// The bytes of a segment that have a place.
    pub fn of(base: u32, seq: u32, bytes: &'a [u8]) -> Piece<'a>
        requires { length bytes.now ≤ 65535 }
        ensures bytes { (at : ℕ) → byte_in result.at result.bytes.now at ≡ byte_of base seq bytes.now at }
        ensures places { places_of base seq bytes.now ≡ range_with_len result.at (length result.bytes.now) }
        ensures within { result.at + length result.bytes.now ≤ PLACES }
    {
        let at = u64::from(distance(base, seq));
        if at < PLACES {
            let most = (PLACES - at) as usize;
            Piece {
                at,
                bytes: &bytes[..bytes.len().min(most)],
            }
        } else {
            let before = ((1 << 32) - at) as usize;
            Piece {
                at: 0,
                bytes: &bytes[bytes.len().min(before)..],
            }
        }
    }

    /// What of it lies at or past a place.
    pub fn at_or_past(&self, front: u64) -> Piece<'a>
        requires front { front ≤ PLACES }
        requires within { self.now.at + length self.now.bytes.now ≤ PLACES }
        ensures bytes { (at : ℕ) → byte_in result.at result.bytes.now at
            ≡ (if nat_le front at then byte_in self.now.at self.now.bytes.now at else None) }
        ensures front { front ≤ result.at }
        ensures within { result.at + length result.bytes.now ≤ PLACES }
    {
        if front <= self.at {
            return *self;
        }
        let below = (front - self.at) as usize;
        Piece {
            at: front,
            bytes: &self.bytes[self.bytes.len().min(below)..],
        }
    }

    /// The place behind its last byte.
    pub fn end(&self) -> u64
        requires { self.now.at + length self.now.bytes.now ≤ PLACES }
        ensures { result ≡ self.now.at + length self.now.bytes.now }
    {
        self.at + self.bytes.len() as u64
    }

    /// The place behind its last byte, and 0 where it has none.
    pub fn last_end(&self) -> u64
        requires { self.now.at + length self.now.bytes.now ≤ PLACES }
        ensures { result ≡ greatest (map (λ at. at + 1) (range_with_len self.now.at (length self.now.bytes.now))) }
    {
        if self.bytes.is_empty() { 0 } else { self.end() }
    }
}
