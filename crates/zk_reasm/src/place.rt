ghost use Rattle.std.specs.Prelude.{◌≡◌};
ghost use Rattle.zk_reasm.specs.Place.{distance};

/// The places of a direction: its bytes stand at those below 2^31.
pub const PLACES: u64 = 1 << 31;

/// How far a number lies ahead of the one behind the base, modulo 2^32 (RFC 9293, section 3.4).
pub fn distance(base: u32, number: u32) -> u32
    ensures { result ≡ distance base number }
{
    number.wrapping_sub(base).wrapping_sub(1)
}
