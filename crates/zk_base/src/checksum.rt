ghost use Rattle.std.specs.Prelude.{◌≡◌, ◌↔◌, ◌*◌, ◌<◌, ◌≤◌, ◌^◌, IsTrue, List, ℕ, length, sum};
ghost use Rattle.zk_base.specs.Checksum.{AreWords, is_right_sum, ones_complement_sum, words};

/// The exact sum of the 16-bit words of `bytes` in network order; a zero byte follows a last odd
/// one (RFC 1071, section 1). The sums of pieces may be added where each but the last has an even
/// length.
pub fn word_sum(bytes: &[u8]) -> u64
    requires { length bytes.now < 2 ^ 32 }
    ensures value { result ≡ sum (words bytes.now) }
    ensures bound { result ≤ 65535 * length bytes.now }
{
    let mut rest = bytes;
    let mut total: u64 = 0;
    while let [high, low, after @ ..] = rest {
        total += u64::from(u16::from_be_bytes([*high, *low]));
        rest = after;
    }
    if let [high] = rest {
        total += u64::from(u16::from_be_bytes([*high, 0]));
    }
    total
}

/// Whether words with this sum, the checksum field among them, have a right checksum: their one's
/// complement sum is all ones (RFC 1071, section 1).
pub fn is_right_checksum(total: u64) -> bool
    ensures value { result ≡ is_right_sum total }

    // The same as adding any words of this sum one by one, each carry taken round to the low end.
    ensures carried { (ws : List ℕ) → AreWords ws → sum ws ≡ total →
        (IsTrue result ↔ (ones_complement_sum ws ≡ 0xffff)) }
{
    // 2^16 counts as 1, so what carries leave is the remainder by 2^16 - 1.
    total > 0 && total % 0xffff == 0
}
