ghost use Rattle.std.specs.Prelude.{◌≡◌, ◌+◌, ◌*◌, ◌%◌, ◌^◌, ◌<◌, ◌≤◌, length, sum};
ghost use Rattle.std.specs.Int.{to_be_bytes, w128};
ghost use Rattle.zk_base.specs.Checksum.{words};
ghost use Rattle.zk_l4.specs.PseudoHeader.{address_bytes, has_right_checksum};

use byteorder::{ByteOrder, LittleEndian};
use zk_base::{Addr, is_right_checksum, word_sum};

/// The length of a wide word.
const WIDE_LEN: usize = 16;

/// A sum of wide words, those of 128 bits: `low`, and 2^128 for each carry out of it. The carries are
/// counted, since no integer has room for the sum; and a count that no word waits for costs less than to
/// add each carry at the low end at once.
#[derive(Clone, Copy, Debug)]
struct WideSum {
    low: u128,
    carries: u64,
}

impl WideSum {
    fn add(&mut self, word: u128)
        requires { self.old.carries < 2 ^ 32 }
        ensures value { self.new.low + 2 ^ 128 * self.new.carries ≡ self.old.low + 2 ^ 128 * self.old.carries + word }
        ensures carries { self.new.carries ≤ self.old.carries + 1 }
        ensures low { self.new.low < 2 ^ 128 }
    {
        let (low, has_carried) = self.low.overflowing_add(word);
        self.low = low;
        self.carries += u64::from(has_carried);
    }

    /// The same but for multiples of 2^16 - 1: 2^32, 2^64, 2^96 and 2^128 count as 1.
    fn folded(self) -> u64
        requires { self.carries < 2 ^ 32 }
        ensures value { result % 65535 ≡ (self.low + 2 ^ 128 * self.carries) % 65535 }
        ensures within { result ≤ self.low + self.carries }
        ensures bound { result < 2 ^ 35 }
    {
        let low = (self.low & 0xffff_ffff_ffff_ffff) as u64;
        let high = (self.low >> 64) as u64;
        (low & 0xffff_ffff) + (low >> 32) + (high & 0xffff_ffff) + (high >> 32) + self.carries
    }
}

/// The sum of an address's 16-bit words.
fn address_sum(address: Addr) -> u64
    ensures value { result ≡ sum (words (address_bytes address)) }
    ensures bound { result < 2 ^ 20 }
{
    match address {
        Addr::V4(number) => u64::from(number >> 16) + u64::from(number & 0xffff),
        Addr::V6(number) => ip6_address_sum(number),
    }
}

/// The sum of the 16-bit words of an address of IPv6. It stands out of line, so that `address_sum` is
/// short enough to stand in line.
#[inline(never)]
fn ip6_address_sum(number: u128) -> u64
    ensures value { result ≡ sum (words (to_be_bytes w128 number)) }
    ensures bound { result < 2 ^ 20 }
{
    word_sum(&number.to_be_bytes())
}

/// The sum of the 16-bit words of `bytes`, but for multiples of 2^16 - 1, since 2^16 counts as 1.
/// Wide words are added, two at a time, and read from their low end, where 256 times a word counts as
/// the word itself with its bytes in their order (RFC 1071, section 2, B and C). It stands out of line, so
/// that what surrounds it is short enough to stand in line.
#[inline(never)]
fn wide_sum(bytes: &[u8]) -> u64
    requires { length bytes.now ≤ 65535 }
    ensures value { result % 65535 ≡ sum (words bytes.now) % 65535 }
    ensures bound { result ≤ 2 ^ 44 * length bytes.now }
{
    let mut rest = bytes;
    let mut total = WideSum { low: 0, carries: 0 };
    while rest.len() >= 2 * WIDE_LEN {
        total.add(LittleEndian::read_u128(rest));
        total.add(LittleEndian::read_u128(&rest[WIDE_LEN..]));
        rest = &rest[2 * WIDE_LEN..];
    }
    if rest.len() >= WIDE_LEN {
        total.add(LittleEndian::read_u128(rest));
        rest = &rest[WIDE_LEN..];
    }
    256 * total.folded() + narrow_sum(rest)
}

/// As `wide_sum`, by words of 32 bits.
fn narrow_sum(bytes: &[u8]) -> u64
    requires { length bytes.now ≤ 65535 }
    ensures value { result % 65535 ≡ sum (words bytes.now) % 65535 }
    ensures bound { result ≤ 2 ^ 40 * length bytes.now }
{
    let mut rest = bytes;
    let mut total: u64 = 0;
    while let [a, b, c, d, after @ ..] = rest {
        total += u64::from(u32::from_le_bytes([*a, *b, *c, *d]));
        rest = after;
    }
    256 * total + word_sum(rest)
}

/// Whether the checksum in a datagram of `protocol` is right: that over the pseudo header of its
/// addresses and the whole datagram.
pub fn is_checksum_right(src: Addr, dst: Addr, protocol: u8, datagram: &[u8]) -> bool
    requires { length datagram.now ≤ 65535 }
    ensures { result ≡ has_right_checksum src dst protocol datagram.now }
{
    // Protocol and length are words of their own in either pseudo header: the words of 32 bits that
    // hold them in that of IPv6 have a high half of zero.
    let header = address_sum(src) + address_sum(dst) + u64::from(protocol) + datagram.len() as u64;
    is_right_checksum(header + wide_sum(datagram))
}
