ghost use Rattle.std.specs.Prelude.{◌≡◌, ◌<◌, ◌≤◌, ◌↔◌, ◌++◌, ◌+◌, ◌*◌, ◌-◌, ℕ, decimal, drop, length, IfOk, IsErr, IsOk, OnErr, OnOk};
ghost use Rattle.std.specs.Net.Text.{groups_text, hex, hex_groups_text, ipv4_text, leading_zero_digits, longest_zero_run};
ghost use Rattle.std.specs.Char.{digit_char};
ghost use Rattle.zk_base.specs.declared.network.Addr.{Addr as AddrData};
ghost use Rattle.zk_text.specs.Address.{addr_text, groups_of, subnet_text, IsAddr, IsRecommended};
ghost use Rattle.zk_text.specs.Backward.{room, written};

use crate::Short;
use crate::backward::Backward;
use crate::front::write_front;
use std::net::{Ipv4Addr, Ipv6Addr};
use zk_base::Addr;

/// The room for a group and the colon before or behind it.
const GROUP_ROOM: usize = 5;

/// The length of the longest text of `addr_text`, in bytes: eight groups of four digits.
pub const ADDR_TEXT_MAX: usize = 39;

/// The length of the longest text of `subnet_text`, in bytes.
pub const SUBNET_TEXT_MAX: usize = 43;

/// Writes an address to the front of a buffer, and answers the length in bytes: an IPv4 address as
/// four numbers with dots between them, an IPv6 address as RFC 5952 says in its section 4.
/// `Short` comes exactly where the text is longer than the buffer.
pub fn addr_text(a: Addr, out: &mut [u8]) -> Result<usize, Short>
    ensures len { IfOk result (λ len. len ≡ length (addr_text a)) }
    ensures text { OnOk result (out.new ≡ addr_text a ++ drop (length (addr_text a)) out.old) }
    ensures short { IsErr result ↔ (length out.old < length (addr_text a)) }
    ensures err { OnErr result (out.new ≡ out.old) }
    ensures bound { length (addr_text a) ≤ ADDR_TEXT_MAX }
    ensures room { ADDR_TEXT_MAX ≤ length out.old → IsOk result }
    // The text tells the address: no other of either family has the same one.
    ensures alone { (other : AddrData) → IsAddr a → IsAddr other → addr_text other ≡ addr_text a → other ≡ a }
    // Of zeros in an IPv6 address the longest run of two or more is left out, and the first of equal ones.
    ensures recommended { (n : ℕ) → a ≡ Addr.V6 n → IsRecommended (groups_of n) (addr_text a) }
{
    let mut text = Backward::new();
    text.put_addr(a);
    write_front(text.text(), out)
}

/// Writes an address and a width, with a slash between them, to the front of a buffer, and answers
/// the length in bytes. `Short` comes exactly where the text is longer than the buffer.
pub fn subnet_text(a: Addr, width: u8, out: &mut [u8]) -> Result<usize, Short>
    ensures len { IfOk result (λ len. len ≡ length (subnet_text a width)) }
    ensures text { OnOk result (out.new ≡ subnet_text a width ++ drop (length (subnet_text a width)) out.old) }
    ensures short { IsErr result ↔ (length out.old < length (subnet_text a width)) }
    ensures err { OnErr result (out.new ≡ out.old) }
    ensures bound { length (subnet_text a width) ≤ SUBNET_TEXT_MAX }
    ensures room { SUBNET_TEXT_MAX ≤ length out.old → IsOk result }
{
    let mut text = Backward::new();
    text.put_decimal(u64::from(width));
    text.put_byte(b'/');
    text.put_addr(a);
    write_front(text.text(), out)
}

impl Backward {
    fn put_addr(&mut self, a: Addr)
        requires { 8 * GROUP_ROOM ≤ room self.old }
        ensures written { written self.new ≡ addr_text a ++ written self.old }
        ensures room { room self.old ≤ room self.new + ADDR_TEXT_MAX }
    {
        match a {
            Addr::V4(n) => self.put_octets(&Ipv4Addr::from_bits(n).octets()),
            Addr::V6(n) => self.put_segments(&Ipv6Addr::from_bits(n).segments()),
        }
    }

    /// Writes the text of an IPv4 address of these bytes.
    fn put_octets(&mut self, octets: &[u8; 4])
        requires { 15 ≤ room self.old }
        ensures written { written self.new ≡ ipv4_text octets.now ++ written self.old }
        ensures room { room self.old ≤ room self.new + 15 }
    {
        let [a, b, c, d] = *octets;
        self.put_octet(d);
        self.put_byte(b'.');
        self.put_octet(c);
        self.put_byte(b'.');
        self.put_octet(b);
        self.put_byte(b'.');
        self.put_octet(a);
    }

    fn put_octet(&mut self, octet: u8)
        requires { 3 ≤ room self.old }
        ensures written { written self.new ≡ decimal octet ++ written self.old }
        ensures room { room self.old ≤ room self.new + 3 }
    {
        self.put_decimal(u64::from(octet));
    }

    /// Writes the text of an IPv6 address of these groups.
    #[tactic(auto, unfolding(std::specs::Net::Text::hex_groups_text))]
    fn put_segments(&mut self, groups: &[u16; 8])
        requires { 8 * GROUP_ROOM ≤ room self.old }
        ensures written { written self.new ≡ hex_groups_text groups.now ++ written self.old }
        ensures room { room self.old ≤ room self.new + ADDR_TEXT_MAX }
    {
        let (start, len) = longest_zero_run(groups);
        if len > 1 {
            self.put_groups(&groups[start + len..]);
            self.put(b"::");
            self.put_groups(&groups[..start]);
        } else {
            self.put_groups(groups);
        }
    }

    /// Writes groups with colons between them.
    fn put_groups(&mut self, groups: &[u16])
        requires { GROUP_ROOM * length groups.now ≤ room self.old }
        ensures written { written self.new ≡ groups_text groups.now ++ written self.old }
        ensures room { room self.old ≤ room self.new + (GROUP_ROOM * length groups.now - 1) }
    {
        if let [first, rest @ ..] = groups {
            for i in (0..rest.len()).rev() {
                self.put_group(rest[i]);
                self.put_byte(b':');
            }
            self.put_group(*first);
        }
    }

    /// Writes a group in lower-case hex without leading zeros.
    #[tactic(auto, unfolding(std::specs::Net::Text::hex))]
    fn put_group(&mut self, group: u16)
        requires { 4 ≤ room self.old }
        ensures written { written self.new ≡ hex group ++ written self.old }
        ensures room { room self.old ≤ room self.new + 4 }
    {
        let digits = [
            hex_digit(group / 0x1000),
            hex_digit(group / 0x100 % 16),
            hex_digit(group / 0x10 % 16),
            hex_digit(group % 16),
        ];
        self.put(&digits[leading_zeros(group)..]);
    }
}

/// How many of the four digits of a group are leading zeros, the last digit apart.
fn leading_zeros(group: u16) -> usize
    ensures value { result ≡ leading_zero_digits group }
    ensures within { result < 4 }
{
    match group {
        0x1000.. => 0,
        0x100.. => 1,
        0x10.. => 2,
        _ => 3,
    }
}

/// A digit of lower-case hex.
pub fn hex_digit(digit: u16) -> u8
    requires { digit < 16 }
    ensures { result ≡ digit_char digit }
{
    if digit < 10 {
        b'0' + digit as u8
    } else {
        b'a' + (digit - 10) as u8
    }
}

/// Where the longest run of zeros starts and how long it is; of equal ones it is the first.
fn longest_zero_run(groups: &[u16]) -> (usize, usize)
    ensures value { result ≡ longest_zero_run groups.now }
    ensures within { result.0 + result.1 ≤ length groups.now }
{
    let mut start = groups.len();
    let mut len = 0;
    let mut run = 0;
    for i in (0..groups.len()).rev() {
        run = if groups[i] == 0 { run + 1 } else { 0 };
        if run >= len {
            start = i;
            len = run;
        }
    }
    (start, len)
}
