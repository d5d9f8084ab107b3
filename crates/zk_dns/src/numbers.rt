ghost use Rattle.std.specs.Prelude.{◌≡◌, ◌+◌, ◌≤◌, length};
ghost use Rattle.zk_dns.specs.Data.{number_at};

use byteorder::{BigEndian, ByteOrder};

/// The number in the two bytes from a place on.
pub fn u16_at(bytes: &[u8], place: usize) -> u16
    requires { place + 2 ≤ length bytes.now }
    ensures { result ≡ number_at 2 bytes.now place }
{
    BigEndian::read_u16(&bytes[place..])
}

/// The number in the four bytes from a place on.
pub fn u32_at(bytes: &[u8], place: usize) -> u32
    requires { place + 4 ≤ length bytes.now }
    ensures { result ≡ number_at 4 bytes.now place }
{
    BigEndian::read_u32(&bytes[place..])
}
