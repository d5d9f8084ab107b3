ghost use Rattle.std.specs.Prelude.{◌≡◌, ◌<◌, ◌/◌, ◌%◌, ◌^◌, MatchResult};
ghost use Rattle.zk_typed.specs.BuiltIns.{address_counts};

use crate::fault::BuiltinFault;
use std::alloc::Global;
use zk_base::Addr;

/// The 32 bits at a place of an address.
fn word(address: u128, low: u32) -> u64
    requires { low < 128 }
    ensures { result ≡ address / 2 ^ low % 2 ^ 32 }
{
    (address >> low & 0xffff_ffff) as u64
}

/// The numbers of 32 bits that make an address, in network order: one or four (Zeek manual, Built-in
/// functions, addr_to_counts). `TooLong` never comes.
pub fn addr_to_counts(alloc: Global, a: Addr) -> Result<Vec<u64>, BuiltinFault>
    ensures { MatchResult result (λ counts. counts.items ≡ address_counts a) (λ fault. fault ≡ BuiltinFault.NoMemory) }
{
    match a {
        Addr::V4(address) => Ok(vec![in alloc; u64::from(address)]?),
        Addr::V6(address) => Ok(vec![in alloc;
            word(address, 96),
            word(address, 64),
            word(address, 32),
            word(address, 0),
        ]?),
    }
}
