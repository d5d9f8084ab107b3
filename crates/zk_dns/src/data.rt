ghost use Rattle.std.specs.Prelude.{◌≡◌, ◌-◌, ◌≤◌, length};
ghost use Rattle.zk_dns.specs.Data.{data_at, data_of};
ghost use Rattle.zk_dns.specs.Skips.{AreSkips};
ghost use Rattle.zk_dns.specs.Ends.{are_strings, judged, name_judged, only_if, soa_judged};

use crate::bound::Bound;
use crate::name::name_end;
use crate::{DnsFault, types};

/// The length of an IPv4 address.
const IP4_LEN: usize = 4;

/// The length of an IPv6 address.
const IP6_LEN: usize = 16;

/// The length of the preference before the name of a mail exchange.
pub const PREFERENCE_LEN: usize = 2;

/// The length of the five numbers behind the names of a zone of authority.
const SOA_NUMBERS_LEN: usize = 20;

/// Judges the data of a record, which stands between two places. Only that of class 1 is judged.
pub fn judge(
    bytes: &[u8],
    skips: &[u16],
    rtype: u16,
    rclass: u16,
    at: usize,
    end: usize,
) -> Result<(), DnsFault>
    requires order { at ≤ end }
    requires whole { end ≤ length bytes.now }
    requires skips { AreSkips bytes.now skips.now }
    ensures { result ≡ judged (data_at bytes.now rtype rclass at (end - at)) }
{
    if rclass == types::INTERNET {
        judge_by_type(bytes, skips, rtype, at, end)
    } else {
        Ok(())
    }
}

/// Judges the data of a record of class 1.
fn judge_by_type(
    bytes: &[u8],
    skips: &[u16],
    rtype: u16,
    at: usize,
    end: usize,
) -> Result<(), DnsFault>
    requires order { at ≤ end }
    requires whole { end ≤ length bytes.now }
    requires skips { AreSkips bytes.now skips.now }
    ensures { result ≡ judged (data_of bytes.now rtype at (end - at)) }
{
    match rtype {
        types::A => only_if(end - at == IP4_LEN, at),
        types::AAAA => only_if(end - at == IP6_LEN, at),
        types::NS | types::CNAME | types::PTR => judge_name(bytes, skips, at, at, end),
        types::MX => judge_name(bytes, skips, at, at + PREFERENCE_LEN, end),
        types::TXT => only_if(are_strings(&bytes[at..end]), at),
        types::SOA => judge_soa(bytes, skips, at, end),
        _ => Ok(()),
    }
}

/// Judges data that begins at `at` and is a name from a place on.
fn judge_name(
    bytes: &[u8],
    skips: &[u16],
    at: usize,
    place: usize,
    end: usize,
) -> Result<(), DnsFault>
    requires whole { end ≤ length bytes.now }
    requires skips { AreSkips bytes.now skips.now }
    ensures { result ≡ name_judged bytes.now at place end }
{
    only_if(
        name_end(bytes, skips, Bound::data(at, end), place)? == end,
        at,
    )
}

/// Judges data that is two names and five numbers.
fn judge_soa(bytes: &[u8], skips: &[u16], at: usize, end: usize) -> Result<(), DnsFault>
    requires whole { end ≤ length bytes.now }
    requires skips { AreSkips bytes.now skips.now }
    ensures { result ≡ soa_judged bytes.now at end }
{
    let data = Bound::data(at, end);
    let between = name_end(bytes, skips, data, at)?;
    let numbers = name_end(bytes, skips, data, between)?;
    only_if(end - numbers == SOA_NUMBERS_LEN, at)
}

/// Nothing, or the fault of data that begins at a place.
fn only_if(is_right: bool, at: usize) -> Result<(), DnsFault>
    ensures { result ≡ only_if is_right at }
{
    if is_right {
        Ok(())
    } else {
        Err(DnsFault::Data { place: at })
    }
}

/// Whether data is one or more strings, each behind its length byte.
fn are_strings(bytes: &[u8]) -> bool
    ensures { result ≡ are_strings bytes.now }
{
    let mut rest = bytes;
    while let Some((len, behind)) = rest.split_first() {
        let len = usize::from(*len);
        if behind.len() < len {
            return false;
        }
        rest = &behind[len..];
    }
    !bytes.is_empty()
}
