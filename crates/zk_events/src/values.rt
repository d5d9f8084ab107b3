ghost use Rattle.std.specs.Prelude.{◌≡◌, ◌++◌, List, ℕ, codes, decimal, IfOk, OnOk};
ghost use Rattle.zk_conn.specs.declared.facts.ConnState.{ConnState as StateData};
ghost use Rattle.zk_events.specs.Facts.{state_name, uid};
ghost use Rattle.zk_events.specs.Raising.{is_orig, object, seconds};
ghost use Rattle.zk_tree.specs.Value as plain;
ghost use Rattle.zk_value.specs.Plain.{value_of};

use std::alloc::Global;
use zk_base::{Addr, Bytes, ConnNo, Mem, Side, Span};
use zk_conn::ConnState;
use zk_value::{SharedAddr, SharedBytes, Value, push_count};

/// A string of these bytes.
pub fn text(alloc: Global, bytes: &[u8]) -> Result<Value, Mem>
    ensures { IfOk result (λ value. value_of value ≡ plain.String bytes.now) }
{
    Ok(Value::String(SharedBytes::copy_of(alloc, bytes)?))
}

/// An enum word.
pub fn word(alloc: Global, name: &[u8]) -> Result<Value, Mem>
    ensures { IfOk result (λ value. value_of value ≡ plain.Enum name.now) }
{
    Ok(Value::Enum(SharedBytes::copy_of(alloc, name)?))
}

/// An address.
pub fn address(alloc: Global, address: Addr) -> Result<Value, Mem>
    ensures { IfOk result (λ value. value_of value ≡ plain.Addr address) }
{
    Ok(Value::Addr(SharedAddr::of(alloc, address)?))
}

/// Whether the side is the originator.
pub fn is_orig(side: Side) -> Value
    ensures { value_of result ≡ is_orig side }
{
    Value::Bool(match side {
        Side::Orig => true,
        Side::Resp => false,
    })
}

/// So many seconds.
pub fn seconds(count: u32) -> Value
    ensures { value_of result ≡ seconds count }
{
    Value::Interval(Span(i64::from(count) * 1_000_000))
}

/// The name by which logs tell instances apart: `C` and its number.
pub fn uid(alloc: Global, conn: ConnNo) -> Result<Value, Mem>
    ensures { IfOk result (λ value. value_of value ≡ plain.String (uid conn)) }
{
    let mut name = Vec::new(alloc);
    name.push(b'C')?;
    push_count(&mut name, conn.0)?;
    Ok(Value::String(SharedBytes::of(Bytes::from(name))?))
}

/// The name that Zeek has for a state.
pub fn state_name(state: ConnState) -> &'static [u8]
    ensures { result.now ≡ state_name state }
{
    match state {
        ConnState::S0 => b"S0",
        ConnState::S1 => b"S1",
        ConnState::S2 => b"S2",
        ConnState::S3 => b"S3",
        ConnState::SF => b"SF",
        ConnState::REJ => b"REJ",
        ConnState::RSTO => b"RSTO",
        ConnState::RSTR => b"RSTR",
        ConnState::RSTOS0 => b"RSTOS0",
        ConnState::RSTRH => b"RSTRH",
        ConnState::SH => b"SH",
        ConnState::SHR => b"SHR",
        ConnState::OTH => b"OTH",
    }
}
