ghost use Rattle.std.specs.Prelude.{◌≡◌};
ghost use Rattle.zk_tree.specs.Value as plain;
ghost use Rattle.zk_typed.specs.Operators as meant;
ghost use Rattle.zk_typed.specs.Primitives as primitive;
ghost use Rattle.zk_value.specs.Plain.{value_of};

use memchr::memmem;
use zk_base::{Addr, Proto};
use zk_typed::script::Relation;
use zk_value::Value;

/// Whether a text stands before another: the first byte that differs decides, or the end of one of them.

fn bytes_below(a: &[u8], b: &[u8]) -> bool
    ensures { result ≡ meant.bytes_below a.now b.now }
{
    a < b
}

/// Whether an address stands before another: every IPv4 address before every IPv6 address.
fn address_below(a: Addr, b: Addr) -> bool
    ensures { result ≡ meant.address_below a b }
{
    match (a, b) {
        (Addr::V4(a), Addr::V4(b)) => a < b,
        (Addr::V6(a), Addr::V6(b)) => a < b,
        (Addr::V4(_), Addr::V6(_)) => true,
        (Addr::V6(_), Addr::V4(_)) => false,
    }
}

/// Whether a port stands before another: every TCP port before every UDP port.
fn port_below(a: u16, p: Proto, b: u16, q: Proto) -> bool
    ensures { result ≡ meant.port_below a p b q }
{
    match (p, q) {
        (Proto::Tcp, Proto::Tcp) | (Proto::Udp, Proto::Udp) => a < b,
        (Proto::Tcp, Proto::Udp) => true,
        (Proto::Udp, Proto::Tcp) => false,
    }
}

/// Whether a value stands before another of its type.
fn below(a: &Value, b: &Value) -> bool
    ensures { result ≡ meant.below (value_of a.now) (value_of b.now) }
{
    match (a, b) {
        (Value::Count(a), Value::Count(b)) => a < b,
        (Value::Int(a), Value::Int(b)) => a < b,
        (Value::String(a), Value::String(b)) => bytes_below(a.as_slice(), b.as_slice()),
        (Value::Time(a), Value::Time(b)) => a.0 < b.0,
        (Value::Interval(a), Value::Interval(b)) => a.0 < b.0,
        (Value::Addr(a), Value::Addr(b)) => address_below(a.get(), b.get()),
        (Value::Port { port: a, proto: p }, Value::Port { port: b, proto: q }) => {
            port_below(*a, *p, *b, *q)
        }
        _ => false,
    }
}

/// Whether two values are of one type and equal.
fn same(a: &Value, b: &Value) -> bool
    ensures { result ≡ plain.same (value_of a.now) (value_of b.now) }
{
    a == b
}

/// Whether a relation holds between two values (Zeek manual, Operators).
pub fn holds(relation: Relation, a: &Value, b: &Value) -> bool
    ensures { result ≡ meant.holds relation (value_of a.now) (value_of b.now) }
{
    match relation {
        Relation::Equal => same(a, b),
        Relation::NotEqual => !same(a, b),
        Relation::Less => below(a, b),
        Relation::LessEqual => !below(b, a),
        Relation::Greater => below(b, a),
        Relation::GreaterEqual => !below(a, b),
    }
}

/// Whether a text stands in another, as the empty one does in each (Zeek manual, Operators, in).
pub fn is_within(little: &[u8], big: &[u8]) -> bool
    ensures { result ≡ primitive.is_within little.now big.now }
{
    memmem::find(big, little).is_some()
}

/// Whether an IPv4 address begins with the first bits of a prefix. An address begins with none of more
/// than 32.
fn has_prefix(address: u32, prefix: u32, width: u8) -> bool
    ensures { result ≡ primitive.in_subnet (plain.Addr (Addr.V4 address)) (plain.Subnet prefix width) }
{
    let other = 32_u32.saturating_sub(u32::from(width));
    u64::from(address) >> other == u64::from(prefix) >> other
}

/// Whether an address begins with the first bits of a prefix, as no IPv6 address does.
fn is_under(address: Addr, prefix: u32, width: u8) -> bool
    ensures { result ≡ primitive.in_subnet (plain.Addr address) (plain.Subnet prefix width) }
{
    match address {
        Addr::V4(address) => has_prefix(address, prefix, width),
        Addr::V6(_) => false,
    }
}

/// Whether an address is in a network (Zeek manual, Types, subnet). None stands in anything else.
pub fn in_subnet(address: &Value, network: &Value) -> bool
    ensures { result ≡ primitive.in_subnet (value_of address.now) (value_of network.now) }
{
    match (address, network) {
        (Value::Addr(address), Value::Subnet { prefix, width }) => {
            is_under(address.get(), *prefix, *width)
        }
        _ => false,
    }
}
