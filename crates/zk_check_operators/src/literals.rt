ghost use Rattle.std.specs.Prelude.{◌≡◌, IfOk};
ghost use Rattle.zk_tree.specs.Value as plain;
ghost use Rattle.zk_typed.specs.Types.{Simple};
ghost use Rattle.zk_typed.specs.Typing as spec;
ghost use Rattle.zk_typed.specs.View.{literal_value};
ghost use Rattle.zk_check_operators.specs.Views.{typed_of};

use crate::operands::Typed;
use std::alloc::Global;
use zk_base::{Addr, Bytes, Mem, Span};
use zk_tree::{Literal as Token, TimeUnit};
use zk_typed::script::{Expr, Literal, SimpleType, ValueType};

/// A literal of a type without parts.
pub fn constant(simple: SimpleType, literal: Literal) -> Typed
    ensures { typed_of result ≡ spec.constant (Simple simple) (literal_value literal) }
{
    Typed {
        value_type: ValueType::Simple(simple),
        expr: Expr::Literal(literal),
    }
}

/// A string, a port, an address or a subnet.
pub fn literal_typed(alloc: Global, token: &Token) -> Result<Typed, Mem>
    ensures { IfOk result (λ made. typed_of made ≡ spec.literal_typed token.now) }
{
    match token {
        Token::String(bytes) => {
            let copy = Bytes::copy_of(alloc, bytes.as_slice())?;
            Ok(constant(SimpleType::String, Literal::String(copy)))
        }
        Token::Port { port, proto } => Ok(constant(
            SimpleType::Port,
            Literal::Port {
                port: *port,
                proto: *proto,
            },
        )),
        Token::Address(address) => Ok(constant(
            SimpleType::Addr,
            Literal::Addr(Addr::V4(*address)),
        )),
        Token::Subnet { prefix, width } => Ok(constant(
            SimpleType::Subnet,
            Literal::Subnet {
                prefix: *prefix,
                width: *width,
            },
        )),
    }
}

fn microseconds(unit: TimeUnit) -> u64
    ensures { result ≡ spec.microseconds unit }
{
    match unit {
        TimeUnit::Microsecond => 1,
        TimeUnit::Millisecond => 1_000,
        TimeUnit::Second => 1_000_000,
        TimeUnit::Minute => 60_000_000,
        TimeUnit::Hour => 3_600_000_000,
        TimeUnit::Day => 86_400_000_000,
    }
}

/// A number of units of time. One past the longest interval is the longest.
pub fn interval_of(number: u64, unit: TimeUnit) -> Span
    ensures { plain.Interval result ≡ spec.interval_of number unit }
{
    let all = number.saturating_mul(microseconds(unit));
    if all > i64::MAX as u64 {
        Span(i64::MAX)
    } else {
        Span(all as i64)
    }
}
