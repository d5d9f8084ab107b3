ghost use Rattle.std.specs.Prelude.{◌≡◌, ◌≢◌, ◌<◌, ◌^◌, ◌++◌, ℕ, ℤ, pos, ◌*ℤ◌, int_div, SomeIff, FitsSigned};
ghost use Rattle.std.specs.Int.{w64};
ghost use Rattle.zk_tree.specs.Value as plain;
ghost use Rattle.zk_typed.specs.Operators as meant;
ghost use Rattle.zk_value.specs.Plain.{value_of};
ghost use Rattle.zk_builtin.specs.Computes.{Computes};

use crate::fault::{OperatorFault, STRING_LENGTH_MAX};
use std::alloc::Global;
use zk_base::{Moment, Span};
use zk_typed::FaultKind;
use zk_typed::script::{Binary, Direction, Unary};
use zk_value::{SharedBytes, Value};

const UNFIT: OperatorFault = OperatorFault::Fault(FaultKind::Unset);

const OVERFLOW: OperatorFault = OperatorFault::Fault(FaultKind::Overflow);

const ZERO_DIVISOR: OperatorFault = OperatorFault::Fault(FaultKind::ZeroDivisor);

/// A count, where it is within the range of its type.
fn count(n: Option<u64>) -> Result<Value, OperatorFault>
    ensures { (exact : ℕ) → SomeIff n (exact < 2 ^ 64) exact → Computes result (λ place. meant.count place exact) }
{
    match n {
        Some(n) => Ok(Value::Count(n)),
        None => Err(OVERFLOW),
    }
}

/// An int, where it is within the range of its type.
fn int(n: Option<i64>) -> Result<Value, OperatorFault>
    ensures { (exact : ℤ) → SomeIff n (FitsSigned w64 exact) exact → Computes result (λ place. meant.int place exact) }
{
    match n {
        Some(n) => Ok(Value::Int(n)),
        None => Err(OVERFLOW),
    }
}

/// An interval, where it is within the range of its type.
fn interval(n: Option<i64>) -> Result<Value, OperatorFault>
    ensures { (exact : ℤ) → SomeIff n (FitsSigned w64 exact) exact → Computes result (λ place. meant.interval place exact) }
{
    match n {
        Some(n) => Ok(Value::Interval(Span(n))),
        None => Err(OVERFLOW),
    }
}

/// A time, where it is within the range of its type.
fn time(n: Option<i64>) -> Result<Value, OperatorFault>
    ensures { (exact : ℤ) → SomeIff n (FitsSigned w64 exact) exact → Computes result (λ place. meant.time place exact) }
{
    match n {
        Some(n) => Ok(Value::Time(Moment(n))),
        None => Err(OVERFLOW),
    }
}

/// Two strings, one behind the other.
fn joined(alloc: Global, a: &[u8], b: &[u8]) -> Result<Value, OperatorFault>
    ensures { Computes result (λ place. meant.string place (a.now ++ b.now)) }
{
    if a.len() > STRING_LENGTH_MAX || b.len() > STRING_LENGTH_MAX - a.len() {
        return Err(OperatorFault::Fault(FaultKind::TooLong));
    }
    Ok(Value::String(SharedBytes::joined(alloc, a, b)?))
}

/// What an operator before its operand gives (Zeek manual, Operators).
pub fn unary(operator: Unary, value: &Value) -> Result<Value, OperatorFault>
    ensures { Computes result (λ place. meant.unary place operator (value_of value.now)) }
{
    match (operator, value) {
        (Unary::Not, Value::Bool(truth)) => Ok(Value::Bool(!*truth)),
        (Unary::Negate, Value::Count(n)) => int(0_i64.checked_sub_unsigned(*n)),
        (Unary::Negate, Value::Int(n)) => int(n.checked_neg()),
        (Unary::Negate, Value::Interval(span)) => interval(span.0.checked_neg()),
        (Unary::ToInt, Value::Count(n)) => int(0_i64.checked_add_unsigned(*n)),
        _ => Err(UNFIT),
    }
}

/// `a + b`
fn plus(alloc: Global, a: &Value, b: &Value) -> Result<Value, OperatorFault>
    ensures { Computes result (λ place. meant.plus place (value_of a.now) (value_of b.now)) }
{
    match (a, b) {
        (Value::Count(a), Value::Count(b)) => count(a.checked_add(*b)),
        (Value::Int(a), Value::Int(b)) => int(a.checked_add(*b)),
        (Value::String(a), Value::String(b)) => joined(alloc, a.as_slice(), b.as_slice()),
        (Value::Interval(a), Value::Interval(b)) => interval(a.0.checked_add(b.0)),
        (Value::Time(a), Value::Interval(b)) => time(a.0.checked_add(b.0)),
        _ => Err(UNFIT),
    }
}

/// `a - b`
fn minus(a: &Value, b: &Value) -> Result<Value, OperatorFault>
    ensures { Computes result (λ place. meant.minus place (value_of a.now) (value_of b.now)) }
{
    match (a, b) {
        (Value::Count(a), Value::Count(b)) => difference(*a, *b),
        (Value::Int(a), Value::Int(b)) => int(a.checked_sub(*b)),
        (Value::Interval(a), Value::Interval(b)) => interval(a.0.checked_sub(b.0)),
        (Value::Time(a), Value::Interval(b)) => time(a.0.checked_sub(b.0)),
        (Value::Time(a), Value::Time(b)) => interval(a.0.checked_sub(b.0)),
        _ => Err(UNFIT),
    }
}

/// The difference of two counts, which is a count.
fn difference(a: u64, b: u64) -> Result<Value, OperatorFault>
    ensures { Computes result (λ place. meant.minus place (plain.Count a) (plain.Count b)) }
{
    match a.checked_sub(b) {
        Some(n) => Ok(Value::Count(n)),
        None => Err(OVERFLOW),
    }
}

/// `a * b`
fn times(a: &Value, b: &Value) -> Result<Value, OperatorFault>
    ensures { Computes result (λ place. meant.times place (value_of a.now) (value_of b.now)) }
{
    match (a, b) {
        (Value::Count(a), Value::Count(b)) => count(a.checked_mul(*b)),
        (Value::Int(a), Value::Int(b)) => int(a.checked_mul(*b)),
        (Value::Interval(a), Value::Count(b)) => interval(product(a.0, *b)),
        (Value::Interval(a), Value::Int(b)) => interval(a.0.checked_mul(*b)),
        _ => Err(UNFIT),
    }
}

/// The product of a number that may be negative and one that isn't, where it is in range.
fn product(a: i64, b: u64) -> Option<i64>
    ensures { SomeIff result (FitsSigned w64 (a *ℤ pos b)) (a *ℤ pos b) }
{
    i64::try_from(i128::from(a) * i128::from(b)).ok()
}

/// The quotient by a number that isn't negative, cut toward zero.
fn quotient(a: i64, b: u64) -> i64
    requires { 0 < b }
    ensures { result ≡ int_div a (pos b) }
{
    (i128::from(a) / i128::from(b)) as i64
}

/// The quotient of two ints, cut toward zero, where it is in range.
fn int_quotient(a: i64, b: i64) -> Option<i64>
    requires { b ≢ pos 0 }
    ensures { SomeIff result (FitsSigned w64 (int_div a b)) (int_div a b) }
{
    a.checked_div(b)
}

/// `a / b`
fn over(a: &Value, b: &Value) -> Result<Value, OperatorFault>
    ensures { Computes result (λ place. meant.over place (value_of a.now) (value_of b.now)) }
{
    match (a, b) {
        (Value::Count(_) | Value::Interval(_), Value::Count(0)) => Err(ZERO_DIVISOR),
        (Value::Int(_) | Value::Interval(_), Value::Int(0)) => Err(ZERO_DIVISOR),
        (Value::Count(a), Value::Count(b)) => Ok(Value::Count(a / b)),
        (Value::Int(a), Value::Int(b)) => int(int_quotient(*a, *b)),
        (Value::Interval(a), Value::Count(b)) => Ok(Value::Interval(Span(quotient(a.0, *b)))),
        (Value::Interval(a), Value::Int(b)) => interval(int_quotient(a.0, *b)),
        _ => Err(UNFIT),
    }
}

/// `a % b`
fn modulo(a: &Value, b: &Value) -> Result<Value, OperatorFault>
    ensures { Computes result (λ place. meant.modulo place (value_of a.now) (value_of b.now)) }
{
    match (a, b) {
        (Value::Count(_), Value::Count(0)) | (Value::Int(_), Value::Int(0)) => Err(ZERO_DIVISOR),
        (Value::Count(a), Value::Count(b)) => Ok(Value::Count(a % b)),
        (Value::Int(a), Value::Int(b)) => Ok(Value::Int(a.wrapping_rem(*b))),
        _ => Err(UNFIT),
    }
}

/// What an operator that computes gives (Zeek manual, Operators).
pub fn binary(alloc: Global, operator: Binary, a: &Value, b: &Value) -> Result<Value, OperatorFault>
    ensures { Computes result (λ place. meant.binary place operator (value_of a.now) (value_of b.now)) }
{
    match operator {
        Binary::Plus => plus(alloc, a, b),
        Binary::Minus => minus(a, b),
        Binary::Times => times(a, b),
        Binary::Over => over(a, b),
        Binary::Modulo => modulo(a, b),
    }
}

/// A count or an int that is one more or one less (Zeek manual, Operators, ++ and --).
pub fn stepped(by: Direction, value: &Value) -> Result<Value, OperatorFault>
    ensures { Computes result (λ place. meant.stepped place by (value_of value.now)) }
{
    match (by, value) {
        (Direction::Up, Value::Count(n)) => count(n.checked_add(1)),
        (Direction::Up, Value::Int(n)) => int(n.checked_add(1)),
        (Direction::Down, Value::Count(n)) => difference(*n, 1),
        (Direction::Down, Value::Int(n)) => int(n.checked_sub(1)),
        _ => Err(UNFIT),
    }
}
