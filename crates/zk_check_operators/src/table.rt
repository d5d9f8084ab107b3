ghost use Rattle.std.specs.Prelude.{◌≡◌, ◌&&◌};
ghost use Rattle.zk_typed.specs.Operations as spec;
ghost use Rattle.zk_typed.specs.View.{type_of};
ghost use Rattle.zk_check_operators.specs.Rows.{given_by, taken_by};

use crate::same::same_simple;
use zk_typed::script::Binary::{self, Minus, Modulo, Over, Plus, Times};
use zk_typed::script::SimpleType::{self, Count, Int, Interval, String, Time};
use zk_typed::script::ValueType;

/// An operator, the types of its operands, and that of its value.
type Row = (Binary, SimpleType, SimpleType, SimpleType);

/// All that operators compute (Zeek manual, Operators, Arithmetic operators).
const ARITHMETIC: [Row; 20] = [
    (Plus, Count, Count, Count),
    (Plus, Int, Int, Int),
    (Plus, String, String, String),
    (Plus, Interval, Interval, Interval),
    (Plus, Time, Interval, Time),
    (Minus, Count, Count, Count),
    (Minus, Int, Int, Int),
    (Minus, Interval, Interval, Interval),
    (Minus, Time, Interval, Time),
    (Minus, Time, Time, Interval),
    (Times, Count, Count, Count),
    (Times, Int, Int, Int),
    (Times, Interval, Count, Interval),
    (Times, Interval, Int, Interval),
    (Over, Count, Count, Count),
    (Over, Int, Int, Int),
    (Over, Interval, Count, Interval),
    (Over, Interval, Int, Interval),
    (Modulo, Count, Count, Count),
    (Modulo, Int, Int, Int),
];

/// A number for each operator.
fn binary_number(one: Binary) -> u8
    ensures { result ≡ spec.binary_number one }
{
    match one {
        Plus => 0,
        Minus => 1,
        Times => 2,
        Over => 3,
        Modulo => 4,
    }
}

fn same_binary(a: Binary, b: Binary) -> bool
    ensures { result ≡ spec.same_binary a b }
{
    binary_number(a) == binary_number(b)
}

/// Whether a row is of an operator and a type on the left.
fn begins(row: &Row, operator: Binary, left: SimpleType) -> bool
    ensures { result ≡ (spec.same_binary row.now.0 operator && spec.same_simple row.now.1 left) }
{
    same_binary(row.0, operator) && same_simple(row.1, left)
}

/// Whether a row is of an operator and the types of its operands.
fn is_row(row: &Row, operator: Binary, left: SimpleType, right: SimpleType) -> bool
    ensures { result ≡ (spec.same_binary row.now.0 operator && spec.same_simple row.now.1 left && spec.same_simple row.now.2 right) }
{
    same_binary(row.0, operator) && same_simple(row.1, left) && same_simple(row.2, right)
}

/// The type that the first row of an operator and the types of its operands gives.
fn given_in(
    rows: &[Row],
    operator: Binary,
    left: SimpleType,
    right: SimpleType,
) -> Option<SimpleType>
    ensures { result ≡ given_by operator left right rows.now }
{
    for row in rows {
        if is_row(row, operator, left, right) {
            return Some(row.3);
        }
    }
    None
}

/// The type that an operator gives for operands of two types.
pub fn arithmetic_of(operator: Binary, left: SimpleType, right: SimpleType) -> Option<SimpleType>
    ensures { result ≡ spec.arithmetic_of operator left right }
{
    given_in(&ARITHMETIC, operator, left, right)
}

/// Whether an operator has a row with a type on the left.
fn taken_in(rows: &[Row], operator: Binary, left: SimpleType) -> bool
    ensures { result ≡ taken_by operator left rows.now }
{
    for row in rows {
        if begins(row, operator, left) {
            return true;
        }
    }
    false
}

/// Whether a left operand of an operator has a type.
pub fn takes_left(operator: Binary, left: &ValueType) -> bool
    ensures { result ≡ spec.takes_left operator (type_of left.now) }
{
    match left {
        ValueType::Simple(left) => taken_in(&ARITHMETIC, operator, *left),
        ValueType::Record(_)
        | ValueType::Table { .. }
        | ValueType::Set { .. }
        | ValueType::Vector { .. } => false,
    }
}
