ghost use Rattle.std.specs.Prelude.{◌≡◌, ◌∷◌, [], IfOk};
ghost use Rattle.zk_typed.specs.declared.script.primitive.Primitive.TheVariants as primitive;
ghost use Rattle.zk_typed.specs.declared.script.primitive.Unary.TheVariants as unary;
ghost use Rattle.zk_typed.specs.Expressions as rules;
ghost use Rattle.zk_typed.specs.Predefined as type;
ghost use Rattle.zk_typed.specs.Tells.{Tells};
ghost use Rattle.zk_typed.specs.Typing as spec;
ghost use Rattle.zk_typed.specs.View.{type_of, expr_of};
ghost use Rattle.zk_typed.specs.Forms as form;
ghost use Rattle.zk_check_operators.specs.Rows.{negative_type, wrong_operand};
ghost use Rattle.zk_check_operators.specs.Views.{typed_of};

use crate::operands::{Typed, applied, apply, one_operand, value_operand, value_operands};
use crate::relations::relates;
use crate::same::same_type;
use crate::table::{arithmetic_of, takes_left};
use sqlite_items::Boxed;
use std::alloc::{AllocError, Global};
use zk_tree::{Level, Place};
use zk_typed::script::{Binary, Expr, Primitive, Relation, SimpleType, Unary, ValueType};
use zk_typed::{Refusal, Rule, one_broken};

/// The type that an operator gives for operands of two types.
fn arithmetic_type(operator: Binary, a: &ValueType, b: &ValueType) -> Option<SimpleType>
    ensures { result ≡ spec.arithmetic_type operator (type_of a.now) (type_of b.now) }
{
    match a {
        ValueType::Simple(left) => match b {
            ValueType::Simple(right) => arithmetic_of(operator, *left, *right),
            ValueType::Record(_)
            | ValueType::Table { .. }
            | ValueType::Set { .. }
            | ValueType::Vector { .. } => None,
        },
        ValueType::Record(_)
        | ValueType::Table { .. }
        | ValueType::Set { .. }
        | ValueType::Vector { .. } => None,
    }
}

/// `a + b` and the like, of operands at two places.
pub fn arithmetic(
    alloc: Global,
    operator: Binary,
    first: Place,
    second: Place,
    a: Typed,
    b: Typed,
) -> Result<Typed, Refusal>
    ensures { Tells typed_of result (spec.arithmetic_typed operator first second (typed_of a, typed_of b)) }
{
    match arithmetic_type(operator, &a.value_type, &b.value_type) {
        Some(gives) => {
            let operands = value_operands(alloc, a, b)?;
            Ok(applied(
                ValueType::Simple(gives),
                Primitive::Binary(operator),
                operands,
            ))
        }
        None => {
            let place = if takes_left(operator, &a.value_type) {
                second
            } else {
                first
            };
            drop(a);
            drop(b);
            Err(Refusal::Broken(one_broken(alloc, Rule::WrongType, place)?))
        }
    }
}

/// The place of the operand that has a wrong type in `a == b` and the like, of operands at two places.
fn unrelated(
    relation: Relation,
    first: Place,
    second: Place,
    a: &ValueType,
    b: &ValueType,
) -> Option<Place>
    ensures { result ≡ wrong_operand relation first second (type_of a.now) (type_of b.now) }
{
    if !relates(relation, a) {
        Some(first)
    } else if !same_type(a, b) {
        Some(second)
    } else {
        None
    }
}

/// A comparison of operands of right types.
fn compared(alloc: Global, relation: Relation, a: Typed, b: Typed) -> Result<Typed, AllocError>
    ensures { IfOk result (λ made. typed_of made ≡ spec.typed type.bool (spec.apply (primitive.Compare relation) (typed_of a ∷ typed_of b ∷ []))) }
{
    let operands = value_operands(alloc, a, b)?;
    Ok(applied(
        ValueType::Simple(SimpleType::Bool),
        Primitive::Compare(relation),
        operands,
    ))
}

/// `a == b` and the like, of operands at two places.
pub fn related(
    alloc: Global,
    relation: Relation,
    first: Place,
    second: Place,
    a: Typed,
    b: Typed,
) -> Result<Typed, Refusal>
    ensures { Tells typed_of result (spec.related relation first second (typed_of a, typed_of b)) }
{
    match unrelated(relation, first, second, &a.value_type, &b.value_type) {
        Some(place) => {
            drop(a);
            drop(b);
            Err(Refusal::Broken(one_broken(alloc, Rule::WrongType, place)?))
        }
        None => {
            let made = compared(alloc, relation, a, b)?;
            Ok(made)
        }
    }
}

/// An operand in a box of its own.
fn boxed(alloc: Global, one: Typed) -> Result<Boxed<Expr>, AllocError>
    ensures { IfOk result (λ made. made ≡ one.expr) }
{
    Boxed::new(alloc, one.into_expr())
}

/// Two operands, each in a box of its own.
fn boxed_pair(
    alloc: Global,
    one: Typed,
    other: Typed,
) -> Result<(Boxed<Expr>, Boxed<Expr>), AllocError>
    ensures { IfOk result (λ made. (made.0 ≡ one.expr) × (made.1 ≡ other.expr)) }
{
    match boxed(alloc, one) {
        Ok(one) => Ok((one, boxed(alloc, other)?)),
        Err(error) => {
            drop(other);
            Err(error)
        }
    }
}

/// `a || b`, `a && b`
pub fn truths(alloc: Global, level: Level, a: Typed, b: Typed) -> Result<Typed, AllocError>
    ensures { IfOk result (λ made. typed_of made ≡ spec.truths level (typed_of a) (typed_of b)) }
{
    let (a, b) = boxed_pair(alloc, a, b)?;
    let value_type = ValueType::Simple(SimpleType::Bool);
    match level {
        Level::Or => Ok(Typed {
            value_type,
            expr: Expr::Or(a, b),
        }),
        Level::And | Level::Sum | Level::Term => Ok(Typed {
            value_type,
            expr: Expr::And(a, b),
        }),
    }
}

/// A value's type, and the value in a box of its own.
fn boxed_with_type(alloc: Global, one: Typed) -> Result<(ValueType, Boxed<Expr>), AllocError>
    ensures { IfOk result (λ made. (made.0 ≡ one.value_type) × (made.1 ≡ one.expr)) }
{
    let Typed { value_type, expr } = one;
    match Boxed::new(alloc, expr) {
        Ok(expr) => Ok((value_type, expr)),
        Err(error) => {
            drop(value_type);
            Err(error)
        }
    }
}

/// `test ? a : b`, of the type of its first arm.
pub fn choice(alloc: Global, test: Typed, a: Typed, b: Typed) -> Result<Typed, AllocError>
    ensures { IfOk result (λ made. typed_of made ≡ spec.typed (type_of a.value_type) (form.Choice (expr_of test.expr) (expr_of a.expr) (expr_of b.expr))) }
{
    match boxed_pair(alloc, test, b) {
        Ok((test, no)) => {
            let (value_type, yes) = boxed_with_type(alloc, a)?;
            Ok(Typed {
                value_type,
                expr: Expr::Choice { test, yes, no },
            })
        }
        Err(error) => {
            drop(a);
            Err(error)
        }
    }
}

/// `!a` of a truth value.
pub fn inverted(alloc: Global, one: Typed) -> Result<Typed, AllocError>
    ensures { IfOk result (λ made. typed_of made ≡ spec.typed type.bool (spec.apply (primitive.Unary unary.Not) (typed_of one ∷ []))) }
{
    let operands = value_operand(alloc, one)?;
    Ok(applied(
        ValueType::Simple(SimpleType::Bool),
        Primitive::Unary(Unary::Not),
        operands,
    ))
}

/// What `!in` makes of what `in` does.
pub fn turned(alloc: Global, is_turned: bool, one: Expr) -> Result<Expr, AllocError>
    ensures { IfOk result (λ made. expr_of made ≡ spec.negated is_turned (expr_of one)) }
{
    if !is_turned {
        return Ok(one);
    }
    let operands = one_operand(alloc, one)?;
    Ok(apply(Primitive::Unary(Unary::Not), operands))
}

/// The type of the negative of a value.
fn negative_of(one: SimpleType) -> Option<SimpleType>
    ensures { result ≡ negative_type one }
{
    match one {
        SimpleType::Count | SimpleType::Int => Some(SimpleType::Int),
        SimpleType::Interval => Some(SimpleType::Interval),
        SimpleType::Bool
        | SimpleType::String
        | SimpleType::Time
        | SimpleType::Addr
        | SimpleType::Port
        | SimpleType::Subnet
        | SimpleType::Enum(_) => None,
    }
}

/// `-a` of an operand at a place.
pub fn negative(alloc: Global, place: Place, one: Typed) -> Result<Typed, Refusal>
    ensures { Tells typed_of result (rules.negated place (typed_of one)) }
{
    let gives = match &one.value_type {
        ValueType::Simple(simple) => negative_of(*simple),
        ValueType::Record(_)
        | ValueType::Table { .. }
        | ValueType::Set { .. }
        | ValueType::Vector { .. } => None,
    };
    match gives {
        Some(gives) => {
            let operands = value_operand(alloc, one)?;
            Ok(applied(
                ValueType::Simple(gives),
                Primitive::Unary(Unary::Negate),
                operands,
            ))
        }
        None => {
            drop(one);
            Err(Refusal::Broken(one_broken(alloc, Rule::WrongType, place)?))
        }
    }
}
