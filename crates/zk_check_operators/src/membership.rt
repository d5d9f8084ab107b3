ghost use Rattle.std.specs.Prelude.{◌≡◌, IfOk};
ghost use Rattle.zk_typed.specs.Expressions as rules;
ghost use Rattle.zk_typed.specs.Making as making;
ghost use Rattle.zk_typed.specs.Tells.{Tells};
ghost use Rattle.zk_check_operators.specs.Rows.{type_has_size, without_parts, vector_type};
ghost use Rattle.zk_typed.specs.Typing as spec;
ghost use Rattle.zk_typed.specs.View.{type_of, all_of};
ghost use Rattle.zk_check_operators.specs.Views.{typed_of, typed_all};

use crate::operands::{Typed, applied, value_operand};
use crate::same::same_type;
use sqlite_items::{Boxed, Items};
use std::alloc::{AllocError, Global};
use zk_tree::Place;
use zk_typed::script::{Expr, Primitive, SimpleType, ValueType};
use zk_typed::{Refusal, Rule, copied_type, one_broken};

/// The typed forms of operands.
#[tactic(auto, using(crate::proofs::OperandLists::exprs_are))]
pub fn operands_of(alloc: Global, all: Vec<Typed>) -> Result<Items<Expr>, AllocError>
    ensures { IfOk result (λ operands. all_of operands ≡ spec.exprs (typed_all all.items)) }
{
    let mut operands = Items::new(alloc);
    for one in all {
        operands.push(one.into_expr())?;
    }
    Ok(operands)
}

/// Whether a type has no parts.
fn has_no_parts(one: &ValueType) -> bool
    ensures { result ≡ without_parts (type_of one.now) }
{
    match one {
        ValueType::Simple(_) => true,
        ValueType::Record(_)
        | ValueType::Table { .. }
        | ValueType::Set { .. }
        | ValueType::Vector { .. } => false,
    }
}

/// Whether values can stand before `in` somewhere: values of types without parts.
pub fn is_left_of_in(keys: &[Typed]) -> bool
    ensures { result ≡ spec.is_left_of_in (typed_all keys.now) }
{
    for key in keys {
        if !has_no_parts(&key.value_type) {
            return false;
        }
    }
    true
}

/// Whether a type has a size: that of a string, an int or a container.
fn has_size(one: &ValueType) -> bool
    ensures { result ≡ type_has_size (type_of one.now) }
{
    match one {
        ValueType::Simple(simple) => match simple {
            SimpleType::String | SimpleType::Int => true,
            SimpleType::Bool
            | SimpleType::Count
            | SimpleType::Time
            | SimpleType::Interval
            | SimpleType::Addr
            | SimpleType::Port
            | SimpleType::Subnet
            | SimpleType::Enum(_) => false,
        },
        ValueType::Record(_) => false,
        ValueType::Table { .. } | ValueType::Set { .. } | ValueType::Vector { .. } => true,
    }
}

/// `|a|` of an operand at a place.
#[tactic(auto, using(crate::proofs::Sizes::size_is))]
pub fn size_typed(alloc: Global, place: Place, one: Typed) -> Result<Typed, Refusal>
    ensures { Tells typed_of result (rules.size_typed place (typed_of one)) }
{
    if !has_size(&one.value_type) {
        drop(one);
        return Err(Refusal::Broken(one_broken(alloc, Rule::WrongType, place)?));
    }
    let operands = value_operand(alloc, one)?;
    Ok(applied(
        ValueType::Simple(SimpleType::Count),
        Primitive::Size,
        operands,
    ))
}

/// Whether values have a type.
fn types_same(one: &ValueType, others: &[Typed]) -> bool
    ensures { result ≡ making.types_same (type_of one.now) (typed_all others.now) }
{
    for other in others {
        if !same_type(&other.value_type, one) {
            return false;
        }
    }
    true
}

/// The type of a vector of the one type that its items have.
fn vector_of(alloc: Global, place: Place, all: &[Typed]) -> Result<ValueType, Refusal>
    ensures { Tells type_of result (vector_type place (typed_all all.now)) }
{
    let Some((first, others)) = all.split_first() else {
        return Err(Refusal::Broken(one_broken(alloc, Rule::WrongType, place)?));
    };
    if !types_same(&first.value_type, others) {
        return Err(Refusal::Broken(one_broken(alloc, Rule::WrongType, place)?));
    }
    let item = copied_type(alloc, &first.value_type)?;
    let item = Boxed::new(alloc, item)?;
    Ok(ValueType::Vector { item })
}

/// A vector of the one type that its items have.
#[tactic(auto, using(crate::proofs::Vectors::vector_is))]
pub fn vector_alone(alloc: Global, place: Place, all: Vec<Typed>) -> Result<Typed, Refusal>
    ensures { Tells typed_of result (making.vector_alone place (typed_all all.items)) }
{
    match vector_of(alloc, place, &all) {
        Ok(value_type) => match operands_of(alloc, all) {
            Ok(operands) => Ok(applied(value_type, Primitive::NewVector, operands)),
            Err(_) => {
                drop(value_type);
                Err(Refusal::NoMemory)
            }
        },
        Err(refusal) => {
            drop(all);
            Err(refusal)
        }
    }
}
