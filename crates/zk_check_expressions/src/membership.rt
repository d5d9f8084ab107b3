ghost use Rattle.std.specs.Prelude.{◌≡◌, ◌∷◌, ◌++◌, [], IfOk};
ghost use Rattle.std.specs.Option.{option_map};
ghost use Rattle.zk_check_operators.specs.Views.{typed_of, typed_all, all_typed};
ghost use Rattle.zk_typed.specs.Tells.{Tells};
ghost use Rattle.zk_typed.specs.Types.{Simple};
ghost use Rattle.zk_typed.specs.Typing as spec;
ghost use Rattle.zk_typed.specs.View.{expr_of};
ghost use Rattle.zk_check_expressions.specs.Parts.{is_one_of, one_form};

use std::alloc::{AllocError, Global};
use zk_check_operators::{Typed, apply, fits, is_left_of_in, operands_of, same_type, turned};
use zk_tree::Place;
use zk_typed::script::{Expr, Primitive, SimpleType, ValueType};
use zk_typed::{Refusal, Rule, one_broken};

/// Values as the keys of a table or set.
fn as_keys(
    alloc: Global,
    types: &[SimpleType],
    keys: Vec<Typed>,
) -> Result<Option<Vec<Typed>>, AllocError>
    ensures { IfOk result (λ fitting. option_map all_typed fitting ≡ spec.as_keys types.now (typed_all keys.items)) }
{
    let mut fitting = Vec::new(alloc);
    let mut others = types;
    for one in keys {
        match others.split_first() {
            None => {
                drop(one);
                return Ok(None);
            }
            Some((key, rest)) => {
                let wanted = ValueType::Simple(*key);
                match fits(alloc, &wanted, one)? {
                    None => return Ok(None),
                    Some(fit) => fitting.push(fit)?,
                }
                others = rest;
            }
        }
    }
    match others.split_first() {
        None => Ok(Some(fitting)),
        Some(_) => Ok(None),
    }
}

/// A primitive of operands and one more.
#[tactic(auto, using(crate::proofs::Eaches::typed_last))]
fn with_last(
    alloc: Global,
    primitive: Primitive,
    mut operands: Vec<Typed>,
    last: Typed,
) -> Result<Expr, AllocError>
    ensures { IfOk result (λ made. expr_of made ≡ spec.apply primitive (typed_all operands.items ++ typed_of last ∷ [])) }
{
    operands.push(last)?;
    let operands = operands_of(alloc, operands)?;
    Ok(apply(primitive, operands))
}

/// Whether values are one of a type.
fn is_one(wanted: SimpleType, keys: &[Typed]) -> bool
    ensures { result ≡ is_one_of (Simple wanted) (typed_all keys.now) }
{
    let Some((one, others)) = keys.split_first() else {
        return false;
    };
    match others.split_first() {
        Some(_) => false,
        None => same_type(&one.value_type, &ValueType::Simple(wanted)),
    }
}

/// A primitive of one value of a type and of what it is to be in.
#[tactic(auto, using(crate::proofs::KeyLaws::one_form_is))]
fn one_in(
    alloc: Global,
    primitive: Primitive,
    wanted: SimpleType,
    keys: Vec<Typed>,
    right: Typed,
) -> Result<Option<Expr>, AllocError>
    ensures { IfOk result (λ made. option_map expr_of made ≡ one_form primitive (is_one_of (Simple wanted) (typed_all keys.items)) (typed_all keys.items) (typed_of right)) }
{
    if is_one(wanted, &keys) {
        Ok(Some(with_last(alloc, primitive, keys, right)?))
    } else {
        drop(right);
        Ok(None)
    }
}

/// `in` of keys and of what they are to be in.
fn in_form(alloc: Global, keys: Vec<Typed>, right: Typed) -> Result<Option<Expr>, AllocError>
    ensures { IfOk result (λ made. option_map expr_of made ≡ spec.in_form (typed_all keys.items) (typed_of right)) }
{
    match &right.value_type {
        ValueType::Table { keys: types, .. } | ValueType::Set { keys: types } => {
            match as_keys(alloc, types.as_slice(), keys) {
                Ok(Some(fitting)) => Ok(Some(with_last(alloc, Primitive::HasKey, fitting, right)?)),
                Ok(None) => {
                    drop(right);
                    Ok(None)
                }
                Err(error) => {
                    drop(right);
                    Err(error)
                }
            }
        }
        ValueType::Simple(SimpleType::String) => {
            one_in(alloc, Primitive::HasText, SimpleType::String, keys, right)
        }
        ValueType::Simple(SimpleType::Subnet) => {
            one_in(alloc, Primitive::HasAddress, SimpleType::Addr, keys, right)
        }
        ValueType::Vector { .. } => {
            one_in(alloc, Primitive::HasIndex, SimpleType::Count, keys, right)
        }
        ValueType::Simple(_) | ValueType::Record(_) => {
            drop(right);
            Ok(None)
        }
    }
}

/// `in` and `!in` of keys and of what they are to be in.
pub fn membership(
    alloc: Global,
    is_turned: bool,
    first: Place,
    second: Place,
    keys: Vec<Typed>,
    right: Typed,
) -> Result<Typed, Refusal>
    ensures { Tells typed_of result (spec.membership is_turned first second (typed_all keys.items) (typed_of right)) }
{
    let wrong = if is_left_of_in(&keys) { second } else { first };
    match in_form(alloc, keys, right)? {
        Some(one) => Ok(Typed {
            value_type: ValueType::Simple(SimpleType::Bool),
            expr: turned(alloc, is_turned, one)?,
        }),
        None => Err(Refusal::Broken(one_broken(alloc, Rule::WrongType, wrong)?)),
    }
}
