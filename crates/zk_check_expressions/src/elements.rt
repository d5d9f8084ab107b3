ghost use Rattle.std.specs.Prelude.{◌≡◌, List, IfOk};
ghost use Rattle.zk_check_operators.specs.Views.{typed_of, typed_all, all_typed};
ghost use Rattle.zk_typed.specs.Forms as form;
ghost use Rattle.zk_typed.specs.Making as making;
ghost use Rattle.zk_typed.specs.Tells.{Tells};
ghost use Rattle.zk_typed.specs.Checked.{Checked};
ghost use Rattle.zk_typed.specs.declared.script.primitive.Primitive.TheVariants as primitive;
ghost use Rattle.zk_typed.specs.Typing as spec;
ghost use Rattle.zk_typed.specs.Typing.{Typed as TypedForm};
ghost use Rattle.zk_typed.specs.View.{all_of, expr_of, type_of};
ghost use Rattle.zk_check_expressions.specs.Envs.{env_of};
ghost use Rattle.zk_check_expressions.specs.Parts.{and_then, behind_form, fitting_key};

use crate::env::Env;
use crate::refuse::broken;
use sqlite_items::Items;
use std::alloc::{AllocError, Global};
use zk_check_operators::{Typed, applied, fits, one_operand, operands_of, with_part};
use zk_tree::{Expr, Place};
use zk_typed::script::{Expr as TypedExpr, Primitive, SimpleType, ValueType};
use zk_typed::{Refusal, Rule, one_broken};

/// A value as a key of a type, by the place of the expression that it was written as.
fn key_fits(alloc: Global, place: Place, key: SimpleType, one: Typed) -> Result<Typed, Refusal>
    ensures { Tells typed_of result (fitting_key place key (typed_of one)) }
{
    let wanted = ValueType::Simple(key);
    match fits(alloc, &wanted, one)? {
        Some(one) => Ok(one),
        None => Err(Refusal::Broken(one_broken(alloc, Rule::WrongType, place)?)),
    }
}

/// Values as keys of these types, as far as there are types, each by the expression that it was written as.
fn fitted_keys(
    alloc: Global,
    env: &Env<'_>,
    keys: &[SimpleType],
    written: &[Expr],
    values: Vec<Typed>,
) -> Result<Vec<Typed>, Refusal>
    ensures { Tells all_typed result (making.fitted_keys (env_of env.now) keys.now written.now (typed_all values.items)) }
{
    let mut all = Ok(Vec::new(alloc));
    let mut keys_left = keys;
    let mut written_left = written;
    for one in values {
        match (keys_left.split_first(), written_left.split_first()) {
            (Some((key, more_keys)), Some((first, more_written))) => {
                all = with_part(all, key_fits(alloc, env.expr_place(first), *key, one));
                keys_left = more_keys;
                written_left = more_written;
            }
            _ => return all,
        }
    }
    all
}

/// Values as keys of these types, as many as there are.
#[tactic(auto, using(crate::proofs::Steps::all_passed, crate::proofs::MemberLaws::typed_length))]
pub fn keys_fit(
    alloc: Global,
    env: &Env<'_>,
    place: Place,
    keys: &[SimpleType],
    written: &[Expr],
    values: Vec<Typed>,
) -> Result<Vec<Typed>, Refusal>
    ensures { Tells all_typed result (making.keys_fit (env_of env.now) place keys.now written.now (typed_all values.items)) }
{
    let as_many = keys.len() == values.len();
    match fitted_keys(alloc, env, keys, written, values) {
        Ok(fitting) => {
            if keys.len() == fitting.len() && as_many {
                Ok(fitting)
            } else {
                Err(Refusal::Broken(one_broken(alloc, Rule::WrongType, place)?))
            }
        }
        Err(refusal) => Err(refusal),
    }
}

/// Operands, the first before the others.
pub fn operands_behind(
    alloc: Global,
    first: TypedExpr,
    others: Vec<Typed>,
) -> Result<Items<TypedExpr>, AllocError>
    ensures { IfOk result (λ operands. all_of operands ≡ form.AndExpr (expr_of first) (spec.exprs (typed_all others.items))) }
{
    let mut operands = one_operand(alloc, first)?;
    operands.append(operands_of(alloc, others)?)?;
    Ok(operands)
}

/// An element of a table, by its keys.
fn element_of(
    alloc: Global,
    value_type: ValueType,
    table: TypedExpr,
    keys: Result<Vec<Typed>, Refusal>,
) -> Result<Typed, Refusal>
    ensures { (given : Checked (List TypedForm)) → Tells all_typed keys given → Tells typed_of result (and_then given (behind_form (type_of value_type) primitive.Element (expr_of table))) }
{
    match keys {
        Ok(keys) => {
            let operands = operands_behind(alloc, table, keys)?;
            Ok(applied(value_type, Primitive::Element, operands))
        }
        Err(refusal) => {
            drop(table);
            Err(refusal)
        }
    }
}

/// An item of a vector, by its index.
fn item_of(
    alloc: Global,
    value_type: ValueType,
    vector: TypedExpr,
    index: Result<Vec<Typed>, Refusal>,
) -> Result<Typed, Refusal>
    ensures { (given : Checked (List TypedForm)) → Tells all_typed index given → Tells typed_of result (and_then given (behind_form (type_of value_type) primitive.Item (expr_of vector))) }
{
    match index {
        Ok(index) => {
            let operands = operands_behind(alloc, vector, index)?;
            Ok(applied(value_type, Primitive::Item, operands))
        }
        Err(refusal) => {
            drop(vector);
            Err(refusal)
        }
    }
}

/// An element of a table, or an item of a vector, by its keys.
#[tactic(auto, using(crate::proofs::Refusals::broken_is))]
pub fn element(
    alloc: Global,
    env: &Env<'_>,
    place: Place,
    one: Typed,
    written: &[Expr],
    keys: Vec<Typed>,
) -> Result<Typed, Refusal>
    ensures { Tells typed_of result (making.element (env_of env.now) place (typed_of one) written.now (typed_all keys.items)) }
{
    let Typed { value_type, expr } = one;
    match value_type {
        ValueType::Table { keys: types, value } => {
            let fitting = keys_fit(alloc, env, place, types.as_slice(), written, keys);
            element_of(alloc, value.into_inner(), expr, fitting)
        }
        ValueType::Vector { item } => {
            let fitting = keys_fit(alloc, env, place, &[SimpleType::Count], written, keys);
            item_of(alloc, item.into_inner(), expr, fitting)
        }
        ValueType::Simple(_) | ValueType::Record(_) | ValueType::Set { .. } => {
            drop(expr);
            Err(broken(alloc, Rule::WrongType, place))
        }
    }
}
