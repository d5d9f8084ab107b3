ghost use Rattle.std.specs.Prelude.{◌≡◌, IfOk};
ghost use Rattle.zk_check_expressions.specs.Envs.{env_of, side_of};
ghost use Rattle.zk_typed.specs.declared.script.action.Action.TheVariants as action;
ghost use Rattle.zk_typed.specs.declared.script.action.Left.TheVariants as left;
ghost use Rattle.zk_typed.specs.Expressions as rules;
ghost use Rattle.zk_typed.specs.Forms as form;
ghost use Rattle.zk_typed.specs.Statements as spec;
ghost use Rattle.zk_typed.specs.Tells.{Tells};
ghost use Rattle.zk_typed.specs.View.{all_of, expr_of, stmt_of, type_of};
ghost use Rattle.zk_check_statements.specs.Acting.{wrong_value};
ghost use Rattle.zk_check_statements.specs.Assigning.{assigned_to, by_operator, moved_to, set_of, updated_of};

use crate::acting::with_first;
use crate::made::done;
use sqlite_items::Items;
use std::alloc::{AllocError, Global};
use zk_base::Mem;
use zk_check_expressions::{
    Env, Read, Side, assignable, expr_typed, is_wire, left_side, refused, rest_of, wire_read,
};
use zk_check_operators::{Wanted, added_type, update_of};
use zk_tree::{Assigning, Expr as Syntax, Place};
use zk_typed::script::{Action, Expr, FieldNo, Left, Stmt, ValueType};
use zk_typed::{Refusal, Rule};

/// An assignment of a value to a left side with its operands.
fn plainly(
    alloc: Global,
    place: Place,
    left: Left,
    operands: Items<Expr>,
    value: Expr,
) -> Result<Stmt, AllocError>
    ensures { IfOk result (λ made. stmt_of made ≡ form.Do place (action.Assign left) (form.AndExpr (expr_of value) (all_of operands))) }
{
    let operands = with_first(alloc, value, operands)?;
    Ok(done(place, Action::Assign(left), operands))
}

/// A value that is given to a field of a record as it is.
fn stored(
    alloc: Global,
    place: Place,
    field: FieldNo,
    to: Expr,
    value: Expr,
) -> Result<Stmt, AllocError>
    ensures { IfOk result (λ made. stmt_of made ≡ form.Do place (action.Assign (left.Field field)) (form.AndExpr (expr_of value) (form.AndExpr (expr_of to) form.NoExpr))) }
{
    let operands = Items::from_vec(Vec::from_array(alloc, [value, to])?);
    Ok(done(place, Action::Assign(Left::Field(field)), operands))
}

/// A value that is given to a field marked `&wire` of a record. What is read from such a field moves.
fn moved(
    alloc: Global,
    env: &Env<'_>,
    place: Place,
    field: FieldNo,
    to: Expr,
    value: Expr,
) -> Result<Stmt, Mem>
    ensures { IfOk result (λ made. stmt_of made ≡ moved_to (env_of env.now) place field (expr_of to) (expr_of value)) }
{
    match wire_read(alloc, env, value) {
        Ok(Read::Wire { from, read }) => Ok(Stmt::Move {
            place,
            to,
            field,
            from,
            read,
        }),
        Ok(Read::Whole(value)) => Ok(stored(alloc, place, field, to, value)?),
        Err(refused) => {
            drop(to);
            Err(refused)
        }
    }
}

/// A value that is given to a field of a record.
fn to_field(
    alloc: Global,
    env: &Env<'_>,
    place: Place,
    field: FieldNo,
    to: Expr,
    value: Expr,
) -> Result<Stmt, Mem>
    ensures { IfOk result (λ made. stmt_of made ≡ assigned_to (env_of env.now) place (left.Field field) (form.AndExpr (expr_of to) form.NoExpr) (expr_of value)) }
{
    match is_wire(alloc, env, field) {
        Ok(true) => moved(alloc, env, place, field, to, value),
        Ok(false) => Ok(stored(alloc, place, field, to, value)?),
        Err(refused) => {
            drop(to);
            drop(value);
            Err(refused)
        }
    }
}

/// A value that is given to a field.
fn field_assigned(
    alloc: Global,
    env: &Env<'_>,
    place: Place,
    field: FieldNo,
    mut operands: Items<Expr>,
    value: Expr,
) -> Result<Stmt, Mem>
    ensures { IfOk result (λ made. stmt_of made ≡ assigned_to (env_of env.now) place (left.Field field) (all_of operands) (expr_of value)) }
{
    if operands.len() != 1 {
        return Ok(plainly(alloc, place, Left::Field(field), operands, value)?);
    }
    match operands.pop() {
        Some(to) => to_field(alloc, env, place, field, to, value),
        None => unreachable!(),
    }
}

/// A value that is given to a side.
fn assigned(
    alloc: Global,
    env: &Env<'_>,
    place: Place,
    side: Side,
    value: Expr,
) -> Result<Stmt, Mem>
    ensures { IfOk result (λ made. stmt_of made ≡ assigned_to (env_of env.now) place (side_of side).left (side_of side).operands (expr_of value)) }
{
    match side.left {
        Left::Field(field) => field_assigned(alloc, env, place, field, side.operands, value),
        Left::Local(_) | Left::Global(_) | Left::Element | Left::Item => {
            Ok(plainly(alloc, place, side.left, side.operands, value)?)
        }
    }
}

/// `left = right`, by what the left side is.
#[tactic(auto, using(zk_check_operators::proofs::BothLaws::passed))]
fn set(
    alloc: Global,
    env: &Env<'_>,
    place: Place,
    side: Side,
    right: &Syntax,
) -> Result<Stmt, Refusal>
    ensures { Tells stmt_of result (set_of (rules.expr_typed (env_of env.now)) (env_of env.now) place right.now (side_of side)) }
{
    match expr_typed(alloc, env, Wanted::Type(&side.value_type), right) {
        Ok(one) => match assignable(alloc, place, &side) {
            Ok(()) => Ok(assigned(alloc, env, place, side, one.expr)?),
            Err(refusal) => {
                drop(one);
                Err(refusal)
            }
        },
        Err(refusal) => Err(refusal),
    }
}

/// An expression that is wrong where it stands.
#[tactic(auto, using(zk_check_expressions::proofs::Refusals::refused))]
fn wrong_value(alloc: Global, env: &Env<'_>, place: Place, one: &Syntax) -> Result<Stmt, Refusal>
    ensures { Tells stmt_of result (wrong_value (rules.expr_typed (env_of env.now)) place one.now) }
{
    let judged = expr_typed(alloc, env, Wanted::Nothing, one);
    Err(refused(alloc, judged, Rule::WrongType, place))
}

/// A side to which a value of a type is added, or from which one is taken.
#[tactic(auto, using(zk_check_operators::proofs::BothLaws::passed))]
fn updated(
    alloc: Global,
    env: &Env<'_>,
    place: Place,
    operator: Assigning,
    side: Side,
    wanted: &ValueType,
    right: &Syntax,
) -> Result<Stmt, Refusal>
    ensures { Tells stmt_of result (updated_of (rules.expr_typed (env_of env.now)) place operator (side_of side) (type_of wanted.now) right.now) }
{
    match expr_typed(alloc, env, Wanted::Type(wanted), right) {
        Ok(one) => match assignable(alloc, place, &side) {
            Ok(()) => {
                let by = update_of(operator);
                let operands = with_first(alloc, one.expr, side.operands)?;
                Ok(done(
                    place,
                    Action::Update {
                        left: side.left,
                        by,
                    },
                    operands,
                ))
            }
            Err(refusal) => {
                drop(one);
                Err(refusal)
            }
        },
        Err(refusal) => Err(refusal),
    }
}

/// `left += right` or `left -= right`, by what the left side is.
fn added(
    alloc: Global,
    env: &Env<'_>,
    place: Place,
    left_place: Place,
    operator: Assigning,
    side: Side,
    right: &Syntax,
) -> Result<Stmt, Refusal>
    ensures { Tells stmt_of result (spec.added (rules.expr_typed (env_of env.now)) place left_place operator (side_of side) right.now (rules.added_type operator (side_of side).type)) }
{
    match added_type(alloc, operator, &side.value_type)? {
        Some(wanted) => updated(alloc, env, place, operator, side, &wanted, right),
        None => wrong_value(alloc, env, left_place, right),
    }
}

/// An assignment, by what its left side is.
fn by_operator(
    alloc: Global,
    env: &Env<'_>,
    place: Place,
    left_place: Place,
    operator: Assigning,
    side: Side,
    right: &Syntax,
) -> Result<Stmt, Refusal>
    ensures { Tells stmt_of result (by_operator (rules.expr_typed (env_of env.now)) (env_of env.now) place left_place right.now operator (side_of side)) }
{
    match operator {
        Assigning::Set => set(alloc, env, place, side, right),
        Assigning::Add | Assigning::Subtract => {
            added(alloc, env, place, left_place, operator, side, right)
        }
    }
}

/// `left = right`, `left += right` or `left -= right`.
#[tactic(auto, using(zk_check_operators::proofs::BothLaws::passed))]
pub fn assignment(
    alloc: Global,
    env: &Env<'_>,
    place: Place,
    left: &Syntax,
    operator: Assigning,
    right: &Syntax,
) -> Result<Stmt, Refusal>
    ensures { Tells stmt_of result (spec.assignment (rules.expr_typed (env_of env.now)) (env_of env.now) place left.now operator right.now) }
{
    let side = left_side(alloc, env, left);
    match rest_of(alloc, env, side, right) {
        Ok(side) => by_operator(
            alloc,
            env,
            place,
            env.expr_place(left),
            operator,
            side,
            right,
        ),
        Err(refusal) => Err(refusal),
    }
}
