ghost use Rattle.zk_check_expressions.specs.Envs.{called_of, env_of};
ghost use Rattle.zk_typed.specs.Checked.{Checked};
ghost use Rattle.zk_typed.specs.Expressions as rules;
ghost use Rattle.zk_typed.specs.Making as making;
ghost use Rattle.zk_typed.specs.Statements as spec;
ghost use Rattle.zk_typed.specs.Tells.{Tells};
ghost use Rattle.zk_typed.specs.View.{stmt_of};
ghost use Rattle.zk_check_statements.specs.Acting.{called, evaluated, post_stmt};

use crate::assigning::assignment;
use std::alloc::Global;
use zk_check_expressions::{Called, Env, call_of, called_name, expr_typed};
use zk_check_operators::{Wanted, operands_of};
use zk_tree::{Expr, Part, Place};
use zk_typed::Refusal;
use zk_typed::script::Stmt;

/// A value that isn't used.
#[tactic(auto, using(zk_check_operators::proofs::BothLaws::passed))]
fn evaluated(alloc: Global, env: &Env<'_>, place: Place, one: &Expr) -> Result<Stmt, Refusal>
    ensures { Tells stmt_of result (evaluated (rules.expr_typed (env_of env.now)) place one.now) }
{
    match expr_typed(alloc, env, Wanted::Nothing, one) {
        Ok(one) => Ok(Stmt::Evaluate {
            place,
            value: one.expr,
        }),
        Err(refusal) => Err(refusal),
    }
}

/// A call that stands as a statement.
#[tactic(auto, using(zk_check_operators::proofs::BothLaws::passed, crate::proofs::Stated::perform_is))]
fn call_stmt(alloc: Global, place: Place, call: Result<Called, Refusal>) -> Result<Stmt, Refusal>
    ensures { (wanted : Checked making.Called) → Tells called_of call wanted → Tells stmt_of result (called place wanted) }
{
    match call {
        Ok(Called::Gives(one)) => Ok(Stmt::Evaluate {
            place,
            value: one.expr,
        }),
        Ok(Called::Performs { function, args }) => {
            let operands = operands_of(alloc, args)?;
            Ok(Stmt::Call {
                place,
                function,
                operands,
            })
        }
        Err(refusal) => Err(refusal),
    }
}

/// What stands before its parts, as a statement: a call of a function, or a value that isn't used.
fn post_stmt(
    alloc: Global,
    env: &Env<'_>,
    place: Place,
    first: &Expr,
    parts: &[Part],
    one: &Expr,
) -> Result<Stmt, Refusal>
    ensures { Tells stmt_of result (post_stmt (rules.expr_typed (env_of env.now)) (env_of env.now) place first.now parts.now one.now) }
{
    match called_name(first, parts) {
        Some((name, items, others)) => {
            if others.is_empty() {
                call_stmt(alloc, place, call_of(alloc, env, name, items))
            } else {
                evaluated(alloc, env, place, one)
            }
        }
        None => evaluated(alloc, env, place, one),
    }
}

/// An expression that stands as a statement: an assignment, a call of a function without a result, or a
/// value that isn't used.
pub fn expr_stmt(alloc: Global, env: &Env<'_>, one: &Expr) -> Result<Stmt, Refusal>
    ensures { Tells stmt_of result (spec.expr_stmt (rules.expr_typed (env_of env.now)) (env_of env.now) one.now) }
{
    let place = env.expr_place(one);
    match one {
        Expr::Assign {
            left,
            operator,
            right,
        } => assignment(alloc, env, place, left.get(), *operator, right.get()),
        Expr::Post { first, parts } => {
            post_stmt(alloc, env, place, first.get(), parts.as_slice(), one)
        }
        _ => evaluated(alloc, env, place, one),
    }
}
