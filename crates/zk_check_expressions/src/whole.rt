//! Expressions and their parts as statements and declarations use them: no depth is too great.
ghost use Rattle.zk_scope.specs.Lent.{signature_of};
ghost use Rattle.zk_check_operators.specs.Views.{typed_of, all_typed, wanted_in};
ghost use Rattle.zk_typed.specs.Checked.{Checked, each};
ghost use Rattle.zk_typed.specs.Expressions as rules;
ghost use Rattle.zk_typed.specs.Making as making;
ghost use Rattle.zk_typed.specs.Resolving as resolving;
ghost use Rattle.zk_typed.specs.Statements as statements;
ghost use Rattle.zk_typed.specs.Tells.{Tells};
ghost use Rattle.zk_typed.specs.Typing as spec;
ghost use Rattle.zk_check_expressions.specs.Envs.{env_of, side_of, called_of};
ghost use Rattle.zk_check_expressions.specs.Parts.{behind_wrong, behind_view};

use crate::called::Called;
use crate::env::Env;
use crate::expr::expr_to;
use crate::judge::Judge;
use crate::side::Side;
use std::alloc::Global;
use zk_check_operators::{Typed, Wanted};
use zk_scope::Signature;
use zk_tree::{Expr, Init, Item, Name, Part, Place};
use zk_typed::{Refusal, Rule};

/// An expression where a type is wanted.
pub fn expr_typed(
    alloc: Global,
    env: &Env<'_>,
    wanted: Wanted<'_>,
    one: &Expr,
) -> Result<Typed, Refusal>
    ensures { Tells typed_of result (rules.expr_typed (env_of env.now) (wanted_in wanted.entry) one.now) }
{
    expr_to(alloc, env, u64::MAX, wanted, one)
}

/// An initial value where a type is wanted.
pub fn init_typed(
    alloc: Global,
    env: &Env<'_>,
    wanted: Wanted<'_>,
    one: &Init,
) -> Result<Typed, Refusal>
    ensures { Tells typed_of result (statements.init_typed (env_of env.now) (wanted_in wanted.entry) one.now) }
{
    match one {
        Init::Value { value } => expr_typed(alloc, env, wanted, value),
        Init::Braces { place, values, .. } => {
            let judge = Judge {
                alloc,
                env,
                depth: u64::MAX,
                part: expr_to,
            };
            judge.braces_typed(env.at(*place), values.as_slice(), wanted)
        }
    }
}

/// What can be assigned.
pub fn left_side(alloc: Global, env: &Env<'_>, one: &Expr) -> Result<Side, Refusal>
    ensures { Tells side_of result (rules.left_side (rules.expr_typed (env_of env.now)) (env_of env.now) one.now) }
{
    let judge = Judge {
        alloc,
        env,
        depth: u64::MAX,
        part: expr_to,
    };
    judge.left_side(one)
}

/// A call of what a name means.
pub fn call_of(alloc: Global, env: &Env<'_>, name: &Name, items: &[Item]) -> Result<Called, Refusal>
    ensures { Tells called_of result (making.call_of (rules.expr_typed (env_of env.now)) (env_of env.now) name.now items.now) }
{
    let judge = Judge {
        alloc,
        env,
        depth: u64::MAX,
        part: expr_to,
    };
    judge.call_of(name, items)
}

/// An expression with the parts behind it, or a call of a name with those behind it. Its place is that of
/// the whole expression.
pub fn post_typed(
    alloc: Global,
    env: &Env<'_>,
    place: Place,
    first: &Expr,
    parts: &[Part],
) -> Result<Typed, Refusal>
    ensures { Tells typed_of result (making.post_typed (rules.expr_typed (env_of env.now)) (env_of env.now) place first.now parts.now (making.called_name first.now parts.now)) }
{
    let judge = Judge {
        alloc,
        env,
        depth: u64::MAX,
        part: expr_to,
    };
    judge.post_typed(place, first, parts)
}

/// A left side, or what is broken in it and on the right.
pub fn rest_of(
    alloc: Global,
    env: &Env<'_>,
    side: Result<Side, Refusal>,
    right: &Expr,
) -> Result<Side, Refusal>
    ensures { (wanted : Checked rules.Side) → Tells side_of side wanted → Tells side_of result (rules.rest_of (rules.expr_typed (env_of env.now)) right.now wanted) }
{
    let judge = Judge {
        alloc,
        env,
        depth: u64::MAX,
        part: expr_to,
    };
    judge.rest_of(side, right)
}

/// Expressions where no type is wanted.
pub fn each_typed(alloc: Global, env: &Env<'_>, ones: &[Expr]) -> Result<Vec<Typed>, Refusal>
    ensures { Tells all_typed result (each (rules.expr_typed (env_of env.now) spec.Nothing) ones.now) }
{
    let judge = Judge {
        alloc,
        env,
        depth: u64::MAX,
        part: expr_to,
    };
    judge.each_part(ones)
}

/// The arguments of what has these parameters, called at a place.
pub fn signed_arguments(
    alloc: Global,
    env: &Env<'_>,
    place: Place,
    signature: &Signature<'_>,
    items: &[Item],
) -> Result<Vec<Typed>, Refusal>
    ensures { Tells all_typed result (making.arguments (rules.expr_typed (env_of env.now)) (env_of env.now) place (resolving.params_of (env_of env.now).scripts (signature_of signature.now)) items.now) }
{
    let judge = Judge {
        alloc,
        env,
        depth: u64::MAX,
        part: expr_to,
    };
    judge.signed_arguments(place, signature, items)
}

/// Values whose texts `print` writes.
pub fn each_printed(alloc: Global, env: &Env<'_>, ones: &[Expr]) -> Result<Vec<Typed>, Refusal>
    ensures { Tells all_typed result (each (making.printed (rules.expr_typed (env_of env.now)) (env_of env.now)) ones.now) }
{
    let judge = Judge {
        alloc,
        env,
        depth: u64::MAX,
        part: expr_to,
    };
    judge.each_printed(ones)
}

/// The rules that are broken where a name is wrong, with those of the arguments behind it.
pub fn wrong_name(alloc: Global, env: &Env<'_>, rule: Rule, place: Place, items: &[Item]) -> Refusal
    ensures { Tells behind_view (Err result) (behind_wrong rule place (each (making.argument (rules.expr_typed (env_of env.now)) (env_of env.now) spec.Unclear) items.now)) }
{
    let judge = Judge {
        alloc,
        env,
        depth: u64::MAX,
        part: expr_to,
    };
    judge.wrong_name(rule, place, items)
}
