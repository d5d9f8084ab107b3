ghost use Rattle.std.specs.Prelude.{◌≡◌, IfOk};
ghost use Rattle.std.specs.Option.{option_map};
ghost use Rattle.zk_check_expressions.specs.Envs.{env_of, locals_of};
ghost use Rattle.zk_check_operators.specs.Views.{typed_all, typed_of};
ghost use Rattle.zk_typed.specs.Expressions as rules;
ghost use Rattle.zk_typed.specs.Forms as form;
ghost use Rattle.zk_typed.specs.Statements as spec;
ghost use Rattle.zk_typed.specs.Tells.{Tells};
ghost use Rattle.zk_typed.specs.Typing as typing;
ghost use Rattle.zk_typed.specs.View.{all_of, stmt_of};
ghost use Rattle.zk_check_statements.specs.Acting.{element_acted, element_of_index, element_of_parts, element_parts, lent_index, parts_in, wrong_element};
ghost use Rattle.zk_check_statements.specs.Bodies.{context_of};

use crate::acting::with_first;
use crate::context::{Context, env_in, place_of};
use crate::made::done;
use sqlite_items::Items;
use std::alloc::{AllocError, Global};
use zk_check_expressions::{Env, Locals, each_typed, expr_typed, keys_fit, post_typed, refused};
use zk_check_operators::{Typed, Wanted, both, keys_in, operands_of};
use zk_tree::{Expr as Syntax, Part, Place};
use zk_typed::script::{Action, Expr, Stmt};
use zk_typed::{Refusal, Rule, one_broken};

/// A value and others behind it, as operands.
pub fn operands_with(
    alloc: Global,
    first: Typed,
    others: Vec<Typed>,
) -> Result<Items<Expr>, AllocError>
    ensures { IfOk result (λ all. all_of all ≡ form.AndExpr (typed_of first).expr (typing.exprs (typed_all others.items))) }
{
    match operands_of(alloc, others) {
        Ok(others) => with_first(alloc, first.expr, others),
        Err(refused) => {
            drop(first);
            Err(refused)
        }
    }
}

/// What no element can be.
#[tactic(auto, using(zk_check_expressions::proofs::Refusals::refused))]
fn no_element(
    alloc: Global,
    env: &Env<'_>,
    place: Place,
    one: &Syntax,
) -> Result<Items<Expr>, Refusal>
    ensures { Tells all_of result (wrong_element (rules.expr_typed (env_of env.now)) place one.now) }
{
    let judged = expr_typed(alloc, env, Wanted::Nothing, one);
    Err(refused(alloc, judged, Rule::WrongType, place))
}

/// What stands before the last index, and the keys in it.
fn element_parts(
    alloc: Global,
    env: &Env<'_>,
    first: &Syntax,
    parts: &[Part],
    keys: &[Syntax],
) -> Result<(Typed, Vec<Typed>), Refusal>
    ensures { Tells parts_in result (element_parts (rules.expr_typed (env_of env.now)) (env_of env.now) first.now parts.now keys.now) }
{
    let before = post_typed(alloc, env, env.expr_place(first), first, parts);
    let keys = each_typed(alloc, env, keys);
    both(before, keys)
}

/// An element of a set, or of a table where it may be one, by its parts.
#[tactic(auto, using(zk_check_operators::proofs::BothLaws::passed))]
fn element_with(
    alloc: Global,
    env: &Env<'_>,
    place: Place,
    tables: bool,
    written: &[Syntax],
    one: Typed,
    keys: Vec<Typed>,
) -> Result<Items<Expr>, Refusal>
    ensures { Tells all_of result (element_of_parts (env_of env.now) place tables written.now (typed_of one, typed_all keys.items)) }
{
    match keys_in(tables, &one.value_type) {
        None => {
            drop(one);
            Err(Refusal::Broken(one_broken(alloc, Rule::WrongType, place)?))
        }
        Some(types) => match keys_fit(alloc, env, place, types, written, keys) {
            Ok(fitting) => Ok(operands_with(alloc, one, fitting)?),
            Err(refusal) => {
                drop(one);
                Err(refusal)
            }
        },
    }
}

/// An element whose last part is an index.
#[tactic(auto, using(zk_check_operators::proofs::BothLaws::passed))]
fn element_at(
    alloc: Global,
    env: &Env<'_>,
    place: Place,
    tables: bool,
    first: &Syntax,
    parts: &[Part],
    keys: &[Syntax],
) -> Result<Items<Expr>, Refusal>
    ensures { Tells all_of result (element_of_index (rules.expr_typed (env_of env.now)) (env_of env.now) place tables first.now parts.now keys.now) }
{
    match element_parts(alloc, env, first, parts, keys) {
        Ok((one, values)) => element_with(alloc, env, place, tables, keys, one, values),
        Err(refusal) => Err(refusal),
    }
}

/// The parts of an expression without the last, and the keys of the last, where that is an index.
fn indexed(parts: &[Part]) -> Option<(&[Part], &[Syntax])>
    ensures { option_map lent_index result ≡ spec.indexed parts.entry.now }
{
    let (last, front) = parts.split_last()?;
    match last {
        Part::Index { keys } => Some((front, keys.as_slice())),
        Part::Field { .. } => None,
        Part::HasField { .. } => None,
        Part::Call { .. } => None,
    }
}

/// An element of a set, or of a table where it may be one.
fn element_of(
    alloc: Global,
    env: &Env<'_>,
    place: Place,
    tables: bool,
    one: &Syntax,
) -> Result<Items<Expr>, Refusal>
    ensures { Tells all_of result (spec.element_of (rules.expr_typed (env_of env.now)) (env_of env.now) place tables one.now) }
{
    let Syntax::Post { first, parts } = one else {
        return no_element(alloc, env, place, one);
    };
    match indexed(parts.as_slice()) {
        Some((parts, keys)) => element_at(alloc, env, place, tables, first.get(), parts, keys),
        None => no_element(alloc, env, place, one),
    }
}

/// `add` or `delete`, which also takes an entry from a table.
#[tactic(auto, using(zk_check_operators::proofs::BothLaws::passed))]
pub fn element_stmt(
    context: &Context<'_, '_>,
    locals: &Locals<'_>,
    place: u64,
    action: Action,
    tables: bool,
    one: &Syntax,
) -> Result<Stmt, Refusal>
    ensures { Tells stmt_of result (element_acted (spec.place_of (context_of context.now) place) action (spec.element_of (spec.check_in (context_of context.now) (locals_of locals.now)) (spec.env_of (context_of context.now) (locals_of locals.now)) (spec.place_of (context_of context.now) place) tables one.now)) }
{
    let place = place_of(context, place);
    let env = env_in(context, locals);
    match element_of(context.alloc, &env, place, tables, one) {
        Ok(operands) => Ok(done(place, action, operands)),
        Err(refusal) => Err(refusal),
    }
}
