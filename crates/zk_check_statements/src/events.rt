ghost use Rattle.std.specs.Prelude.{◌≡◌, List, Some, IfOk};
ghost use Rattle.zk_check_expressions.specs.Envs.{env_of, locals_of};
ghost use Rattle.zk_scope.specs.Lent.{declared_of};
ghost use Rattle.zk_check_operators.specs.Views.{typed_all, typed_of};
ghost use Rattle.zk_typed.specs.declared.script.action.Action.TheVariants as action;
ghost use Rattle.zk_typed.specs.Checked.{Checked};
ghost use Rattle.zk_typed.specs.Expressions as rules;
ghost use Rattle.zk_typed.specs.Forms as form;
ghost use Rattle.zk_typed.specs.Predefined as type;
ghost use Rattle.zk_typed.specs.Statements as spec;
ghost use Rattle.zk_typed.specs.Tells.{Tells};
ghost use Rattle.zk_typed.specs.Typing as typing;
ghost use Rattle.zk_typed.specs.View.{stmt_of};
ghost use Rattle.zk_check_statements.specs.Acting.{delayed, event_of, event_with, queued};
ghost use Rattle.zk_check_statements.specs.Bodies.{context_of};

use crate::context::{Context, check_in, env_in, place_of};
use crate::elements::operands_with;
use crate::made::done;
use std::alloc::{AllocError, Global};
use zk_base::EventNo;
use zk_check_expressions::{Env, Found, Locals, look_up, signed_arguments, wrong_name};
use zk_check_operators::{Typed, Wanted, both, operands_of};
use zk_scope::{Declared, Kind, Meant};
use zk_tree::{Expr, Item, Name, Place};
use zk_typed::script::{Action, SimpleType, Stmt, ValueType};
use zk_typed::{Refusal, Rule};

const INTERVAL: ValueType = ValueType::Simple(SimpleType::Interval);

/// An event that is declared, with its arguments.
fn declared_event(
    alloc: Global,
    env: &Env<'_>,
    place: Place,
    name: &Name,
    items: &[Item],
    one: &Declared<'_>,
) -> Result<(EventNo, Vec<Typed>), Refusal>
    ensures { Tells event_with result (spec.event_args (rules.expr_typed (env_of env.now)) (env_of env.now) place name.now items.now (Some (declared_of one.now))) }
{
    match &one.meant {
        Meant::Event { signature } => match signed_arguments(alloc, env, place, signature, items) {
            Ok(args) => {
                let number = env.scripts.names.number_among(Kind::Event, one)?;
                Ok((EventNo(number), args))
            }
            Err(refusal) => Err(refusal),
        },
        Meant::KnownType { .. }
        | Meant::WrittenType { .. }
        | Meant::Word { .. }
        | Meant::Variable { .. }
        | Meant::Hook { .. }
        | Meant::Function { .. }
        | Meant::BuiltInFunction { .. }
        | Meant::Log { .. } => {
            Err(wrong_name(alloc, env, Rule::WrongType, env.at(name.place), items))
        }
    }
}

/// An event with its arguments.
fn event_args(
    context: &Context<'_, '_>,
    locals: &Locals<'_>,
    place: u64,
    name: &Name,
    items: &[Item],
) -> Result<(EventNo, Vec<Typed>), Refusal>
    ensures { Tells event_with result (event_of (context_of context.now) (locals_of locals.now) place name.now items.now) }
{
    let alloc = context.alloc;
    let env = env_in(context, locals);
    match look_up(alloc, &env, name)? {
        Found::Declared(one) => {
            declared_event(alloc, &env, place_of(context, place), name, items, one)
        }
        Found::Local => { Err(wrong_name(alloc, &env, Rule::WrongType, env.at(name.place), items)) }
        Found::Nothing => { Err(wrong_name(alloc, &env, Rule::Unknown, env.at(name.place), items)) }
    }
}

/// `event`
#[tactic(auto, using(zk_check_operators::proofs::BothLaws::passed))]
pub fn event_stmt(
    context: &Context<'_, '_>,
    locals: &Locals<'_>,
    place: u64,
    name: &Name,
    items: &[Item],
) -> Result<Stmt, Refusal>
    ensures { Tells stmt_of result (queued (spec.place_of (context_of context.now) place) (event_of (context_of context.now) (locals_of locals.now) place name.now items.now)) }
{
    match event_args(context, locals, place, name, items) {
        Ok((event, args)) => {
            let operands = operands_of(context.alloc, args)?;
            Ok(done(place_of(context, place), Action::Queue(event), operands))
        }
        Err(refusal) => Err(refusal),
    }
}

/// An event of right parts that is due after a delay.
fn due(
    alloc: Global,
    place: Place,
    delay: Typed,
    event: EventNo,
    args: Vec<Typed>,
) -> Result<Stmt, AllocError>
    ensures { IfOk result (λ made. stmt_of made ≡ form.Do place (action.Schedule event) (form.AndExpr (typed_of delay).expr (typing.exprs (typed_all args.items)))) }
{
    let operands = operands_with(alloc, delay, args)?;
    Ok(done(place, Action::Schedule(event), operands))
}

/// An event that is due after a delay, or what is broken in its parts.
fn due_event(
    alloc: Global,
    place: Place,
    delay: Result<Typed, Refusal>,
    event: Result<(EventNo, Vec<Typed>), Refusal>,
) -> Result<Stmt, Refusal>
    ensures { (after : Checked typing.Typed) (wanted : Checked (EventNo × List typing.Typed)) → Tells typed_of delay after → Tells event_with event wanted → Tells stmt_of result (delayed place after wanted) }
{
    match both(delay, event) {
        Ok((delay, event)) => {
            let (event, args) = event;
            match due(alloc, place, delay, event, args) {
                Ok(made) => Ok(made),
                Err(_) => Err(Refusal::NoMemory),
            }
        }
        Err(refusal) => Err(refusal),
    }
}

/// `schedule`
pub fn schedule_stmt(
    context: &Context<'_, '_>,
    locals: &Locals<'_>,
    place: u64,
    delay: &Expr,
    name: &Name,
    items: &[Item],
) -> Result<Stmt, Refusal>
    ensures { Tells stmt_of result (delayed (spec.place_of (context_of context.now) place) (spec.check_in (context_of context.now) (locals_of locals.now) (typing.Wants type.interval) delay.now) (event_of (context_of context.now) (locals_of locals.now) place name.now items.now)) }
{
    let delay = check_in(context, locals, Wanted::Type(&INTERVAL), delay);
    let event = event_args(context, locals, place, name, items);
    due_event(context.alloc, place_of(context, place), delay, event)
}
