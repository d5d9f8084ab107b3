//! The names of events and hooks that calls of the log framework give.
ghost use Rattle.std.specs.Prelude.{◌≡◌, map};
ghost use Rattle.std.specs.Option.{option_map};
ghost use Rattle.zk_scope.specs.Lent.{declared_of};
ghost use Rattle.zk_tree.specs.declared.decl.BodyKind.TheVariants as body;
ghost use Rattle.zk_typed.specs.Errors.{kind_of};
ghost use Rattle.zk_typed.specs.LogCalls as logs;
ghost use Rattle.zk_typed.specs.Tells.{Tells};
ghost use Rattle.zk_typed.specs.View.{type_of};
ghost use Rattle.zk_check_expressions.specs.Envs.{env_of};
ghost use Rattle.zk_check_expressions.specs.LogSettings.{event_params, params_fit, policy_params, signed_declared, types_lent};

use crate::env::Env;
use crate::found::{Found, look_up};
use std::alloc::Global;
use zk_base::{EventNo, HookNo, RecordNo};
use zk_check_operators::same_types;
use zk_scope::{Declared, Kind, body_signature};
use zk_tree::{BodyKind, Expr, Place};
use zk_typed::script::{SimpleType, ValueType};
use zk_typed::{Refusal, Rule, one_broken};

/// The number of the enum that names logs.
const LOG_ID: u32 = 1;

/// The number of the record type of a filter.
const FILTER: u32 = 7;

/// Whether parameters are those that are wanted, where these are known.
fn params_fit(
    alloc: Global,
    place: Place,
    wanted: Option<&[ValueType]>,
    params: &[ValueType],
) -> Result<(), Refusal>
    ensures { Tells (λ done. done) result (params_fit place (option_map types_lent wanted.entry) (map type_of params.now)) }
{
    match wanted {
        Some(wanted) => {
            if same_types(params, wanted) {
                Ok(())
            } else {
                Err(Refusal::Broken(one_broken(alloc, Rule::WrongType, place)?))
            }
        }
        None => Ok(()),
    }
}

/// A declared name as one of events or of hooks.
fn signed<'e>(
    alloc: Global,
    env: &Env<'e>,
    kind: BodyKind,
    wanted: Option<&[ValueType]>,
    place: Place,
    declared: &'e Declared<'e>,
) -> Result<&'e Declared<'e>, Refusal>
    ensures { Tells (λ one. declared_of one.now) result (signed_declared (env_of env.now) kind (option_map types_lent wanted.entry) place (declared_of declared.entry.now)) }
{
    let Some(signature) = body_signature(kind, &declared.meant) else {
        return Err(Refusal::Broken(one_broken(alloc, Rule::WrongType, place)?));
    };
    match env.scripts.names.params_of(alloc, signature) {
        Ok(params) => match params_fit(alloc, place, wanted, params.as_slice()) {
            Ok(()) => Ok(declared),
            Err(refusal) => Err(refusal),
        },
        Err(refusal) => Err(refusal),
    }
}

/// A name of an event or of a hook, with these parameters where they are known.
fn named_signature<'e>(
    alloc: Global,
    env: &Env<'e>,
    kind: BodyKind,
    wanted: Option<&[ValueType]>,
    one: &Expr,
) -> Result<&'e Declared<'e>, Refusal>
    ensures { Tells (λ one. declared_of one.now) result (logs.named_signature (env_of env.now) (kind_of kind) (option_map types_lent wanted.entry) one.now) }
{
    let place = env.expr_place(one);
    match one {
        Expr::Name { name } => match look_up(alloc, env, name)? {
            Found::Declared(declared) => signed(alloc, env, kind, wanted, place, declared),
            Found::Local => Err(Refusal::Broken(one_broken(alloc, Rule::WrongType, place)?)),
            Found::Nothing => Err(Refusal::Broken(one_broken(alloc, Rule::Unknown, place)?)),
        },
        _ => Err(Refusal::Broken(one_broken(alloc, Rule::WrongType, place)?)),
    }
}

/// A name of an event that takes the record of a log, where that is known.
fn named_event<'e>(
    alloc: Global,
    env: &Env<'e>,
    known: Option<RecordNo>,
    one: &Expr,
) -> Result<&'e Declared<'e>, Refusal>
    ensures { Tells (λ one. declared_of one.now) result (logs.named_signature (env_of env.now) (kind_of body.Event) (option_map event_params known) one.now) }
{
    match known {
        Some(number) => {
            let wanted = [ValueType::Record(number)];
            named_signature(alloc, env, BodyKind::Event, Some(&wanted), one)
        }
        None => named_signature(alloc, env, BodyKind::Event, None, one),
    }
}

/// A name of a hook that takes the record of a log, the log and the filter, where the record is known.
fn named_policy<'e>(
    alloc: Global,
    env: &Env<'e>,
    known: Option<RecordNo>,
    one: &Expr,
) -> Result<&'e Declared<'e>, Refusal>
    ensures { Tells (λ one. declared_of one.now) result (logs.named_signature (env_of env.now) (kind_of body.Hook) (option_map policy_params known) one.now) }
{
    match known {
        Some(number) => {
            let wanted = [
                ValueType::Record(number),
                ValueType::Simple(SimpleType::Enum(LOG_ID)),
                ValueType::Record(RecordNo(FILTER)),
            ];
            named_signature(alloc, env, BodyKind::Hook, Some(&wanted), one)
        }
        None => named_signature(alloc, env, BodyKind::Hook, None, one),
    }
}

/// The event of `$ev`, which takes the record of the log.
pub fn event_setting(
    alloc: Global,
    env: &Env<'_>,
    known: Option<RecordNo>,
    one: &Expr,
) -> Result<EventNo, Refusal>
    ensures { Tells (λ number. number) result (logs.event_setting (env_of env.now) known one.now) }
{
    match named_event(alloc, env, known, one) {
        Ok(declared) => {
            let number = env.scripts.names.number_among(Kind::Event, declared)?;
            Ok(EventNo(number))
        }
        Err(refusal) => Err(refusal),
    }
}

/// The hook of `$policy`, which takes the record of the log, the log and the filter.
pub fn policy_setting(
    alloc: Global,
    env: &Env<'_>,
    known: Option<RecordNo>,
    one: &Expr,
) -> Result<HookNo, Refusal>
    ensures { Tells (λ number. number) result (logs.policy_setting (env_of env.now) known one.now) }
{
    match named_policy(alloc, env, known, one) {
        Ok(declared) => {
            let number = env.scripts.names.number_among(Kind::Hook, declared)?;
            Ok(HookNo(number))
        }
        Err(refusal) => Err(refusal),
    }
}
