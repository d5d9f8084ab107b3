ghost use Rattle.std.specs.Prelude.{◌≡◌, IfOk, Ok};
ghost use Rattle.std.specs.Option.{option_map};
ghost use Rattle.zk_scope.specs.Lent.{declared_of};
ghost use Rattle.zk_check_operators.specs.Views.{typed_of};
ghost use Rattle.zk_typed.specs.Declarations.{circular};
ghost use Rattle.zk_typed.specs.Forms as form;
ghost use Rattle.zk_typed.specs.Tells.{Tells};
ghost use Rattle.zk_typed.specs.Typing as spec;
ghost use Rattle.zk_typed.specs.View.{type_of};
ghost use Rattle.zk_check_expressions.specs.Envs.{env_of, local_found, global_of, globals_at, known_or, visible};
ghost use Rattle.zk_check_expressions.specs.Parts.{and_then};

use crate::env::{Env, GlobalType, Globals, LocalName};
use crate::locals::Locals;
use sqlite_items::{Items, at};
use std::alloc::Global;
use zk_base::{Bytes, Mem};
use zk_check_operators::{Typed, constant};
use zk_scope::{Declared, Kind, Meant, has_module};
use zk_tree::{Name, Place};
use zk_typed::script::{Expr, Literal, SimpleType, ValueType};
use zk_typed::{Refusal, Rule, copied_type, one_broken};

/// The local that a name means, and its number: a name with `::` is one of a module's.
pub fn local_meant<'a>(
    alloc: Global,
    locals: Option<&'a Locals<'a>>,
    name: &[u8],
) -> Result<Option<(u32, &'a LocalName<'a>)>, Mem>
    ensures { IfOk result (λ found. option_map local_found found ≡ spec.local_meant name.now (visible locals.entry)) }
{
    if has_module(name) {
        return Ok(None);
    }
    match locals {
        Some(locals) => locals.named(alloc, name),
        None => Ok(None),
    }
}

/// The value of a local.
fn local_value(alloc: Global, number: u32, value_type: &Option<ValueType>) -> Result<Typed, Refusal>
    ensures { Tells typed_of result (and_then (known_or (option_map type_of value_type.now)) (λ type. Ok (spec.typed type (form.Local number)))) }
{
    match value_type {
        None => Err(Refusal::Broken(Items::new(alloc))),
        Some(value_type) => {
            let value_type = copied_type(alloc, value_type)?;
            Ok(Typed {
                value_type,
                expr: Expr::Local(number),
            })
        }
    }
}

/// The type of what rests on its own initial value, which is marked.
fn circular(alloc: Global) -> Result<ValueType, Refusal>
    ensures { Tells type_of result circular }
{
    let nowhere = Place { file: 0, byte: 0 };
    Err(Refusal::Broken(one_broken(alloc, Rule::Recursive, nowhere)?))
}

/// What is known of the type of a global or a constant.
fn known_global(alloc: Global, one: &GlobalType) -> Result<ValueType, Refusal>
    ensures { Tells type_of result (global_of one.now) }
{
    match one {
        GlobalType::Known(value_type) => Ok(copied_type(alloc, value_type)?),
        GlobalType::Unknown => Err(Refusal::Broken(Items::new(alloc))),
        GlobalType::Circular => circular(alloc),
    }
}

/// The type of a global or a constant, by its number.
pub fn global_type(alloc: Global, globals: Globals<'_>, number: u32) -> Result<ValueType, Refusal>
    ensures { Tells type_of result (globals_at globals.entry number) }
{
    match at(globals.types, number as usize) {
        Some(one) => known_global(alloc, one),
        None => {
            if globals.circular {
                circular(alloc)
            } else {
                Err(Refusal::Broken(Items::new(alloc)))
            }
        }
    }
}

/// The value of a global or a constant.
#[tactic(auto, using(crate::proofs::Steps::type_passed))]
fn global_value(alloc: Global, globals: Globals<'_>, number: u32) -> Result<Typed, Refusal>
    ensures { Tells typed_of result (and_then (globals_at globals.entry number) (λ type. Ok (spec.typed type (form.Global number)))) }
{
    match global_type(alloc, globals, number) {
        Ok(value_type) => Ok(Typed {
            value_type,
            expr: Expr::Global(number),
        }),
        Err(refusal) => Err(refusal),
    }
}

/// The value that a declared name has. The name of an event, a hook, a function or a type has none.
fn declared_value(
    alloc: Global,
    env: &Env<'_>,
    place: Place,
    found: Option<&Declared<'_>>,
) -> Result<Typed, Refusal>
    ensures { Tells typed_of result (spec.declared_value (env_of env.now) place (option_map (λ one. declared_of one.now) found.entry)) }
{
    let Some(one) = found else {
        return Err(Refusal::Broken(one_broken(alloc, Rule::Unknown, place)?));
    };
    match &one.meant {
        Meant::Word { number } => {
            let word = Bytes::copy_of(alloc, one.name.as_slice())?;
            Ok(constant(SimpleType::Enum(*number), Literal::Enum(word)))
        }
        Meant::Variable { .. } => {
            let number = env.scripts.names.number_among(Kind::Variable, one)?;
            global_value(alloc, env.globals, number)
        }
        Meant::KnownType { .. }
        | Meant::WrittenType { .. }
        | Meant::Event { .. }
        | Meant::Hook { .. }
        | Meant::Function { .. }
        | Meant::BuiltInFunction { .. }
        | Meant::Log { .. } => Err(Refusal::Broken(one_broken(alloc, Rule::WrongType, place)?)),
    }
}

/// The value of a name.
pub fn name_typed(alloc: Global, env: &Env<'_>, name: &Name) -> Result<Typed, Refusal>
    ensures { Tells typed_of result (spec.name_typed (env_of env.now) name.now) }
{
    match local_meant(alloc, env.locals, name.text.as_slice())? {
        Some((number, local)) => local_value(alloc, number, &local.value_type),
        None => {
            let found = env
                .scripts
                .names
                .look_up(alloc, env.home.module_name, name.text.as_slice())?;
            declared_value(alloc, env, env.at(name.place), found)
        }
    }
}
