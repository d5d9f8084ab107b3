ghost use Rattle.std.specs.Prelude.{◌≡◌, ◌++◌, ◌∷◌, ◌≤◌, ◌^◌, [], length, IfOk, OnOk, OnErr};
ghost use Rattle.std.specs.Option.{option_map};
ghost use Rattle.zk_check_expressions.specs.Envs.{locals_of};
ghost use Rattle.zk_check_expressions.specs.Envs.{known_or};
ghost use Rattle.zk_typed.specs.Tells.{Tells};
ghost use Rattle.zk_typed.specs.View.{type_of};
ghost use Rattle.zk_typed.specs.Statements as spec;
ghost use Rattle.zk_check_statements.specs.Bodies.{context_of};
ghost use Rattle.zk_check_statements.specs.Turns.{GivesNumber, fitting_number, names_lent};

use crate::context::{Context, place_of};
use sqlite_items::Items;
use std::alloc::Global;
use zk_base::Mem;
use zk_check_expressions::{LocalName, Locals};
use zk_check_operators::same_type;
use zk_tree::{Keys, Name, Place};
use zk_typed::script::ValueType;
use zk_typed::{Refusal, Rule, one_broken};

/// A visible local that a `for` names, where its type fits.
fn fitting_local(
    alloc: Global,
    place: Place,
    number: u32,
    local: &Option<ValueType>,
    given: &Option<ValueType>,
) -> Result<u32, Refusal>
    ensures { Tells (λ made. made) result (fitting_number place number (known_or (option_map type_of local.now)) (known_or (option_map type_of given.now))) }
{
    let Some(local) = local else {
        return Err(Refusal::Broken(Items::new(alloc)));
    };
    let Some(given) = given else {
        return Err(Refusal::Broken(Items::new(alloc)));
    };
    if same_type(local, given) {
        Ok(number)
    } else {
        Err(Refusal::Broken(one_broken(alloc, Rule::WrongType, place)?))
    }
}

/// The number of the next local. More locals than numbers are more than memory holds.
pub fn next_local(locals: &Locals<'_>) -> Result<u32, Mem>
    ensures number { IfOk result (λ number. number ≡ length (locals_of locals.now)) }
    ensures err { OnErr result (2 ^ 32 ≤ length (locals_of locals.now)) }
{
    match u32::try_from(locals.len()) {
        Ok(number) => Ok(number),
        Err(_) => Err(Mem),
    }
}

/// A new local, by its number. More locals than numbers are more than memory holds.
pub fn new_local<'a>(
    alloc: Global,
    locals: &mut Locals<'a>,
    name: &'a [u8],
    value_type: Option<ValueType>,
) -> Result<u32, Mem>
    ensures number { IfOk result (λ number. number ≡ length locals.old) }
    ensures visible { OnOk result (locals_of locals.new ≡ locals_of locals.old ++ record { name = name.now; type = known_or (option_map type_of value_type) } ∷ []) }
{
    let number = next_local(locals)?;
    locals.add(alloc, LocalName { name, value_type })?;
    Ok(number)
}

/// A name of a `for`: a visible local or parameter, whose type must fit, or else a new local.
pub fn for_name<'a>(
    context: &Context<'a, '_>,
    locals: &mut Locals<'a>,
    name: &'a Name,
    given: Option<ValueType>,
) -> Result<u32, Refusal>
    ensures { GivesNumber result locals.new (spec.for_name (context_of context.now) (locals_of locals.old) name.now (known_or (option_map type_of given))) }
{
    let text = name.text.as_slice();
    let place = place_of(context, name.place);
    match locals.named(context.alloc, text)? {
        Some((number, local)) => {
            fitting_local(context.alloc, place, number, &local.value_type, &given)
        }
        None => Ok(new_local(context.alloc, locals, text, given)?),
    }
}

/// The names of the keys that a `for` gives.
fn key_names<'a>(alloc: Global, keys: &'a Keys) -> Result<Vec<&'a Name>, Mem>
    ensures { IfOk result (λ names. names_lent names.items ≡ spec.key_names keys.entry.now) }
{
    let mut all = Vec::new(alloc);
    match keys {
        Keys::One { name } => {
            all.push(name)?;
            Ok(all)
        }
        Keys::Several { names } => {
            for name in names.as_slice() {
                all.push(name)?;
            }
            Ok(all)
        }
    }
}

/// All names of a `for`: those of the keys, and that of the value where it has one.
pub fn wanted_names<'a>(
    alloc: Global,
    keys: &'a Keys,
    value: &'a Option<Name>,
) -> Result<Vec<&'a Name>, Mem>
    ensures { IfOk result (λ names. names_lent names.items ≡ spec.wanted_names keys.entry.now value.entry.now) }
{
    let mut all = key_names(alloc, keys)?;
    match value {
        Some(name) => {
            all.push(name)?;
            Ok(all)
        }
        None => Ok(all),
    }
}
