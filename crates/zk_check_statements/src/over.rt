ghost use Rattle.std.specs.Prelude.{◌≡◌, ◌++◌, ◌∷◌, [], length, map, IfOk, Some};
ghost use Rattle.std.specs.Option.{option_map};
ghost use Rattle.zk_typed.specs.Statements as spec;
ghost use Rattle.zk_typed.specs.Types.{Simple};
ghost use Rattle.zk_typed.specs.View.{type_of};
ghost use Rattle.zk_check_operators.specs.Views.{typed_of};
ghost use Rattle.zk_typed.specs.Tells.{Tells};
ghost use Rattle.zk_check_statements.specs.Bodies.{context_of};
ghost use Rattle.zk_check_statements.specs.Over.{turn_of, types_in, types_of_names};

use crate::context::{Context, place_of};
use std::alloc::Global;
use zk_base::Mem;
use zk_check_operators::Typed;
use zk_tree::{Keys, Name, Place};
use zk_typed::script::{SimpleType, ValueType};
use zk_typed::{Refusal, Rule, copied_type, one_broken};

/// What a `for` gives at each turn: the types of the keys and of the value.
#[derive(Debug, Drop)]
pub struct Turn {
    pub keys: Vec<ValueType>,
    pub value: Option<ValueType>,
}

/// The types of keys.
fn key_types(alloc: Global, keys: &[SimpleType]) -> Result<Vec<ValueType>, Mem>
    ensures { IfOk result (λ types. map type_of types.items ≡ map Simple keys.now) }
{
    let mut types = Vec::new(alloc);
    for key in keys {
        types.push(ValueType::Simple(*key))?;
    }
    Ok(types)
}

/// What a `for` gives over an entry of a table or an item of a vector.
fn with_value(alloc: Global, keys: Vec<ValueType>, value: &ValueType) -> Result<Turn, Mem>
    ensures { IfOk result (λ turn. turn_of turn ≡ (map type_of keys.items, Some (type_of value.now))) }
{
    match copied_type(alloc, value) {
        Ok(value) => Ok(Turn {
            keys,
            value: Some(value),
        }),
        Err(_) => Err(Mem),
    }
}

/// What a `for` gives over a value of a type, where it can go over it.
pub fn for_types(alloc: Global, one: &ValueType) -> Result<Option<Turn>, Mem>
    ensures { IfOk result (λ turn. option_map turn_of turn ≡ spec.for_types (type_of one.now)) }
{
    match one {
        ValueType::Table { keys, value } => {
            let keys = key_types(alloc, keys.as_slice())?;
            Ok(Some(with_value(alloc, keys, value.get())?))
        }
        ValueType::Set { keys } => {
            let keys = key_types(alloc, keys.as_slice())?;
            Ok(Some(Turn { keys, value: None }))
        }
        ValueType::Vector { item } => {
            let keys = key_types(alloc, &[SimpleType::Count])?;
            Ok(Some(with_value(alloc, keys, item.get())?))
        }
        ValueType::Simple(_) | ValueType::Record(_) => Ok(None),
    }
}

/// How many names of keys a `for` has.
fn key_count(keys: &Keys) -> usize
    ensures { result ≡ length (spec.key_names keys.now) }
{
    match keys {
        Keys::One { .. } => 1,
        Keys::Several { names } => names.len(),
    }
}

/// One more type.
fn with_type(mut types: Vec<ValueType>, value: ValueType) -> Result<Vec<ValueType>, Mem>
    ensures { IfOk result (λ all. all.items ≡ types.items ++ value ∷ []) }
{
    types.push(value)?;
    Ok(types)
}

/// The types of the names of a `for` that goes over something.
fn named_types(
    context: &Context<'_, '_>,
    place: u64,
    keys: &Keys,
    named: &Option<Name>,
    turn: Turn,
) -> Result<Vec<ValueType>, Refusal>
    ensures many { IfOk result (λ types. length types.items ≡ length (spec.wanted_names keys.now named.now)) }
    ensures types { Tells types_in result (types_of_names (context_of context.now) place keys.now named.now (turn_of turn)) }
{
    let alloc = context.alloc;
    let Turn { keys: types, value } = turn;
    if types.len() != key_count(keys) {
        let place = place_of(context, place);
        return Err(Refusal::Broken(one_broken(alloc, Rule::WrongType, place)?));
    }
    match named {
        None => Ok(types),
        Some(name) => match value {
            Some(value) => Ok(with_type(types, value)?),
            None => {
                let place = place_of(context, name.place);
                Err(Refusal::Broken(one_broken(alloc, Rule::WrongType, place)?))
            }
        },
    }
}

/// The types of the names of a `for` over a value, whose expression stands at `over_place`.
pub fn for_over(
    context: &Context<'_, '_>,
    place: u64,
    over_place: Place,
    keys: &Keys,
    named: &Option<Name>,
    one: &Typed,
) -> Result<Vec<ValueType>, Refusal>
    ensures many { IfOk result (λ types. length types.items ≡ length (spec.wanted_names keys.now named.now)) }
    ensures types { Tells types_in result (spec.for_over (context_of context.now) place over_place keys.now named.now (typed_of one.now)) }
{
    match for_types(context.alloc, &one.value_type)? {
        Some(turn) => named_types(context, place, keys, named, turn),
        None => Err(Refusal::Broken(one_broken(context.alloc, Rule::WrongType, over_place)?)),
    }
}
