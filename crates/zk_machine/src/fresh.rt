ghost use Rattle.std.specs.Prelude.{◌≡◌, IfOk, Some, None as Nothing, map};
ghost use Rattle.std.specs.Option.{option_map};
ghost use Rattle.zk_lower.specs.Code.{types_in};
ghost use Rattle.zk_lower.specs.View.{code_of};
ghost use Rattle.zk_typed.specs.Columns.{record_fields};
ghost use Rattle.zk_typed.specs.Objects as meant;
ghost use Rattle.zk_typed.specs.State.{World as PlainWorld, with_store};
ghost use Rattle.zk_typed.specs.View.{field_of as plain_field};
ghost use Rattle.zk_value.specs.Plain.{value_of, field_of};
ghost use Rattle.zk_machine.specs.Made as plain;
ghost use Rattle.zk_machine.specs.Made.{given_of};

use crate::defaults::made;
use crate::halt::Halt;
use crate::make::fields_in;
use std::alloc::Global;
use zk_base::{Mem, ObjectNo, RecordNo};
use zk_lower::Code;
use zk_table::Heap;
use zk_typed::script::{DefaultValue, Field};
use zk_value::Value;

/// The value that is given to a field, lent.
fn given_at(number: usize, given: &[(u32, Value)]) -> Option<&Value>
    ensures { option_map (λ value. value_of value.now) result ≡ meant.given_at number (given_of given.now) }
{
    for one in given {
        if one.0 as usize == number {
            return Some(&one.1);
        }
    }
    None
}

/// What a field begins with that isn't given: nothing where its `&default` is at fault.
fn default_in(alloc: Global, heap: &mut Heap, default: &DefaultValue) -> Result<Option<Value>, Mem>
    ensures begins { IfOk result (λ value. (world : PlainWorld) → world.store ≡ heap.old.objects → plain.begins world Nothing (Some default.now) ≡ (field_of value, with_store heap.new.objects world)) }
    ensures unwatched { heap.new.unwatched ≡ heap.old.unwatched }
{
    match made(alloc, heap, default) {
        Ok(value) => Ok(Some(value)),
        Err(Halt::Fault(_)) => Ok(None),
        Err(Halt::Spent) => Ok(None),
        Err(Halt::NoMemory) => Err(Mem),
    }
}

/// What a field begins with.
fn begins(
    alloc: Global,
    heap: &mut Heap,
    given: Option<&Value>,
    default: &Option<DefaultValue>,
) -> Result<Option<Value>, Mem>
    ensures begins { IfOk result (λ value. (world : PlainWorld) → world.store ≡ heap.old.objects
        → plain.begins world (option_map (λ value. value_of value.now) given.entry) default.now ≡ (field_of value, with_store heap.new.objects world)) }
    ensures unwatched { heap.new.unwatched ≡ heap.old.unwatched }
{
    match given {
        Some(value) => Ok(Some(value.clone()?)),
        None => match default {
            Some(default) => default_in(alloc, heap, default),
            None => Ok(None),
        },
    }
}

/// What the fields of a record begin with, of which some are given.
fn fields_begin(
    alloc: Global,
    heap: &mut Heap,
    fields: &[Field],
    given: &[(u32, Value)],
) -> Result<Vec<Option<Value>>, Mem>
    ensures begins { IfOk result (λ values. (world : PlainWorld) → world.store ≡ heap.old.objects
        → plain.fields_begin (given_of given.now) 0 (map plain_field fields.now) world ≡ (map field_of values.items, with_store heap.new.objects world)) }
    ensures unwatched { heap.new.unwatched ≡ heap.old.unwatched }
{
    let mut values = Vec::with_capacity(alloc, fields.len())?;
    for (number, field) in fields.iter().enumerate() {
        let value = begins(alloc, heap, given_at(number, given), &field.begins)?;
        values.push(value)?;
    }
    Ok(values)
}

/// A record of a type, of which some fields are given.
pub fn fresh(
    alloc: Global,
    heap: &mut Heap,
    code: &Code,
    kind: RecordNo,
    given: &[(u32, Value)],
) -> Result<ObjectNo, Mem>
    ensures fresh { IfOk result (λ number. (world : PlainWorld) → world.store ≡ heap.old.objects
        → plain.fresh (types_in (code_of code.now)) kind (given_of given.now) world ≡ record { number = number; world = with_store heap.new.objects world }) }
    ensures unwatched { heap.new.unwatched ≡ heap.old.unwatched }
{
    let values = fields_begin(alloc, heap, fields_in(code, kind), given)?;
    heap.add_record(kind, values)
}
