ghost use Rattle.std.specs.Prelude.{◌≡◌, None as Nothing, IfOk, map};
ghost use Rattle.std.specs.Option.{option_map};
ghost use Rattle.zk_tree.specs.declared.place.Place.{Place as At};
ghost use Rattle.zk_tree.specs.Value.{Value as PlainValue};
ghost use Rattle.zk_typed.specs.Does.{Does};
ghost use Rattle.zk_typed.specs.Objects as meant;
ghost use Rattle.zk_value.specs.Plain.{value_of, key_of, field_of};
ghost use Rattle.zk_table.specs.Pairs.{pair_of};
ghost use Rattle.zk_machine.specs.Comes.{Comes};
ghost use Rattle.zk_machine.specs.Copied.{Splits, parts_copied, pairs_copied, read_copied};
ghost use Rattle.zk_machine.specs.State.{state_of};

use crate::halt::Halt;
use crate::objects::UNFIT;
use crate::state::{State, handles};
use crate::tables::default_named;
use std::alloc::Global;
use zk_base::{Mem, ObjectNo, RecordNo};
use zk_lower::default_copy;
use zk_table::{Lent, Pair, Table};
use zk_typed::script::DefaultValue;
use zk_value::Value;

/// So many objects within one another are copied; no type nests deeper than 200.
const DEPTH_MAX: u32 = 201;

/// What an object holds, as handles to it.
#[derive(Debug, Drop)]
pub enum Parts {
    Record {
        of: RecordNo,
        fields: Vec<Option<Value>>,
    },
    Vector(Vec<Value>),
    Table {
        pairs: Vec<Pair>,
        default: Option<DefaultValue>,
    },
}

/// Another handle to the value of a field, where it has one.
fn field_handle(field: &Option<Value>) -> Result<Option<Value>, Mem>
    ensures { IfOk result (λ copy. copy ≡ field.now) }
{
    match field {
        Some(value) => Ok(Some(value.clone()?)),
        None => Ok(None),
    }
}

/// Handles to the values of fields.
fn field_handles(alloc: Global, fields: &[Option<Value>]) -> Result<Vec<Option<Value>>, Mem>
    ensures { IfOk result (λ copy. copy.items ≡ fields.now) }
{
    let mut copy = Vec::with_capacity(alloc, fields.len())?;
    for field in fields {
        copy.push(field_handle(field)?)?;
    }
    Ok(copy)
}

/// A copy of the `&default` that a table may have.
fn default_if(alloc: Global, default: Option<&DefaultValue>) -> Result<Option<DefaultValue>, Mem>
    ensures { IfOk result (λ copy. copy ≡ option_map (λ default. default.now) default.entry) }
{
    match default {
        Some(default) => Ok(Some(default_copy(alloc, default)?)),
        None => Ok(None),
    }
}

impl State {
    /// What an object holds.
    fn parts(&self, number: ObjectNo) -> Result<Parts, Halt>
        ensures { (place : At) (copied : PlainValue → Does PlainValue) → Splits copied place result (read_copied copied place number (state_of self.now)) (state_of self.now) }
    {
        let alloc = self.world.alloc;
        match self.world.heap.object(number) {
            Some(lent) => match lent {
                Lent::Record { of, fields } => {
                    let fields = field_handles(alloc, fields)?;
                    Ok(Parts::Record { of, fields })
                }
                Lent::Vector(items) => {
                    let items = handles(alloc, items)?;
                    Ok(Parts::Vector(items))
                }
                Lent::Table(table) => {
                    let pairs = table.pairs()?;
                    let default = default_if(alloc, default_named(&self.world.defaults, number))?;
                    Ok(Parts::Table { pairs, default })
                }
            },
            None => Err(UNFIT),
        }
    }

    /// A copy of a value to so many objects within one another, of which each costs a unit.
    #[cycle(copied)]
    fn copied(&mut self, depth: u32, value: &Value) -> Result<Value, Halt>
        ensures { (place : At) → Comes value_of place result (meant.copied_to depth place (value_of value.now) (state_of self.old)) (state_of self.new) }
    {
        let Some(within) = depth.checked_sub(1) else {
            return Err(UNFIT);
        };
        let Value::Object(number) = value else {
            return Ok(value.clone()?);
        };
        self.tick()?;
        self.object_copied(within, *number)
    }

    /// A copy of an object.
    #[cycle(copied)]
    fn object_copied(&mut self, depth: u32, number: ObjectNo) -> Result<Value, Halt>
        ensures { (place : At) → Comes value_of place result (read_copied (meant.copied_to depth place) place number (state_of self.old)) (state_of self.new) }
    {
        match self.parts(number) {
            Ok(parts) => self.put_together(depth, parts),
            Err(halt) => Err(halt),
        }
    }

    /// A new object of copies of these parts.
    #[cycle(copied)]
    fn put_together(&mut self, depth: u32, parts: Parts) -> Result<Value, Halt>
        ensures { (place : At) → Comes value_of place result (parts_copied (meant.copied_to depth place) parts (state_of self.old)) (state_of self.new) }
    {
        match parts {
            Parts::Record { of, fields } => {
                let fields = self.fields_copied(depth, &fields)?;
                let number = self.world.heap.add_record(of, fields)?;
                Ok(Value::Object(number))
            }
            Parts::Vector(items) => {
                let items = self.values_copied(depth, &items)?;
                self.made_vector(items)
            }
            Parts::Table { pairs, default } => {
                let table = self.entries_copied(depth, &pairs)?;
                self.keep(table, &default)
            }
        }
    }

    /// Copies of values.
    #[cycle(copied)]
    fn values_copied(&mut self, depth: u32, values: &[Value]) -> Result<Vec<Value>, Halt>
        ensures { (place : At) → Comes (λ copies. key_of copies.items) place result (meant.each_copied (meant.copied_to depth place) (key_of values.now) (state_of self.old)) (state_of self.new) }
    {
        let mut copies = Vec::with_capacity(self.world.alloc, values.len())?;
        for value in values {
            let copy = self.copied(depth, value)?;
            copies.push(copy)?;
        }
        Ok(copies)
    }

    /// A copy of the value of a field, where it has one.
    #[cycle(copied)]
    fn field_copied(&mut self, depth: u32, field: &Option<Value>) -> Result<Option<Value>, Halt>
        ensures { (place : At) → Comes field_of place result (meant.field_copied (meant.copied_to depth place) (field_of field.now) (state_of self.old)) (state_of self.new) }
    {
        match field {
            Some(value) => {
                let copy = self.copied(depth, value)?;
                Ok(Some(copy))
            }
            None => Ok(None),
        }
    }

    /// Copies of the values of fields.
    #[cycle(copied)]
    fn fields_copied(
        &mut self,
        depth: u32,
        fields: &[Option<Value>],
    ) -> Result<Vec<Option<Value>>, Halt>
        ensures { (place : At) → Comes (λ copies. map field_of copies.items) place result (meant.fields_copied (meant.copied_to depth place) (map field_of fields.now) (state_of self.old)) (state_of self.new) }
    {
        let mut copies = Vec::with_capacity(self.world.alloc, fields.len())?;
        for field in fields {
            let copy = self.field_copied(depth, field)?;
            copies.push(copy)?;
        }
        Ok(copies)
    }

    /// A table of copies of these entries, without an expiry.
    #[cycle(copied)]
    fn entries_copied(&mut self, depth: u32, pairs: &[Pair]) -> Result<Table, Halt>
        ensures { (place : At) → Comes (λ table. table) place result (pairs_copied (meant.copied_to depth place) (meant.empty_table Nothing) (map pair_of pairs.now) (state_of self.old)) (state_of self.new) }
    {
        let mut table = Table::new(self.world.alloc, None);
        for pair in pairs {
            let value = self.copied(depth, &pair.value)?;
            table.insert(self.world.time, pair.key.clone()?, value)?;
        }
        Ok(table)
    }

    /// `copy(x)` (Zeek manual, Built-in functions, copy).
    pub fn copy(&mut self, value: &Value) -> Result<Value, Halt>
        ensures { (place : At) → Comes value_of place result (meant.copy place (value_of value.now) (state_of self.old)) (state_of self.new) }
    {
        self.copied(DEPTH_MAX, value)
    }
}
