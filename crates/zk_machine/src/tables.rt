ghost use Rattle.std.specs.Prelude.{◌≡◌, ◌+◌, None as Nothing, Some, fold, map, slice_get, IfOk};
ghost use Rattle.std.specs.Option.{option_map};
ghost use Rattle.zk_tree.specs.declared.place.Place.{Place as At};
ghost use Rattle.zk_tree.specs.Store as object;
ghost use Rattle.zk_tree.specs.Table.{entry_at};
ghost use Rattle.zk_tree.specs.Value as plain;
ghost use Rattle.zk_typed.specs.Does as does;
ghost use Rattle.zk_typed.specs.Objects as meant;
ghost use Rattle.zk_value.specs.Plain.{value_of, key_of, field_of};
ghost use Rattle.zk_machine.specs.Comes.{Comes};
ghost use Rattle.zk_machine.specs.Finding.{find, or_default};
ghost use Rattle.zk_machine.specs.Found.{value_in};
ghost use Rattle.zk_machine.specs.State.{default_of, state_of, world_of};

use crate::defaults::made;
use crate::halt::Halt;
use crate::objects::UNFIT;
use crate::state::State;
use crate::table_defaults::{TableDefault, TableDefaults};
use std::alloc::Global;
use zk_base::{Mem, Moment, ObjectNo};
use zk_lower::default_copy;
use zk_table::{Expiry, Lent, Table};
use zk_typed::FaultKind;
use zk_typed::script::{DefaultValue, Shape};
use zk_value::{Key, Value};

/// Whether a key that is found renews its entry.
fn finds_renew(expiry: Option<Expiry>) -> bool
    ensures { result ≡ meant.finds_renew expiry }
{
    matches!(expiry, Some(Expiry::Read(_)))
}

/// The `&default` of a table, lent.
pub fn default_named(defaults: &TableDefaults, number: ObjectNo) -> Option<&DefaultValue>
    ensures { option_map (λ default. default.now) result ≡ meant.default_named number.0 (map default_of defaults.now) }
{
    match defaults.of(number) {
        Some(one) => Some(&one.default),
        None => None,
    }
}

impl State {
    /// A table or a set, lent.
    pub fn table(&self, number: ObjectNo) -> Result<&Table, Halt>
        ensures comes { (place : At) → Comes (λ table. table.now) place result (meant.table place (plain.Object number) (state_of self.now)) (state_of self.now) }
        ensures there { IfOk result (λ table. Some (object.Table table.now) ≡ slice_get (world_of self.now.world).store number.0) }
    {
        match self.world.heap.object(number) {
            Some(lent) => match lent {
                Lent::Record { .. } => Err(UNFIT),
                Lent::Vector(_) => Err(UNFIT),
                Lent::Table(table) => Ok(table),
            },
            None => Err(UNFIT),
        }
    }

    /// The keys of a table or a set, in the order of insertion.
    pub fn keys(&self, over: &Value) -> Result<Vec<Key>, Halt>
        ensures { (place : At) → Comes (λ keys. map key_of keys.items) place result (does.and_then (meant.table place (value_of over.now) (state_of self.now)) (λ start state. does.Gives (meant.keys_of start) state)) (state_of self.now) }
    {
        let Value::Object(number) = over else {
            return Err(UNFIT);
        };
        let table = self.table(*number)?;
        let keys = table.keys()?;
        Ok(keys)
    }

    /// The value of an entry, where it is there. The entry is not renewed.
    pub fn entry(&self, over: &Value, key: &Key) -> Result<Option<Value>, Halt>
        ensures { (place : At) → Comes field_of place result (does.and_then (meant.table place (value_of over.now) (state_of self.now)) (λ start state. does.Gives (value_in (entry_at (key_of key.now) start.entries)) state)) (state_of self.now) }
    {
        let Value::Object(number) = over else {
            return Err(UNFIT);
        };
        let table = self.table(*number)?;
        let value = value_at(table, key)?;
        Ok(value)
    }

    /// The value of a key, where it is there, which `&read_expire` renews.
    fn find(&mut self, number: ObjectNo, key: &Key) -> Result<Option<Value>, Halt>
        ensures { (place : At) → Comes field_of place result (find place (plain.Object number) (key_of key.now) (state_of self.old)) (state_of self.new) }
    {
        let table = self.table(number)?;
        let value = value_at(table, key)?;
        if !finds_renew(table.expiry()) {
            return Ok(value);
        }
        self.world.heap.renew(number, self.world.time, key);
        Ok(value)
    }

    /// What stands for a key that is not there: the table's `&default` (Zeek manual, Attributes, &default).
    fn absent(&mut self, number: ObjectNo) -> Result<Value, Halt>
        ensures { (place : At) → Comes value_of place result (or_default place (plain.Object number) Nothing (state_of self.old)) (state_of self.new) }
    {
        let world = &mut self.world;
        match default_named(&world.defaults, number) {
            Some(default) => made(world.alloc, &mut world.heap, default),
            None => Err(Halt::Fault(FaultKind::NoIndex)),
        }
    }

    /// `t[k]` (Zeek manual, Types, table).
    pub fn element(&mut self, table: &Value, key: &[Value]) -> Result<Value, Halt>
        ensures { (place : At) → Comes value_of place result (meant.element place (value_of table.now) (key_of key.now) (state_of self.old)) (state_of self.new) }
    {
        let Value::Object(number) = table else {
            return Err(UNFIT);
        };
        let key = Key::copy_of(self.world.alloc, key)?;
        self.element_at(*number, &key)
    }

    /// The value at a key of a table.
    pub fn element_at(&mut self, number: ObjectNo, key: &Key) -> Result<Value, Halt>
        ensures { (place : At) → Comes value_of place result (meant.element place (plain.Object number) (key_of key.now) (state_of self.old)) (state_of self.new) }
    {
        match self.find(number, key)? {
            Some(value) => Ok(value),
            None => self.absent(number),
        }
    }

    /// `k in t` (Zeek manual, Operators, in).
    pub fn has_key(&mut self, table: &Value, key: &[Value]) -> Result<Value, Halt>
        ensures { (place : At) → Comes value_of place result (meant.has_key place (value_of table.now) (key_of key.now) (state_of self.old)) (state_of self.new) }
    {
        let Value::Object(number) = table else {
            return Err(UNFIT);
        };
        let key = Key::copy_of(self.world.alloc, key)?;
        let there = self.is_there(*number, &key)?;
        Ok(Value::Bool(there))
    }

    /// Whether a table or a set has an entry at a key.
    pub fn is_there(&mut self, number: ObjectNo, key: &Key) -> Result<bool, Halt>
        ensures { (place : At) → Comes plain.Bool place result (meant.has_key place (plain.Object number) (key_of key.now) (state_of self.old)) (state_of self.new) }
    {
        let value = self.find(number, key)?;
        Ok(value.is_some())
    }

    /// Makes an object of a set or a table, which keeps its `&default`.
    pub fn keep(&mut self, table: Table, default: &Option<DefaultValue>) -> Result<Value, Halt>
        ensures { (place : At) → Comes value_of place result (does.and_then (does.new_object (object.Table table) (state_of self.old)) (meant.keep_default default.now)) (state_of self.new) }
    {
        let number = self.world.add_table(table)?;
        match default {
            Some(default) => self.keep_default(number, default),
            None => Ok(Value::Object(number)),
        }
    }

    /// Notes the `&default` of a table.
    fn keep_default(&mut self, number: ObjectNo, default: &DefaultValue) -> Result<Value, Halt>
        ensures { (place : At) → Comes value_of place result (meant.keep_default (Some default.now) (plain.Object number) (state_of self.old)) (state_of self.new) }
    {
        let default = default_copy(self.world.alloc, default)?;
        self.world.defaults.push(TableDefault {
            object: number,
            default,
        })?;
        Ok(Value::Object(number))
    }

    /// `set(x, ..)` (Zeek manual, Types, set).
    pub fn new_set(&mut self, shape: &Shape, values: &[Value]) -> Result<Value, Halt>
        ensures { (place : At) → Comes value_of place result (meant.new_set shape.now (key_of values.now) (state_of self.old)) (state_of self.new) }
    {
        let set = set_of(self.world.alloc, self.world.time, shape, values)?;
        self.keep(set, &shape.default)
    }

    /// `table([k] = x, ..)` (Zeek manual, Types, table).
    pub fn new_table(&mut self, shape: &Shape, values: &[Value]) -> Result<Value, Halt>
        ensures { (place : At) → Comes value_of place result (meant.new_table shape.now (key_of values.now) (state_of self.old)) (state_of self.new) }
    {
        let table = table_of(self.world.alloc, self.world.time, shape, values)?;
        self.keep(table, &shape.default)
    }
}

/// The value of a key, where it is there.
fn value_at(table: &Table, key: &Key) -> Result<Option<Value>, Mem>
    ensures { IfOk result (λ value. field_of value ≡ value_in (entry_at (key_of key.now) table.now.entries)) }
{
    match table.get(key) {
        Some(value) => Ok(Some(value.clone()?)),
        None => Ok(None),
    }
}

/// A set of these members, one after another.
fn set_of(alloc: Global, now: Moment, shape: &Shape, values: &[Value]) -> Result<Table, Mem>
    ensures { IfOk result (λ set. set ≡ fold (meant.add_member now) (meant.empty_table shape.now.expiry) (meant.groups shape.now.keys (key_of values.now))) }
{
    let mut set = Table::new(alloc, shape.expiry);
    let size = shape.keys as usize;
    let mut rest = values;
    'members: while size > 0 && size <= rest.len() {
        let (key, others) = rest.split_at(size);
        set.insert(now, Key::copy_of(alloc, key)?, Value::Bool(true))?;
        rest = others;
    }
    Ok(set)
}

/// A table of these entries, one after another: of each its key, and then its value.
fn table_of(alloc: Global, now: Moment, shape: &Shape, values: &[Value]) -> Result<Table, Mem>
    ensures { IfOk result (λ table. table ≡ fold (meant.with_pair shape.now.keys now) (meant.empty_table shape.now.expiry) (meant.groups (shape.now.keys + 1) (key_of values.now))) }
{
    let mut table = Table::new(alloc, shape.expiry);
    let size = shape.keys as usize;
    let mut rest = values;
    'entries: while size < rest.len() {
        let (key, behind) = rest.split_at(size);
        let value = behind[0].clone()?;
        table.insert(now, Key::copy_of(alloc, key)?, value)?;
        rest = &behind[1..];
    }
    Ok(table)
}
