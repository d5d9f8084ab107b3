ghost use Rattle.std.specs.Prelude.{◌≡◌, None, [], ◌∷◌, ◌++◌, length, map, Some, IfOk, IfSome, OnOk, OnErr, slice_get};
ghost use Rattle.std.specs.Option.{option_map};
ghost use Rattle.zk_tree.specs.Store as object;
ghost use Rattle.zk_value.specs.Plain.{value_of, key_of, field_of};
ghost use Rattle.zk_value.specs.Objects.{field_at, item_at, change_object, with_field, with_item, with_item_behind, table_place};

use crate::object::Object;
use crate::value::Value;
use std::alloc::Global;
use std::marker::Model;
use zk_base::{Mem, ObjectNo, RecordNo};

/// The records and vectors that scripts make, by their object numbers. Sets and tables have numbers
/// among these, but stand elsewhere: the store tells where each stands among the tables. Nothing is
/// given back before the store is.
///
/// Contracts see a list with the object of each number, and none for a set or a table.
#[derive(Debug, Drop)]
pub struct Store {
    slots: Vec<Slot>,
    tables: usize,
}

/// What stands at an object number.
#[derive(Debug, Drop)]
enum Slot {
    Record {
        of: RecordNo,
        fields: Vec<Option<Value>>,
    },
    Vector(Vec<Value>),
    /// A set or a table, by its place among the sets and tables.
    Table(usize),
}

impl Model for Store {
    ghost use Rattle.std.specs.Prelude.{List, Option};
    ghost use Rattle.zk_tree.specs.Store.{Object as Plain};

    ghost Value = { List (Option Plain) };

    ghost use Rattle.zk_value.specs.Slots.{objects_of, PlacesFrom};

    ghost view = { λ store. objects_of store.slots.items };

    ghost invariant = { λ store. PlacesFrom 0 store.slots.items store.tables };
}

impl Slot {
    ghost use Rattle.zk_value.specs.Slots.{object_of, place_of};
    ghost use Rattle.zk_value.specs.Lent.{object_in, place_in};

    /// What stands there, lent.
    fn object(&self) -> Object<'_>
        ensures object { object_in result ≡ object_of self.now }
        ensures place { place_in result ≡ place_of self.now }
    {
        match self {
            Slot::Record { of, fields } => Object::Record {
                of: *of,
                fields: fields.as_slice(),
            },
            Slot::Vector(items) => Object::Vector(items.as_slice()),
            Slot::Table(place) => Object::Table(*place),
        }
    }

    /// Sets a field of a record. What is no record, or has no such field, stays as it is.
    fn set_field(&mut self, field: usize, value: Option<Value>)
        ensures object { object_of self.new ≡ option_map (with_field field (field_of value)) (object_of self.old) }
        ensures place { place_of self.new ≡ place_of self.old }
    {
        if let Slot::Record { fields, .. } = self {
            if field < fields.len() {
                fields[field] = value;
            }
        }
    }

    /// Sets an item of a vector. What is no vector, or has no such item, stays as it is.
    fn set_item(&mut self, index: usize, item: Value)
        ensures object { object_of self.new ≡ option_map (with_item index (value_of item)) (object_of self.old) }
        ensures place { place_of self.new ≡ place_of self.old }
    {
        if let Slot::Vector(items) = self {
            if index < items.len() {
                items[index] = item;
            }
        }
    }

    /// Adds an item to a vector. What is no vector stays as it is, and so does all at `Mem`.
    fn push_item(&mut self, item: Value) -> Result<(), Mem>
        ensures ok { OnOk result (object_of self.new ≡ option_map (with_item_behind (value_of item)) (object_of self.old)) }
        ensures err { OnErr result (object_of self.new ≡ object_of self.old) }
        ensures place { place_of self.new ≡ place_of self.old }
    {
        if let Slot::Vector(items) = self {
            items.push(item)?;
        }
        Ok(())
    }
}

impl Store {
    ghost use Rattle.zk_value.specs.Lent.{object_in, place_in};

    /// A store without objects. No memory is taken.
    pub fn new(alloc: Global) -> Store
        ensures { result ≡ [] }
    {
        Store {
            slots: Vec::new(alloc),
            tables: 0,
        }
    }

    /// How many objects there are, sets and tables among them. It is the next object's number.
    pub fn len(&self) -> usize
        ensures { result ≡ length self.now }
    {
        self.slots.len()
    }

    /// The object of a number, lent. None where no object has it. A set or a table is its place among
    /// the sets and tables, in the order of their numbers, from 0.
    pub fn object(&self, number: ObjectNo) -> Option<Object<'_>>
        ensures object { option_map object_in result ≡ slice_get self.now number.0 }
        ensures place { IfSome result (λ one. place_in one ≡ table_place self.now number.0) }
    {
        let slot = self.slots.get(number.0 as usize)?;
        Some(slot.object())
    }

    /// The value of a field of a record, lent. None where there is no such record or field, or the
    /// field has no value.
    pub fn field(&self, number: ObjectNo, field: usize) -> Option<&Value>
        ensures { option_map (λ value. value_of value.now) result ≡ field_at self.now number.0 field }
    {
        match self.object(number)? {
            Object::Record { fields, .. } => fields.get(field)?.as_ref(),
            Object::Vector(_) | Object::Table(_) => None,
        }
    }

    /// An item of a vector, lent. None where there is no such vector or item.
    pub fn item(&self, number: ObjectNo, index: usize) -> Option<&Value>
        ensures { option_map (λ value. value_of value.now) result ≡ item_at self.now number.0 index }
    {
        match self.object(number)? {
            Object::Vector(items) => items.get(index),
            Object::Record { .. } | Object::Table(_) => None,
        }
    }

    /// Makes a record of a type, given the value of each field that has one. It gets the next number.
    /// At `Mem` nothing is changed.
    pub fn add_record(&mut self, of: RecordNo, fields: Vec<Option<Value>>) -> Result<ObjectNo, Mem>
        ensures number { IfOk result (λ number. number.0 ≡ length self.old) }
        ensures ok { OnOk result (self.new ≡ self.old ++ Some (object.Record of (map field_of fields.items)) ∷ []) }
        ensures err { OnErr result (self.new ≡ self.old) }
    {
        let number = ObjectNo(self.slots.len() as u64);
        self.slots.push(Slot::Record { of, fields })?;
        Ok(number)
    }

    /// Makes a vector of these items. It gets the next number. At `Mem` nothing is changed.
    pub fn add_vector(&mut self, items: Vec<Value>) -> Result<ObjectNo, Mem>
        ensures number { IfOk result (λ number. number.0 ≡ length self.old) }
        ensures ok { OnOk result (self.new ≡ self.old ++ Some (object.Vector (key_of items.items)) ∷ []) }
        ensures err { OnErr result (self.new ≡ self.old) }
    {
        let number = ObjectNo(self.slots.len() as u64);
        self.slots.push(Slot::Vector(items))?;
        Ok(number)
    }

    /// Gives the next number to a set or a table, which stands last among these. At `Mem` nothing is
    /// changed.
    pub fn add_table(&mut self) -> Result<ObjectNo, Mem>
        ensures number { IfOk result (λ number. number.0 ≡ length self.old) }
        ensures ok { OnOk result (self.new ≡ self.old ++ None ∷ []) }
        ensures err { OnErr result (self.new ≡ self.old) }
    {
        let number = ObjectNo(self.slots.len() as u64);
        self.slots.push(Slot::Table(self.tables))?;
        self.tables += 1;
        Ok(number)
    }

    /// Gives a field of a record a value, or takes its value away. Nothing is changed where there is no
    /// such record or field. No memory is taken.
    pub fn set_field(&mut self, number: ObjectNo, field: usize, value: Option<Value>)
        ensures { self.new ≡ change_object (with_field field (field_of value)) number.0 self.old }
    {
        let place = number.0 as usize;
        if place < self.slots.len() {
            self.slots[place].set_field(field, value);
        }
    }

    /// Gives an item of a vector another value. Nothing is changed where there is no such vector or
    /// item. No memory is taken.
    pub fn set_item(&mut self, number: ObjectNo, index: usize, item: Value)
        ensures { self.new ≡ change_object (with_item index (value_of item)) number.0 self.old }
    {
        let place = number.0 as usize;
        if place < self.slots.len() {
            self.slots[place].set_item(index, item);
        }
    }

    /// Adds an item to a vector. Nothing is changed where there is no such vector, and at `Mem`.
    pub fn push_item(&mut self, number: ObjectNo, item: Value) -> Result<(), Mem>
        ensures ok { OnOk result (self.new ≡ change_object (with_item_behind (value_of item)) number.0 self.old) }
        ensures err { OnErr result (self.new ≡ self.old) }
    {
        let place = number.0 as usize;
        if place < self.slots.len() {
            return self.slots[place].push_item(item);
        }
        Ok(())
    }
}
