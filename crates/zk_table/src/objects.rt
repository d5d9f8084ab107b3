ghost use Rattle.std.specs.Prelude.{◌≡◌, ◌++◌, ◌∷◌, [], length, map, IfOk, OnOk, OnErr, slice_get, Some, IfSome, IfNone};
ghost use Rattle.std.specs.Option.{option_map};
ghost use Rattle.zk_tree.specs.Store as object;
ghost use Rattle.zk_tree.specs.Table as plain;
ghost use Rattle.zk_value.specs.Objects.{table_place, with_field, with_item, with_item_behind};
ghost use Rattle.zk_value.specs.Plain.{value_of, key_of, field_of};
ghost use Rattle.zk_table.specs.Dues.{due_at, due_of};
ghost use Rattle.zk_table.specs.Heap.{changed, in_table, HasNoTable};

use crate::index::Turn;
use crate::table::Table;
use std::alloc::Global;
use std::marker::Model;
use zk_base::{Mem, Moment, ObjectNo, RecordNo, Span};
use zk_value::{Key, Object, Store, Value};

/// The objects that scripts make, by their numbers: records, vectors, sets and tables. Contracts see the
/// list of the objects.
#[derive(Debug, Drop)]
pub struct Objects {
    /// The records and vectors, and the places of the sets and tables.
    store: Store,
    /// The sets and tables, in the order of their numbers.
    tables: Vec<Table>,
}

/// An object, lent.
#[derive(Clone, Copy, Debug)]
pub enum Lent<'a> {
    /// A record of a type: the value of each field, by the field's number, where it has one.
    Record {
        of: RecordNo,
        fields: &'a [Option<Value>],
    },
    /// The items of a vector.
    Vector(&'a [Value]),
    /// A set or a table.
    Table(&'a Table),
}

impl Model for Objects {
    ghost use Rattle.std.specs.Prelude.{◌≡◌, length};
    ghost use Rattle.zk_tree.specs.Store.{Store as Plain};
    ghost use Rattle.zk_value.specs.Objects.{tables_in, with_tables};

    ghost Value = { Plain };

    ghost view = { λ objects. with_tables objects.store objects.tables.items };

    ghost invariant = { λ objects. tables_in objects.store ≡ length objects.tables.items };
}

impl Objects {
    ghost use Rattle.zk_table.specs.Lent.{object_of};

    /// No objects. No memory is taken.
    pub fn new(alloc: Global) -> Objects
        ensures { result ≡ [] }
    {
        Objects {
            store: Store::new(alloc),
            tables: Vec::new(alloc),
        }
    }

    /// How many objects there are. It is the next object's number.
    pub fn len(&self) -> usize
        ensures { result ≡ length self.now }
    {
        self.store.len()
    }

    /// The object of a number, lent. None where no object has it.
    pub fn object(&self, number: ObjectNo) -> Option<Lent<'_>>
        ensures { option_map object_of result ≡ slice_get self.now number.0 }
    {
        match self.store.object(number) {
            Some(object) => match object {
                Object::Record { of, fields } => Some(Lent::Record { of, fields }),
                Object::Vector(items) => Some(Lent::Vector(items)),
                Object::Table(place) => match self.tables.get(place) {
                    Some(table) => Some(Lent::Table(table)),
                    None => None,
                },
            },
            None => None,
        }
    }

    /// When the first entry of the table of a number is due, with the number.
    pub fn turn(&self, place: usize) -> Option<Turn>
        ensures { result ≡ due_at self.now place }
    {
        let number = place as u64;
        match self.object(ObjectNo(number))? {
            Lent::Record { .. } => None,
            Lent::Vector(_) => None,
            Lent::Table(table) => turn_of(table, number),
        }
    }

    /// Makes a record of a type, given the value of each field that has one. It gets the next number.
    /// At `Mem` nothing is changed.
    pub fn add_record(&mut self, of: RecordNo, fields: Vec<Option<Value>>) -> Result<ObjectNo, Mem>
        ensures number { IfOk result (λ number. number.0 ≡ length self.old) }
        ensures ok { OnOk result (self.new ≡ self.old ++ object.Record of (map field_of fields.items) ∷ []) }
        ensures err { OnErr result (self.new ≡ self.old) }
    {
        self.store.add_record(of, fields)
    }

    /// Makes a vector of these items. It gets the next number. At `Mem` nothing is changed.
    pub fn add_vector(&mut self, items: Vec<Value>) -> Result<ObjectNo, Mem>
        ensures number { IfOk result (λ number. number.0 ≡ length self.old) }
        ensures ok { OnOk result (self.new ≡ self.old ++ object.Vector (key_of items.items) ∷ []) }
        ensures err { OnErr result (self.new ≡ self.old) }
    {
        self.store.add_vector(items)
    }

    /// Makes an object of a set or a table. It gets the next number. At `Mem` nothing is changed.
    pub fn add_table(&mut self, table: Table) -> Result<ObjectNo, Mem>
        ensures number { IfOk result (λ number. number.0 ≡ length self.old) }
        ensures ok { OnOk result (self.new ≡ self.old ++ object.Table table ∷ []) }
        ensures err { OnErr result (self.new ≡ self.old) }
    {
        self.tables.reserve(1)?;
        let number = self.store.add_table()?;
        let Ok(()) = self.tables.push(table) else {
            unreachable!()
        };
        Ok(number)
    }

    /// Gives a field of a record a value, or takes its value away. Nothing is changed where there is no
    /// such record or field. No memory is taken.
    pub fn set_field(&mut self, number: ObjectNo, field: usize, value: Option<Value>)
        ensures { self.new ≡ changed (with_field field (field_of value)) number.0 self.old }
    {
        self.store.set_field(number, field, value);
    }

    /// Gives an item of a vector another value. Nothing is changed where there is no such vector or
    /// item. No memory is taken.
    pub fn set_item(&mut self, number: ObjectNo, index: usize, item: Value)
        ensures { self.new ≡ changed (with_item index (value_of item)) number.0 self.old }
    {
        self.store.set_item(number, index, item);
    }

    /// Adds an item to a vector. Nothing is changed where there is no such vector, and at `Mem`.
    pub fn push_item(&mut self, number: ObjectNo, item: Value) -> Result<(), Mem>
        ensures ok { OnOk result (self.new ≡ changed (with_item_behind (value_of item)) number.0 self.old) }
        ensures err { OnErr result (self.new ≡ self.old) }
    {
        self.store.push_item(number, item)
    }

    /// Assigns a value to a key of a set or a table. Nothing is changed where there is no such set or
    /// table, and at `Mem`.
    pub fn insert(
        &mut self,
        number: ObjectNo,
        now: Moment,
        key: Key,
        value: Value,
    ) -> Result<(), Mem>
        ensures ok { OnOk result (self.new ≡ changed (in_table (plain.insert now (key_of key) (value_of value))) number.0 self.old) }
        ensures err { OnErr result (self.new ≡ self.old) }
    {
        match place(&self.store, number) {
            Some(place) => self.tables[place].insert(now, key, value),
            None => Ok(()),
        }
    }

    /// Takes a key's entry away from a set or a table, where it is there.
    pub fn remove(&mut self, number: ObjectNo, key: &Key)
        ensures { self.new ≡ changed (in_table (plain.remove (key_of key.now))) number.0 self.old }
    {
        if let Some(place) = place(&self.store, number) {
            let _ = self.tables[place].remove(key);
        }
    }

    /// Makes the entry of a key of a set or a table one of this moment, where it is there.
    pub fn renew(&mut self, number: ObjectNo, now: Moment, key: &Key)
        ensures { self.new ≡ changed (in_table (plain.renew now (key_of key.now))) number.0 self.old }
    {
        if let Some(place) = place(&self.store, number) {
            self.tables[place].renew(now, key);
        }
    }

    /// Where the wait is above 0, makes the entry of an order number of a table due so long after its
    /// moment, if it has a due; else takes the entry away.
    pub fn expire(&mut self, number: ObjectNo, order: u64, wait: Span)
        ensures { self.new ≡ changed (in_table (plain.expire order wait)) number.0 self.old }
    {
        if let Some(place) = place(&self.store, number) {
            let _ = self.tables[place].expire(order, wait);
        }
    }
}

/// When the first entry of a table of this number is due, with the number.
fn turn_of(table: &Table, number: u64) -> Option<Turn>
    ensures { result ≡ due_of number table.now }
{
    let (due, _) = table.due()?;
    Some((due, number))
}

/// The place of a set or a table among them.
fn place(store: &Store, number: ObjectNo) -> Option<usize>
    ensures found { IfSome result (λ place. table_place store.now number.0 ≡ Some place) }
    ensures none { IfNone result (HasNoTable store.now number.0) }
{
    match store.object(number) {
        Some(object) => match object {
            Object::Table(place) => Some(place),
            Object::Record { .. } => None,
            Object::Vector(_) => None,
        },
        None => None,
    }
}
