ghost use Rattle.std.specs.Prelude.{◌≡◌, ◌++◌, ◌∷◌, ◌≤◌, ℕ, [], is_none, length, map, true, IfOk, OnOk, OnErr, slice_get, IfSome, IfNone, None as Nothing};
ghost use Rattle.std.specs.Option.{option_map};
ghost use Rattle.zk_tree.specs.Store as object;
ghost use Rattle.zk_tree.specs.Table as plain;
ghost use Rattle.zk_value.specs.Objects.{with_field, with_item, with_item_behind};
ghost use Rattle.zk_value.specs.Plain.{value_of, key_of, field_of};
ghost use Rattle.zk_table.specs.Dues.{due_at, is_watched, table_at, IsFirst, NoneIsFirst, StaysWatchedBut};
ghost use Rattle.zk_table.specs.Heap.{changed, in_table};

use crate::index::{Turn, below, make_room, reorder};
use crate::objects::{Lent, Objects};
use crate::table::Table;
use crate::watched::{Watched, make_mark, mark};
use std::alloc::Global;
use std::marker::Model;
use zk_base::{Mem, Moment, ObjectNo, RecordNo, Span};
use zk_value::{Key, Value};

/// All objects that scripts make, by their numbers: records, vectors, sets and tables, and the first of
/// the tables that is due of those that are watched, found at once. Nothing is given back before the heap is.
/// Contracts see the list of the objects, and which tables are unwatched.
#[derive(Debug, Drop)]
pub struct Heap {
    watched: Watched,
    /// The index of dues: for each number, up to that of the last table with an expiry, the first due of
    /// its table, where that is watched, and of those below it.
    firsts: Vec<Option<Turn>>,
}

impl Model for Heap {
    ghost use Rattle.zk_table.specs.Dues.{Held, IsIndexed};

    ghost Value = { Held };

    ghost view = { λ heap. record { objects = heap.watched.objects; unwatched = heap.watched.unwatched.items } };

    ghost invariant = { λ heap. IsIndexed heap.watched.objects heap.watched.unwatched.items heap.firsts.items };
}

impl Heap {
    ghost use Rattle.zk_table.specs.Lent.{object_of};

    /// A heap without objects. No memory is taken.
    pub fn new(alloc: Global) -> Heap
        ensures objects { result.objects ≡ [] }
        ensures unwatched { result.unwatched ≡ [] }
    {
        Heap {
            watched: Watched {
                objects: Objects::new(alloc),
                unwatched: Vec::new(alloc),
            },
            firsts: Vec::new(alloc),
        }
    }

    /// How many objects there are. It is the next object's number.
    pub fn len(&self) -> usize
        ensures { result ≡ length self.now.objects }
    {
        self.watched.objects.len()
    }

    /// The object of a number, lent. None where no object has it.
    pub fn object(&self, number: ObjectNo) -> Option<Lent<'_>>
        ensures { option_map object_of result ≡ slice_get self.now.objects number.0 }
    {
        self.watched.objects.object(number)
    }

    /// Of the tables that are watched the one whose first entry is due before those of all others, and when:
    /// of tables that are due at the same moment it is the one of the lowest number. None where no entry of
    /// them has a due.
    pub fn first_due(&self) -> Option<(Moment, ObjectNo)>
        ensures some { IfSome result (λ first. IsFirst self.now first.0 first.1.0) }
        ensures none { IfNone result (NoneIsFirst self.now) }
    {
        match below(&self.firsts, 0) {
            Some((at, number)) => Some((at, ObjectNo(number))),
            None => None,
        }
    }

    /// What is above the number of each table whose entries expire.
    pub fn expiring_end(&self) -> ObjectNo
        ensures dues { (number : ℕ) → result.0 ≤ number → due_at self.now.objects number ≡ Nothing }
        ensures expiry { (number : ℕ) (table : plain.Table) → result.0 ≤ number → table_at self.now.objects number ≡ Some table → table.expiry ≡ Nothing }
    {
        ObjectNo(self.firsts.len() as u64)
    }

    /// Watches the table of a number from now on, if one has it. No memory is taken.
    pub fn watch(&mut self, number: ObjectNo)
        ensures objects { self.new.objects ≡ self.old.objects }
        ensures watched { is_watched self.new.unwatched number.0 ≡ true }
        ensures others { StaysWatchedBut number.0 self.old.unwatched self.new.unwatched }
    {
        mark(&mut self.watched.unwatched, number.0 as usize, false);
        reorder(&self.watched, &mut self.firsts, number.0 as usize);
    }

    /// Makes a record of a type, given the value of each field that has one. It gets the next number.
    /// At `Mem` nothing is changed.
    pub fn add_record(&mut self, of: RecordNo, fields: Vec<Option<Value>>) -> Result<ObjectNo, Mem>
        ensures number { IfOk result (λ number. number.0 ≡ length self.old.objects) }
        ensures ok { OnOk result (self.new.objects ≡ self.old.objects ++ object.Record of (map field_of fields.items) ∷ []) }
        ensures err { OnErr result (self.new.objects ≡ self.old.objects) }
        ensures unwatched { self.new.unwatched ≡ self.old.unwatched }
    {
        self.watched.objects.add_record(of, fields)
    }

    /// Makes a vector of these items. It gets the next number. At `Mem` nothing is changed.
    pub fn add_vector(&mut self, items: Vec<Value>) -> Result<ObjectNo, Mem>
        ensures number { IfOk result (λ number. number.0 ≡ length self.old.objects) }
        ensures ok { OnOk result (self.new.objects ≡ self.old.objects ++ object.Vector (key_of items.items) ∷ []) }
        ensures err { OnErr result (self.new.objects ≡ self.old.objects) }
        ensures unwatched { self.new.unwatched ≡ self.old.unwatched }
    {
        self.watched.objects.add_vector(items)
    }

    /// Makes an object of a set or a table, which is watched. It gets the next number. At `Mem` nothing is changed.
    pub fn add_table(&mut self, table: Table) -> Result<ObjectNo, Mem>
        ensures number { IfOk result (λ number. number.0 ≡ length self.old.objects) }
        ensures ok { OnOk result (self.new.objects ≡ self.old.objects ++ object.Table table ∷ []) }
        ensures err { OnErr result (self.new.objects ≡ self.old.objects) }
        ensures unwatched { self.new.unwatched ≡ self.old.unwatched }
    {
        let expires = table.expiry().is_some();
        make_room(&mut self.firsts, self.watched.objects.len(), expires)?;
        let number = self.watched.objects.add_table(table)?;
        reorder(&self.watched, &mut self.firsts, number.0 as usize);
        Ok(number)
    }

    /// Makes an object of a set or a table that is unwatched, if its entries expire. It gets the next number.
    /// At `Mem` the objects are as they were.
    pub fn add_unwatched(&mut self, table: Table) -> Result<ObjectNo, Mem>
        ensures number { IfOk result (λ number. number.0 ≡ length self.old.objects) }
        ensures ok { OnOk result (self.new.objects ≡ self.old.objects ++ object.Table table ∷ []) }
        ensures err { OnErr result (self.new.objects ≡ self.old.objects) }
        ensures others { StaysWatchedBut (length self.old.objects) self.old.unwatched self.new.unwatched }
        ensures unwatched { OnOk result (is_watched self.new.unwatched (length self.old.objects) ≡ is_none table.expiry) }
        ensures stays { OnErr result ((number : ℕ) → is_watched self.new.unwatched number ≡ is_watched self.old.unwatched number) }
    {
        let expires = table.expiry().is_some();
        let place = self.watched.objects.len();
        make_room(&mut self.firsts, place, expires)?;
        make_mark(&mut self.watched.unwatched, place, expires)?;
        let number = self.watched.objects.add_table(table)?;
        mark(&mut self.watched.unwatched, place, expires);
        reorder(&self.watched, &mut self.firsts, place);
        Ok(number)
    }

    /// Gives a field of a record a value, or takes its value away. Nothing is changed where there is no
    /// such record or field. No memory is taken.
    pub fn set_field(&mut self, number: ObjectNo, field: usize, value: Option<Value>)
        ensures objects { self.new.objects ≡ changed (with_field field (field_of value)) number.0 self.old.objects }
        ensures unwatched { self.new.unwatched ≡ self.old.unwatched }
    {
        self.watched.objects.set_field(number, field, value);
    }

    /// Gives an item of a vector another value. Nothing is changed where there is no such vector or
    /// item. No memory is taken.
    pub fn set_item(&mut self, number: ObjectNo, index: usize, item: Value)
        ensures objects { self.new.objects ≡ changed (with_item index (value_of item)) number.0 self.old.objects }
        ensures unwatched { self.new.unwatched ≡ self.old.unwatched }
    {
        self.watched.objects.set_item(number, index, item);
    }

    /// Adds an item to a vector. Nothing is changed where there is no such vector, and at `Mem`.
    pub fn push_item(&mut self, number: ObjectNo, item: Value) -> Result<(), Mem>
        ensures ok { OnOk result (self.new.objects ≡ changed (with_item_behind (value_of item)) number.0 self.old.objects) }
        ensures err { OnErr result (self.new.objects ≡ self.old.objects) }
        ensures unwatched { self.new.unwatched ≡ self.old.unwatched }
    {
        self.watched.objects.push_item(number, item)
    }

    /// Assigns a value to a key of a set or a table. Nothing is changed where there is no such set or
    /// table, and at `Mem`.
    pub fn insert(
        &mut self,
        number: ObjectNo,
        now: Moment,
        key: Key,
        value: Value,
    ) -> Result<(), Mem>
        ensures ok { OnOk result (self.new.objects ≡ changed (in_table (plain.insert now (key_of key) (value_of value))) number.0 self.old.objects) }
        ensures err { OnErr result (self.new.objects ≡ self.old.objects) }
        ensures unwatched { self.new.unwatched ≡ self.old.unwatched }
    {
        self.watched.objects.insert(number, now, key, value)?;
        reorder(&self.watched, &mut self.firsts, number.0 as usize);
        Ok(())
    }

    /// Takes a key's entry away from a set or a table, where it is there.
    pub fn remove(&mut self, number: ObjectNo, key: &Key)
        ensures objects { self.new.objects ≡ changed (in_table (plain.remove (key_of key.now))) number.0 self.old.objects }
        ensures unwatched { self.new.unwatched ≡ self.old.unwatched }
    {
        self.watched.objects.remove(number, key);
        reorder(&self.watched, &mut self.firsts, number.0 as usize);
    }

    /// Makes the entry of a key of a set or a table one of this moment, where it is there.
    pub fn renew(&mut self, number: ObjectNo, now: Moment, key: &Key)
        ensures objects { self.new.objects ≡ changed (in_table (plain.renew now (key_of key.now))) number.0 self.old.objects }
        ensures unwatched { self.new.unwatched ≡ self.old.unwatched }
    {
        self.watched.objects.renew(number, now, key);
        reorder(&self.watched, &mut self.firsts, number.0 as usize);
    }

    /// Where the wait is above 0, makes the entry of an order number of a table due so long after its
    /// moment, if it has a due; else takes the entry away.
    pub fn expire(&mut self, number: ObjectNo, order: u64, wait: Span)
        ensures objects { self.new.objects ≡ changed (in_table (plain.expire order wait)) number.0 self.old.objects }
        ensures unwatched { self.new.unwatched ≡ self.old.unwatched }
    {
        self.watched.objects.expire(number, order, wait);
        reorder(&self.watched, &mut self.firsts, number.0 as usize);
    }
}
