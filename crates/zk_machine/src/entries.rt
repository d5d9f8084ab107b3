ghost use Rattle.std.specs.Prelude.{◌≡◌, ◌∷◌, IfOk, slice_get};
ghost use Rattle.std.specs.Option.{option_map};
ghost use Rattle.zk_tree.specs.Value as plain;
ghost use Rattle.zk_typed.specs.Does.{named};
ghost use Rattle.zk_value.specs.Plain.{key_of};
ghost use Rattle.zk_machine.specs.Entries.{object_named, table_at, turn_in, entry_in, entry_of};
ghost use Rattle.zk_machine.specs.State.{world_of};

use crate::world::World;
use std::alloc::Global;
use zk_base::{Mem, Moment, ObjectNo};
use zk_table::{Lent, Table};
use zk_value::{Key, Value};

/// An entry of a table.
#[derive(Debug, Drop)]
pub struct Entry {
    /// The table's object.
    pub table: ObjectNo,
    pub key: Key,
}

impl Entry {
    /// What an expiry function is given: the table, and the values of the key.
    pub fn values(&self, alloc: Global) -> Result<Vec<Value>, Mem>
        ensures { IfOk result (λ args. key_of args.items ≡ plain.Object self.now.table ∷ key_of self.now.key) }
    {
        let mut args = Vec::new(alloc);
        args.push(Value::Object(self.table))?;
        for value in self.key.as_slice() {
            args.push(value.clone()?)?;
        }
        Ok(args)
    }
}

impl World {
    /// The table of an object, lent.
    fn table(&self, object: ObjectNo) -> Option<&Table>
        ensures { option_map (λ table. table.now) result ≡ table_at (world_of self.now).store object }
    {
        match self.heap.object(object) {
            Some(lent) => match lent {
                Lent::Record { .. } => None,
                Lent::Vector(_) => None,
                Lent::Table(table) => Some(table),
            },
            None => None,
        }
    }

    /// When the first entry of a global's table is due, and its order number.
    pub fn entry_due(&self, global: u32) -> Option<(Moment, u64)>
        ensures { result ≡ turn_in (world_of self.now).store (object_named (named (world_of self.now).globals global)) }
    {
        let object = self.globals.object(global)?;
        let table = self.table(object)?;
        table.due()
    }

    /// The entry of a global's table by its order number. None where there is no such entry.
    pub fn entry(&self, global: u32, order: u64) -> Result<Option<Entry>, Mem>
        ensures { IfOk result (λ entry. option_map entry_of entry ≡ entry_in (world_of self.now).store order (object_named (named (world_of self.now).globals global))) }
    {
        let Some(object) = self.globals.object(global) else {
            return Ok(None);
        };
        let Some(table) = self.table(object) else {
            return Ok(None);
        };
        match table.key(order) {
            Some(key) => Ok(Some(Entry {
                table: object,
                key: key.clone()?,
            })),
            None => Ok(None),
        }
    }
}
