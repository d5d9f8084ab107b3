ghost use Rattle.std.specs.Prelude.{◌≡◌, ◌<◌, [], map, length, None, is_some, IsSome, IsOk, IfOk, IfNone, OnOk, OnErr};
ghost use Rattle.std.specs.Option.{option_map};
ghost use Rattle.zk_tree.specs.Table as plain;
ghost use Rattle.zk_tree.specs.Table.{entry_at, entry_numbered, first_due};
ghost use Rattle.zk_value.specs.Plain.{value_of, key_of};
ghost use Rattle.zk_table.specs.Pairs.{pair_of, pair_in};

use crate::entries::Entries;
use crate::slot::Pair;
use std::alloc::Global;
use std::marker::Model;
use zk_base::{Mem, Moment, Span};
use zk_tree::Expiry;
use zk_value::{Key, Value};

/// A table of a script, or a set, whose values are `T`. Contracts see its expiry, how many insertions
/// there were, and the list of its entries in the order of insertion, each with its order number, its
/// key and value, the moment of its insertion or last renewal, and its due.
///
/// Only `insert` of a key that is not there, `keys` and `pairs` take memory.
#[derive(Debug, Drop)]
pub struct Table {
    entries: Entries,
}

impl Model for Table {
    ghost use Rattle.zk_tree.specs.Table.{Table as Plain};
    ghost use Rattle.zk_table.specs.Kept.{IsKept, table_in};

    ghost Value = { Plain };

    ghost view = { λ table. table_in table.entries };

    ghost invariant = { λ table. IsKept table.entries };
}

impl Table {
    /// A table without entries. No memory is taken.
    pub fn new(alloc: Global, expiry: Option<Expiry>) -> Table
        ensures { result ≡ record { expiry = expiry; insertions = 0; entries = [] } }
    {
        Table {
            entries: Entries::new(alloc, expiry),
        }
    }

    /// When the entries expire, where they do.
    pub fn expiry(&self) -> Option<Expiry>
        ensures expiry { result ≡ self.now.expiry }
        // Else no entry has a due.
        ensures never { IfNone result (first_due self.now.entries ≡ None) }
    {
        self.entries.expiry()
    }

    /// How many entries there are.
    pub fn len(&self) -> usize
        ensures { result ≡ length self.now.entries }
    {
        self.entries.len()
    }

    /// The value at a key. None where the key is not there.
    pub fn get(&self, key: &Key) -> Option<&Value>
        ensures { option_map (λ value. value_of value.now) result ≡ option_map (λ entry. entry.value) (entry_at (key_of key.now) self.now.entries) }
    {
        let place = self.entries.find(key)?;
        match self.entries.stored(place) {
            Some(stored) => Some(stored.value()),
            None => None,
        }
    }

    /// The key of the entry of an order number. None where no entry has it.
    pub fn key(&self, order: u64) -> Option<&Key>
        ensures { option_map (λ key. key_of key.now) result ≡ option_map (λ entry. entry.key) (entry_numbered order self.now.entries) }
    {
        let place = self.entries.find_order(order)?;
        match self.entries.stored(place) {
            Some(stored) => Some(stored.key()),
            None => None,
        }
    }

    /// Assigns a value to a key. An entry that is there keeps its place and its order number, and is
    /// renewed exactly where the table's expiry counts from assignments. A new entry stands last.
    ///
    /// At `Mem` nothing is changed. A key that is there takes no memory.
    pub fn insert(&mut self, now: Moment, key: Key, value: Value) -> Result<(), Mem>
        ensures ok { OnOk result (self.new ≡ plain.insert now (key_of key) (value_of value) self.old) }
        ensures err { OnErr result (self.new ≡ self.old) }
        ensures succeeds { IsSome (entry_at (key_of key) self.old.entries) → IsOk result }
    {
        match self.entries.find(&key) {
            Some(place) => {
                self.entries.assign(place, now, value);
                Ok(())
            }
            None => self.entries.add(now, key, value),
        }
    }

    /// Takes a key's entry away, and answers whether there was one.
    pub fn remove(&mut self, key: &Key) -> bool
        ensures there { result ≡ is_some (entry_at (key_of key.now) self.old.entries) }
        ensures removed { self.new ≡ plain.remove (key_of key.now) self.old }
    {
        match self.entries.find(key) {
            Some(place) => {
                self.entries.remove(place);
                true
            }
            None => false,
        }
    }

    /// The keys, in the order of insertion.
    pub fn keys(&self) -> Result<Vec<Key>, Mem>
        ensures { IfOk result (λ keys. map key_of keys.items ≡ map (λ entry. entry.key) self.now.entries) }
    {
        self.entries.keys()
    }

    /// The keys with their values, in the order of insertion.
    pub fn pairs(&self) -> Result<Vec<Pair>, Mem>
        ensures { IfOk result (λ pairs. map pair_of pairs.items ≡ map pair_in self.now.entries) }
    {
        self.entries.pairs()
    }

    /// Makes a key's entry one of this moment, with a due to match. Nothing is changed where the key
    /// is not there.
    pub fn renew(&mut self, now: Moment, key: &Key)
        ensures { self.new ≡ plain.renew now (key_of key.now) self.old }
    {
        if let Some(place) = self.entries.find(key) {
            self.entries.renew(place, now);
        }
    }

    /// The least due, and the order number of its entry, the least among equals. None where no entry
    /// has a due, so in a table that has no expiry.
    pub fn due(&self) -> Option<(Moment, u64)>
        ensures { result ≡ first_due self.now.entries }
    {
        self.entries.due()
    }

    /// Where the wait is above 0, makes the entry of an order number due so long after its moment, if
    /// it has a due; else takes the entry away. Answers whether there was such an entry.
    pub fn expire(&mut self, order: u64, wait: Span) -> bool
        ensures there { result ≡ is_some (entry_numbered order self.old.entries) }
        ensures expired { self.new ≡ plain.expire order wait self.old }
    {
        let Some(place) = self.entries.find_order(order) else {
            return false;
        };
        let waits = wait.0 > 0;
        if waits {
            self.entries.put_off(place, wait);
        } else {
            self.entries.remove(place);
        }
        true
    }
}
