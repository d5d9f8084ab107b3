ghost use Rattle.std.specs.Prelude.{◌≡◌, ◌↔◌, ℕ, ◌+◌, ◌<◌, ◌≤◌, true, length, map, slice_get, slice_set, Some, None, is_some, IfSome, IfOk, OnOk, OnErr, IfNone, vec_len, IsTrue, [], ◌∷◌, ◌++◌, IsSome, List, vec_capacity};
ghost use Rattle.std.specs.Option.{option_map, option_and_then, option_copied};
ghost use Rattle.zk_tree.specs.Table as plain;
ghost use Rattle.zk_tree.specs.Table.{entry_at, entry_numbered, first_due, due_from, renews, with_entries, without};
ghost use Rattle.zk_value.specs.Plain.{key_of, value_of};
ghost use Rattle.zk_value.specs.declared.value.Value.{Value};
ghost use Rattle.zk_table.specs.declared.slot.Slot.{Slot};
ghost use Rattle.zk_table.specs.declared.slot.Stored.{Stored};
ghost use Rattle.zk_table.specs.Slots.{Ascends, stored_numbered, occupied, with_value, with_moment, later_due};
ghost use Rattle.zk_table.specs.Index.{IsTree};
ghost use Rattle.zk_table.specs.Pairs.{pair_of, pair_in};

use crate::index::{Turn, below, rebuild, reorder};
use crate::slot::{Pair, Slot, Stored, moment_after};
use indexmap::IndexMap;
use std::alloc::Global;
use std::cell::Cell;
use zk_base::{Mem, Moment, Span};
use zk_tree::Expiry;
use zk_value::{Key, Value};

/// When an entry expires that was inserted or renewed last at this moment.
fn due_from(expiry: Option<Expiry>, since: Moment) -> Option<Moment>
    ensures { result ≡ due_from expiry since }
{
    match expiry {
        Some(Expiry::Create(span) | Expiry::Read(span) | Expiry::Write(span)) => {
            Some(moment_after(since, span))
        }
        None => None,
    }
}

/// Whether an assignment at a key that is there renews its entry.
fn renews(expiry: Option<Expiry>) -> bool
    ensures { result ≡ renews expiry }
{
    matches!(expiry, Some(Expiry::Read(_) | Expiry::Write(_)))
}

/// The place of an order number, by halves.
fn place_by_halves(slots: &[Slot], order: u64) -> Option<usize>
    ensures found { IfSome result (λ place. option_map (λ slot. slot.order) (slice_get slots.now place) ≡ Some order) }
    ensures none { IfNone result ((from below : ℕ) → Ascends from slots.now below → stored_numbered order slots.now ≡ None) }
{
    slots.binary_search_by_key(&order, |slot| slot.order).ok()
}

/// The place of an order number below that of the next insertion. Where the insertions whose holes were
/// closed all came before it, it is known at once.
fn place_of(slots: &[Slot], next: u64, order: u64) -> Option<usize>
    ensures found { IfSome result (λ place. option_map (λ slot. slot.order) (slice_get slots.now place) ≡ Some order) }
    ensures none { IfNone result ((from below : ℕ) → Ascends from slots.now below → stored_numbered order slots.now ≡ None) }
{
    let gone = next.saturating_sub(slots.len() as u64);
    let place = order.saturating_sub(gone) as usize;
    match slots.get(place) {
        Some(slot) if slot.order == order => Some(place),
        _ => place_by_halves(slots, order),
    }
}

/// The entries of a table.
#[derive(Debug, Drop)]
pub struct Entries {
    alloc: Global,
    expiry: Option<Expiry>,
    /// How many insertions there were.
    insertions: u64,
    /// How many entries there are.
    live: usize,
    /// The insertions by order number. An entry that is gone leaves a hole, and holes are closed
    /// before they are more than the entries.
    slots: Vec<Slot>,
    /// The order number of each key's entry.
    orders: IndexMap<Key, u64>,
    /// The index of dues: for each place the first turn of its own and of those below it.
    firsts: Vec<Option<Turn>>,
    /// The place where an entry was found or added last. Scripts mostly ask for the same key again
    /// (`if (k in t) .. t[k]`, `t[k] += 1`) or for the next one (`for (k in t) .. t[k]`). It counts only where
    /// the entry there has the key, so no clause sees it.
    recent: Cell<usize>,
}

impl Entries {
    ghost use Rattle.zk_table.specs.Kept.{IsKept, Found, Numbered, Rewrites, Empties, Widens, Becomes, table_in};

    /// No entries. No memory is taken.
    pub fn new(alloc: Global, expiry: Option<Expiry>) -> Entries
        ensures kept { IsKept result }
        ensures table { table_in result ≡ record { expiry = expiry; insertions = 0; entries = [] } }
    {
        Entries {
            alloc,
            expiry,
            insertions: 0,
            live: 0,
            slots: Vec::new(alloc),
            orders: IndexMap::new(alloc),
            firsts: Vec::new(alloc),
            recent: Cell::new(0),
        }
    }

    /// When the entries expire, where they do.
    pub fn expiry(&self) -> Option<Expiry>
        ensures { result ≡ (table_in self.now).expiry }
    {
        self.expiry
    }

    /// How many entries there are.
    pub fn len(&self) -> usize
        ensures { result ≡ self.now.live }
    {
        self.live
    }

    /// What is kept in a place.
    pub fn stored(&self, place: usize) -> Option<&Stored>
        ensures { option_copied result ≡ option_and_then (λ slot. slot.entry) (slice_get self.now.slots.items place) }
    {
        self.slots.get(place)?.entry.as_ref()
    }

    /// Whether the entry in a place has this key.
    fn is_at(&self, place: usize, key: &Key) -> bool
        ensures { result ≡ true → Found self.now key.now place }
    {
        match self.stored(place) {
            Some(stored) => stored.key == *key,
            None => false,
        }
    }

    /// The place of a key's entry, where it is the one that was found last or the one behind it. One that
    /// stands elsewhere costs a comparison or two.
    fn find_recent(&self, key: &Key) -> Option<usize>
        ensures { IfSome result (λ place. Found self.now key.now place) }
    {
        let last = self.recent.get();
        if self.is_at(last, key) {
            return Some(last);
        }
        let next = last.saturating_add(1);
        if self.is_at(next, key) {
            self.recent.set(next);
            return Some(next);
        }
        None
    }

    /// The place of a key's entry, by its order number.
    fn search(&self, key: &Key) -> Option<usize>
        ensures found { IfSome result (λ place. IsKept self.now → Found self.now key.now place) }
        ensures none { IfNone result (IsKept self.now → entry_at (key_of key.now) (table_in self.now).entries ≡ None) }
    {
        match self.orders.get(key) {
            Some(order) => place_of(&self.slots, self.insertions, *order),
            None => None,
        }
    }

    /// The place of a key's entry.
    pub fn find(&self, key: &Key) -> Option<usize>
        ensures found { IfSome result (λ place. IsKept self.now → Found self.now key.now place) }
        ensures none { IfNone result (IsKept self.now → entry_at (key_of key.now) (table_in self.now).entries ≡ None) }
    {
        if let Some(place) = self.find_recent(key) {
            return Some(place);
        }
        match self.search(key) {
            Some(place) => {
                self.recent.set(place);
                Some(place)
            }
            None => None,
        }
    }

    /// The place of the entry of an order number.
    pub fn find_order(&self, order: u64) -> Option<usize>
        ensures found { IfSome result (λ place. IsKept self.now → Numbered self.now order place) }
        ensures none { IfNone result (IsKept self.now → entry_numbered order (table_in self.now).entries ≡ None) }
    {
        match place_of(&self.slots, self.insertions, order) {
            Some(place) => match self.stored(place) {
                Some(_) => Some(place),
                None => None,
            },
            None => None,
        }
    }

    /// The first turn.
    pub fn due(&self) -> Option<Turn>
        ensures { IsKept self.now → result ≡ first_due (table_in self.now).entries }
    {
        below(&self.firsts, 0)
    }

    /// The keys, in the order of insertion.
    pub fn keys(&self) -> Result<Vec<Key>, Mem>
        ensures { IfOk result (λ keys. map key_of keys.items ≡ map (λ entry. entry.key) (table_in self.now).entries) }
    {
        let mut keys = Vec::new(self.alloc);
        keys.reserve(self.live)?;
        for slot in &self.slots {
            if let Some(stored) = &slot.entry {
                keys.push(stored.key.clone()?)?;
            }
        }
        Ok(keys)
    }

    /// The keys with their values, in the order of insertion.
    pub fn pairs(&self) -> Result<Vec<Pair>, Mem>
        ensures { IfOk result (λ pairs. map pair_of pairs.items ≡ map pair_in (table_in self.now).entries) }
    {
        let mut pairs = Vec::new(self.alloc);
        pairs.reserve(self.live)?;
        for slot in &self.slots {
            if let Some(stored) = &slot.entry {
                pairs.push(stored.pair()?)?;
            }
        }
        Ok(pairs)
    }

    /// Makes the entry in a place one of this moment.
    pub fn renew(&mut self, place: usize, now: Moment)
        requires { place < vec_len self.old.slots }
        ensures { (order : ℕ) (stored : Stored) → slice_get self.old.slots.items place ≡ Some (occupied order stored)
            → Rewrites self.old self.new place order (with_moment now (due_from self.old.expiry now) stored) }
    {
        let due = due_from(self.expiry, now);
        self.slots[place].renew(now, due);
        reorder(&self.slots, &mut self.firsts, place);
    }

    /// Gives the entry in a place another value.
    fn set_value(&mut self, place: usize, value: Value)
        requires { place < vec_len self.old.slots }
        ensures rewrites { (order : ℕ) (stored : Stored) → slice_get self.old.slots.items place ≡ Some (occupied order stored)
            → Rewrites self.old self.new place order (with_value value stored) }
        ensures long { vec_len self.new.slots ≡ vec_len self.old.slots }
    {
        self.slots[place].set_value(value);
    }

    /// Makes the entry in a place due so long after its moment, where it has a due.
    pub fn put_off(&mut self, place: usize, wait: Span)
        requires { place < vec_len self.old.slots }
        ensures { (order : ℕ) (stored : Stored) → slice_get self.old.slots.items place ≡ Some (occupied order stored)
            → Rewrites self.old self.new place order (later_due wait stored) }
    {
        self.slots[place].put_off(wait);
        reorder(&self.slots, &mut self.firsts, place);
    }

    /// An assignment to the entry in a place.
    pub fn assign(&mut self, place: usize, now: Moment, value: Value)
        requires { place < vec_len self.old.slots }
        ensures { (key : List Value) → IsKept self.old → Found self.old key place
            → Becomes self.new (plain.insert now (key_of key) (value_of value) (table_in self.old)) }
    {
        self.set_value(place, value);
        if renews(self.expiry) {
            self.renew(place, now);
        }
    }

    /// Takes the entry in a place away.
    fn empty(&mut self, place: usize)
        requires { place < vec_len self.old.slots }
        ensures { (order : ℕ) (stored : Stored) → slice_get self.old.slots.items place ≡ Some (occupied order stored)
            → 0 < self.old.live → Empties self.old self.new place order stored }
    {
        let Some(stored) = self.slots[place].take() else {
            return;
        };
        self.orders.swap_remove(&stored.key);
        self.live = self.live.saturating_sub(1);
        reorder(&self.slots, &mut self.firsts, place);
    }

    /// Closes the holes. The entries are the same.
    fn close(&mut self)
        ensures same { IsKept self.old → Becomes self.new (table_in self.old) }
    {
        self.slots.retain(|slot| slot.entry.is_some());
        self.firsts.truncate(self.slots.len());
        rebuild(&self.slots, &mut self.firsts);
    }

    /// Takes the entry in a place away, and closes the holes where they are more than the entries.
    pub fn remove(&mut self, place: usize)
        requires { place < vec_len self.old.slots }
        ensures { (order : ℕ) → IsKept self.old → Numbered self.old order place
            → Becomes self.new (with_entries (without order (table_in self.old).entries) (table_in self.old)) }
    {
        self.empty(place);
        if self.slots.len() / 2 > self.live {
            self.close();
        }
    }

    /// Makes room for another entry. At `Mem` the entries are the same.
    fn widen(&mut self) -> Result<(), Mem>
        ensures same { Widens self.old self.new }
        ensures room { OnOk result (vec_len self.new.slots < vec_capacity self.new.slots) }
        ensures long { OnOk result (IsKept self.old → IsSome self.new.expiry → length self.new.slots.items < length self.new.firsts.items) }
    {
        self.slots.reserve(1)?;
        if self.expiry.is_some() && self.firsts.len() <= self.slots.len() {
            self.firsts.push(None)?;
        }
        Ok(())
    }

    /// Adds an entry at the end, of a key that has none. At `Mem` the entries are the same.
    pub fn add(&mut self, now: Moment, key: Key, value: Value) -> Result<(), Mem>
        ensures ok { OnOk result (IsKept self.old → entry_at (key_of key) (table_in self.old).entries ≡ None
            → Becomes self.new (plain.insert now (key_of key) (value_of value) (table_in self.old))) }
        ensures err { OnErr result (IsKept self.old → Becomes self.new (table_in self.old)) }
    {
        let order = self.insertions;
        let (Some(insertions), Some(live)) = (order.checked_add(1), self.live.checked_add(1)) else {
            return Err(Mem);
        };
        self.widen()?;
        self.orders.insert(key.clone()?, order)?;
        let due = due_from(self.expiry, now);
        let stored = Stored {
            key,
            value,
            since: now,
            due,
        };
        let slot = Slot {
            order,
            entry: Some(stored),
        };
        let place = self.slots.len();
        let Ok(()) = self.slots.push(slot) else {
            unreachable!()
        };
        self.insertions = insertions;
        self.live = live;
        self.recent.set(place);
        reorder(&self.slots, &mut self.firsts, place);
        Ok(())
    }
}
