ghost use Rattle.std.specs.Prelude.{◌≡◌, ◌↔◌, ◌≤ℤ◌, ◌^◌, ◌<◌, ◌≤◌, ◌++◌, ◌∷◌, [], ℕ, true, false, pos, length, IsTrue, IsSome, IfOk, OnOk, OnErr, IfSome, IfNone, List, Some};
ghost use Rattle.slab.specs.Slab.{ContainsKey, HasRoomFor, get};
ghost use Rattle.std.specs.BTreeMap as tree;
ghost use Rattle.std.specs.Ordering.{nat_cmp};
ghost use Rattle.zk_conn.specs.Instances.{IsTimely, AreCutInto};
ghost use Rattle.zk_conn.specs.Histories.{instance_of, latest, IsEnding, IsFirstDue, IsLive, IsRemoval, MayFollow, NoneDue, NoneLive, touched_of};
ghost use Rattle.zk_conn.specs.Segment.{key_of, same_key};
ghost use Rattle.zk_conn.specs.Standing.{StandsFor};
ghost use Rattle.zk_conn.specs.Table.{HasLive};
ghost use Rattle.zk_conn.specs.declared.conns.Conns.{Conns};
ghost use Rattle.zk_conn.specs.declared.key.Key.{Key};
ghost use Rattle.zk_base.specs.declared.numbers.ConnNo.{ConnNo};
ghost use Rattle.zk_conn.specs.Told.{key_told, Told, Packet, Front, Reached, Removal, Ending};

use crate::facts::Facts;
use crate::instance::Instance;
use crate::key::Key;
use crate::removals::{Filing, Removals, earlier};
use crate::view::L4View;
use slab::Slab;
use std::alloc::Global;
use std::collections::BTreeMap;
use zk_base::{ConnNo, Mem, Moment, Proto, Side};

/// What a packet did.
#[derive(Clone, Copy, Debug, PartialEq, Eq)]
pub struct Touched {
    /// The instance that the packet belongs to.
    pub conn: ConnNo,
    /// The side that sent it.
    pub side: Side,
    /// It began the instance.
    pub opened: bool,
    /// It established the instance.
    pub established: bool,
    /// It reset the instance: both streams stop.
    pub reset: bool,
    /// It made its side's end Fin.
    pub ended: bool,
}

/// A removed instance.
#[derive(Debug, Drop)]
pub struct Removed {
    pub conn: ConnNo,
    /// Its removal moment, or at the end of the capture the moment that was given.
    pub at: Moment,
    pub facts: Facts,
}

/// What the instances of a key are, in the subject's own words. There is nothing to run.
pub fn instances_of_a_key()
    // The latest instance of a key is the last part of what was told of it.
    ensures last { (events : List Told) → (before : List Told) × (events ≡ before ++ instance_of events) }

    // No packet of it comes at or after the removal moment of what stands before it.
    ensures timely { (events : List Told) → IsTimely (instance_of events) }

    // What is told of a key can be cut into instances that end since the next packet comes at or after their removal moment, and
    // the latest one behind them, and each such cutting leaves the same latest one.
    ensures cut { (events latest : List Told) → (instance_of events ≡ latest)
        ↔ ((instances : List (List Told)) × AreCutInto events instances latest) }

    // There is no other such cutting.
    ensures one { (events latest : List Told) (instances others : List (List Told))
        → AreCutInto events instances latest → AreCutInto events others latest → instances ≡ others }

    // What is told of other keys changes nothing of a key's latest instance.
    ensures alone { (key : Key) (before after : List Told) (event : Told) → same_key (key_told event) key ≡ false
        → latest key (before ++ event ∷ after) ≡ latest key (before ++ after) }
{}

/// What is live, by what a value stands for. There is nothing to run.
pub fn live_instances()
    // A value has a live instance of a number exactly where the latest instance of a key is live and has that number.
    ensures live { (conns : Conns) (told : List Told) (conn : ConnNo) → StandsFor conns told
        → HasLive conns conn ↔ ((key : Key) × IsLive told key conn.0) }

    // No two keys have live instances of one number.
    ensures one { (conns : Conns) (told : List Told) (key other : Key) (number : ℕ) → StandsFor conns told
        → IsLive told key number → IsLive told other number → key ≡ other }
{}

/// How many places there are for each slot, so that few keys share one.
const PLACES: usize = 4;

/// The slots that were noted last at a place: two, since where keys share a place they are mostly two.
/// Each has 32 bits, so that the hints of many connections lie in a near cache. A greater slot isn't
/// noted.
#[derive(Clone, Copy, Debug)]
struct Hints {
    last: u32,
    earlier: u32,
}

const NO_HINTS: Hints = Hints {
    last: 0,
    earlier: 0,
};

/// The slots that are noted at a key's place.
fn hints_of(hints: &[Hints], key: &Key) -> Hints {
    match hints.get(key.place_among(hints.len())) {
        Some(hints) => *hints,
        None => NO_HINTS,
    }
}

/// Notes a slot at a key's place.
fn note(hints: &mut [Hints], key: &Key, slot: usize) {
    let Ok(slot) = u32::try_from(slot) else {
        return;
    };
    let place = key.place_among(hints.len());
    if place < hints.len() {
        let earlier = hints[place].last;
        hints[place] = Hints {
            last: slot,
            earlier,
        };
    }
}

/// Makes places for the hints of so many slots.
fn make_places(hints: &mut Vec<Hints>, slots: usize) -> Result<(), Mem> {
    let places = slots.saturating_mul(PLACES);
    if hints.len() < places {
        hints.resize(places, NO_HINTS)?;
    }
    Ok(())
}

/// The live connections of a capture.
///
/// Packets belong to one connection where their protocol and their two ends are the same, whichever
/// end sends. A packet whose connection is not live begins an instance, and the instances are
/// numbered from 1 on in the order in which they begin. The caller tells, after each packet and
/// before the next one, how far the instance's two streams have come. An instance is removed 5
/// seconds after its last packet where an end was reset or both are closed, and else 300 seconds
/// after it for TCP and 60 seconds for UDP. These are this project's own rules.
#[derive(Debug, Drop)]
pub struct Conns {
    slots: Slab<Instance>,
    keys: BTreeMap<Key, usize>,
    numbers: BTreeMap<u64, usize>,
    removals: Removals,
    /// Slots of keys, at their keys' places. They save the walk through `keys`, and no more: one counts
    /// where the slot's instance has that very key.
    hints: Vec<Hints>,
    /// The slot of the last packet's instance, or of another: what is told of the instance behind its
    /// packet finds it there.
    recent: usize,
    /// How many instances have begun.
    begun: u64,
}

impl Conns {
    ghost use Rattle.zk_conn.specs.Holds.{touched_between, facts_in};
    ghost use Rattle.zk_conn.specs.Instance.{Opening, opening, originator, responder, end_of, is_reset, facts_of};
    ghost use Rattle.zk_conn.specs.Removals.{removal_at, HasPlace};
    ghost use Rattle.zk_conn.specs.State.{is_open};
    ghost use Rattle.zk_conn.specs.Table.{first_by, has_key, has_number, is_stale, slot_of, slot_numbered, IsLeast, IsTable, Files, Hastens, Tells, Inserts, SameTable, Removes};

    /// No connections. No memory is taken.
    pub fn new(alloc: Global) -> Conns
        ensures { StandsFor result [] }
    {
        Conns {
            slots: Slab::new(alloc),
            keys: BTreeMap::new(alloc),
            numbers: BTreeMap::new(alloc),
            removals: Removals::new(alloc),
            hints: Vec::new(alloc),
            recent: 0,
            begun: 0,
        }
    }

    /// The live instance that is removed first, by removal moment and then by number, with that
    /// moment. It looks at all of them.
    pub fn due(&self) -> Option<(Moment, ConnNo)>
        ensures none { IfNone result ((told : List Told) → StandsFor self.now told → NoneLive told) }
        ensures first { IfSome result (λ due. (told : List Told) → StandsFor self.now told
            → (key : Key) × IsFirstDue told key due.1.0 due.0) }
    {
        let mut first = None;
        for slot in 0..self.removals.firsts.len() {
            first = earlier(first, self.removal(slot));
        }
        match first {
            Some(first) => Some((first.at, ConnNo(first.number))),
            None => None,
        }
    }

    /// Takes a packet, which comes at a moment at which no live instance is due, and not before
    /// any moment that was given. It takes the memory that the other calls need. `Mem` leaves the
    /// value as it was.
    pub fn packet(&mut self, t: Moment, p: &L4View) -> Result<Touched, Mem>
        requires early { pos 0 ≤ℤ t.0 }
        requires late { t.0 ≤ℤ pos (2 ^ 62) }
        ensures answer { IfOk result (λ touched. (told : List Told) → StandsFor self.old told → MayFollow told t
            → touched ≡ touched_of told t p.now) }
        ensures taken { OnOk result ((told : List Told) → StandsFor self.old told → MayFollow told t
            → StandsFor self.new (told ++ Packet t p.now ∷ [])) }
        ensures memory { OnErr result ((told : List Told) → StandsFor self.old told → StandsFor self.new told) }
        ensures live { IfOk result (λ touched. (told : List Told) → StandsFor self.old told → HasLive self.new touched.conn) }
    {
        match self.find(&Key::of(p)) {
            Some(slot) => Ok(self.go_on(slot, t, p)),
            None => self.begin(t, p),
        }
    }

    /// A side's stream has reached its FIN. The instance is live.
    pub fn fin_reached(&mut self, conn: ConnNo, side: Side)
        requires { HasLive self.old conn }
        ensures told { (told : List Told) (key : Key) → StandsFor self.old told → IsLive told key conn.0
            → StandsFor self.new (told ++ Reached key side ∷ []) }
        ensures live { (other : ConnNo) → HasLive self.old other → HasLive self.new other }
    {
        let Some(slot) = self.slot_numbered(conn) else {
            unreachable!()
        };
        self.tell_fin(slot, side);
    }

    /// A side's stream has this front. The instance is live.
    pub fn front(&mut self, conn: ConnNo, side: Side, front: u64)
        requires { HasLive self.old conn }
        ensures told { (told : List Told) (key : Key) → StandsFor self.old told → IsLive told key conn.0
            → StandsFor self.new (told ++ Front key side front ∷ []) }
        ensures live { (other : ConnNo) → HasLive self.old other → HasLive self.new other }
    {
        let Some(slot) = self.slot_numbered(conn) else {
            unreachable!()
        };
        self.tell_front(slot, side, front);
    }

    /// Removes the first of the live instances that are due by a moment, by removal moment and then
    /// by number.
    pub fn remove_due(&mut self, t: Moment) -> Option<Removed>
        ensures none { IfNone result ((told : List Told) → StandsFor self.old told → NoneDue told t) }
        ensures removed { IfSome result (λ removed. (told : List Told) → StandsFor self.old told → IsRemoval told t removed) }
        ensures taken { IfSome result (λ removed. (told : List Told) (key : Key) → StandsFor self.old told → IsLive told key removed.conn.0
            → StandsFor self.new (told ++ Removal key removed.at ∷ [])) }
        ensures kept { IfNone result ((told : List Told) → StandsFor self.old told → StandsFor self.new told) }
    {
        self.settle(t);
        let Some(slot) = self.first_by(t) else {
            return None;
        };
        let at = self.slots[slot].removal();
        Some(self.remove(slot, at))
    }

    /// Removes the live instance of least number, at the end of the capture.
    pub fn end(&mut self, last: Moment) -> Option<Removed>
        ensures none { IfNone result ((told : List Told) → StandsFor self.old told → NoneLive told) }
        ensures removed { IfSome result (λ removed. (told : List Told) → StandsFor self.old told → IsEnding told last removed) }
        ensures taken { IfSome result (λ removed. (told : List Told) (key : Key) → StandsFor self.old told → IsLive told key removed.conn.0
            → StandsFor self.new (told ++ Ending key last ∷ [])) }
        ensures kept { IfNone result ((told : List Told) → StandsFor self.old told → StandsFor self.new told) }
    {
        let Some(slot) = self.least() else {
            return None;
        };
        Some(self.remove(slot, last))
    }

    /// What is known of a live instance.
    pub fn facts(&self, conn: ConnNo) -> Facts
        requires { HasLive self.now conn }
        ensures { (told : List Told) (key : Key) → StandsFor self.now told → IsLive told key conn.0
            → Some result ≡ facts_of (latest key told) }
    {
        let Some(slot) = self.slot_numbered(conn) else {
            unreachable!()
        };
        self.slots[slot].facts()
    }

    /// The service that a live instance is of: its protocol and its responder's port.
    pub fn service(&self, conn: ConnNo) -> (Proto, u16)
        requires { HasLive self.now conn }
        ensures { (told : List Told) (key : Key) (first : Opening) → StandsFor self.now told → IsLive told key conn.0 → opening (latest key told) ≡ Some first
            → result ≡ (first.packet.proto, (responder first.packet).port) }
    {
        let Some(slot) = self.slot_numbered(conn) else {
            unreachable!()
        };
        let instance = &self.slots[slot];
        (instance.key.proto, instance.responder().port)
    }

    /// Whether the end of a side of a live instance is open.
    pub fn is_open(&self, conn: ConnNo, side: Side) -> bool
        requires { HasLive self.now conn }
        ensures { (told : List Told) (key : Key) (first : Opening) → StandsFor self.now told → IsLive told key conn.0 → opening (latest key told) ≡ Some first
            → result ≡ is_open (end_of (originator first.packet) side (latest key told)) }
    {
        let Some(slot) = self.slot_numbered(conn) else {
            unreachable!()
        };
        self.slots[slot].is_open(side)
    }

    /// Whether a live instance was reset.
    pub fn is_reset(&self, conn: ConnNo) -> bool
        requires { HasLive self.now conn }
        ensures { (told : List Told) (key : Key) (first : Opening) → StandsFor self.now told → IsLive told key conn.0 → opening (latest key told) ≡ Some first
            → result ≡ is_reset (originator first.packet) (latest key told) }
    {
        let Some(slot) = self.slot_numbered(conn) else {
            unreachable!()
        };
        self.slots[slot].is_reset()
    }

    /// Whether an instance of this number is live.
    pub fn is_live(&self, conn: ConnNo) -> bool
        ensures { IsTrue result ↔ HasLive self.now conn }
    {
        self.slot_numbered(conn).is_some()
    }

    /// A small number by which a caller may note where it has what belongs to a live instance: for hints
    /// alone, as nothing is promised of it. It is most often the same for one instance, and another one
    /// for each other.
    pub fn place(&self, conn: ConnNo) -> usize {
        if self.has_number(self.recent, conn) {
            self.recent
        } else {
            0
        }
    }

    /// The slot of a live connection: at the key's hints, or through the keys, and then it is noted.
    fn find(&mut self, key: &Key) -> Option<usize>
        ensures same { SameTable self.old self.new }
        ensures some { IfSome result (λ slot. IsTable self.old → slot_of self.new key.now ≡ Some slot) }
        ensures none { IfNone result (slot_of self.new key.now ≡ None) }
        ensures there { IfSome result (ContainsKey self.new.slots) }
    {
        if let Some(slot) = self.hinted(key) {
            self.recent = slot;
            return Some(slot);
        }
        let slot = self.slot_of(key)?;
        note(&mut self.hints, key, slot);
        self.recent = slot;
        Some(slot)
    }

    /// The slot at a key's hints whose instance has this very key.
    fn hinted(&self, key: &Key) -> Option<usize>
        ensures { IfSome result (λ slot. has_key (get self.now.slots slot) key.now ≡ true) }
    {
        let hints = hints_of(&self.hints, key);
        let last = hints.last as usize;
        if self.has_key(last, key) {
            return Some(last);
        }
        let earlier = hints.earlier as usize;
        if self.has_key(earlier, key) {
            return Some(earlier);
        }
        None
    }

    /// Whether the instance of a slot has this key.
    #[tactic(auto, unfolding(crate::specs::Table::key_eq))]
    fn has_key(&self, slot: usize, key: &Key) -> bool
        ensures { result ≡ has_key (get self.now.slots slot) key.now }
    {
        match self.slots.get(slot) {
            Some(instance) => instance.key == *key,
            None => false,
        }
    }

    /// The slot of a live connection, by its key.
    #[tactic(auto, unfolding(crate::specs::Table::slot_of, crate::specs::Table::key_cmp))]
    fn slot_of(&self, key: &Key) -> Option<usize>
        ensures slot { result ≡ slot_of self.now key.now }
        ensures there { IfSome result (ContainsKey self.now.slots) }
    {
        match self.keys.get(key) {
            Some(slot) if self.slots.contains(*slot) => Some(*slot),
            _ => None,
        }
    }

    /// The slot of a live instance, by its number.
    #[tactic(auto, unfolding(crate::specs::Table::slot_numbered))]
    fn slot_numbered(&self, conn: ConnNo) -> Option<usize>
        ensures slot { result ≡ slot_numbered self.now conn }
        ensures there { IfSome result (ContainsKey self.now.slots) }
    {
        if self.has_number(self.recent, conn) {
            return Some(self.recent);
        }
        match self.numbers.get(&conn.0) {
            Some(slot) if self.slots.contains(*slot) => Some(*slot),
            _ => None,
        }
    }

    /// Whether the instance of a slot has this number.
    fn has_number(&self, slot: usize, conn: ConnNo) -> bool
        ensures { result ≡ has_number (get self.now.slots slot) conn.0 }
    {
        match self.slots.get(slot) {
            Some(instance) => instance.number == conn.0,
            None => false,
        }
    }

    /// The slot of the live instance of least number.
    fn least(&self) -> Option<usize>
        ensures some { IfSome result (IsLeast self.now) }
        ensures none { IfNone result (IsTable self.now → (number slot : ℕ) → tree.get nat_cmp self.now.numbers number ≡ Some slot → ⊥) }
        ensures there { IfSome result (ContainsKey self.now.slots) }
    {
        match self.numbers.first_key_value() {
            Some((_, slot)) if self.slots.contains(*slot) => Some(*slot),
            _ => None,
        }
    }

    /// Where the instance of a slot stands in the order of removals.
    fn removal(&self, slot: usize) -> Option<Filing>
        ensures { result ≡ removal_at self.now.slots slot }
    {
        match self.slots.get(slot) {
            Some(instance) => Some(Filing {
                at: instance.removal(),
                number: instance.number,
                slot,
            }),
            None => None,
        }
    }

    /// Counts a packet of a live instance.
    fn go_on(&mut self, slot: usize, t: Moment, p: &L4View) -> Touched
        requires { ContainsKey self.old.slots slot }
        ensures tells { (was : Instance) → get self.old.slots slot ≡ Some was → Tells self.old self.new slot was (Packet t p.now) }
        ensures touched { (was is : Instance) → get self.old.slots slot ≡ Some was → get self.new.slots slot ≡ Some is → result ≡ touched_between was is false p.now }
    {
        let touched = self.slots[slot].touch(false, t, p);
        self.hasten(slot);
        touched
    }

    /// Tells a live instance that a side's stream has reached its FIN.
    fn tell_fin(&mut self, slot: usize, side: Side)
        requires { ContainsKey self.old.slots slot }
        ensures { (was : Instance) → get self.old.slots slot ≡ Some was → Tells self.old self.new slot was (Reached was.key side) }
    {
        self.slots[slot].reach_fin(side);
        self.hasten(slot);
    }

    /// Tells a live instance the front of a side's stream.
    fn tell_front(&mut self, slot: usize, side: Side, front: u64)
        requires { ContainsKey self.old.slots slot }
        ensures { (was : Instance) → get self.old.slots slot ≡ Some was → Tells self.old self.new slot was (Front was.key side front) }
    {
        self.slots[slot].front(side, front);
    }

    /// Begins an instance with a packet. At `Mem` the value is as it was.
    fn begin(&mut self, t: Moment, p: &L4View) -> Result<Touched, Mem>
        requires absent { slot_of self.old (key_of p.now) ≡ None }
        requires early { pos 0 ≤ℤ t.0 }
        requires late { t.0 ≤ℤ pos (2 ^ 62) }
        ensures answer { IfOk result (λ touched. (told : List Told) → StandsFor self.old told → MayFollow told t
            → touched ≡ touched_of told t p.now) }
        ensures taken { OnOk result ((told : List Told) → StandsFor self.old told → MayFollow told t
            → StandsFor self.new (told ++ Packet t p.now ∷ [])) }
        ensures memory { OnErr result ((told : List Told) → StandsFor self.old told → StandsFor self.new told) }
        ensures live { IfOk result (λ touched. HasLive self.new touched.conn) }
    {
        let Some(number) = self.begun.checked_add(1) else {
            return Err(Mem);
        };
        let mut instance = Instance::before(number, t, p);
        let touched = instance.touch(true, t, p);
        instance.filed = instance.removal();
        self.insert(instance)?;
        self.begun = number;
        Ok(touched)
    }

    /// Puts an instance into the table. At `Mem` the table is as it was.
    fn insert(&mut self, instance: Instance) -> Result<(), Mem>
        ensures ok { OnOk result (Inserts self.old self.new instance) }
        ensures err { OnErr result (tree.get nat_cmp self.old.numbers instance.number ≡ None → SameTable self.old self.new) }
    {
        self.make_room()?;
        let slot = self.slots.vacant_key();
        self.numbers.insert(instance.number, slot)?;
        if self.keys.insert(instance.key, slot).is_err() {
            self.numbers.remove(&instance.number);
            return Err(Mem);
        }
        let filing = instance.filing(slot);
        self.slots.insert_reserved(instance);
        self.removals.file(slot, filing);
        self.recent = slot;
        Ok(())
    }

    /// Makes room for one more instance in the slots and in the index.
    fn make_room(&mut self) -> Result<(), Mem>
        ensures room { OnOk result (HasRoomFor self.new.slots 1) }
        ensures places { OnOk result ((slot : ℕ) → slot < self.new.slots.capacity → HasPlace self.new.removals slot) }
        ensures same { SameTable self.old self.new }
    {
        self.slots.reserve(1)?;
        let room = self.slots.capacity();
        make_places(&mut self.hints, room)?;
        self.removals.make_room(room)
    }

    /// Takes an instance out of the table.
    fn remove(&mut self, slot: usize, at: Moment) -> Removed
        requires { ContainsKey self.old.slots slot }
        ensures removes { (was : Instance) → get self.old.slots slot ≡ Some was → Removes self.old self.new slot was }
        ensures removed { (was : Instance) → get self.old.slots slot ≡ Some was
            → result ≡ record { conn = record { 0 = was.number }; at = at; facts = facts_in was } }
    {
        let instance = self.slots.remove(slot);
        self.keys.remove(&instance.key);
        self.numbers.remove(&instance.number);
        self.removals.forget(slot);
        Removed {
            conn: ConnNo(instance.number),
            at,
            facts: instance.facts(),
        }
    }

    /// Files an instance at its removal moment.
    fn file(&mut self, slot: usize)
        requires { ContainsKey self.old.slots slot }
        ensures { (was : Instance) → get self.old.slots slot ≡ Some was → Files self.old self.new slot was }
    {
        let instance = &mut self.slots[slot];
        instance.filed = instance.removal();
        let filing = instance.filing(slot);
        self.removals.file(slot, filing);
    }

    /// Files an instance anew where its removal moment has come nearer.
    fn hasten(&mut self, slot: usize)
        requires { ContainsKey self.old.slots slot }
        ensures { (was : Instance) → get self.old.slots slot ≡ Some was → Hastens self.old self.new slot was }
    {
        let instance = &self.slots[slot];
        if instance.removal() < instance.filed {
            self.file(slot);
        }
    }

    /// The slot that is filed first, where that is by a moment.
    #[tactic(auto, unfolding(crate::specs::Table::first_by))]
    fn first_by(&self, t: Moment) -> Option<usize>
        ensures slot { result ≡ first_by self.now t }
        ensures there { IfSome result (ContainsKey self.now.slots) }
    {
        match self.removals.first() {
            Some(first) if first.at <= t && self.slots.contains(first.slot) => Some(first.slot),
            _ => None,
        }
    }

    /// The slot that is filed first, where that is by a moment and before its removal moment.
    fn stale_by(&self, t: Moment) -> Option<usize>
        ensures there { IfSome result (ContainsKey self.now.slots) }
        ensures stale { IfSome result (λ slot. is_stale (get self.now.slots slot) ≡ true) }
        ensures fresh { IfNone result ((slot : ℕ) → first_by self.now t ≡ Some slot → is_stale (get self.now.slots slot) ≡ false) }
    {
        let slot = self.first_by(t)?;
        let instance = &self.slots[slot];
        if instance.filed < instance.removal() {
            Some(slot)
        } else {
            None
        }
    }

    /// Files instances anew, until the one that is filed first by a moment is filed at its removal
    /// moment.
    fn settle(&mut self, t: Moment)
        ensures stands { (told : List Told) → StandsFor self.old told → StandsFor self.new told }
        ensures fresh { (slot : ℕ) → first_by self.new t ≡ Some slot → is_stale (get self.new.slots slot) ≡ false }
    {
        while let Some(slot) = self.stale_by(t) {
            self.file(slot);
        }
    }
}
