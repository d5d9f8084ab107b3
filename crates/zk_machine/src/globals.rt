ghost use Rattle.std.specs.Prelude.{◌≡◌, ◌<◌, ◌≤◌, ℕ, Bool, true, [], None as Nothing, Some, is_some, length, map, replicate, slice_get, slice_set, IfOk, IfSome};
ghost use Rattle.std.specs.Option.{option_map};
ghost use Rattle.zk_typed.specs.Does as does;
ghost use Rattle.zk_value.specs.Plain.{field_of};
ghost use Rattle.zk_machine.specs.Entries.{object_named};
ghost use Rattle.zk_lower.specs.View.{global_of};
ghost use Rattle.zk_machine.specs.Owners.{AllExpire, AreNoted, IsNoted, IsSeen, NamesNothing, NotedBelow, Rises, RisesTo, expires_in, object_of};
ghost use Rattle.zk_machine.specs.declared.globals.Owner.{Owner as Rust};

use crate::calls::add_locals;
use crate::state::set_named;
use std::alloc::Global;
use std::marker::Model;
use zk_base::{Mem, ObjectNo};
use zk_lower::GlobalCode;
use zk_value::Value;

/// A global that names an object.
#[derive(Clone, Copy, Debug)]
pub struct Owner {
    pub object: ObjectNo,
    pub global: u32,
}

/// Some of the globals that name objects, from the object back to the global.
#[derive(Debug, Drop)]
struct Owners {
    /// Globals that named objects when they were noted; both numbers rise.
    list: Vec<Owner>,
    /// Each global that counts here and names an object below this number is in the list, or an earlier one of
    /// the same object is.
    limit: u64,
}

/// The values of globals and constants by their numbers, each where it has one. Contracts see their list.
///
/// From the object of a table it leads back to the global whose table that is. Initial values are computed
/// in load order, so the objects that they make have numbers that rise with those of the globals. As long as
/// they do, the globals that name objects are noted. Those whose entries expire are noted beside the others
/// once more: they get no values but their initial ones, so they stay noted whatever the others are given.
#[derive(Debug, Drop)]
pub struct Globals {
    values: Vec<Option<Value>>,
    /// Of each global whether its entries expire.
    expires: Vec<bool>,
    /// The owners among all globals.
    all: Owners,
    /// The owners among those whose entries expire.
    expiring: Owners,
}

impl Model for Globals {
    ghost use Rattle.std.specs.Prelude.{List, Option, map};
    ghost use Rattle.zk_tree.specs.Value.{Value as Plain};
    ghost use Rattle.zk_value.specs.Plain.{field_of};
    ghost use Rattle.zk_machine.specs.Owners.{AreNoted, each_global, expires_in};

    ghost Value = { List (Option Plain) };

    ghost view = { λ globals. map field_of globals.values.items };

    ghost invariant = { λ globals. AreNoted each_global (map field_of globals.values.items) globals.all.list.items globals.all.limit
        × AreNoted (expires_in globals.expires.items) (map field_of globals.values.items) globals.expiring.list.items globals.expiring.limit };
}

/// The object that a value names.
pub fn object_in(value: &Option<Value>) -> Option<ObjectNo>
    ensures { result ≡ object_named (field_of value.now) }
{
    match value {
        Some(Value::Object(object)) => Some(*object),
        _ => None,
    }
}

/// The object that a global names.
fn object_of(values: &[Option<Value>], global: u32) -> Option<ObjectNo>
    ensures { result ≡ object_of (map field_of values.now) global }
{
    match values.get(global as usize) {
        Some(value) => object_in(value),
        None => None,
    }
}

/// Whether a global names an object.
fn names(values: &[Option<Value>], global: u32, object: ObjectNo) -> bool
    ensures { result ≡ true → object_of (map field_of values.now) global ≡ Some object }
{
    match object_of(values, global) {
        Some(named) => named.0 == object.0,
        None => false,
    }
}

/// Whether an owner's numbers are above those of all that are noted.
fn is_last(owners: &[Owner], owner: Owner) -> bool
    ensures { result ≡ true → Rises owners.now → (place : ℕ) (one : Rust) → slice_get owners.now place ≡ Some one → RisesTo one owner }
{
    match owners.last() {
        Some(last) => last.object.0 < owner.object.0 && last.global < owner.global,
        None => true,
    }
}

/// Notes an owner where there is room for it behind all that are noted. Answers below which number it is
/// noted then.
fn note(owners: &mut Vec<Owner>, owner: Owner) -> u64
    ensures rises { Rises owners.old.items → Rises owners.new.items }
    ensures kept { Rises owners.old.items → (one : Rust) → IsNoted one owners.old.items → IsNoted one owners.new.items }
    ensures noted { owner.object.0 < result → IsNoted owner owners.new.items }
{
    if owners.len() < owners.capacity() && is_last(owners, owner) {
        owners.push_reserved(owner);
        return u64::MAX;
    }
    owner.object.0
}

/// The place of an object among those that are noted, found by halving.
fn place_of(owners: &[Owner], object: u64) -> Option<usize>
    ensures { IfSome result (λ place. option_map (λ owner. owner.object.0) (slice_get owners.now place) ≡ Some object) }
{
    owners
        .binary_search_by_key(&object, |owner| owner.object.0)
        .ok()
}

/// The global that is noted for an object.
fn noted(owners: &[Owner], object: ObjectNo) -> Option<u32>
    ensures { IfSome result (λ global. IsNoted (record { object = object; global = global }) owners.now) }
{
    let place = place_of(owners, object.0)?;
    let owner = owners.get(place)?;
    Some(owner.global)
}

/// Whether an owner is noted, or one of the same object that is no later global.
fn is_seen(owners: &[Owner], owner: Owner) -> bool
    ensures { result ≡ true → IsSeen owner owners.now }
{
    match noted(owners, owner.object) {
        Some(first) => first <= owner.global,
        None => false,
    }
}

/// Notes what a global is to name, where that isn't seen yet. Answers below which number it is then.
fn note_value(
    values: &[Option<Value>],
    owners: &mut Vec<Owner>,
    global: u32,
    value: &Option<Value>,
) -> u64
    ensures rises { Rises owners.old.items → Rises owners.new.items }
    ensures noted { (these : ℕ → Bool) (limit below : ℕ) → Rises owners.old.items → below ≤ limit → (these global ≡ true → below ≤ result)
        → NotedBelow these (map field_of values.now) owners.old.items limit
        → NotedBelow these (slice_set (map field_of values.now) global (field_of value.now)) owners.new.items below }
{
    let Some(object) = object_in(value) else {
        return u64::MAX;
    };
    if names(values, global, object) {
        return u64::MAX;
    }
    let owner = Owner { object, global };
    if is_seen(owners, owner) {
        return u64::MAX;
    }
    note(owners, owner)
}

/// Whether the entries of a global expire.
fn expires(truths: &[bool], global: u32) -> bool
    ensures { result ≡ expires_in truths.now global }
{
    match truths.get(global as usize) {
        Some(expires) => *expires,
        None => false,
    }
}

/// Whether the entries of each of these globals expire.
fn all_expire(truths: &[bool], globals: &[u32]) -> bool
    ensures { result ≡ true → AllExpire truths.now globals.now }
{
    for place in 0..globals.len() {
        if !expires(truths, globals[place]) {
            return false;
        }
    }
    true
}

/// Of each global whether its entries expire.
fn expiring(alloc: Global, globals: &[GlobalCode]) -> Result<Vec<bool>, Mem>
    ensures { IfOk result (λ list. list.items ≡ map (λ global. is_some (global_of global).expiry) globals.now) }
{
    let mut list = Vec::new(alloc);
    for global in globals {
        list.push(global.expiry.is_some())?;
    }
    Ok(list)
}

impl Owners {
    /// No owners, and room for so many.
    fn new(alloc: Global, room: usize) -> Result<Owners, Mem>
        ensures { IfOk result (λ owners. owners.list.items ≡ []) }
    {
        let mut list = Vec::new(alloc);
        list.reserve(room)?;
        Ok(Owners {
            list,
            limit: u64::MAX,
        })
    }

    /// Notes what a global is to name, if it is one of those that are noted here.
    fn note(&mut self, counts: bool, values: &[Option<Value>], global: u32, value: &Option<Value>)
        ensures { (these : ℕ → Bool) → these global ≡ counts → AreNoted these (map field_of values.now) self.old.list.items self.old.limit
            → AreNoted these (slice_set (map field_of values.now) global (field_of value.now)) self.new.list.items self.new.limit }
    {
        if !counts {
            return;
        }
        let below = note_value(values, &mut self.list, global, value);
        self.limit = self.limit.min(below);
    }

    /// The global that is noted for an object and names it still.
    fn owner(&self, values: &[Option<Value>], object: ObjectNo) -> Option<u32>
        ensures { IfSome result (λ global. IsNoted (record { object = object; global = global }) self.now.list.items × (object_of (map field_of values.now) global ≡ Some object)) }
    {
        let global = noted(&self.list, object)?;
        if names(values, global, object) {
            Some(global)
        } else {
            None
        }
    }
}

impl Globals {
    ghost use Rattle.zk_machine.specs.Owners.{IsOwner};

    /// Globals of this code, without a value.
    pub fn new(alloc: Global, code: &[GlobalCode]) -> Result<Globals, Mem>
        ensures values { IfOk result (λ globals. globals ≡ replicate (length code.now) Nothing) }
        ensures nothing { IfOk result (λ globals. NamesNothing globals) }
    {
        let mut values = Vec::new(alloc);
        add_locals(&mut values, code.len())?;
        Ok(Globals {
            values,
            expires: expiring(alloc, code)?,
            all: Owners::new(alloc, code.len())?,
            expiring: Owners::new(alloc, code.len())?,
        })
    }

    /// The values, lent.
    pub fn as_slice(&self) -> &[Option<Value>]
        ensures { map field_of result.now ≡ self.now }
    {
        &self.values
    }

    /// The object that a global names.
    pub fn object(&self, global: u32) -> Option<ObjectNo>
        ensures { result ≡ object_named (does.named self.now global) }
    {
        object_of(&self.values, global)
    }

    /// Gives a global a value, or takes its value away. There is nothing to do where no global has the
    /// number. No memory is taken.
    pub fn set(&mut self, global: u32, value: Option<Value>)
        ensures { self.new ≡ slice_set self.old global (field_of value) }
    {
        let counts = expires(&self.expires, global);
        self.all.note(true, &self.values, global, &value);
        self.expiring.note(counts, &self.values, global, &value);
        set_named(&mut self.values, global, value);
    }

    /// The global that names an object, where none of these that has a lower number names that or a later one
    /// below the end. None also where this is not known.
    pub fn owner(&self, object: ObjectNo, end: ObjectNo, globals: &[u32]) -> Option<u32>
        ensures { IfSome result (λ global. IsOwner self.now globals.now global object.0 end.0) }
    {
        if end.0 <= self.all.limit {
            return self.all.owner(&self.values, object);
        }
        if end.0 <= self.expiring.limit && all_expire(&self.expires, globals) {
            return self.expiring.owner(&self.values, object);
        }
        None
    }
}
