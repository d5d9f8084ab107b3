ghost use Rattle.std.specs.Prelude.{◌≡◌, Some, fold, map, slice_get, OnOk};
ghost use Rattle.zk_tree.specs.declared.place.Place.{Place as At};
ghost use Rattle.zk_tree.specs.Store as object;
ghost use Rattle.zk_tree.specs.Table as table;
ghost use Rattle.zk_tree.specs.Value as plain;
ghost use Rattle.zk_typed.specs.Does.{Does};
ghost use Rattle.zk_tree.specs.Value.{Value as PlainValue};
ghost use Rattle.zk_typed.specs.State as typed;
ghost use Rattle.zk_builtin.specs.Computes.{Computes};
ghost use Rattle.zk_typed.specs.Objects as meant;
ghost use Rattle.zk_typed.specs.Primitives as primitive;
ghost use Rattle.zk_typed.specs.declared.script.primitive.Binary.TheVariants as binary;
ghost use Rattle.zk_value.specs.Plain.{value_of, key_of};
ghost use Rattle.zk_table.specs.Heap.{changed, in_table};
ghost use Rattle.zk_machine.specs.Comes.{Comes};
ghost use Rattle.zk_machine.specs.State.{state_of, world_of};

use crate::halt::Halt;
use crate::objects::UNFIT;
use crate::state::State;
use zk_base::{Mem, Moment, ObjectNo};
use zk_builtin::{OperatorFault, binary};
use zk_table::{Heap, Lent};
use zk_typed::script::Binary;
use zk_value::{Key, Value};

/// What an operator on values alone gives.
pub fn computed(given: Result<Value, OperatorFault>) -> Result<Value, Halt>
    ensures { (meant : At → Does PlainValue) (place : At) (state : typed.State) → Computes given meant → Comes value_of place result (meant place state) state }
{
    match given {
        Ok(value) => Ok(value),
        Err(OperatorFault::Fault(kind)) => Err(Halt::Fault(kind)),
        Err(OperatorFault::NoMemory) => Err(Halt::NoMemory),
    }
}

/// Adds members to a set, one after another.
fn insert_all(heap: &mut Heap, number: ObjectNo, now: Moment, keys: &[Key]) -> Result<(), Mem>
    ensures objects { OnOk result (heap.new.objects ≡ changed (in_table (λ members. fold (meant.add_member now) members (map key_of keys.now))) number.0 heap.old.objects) }
    ensures unwatched { heap.new.unwatched ≡ heap.old.unwatched }
{
    for key in keys {
        heap.insert(number, now, key.clone()?, Value::Bool(true))?;
    }
    Ok(())
}

/// Takes members away from a set, one after another.
fn remove_all(heap: &mut Heap, number: ObjectNo, keys: &[Key])
    ensures objects { heap.new.objects ≡ changed (in_table (λ members. fold (λ left key. table.remove key left) members (map key_of keys.now))) number.0 heap.old.objects }
    ensures unwatched { heap.new.unwatched ≡ heap.old.unwatched }
{
    for key in keys {
        heap.remove(number, key);
    }
}

impl State {
    /// A value with another one added or taken away. A vector or a set is changed in place (Zeek manual,
    /// Operators, += and -=).
    pub fn updated(&mut self, by: Binary, value: &Value, other: &Value) -> Result<Value, Halt>
        ensures { (place : At) → Comes value_of place result (primitive.updated place by (value_of value.now) (value_of other.now) (state_of self.old)) (state_of self.new) }
    {
        match value {
            Value::Object(number) => {
                self.into_object(by, *number, other)?;
                Ok(Value::Object(*number))
            }
            _ => computed(binary(self.world.alloc, by, value, other)),
        }
    }

    /// What a value is once another is added to it.
    pub fn add(&mut self, before: &Value, more: &Value) -> Result<Value, Halt>
        ensures { (place : At) → Comes value_of place result (primitive.updated place binary.Plus (value_of before.now) (value_of more.now) (state_of self.old)) (state_of self.new) }
    {
        self.updated(Binary::Plus, before, more)
    }

    /// Changes an object by a value.
    fn into_object(&mut self, by: Binary, number: ObjectNo, other: &Value) -> Result<(), Halt>
        ensures { (place : At) → Comes (λ _. plain.Object number) place result (primitive.updated place by (plain.Object number) (value_of other.now) (state_of self.old)) (state_of self.new) }
    {
        match self.world.heap.object(number) {
            Some(lent) => match lent {
                Lent::Record { .. } => Err(UNFIT),
                Lent::Vector(_) => self.into_vector(by, number, other),
                Lent::Table(_) => self.into_set(by, number, other),
            },
            None => Err(UNFIT),
        }
    }

    /// Adds a value to a vector.
    fn into_vector(&mut self, by: Binary, number: ObjectNo, other: &Value) -> Result<(), Halt>
        ensures { (place : At) (items : _) → Some (object.Vector items) ≡ slice_get (world_of self.old.world).store number.0
            → Comes (λ _. plain.Object number) place result (primitive.into_object place by (plain.Object number) (value_of other.now) (object.Vector items) (state_of self.old)) (state_of self.new) }
    {
        match by {
            Binary::Plus => {
                self.world.heap.push_item(number, other.clone()?)?;
                Ok(())
            }
            Binary::Minus | Binary::Times | Binary::Over | Binary::Modulo => Err(UNFIT),
        }
    }

    /// Adds the members of another set to a set, or takes them away.
    fn into_set(&mut self, by: Binary, number: ObjectNo, other: &Value) -> Result<(), Halt>
        ensures { (place : At) (members : table.Table) → Some (object.Table members) ≡ slice_get (world_of self.old.world).store number.0
            → Comes (λ _. plain.Object number) place result (primitive.into_object place by (plain.Object number) (value_of other.now) (object.Table members) (state_of self.old)) (state_of self.new) }
    {
        match by {
            Binary::Plus => self.add_all(number, other),
            Binary::Minus => self.take_all(number, other),
            Binary::Times | Binary::Over | Binary::Modulo => Err(UNFIT),
        }
    }

    /// Adds the members of another set to a set.
    fn add_all(&mut self, number: ObjectNo, other: &Value) -> Result<(), Halt>
        ensures { (place : At) (members : table.Table) → Some (object.Table members) ≡ slice_get (world_of self.old.world).store number.0
            → Comes (λ _. plain.Object number) place result (primitive.into_object place binary.Plus (plain.Object number) (value_of other.now) (object.Table members) (state_of self.old)) (state_of self.new) }
    {
        let Value::Object(others) = other else {
            return Err(UNFIT);
        };
        let keys = match self.world.heap.object(*others) {
            Some(lent) => match lent {
                Lent::Record { .. } => return Err(UNFIT),
                Lent::Vector(_) => return Err(UNFIT),
                Lent::Table(table) => table.keys()?,
            },
            None => return Err(UNFIT),
        };
        insert_all(&mut self.world.heap, number, self.world.time, &keys)?;
        Ok(())
    }

    /// Takes the members of another set away from a set.
    fn take_all(&mut self, number: ObjectNo, other: &Value) -> Result<(), Halt>
        ensures { (place : At) (members : table.Table) → Some (object.Table members) ≡ slice_get (world_of self.old.world).store number.0
            → Comes (λ _. plain.Object number) place result (primitive.into_object place binary.Minus (plain.Object number) (value_of other.now) (object.Table members) (state_of self.old)) (state_of self.new) }
    {
        let Value::Object(others) = other else {
            return Err(UNFIT);
        };
        let keys = match self.world.heap.object(*others) {
            Some(lent) => match lent {
                Lent::Record { .. } => return Err(UNFIT),
                Lent::Vector(_) => return Err(UNFIT),
                Lent::Table(table) => table.keys()?,
            },
            None => return Err(UNFIT),
        };
        remove_all(&mut self.world.heap, number, &keys);
        Ok(())
    }
}
