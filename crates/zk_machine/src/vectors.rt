ghost use Rattle.std.specs.Prelude.{◌≡◌, Some, length, slice_get, IfOk};
ghost use Rattle.zk_tree.specs.declared.place.Place.{Place as At};
ghost use Rattle.zk_tree.specs.Store as object;
ghost use Rattle.zk_tree.specs.Value as plain;
ghost use Rattle.zk_typed.specs.Does as does;
ghost use Rattle.zk_typed.specs.Objects as meant;
ghost use Rattle.zk_value.specs.Plain.{value_of, key_of};
ghost use Rattle.zk_machine.specs.Comes.{Comes};
ghost use Rattle.zk_machine.specs.State.{state_of, world_of};

use crate::halt::Halt;
use crate::objects::UNFIT;
use crate::state::State;
use zk_base::ObjectNo;
use zk_table::Lent;
use zk_typed::FaultKind;
use zk_value::Value;

impl State {
    /// The items of a vector, lent.
    pub fn vector(&self, number: ObjectNo) -> Result<&[Value], Halt>
        ensures comes { (place : At) → Comes (λ items. key_of items.now) place result (meant.vector place (plain.Object number) (state_of self.now)) (state_of self.now) }
        ensures there { IfOk result (λ items. Some (object.Vector (key_of items.now)) ≡ slice_get (world_of self.now.world).store number.0) }
    {
        match self.world.heap.object(number) {
            Some(lent) => match lent {
                Lent::Record { .. } => Err(UNFIT),
                Lent::Vector(items) => Ok(items),
                Lent::Table(_) => Err(UNFIT),
            },
            None => Err(UNFIT),
        }
    }

    /// How many items a vector has.
    pub fn items(&self, over: &Value) -> Result<usize, Halt>
        ensures { (place : At) → Comes (λ count. count) place result (does.and_then (meant.vector place (value_of over.now) (state_of self.now)) (λ start state. does.Gives (length start) state)) (state_of self.now) }
    {
        let Value::Object(number) = over else {
            return Err(UNFIT);
        };
        let items = self.vector(*number)?;
        Ok(items.len())
    }

    /// `v[n] = x` (Zeek manual, Types, vector). An index at the length appends.
    pub fn set_item(&mut self, vector: &Value, index: &Value, item: Value) -> Result<(), Halt>
        ensures { (place : At) → Comes (λ _. tt) place result (meant.set_item place (value_of vector.now) (value_of index.now) (value_of item) (state_of self.old)) (state_of self.new) }
    {
        let Value::Count(index) = index else {
            return Err(UNFIT);
        };
        let Value::Object(number) = vector else {
            return Err(UNFIT);
        };
        self.set_item_at(*number, *index, item)
    }

    /// Gives a vector's item at an index another value, or adds it at the length.
    fn set_item_at(&mut self, number: ObjectNo, index: u64, item: Value) -> Result<(), Halt>
        ensures { (place : At) → Comes (λ _. tt) place result (meant.set_item place (plain.Object number) (plain.Count index) (value_of item) (state_of self.old)) (state_of self.new) }
    {
        let count = self.vector(number)?.len() as u64;
        if index < count {
            self.world.heap.set_item(number, index as usize, item);
            return Ok(());
        }
        if index > count {
            return Err(Halt::Fault(FaultKind::NoIndex));
        }
        self.world.heap.push_item(number, item)?;
        Ok(())
    }
}
