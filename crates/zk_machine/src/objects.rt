ghost use Rattle.std.specs.Prelude.{◌≡◌, ◌∷◌, map};
ghost use Rattle.std.specs.Option.{option_map};
ghost use Rattle.zk_tree.specs.declared.place.Place.{Place as At};
ghost use Rattle.zk_tree.specs.Store as object;
ghost use Rattle.zk_tree.specs.Value as plain;
ghost use Rattle.zk_typed.specs.Does as does;
ghost use Rattle.zk_typed.specs.Objects as meant;
ghost use Rattle.zk_typed.specs.Primitives as primitive;
ghost use Rattle.zk_typed.specs.declared.script.action.Action.TheVariants.{Add};
ghost use Rattle.zk_value.specs.Plain.{value_of, key_of, field_of};
ghost use Rattle.zk_machine.specs.Comes.{Comes};
ghost use Rattle.zk_machine.specs.State.{state_of};

use crate::halt::Halt;
use crate::state::{State, handles};
use zk_base::ObjectNo;
use zk_table::Lent;
use zk_typed::FaultKind;
use zk_value::{Key, Value};

/// Values of other types, which no typed program comes to.
pub const UNFIT: Halt = Halt::Fault(FaultKind::Unset);

/// A field's value, where it has one.
fn field_value(fields: &[Option<Value>], number: u32) -> Option<&Value>
    ensures { option_map (λ value. value_of value.now) result ≡ meant.in_field number (map field_of fields.now) }
{
    match fields.get(number as usize) {
        Some(value) => value.as_ref(),
        None => None,
    }
}

impl State {
    /// `r$f` (Zeek manual, Types, record).
    pub fn field(&self, value: &Value, number: u32) -> Result<Value, Halt>
        ensures { (place : At) → Comes value_of place result (meant.field place (value_of value.now) number (state_of self.now)) (state_of self.now) }
    {
        let Value::Object(object) = value else {
            return Err(UNFIT);
        };
        match self.world.heap.object(*object) {
            Some(lent) => match lent {
                Lent::Record { fields, .. } => match field_value(fields, number) {
                    Some(value) => Ok(value.clone()?),
                    None => Err(Halt::Fault(FaultKind::NoField)),
                },
                Lent::Vector(_) => Err(UNFIT),
                Lent::Table(_) => Err(UNFIT),
            },
            None => Err(UNFIT),
        }
    }

    /// `r?$f` (Zeek manual, Operators).
    pub fn has_field(&self, value: &Value, number: u32) -> Result<Value, Halt>
        ensures { (place : At) → Comes value_of place result (meant.has_field place (value_of value.now) number (state_of self.now)) (state_of self.now) }
    {
        let Value::Object(object) = value else {
            return Err(UNFIT);
        };
        match self.world.heap.object(*object) {
            Some(lent) => match lent {
                Lent::Record { fields, .. } => Ok(Value::Bool(field_value(
                    fields, number,
                ).is_some())),
                Lent::Vector(_) => Err(UNFIT),
                Lent::Table(_) => Err(UNFIT),
            },
            None => Err(UNFIT),
        }
    }

    /// `v[n]` (Zeek manual, Types, vector).
    pub fn item(&self, value: &Value, index: &Value) -> Result<Value, Halt>
        ensures { (place : At) → Comes value_of place result (meant.item place (value_of value.now) (value_of index.now) (state_of self.now)) (state_of self.now) }
    {
        let Value::Count(index) = index else {
            return Err(UNFIT);
        };
        let Value::Object(object) = value else {
            return Err(UNFIT);
        };
        match self.world.heap.object(*object) {
            Some(lent) => match lent {
                Lent::Record { .. } => Err(UNFIT),
                Lent::Vector(items) => match items.get(*index as usize) {
                    Some(item) => Ok(item.clone()?),
                    None => Err(Halt::Fault(FaultKind::NoIndex)),
                },
                Lent::Table(_) => Err(UNFIT),
            },
            None => Err(UNFIT),
        }
    }

    /// `n in v` of a vector (Zeek manual, Types, vector).
    pub fn has_index(&self, index: u64, value: &Value) -> Result<Value, Halt>
        ensures { (place : At) → Comes value_of place result (primitive.has_index place index (value_of value.now) (state_of self.now)) (state_of self.now) }
    {
        let Value::Object(object) = value else {
            return Err(UNFIT);
        };
        match self.world.heap.object(*object) {
            Some(lent) => match lent {
                Lent::Record { .. } => Err(UNFIT),
                Lent::Vector(items) => Ok(Value::Bool(index < items.len() as u64)),
                Lent::Table(_) => Err(UNFIT),
            },
            None => Err(UNFIT),
        }
    }

    /// How many items or entries an object has.
    fn object_size(&self, object: ObjectNo) -> Result<Value, Halt>
        ensures { (place : At) → Comes value_of place result (meant.size place (plain.Object object) (state_of self.now)) (state_of self.now) }
    {
        match self.world.heap.object(object) {
            Some(lent) => match lent {
                Lent::Record { .. } => Ok(Value::Count(0)),
                Lent::Vector(items) => Ok(Value::Count(items.len() as u64)),
                Lent::Table(table) => Ok(Value::Count(table.len() as u64)),
            },
            None => Err(UNFIT),
        }
    }

    /// `|x|` (Zeek manual, Operators).
    pub fn size(&self, value: &Value) -> Result<Value, Halt>
        ensures { (place : At) → Comes value_of place result (meant.size place (value_of value.now) (state_of self.now)) (state_of self.now) }
    {
        match value {
            Value::String(bytes) => Ok(Value::Count(bytes.len() as u64)),
            Value::Int(n) => Ok(Value::Count(n.unsigned_abs())),
            Value::Object(object) => self.object_size(*object),
            _ => Err(UNFIT),
        }
    }

    /// `r$f = x` (Zeek manual, Types, record).
    pub fn set_field(&mut self, record: &Value, number: u32, value: Value) -> Result<(), Halt>
        ensures { (place : At) → Comes (λ _. tt) place result (meant.set_field place (value_of record.now) number (value_of value) (state_of self.old)) (state_of self.new) }
    {
        let Value::Object(object) = record else {
            return Err(UNFIT);
        };
        match self.world.heap.object(*object) {
            Some(_) => {
                self.world
                    .heap
                    .set_field(*object, number as usize, Some(value));
                Ok(())
            }
            None => Err(UNFIT),
        }
    }

    /// `t[k] = x` (Zeek manual, Types, table).
    pub fn set_element(&mut self, table: &Value, key: &[Value], element: Value) -> Result<(), Halt>
        ensures { (place : At) → Comes (λ _. tt) place result (meant.set_element place (value_of table.now) (key_of key.now) (value_of element) (state_of self.old)) (state_of self.new) }
    {
        let Value::Object(object) = table else {
            return Err(UNFIT);
        };
        let key = Key::copy_of(self.world.alloc, key)?;
        self.insert(*object, key, element)
    }

    /// Gives the entry at a key of a table or a set a value.
    pub fn insert(&mut self, number: ObjectNo, key: Key, element: Value) -> Result<(), Halt>
        ensures { (place : At) → Comes (λ _. tt) place result (meant.set_element place (plain.Object number) (key_of key) (value_of element) (state_of self.old)) (state_of self.new) }
    {
        match self.world.heap.object(number) {
            Some(lent) => match lent {
                Lent::Record { .. } => Err(UNFIT),
                Lent::Vector(_) => Err(UNFIT),
                Lent::Table(_) => {
                    self.world
                        .heap
                        .insert(number, self.world.time, key, element)?;
                    Ok(())
                }
            },
            None => Err(UNFIT),
        }
    }

    /// `add s[k]` (Zeek manual, Statements, add).
    pub fn add_member(&mut self, members: &Value, key: &[Value]) -> Result<(), Halt>
        ensures { (place : At) → Comes (λ _. tt) place result (primitive.act place Add (value_of members.now ∷ key_of key.now) (state_of self.old)) (state_of self.new) }
    {
        self.set_element(members, key, Value::Bool(true))
    }

    /// `delete t[k]` (Zeek manual, Statements, delete).
    pub fn delete_key(&mut self, table: &Value, key: &[Value]) -> Result<(), Halt>
        ensures { (place : At) → Comes (λ _. tt) place result (meant.delete_key place (value_of table.now) (key_of key.now) (state_of self.old)) (state_of self.new) }
    {
        let Value::Object(object) = table else {
            return Err(UNFIT);
        };
        match self.world.heap.object(*object) {
            Some(lent) => match lent {
                Lent::Record { .. } => Err(UNFIT),
                Lent::Vector(_) => Err(UNFIT),
                Lent::Table(_) => {
                    let key = Key::copy_of(self.world.alloc, key)?;
                    self.world.heap.remove(*object, &key);
                    Ok(())
                }
            },
            None => Err(UNFIT),
        }
    }

    /// `vector(x, ..)`
    pub fn new_vector(&mut self, items: &[Value]) -> Result<Value, Halt>
        ensures { (place : At) → Comes value_of place result (does.new_object (object.Vector (key_of items.now)) (state_of self.old)) (state_of self.new) }
    {
        let items = handles(self.world.alloc, items)?;
        self.made_vector(items)
    }

    /// A new vector of these items, of which none is copied.
    pub fn made_vector(&mut self, items: Vec<Value>) -> Result<Value, Halt>
        ensures { (place : At) → Comes value_of place result (does.new_object (object.Vector (key_of items.items)) (state_of self.old)) (state_of self.new) }
    {
        let number = self.world.heap.add_vector(items)?;
        Ok(Value::Object(number))
    }
}
