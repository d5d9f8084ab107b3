ghost use Rattle.std.specs.Prelude.{map};
ghost use Rattle.std.specs.Option.{option_map};
ghost use Rattle.zk_tree.specs.declared.place.Place.{Place as At};
ghost use Rattle.zk_typed.specs.Objects as meant;
ghost use Rattle.zk_typed.specs.View.{field_of as plain_field};
ghost use Rattle.zk_lower.specs.Steps as steps;
ghost use Rattle.zk_value.specs.Plain.{value_of, key_of, field_of};
ghost use Rattle.zk_machine.specs.Comes.{Comes};
ghost use Rattle.zk_machine.specs.State.{state_of};
ghost use Rattle.std.specs.Prelude.{◌≡◌};

use crate::defaults::made;
use crate::halt::Halt;
use crate::state::State;
use zk_base::RecordNo;
use zk_typed::script::{DefaultValue, Field};
use zk_value::Value;

/// The value that is given to a field, lent.
fn given_at<'a>(number: usize, given: &[u32], operands: &'a [Value]) -> Option<&'a Value>
    ensures { option_map (λ value. value_of value.now) result ≡ meant.given_at number (steps.given given.now (key_of operands.now)) }
{
    for place in 0..given.len().min(operands.len()) {
        if given[place] as usize == number {
            return Some(&operands[place]);
        }
    }
    None
}

impl State {
    /// What a field begins with that isn't given.
    fn not_given(&mut self, begins: &Option<DefaultValue>) -> Result<Option<Value>, Halt>
        ensures { (place : At) → Comes field_of place result (meant.not_given place begins.now (state_of self.old)) (state_of self.new) }
    {
        match begins {
            Some(default) => {
                let value = made(self.world.alloc, &mut self.world.heap, default)?;
                Ok(Some(value))
            }
            None => Ok(None),
        }
    }

    /// What a field begins with.
    fn first_value(&mut self, field: &Field, given: Option<&Value>) -> Result<Option<Value>, Halt>
        ensures { (place : At) → Comes field_of place result (meant.first_value place (plain_field field.now) (option_map (λ value. value_of value.now) given.entry) (state_of self.old)) (state_of self.new) }
    {
        match given {
            Some(value) => Ok(Some(value.clone()?)),
            None => self.not_given(&field.begins),
        }
    }

    /// What the fields begin with, of which some are given values.
    fn first_values(
        &mut self,
        fields: &[Field],
        given: &[u32],
        operands: &[Value],
    ) -> Result<Vec<Option<Value>>, Halt>
        ensures { (place : At) → Comes (λ values. map field_of values.items) place result (meant.first_values place (steps.given given.now (key_of operands.now)) 0 (map plain_field fields.now) (state_of self.old)) (state_of self.new) }
    {
        let mut values = Vec::with_capacity(self.world.alloc, fields.len())?;
        for (number, field) in fields.iter().enumerate() {
            let value = self.first_value(field, given_at(number, given, operands))?;
            values.push(value)?;
        }
        Ok(values)
    }

    /// `R($f=x, ..)` (Zeek manual, Types, record): a new record of a type with these fields, of which some
    /// are given values.
    pub fn new_record(
        &mut self,
        number: RecordNo,
        fields: &[Field],
        given: &[u32],
        operands: &[Value],
    ) -> Result<Value, Halt>
        ensures { (place : At) → Comes value_of place result (meant.new_record place number (map plain_field fields.now) (steps.given given.now (key_of operands.now)) (state_of self.old)) (state_of self.new) }
    {
        let values = self.first_values(fields, given, operands)?;
        let number = self.world.heap.add_record(number, values)?;
        Ok(Value::Object(number))
    }
}
