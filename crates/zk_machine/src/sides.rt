ghost use Rattle.zk_tree.specs.declared.place.Place.{Place as At};
ghost use Rattle.zk_typed.specs.Does as does;
ghost use Rattle.zk_typed.specs.Operators as operators;
ghost use Rattle.zk_typed.specs.Primitives as primitive;
ghost use Rattle.std.specs.Prelude.{[], ◌∷◌};
ghost use Rattle.zk_typed.specs.declared.script.action.Action.TheVariants as action;
ghost use Rattle.zk_typed.specs.declared.script.action.Left.TheVariants as left;
ghost use Rattle.zk_typed.specs.declared.script.primitive.Primitive.TheVariants as one;
ghost use Rattle.zk_value.specs.Plain.{value_of, key_of};
ghost use Rattle.zk_machine.specs.Comes.{Comes};
ghost use Rattle.zk_machine.specs.State.{state_of};

use crate::counts::counted;
use crate::halt::Halt;
use crate::objects::UNFIT;
use crate::state::{State, named};
use zk_builtin::stepped;
use zk_typed::script::{Binary, Direction, Left};
use zk_value::Value;

impl State {
    /// The value of a left side with these operands.
    fn left_value(&mut self, side: Left, operands: &[Value]) -> Result<Value, Halt>
        ensures { (place : At) → Comes value_of place result (primitive.left_value place side (key_of operands.now) (state_of self.old)) (state_of self.new) }
    {
        match (side, operands) {
            (Left::Local(number), []) => self.local(number),
            (Left::Global(number), []) => self.global(number),
            (Left::Field(one), [value]) => self.field(value, one.field),
            (Left::Element, [table, key @ ..]) => self.element(table, key),
            (Left::Item, [vector, index]) => self.item(vector, index),
            _ => Err(UNFIT),
        }
    }

    /// Gives a left side with these operands a value.
    fn assign(&mut self, side: Left, operands: &[Value], value: Value) -> Result<(), Halt>
        ensures { (place : At) → Comes (λ _. tt) place result (primitive.assign place side (key_of operands.now) (value_of value) (state_of self.old)) (state_of self.new) }
    {
        match (side, operands) {
            (Left::Local(number), []) => {
                self.set_local(number, Some(value));
                Ok(())
            }
            (Left::Global(number), []) => {
                self.set_global(number, Some(value));
                Ok(())
            }
            (Left::Field(one), [of]) => self.set_field(of, one.field, value),
            (Left::Element, [table, key @ ..]) => self.set_element(table, key, value),
            (Left::Item, [vector, index]) => self.set_item(vector, index, value),
            _ => Err(UNFIT),
        }
    }

    /// `left = x;` (Zeek manual, Operators).
    pub fn assign_value(
        &mut self,
        side: Left,
        value: &Value,
        operands: &[Value],
    ) -> Result<(), Halt>
        ensures { (place : At) → Comes (λ _. tt) place result (primitive.act place (action.Assign side) (value_of value.now ∷ key_of operands.now) (state_of self.old)) (state_of self.new) }
    {
        match (side, operands) {
            (Left::Local(number), []) => self.assign_local(number, value),
            _ => self.assign(side, operands, value.clone()?),
        }
    }

    /// `x = y;` of a local.
    fn assign_local(&mut self, number: u32, value: &Value) -> Result<(), Halt>
        ensures { (place : At) → Comes (λ _. tt) place result (primitive.act place (action.Assign (left.Local number)) (value_of value.now ∷ []) (state_of self.old)) (state_of self.new) }
    {
        match value {
            Value::Count(count) => self.set_count(number, *count),
            _ => self.set_local(number, Some(value.clone()?)),
        }
        Ok(())
    }

    /// `++x` or `--x` (Zeek manual, Operators).
    pub fn step(&mut self, side: Left, by: Direction, operands: &[Value]) -> Result<Value, Halt>
        ensures { (place : At) → Comes value_of place result (primitive.perform place (one.Step side by) (key_of operands.now) (state_of self.old)) (state_of self.new) }
    {
        let before = self.left_value(side, operands)?;
        let after = stepped(by, &before)?;
        self.assign(side, operands, after.clone()?)?;
        Ok(after)
    }

    /// `left += x;` or `left -= x;` (Zeek manual, Operators).
    pub fn update(
        &mut self,
        side: Left,
        by: Binary,
        value: &Value,
        operands: &[Value],
    ) -> Result<(), Halt>
        ensures { (place : At) → Comes (λ _. tt) place result (primitive.act place (action.Update side by) (value_of value.now ∷ key_of operands.now) (state_of self.old)) (state_of self.new) }
    {
        match (side, operands) {
            (Left::Local(number), []) => self.update_local(number, by, value),
            _ => self.update_any(side, by, value, operands),
        }
    }

    /// `left += x;` or `left -= x;` of any left side.
    #[inline(never)]
    fn update_any(
        &mut self,
        side: Left,
        by: Binary,
        value: &Value,
        operands: &[Value],
    ) -> Result<(), Halt>
        ensures { (place : At) → Comes (λ _. tt) place result (primitive.act place (action.Update side by) (value_of value.now ∷ key_of operands.now) (state_of self.old)) (state_of self.new) }
    {
        let before = self.left_value(side, operands)?;
        let after = self.updated(by, &before, value)?;
        self.assign(side, operands, after)
    }

    /// `x += y;` or `x -= y;` of a local.
    fn update_local(&mut self, number: u32, by: Binary, value: &Value) -> Result<(), Halt>
        ensures { (place : At) → Comes (λ _. tt) place result (primitive.act place (action.Update (left.Local number) by) (value_of value.now ∷ []) (state_of self.old)) (state_of self.new) }
    {
        let before = named(&self.locals, number)?;
        match counted(by, before, value) {
            Some(count) => {
                self.set_count(number, count);
                Ok(())
            }
            None => self.update_any(Left::Local(number), by, value, &[]),
        }
    }
}
