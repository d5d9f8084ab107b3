ghost use Rattle.std.specs.Prelude.{◌∷◌};
ghost use Rattle.zk_tree.specs.declared.place.Place.{Place as At};
ghost use Rattle.zk_tree.specs.Value as plain;
ghost use Rattle.zk_typed.specs.Primitives as meant;
ghost use Rattle.zk_typed.specs.State as typed;
ghost use Rattle.zk_typed.specs.declared.script.action.Action.TheVariants as action;
ghost use Rattle.zk_typed.specs.declared.script.primitive.Primitive.TheVariants as primitive;
ghost use Rattle.zk_value.specs.Plain.{value_of, key_of};
ghost use Rattle.zk_machine.specs.Comes.{Comes};
ghost use Rattle.zk_machine.specs.State.{state_of};

use crate::counts::counted;
use crate::halt::Halt;
use crate::objects::UNFIT;
use crate::queued::Queued;
use crate::state::{State, handles};
use zk_base::{EventNo, Span};
use zk_builtin::{binary, holds, in_subnet, is_within, unary};
use zk_typed::script::{Action, Binary, BuiltIn, Primitive, Relation, Unary};
use zk_value::Value;

/// Whether a relation holds between two operands (Zeek manual, Operators).
pub fn compared(relation: Relation, operands: &[Value]) -> Result<bool, Halt>
    ensures { (place : At) (state : typed.State) → Comes plain.Bool place result (meant.perform place (primitive.Compare relation) (key_of operands.now) state) state }
{
    match operands {
        [a, b] => Ok(holds(relation, a, b)),
        [] | [_] | [_, _, _, ..] => Err(UNFIT),
    }
}

impl State {
    /// An operator before its operand (Zeek manual, Operators).
    fn unary(&self, operator: Unary, operands: &[Value]) -> Result<Value, Halt>
        ensures { (place : At) → Comes value_of place result (meant.perform place (primitive.Unary operator) (key_of operands.now) (state_of self.now)) (state_of self.now) }
    {
        match operands {
            [value] => Ok(unary(operator, value)?),
            [] | [_, _, ..] => Err(UNFIT),
        }
    }

    /// An operator that computes (Zeek manual, Operators).
    #[inline(never)]
    pub fn binary(&self, operator: Binary, operands: &[Value]) -> Result<Value, Halt>
        ensures { (place : At) → Comes value_of place result (meant.perform place (primitive.Binary operator) (key_of operands.now) (state_of self.now)) (state_of self.now) }
    {
        match operands {
            [a, b] => match counted(operator, a, b) {
                Some(count) => Ok(Value::Count(count)),
                None => Ok(binary(self.world.alloc, operator, a, b)?),
            },
            [] | [_] | [_, _, _, ..] => Err(UNFIT),
        }
    }

    /// An operator that compares (Zeek manual, Operators).
    fn compare(&self, relation: Relation, operands: &[Value]) -> Result<Value, Halt>
        ensures { (place : At) → Comes value_of place result (meant.perform place (primitive.Compare relation) (key_of operands.now) (state_of self.now)) (state_of self.now) }
    {
        let truth = compared(relation, operands)?;
        Ok(Value::Bool(truth))
    }

    /// `k in t`: the key, then the table or set.
    fn has_key_in(&mut self, operands: &[Value]) -> Result<Value, Halt>
        ensures { (place : At) → Comes value_of place result (meant.perform place primitive.HasKey (key_of operands.now) (state_of self.old)) (state_of self.new) }
    {
        match operands.split_last() {
            Some((table, key)) => self.has_key(table, key),
            None => Err(UNFIT),
        }
    }

    /// `s in t` of strings.
    fn has_text(&self, operands: &[Value]) -> Result<Value, Halt>
        ensures { (place : At) → Comes value_of place result (meant.perform place primitive.HasText (key_of operands.now) (state_of self.now)) (state_of self.now) }
    {
        match operands {
            [Value::String(little), Value::String(big)] => {
                Ok(Value::Bool(is_within(little.as_slice(), big.as_slice())))
            }
            _ => Err(UNFIT),
        }
    }

    /// `a in n` of an address and a subnet.
    fn has_address(&self, operands: &[Value]) -> Result<Value, Halt>
        ensures { (place : At) → Comes value_of place result (meant.perform place primitive.HasAddress (key_of operands.now) (state_of self.now)) (state_of self.now) }
    {
        match operands {
            [address, network] => Ok(Value::Bool(in_subnet(address, network))),
            [] | [_] | [_, _, _, ..] => Err(UNFIT),
        }
    }

    /// `n in v` of a vector.
    fn has_index_in(&self, operands: &[Value]) -> Result<Value, Halt>
        ensures { (place : At) → Comes value_of place result (meant.perform place primitive.HasIndex (key_of operands.now) (state_of self.now)) (state_of self.now) }
    {
        match operands {
            [Value::Count(index), value] => self.has_index(*index, value),
            _ => Err(UNFIT),
        }
    }

    /// A call of a built-in function, which costs a unit.
    fn call_built_in(&mut self, function: BuiltIn, operands: &[Value]) -> Result<Value, Halt>
        ensures { (place : At) → Comes value_of place result (meant.perform place (primitive.BuiltIn function) (key_of operands.now) (state_of self.old)) (state_of self.new) }
    {
        self.tick()?;
        self.called(function, operands)
    }

    /// What a primitive gives for its operands (Zeek manual, Expressions).
    pub fn perform(&mut self, primitive: &Primitive, operands: &[Value]) -> Result<Value, Halt>
        ensures { (place : At) → Comes value_of place result (meant.perform place primitive.now (key_of operands.now) (state_of self.old)) (state_of self.new) }
    {
        match primitive {
            Primitive::Unary(operator) => self.unary(*operator, operands),
            Primitive::Binary(operator) => self.binary(*operator, operands),
            Primitive::Compare(relation) => self.compare(*relation, operands),
            Primitive::HasKey => self.has_key_in(operands),
            Primitive::HasText => self.has_text(operands),
            Primitive::HasAddress => self.has_address(operands),
            Primitive::HasIndex => self.has_index_in(operands),
            Primitive::Size => match operands {
                [value] => self.size(value),
                [] | [_, _, ..] => Err(UNFIT),
            },
            Primitive::Field(one) => match operands {
                [value] => self.field(value, one.field),
                [] | [_, _, ..] => Err(UNFIT),
            },
            Primitive::HasField(one) => match operands {
                [value] => self.has_field(value, one.field),
                [] | [_, _, ..] => Err(UNFIT),
            },
            Primitive::Element => match operands {
                [table, key @ ..] => self.element(table, key),
                [] => Err(UNFIT),
            },
            Primitive::Item => match operands {
                [vector, index] => self.item(vector, index),
                [] | [_] | [_, _, _, ..] => Err(UNFIT),
            },
            Primitive::NewTable(shape) => self.new_table(shape, operands),
            Primitive::NewSet(shape) => self.new_set(shape, operands),
            Primitive::NewVector => self.new_vector(operands),
            Primitive::Step { left, by } => self.step(*left, *by, operands),
            Primitive::BuiltIn(function) => self.call_built_in(*function, operands),
            Primitive::Log(call) => match operands {
                [] => {
                    self.tick()?;
                    self.log_call(call)
                }
                [_, ..] => Err(UNFIT),
            },
        }
    }

    /// `schedule d { N(..) };` (Zeek manual, Statements, schedule). Nothing waits once the end has begun.
    fn schedule(&mut self, event: EventNo, delay: Span, args: &[Value]) -> Result<(), Halt>
        ensures { (place : At) → Comes (λ _. tt) place result (meant.act place (action.Schedule event) (plain.Interval delay ∷ key_of args.now) (state_of self.old)) (state_of self.new) }
    {
        let world = &mut self.world;
        if world.is_ending {
            return Ok(());
        }
        let args = handles(world.alloc, args)?;
        let what = Queued { event, args };
        world.schedule.add(world.time, delay, what)?;
        Ok(())
    }

    /// What an action does with its operands (Zeek manual, Statements).
    pub fn act(&mut self, action: &Action, operands: &[Value]) -> Result<(), Halt>
        ensures { (place : At) → Comes (λ _. tt) place result (meant.act place action.now (key_of operands.now) (state_of self.old)) (state_of self.new) }
    {
        match action {
            Action::Print => self.print(operands),
            Action::Assign(side) => match operands {
                [value, operands @ ..] => self.assign_value(*side, value, operands),
                [] => Err(UNFIT),
            },
            Action::Update { left, by } => match operands {
                [value, operands @ ..] => self.update(*left, *by, value, operands),
                [] => Err(UNFIT),
            },
            Action::Forget { local } => match operands {
                [] => {
                    self.set_local(*local, None);
                    Ok(())
                }
                [_, ..] => Err(UNFIT),
            },
            Action::Add => match operands {
                [members, key @ ..] => self.add_member(members, key),
                [] => Err(UNFIT),
            },
            Action::Delete => match operands {
                [table, key @ ..] => self.delete_key(table, key),
                [] => Err(UNFIT),
            },
            Action::Queue(event) => self.queue(*event, operands),
            Action::Schedule(event) => match operands {
                [Value::Interval(delay), args @ ..] => self.schedule(*event, *delay, args),
                _ => Err(UNFIT),
            },
        }
    }
}
