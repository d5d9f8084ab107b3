ghost use Rattle.std.specs.Prelude.{◌≡◌, ◌==◌, ◌++◌, [], Some, codes, map, slice_set, IfOk, OnOk, if◌then◌else◌};
ghost use Rattle.zk_tree.specs.declared.place.Place.{Place as At};
ghost use Rattle.zk_tree.specs.Value as plain;
ghost use Rattle.zk_typed.specs.Does as does;
ghost use Rattle.zk_typed.specs.State as typed;
ghost use Rattle.zk_typed.specs.declared.ends.FaultKind.TheVariants.{Unset};
ghost use Rattle.zk_typed.specs.declared.script.action.Action.TheVariants.{Print, Queue};
ghost use Rattle.zk_typed.specs.Primitives.{act};
ghost use Rattle.zk_typed.specs.Text as text;
ghost use Rattle.zk_value.specs.Plain.{value_of, key_of, field_of};
ghost use Rattle.zk_machine.specs.Comes.{Comes};
ghost use Rattle.zk_machine.specs.State.{state_of};

use crate::halt::Halt;
use crate::queued::Queued;
use crate::world::World;
use std::alloc::{AllocError, Global};
use zk_base::{Bytes, EventNo, Mem};
use zk_builtin::push_value;
use zk_typed::FaultKind;
use zk_value::{Out, Value};

/// What code runs in: the world, the names of the body under way, and the units that are left to it.
#[derive(Debug, Drop)]
pub struct State {
    pub world: World,
    /// The parameters and locals by their numbers, each where it has a value.
    pub locals: Vec<Option<Value>>,
    pub units: u64,
}

/// The value of a name by its number, lent, where it has one.
pub fn named(values: &[Option<Value>], number: u32) -> Result<&Value, Halt>
    ensures { (place : At) (state : typed.State) → Comes (λ value. value_of value.now) place result (does.or_fault Unset place (does.named (map field_of values.now) number) state) state }
{
    match values.get(number as usize) {
        Some(value) => match value {
            Some(value) => Ok(value),
            None => Err(Halt::Fault(FaultKind::Unset)),
        },
        None => Err(Halt::Fault(FaultKind::Unset)),
    }
}

/// Gives a name a value, or takes its value away. There is nothing to do where no name has the number.
pub fn set_named(values: &mut Vec<Option<Value>>, number: u32, value: Option<Value>)
    ensures { map field_of values.new.items ≡ slice_set (map field_of values.old.items) number (field_of value) }
{
    let place = number as usize;
    if place < values.len() {
        values[place] = value;
    }
}

/// Gives a name a count as its value. No whole value is copied.
fn name_count(values: &mut Vec<Option<Value>>, number: u32, count: u64)
    ensures { map field_of values.new.items ≡ slice_set (map field_of values.old.items) number (Some (plain.Count count)) }
{
    let place = number as usize;
    if place < values.len() {
        values[place] = Some(Value::Count(count));
    }
}

impl State {
    /// Takes a unit, as each statement does that begins, each turn, each call and each body of a hook.
    pub fn tick(&mut self) -> Result<(), Halt>
        ensures { (place : At) → Comes (λ _. tt) place result (does.tick place (state_of self.old)) (state_of self.new) }
    {
        match self.units.checked_sub(1) {
            Some(units) => {
                self.units = units;
                Ok(())
            }
            None => Err(Halt::Spent),
        }
    }

    /// The value of a local or a parameter.
    pub fn local(&self, number: u32) -> Result<Value, Halt>
        ensures { (place : At) → Comes value_of place result (does.local place number (state_of self.now)) (state_of self.now) }
    {
        let value = named(&self.locals, number)?;
        Ok(handle(value)?)
    }

    /// Gives a local or a parameter a count as its value.
    pub fn set_count(&mut self, number: u32, count: u64)
        ensures { does.set_local number (Some (plain.Count count)) (state_of self.old) ≡ does.Gives tt (state_of self.new) }
    {
        name_count(&mut self.locals, number, count);
    }

    /// Gives a local or a parameter a value, or takes its value away.
    pub fn set_local(&mut self, number: u32, value: Option<Value>)
        ensures { does.set_local number (field_of value) (state_of self.old) ≡ does.Gives tt (state_of self.new) }
    {
        set_named(&mut self.locals, number, value);
    }

    /// The value of a global or a constant.
    pub fn global(&self, number: u32) -> Result<Value, Halt>
        ensures { (place : At) → Comes value_of place result (does.global place number (state_of self.now)) (state_of self.now) }
    {
        let value = named(self.world.globals.as_slice(), number)?;
        Ok(handle(value)?)
    }

    /// Gives a global or a constant a value, or takes its value away.
    pub fn set_global(&mut self, number: u32, value: Option<Value>)
        ensures { does.set_global number (field_of value) (state_of self.old) ≡ does.Gives tt (state_of self.new) }
    {
        self.world.set_global(number, value);
    }

    /// `print a, b;` (Zeek manual, Statements, print).
    pub fn print(&mut self, values: &[Value]) -> Result<(), Halt>
        ensures { (place : At) → Comes (λ _. tt) place result (act place Print (key_of values.now) (state_of self.old)) (state_of self.new) }
    {
        let line = line_of(self.world.alloc, values)?;
        self.world.out.push_back(Out::Line(line))?;
        Ok(())
    }

    /// `event N(..);` (Zeek manual, Statements, event).
    pub fn queue(&mut self, event: EventNo, args: &[Value]) -> Result<(), Halt>
        ensures { (place : At) → Comes (λ _. tt) place result (act place (Queue event) (key_of args.now) (state_of self.old)) (state_of self.new) }
    {
        let args = handles(self.world.alloc, args)?;
        self.world.queue.push_back(Queued { event, args })?;
        Ok(())
    }
}

/// Another handle to a value. A count is written anew, since a whole value is slow to copy.
#[inline(always)]
pub fn handle(value: &Value) -> Result<Value, Mem>
    ensures { IfOk result (λ copy. copy ≡ value.now) }
{
    match value {
        Value::Count(count) => Ok(Value::Count(*count)),
        _ => Ok(value.clone()?),
    }
}

/// Handles to these values.
pub fn handles(alloc: Global, values: &[Value]) -> Result<Vec<Value>, Mem>
    ensures { IfOk result (λ copy. copy.items ≡ values.now) }
{
    let mut copy = Vec::with_capacity(alloc, values.len())?;
    for value in values {
        match value {
            Value::Count(count) => copy.push(Value::Count(*count))?,
            _ => copy.push(value.clone()?)?,
        }
    }
    Ok(copy)
}

/// Adds what stands before a value of a line: nothing before the first, and `, ` before another.
fn push_separator(line: &mut Vec<u8>, number: usize) -> Result<(), AllocError>
    ensures { OnOk result (line.new.items ≡ line.old.items ++ (if number == 0 then [] else codes ", ")) }
{
    if number == 0 {
        return Ok(());
    }
    line.extend_from_slice(b", ")
}

/// The line of values that are printed together, without its end.
fn line_of(alloc: Global, values: &[Value]) -> Result<Bytes, Mem>
    ensures { IfOk result (λ line. line ≡ text.line_of (key_of values.now)) }
{
    let mut line = Vec::new(alloc);
    for (number, value) in values.iter().enumerate() {
        push_separator(&mut line, number)?;
        push_value(&mut line, value)?;
    }
    Ok(Bytes::from(line))
}
