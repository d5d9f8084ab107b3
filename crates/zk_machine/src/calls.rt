ghost use Rattle.std.specs.Prelude.{◌≡◌, true, ◌+◌, ◌-◌, ◌++◌, None as Nothing, Some, map, reverse, take, replicate, length, slice_get, IfOk, OnOk};
ghost use Rattle.std.specs.Option.{option_map};
ghost use Rattle.zk_lower.specs.Frames as plain;
ghost use Rattle.zk_lower.specs.Steps as steps;
ghost use Rattle.zk_lower.specs.View.{body_of, code_of};
ghost use Rattle.zk_tree.specs.declared.place.Place.{Place as At};
ghost use Rattle.zk_typed.specs.Does as does;
ghost use Rattle.zk_typed.specs.Meaning as meaning;
ghost use Rattle.zk_typed.specs.Meaning.{first_locals};
ghost use Rattle.zk_machine.specs.Flows.{flow_of};
ghost use Rattle.zk_value.specs.Plain.{value_of, key_of, field_of};
ghost use Rattle.zk_machine.specs.Leads.{Leads};
ghost use Rattle.zk_machine.specs.Running.{awaits_of, held_of, machine_of, Moves};
ghost use Rattle.zk_machine.specs.State.{state_of};

use crate::ends::{Ending, Next, placed};
use crate::frames::{Awaits, Flow, Frame};
use crate::halt::Halt;
use crate::objects::UNFIT;
use crate::running::{Running, behind, cut};
use std::alloc::Global;
use std::mem;
use zk_base::{HookNo, Mem};
use zk_lower::{BodyCode, Code};
use zk_tree::Place;
use zk_typed::FaultKind;
use zk_value::Value;

/// So many calls may stand within one another.
pub const DEPTH_MAX: usize = 200;

/// Parameters with these values, and room for so many names.
fn params(alloc: Global, values: &[Value], room: usize) -> Result<Vec<Option<Value>>, Mem>
    ensures { IfOk result (λ names. map field_of names.items ≡ map Some (map value_of values.now)) }
{
    let mut names = Vec::with_capacity(alloc, room.max(values.len()))?;
    for value in values {
        match value {
            Value::Count(count) => names.push(Some(Value::Count(*count)))?,
            _ => names.push(Some(value.clone()?))?,
        }
    }
    Ok(names)
}

/// Adds locals without a value, so that there are so many names.
pub fn add_locals(names: &mut Vec<Option<Value>>, locals: usize) -> Result<(), Mem>
    ensures { OnOk result (map field_of names.new.items ≡ map field_of names.old.items ++ replicate (locals - length names.old.items) Nothing) }
{
    let more = locals.saturating_sub(names.len());
    for _ in 0..more {
        names.push(None)?;
    }
    Ok(())
}

/// The names of a body, whose parameters are the last operands, so many of them.
fn body_names(
    alloc: Global,
    stack: &[Value],
    count: usize,
    locals: u32,
) -> Result<Vec<Option<Value>>, Mem>
    ensures { IfOk result (λ names. map field_of names.items ≡ first_locals locals (reverse (take count (map value_of (reverse stack.now))))) }
{
    let from = stack.len().saturating_sub(count);
    let locals = locals as usize;
    let mut names = params(alloc, &stack[from..], locals)?;
    add_locals(&mut names, locals)?;
    Ok(names)
}

/// The body of a function, where the code has it.
pub fn function_in(code: &Code, function: u32) -> Option<BodyCode>
    ensures { option_map body_of result ≡ slice_get (code_of code.now).functions function }
{
    match code.functions.as_slice().get(function as usize) {
        Some(body) => Some(*body),
        None => None,
    }
}

impl Running {
    /// Begins a body with the last operands, so many of them, while the body under way waits.
    fn enter(&mut self, body: BodyCode, count: usize, awaits: Awaits) -> Result<(), Halt>
        ensures { (place : At) → let held = held_of self.old in let state = state_of self.old.state in Moves place result (steps.enter (body_of body) (steps.operands count held)
            (record { back = self.old.at + 1; locals = state.locals; loops = held.loops; awaits = awaits_of awaits }) (steps.without count held) state) (machine_of self.new) }
    {
        let alloc = self.state.world.alloc;
        let Some(back) = behind(self.at, 0) else {
            return Err(Halt::NoMemory);
        };
        let names = body_names(alloc, &self.stack, count, body.locals)?;
        self.frames.push(Frame {
            back,
            locals: mem::replace(&mut self.state.locals, names),
            loops: mem::replace(&mut self.loops, Vec::new(alloc)),
            awaits,
        })?;
        cut(&mut self.stack, count);
        self.at = body.entry;
        Ok(())
    }

    /// Calls a function with the last operands, so many of them.
    fn call(&mut self, code: &Code, function: u32, count: usize, awaits: Awaits) -> Result<(), Halt>
        ensures { (place : At) → let held = held_of self.old in Moves place result (steps.call (code_of code.now) place (awaits_of awaits) function self.old.at (steps.operands count held) (steps.without count held) (state_of self.old.state)) (machine_of self.new) }
    {
        self.state.tick()?;
        if self.frames.len() >= DEPTH_MAX {
            return Err(Halt::Fault(FaultKind::Depth));
        }
        match function_in(code, function) {
            Some(body) => self.enter(body, count, awaits),
            None => Err(UNFIT),
        }
    }

    /// Calls a function whose value is used.
    #[inline(never)]
    pub fn call_for_value(
        &mut self,
        code: &Code,
        place: Place,
        function: u32,
        count: usize,
    ) -> Result<Next, Mem>
        ensures { let held = held_of self.old in Leads result (steps.call (code_of code.now) place (plain.Result place) function self.old.at (steps.operands count held) (steps.without count held) (state_of self.old.state)) self.new }
    {
        let done = self.call(code, function, count, Awaits::Result { place });
        placed(done, place, &mut self.ending)
    }

    /// Calls a function whose value is not used.
    #[inline(never)]
    pub fn call_alone(
        &mut self,
        code: &Code,
        place: Place,
        function: u32,
        count: usize,
    ) -> Result<Next, Mem>
        ensures { let held = held_of self.old in Leads result (steps.call (code_of code.now) place plain.Return function self.old.at (steps.operands count held) (steps.without count held) (state_of self.old.state)) self.new }
    {
        let done = self.call(code, function, count, Awaits::Return);
        placed(done, place, &mut self.ending)
    }

    /// Comes out of the body under way without a value.
    #[inline(never)]
    pub fn end(&mut self, code: &Code) -> Result<Next, Mem>
        ensures { Leads result (steps.come_out (code_of code.now) meaning.Normal (held_of self.old).stack (state_of self.old.state) (held_of self.old).frames) self.new }
    {
        self.come_out(code, Flow::Normal)
    }

    /// Comes out of the body under way by a `break`.
    #[inline(never)]
    pub fn break_out(&mut self, code: &Code) -> Result<Next, Mem>
        ensures { Leads result (steps.come_out (code_of code.now) meaning.Broke (held_of self.old).stack (state_of self.old.state) (held_of self.old).frames) self.new }
    {
        self.come_out(code, Flow::Broke)
    }

    /// Comes out of the body under way.
    pub fn come_out(&mut self, code: &Code, flow: Flow) -> Result<Next, Mem>
        ensures { Leads result (steps.come_out (code_of code.now) (flow_of flow) (held_of self.old).stack (state_of self.old.state) (held_of self.old).frames) self.new }
    {
        let Some(frame) = self.frames.pop() else {
            self.ending = Ending::Done(flow.given());
            return Ok(Next::Ends);
        };
        let Frame {
            back,
            locals,
            loops,
            awaits,
        } = frame;
        self.at = back;
        self.state.locals = locals;
        self.loops = loops;
        self.resume(code, flow, awaits)
    }

    /// Comes out of the body under way with the last operand.
    #[inline(never)]
    pub fn give(&mut self, code: &Code) -> Result<Next, Mem>
        ensures { Leads result (steps.give (code_of code.now) (held_of self.old) (state_of self.old.state)) self.new }
    {
        match self.stack.pop() {
            Some(value) => self.come_out(code, Flow::Returned(Some(value))),
            None => self.come_out(code, Flow::Returned(None)),
        }
    }
}

/// The names of a body with these arguments.
pub fn first_names(alloc: Global, args: &[Value], locals: u32) -> Result<Vec<Option<Value>>, Mem>
    ensures { IfOk result (λ names. map field_of names.items ≡ first_locals locals (key_of args.now)) }
{
    let locals = locals as usize;
    let mut names = params(alloc, args, locals)?;
    add_locals(&mut names, locals)?;
    Ok(names)
}
