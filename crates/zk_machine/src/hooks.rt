ghost use Rattle.std.specs.Prelude.{◌≡◌, true, None as Nothing, map, reverse, take, IfOk, OnOk};
ghost use Rattle.zk_lower.specs.Steps as steps;
ghost use Rattle.zk_lower.specs.View.{body_of, code_of};
ghost use Rattle.zk_tree.specs.declared.place.Place.{Place as At};
ghost use Rattle.zk_typed.specs.Does as does;
ghost use Rattle.zk_value.specs.Plain.{value_of, key_of};
ghost use Rattle.zk_machine.specs.Comes.{Comes};
ghost use Rattle.zk_machine.specs.Flows.{flow_of};
ghost use Rattle.zk_machine.specs.Leads.{Leads};
ghost use Rattle.zk_machine.specs.Onwards.{onward_of};
ghost use Rattle.zk_machine.specs.Running.{awaits_of, held_of, machine_of, waiting_of, waits_of, Moves};
ghost use Rattle.zk_machine.specs.State.{state_of};

use crate::calls::{DEPTH_MAX, first_names};
use crate::ends::{Ending, Next, placed};
use crate::frames::{Awaits, Flow, Frame, Waiting, Write};
use crate::halt::Halt;
use crate::objects::UNFIT;
use crate::onward::{Asked, Onward};
use crate::running::{Running, behind, cut};
use crate::state::{State, handles};
use std::alloc::Global;
use std::mem;
use zk_base::{HookNo, LogId, Mem};
use zk_lower::{BodyCode, Code};
use zk_tree::Place;
use zk_typed::FaultKind;
use zk_value::Value;

/// The bodies of a hook, lent.
fn lent_bodies(code: &Code, number: HookNo) -> &[BodyCode]
    ensures { map body_of result.now ≡ steps.hook_in (code_of code.now) number }
{
    match code.hooks.as_slice().get(number.0 as usize) {
        Some(bodies) => bodies.as_slice(),
        None => &[],
    }
}

/// The bodies of a hook, the first one last.
pub fn hook_bodies(alloc: Global, code: &Code, number: HookNo) -> Result<Vec<BodyCode>, Mem>
    ensures { IfOk result (λ list. map body_of (reverse list.items) ≡ steps.hook_in (code_of code.now) number) }
{
    let bodies = lent_bodies(code, number);
    let mut list = Vec::from_slice(alloc, bodies)?;
    list.reverse();
    Ok(list)
}

/// Handles to the last operands, so many of them.
fn last_handles(alloc: Global, stack: &[Value], count: usize) -> Result<Vec<Value>, Mem>
    ensures { IfOk result (λ list. key_of list.items ≡ reverse (take count (map value_of (reverse stack.now)))) }
{
    let from = stack.len().saturating_sub(count);
    let list = handles(alloc, &stack[from..])?;
    Ok(list)
}

impl State {
    /// What comes behind a body of a hook: the next one, unless it ended by a `break`.
    fn after_body(
        &mut self,
        code: &Code,
        left: usize,
        args: Vec<Value>,
        others: Vec<BodyCode>,
        write: Option<Write>,
        flow: Flow,
    ) -> Result<Onward, Halt>
        ensures { (place : At) → Comes onward_of place result (steps.after_body (code_of code.now) left place (key_of args.items) (map body_of (reverse others.items)) (waits_of write) (flow_of flow) (state_of self.old)) (state_of self.new) }
    {
        match flow {
            Flow::Broke => self.after_hook(code, left, false, write),
            Flow::Normal => self.next_body(code, left, args, others, write),
            Flow::Returned(_) => self.next_body(code, left, args, others, write),
        }
    }

    /// A call of a hook, within the depth that is left.
    fn begin_hook(
        &mut self,
        code: &Code,
        left: usize,
        number: HookNo,
        args: Vec<Value>,
    ) -> Result<Onward, Halt>
        ensures { (place : At) → Comes onward_of place result (steps.at_depth left place (steps.bodies place (key_of args.items) (steps.hook_in (code_of code.now) number) (does.pure (steps.Answer true)) Nothing) (state_of self.old)) (state_of self.new) }
    {
        if left == 0 {
            return Err(Halt::Fault(FaultKind::Depth));
        }
        let others = hook_bodies(self.world.alloc, code, number)?;
        self.next_body(code, left, args, others, None)
    }
}

impl Running {
    /// How many more calls may stand within one another.
    fn left(&self) -> usize
        ensures { result ≡ steps.room (held_of self.now) }
    {
        DEPTH_MAX.saturating_sub(self.frames.len())
    }

    /// Pushes the value of a hook or of a write, or begins a body, while the body under way waits that goes
    /// on at a place.
    fn go_onward(&mut self, back: usize, place: Place, onward: Onward) -> Result<(), Mem>
        ensures { OnOk result (steps.onward back place (held_of self.old) (onward_of onward) (state_of self.old.state) ≡ steps.Goes (machine_of self.new)) }
    {
        match onward {
            Onward::Answer(ran) => {
                self.stack.push(Value::Bool(ran))?;
                self.at = back;
                Ok(())
            }
            Onward::Body { asked, write } => self.enter_body(back, place, asked, write),
        }
    }

    /// Begins a body of a hook, while the body under way waits for it and for those after it.
    fn enter_body(
        &mut self,
        back: usize,
        place: Place,
        asked: Asked,
        write: Option<Write>,
    ) -> Result<(), Mem>
        ensures { OnOk result (let state = state_of self.old.state in steps.enter (body_of asked.body) (key_of asked.args.items)
            (record { back = back; locals = state.locals; loops = (held_of self.old).loops; awaits = waiting_of (record { place = place; args = asked.args; others = asked.others; write = write }) }) (held_of self.old) state ≡ steps.Goes (machine_of self.new)) }
    {
        let Asked { body, args, others } = asked;
        let alloc = self.state.world.alloc;
        let names = first_names(alloc, &args, body.locals)?;
        let waiting = Box::new(
            alloc,
            Waiting {
                place,
                args,
                others,
                write,
            },
        )?;
        self.frames.push(Frame {
            back,
            locals: mem::replace(&mut self.state.locals, names),
            loops: mem::replace(&mut self.loops, Vec::new(alloc)),
            awaits: Awaits::Bodies(waiting),
        })?;
        self.at = body.entry;
        Ok(())
    }

    /// Begins the bodies of a hook with the last operands, so many of them.
    fn begin_bodies(
        &mut self,
        code: &Code,
        place: Place,
        number: HookNo,
        count: usize,
    ) -> Result<(), Halt>
        ensures { Moves place result (steps.hook (code_of code.now) place number self.old.at (steps.operands count (held_of self.old)) (steps.without count (held_of self.old)) (state_of self.old.state)) (machine_of self.new) }
    {
        let Some(back) = behind(self.at, 0) else {
            return Err(Halt::NoMemory);
        };
        let left = self.left();
        let args = last_handles(self.state.world.alloc, &self.stack, count)?;
        cut(&mut self.stack, count);
        self.state.tick()?;
        let onward = self.state.begin_hook(code, left, number, args)?;
        self.go_onward(back, place, onward)?;
        Ok(())
    }

    /// Calls a hook with the last operands, so many of them.
    #[inline(never)]
    pub fn hook(
        &mut self,
        code: &Code,
        place: Place,
        number: HookNo,
        count: usize,
    ) -> Result<Next, Mem>
        ensures { Leads result (steps.hook (code_of code.now) place number self.old.at (steps.operands count (held_of self.old)) (steps.without count (held_of self.old)) (state_of self.old.state)) self.new }
    {
        let done = self.begin_bodies(code, place, number, count);
        placed(done, place, &mut self.ending)
    }

    /// Takes a record and writes it to a log.
    fn write_top(&mut self, code: &Code, place: Place, log: LogId) -> Result<(), Halt>
        ensures { Moves place result (steps.with_top place (held_of self.old) (state_of self.old.state) (steps.write (code_of code.now) place log self.old.at (state_of self.old.state))) (machine_of self.new) }
    {
        match self.stack.pop() {
            Some(row) => self.write_row_of(code, place, log, row),
            None => Err(UNFIT),
        }
    }

    /// Writes the record that is the last operand to a log.
    #[inline(never)]
    pub fn write(&mut self, code: &Code, place: Place, log: LogId) -> Result<Next, Mem>
        ensures { Leads result (steps.with_top place (held_of self.old) (state_of self.old.state) (steps.write (code_of code.now) place log self.old.at (state_of self.old.state))) self.new }
    {
        let done = self.write_top(code, place, log);
        placed(done, place, &mut self.ending)
    }

    /// Writes a record to a log.
    fn write_row_of(
        &mut self,
        code: &Code,
        place: Place,
        log: LogId,
        row: Value,
    ) -> Result<(), Halt>
        ensures { Moves place result (steps.write (code_of code.now) place log self.old.at (state_of self.old.state) (value_of row) (held_of self.old)) (machine_of self.new) }
    {
        let Some(back) = behind(self.at, 0) else {
            return Err(Halt::NoMemory);
        };
        let left = self.left();
        self.state.tick()?;
        let onward = self.state.begin_write(code, left, log, row)?;
        self.go_onward(back, place, onward)?;
        Ok(())
    }

    /// Goes on with the body that waited.
    pub fn resume(&mut self, code: &Code, flow: Flow, awaits: Awaits) -> Result<Next, Mem>
        ensures { Leads result (steps.resume (code_of code.now) (flow_of flow) self.old.at (held_of self.old) (state_of self.old.state) (awaits_of awaits)) self.new }
    {
        match awaits {
            Awaits::Return => Ok(Next::Goes),
            Awaits::Result { place } => match flow.given() {
                Some(value) => {
                    self.stack.push(value)?;
                    Ok(Next::Goes)
                }
                None => {
                    let kind = FaultKind::Unset;
                    self.ending = Ending::Fault { kind, place };
                    Ok(Next::Ends)
                }
            },
            Awaits::Bodies(waiting) => self.resume_hook(code, Box::into_inner(waiting), flow),
        }
    }

    /// Goes on with a hook, of which a body came out so.
    #[inline(never)]
    fn resume_hook(&mut self, code: &Code, waiting: Waiting, flow: Flow) -> Result<Next, Mem>
        ensures { Leads result (steps.resume (code_of code.now) (flow_of flow) self.old.at (held_of self.old) (state_of self.old.state) (waiting_of waiting)) self.new }
    {
        let Waiting {
            place,
            args,
            others,
            write,
        } = waiting;
        let done = self.resume_bodies(code, place, args, others, write, flow);
        placed(done, place, &mut self.ending)
    }

    /// Goes on with these bodies of a hook and its write, of which a body came out so.
    fn resume_bodies(
        &mut self,
        code: &Code,
        place: Place,
        args: Vec<Value>,
        others: Vec<BodyCode>,
        write: Option<Write>,
        flow: Flow,
    ) -> Result<(), Halt>
        ensures { Moves place result (steps.by (steps.after_body (code_of code.now) (steps.room (held_of self.old)) place (key_of args.items) (map body_of (reverse others.items)) (waits_of write) (flow_of flow) (state_of self.old.state)) (steps.onward self.old.at place (held_of self.old))) (machine_of self.new) }
    {
        let left = self.left();
        let onward = self
            .state
            .after_body(code, left, args, others, write, flow)?;
        self.go_onward(self.at, place, onward)?;
        Ok(())
    }
}
