ghost use Rattle.std.specs.Prelude.{◌≡◌, IfOk};
ghost use Rattle.zk_lower.specs.Run as run;
ghost use Rattle.zk_lower.specs.Steps as steps;
ghost use Rattle.zk_lower.specs.View.{code_of, op_of};
ghost use Rattle.zk_machine.specs.Leads.{Leads, LeadsOn, ran_of};
ghost use Rattle.zk_machine.specs.Running.{held_of, machine_of};
ghost use Rattle.zk_machine.specs.State.{state_of};

use crate::ends::{Ending, Next, placed};
use crate::joined::op_at;
use crate::running::Running;
use std::mem;
use zk_base::Mem;
use zk_lower::{Code, Op, code_ends};

impl Running {
    /// What an operation does. The long ones stand out of line and give the whole step, since a result of their
    /// own would be cleared here at each operation.
    fn operate(&mut self, code: &Code, op: &Op) -> Result<Next, Mem>
        ensures { Leads result (steps.operate (code_of code.now) (op_of op.now) self.old.at (held_of self.old) (state_of self.old.state)) self.new }
    {
        match op {
            Op::Push(value) => {
                self.push_handle(value)?;
                Ok(Next::Goes)
            }
            Op::Local { place, number } => placed(self.local(*number), *place, &mut self.ending),
            Op::Global { place, number } => placed(self.global(*number), *place, &mut self.ending),
            Op::Apply {
                place,
                primitive,
                count,
            } => placed(self.apply(primitive, *count), *place, &mut self.ending),
            Op::New {
                place,
                record,
                fields,
            } => self.make(code, *place, *record, fields.as_slice()),
            Op::Sum { place } => placed(self.add(), *place, &mut self.ending),
            Op::Do {
                place,
                action,
                count,
            } => placed(self.act(action, *count), *place, &mut self.ending),
            Op::Drop => {
                self.drop_value()?;
                Ok(Next::Goes)
            }
            Op::Tick { place } => placed(self.tick(), *place, &mut self.ending),
            Op::Jump { over } => {
                self.jump(*over)?;
                Ok(Next::Goes)
            }
            Op::Unless { place, over } => placed(self.unless(*over), *place, &mut self.ending),
            Op::Turn { place, back } => placed(self.turn(*back), *place, &mut self.ending),
            Op::BeginKeys { place } => self.begin_keys(*place),
            Op::NextKey { place, names, back } => self.next_key(*place, names, *back),
            Op::BeginIndexes { place } => self.begin_indexes(*place),
            Op::NextIndex { place, names, back } => self.next_index(*place, names, *back),
            Op::EndLoop => {
                self.end_loop()?;
                Ok(Next::Goes)
            }
            Op::Call {
                place,
                function,
                count,
            } => self.call_for_value(code, *place, *function, *count),
            Op::Perform {
                place,
                function,
                count,
            } => self.call_alone(code, *place, *function, *count),
            Op::End => self.end(code),
            Op::Give => self.give(code),
            Op::Break => self.break_out(code),
            Op::Hook { place, hook, count } => self.hook(code, *place, *hook, *count),
            Op::Write { place, log } => self.write(code, *place, *log),
        }
    }

    /// Does the operation that is next, or several that are done at once. Past its end the code is done.
    fn step(&mut self, code: &Code) -> Result<Next, Mem>
        ensures { LeadsOn result (code_of code.now) (machine_of self.old) self.new }
    {
        match op_at(code, self.at) {
            Some(op) => match self.joined(code, op) {
                Some(next) => next,
                None => self.operate(code, op),
            },
            None => {
                self.ending = Ending::Done(None);
                Ok(Next::Ends)
            }
        }
    }

    /// Runs code to its end.
    pub fn run(&mut self, code: &Code) -> Result<Ending, Mem>
        ensures { IfOk result (λ ending. run.run (code_of code.now) (machine_of self.old) ≡ ran_of ending (state_of self.new.state)) }
    {
        'steps: loop {
            code_ends();
            match self.step(code)? {
                Next::Goes => {}
                Next::Ends => return Ok(mem::replace(&mut self.ending, Ending::Done(None))),
            }
        }
    }
}
