ghost use Rattle.std.specs.Prelude.{◌≡◌, [], ◌∷◌, Some, true, map, reverse, IfOk, OnOk};
ghost use Rattle.zk_lower.specs.Code.{types_in};
ghost use Rattle.zk_lower.specs.Steps as steps;
ghost use Rattle.zk_lower.specs.View.{body_of, code_of};
ghost use Rattle.zk_tree.specs.declared.place.Place.{Place as At};
ghost use Rattle.zk_typed.specs.Does as does;
ghost use Rattle.zk_typed.specs.Logs as logs;
ghost use Rattle.zk_typed.specs.Predefined.{filter_record};
ghost use Rattle.zk_tree.specs.Value as plain;
ghost use Rattle.zk_value.specs.Plain.{value_of, key_of};
ghost use Rattle.zk_machine.specs.Comes.{Comes};
ghost use Rattle.zk_machine.specs.Onwards.{Begins, begins_of, filters_from, one_body, one_call, one_filter, one_policy, onward_of, policy_values, row_then};
ghost use Rattle.zk_machine.specs.Running.{pending_of, stream_in, waits_of};
ghost use Rattle.zk_machine.specs.State.{state_of};

use crate::frames::Write;
use crate::halt::Halt;
use crate::hooks::hook_bodies;
use crate::make::fields_in;
use crate::queued::Queued;
use crate::state::State;
use crate::streams::stream_copy;
use std::alloc::Global;
use zk_base::{EventNo, HookNo, LogId, Mem, RecordNo};
use zk_lower::{BodyCode, Code};
use zk_streams::Filter;
use zk_typed::FaultKind;
use zk_value::{SharedBytes, Value};

/// `Log::Filter`, the record type of what a policy is told of its filter.
const FILTER_RECORD: RecordNo = RecordNo(7);

/// The numbers of its fields for the name and the path.
const NAME_AND_PATH: [u32; 2] = [0, 1];

/// What is left of a hook or of a write: its value, or a body that runs first.
#[derive(Debug, Drop)]
pub enum Onward {
    Answer(bool),
    Body {
        asked: Asked,
        /// The write that waits for the hook.
        write: Option<Write>,
    },
}

/// A body of a hook that is to run, its arguments, and the bodies after it, the next one last.
#[derive(Debug, Drop)]
pub struct Asked {
    pub body: BodyCode,
    pub args: Vec<Value>,
    pub others: Vec<BodyCode>,
}

/// The policy of a filter, or that of its stream.
fn policy_of(write: &Write, filter: &Filter) -> Option<HookNo>
    ensures { result ≡ logs.policy_of (stream_in write.now) filter.now }
{
    match filter.policy {
        Some(hook) => Some(hook),
        None => write.stream.policy,
    }
}

/// The path of a filter, or that of its stream.
pub fn path_of<'a>(write: &'a Write, filter: &'a Filter) -> &'a [u8]
    ensures { result.now ≡ logs.path_of (stream_in write.now) filter.now }
{
    match &filter.path {
        Some(path) => path.as_slice(),
        None => write.stream.path.as_slice(),
    }
}

/// The word of a log.
fn log_word(code: &Code, log: LogId) -> &[u8]
    ensures { result.now ≡ logs.log_word (types_in (code_of code.now)) log }
{
    match code.logs.as_slice().get(log.0 as usize) {
        Some(one) => one.word.as_slice(),
        None => &[],
    }
}

/// The name and the path of a filter.
fn name_and_path(alloc: Global, write: &Write, filter: &Filter) -> Result<Vec<Value>, Mem>
    ensures { IfOk result (λ values. key_of values.items ≡ plain.String filter.now.name ∷ plain.String (logs.path_of (stream_in write.now) filter.now) ∷ []) }
{
    let name = SharedBytes::copy_of(alloc, filter.name.as_slice())?;
    let path = SharedBytes::copy_of(alloc, path_of(write, filter))?;
    Ok(vec![in alloc; Value::String(name), Value::String(path)]?)
}

/// The arguments of a policy: the row, the word of the log, and what is told of the filter.
fn policy_args(alloc: Global, code: &Code, write: &Write, told: Value) -> Result<Vec<Value>, Mem>
    ensures { IfOk result (λ args. key_of args.items ≡ policy_values (code_of code.now) write.now (value_of told)) }
{
    let word = SharedBytes::copy_of(alloc, log_word(code, write.log))?;
    let row = write.row.clone()?;
    Ok(vec![in alloc; row, Value::Enum(word), told]?)
}

impl State {
    /// The next body of a hook, or what goes on behind the last one.
    pub fn next_body(
        &mut self,
        code: &Code,
        left: usize,
        args: Vec<Value>,
        mut others: Vec<BodyCode>,
        write: Option<Write>,
    ) -> Result<Onward, Halt>
        ensures { (place : At) → Comes onward_of place result (steps.bodies place (key_of args.items) (map body_of (reverse others.items)) (steps.after_hook (code_of code.now) left place true (waits_of write)) (waits_of write) (state_of self.old)) (state_of self.new) }
    {
        match others.pop() {
            Some(body) => {
                self.tick()?;
                let asked = Asked { body, args, others };
                Ok(Onward::Body { asked, write })
            }
            None => self.after_hook(code, left, true, write),
        }
    }

    /// What goes on behind a hook: a write, or nothing.
    pub fn after_hook(
        &mut self,
        code: &Code,
        left: usize,
        ran: bool,
        write: Option<Write>,
    ) -> Result<Onward, Halt>
        ensures { (place : At) → Comes onward_of place result (steps.after_hook (code_of code.now) left place ran (waits_of write) (state_of self.old)) (state_of self.new) }
    {
        match write {
            Some(write) => self.after_policy(code, left, ran, write),
            None => Ok(Onward::Answer(ran)),
        }
    }

    /// A write goes on behind the policy of a filter, whose row is written where all of its bodies ran.
    fn after_policy(
        &mut self,
        code: &Code,
        left: usize,
        ran: bool,
        mut write: Write,
    ) -> Result<Onward, Halt>
        ensures { (place : At) → Comes onward_of place result (steps.after_hook (code_of code.now) left place ran (pending_of write) (state_of self.old)) (state_of self.new) }
    {
        if write.at >= write.filters.len() {
            return Ok(Onward::Answer(ran));
        }
        let filter = &write.filters[write.at];
        if !ran {
            write.at += 1;
            return self.filters(code, left, write);
        }
        match self.write_row(code, &write, filter) {
            Ok(()) => {
                write.at += 1;
                self.filters(code, left, write)
            }
            Err(halt) => Err(halt),
        }
    }

    /// The filters of a write from the next one on.
    fn filters(&mut self, code: &Code, left: usize, mut write: Write) -> Result<Onward, Halt>
        ensures { (place : At) → Comes onward_of place result (filters_from (code_of code.now) left place write (state_of self.old)) (state_of self.new) }
    {
        'walk: while write.at < write.filters.len() {
            match self.filter(code, left, &write, &write.filters[write.at]) {
                Ok(Some(asked)) => {
                    return Ok(Onward::Body {
                        asked,
                        write: Some(write),
                    });
                }
                Ok(None) => write.at += 1,
                Err(halt) => return Err(halt),
            }
        }
        Ok(Onward::Answer(true))
    }

    /// A filter of a write: its policy has a body that runs first, or its row is written. It is passed over
    /// where the stream no longer has one of its name (Zeek manual, Logging Framework).
    fn filter(
        &mut self,
        code: &Code,
        left: usize,
        write: &Write,
        filter: &Filter,
    ) -> Result<Option<Asked>, Halt>
        ensures { (place : At) → Comes (begins_of write.now filter.now) place result (one_filter (code_of code.now) left place write.now filter.now (state_of self.old)) (state_of self.new) }
    {
        if !self.world.streams.has(write.log, filter.name.as_slice()) {
            return Ok(None);
        }
        match policy_of(write, filter) {
            Some(policy) => self.ask(code, left, write, filter, policy),
            None => self.pass(code, write, filter),
        }
    }

    /// Writes the row of a filter, behind which the next one comes.
    fn pass(&mut self, code: &Code, write: &Write, filter: &Filter) -> Result<Option<Asked>, Halt>
        ensures { (place : At) → Comes (begins_of write.now filter.now) place result (row_then (code_of code.now) write.now filter.now (state_of self.old)) (state_of self.new) }
    {
        match self.write_row(code, write, filter) {
            Ok(()) => Ok(None),
            Err(halt) => Err(halt),
        }
    }

    /// What a policy is told of a filter: its name and its path in a new record, in which the fields that
    /// scripts added begin as in a constructor.
    fn described(&mut self, code: &Code, write: &Write, filter: &Filter) -> Result<Value, Halt>
        ensures { (place : At) → Comes value_of place result (logs.described (types_in (code_of code.now)) filter_record place (stream_in write.now) filter.now (state_of self.old)) (state_of self.new) }
    {
        let values = name_and_path(self.world.alloc, write, filter)?;
        let fields = fields_in(code, FILTER_RECORD);
        self.new_record(FILTER_RECORD, fields, &NAME_AND_PATH, values.as_slice())
    }

    /// Asks the policy of a filter, with what it is told of the filter.
    fn ask(
        &mut self,
        code: &Code,
        left: usize,
        write: &Write,
        filter: &Filter,
        policy: HookNo,
    ) -> Result<Option<Asked>, Halt>
        ensures { (place : At) → Comes (begins_of write.now filter.now) place result (one_policy (code_of code.now) left place write.now filter.now (Some policy) (state_of self.old)) (state_of self.new) }
    {
        let told = self.described(code, write, filter)?;
        self.ask_with(code, left, write, filter, policy, told)
    }

    /// Asks the policy of a filter, which costs a unit.
    fn ask_with(
        &mut self,
        code: &Code,
        left: usize,
        write: &Write,
        filter: &Filter,
        policy: HookNo,
        told: Value,
    ) -> Result<Option<Asked>, Halt>
        ensures { (place : At) → Comes (begins_of write.now filter.now) place result (one_call (code_of code.now) left place write.now filter.now policy (value_of told) (state_of self.old)) (state_of self.new) }
    {
        let args = policy_args(self.world.alloc, code, write, told)?;
        self.tick()?;
        if left == 0 {
            return Err(Halt::Fault(FaultKind::Depth));
        }
        let others = hook_bodies(self.world.alloc, code, policy)?;
        self.first_body(code, write, filter, args, others)
    }

    /// The first body of a filter's policy, or the row is written where there is none.
    fn first_body(
        &mut self,
        code: &Code,
        write: &Write,
        filter: &Filter,
        args: Vec<Value>,
        mut others: Vec<BodyCode>,
    ) -> Result<Option<Asked>, Halt>
        ensures { (place : At) → Comes (begins_of write.now filter.now) place result (one_body (code_of code.now) place write.now filter.now (key_of args.items) (map body_of (reverse others.items)) (state_of self.old)) (state_of self.new) }
    {
        match others.pop() {
            Some(body) => {
                self.tick()?;
                Ok(Some(Asked { body, args, others }))
            }
            None => self.pass(code, write, filter),
        }
    }

    /// Queues the event of a stream with a row.
    fn queue_row(&mut self, event: Option<EventNo>, row: &Value) -> Result<(), Mem>
        ensures { OnOk result (logs.queue_row event (value_of row.now) (state_of self.old) ≡ does.Gives tt (state_of self.new)) }
    {
        let Some(event) = event else {
            return Ok(());
        };
        let args = vec![in self.world.alloc; row.clone()?]?;
        self.world.queue.push_back(Queued { event, args })?;
        Ok(())
    }

    /// A write of a row to the stream of a log as it is now, where there is one.
    fn write_of(&self, log: LogId, row: Value) -> Result<Option<Write>, Mem>
        ensures { IfOk result (λ write. Begins log (value_of row) write (state_of self.now)) }
    {
        let alloc = self.world.alloc;
        let Some(stream) = self.world.streams.stream(log) else {
            return Ok(None);
        };
        let stream = stream_copy(alloc, stream)?;
        let filters = self.world.streams.filters(log)?;
        Ok(Some(Write {
            log,
            stream,
            filters,
            at: 0,
            row,
        }))
    }

    /// `Log::write(ID, r)` (Zeek manual, Logging Framework): the stream's event is queued, and then the
    /// filters run.
    pub fn begin_write(
        &mut self,
        code: &Code,
        left: usize,
        log: LogId,
        row: Value,
    ) -> Result<Onward, Halt>
        ensures { (place : At) → Comes onward_of place result (does.and_then (does.read (λ world. logs.stream_of log world.streams) (state_of self.old)) (steps.to_stream (code_of code.now) left place (value_of row))) (state_of self.new) }
    {
        match self.write_of(log, row)? {
            Some(write) => {
                self.queue_row(write.stream.event, &write.row)?;
                self.filters(code, left, write)
            }
            None => Ok(Onward::Answer(false)),
        }
    }
}
