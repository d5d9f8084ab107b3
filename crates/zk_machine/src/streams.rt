ghost use Rattle.std.specs.Prelude.{◌≡◌, IfOk};
ghost use Rattle.zk_tree.specs.declared.place.Place.{Place as At};
ghost use Rattle.zk_typed.specs.Logs as logs;
ghost use Rattle.zk_typed.specs.declared.script.log_call.LogCall.TheVariants as call;
ghost use Rattle.zk_value.specs.Plain.{value_of};
ghost use Rattle.zk_machine.specs.Comes.{Comes};
ghost use Rattle.zk_machine.specs.State.{state_of};

use crate::halt::Halt;
use crate::state::State;
use std::alloc::Global;
use zk_base::{Bytes, LogId, Mem, Sequence};
use zk_streams::{Filter, LogStream};
use zk_typed::script::LogCall;
use zk_value::Value;

/// A copy of the places of columns.
fn columns_of(alloc: Global, columns: &Sequence<u32>) -> Result<Sequence<u32>, Mem>
    ensures { IfOk result (λ copy. copy ≡ columns.now) }
{
    Ok(Sequence::from(Vec::from_slice(alloc, columns.as_slice())?))
}

/// A copy of a path, where there is one.
fn path_of(alloc: Global, path: &Option<Bytes>) -> Result<Option<Bytes>, Mem>
    ensures { IfOk result (λ copy. copy ≡ path.now) }
{
    match path {
        Some(path) => Ok(Some(Bytes::copy_of(alloc, path.as_slice())?)),
        None => Ok(None),
    }
}

/// A copy of a stream without its filters.
pub fn stream_copy(alloc: Global, stream: &LogStream) -> Result<LogStream, Mem>
    ensures { IfOk result (λ copy. copy ≡ stream.now) }
{
    Ok(LogStream {
        event: stream.event,
        path: Bytes::copy_of(alloc, stream.path.as_slice())?,
        policy: stream.policy,
        columns: columns_of(alloc, &stream.columns)?,
    })
}

impl State {
    /// `Log::create_stream` (Zeek manual, Logging Framework).
    fn create_stream(&mut self, log: LogId, stream: LogStream) -> Result<Value, Halt>
        ensures { (place : At) → Comes value_of place result (logs.log_call (call.Create log stream.event stream.path stream.policy stream.columns) (state_of self.old)) (state_of self.new) }
    {
        let made = self.world.streams.create(log, stream)?;
        Ok(Value::Bool(made))
    }

    /// `Log::add_filter` (Zeek manual, Logging Framework).
    fn add_filter(&mut self, log: LogId, filter: Filter) -> Result<Value, Halt>
        ensures { (place : At) → Comes value_of place result (logs.log_call (call.AddFilter log filter.name filter.path filter.policy filter.columns) (state_of self.old)) (state_of self.new) }
    {
        let added = self.world.streams.add_filter(log, filter)?;
        Ok(Value::Bool(added))
    }

    /// `Log::remove_filter` (Zeek manual, Logging Framework).
    fn remove_filter(&mut self, log: LogId, name: &[u8]) -> Result<Value, Halt>
        ensures { (place : At) → Comes value_of place result (logs.log_call (call.RemoveFilter log name.now) (state_of self.old)) (state_of self.new) }
    {
        let removed = self.world.streams.remove_filter(log, name);
        Ok(Value::Bool(removed))
    }

    /// A call of the log framework that runs no hook (Zeek manual, Logging Framework).
    pub fn log_call(&mut self, call: &LogCall) -> Result<Value, Halt>
        ensures { (place : At) → Comes value_of place result (logs.log_call call.now (state_of self.old)) (state_of self.new) }
    {
        let alloc = self.world.alloc;
        match call {
            LogCall::Create {
                log,
                event,
                path,
                policy,
                columns,
            } => {
                let stream = LogStream {
                    event: *event,
                    path: Bytes::copy_of(alloc, path.as_slice())?,
                    policy: *policy,
                    columns: columns_of(alloc, columns)?,
                };
                self.create_stream(*log, stream)
            }
            LogCall::AddFilter {
                log,
                name,
                path,
                policy,
                columns,
            } => {
                let filter = Filter {
                    name: Bytes::copy_of(alloc, name.as_slice())?,
                    path: path_of(alloc, path)?,
                    policy: *policy,
                    columns: columns_of(alloc, columns)?,
                };
                self.add_filter(*log, filter)
            }
            LogCall::RemoveFilter { log, name } => self.remove_filter(*log, name.as_slice()),
        }
    }
}
