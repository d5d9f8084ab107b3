//! The typed program of scripts.
ghost use Rattle.std.specs.Prelude.{◌≡◌, List, map, IfOk};
ghost use Rattle.zk_scope.specs.Lent.{files_of};
ghost use Rattle.zk_typed.specs.LoadOrder.{File};
ghost use Rattle.zk_typed.specs.Resolving.{Scripts};
ghost use Rattle.zk_typed.specs.View.{program_of};
ghost use Rattle.zk_check_declarations.specs.Sources.{IsSource, scripts_from};
ghost use Rattle.zk_check.specs.Programming.{IsCode, IsData, file_names, program_in};
ghost use Rattle.zk_check_declarations.specs.Valuing.{IsValues};

mod attrs;
mod bodies;
mod events;
mod functions;
mod globals;
mod hooks;
mod places;
mod records;
mod signatures;

use crate::logs::all_logs;
use crate::program::events::{all_events, all_handlers};
use crate::program::functions::all_functions;
use crate::program::globals::all_globals;
use crate::program::hooks::all_hooks;
use crate::program::records::all_records;
use std::alloc::Global;
use zk_base::{Bytes, Mem, Sequence};
use zk_check_declarations::{Source, Values};
use zk_tree::Tree;
use zk_typed::script::{
    Event, Function, Global as ProgramGlobal, Handler, Hook, Log, Program, RecordType,
};

/// The names of files.
fn names_of(alloc: Global, files: &[(Bytes, Tree)]) -> Result<Vec<Bytes>, Mem>
    ensures { IfOk result (λ names. names.items ≡ file_names (files_of files.now)) }
{
    let mut all = Vec::new(alloc);
    for file in files {
        all.push(Bytes::copy_of(alloc, file.0.as_slice())?)?;
    }
    Ok(all)
}

/// What a program has beside its bodies: the names of its files, its types, logs and globals.
#[derive(Drop)]
struct Data {
    files: Sequence<Bytes>,
    records: Sequence<RecordType>,
    logs: Sequence<Log>,
    globals: Sequence<ProgramGlobal>,
}

/// The bodies of a program, and its events.
#[derive(Drop)]
struct Code {
    functions: Sequence<Function>,
    hooks: Sequence<Hook>,
    events: Sequence<Event>,
    handlers: Sequence<Handler>,
}

/// What a program has beside its bodies, part by part.
fn data_with(
    files: Vec<Bytes>,
    records: Vec<RecordType>,
    logs: Vec<Log>,
    globals: Vec<ProgramGlobal>,
) -> Data
    ensures files { result.files ≡ files.items }
    ensures records { result.records ≡ records.items }
    ensures logs { result.logs ≡ logs.items }
    ensures globals { result.globals ≡ globals.items }
{
    Data {
        files: Sequence::from(files),
        records: Sequence::from(records),
        logs: Sequence::from(logs),
        globals: Sequence::from(globals),
    }
}

/// What a program has beside its bodies.
fn data_of<'a>(
    source: &Source<'a>,
    values: &Values<'a>,
    files: &[(Bytes, Tree)],
) -> Result<Data, Mem>
    requires known { IsSource source.now }
    requires values { IsValues values.now (scripts_from source.now) }
    ensures { IfOk result (λ made. IsData made (files_of files.now) (scripts_from source.now)) }
{
    let files = names_of(source.alloc, files)?;
    let records = all_records(source)?;
    let logs = all_logs(source.alloc, source.scripts)?;
    let globals = all_globals(source, values)?;
    Ok(data_with(files, records, logs, globals))
}

/// The bodies of a program, and its events, part by part.
fn code_with(
    functions: Vec<Function>,
    hooks: Vec<Hook>,
    events: Vec<Event>,
    handlers: Vec<Handler>,
) -> Code
    ensures functions { result.functions ≡ functions.items }
    ensures hooks { result.hooks ≡ hooks.items }
    ensures events { result.events ≡ events.items }
    ensures handlers { result.handlers ≡ handlers.items }
{
    Code {
        functions: Sequence::from(functions),
        hooks: Sequence::from(hooks),
        events: Sequence::from(events),
        handlers: Sequence::from(handlers),
    }
}

/// The bodies of a program, and its events.
fn code_of(source: &Source<'_>) -> Result<Code, Mem>
    requires { IsSource source.now }
    ensures { IfOk result (λ made. IsCode made (scripts_from source.now)) }
{
    let functions = all_functions(source)?;
    let hooks = all_hooks(source)?;
    let events = all_events(source)?;
    let handlers = all_handlers(source)?;
    Ok(code_with(functions, hooks, events, handlers))
}

/// A program of its parts.
fn joined(first: Data, code: Code) -> Program
    ensures { (files : List File) (scripts : Scripts) → IsData first files scripts → IsCode code scripts → program_of result ≡ program_in files scripts }
{
    Program {
        files: first.files,
        records: first.records,
        logs: first.logs,
        globals: first.globals,
        functions: code.functions,
        hooks: code.hooks,
        events: code.events,
        handlers: code.handlers,
    }
}

/// The typed program of scripts. What breaks a rule has no place in it.
pub fn typed_program<'a>(
    source: &Source<'a>,
    values: &Values<'a>,
    files: &[(Bytes, Tree)],
) -> Result<Program, Mem>
    requires known { IsSource source.now }
    requires values { IsValues values.now (scripts_from source.now) }
    ensures { IfOk result (λ made. program_of made ≡ program_in (files_of files.now) (scripts_from source.now)) }
{
    let first = data_of(source, values, files)?;
    let code = code_of(source)?;
    Ok(joined(first, code))
}
