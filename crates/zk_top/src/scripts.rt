//! From the scripts of a run to the code of their program.

ghost use Rattle.std.specs.List.{list_any};
ghost use Rattle.std.specs.Prelude.{◌≡◌, ◌==◌, List, ℕ, IfOk, IfErr};
ghost use Rattle.zk_typed.specs.Predefined.{packet_seen};
ghost use Rattle.zk_typed.specs.View.{program_of as plain_program};
ghost use Rattle.zk_typed.specs.declared.refusal.Broken.{Broken};
ghost use Rattle.zk_check.specs.Faults.{IsFirst};
ghost use Rattle.zk_load.specs.Loads.{LoadsPart};
ghost use Rattle.zk_top.specs.Compiling.{FindsCode, IsCodeOf, Runs, program_by, refusal_in};
ghost use Rattle.zk_top.specs.Printed.{handles};
ghost use Rattle.zk_top.specs.Script.{default_scripts, scripts_before, judged, name_of, program_of, refused_at};

use crate::runnable::{Refusal, Runnable};
use sqlite_items::Boxed;
use std::alloc::Global;
use zk_base::{Bytes, Ending, Mem, ScriptKind, Sequence, Shelf, Word};
use zk_blind::PACKET_SEEN;
use zk_check::{CheckFault, check};
use zk_load::{load_scripts, read_texts};
use zk_lower::lower;
use zk_names::names;
use zk_outcome::{Found, Stop};
use zk_scripts::default_scripts;
use zk_tree::Tree;
use zk_typed::script::{Handler, Program};

/// What is read before the scripts of a run: the default scripts, or nothing where they are left out.
pub fn scripts_before(alloc: Global, bare: bool) -> Result<Found<Sequence<(Bytes, Tree)>>, Mem>
    ensures { IfOk result (λ found. found ≡ scripts_before bare) }
{
    if bare {
        Ok(Found::Accepted(Sequence::new(alloc)))
    } else {
        read_texts(alloc, default_scripts())
    }
}

/// The code of the program of the default scripts, or how a run ends where there is none.
pub fn default_program(alloc: Global) -> Result<Found<Runnable>, Mem>
    ensures { IfOk result (λ found. IsCodeOf found (program_by default_scripts)) }
{
    match scripts_before(alloc, false)? {
        Found::Accepted(scripts) => compile(alloc, scripts.as_slice()),
        Found::Refused(ending) => Ok(Found::Refused(ending)),
    }
}

/// Reads the scripts of these names and what they load, behind those that are read before, and finds the code of their program, or how a
/// run ends where there is none.
pub fn read_program<S: Shelf>(
    alloc: Global,
    shelf: &mut S,
    before: Sequence<(Bytes, Tree)>,
    scripts: &[Word],
) -> Result<Found<Runnable>, Stop>
    ensures found { IfOk result (λ found. FindsCode before scripts.now (S.outside shelf.old) found (S.outside shelf.new)) }
    ensures stopped { IfErr result (λ stop. LoadsPart before scripts.now (S.outside shelf.old) stop (S.outside shelf.new)) }
{
    match load_scripts(alloc, shelf, before, scripts)? {
        Found::Accepted(read) => Ok(compile(alloc, read.as_slice())?),
        Found::Refused(ending) => Ok(Found::Refused(ending)),
    }
}

/// The code of scripts, or how a run ends for the first rule that they break.
fn compile(alloc: Global, scripts: &[(Bytes, Tree)]) -> Result<Found<Runnable>, Mem>
    ensures { IfOk result (λ found. IsCodeOf found (program_of scripts.now)) }
{
    let names = names(alloc, scripts)?;
    match check(alloc, scripts, names) {
        Ok(program) => Ok(Found::Accepted(runnable(alloc, &program)?)),
        Err(fault) => Ok(Found::Refused(refused(alloc, scripts, fault)?)),
    }
}

/// The code of a program.
fn runnable(alloc: Global, program: &Program) -> Result<Runnable, Mem>
    ensures { IfOk result (λ runnable. Runs runnable (plain_program program.now)) }
{
    let code = lower(alloc, program)?;
    Ok(Runnable {
        code: Boxed::new(alloc, code)?,
        packets: handles_packets(program),
    })
}

/// Whether a program handles packets.
fn handles_packets(program: &Program) -> bool
    ensures { result ≡ handles packet_seen (plain_program program.now) }
{
    has_handler(program.handlers.as_slice(), PACKET_SEEN.0)
}

/// Whether one of handlers is that of an event.
fn has_handler(handlers: &[Handler], event: u32) -> bool
    ensures { result ≡ list_any (λ handler. handler.event.0 == event) handlers.now }
{
    handlers.iter().any(|handler| handler.event.0 == event)
}

/// How a run ends for a rule that scripts break.
fn refused(alloc: Global, scripts: &[(Bytes, Tree)], fault: CheckFault) -> Result<Ending, Mem>
    ensures { IfOk result (λ ending. (rules : List Broken) → IsFirst fault rules → IsCodeOf (Found.Refused ending) (judged scripts.now rules)) }
{
    match refusal_in(fault) {
        Some(refusal) => refused_at(alloc, scripts, refusal),
        None => Err(Mem),
    }
}

/// How a run ends that is refused there.
fn refused_at(alloc: Global, scripts: &[(Bytes, Tree)], refusal: Refusal) -> Result<Ending, Mem>
    ensures { IfOk result (λ ending. ending ≡ refused_at scripts.now refusal) }
{
    Ok(Ending::ScriptRefused {
        file: name_of(alloc, scripts, refusal.file)?,
        place: refusal.place,
        kind: refusal.kind,
    })
}

/// The name of a script by its number.
fn name_of(alloc: Global, scripts: &[(Bytes, Tree)], number: usize) -> Result<Bytes, Mem>
    ensures { IfOk result (λ name. name ≡ name_of scripts.now number) }
{
    match scripts.get(number) {
        Some((name, _)) => Bytes::copy_of(alloc, name.as_slice()),
        None => Ok(Bytes::new(alloc)),
    }
}

/// Where and why scripts are refused, unless memory ran out.
fn refusal_in(fault: CheckFault) -> Option<Refusal>
    ensures { result ≡ refusal_in fault }
{
    let (file, place, kind) = match fault {
        CheckFault::Unknown { file, place } => (file, place, ScriptKind::Unknown),
        CheckFault::Twice { file, place } => (file, place, ScriptKind::Twice),
        CheckFault::WrongType { file, place } => (file, place, ScriptKind::WrongType),
        CheckFault::Field { file, place } => (file, place, ScriptKind::Field),
        CheckFault::Recursive { file, place } => (file, place, ScriptKind::Recursive),
        CheckFault::NotConst { file, place } => (file, place, ScriptKind::NotConst),
        CheckFault::FixedGlobal { file, place } => (file, place, ScriptKind::FixedGlobal),
        CheckFault::Arguments { file, place } => (file, place, ScriptKind::Arguments),
        CheckFault::Return { file, place } => (file, place, ScriptKind::Return),
        CheckFault::Break { file, place } => (file, place, ScriptKind::Break),
        CheckFault::Attribute { file, place } => (file, place, ScriptKind::Attribute),
        CheckFault::Format { file, place } => (file, place, ScriptKind::Format),
        CheckFault::NoMemory => return None,
    };
    Some(Refusal { file, place, kind })
}
