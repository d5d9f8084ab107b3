ghost use Rattle.std.specs.Prelude.{◌≡◌, ◌<◌, ◌≤◌, [], ◌∷◌, length, IfOk, IfErr};
ghost use Rattle.zk_typed.specs.Program.{Program};
ghost use Rattle.zk_top.specs.Compiling.{Runs};
ghost use Rattle.zk_io.specs.Opened.{opened};
ghost use Rattle.zk_top.specs.Outcome.{over_capture, run_behind, run_report, run_scripts};
ghost use Rattle.zk_top.specs.Parts.{Fulfils, BreaksOff, IsOfCommand};

use crate::replay::{Came, replay_capture};
use crate::runnable::Runnable;
use crate::scripts::{read_program, scripts_before};
use std::alloc::Global;
use zk_base::{Bytes, Ending, Sequence, Shelf, Word};
use zk_command::Settings;
use zk_io::{CHUNK, CaptureReader, end_of};
use zk_outcome::{Found, Stop};
use zk_traffic::Options;
use zk_tree::Tree;

/// Runs scripts over the capture in a file, behind the default scripts unless they are left out. The
/// capture is asked for once they are read and checked.
pub fn run_scripts<S: Shelf>(
    alloc: Global,
    shelf: &mut S,
    settings: Settings,
    file: &[u8],
    scripts: &[Word],
) -> Result<Ending, Stop>
    ensures done { IfOk result (λ ending. Fulfils (run_scripts file.now settings scripts.now) [] (S.outside shelf.old) ending (S.outside shelf.new)) }
    ensures command { IfOk result IsOfCommand }
    ensures stopped { IfErr result (λ stop. BreaksOff (run_scripts file.now settings scripts.now) (S.outside shelf.old) stop (S.outside shelf.new)) }
{
    match scripts_before(alloc, settings.bare)? {
        Found::Accepted(before) => run_behind(alloc, shelf, settings, file, before, scripts),
        Found::Refused(ending) => Ok(ending),
    }
}

/// Runs scripts over the capture in a file, behind those that are read before.
fn run_behind<S: Shelf>(
    alloc: Global,
    shelf: &mut S,
    settings: Settings,
    file: &[u8],
    before: Sequence<(Bytes, Tree)>,
    scripts: &[Word],
) -> Result<Ending, Stop>
    ensures done { IfOk result (λ ending. Fulfils (λ inputs. run_behind file.now settings scripts.now inputs (Found.Accepted before)) [] (S.outside shelf.old) ending (S.outside shelf.new)) }
    ensures command { IfOk result IsOfCommand }
    ensures stopped { IfErr result (λ stop. BreaksOff (λ inputs. run_behind file.now settings scripts.now inputs (Found.Accepted before)) (S.outside shelf.old) stop (S.outside shelf.new)) }
{
    match read_program(alloc, shelf, before, scripts)? {
        Found::Accepted(runnable) => run_program(alloc, shelf, settings, file, runnable),
        Found::Refused(ending) => Ok(ending),
    }
}

/// Runs a program over the capture in a file.
fn run_program<S: Shelf>(
    alloc: Global,
    shelf: &mut S,
    settings: Settings,
    file: &[u8],
    runnable: Runnable,
) -> Result<Ending, Stop>
    ensures done { IfOk result (λ ending. (program : Program) → Runs runnable program
        → Fulfils (λ inputs. over_capture (run_report file.now settings program) (file.now ∷ []) (opened file.now (inputs file.now))) [] (S.outside shelf.old) ending (S.outside shelf.new)) }
    ensures command { IfOk result IsOfCommand }
    ensures stopped { IfErr result (λ stop. (program : Program) → Runs runnable program
        → BreaksOff (λ inputs. over_capture (run_report file.now settings program) (file.now ∷ []) (opened file.now (inputs file.now))) (S.outside shelf.old) stop (S.outside shelf.new)) }
{
    let mut chunk = vec![in alloc; 0; CHUNK]?;
    run_through(alloc, shelf, &mut chunk, settings, file, runnable)
}

/// The same, read through a buffer that is not empty.
fn run_through<S: Shelf>(
    alloc: Global,
    shelf: &mut S,
    chunk: &mut [u8],
    settings: Settings,
    file: &[u8],
    runnable: Runnable,
) -> Result<Ending, Stop>
    requires room { 0 < length chunk.old }
    requires small { length chunk.old ≤ CHUNK }
    ensures done { IfOk result (λ ending. (program : Program) → Runs runnable program
        → Fulfils (λ inputs. over_capture (run_report file.now settings program) (file.now ∷ []) (opened file.now (inputs file.now))) [] (S.outside shelf.old) ending (S.outside shelf.new)) }
    ensures command { IfOk result IsOfCommand }
    ensures stopped { IfErr result (λ stop. (program : Program) → Runs runnable program
        → BreaksOff (λ inputs. over_capture (run_report file.now settings program) (file.now ∷ []) (opened file.now (inputs file.now))) (S.outside shelf.old) stop (S.outside shelf.new)) }
{
    let mut reader = match CaptureReader::open(alloc, shelf, chunk, file)? {
        Found::Accepted(reader) => reader,
        Found::Refused(ending) => return Ok(ending),
    };
    let options = Options {
        check: settings.check,
        buffer: settings.buffer,
        packets: runnable.packets,
    };
    let Runnable { code, packets: _ } = runnable;
    match replay_capture(alloc, shelf, options, code, settings.budget, &mut reader)? {
        Came::Through(_) => Ok(end_of(alloc, file, reader.ending())?),
        Came::Flooded(moment) => Ok(Ending::Flood { moment }),
    }
}
