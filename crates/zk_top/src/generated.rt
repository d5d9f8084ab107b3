//! The default scripts over a capture that is made by rule, of which a summary is said.

ghost use Rattle.std.specs.Prelude.{◌≡◌, ◌<◌, ◌≤◌, [], List, ℕ, Some, length, IfOk, IfErr};
ghost use Rattle.zk_base.specs.Shelf.{Files};
ghost use Rattle.zk_gen.specs.Capture.{capture_of};
ghost use Rattle.zk_typed.specs.Program.{Program};
ghost use Rattle.zk_command.specs.Command.{count_max};
ghost use Rattle.zk_top.specs.Compiling.{Runs};
ghost use Rattle.zk_top.specs.Generated.{IsOf};
ghost use Rattle.zk_top.specs.Outcome.{generated_name, generating, summing_up};
ghost use Rattle.zk_top.specs.Parts.{BreaksOff, Fulfils, IsOfCommand};

use crate::replay::{Came, count_rows};
use crate::runnable::Runnable;
use crate::scripts::default_program;
use crate::summary::summary_text;
use std::alloc::Global;
use zk_base::{Bytes, Ending, Mem, Shelf, SureShelf};
use zk_command::{BUDGET, BUFFER};
use zk_gen::capture;
use zk_io::{CHUNK, CaptureReader, end_of, say};
use zk_outcome::{Found, Stop};
use zk_traffic::Options;

/// The name of the capture, under which no file lies.
const NAME: &[u8] = b"the generated capture";

/// What a run over the capture comes to.
#[derive(Debug, Drop)]
pub struct Report {
    ending: Ending,
    /// The summary, if there is one.
    said: Vec<u8>,
}

impl Report {
    /// Nothing is said.
    fn ending_so(alloc: Global, ending: Ending) -> Report
        ensures ending { result.ending ≡ ending }
        ensures said { result.said.items ≡ [] }
    {
        Report {
            ending,
            said: Vec::new(alloc),
        }
    }
}

/// Runs the default scripts over a generated capture, and says a summary.
pub fn generate<S: Shelf>(
    alloc: Global,
    shelf: &mut S,
    start: u32,
    count: u32,
) -> Result<Ending, Stop>
    requires { count ≤ count_max }
    ensures done { IfOk result (λ ending. Fulfils (λ _. generating start count) [] (S.outside shelf.old) ending (S.outside shelf.new)) }
    ensures command { IfOk result IsOfCommand }
    ensures stopped { IfErr result (λ stop. BreaksOff (λ _. generating start count) (S.outside shelf.old) stop (S.outside shelf.new)) }
{
    let Report { ending, said } = run_defaults(alloc, start, count)?;
    say(shelf, &said)?;
    Ok(ending)
}

/// What a run of the default scripts over a generated capture comes to.
fn run_defaults(alloc: Global, start: u32, count: u32) -> Result<Report, Mem>
    requires { count ≤ count_max }
    ensures { IfOk result (λ report. IsOf report (generating start count)) }
{
    match default_program(alloc)? {
        Found::Accepted(runnable) => run_over(alloc, capture(alloc, start, count)?, runnable),
        Found::Refused(ending) => Ok(Report::ending_so(alloc, ending)),
    }
}

/// What a run of a program over a capture comes to that lies in no file. A shelf in memory has it as its
/// one input; such a shelf never fails, so that want of memory alone stops the run.
fn run_over(alloc: Global, capture: Bytes, runnable: Runnable) -> Result<Report, Mem>
    ensures { IfOk result (λ report. (program : Program) → Runs runnable program → IsOf report (summing_up capture (Found.Accepted program))) }
{
    let bytes = capture.len() as u64;
    let name = Bytes::copy_of(alloc, NAME)?;
    let mut inputs = Vec::with_capacity(alloc, 1)?;
    inputs.push((name, capture))?;
    let mut shelf = SureShelf::new(alloc, inputs)?;
    let mut chunk = vec![in alloc; 0; CHUNK]?;
    match sum_up(alloc, &mut shelf, &mut chunk, bytes, runnable) {
        Ok(report) => Ok(report),
        Err(_) => Err(Mem),
    }
}

/// Runs a program over the capture of so many bytes in the input `NAME`, and sums up.
fn sum_up<S: Shelf>(
    alloc: Global,
    shelf: &mut S,
    chunk: &mut [u8],
    bytes: u64,
    runnable: Runnable,
) -> Result<Report, Stop>
    requires room { 0 < length chunk.old }
    requires small { length chunk.old ≤ CHUNK }
    ensures { IfOk result (λ report. (program : Program) (inputs : Files) (whole : List ℕ) → Runs runnable program
        → (S.outside shelf.old).inputs ≡ Some inputs → inputs generated_name ≡ Some whole → bytes ≡ length whole
        → IsOf report (summing_up whole (Found.Accepted program))) }
{
    let mut reader = match CaptureReader::open(alloc, shelf, chunk, NAME)? {
        Found::Accepted(reader) => reader,
        Found::Refused(ending) => return Ok(Report::ending_so(alloc, ending)),
    };
    let options = Options {
        check: true,
        buffer: BUFFER,
        packets: runnable.packets,
    };
    let Runnable { code, packets: _ } = runnable;
    let (came, rows) = count_rows(alloc, shelf, options, code, BUDGET, &mut reader)?;
    match came {
        Came::Through(_) => {
            let ending = end_of(alloc, NAME, reader.ending())?;
            let said = summary_text(alloc, reader.passed(), bytes, rows)?;
            Ok(Report { ending, said })
        }
        Came::Flooded(moment) => Ok(Report::ending_so(alloc, Ending::Flood { moment })),
    }
}
