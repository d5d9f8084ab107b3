ghost use Rattle.std.specs.Prelude.{◌≡◌, IfOk, OnOk, IfErr};
ghost use Rattle.zk_ascii.specs.Dates.{HasDate};
ghost use Rattle.zk_base.specs.Shelf.{Outside};
ghost use Rattle.zk_logs.specs.Logs.{log_files};
ghost use Rattle.zk_top.specs.Logged.{dated};
ghost use Rattle.zk_io.specs.Reading.{SameInput};

use std::alloc::Global;
use zk_base::{Mem, Moment, Shelf};
use zk_io::{PIECE, push_line, say};
use zk_logs::{LogFiles, what_is_written_stays};
use zk_outcome::Stop;
use zk_value::Out;

/// The last moment that a log can show.
const LAST: Moment = Moment(253_402_207_200_000_000);

/// Says what a run prints, and writes its log files.
#[derive(Drop)]
pub struct Writer {
    /// What is not yet said.
    piece: Vec<u8>,
    logs: LogFiles,
}

impl Writer {
    ghost use Rattle.zk_top.specs.Writing.{HasGiven, GivesAll, GivesPart, GivesSome, IsReady, Output, and_out, no_output};

    /// A writer that was given nothing.
    pub fn new(alloc: Global) -> Result<Writer, Mem>
        ensures given { IfOk result (λ writer. (first : Outside) → HasGiven first no_output writer first) }
        ensures ready { IfOk result (λ writer. (now : Outside) → IsReady writer now) }
    {
        Ok(Writer {
            piece: Vec::with_capacity(alloc, PIECE)?,
            logs: LogFiles::new(alloc),
        })
    }

    /// Takes a line, and says what fills a piece, or a row, which goes to the log of its path.
    pub fn give<S: Shelf>(&mut self, shelf: &mut S, out: &Out) -> Result<(), Stop>
        requires ready { IsReady self.old (S.outside shelf.old) }
        ensures given { OnOk result ((first : Outside) (output : Output) → HasGiven first output self.old (S.outside shelf.old)
            → HasGiven first (and_out output out.now) self.new (S.outside shelf.new)) }
        ensures ready { OnOk result (IsReady self.new (S.outside shelf.new)) }
        ensures input { OnOk result (SameInput (S.outside shelf.old) (S.outside shelf.new)) }
        ensures stopped { IfErr result (λ stop. (first : Outside) (output : Output) → HasGiven first output self.old (S.outside shelf.old)
            → GivesSome (and_out output out.now) first stop (S.outside shelf.new)) }
    {
        what_is_written_stays();
        match out {
            Out::Line(line) => push_line(shelf, &mut self.piece, line.as_slice()),
            Out::Row {
                path,
                columns,
                cells,
                at,
            } => self.logs.write(
                shelf,
                path.as_slice(),
                columns.as_slice(),
                cells.as_slice(),
                dated(*at),
            ),
        }
    }

    /// Says what waits, and closes the logs at a moment.
    pub fn close<S: Shelf>(&mut self, shelf: &mut S, at: Moment) -> Result<(), Stop>
        requires ready { IsReady self.old (S.outside shelf.old) }
        ensures given { OnOk result ((first : Outside) (output : Output) → HasGiven first output self.old (S.outside shelf.old)
            → GivesAll output.text (log_files output.rows (dated at)) first (S.outside shelf.new)) }
        ensures input { OnOk result (SameInput (S.outside shelf.old) (S.outside shelf.new)) }
        ensures stopped { IfErr result (λ stop. (first : Outside) (output : Output) → HasGiven first output self.old (S.outside shelf.old)
            → GivesPart output.text (log_files output.rows (dated at)) first stop (S.outside shelf.new)) }
    {
        say(shelf, &self.piece)?;
        self.logs.close(shelf, dated(at))
    }
}

/// The nearest moment that a log can show.
fn dated(at: Moment) -> Moment
    ensures date { HasDate result }
    ensures nearest { result ≡ dated at }
{
    if at.0 < 0 {
        Moment(0)
    } else if LAST.0 < at.0 {
        LAST
    } else {
        at
    }
}
