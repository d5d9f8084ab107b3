ghost use Rattle.std.specs.Prelude.{◌≡◌, IfOk, OnOk, IfErr};
ghost use Rattle.zk_top.specs.Logged.{dated};
ghost use Rattle.zk_base.specs.Shelf.{Outside};
ghost use Rattle.zk_io.specs.Reading.{SameInput};
ghost use Rattle.zk_top.specs.Summary.{counts_of, no_rows};
ghost use Rattle.zk_top.specs.Writing.{GivesAll, GivesPart, Output, and_out};
ghost use Rattle.zk_logs.specs.Logs.{log_files};

use crate::summary::RowCounts;
use crate::writer::Writer;
use zk_base::{Mem, Moment, Shelf};
use zk_outcome::Stop;
use zk_value::Out;

/// Where the lines and rows of a run go.
#[derive(Drop)]
pub enum Sink {
    /// Lines are said, and rows are written to log files.
    Written(Writer),
    /// Rows are counted, and nothing is said or written.
    Counted(RowCounts),
}

impl Sink {
    ghost use Rattle.zk_top.specs.Sink.{Beginning, CanTake, Counted, HasTaken, TakesSome, Written};

    /// Takes a line or a row.
    pub fn give<S: Shelf>(&mut self, shelf: &mut S, out: &Out) -> Result<(), Stop>
        requires ready { CanTake self.old (S.outside shelf.old) }
        ensures taken { OnOk result ((first : Beginning) (output : Output) → HasTaken first output self.old (S.outside shelf.old)
            → HasTaken first (and_out output out.now) self.new (S.outside shelf.new)) }
        ensures ready { OnOk result (CanTake self.new (S.outside shelf.new)) }
        ensures input { OnOk result (SameInput (S.outside shelf.old) (S.outside shelf.new)) }
        ensures stopped { IfErr result (λ stop. (first : Beginning) (output : Output) → HasTaken first output self.old (S.outside shelf.old)
            → TakesSome (and_out output out.now) first stop (S.outside shelf.new)) }
    {
        match self {
            Sink::Written(writer) => writer.give(shelf, out),
            Sink::Counted(counts) => {
                *counts = counted(*counts, out)?;
                Ok(())
            }
        }
    }

    /// Ends the output of a run at a moment: what waits is said, and logs are closed.
    pub fn close<S: Shelf>(&mut self, shelf: &mut S, at: Moment) -> Result<(), Stop>
        requires ready { CanTake self.old (S.outside shelf.old) }
        ensures written { OnOk result ((first : Beginning) (output : Output) → HasTaken first output self.old (S.outside shelf.old) → first.target ≡ Written
            → GivesAll output.text (log_files output.rows (dated at)) first.outside (S.outside shelf.new)) }
        ensures input { OnOk result (SameInput (S.outside shelf.old) (S.outside shelf.new)) }
        ensures stopped { IfErr result (λ stop. (first : Beginning) (output : Output) → HasTaken first output self.old (S.outside shelf.old) → first.target ≡ Written
            → GivesPart output.text (log_files output.rows (dated at)) first.outside stop (S.outside shelf.new)) }
    {
        match self {
            Sink::Written(writer) => writer.close(shelf, at),
            Sink::Counted(_) => Ok(()),
        }
    }

    /// How many rows were counted. None are where they are written.
    pub fn rows(&self) -> RowCounts
        ensures counted { (first : Beginning) (output : Output) (now : Outside) → HasTaken first output self.now now → first.target ≡ Counted → result ≡ counts_of output.rows }
        ensures written { (first : Beginning) (output : Output) (now : Outside) → HasTaken first output self.now now → first.target ≡ Written → result ≡ no_rows }
    {
        match self {
            Sink::Written(_) => RowCounts::new(),
            Sink::Counted(counts) => *counts,
        }
    }
}

/// The counts after what a run gives out.
fn counted(counts: RowCounts, out: &Out) -> Result<RowCounts, Mem>
    ensures { IfOk result (λ more. (output : Output) → counts ≡ counts_of output.rows → more ≡ counts_of (and_out output out.now).rows) }
{
    match out {
        Out::Line(_) => Ok(counts),
        Out::Row { path, .. } => counts.and_row(path.as_slice()),
    }
}
