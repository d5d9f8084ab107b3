ghost use Rattle.std.specs.Prelude.{◌≡◌, ◌++◌, ◌∷◌, [], ℕ, List, Option, None, OnOk, OnErr, IfErr};
ghost use Rattle.std.specs.Option.{option_map};
ghost use Rattle.std.specs.Str.{bytes_eq};
ghost use Rattle.std.specs.HashMap.{get_by};
ghost use Rattle.zk_base.specs.declared.time.Moment.{Moment as MomentData};
ghost use Rattle.zk_base.specs.Shelf.{Files, Outside, created, with_file};
ghost use Rattle.zk_ascii.specs.Dates.{HasDate};
ghost use Rattle.zk_ascii.specs.Text.{header_text};
ghost use Rattle.zk_logs.specs.Logs.{Row, file_name, log_files};
ghost use Rattle.zk_logs.specs.Outputs.{files_over, OutputsBegun};
ghost use Rattle.zk_logs.specs.Stopped.{ChangesOutputs, IsNotBegun, IsStoppedBy};

use crate::pieces::{add_line, close_log, file_name};
use indexmap::IndexMap;
use std::alloc::Global;
use zk_ascii::{close, header, row};
use zk_base::{Bytes, Moment, Shelf};
use zk_outcome::{Stop, written};
use zk_value::{Cell, Column};

/// The logs that are open, and what waits to be handed over to each. A log is found by its path.
#[derive(Drop)]
pub struct LogFiles {
    alloc: Global,
    /// The pieces by path, in the order in which the files were created.
    pieces: IndexMap<Vec<u8>, Bytes>,
}

impl LogFiles {
    ghost use Rattle.zk_logs.specs.Written.{pieces_of, HasWritten, AreCreated};

    /// No logs. No memory is taken.
    pub fn new(alloc: Global) -> LogFiles
        ensures written { (outputs : Option Files) → HasWritten outputs [] result outputs }
        ensures created { (outside : Outside) → AreCreated result outside }
    {
        LogFiles {
            alloc,
            pieces: IndexMap::new(alloc),
        }
    }

    /// Writes a row to the log of a path. At the first row of a path its file `PATH.log` is created.
    pub fn write<S: Shelf>(
        &mut self,
        shelf: &mut S,
        path: &[u8],
        columns: &[Column],
        cells: &[Cell],
        at: Moment,
    ) -> Result<(), Stop>
        requires date { HasDate at }
        requires created { AreCreated self.old (S.outside shelf.old) }
        ensures written { let row : Row = record { path = path.now; columns = columns.now; cells = cells.now; at = at } in
            OnOk result ((before : Option Files) (rows : List Row) → HasWritten before rows self.old (S.outside shelf.old).outputs
            → HasWritten before (rows ++ row ∷ []) self.new (S.outside shelf.new).outputs) }
        ensures created { OnOk result (AreCreated self.new (S.outside shelf.new)) }
        ensures only { OnOk result (ChangesOutputs (S.outside shelf.old) (S.outside shelf.new)) }
        // Whatever rows come behind it, where it is stopped the outputs are as before or begun.
        ensures begun { let row : Row = record { path = path.now; columns = columns.now; cells = cells.now; at = at } in
            OnErr result ((before : Option Files) (rows more : List Row) (end : MomentData) → HasWritten before rows self.old (S.outside shelf.old).outputs
            → OutputsBegun (log_files (rows ++ row ∷ more) end) before (S.outside shelf.new).outputs) }
        ensures stopped { IfErr result (λ stop. IsStoppedBy stop (S.outside shelf.old) (S.outside shelf.new)) }
    {
        let line = row(self.alloc, cells)?;
        match self.pieces.get_mut(path) {
            Some(piece) => add_line(self.alloc, shelf, path, piece, line.as_slice()),
            None => self.begin(shelf, path, columns, at, line.as_slice()),
        }
    }

    /// Begins the log of a path: its file is created, and its header and its first row wait.
    fn begin<S: Shelf>(
        &mut self,
        shelf: &mut S,
        path: &[u8],
        columns: &[Column],
        at: Moment,
        line: &[u8],
    ) -> Result<(), Stop>
        requires date { HasDate at }
        requires new { get_by (λ key. bytes_eq path.now key.items) self.old.pieces ≡ None }
        ensures begun { let text = header_text path.now columns.now at ++ line.now in
            OnOk result ((other : List ℕ) → pieces_of self.new other ≡ with_file (pieces_of self.old) (file_name path.now) text other) }
        ensures creates { OnOk result (S.outside shelf.new ≡ created (S.outside shelf.old) (file_name path.now)) }
        ensures stopped { IfErr result (λ stop. IsNotBegun (file_name path.now) stop (S.outside shelf.old) (S.outside shelf.new)) }
    {
        let mut piece = header(self.alloc, path, columns, at)?;
        piece.append(line)?;
        let name = file_name(self.alloc, path)?;
        let key = Vec::from_slice(self.alloc, path)?;
        self.pieces.reserve(1)?;
        written(shelf.create(name.as_slice()))?;
        self.pieces.insert(key, piece)?;
        Ok(())
    }

    /// Closes the logs: what waits is handed over with the line that ends each file. No log is open then.
    pub fn close<S: Shelf>(&mut self, shelf: &mut S, at: Moment) -> Result<(), Stop>
        requires date { HasDate at }
        requires created { AreCreated self.old (S.outside shelf.old) }
        ensures closed { OnOk result ((before : Option Files) (rows : List Row) → HasWritten before rows self.old (S.outside shelf.old).outputs
            → (S.outside shelf.new).outputs ≡ option_map (files_over (log_files rows at)) before) }
        ensures none { OnOk result ((outputs : Option Files) → HasWritten outputs [] self.new outputs) }
        ensures created { OnOk result ((outside : Outside) → AreCreated self.new outside) }
        ensures only { OnOk result (ChangesOutputs (S.outside shelf.old) (S.outside shelf.new)) }
        ensures begun { OnErr result ((before : Option Files) (rows : List Row) → HasWritten before rows self.old (S.outside shelf.old).outputs
            → OutputsBegun (log_files rows at) before (S.outside shelf.new).outputs) }
        ensures stopped { IfErr result (λ stop. IsStoppedBy stop (S.outside shelf.old) (S.outside shelf.new)) }
    {
        let line = close(self.alloc, at)?;
        'logs: for (path, piece) in self.pieces.iter() {
            close_log(self.alloc, shelf, path, piece.as_slice(), line.as_slice())?;
        }
        self.pieces.clear();
        Ok(())
    }
}
