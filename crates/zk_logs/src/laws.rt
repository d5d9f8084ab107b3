// What holds of log files, in the subject's own words.
ghost use Rattle.std.specs.Prelude.{◌≡◌, ◌++◌, ℕ, List, Option};
ghost use Rattle.zk_base.specs.declared.time.Moment.{Moment};
ghost use Rattle.zk_base.specs.Shelf.{Files};
ghost use Rattle.zk_logs.specs.declared.logs.LogFiles.{LogFiles};
ghost use Rattle.zk_logs.specs.Logs.{Row, file_name, log_files, log_of};
ghost use Rattle.zk_logs.specs.Outputs.{OutputsBegun};
ghost use Rattle.zk_logs.specs.Written.{HasWritten};

/// The file of a path is the log of the rows of that path and of no other. There is nothing to run.
pub fn each_path_has_its_file()
    ensures apart { (a b : List ℕ) → file_name a ≡ file_name b → a ≡ b }
    ensures log { (path : List ℕ) (rows : List Row) (end : Moment) → log_files rows end (file_name path) ≡ log_of path rows end }
{}

/// What is written of the rows so far is as before or begun, whatever rows come and whenever the logs are
/// closed. There is nothing to run.
pub fn what_is_written_stays()
    ensures { (before now : Option Files) (rows more : List Row) (logs : LogFiles) (end : Moment) → HasWritten before rows logs now → OutputsBegun (log_files (rows ++ more) end) before now }
{}
