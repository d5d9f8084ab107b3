//! The log files of a run, written over a shelf: one for each path, created at its first row, handed over
//! in pieces and closed at the end (Zeek manual, Logging Framework).
#![tactic(auto)]

mod laws;
mod logs;
mod pieces;

pub use laws::{each_path_has_its_file, what_is_written_stays};
pub use logs::LogFiles;
