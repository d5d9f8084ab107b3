//! The text of log files: their header, their rows and their last line (Zeek manual, Log Files).
#![tactic(auto)]

mod cells;
mod dates;
mod laws;
mod lines;

pub use cells::row;
pub use laws::equal_texts;
pub use lines::{close, header};
