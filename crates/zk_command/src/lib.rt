//! The words of a command line, and what the program says of itself and complains of an ending.
#![tactic(auto)]

mod about;
mod command;
mod complaint;

pub use about::{help, version};
pub use command::{BUDGET, BUFFER, Command, Settings, command_line, read_command, spelling};
pub use complaint::complaint_of;
