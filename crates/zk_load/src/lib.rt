//! The scripts of a run, read over a shelf: those that it names and the files that these load.
#![tactic(auto)]

mod loading;
mod loads;
mod reading;
mod script;
mod texts;

pub use loading::load_scripts;
pub use reading::read_input;
pub use texts::read_texts;
