//! What the system gives to a program: the words of its command line, and files as the outside.
#![tactic(auto)]

mod arguments;
mod dir_shelf;

pub use arguments::{ArgumentFault, words};
pub use dir_shelf::DirShelf;
