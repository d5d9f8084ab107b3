//! The whole of zeekoff, over any outside: from the words of the command line to the ending.
#![tactic(auto)]

mod entry;
mod generated;
mod line;
mod listing;
mod player;
mod replay;
mod runnable;
mod running;
mod scripts;
mod sink;
mod summary;
mod writer;

pub use entry::run;
