//! The machine that runs the code of a program: the world that scripts run in, and one body's run over it.
#![tactic(auto)]

mod agenda;
mod called;
mod calls;
mod copies;
mod counts;
mod defaults;
mod due;
mod ends;
mod entries;
mod expiring;
mod frames;
mod fresh;
mod globals;
mod halt;
mod hooks;
mod indexed;
mod joined;
mod loops;
mod machine;
mod make;
mod names;
mod objects;
mod onward;
mod primitives;
mod pushes;
mod queued;
mod records;
mod reports;
mod rows;
mod run;
mod running;
mod schedule;
mod sides;
mod state;
mod streams;
mod table_defaults;
mod tables;
mod updates;
mod vectors;
mod world;

pub use due::{Due, DueKind};
pub use machine::{Machine, Waited};
pub use queued::Queued;
