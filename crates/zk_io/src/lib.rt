//! What a run does with its inputs and outputs, over any outside: a capture is read in pieces, and lines
//! are said in pieces.
#![tactic(auto)]

mod capture;
mod front;
mod output;

pub use capture::{CHUNK, CaptureReader, end_of};
pub use output::{PIECE, make_room, push_line, say};
