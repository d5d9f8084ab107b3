ghost use Rattle.std.specs.Prelude.{◌≡◌, ◌≤◌, ◌+◌, [], ◌++◌, length, OnOk, IfErr};
ghost use Rattle.zk_io.specs.Said.{line_end, HandsOver};
ghost use Rattle.zk_io.specs.Reading.{SameInput};
ghost use Rattle.zk_outcome.specs.Parts.{DoesAll, DoesPart};

use std::alloc::AllocError;
use zk_base::Shelf;
use zk_outcome::{Stop, written};

/// Output is handed over in pieces of about this many bytes.
pub const PIECE: usize = 1 << 16;

/// A piece that has so many bytes left has room for the line of an item.
const ROOM: usize = 256;

/// Says a piece that is nearly full on standard output, and begins a new one. Where it isn't, nothing is
/// done outside. `WriteFault` is an output that fails, `NoMemory` an outside without memory.
pub fn make_room<S: Shelf>(shelf: &mut S, piece: &mut Vec<u8>) -> Result<(), Stop>
    ensures room { OnOk result (length piece.new.items + ROOM ≤ PIECE) }
    ensures said { OnOk result (HandsOver (S.outside shelf.old) piece.old.items (S.outside shelf.new) piece.new.items) }
    ensures input { OnOk result (SameInput (S.outside shelf.old) (S.outside shelf.new)) }
    ensures waits { length piece.old.items + ROOM ≤ PIECE → (shelf.new ≡ shelf.old) × (piece.new ≡ piece.old) }
    ensures stopped { IfErr result (λ stop. DoesPart [] piece.old.items [] (S.outside shelf.old) stop (S.outside shelf.new)) }
{
    if PIECE - ROOM < piece.len() {
        say(shelf, piece)?;
        piece.clear();
    }
    Ok(())
}

/// Adds a line and its end to a piece, which is said before where it is nearly full. `WriteFault` is an
/// output that fails, `NoMemory` want of memory.
pub fn push_line<S: Shelf>(shelf: &mut S, piece: &mut Vec<u8>, line: &[u8]) -> Result<(), Stop>
    ensures said { OnOk result (HandsOver (S.outside shelf.old) (piece.old.items ++ (line.now ++ line_end)) (S.outside shelf.new) piece.new.items) }
    ensures input { OnOk result (SameInput (S.outside shelf.old) (S.outside shelf.new)) }
    ensures short { OnOk result (length piece.new.items + ROOM ≤ PIECE + (length line.now + 1)) }
    ensures waits { length piece.old.items + ROOM ≤ PIECE → shelf.new ≡ shelf.old }
    ensures stopped { IfErr result (λ stop. DoesPart [] piece.old.items [] (S.outside shelf.old) stop (S.outside shelf.new)) }
{
    make_room(shelf, piece)?;
    append_line(piece, line)?;
    Ok(())
}

/// Adds a line and its end.
fn append_line(piece: &mut Vec<u8>, line: &[u8]) -> Result<(), AllocError>
    ensures { OnOk result (piece.new.items ≡ piece.old.items ++ (line.now ++ line_end)) }
{
    piece.extend_from_slice(line)?;
    piece.push(b'\n')?;
    Ok(())
}

/// Says a piece on standard output, where there is anything to say. `WriteFault` is an output that
/// fails, `NoMemory` an outside without memory.
pub fn say<S: Shelf>(shelf: &mut S, piece: &[u8]) -> Result<(), Stop>
    ensures said { OnOk result (DoesAll [] piece.now [] (S.outside shelf.old) (S.outside shelf.new)) }
    ensures input { OnOk result (SameInput (S.outside shelf.old) (S.outside shelf.new)) }
    ensures stopped { IfErr result (λ stop. DoesPart [] piece.now [] (S.outside shelf.old) stop (S.outside shelf.new)) }
{
    if piece.is_empty() {
        return Ok(());
    }
    written(shelf.say(piece))
}
