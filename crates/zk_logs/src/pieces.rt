ghost use Rattle.std.specs.Prelude.{◌≡◌, ◌++◌, ◌<◌, [], length, IfOk, OnOk, IfErr};
ghost use Rattle.zk_base.specs.Shelf.{IsCreated, after_append};
ghost use Rattle.zk_logs.specs.Logs.{file_name};
ghost use Rattle.zk_logs.specs.Handed.{HandsOver, HandsPart};

use std::alloc::Global;
use zk_base::{Bytes, Mem, Shelf};
use zk_outcome::{Stop, written};

/// A piece is handed over once it has so many bytes.
const PIECE: usize = 1 << 16;

/// The name of the file in which the log of a path lies.
pub fn file_name(alloc: Global, path: &[u8]) -> Result<Bytes, Mem>
    ensures { IfOk result (λ name. name ≡ file_name path.now) }
{
    let mut name = Bytes::copy_of(alloc, path)?;
    name.append(b".log")?;
    Ok(name)
}

/// Hands bytes over to the log of a path.
fn hand_over<S: Shelf>(alloc: Global, shelf: &mut S, path: &[u8], bytes: &[u8]) -> Result<(), Stop>
    requires { IsCreated (S.outside shelf.old) (file_name path.now) }
    ensures handed { OnOk result (S.outside shelf.new ≡ after_append (S.outside shelf.old) (file_name path.now) bytes.now) }
    ensures stopped { IfErr result (λ stop. HandsPart (file_name path.now) bytes.now (S.outside shelf.old) stop (S.outside shelf.new)) }
{
    let name = file_name(alloc, path)?;
    written(shelf.append(name.as_slice(), bytes))
}

/// Adds a line to what waits for the log of a path, and hands it over where it is a piece.
pub fn add_line<S: Shelf>(
    alloc: Global,
    shelf: &mut S,
    path: &[u8],
    piece: &mut Bytes,
    line: &[u8],
) -> Result<(), Stop>
    requires { IsCreated (S.outside shelf.old) (file_name path.now) }
    ensures handed { OnOk result (HandsOver (file_name path.now) (piece.old ++ line.now) (S.outside shelf.old) (S.outside shelf.new) piece.new) }
    ensures stopped { IfErr result (λ stop. HandsPart (file_name path.now) (piece.old ++ line.now) (S.outside shelf.old) stop (S.outside shelf.new)) }
    ensures waits { OnOk result (length piece.new < 65536) }
{
    piece.append(line)?;
    if PIECE <= piece.len() {
        hand_over(alloc, shelf, path, piece.as_slice())?;
        piece.clear();
    }
    Ok(())
}

/// Hands over what waits for the log of a path, and its last line.
pub fn close_log<S: Shelf>(
    alloc: Global,
    shelf: &mut S,
    path: &[u8],
    piece: &[u8],
    line: &[u8],
) -> Result<(), Stop>
    requires { IsCreated (S.outside shelf.old) (file_name path.now) }
    ensures handed { OnOk result (HandsOver (file_name path.now) (piece.now ++ line.now) (S.outside shelf.old) (S.outside shelf.new) []) }
    ensures stopped { IfErr result (λ stop. HandsPart (file_name path.now) (piece.now ++ line.now) (S.outside shelf.old) stop (S.outside shelf.new)) }
{
    hand_over(alloc, shelf, path, piece)?;
    hand_over(alloc, shelf, path, line)
}
