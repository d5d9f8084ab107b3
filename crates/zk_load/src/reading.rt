ghost use Rattle.std.specs.Prelude.{◌≡◌, ◌<◌, [], ◌∷◌, length, IsTrue, IfSome, IsSome, IsNone, IfOk, OnOk, IfErr};
ghost use Rattle.zk_base.specs.Shelf.{is_open, rest_of, HasRisen};
ghost use Rattle.zk_outcome.specs.Input.{IsReadBeyond, IsReadOf};
ghost use Rattle.zk_outcome.specs.Parts.{DoesWithoutFault, DoesAll, DoesPart};
ghost use Rattle.zk_outcome.specs.Parts.{SameAbsences};

use std::alloc::Global;
use zk_base::{Bytes, Got, Shelf, Started};
use zk_outcome::Stop;

/// How many bytes an input is asked for at once.
const CHUNK: usize = 1 << 18;

/// The bytes of an input, or none where there is no such input. Of an input of more than `most`
/// bytes only a prefix of more than `most` may be read.
pub fn read_input<S: Shelf>(
    alloc: Global,
    shelf: &mut S,
    name: &[u8],
    most: usize,
) -> Result<Option<Bytes>, Stop>
    ensures read { OnOk result (DoesWithoutFault (name.now ∷ []) [] [] (S.outside shelf.old) (S.outside shelf.new)) }
    ensures bytes { IfOk result (λ bytes. IfSome (S.outside shelf.old).inputs (λ files. IsReadOf most (files name.now) bytes)) }
    ensures absent { IfOk result (λ bytes. IsNone bytes → HasRisen (S.outside shelf.old).absences (S.outside shelf.new).absences) }
    ensures present { IfOk result (λ bytes. IsSome bytes → SameAbsences (S.outside shelf.old) (S.outside shelf.new)) }
    ensures stopped { IfErr result (λ stop. DoesPart (name.now ∷ []) [] [] (S.outside shelf.old) stop (S.outside shelf.new)) }
{
    match shelf.start(name) {
        Started::Open => Ok(Some(read_open(alloc, shelf, most)?)),
        Started::Absent => Ok(None),
        Started::Failed => Err(Stop::ReadFault),
        Started::NoMemory => Err(Stop::NoMemory),
    }
}

/// The bytes that the open input has left, or a prefix of them that is longer than `most`.
fn read_open<S: Shelf>(alloc: Global, shelf: &mut S, most: usize) -> Result<Bytes, Stop>
    requires { IsTrue (is_open (S.outside shelf.old).reading) }
    ensures read { OnOk result (DoesAll [] [] [] (S.outside shelf.old) (S.outside shelf.new)) }
    ensures bytes { IfOk result (λ bytes. IfSome (rest_of (S.outside shelf.old)) (λ rest. IsReadBeyond most rest bytes)) }
    ensures stopped { IfErr result (λ stop. DoesPart [] [] [] (S.outside shelf.old) stop (S.outside shelf.new)) }
{
    let mut chunk = vec![in alloc; 0; CHUNK]?;
    read_chunks(alloc, shelf, &mut chunk, most)
}

/// The same, read through a buffer that is not empty.
fn read_chunks<S: Shelf>(
    alloc: Global,
    shelf: &mut S,
    chunk: &mut [u8],
    most: usize,
) -> Result<Bytes, Stop>
    requires room { 0 < length chunk.old }
    requires input { IsTrue (is_open (S.outside shelf.old).reading) }
    ensures read { OnOk result (DoesAll [] [] [] (S.outside shelf.old) (S.outside shelf.new)) }
    ensures bytes { IfOk result (λ bytes. IfSome (rest_of (S.outside shelf.old)) (λ rest. IsReadBeyond most rest bytes)) }
    ensures stopped { IfErr result (λ stop. DoesPart [] [] [] (S.outside shelf.old) stop (S.outside shelf.new)) }
{
    let mut bytes = Bytes::new(alloc);
    while bytes.len() <= most {
        match shelf.read(chunk) {
            Got::Bytes(n) => bytes.append(&chunk[..n])?,
            Got::End => return Ok(bytes),
            Got::Failed => return Err(Stop::ReadFault),
        }
    }
    Ok(bytes)
}
