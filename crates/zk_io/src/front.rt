ghost use Rattle.std.specs.Prelude.{◌≡◌, ◌⊎◌, ◌+◌, ◌≤◌, ◌<◌, [], true, false, length, IsTrue, IfSome, IfOk, OnOk, IfErr};
ghost use Rattle.zk_base.specs.Shelf.{is_open, rest_of};
ghost use Rattle.zk_pcap.specs.Header.{header_of};
ghost use Rattle.zk_outcome.specs.Parts.{DoesAll, DoesPart};
ghost use Rattle.zk_io.specs.Reading.{HasRead, IsJustRead, IsStoppedEarly, is_short};

use std::alloc::Global;
use zk_base::{Bytes, Got, Shelf};
use zk_outcome::Stop;
use zk_pcap::{CaptureFault, Header};

/// Reads the first bytes of the open input, up to those by which the header is judged.
pub fn read_front<S: Shelf>(alloc: Global, shelf: &mut S, chunk: &mut [u8]) -> Result<Bytes, Stop>
    requires room { 0 < length chunk.old }
    requires input { IsTrue (is_open (S.outside shelf.old).reading) }
    ensures read { OnOk result (DoesAll [] [] [] (S.outside shelf.old) (S.outside shelf.new)) }
    ensures input { OnOk result (IsTrue (is_open (S.outside shelf.new).reading)) }
    ensures front { IfOk result (λ front. HasRead (rest_of (S.outside shelf.old)) front (S.outside shelf.new)) }
    ensures judged { IfOk result (λ front. (is_short (header_of front) ≡ false) ⊎ IfSome (rest_of (S.outside shelf.new)) (λ rest. rest ≡ [])) }
    ensures short { IfOk result (λ front. length front ≤ 23 + length chunk.old) }
    ensures soon { IfOk result (λ front. IsJustRead (length chunk.old) front) }
    ensures early { IfErr result (λ stop. IsStoppedEarly (rest_of (S.outside shelf.old)) stop (S.outside shelf.new)) }
    ensures stopped { IfErr result (λ stop. DoesPart [] [] [] (S.outside shelf.old) stop (S.outside shelf.new)) }
{
    let mut front = Bytes::new(alloc);
    while is_undecided(front.as_slice()) {
        match shelf.read(chunk) {
            Got::Bytes(n) => front.append(&chunk[..n])?,
            Got::End => return Ok(front),
            Got::Failed => return Err(Stop::ReadFault),
        }
    }
    Ok(front)
}

/// Whether bytes are missing of the header at the front of a capture, by which it is judged.
fn is_undecided(front: &[u8]) -> bool
    ensures undecided { result ≡ is_short (header_of front.now) }
    ensures few { result ≡ true → length front.now < 24 }
{
    matches!(Header::read(front), Err(CaptureFault::Short { .. }))
}
