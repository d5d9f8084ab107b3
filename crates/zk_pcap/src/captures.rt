ghost use Rattle.std.specs.Prelude.{◌≡◌, ◌≤◌, length, map, Ok, IfOk, All};
ghost use Rattle.zk_pcap.specs.Header.{counted};
ghost use Rattle.zk_pcap.specs.Record.{IsWithinLimits, record_at, record_by};
ghost use Rattle.zk_pcap.specs.Capture.{capture_of, UnlessNoMemory, StandBetween, IsRead, IsAlone, ending_at};
ghost use Rattle.zk_base.specs.NetworkTime.{HasNetworkTime};
ghost use Rattle.zk_pcap.specs.View.{recorded};
ghost use Rattle.zk_pcap.specs.declared.captures.Capture.{Capture as CaptureData};
ghost use Rattle.zk_pcap.specs.declared.headers.Header.{Header as HeaderData};

use crate::headers::HEADER_LEN;
use crate::records::{read_record, record_end};
use crate::{CaptureFault, Header, Packet};
use byteorder::{BigEndian, ByteOrder, LittleEndian};
use std::alloc::Global;
use zk_base::{CAPTURE_MAX, CaptureEnding, Mem, Sequence};

/// The packets of a capture, and how it ends.
#[derive(Debug, Drop)]
pub struct Capture {
    pub packets: Sequence<Packet>,
    pub ending: CaptureEnding,
}

/// Reads the packets of a capture (draft-ietf-opsawg-pcap). Only the first 2^40 bytes of the file
/// count. The capture is cut at the first record that isn't whole within them, or whose captured
/// length is above 262,144. (Both limits are this project's own.) A fault of the header is refused as
/// `Header::read` does.
pub fn packets(alloc: Global, bytes: &[u8]) -> Result<Capture, CaptureFault>
    ensures exact { UnlessNoMemory result (capture_of bytes.now) }

    // Its packets are the records that stand one behind another from place 24 on, and no others.
    ensures read { (capture : CaptureData) → capture_of bytes.now ≡ Ok capture
        → IsRead (counted bytes.now) capture × IsAlone (counted bytes.now) capture }

    ensures limits { IfOk result (λ capture. All IsWithinLimits capture.packets) }
    ensures time { IfOk result (λ capture. (header : HeaderData) → HasNetworkTime (map (recorded header) capture.packets)) }
{
    let file = first_bytes(bytes);
    let header = Header::read(file)?;
    let (packets, place) = records_of(alloc, file, header)?;
    Ok(Capture {
        packets: Sequence::from(packets),
        ending: ending_at(file, place),
    })
}

/// The bytes of a file that count.
#[tactic(auto, using(std::proofs::lemmas::List::take_min))]
fn first_bytes(bytes: &[u8]) -> &[u8]
    ensures { result.now ≡ counted bytes.now }
{
    &bytes[..CAPTURE_MAX.min(bytes.len())]
}

/// The packets whose records stand one behind another in a file with this header, and the place
/// behind the last.
fn records_of(alloc: Global, file: &[u8], header: Header) -> Result<(Vec<Packet>, usize), Mem>
    requires { HEADER_LEN ≤ length file.now }
    ensures stand { IfOk result (λ found. StandBetween (record_at header file.now) HEADER_LEN found.0.items found.1) }
    ensures no_more { IfOk result (λ found. record_at header file.now found.1 ≡ None) }
    ensures within { IfOk result (λ found. found.1 ≤ length file.now) }
{
    if header.big {
        records::<BigEndian>(alloc, file, header.nano)
    } else {
        records::<LittleEndian>(alloc, file, header.nano)
    }
}

/// The packets whose records stand one behind another in a file whose numbers stand in the order
/// `T`, and the place behind the last.
#[tactic(auto, using(crate::proofs::RecordLemmas::stand_more))]
fn records<T: ByteOrder>(
    alloc: Global,
    file: &[u8],
    nano: bool,
) -> Result<(Vec<Packet>, usize), Mem>
    requires { HEADER_LEN ≤ length file.now }
    ensures stand { IfOk result (λ found. StandBetween (record_by T.number_of nano file.now) HEADER_LEN found.0.items found.1) }
    ensures no_more { IfOk result (λ found. record_by T.number_of nano file.now found.1 ≡ None) }
    ensures within { IfOk result (λ found. found.1 ≤ length file.now) }
{
    let mut packets = Vec::new(alloc);
    let mut place = HEADER_LEN;
    while let Some(record) = read_record::<T>(file, place, nano) {
        packets.push(Packet::copy_of(alloc, record)?)?;
        place = record_end(&record);
    }
    Ok((packets, place))
}

/// How a file ends whose records end at a place.
fn ending_at(file: &[u8], place: usize) -> CaptureEnding
    ensures { result ≡ ending_at file.now place }
{
    if place == file.len() {
        CaptureEnding::Whole
    } else {
        CaptureEnding::Cut {
            place: place as u64,
        }
    }
}
