ghost use Rattle.std.specs.Prelude.{◌≡◌, ◌+◌, ◌<◌, ◌≤◌, ◌^◌, ℕ, pos, length, drop, IfOk, IfSome};
ghost use Rattle.std.specs.Option.{option_map};
ghost use Rattle.zk_base.specs.Captured.{IsBounded, captured};
ghost use Rattle.zk_base.specs.Slices.{BeginsAt};
ghost use Rattle.zk_pcap.specs.Record.{end_of, is_too_long_by, moment_of, record_by};
ghost use Rattle.zk_pcap.specs.View.{packet_of, recorded};
ghost use Rattle.zk_pcap.specs.declared.headers.Header.{Header as HeaderData};

use byteorder::ByteOrder;
use std::alloc::Global;
use zk_base::{Bytes, Mem, Moment, PacketView, RECORD_BYTES_MAX};

/// A packet of a capture.
#[derive(Debug, Drop)]
pub struct Packet {
    /// When it was captured.
    pub moment: Moment,
    /// How many bytes it had on the wire.
    pub orig_len: u32,
    /// Its captured bytes.
    pub bytes: Bytes,
    /// Where its record begins in the file.
    pub place: u64,
}

impl Packet {
    /// The packet with its bytes lent. No memory is taken.
    pub fn view(&self) -> PacketView<'_>
        ensures packet { packet_of result ≡ self.now }
        // It is what its record is under each header.
        ensures captured { (header : HeaderData) → captured header.link result ≡ recorded header self.now }
    {
        PacketView {
            moment: self.moment,
            orig_len: self.orig_len,
            bytes: self.bytes.as_slice(),
            place: self.place,
        }
    }

    /// The packet of a view, with a copy of the bytes.
    pub fn copy_of(alloc: Global, view: PacketView<'_>) -> Result<Packet, Mem>
        ensures { IfOk result (λ packet. packet ≡ packet_of view.entry) }
    {
        Ok(Packet {
            moment: view.moment,
            orig_len: view.orig_len,
            bytes: Bytes::copy_of(alloc, view.bytes)?,
            place: view.place,
        })
    }
}

/// The length of a record's header.
pub const RECORD_HEADER_LEN: usize = 16;

// Places of its fields, behind the seconds.
const FRACTION: usize = 4;

const CAPTURED: usize = 8;

const ORIGINAL: usize = 12;

/// The record that begins at a place of a file, if it is whole.
pub fn read_record<T: ByteOrder>(file: &[u8], place: usize, nano: bool) -> Option<PacketView<'_>>
    requires { place ≤ length file.now }
    ensures record { option_map packet_of result ≡ record_by T.number_of nano file.now place }
    ensures place { IfSome result (λ view. (packet_of view).place ≡ place) }
    ensures within { IfSome result (λ view. end_of (packet_of view) ≤ length file.now) }
    ensures limits { IfSome result (λ view. (link : ℕ) → IsBounded (captured link view)) }
    ensures lent { IfSome result (λ view. BeginsAt (place + 16) file.entry view.bytes) }
{
    if file.len() - place < RECORD_HEADER_LEN {
        return None;
    }
    let data = place + RECORD_HEADER_LEN;
    let captured = number_at::<T>(file, place + CAPTURED) as usize;
    if file.len() - data < captured {
        return None;
    }
    if captured > RECORD_BYTES_MAX {
        return None;
    }
    let seconds = number_at::<T>(file, place);
    let fraction = number_at::<T>(file, place + FRACTION);
    Some(PacketView {
        moment: moment_of(nano, seconds, fraction),
        orig_len: number_at::<T>(file, place + ORIGINAL),
        bytes: &file[data..data + captured],
        place: place as u64,
    })
}

/// The place behind a record.
pub fn record_end(record: &PacketView<'_>) -> usize
    requires { end_of (packet_of record.now) < 2 ^ 64 }
    ensures { result ≡ end_of (packet_of record.now) }
{
    record.place as usize + RECORD_HEADER_LEN + record.bytes.len()
}

/// The moment of a second and a fraction of it.
fn moment_of(nano: bool, seconds: u32, fraction: u32) -> Moment
    ensures moment { result ≡ moment_of nano seconds fraction }
    ensures bound { (micros : ℕ) × (micros < 2 ^ 62) × (result ≡ record { 0 = pos micros }) }
{
    let microseconds = if nano { fraction / 1_000 } else { fraction };
    Moment((u64::from(seconds) * 1_000_000 + u64::from(microseconds)) as i64)
}

/// The number in the four bytes from a place on.
fn number_at<T: ByteOrder>(file: &[u8], place: usize) -> u32
    requires { place + 4 ≤ length file.now }
    ensures { result ≡ T.number_of 4 (drop place file.now) }
{
    T::read_u32(&file[place..])
}

/// How many bytes were captured, by the record's header that some bytes begin with.
pub fn captured_len<T: ByteOrder>(bytes: &[u8]) -> usize
    requires { 12 ≤ length bytes.now }
    ensures value { result ≡ T.number_of 4 (drop 8 bytes.now) }
    ensures bound { result < 2 ^ 32 }
{
    number_at::<T>(bytes, CAPTURED) as usize
}

/// Whether some bytes begin with a record that says that more bytes were captured than one may have.
pub fn is_too_long<T: ByteOrder>(bytes: &[u8]) -> bool
    ensures { result ≡ is_too_long_by T.number_of bytes.now 0 }
{
    bytes.len() >= ORIGINAL && captured_len::<T>(bytes) > RECORD_BYTES_MAX
}
