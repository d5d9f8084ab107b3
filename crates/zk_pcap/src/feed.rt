ghost use Rattle.std.specs.Prelude.{◌≡◌, ℕ, ◌+◌, ◌<◌, ◌≤◌, ◌^◌, ◌++◌, ◌∷◌, [], List, length, None, Some, IsSome, IfSome, IsTrue, true, IfOk, IsOk, OnOk, OnErr, ◌↔◌, drop};
ghost use Rattle.std.specs.Option.{option_map};
ghost use Rattle.zk_pcap.specs.Header.{number_of};
ghost use Rattle.zk_pcap.specs.Capture.{end_from, StandBetween};
ghost use Rattle.zk_pcap.specs.Record.{end_of, record_by, record_at};
ghost use Rattle.zk_pcap.specs.Feed.{FeedsReadCaptures, FrontsBeginCaptures, HeadersStay, RecordsStay};
ghost use Rattle.zk_pcap.specs.declared.headers.Header.{Header as HeaderData};
ghost use Rattle.zk_pcap.specs.declared.records.Packet.{Packet as PacketData};

use crate::Header;
use crate::headers::HEADER_LEN;
use crate::records::{RECORD_HEADER_LEN, captured_len, is_too_long, read_record, record_end};
use byteorder::{BigEndian, ByteOrder, LittleEndian};
use std::alloc::Global;
use zk_base::{Got, Held, Mem, PacketView, Shelf};

/// What stands next in a capture that comes in pieces.
#[derive(Clone, Copy, Debug)]
pub enum Next<'a> {
    /// A packet, whose record is whole.
    Packet(PacketView<'a>),
    /// More bytes have to come: what is held is the front of a record, or nothing.
    NeedMore,
    /// At this place of the file begins a record that says that more than 262,144 bytes were captured.
    Bad { place: u64 },
}

/// What captures are, by the records that a feed gives. There is nothing to run.
pub fn feeds_read_captures()
    // What is read of a record stays, whatever bytes come behind.
    ensures stay { RecordsStay }

    // Packets that stand one behind another, and behind which no record is read, are those of the capture.
    ensures captures { FeedsReadCaptures }

    // What the first bytes of a file are sure to say of its header, and the packets in them, are the file's.
    ensures headers { HeadersStay }
    ensures fronts { FrontsBeginCaptures }
{}

/// The records of a capture (draft-ietf-opsawg-pcap, section 5), whose bytes come in pieces.
#[derive(Debug, Drop)]
pub struct Feed {
    big: bool,
    nano: bool,
    place: u64,
    held: Held,
}

impl Feed {
    ghost use Rattle.zk_base.specs.Held.{bytes_of};
    ghost use Rattle.zk_base.specs.Shelf.{is_open};
    ghost use Rattle.zk_base.specs.Fetching.{Fetches};
    ghost use Rattle.zk_pcap.specs.Standing.{StandsFor, GoesOn, IsNext, NextIsBounded, first_record, is_packet, RestIs};

    /// The records of a file with this header, of which no byte behind the header has come yet. No
    /// memory is taken.
    pub fn new(alloc: Global, header: &Header) -> Result<Feed, Mem>
        ensures stands { IfOk result (λ feed. (front : List ℕ) → length front ≡ 24 → StandsFor feed header.now front []) }
        ensures succeeds { IsOk result }
    {
        Ok(Feed {
            big: header.big,
            nano: header.nano,
            place: HEADER_LEN as u64,
            held: Held::new(alloc),
        })
    }

    /// Takes the next bytes of the file. At `Mem` the feed stands for what it stood for.
    pub fn push(&mut self, piece: &[u8]) -> Result<(), Mem>
        ensures ok { OnOk result ((header : HeaderData) (file : List ℕ) (packets : List PacketData) → StandsFor self.old header file packets
            → length (file ++ piece.now) < 2 ^ 64 → StandsFor self.new header (file ++ piece.now) packets) }
        ensures err { OnErr result ((header : HeaderData) (file : List ℕ) (packets : List PacketData) → StandsFor self.old header file packets
            → StandsFor self.new header file packets) }
    {
        self.held.append(piece)
    }

    /// Takes the next bytes of the file from the open input of a shelf, so many at most, which are read
    /// straight to where they are held. At `Mem` nothing was read, and the feed stands for what it
    /// stood for.
    pub fn read_from<S: Shelf>(&mut self, shelf: &mut S, most: usize) -> Result<Got, Mem>
        requires most { 0 < most }
        requires input { IsTrue (is_open (S.outside shelf.old).reading) }
        ensures read { IfOk result (λ given. Fetches (S.outside shelf.old) most given (S.outside shelf.new) (GoesOn self.old self.new)) }
        ensures unread { OnErr result (S.outside shelf.new ≡ S.outside shelf.old) }
        ensures err { OnErr result ((header : HeaderData) (file : List ℕ) (packets : List PacketData) → StandsFor self.old header file packets
            → StandsFor self.new header file packets) }
    {
        self.held.read_from(shelf, most)
    }

    /// What stands next. A packet's bytes are the very slice that is held.
    pub fn next(&self) -> Next<'_>
        ensures next { (header : HeaderData) (file : List ℕ) (packets : List PacketData) → StandsFor self.now header file packets
            → IsNext header file (end_from 24 packets) result }
        ensures limits { NextIsBounded result }
        ensures packet { is_packet result ≡ true ↔ IsSome (first_record self.now) }
    {
        if self.big {
            self.next_in::<BigEndian>()
        } else {
            self.next_in::<LittleEndian>()
        }
    }

    /// Goes on behind the packet that stands next.
    pub fn advance(&mut self)
        requires { IsSome (first_record self.old) }
        ensures { (header : HeaderData) (file : List ℕ) (packets : List PacketData) (packet : PacketData) → StandsFor self.old header file packets
            → record_at header file (end_from 24 packets) ≡ Some packet → StandsFor self.new header file (packets ++ packet ∷ []) }
    {
        let n = self.first_len();
        self.held.take(n);
        self.place = self.place.saturating_add(n as u64);
    }

    /// Where an unfinished record begins, if a byte of one is held.
    pub fn rest(&self) -> Option<u64>
        ensures { (header : HeaderData) (file : List ℕ) (packets : List PacketData) → StandsFor self.now header file packets
            → RestIs header file (end_from 24 packets) result }
    {
        let end = self.records_end();
        if end == self.held.as_slice().len() {
            None
        } else {
            Some(self.place.saturating_add(end as u64))
        }
    }
}

impl Feed {
    ghost use Rattle.zk_base.specs.Held.{bytes_of};
    ghost use Rattle.zk_pcap.specs.Standing.{first_record, IsFirst, NextIsBounded};

    /// What stands next where the numbers of the file stand in the order `T`.
    fn next_in<T: ByteOrder>(&self) -> Next<'_>
        ensures first { IsFirst T.number_of self.now.nano (bytes_of self.now.held) self.now.place result }
        ensures limits { NextIsBounded result }
    {
        let held = self.held.as_slice();
        match read_record::<T>(held, 0, self.nano) {
            Some(view) => Next::Packet(PacketView {
                place: self.place,
                ..view
            }),
            None if is_too_long::<T>(held) => Next::Bad { place: self.place },
            None => Next::NeedMore,
        }
    }

    /// The length of the first record.
    fn first_len(&self) -> usize
        requires { IsSome (first_record self.now) }
        ensures { IfSome (first_record self.now) (λ packet. result ≡ end_of packet) }
    {
        if self.big {
            record_len::<BigEndian>(self.held.as_slice())
        } else {
            record_len::<LittleEndian>(self.held.as_slice())
        }
    }

    /// The place behind the whole records that are held.
    fn records_end(&self) -> usize
        ensures within { result ≤ length (bytes_of self.now.held) }
        ensures stand { (packets : List PacketData) × StandBetween (record_by (number_of self.now.big) self.now.nano (bytes_of self.now.held)) 0 packets result }
        ensures no_more { record_by (number_of self.now.big) self.now.nano (bytes_of self.now.held) result ≡ None }
    {
        if self.big {
            records_end::<BigEndian>(self.held.as_slice(), self.nano)
        } else {
            records_end::<LittleEndian>(self.held.as_slice(), self.nano)
        }
    }
}

/// The length of the record at the front of some bytes, by its header.
fn record_len<T: ByteOrder>(bytes: &[u8]) -> usize
    requires { 12 ≤ length bytes.now }
    ensures { result ≡ 16 + T.number_of 4 (drop 8 bytes.now) }
{
    RECORD_HEADER_LEN + captured_len::<T>(bytes)
}

/// The place behind the records that stand one behind another from the front of some bytes on.
fn records_end<T: ByteOrder>(bytes: &[u8], nano: bool) -> usize
    ensures within { result ≤ length bytes.now }
    ensures stand { (packets : List PacketData) × StandBetween (record_by T.number_of nano bytes.now) 0 packets result }
    ensures no_more { record_by T.number_of nano bytes.now result ≡ None }
{
    let mut place = 0;
    while let Some(record) = read_record::<T>(bytes, place, nano) {
        place = record_end(&record);
    }
    place
}
