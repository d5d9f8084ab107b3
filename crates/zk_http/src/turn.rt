ghost use Rattle.std.specs.Prelude.{◌≡◌, ℕ, ◌+◌, ◌-◌, ◌<◌, ◌≤◌, Bool, List, length, if◌then◌else◌};
ghost use Rattle.std.specs.Prelude.{[], ◌++◌, take, replicate, false, None};
ghost use Rattle.zk_base.specs.Places.{Place};
ghost use Rattle.zk_http.specs.Chunks.{chunk_line_limit};
ghost use Rattle.zk_http.specs.Heads.{head_limit};
ghost use Rattle.zk_http.specs.BodyBytes.{bytes_at};
ghost use Rattle.zk_http.specs.Reading.{KnowsIn, bound_in, data_from, seen_in};
ghost use Rattle.zk_http.specs.Search.{Knows};
ghost use Rattle.zk_http.specs.Turns.{AreAlike, GoesOnWithData, HasCounts, HasData, HasGapCounts, IsLast, IsTurn, PassesAll, places_of, read_in};

use crate::chunk::size_of;
use crate::search::{Ending, Found, Search};
use crate::state::{Part, Reading};
use crate::{Reason, UnitKind};
use zk_base::Body;

/// What the places that follow a head come to.
#[derive(Debug, Drop)]
pub enum Turn {
    /// So many of them were read, and behind them another part begins.
    On { places: u64, reading: Reading },
    /// So many of them were read, and more have to come.
    Waits { places: u64, reading: Reading },
    /// So many of them show this.
    Tells { places: u64, what: UnitKind },
}

impl Turn {
    /// How many places were read.
    fn places(&self) -> u64
        ensures { result ≡ read_in self.now }
    {
        match self {
            Turn::On { places, .. } => *places,
            Turn::Waits { places, .. } => *places,
            Turn::Tells { places, .. } => *places,
        }
    }
}

const RETURN: u8 = b'\r';

const FEED: u8 = b'\n';

/// What bytes come to.
pub fn read_bytes(reading: Reading, ended: bool, bytes: &[u8]) -> Turn
    requires body { reading.body + length bytes.now ≤ 2147483648 }
    requires gap { reading.gap + length bytes.now ≤ 2147483648 }
    requires seen { seen_in reading.part ≤ length bytes.now }
    requires most { seen_in reading.part < bound_in reading.part }
    ensures turn { KnowsIn reading.part (places_of bytes.now) → IsTurn reading ended (places_of bytes.now) result }
    ensures counts { HasCounts reading (length bytes.now) result }
    ensures content { KnowsIn reading.part (places_of bytes.now) → HasData reading.part (places_of bytes.now) result }
{
    let count = bytes.len() as u64;
    match reading.part {
        Part::Places(left) => in_places(reading, left, count, false),
        Part::ToEnd => to_end(reading, ended, count),
        Part::Size(search) => size(reading, search, bytes),
        Part::Chunk(left) => in_chunk(reading, left, count, false),
        Part::Return => line_return(reading, bytes),
        Part::Feed => line_feed(reading, bytes),
        Part::Trailer(search) => trailer(reading, search, bytes),
        Part::Tunnel => at_once(UnitKind::Tunnel),
        Part::Unknown(why) => at_once(UnitKind::Violation(why)),
    }
}

/// What bytes come to, of which the body is given its own.
fn read_part<B: Body>(reading: Reading, ended: bool, bytes: &[u8], body: &mut B) -> Turn
    requires body { reading.body + length bytes.now ≤ 2147483648 }
    requires gap { reading.gap + length bytes.now ≤ 2147483648 }
    requires seen { seen_in reading.part ≤ length bytes.now }
    requires most { seen_in reading.part < bound_in reading.part }
    ensures turn { KnowsIn reading.part (places_of bytes.now) → IsTurn reading ended (places_of bytes.now) result }
    ensures counts { HasCounts reading (length bytes.now) result }
    ensures content { KnowsIn reading.part (places_of bytes.now) → GoesOnWithData reading.part (places_of bytes.now) result }
    ensures given { KnowsIn reading.part (places_of bytes.now) → (before : List ℕ) → B.stands_for body.old before
        → B.stands_for body.new (before ++ bytes_at (data_from reading.part (take (read_in result) (places_of bytes.now)))) }
    ensures rest { B.rest body.new ≡ B.rest body.old }
{
    let turn = read_bytes(reading, ended, bytes);
    if reading.part.is_data() {
        body.add(&bytes[..turn.places() as usize]);
    }
    turn
}

/// What bytes come to, part after part; the body is given its own.
pub fn read_on<B: Body>(reading: Reading, ended: bool, bytes: &[u8], body: &mut B) -> Turn
    requires body { reading.body + length bytes.now ≤ 2147483648 }
    requires gap { reading.gap + length bytes.now ≤ 2147483648 }
    requires seen { seen_in reading.part ≤ length bytes.now }
    requires most { seen_in reading.part < bound_in reading.part }
    ensures turn { KnowsIn reading.part (places_of bytes.now) → IsTurn reading ended (places_of bytes.now) result }
    ensures counts { HasCounts reading (length bytes.now) result }
    ensures ends { IsLast result }
    ensures content { KnowsIn reading.part (places_of bytes.now) → GoesOnWithData reading.part (places_of bytes.now) result }
    ensures given { KnowsIn reading.part (places_of bytes.now) → (before : List ℕ) → B.stands_for body.old before
        → B.stands_for body.new (before ++ bytes_at (data_from reading.part (take (read_in result) (places_of bytes.now)))) }
    ensures rest { B.rest body.new ≡ B.rest body.old }
{
    let mut reading = reading;
    let mut used = 0;
    'parts: loop {
        match read_part(reading, ended, &bytes[used..], body) {
            Turn::On {
                places,
                reading: next,
            } => {
                used += places as usize;
                reading = next;
            }
            Turn::Waits { places, reading } => {
                return Turn::Waits {
                    places: used as u64 + places,
                    reading,
                };
            }
            Turn::Tells { places, what } => {
                return Turn::Tells {
                    places: used as u64 + places,
                    what,
                };
            }
        }
    }
}

/// What a gap comes to, behind so many bytes that were looked at and not used.
pub fn read_gap(reading: Reading, unused: u64, count: u64) -> Turn
    requires some { 0 < count }
    requires seen { seen_in reading.part ≡ unused }
    requires most { seen_in reading.part < bound_in reading.part }
    requires body { reading.body + count ≤ 2147483648 }
    requires gap { reading.gap + count ≤ 2147483648 }
    ensures turn { (told : Bool) (bytes : List ℕ) → length bytes ≡ unused → KnowsIn reading.part (places_of bytes ++ replicate count None)
        → IsTurn reading told (places_of bytes ++ replicate count None) result }
    ensures counts { HasGapCounts reading unused count result }
    ensures content { (bytes : List ℕ) → length bytes ≡ unused → KnowsIn reading.part (places_of bytes ++ replicate count None)
        → GoesOnWithData reading.part (places_of bytes ++ replicate count None) result }
    ensures none { (bytes : List ℕ) → length bytes ≡ unused → KnowsIn reading.part (places_of bytes ++ replicate count None)
        → bytes_at (data_from reading.part (take (read_in result) (places_of bytes ++ replicate count None))) ≡ [] }
{
    match reading.part {
        Part::Places(left) => in_places(reading, left, count, true),
        Part::ToEnd => Turn::On {
            places: count,
            reading: reading.behind(count, count),
        },
        Part::Chunk(left) => chunk_in_gap(reading, left, count),
        Part::Tunnel => at_once(UnitKind::Tunnel),
        Part::Unknown(why) => at_once(UnitKind::Violation(why)),
        Part::Size(_) => behind_bytes(unused),
        Part::Return => behind_bytes(unused),
        Part::Feed => behind_bytes(unused),
        Part::Trailer(_) => behind_bytes(unused),
    }
}

/// A gap where a byte is needed, behind so many bytes.
fn behind_bytes(unused: u64) -> Turn
    requires { unused < 65536 }
    ensures { result ≡ Turn.Tells (unused + 1) (UnitKind.Violation Reason.Gap) }
{
    Turn::Tells {
        places: unused + 1,
        what: UnitKind::Violation(Reason::Gap),
    }
}

/// What no place shows.
fn at_once(what: UnitKind) -> Turn
    ensures { result ≡ Turn.Tells 0 what }
{
    Turn::Tells { places: 0, what }
}

/// How many of so many places that are alike are gaps.
fn gaps_in(is_gap: bool, count: u64) -> u64
    ensures { result ≡ (if is_gap then count else 0) }
{
    if is_gap { count } else { 0 }
}

/// A body of which so many places are left, where so many have come that are alike.
fn in_places(reading: Reading, left: u64, count: u64, is_gap: bool) -> Turn
    requires body { reading.body + count ≤ 2147483648 }
    requires gap { reading.gap + count ≤ 2147483648 }
    requires is { reading.part ≡ Part.Places left }
    ensures turn { (places : List Place) (told : Bool) → length places ≡ count → AreAlike is_gap places
        → IsTurn reading told places result }
    ensures counts { HasCounts reading count result }
    ensures all { PassesAll count count result }
    ensures content { (places : List Place) → length places ≡ count → HasData reading.part places result }
{
    if left <= count {
        return Turn::Tells {
            places: left,
            what: reading.behind(left, gaps_in(is_gap, left)).done(),
        };
    }
    Turn::Waits {
        places: count,
        reading: reading
            .behind(count, gaps_in(is_gap, count))
            .at(Part::Places(left - count)),
    }
}

/// A body that goes on to the end of the stream, of which so many bytes have come.
fn to_end(reading: Reading, ended: bool, count: u64) -> Turn
    requires body { reading.body + count ≤ 2147483648 }
    requires gap { reading.gap + count ≤ 2147483648 }
    requires is { reading.part ≡ Part.ToEnd }
    ensures turn { (places : List Place) → length places ≡ count → AreAlike false places
        → IsTurn reading ended places result }
    ensures counts { HasCounts reading count result }
    ensures content { (places : List Place) → length places ≡ count → HasData reading.part places result }
{
    let reading = reading.behind(count, 0);
    if ended {
        Turn::Tells {
            places: count,
            what: reading.done(),
        }
    } else {
        Turn::Waits {
            places: count,
            reading,
        }
    }
}

/// A chunk of which so many places are left, where so many have come that are alike.
fn in_chunk(reading: Reading, left: u64, count: u64, is_gap: bool) -> Turn
    requires body { reading.body + count ≤ 2147483648 }
    requires gap { reading.gap + count ≤ 2147483648 }
    requires is { reading.part ≡ Part.Chunk left }
    ensures turn { (places : List Place) (told : Bool) → length places ≡ count → AreAlike is_gap places
        → IsTurn reading told places result }
    ensures counts { HasCounts reading count result }
    ensures all { PassesAll left count result }
    ensures content { (places : List Place) → length places ≡ count → HasData reading.part places result }
{
    if left <= count {
        return Turn::On {
            places: left,
            reading: reading.behind(left, gaps_in(is_gap, left)).at(Part::Return),
        };
    }
    Turn::Waits {
        places: count,
        reading: reading
            .behind(count, gaps_in(is_gap, count))
            .at(Part::Chunk(left - count)),
    }
}

/// The CR behind a chunk.
fn line_return(reading: Reading, bytes: &[u8]) -> Turn
    requires { reading.part ≡ Part.Return }
    ensures turn { (told : Bool) → IsTurn reading told (places_of bytes.now) result }
    ensures counts { HasCounts reading (length bytes.now) result }
    ensures content { HasData reading.part (places_of bytes.now) result }
{
    match bytes.first() {
        None => Turn::Waits { places: 0, reading },
        Some(byte) if *byte == RETURN => Turn::On {
            places: 1,
            reading: reading.at(Part::Feed),
        },
        Some(_) => Turn::Tells {
            places: 1,
            what: UnitKind::Violation(Reason::ChunkBad),
        },
    }
}

/// The LF behind a chunk.
fn line_feed(reading: Reading, bytes: &[u8]) -> Turn
    requires { reading.part ≡ Part.Feed }
    ensures turn { (told : Bool) → IsTurn reading told (places_of bytes.now) result }
    ensures counts { HasCounts reading (length bytes.now) result }
    ensures content { HasData reading.part (places_of bytes.now) result }
{
    match bytes.first() {
        None => Turn::Waits { places: 0, reading },
        Some(byte) if *byte == FEED => Turn::On {
            places: 1,
            reading: reading.at(Part::Size(Search::new())),
        },
        Some(_) => Turn::Tells {
            places: 1,
            what: UnitKind::Violation(Reason::ChunkBad),
        },
    }
}

/// The line before a chunk, which was looked through so far.
fn size(reading: Reading, search: Search, bytes: &[u8]) -> Turn
    requires seen { search.seen ≤ length bytes.now }
    requires most { search.seen < chunk_line_limit }
    requires is { reading.part ≡ Part.Size search }
    ensures turn { (told : Bool) → Knows search Ending.Line (take chunk_line_limit bytes.now)
        → IsTurn reading told (places_of bytes.now) result }
    ensures counts { HasCounts reading (length bytes.now) result }
    ensures content { Knows search Ending.Line (take chunk_line_limit bytes.now) → HasData reading.part (places_of bytes.now) result }
{
    match search.find_within(Ending::Line, bytes) {
        Found::Ends { len, .. } => match size_of(&bytes[..len]) {
            Some(0) => Turn::On {
                places: len as u64,
                reading: reading.at(Part::Trailer(Search::new())),
            },
            Some(size) => Turn::On {
                places: len as u64,
                reading: reading.at(Part::Chunk(size)),
            },
            None => Turn::Tells {
                places: len as u64,
                what: UnitKind::Violation(Reason::ChunkBad),
            },
        },
        Found::TooLong { limit } => Turn::Tells {
            places: limit as u64,
            what: UnitKind::Violation(Reason::ChunkBad),
        },
        Found::Waits { search } => Turn::Waits {
            places: 0,
            reading: reading.at(Part::Size(search)),
        },
    }
}

/// The lines behind the last chunk, which were looked through so far.
fn trailer(reading: Reading, search: Search, bytes: &[u8]) -> Turn
    requires seen { search.seen ≤ length bytes.now }
    requires most { search.seen < head_limit }
    requires is { reading.part ≡ Part.Trailer search }
    ensures turn { (told : Bool) → Knows search Ending.Section (take head_limit bytes.now)
        → IsTurn reading told (places_of bytes.now) result }
    ensures counts { HasCounts reading (length bytes.now) result }
    ensures content { HasData reading.part (places_of bytes.now) result }
{
    match search.find_within(Ending::Section, bytes) {
        Found::Ends { len, .. } => Turn::Tells {
            places: len as u64,
            what: reading.done(),
        },
        Found::TooLong { limit } => Turn::Tells {
            places: limit as u64,
            what: UnitKind::Violation(Reason::ChunkBad),
        },
        Found::Waits { search } => Turn::Waits {
            places: 0,
            reading: reading.at(Part::Trailer(search)),
        },
    }
}

/// A gap in a chunk of which so many places are left.
fn chunk_in_gap(reading: Reading, left: u64, count: u64) -> Turn
    requires body { reading.body + count ≤ 2147483648 }
    requires gap { reading.gap + count ≤ 2147483648 }
    requires is { reading.part ≡ Part.Chunk left }
    ensures turn { (told : Bool) → IsTurn reading told (replicate count None) result }
    ensures counts { HasCounts reading count result }
    ensures all { PassesAll count count result }
    ensures content { GoesOnWithData reading.part (replicate count None) result }
{
    if left < count {
        Turn::Tells {
            places: left + 1,
            what: UnitKind::Violation(Reason::Gap),
        }
    } else {
        in_chunk(reading, left, count, true)
    }
}
