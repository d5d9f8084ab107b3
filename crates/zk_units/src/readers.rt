ghost use Rattle.std.specs.Prelude.{◌≡◌, ◌≤◌, ◌+◌, true, List, length, Option, IfOk, OnOk};
ghost use Rattle.zk_base.specs.declared.network.Side.{Side as SideData};
ghost use Rattle.zk_base.specs.Sides.{other};
ghost use Rattle.zk_http.specs.Places.{Both, Stream, of_side};
ghost use Rattle.zk_units.specs.Cuts.{byte_places, gap_places};
ghost use Rattle.zk_units.specs.Standing.{BothTurn, Gets, Reads, StandsFor, Turn, ended_by, held_in, no_streams, with_stream};
ghost use Rattle.zk_units.specs.Units.{no_units};
ghost use Rattle.zk_units.specs.declared.protocol.Protocol.{Protocol as Speaks};
ghost use Rattle.zk_units.specs.declared.stream_unit.StreamUnit.{StreamUnit as Said};

use crate::dns::DnsReader;
use crate::http_reader::HttpReader;
use crate::protocol::Protocol;
use crate::stream_unit::{Freed, StreamUnit};
use std::alloc::Global;
use std::collections::VecDeque;
use zk_base::{Mem, Side};

/// The reader of a connection's protocol.
#[derive(Debug, Drop)]
enum Reader {
    /// The streams are not read.
    Silent,
    Http(HttpReader),
    Dns(DnsReader),
}

/// What reads the two streams of a connection, by the protocol that it speaks. It keeps of each side
/// what was not used yet; nothing of a side that gives nothing more.
#[derive(Debug, Drop)]
pub struct Readers {
    reader: Reader,
}

/// The other side.
fn peer(side: Side) -> Side
    ensures { result ≡ other side }
{
    match side {
        Side::Orig => Side::Resp,
        Side::Resp => Side::Orig,
    }
}

#[tactic(auto, unfolding(crate::specs::Standing::StandsFor, crate::specs::Standing::held_in))]
impl Readers {
    /// Reads two streams of which nothing has come. No memory is taken.
    pub fn new(alloc: Global, protocol: Option<Protocol>) -> Readers
        ensures stands { StandsFor result protocol no_streams no_units }
        ensures held { (side : SideData) → held_in side result ≡ 0 }
    {
        let reader = match protocol {
            None => Reader::Silent,
            Some(Protocol::Http) => Reader::Http(HttpReader::new(alloc)),
            Some(Protocol::Dns) => Reader::Dns(DnsReader::new(alloc)),
        };
        Readers { reader }
    }

    /// Adds bytes up to a side's front.
    pub fn add_bytes(&mut self, side: Side, bytes: &[u8]) -> Result<(), Mem>
        ensures { OnOk result (Gets side (byte_places bytes.now) self.old self.new) }
    {
        match &mut self.reader {
            Reader::Silent => Ok(()),
            Reader::Http(http) => http.add_bytes(side, bytes),
            Reader::Dns(dns) => dns.add_bytes(side, bytes),
        }
    }

    /// Adds gap places up to a side's front.
    pub fn add_gap(&mut self, side: Side, places: u64) -> Result<(), Mem>
        ensures { OnOk result (Gets side (gap_places places) self.old self.new) }
    {
        match &mut self.reader {
            Reader::Silent => Ok(()),
            Reader::Http(http) => http.add_gap(side, places),
            Reader::Dns(dns) => dns.add_gap(side, places),
        }
    }

    /// A side has ended.
    pub fn end(&mut self, side: Side)
        ensures { (protocol : Option Speaks) (streams : Both Stream) (units : Both (List Said)) → StandsFor self.old protocol streams units
            → StandsFor self.new protocol (with_stream side (ended_by (of_side side streams) true) streams) units }
    {
        if let Reader::Http(http) = &mut self.reader {
            http.end(side);
        }
    }

    /// How many bytes of a side are kept.
    pub fn held(&self, side: Side) -> u64
        ensures bytes { result ≡ held_in side self.now }
        ensures within { (protocol : Option Speaks) (streams : Both Stream) (units : Both (List Said)) → StandsFor self.now protocol streams units
            → result ≤ length (of_side side streams).places }
    {
        match &self.reader {
            Reader::Silent => 0,
            Reader::Http(http) => http.held(side),
            Reader::Dns(dns) => dns.held(side),
        }
    }

    /// Adds all units that the streams free: those of this side until it has none, then those of the
    /// other, and so on until neither has one.
    pub fn read(&mut self, first: Side, units: &mut VecDeque<Freed>) -> Result<(), Mem>
        ensures { OnOk result ((protocol : Option Speaks) (streams : Both Stream) (given : Both (List Said)) → StandsFor self.old protocol streams given
            → Reads first self.old self.new units.old.items units.new.items protocol streams given) }
    {
        let mut side = first;
        for _ in 0..u64::MAX {
            match self.next_of_both(side)? {
                Some(freed) => {
                    side = freed.side;
                    units.push_back(freed)?;
                }
                None => return Ok(()),
            }
        }
        Err(Mem)
    }

    /// The next unit of a side, or where it has none that of the other.
    fn next_of_both(&mut self, side: Side) -> Result<Option<Freed>, Mem>
        ensures { IfOk result (λ found. (protocol : Option Speaks) (streams : Both Stream) (units : Both (List Said)) → StandsFor self.old protocol streams units
            → BothTurn side self.new found protocol streams units) }
    {
        if let Reader::Silent = self.reader {
            return Ok(None);
        }
        if let Some(unit) = self.next(side)? {
            return Ok(Some(Freed { side, unit }));
        }
        let side = peer(side);
        match self.next(side)? {
            Some(unit) => Ok(Some(Freed { side, unit })),
            None => Ok(None),
        }
    }

    /// The next unit of a side.
    fn next(&mut self, side: Side) -> Result<Option<StreamUnit>, Mem>
        ensures { IfOk result (λ found. (protocol : Option Speaks) (streams : Both Stream) (units : Both (List Said)) → StandsFor self.old protocol streams units
            → Turn side self.old self.new found protocol streams units) }
    {
        match &mut self.reader {
            Reader::Silent => Ok(None),
            Reader::Http(http) => match http.next(side)? {
                Some(unit) => Ok(Some(StreamUnit::Http(unit))),
                None => Ok(None),
            },
            Reader::Dns(dns) => dns.next(side),
        }
    }
}
