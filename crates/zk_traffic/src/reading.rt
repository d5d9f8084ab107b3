ghost use Rattle.std.specs.Prelude.{◌≡◌, true, List, Option, None, IfOk, OnOk};
ghost use Rattle.zk_base.specs.declared.network.Side.{Side as SideData};
ghost use Rattle.zk_http.specs.Places.{Both, Stream, of_side};
ghost use Rattle.zk_traffic.specs.Reading.{Gets, Reads, StandsFor, held_in};
ghost use Rattle.zk_units.specs.Cuts.{byte_places, gap_places};
ghost use Rattle.zk_units.specs.Standing.{ended_by, no_streams, with_stream};
ghost use Rattle.zk_units.specs.Units.{no_units};
ghost use Rattle.zk_units.specs.declared.protocol.Protocol.{Protocol as Speaks};
ghost use Rattle.zk_units.specs.declared.stream_unit.StreamUnit.{StreamUnit as Said};

use std::alloc::Global;
use std::collections::VecDeque;
use zk_base::{Mem, Side};
use zk_units::{Freed, Protocol, Readers};

/// What reads the two streams of a connection. Readers are boxed and made only where a protocol is
/// spoken: they are large, and most connections have none.
#[derive(Debug, Drop)]
pub struct Reading {
    readers: Option<Box<Readers>>,
}

#[tactic(auto, unfolding(crate::specs::Reading::StandsFor, crate::specs::Reading::held_in))]
impl Reading {
    /// Reads two streams of which nothing has come.
    pub fn new(alloc: Global, protocol: Option<Protocol>) -> Result<Reading, Mem>
        ensures stands { IfOk result (λ reading. StandsFor reading protocol no_streams no_units) }
        ensures held { IfOk result (λ reading. (side : SideData) → held_in side reading ≡ 0) }
        ensures idle { protocol ≡ None → IfOk result (λ reading. reading.readers ≡ None) }
    {
        if protocol.is_none() {
            return Ok(Reading { readers: None });
        }
        let readers = Box::new(alloc, Readers::new(alloc, protocol))?;
        Ok(Reading {
            readers: Some(readers),
        })
    }

    /// Adds bytes up to a side's front.
    pub fn add_bytes(&mut self, side: Side, bytes: &[u8]) -> Result<(), Mem>
        ensures { OnOk result (Gets side (byte_places bytes.now) self.old self.new) }
    {
        match &mut self.readers {
            Some(readers) => readers.add_bytes(side, bytes),
            None => Ok(()),
        }
    }

    /// Adds gap places up to a side's front.
    pub fn add_gap(&mut self, side: Side, places: u64) -> Result<(), Mem>
        ensures { OnOk result (Gets side (gap_places places) self.old self.new) }
    {
        match &mut self.readers {
            Some(readers) => readers.add_gap(side, places),
            None => Ok(()),
        }
    }

    /// A side has ended.
    pub fn end(&mut self, side: Side)
        ensures { (protocol : Option Speaks) (streams : Both Stream) (units : Both (List Said)) → StandsFor self.old protocol streams units
            → StandsFor self.new protocol (with_stream side (ended_by (of_side side streams) true) streams) units }
    {
        if let Some(readers) = &mut self.readers {
            readers.end(side);
        }
    }

    /// How many bytes of a side are kept.
    pub fn held(&self, side: Side) -> u64
        ensures { result ≡ held_in side self.now }
    {
        match &self.readers {
            Some(readers) => readers.held(side),
            None => 0,
        }
    }

    /// Adds all units that the streams free: those of this side until it has none, then those of the
    /// other, and so on until neither has one.
    pub fn read(&mut self, first: Side, units: &mut VecDeque<Freed>) -> Result<(), Mem>
        ensures { OnOk result ((protocol : Option Speaks) (streams : Both Stream) (given : Both (List Said)) → StandsFor self.old protocol streams given
            → Reads first self.old self.new units.old.items units.new.items protocol streams given) }
    {
        match &mut self.readers {
            Some(readers) => readers.read(first, units),
            None => Ok(()),
        }
    }
}
