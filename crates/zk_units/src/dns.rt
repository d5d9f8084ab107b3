ghost use Rattle.std.specs.Prelude.{◌≡◌, ◌+◌, ◌≤◌, ℕ, false, List, length, Some, IfOk, OnOk};
ghost use Rattle.zk_base.specs.ByteQueue.{bytes_of};
ghost use Rattle.zk_base.specs.declared.network.Side.{Side as SideData};
ghost use Rattle.zk_dns.specs.Stream.{step_of};
ghost use Rattle.zk_dns.specs.declared.tcp.DnsStep.TheVariants.{More, One};
ghost use Rattle.zk_http.specs.Places.{Both, Stream, of_side};
ghost use Rattle.zk_units.specs.Cuts.{byte_places, gap_places};
ghost use Rattle.zk_units.specs.Standing.{DnsStands, DnsTurn, SideStands, SideTurn, behind, dns_side, no_stream, no_streams, with_stream};
ghost use Rattle.zk_units.specs.Units.{fault_number, message_unit, no_units};
ghost use Rattle.zk_units.specs.Unread.{run_of};
ghost use Rattle.zk_units.specs.declared.stream_unit.StreamUnit.{StreamUnit as Said};

use crate::stream_unit::StreamUnit;
use crate::unread::Unread;
use std::alloc::Global;
use zk_base::{Mem, Side};
use zk_dns::{DnsFault, DnsStep, Message, TcpDns};

/// The number of a gap in a length or a message.
const GAP: u8 = 7;

/// The number of a fault.
fn fault_number(fault: DnsFault) -> u8
    ensures { result ≡ fault_number fault }
{
    match fault {
        DnsFault::Short { .. } => 1,
        DnsFault::Label { .. } => 2,
        DnsFault::Name { .. } => 3,
        DnsFault::Pointer { .. } => 4,
        DnsFault::Data { .. } => 5,
        DnsFault::Trailing { .. } => 6,
    }
}

/// What bytes are that should be a message of DNS (RFC 1035, section 4.1).
#[tactic(auto, unfolding(crate::specs::Units::message_unit))]
pub fn message_unit(alloc: Global, bytes: &[u8]) -> Result<StreamUnit, Mem>
    requires { length bytes.now ≤ 65535 }
    ensures { IfOk result (λ said. said ≡ message_unit bytes.now) }
{
    let len = bytes.len() as u32;
    match Message::read(bytes) {
        Ok(message) => Ok(StreamUnit::Dns {
            len,
            message: message.to_record(alloc)?,
        }),
        Err(fault) => Ok(StreamUnit::DnsBad {
            fault: fault_number(fault),
            len,
        }),
    }
}

/// A side of DNS over TCP.
#[derive(Debug, Drop)]
struct DnsSide {
    unread: Unread,
    /// A gap in a length or a message: the side gives nothing more.
    is_over: bool,
}

impl DnsSide {
    fn new(alloc: Global) -> DnsSide
        ensures stands { SideStands result no_stream 0 }
        ensures held { length (bytes_of result.unread.bytes) ≡ 0 }
    {
        DnsSide {
            unread: Unread::new(alloc),
            is_over: false,
        }
    }

    fn add_bytes(&mut self, bytes: &[u8]) -> Result<(), Mem>
        ensures { OnOk result ((stream : Stream) (count : ℕ) → SideStands self.old stream count → SideStands self.new (behind stream (byte_places bytes.now)) count) }
    {
        if self.is_over {
            return Ok(());
        }
        self.unread.add_bytes(bytes)
    }

    fn add_gap(&mut self, places: u64) -> Result<(), Mem>
        ensures { OnOk result ((stream : Stream) (count : ℕ) → SideStands self.old stream count → SideStands self.new (behind stream (gap_places places)) count) }
    {
        if self.is_over {
            return Ok(());
        }
        self.unread.add_gap(places)
    }

    /// The next message or fault, if there is one.
    fn next(&mut self, alloc: Global) -> Result<Option<StreamUnit>, Mem>
        ensures { IfOk result (λ found. (stream : Stream) (count : ℕ) → SideStands self.old stream count → SideTurn self.new found stream count) }
    {
        if self.is_over {
            return Ok(None);
        }
        match TcpDns::new().step(self.unread.run()) {
            DnsStep::One { used, from, to } => Ok(Some(self.message(alloc, used, from, to)?)),
            DnsStep::More => Ok(self.gap()),
        }
    }

    /// The message that stands next.
    fn message(
        &mut self,
        alloc: Global,
        used: usize,
        from: usize,
        to: usize,
    ) -> Result<StreamUnit, Mem>
        requires step { step_of (run_of self.old.unread) ≡ One used from to }
        requires used { used ≤ length (run_of self.old.unread) }
        requires len { to ≤ from + 65535 }
        ensures { IfOk result (λ found. (stream : Stream) (count : ℕ) → SideStands self.old stream count → self.old.is_over ≡ false → SideTurn self.new (Some found) stream count) }
    {
        let unit = message_unit(alloc, &self.unread.run()[from..to])?;
        self.unread.pass(used);
        Ok(unit)
    }

    /// The fault of a gap, if one stands where a message or its length goes on.
    fn gap(&mut self) -> Option<StreamUnit>
        requires step { step_of (run_of self.old.unread) ≡ More }
        requires few { length (run_of self.old.unread) ≤ 65536 }
        ensures { (stream : Stream) (count : ℕ) → SideStands self.old stream count → self.old.is_over ≡ false → SideTurn self.new result stream count }
    {
        if self.unread.gap() == 0 {
            return None;
        }
        self.is_over = true;
        self.unread.clear();
        Some(StreamUnit::DnsBad { fault: GAP, len: 0 })
    }

    /// How many bytes are kept.
    fn held(&self) -> u64
        ensures bytes { result ≡ length (bytes_of self.now.unread.bytes) }
        ensures within { (stream : Stream) (count : ℕ) → SideStands self.now stream count → result ≤ length stream.places }
    {
        self.unread.held() as u64
    }
}

/// A reader of DNS over TCP.
#[derive(Debug, Drop)]
pub struct DnsReader {
    alloc: Global,
    orig: DnsSide,
    resp: DnsSide,
}

impl DnsReader {
    /// Nothing was read. No memory is taken.
    pub fn new(alloc: Global) -> DnsReader
        ensures stands { DnsStands result no_streams no_units }
        ensures held { (side : SideData) → length (bytes_of (dns_side side result).unread.bytes) ≡ 0 }
    {
        DnsReader {
            alloc,
            orig: DnsSide::new(alloc),
            resp: DnsSide::new(alloc),
        }
    }

    /// The next message or fault of a side, if there is one.
    pub fn next(&mut self, side: Side) -> Result<Option<StreamUnit>, Mem>
        ensures { IfOk result (λ found. (streams : Both Stream) (units : Both (List Said)) → DnsStands self.old streams units → DnsTurn side self.old self.new found streams units) }
    {
        match side {
            Side::Orig => self.orig.next(self.alloc),
            Side::Resp => self.resp.next(self.alloc),
        }
    }

    /// Adds bytes up to a side's front.
    pub fn add_bytes(&mut self, side: Side, bytes: &[u8]) -> Result<(), Mem>
        ensures { OnOk result ((streams : Both Stream) (units : Both (List Said)) → DnsStands self.old streams units
            → DnsStands self.new (with_stream side (behind (of_side side streams) (byte_places bytes.now)) streams) units) }
    {
        match side {
            Side::Orig => self.orig.add_bytes(bytes),
            Side::Resp => self.resp.add_bytes(bytes),
        }
    }

    /// Adds gap places up to a side's front.
    pub fn add_gap(&mut self, side: Side, places: u64) -> Result<(), Mem>
        ensures { OnOk result ((streams : Both Stream) (units : Both (List Said)) → DnsStands self.old streams units
            → DnsStands self.new (with_stream side (behind (of_side side streams) (gap_places places)) streams) units) }
    {
        match side {
            Side::Orig => self.orig.add_gap(places),
            Side::Resp => self.resp.add_gap(places),
        }
    }

    /// How many bytes of a side are kept.
    pub fn held(&self, side: Side) -> u64
        ensures bytes { result ≡ length (bytes_of (dns_side side self.now).unread.bytes) }
        ensures within { (streams : Both Stream) (units : Both (List Said)) → DnsStands self.now streams units → result ≤ length (of_side side streams).places }
    {
        match side {
            Side::Orig => self.orig.held(),
            Side::Resp => self.resp.held(),
        }
    }
}
