ghost use Rattle.std.specs.Prelude.{◌≡◌, ◌≤◌, true, List, [], length, IfOk, OnOk};
ghost use Rattle.zk_base.specs.ByteQueue.{bytes_of};
ghost use Rattle.zk_base.specs.declared.network.Side.{Side as SideData};
ghost use Rattle.zk_base.specs.declared.network.Side.TheVariants.{Orig, Resp};
ghost use Rattle.zk_http.specs.Places.{Both, Stream, of_side};
ghost use Rattle.zk_http.specs.Units.{no_units as no_http_units};
ghost use Rattle.zk_http.specs.declared.units.«Unit».{«Unit» as HttpUnit};
ghost use Rattle.zk_units.specs.Cuts.{byte_places, gap_places};
ghost use Rattle.zk_units.specs.HttpTurns.{Fits};

use crate::http::read;
use crate::unread::Unread;
use std::alloc::Global;
use zk_base::{Mem, Side};
use zk_http::{Http, Unit};

/// A reader of HTTP, and what it has not used yet of both sides.
#[derive(Debug, Drop)]
pub struct HttpReader {
    http: Http,
    orig: Unread,
    resp: Unread,
    ghost orig_fits: { Fits Orig http orig },
    ghost resp_fits: { Fits Resp http resp },
}

impl HttpReader {
    ghost use Rattle.zk_units.specs.Standing.{HttpStands, NextIs, behind, ended_by, no_streams, unread_of, with_stream};

    /// Nothing was read. No memory is taken.
    pub fn new(alloc: Global) -> HttpReader
        ensures stands { HttpStands result no_streams no_http_units }
        ensures held { (side : SideData) → length (bytes_of (unread_of side result).bytes) ≡ 0 }
    {
        HttpReader {
            http: Http::new(alloc),
            orig: Unread::new(alloc),
            resp: Unread::new(alloc),
        }
    }

    /// The next unit of a side, if it has one.
    pub fn next(&mut self, side: Side) -> Result<Option<Unit>, Mem>
        ensures { IfOk result (λ found. (streams : Both Stream) (units : Both (List HttpUnit)) → HttpStands self.old streams units
            → NextIs side self.old self.new found streams units) }
    {
        match side {
            Side::Orig => read(&mut self.http, Side::Orig, &mut self.orig),
            Side::Resp => read(&mut self.http, Side::Resp, &mut self.resp),
        }
    }

    /// Adds bytes up to a side's front.
    pub fn add_bytes(&mut self, side: Side, bytes: &[u8]) -> Result<(), Mem>
        ensures { OnOk result ((streams : Both Stream) (units : Both (List HttpUnit)) → ((of_side side streams).ended ≡ true → byte_places bytes.now ≡ [])
            → HttpStands self.old streams units → HttpStands self.new (with_stream side (behind (of_side side streams) (byte_places bytes.now)) streams) units) }
    {
        match side {
            Side::Orig => self.orig.add_bytes(bytes),
            Side::Resp => self.resp.add_bytes(bytes),
        }
    }

    /// Adds gap places up to a side's front.
    pub fn add_gap(&mut self, side: Side, places: u64) -> Result<(), Mem>
        ensures { OnOk result ((streams : Both Stream) (units : Both (List HttpUnit)) → ((of_side side streams).ended ≡ true → gap_places places ≡ [])
            → HttpStands self.old streams units → HttpStands self.new (with_stream side (behind (of_side side streams) (gap_places places)) streams) units) }
    {
        match side {
            Side::Orig => self.orig.add_gap(places),
            Side::Resp => self.resp.add_gap(places),
        }
    }

    /// A side has ended.
    pub fn end(&mut self, side: Side)
        ensures { (streams : Both Stream) (units : Both (List HttpUnit)) → HttpStands self.old streams units
            → HttpStands self.new (with_stream side (ended_by (of_side side streams) true) streams) units }
    {
        match side {
            Side::Orig => self.orig.end(),
            Side::Resp => self.resp.end(),
        }
    }

    /// How many bytes of a side are kept.
    pub fn held(&self, side: Side) -> u64
        ensures bytes { result ≡ length (bytes_of (unread_of side self.now).bytes) }
        ensures within { (streams : Both Stream) (units : Both (List HttpUnit)) → HttpStands self.now streams units → result ≤ length (of_side side streams).places }
    {
        match side {
            Side::Orig => self.orig.held() as u64,
            Side::Resp => self.resp.held() as u64,
        }
    }
}
