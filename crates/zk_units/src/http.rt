ghost use Rattle.std.specs.Prelude.{◌≡◌, ◌↔◌, ◌+◌, ◌-◌, ◌≤◌, ◌<◌, List, length, None, Some, IfOk, IfNone, OnErr, MatchOption};
ghost use Rattle.zk_http.specs.Cases.{Held, case_of};
ghost use Rattle.zk_http.specs.Places.{Both, Stream, of_side};
ghost use Rattle.zk_http.specs.Standing.{StandsFor, used_of, seen_of, IsLent, IsAll, HasGap, HasRead, Takes};
ghost use Rattle.zk_http.specs.Units.{add, next};
ghost use Rattle.zk_http.specs.declared.units.«Unit».{«Unit» as HttpUnit};
ghost use Rattle.zk_units.specs.HttpTurns.{Fits, HasNone, IsTold, KeepsAll, KeepsOther, OnUsed, OnWaits, ReadsOn, unit_of};
ghost use Rattle.zk_units.specs.Unread.{places_of, run_of};

use crate::unread::Unread;
use zk_base::{Mem, Side};
use zk_http::{Http, Step, Unit};

/// What the run of a side and the gap behind it come to.
#[derive(Debug, Drop)]
pub enum Reading {
    /// A unit.
    Found(Unit),
    /// The side has no further unit yet.
    Waits,
    /// The run and some of the gap were used: what follows is to be read.
    Used,
}

/// Reads the bytes of a side, from what was used so far on.
fn read_bytes(http: &mut Http, side: Side, bytes: &[u8]) -> Result<Step, Mem>
    requires seen { seen_of side http.old ≤ length bytes.now }
    requires places { used_of side http.old + length bytes.now ≤ 2147483648 }
    ensures found { IfOk result (λ step. (streams : Both Stream) (units : Both (List HttpUnit)) → StandsFor http.old streams units
        → IsLent http.old side (of_side side streams) bytes.now
        → MatchOption step.unit (IsAll http.old side (of_side side streams) bytes.now → next side streams units ≡ None) (λ unit. next side streams units ≡ Some unit)) }
    ensures stands { IfOk result (λ step. (streams : Both Stream) (units : Both (List HttpUnit)) → StandsFor http.old streams units
        → IsLent http.old side (of_side side streams) bytes.now → StandsFor http.new streams (add side step.unit units)) }
    ensures used { IfOk result (λ step. Takes side http.old http.new step.used (length bytes.now)) }
    ensures memory { OnErr result (KeepsAll side http.old http.new) }
    ensures unused { IfOk result (λ step. IfNone step.unit ((length bytes.now - step.used ≤ 65536) × HasRead side http.new (length bytes.now - step.used))) }
{
    match side {
        Side::Orig => http.request_bytes(bytes),
        Side::Resp => http.response_bytes(bytes),
    }
}

/// Reads a gap of a side, behind bytes that were not used.
fn read_places(http: &mut Http, side: Side, unused: usize, places: u64, after: u64) -> Step
    requires read { HasRead side http.old unused }
    requires some { 0 < places }
    requires places { used_of side http.old + unused + places + after ≤ 2147483648 }
    ensures found { (streams : Both Stream) (units : Both (List HttpUnit)) → StandsFor http.old streams units
        → HasGap http.old side (of_side side streams) unused places after
        → MatchOption result.unit (((result.used ≡ 0) ↔ (case_of side units ≡ Held)) × (result.used ≡ 0 → next side streams units ≡ None))
        (λ unit. next side streams units ≡ Some unit) }
    ensures stands { (streams : Both Stream) (units : Both (List HttpUnit)) → StandsFor http.old streams units
        → HasGap http.old side (of_side side streams) unused places after → StandsFor http.new streams (add side result.unit units) }
    ensures used { Takes side http.old http.new result.used (unused + places) }
    ensures seen { seen_of side http.new ≡ 0 }
{
    match side {
        Side::Orig => http.request_gap(unused, places, after),
        Side::Resp => http.response_gap(unused, places, after),
    }
}

/// Tells of a side's end where nothing but bytes follow.
fn tell_end(http: &mut Http, side: Side, unread: &Unread)
    requires { Fits side http.old unread.now }
    ensures { IsTold side http.old http.new unread.now }
{
    if unread.ended && unread.gap() == 0 {
        http.ended(side);
    }
}

/// Reads the run of a side, and the gap behind it.
fn read_run(http: &mut Http, side: Side, unread: &mut Unread) -> Result<Reading, Mem>
    requires { Fits side http.old unread.old }
    ensures reads { IfOk result (λ reading. ReadsOn side http.old http.new unread.old unread.new (unit_of reading)) }
    ensures none { IfOk result (λ reading. OnWaits reading (HasNone side http.old unread.old unread.new)) }
    ensures fewer { IfOk result (λ reading. OnUsed reading (length (places_of unread.new) < length (places_of unread.old))) }
    ensures memory { OnErr result (Fits side http.new unread.new × KeepsOther side http.old http.new) }
{
    tell_end(http, side, unread);
    let step = read_bytes(http, side, unread.run())?;
    unread.pass(step.used);
    match step.unit {
        Some(unit) => Ok(Reading::Found(unit)),
        None if unread.gap() == 0 => Ok(Reading::Waits),
        None => Ok(read_gap(http, side, unread)),
    }
}

/// Reads the gap behind a run that gave no unit.
fn read_gap(http: &mut Http, side: Side, unread: &mut Unread) -> Reading
    requires fits { Fits side http.old unread.old }
    requires read { HasRead side http.old (length (run_of unread.old)) }
    requires gap { 0 < unread.old.gap }
    ensures reads { ReadsOn side http.old http.new unread.old unread.new (unit_of result) }
    ensures none { OnWaits result (HasNone side http.old unread.old unread.new) }
    ensures fewer { OnUsed result (length (places_of unread.new) < length (places_of unread.old)) }
{
    let places = unread.gap();
    let unused = unread.run().len();
    let after = unread.len() - unused as u64 - places;
    let step = read_places(http, side, unused, places, after);
    unread.pass(step.used);
    match step.unit {
        Some(unit) => Reading::Found(unit),
        None if step.used == 0 => Reading::Waits,
        None => Reading::Used,
    }
}

/// The next unit of a side, if it has one.
pub fn read(http: &mut Http, side: Side, unread: &mut Unread) -> Result<Option<Unit>, Mem>
    requires { Fits side http.old unread.old }
    ensures reads { IfOk result (λ found. ReadsOn side http.old http.new unread.old unread.new found) }
    ensures none { IfOk result (λ found. IfNone found (HasNone side http.old unread.old unread.new)) }
    ensures memory { OnErr result (Fits side http.new unread.new × KeepsOther side http.old http.new) }
{
    'runs: loop {
        match read_run(http, side, unread)? {
            Reading::Found(unit) => return Ok(Some(unit)),
            Reading::Waits => return Ok(None),
            Reading::Used => {}
        }
    }
}
