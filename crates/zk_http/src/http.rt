ghost use Rattle.std.specs.Prelude.{◌≡◌, ◌↔◌, ℕ, ◌+◌, ◌-◌, ◌<◌, ◌≤◌, true, false, List, ◌++◌, length, min, None, Some, IfOk, IfNone, IfSome, OnOk, OnErr, MatchOption};
ghost use Rattle.zk_base.specs.declared.network.Side.{Side as SideData};
ghost use Rattle.zk_base.specs.declared.network.Side.TheVariants.{Orig, Resp};
ghost use Rattle.zk_http.specs.declared.units.«Unit».{«Unit» as MessageUnit};
ghost use Rattle.zk_http.specs.BodyBytes.{body_bytes};
ghost use Rattle.zk_http.specs.Cases.{Held, case_of};
ghost use Rattle.zk_http.specs.HalfTurns.{GivesHead};
ghost use Rattle.zk_http.specs.HalfStanding.{between_case};
ghost use Rattle.zk_http.specs.Pairing.{between_answered, between_behind};
ghost use Rattle.zk_base.specs.Sides.{other};
ghost use Rattle.zk_http.specs.Places.{Both, Stream, of_side};
ghost use Rattle.zk_http.specs.Units.{add, next, no_units};

use crate::body::{
    Asked, Body, asked_by, holds_back, is_interim, makes_tunnel, request_body, response_body,
};
use crate::half::{Between, Half};
use crate::{Head, Step, UnitKind};
use std::alloc::Global;
use std::collections::VecDeque;
use zk_base::{Mem, Nowhere, Side};

/// The reader of both streams of a connection. It keeps how far each side was read, and of each request
/// that waits for its response how it bears on it; never a byte of the streams.
///
/// Each side's bytes and gaps are given in order, from what was used so far on, and each call tells at
/// most one unit. A side that waits for the other uses nothing. Behind a violation or a tunnel all is
/// used and nothing more is told.
#[derive(Debug, Drop)]
pub struct Http {
    alloc: Global,
    requests: Half,
    responses: Half,
    /// How each request that waits for its response bears on it, the oldest first.
    asked: VecDeque<Asked>,
    /// What comes behind the last request.
    between: Between,
}

/// What comes behind a request.
fn behind_request(head: &Head) -> Between
    ensures { result ≡ between_behind head.now }
{
    if holds_back(head) {
        Between::Waiting
    } else {
        Between::Free
    }
}

/// What comes behind the last request, once it is answered.
fn behind_answer(between: Between, asked: Asked, head: &Head) -> Between
    ensures { result ≡ between_answered between asked head.now }
{
    match between {
        Between::Free => Between::Free,
        Between::Waiting => {
            if makes_tunnel(asked, head) {
                Between::Tunnelled
            } else {
                Between::Free
            }
        }
        Between::Tunnelled => Between::Tunnelled,
    }
}

impl Http {
    ghost use Rattle.zk_http.specs.Standing.{StandsFor, used_of, seen_of, is_told, IsLent, IsAll, HasGap, HasRead, Takes, IsSame, between_responses};
    ghost use Rattle.zk_http.specs.Pairing.{Answers, KeepsPairs, TakesRequest, TakesResponse};

    /// A reader of two streams of which nothing has come. No memory is taken.
    #[tactic(auto, unfolding(crate::specs::Standing::used_of, crate::specs::Standing::seen_of, crate::specs::Standing::is_told))]
    pub fn new(alloc: Global) -> Http
        ensures stands { (streams : Both Stream) → StandsFor result streams no_units }
        ensures used { (side : SideData) → (used_of side result ≡ 0) × (seen_of side result ≡ 0) × (is_told side result ≡ false) }
    {
        Http {
            alloc,
            requests: Half::new(),
            responses: Half::new(),
            asked: VecDeque::new(alloc),
            between: Between::Free,
        }
    }

    /// Reads the bytes of the requests from what was used so far on, up to a gap or the front: the next
    /// unit of the requests, if they free one. Where there is none at most 65,536 bytes stay unused, and
    /// they are given again, with those that have come. `Mem` leaves the reader as it was.
    #[tactic(auto, unfolding(crate::specs::Standing::used_of, crate::specs::Standing::seen_of, crate::specs::Standing::is_told))]
    pub fn request_bytes(&mut self, bytes: &[u8]) -> Result<Step, Mem>
        requires seen { seen_of Orig self.old ≤ length bytes.now }
        requires places { used_of Orig self.old + length bytes.now ≤ 2147483648 }
        // The unit that is told is the next one of the requests. There is none exactly where the streams so far free none.
        ensures unit { IfOk result (λ step. (streams : Both Stream) (units : Both (List MessageUnit)) → StandsFor self.old streams units
            → IsLent self.old Orig streams.orig bytes.now
            → MatchOption step.unit (IsAll self.old Orig streams.orig bytes.now → next Orig streams units ≡ None) (λ unit. next Orig streams units ≡ Some unit)) }
        ensures stands { IfOk result (λ step. (streams : Both Stream) (units : Both (List MessageUnit)) → StandsFor self.old streams units
            → IsLent self.old Orig streams.orig bytes.now → StandsFor self.new streams (add Orig step.unit units)) }
        ensures used { IfOk result (λ step. Takes Orig self.old self.new step.used (length bytes.now)) }
        ensures place { IfOk result (λ step. IfSome step.unit (λ unit. unit.place ≡ used_of Orig self.new)) }
        // Where there is no unit, few bytes stay unused, and the reader has looked at them or waits for the responses.
        ensures unused { IfOk result (λ step. IfNone step.unit ((length bytes.now - step.used ≤ 65536) × HasRead Orig self.new (length bytes.now - step.used))) }
        ensures memory { OnErr result (IsSame self.old self.new) }
    {
        self.request_bytes_to(bytes, &mut Nowhere)
    }

    /// Reads the bytes of the requests as `request_bytes` does, and gives the body of their message its bytes
    /// among those that are used (RFC 9112, sections 6.3 and 7.1): of chunks their data alone. `Mem` leaves
    /// the reader and the body as they were.
    #[tactic(auto, unfolding(crate::specs::Standing::used_of, crate::specs::Standing::seen_of, crate::specs::Standing::is_told))]
    pub fn request_bytes_to<B: zk_base::Body>(
        &mut self,
        bytes: &[u8],
        body: &mut B,
    ) -> Result<Step, Mem>
        requires seen { seen_of Orig self.old ≤ length bytes.now }
        requires places { used_of Orig self.old + length bytes.now ≤ 2147483648 }
        // The unit that is told is the next one of the requests. There is none exactly where the streams so far free none.
        ensures unit { IfOk result (λ step. (streams : Both Stream) (units : Both (List MessageUnit)) → StandsFor self.old streams units
            → IsLent self.old Orig streams.orig bytes.now
            → MatchOption step.unit (IsAll self.old Orig streams.orig bytes.now → next Orig streams units ≡ None) (λ unit. next Orig streams units ≡ Some unit)) }
        ensures stands { IfOk result (λ step. (streams : Both Stream) (units : Both (List MessageUnit)) → StandsFor self.old streams units
            → IsLent self.old Orig streams.orig bytes.now → StandsFor self.new streams (add Orig step.unit units)) }
        ensures used { IfOk result (λ step. Takes Orig self.old self.new step.used (length bytes.now)) }
        ensures place { IfOk result (λ step. IfSome step.unit (λ unit. unit.place ≡ used_of Orig self.new)) }
        // Where there is no unit, few bytes stay unused, and the reader has looked at them or waits for the responses.
        ensures unused { IfOk result (λ step. IfNone step.unit ((length bytes.now - step.used ≤ 65536) × HasRead Orig self.new (length bytes.now - step.used))) }
        ensures memory { OnErr result (IsSame self.old self.new) }
        // The body that held what it was before, and the bytes of the message's body in all that was used, holds those in all that is used now.
        ensures body { IfOk result (λ step. (streams : Both Stream) (units : Both (List MessageUnit)) → StandsFor self.old streams units
            → IsLent self.old Orig streams.orig bytes.now
            → (before : List ℕ) → B.stands_for body.old (before ++ body_bytes (used_of Orig self.old) Orig streams units)
            → B.stands_for body.new (before ++ body_bytes (used_of Orig self.new) Orig streams units)) }
        ensures rest { B.rest body.new ≡ B.rest body.old }
        ensures nothing { OnErr result (body.new ≡ body.old) }
    {
        let (half, step) = self
            .requests
            .bytes(self.alloc, Side::Orig, self.between, bytes, body)?;
        self.take_request(half, step)
    }

    /// Reads the bytes of the responses from what was used so far on, up to a gap or the front: the next
    /// unit of the responses, if both streams free one. Where there is none at most 65,536 bytes stay
    /// unused, and they are given again, with those that have come. `Mem` leaves the reader as it was.
    #[tactic(auto, unfolding(crate::specs::Standing::used_of, crate::specs::Standing::seen_of, crate::specs::Standing::is_told))]
    pub fn response_bytes(&mut self, bytes: &[u8]) -> Result<Step, Mem>
        requires seen { seen_of Resp self.old ≤ length bytes.now }
        requires places { used_of Resp self.old + length bytes.now ≤ 2147483648 }
        // The unit that is told is the next one of the responses. There is none exactly where the streams so far free none.
        ensures unit { IfOk result (λ step. (streams : Both Stream) (units : Both (List MessageUnit)) → StandsFor self.old streams units
            → IsLent self.old Resp streams.resp bytes.now
            → MatchOption step.unit (IsAll self.old Resp streams.resp bytes.now → next Resp streams units ≡ None) (λ unit. next Resp streams units ≡ Some unit)) }
        ensures stands { IfOk result (λ step. (streams : Both Stream) (units : Both (List MessageUnit)) → StandsFor self.old streams units
            → IsLent self.old Resp streams.resp bytes.now → StandsFor self.new streams (add Resp step.unit units)) }
        ensures used { IfOk result (λ step. Takes Resp self.old self.new step.used (length bytes.now)) }
        ensures place { IfOk result (λ step. IfSome step.unit (λ unit. unit.place ≡ used_of Resp self.new)) }
        // Where there is no unit, few bytes stay unused, and the reader has looked at them or waits for the requests.
        ensures unused { IfOk result (λ step. IfNone step.unit ((length bytes.now - step.used ≤ 65536) × HasRead Resp self.new (length bytes.now - step.used))) }
        ensures memory { OnErr result (IsSame self.old self.new) }
    {
        self.response_bytes_to(bytes, &mut Nowhere)
    }

    /// Reads the bytes of the responses as `response_bytes` does, and gives the body of their message its bytes
    /// among those that are used (RFC 9112, sections 6.3 and 7.1): of chunks their data alone. `Mem` leaves
    /// the reader and the body as they were.
    #[tactic(auto, unfolding(crate::specs::Standing::used_of, crate::specs::Standing::seen_of, crate::specs::Standing::is_told))]
    pub fn response_bytes_to<B: zk_base::Body>(
        &mut self,
        bytes: &[u8],
        body: &mut B,
    ) -> Result<Step, Mem>
        requires seen { seen_of Resp self.old ≤ length bytes.now }
        requires places { used_of Resp self.old + length bytes.now ≤ 2147483648 }
        // The unit that is told is the next one of the responses. There is none exactly where the streams so far free none.
        ensures unit { IfOk result (λ step. (streams : Both Stream) (units : Both (List MessageUnit)) → StandsFor self.old streams units
            → IsLent self.old Resp streams.resp bytes.now
            → MatchOption step.unit (IsAll self.old Resp streams.resp bytes.now → next Resp streams units ≡ None) (λ unit. next Resp streams units ≡ Some unit)) }
        ensures stands { IfOk result (λ step. (streams : Both Stream) (units : Both (List MessageUnit)) → StandsFor self.old streams units
            → IsLent self.old Resp streams.resp bytes.now → StandsFor self.new streams (add Resp step.unit units)) }
        ensures used { IfOk result (λ step. Takes Resp self.old self.new step.used (length bytes.now)) }
        ensures place { IfOk result (λ step. IfSome step.unit (λ unit. unit.place ≡ used_of Resp self.new)) }
        // Where there is no unit, few bytes stay unused, and the reader has looked at them or waits for the requests.
        ensures unused { IfOk result (λ step. IfNone step.unit ((length bytes.now - step.used ≤ 65536) × HasRead Resp self.new (length bytes.now - step.used))) }
        ensures memory { OnErr result (IsSame self.old self.new) }
        // The body that held what it was before, and the bytes of the message's body in all that was used, holds those in all that is used now.
        ensures body { IfOk result (λ step. (streams : Both Stream) (units : Both (List MessageUnit)) → StandsFor self.old streams units
            → IsLent self.old Resp streams.resp bytes.now
            → (before : List ℕ) → B.stands_for body.old (before ++ body_bytes (used_of Resp self.old) Resp streams units)
            → B.stands_for body.new (before ++ body_bytes (used_of Resp self.new) Resp streams units)) }
        ensures rest { B.rest body.new ≡ B.rest body.old }
        ensures nothing { OnErr result (body.new ≡ body.old) }
    {
        let between = self.between_responses();
        let (half, step) = self
            .responses
            .bytes(self.alloc, Side::Resp, between, bytes, body)?;
        Ok(self.take_response(half, step))
    }

    /// Reads a gap of the requests, behind the bytes that `request_bytes` gave no unit of and did not use;
    /// so many places stand behind the gap, up to the front. Bytes and places of the gap are used. No
    /// memory is taken.
    #[tactic(auto, unfolding(crate::specs::Standing::used_of, crate::specs::Standing::seen_of, crate::specs::Standing::is_told, crate::specs::Standing::is_waiting, crate::specs::Standing::HasRead))]
    pub fn request_gap(&mut self, unused: usize, places: u64, after: u64) -> Step
        requires read { HasRead Orig self.old unused }
        requires some { 0 < places }
        requires places { used_of Orig self.old + unused + places + after ≤ 2147483648 }
        // The unit that is told is the next one of the requests. Where there is none, nothing is used exactly where the requests wait
        // for the responses; then the streams so far free none.
        ensures unit { (streams : Both Stream) (units : Both (List MessageUnit)) → StandsFor self.old streams units
            → HasGap self.old Orig streams.orig unused places after
            → MatchOption result.unit (((result.used ≡ 0) ↔ (case_of Orig units ≡ Held)) × (result.used ≡ 0 → next Orig streams units ≡ None))
            (λ unit. next Orig streams units ≡ Some unit) }
        ensures stands { (streams : Both Stream) (units : Both (List MessageUnit)) → StandsFor self.old streams units
            → HasGap self.old Orig streams.orig unused places after → StandsFor self.new streams (add Orig result.unit units) }
        ensures used { Takes Orig self.old self.new result.used (unused + places) }
        ensures place { IfSome result.unit (λ unit. result.used ≡ min (unit.place - used_of Orig self.old) (unused + places)) }
        ensures seen { seen_of Orig self.new ≡ 0 }
        // No byte of a body stands among what is used.
        ensures body { (streams : Both Stream) (units : Both (List MessageUnit)) → StandsFor self.old streams units
            → HasGap self.old Orig streams.orig unused places after
            → body_bytes (used_of Orig self.new) Orig streams units ≡ body_bytes (used_of Orig self.old) Orig streams units }
    {
        let (half, step) = self.requests.gap(self.between, unused, places, after);
        self.requests = half;
        step
    }

    /// Reads a gap of the responses, behind the bytes that `response_bytes` gave no unit of and did not
    /// use; so many places stand behind the gap, up to the front. Bytes and places of the gap are used. No
    /// memory is taken.
    #[tactic(auto, unfolding(crate::specs::Standing::used_of, crate::specs::Standing::seen_of, crate::specs::Standing::is_told, crate::specs::Standing::is_waiting, crate::specs::Standing::HasRead))]
    pub fn response_gap(&mut self, unused: usize, places: u64, after: u64) -> Step
        requires read { HasRead Resp self.old unused }
        requires some { 0 < places }
        requires places { used_of Resp self.old + unused + places + after ≤ 2147483648 }
        // The unit that is told is the next one of the responses. Where there is none, nothing is used exactly where the responses wait
        // for the requests; then the streams so far free none.
        ensures unit { (streams : Both Stream) (units : Both (List MessageUnit)) → StandsFor self.old streams units
            → HasGap self.old Resp streams.resp unused places after
            → MatchOption result.unit (((result.used ≡ 0) ↔ (case_of Resp units ≡ Held)) × (result.used ≡ 0 → next Resp streams units ≡ None))
            (λ unit. next Resp streams units ≡ Some unit) }
        ensures stands { (streams : Both Stream) (units : Both (List MessageUnit)) → StandsFor self.old streams units
            → HasGap self.old Resp streams.resp unused places after → StandsFor self.new streams (add Resp result.unit units) }
        ensures used { Takes Resp self.old self.new result.used (unused + places) }
        ensures place { IfSome result.unit (λ unit. result.used ≡ min (unit.place - used_of Resp self.old) (unused + places)) }
        ensures seen { seen_of Resp self.new ≡ 0 }
        // No byte of a body stands among what is used.
        ensures body { (streams : Both Stream) (units : Both (List MessageUnit)) → StandsFor self.old streams units
            → HasGap self.old Resp streams.resp unused places after
            → body_bytes (used_of Resp self.new) Resp streams units ≡ body_bytes (used_of Resp self.old) Resp streams units }
    {
        let between = self.between_responses();
        let (half, step) = self.responses.gap(between, unused, places, after);
        self.responses = half;
        step
    }

    /// Tells that a side has ended: the bytes that are given next are its last ones. No memory is taken.
    #[tactic(auto, unfolding(crate::specs::Standing::used_of, crate::specs::Standing::seen_of, crate::specs::Standing::is_told))]
    pub fn ended(&mut self, side: Side)
        ensures stands { (streams : Both Stream) (units : Both (List MessageUnit)) → StandsFor self.old streams units
            → (of_side side streams).ended ≡ true → StandsFor self.new streams units }
        ensures told { is_told side self.new ≡ true }
        ensures other { is_told (other side) self.new ≡ is_told (other side) self.old }
        ensures used { (side : SideData) → (used_of side self.new ≡ used_of side self.old) × (seen_of side self.new ≡ seen_of side self.old) }
    {
        match side {
            Side::Orig => self.requests.ended = true,
            Side::Resp => self.responses.ended = true,
        }
    }

    /// What comes behind a response.
    fn between_responses(&self) -> Between
        ensures { result ≡ between_responses self.now.asked.items }
    {
        if self.asked.is_empty() {
            Between::Waiting
        } else {
            Between::Free
        }
    }

    /// Goes on behind what a step of the requests has told.
    fn take_request(&mut self, half: Half, step: Step) -> Result<Step, Mem>
        ensures step { IfOk result (λ given. given ≡ step) }
        ensures takes { OnOk result (TakesRequest self.old self.new half step.unit) }
        ensures rest { OnOk result (self.new.responses ≡ self.old.responses) }
        ensures memory { OnErr result ((self.new.requests ≡ self.old.requests) × (self.new.responses ≡ self.old.responses) × KeepsPairs self.old self.new) }
        ensures head { OnErr result (GivesHead step.unit) }
    {
        if let Some(unit) = &step.unit {
            if let UnitKind::Head(head) = &unit.what {
                self.asked.push_back(asked_by(&head.start))?;
                self.between = behind_request(head);
                self.requests = half.behind_head(request_body(head));
                return Ok(step);
            }
        }
        self.requests = half;
        Ok(step)
    }

    /// Goes on behind what a step of the responses has told.
    fn take_response(&mut self, half: Half, step: Step) -> Step
        ensures step { result ≡ step }
        ensures takes { TakesResponse self.old self.new half step.unit }
        ensures rest { self.new.requests ≡ self.old.requests }
    {
        if let Some(unit) = &step.unit {
            if let UnitKind::Head(head) = &unit.what {
                let body = self.answer(head);
                self.responses = half.behind_head(body);
                return step;
            }
        }
        self.responses = half;
        step
    }

    /// Takes the head of a response. What follows it.
    fn answer(&mut self, head: &Head) -> Body
        ensures answers { Answers self.old self.new head.now result }
        ensures rest { (self.new.requests ≡ self.old.requests) × (self.new.responses ≡ self.old.responses) }
    {
        if is_interim(head) {
            return Body::Empty;
        }
        let asked = self.asked.pop_front().unwrap_or(Asked::Other);
        if self.asked.is_empty() {
            self.between = behind_answer(self.between, asked, head);
            return response_body(asked, head);
        }
        response_body(asked, head)
    }
}
