ghost use Rattle.std.specs.Prelude.{◌≡◌, ℕ, ◌+◌, ◌-◌, ◌<◌, ◌≤◌, false, List, ◌++◌, length, drop, min, None, Some, IfOk, IfNone, IfSome, OnErr};
ghost use Rattle.zk_base.specs.declared.network.Side.{Side as SideData};
ghost use Rattle.zk_http.specs.Cases.{Case, Held};
ghost use Rattle.zk_http.specs.Search.{Knows};
ghost use Rattle.zk_http.specs.Found.{EndsNowhere};
ghost use Rattle.zk_http.specs.Heads.{head_limit};
ghost use Rattle.zk_http.specs.Places.{Stream};
ghost use Rattle.zk_http.specs.Reading.{body_at, bound_at, gap_at, seen_at};
ghost use Rattle.zk_http.specs.Starts.{state_behind};
ghost use Rattle.zk_http.specs.Turns.{IsNoHead};
ghost use Rattle.zk_http.specs.declared.units.«Unit».{«Unit» as MessageUnit};

use crate::body::Body;
use crate::head::{Told, read_head};
use crate::search::{Ending, Search};
use crate::state::{Part, Reading, State};
use crate::turn::{Turn, read_gap, read_on};
use crate::{Reason, Step, Unit, UnitKind};
use std::alloc::Global;
use zk_base::{Mem, Side};

/// So many places may wait for the other side.
pub const WAITING_MAX: u64 = 65_536;

/// What comes behind a message of a side.
#[derive(Clone, Copy, Debug, PartialEq, Eq)]
pub enum Between {
    /// Another message.
    Free,
    /// What the other side has to show first.
    Waiting,
    /// No message: a tunnel holds what follows.
    Tunnelled,
}

/// One side: how much of its stream was used, and what it reads.
#[derive(Clone, Copy, Debug)]
pub struct Half {
    /// How many places were used.
    pub used: u64,
    /// The side was told to have ended.
    pub ended: bool,
    pub state: State,
    ghost few_places: { body_at state ≤ used },
    ghost few_gaps: { gap_at state ≤ used },
    ghost few_seen: { seen_at state < bound_at state },
}

impl Half {
    ghost use Rattle.zk_http.specs.HalfStanding.{HalfStands, IsAtHead, between_case, waits_if, waits_in};
    ghost use Rattle.zk_http.specs.HalfTurns.{GivesHead, HalfTakes, HasGapIn, IsBetween, IsLentTo, Leaves, Moves, MovesOver, MovesWaiting, StartsBody, bytes_in_first};
    ghost use Rattle.zk_http.specs.Reading.{Inside, phase_of, searched};

    /// Nothing was used.
    pub fn new() -> Half
        ensures { (result.used ≡ 0) × (result.ended ≡ false) × (result.state ≡ State.Between) }
    {
        Half {
            used: 0,
            ended: false,
            state: State::Between,
        }
    }

    /// The half behind so many places, where there is no unit.
    fn on(self, places: u64, state: State) -> (Half, Step)
        requires places { self.used + places ≤ 2147483648 }
        requires body { body_at state ≤ self.used + places }
        requires gap { gap_at state ≤ self.used + places }
        requires seen { seen_at state < bound_at state }
        ensures half { (result.0.used ≡ self.used + places) × (result.0.ended ≡ self.ended) × (result.0.state ≡ state) }
        ensures step { (result.1.used ≡ places) × (result.1.unit ≡ None) }
    {
        let half = Half {
            used: self.used + places,
            ended: self.ended,
            state,
        };
        let step = Step {
            used: places as usize,
            unit: None,
        };
        (half, step)
    }

    /// The half behind a unit that ends so many places on; of a head, whose lines have so many bytes.
    fn told(self, places: u64, header: u32, what: UnitKind) -> (Half, Step)
        requires { self.used + places ≤ 2147483648 }
        ensures half { (result.0.used ≡ self.used + places) × (result.0.ended ≡ self.ended) × (result.0.state ≡ state_behind header what) }
        ensures step { (result.1.used ≡ places) × (result.1.unit ≡ Some (record { place = self.used + places; what = what })) }
    {
        let state = State::behind(header, &what);
        let place = self.used + places;
        let half = Half {
            used: place,
            ended: self.ended,
            state,
        };
        let step = Step {
            used: places as usize,
            unit: Some(Unit { place, what }),
        };
        (half, step)
    }

    /// The half behind a head that this follows.
    pub fn behind_head(self, body: Body) -> Half
        ensures used { (result.used ≡ self.used) × (result.ended ≡ self.ended) }
        ensures seen { seen_at result.state ≤ seen_at self.state }
        ensures starts { StartsBody self body result }
    {
        match self.state {
            State::Body(reading) => Half {
                used: self.used,
                ended: self.ended,
                state: State::Body(reading.at(Part::behind(body))),
            },
            _ => self,
        }
    }

    /// Reads bytes, from what was used on; behind a message what comes there is given. The body is given
    /// its own of those that are used.
    pub fn bytes<B: zk_base::Body>(
        self,
        alloc: Global,
        side: Side,
        between: Between,
        bytes: &[u8],
        body: &mut B,
    ) -> Result<(Half, Step), Mem>
        requires seen { seen_at self.state ≤ length bytes.now }
        requires places { self.used + length bytes.now ≤ 2147483648 }
        ensures moves { IfOk result (λ moved. (stream : Stream) (case : Case) (units : List MessageUnit) → HalfStands side self stream case units
            → IsLentTo self stream bytes.now → IsBetween self case between → Moves side self moved.0 stream case units bytes.now moved.1.unit) }
        ensures takes { IfOk result (λ moved. HalfTakes self moved.0 moved.1.used (length bytes.now)) }
        ensures place { IfOk result (λ moved. IfSome moved.1.unit (λ unit. unit.place ≡ moved.0.used)) }
        ensures leaves { IfOk result (λ moved. IfNone moved.1.unit (Leaves moved.0 between (length bytes.now - moved.1.used))) }
        ensures given { IfOk result (λ moved. (stream : Stream) (case : Case) (units : List MessageUnit) → HalfStands side self stream case units
            → IsLentTo self stream bytes.now → IsBetween self case between
            → (before : List ℕ) → B.stands_for body.old (before ++ bytes_in_first self.used stream case units)
            → B.stands_for body.new (before ++ bytes_in_first moved.0.used stream case units)) }
        ensures heads { IfOk result (λ moved. GivesHead moved.1.unit → body.new ≡ body.old) }
        ensures nothing { OnErr result (body.new ≡ body.old) }
        ensures rest { B.rest body.new ≡ B.rest body.old }
    {
        match self.state {
            State::Between => self.begin(alloc, side, between, bytes),
            State::Head(search) => self.head(alloc, side, search, bytes),
            State::Body(reading) => Ok(self.body(reading, bytes, body)),
            State::Over => Ok(self.on(bytes.len() as u64, State::Over)),
        }
    }

    /// Reads bytes behind a message.
    fn begin(
        self,
        alloc: Global,
        side: Side,
        between: Between,
        bytes: &[u8],
    ) -> Result<(Half, Step), Mem>
        requires places { self.used + length bytes.now ≤ 2147483648 }
        requires state { self.state ≡ State.Between }
        ensures moves { IfOk result (λ moved. (stream : Stream) (case : Case) (units : List MessageUnit) → HalfStands side self stream case units
            → IsLentTo self stream bytes.now → IsBetween self case between → Moves side self moved.0 stream case units bytes.now moved.1.unit) }
        ensures takes { IfOk result (λ moved. HalfTakes self moved.0 moved.1.used (length bytes.now)) }
        ensures place { IfOk result (λ moved. IfSome moved.1.unit (λ unit. unit.place ≡ moved.0.used)) }
        ensures leaves { IfOk result (λ moved. IfNone moved.1.unit (Leaves moved.0 between (length bytes.now - moved.1.used))) }
    {
        match between {
            Between::Free => self.head(alloc, side, Search::new(), bytes),
            Between::Waiting => {
                let count = bytes.len() as u64;
                Ok(self.waiting(count, count))
            }
            Between::Tunnelled => Ok(self.on(bytes.len() as u64, State::Over)),
        }
    }

    /// Waits for the other side, where so many places wait and so many of them were given.
    fn waiting(self, given: u64, places: u64) -> (Half, Step)
        requires state { self.state ≡ State.Between }
        requires given { given ≤ places }
        requires places { self.used + places ≤ 2147483648 }
        ensures moves { (side : SideData) (stream : Stream) (case : Case) (units : List MessageUnit) → HalfStands side self stream case units → case ≡ Held
            → self.used + places ≤ length stream.places → MovesWaiting side self result.0 stream case units places result.1.unit }
        ensures takes { HalfTakes self result.0 result.1.used given }
        ensures place { IfSome result.1.unit (λ unit. (unit.place ≡ self.used + 65537) × (65537 ≤ places) × (result.1.used ≡ min 65537 given)) }
        ensures kind { IfSome result.1.unit (λ unit. IsNoHead unit.what) }
        ensures none { IfNone result.1.unit ((result.1.used ≡ 0) × (places ≤ 65536) × (result.0.state ≡ State.Between)) }
        ensures seen { seen_at result.0.state ≡ 0 }
    {
        if places <= WAITING_MAX {
            return self.on(0, State::Between);
        }
        let used = given.min(WAITING_MAX + 1);
        let half = Half {
            used: self.used + used,
            ended: self.ended,
            state: State::Over,
        };
        let unit = Unit {
            place: self.used + (WAITING_MAX + 1),
            what: UnitKind::Violation(Reason::Unpaired),
        };
        let step = Step {
            used: used as usize,
            unit: Some(unit),
        };
        (half, step)
    }

    /// Reads a head, which was looked through so far.
    fn head(
        self,
        alloc: Global,
        side: Side,
        search: Search,
        bytes: &[u8],
    ) -> Result<(Half, Step), Mem>
        requires seen { search.seen ≤ length bytes.now }
        requires most { search.seen < head_limit }
        requires places { self.used + length bytes.now ≤ 2147483648 }
        ensures moves { IfOk result (λ moved. (stream : Stream) (case : Case) (units : List MessageUnit) → IsAtHead side self stream case units
            → Knows search Ending.Head (searched head_limit (drop self.used stream.places))
            → IsLentTo self stream bytes.now → Moves side self moved.0 stream case units bytes.now moved.1.unit) }
        ensures takes { IfOk result (λ moved. HalfTakes self moved.0 moved.1.used (length bytes.now)) }
        ensures place { IfOk result (λ moved. IfSome moved.1.unit (λ unit. unit.place ≡ moved.0.used)) }
        ensures leaves { IfOk result (λ moved. IfNone moved.1.unit ((length bytes.now - moved.1.used ≤ 65536)
            × (phase_of moved.0.state ≡ Inside) × (seen_at moved.0.state ≡ length bytes.now - moved.1.used))) }
    {
        match read_head(alloc, side, search, bytes)? {
            Told::Is { len, text, what } => Ok(self.told(len as u64, text as u32, what)),
            Told::Waits { search } => Ok(self.on(0, State::Head(search))),
        }
    }

    /// Reads what stands behind a head; the body is given its own of the bytes that are used.
    fn body<B: zk_base::Body>(self, reading: Reading, bytes: &[u8], body: &mut B) -> (Half, Step)
        requires seen { seen_at self.state ≤ length bytes.now }
        requires places { self.used + length bytes.now ≤ 2147483648 }
        requires state { self.state ≡ State.Body reading }
        ensures moves { (side : SideData) (stream : Stream) (case : Case) (units : List MessageUnit) → HalfStands side self stream case units
            → IsLentTo self stream bytes.now → Moves side self result.0 stream case units bytes.now result.1.unit }
        ensures takes { HalfTakes self result.0 result.1.used (length bytes.now) }
        ensures place { IfSome result.1.unit (λ unit. unit.place ≡ result.0.used) }
        ensures leaves { IfNone result.1.unit ((length bytes.now - result.1.used ≤ 65536)
            × (phase_of result.0.state ≡ Inside) × (seen_at result.0.state ≡ length bytes.now - result.1.used)) }
        ensures given { (side : SideData) (stream : Stream) (case : Case) (units : List MessageUnit) → HalfStands side self stream case units
            → IsLentTo self stream bytes.now
            → (before : List ℕ) → B.stands_for body.old (before ++ bytes_in_first self.used stream case units)
            → B.stands_for body.new (before ++ bytes_in_first result.0.used stream case units) }
        ensures kind { IfSome result.1.unit (λ unit. IsNoHead unit.what) }
        ensures rest { B.rest body.new ≡ B.rest body.old }
    {
        match read_on(reading, self.ended, bytes, body) {
            Turn::Tells { places, what } => self.told(places, 0, what),
            Turn::On { places, reading } => self.on(places, State::Body(reading)),
            Turn::Waits { places, reading } => self.on(places, State::Body(reading)),
        }
    }

    /// Reads a gap of so many places, behind so many bytes that were looked at and not used, and with so
    /// many places behind it; behind a message what comes there is given.
    pub fn gap(self, between: Between, unused: usize, places: u64, after: u64) -> (Half, Step)
        requires read { waits_in (phase_of self.state) between ≡ false → seen_at self.state ≡ unused }
        requires some { 0 < places }
        requires front { self.used + unused + places + after ≤ 2147483648 }
        ensures moves { (side : SideData) (stream : Stream) (case : Case) (units : List MessageUnit) → HalfStands side self stream case units
            → HasGapIn self stream unused places after → IsBetween self case between
            → MovesOver side result.0 stream case units result.1.used result.1.unit }
        ensures takes { HalfTakes self result.0 result.1.used (unused + places) }
        ensures place { IfSome result.1.unit (λ unit. result.1.used ≡ min (unit.place - self.used) (unused + places)) }
        ensures kind { IfSome result.1.unit (λ unit. IsNoHead unit.what) }
        ensures seen { seen_at result.0.state ≡ 0 }
        ensures none { (side : SideData) (stream : Stream) (case : Case) (units : List MessageUnit) → HalfStands side self stream case units
            → HasGapIn self stream unused places after → IsBetween self case between
            → bytes_in_first result.0.used stream case units ≡ bytes_in_first self.used stream case units }
    {
        match self.state {
            State::Between => self.begin_in_gap(between, unused as u64, places, after),
            State::Head(_) => self.head_in_gap(unused as u64, places),
            State::Body(reading) => self.body_in_gap(reading, unused as u64, places),
            State::Over => self.on(unused as u64 + places, State::Over),
        }
    }

    /// Reads a gap behind a message.
    fn begin_in_gap(self, between: Between, unused: u64, places: u64, after: u64) -> (Half, Step)
        requires state { self.state ≡ State.Between }
        requires read { waits_if between ≡ false → unused ≡ 0 }
        requires some { 0 < places }
        requires front { self.used + unused + places + after ≤ 2147483648 }
        ensures moves { (side : SideData) (stream : Stream) (case : Case) (units : List MessageUnit) → HalfStands side self stream case units
            → HasGapIn self stream unused places after → case ≡ between_case between
            → MovesOver side result.0 stream case units result.1.used result.1.unit }
        ensures takes { HalfTakes self result.0 result.1.used (unused + places) }
        ensures place { IfSome result.1.unit (λ unit. result.1.used ≡ min (unit.place - self.used) (unused + places)) }
        ensures kind { IfSome result.1.unit (λ unit. IsNoHead unit.what) }
        ensures seen { seen_at result.0.state ≡ 0 }
    {
        match between {
            Between::Free => self.head_in_gap(unused, places),
            Between::Waiting => self.waiting(unused + places, unused + places + after),
            Between::Tunnelled => self.on(unused + places, State::Over),
        }
    }

    /// Reads a gap in a head, behind so many bytes of it.
    fn head_in_gap(self, unused: u64, places: u64) -> (Half, Step)
        requires some { 0 < places }
        requires front { self.used + unused + places ≤ 2147483648 }
        ensures moves { (side : SideData) (stream : Stream) (case : Case) (units : List MessageUnit) (after : ℕ)
            → IsAtHead side self stream case units → EndsNowhere Ending.Head (searched head_limit (drop self.used stream.places)) → unused < head_limit
            → HasGapIn self stream unused places after
            → MovesOver side result.0 stream case units result.1.used result.1.unit }
        ensures takes { HalfTakes self result.0 result.1.used (unused + places) }
        ensures place { IfSome result.1.unit (λ unit. result.1.used ≡ min (unit.place - self.used) (unused + places)) }
        ensures kind { IfSome result.1.unit (λ unit. IsNoHead unit.what) }
        ensures seen { seen_at result.0.state ≡ 0 }
    {
        self.told(unused + 1, 0, UnitKind::Violation(Reason::Gap))
    }

    /// Reads a gap behind a head.
    fn body_in_gap(self, reading: Reading, unused: u64, places: u64) -> (Half, Step)
        requires state { self.state ≡ State.Body reading }
        requires read { seen_at self.state ≡ unused }
        requires some { 0 < places }
        requires front { self.used + unused + places ≤ 2147483648 }
        ensures moves { (side : SideData) (stream : Stream) (case : Case) (units : List MessageUnit) (after : ℕ) → HalfStands side self stream case units
            → HasGapIn self stream unused places after → MovesOver side result.0 stream case units result.1.used result.1.unit }
        ensures takes { HalfTakes self result.0 result.1.used (unused + places) }
        ensures place { IfSome result.1.unit (λ unit. result.1.used ≡ min (unit.place - self.used) (unused + places)) }
        ensures kind { IfSome result.1.unit (λ unit. IsNoHead unit.what) }
        ensures seen { seen_at result.0.state ≡ 0 }
        ensures none { (side : SideData) (stream : Stream) (case : Case) (units : List MessageUnit) (after : ℕ) → HalfStands side self stream case units
            → HasGapIn self stream unused places after
            → bytes_in_first result.0.used stream case units ≡ bytes_in_first self.used stream case units }
    {
        match read_gap(reading, unused, places) {
            Turn::Tells { places, what } => self.told(places, 0, what),
            Turn::On { places, reading } => self.on(places, State::Body(reading)),
            Turn::Waits { places, reading } => self.on(places, State::Body(reading)),
        }
    }
}
