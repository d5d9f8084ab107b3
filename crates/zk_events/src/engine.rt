ghost use Rattle.std.specs.Prelude.{◌≡◌, ◌+◌, ℕ, List, [], ◌∷◌, ◌++◌, false, IfOk, OnOk, OnErr, IfSome, IfNone, IsErr, IsNone};
ghost use Rattle.zk_events.specs.Flowing.{Flows, FlowsTo};
ghost use Rattle.zk_events.specs.Holding.{known_in};
ghost use Rattle.zk_events.specs.Known.{none_known};
ghost use Rattle.zk_events.specs.Run.{SoFar, New, Begun, Ended, progress_at, so_far_at, taken};
ghost use Rattle.zk_events.specs.Turns.{known_after, turn_of};
ghost use Rattle.zk_lower.specs.Lowering.{lowered};
ghost use Rattle.zk_lower.specs.Told.{Told};
ghost use Rattle.zk_lower.specs.View as lower;
ghost use Rattle.zk_events.specs.Sealed as sealed;
ghost use Rattle.zk_machine.specs.Standing.{nothing};
ghost use Rattle.zk_traffic.specs.declared.item.Item.{Item as ItemData};
ghost use Rattle.zk_typed.specs.Program.{Program};
ghost use Rattle.zk_typed.specs.Predefined.{zeek_done};
ghost use Rattle.zk_typed.specs.Running.{drained, finish, with_item};
ghost use Rattle.zk_typed.specs.State.{World, queued_behind, with_time};
ghost use Rattle.zk_typed.specs.World.{queued};

use crate::connections::Connections;
use crate::dispatcher::{Dispatcher, Flow, Until, dispatches_max};
use crate::sealed::SealedMachine;
use crate::turns::raise;
use std::alloc::Global;
use zk_base::{Mem, Moment};
use zk_lower::Code;
use zk_traffic::Item;
use zk_typed::{ZEEK_DONE, ZEEK_INIT};
use zk_value::Out;

/// How an item ended, or the beginning or the end of a run.
#[derive(Clone, Copy, Debug, PartialEq, Eq)]
pub enum ItemEnd {
    /// No event waits any more.
    Done,
    /// More dispatches would come than may, and the run has ended at this network time.
    Flood { moment: Moment },
}

/// A run of a program over the items of a capture: what is due before an item, the item's events, and those
/// that these queue (Zeek manual, Events; schedule; Attributes, &create_expire and its kin).
///
/// `start` comes first and once, then `item` for each item, and then `finish` once; of other orders nothing
/// is said. After a flood each call answers that flood again, and after `Mem` the run has failed: each call
/// answers `Mem`, and `out` gives nothing.
#[derive(Debug, Drop)]
pub struct Engine {
    alloc: Global,
    dispatcher: Dispatcher,
    connections: Connections,
    flood: Option<Moment>,
    failed: bool,
}

impl Engine {
    ghost use Rattle.zk_events.specs.Standing.{Comes, GivesOut, HasFailed, HasGivenAll, IsAt, StandsFor, end_of, waiting};

    /// A run of this code before its beginning. Each body has so many units.
    pub fn new(alloc: Global, code: Code, budget: u64) -> Result<Engine, Mem>
        ensures { IfOk result (λ engine. (program : Program) → lower.code_of code ≡ lowered program → StandsFor engine program budget New nothing) }
    {
        let machine = SealedMachine::new(alloc, code)?;
        let left = dispatches_max();
        let connections = Connections::new(alloc);
        Ok(Engine {
            alloc,
            dispatcher: Dispatcher {
                machine,
                budget,
                left,
            },
            connections,
            flood: None,
            failed: false,
        })
    }

    /// Begins the run: initial values are computed at network time 0, and then `zeek_init` is dispatched behind
    /// the events that they queued.
    pub fn start(&mut self) -> Result<ItemEnd, Mem>
        ensures end { IfOk result (λ end. (program : Program) (budget : ℕ) (given : Told) → StandsFor self.old program budget New given
            → end ≡ end_of (progress_at program budget (Begun []))) }
        ensures stands { OnOk result ((program : Program) (budget : ℕ) (given : Told) → StandsFor self.old program budget New given
            → StandsFor self.new program budget (Begun []) given) }
        ensures fails { OnErr result (HasFailed self.new) }
        ensures failed { HasFailed self.old → IsErr result }
    {
        if self.failed {
            return Err(Mem);
        }
        if let Some(moment) = self.flood {
            return Ok(ItemEnd::Flood { moment });
        }
        self.failed = true;
        let flow = self.begin()?;
        Ok(self.end(flow))
    }

    /// Takes the next item: first the turns come that are due by its moment, each at its own network time; then
    /// network time is the item's moment, the facts of its connection are renewed, its events are queued, and
    /// the queue is drained.
    pub fn item(&mut self, item: &Item) -> Result<ItemEnd, Mem>
        ensures end { IfOk result (λ end. (program : Program) (budget : ℕ) (items : List ItemData) (given : Told) → StandsFor self.old program budget (Begun items) given
            → end ≡ end_of (progress_at program budget (Begun (items ++ item.now ∷ [])))) }
        ensures stands { OnOk result ((program : Program) (budget : ℕ) (items : List ItemData) (given : Told) → StandsFor self.old program budget (Begun items) given
            → StandsFor self.new program budget (Begun (items ++ item.now ∷ [])) given) }
        ensures fails { OnErr result (HasFailed self.new) }
        ensures failed { HasFailed self.old → IsErr result }
    {
        if self.failed {
            return Err(Mem);
        }
        if let Some(moment) = self.flood {
            return Ok(ItemEnd::Flood { moment });
        }
        self.failed = true;
        let flow = self.take(item)?;
        Ok(self.end(flow))
    }

    /// Ends the run at the last network time: what was scheduled is dispatched, and then `zeek_done`. What these
    /// schedule is dropped, and no entry expires.
    pub fn finish(&mut self, last: Moment) -> Result<ItemEnd, Mem>
        ensures end { IfOk result (λ end. (program : Program) (budget : ℕ) (items : List ItemData) (given : Told) → StandsFor self.old program budget (Begun items) given
            → end ≡ end_of (progress_at program budget (Ended items last))) }
        ensures stands { OnOk result ((program : Program) (budget : ℕ) (items : List ItemData) (given : Told) → StandsFor self.old program budget (Begun items) given
            → StandsFor self.new program budget (Ended items last) given) }
        ensures fails { OnErr result (HasFailed self.new) }
        ensures failed { HasFailed self.old → IsErr result }
    {
        if self.failed {
            return Err(Mem);
        }
        if let Some(moment) = self.flood {
            return Ok(ItemEnd::Flood { moment });
        }
        self.failed = true;
        let flow = self.wind_up(last)?;
        Ok(self.end(flow))
    }

    /// The next printed line or row that was not yet given, or none where all were or the run has failed. Lines
    /// come in the order in which they were printed, and rows in the order in which they were written.
    pub fn out(&mut self) -> Option<Out>
        ensures some { IfSome result (GivesOut self.old self.new) }
        ensures none { IfNone result (HasGivenAll self.old self.new) }
        ensures fewer { IfSome result (λ out. waiting self.new + 1 ≡ waiting self.old) }
        ensures failed { HasFailed self.old → IsNone result × HasFailed self.new }
    {
        self.next_out()
    }

    /// The next line or row, unless the run has failed.
    fn next_out(&mut self) -> Option<Out>
        ensures some { IfSome result (GivesOut self.old self.new) }
        ensures none { IfNone result (HasGivenAll self.old self.new) }
        ensures fewer { IfSome result (λ out. waiting self.new + 1 ≡ waiting self.old) }
        ensures failed { HasFailed self.old → IsNone result × HasFailed self.new }
    {
        if self.failed {
            return None;
        }
        self.dispatcher.machine.next_out()
    }

    /// What a part of the run ends with; a flood is kept.
    fn end(&mut self, flow: Flow) -> ItemEnd
        ensures end { (program : Program) (given : Told) (so_far : SoFar) → Comes flow self.old program given so_far → result ≡ end_of so_far.progress }
        ensures is_at { (program : Program) (given : Told) (so_far : SoFar) → Comes flow self.old program given so_far → IsAt self.new.flood self.new program given so_far }
        ensures budget { self.new.dispatcher.budget ≡ self.old.dispatcher.budget }
        ensures works { self.new.failed ≡ false }
    {
        self.failed = false;
        match flow {
            Flow::Goes => {
                self.flood = None;
                ItemEnd::Done
            }
            Flow::Floods => {
                let moment = self.dispatcher.machine.time();
                self.flood = Some(moment);
                ItemEnd::Flood { moment }
            }
        }
    }

    /// The beginning of the run.
    fn begin(&mut self) -> Result<Flow, Mem>
        ensures comes { IfOk result (λ flow. (program : Program) (given : Told) → Flows self.old.dispatcher program given (progress_at program self.old.dispatcher.budget New)
            → known_in self.old.connections ≡ none_known → Comes flow self.new program given (so_far_at program self.old.dispatcher.budget (Begun []))) }
        ensures budget { self.new.dispatcher.budget ≡ self.old.dispatcher.budget }
        ensures failed { self.new.failed ≡ self.old.failed }
    {
        self.dispatcher.initialise()?;
        self.dispatcher.queue(self.alloc, ZEEK_INIT)?;
        self.dispatcher.drain()
    }

    /// The turns that are due by an item, and then the item.
    fn take(&mut self, item: &Item) -> Result<Flow, Mem>
        ensures comes { IfOk result (λ flow. (program : Program) (given : Told) (so_far : SoFar) → Flows self.old.dispatcher program given so_far.progress
            → known_in self.old.connections ≡ so_far.known → Comes flow self.new program given (taken program self.old.dispatcher.budget so_far item.now)) }
        ensures budget { self.new.dispatcher.budget ≡ self.old.dispatcher.budget }
        ensures failed { self.new.failed ≡ self.old.failed }
    {
        self.dispatcher.left = dispatches_max();
        let flow = self.dispatcher.take_turns(Until::Item(item.moment))?;
        match flow {
            Flow::Goes => self.take_item(item),
            Flow::Floods => Ok(Flow::Floods),
        }
    }

    /// An item, where no turn is due by it any more.
    fn take_item(&mut self, item: &Item) -> Result<Flow, Mem>
        ensures comes { IfOk result (λ flow. (program : Program) (given : Told) (world : World) → sealed.StandsFor self.old.dispatcher.machine program given world
            → FlowsTo flow self.new.dispatcher program given (with_item program self.old.dispatcher.budget (turn_of program (known_in self.old.connections) item.now) world self.old.dispatcher.left)
            × (known_in self.new.connections ≡ known_after program (known_in self.old.connections) item.now.what (with_time item.now.moment world))) }
        ensures budget { self.new.dispatcher.budget ≡ self.old.dispatcher.budget }
        ensures failed { self.new.failed ≡ self.old.failed }
    {
        self.dispatcher.machine.set_time(item.moment);
        raise(
            self.alloc,
            &mut self.dispatcher.machine,
            &mut self.connections,
            &item.what,
        )?;
        self.dispatcher.drain()
    }

    /// The end of the run, at the last network time.
    fn wind_up(&mut self, last: Moment) -> Result<Flow, Mem>
        ensures flows { IfOk result (λ flow. (program : Program) (given : Told) (world : World) → sealed.StandsFor self.old.dispatcher.machine program given world
            → FlowsTo flow self.new.dispatcher program given (finish program self.old.dispatcher.budget last world self.old.dispatcher.left)) }
        ensures budget { self.new.dispatcher.budget ≡ self.old.dispatcher.budget }
        ensures failed { self.new.failed ≡ self.old.failed }
        ensures connections { self.new.connections ≡ self.old.connections }
    {
        self.dispatcher.machine.set_time(last);
        self.dispatcher.machine.wind_up();
        let flow = self.dispatcher.take_turns(Until::End(last))?;
        match flow {
            Flow::Goes => self.take_done(),
            Flow::Floods => Ok(Flow::Floods),
        }
    }

    /// The last event of the run.
    fn take_done(&mut self) -> Result<Flow, Mem>
        ensures flows { IfOk result (λ flow. (program : Program) (given : Told) (world : World) → sealed.StandsFor self.old.dispatcher.machine program given world
            → FlowsTo flow self.new.dispatcher program given (drained program self.old.dispatcher.budget self.old.dispatcher.left (queued_behind (queued zeek_done [] ∷ []) world))) }
        ensures budget { self.new.dispatcher.budget ≡ self.old.dispatcher.budget }
        ensures failed { self.new.failed ≡ self.old.failed }
        ensures connections { self.new.connections ≡ self.old.connections }
    {
        self.dispatcher.queue(self.alloc, ZEEK_DONE)?;
        self.dispatcher.drain()
    }
}
