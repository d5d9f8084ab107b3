ghost use Rattle.std.specs.Prelude.{◌≡◌, ◌≤◌, ◌<◌, ◌∷◌, [], ℕ, true, IfOk, OnOk, length};
ghost use Rattle.zk_events.specs.Becomes.{Becomes};
ghost use Rattle.zk_lower.specs.Told.{Told};
ghost use Rattle.zk_machine.specs.Agenda.{due_of};
ghost use Rattle.zk_events.specs.Sealed.{IsReady, StandsFor};
ghost use Rattle.zk_machine.specs.Queued.{queued_of};
ghost use Rattle.zk_typed.specs.Dispatch.{dispatch};
ghost use Rattle.zk_typed.specs.Program.{Program};
ghost use Rattle.zk_typed.specs.Running.{Due as PlainDue, Turn, dispatches_max, drained, happens, initialised, one_turn, turns};
ghost use Rattle.zk_typed.specs.State.{World, queued_behind, with_time};
ghost use Rattle.zk_typed.specs.World.{queued};
ghost use Rattle.zk_events.specs.declared.dispatcher.Flow.TheVariants.{Goes};

use crate::sealed::SealedMachine;
use std::alloc::Global;
use zk_base::{EventNo, Mem, Moment};
use zk_machine::{Due, DueKind, Queued};

/// So many dispatches may come from the beginning on, and from each item on.
pub fn dispatches_max() -> u64
    ensures { result ≡ dispatches_max }
{
    1_000_000
}

/// Whether a run goes on.
#[derive(Clone, Copy, Debug, PartialEq, Eq)]
pub enum Flow {
    /// No event waits, and more dispatches may come.
    Goes,
    /// More dispatches would come than may.
    Floods,
}

/// Which turns come: all that are due by an item, each at its own moment, or, at the end, all that are
/// there, at the last network time.
#[derive(Clone, Copy, Debug, PartialEq, Eq)]
pub enum Until {
    Item(Moment),
    End(Moment),
}

impl Until {
    ghost use Rattle.zk_events.specs.Flowing.{is_due, time_at};

    /// Whether what is due at a moment comes.
    fn includes(self, due: Moment) -> bool
        ensures { result ≡ is_due self due }
    {
        match self {
            Until::Item(moment) => due <= moment,
            Until::End(_) => true,
        }
    }

    /// Network time where something comes that is due at a moment.
    fn time_at(self, due: Moment) -> Moment
        ensures { result ≡ time_at self due }
    {
        match self {
            Until::Item(_) => due,
            Until::End(last) => last,
        }
    }
}

/// A machine whose events are dispatched, each body with a budget of units, and how many dispatches may
/// still come.
#[derive(Debug, Drop)]
pub struct Dispatcher {
    pub machine: SealedMachine,
    pub budget: u64,
    pub left: u64,
}

impl Dispatcher {
    ghost use Rattle.zk_events.specs.Flowing.{FlowsTo, IsTold, is_due, time_at};

    /// Computes the initial values of globals and constants in load order.
    pub fn initialise(&mut self) -> Result<(), Mem>
        ensures stands { OnOk result (Becomes self.old.machine self.new.machine (λ program world. initialised program self.old.budget 0 world program.globals)) }
        ensures budget { self.new.budget ≡ self.old.budget }
        ensures left { self.new.left ≡ self.old.left }
    {
        let Ok(count) = u32::try_from(self.machine.globals()) else {
            return Err(Mem);
        };
        for global in 0..count {
            self.machine.initial(global, self.budget)?;
        }
        Ok(())
    }

    /// Puts an event without arguments behind those that wait.
    pub fn queue(&mut self, alloc: Global, event: EventNo) -> Result<(), Mem>
        ensures stands { OnOk result (Becomes self.old.machine self.new.machine (λ program. queued_behind (queued event [] ∷ []))) }
        ensures budget { self.new.budget ≡ self.old.budget }
        ensures left { self.new.left ≡ self.old.left }
    {
        self.machine.queue(event, Vec::new(alloc))
    }

    /// Runs the bodies of an event's handlers, by falling priority and then in load order.
    fn dispatch(&mut self, event: &Queued) -> Result<(), Mem>
        ensures stands { OnOk result (Becomes self.old.machine self.new.machine (λ program world. dispatch program self.old.budget world (queued_of event.now))) }
        ensures budget { self.new.budget ≡ self.old.budget }
        ensures left { self.new.left ≡ self.old.left }
    {
        self.machine.dispatch(event.event, &event.args, self.budget)
    }

    /// Dispatches the events that wait until none does, and as many as may still come.
    pub fn drain(&mut self) -> Result<Flow, Mem>
        ensures flows { IfOk result (λ flow. (program : Program) (given : Told) (world : World) → StandsFor self.old.machine program given world
            → FlowsTo flow self.new program given (drained program self.old.budget self.old.left world)) }
        ensures budget { self.new.budget ≡ self.old.budget }
        ensures fewer { OnOk result (self.new.left ≤ self.old.left) }
    {
        while let Some(event) = self.machine.next_event() {
            if self.left == 0 {
                return Ok(Flow::Floods);
            }
            self.left -= 1;
            self.dispatch(&event)?;
        }
        Ok(Flow::Goes)
    }

    /// Lets happen what is due, at a network time.
    fn happen(&mut self, what: DueKind, at: Moment) -> Result<(), Mem>
        requires { IsReady self.old.machine what }
        ensures stands { OnOk result ((program : Program) (given : Told) (world : World) (due : PlainDue) → StandsFor self.old.machine program given world
            → IsTold what due world → StandsFor self.new.machine program given (happens program self.old.budget (with_time at world) due)) }
        ensures budget { self.new.budget ≡ self.old.budget }
        ensures left { self.new.left ≡ self.old.left }
    {
        match what {
            DueKind::Entry { table, order } => {
                self.machine.set_time(at);
                self.machine.expire(table, order, self.budget)
            }
            DueKind::Scheduled { order } => {
                let event = self.machine.take_scheduled(order);
                self.machine.set_time(at);
                self.dispatch(&event)
            }
        }
    }

    /// A turn: what is due happens, which is a dispatch, and the queue is drained.
    fn turn(&mut self, until: Until, due: Due) -> Result<Flow, Mem>
        requires { IsReady self.old.machine due.what }
        ensures flows { IfOk result (λ flow. (program : Program) (given : Told) (world : World) (one : Turn) → StandsFor self.old.machine program given world
            → due.at ≡ one.at → IsTold due.what one.what world → FlowsTo flow self.new program given (one_turn program self.old.budget (time_at until) world one self.old.left)) }
        ensures budget { self.new.budget ≡ self.old.budget }
        ensures fewer { IfOk result (λ flow. flow ≡ Goes → self.new.left < self.old.left) }
    {
        if self.left == 0 {
            return Ok(Flow::Floods);
        }
        self.left -= 1;
        self.happen(due.what, until.time_at(due.at))?;
        self.drain()
    }

    /// Takes the turns that come.
    pub fn take_turns(&mut self, until: Until) -> Result<Flow, Mem>
        ensures flows { IfOk result (λ flow. (program : Program) (given : Told) (world : World) → StandsFor self.old.machine program given world
            → FlowsTo flow self.new program given (turns program self.old.budget (time_at until) (λ one. is_due until one.at) world self.old.left)) }
        ensures budget { self.new.budget ≡ self.old.budget }
    {
        while let Some(due) = self.machine.due() {
            if !until.includes(due.at) {
                break;
            }
            match self.turn(until, due)? {
                Flow::Goes => {}
                Flow::Floods => return Ok(Flow::Floods),
            }
        }
        Ok(Flow::Goes)
    }
}
