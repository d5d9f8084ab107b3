ghost use Rattle.std.specs.Prelude.{◌≡◌, ◌<◌, ◌+◌, ◌∷◌, [], ℕ, length, drop, Some, IfOk, OnOk, IfSome, IfNone, slice_get};
ghost use Rattle.std.specs.Option.{option_map};
ghost use Rattle.zk_events.specs.Becomes.{Becomes};
ghost use Rattle.zk_lower.specs.Lowering.{lowered};
ghost use Rattle.zk_lower.specs.Told.{Told};
ghost use Rattle.zk_lower.specs.View as lower;
ghost use Rattle.zk_machine.specs.Agenda.{due_of};
ghost use Rattle.zk_machine.specs.Made.{fresh, given_of, renewed, with_object};
ghost use Rattle.zk_machine.specs.Queued.{queued_of};
ghost use Rattle.zk_machine.specs.Schedule.{event_numbered};
ghost use Rattle.zk_machine.specs.Standing.{nothing, with_out, wound_up};
ghost use Rattle.zk_tree.specs.Store as object;
ghost use Rattle.zk_typed.specs.Dispatch as dispatch;
ghost use Rattle.zk_typed.specs.Program.{Program, Global as PlainGlobal};
ghost use Rattle.zk_typed.specs.Running.{EventDue, no_values, next_turn, expire_of, not_waiting};
ghost use Rattle.zk_typed.specs.State.{World, first_world, with_time, with_queue, queued_behind};
ghost use Rattle.zk_typed.specs.World.{Scheduled, queued};
ghost use Rattle.zk_value.specs.Plain.{key_of, field_of};

use std::alloc::Global;
use zk_base::{EventNo, Mem, Moment, ObjectNo, RecordNo};
use zk_lower::Code;
use zk_machine::{Due, Machine, Queued};
use zk_typed::BodyEnd;
use zk_value::{Out, Value};

/// The machine of a run. What the rest of the crate knows of it is what these calls say, each of which is
/// the machine's own.
#[derive(Debug, Drop)]
pub struct SealedMachine {
    machine: Machine,
}

impl SealedMachine {
    ghost use Rattle.zk_events.specs.Sealed.{IsReady, IsScheduled, StandsFor, code_of, waiting};

    /// A machine at the beginning of a run: network time is 0, no global has a value yet, and nothing is
    /// printed or written.
    pub fn new(alloc: Global, code: Code) -> Result<SealedMachine, Mem>
        ensures { IfOk result (λ machine. (program : Program) → lower.code_of code ≡ lowered program → StandsFor machine program nothing (first_world (no_values program))) }
    {
        let machine = Machine::new(alloc, code)?;
        Ok(SealedMachine { machine })
    }

    /// How many globals and constants its program has.
    pub fn globals(&self) -> usize
        ensures count { result ≡ length (code_of self.now).globals }
        ensures program { (program : Program) (given : Told) (world : World) → StandsFor self.now program given world → result ≡ length program.globals }
    {
        self.machine.code().globals.len()
    }

    /// Network time.
    pub fn time(&self) -> Moment
        ensures { (program : Program) (given : Told) (world : World) → StandsFor self.now program given world → result ≡ world.time }
    {
        self.machine.time()
    }

    /// Sets network time.
    pub fn set_time(&mut self, t: Moment)
        ensures { Becomes self.old self.new (λ program. with_time t) }
    {
        self.machine.set_time(t);
    }

    /// Begins the end of a run: from now on no entry expires, and nothing more is scheduled.
    pub fn wind_up(&mut self)
        ensures { Becomes self.old self.new (λ program. wound_up) }
    {
        self.machine.wind_up();
    }

    /// Computes the initial value of a global or a constant, by its number in load order.
    pub fn initial(&mut self, global: u32, budget: u64) -> Result<(), Mem>
        requires { global < length (code_of self.old).globals }
        ensures stands { OnOk result ((program : Program) (given : Told) (world : World) (of : PlainGlobal) → StandsFor self.old program given world
            → slice_get program.globals global ≡ Some of → StandsFor self.new program given (dispatch.world_after program (dispatch.initial_body program global of world budget))) }
        ensures code { code_of self.new ≡ code_of self.old }
    {
        self.machine.initial(global, budget)?;
        Ok(())
    }

    /// Puts an event behind those that wait to be dispatched.
    pub fn queue(&mut self, event: EventNo, args: Vec<Value>) -> Result<(), Mem>
        ensures { OnOk result (Becomes self.old self.new (λ program. queued_behind (queued event (key_of args.items) ∷ []))) }
    {
        self.machine.queue(event, args)
    }

    /// Takes the event that was queued first, or none where none waits.
    pub fn next_event(&mut self) -> Option<Queued>
        ensures some { IfSome result (λ one. (program : Program) (given : Told) (world : World) → StandsFor self.old program given world
            → (world.queue ≡ queued_of one ∷ drop 1 world.queue) × StandsFor self.new program given (with_queue (drop 1 world.queue) world)) }
        ensures none { IfNone result ((program : Program) (given : Told) (world : World) → StandsFor self.old program given world
            → (world.queue ≡ []) × StandsFor self.new program given world) }
    {
        self.machine.next_event()
    }

    /// Dispatches an event: the bodies of its handlers run one after another, each with so many units.
    pub fn dispatch(&mut self, event: EventNo, args: &[Value], budget: u64) -> Result<(), Mem>
        ensures { OnOk result (Becomes self.old self.new (λ program world. dispatch.dispatch program budget world (queued event (key_of args.now)))) }
    {
        self.machine.dispatch(event, args, budget)
    }

    /// What is due next: an entry of a table that expires, or an event that was scheduled.
    pub fn due(&self) -> Option<Due>
        ensures next { (program : Program) (given : Told) (world : World) → StandsFor self.now program given world → result ≡ option_map due_of (next_turn program world) }
        // An event that is due is the one of its number.
        ensures event { (program : Program) (given : Told) (world : World) (at : Moment) (one : Scheduled) → StandsFor self.now program given world
            → next_turn program world ≡ Some (record { at = at; what = EventDue one }) → event_numbered one.order world.scheduled ≡ Some one }
        ensures ready { IfSome result (λ due. IsReady self.now due.what) }
    {
        self.machine.due()
    }

    /// Takes an event that was scheduled, which no longer waits for its moment.
    pub fn take_scheduled(&mut self, order: u64) -> Queued
        requires { IsScheduled self.old order }
        ensures { (program : Program) (given : Told) (world : World) (one : Scheduled) → StandsFor self.old program given world
            → event_numbered order world.scheduled ≡ Some one → (queued_of result ≡ one.what) × StandsFor self.new program given (not_waiting one world) }
    {
        self.machine.take_scheduled(order)
    }

    /// Lets an entry of a global's table expire, given its order number. The expiry function is asked with so
    /// many units.
    pub fn expire(&mut self, table: u32, order: u64, budget: u64) -> Result<(), Mem>
        ensures { OnOk result (Becomes self.old self.new (λ program world. expire_of program budget table order world (slice_get program.globals table))) }
    {
        self.machine.expire(table, order, budget)?;
        Ok(())
    }

    /// Makes a record of a type, given the values of some fields by their numbers.
    pub fn fresh_object(
        &mut self,
        kind: RecordNo,
        fields: Vec<(u32, Value)>,
    ) -> Result<ObjectNo, Mem>
        ensures number { IfOk result (λ number. (program : Program) (given : Told) (world : World) → StandsFor self.old program given world
            → number ≡ (fresh program kind (given_of fields.items) world).number) }
        ensures stands { OnOk result (Becomes self.old self.new (λ program world. (fresh program kind (given_of fields.items) world).world)) }
    {
        self.machine.fresh_object(kind, fields)
    }

    /// Gives a field of a record a value, or takes its value away. Nothing is changed where there is no such
    /// record or field.
    pub fn renew_object(&mut self, object: ObjectNo, field: u32, value: Option<Value>)
        ensures { Becomes self.old self.new (λ program. renewed object field (field_of value)) }
    {
        self.machine.renew_object(object, field, value);
    }

    /// Makes a vector of these items.
    pub fn fresh_vector(&mut self, items: Vec<Value>) -> Result<ObjectNo, Mem>
        ensures number { IfOk result (λ number. (program : Program) (given : Told) (world : World) → StandsFor self.old program given world
            → number.0 ≡ length world.store) }
        ensures stands { OnOk result (Becomes self.old self.new (λ program. with_object (object.Vector (key_of items.items)))) }
    {
        self.machine.fresh_vector(items)
    }

    /// The next printed line or row that was not yet given, or none where all were.
    pub fn next_out(&mut self) -> Option<Out>
        ensures some { IfSome result (λ out. (program : Program) (given : Told) (world : World) → StandsFor self.old program given world → StandsFor self.new program (with_out given out) world) }
        ensures none { IfNone result ((program : Program) (given : Told) (world : World) → StandsFor self.old program given world
            → (given.lines ≡ world.lines) × (given.rows ≡ world.rows) × StandsFor self.new program given world) }
        ensures fewer { IfSome result (λ out. waiting self.new + 1 ≡ waiting self.old) }
    {
        self.machine.out()
    }
}
