ghost use Rattle.std.specs.Prelude.{◌≡◌, ◌<◌, ◌+◌, ◌∷◌, ◌++◌, [], ℕ, List, length, map, drop, replicate, Some, None as Nothing, IfOk, OnOk, OnErr, IfSome, IfNone, IsErr, IsNone, All, slice_get};
ghost use Rattle.std.specs.Option.{option_map};
ghost use Rattle.zk_lower.specs.Code.{types_in};
ghost use Rattle.zk_lower.specs.Lowering.{lowered};
ghost use Rattle.zk_lower.specs.Meant as meant;
ghost use Rattle.zk_lower.specs.Told.{Told};
ghost use Rattle.zk_lower.specs.View as lower;
ghost use Rattle.zk_tree.specs.Store as object;
ghost use Rattle.zk_typed.specs.Dispatch as dispatch;
ghost use Rattle.zk_typed.specs.Program.{Program, Handler, Global as PlainGlobal};
ghost use Rattle.zk_typed.specs.Running.{EventDue, no_values, wait_of, next_turn, expire_of, not_waiting};
ghost use Rattle.zk_typed.specs.State.{World as PlainWorld, first_world, with_time, with_queue, queued_behind};
ghost use Rattle.zk_typed.specs.World.{Scheduled, queued};
ghost use Rattle.zk_value.specs.Plain.{key_of, field_of};
ghost use Rattle.zk_machine.specs.Agenda.{due_of, end_of};
ghost use Rattle.zk_machine.specs.Handling.{numbers_for};
ghost use Rattle.zk_machine.specs.Leads.{ran_of};
ghost use Rattle.zk_machine.specs.Made as made;
ghost use Rattle.zk_machine.specs.Made.{given_of, renewed, with_object};
ghost use Rattle.zk_machine.specs.Owners.{NamesNothing};
ghost use Rattle.zk_machine.specs.Queued.{queued_of};
ghost use Rattle.zk_machine.specs.Schedule.{event_numbered};
ghost use Rattle.zk_machine.specs.State.{state_of, world_of};

use crate::calls::first_names;
use crate::due::Due;
use crate::ends::Ending;
use crate::fresh::fresh;
use crate::globals::Globals;
use crate::indexed::IndexedCode;
use crate::queued::Queued;
use crate::reports::fault_name;
use crate::running::Running;
use crate::state::State;
use crate::world::World;
use std::alloc::Global;
use zk_base::{EventNo, HandlerNo, Mem, Moment, ObjectNo, RecordNo, Span};
use zk_lower::{BodyCode, Code, code_means, told_stays};
use zk_typed::BodyEnd;
use zk_value::{Out, Value};

/// Code that runs, one body at a time, and the world that it has come to. Once a call has answered `Mem`
/// the machine has failed: it goes on answering `Mem`, and `out` gives nothing.
#[derive(Debug, Drop)]
pub struct Machine {
    code: IndexedCode,
    running: Running,
    failed: bool,
}

/// How an expiry function ended, and how much longer the entry stays.
#[derive(Clone, Copy, Debug, PartialEq, Eq)]
pub struct Waited {
    pub end: BodyEnd,
    pub wait: Span,
}

impl Running {
    /// What runs in a world of so many globals and constants, at its beginning.
    fn new(alloc: Global, globals: Globals) -> Running
        requires { NamesNothing globals }
        ensures { world_of result.state.world ≡ first_world globals }
    {
        Running {
            at: 0,
            stack: Vec::new(alloc),
            loops: Vec::new(alloc),
            frames: Vec::new(alloc),
            state: State {
                world: World::new(alloc, globals),
                locals: Vec::new(alloc),
                units: 0,
            },
            ending: Ending::Done(None),
        }
    }

    /// Runs a body for which no other one waits.
    pub fn run_body(
        &mut self,
        code: &Code,
        body: BodyCode,
        args: &[Value],
        budget: u64,
    ) -> Result<Ending, Mem>
        ensures { IfOk result (λ ending. meant.run_body (lower.code_of code.now) (lower.body_of body) (key_of args.now) (world_of self.old.state.world) budget ≡ ran_of ending (state_of self.new.state)) }
    {
        let names = first_names(self.state.world.alloc, args, body.locals)?;
        self.at = body.entry;
        self.stack.clear();
        self.loops.clear();
        self.frames.clear();
        self.state.locals = names;
        self.state.units = budget;
        self.run(code)
    }

    /// Runs the body of a handler, where the code has it.
    fn run_handler(
        &mut self,
        code: &Code,
        number: HandlerNo,
        args: &[Value],
        budget: u64,
    ) -> Result<Option<Ending>, Mem>
        ensures { IfOk result (λ ending. meant.handler_run (lower.code_of code.now) number.0 (key_of args.now) (world_of self.old.state.world) budget ≡ option_map (λ one. dispatch.left (ran_of one (state_of self.new.state))) ending) }
    {
        let body = match code.handlers.as_slice().get(number.0 as usize) {
            Some(handler) => handler.body,
            None => return Ok(None),
        };
        let ending = self.run_body(code, body, args, budget)?;
        Ok(Some(ending))
    }

    /// Computes the initial value of a global or a constant, where the code has it.
    fn run_initial(&mut self, code: &Code, number: u32, budget: u64) -> Result<Option<Ending>, Mem>
        ensures { IfOk result (λ ending. meant.initial_run (lower.code_of code.now) number (world_of self.old.state.world) budget ≡ option_map (λ one. dispatch.left (ran_of one (state_of self.new.state))) ending) }
    {
        let initial = match code.globals.as_slice().get(number as usize) {
            Some(global) => global.initial,
            None => return Ok(None),
        };
        match initial {
            Some(entry) => {
                let ending = self.run_body(code, BodyCode { entry, locals: 0 }, &[], budget)?;
                Ok(Some(ending))
            }
            None => {
                self.state.units = budget;
                Ok(Some(Ending::Done(None)))
            }
        }
    }

    /// Tells how a body ended, with a row of the log `reporter` where it did not run to its end.
    fn tell(&mut self, code: &Code, ending: &Ending) -> Result<BodyEnd, Mem>
        ensures end { IfOk result (λ end. end ≡ (dispatch.left (ran_of ending.now (state_of self.old.state))).end) }
        ensures world { OnOk result (world_of self.new.state.world ≡ dispatch.world_after (types_in (lower.code_of code.now)) (ran_of ending.now (state_of self.old.state))) }
        ensures units { OnOk result (self.new.state.units ≡ (dispatch.left (ran_of ending.now (state_of self.old.state))).units) }
    {
        match ending {
            Ending::Done(_) => Ok(BodyEnd::Done),
            Ending::Fault { kind, place } => {
                self.state.world.report(code, fault_name(*kind), *place)?;
                Ok(BodyEnd::Fault {
                    kind: *kind,
                    place: *place,
                })
            }
            Ending::Spent { place } => {
                self.state.world.report(code, b"Spent", *place)?;
                self.state.units = 0;
                Ok(BodyEnd::Spent { place: *place })
            }
        }
    }
}

impl Machine {
    ghost use Rattle.zk_machine.specs.Standing.{StandsFor, HasFailed, IsReady, IsScheduled, code_of, nothing, units_left, waiting, with_out, wound_up};

    /// A machine at the beginning of a run: network time is 0, no global has a value yet, and nothing is
    /// printed or written.
    pub fn new(alloc: Global, code: Code) -> Result<Machine, Mem>
        ensures stands { IfOk result (λ machine. (program : Program) → lower.code_of code ≡ lowered program → StandsFor machine program nothing (first_world (no_values program))) }
        ensures code { IfOk result (λ machine. code_of machine ≡ lower.code_of code) }
    {
        let globals = Globals::new(alloc, code.globals.as_slice())?;
        let indexed = IndexedCode::new(alloc, code)?;
        let running = Running::new(alloc, globals);
        Ok(Machine {
            code: indexed,
            running,
            failed: false,
        })
    }

    /// The code that the machine runs, lent.
    pub fn code(&self) -> &Code
        ensures { lower.code_of result.now ≡ code_of self.now }
    {
        self.code.code()
    }

    /// The handlers of an event by falling priority, and in load order where that is the same (Zeek manual,
    /// Attributes, &priority), lent.
    pub fn handlers(&self, event: EventNo) -> &[HandlerNo]
        ensures numbers { map (λ handler. handler.0) result.now ≡ numbers_for event (code_of self.now).handlers }
        ensures within { All (λ handler. handler.0 < length (code_of self.now).handlers) result.now }
        ensures handlers { (program : Program) → code_of self.now ≡ lowered program
            → map (λ handler. slice_get program.handlers handler.0) result.now ≡ map Some (dispatch.handlers_of program event) }
    {
        self.code.handlers(event)
    }

    /// How many units the last body left.
    pub fn left(&self) -> u64
        ensures { result ≡ units_left self.now }
    {
        self.running.state.units
    }

    /// Network time (Zeek manual, Built-in functions, network_time).
    pub fn time(&self) -> Moment
        ensures { (program : Program) (given : Told) (world : PlainWorld) → StandsFor self.now program given world → result ≡ world.time }
    {
        self.running.state.world.time
    }

    /// Sets network time (Zeek manual, Built-in functions, network_time).
    pub fn set_time(&mut self, t: Moment)
        ensures stands { (program : Program) (given : Told) (world : PlainWorld) → StandsFor self.old program given world → StandsFor self.new program given (with_time t world) }
        ensures scheduled { (order : ℕ) → IsScheduled self.old order → IsScheduled self.new order }
        ensures code { code_of self.new ≡ code_of self.old }
        ensures failed { HasFailed self.old → HasFailed self.new }
    {
        self.running.state.world.time = t;
    }

    /// Begins the end of a run: from now on no entry expires, and nothing more is scheduled.
    pub fn wind_up(&mut self)
        ensures stands { (program : Program) (given : Told) (world : PlainWorld) → StandsFor self.old program given world → StandsFor self.new program given (wound_up world) }
        ensures code { code_of self.new ≡ code_of self.old }
        ensures failed { HasFailed self.old → HasFailed self.new }
    {
        self.running.state.world.is_ending = true;
    }

    /// Runs the body of a handler, given its arguments and so many units (Zeek manual, Declarations,
    /// event). A body that is at fault or lacks a unit keeps what it did, and a row of the log `reporter`
    /// tells it. Printed lines and rows wait for `out`. `Mem`: memory was wanting, now or at an earlier call,
    /// and the machine has failed.
    pub fn body(&mut self, handler: HandlerNo, args: &[Value], budget: u64) -> Result<BodyEnd, Mem>
        requires { handler.0 < length (code_of self.old).handlers }
        // It ends as the meaning of the program says, and leaves as many units, and so the world becomes.
        ensures ended { IfOk result (λ end. (program : Program) (given : Told) (world : PlainWorld) (of : Handler) → StandsFor self.old program given world
            → slice_get program.handlers handler.0 ≡ Some of → end ≡ (dispatch.left (dispatch.handler_body program of (key_of args.now) world budget)).end) }
        ensures left { OnOk result ((program : Program) (given : Told) (world : PlainWorld) (of : Handler) → StandsFor self.old program given world
            → slice_get program.handlers handler.0 ≡ Some of → units_left self.new ≡ (dispatch.left (dispatch.handler_body program of (key_of args.now) world budget)).units) }
        ensures stands { OnOk result ((program : Program) (given : Told) (world : PlainWorld) (of : Handler) → StandsFor self.old program given world
            → slice_get program.handlers handler.0 ≡ Some of → StandsFor self.new program given (dispatch.world_after program (dispatch.handler_body program of (key_of args.now) world budget))) }
        ensures code { code_of self.new ≡ code_of self.old }
        ensures fails { OnErr result (HasFailed self.new) }
        ensures failed { HasFailed self.old → IsErr result }
    {
        code_means();
        told_stays();
        if self.failed {
            return Err(Mem);
        }
        self.failed = true;
        let lent = self.code.code();
        let found = self.running.run_handler(lent, handler, args, budget)?;
        let Some(ending) = found else { unreachable!() };
        let end = self.running.tell(lent, &ending)?;
        self.failed = false;
        Ok(end)
    }

    /// Computes the initial value of a global or a constant, by its number in load order, as one body. It is
    /// `Done` where the name has none. What is said of `body` holds.
    pub fn initial(&mut self, global: u32, budget: u64) -> Result<BodyEnd, Mem>
        requires { global < length (code_of self.old).globals }
        ensures ended { IfOk result (λ end. (program : Program) (given : Told) (world : PlainWorld) (of : PlainGlobal) → StandsFor self.old program given world
            → slice_get program.globals global ≡ Some of → end ≡ (dispatch.left (dispatch.initial_body program global of world budget)).end) }
        ensures left { OnOk result ((program : Program) (given : Told) (world : PlainWorld) (of : PlainGlobal) → StandsFor self.old program given world
            → slice_get program.globals global ≡ Some of → units_left self.new ≡ (dispatch.left (dispatch.initial_body program global of world budget)).units) }
        ensures stands { OnOk result ((program : Program) (given : Told) (world : PlainWorld) (of : PlainGlobal) → StandsFor self.old program given world
            → slice_get program.globals global ≡ Some of → StandsFor self.new program given (dispatch.world_after program (dispatch.initial_body program global of world budget))) }
        ensures code { code_of self.new ≡ code_of self.old }
        ensures fails { OnErr result (HasFailed self.new) }
        ensures failed { HasFailed self.old → IsErr result }
    {
        code_means();
        told_stays();
        if self.failed {
            return Err(Mem);
        }
        self.failed = true;
        let lent = self.code.code();
        let found = self.running.run_initial(lent, global, budget)?;
        let Some(ending) = found else { unreachable!() };
        let end = self.running.tell(lent, &ending)?;
        self.failed = false;
        Ok(end)
    }

    /// Asks the expiry function of a global's table, given the table and the values of a key, how much longer
    /// the key's entry stays, as one body: an interval of 0 without a function, and where it does not run to
    /// its end. What is said of `body` holds.
    pub fn expiry(&mut self, global: u32, args: &[Value], budget: u64) -> Result<Waited, Mem>
        requires { global < length (code_of self.old).globals }
        ensures ended { IfOk result (λ waited. (program : Program) (given : Told) (world : PlainWorld) (of : PlainGlobal) → StandsFor self.old program given world
            → slice_get program.globals global ≡ Some of → waited.end ≡ (dispatch.left (dispatch.expiry_body program of (key_of args.now) world budget)).end) }
        ensures wait { IfOk result (λ waited. (program : Program) (given : Told) (world : PlainWorld) (of : PlainGlobal) → StandsFor self.old program given world
            → slice_get program.globals global ≡ Some of → waited.wait ≡ wait_of (dispatch.expiry_body program of (key_of args.now) world budget)) }
        ensures left { OnOk result ((program : Program) (given : Told) (world : PlainWorld) (of : PlainGlobal) → StandsFor self.old program given world
            → slice_get program.globals global ≡ Some of → units_left self.new ≡ (dispatch.left (dispatch.expiry_body program of (key_of args.now) world budget)).units) }
        ensures stands { OnOk result ((program : Program) (given : Told) (world : PlainWorld) (of : PlainGlobal) → StandsFor self.old program given world
            → slice_get program.globals global ≡ Some of → StandsFor self.new program given (dispatch.world_after program (dispatch.expiry_body program of (key_of args.now) world budget))) }
        ensures code { code_of self.new ≡ code_of self.old }
        ensures fails { OnErr result (HasFailed self.new) }
        ensures failed { HasFailed self.old → IsErr result }
    {
        code_means();
        told_stays();
        if self.failed {
            return Err(Mem);
        }
        self.failed = true;
        let lent = self.code.code();
        let found = self.running.expiry_of(lent, global, args, budget)?;
        let Some(expiring) = found else {
            unreachable!()
        };
        let end = self.running.tell(lent, &expiring.ending)?;
        self.failed = false;
        Ok(Waited {
            end,
            wait: expiring.wait,
        })
    }

    /// Puts an event behind those that wait to be dispatched. `Mem`: memory was wanting, now or at an earlier
    /// call, and the machine has failed.
    pub fn queue(&mut self, event: EventNo, args: Vec<Value>) -> Result<(), Mem>
        ensures stands { OnOk result ((program : Program) (given : Told) (world : PlainWorld) → StandsFor self.old program given world
            → StandsFor self.new program given (queued_behind (queued event (key_of args.items) ∷ []) world)) }
        ensures code { code_of self.new ≡ code_of self.old }
        ensures fails { OnErr result (HasFailed self.new) }
        ensures failed { HasFailed self.old → IsErr result }
    {
        if self.failed {
            return Err(Mem);
        }
        self.failed = true;
        let waiting = Queued { event, args };
        self.running.state.world.queue.push_back(waiting)?;
        self.failed = false;
        Ok(())
    }

    /// Takes the event that was queued first, or none where none waits or the machine has failed.
    pub fn next_event(&mut self) -> Option<Queued>
        ensures some { IfSome result (λ one. (program : Program) (given : Told) (world : PlainWorld) → StandsFor self.old program given world
            → (world.queue ≡ queued_of one ∷ drop 1 world.queue) × StandsFor self.new program given (with_queue (drop 1 world.queue) world)) }
        ensures none { IfNone result ((program : Program) (given : Told) (world : PlainWorld) → StandsFor self.old program given world
            → (world.queue ≡ []) × StandsFor self.new program given world) }
        ensures code { code_of self.new ≡ code_of self.old }
        ensures failed { HasFailed self.old → IsNone result × HasFailed self.new }
    {
        if self.failed {
            return None;
        }
        self.running.state.world.queue.pop_front()
    }

    /// Dispatches an event: the bodies of its handlers run one after another, each with so many units, from the
    /// world that the last one left (Zeek manual, Statements, event). `Mem`: memory was wanting, now or at an
    /// earlier call, and the machine has failed.
    pub fn dispatch(&mut self, event: EventNo, args: &[Value], budget: u64) -> Result<(), Mem>
        ensures stands { OnOk result ((program : Program) (given : Told) (world : PlainWorld) → StandsFor self.old program given world
            → StandsFor self.new program given (dispatch.dispatch program budget world (queued event (key_of args.now)))) }
        ensures code { code_of self.new ≡ code_of self.old }
        ensures fails { OnErr result (HasFailed self.new) }
        ensures failed { HasFailed self.old → IsErr result }
    {
        if self.failed {
            return Err(Mem);
        }
        let count = self.handlers(event).len();
        for place in 0..count {
            let list = self.handlers(event);
            let handler = list[place];
            self.body(handler, args, budget)?;
        }
        Ok(())
    }

    /// What is due next: an entry of a table that expires, or an event that was scheduled. None where nothing
    /// expires or waits. Once the end has begun only events are due.
    pub fn due(&self) -> Option<Due>
        ensures next { (program : Program) (given : Told) (world : PlainWorld) → StandsFor self.now program given world → result ≡ option_map due_of (next_turn program world) }
        // An event that is due is the one of its number.
        ensures event { (program : Program) (given : Told) (world : PlainWorld) (at : Moment) (one : Scheduled) → StandsFor self.now program given world
            → next_turn program world ≡ Some (record { at = at; what = EventDue one }) → event_numbered one.order world.scheduled ≡ Some one }
        ensures ready { IfSome result (λ due. IsReady self.now due.what) }
    {
        self.running.state.world.due(self.code.expiring())
    }

    /// Takes an event that was scheduled, which no longer waits for its moment.
    pub fn take_scheduled(&mut self, order: u64) -> Queued
        requires { IsScheduled self.old order }
        ensures stands { (program : Program) (given : Told) (world : PlainWorld) (one : Scheduled) → StandsFor self.old program given world
            → event_numbered order world.scheduled ≡ Some one → (queued_of result ≡ one.what) × StandsFor self.new program given (not_waiting one world) }
        ensures code { code_of self.new ≡ code_of self.old }
        ensures failed { HasFailed self.old → HasFailed self.new }
    {
        let taken = self.running.state.world.schedule.take(order);
        let Some(event) = taken else { unreachable!() };
        event
    }

    /// Lets an entry of a global's table expire, given its order number. The expiry function is asked, as one
    /// body with so many units, how much longer the entry stays; it goes where that isn't above 0, without a
    /// function, and after one that did not run to its end. Nothing is done where there is no such entry, and
    /// that is `Done`. What is said of `body` holds.
    pub fn expire(&mut self, table: u32, order: u64, budget: u64) -> Result<BodyEnd, Mem>
        ensures ended { IfOk result (λ end. (program : Program) (given : Told) (world : PlainWorld) → StandsFor self.old program given world
            → end ≡ end_of program budget table order world (slice_get program.globals table)) }
        ensures stands { OnOk result ((program : Program) (given : Told) (world : PlainWorld) → StandsFor self.old program given world
            → StandsFor self.new program given (expire_of program budget table order world (slice_get program.globals table))) }
        ensures code { code_of self.new ≡ code_of self.old }
        ensures fails { OnErr result (HasFailed self.new) }
        ensures failed { HasFailed self.old → IsErr result }
    {
        if self.failed {
            return Err(Mem);
        }
        if table as usize >= self.code.code().globals.len() {
            return Ok(BodyEnd::Done);
        }
        self.failed = true;
        let world = &self.running.state.world;
        let now = world.time;
        let found = world.entry(table, order)?;
        let Some(entry) = found else {
            self.failed = false;
            return Ok(BodyEnd::Done);
        };
        let args = entry.values(world.alloc)?;
        self.failed = false;
        let waited = self.expiry(table, &args, budget)?;
        let heap = &mut self.running.state.world.heap;
        heap.renew(entry.table, now, &entry.key);
        heap.expire(entry.table, order, waited.wait);
        Ok(waited.end)
    }

    /// Makes a record of a type, given the values of some fields by their numbers. The others begin as in a
    /// constructor; one whose `&default` is at fault has no value. `Mem`: memory was wanting, now or at an
    /// earlier call, and the machine has failed.
    pub fn fresh_object(
        &mut self,
        kind: RecordNo,
        fields: Vec<(u32, Value)>,
    ) -> Result<ObjectNo, Mem>
        ensures number { IfOk result (λ number. (program : Program) (given : Told) (world : PlainWorld) → StandsFor self.old program given world
            → number ≡ (made.fresh program kind (given_of fields.items) world).number) }
        ensures stands { OnOk result ((program : Program) (given : Told) (world : PlainWorld) → StandsFor self.old program given world
            → StandsFor self.new program given (made.fresh program kind (given_of fields.items) world).world) }
        ensures code { code_of self.new ≡ code_of self.old }
        ensures fails { OnErr result (HasFailed self.new) }
        ensures failed { HasFailed self.old → IsErr result }
    {
        if self.failed {
            return Err(Mem);
        }
        self.failed = true;
        let world = &mut self.running.state.world;
        let number = fresh(
            world.alloc,
            &mut world.heap,
            self.code.code(),
            kind,
            &fields,
        )?;
        self.failed = false;
        Ok(number)
    }

    /// Gives a field of a record a value, or takes its value away. Nothing is changed where there is no such
    /// record or field.
    pub fn renew_object(&mut self, object: ObjectNo, field: u32, value: Option<Value>)
        ensures stands { (program : Program) (given : Told) (world : PlainWorld) → StandsFor self.old program given world
            → StandsFor self.new program given (renewed object field (field_of value) world) }
        ensures code { code_of self.new ≡ code_of self.old }
        ensures failed { HasFailed self.old → HasFailed self.new }
    {
        let heap = &mut self.running.state.world.heap;
        heap.set_field(object, field as usize, value);
    }

    /// Makes a vector of these items. `Mem`: memory was wanting, now or at an earlier call, and the machine has
    /// failed.
    pub fn fresh_vector(&mut self, items: Vec<Value>) -> Result<ObjectNo, Mem>
        ensures number { IfOk result (λ number. (program : Program) (given : Told) (world : PlainWorld) → StandsFor self.old program given world
            → number.0 ≡ length world.store) }
        ensures stands { OnOk result ((program : Program) (given : Told) (world : PlainWorld) → StandsFor self.old program given world
            → StandsFor self.new program given (with_object (object.Vector (key_of items.items)) world)) }
        ensures code { code_of self.new ≡ code_of self.old }
        ensures fails { OnErr result (HasFailed self.new) }
        ensures failed { HasFailed self.old → IsErr result }
    {
        if self.failed {
            return Err(Mem);
        }
        self.failed = true;
        let number = self.running.state.world.heap.add_vector(items)?;
        self.failed = false;
        Ok(number)
    }

    /// The next printed line or row that was not yet given, or none where all were or the machine has failed.
    /// Lines come in the order in which they were printed, and rows in the order in which they were written.
    pub fn out(&mut self) -> Option<Out>
        ensures some { IfSome result (λ out. (program : Program) (given : Told) (world : PlainWorld) → StandsFor self.old program given world → StandsFor self.new program (with_out given out) world) }
        ensures none { IfNone result ((program : Program) (given : Told) (world : PlainWorld) → StandsFor self.old program given world
            → (given.lines ≡ world.lines) × (given.rows ≡ world.rows) × StandsFor self.new program given world) }
        ensures fewer { IfSome result (λ out. waiting self.new + 1 ≡ waiting self.old) }
        ensures code { code_of self.new ≡ code_of self.old }
        ensures failed { HasFailed self.old → IsNone result × HasFailed self.new }
    {
        if self.failed {
            return None;
        }
        self.running.state.world.out.pop_front()
    }
}
