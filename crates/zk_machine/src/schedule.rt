ghost use Rattle.std.specs.Prelude.{◌≡◌, ◌<◌, ◌+◌, ◌-◌, ℕ, [], Some, None as Nothing, OnOk, OnErr, IfSome, IfNone};
ghost use Rattle.std.specs.Option.{option_map};
ghost use Rattle.zk_tree.specs.Table.{first_due, moment_after};
ghost use Rattle.zk_typed.specs.World.{Scheduled as Waiting};
ghost use Rattle.zk_value.specs.Plain.{key_of};
ghost use Rattle.zk_machine.specs.Queued.{queued_of, scheduled_of};
ghost use Rattle.zk_machine.specs.Schedule as plain;
ghost use Rattle.zk_machine.specs.Schedule.{AreLast};

use crate::queued::{Queued, Scheduled};
use std::alloc::Global;
use std::collections::VecDeque;
use std::marker::Model;
use zk_base::{Mem, Moment, Span};
use zk_table::{Expiry, Table, moment_after};
use zk_value::{Key, Value};

/// The events that wait for their moments, each found by its number among those that were scheduled, and the
/// first that is due at once. Contracts see their list in the order in which they were scheduled, and how many
/// were scheduled so far.
#[derive(Debug, Drop)]
pub struct Schedule {
    /// How many were scheduled so far.
    count: u64,
    /// The last of them by number, each while it waits. None waits that stands before them.
    slots: VecDeque<Option<Scheduled>>,
    /// For each that waits an entry that expires when it is due.
    dues: Table,
}

impl Model for Schedule {
    ghost use Rattle.std.specs.Prelude.{◌≡◌};
    ghost use Rattle.zk_machine.specs.Schedule.{AreLast, Plan, index_of, plan_of};

    ghost Value = { Plan };

    ghost view = { λ schedule. plan_of schedule.count schedule.slots.items };

    ghost invariant = { λ schedule. AreLast schedule.count schedule.slots.items × (schedule.dues ≡ index_of (plan_of schedule.count schedule.slots.items)) };
}

/// The key of an event in the index.
fn key_for(order: u64) -> Key
    ensures { key_of result ≡ plain.key_for order }
{
    Key::from(Value::Count(order))
}

/// Lets go of the places at the front whose events are gone.
fn trim(slots: &mut VecDeque<Option<Scheduled>>)
    ensures waiting { plain.waiting slots.new.items ≡ plain.waiting slots.old.items }
    ensures last { (count : ℕ) → AreLast count slots.old.items → AreLast count slots.new.items }
{
    'gone: while let Some(None) = slots.front() {
        slots.pop_front();
    }
}

/// The place of an order number among the last so many of those that were scheduled.
fn place_of(len: usize, count: u64, order: u64) -> Option<usize>
    ensures some { IfSome result (λ place. (place < len) × (count - len + place ≡ order)) }
    ensures none { IfNone result ((place : ℕ) → place < len → count - len + place ≡ order → ⊥) }
{
    let gone = count.saturating_sub(len as u64);
    let place = order.checked_sub(gone)?;
    if place < len as u64 {
        Some(place as usize)
    } else {
        None
    }
}

/// Takes an event out of the last of so many that were scheduled.
fn take_from(slots: &mut VecDeque<Option<Scheduled>>, count: u64, order: u64) -> Option<Scheduled>
    ensures one { AreLast count slots.old.items → option_map scheduled_of result ≡ plain.event_numbered order (plain.waiting slots.old.items) }
    ensures left { AreLast count slots.old.items → plain.waiting slots.new.items ≡ plain.others order (plain.waiting slots.old.items) }
    ensures last { AreLast count slots.old.items → AreLast count slots.new.items }
{
    let place = place_of(slots.len(), count, order)?;
    let one = slots[place].take();
    trim(slots);
    one
}

impl Schedule {
    ghost use Rattle.zk_machine.specs.Schedule.{IsFound, event_numbered, index_of, others, with_event};

    /// No event. No memory is taken.
    pub fn new(alloc: Global) -> Schedule
        ensures { result ≡ record { events = []; count = 0 } }
    {
        Schedule {
            count: 0,
            slots: VecDeque::new(alloc),
            dues: Table::new(alloc, Some(Expiry::Create(Span(0)))),
        }
    }

    /// Adds an event that is due so long after a moment. At `Mem` nothing is changed.
    pub fn add(&mut self, now: Moment, delay: Span, what: Queued) -> Result<(), Mem>
        ensures ok { OnOk result (self.new ≡ with_event (moment_after now delay) (queued_of what) self.old) }
        ensures err { OnErr result (self.new ≡ self.old) }
    {
        let order = self.count;
        let Some(count) = order.checked_add(1) else {
            return Err(Mem);
        };
        let due = moment_after(now, delay);
        self.slots.reserve(1)?;
        self.dues.insert(due, key_for(order), Value::Bool(true))?;
        self.slots
            .push_back_reserved(Some(Scheduled { due, order, what }));
        self.count = count;
        Ok(())
    }

    /// When the first event is due, and its number.
    pub fn first(&self) -> Option<(Moment, u64)>
        ensures first { result ≡ first_due (index_of self.now).entries }
        // Each that waits is found by its number.
        ensures found { IsFound self.now.events }
    {
        self.dues.due()
    }

    /// Takes an event out. None where no event has the number.
    pub fn take(&mut self, order: u64) -> Option<Queued>
        ensures some { IfSome result (λ what. (one : Waiting) → event_numbered order self.old.events ≡ Some one → queued_of what ≡ one.what) }
        ensures none { IfNone result (event_numbered order self.old.events ≡ Nothing) }
        ensures left { self.new ≡ record self.old { events = others order self.old.events } }
    {
        self.dues.expire(order, Span(0));
        let one = take_from(&mut self.slots, self.count, order)?;
        Some(one.what)
    }
}
