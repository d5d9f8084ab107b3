ghost use Rattle.std.specs.Prelude.{◌≡◌, ◌++◌, ℕ, List, true, Some, slice_get, IfSome};
ghost use Rattle.zk_typed.specs.Does.{named};
ghost use Rattle.zk_machine.specs.Agenda as agenda;
ghost use Rattle.zk_machine.specs.Agenda.{Leads, due_in, entry_due, entry_dues, event_dues, first_of};
ghost use Rattle.zk_machine.specs.Entries.{object_named, turn_in};
ghost use Rattle.zk_machine.specs.Schedule.{IsFound};
ghost use Rattle.zk_machine.specs.State.{world_of};

use crate::due::{Due, DueKind};
use crate::world::World;
use zk_base::ObjectNo;

/// Whether one comes before another that is due at the same moment: entries come before events, those of a
/// table that is declared earlier first, and then those of a lower number.
fn kind_before(a: DueKind, b: DueKind) -> bool
    ensures { result ≡ agenda.kind_before a b }
{
    match (a, b) {
        (
            DueKind::Entry { table, order },
            DueKind::Entry {
                table: other,
                order: more,
            },
        ) => table < other || table == other && order < more,
        (DueKind::Entry { .. }, DueKind::Scheduled { .. }) => true,
        (DueKind::Scheduled { .. }, DueKind::Entry { .. }) => false,
        (DueKind::Scheduled { order }, DueKind::Scheduled { order: more }) => order < more,
    }
}

/// Whether one is due before another.
fn is_before(a: Due, b: Due) -> bool
    ensures { result ≡ agenda.is_before a b }
{
    a.at < b.at || a.at <= b.at && kind_before(a.what, b.what)
}

/// The one that is due first.
fn earlier(one: Due, other: Option<Due>) -> Due
    ensures { result ≡ agenda.earlier one other }
{
    match other {
        Some(other) => { if is_before(other, one) { other } else { one } }
        None => one,
    }
}

/// Whether a number is among some that rise, found by halving.
fn is_among(numbers: &[u32], number: u32) -> bool
    ensures { result ≡ true → (place : ℕ) × (slice_get numbers.now place ≡ Some number) }
{
    numbers.binary_search(&number).is_ok()
}

impl World {
    /// The first event that was scheduled.
    fn event_due(&self) -> Option<Due>
        ensures first { result ≡ first_of (event_dues (world_of self.now)) }
        ensures found { IsFound (world_of self.now).scheduled }
    {
        match self.schedule.first() {
            Some((at, order)) => Some(Due {
                at,
                what: DueKind::Scheduled { order },
            }),
            None => None,
        }
    }

    /// The first of an entry of a global's table and of others.
    fn with_entry(&self, global: u32, others: Option<Due>) -> Option<Due>
        ensures { (list : List Due) → others ≡ first_of list
            → result ≡ first_of (entry_due global (turn_in (world_of self.now).store (object_named (named (world_of self.now).globals global))) ++ list) }
    {
        match self.entry_due(global) {
            Some((at, order)) => {
                let entry = Due {
                    at,
                    what: DueKind::Entry {
                        table: global,
                        order,
                    },
                };
                Some(earlier(entry, others))
            }
            None => others,
        }
    }

    /// The first of an event and of the entries of these globals' tables, each of which is asked.
    fn asked(&self, globals: &[u32], event: Option<Due>) -> Option<Due>
        ensures { event ≡ first_of (event_dues (world_of self.now))
            → result ≡ first_of (entry_dues (world_of self.now) globals.now ++ event_dues (world_of self.now)) }
    {
        let mut first = event;
        for index in (0..globals.len()).rev() {
            first = self.with_entry(globals[index], first);
        }
        first
    }

    /// Of these globals the one whose table an object is, where each later table that is due is that of a
    /// later one of them, if it is that of one. None also where this is not known.
    fn first_owner(&self, globals: &[u32], object: ObjectNo) -> Option<u32>
        ensures { IfSome result (λ global. Leads (world_of self.now) globals.now global object.0) }
    {
        let global = self
            .globals
            .owner(object, self.heap.expiring_end(), globals)?;
        if is_among(globals, global) {
            Some(global)
        } else {
            None
        }
    }

    /// What is due first, where the entries of these globals expire.
    pub fn due(&self, globals: &[u32]) -> Option<Due>
        ensures first { result ≡ due_in (world_of self.now) globals.now }
        // Each event that waits is found by its number.
        ensures found { IsFound (world_of self.now).scheduled }
    {
        let event = self.event_due();
        if self.is_ending {
            return event;
        }
        let Some((_, table)) = self.heap.first_due() else {
            return event;
        };
        match self.first_owner(globals, table) {
            Some(global) => self.with_entry(global, event),
            None => self.asked(globals, event),
        }
    }
}
