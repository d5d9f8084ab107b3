//! Laws of runs: network time, and the events that scripts schedule. There is nothing to run.
#![tactic(auto)]

ghost use Rattle.zk_agenda.specs.Bodies.{HandlersGo, InitialsGo, ExpiriesGo};
ghost use Rattle.zk_agenda.specs.History.{TraceIsWhole};
ghost use Rattle.zk_agenda.specs.Laws.{DispatchedOnce, SparingTablesStay, TimeRises};

/// No body moves network time, begins or ends the end, or takes an event that was scheduled from those that
/// wait; those that it schedules have the next numbers, are due at network time at the earliest, and are none
/// once the end has begun (Zeek manual, Statements, schedule). Nor does it make an entry of a table due before
/// network time (Attributes, &create_expire and its kin).
pub fn bodies_go_onward()
    ensures handlers { HandlersGo }
    ensures initials { InitialsGo }
    ensures expiries { ExpiriesGo }
{}

/// The list of a run's dispatches has all of them, in their order: each is of the first event in the queue, or of
/// the next turn where the queue is empty, and with the items and the end between them they make up all that
/// happens from where the run begins to its last world.
pub fn trace_is_whole()
    ensures { TraceIsWhole }
{}

/// Each event that a run schedules is dispatched once or waits still, and where the run comes to its end none
/// waits: what is scheduled once the end has begun is dropped.
pub fn dispatched_once()
    ensures { DispatchedOnce }
{}

/// A program of which no statement gives a global whose entries expire another value keeps their tables, over
/// each dispatch and each turn of an entry.
pub fn sparing_tables_stay()
    ensures { SparingTablesStay }
{}

/// Network time never falls from one dispatch to a later one, and of two turns the one that is due earlier
/// comes first, whatever expires and whatever its functions ask: in programs of which no body gives a global
/// whose entries expire another value, which is what the rules want of scripts.
pub fn time_rises()
    ensures { TimeRises }
{}
