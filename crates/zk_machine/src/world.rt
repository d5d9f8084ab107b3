ghost use Rattle.std.specs.Prelude.{◌≡◌, ◌++◌, ◌∷◌, [], ℕ, List, Option, length, not, slice_set, true, IfOk, OnOk};
ghost use Rattle.zk_tree.specs.Store as object;
ghost use Rattle.zk_tree.specs.Value.{Value as Plain};
ghost use Rattle.zk_typed.specs.State.{first_world, with_store};
ghost use Rattle.zk_value.specs.Plain.{field_of};
ghost use Rattle.zk_machine.specs.Owners.{NamesNothing, all_up_to, all_watched, is_up_to};

use crate::globals::{Globals, object_in};
use crate::queued::Queued;
use crate::schedule::Schedule;
use crate::table_defaults::TableDefaults;
use std::alloc::Global;
use std::collections::VecDeque;
use zk_base::{Mem, Moment, ObjectNo};
use zk_streams::Streams;
use zk_table::{Heap, Table};
use zk_value::{Out, Value};

/// The world that scripts run in. Lines and rows are those that were not yet given out.
///
/// The heap watches each table that a global names. One that is made is unwatched until then, so that a table
/// which no global is ever given stands before no other that is due.
#[derive(Debug, Drop)]
pub struct World {
    pub alloc: Global,
    /// Network time.
    pub time: Moment,
    /// Whether the end has begun: then nothing expires, and nothing more is scheduled.
    pub is_ending: bool,
    /// The objects by their numbers.
    pub heap: Heap,
    /// The tables that have a `&default`.
    pub defaults: TableDefaults,
    /// The values of globals and constants by their numbers, each where it has one.
    pub globals: Globals,
    /// The greatest number of an object that a global was given, if one was.
    pub last_named: Option<ObjectNo>,
    /// The events that wait to be dispatched, first in, first out.
    pub queue: VecDeque<Queued>,
    /// The events that wait for their moments.
    pub schedule: Schedule,
    /// The log streams with their filters.
    pub streams: Streams,
    /// The printed lines and the rows that were not yet given out.
    pub out: VecDeque<Out>,
    ghost watched: { all_watched globals heap.unwatched ≡ true },
    ghost up_to: { all_up_to globals last_named ≡ true },
}

/// The greater one of the number of an object and of the last that was named.
fn later(last: Option<ObjectNo>, object: ObjectNo) -> Option<ObjectNo>
    ensures own { is_up_to result object.0 ≡ true }
    ensures kept { (number : ℕ) → is_up_to last number ≡ true → is_up_to result number ≡ true }
{
    match last {
        Some(one) => { if one.0 < object.0 { Some(object) } else { last } }
        None => Some(object),
    }
}

/// Whether a number is above that of the last object that was named.
fn is_above(last: Option<ObjectNo>, number: usize) -> bool
    ensures { result ≡ not (is_up_to last number) }
{
    match last {
        Some(one) => one.0 < number as u64,
        None => true,
    }
}

/// Watches what a global is to name.
fn watch_value(heap: &mut Heap, last: &mut Option<ObjectNo>, value: &Option<Value>)
    ensures objects { heap.new.objects ≡ heap.old.objects }
    ensures watched { (values : List (Option Plain)) (global : ℕ) → all_watched values heap.old.unwatched ≡ true
        → all_watched (slice_set values global (field_of value.now)) heap.new.unwatched ≡ true }
    ensures up_to { (values : List (Option Plain)) (global : ℕ) → all_up_to values last.old ≡ true
        → all_up_to (slice_set values global (field_of value.now)) last.new ≡ true }
{
    let Some(object) = object_in(value) else {
        return;
    };
    heap.watch(object);
    *last = later(*last, object);
}

/// Makes an object of a set or a table, which is watched where a number as high as its own was named before.
fn add_new(heap: &mut Heap, last: Option<ObjectNo>, table: Table) -> Result<ObjectNo, Mem>
    ensures number { IfOk result (λ number. number.0 ≡ length heap.old.objects) }
    ensures ok { OnOk result (heap.new.objects ≡ heap.old.objects ++ object.Table table ∷ []) }
    ensures watched { (values : List (Option Plain)) → all_up_to values last ≡ true → all_watched values heap.old.unwatched ≡ true → all_watched values heap.new.unwatched ≡ true }
{
    if is_above(last, heap.len()) {
        heap.add_unwatched(table)
    } else {
        heap.add_table(table)
    }
}

impl World {
    ghost use Rattle.zk_machine.specs.State.{world_of};

    /// The world at the beginning, with these values of globals and constants. No memory is taken.
    pub fn new(alloc: Global, globals: Globals) -> World
        requires { NamesNothing globals }
        ensures { world_of result ≡ first_world globals }
    {
        World {
            alloc,
            time: Moment(0),
            is_ending: false,
            heap: Heap::new(alloc),
            defaults: TableDefaults::new(alloc),
            globals,
            last_named: None,
            queue: VecDeque::new(alloc),
            schedule: Schedule::new(alloc),
            streams: Streams::new(alloc),
            out: VecDeque::new(alloc),
        }
    }

    /// Gives a global or a constant a value, or takes its value away. What it names is watched from then on.
    /// No memory is taken.
    pub fn set_global(&mut self, global: u32, value: Option<Value>)
        ensures { world_of self.new ≡ record (world_of self.old) { globals = slice_set (world_of self.old).globals global (field_of value) } }
    {
        watch_value(&mut self.heap, &mut self.last_named, &value);
        self.globals.set(global, value);
    }

    /// Makes an object of a set or a table. It gets the next number.
    pub fn add_table(&mut self, table: Table) -> Result<ObjectNo, Mem>
        ensures number { IfOk result (λ number. number.0 ≡ length (world_of self.old).store) }
        ensures ok { OnOk result (world_of self.new ≡ with_store ((world_of self.old).store ++ object.Table table ∷ []) (world_of self.old)) }
    {
        add_new(&mut self.heap, self.last_named, table)
    }
}
