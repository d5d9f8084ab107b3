ghost use Rattle.std.specs.Prelude.{◌≡◌, [], ◌∷◌, ◌++◌, map, OnOk};
ghost use Rattle.zk_conn.specs.declared.facts.Facts.{Facts as FactsData};
ghost use Rattle.zk_traffic.specs.Items.{item, unit_item, what_said, when};
ghost use Rattle.zk_traffic.specs.Queue.{Knows, ending_items, gap_item, opening_items, what_of};
ghost use Rattle.zk_traffic.specs.Waiting.{items_in};
ghost use Rattle.zk_traffic.specs.declared.item.What.TheVariants as what;

use crate::item::{Item, What};
use crate::news::Gap;
use crate::table::{Done, Table};
use crate::waiting::Waiting;
use std::collections::VecDeque;
use zk_base::{ConnNo, Mem, Moment, Side};
use zk_conn::{Facts, Removed};
use zk_units::{Freed, StreamUnit};

/// What happens to a connection, where that takes no more words than a side.
#[derive(Clone, Copy, Debug, PartialEq, Eq)]
enum Event {
    Opened,
    Established,
    Ended(Side),
    GaveUp(Side),
    Reset,
}

/// What happens to a connection, as it is told.
#[inline(always)]
fn what(event: Event, conn: ConnNo, facts: Facts) -> What
    ensures { result ≡ what_of event conn facts }
{
    match event {
        Event::Opened => What::Opened { conn, facts },
        Event::Established => What::Established { conn, facts },
        Event::Ended(side) => What::Ended { conn, facts, side },
        Event::GaveUp(side) => What::GaveUp { conn, facts, side },
        Event::Reset => What::Reset { conn, facts },
    }
}

/// Adds an item.
#[inline(always)]
pub fn give(items: &mut Waiting, moment: Moment, what: What) -> Result<(), Mem>
    ensures { OnOk result (items_in items.new ≡ items_in items.old ++ item moment what ∷ []) }
{
    items.push(Item { moment, what })
}

/// Adds that a connection was removed.
pub fn give_removed(items: &mut Waiting, removed: Removed) -> Result<(), Mem>
    ensures { OnOk result (items_in items.new ≡ items_in items.old ++ item removed.at (what.Removed removed.conn removed.facts) ∷ []) }
{
    let Removed { conn, at, facts } = removed;
    give(items, at, What::Removed { conn, facts })
}

/// Adds an item of a live connection, with what is known of it.
#[inline(never)]
fn give_event(
    items: &mut Waiting,
    table: &Table,
    t: Moment,
    conn: ConnNo,
    event: Event,
) -> Result<(), Mem>
    ensures { OnOk result ((known : FactsData) → Knows table.now conn known → items_in items.new ≡ items_in items.old ++ item t (what_of event conn known) ∷ []) }
{
    match table.facts(conn) {
        Some(facts) => give(items, t, what(event, conn, facts)),
        None => Ok(()),
    }
}

/// Adds an item of a live connection where it happens.
#[inline(always)]
fn give_if(
    items: &mut Waiting,
    table: &Table,
    happens: bool,
    t: Moment,
    conn: ConnNo,
    event: Event,
) -> Result<(), Mem>
    ensures { OnOk result ((known : FactsData) → Knows table.now conn known → items_in items.new ≡ items_in items.old ++ when happens (item t (what_of event conn known))) }
{
    if happens {
        give_event(items, table, t, conn, event)?;
    }
    Ok(())
}

/// Adds the items of a segment ahead of the gaps.
#[inline(always)]
pub fn give_opening(items: &mut Waiting, table: &Table, t: Moment, done: Done) -> Result<(), Mem>
    ensures { OnOk result ((known : FactsData) → Knows table.now done.conn known → items_in items.new ≡ items_in items.old ++ opening_items t done known) }
{
    give_if(items, table, done.opened, t, done.conn, Event::Opened)?;
    give_if(
        items,
        table,
        done.established,
        t,
        done.conn,
        Event::Established,
    )
}

/// Adds a gap of a live connection, with what is known of it.
#[inline(never)]
fn give_gap(
    items: &mut Waiting,
    table: &Table,
    t: Moment,
    conn: ConnNo,
    gap: Gap,
) -> Result<(), Mem>
    ensures { OnOk result ((known : FactsData) → Knows table.now conn known → items_in items.new ≡ items_in items.old ++ gap_item t conn known gap ∷ []) }
{
    let Gap { side, from, length } = gap;
    match table.facts(conn) {
        Some(facts) => give(
            items,
            t,
            What::Gap {
                conn,
                facts,
                side,
                from,
                length,
            },
        ),
        None => Ok(()),
    }
}

/// Adds the gaps.
pub fn give_gaps(
    items: &mut Waiting,
    table: &Table,
    t: Moment,
    conn: ConnNo,
    gaps: &[Gap],
) -> Result<(), Mem>
    ensures { OnOk result ((known : FactsData) → Knows table.now conn known → items_in items.new ≡ items_in items.old ++ map (gap_item t conn known) gaps.now) }
{
    for gap in gaps {
        give_gap(items, table, t, conn, *gap)?;
    }
    Ok(())
}

/// A unit of a connection, as it is told.
#[inline(always)]
fn what_freed(conn: ConnNo, facts: Facts, freed: Freed) -> What
    ensures { result ≡ what_said conn facts freed.side freed.unit }
{
    let side = freed.side;
    match freed.unit {
        StreamUnit::Http(unit) => What::Http {
            conn,
            facts,
            side,
            unit,
        },
        StreamUnit::Dns { len, message } => What::Dns {
            conn,
            facts,
            side,
            len,
            message,
        },
        StreamUnit::DnsBad { fault, len } => What::DnsBad {
            conn,
            facts,
            side,
            fault,
            len,
        },
    }
}

/// Adds a unit of a live connection, with what is known of it.
#[inline(never)]
fn give_unit(
    items: &mut Waiting,
    table: &Table,
    t: Moment,
    conn: ConnNo,
    freed: Freed,
) -> Result<(), Mem>
    ensures { OnOk result ((known : FactsData) → Knows table.now conn known → items_in items.new ≡ items_in items.old ++ unit_item t conn known freed ∷ []) }
{
    match table.facts(conn) {
        Some(facts) => give(items, t, what_freed(conn, facts, freed)),
        None => Ok(()),
    }
}

/// Adds the units. None are left.
pub fn give_units(
    items: &mut Waiting,
    table: &Table,
    t: Moment,
    conn: ConnNo,
    units: &mut VecDeque<Freed>,
) -> Result<(), Mem>
    ensures { OnOk result ((known : FactsData) → Knows table.now conn known → items_in items.new ≡ items_in items.old ++ map (unit_item t conn known) units.old.items) }
{
    while let Some(freed) = units.pop_front() {
        give_unit(items, table, t, conn, freed)?;
    }
    Ok(())
}

/// Adds the items of a segment behind the units.
#[inline(always)]
pub fn give_endings(items: &mut Waiting, table: &Table, t: Moment, done: Done) -> Result<(), Mem>
    ensures { OnOk result ((known : FactsData) → Knows table.now done.conn known → items_in items.new ≡ items_in items.old ++ ending_items t done known) }
{
    let conn = done.conn;
    give_if(
        items,
        table,
        done.sender_ended,
        t,
        conn,
        Event::Ended(done.side),
    )?;
    let receiver = Event::Ended(done.side.other());
    give_if(items, table, done.receiver_ended, t, conn, receiver)?;
    give_if(
        items,
        table,
        done.gave_up,
        t,
        conn,
        Event::GaveUp(done.side),
    )?;
    give_if(items, table, done.reset, t, conn, Event::Reset)
}
