ghost use Rattle.std.specs.Option.{option_map};
ghost use Rattle.std.specs.Prelude.{◌≡◌, ◌≤◌, ◌≤ℤ◌, ◌^◌, ◌∷◌, ◌++◌, ℕ, pos, [], List, Option, None, Some, length, map, OnOk};
ghost use Rattle.zk_base.specs.declared.time.Moment.{Moment};
ghost use Rattle.zk_traffic.specs.Instances.{in_order, live_at, over_between};
ghost use Rattle.zk_traffic.specs.Items.{item, removed, removed_at, segment_fresh, segment_items, when};
ghost use Rattle.zk_traffic.specs.News.{runs_of};
ghost use Rattle.zk_traffic.specs.Segments.{Segment as SegmentData};
ghost use Rattle.zk_traffic.specs.Table.{IsCurrent};
ghost use Rattle.zk_traffic.specs.Taken.{segment_of};
ghost use Rattle.zk_traffic.specs.Taking.{TakesSome};
ghost use Rattle.zk_traffic.specs.Waiting.{items_in};
ghost use Rattle.zk_traffic.specs.declared.item.Item.{Item as ItemData};
ghost use Rattle.zk_traffic.specs.declared.item.What.TheVariants as what;

use crate::item::Item;
use crate::news::News;
use crate::queue::{give_endings, give_gaps, give_opening, give_removed, give_units};
use crate::segment::Segment;
use crate::table::Table;
use crate::waiting::{Seen, Waiting};
use std::alloc::Global;
use zk_base::{Mem, Moment, PacketView};

/// The connections of a capture, and the items that were not given yet.
#[derive(Debug, Drop)]
pub struct Connections {
    table: Table,
    news: News,
    items: Waiting,
}

impl Connections {
    /// No connections and no items. No memory is taken.
    pub fn new(alloc: Global, limit: u64) -> Connections
        ensures table { (t : Moment) → IsCurrent result.table limit [] t }
        ensures items { items_in result.items ≡ [] }
        ensures news { runs_of result.news ≡ [] }
    {
        Connections {
            table: Table::new(alloc, limit),
            news: News::new(alloc),
            items: Waiting::new(alloc),
        }
    }

    /// How many bytes all streams hold, with those that wait to be read.
    pub fn kept(&self) -> u64
        ensures { result ≡ self.now.table.streams.kept }
    {
        self.table.kept()
    }

    /// What the last packet brought.
    pub fn news(&self) -> &News
        ensures { result.now ≡ self.now.news }
    {
        &self.news
    }

    /// The next item.
    pub fn next(&mut self) -> Option<Item>
        ensures some { (item : ItemData) → result ≡ Some item → items_in self.old.items ≡ item ∷ items_in self.new.items }
        ensures none { result ≡ None → (items_in self.old.items ≡ []) × (items_in self.new.items ≡ []) }
        ensures table { self.new.table ≡ self.old.table }
        ensures news { self.new.news ≡ self.old.news }
    {
        self.items.pop()
    }

    /// Begins with another packet.
    pub fn begin(&mut self)
        ensures runs { runs_of self.new.news ≡ [] }
        ensures gaps { self.new.news.gaps.items ≡ [] }
        ensures units { self.new.news.units.items ≡ [] }
        ensures table { self.new.table ≡ self.old.table }
        ensures items { self.new.items ≡ self.old.items }
    {
        self.news.clear();
    }

    /// Removes what is due by a moment.
    pub fn remove_due(&mut self, t: Moment) -> Result<(), Mem>
        ensures removed { OnOk result ((limit : ℕ) (segments : List SegmentData) (before : Moment) → IsCurrent self.old.table limit segments before → before.0 ≤ℤ t.0
            → IsCurrent self.new.table limit segments t
            × (items_in self.new.items ≡ items_in self.old.items ++ map removed (in_order (over_between limit segments before t)))) }
        ensures news { self.new.news ≡ self.old.news }
    {
        for _ in 0..u64::MAX {
            match self.table.remove_due(t) {
                Some(removed) => give_removed(&mut self.items, removed)?,
                None => return Ok(()),
            }
        }
        Err(Mem)
    }

    /// Removes all that is live, at the end of the capture.
    pub fn end(&mut self, last: Moment) -> Result<(), Mem>
        ensures removed { OnOk result ((limit : ℕ) (segments : List SegmentData) → IsCurrent self.old.table limit segments last
            → (self.new.table.streams.kept ≡ 0)
            × (items_in self.new.items ≡ items_in self.old.items ++ map (removed_at last) (live_at limit segments last))) }
        ensures news { self.new.news ≡ self.old.news }
    {
        for _ in 0..u64::MAX {
            match self.table.end(last) {
                Some(removed) => give_removed(&mut self.items, removed)?,
                None => return Ok(()),
            }
        }
        Err(Mem)
    }

    /// Takes a segment, at a moment at which no connection is due.
    pub fn take(&mut self, t: Moment, segment: &Segment<'_>) -> Result<(), Mem>
        requires early { pos 0 ≤ℤ t.0 }
        requires late { t.0 ≤ℤ pos (2 ^ 62) }
        ensures { OnOk result ((limit : ℕ) (segments : List SegmentData) → IsCurrent self.old.table limit segments t → runs_of self.old.news ≡ [] → self.old.news.gaps.items ≡ [] → self.old.news.units.items ≡ []
            → IsCurrent self.new.table limit (segments ++ segment_of t segment.now ∷ []) t
            × (items_in self.new.items ≡ items_in self.old.items ++ segment_items limit segments (segment_of t segment.now))
            × (runs_of self.new.news ≡ segment_fresh limit segments (segment_of t segment.now))) }
    {
        let done = self.table.take(t, segment, &mut self.news)?;
        give_opening(&mut self.items, &self.table, t, done)?;
        let conn = done.conn;
        give_gaps(&mut self.items, &self.table, t, conn, &self.news.gaps)?;
        give_units(&mut self.items, &self.table, t, conn, &mut self.news.units)?;
        give_endings(&mut self.items, &self.table, t, done)
    }

    /// Takes a segment, where there is one.
    pub fn take_some(&mut self, t: Moment, segment: &Option<Segment<'_>>) -> Result<(), Mem>
        requires early { pos 0 ≤ℤ t.0 }
        requires late { t.0 ≤ℤ pos (2 ^ 62) }
        ensures { OnOk result ((limit : ℕ) (segments : List SegmentData) → IsCurrent self.old.table limit segments t → runs_of self.old.news ≡ [] → self.old.news.gaps.items ≡ [] → self.old.news.units.items ≡ []
            → TakesSome limit segments (option_map (segment_of t) segment.now) t self.old self.new) }
    {
        match segment {
            Some(segment) => self.take(t, segment),
            None => Ok(()),
        }
    }

    /// Adds that a packet was captured, where that is wanted.
    pub fn give_seen(&mut self, wanted: bool, t: Moment, p: &PacketView<'_>) -> Result<(), Mem>
        requires captured { length p.now.bytes.now ≤ 262144 }
        ensures items { OnOk result (items_in self.new.items ≡ items_in self.old.items ++ when wanted (item t (what.Seen p.now.moment (length p.now.bytes.now) p.now.orig_len))) }
        ensures table { self.new.table ≡ self.old.table }
        ensures news { self.new.news ≡ self.old.news }
    {
        if !wanted {
            return Ok(());
        }
        self.items.push_seen(Seen {
            moment: t,
            own: p.moment,
            caplen: p.bytes.len() as u32,
            len: p.orig_len,
        })
    }
}
