ghost use Rattle.std.specs.Prelude.{◌≡◌, [], ◌∷◌, ◌++◌, Some, None, OnOk};
ghost use Rattle.zk_traffic.specs.Waiting.{items_in, seen_item};
ghost use Rattle.zk_traffic.specs.declared.item.Item.{Item as ItemData};

use crate::item::{Item, What};
use std::alloc::Global;
use std::collections::VecDeque;
use zk_base::{Mem, Moment};

/// A packet that was captured: its own moment, and its captured and original length.
#[derive(Clone, Copy, Debug, PartialEq, Eq)]
pub struct Seen {
    pub moment: Moment,
    pub own: Moment,
    pub caplen: u32,
    pub len: u32,
}

impl Seen {
    /// The item that says so.
    fn item(self) -> Item
        ensures { result ≡ seen_item self }
    {
        let Seen {
            moment,
            own,
            caplen,
            len,
        } = self;
        Item {
            moment,
            what: What::Seen { own, caplen, len },
        }
    }
}

/// The items that were not given yet. That a packet was captured lies apart, in few words, where no
/// item stands before it: most packets bring nothing else, and an item is large.
#[derive(Debug, Drop)]
pub struct Waiting {
    seen: Option<Seen>,
    items: VecDeque<Item>,
}

#[tactic(auto, unfolding(crate::specs::Waiting::items_in))]
impl Waiting {
    /// No items. No memory is taken.
    pub fn new(alloc: Global) -> Waiting
        ensures { items_in result ≡ [] }
    {
        Waiting {
            seen: None,
            items: VecDeque::new(alloc),
        }
    }

    /// Adds an item.
    #[inline(always)]
    pub fn push(&mut self, item: Item) -> Result<(), Mem>
        ensures { OnOk result (items_in self.new ≡ items_in self.old ++ item ∷ []) }
    {
        self.items.push_back(item)?;
        Ok(())
    }

    /// Adds that a packet was captured.
    pub fn push_seen(&mut self, seen: Seen) -> Result<(), Mem>
        ensures { OnOk result (items_in self.new ≡ items_in self.old ++ seen_item seen ∷ []) }
    {
        if self.seen.is_some() || !self.items.is_empty() {
            return self.push(seen.item());
        }
        self.seen = Some(seen);
        Ok(())
    }

    /// The first item.
    pub fn pop(&mut self) -> Option<Item>
        ensures some { (item : ItemData) → result ≡ Some item → items_in self.old ≡ item ∷ items_in self.new }
        ensures none { result ≡ None → (items_in self.old ≡ []) × (items_in self.new ≡ []) }
    {
        match self.seen.take() {
            Some(seen) => Some(seen.item()),
            None => self.items.pop_front(),
        }
    }
}
