ghost use Rattle.std.specs.Prelude.{◌≡◌, ◌&&◌, ◌||◌, ℕ, [], ◌∷◌, ◌++◌, length, List, OnOk, OnErr};
ghost use Rattle.zk_scope.specs.Indexing.{first_place};
ghost use Rattle.std.specs.Str.{bytes_eq};
ghost use Rattle.zk_typed.specs.Names.{Declared};
ghost use Rattle.zk_scope.specs.Indexing.{with_place};

use crate::whole::Whole;
use indexmap::IndexMap;
use std::alloc::Global;
use zk_base::Mem;

/// Where a name stands in a list: first, and first as an exported one.
#[derive(Clone, Copy)]
pub struct Slot {
    pub first: usize,
    pub exported: Option<usize>,
}

/// Where names stand in a list.
#[derive(Drop)]
pub struct Index {
    slots: IndexMap<Whole, Slot>,
}

/// The slot of a name once it stands in another place too.
fn with_place(slot: Option<Slot>, exported: bool, place: usize) -> Slot
    ensures { result ≡ with_place slot exported place }
{
    let shown = if exported { Some(place) } else { None };
    match slot {
        Some(slot) => Slot {
            first: slot.first,
            exported: slot.exported.or(shown),
        },
        None => Slot {
            first: place,
            exported: shown,
        },
    }
}

impl Index {
    ghost use Rattle.zk_scope.specs.Indexing.{Indexes};

    /// Of no names.
    pub fn new(alloc: Global) -> Index
        ensures { Indexes result [] }
    {
        Index {
            slots: IndexMap::new(alloc),
        }
    }

    /// Adds a name that stands at the list's end. At `Mem` nothing is changed.
    pub fn add(&mut self, name: Whole, exported: bool, place: usize) -> Result<(), Mem>
        ensures ok { OnOk result ((names : List Declared) (one : Declared) → Indexes self.old names → place ≡ length names
            → one.name ≡ name → one.exported ≡ exported → Indexes self.new (names ++ one ∷ [])) }
        ensures err { OnErr result ((names : List Declared) → Indexes self.old names → Indexes self.new names) }
    {
        let slot = with_place(self.slots.get(&name).copied(), exported, place);
        self.slots.insert(name, slot)?;
        Ok(())
    }

    /// Where a name stands first; as an exported one unless it counts `anywhere`.
    pub fn find(&self, name: &Whole, anywhere: bool) -> Option<usize>
        ensures { (names : List Declared) → Indexes self.now names → result ≡ first_place (λ one. bytes_eq one.name name.now && (one.exported || anywhere)) names }
    {
        let slot = self.slots.get(name)?;
        if anywhere {
            Some(slot.first)
        } else {
            slot.exported
        }
    }
}
