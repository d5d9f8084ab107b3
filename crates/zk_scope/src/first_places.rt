ghost use Rattle.std.specs.Prelude.{◌≡◌, [], ◌∷◌, ◌++◌, List, OnErr, OnOk};
ghost use Rattle.zk_typed.specs.Names.{count_before};

use indexmap::IndexMap;
use std::alloc::Global;
use std::hash::Hash;
use zk_base::Mem;

/// Where the first of each key stands in a list.
#[derive(Drop)]
pub struct FirstPlaces<K: Eq + Hash> {
    places: IndexMap<K, u32>,
    count: u32,
}

impl<K: Eq + Hash + Drop> FirstPlaces<K> {
    ghost use Rattle.zk_scope.specs.Numbering.{Stands};

    /// Of no keys.
    pub fn new(alloc: Global) -> FirstPlaces<K>
        ensures { Stands K.eq result [] }
    {
        FirstPlaces {
            places: IndexMap::new(alloc),
            count: 0,
        }
    }

    /// Adds a key at the list's end. At `Mem` the keys are the same.
    pub fn add(&mut self, key: K) -> Result<(), Mem>
        ensures ok { OnOk result ((keys : List K) → Stands K.eq self.old keys → Stands K.eq self.new (keys ++ key ∷ [])) }
        ensures err { OnErr result ((keys : List K) → Stands K.eq self.old keys → Stands K.eq self.new keys) }
    {
        let place = self.count;
        let count = place.checked_add(1).ok_or(Mem)?;
        if self.places.contains_key(&key) {
            self.count = count;
            return Ok(());
        }
        self.places.insert(key, place)?;
        self.count = count;
        Ok(())
    }

    /// Where a key stands first, or how many keys there are.
    pub fn number(&self, key: &K) -> u32
        ensures { (keys : List K) → Stands K.eq self.now keys → result ≡ count_before (λ other. K.eq other key.now) keys }
    {
        match self.places.get(key) {
            Some(place) => *place,
            None => self.count,
        }
    }
}
