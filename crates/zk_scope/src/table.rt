ghost use Rattle.std.specs.Prelude.{◌≡◌, [], ◌∷◌, ◌++◌, OnOk, OnErr, IfOk};
ghost use Rattle.std.specs.List.{list_any};
ghost use Rattle.std.specs.Option.{option_map};
ghost use Rattle.std.specs.Str.{bytes_eq};
ghost use Rattle.zk_typed.specs.Names.{find_whole, look_up};
ghost use Rattle.zk_scope.specs.Lent.{declared_lent, declared_of};
ghost use Rattle.zk_scope.specs.Grouping.{first_or_end};
ghost use Rattle.zk_scope.specs.Indexing.{Indexes};
ghost use Rattle.zk_scope.specs.Leading.{place_up, place_whole};

use crate::declared::Declared;
use crate::index::Index;
use crate::name::{is_open, whole_name};
use crate::whole::Whole;
use sqlite_items::at;
use std::alloc::Global;
use zk_base::Mem;

/// Names that are declared, found by a map.
#[derive(Drop)]
pub struct Table<'a> {
    pub names: Vec<Declared<'a>>,
    index: Index,
    ghost indexed: { Indexes index (declared_lent names.items) },
}

impl<'a> Table<'a> {
    /// No names.
    pub fn new(alloc: Global) -> Table<'a>
        ensures { declared_lent result.names.items ≡ [] }
    {
        Table {
            names: Vec::new(alloc),
            index: Index::new(alloc),
        }
    }

    /// Adds a name at the end. At `Mem` the names are the same.
    pub fn add(&mut self, alloc: Global, one: Declared<'a>) -> Result<(), Mem>
        ensures ok { OnOk result (declared_lent self.new.names.items ≡ declared_lent self.old.names.items ++ declared_of one.entry ∷ []) }
        ensures err { OnErr result (declared_lent self.new.names.items ≡ declared_lent self.old.names.items) }
    {
        let Ok(name) = Whole::copy_of(alloc, &one.name) else {
            drop(one);
            return Err(Mem);
        };
        let Ok(()) = self.names.reserve(1) else {
            drop(one);
            return Err(Mem);
        };
        let Ok(()) = self.index.add(name, one.exported, self.names.len()) else {
            drop(one);
            return Err(Mem);
        };
        let Ok(()) = self.names.push(one) else {
            unreachable!()
        };
        Ok(())
    }

    /// What a whole name means, as it is seen from a module.
    pub fn find_whole(&self, from_module: &[u8], whole: &Whole) -> Option<&Declared<'a>>
        ensures { option_map (λ one. declared_of one.now) result ≡ find_whole (declared_lent self.now.names.items) from_module.now whole.now }
    {
        let place = self
            .index
            .find(whole, is_open(from_module, whole.as_slice()))?;
        at(&self.names, place)
    }

    /// What a name means in a module: one of the module, or else one of none.
    pub fn look_up(
        &self,
        alloc: Global,
        from_module: &[u8],
        name: &[u8],
    ) -> Result<Option<&Declared<'a>>, Mem>
        ensures { IfOk result (λ found. option_map (λ one. declared_of one.now) found ≡ look_up (declared_lent self.now.names.items) from_module.now name.now) }
    {
        let whole = whole_name(alloc, from_module, name)?;
        match self.find_whole(from_module, &whole) {
            Some(one) => Ok(Some(one)),
            None => {
                let whole = Whole::copy_of(alloc, name)?;
                Ok(self.find_whole(from_module, &whole))
            }
        }
    }

    /// Where the name stands that a whole name means, as it is seen from a module.
    fn place_of_whole(&self, from_module: &[u8], whole: &Whole) -> Option<usize>
        ensures { result ≡ place_whole (declared_lent self.now.names.items) from_module.now whole.now }
    {
        let anywhere = is_open(from_module, whole.as_slice());
        self.index.find(whole, anywhere)
    }

    /// Where the name stands that a name means in a module.
    pub fn place_of(
        &self,
        alloc: Global,
        from_module: &[u8],
        name: &[u8],
    ) -> Result<Option<usize>, Mem>
        ensures { IfOk result (λ place. place ≡ place_up (declared_lent self.now.names.items) from_module.now name.now) }
    {
        let own = whole_name(alloc, from_module, name)?;
        match self.place_of_whole(from_module, &own) {
            Some(place) => Ok(Some(place)),
            None => {
                let whole = Whole::copy_of(alloc, name)?;
                Ok(self.place_of_whole(from_module, &whole))
            }
        }
    }

    /// Where a whole name stands first, or how many names there are.
    pub fn first_named(&self, whole: &Whole) -> usize
        ensures { result ≡ first_or_end (declared_lent self.now.names.items) whole.now }
    {
        match self.index.find(whole, true) {
            Some(place) => place,
            None => self.names.len(),
        }
    }

    /// Whether a whole name is there.
    pub fn has(&self, whole: &Whole) -> bool
        ensures { result ≡ list_any (λ one. bytes_eq one.name whole.now) (declared_lent self.now.names.items) }
    {
        let place = self.index.find(whole, true);
        place.is_some()
    }
}
