ghost use Rattle.std.specs.Prelude.{◌≡◌, ◌∷◌, ◌++◌, ℕ, [], List, OnOk, OnErr, IfOk, if◌then◌else◌};
ghost use Rattle.std.specs.Str.{bytes_eq};

use indexmap::IndexMap;
use std::alloc::Global;
use zk_base::Mem;
use zk_scope::Whole;

/// Values under names, those of one name in the order in which they were added.
#[derive(Drop)]
pub struct Groups<T> {
    groups: IndexMap<Whole, Vec<T>>,
}

impl<T: Drop> Groups<T> {
    ghost use Rattle.zk_check_declarations.specs.Grouping.{group_at};

    /// No values.
    pub fn new(alloc: Global) -> Groups<T>
        ensures { (name : List ℕ) → group_at result name ≡ [] }
    {
        Groups {
            groups: IndexMap::new(alloc),
        }
    }

    /// The values under a name.
    pub fn of(&self, alloc: Global, name: &[u8]) -> Result<&[T], Mem>
        ensures { IfOk result (λ group. group.now ≡ group_at self.now name.now) }
    {
        let name = Whole::copy_of(alloc, name)?;
        match self.groups.get(&name) {
            Some(group) => Ok(group),
            None => Ok(&[]),
        }
    }

    /// Adds a value under a name. At `Mem` the values are the same.
    pub fn add(&mut self, alloc: Global, name: &[u8], one: T) -> Result<(), Mem>
        ensures ok { OnOk result ((other : List ℕ) → group_at self.new other ≡ group_at self.old other ++ (if bytes_eq name.now other then one ∷ [] else [])) }
        ensures err { OnErr result ((other : List ℕ) → group_at self.new other ≡ group_at self.old other) }
    {
        let name = Whole::copy_of(alloc, name)?;
        if let Some(group) = self.groups.get_mut(&name) {
            group.push(one)?;
            return Ok(());
        }
        let mut group = Vec::new(alloc);
        group.push(one)?;
        self.groups.insert(name, group)?;
        Ok(())
    }
}
