ghost use Rattle.std.specs.Prelude.{◌≡◌, ◌||◌, List, ℕ, [], ◌∷◌, IfOk};
ghost use Rattle.std.specs.HashSet.{contains};
ghost use Rattle.std.specs.Str.{bytes_eq};
ghost use Rattle.zk_typed.specs.Declarations.{is_one_of};

use indexmap::IndexSet;
use std::alloc::Global;
use zk_base::Mem;
use zk_scope::Whole;

/// Names that were met.
#[derive(Drop)]
pub struct Seen {
    names: IndexSet<Whole>,
}

impl Seen {
    ghost use Rattle.zk_check_declarations.specs.Seeing.{Sees};

    /// No names.
    pub fn new(alloc: Global) -> Seen
        ensures { Sees result [] }
    {
        Seen {
            names: IndexSet::new(alloc),
        }
    }

    /// Whether a name was met.
    pub fn has(&self, alloc: Global, name: &[u8]) -> Result<bool, Mem>
        ensures { IfOk result (λ was. (before : List (List ℕ)) → Sees self.now before → was ≡ is_one_of before name.now) }
    {
        let name = Whole::copy_of(alloc, name)?;
        Ok(self.names.contains(&name))
    }

    /// Meets a name, and says whether it was met before.
    pub fn add(&mut self, alloc: Global, name: &[u8]) -> Result<bool, Mem>
        ensures was { IfOk result (λ was. (before : List (List ℕ)) → Sees self.old before → was ≡ is_one_of before name.now) }
        ensures any { IfOk result (λ was. was ≡ contains bytes_eq self.old.names name.now) }
        ensures added { IfOk result (λ was. (other : List ℕ) → contains bytes_eq self.new.names other ≡ contains bytes_eq self.old.names other || bytes_eq name.now other) }
        ensures met { IfOk result (λ was. (before : List (List ℕ)) → Sees self.old before → Sees self.new (name.now ∷ before)) }
    {
        let name = Whole::copy_of(alloc, name)?;
        let added = self.names.insert(name)?;
        Ok(!added)
    }
}
