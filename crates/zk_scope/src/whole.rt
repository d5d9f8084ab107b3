ghost use Rattle.std.specs.Prelude.{◌≡◌, IfOk};

use std::alloc::Global;
use std::hash::{Hash, Hasher};
use std::marker::Model;
use zk_base::Mem;

/// A whole name, by which names are found. Contracts see its bytes.
#[derive(Debug, Drop)]
pub struct Whole {
    bytes: Vec<u8>,
}

impl Model for Whole {
    ghost use Rattle.std.specs.Prelude.{List, ℕ};

    ghost Value = { List ℕ };

    ghost view = { λ whole. whole.bytes.items };
}

impl Whole {
    /// Of these bytes. None is copied.
    pub fn of(bytes: Vec<u8>) -> Whole
        ensures { result ≡ bytes.items }
    {
        Whole { bytes }
    }

    /// Of a copy of these bytes.
    pub fn copy_of(alloc: Global, bytes: &[u8]) -> Result<Whole, Mem>
        ensures { IfOk result (λ whole. whole ≡ bytes.now) }
    {
        Ok(Whole {
            bytes: Vec::from_slice(alloc, bytes)?,
        })
    }

    /// The bytes, lent.
    pub fn as_slice(&self) -> &[u8]
        ensures { result.now ≡ self.now }
    {
        &self.bytes
    }

    /// The vector that holds the bytes. No memory is taken.
    pub fn into_vec(self) -> Vec<u8>
        ensures { result.items ≡ self }
    {
        let Whole { bytes } = self;
        bytes
    }
}

impl PartialEq for Whole {
    ghost use Rattle.std.specs.Cmp.{partial_equiv_from_equiv};
    ghost use Rattle.std.specs.Cmp.Lexicographic.{nat_list_eq_equiv};
    ghost use Rattle.std.specs.Str.{bytes_eq};

    ghost eq = { bytes_eq };

    ghost laws = { partial_equiv_from_equiv nat_list_eq_equiv };

    fn eq(&self, other: &Whole) -> bool {
        self.as_slice() == other.as_slice()
    }
}

impl Eq for Whole {
    ghost use Rattle.std.specs.Cmp.Lexicographic.{nat_list_eq_equiv};

    ghost laws = { nat_list_eq_equiv };
}

impl Hash for Whole {
    ghost use Rattle.std.specs.Hash.{slice, u8 as byte};
    ghost use Rattle.std.proofs.Common.{ap};
    ghost use Rattle.zk_scope.specs.Same.{same_bytes};

    ghost hash_input = { slice byte };

    ghost respects_eq = { λ a b h. ap (slice byte) (same_bytes a b h) };

    fn hash<H: Hasher>(&self, state: &mut H) {
        self.as_slice().hash(state);
    }
}
