ghost use Rattle.std.specs.Prelude.{◌≡◌, ◌==◌, [], ◌++◌, length, IfOk, OnOk, OnErr};

use crate::Mem;
use std::alloc::Global;
use std::marker::Model;

/// A run of bytes that owns its memory. Contracts see it as a list.
#[derive(Debug, Drop)]
pub struct Bytes {
    vec: Vec<u8>,
}

impl Model for Bytes {
    ghost use Rattle.std.specs.Prelude.{List, ℕ};

    ghost Value = { List ℕ };

    ghost view = { λ b. b.vec.items };
}

impl Bytes {
    /// No bytes. No memory is taken.
    pub fn new(alloc: Global) -> Bytes
        ensures { result ≡ [] }
    {
        Bytes {
            vec: Vec::new(alloc),
        }
    }

    /// A copy of a slice.
    pub fn copy_of(alloc: Global, bytes: &[u8]) -> Result<Bytes, Mem>
        ensures { IfOk result (λ copy. copy ≡ bytes.now) }
    {
        Ok(Bytes {
            vec: Vec::from_slice(alloc, bytes)?,
        })
    }

    /// The bytes, lent.
    pub fn as_slice(&self) -> &[u8]
        ensures { result.now ≡ self.now }
    {
        &self.vec
    }

    /// The number of bytes.
    pub fn len(&self) -> usize
        ensures { result ≡ length self.now }
    {
        self.vec.len()
    }

    /// Whether there are no bytes.
    pub fn is_empty(&self) -> bool
        ensures { result ≡ (length self.now == 0) }
    {
        self.vec.is_empty()
    }

    /// Adds a slice at the end. At `Mem` nothing is changed.
    pub fn append(&mut self, bytes: &[u8]) -> Result<(), Mem>
        ensures ok { OnOk result (self.new ≡ self.old ++ bytes.now) }
        ensures err { OnErr result (self.new ≡ self.old) }
    {
        self.vec.extend_from_slice(bytes)?;
        Ok(())
    }

    /// Takes all bytes away.
    pub fn clear(&mut self)
        ensures { self.new ≡ [] }
    {
        self.vec.clear();
    }

    /// The vector that holds the bytes. No memory is taken.
    pub fn into_vec(self) -> Vec<u8>
        ensures { result.items ≡ self }
    {
        let Bytes { vec } = self;
        vec
    }
}

impl PartialEq for Bytes {
    ghost use Rattle.std.specs.Cmp.{partial_equiv_from_equiv};
    ghost use Rattle.std.specs.Cmp.Lexicographic.{nat_list_eq_equiv};
    ghost use Rattle.std.specs.Str.{bytes_eq};

    ghost eq = { bytes_eq };

    ghost laws = { partial_equiv_from_equiv nat_list_eq_equiv };

    fn eq(&self, other: &Bytes) -> bool {
        self.as_slice() == other.as_slice()
    }
}

impl Eq for Bytes {
    ghost use Rattle.std.specs.Cmp.Lexicographic.{nat_list_eq_equiv};

    ghost laws = { nat_list_eq_equiv };
}

/// The bytes of a vector. No memory is taken.
impl From<Vec<u8>> for Bytes {
    ghost from_gives = { λ vec bytes. bytes ≡ vec.items };

    fn from(vec: Vec<u8>) -> Bytes {
        Bytes { vec }
    }
}

/// One argument of the command line, as bytes.
#[derive(Debug, Drop)]
pub struct Word {
    bytes: Bytes,
}

impl Model for Word {
    ghost use Rattle.std.specs.Prelude.{List, ℕ};

    ghost Value = { List ℕ };

    ghost view = { λ w. w.bytes };
}

impl Word {
    /// The bytes of the argument, lent.
    pub fn as_slice(&self) -> &[u8]
        ensures { result.now ≡ self.now }
    {
        self.bytes.as_slice()
    }
}

/// The argument of these bytes. No memory is taken.
impl From<Bytes> for Word {
    ghost from_gives = { λ bytes word. word ≡ bytes };

    fn from(bytes: Bytes) -> Word {
        Word { bytes }
    }
}
