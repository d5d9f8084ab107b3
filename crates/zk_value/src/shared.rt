ghost use Rattle.std.specs.Prelude.{◌≡◌, ◌++◌, length, IfOk};

use smallvec::SmallVec;
use std::alloc::Global;
use std::marker::Model;
use std::rc::Rc;
use zk_base::{Bytes, Mem};

/// So many bytes stand beside the count of their handles. More stand in memory of their own.
const INLINE_MAX: usize = 24;

/// Bytes that values share: a clone is another handle to the same memory, and no byte is copied.
/// Contracts see a list.
#[derive(Debug, Drop)]
pub struct SharedBytes {
    bytes: Rc<SmallVec<u8, INLINE_MAX>>,
}

impl Model for SharedBytes {
    ghost use Rattle.std.specs.Prelude.{List, ℕ};

    ghost Value = { List ℕ };

    ghost view = { λ shared. shared.bytes.value.items };
}

impl SharedBytes {
    /// A copy of a slice.
    pub fn copy_of(alloc: Global, bytes: &[u8]) -> Result<SharedBytes, Mem>
        ensures { IfOk result (λ copy. copy ≡ bytes.now) }
    {
        Ok(SharedBytes {
            bytes: Rc::new(alloc, SmallVec::from_slice(alloc, bytes)?)?,
        })
    }

    /// Two slices, one behind the other.
    pub fn joined(alloc: Global, a: &[u8], b: &[u8]) -> Result<SharedBytes, Mem>
        ensures { IfOk result (λ joined. joined ≡ a.now ++ b.now) }
    {
        let mut bytes = SmallVec::with_capacity(alloc, a.len().saturating_add(b.len()))?;
        bytes.extend_from_slice(a)?;
        bytes.extend_from_slice(b)?;
        Ok(SharedBytes {
            bytes: Rc::new(alloc, bytes)?,
        })
    }

    /// The bytes of a value that owned them.
    pub fn of(bytes: Bytes) -> Result<SharedBytes, Mem>
        ensures { IfOk result (λ shared. shared ≡ bytes) }
    {
        let mut bytes = SmallVec::from_vec(bytes.into_vec());
        bytes.shrink_to_fit();
        let alloc = *bytes.allocator();
        Ok(SharedBytes {
            bytes: Rc::new(alloc, bytes)?,
        })
    }

    /// The bytes, lent.
    pub fn as_slice(&self) -> &[u8]
        ensures { result.now ≡ self.now }
    {
        self.bytes.as_ref().as_slice()
    }

    /// The number of bytes.
    pub fn len(&self) -> usize
        ensures { result ≡ length self.now }
    {
        self.bytes.as_ref().len()
    }
}

/// Another handle to the same bytes.
impl Clone for SharedBytes {
    ghost is_clone = { λ bytes copy. copy ≡ bytes };

    fn clone(&self) -> Result<SharedBytes, std::alloc::AllocError> {
        let bytes = self.bytes.clone()?;
        Ok(SharedBytes { bytes })
    }
}

impl PartialEq for SharedBytes {
    ghost use Rattle.std.specs.Cmp.{partial_equiv_from_equiv};
    ghost use Rattle.std.specs.Cmp.Lexicographic.{nat_list_eq_equiv};
    ghost use Rattle.std.specs.Str.{bytes_eq};

    ghost eq = { bytes_eq };

    ghost laws = { partial_equiv_from_equiv nat_list_eq_equiv };

    fn eq(&self, other: &SharedBytes) -> bool {
        self.as_slice() == other.as_slice()
    }
}

impl Eq for SharedBytes {
    ghost use Rattle.std.specs.Cmp.Lexicographic.{nat_list_eq_equiv};

    ghost laws = { nat_list_eq_equiv };
}
