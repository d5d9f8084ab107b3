ghost use Rattle.std.specs.Prelude.{◌≡◌, IfOk};

use std::alloc::{AllocError, Global};
use std::hash::{Hash, Hasher};
use std::marker::Model;
use std::rc::Rc;
use zk_base::{Addr, Mem};

/// An address that values share: a clone is another handle to the same memory. A value holds a handle, so
/// that it takes no more room than its other kinds. Contracts see the address.
#[derive(Debug, Drop)]
pub struct SharedAddr {
    address: Rc<Addr>,
}

impl Model for SharedAddr {
    ghost use Rattle.zk_base.specs.declared.network.Addr.{Addr as Address};

    ghost Value = { Address };

    ghost view = { λ shared. shared.address.value };
}

impl SharedAddr {
    /// A handle to an address.
    pub fn of(alloc: Global, address: Addr) -> Result<SharedAddr, Mem>
        ensures { IfOk result (λ shared. shared ≡ address) }
    {
        Ok(SharedAddr {
            address: Rc::new(alloc, address)?,
        })
    }

    /// The address.
    pub fn get(&self) -> Addr
        ensures { result ≡ self.now }
    {
        *self.address.as_ref()
    }
}

/// Another handle to the same address.
impl Clone for SharedAddr {
    ghost is_clone = { λ address copy. copy ≡ address };

    fn clone(&self) -> Result<SharedAddr, AllocError> {
        let address = self.address.clone()?;
        Ok(SharedAddr { address })
    }
}

impl PartialEq for SharedAddr {
    ghost use Rattle.zk_base.specs.contracts.network.AddrPartialEq.TheImpl as address_eq;
    ghost use Rattle.zk_base.specs.contracts.network.AddrPartialEq.TheImpl.Laws.{laws-law};

    ghost eq = { (address_eq.ghosts).eq };

    ghost laws = { laws-law };

    fn eq(&self, other: &SharedAddr) -> bool {
        self.get() == other.get()
    }
}

impl Eq for SharedAddr {
    ghost use Rattle.zk_base.specs.contracts.network.AddrEq.TheImpl.Laws.{laws-law};

    ghost laws = { laws-law };
}

impl Hash for SharedAddr {
    ghost use Rattle.zk_base.specs.contracts.network.AddrHash.TheImpl as address_hash;
    ghost use Rattle.zk_base.specs.contracts.network.AddrHash.TheImpl.Laws.{respects_eq-law};

    ghost hash_input = { (address_hash.ghosts).hash_input };

    ghost respects_eq = { respects_eq-law };

    fn hash<H: Hasher>(&self, state: &mut H) {
        self.get().hash(state);
    }
}
