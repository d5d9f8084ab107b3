ghost use Rattle.std.specs.Prelude.{◌≡◌, ◌∷◌, [], IfOk};

use crate::value::Value;
use std::alloc::{AllocError, Global};
use std::hash::{Hash, Hasher};
use std::marker::Model;
use std::rc::RcSlice;
use std::slice;
use zk_base::Mem;

/// The key of an entry of a table or a set: atomic values and enum words, one for each index. A
/// clone has other handles to the same values. Contracts see a list.
#[derive(Debug, Drop)]
pub struct Key {
    values: Values,
}

/// The values of a key. The key of a table with one index is its value, for which no memory is taken.
#[derive(Debug, Drop)]
enum Values {
    One(Value),
    Many(RcSlice<Value>),
}

impl Model for Key {
    ghost use Rattle.std.specs.Prelude.{List};
    ghost use Rattle.zk_value.specs.Keys.{values_in};
    ghost use Rattle.zk_value.specs.declared.value.Value.{Value as OneValue};

    ghost Value = { List OneValue };

    ghost view = { λ key. values_in key.values };
}

impl Key {
    /// The key of these values, another handle to each.
    pub fn copy_of(alloc: Global, values: &[Value]) -> Result<Key, Mem>
        ensures { IfOk result (λ key. key ≡ values.now) }
    {
        match values {
            [value] => Ok(Key::from(value.clone()?)),
            [] | [_, _, ..] => Ok(Key {
                values: Values::Many(RcSlice::from_clones(alloc, values)?),
            }),
        }
    }

    /// The values, lent.
    pub fn as_slice(&self) -> &[Value]
        ensures { result.now ≡ self.now }
    {
        match &self.values {
            Values::One(value) => slice::from_ref(value),
            Values::Many(values) => values.as_slice(),
        }
    }
}

/// The key of one value.
impl From<Value> for Key {
    ghost from_gives = { λ value key. key ≡ value ∷ [] };

    fn from(value: Value) -> Key {
        Key {
            values: Values::One(value),
        }
    }
}

/// Other handles to the same values.
impl Clone for Values {
    ghost use Rattle.zk_value.specs.Keys.{values_in};

    ghost is_clone = { λ values copy. values_in copy ≡ values_in values };

    fn clone(&self) -> Result<Values, AllocError> {
        match self {
            Values::One(value) => Ok(Values::One(value.clone()?)),
            Values::Many(values) => Ok(Values::Many(values.clone()?)),
        }
    }
}

/// Other handles to the same values.
impl Clone for Key {
    ghost is_clone = { λ key copy. copy ≡ key };

    fn clone(&self) -> Result<Key, AllocError> {
        let values = self.values.clone()?;
        Ok(Key { values })
    }
}

impl PartialEq for Key {
    ghost use Rattle.std.specs.Cmp.{partial_equiv_from_equiv};
    ghost use Rattle.std.specs.Cmp.Lexicographic.{pointwise, lists_equiv};
    ghost use Rattle.zk_value.specs.contracts.value.ValuePartialEq.TheImpl as value_eq;
    ghost use Rattle.zk_value.specs.contracts.value.ValueEq.TheImpl.Laws.{laws-law};

    ghost eq = { pointwise ((value_eq.ghosts).eq) };

    ghost laws = { partial_equiv_from_equiv (lists_equiv laws-law) };

    fn eq(&self, other: &Key) -> bool {
        self.as_slice() == other.as_slice()
    }
}

impl Eq for Key {
    ghost use Rattle.std.specs.Cmp.Lexicographic.{lists_equiv};
    ghost use Rattle.zk_value.specs.contracts.value.ValueEq.TheImpl.Laws.{laws-law};

    ghost laws = { lists_equiv laws-law };
}

impl Hash for Key {
    ghost use Rattle.std.specs.Hash.{slice};
    ghost use Rattle.std.specs.Hash.{items_Alike};
    ghost use Rattle.zk_value.specs.Hashed.{hashed};
    ghost use Rattle.zk_value.specs.contracts.value.ValueHash.TheImpl.Laws.{respects_eq-law};

    ghost hash_input = { slice hashed };

    ghost respects_eq = { (items_Alike (record { fed = respects_eq-law })).fed };

    fn hash<H: Hasher>(&self, state: &mut H) {
        self.as_slice().hash(state);
    }
}
