ghost use Rattle.std.specs.Prelude.{◌≡◌};
ghost use Rattle.zk_typed.specs.Resolving.{Scripts};
ghost use Rattle.zk_typed.specs.View.{type_of};
ghost use Rattle.zk_check_declarations.specs.Heights.{height_in, raised};

use sqlite_items::at;
use zk_typed::script::ValueType;

/// How deep types may nest, and one more.
pub const HIGHEST: u8 = 201;

/// The heights of record types, by their numbers: 1 for one without fields, and no more than `HIGHEST`.
#[derive(Drop)]
pub struct Heights {
    pub heights: Vec<u8>,
}

/// How deep the record types of scripts nest.
#[derive(Drop)]
pub struct Depths {
    /// With all their fields.
    pub all: Heights,
    /// Without the fields that nest too deep where they are added.
    pub fitting: Heights,
}

/// Where a type must not nest too deep.
#[derive(Clone, Copy, Debug, PartialEq, Eq)]
pub enum Limit {
    /// Where it is written.
    Written,
    /// Where a field of it is added to a record type.
    Added,
}

/// The height of what has a part of a height.
pub fn raised(height: u8) -> u8
    ensures { result ≡ raised height }
{
    if height < HIGHEST {
        height + 1
    } else {
        HIGHEST
    }
}

impl Heights {
    /// The height of a type.
    pub fn height(&self, one: &ValueType) -> u8
        ensures { result ≡ height_in self.now.heights.items (type_of one.now) }
    {
        match one {
            ValueType::Simple(_) | ValueType::Set { .. } => 1,
            ValueType::Table { keys: _, value } => raised(self.height(value.get())),
            ValueType::Vector { item } => raised(self.height(item.get())),
            ValueType::Record(number) => match at(&self.heights, number.0 as usize) {
                Some(height) => *height,
                None => 1,
            },
        }
    }
}

impl Depths {
    ghost use Rattle.zk_check_declarations.specs.Heights.{IsDepths, too_deep};

    /// Whether a type nests too deep.
    pub fn is_too_deep(&self, limit: Limit, one: &ValueType) -> bool
        ensures { (scripts : Scripts) → IsDepths self.now scripts → result ≡ too_deep limit scripts (type_of one.now) }
    {
        match limit {
            Limit::Written => self.fitting.height(one) > 200,
            Limit::Added => self.all.height(one) > 199,
        }
    }
}
