ghost use Rattle.std.specs.Prelude.{◌≡◌, IfOk};

use crate::script::{SimpleType, ValueType};
use sqlite_items::Boxed;
use std::alloc::{AllocError, Global};
use zk_base::Sequence;

/// A copy of the types of keys. Want of memory is the only error.
pub fn copied_keys(alloc: Global, keys: &[SimpleType]) -> Result<Sequence<SimpleType>, AllocError>
    ensures { IfOk result (λ copy. copy ≡ keys.now) }
{
    Ok(Sequence::from(Vec::from_slice(alloc, keys)?))
}

/// A copy of a type. Want of memory is the only error.
pub fn copied_type(alloc: Global, one: &ValueType) -> Result<ValueType, AllocError>
    ensures { IfOk result (λ copy. copy ≡ one.now) }
{
    match one {
        ValueType::Simple(simple) => Ok(ValueType::Simple(*simple)),
        ValueType::Record(number) => Ok(ValueType::Record(*number)),
        ValueType::Table { keys, value } => {
            let keys = copied_keys(alloc, keys.as_slice())?;
            let value = copied_type(alloc, value.get())?;
            let value = Boxed::new(alloc, value)?;
            Ok(ValueType::Table { keys, value })
        }
        ValueType::Set { keys } => {
            let keys = copied_keys(alloc, keys.as_slice())?;
            Ok(ValueType::Set { keys })
        }
        ValueType::Vector { item } => {
            let item = copied_type(alloc, item.get())?;
            let item = Boxed::new(alloc, item)?;
            Ok(ValueType::Vector { item })
        }
    }
}
