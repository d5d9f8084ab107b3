ghost use Rattle.std.specs.Prelude.{◌≡◌, map, IfOk};
ghost use Rattle.zk_typed.specs.View.{type_of, field_of, record_of};

use crate::copies::begins_copy;
use sqlite_items::Boxed;
use std::alloc::Global;
use zk_base::{Bytes, Mem, Sequence};
use zk_typed::script::{Field, Log, RecordType, SimpleType, ValueType};

/// A copy of the types of keys.
fn keys_copy(alloc: Global, keys: &Sequence<SimpleType>) -> Result<Sequence<SimpleType>, Mem>
    ensures { IfOk result (λ copy. copy ≡ keys.now) }
{
    Ok(Sequence::from(Vec::from_slice(alloc, keys.as_slice())?))
}

/// A copy of a type.
fn type_copy(alloc: Global, value_type: &ValueType) -> Result<ValueType, Mem>
    ensures { IfOk result (λ copy. type_of copy ≡ type_of value_type.now) }
{
    match value_type {
        ValueType::Simple(simple) => Ok(ValueType::Simple(*simple)),
        ValueType::Record(number) => Ok(ValueType::Record(*number)),
        ValueType::Table { keys, value } => Ok(ValueType::Table {
            keys: keys_copy(alloc, keys)?,
            value: Boxed::new(alloc, type_copy(alloc, value.get())?)?,
        }),
        ValueType::Set { keys } => Ok(ValueType::Set {
            keys: keys_copy(alloc, keys)?,
        }),
        ValueType::Vector { item } => Ok(ValueType::Vector {
            item: Boxed::new(alloc, type_copy(alloc, item.get())?)?,
        }),
    }
}

/// A copy of a field.
fn field_copy(alloc: Global, field: &Field) -> Result<Field, Mem>
    ensures { IfOk result (λ copy. field_of copy ≡ field_of field.now) }
{
    Ok(Field {
        name: Bytes::copy_of(alloc, field.name.as_slice())?,
        field_type: type_copy(alloc, &field.field_type)?,
        log: field.log,
        wire: field.wire,
        begins: begins_copy(alloc, &field.begins)?,
    })
}

/// A copy of a record type.
fn record_copy(alloc: Global, record_type: &RecordType) -> Result<RecordType, Mem>
    ensures { IfOk result (λ copy. record_of copy ≡ record_of record_type.now) }
{
    let mut fields = Vec::new(alloc);
    for field in record_type.fields.as_slice() {
        fields.push(field_copy(alloc, field)?)?;
    }
    Ok(RecordType {
        fields: Sequence::from(fields),
    })
}

/// Copies of record types.
pub fn records_copy(alloc: Global, records: &[RecordType]) -> Result<Sequence<RecordType>, Mem>
    ensures { IfOk result (λ copy. map record_of copy ≡ map record_of records.now) }
{
    let mut copy = Vec::new(alloc);
    for record_type in records {
        copy.push(record_copy(alloc, record_type)?)?;
    }
    Ok(Sequence::from(copy))
}

/// Copies of the words of `Log::ID`.
pub fn logs_copy(alloc: Global, logs: &[Log]) -> Result<Sequence<Log>, Mem>
    ensures { IfOk result (λ copy. copy ≡ logs.now) }
{
    let mut copy = Vec::new(alloc);
    for log in logs {
        copy.push(Log {
            word: Bytes::copy_of(alloc, log.word.as_slice())?,
            columns: log.columns,
        })?;
    }
    Ok(Sequence::from(copy))
}

/// Copies of the names of files.
pub fn files_copy(alloc: Global, names: &[Bytes]) -> Result<Sequence<Bytes>, Mem>
    ensures { IfOk result (λ copy. copy ≡ names.now) }
{
    let mut copy = Vec::new(alloc);
    for name in names {
        copy.push(Bytes::copy_of(alloc, name.as_slice())?)?;
    }
    Ok(Sequence::from(copy))
}
