ghost use Rattle.std.specs.Prelude.{◌≡◌, map, IfOk};
ghost use Rattle.zk_scope.specs.Fields.{field_of, fields_lent};
ghost use Rattle.zk_typed.specs.Predefined as type;
ghost use Rattle.zk_typed.specs.Programs as spec;
ghost use Rattle.zk_typed.specs.Resolving.{Scripts};
ghost use Rattle.zk_typed.specs.View as view;
ghost use Rattle.zk_typed.specs.View.{type_of};
ghost use Rattle.zk_check_declarations.specs.Sources.{scripts_from};

use crate::program::bodies::if_checked;
use std::alloc::Global;
use zk_base::{Bytes, Mem, RecordNo, Sequence};
use zk_check_declarations::Source;
use zk_check_operators::constant_typed;
use zk_scope::{FieldInfo, record_count};
use zk_typed::copied_type;
use zk_typed::script::{DefaultValue, Field, RecordType, SimpleType, ValueType};

/// The empty value of a container's type.
fn empty_default(one: &ValueType) -> Option<DefaultValue>
    ensures { result ≡ spec.empty_default (type_of one.now) }
{
    match one {
        ValueType::Table { .. } => Some(DefaultValue::EmptyTable),
        ValueType::Set { .. } => Some(DefaultValue::EmptyTable),
        ValueType::Vector { .. } => Some(DefaultValue::EmptyVector),
        ValueType::Record(_) => None,
        ValueType::Simple(_) => None,
    }
}

/// What a field begins with where a constructor doesn't give it.
fn begins(
    alloc: Global,
    field: &FieldInfo<'_>,
    one: &ValueType,
) -> Result<Option<DefaultValue>, Mem>
    ensures { (scripts : Scripts) → IfOk result (λ made. made ≡ spec.field_begins scripts (field_of field.now) (type_of one.now)) }
{
    match field.default {
        Some(given) => if_checked(constant_typed(alloc, field.home.file, one, given)),
        None => {
            if field.optional {
                Ok(None)
            } else {
                Ok(empty_default(one))
            }
        }
    }
}

/// The type of a field. A truth value stands for one that is broken.
fn type_or_bool(alloc: Global, field: &FieldInfo<'_>) -> Result<ValueType, Mem>
    ensures { IfOk result (λ made. type_of made ≡ spec.checked_or type.bool (field_of field.now).field_type) }
{
    match &field.field_type {
        Some(one) => Ok(copied_type(alloc, one)?),
        None => Ok(ValueType::Simple(SimpleType::Bool)),
    }
}

/// A field of a program.
fn program_field(alloc: Global, field: &FieldInfo<'_>) -> Result<Field, Mem>
    ensures { (scripts : Scripts) → IfOk result (λ made. view.field_of made ≡ spec.field_of scripts (field_of field.now)) }
{
    let name = Bytes::copy_of(alloc, field.name)?;
    let field_type = type_or_bool(alloc, field)?;
    let begins = begins(alloc, field, &field_type)?;
    Ok(Field {
        name,
        field_type,
        log: field.log,
        wire: field.wire,
        begins,
    })
}

/// Fields of a program.
fn program_fields(alloc: Global, fields: &[FieldInfo<'_>]) -> Result<Vec<Field>, Mem>
    ensures { (scripts : Scripts) → IfOk result (λ made. map view.field_of made.items ≡ map (spec.field_of scripts) (fields_lent fields.now)) }
{
    let mut all = Vec::new(alloc);
    for field in fields {
        all.push(program_field(alloc, field)?)?;
    }
    Ok(all)
}

/// The record type of a number.
fn record_of(source: &Source<'_>, number: u32) -> Result<RecordType, Mem>
    ensures { IfOk result (λ made. view.record_of made ≡ spec.record_of (scripts_from source.now) number) }
{
    let alloc = source.alloc;
    let fields = source.scripts.fields_of(alloc, RecordNo(number))?;
    let all = program_fields(alloc, fields.as_slice())?;
    Ok(RecordType {
        fields: Sequence::from(all),
    })
}

/// The record types of a program, the predefined ones first.
pub fn all_records(source: &Source<'_>) -> Result<Vec<RecordType>, Mem>
    ensures { IfOk result (λ made. map view.record_of made.items ≡ spec.records_of (scripts_from source.now)) }
{
    let count = record_count(source.scripts.names.nodes())?;
    let mut all = Vec::new(source.alloc);
    for number in 0..count {
        all.push(record_of(source, number)?)?;
    }
    Ok(all)
}
