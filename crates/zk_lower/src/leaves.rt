ghost use Rattle.std.specs.Prelude.{◌≡◌, ◌++◌, ◌∷◌, [], codes, map, IfOk, OnOk, if◌then◌else◌, ◌==◌};
ghost use Rattle.zk_tree.specs.Lists.{joined_by};
ghost use Rattle.zk_typed.specs.Columns as columns;
ghost use Rattle.zk_typed.specs.View.{type_of, field_of, record_of};
ghost use Rattle.zk_lower.specs.Leaves.{leaf_of, leaves_in, leaves_of, with_records};

use crate::code::number_at;
use std::alloc::{AllocError, Global};
use zk_base::{Bytes, Mem, RecordNo};
use zk_typed::script::{Field, Log, RecordType, SimpleType, ValueType};
use zk_value::{Column, SharedBytes};

/// Record types are followed to so many within one another; no type nests deeper.
const DEPTH_MAX: u32 = 200;

/// A field that is no record, or one within records: the column that it would be, and the numbers of the
/// fields that lead to it.
#[derive(Debug, Drop)]
pub struct Leaf {
    pub column: Column,
    pub path: Vec<u32>,
    /// Whether each of these fields is marked `&log`.
    pub log: bool,
}

/// The fields of a record type, where there is one of its number.
fn fields_in(records: &[RecordType], number: RecordNo) -> &[Field]
    ensures { map field_of result.now ≡ columns.record_fields (with_records (map record_of records.now)) number }
{
    match records.get(number.0 as usize) {
        Some(one) => one.fields.as_slice(),
        None => &[],
    }
}

/// The name of a type without parts.
fn simple_name(simple: SimpleType) -> &'static [u8]
    ensures { result.now ≡ columns.simple_name simple }
{
    match simple {
        SimpleType::Bool => b"bool",
        SimpleType::Count => b"count",
        SimpleType::Int => b"int",
        SimpleType::String => b"string",
        SimpleType::Time => b"time",
        SimpleType::Interval => b"interval",
        SimpleType::Addr => b"addr",
        SimpleType::Port => b"port",
        SimpleType::Subnet => b"subnet",
        SimpleType::Enum(_) => b"enum",
    }
}

/// Adds a comma where a name isn't the first, and the name.
fn push_key_name(out: &mut Vec<u8>, number: usize, key: SimpleType) -> Result<(), AllocError>
    ensures { OnOk result (out.new.items ≡ out.old.items ++ ((if number == 0 then [] else codes ",") ++ columns.simple_name key)) }
{
    if number > 0 {
        out.extend_from_slice(b",")?;
    }
    out.extend_from_slice(simple_name(key))
}

/// Adds the names of the types of keys, with a comma between each and the next.
fn push_key_names(out: &mut Vec<u8>, keys: &[SimpleType]) -> Result<(), AllocError>
    ensures { OnOk result (out.new.items ≡ out.old.items ++ joined_by (codes ",") (map columns.simple_name keys.now)) }
{
    for (number, key) in keys.iter().enumerate() {
        push_key_name(out, number, *key)?;
    }
    Ok(())
}

/// Adds the name of a type.
fn push_type_name(out: &mut Vec<u8>, of: &ValueType) -> Result<(), AllocError>
    ensures { OnOk result (out.new.items ≡ out.old.items ++ columns.type_name (type_of of.now)) }
{
    match of {
        ValueType::Simple(simple) => out.extend_from_slice(simple_name(*simple)),
        ValueType::Set { keys } => {
            out.extend_from_slice(b"set[")?;
            push_key_names(out, keys.as_slice())?;
            out.extend_from_slice(b"]")
        }
        ValueType::Vector { item } => {
            out.extend_from_slice(b"vector[")?;
            push_type_name(out, item.get())?;
            out.extend_from_slice(b"]")
        }
        ValueType::Record(_) => out.extend_from_slice(b"record"),
        ValueType::Table { .. } => out.extend_from_slice(b"table"),
    }
}

/// The leaf of a field that is no record.
fn own_leaf(alloc: Global, number: u32, field: &Field) -> Result<Leaf, Mem>
    ensures { IfOk result (λ leaf. leaf_of leaf ≡ record { column = record { name = (field_of field.now).name; kind = columns.type_name (field_of field.now).field_type; wire = field.now.wire }; path = number ∷ []; log = field.now.log }) }
{
    let mut kind = Vec::new(alloc);
    push_type_name(&mut kind, &field.field_type)?;
    Ok(Leaf {
        column: Column {
            name: SharedBytes::copy_of(alloc, field.name.as_slice())?,
            kind: SharedBytes::of(Bytes::from(kind))?,
            wire: field.wire,
        },
        path: vec![in alloc; number]?,
        log: field.log,
    })
}

/// A leaf of the record in a field.
fn within(alloc: Global, number: u32, field: &Field, leaf: &Leaf) -> Result<Leaf, Mem>
    ensures { IfOk result (λ within. leaf_of within ≡ columns.within number (field_of field.now) (leaf_of leaf.now)) }
{
    let mut name = Vec::from_slice(alloc, field.name.as_slice())?;
    name.extend_from_slice(b".")?;
    name.extend_from_slice(leaf.column.name.as_slice())?;
    let mut path = vec![in alloc; number]?;
    path.extend_from_slice(&leaf.path)?;
    Ok(Leaf {
        column: Column {
            name: SharedBytes::of(Bytes::from(name))?,
            kind: leaf.column.kind.clone()?,
            wire: leaf.column.wire,
        },
        path,
        log: field.log && leaf.log,
    })
}

/// Adds the leaves of the record in a field.
fn add_within(
    alloc: Global,
    number: u32,
    field: &Field,
    leaves: Vec<Leaf>,
    out: &mut Vec<Leaf>,
) -> Result<(), Mem>
    ensures { OnOk result (map leaf_of out.new.items ≡ map leaf_of out.old.items ++ map (columns.within number (field_of field.now)) (map leaf_of leaves.items)) }
{
    for leaf in &leaves {
        out.push(within(alloc, number, field, leaf)?)?;
    }
    Ok(())
}

/// Adds the leaves of a field.
#[cycle(leaves)]
fn add_field(
    alloc: Global,
    records: &[RecordType],
    depth: u32,
    number: u32,
    field: &Field,
    out: &mut Vec<Leaf>,
) -> Result<(), Mem>
    ensures { OnOk result (map leaf_of out.new.items ≡ map leaf_of out.old.items
        ++ columns.field_leaves (columns.leaves_to depth (with_records (map record_of records.now))) number (field_of field.now) (field_of field.now).field_type) }
{
    match &field.field_type {
        ValueType::Record(nested) => {
            let leaves = leaves_to(alloc, records, depth, *nested)?;
            add_within(alloc, number, field, leaves, out)
        }
        _ => {
            out.push(own_leaf(alloc, number, field)?)?;
            Ok(())
        }
    }
}

/// The leaves of a record type, with so many record types within one another.
#[cycle(leaves)]
fn leaves_to(
    alloc: Global,
    records: &[RecordType],
    depth: u32,
    number: RecordNo,
) -> Result<Vec<Leaf>, Mem>
    ensures { IfOk result (λ leaves. map leaf_of leaves.items ≡ columns.leaves_to depth (with_records (map record_of records.now)) number) }
{
    let mut leaves = Vec::new(alloc);
    let Some(within) = depth.checked_sub(1) else {
        return Ok(leaves);
    };
    for (place, field) in fields_in(records, number).iter().enumerate() {
        let Some(place) = number_at(place) else {
            return Err(Mem);
        };
        add_field(alloc, records, within, place, field, &mut leaves)?;
    }
    Ok(leaves)
}

/// What the stream of a log has as columns.
fn log_leaves(alloc: Global, records: &[RecordType], log: &Log) -> Result<Vec<Leaf>, Mem>
    ensures { IfOk result (λ leaves. map leaf_of leaves.items ≡ leaves_of (map record_of records.now) log.now) }
{
    match log.columns {
        Some(number) => leaves_to(alloc, records, DEPTH_MAX, number),
        None => Ok(Vec::new(alloc)),
    }
}

/// What the streams of these logs have as columns, and the fields from which they are filled.
pub fn leaves_of_logs(
    alloc: Global,
    records: &[RecordType],
    logs: &[Log],
) -> Result<Vec<Vec<Leaf>>, Mem>
    ensures { IfOk result (λ all. map leaves_in all.items ≡ map (leaves_of (map record_of records.now)) logs.now) }
{
    let mut all = Vec::with_capacity(alloc, logs.len())?;
    for log in logs {
        all.push(log_leaves(alloc, records, log)?)?;
    }
    Ok(all)
}
