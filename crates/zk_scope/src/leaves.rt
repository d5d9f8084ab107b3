ghost use Rattle.std.specs.Prelude.{◌≡◌, ◌++◌, flat_map, map, IfOk, OnOk};
ghost use Rattle.zk_typed.specs.LogCalls as spec;
ghost use Rattle.zk_scope.specs.Fields.{field_of, fields_lent};
ghost use Rattle.zk_scope.specs.Leaves.{leaf_of, leaves_lent, own_leaf};
ghost use Rattle.zk_scope.specs.Scripted.{scripts_in};
ghost use Rattle.zk_typed.specs.View.{type_of};

use crate::field::FieldInfo;
use crate::scripts::Scripts;
use crate::type_names::type_name;
use std::alloc::Global;
use zk_base::{Mem, RecordNo};
use zk_typed::script::ValueType;

/// A field that is no record, as a column: its name with those of the fields that hold it, its type's name,
/// and its marks.
#[derive(Debug, Drop)]
pub struct Leaf {
    pub name: Vec<u8>,
    pub kind: Vec<u8>,
    pub wire: bool,
    /// Whether it and the fields that hold it are marked `&log`.
    pub log: bool,
}

/// A leaf of the record in a field.
fn within(alloc: Global, field: &FieldInfo<'_>, leaf: &Leaf) -> Result<Leaf, Mem>
    ensures { IfOk result (λ made. leaf_of made ≡ spec.within (field_of field.now) (leaf_of leaf.now)) }
{
    let mut name = Vec::from_slice(alloc, field.name)?;
    name.extend_from_slice(b".")?;
    name.extend_from_slice(&leaf.name)?;
    Ok(Leaf {
        name,
        kind: Vec::from_slice(alloc, &leaf.kind)?,
        wire: leaf.wire,
        log: field.log && leaf.log,
    })
}

/// Adds the leaves of the record in a field.
fn add_within(
    alloc: Global,
    field: &FieldInfo<'_>,
    leaves: &[Leaf],
    all: &mut Vec<Leaf>,
) -> Result<(), Mem>
    ensures { OnOk result (leaves_lent all.new.items ≡ leaves_lent all.old.items ++ map (spec.within (field_of field.now)) (leaves_lent leaves.now)) }
{
    for leaf in leaves {
        all.push(within(alloc, field, leaf)?)?;
    }
    Ok(())
}

/// A field that is no record, as a leaf.
fn own_leaf(alloc: Global, field: &FieldInfo<'_>, one: &ValueType) -> Result<Leaf, Mem>
    ensures { IfOk result (λ made. leaf_of made ≡ own_leaf (field_of field.now) (type_of one.now)) }
{
    Ok(Leaf {
        name: Vec::from_slice(alloc, field.name)?,
        kind: type_name(alloc, one)?,
        wire: field.wire,
        log: field.log,
    })
}

/// Adds the leaves of a field, in records as deep as this.
#[cycle(leafing)]
fn add_field_leaves(
    alloc: Global,
    depth: u8,
    scripts: &Scripts<'_>,
    field: &FieldInfo<'_>,
    all: &mut Vec<Leaf>,
) -> Result<(), Mem>
    ensures { OnOk result (leaves_lent all.new.items ≡ leaves_lent all.old.items ++ spec.field_leaves (spec.leaves_to depth (scripts_in scripts.now.names)) (field_of field.now)) }
{
    match &field.field_type {
        Some(ValueType::Record(number)) => {
            let inner = leaves_to(alloc, depth, scripts, *number)?;
            add_within(alloc, field, &inner, all)?;
            Ok(())
        }
        Some(one) => {
            all.push(own_leaf(alloc, field, one)?)?;
            Ok(())
        }
        None => Ok(()),
    }
}

/// Adds the leaves of fields, in records as deep as this.
#[cycle(leafing)]
fn add_fields_leaves(
    alloc: Global,
    depth: u8,
    scripts: &Scripts<'_>,
    fields: &[FieldInfo<'_>],
    all: &mut Vec<Leaf>,
) -> Result<(), Mem>
    ensures { OnOk result (leaves_lent all.new.items ≡ leaves_lent all.old.items ++ flat_map (spec.field_leaves (spec.leaves_to depth (scripts_in scripts.now.names))) (fields_lent fields.now)) }
{
    for field in fields {
        add_field_leaves(alloc, depth, scripts, field, all)?;
    }
    Ok(())
}

/// The leaves of a record type, in records as deep as this.
#[cycle(leafing)]
fn leaves_to(
    alloc: Global,
    depth: u8,
    scripts: &Scripts<'_>,
    number: RecordNo,
) -> Result<Vec<Leaf>, Mem>
    ensures { IfOk result (λ all. leaves_lent all.items ≡ spec.leaves_to depth (scripts_in scripts.now.names) number) }
{
    let mut all = Vec::new(alloc);
    if depth == 0 {
        return Ok(all);
    }
    let fields = scripts.fields_of(alloc, number)?;
    add_fields_leaves(alloc, depth - 1, scripts, &fields, &mut all)?;
    Ok(all)
}

impl Scripts<'_> {
    /// The fields of a record type that are no records, those of a nested record in the place of the field that
    /// holds it: what its columns can be.
    pub fn leaves(&self, alloc: Global, number: RecordNo) -> Result<Vec<Leaf>, Mem>
        ensures { IfOk result (λ all. leaves_lent all.items ≡ spec.leaves (scripts_in self.now.names) number) }
    {
        leaves_to(alloc, 200, self, number)
    }
}
