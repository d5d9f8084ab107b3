ghost use Rattle.std.specs.Prelude.{◌≡◌, ◌++◌, ◌+◌, ℕ, length, map, flat_map, filter, OnOk, IfOk};
ghost use Rattle.zk_typed.specs.Names.{is_record};
ghost use Rattle.zk_typed.specs.Resolving as spec;
ghost use Rattle.zk_scope.specs.Fields.{field_of, fields_lent, stated_fields};
ghost use Rattle.zk_scope.specs.Lent.{home_of, stated_lent, stated_of};
ghost use Rattle.zk_scope.specs.Scripted.{scripts_in};
ghost use Rattle.zk_check_declarations.specs.Edges.{edges_at, kind_of, kinds, only, redef_fields};

use std::alloc::Global;
use zk_base::{Mem, RecordNo};
use zk_scope::{FieldInfo, Home, Names, Stated, named_record, record_count};
use zk_tree::{Decl, Field, Name};
use zk_typed::script::ValueType;
use zk_typed::{Refusal, copied_type};

/// A field: the record type that has it, by its number, and its type.
#[derive(Drop)]
pub struct Edge {
    pub owner: u32,
    pub part: ValueType,
}

/// Adds a field of a record type, unless its type is broken.
fn add_known(
    alloc: Global,
    owner: u32,
    field: &FieldInfo<'_>,
    edges: &mut Vec<Edge>,
) -> Result<(), Mem>
    ensures { OnOk result ((number : ℕ) → edges_at number edges.new.items ≡ edges_at number edges.old.items ++ only owner number (kind_of (field_of field.now).field_type)) }
{
    match &field.field_type {
        Some(one) => {
            let part = copied_type(alloc, one)?;
            edges.push(Edge { owner, part })?;
            Ok(())
        }
        None => Ok(()),
    }
}

/// Adds fields of a record type.
fn add_all_known(
    alloc: Global,
    owner: u32,
    fields: &[FieldInfo<'_>],
    edges: &mut Vec<Edge>,
) -> Result<(), Mem>
    ensures { OnOk result ((number : ℕ) → edges_at number edges.new.items ≡ edges_at number edges.old.items ++ only owner number (kinds (fields_lent fields.now))) }
{
    for field in fields {
        add_known(alloc, owner, field, edges)?;
    }
    Ok(())
}

/// Adds the fields that stand in a record type's own text.
fn add_own(alloc: Global, names: &Names<'_>, owner: u32, edges: &mut Vec<Edge>) -> Result<(), Mem>
    ensures { OnOk result ((number : ℕ) → edges_at number edges.new.items ≡ edges_at number edges.old.items ++ only owner number (kinds (spec.own_fields (scripts_in names.now) owner))) }
{
    let fields = names.own_fields(alloc, RecordNo(owner))?;
    add_all_known(alloc, owner, &fields, edges)?;
    Ok(())
}

/// How many record types there are, with the predefined ones.
pub fn all_records(names: &Names<'_>) -> Result<u32, Mem>
    ensures { IfOk result (λ count. count ≡ 8 + length (filter is_record (scripts_in names.now).nodes)) }
{
    record_count(names.nodes())
}

/// The fields that stand in the record types' own texts.
fn own_edges(alloc: Global, names: &Names<'_>) -> Result<Vec<Edge>, Mem>
    ensures { IfOk result (λ edges. (number : ℕ) → edges_at number edges.items ≡ kinds (spec.own_fields (scripts_in names.now) number)) }
{
    let mut edges = Vec::new(alloc);
    let count = all_records(names)?;
    for owner in 0..count {
        add_own(alloc, names, owner, &mut edges)?;
    }
    Ok(edges)
}

/// Adds a field that is added to a record type, unless its type is broken.
fn add_field(
    alloc: Global,
    names: &Names<'_>,
    home: Home<'_>,
    owner: u32,
    field: &Field,
    edges: &mut Vec<Edge>,
) -> Result<(), Mem>
    ensures { OnOk result ((number : ℕ) → edges_at number edges.new.items ≡ edges_at number edges.old.items ++ only owner number (kind_of (spec.written_field (scripts_in names.now) (home_of home.entry) field.now).field_type)) }
{
    match names.type_of(alloc, home, &field.field_type) {
        Ok(part) => {
            edges.push(Edge { owner, part })?;
            Ok(())
        }
        Err(Refusal::Broken(_)) => Ok(()),
        Err(Refusal::NoMemory) => Err(Mem),
    }
}

/// Adds the fields that are added to a record type.
fn add_fields(
    alloc: Global,
    names: &Names<'_>,
    home: Home<'_>,
    owner: u32,
    fields: &[Field],
    edges: &mut Vec<Edge>,
) -> Result<(), Mem>
    ensures { OnOk result ((number : ℕ) → edges_at number edges.new.items ≡ edges_at number edges.old.items ++ only owner number (kinds (map (spec.written_field (scripts_in names.now) (home_of home.entry)) fields.now))) }
{
    for field in fields {
        add_field(alloc, names, home, owner, field, edges)?;
    }
    Ok(())
}

/// Adds the fields that `redef record` adds.
fn add_redef(
    alloc: Global,
    names: &Names<'_>,
    home: Home<'_>,
    name: &Name,
    fields: &[Field],
    edges: &mut Vec<Edge>,
) -> Result<(), Mem>
    ensures { OnOk result ((number : ℕ) → edges_at number edges.new.items ≡ edges_at number edges.old.items ++ kinds (redef_fields (scripts_in names.now) number (home_of home.entry) name.now fields.now)) }
{
    match named_record(alloc, names, home, name)? {
        Some(owner) => {
            add_fields(alloc, names, home, owner, fields, edges)?;
            Ok(())
        }
        None => Ok(()),
    }
}

/// Adds the fields that a declaration adds to a record type.
fn add_stated(
    alloc: Global,
    names: &Names<'_>,
    one: Stated<'_>,
    edges: &mut Vec<Edge>,
) -> Result<(), Mem>
    ensures { OnOk result ((number : ℕ) → edges_at number edges.new.items ≡ edges_at number edges.old.items ++ kinds (stated_fields (scripts_in names.now) number (stated_of one.entry))) }
{
    match one.decl {
        Decl::RedefRecord {
            place: _,
            name,
            fields,
        } => {
            add_redef(alloc, names, one.home, name, fields.as_slice(), edges)?;
            Ok(())
        }
        Decl::Module { .. }
        | Decl::Export { .. }
        | Decl::Load { .. }
        | Decl::Variable { .. }
        | Decl::Redef { .. }
        | Decl::RedefEnum { .. }
        | Decl::Type { .. }
        | Decl::Body { .. }
        | Decl::Function { .. } => Ok(()),
    }
}

/// Adds the fields that declarations add to record types.
fn add_all_stated(
    alloc: Global,
    names: &Names<'_>,
    stated: &[Stated<'_>],
    edges: &mut Vec<Edge>,
) -> Result<(), Mem>
    ensures { OnOk result ((number : ℕ) → edges_at number edges.new.items ≡ edges_at number edges.old.items ++ kinds (flat_map (stated_fields (scripts_in names.now) number) (stated_lent stated.now))) }
{
    for one in stated {
        add_stated(alloc, names, *one, edges)?;
    }
    Ok(())
}

/// The fields of record types: those of their own texts, and those that these declarations add.
pub fn all_edges(alloc: Global, names: &Names<'_>, stated: &[Stated<'_>]) -> Result<Vec<Edge>, Mem>
    ensures { IfOk result (λ edges. (number : ℕ) → edges_at number edges.items ≡ kinds (spec.own_fields (scripts_in names.now) number ++ flat_map (stated_fields (scripts_in names.now) number) (stated_lent stated.now))) }
{
    let mut edges = own_edges(alloc, names)?;
    add_all_stated(alloc, names, stated, &mut edges)?;
    Ok(edges)
}
