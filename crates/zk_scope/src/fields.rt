ghost use Rattle.std.specs.Prelude.{◌≡◌, ◌++◌, ℕ, List, [], None, Some, length, map, nat_eq, IfOk, OnOk, if◌then◌else◌};
ghost use Rattle.std.specs.Option.{option_map};
ghost use Rattle.zk_tree.specs.declared.decl.Decl.{out-Decl};
ghost use Rattle.zk_typed.specs.Resolving as spec;
ghost use Rattle.zk_scope.specs.declared.field_places.FieldPlace.{FieldPlace as Place};
ghost use Rattle.zk_scope.specs.FieldPlaces.{AreOwn, HasPlaces, Hold, added_in, added_lent, field_name, is_among, named, node_texts, places_from};
ghost use Rattle.zk_scope.specs.Fields.{stated_fields};
ghost use Rattle.zk_scope.specs.Lent.{home_of, node_of, stated_of};
ghost use Rattle.zk_scope.specs.Scripted.{scripts_in};

use crate::field_places::RecordFields;
use crate::home::{Home, Stated};
use crate::known::Names;
use crate::node::{Node, record_count};
use crate::predefined::known_fields;
use std::alloc::Global;
use zk_base::Mem;
use zk_tree::{Decl, Field, Name};
use zk_typed::Refusal;
use zk_typed::script::ValueType;

/// The fields of all record types, by the numbers of these.
#[derive(Drop)]
pub struct Fields {
    pub records: Vec<RecordFields>,
}

/// The fields in the text of a record type.
fn texts_of<'a>(node: Option<Node<'a>>) -> &'a [Field]
    ensures { result.now ≡ node_texts (option_map node_of node.entry) }
{
    match node {
        Some(Node::Record { fields, .. }) => fields,
        Some(Node::Enum { .. }) => &[],
        None => &[],
    }
}

/// The fields that stand in a record type's own text.
fn own_fields(alloc: Global, names: &Names<'_>, number: u32) -> Result<RecordFields, Mem>
    ensures { IfOk result (λ made. HasPlaces made (places_from None 0 (spec.own_fields (scripts_in names.now) number)) (named (spec.own_fields (scripts_in names.now) number))) }
{
    let mut all = RecordFields::new(alloc);
    match known_fields(number) {
        Some(fields) => {
            all.add_known(alloc, fields)?;
            Ok(all)
        }
        None => {
            let node = names.record_node(number.saturating_sub(8));
            all.add_written(alloc, None, texts_of(node))?;
            Ok(all)
        }
    }
}

/// The fields that stand in the own texts of the record types before a number.
fn own_before(alloc: Global, names: &Names<'_>, count: u32) -> Result<Vec<RecordFields>, Mem>
    ensures { IfOk result (λ all. (length all.items ≡ count) × AreOwn all.items (scripts_in names.now)) }
{
    let mut all = Vec::new(alloc);
    for number in 0..count {
        let one = own_fields(alloc, names, number)?;
        all.push(one)?;
    }
    Ok(all)
}

/// The fields that stand in the own texts of all record types.
fn all_own(alloc: Global, names: &Names<'_>) -> Result<Vec<RecordFields>, Mem>
    ensures { IfOk result (λ all. Hold all.items (λ number. places_from None 0 (spec.own_fields (scripts_in names.now) number)) (λ number. named (spec.own_fields (scripts_in names.now) number))) }
{
    let count = record_count(names.nodes())?;
    let all = own_before(alloc, names, count)?;
    Ok(all)
}

/// The number of the record type that a name names, if it names one.
pub fn named_record(
    alloc: Global,
    names: &Names<'_>,
    home: Home<'_>,
    name: &Name,
) -> Result<Option<u32>, Mem>
    ensures { IfOk result (λ found. (number : ℕ) → spec.is_that number (spec.type_named (scripts_in names.now) (home_of home.entry) name.now) ≡ is_among number found) }
{
    match names.type_named(alloc, home, name) {
        Ok(ValueType::Record(number)) => Ok(Some(number.0)),
        Ok(ValueType::Simple(_))
        | Ok(ValueType::Table { .. })
        | Ok(ValueType::Set { .. })
        | Ok(ValueType::Vector { .. }) => Ok(None),
        Err(Refusal::Broken(_)) => Ok(None),
        Err(Refusal::NoMemory) => Err(Mem),
    }
}

/// Adds fields of the declaration at a place to the record type of a number.
fn add_at(
    alloc: Global,
    number: u32,
    place: usize,
    fields: &[Field],
    all: &mut Vec<RecordFields>,
) -> Result<(), Mem>
    ensures { OnOk result ((places : ℕ → List Place) (names : ℕ → List (List ℕ)) → Hold all.old.items places names
        → Hold all.new.items (λ other. places other ++ places_from (Some place) 0 (if nat_eq number other then fields.now else []))
        (λ other. names other ++ map field_name (if nat_eq number other then fields.now else []))) }
{
    let index = number as usize;
    // Each record type that a name can name has its number.
    if index >= all.len() {
        return Err(Mem);
    }
    all[index].add_written(alloc, Some(place), fields)?;
    Ok(())
}

/// Adds fields of the declaration at a place to the record type of a name, where the name names one.
fn add_named(
    alloc: Global,
    names: &Names<'_>,
    home: Home<'_>,
    name: &Name,
    fields: &[Field],
    place: usize,
    all: &mut Vec<RecordFields>,
) -> Result<(), Mem>
    ensures { OnOk result ((places : ℕ → List Place) (texts : ℕ → List (List ℕ)) → Hold all.old.items places texts
        → Hold all.new.items (λ number. places number ++ places_from (Some place) 0 (if spec.is_that number (spec.type_named (scripts_in names.now) (home_of home.entry) name.now) then map (spec.written_field (scripts_in names.now) (home_of home.entry)) fields.now else []))
        (λ number. texts number ++ named (if spec.is_that number (spec.type_named (scripts_in names.now) (home_of home.entry) name.now) then map (spec.written_field (scripts_in names.now) (home_of home.entry)) fields.now else []))) }
{
    let found = named_record(alloc, names, home, name)?;
    match found {
        Some(number) => {
            add_at(alloc, number, place, fields, all)?;
            Ok(())
        }
        None => Ok(()),
    }
}

/// The record type's name and the fields of a declaration of `redef record`.
fn added(decl: &Decl) -> Option<(&Name, &[Field])>
    ensures { option_map added_lent result ≡ added_in (out-Decl decl.now) }
{
    match decl {
        Decl::RedefRecord {
            place: _,
            name,
            fields,
        } => Some((name, fields.as_slice())),
        Decl::Module { .. }
        | Decl::Export { .. }
        | Decl::Load { .. }
        | Decl::Variable { .. }
        | Decl::Redef { .. }
        | Decl::RedefEnum { .. }
        | Decl::Type { .. }
        | Decl::Body { .. }
        | Decl::Function { .. } => None,
    }
}

/// Adds the fields of the declaration at a place to the record type to which it adds them.
fn add_stated(
    alloc: Global,
    names: &Names<'_>,
    one: &Stated<'_>,
    place: usize,
    all: &mut Vec<RecordFields>,
) -> Result<(), Mem>
    ensures { OnOk result ((places : ℕ → List Place) (texts : ℕ → List (List ℕ)) → Hold all.old.items places texts
        → Hold all.new.items (λ number. places number ++ places_from (Some place) 0 (stated_fields (scripts_in names.now) number (stated_of one.now)))
        (λ number. texts number ++ named (stated_fields (scripts_in names.now) number (stated_of one.now)))) }
{
    match added(one.decl) {
        Some((name, fields)) => {
            add_named(alloc, names, one.home, name, fields, place, all)?;
            Ok(())
        }
        None => Ok(()),
    }
}

impl Fields {
    ghost use Rattle.zk_scope.specs.FieldPlaces.{AreFields};

    /// The fields of the record types of scripts.
    pub fn of(alloc: Global, names: &Names<'_>) -> Result<Fields, Mem>
        ensures { IfOk result (λ fields. AreFields fields (scripts_in names.now)) }
    {
        let mut records = all_own(alloc, names)?;
        let stated = names.stated();
        for (place, one) in stated.iter().enumerate() {
            add_stated(alloc, names, one, place, &mut records)?;
        }
        Ok(Fields { records })
    }
}
