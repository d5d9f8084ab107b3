ghost use Rattle.std.specs.Prelude.{◌≡◌, ◌++◌, filter, flat_map, map, slice_get, OnOk, IfOk};
ghost use Rattle.std.specs.Option.{option_copied, option_map};
ghost use Rattle.zk_typed.specs.Names.{is_record};
ghost use Rattle.zk_typed.specs.Resolving as spec;
ghost use Rattle.zk_typed.specs.View.{type_of};
ghost use Rattle.zk_typed.specs.Within.{maybe_one};
ghost use Rattle.zk_scope.specs.FieldPlaces.{added_texts, field_at};
ghost use Rattle.zk_scope.specs.Fields.{field_of, fields_lent, known_or, node_fields, own_of, predefined_fields};
ghost use Rattle.zk_scope.specs.Lent.{home_of, node_of, stated_of};
ghost use Rattle.zk_scope.specs.Scripted.{scripts_in};

use crate::field::FieldInfo;
use crate::field_places::FieldPlace;
use crate::home::{Home, Stated};
use crate::known::Names;
use crate::node::Node;
use crate::predefined::{add_known, known_at, known_fields};
use sqlite_items::at;
use std::alloc::Global;
use zk_base::{Mem, RecordNo};
use zk_tree::{Attr, Decl, Expr, Field, Type};
use zk_typed::Refusal;
use zk_typed::script::ValueType;

/// Whether an attribute is among some.
pub fn has_attr(attrs: &[Attr], name: &[u8]) -> bool
    ensures { result ≡ spec.has_attr name.now attrs.now }
{
    attrs.iter().any(|attr| attr.name.as_slice() == name)
}

/// The value of one attribute.
fn value_in(attr: &Attr) -> Option<&Expr>
    ensures { option_copied result ≡ attr.now.value }
{
    match &attr.value {
        Some(value) => Some(value),
        None => None,
    }
}

/// The value of an attribute.
pub fn attr_value<'a>(attrs: &'a [Attr], name: &[u8]) -> Option<&'a Expr>
    ensures { option_copied result ≡ spec.attr_value name.now attrs.entry.now }
{
    for attr in attrs {
        if attr.name.as_slice() == name {
            return value_in(attr);
        }
    }
    None
}

/// The type of a field, where it isn't broken.
fn field_type(
    alloc: Global,
    names: &Names<'_>,
    home: Home<'_>,
    tree: &Type,
) -> Result<Option<ValueType>, Mem>
    ensures { IfOk result (λ one. known_or (option_map type_of one) ≡ spec.hushed (spec.type_of (scripts_in names.now) (home_of home.entry) tree.now)) }
{
    match names.type_of(alloc, home, tree) {
        Ok(one) => Ok(Some(one)),
        Err(Refusal::Broken(_)) => Ok(None),
        Err(Refusal::NoMemory) => Err(Mem),
    }
}

/// A field of a text.
fn written_field<'a>(
    alloc: Global,
    names: &Names<'_>,
    home: Home<'a>,
    field: &'a Field,
) -> Result<FieldInfo<'a>, Mem>
    ensures { IfOk result (λ made. field_of made ≡ spec.written_field (scripts_in names.now) (home_of home.entry) field.entry.now) }
{
    let field_type = field_type(alloc, names, home, &field.field_type)?;
    let attrs = field.attrs.as_slice();
    Ok(FieldInfo {
        name: field.name.text.as_slice(),
        field_type,
        log: has_attr(attrs, b"log"),
        wire: has_attr(attrs, b"wire"),
        optional: has_attr(attrs, b"optional"),
        default: attr_value(attrs, b"default"),
        home,
    })
}

/// Adds the fields of a text.
fn add_written<'a>(
    alloc: Global,
    names: &Names<'_>,
    home: Home<'a>,
    fields: &'a [Field],
    all: &mut Vec<FieldInfo<'a>>,
) -> Result<(), Mem>
    ensures { OnOk result (fields_lent all.new.items ≡ fields_lent all.old.items ++ map (spec.written_field (scripts_in names.now) (home_of home.entry)) fields.entry.now) }
{
    for field in fields {
        let one = written_field(alloc, names, home, field)?;
        all.push(one)?;
    }
    Ok(())
}

/// Adds the fields that stand in the text of a record type.
fn add_node_fields<'a>(
    alloc: Global,
    names: &Names<'_>,
    node: Option<Node<'a>>,
    all: &mut Vec<FieldInfo<'a>>,
) -> Result<(), Mem>
    ensures { OnOk result (fields_lent all.new.items ≡ fields_lent all.old.items ++ node_fields (scripts_in names.now) (option_map node_of node.entry)) }
{
    match node {
        Some(
            Node::Record {
                home,
                place: _,
                fields,
            },
        ) => {
            add_written(alloc, names, home, fields, all)?;
            Ok(())
        }
        Some(Node::Enum { .. }) => Ok(()),
        None => Ok(()),
    }
}

/// Adds the fields that stand in a record type's own text.
fn add_own<'a>(
    alloc: Global,
    names: &Names<'a>,
    number: u32,
    all: &mut Vec<FieldInfo<'a>>,
) -> Result<(), Mem>
    ensures { OnOk result (fields_lent all.new.items ≡ fields_lent all.old.items ++ own_of (scripts_in names.now) number (predefined_fields number)) }
{
    match known_fields(number) {
        Some(fields) => {
            add_known(fields, all)?;
            Ok(())
        }
        None => {
            let node = names.record_node(number.saturating_sub(8));
            add_node_fields(alloc, names, node, all)?;
            Ok(())
        }
    }
}

impl<'a> Names<'a> {
    /// The record type of a number, among those of the texts.
    pub(crate) fn record_node(&self, number: u32) -> Option<Node<'a>>
        ensures { option_map node_of result ≡ slice_get (filter is_record (scripts_in self.now).nodes) number }
    {
        match at(&self.records, number as usize) {
            Some(place) => at(&self.nodes, *place).copied(),
            None => None,
        }
    }

    /// The fields that stand in a record type's own text.
    pub fn own_fields(&self, alloc: Global, number: RecordNo) -> Result<Vec<FieldInfo<'a>>, Mem>
        ensures { IfOk result (λ fields. fields_lent fields.items ≡ spec.own_fields (scripts_in self.now) number.0) }
    {
        let mut all = Vec::new(alloc);
        add_own(alloc, self, number.0, &mut all)?;
        Ok(all)
    }
}

/// The field at a place in a text.
#[tactic(auto, using(crate::proofs::IndexLaws::get_of_map))]
fn written_at<'a>(
    alloc: Global,
    names: &Names<'_>,
    home: Home<'a>,
    fields: &'a [Field],
    place: usize,
) -> Result<Option<FieldInfo<'a>>, Mem>
    ensures { IfOk result (λ made. option_map field_of made ≡ slice_get (map (spec.written_field (scripts_in names.now) (home_of home.entry)) fields.entry.now) place) }
{
    match at(fields, place) {
        Some(field) => Ok(Some(written_field(alloc, names, home, field)?)),
        None => Ok(None),
    }
}

/// The field at a place in the text of a record type.
fn node_field<'a>(
    alloc: Global,
    names: &Names<'_>,
    node: Option<Node<'a>>,
    place: usize,
) -> Result<Option<FieldInfo<'a>>, Mem>
    ensures { IfOk result (λ made. option_map field_of made ≡ slice_get (node_fields (scripts_in names.now) (option_map node_of node.entry)) place) }
{
    match node {
        Some(
            Node::Record {
                home,
                place: _,
                fields,
            },
        ) => written_at(alloc, names, home, fields, place),
        Some(Node::Enum { .. }) => Ok(None),
        None => Ok(None),
    }
}

/// The field at a place in a record type's own text.
fn own_field<'a>(
    alloc: Global,
    names: &Names<'a>,
    number: u32,
    place: usize,
) -> Result<Option<FieldInfo<'a>>, Mem>
    ensures { IfOk result (λ made. option_map field_of made ≡ slice_get (own_of (scripts_in names.now) number (predefined_fields number)) place) }
{
    match known_fields(number) {
        Some(fields) => Ok(known_at(fields, place)),
        None => {
            let node = names.record_node(number.saturating_sub(8));
            node_field(alloc, names, node, place)
        }
    }
}

/// The field at a place in the text of a declaration that adds fields.
fn added_field<'a>(
    alloc: Global,
    names: &Names<'_>,
    one: Option<&Stated<'a>>,
    place: usize,
) -> Result<Option<FieldInfo<'a>>, Mem>
    ensures { IfOk result (λ made. option_map field_of made ≡ slice_get (added_texts (scripts_in names.now) (option_map (λ one. stated_of one.now) one.entry)) place) }
{
    let Some(one) = one else {
        return Ok(None);
    };
    match one.decl {
        Decl::RedefRecord {
            place: _,
            name: _,
            fields,
        } => written_at(alloc, names, one.home, fields.as_slice(), place),
        Decl::Module { .. }
        | Decl::Export { .. }
        | Decl::Load { .. }
        | Decl::Variable { .. }
        | Decl::Redef { .. }
        | Decl::RedefEnum { .. }
        | Decl::Type { .. }
        | Decl::Body { .. }
        | Decl::Function { .. } => Ok(None),
    }
}

/// The field of a record type that stands at a place.
#[tactic(auto, using(crate::proofs::FieldLaws::own_is, crate::proofs::FieldPlaceLaws::field_own, crate::proofs::FieldPlaceLaws::field_added))]
pub fn placed_field<'a>(
    alloc: Global,
    names: &Names<'a>,
    number: u32,
    one: FieldPlace,
) -> Result<Option<FieldInfo<'a>>, Mem>
    ensures { IfOk result (λ made. option_map field_of made ≡ field_at (scripts_in names.now) number one) }
{
    match one.added {
        None => own_field(alloc, names, number, one.at),
        Some(place) => added_field(alloc, names, names.stated_at(place), one.at),
    }
}

/// Adds the field of a record type that stands at a place.
fn add_field<'a>(
    alloc: Global,
    names: &Names<'a>,
    number: u32,
    one: FieldPlace,
    all: &mut Vec<FieldInfo<'a>>,
) -> Result<(), Mem>
    ensures { OnOk result (fields_lent all.new.items ≡ fields_lent all.old.items ++ maybe_one (field_at (scripts_in names.now) number one)) }
{
    let made = placed_field(alloc, names, number, one)?;
    match made {
        Some(field) => {
            all.push(field)?;
            Ok(())
        }
        None => Ok(()),
    }
}

/// Adds the fields of a record type that stand at places.
pub fn add_placed<'a>(
    alloc: Global,
    names: &Names<'a>,
    number: u32,
    places: &[FieldPlace],
    all: &mut Vec<FieldInfo<'a>>,
) -> Result<(), Mem>
    ensures { OnOk result (fields_lent all.new.items ≡ fields_lent all.old.items ++ flat_map (λ one. maybe_one (field_at (scripts_in names.now) number one)) places.now) }
{
    for place in places {
        add_field(alloc, names, number, *place, all)?;
    }
    Ok(())
}
