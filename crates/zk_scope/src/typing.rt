ghost use Rattle.std.specs.Prelude.{◌≡◌, List, Some, true, is_some, slice_get, IfSome};
ghost use Rattle.std.specs.Option.{option_and_then, option_map};
ghost use Rattle.std.specs.List.{list_any};
ghost use Rattle.zk_typed.specs.Checked.{Checked, broken};
ghost use Rattle.zk_typed.specs.declared.rule.Rule.TheVariants as rule;
ghost use Rattle.zk_typed.specs.declared.script.types.SimpleType as key;
ghost use Rattle.zk_typed.specs.Names.{look_up};
ghost use Rattle.zk_typed.specs.Predefined.{enum as enum_of, record_no};
ghost use Rattle.zk_typed.specs.Resolving as spec;
ghost use Rattle.zk_typed.specs.Tells.{Tells};
ghost use Rattle.zk_typed.specs.Types as typed;
ghost use Rattle.zk_typed.specs.View.{type_of};
ghost use Rattle.zk_scope.specs.Keys.{keyed, keys_to, tabled};
ghost use Rattle.zk_scope.specs.Leading.{Text, next_of, steps, text_at};
ghost use Rattle.zk_scope.specs.Lent.{home_of, text_lent};
ghost use Rattle.zk_scope.specs.Scripted.{scripts_in};

use crate::declared::Meant;
use crate::ends::end_of;
use crate::gathering::appended;
use crate::home::Home;
use crate::known::Names;
use sqlite_items::{Boxed, Items, at};
use std::alloc::Global;
use zk_base::{Mem, RecordNo, Sequence};
use zk_tree::{Atomic, Name, Place, Type};
use zk_typed::script::{SimpleType, ValueType};
use zk_typed::{Broken, Refusal, Rule, copied_type, one_broken};

/// The place of a byte in the file of a declaration.
pub fn place_in(home: Home<'_>, byte: u64) -> Place
    ensures { result ≡ spec.place_in (home_of home.entry) byte }
{
    Place {
        file: home.file,
        byte,
    }
}

/// A type without parts.
fn simple_of(atomic: Atomic) -> SimpleType
    ensures { result ≡ spec.simple_of atomic }
{
    match atomic {
        Atomic::Bool => SimpleType::Bool,
        Atomic::Count => SimpleType::Count,
        Atomic::Int => SimpleType::Int,
        Atomic::String => SimpleType::String,
        Atomic::Time => SimpleType::Time,
        Atomic::Interval => SimpleType::Interval,
        Atomic::Addr => SimpleType::Addr,
        Atomic::Port => SimpleType::Port,
        Atomic::Subnet => SimpleType::Subnet,
    }
}

/// The record type of a number.
fn record_type(number: u32) -> ValueType
    ensures { type_of result ≡ typed.Record (record_no number) }
{
    ValueType::Record(RecordNo(number))
}

/// The enum of a number.
fn enum_type(number: u32) -> ValueType
    ensures { type_of result ≡ enum_of number }
{
    ValueType::Simple(SimpleType::Enum(number))
}

/// The type of a key, which has no parts.
fn as_key(
    alloc: Global,
    place: Place,
    one: Result<ValueType, Refusal>,
) -> Result<SimpleType, Refusal>
    ensures { (checked : Checked typed.ValueType) → Tells type_of one checked → Tells (λ key. key) result (keyed place checked) }
{
    match one {
        Ok(ValueType::Simple(simple)) => Ok(simple),
        Ok(ValueType::Record(_))
        | Ok(ValueType::Table { .. })
        | Ok(ValueType::Set { .. })
        | Ok(ValueType::Vector { .. }) => {
            Err(Refusal::Broken(one_broken(alloc, Rule::WrongType, place)?))
        }
        Err(refusal) => Err(refusal),
    }
}

/// The type of a table by those of its keys and its values, or all that is broken in either.
fn table_of(
    alloc: Global,
    keys: Result<Sequence<SimpleType>, Refusal>,
    value: Result<ValueType, Refusal>,
) -> Result<ValueType, Refusal>
    ensures { (first : Checked (List key.SimpleType)) (second : Checked typed.ValueType) → Tells (λ keys. keys) keys first → Tells type_of value second → Tells type_of result (tabled first second) }
{
    match keys {
        Ok(keys) => {
            let value = Boxed::new(alloc, value?)?;
            Ok(ValueType::Table { keys, value })
        }
        Err(Refusal::Broken(mut rules)) => match value {
            Ok(_) => Err(Refusal::Broken(rules)),
            Err(Refusal::Broken(more)) => {
                rules.append(more)?;
                Err(Refusal::Broken(rules))
            }
            Err(Refusal::NoMemory) => Err(Refusal::NoMemory),
        },
        Err(Refusal::NoMemory) => Err(Refusal::NoMemory),
    }
}

/// Whether it nests too deep.
fn is_deep(one: &Broken) -> bool
    ensures { result ≡ spec.is_deep one.now }
{
    match one.rule {
        Rule::Recursive => true,
        Rule::Unknown
        | Rule::Twice
        | Rule::WrongType
        | Rule::Field
        | Rule::NotConst
        | Rule::FixedGlobal
        | Rule::Arguments
        | Rule::Return
        | Rule::Break
        | Rule::Attribute
        | Rule::Format => false,
    }
}

/// Whether something nests too deep.
fn has_deep(rules: &[Broken]) -> bool
    ensures { result ≡ list_any spec.is_deep rules.now }
{
    rules.iter().any(|one| is_deep(one))
}

/// The type behind a name: one that nests too deep is told at the name.
fn unless_deep(
    alloc: Global,
    place: Place,
    one: Result<ValueType, Refusal>,
) -> Result<ValueType, Refusal>
    ensures { (checked : Checked typed.ValueType) → Tells type_of one checked → Tells type_of result (spec.unless_deep place checked) }
{
    match one {
        Ok(one) => Ok(one),
        Err(Refusal::Broken(rules)) => {
            if has_deep(rules.as_slice()) {
                Err(Refusal::Broken(one_broken(alloc, Rule::Recursive, place)?))
            } else {
                Err(Refusal::Broken(Items::new(alloc)))
            }
        }
        Err(Refusal::NoMemory) => Err(Refusal::NoMemory),
    }
}

/// The first of some places, where a declared type stands there.
fn first_text(names: &Names<'_>, places: &[usize]) -> Option<usize>
    ensures is { option_and_then (text_at (scripts_in names.now).names) result ≡ option_and_then (text_at (scripts_in names.now).names) (slice_get places.now 0) }
    ensures text { IfSome result (λ place. is_some (text_at (scripts_in names.now).names place) ≡ true) }
    ensures first { IfSome result (λ place. slice_get places.now 0 ≡ Some place) }
{
    let place = *at(places, 0)?;
    match names.text_at(place) {
        Some(_) => Some(place),
        None => None,
    }
}

/// Where the text stands that the text of the declared type at a place stands for, if that is a name.
pub fn next_place(names: &Names<'_>, place: usize) -> Option<usize>
    ensures is { option_and_then (text_at (scripts_in names.now).names) result ≡ next_of (scripts_in names.now) (text_at (scripts_in names.now).names place) }
    ensures text { IfSome result (λ next. is_some (text_at (scripts_in names.now).names next) ≡ true) }
    ensures first { IfSome result (λ next. slice_get (steps (scripts_in names.now).names place) 0 ≡ Some next) }
{
    let Some((_home, tree)) = names.text_at(place) else {
        return None;
    };
    match tree {
        Type::Named { .. } => first_text(names, names.steps_at(place)),
        Type::Atomic { .. }
        | Type::Table { .. }
        | Type::Set { .. }
        | Type::Vector { .. }
        | Type::Record { .. }
        | Type::Enum { .. }
        | Type::Event { .. }
        | Type::Hook { .. }
        | Type::Procedure { .. }
        | Type::Function { .. } => None,
    }
}

/// Where the text stands of the declared type at a place, with the names followed that stand for others. There
/// is none where names stand for each other.
fn walked_end(names: &Names<'_>, place: usize) -> Option<usize>
    ensures { (text : Text) → text_at (scripts_in names.now).names place ≡ Some text → option_and_then (text_at (scripts_in names.now).names) result ≡ spec.followed (scripts_in names.now) text.0 text.1 }
{
    let most = names.declared().len();
    let mut end = place;
    for _step in 0..=most {
        match next_place(names, end) {
            Some(next) => end = next,
            None => return Some(end),
        }
    }
    None
}

/// The same, by what is known of all names.
fn end_place(names: &Names<'_>, place: usize) -> Option<usize>
    ensures { (text : Text) → text_at (scripts_in names.now).names place ≡ Some text → option_and_then (text_at (scripts_in names.now).names) result ≡ spec.followed (scripts_in names.now) text.0 text.1 }
{
    match at(&names.ends, place) {
        Some(end) => end_of(end),
        None => walked_end(names, place),
    }
}

/// The text of the declared type at a place, with the names followed that stand for others.
fn end_text<'a>(names: &Names<'a>, place: usize) -> Option<(Home<'a>, &'a Type)>
    ensures { (text : Text) → text_at (scripts_in names.now).names place ≡ Some text → option_map text_lent result ≡ spec.followed (scripts_in names.now) text.0 text.1 }
{
    match end_place(names, place) {
        Some(end) => names.text_at(end),
        None => None,
    }
}

/// No type, by a name that nothing declares.
fn unknown(alloc: Global, place: Place) -> Result<ValueType, Refusal>
    ensures { Tells type_of result (broken rule.Unknown place) }
{
    Err(Refusal::Broken(one_broken(alloc, Rule::Unknown, place)?))
}

/// A name that stands for no text.
fn known_type(
    alloc: Global,
    names: &Names<'_>,
    home: Home<'_>,
    name: &Name,
) -> Result<ValueType, Refusal>
    ensures { Tells type_of result (spec.known_type (spec.place_in (home_of home.entry) name.now.place) (look_up (scripts_in names.now).names home.entry.module_name.now name.now.text)) }
{
    let place = place_in(home, name.place);
    let Some(one) = names.look_up(alloc, home.module_name, name.text.as_slice())? else {
        return Err(Refusal::Broken(one_broken(alloc, Rule::Unknown, place)?));
    };
    match &one.meant {
        Meant::KnownType { known } => Ok(copied_type(alloc, known)?),
        Meant::WrittenType { .. } => Err(Refusal::Broken(Items::new(alloc))),
        Meant::Word { .. }
        | Meant::Variable { .. }
        | Meant::Event { .. }
        | Meant::Hook { .. }
        | Meant::Function { .. }
        | Meant::BuiltInFunction { .. }
        | Meant::Log { .. } => Err(Refusal::Broken(one_broken(alloc, Rule::WrongType, place)?)),
    }
}

/// A type whose parts nest at most so deep; a name is no level.
#[cycle(typing)]
#[tactic(auto, unfolding(crate::specs::Scripted::scripts_in))]
pub fn type_to(
    alloc: Global,
    depth: u8,
    names: &Names<'_>,
    home: Home<'_>,
    tree: &Type,
) -> Result<ValueType, Refusal>
    ensures { Tells type_of result (spec.type_to depth (scripts_in names.now) (home_of home.entry) tree.now) }
{
    if depth == 0 {
        let place = place_in(home, tree.place());
        return Err(Refusal::Broken(one_broken(alloc, Rule::Recursive, place)?));
    }
    match tree {
        Type::Named { name } => named_type(alloc, depth - 1, names, home, name),
        _ => formed(alloc, depth - 1, names, home, tree),
    }
}

/// A type by its form, whose parts nest at most so deep.
#[cycle(typing)]
#[tactic(auto, unfolding(crate::specs::Scripted::scripts_in))]
fn formed(
    alloc: Global,
    depth: u8,
    names: &Names<'_>,
    home: Home<'_>,
    tree: &Type,
) -> Result<ValueType, Refusal>
    ensures { Tells type_of result (spec.formed (spec.type_to depth (scripts_in names.now)) (scripts_in names.now) (home_of home.entry) tree.now) }
{
    match tree {
        Type::Atomic { place: _, atomic } => Ok(ValueType::Simple(simple_of(*atomic))),
        Type::Named { name } => known_type(alloc, names, home, name),
        Type::Table {
            place: _,
            keys,
            value,
        } => {
            let keys = keys_to(alloc, depth, names, home, keys.as_slice());
            let value = type_to(alloc, depth, names, home, value.get());
            table_of(alloc, keys, value)
        }
        Type::Set { place: _, keys } => {
            let keys = keys_to(alloc, depth, names, home, keys.as_slice())?;
            Ok(ValueType::Set { keys })
        }
        Type::Vector { place: _, item } => {
            let item = type_to(alloc, depth, names, home, item.get())?;
            let item = Boxed::new(alloc, item)?;
            Ok(ValueType::Vector { item })
        }
        Type::Record { place, fields: _ } => {
            let number = names.record_number(home.file, *place)?;
            Ok(record_type(number))
        }
        Type::Enum {
            place,
            words: _,
            comma: _,
        } => {
            let number = names.enum_number(home.file, *place)?;
            Ok(enum_type(number))
        }
        Type::Event { .. } | Type::Hook { .. } | Type::Procedure { .. } | Type::Function { .. } => {
            let place = place_in(home, tree.place());
            Err(Refusal::Broken(one_broken(alloc, Rule::WrongType, place)?))
        }
    }
}

/// The types of keys.
#[cycle(typing)]
fn keys_to(
    alloc: Global,
    depth: u8,
    names: &Names<'_>,
    home: Home<'_>,
    keys: &[Type],
) -> Result<Sequence<SimpleType>, Refusal>
    ensures { Tells (λ keys. keys) result (keys_to depth (scripts_in names.now) (home_of home.entry) keys.now) }
{
    let mut all = Ok(Sequence::new(alloc));
    for key in keys {
        let one = type_to(alloc, depth, names, home, key);
        let one = as_key(alloc, place_in(home, key.place()), one);
        all = appended(all, one);
    }
    all
}

/// The type of the declared type at a place, with the names followed that its text stands for, whose parts nest
/// at most so deep.
#[cycle(typing)]
fn behind_names(
    alloc: Global,
    depth: u8,
    names: &Names<'_>,
    place: usize,
) -> Result<ValueType, Refusal>
    ensures { (text : Text) → text_at (scripts_in names.now).names place ≡ Some text → Tells type_of result (spec.behind_names (spec.type_to depth (scripts_in names.now)) (scripts_in names.now) text.0 text.1) }
{
    match end_text(names, place) {
        Some((home, tree)) => formed(alloc, depth, names, home, tree),
        None => Err(Refusal::Broken(Items::new(alloc))),
    }
}

/// The type that the name at a place names, by what it stands for, whose parts nest at most so deep.
#[cycle(typing)]
fn placed_type(
    alloc: Global,
    depth: u8,
    names: &Names<'_>,
    named: usize,
    place: Place,
) -> Result<ValueType, Refusal>
    ensures { Tells type_of result (spec.named_type (spec.behind_names (spec.type_to depth (scripts_in names.now)) (scripts_in names.now)) (scripts_in names.now) place (slice_get (scripts_in names.now).names named)) }
{
    let Some(one) = names.name_at(named) else {
        return unknown(alloc, place);
    };
    match &one.meant {
        Meant::KnownType { known } => Ok(copied_type(alloc, known)?),
        Meant::WrittenType { .. } => {
            if names.is_circle(named) {
                return Err(Refusal::Broken(Items::new(alloc)));
            }
            let behind = behind_names(alloc, depth, names, named);
            unless_deep(alloc, place, behind)
        }
        Meant::Word { .. }
        | Meant::Variable { .. }
        | Meant::Event { .. }
        | Meant::Hook { .. }
        | Meant::Function { .. }
        | Meant::BuiltInFunction { .. }
        | Meant::Log { .. } => Err(Refusal::Broken(one_broken(alloc, Rule::WrongType, place)?)),
    }
}

/// The type that a name names, by what it stands for, whose parts nest at most so deep.
#[cycle(typing)]
pub fn named_type(
    alloc: Global,
    depth: u8,
    names: &Names<'_>,
    home: Home<'_>,
    name: &Name,
) -> Result<ValueType, Refusal>
    ensures { Tells type_of result (spec.type_of_name (spec.type_to depth (scripts_in names.now)) (scripts_in names.now) (home_of home.entry) name.now) }
{
    let place = place_in(home, name.place);
    let found = names.place_of(alloc, home.module_name, name.text.as_slice())?;
    match found {
        Some(named) => placed_type(alloc, depth, names, named, place),
        None => unknown(alloc, place),
    }
}
