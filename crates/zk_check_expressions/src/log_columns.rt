//! The columns that calls of the log framework choose.
ghost use Rattle.std.specs.Prelude.{◌≡◌, IfOk};
ghost use Rattle.std.specs.Option.{option_map};
ghost use Rattle.zk_scope.specs.Leaves.{leaf_of, leaves_lent};
ghost use Rattle.zk_typed.specs.Checked.{each};
ghost use Rattle.zk_typed.specs.Expressions as rules;
ghost use Rattle.zk_typed.specs.LogCalls as logs;
ghost use Rattle.zk_typed.specs.Tells.{Tells};
ghost use Rattle.zk_typed.specs.View.{type_of};
ghost use Rattle.zk_check_expressions.specs.Envs.{env_of};
ghost use Rattle.zk_check_expressions.specs.Judging.{Judges};
ghost use Rattle.zk_check_expressions.specs.LogSettings.{all_texts, item_text, literal_item, names_text, text_lent, texts_lent};

use crate::env::Env;
use crate::judge::Judge;
use crate::log_settings::text_of;
use std::alloc::{AllocError, Global};
use zk_base::{Mem, RecordNo, Sequence};
use zk_check_operators::{Typed, Wanted, with_part};
use zk_scope::Leaf;
use zk_tree::{Container, Expr, Item, Place};
use zk_typed::script::{SimpleType, ValueType};
use zk_typed::{Refusal, Rule, copied_keys, one_broken};

/// A name in quotes.
fn item_text(item: &Item) -> Option<&[u8]>
    ensures { text_lent result ≡ item_text item.now }
{
    match item {
        Item::Value { value } => text_of(value),
        Item::Field { .. } => None,
    }
}

/// A name in quotes among others.
fn literal_item<'a>(alloc: Global, place: Place, item: &'a Item) -> Result<&'a [u8], Refusal>
    ensures { Tells (λ name. name.now) result (literal_item place item.entry.now) }
{
    match item_text(item) {
        Some(name) => Ok(name),
        None => Err(Refusal::Broken(one_broken(alloc, Rule::Format, place)?)),
    }
}

/// The names in quotes of a set.
fn literal_items<'a>(
    alloc: Global,
    place: Place,
    items: &'a [Item],
) -> Result<Vec<&'a [u8]>, Refusal>
    ensures { Tells all_texts result (each (literal_item place) items.entry.now) }
{
    let mut all = Ok(Vec::new(alloc));
    for item in items {
        all = with_part(all, literal_item(alloc, place, item));
    }
    all
}

/// The names of `set("a", "b")`, where they are strings in quotes.
fn names_text<'a>(alloc: Global, place: Place, one: &'a Expr) -> Result<Vec<&'a [u8]>, Refusal>
    ensures { Tells all_texts result (names_text place one.entry.now) }
{
    match one {
        Expr::Make {
            container: Container::Set,
            items,
            ..
        } => literal_items(alloc, place, items.as_slice()),
        _ => Err(Refusal::Broken(one_broken(alloc, Rule::Format, place)?)),
    }
}

/// The type of sets of strings.
fn string_set(alloc: Global) -> Result<ValueType, AllocError>
    ensures { IfOk result (λ made. type_of made ≡ logs.string_set) }
{
    let keys = copied_keys(alloc, &[SimpleType::String])?;
    Ok(ValueType::Set { keys })
}

impl<F: Fn(Global, &Env<'_>, u64, Wanted<'_>, &Expr) -> Result<Typed, Refusal>> Judge<'_, F> {
    /// The names of `set("a", "b")`.
    #[tactic(auto, using(crate::proofs::Steps::passed))]
    pub fn names_setting<'i>(&self, one: &'i Expr) -> Result<Vec<&'i [u8]>, Refusal>
        requires { Judges self.now.depth (F.pre self.now.part) (F.post self.now.part) }
        ensures { Tells all_texts result (logs.names_setting (rules.expr_to self.now.depth (env_of self.now.env.now)) (env_of self.now.env.now) one.entry.now) }
    {
        let wanted = string_set(self.alloc)?;
        match self.check(Wanted::Type(&wanted), one) {
            Ok(judged) => {
                drop(judged);
                names_text(self.alloc, self.env.expr_place(one), one)
            }
            Err(refusal) => Err(refusal),
        }
    }
}

/// Whether a name is among some.
pub fn is_among(name: &[u8], names: &[&[u8]]) -> bool
    ensures { result ≡ logs.among name.now (texts_lent names.now) }
{
    for other in names {
        if *other == name {
            return true;
        }
    }
    false
}

/// Whether a filter keeps a column: one that is included, or any where none is named, but none that is
/// excluded.
fn keeps(included: Option<&[&[u8]]>, excluded: Option<&[&[u8]]>, leaf: &Leaf) -> bool
    ensures { result ≡ logs.keeps (option_map (λ names. texts_lent names.now) included.entry) (option_map (λ names. texts_lent names.now) excluded.entry) (leaf_of leaf.now) }
{
    let is_included = match included {
        Some(names) => is_among(&leaf.name, names),
        None => true,
    };
    let is_excluded = match excluded {
        Some(names) => is_among(&leaf.name, names),
        None => false,
    };
    is_included && !is_excluded
}

/// The places of the leaves that are marked `&log`.
fn logged_places(alloc: Global, leaves: &[Leaf]) -> Result<Sequence<u32>, Mem>
    ensures { IfOk result (λ columns. columns ≡ logs.places_of (λ leaf. leaf.log) 0 (leaves_lent leaves.now)) }
{
    let mut places = Vec::new(alloc);
    let mut place = 0_u32;
    for leaf in leaves {
        if leaf.log {
            places.push(place)?;
        }
        place = place.checked_add(1).ok_or(Mem)?;
    }
    Ok(Sequence::from(places))
}

/// The columns of a stream: the leaves of its record that are marked `&log`, by their numbers.
pub fn stream_columns(alloc: Global, env: &Env<'_>, number: RecordNo) -> Result<Sequence<u32>, Mem>
    ensures { IfOk result (λ columns. columns ≡ logs.places_of (λ leaf. leaf.log) 0 (logs.leaves (env_of env.now).scripts number)) }
{
    let leaves = env.scripts.leaves(alloc, number)?;
    logged_places(alloc, &leaves)
}

/// The places that a filter keeps among the leaves that are marked `&log`.
fn kept_places(
    alloc: Global,
    included: Option<&[&[u8]]>,
    excluded: Option<&[&[u8]]>,
    leaves: &[Leaf],
) -> Result<Sequence<u32>, Mem>
    ensures { IfOk result (λ columns. columns ≡ logs.places_of (logs.keeps (option_map (λ names. texts_lent names.now) included.entry) (option_map (λ names. texts_lent names.now) excluded.entry)) 0 (logs.logged (leaves_lent leaves.now))) }
{
    let mut places = Vec::new(alloc);
    let mut place = 0_u32;
    for leaf in leaves {
        if leaf.log {
            if keeps(included, excluded, leaf) {
                places.push(place)?;
            }
            place = place.checked_add(1).ok_or(Mem)?;
        }
    }
    Ok(Sequence::from(places))
}

/// The columns of a filter, by their numbers among those of the stream.
pub fn filter_columns(
    alloc: Global,
    env: &Env<'_>,
    included: Option<&[&[u8]]>,
    excluded: Option<&[&[u8]]>,
    number: RecordNo,
) -> Result<Sequence<u32>, Mem>
    ensures { IfOk result (λ columns. columns ≡ logs.places_of (logs.keeps (option_map (λ names. texts_lent names.now) included.entry) (option_map (λ names. texts_lent names.now) excluded.entry)) 0 (logs.logged (logs.leaves (env_of env.now).scripts number))) }
{
    let leaves = env.scripts.leaves(alloc, number)?;
    kept_places(alloc, included, excluded, &leaves)
}
