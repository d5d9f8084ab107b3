ghost use Rattle.std.specs.Prelude.{◌≡◌, ℕ, ◌==◌, ◌||◌, ◌∷◌, ◌++◌, [], List, not, map, IfOk, OnOk};
ghost use Rattle.std.specs.List.{list_any};
ghost use Rattle.std.specs.Option.{option_map};
ghost use Rattle.zk_scope.specs.Fields.{fields_lent, field_of, known_or};
ghost use Rattle.zk_check_operators.specs.Views.{typed_of};
ghost use Rattle.zk_typed.specs.Checked.{each};
ghost use Rattle.zk_typed.specs.Expressions as rules;
ghost use Rattle.zk_typed.specs.Forms as form;
ghost use Rattle.zk_typed.specs.Making as making;
ghost use Rattle.zk_typed.specs.Tells.{Tells};
ghost use Rattle.zk_typed.specs.Types.{Record};
ghost use Rattle.zk_typed.specs.Typing as spec;
ghost use Rattle.zk_typed.specs.View.{type_of};
ghost use Rattle.zk_check_expressions.specs.Envs.{env_of};
ghost use Rattle.zk_check_expressions.specs.Fields.{field_found};
ghost use Rattle.zk_check_expressions.specs.Judging.{Judges};
ghost use Rattle.zk_check_expressions.specs.Marks.{Marks};
ghost use Rattle.zk_check_expressions.specs.Records.{given_of, all_given_of, known_given, field_given, again_rules, twice_rules, all_fields, IsGiven, record_given};

use crate::env::Env;
use crate::fields::{Read, field_named, wire_read};
use crate::judge::Judge;
use crate::refuse::{refused, unclear, wrong};
use sqlite_items::Items;
use std::alloc::{AllocError, Global};
use std::collections::BTreeSet;
use zk_base::{Mem, RecordNo};
use zk_check_operators::{Typed, Wanted, with_part};
use zk_scope::FieldInfo;
use zk_tree::{Expr, Item, Place};
use zk_typed::script::{Expr as TypedExpr, Given, ValueType};
use zk_typed::{Broken, Refusal, Rule, one_broken};

/// A field that a constructor gives.
#[derive(Debug, Drop)]
pub struct GivenField {
    number: u32,
    wire: bool,
    value: Typed,
}

impl<F: Fn(Global, &Env<'_>, u64, Wanted<'_>, &Expr) -> Result<Typed, Refusal>> Judge<'_, F> {
    /// A value for a field.
    #[tactic(auto, using(crate::proofs::Refusals::hushed_behind))]
    fn field_value(&self, value_type: &Option<ValueType>, value: &Expr) -> Result<Typed, Refusal>
        requires { Judges self.now.depth (F.pre self.now.part) (F.post self.now.part) }
        ensures { Tells typed_of result (known_given (rules.expr_to self.now.depth (env_of self.now.env.now)) (known_or (option_map type_of value_type.now)) value.now) }
    {
        match value_type {
            Some(wanted) => self.check(Wanted::Type(wanted), value),
            None => {
                let judged = self.check(Wanted::Unclear, value);
                Err(unclear(self.alloc, judged))
            }
        }
    }

    /// A value for what its name was found to name.
    #[tactic(auto, using(crate::proofs::Steps::passed, crate::proofs::Refusals::refused))]
    fn given_value(
        &self,
        place: u64,
        value: &Expr,
        found: Option<(u32, &FieldInfo<'_>)>,
    ) -> Result<GivenField, Refusal>
        requires { Judges self.now.depth (F.pre self.now.part) (F.post self.now.part) }
        ensures { Tells given_of result (field_given (rules.expr_to self.now.depth (env_of self.now.env.now)) (env_of self.now.env.now) place value.now (option_map field_found found.entry)) }
    {
        match found {
            None => {
                let judged = self.check(Wanted::Nothing, value);
                Err(refused(self.alloc, judged, Rule::Field, self.env.at(place)))
            }
            Some((number, field)) => match self.field_value(&field.field_type, value) {
                Ok(value) => Ok(GivenField {
                    number,
                    wire: field.wire,
                    value,
                }),
                Err(refusal) => Err(refusal),
            },
        }
    }

    /// An item of a constructor.
    #[tactic(auto, using(crate::proofs::Refusals::refused))]
    fn given_field(&self, fields: &[FieldInfo<'_>], item: &Item) -> Result<GivenField, Refusal>
        requires { Judges self.now.depth (F.pre self.now.part) (F.post self.now.part) }
        ensures { Tells given_of result (making.given_field (rules.expr_to self.now.depth (env_of self.now.env.now)) (env_of self.now.env.now) (fields_lent fields.now) item.now) }
    {
        match item {
            Item::Field { place, name, value } => {
                let found = field_named(fields, name.text.as_slice())?;
                self.given_value(*place, value, found)
            }
            Item::Value { value } => {
                let judged = self.check(Wanted::Nothing, value);
                Err(wrong(self.alloc, judged, self.env.expr_place(value)))
            }
        }
    }

    /// The items of a constructor.
    fn each_given(
        &self,
        fields: &[FieldInfo<'_>],
        items: &[Item],
    ) -> Result<Vec<GivenField>, Refusal>
        requires { Judges self.now.depth (F.pre self.now.part) (F.post self.now.part) }
        ensures { Tells all_given_of result (each (making.given_field (rules.expr_to self.now.depth (env_of self.now.env.now)) (env_of self.now.env.now) (fields_lent fields.now)) items.now) }
    {
        let mut all = Ok(Vec::new(self.alloc));
        for item in items {
            all = with_part(all, self.given_field(fields, item));
        }
        all
    }
}

/// The place of an item.
fn item_place(env: &Env<'_>, item: &Item) -> Place
    ensures { result ≡ making.item_place (env_of env.now) item.now }
{
    match item {
        Item::Field { place, .. } => env.at(*place),
        Item::Value { value } => env.expr_place(value),
    }
}

/// Marks a number, and answers whether it wasn't marked before.
#[tactic(auto, using(crate::proofs::MarkLaws::marks_more))]
fn mark(marked: &mut BTreeSet<usize>, number: usize) -> Result<bool, AllocError>
    ensures { IfOk result (λ new. (before : List ℕ) → Marks marked.old before → (new ≡ not (list_any (λ one. one == number) before)) × Marks marked.new (number ∷ before)) }
{
    Ok(marked.insert(number)?)
}

/// Tells an item that gives a field again.
fn tell_again(rules: &mut Items<Broken>, new: bool, place: Place) -> Result<(), AllocError>
    ensures { OnOk result (rules.new ≡ rules.old ++ again_rules (not new) place) }
{
    if new {
        return Ok(());
    }
    rules.push(Broken {
        rule: Rule::Twice,
        place,
    })
}

/// The items that give a field again, by their rules.
fn given_again(
    alloc: Global,
    env: &Env<'_>,
    items: &[Item],
    given: &[GivenField],
) -> Result<Items<Broken>, AllocError>
    ensures { IfOk result (λ rules. rules ≡ twice_rules (env_of env.now) [] items.now (map given_of given.now)) }
{
    let mut rules = Items::new(alloc);
    let mut marked = BTreeSet::new(alloc);
    let mut others = given;
    for item in items {
        match others.split_first() {
            None => return Ok(rules),
            Some((one, rest)) => {
                let new = mark(&mut marked, one.number as usize)?;
                tell_again(&mut rules, new, item_place(env, item))?;
                others = rest;
            }
        }
    }
    Ok(rules)
}

/// No field is given twice.
#[tactic(auto, using(crate::proofs::Once::once_is))]
fn given_once(
    alloc: Global,
    env: &Env<'_>,
    items: &[Item],
    given: &[GivenField],
) -> Result<(), Refusal>
    ensures { Tells (λ done. done) result (making.given_once (env_of env.now) [] items.now (map given_of given.now)) }
{
    let rules = given_again(alloc, env, items, given)?;
    if rules.is_empty() {
        Ok(())
    } else {
        Err(Refusal::Broken(rules))
    }
}

/// Whether a constructor needn't give a field.
fn may_lack(field: &FieldInfo<'_>) -> bool
    ensures { result ≡ making.may_lack (field_of field.now) }
{
    let made = match &field.field_type {
        None => true,
        Some(one) => match one {
            ValueType::Simple(_) | ValueType::Record(_) => false,
            ValueType::Table { .. } | ValueType::Set { .. } | ValueType::Vector { .. } => true,
        },
    };
    field.optional || field.default.is_some() || made
}

/// The numbers of the fields that are given.
fn given_numbers(alloc: Global, given: &[GivenField]) -> Result<BTreeSet<usize>, AllocError>
    ensures { IfOk result (λ marked. Marks marked (map (λ one. one.number) given.now)) }
{
    let mut marked = BTreeSet::new(alloc);
    for one in given {
        mark(&mut marked, one.number as usize)?;
    }
    Ok(marked)
}

/// Whether a field needn't be given, or is.
fn is_given(marked: &BTreeSet<usize>, number: usize, field: &FieldInfo<'_>) -> bool
    ensures { (numbers : List ℕ) → Marks marked.now numbers → result ≡ (making.may_lack (field_of field.now) || list_any (λ one. one == number) numbers) }
{
    may_lack(field) || marked.contains(&number)
}

/// Whether all fields are given that a constructor has to give.
fn all_given(
    alloc: Global,
    fields: &[FieldInfo<'_>],
    given: &[GivenField],
) -> Result<bool, AllocError>
    ensures { IfOk result (λ all. all ≡ making.all_given 0 (fields_lent fields.now) (map given_of given.now)) }
{
    let marked = given_numbers(alloc, given)?;
    for (at, field) in fields.iter().enumerate() {
        if !is_given(&marked, at, field) {
            return Ok(false);
        }
    }
    Ok(true)
}

/// A field as it is given: one marked `&wire` that is read from another takes it by a form of its own.
fn as_given(alloc: Global, env: &Env<'_>, one: GivenField) -> Result<Given, Mem>
    ensures { IfOk result (λ made. IsGiven (env_of env.now) one made) }
{
    let GivenField {
        number: field,
        wire,
        value,
    } = one;
    if !wire {
        return Ok(Given::Value {
            field,
            value: value.expr,
        });
    }
    match wire_read(alloc, env, value.expr)? {
        Read::Wire { from, read } => Ok(Given::Wire { field, from, read }),
        Read::Whole(value) => Ok(Given::Value { field, value }),
    }
}

/// The fields as they are given.
#[tactic(auto, using(crate::proofs::Once::given_all))]
fn givens(alloc: Global, env: &Env<'_>, given: Vec<GivenField>) -> Result<Items<Given>, Mem>
    ensures { IfOk result (λ all. all_fields all ≡ making.givens (env_of env.now) (map given_of given.items)) }
{
    let mut all = Items::new(alloc);
    for one in given {
        let made = as_given(alloc, env, one)?;
        all.push(made)?;
    }
    Ok(all)
}

/// A record by the fields that its constructor gives.
fn made_record(
    alloc: Global,
    env: &Env<'_>,
    number: RecordNo,
    given: Vec<GivenField>,
) -> Result<Typed, Mem>
    ensures { IfOk result (λ made. typed_of made ≡ spec.typed (Record number) (form.New number (making.givens (env_of env.now) (map given_of given.items)))) }
{
    let given = givens(alloc, env, given)?;
    Ok(Typed {
        value_type: ValueType::Record(number),
        expr: TypedExpr::New {
            record: number,
            given,
        },
    })
}

/// A record by the items of its constructor, which have given its fields.
fn record_of(
    alloc: Global,
    env: &Env<'_>,
    place: Place,
    number: RecordNo,
    fields: &[FieldInfo<'_>],
    items: &[Item],
    given: Vec<GivenField>,
) -> Result<Typed, Refusal>
    ensures { Tells typed_of result (record_given (env_of env.now) place number (fields_lent fields.now) items.now (map given_of given.items)) }
{
    given_once(alloc, env, items, &given)?;
    if !all_given(alloc, fields, &given)? {
        return Err(Refusal::Broken(one_broken(alloc, Rule::Field, place)?));
    }
    Ok(made_record(alloc, env, number, given)?)
}

impl<F: Fn(Global, &Env<'_>, u64, Wanted<'_>, &Expr) -> Result<Typed, Refusal>> Judge<'_, F> {
    /// A record of a type, by the items of its constructor.
    #[tactic(auto, using(crate::proofs::Steps::given_passed))]
    pub fn record_typed(
        &self,
        place: Place,
        number: RecordNo,
        items: &[Item],
    ) -> Result<Typed, Refusal>
        requires { Judges self.now.depth (F.pre self.now.part) (F.post self.now.part) }
        ensures { Tells typed_of result (making.record_typed (rules.expr_to self.now.depth (env_of self.now.env.now)) (env_of self.now.env.now) place number items.now) }
    {
        let fields = self.env.scripts.fields_of(self.alloc, number)?;
        match self.each_given(&fields, items) {
            Ok(given) => record_of(self.alloc, self.env, place, number, &fields, items, given),
            Err(refusal) => Err(refusal),
        }
    }
}
