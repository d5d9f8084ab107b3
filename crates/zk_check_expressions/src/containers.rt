ghost use Rattle.std.specs.Prelude.{◌≡◌, map, IfOk, Err};
ghost use Rattle.zk_check_operators.specs.Views.{typed_of, typed_all, all_typed, wanted_in};
ghost use Rattle.zk_typed.specs.Checked.{broken_anyway, each};
ghost use Rattle.zk_tree.specs.declared.operator.Container.TheVariants as container;
ghost use Rattle.zk_typed.specs.declared.rule.Rule.TheVariants as rule;
ghost use Rattle.zk_typed.specs.declared.script.primitive.Primitive.TheVariants as primitive;
ghost use Rattle.zk_typed.specs.Expressions as rules;
ghost use Rattle.zk_typed.specs.Making as making;
ghost use Rattle.zk_typed.specs.Tells.{Tells};
ghost use Rattle.zk_typed.specs.Operations.{same_type};
ghost use Rattle.zk_typed.specs.Types.{Simple, Table, Set, Vector};
ghost use Rattle.zk_typed.specs.Typing as spec;
ghost use Rattle.zk_typed.specs.Typing.{Check, Env as EnvForm};
ghost use Rattle.zk_typed.specs.View.{type_of};
ghost use Rattle.zk_check_expressions.specs.Envs.{env_of};
ghost use Rattle.zk_check_expressions.specs.Judging.{Judges};
ghost use Rattle.zk_check_expressions.specs.Members.{member_of, members_of, keys_same, is_same, all_same, container_in};
ghost use Rattle.zk_check_expressions.specs.Parts.{then_unclear};

use crate::env::Env;
use crate::judge::Judge;
use crate::members::{Member, Members, joined};
use crate::refuse::{unclear, wrong};
use sqlite_items::Boxed;
use std::alloc::{AllocError, Global};
use zk_base::{Mem, Sequence};
use zk_check_operators::{
    Typed, Wanted, applied, operands_of, plain_shape, same_type, simple_type, vector_alone,
    with_part,
};
use zk_tree::{Container, Expr, Item, Place};
use zk_typed::script::{Primitive, SimpleType, ValueType};
use zk_typed::{Refusal, Rule, copied_keys, copied_type, one_broken};

/// The type of tables with keys of these types and values of a type.
#[tactic(auto, using(crate::proofs::ElementLaws::table_is))]
fn table_of(alloc: Global, keys: &[SimpleType], value: &ValueType) -> Result<ValueType, AllocError>
    ensures { IfOk result (λ made. type_of made ≡ Table keys.now (type_of value.now)) }
{
    let keys = copied_keys(alloc, keys)?;
    let value = copied_type(alloc, value)?;
    let value = Boxed::new(alloc, value)?;
    Ok(ValueType::Table { keys, value })
}

/// A table of entries.
fn new_table(
    alloc: Global,
    keys: &[SimpleType],
    value: &ValueType,
    members: Vec<Vec<Typed>>,
) -> Result<Typed, Mem>
    ensures { IfOk result (λ made. typed_of made ≡ spec.typed (Table keys.now (type_of value.now)) (spec.apply (primitive.NewTable (making.plain_shape keys.now)) (making.joined (map all_typed members.items)))) }
{
    let shape = plain_shape(keys)?;
    let operands = operands_of(alloc, joined(alloc, members)?)?;
    let value_type = table_of(alloc, keys, value)?;
    Ok(applied(value_type, Primitive::NewTable(shape), operands))
}

/// A set of members.
fn new_set(alloc: Global, keys: &[SimpleType], members: Vec<Vec<Typed>>) -> Result<Typed, Mem>
    ensures { IfOk result (λ made. typed_of made ≡ spec.typed (Set keys.now) (spec.apply (primitive.NewSet (making.plain_shape keys.now)) (making.joined (map all_typed members.items)))) }
{
    let shape = plain_shape(keys)?;
    let operands = operands_of(alloc, joined(alloc, members)?)?;
    let value_type = ValueType::Set {
        keys: copied_keys(alloc, keys)?,
    };
    Ok(applied(value_type, Primitive::NewSet(shape), operands))
}

/// A vector of items of a type.
fn new_vector(alloc: Global, item: &ValueType, members: Vec<Vec<Typed>>) -> Result<Typed, Mem>
    ensures { IfOk result (λ made. typed_of made ≡ spec.typed (Vector (type_of item.now)) (spec.apply primitive.NewVector (making.joined (map all_typed members.items)))) }
{
    let operands = operands_of(alloc, joined(alloc, members)?)?;
    let value_type = ValueType::Vector {
        item: Boxed::new(alloc, copied_type(alloc, item)?)?,
    };
    Ok(applied(value_type, Primitive::NewVector, operands))
}

/// The types of the keys of a set, by those of a member.
fn simple_types(alloc: Global, place: Place, ones: &[Typed]) -> Result<Vec<SimpleType>, Refusal>
    ensures { Tells (λ keys. keys.items) result (making.simple_types place (typed_all ones.now)) }
{
    let mut all = Ok(Vec::new(alloc));
    for one in ones {
        all = with_part(all, simple_type(alloc, place, one));
    }
    all
}

/// Whether a value has the type of a key.
#[tactic(auto, using(crate::proofs::KeyLaws::simple_is))]
fn has_type(key: SimpleType, one: &Typed) -> bool
    ensures { result ≡ same_type (type_of one.now.value_type) (Simple key) }
{
    same_type(&one.value_type, &ValueType::Simple(key))
}

/// Whether values have the types of keys, as far as there are both.
fn fitting(keys: &[SimpleType], ones: &[Typed]) -> bool
    ensures { result ≡ keys_same keys.now (typed_all ones.now) }
{
    let mut others = keys;
    for one in ones {
        match others.split_first() {
            None => return true,
            Some((key, rest)) => {
                if !has_type(*key, one) {
                    return false;
                }
                others = rest;
            }
        }
    }
    true
}

/// Whether a member has so many keys, of these types.
#[tactic(auto, using(crate::proofs::MemberLaws::typed_length))]
fn fits(keys: &[SimpleType], count: usize, one: &[Typed]) -> bool
    ensures { result ≡ is_same count keys.now (typed_all one.now) }
{
    one.len() == count && fitting(keys, one)
}

/// Whether members have so many keys, of these types.
fn all_fit(keys: &[SimpleType], count: usize, members: &[Vec<Typed>]) -> bool
    ensures { result ≡ all_same count keys.now (map all_typed members.now) }
{
    for one in members {
        if !fits(keys, count, one) {
            return false;
        }
    }
    true
}

/// A set of the types that the keys of its members have.
#[tactic(auto, using(crate::proofs::MemberLaws::set_is))]
fn set_alone(alloc: Global, place: Place, members: Vec<Vec<Typed>>) -> Result<Typed, Refusal>
    ensures { Tells typed_of result (making.set_alone place (map all_typed members.items)) }
{
    let Some((first, others)) = members.split_first() else {
        return Err(Refusal::Broken(one_broken(alloc, Rule::WrongType, place)?));
    };
    let keys = simple_types(alloc, place, first)?;
    if !all_fit(&keys, first.len(), others) {
        return Err(Refusal::Broken(one_broken(alloc, Rule::WrongType, place)?));
    }
    Ok(new_set(alloc, &keys, members)?)
}

/// How a member is checked where no container of its kind is wanted.
fn loosely(made: Container, wanted: Wanted<'_>) -> Member<'_>
    ensures { (check : Check) (env : EnvForm) → member_of check env result ≡ making.loosely check env made (wanted_in wanted.entry) }
{
    match made {
        Container::Vector => Member::Value(wanted),
        Container::Table | Container::Set => Member::Loose(wanted),
    }
}

/// The container of a type.
fn container_of(one: &ValueType) -> Option<Container>
    ensures { result ≡ container_in (type_of one.now) }
{
    match one {
        ValueType::Table { .. } => Some(Container::Table),
        ValueType::Set { .. } => Some(Container::Set),
        ValueType::Vector { .. } => Some(Container::Vector),
        ValueType::Simple(_) | ValueType::Record(_) => None,
    }
}

impl<F: Fn(Global, &Env<'_>, u64, Wanted<'_>, &Expr) -> Result<Typed, Refusal>> Judge<'_, F> {
    /// The members of a container where what is wanted isn't known.
    fn unclear_members(&self, made: Container, members: Members<'_>) -> Refusal
        requires { Judges self.now.depth (F.pre self.now.part) (F.post self.now.part) }
        ensures { Tells typed_of (Err result) (then_unclear (members_of (rules.expr_to self.now.depth (env_of self.now.env.now)) (env_of self.now.env.now) members.entry (making.loosely (rules.expr_to self.now.depth (env_of self.now.env.now)) (env_of self.now.env.now) made spec.Unclear))) }
    {
        let judged = self.members(loosely(made, Wanted::Unclear), members);
        unclear(self.alloc, judged)
    }

    /// The members of a container where none of its kind is wanted.
    fn misplaced_members(&self, place: Place, made: Container, members: Members<'_>) -> Refusal
        requires { Judges self.now.depth (F.pre self.now.part) (F.post self.now.part) }
        ensures { Tells typed_of (Err result) (broken_anyway (members_of (rules.expr_to self.now.depth (env_of self.now.env.now)) (env_of self.now.env.now) members.entry (making.loosely (rules.expr_to self.now.depth (env_of self.now.env.now)) (env_of self.now.env.now) made spec.Nothing)) rule.WrongType place) }
    {
        let judged = self.members(loosely(made, Wanted::Nothing), members);
        wrong(self.alloc, judged, place)
    }

    /// A table of a type that is wanted.
    #[tactic(auto, using(crate::proofs::Steps::members_passed))]
    fn wanted_table(
        &self,
        place: Place,
        members: Members<'_>,
        wanted: &ValueType,
    ) -> Result<Typed, Refusal>
        requires { Judges self.now.depth (F.pre self.now.part) (F.post self.now.part) }
        ensures { Tells typed_of result (making.wanted_container (rules.expr_to self.now.depth (env_of self.now.env.now)) (env_of self.now.env.now) place container.Table (members_of (rules.expr_to self.now.depth (env_of self.now.env.now)) (env_of self.now.env.now) members.entry) (type_of wanted.now)) }
    {
        match wanted {
            ValueType::Table { keys, value } => {
                let kind = Member::Entry {
                    keys: keys.as_slice(),
                    value: value.get(),
                };
                match self.members(kind, members) {
                    Ok(all) => Ok(new_table(self.alloc, keys.as_slice(), value.get(), all)?),
                    Err(refusal) => Err(refusal),
                }
            }
            ValueType::Simple(_)
            | ValueType::Record(_)
            | ValueType::Set { .. }
            | ValueType::Vector { .. } => {
                Err(self.misplaced_members(place, Container::Table, members))
            }
        }
    }

    /// A set of a type that is wanted.
    #[tactic(auto, using(crate::proofs::Steps::members_passed))]
    fn wanted_set(
        &self,
        place: Place,
        members: Members<'_>,
        wanted: &ValueType,
    ) -> Result<Typed, Refusal>
        requires { Judges self.now.depth (F.pre self.now.part) (F.post self.now.part) }
        ensures { Tells typed_of result (making.wanted_container (rules.expr_to self.now.depth (env_of self.now.env.now)) (env_of self.now.env.now) place container.Set (members_of (rules.expr_to self.now.depth (env_of self.now.env.now)) (env_of self.now.env.now) members.entry) (type_of wanted.now)) }
    {
        match wanted {
            ValueType::Set { keys } => {
                match self.members(Member::Keys(keys.as_slice()), members) {
                    Ok(all) => Ok(new_set(self.alloc, keys.as_slice(), all)?),
                    Err(refusal) => Err(refusal),
                }
            }
            ValueType::Simple(_)
            | ValueType::Record(_)
            | ValueType::Table { .. }
            | ValueType::Vector { .. } => {
                Err(self.misplaced_members(place, Container::Set, members))
            }
        }
    }

    /// A vector of a type that is wanted.
    #[tactic(auto, using(crate::proofs::Steps::members_passed))]
    fn wanted_vector(
        &self,
        place: Place,
        members: Members<'_>,
        wanted: &ValueType,
    ) -> Result<Typed, Refusal>
        requires { Judges self.now.depth (F.pre self.now.part) (F.post self.now.part) }
        ensures { Tells typed_of result (making.wanted_container (rules.expr_to self.now.depth (env_of self.now.env.now)) (env_of self.now.env.now) place container.Vector (members_of (rules.expr_to self.now.depth (env_of self.now.env.now)) (env_of self.now.env.now) members.entry) (type_of wanted.now)) }
    {
        match wanted {
            ValueType::Vector { item } => {
                let kind = Member::Value(Wanted::Type(item.get()));
                match self.members(kind, members) {
                    Ok(all) => Ok(new_vector(self.alloc, item.get(), all)?),
                    Err(refusal) => Err(refusal),
                }
            }
            ValueType::Simple(_)
            | ValueType::Record(_)
            | ValueType::Table { .. }
            | ValueType::Set { .. } => {
                Err(self.misplaced_members(place, Container::Vector, members))
            }
        }
    }

    /// A container of a type that is wanted.
    fn wanted_container(
        &self,
        place: Place,
        made: Container,
        members: Members<'_>,
        wanted: &ValueType,
    ) -> Result<Typed, Refusal>
        requires { Judges self.now.depth (F.pre self.now.part) (F.post self.now.part) }
        ensures { Tells typed_of result (making.wanted_container (rules.expr_to self.now.depth (env_of self.now.env.now)) (env_of self.now.env.now) place made (members_of (rules.expr_to self.now.depth (env_of self.now.env.now)) (env_of self.now.env.now) members.entry) (type_of wanted.now)) }
    {
        match made {
            Container::Table => self.wanted_table(place, members, wanted),
            Container::Set => self.wanted_set(place, members, wanted),
            Container::Vector => self.wanted_vector(place, members, wanted),
        }
    }

    /// A container where no type is wanted.
    #[tactic(auto, using(crate::proofs::Steps::members_passed, crate::proofs::Refusals::refused))]
    fn container_alone(
        &self,
        place: Place,
        made: Container,
        members: Members<'_>,
    ) -> Result<Typed, Refusal>
        requires { Judges self.now.depth (F.pre self.now.part) (F.post self.now.part) }
        ensures { Tells typed_of result (making.container_alone (rules.expr_to self.now.depth (env_of self.now.env.now)) (env_of self.now.env.now) place made (members_of (rules.expr_to self.now.depth (env_of self.now.env.now)) (env_of self.now.env.now) members.entry)) }
    {
        match made {
            Container::Set => match self.members(Member::Free, members) {
                Ok(all) => set_alone(self.alloc, place, all),
                Err(refusal) => Err(refusal),
            },
            Container::Vector => match self.members(Member::Value(Wanted::Nothing), members) {
                Ok(all) => vector_alone(self.alloc, place, joined(self.alloc, all)?),
                Err(refusal) => Err(refusal),
            },
            Container::Table => {
                let judged = self.members(Member::Loose(Wanted::Nothing), members);
                Err(wrong(self.alloc, judged, place))
            }
        }
    }

    /// A container.
    #[tactic(auto, using(crate::proofs::Refusals::hushed))]
    pub fn container_typed(
        &self,
        place: Place,
        made: Container,
        items: &[Item],
        wanted: Wanted<'_>,
    ) -> Result<Typed, Refusal>
        requires { Judges self.now.depth (F.pre self.now.part) (F.post self.now.part) }
        ensures { Tells typed_of result (making.container_typed (rules.expr_to self.now.depth (env_of self.now.env.now)) (env_of self.now.env.now) place made (making.members_in (rules.expr_to self.now.depth (env_of self.now.env.now)) (env_of self.now.env.now) items.now) (wanted_in wanted.entry)) }
    {
        let members = Members::Items(items);
        match wanted {
            Wanted::Nothing => self.container_alone(place, made, members),
            Wanted::Type(one) => self.wanted_container(place, made, members, one),
            Wanted::Unclear => Err(self.unclear_members(made, members)),
        }
    }

    /// Values in braces where the type of no container is wanted.
    #[tactic(auto, using(crate::proofs::Refusals::refused))]
    fn misplaced_braces(&self, place: Place, values: &[Expr]) -> Refusal
        requires { Judges self.now.depth (F.pre self.now.part) (F.post self.now.part) }
        ensures { Tells typed_of (Err result) (broken_anyway (each (making.loose (rules.expr_to self.now.depth (env_of self.now.env.now)) (env_of self.now.env.now) spec.Nothing) values.now) rule.WrongType place) }
    {
        let judged = self.members(Member::Loose(Wanted::Nothing), Members::Values(values));
        wrong(self.alloc, judged, place)
    }

    /// What values in braces make: what is wanted.
    #[tactic(auto, using(crate::proofs::Refusals::hushed, crate::proofs::MemberLaws::braces_is))]
    pub fn braces_typed(
        &self,
        place: Place,
        values: &[Expr],
        wanted: Wanted<'_>,
    ) -> Result<Typed, Refusal>
        requires { Judges self.now.depth (F.pre self.now.part) (F.post self.now.part) }
        ensures { Tells typed_of result (making.braces_typed (rules.expr_to self.now.depth (env_of self.now.env.now)) (env_of self.now.env.now) place values.now (wanted_in wanted.entry)) }
    {
        match wanted {
            Wanted::Type(one) => match container_of(one) {
                Some(made) => self.wanted_container(place, made, Members::Values(values), one),
                None => Err(self.misplaced_braces(place, values)),
            },
            Wanted::Unclear => {
                let judged = self.members(Member::Loose(Wanted::Unclear), Members::Values(values));
                Err(unclear(self.alloc, judged))
            }
            Wanted::Nothing => Err(self.misplaced_braces(place, values)),
        }
    }

    /// Items in brackets: the constructor of a record where one is wanted.
    #[tactic(auto, using(crate::proofs::Refusals::refused, crate::proofs::Refusals::hushed))]
    pub fn brackets_typed(
        &self,
        place: Place,
        items: &[Item],
        wanted: Wanted<'_>,
    ) -> Result<Typed, Refusal>
        requires { Judges self.now.depth (F.pre self.now.part) (F.post self.now.part) }
        ensures { Tells typed_of result (making.brackets_typed (rules.expr_to self.now.depth (env_of self.now.env.now)) (env_of self.now.env.now) place items.now (wanted_in wanted.entry)) }
    {
        match wanted {
            Wanted::Type(ValueType::Record(record)) => self.record_typed(place, *record, items),
            Wanted::Unclear => {
                let judged = self.item_values(Wanted::Unclear, items);
                Err(unclear(self.alloc, judged))
            }
            Wanted::Type(_) | Wanted::Nothing => {
                let judged = self.item_values(Wanted::Nothing, items);
                Err(wrong(self.alloc, judged, place))
            }
        }
    }
}
