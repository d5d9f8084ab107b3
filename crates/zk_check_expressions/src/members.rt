ghost use Rattle.std.specs.Prelude.{◌≡◌, map, Err, IfOk};
ghost use Rattle.std.specs.Option.{option_map};
ghost use Rattle.zk_check_operators.specs.Views.{typed_all, all_typed, wanted_in};
ghost use Rattle.zk_typed.specs.Checked.{broken_anyway, each};
ghost use Rattle.zk_typed.specs.declared.rule.Rule.TheVariants as rule;
ghost use Rattle.zk_typed.specs.Expressions as rules;
ghost use Rattle.zk_typed.specs.Making as making;
ghost use Rattle.zk_typed.specs.Tells.{Tells};
ghost use Rattle.zk_typed.specs.Typing as spec;
ghost use Rattle.zk_typed.specs.View.{type_of};
ghost use Rattle.zk_check_expressions.specs.Envs.{env_of};
ghost use Rattle.zk_check_expressions.specs.Judging.{Judges};
ghost use Rattle.zk_check_expressions.specs.Members.{member_of, members_of, all_members, brackets_in, lone_key, several_keys};
ghost use Rattle.zk_check_expressions.specs.Parts.{with_last};

use crate::env::Env;
use crate::judge::Judge;
use crate::refuse::wrong;
use crate::rows::{alone, simple_types};
use std::alloc::{AllocError, Global};
use zk_check_operators::{Typed, Wanted, with_part};
use zk_tree::{Assigning, Expr, Item, Place};
use zk_typed::script::{SimpleType, ValueType};
use zk_typed::{Refusal, Rule};

/// What a member of a container is to be.
#[derive(Clone, Copy)]
pub enum Member<'a> {
    /// An entry of a table, `[k] = v`.
    Entry {
        keys: &'a [SimpleType],
        value: &'a ValueType,
    },
    /// The keys of a member of a set.
    Keys(&'a [SimpleType]),
    /// One value.
    Value(Wanted<'a>),
    /// Keys whose types no place asks.
    Free,
    /// An entry or keys where no container of their kind is wanted.
    Loose(Wanted<'a>),
}

/// The members of a container as they are written.
#[derive(Clone, Copy)]
pub enum Members<'a> {
    /// As the items of a constructor.
    Items(&'a [Item]),
    /// In braces.
    Values(&'a [Expr]),
}

/// What stands in brackets, with its place.
fn bracketed(one: &Expr) -> Option<(u64, &[Item])>
    ensures { option_map brackets_in result ≡ making.bracketed one.entry.now }
{
    match one {
        Expr::List { place, items } => Some((*place, items.as_slice())),
        _ => None,
    }
}

/// The type of a key that is alone.
fn lone_key(keys: &[SimpleType]) -> Option<SimpleType>
    ensures { result ≡ lone_key keys.now }
{
    let (key, others) = keys.split_first()?;
    match others.split_first() {
        Some(_) => None,
        None => Some(*key),
    }
}

impl<F: Fn(Global, &Env<'_>, u64, Wanted<'_>, &Expr) -> Result<Typed, Refusal>> Judge<'_, F> {
    /// A part that is a value, alone.
    #[tactic(auto, using(crate::proofs::Steps::passed))]
    pub fn one_value(&self, wanted: Wanted<'_>, one: &Expr) -> Result<Vec<Typed>, Refusal>
        requires { Judges self.now.depth (F.pre self.now.part) (F.post self.now.part) }
        ensures { Tells all_typed result (making.one_value (rules.expr_to self.now.depth (env_of self.now.env.now)) (wanted_in wanted.entry) one.now) }
    {
        match self.check(wanted, one) {
            Ok(value) => Ok(alone(self.alloc, value)?),
            Err(refusal) => Err(refusal),
        }
    }

    /// Keys in brackets, of these types.
    fn each_key(
        &self,
        place: Place,
        keys: &[SimpleType],
        items: &[Item],
    ) -> Result<Vec<Typed>, Refusal>
        requires { Judges self.now.depth (F.pre self.now.part) (F.post self.now.part) }
        ensures { Tells all_typed result (making.each_key (rules.expr_to self.now.depth (env_of self.now.env.now)) (env_of self.now.env.now) place keys.now items.now) }
    {
        let wanted = simple_types(self.alloc, keys)?;
        self.as_many(Rule::WrongType, place, &wanted, items)
    }

    /// An expression that can't stand where it does.
    #[tactic(auto, using(crate::proofs::Refusals::refused))]
    fn misplaced(&self, one: &Expr) -> Refusal
        requires { Judges self.now.depth (F.pre self.now.part) (F.post self.now.part) }
        ensures { Tells all_typed (Err result) (broken_anyway (rules.expr_to self.now.depth (env_of self.now.env.now) spec.Nothing one.now) rule.WrongType (spec.expr_place (env_of self.now.env.now) one.now)) }
    {
        let judged = self.check(Wanted::Nothing, one);
        wrong(self.alloc, judged, self.env.expr_place(one))
    }

    /// The keys of a member of a set that are several, in brackets.
    fn several_keys(&self, keys: &[SimpleType], one: &Expr) -> Result<Vec<Typed>, Refusal>
        requires { Judges self.now.depth (F.pre self.now.part) (F.post self.now.part) }
        ensures { Tells all_typed result (several_keys (rules.expr_to self.now.depth (env_of self.now.env.now)) (env_of self.now.env.now) keys.now one.now (making.bracketed one.now)) }
    {
        match bracketed(one) {
            Some((place, items)) => self.each_key(self.env.at(place), keys, items),
            None => Err(self.misplaced(one)),
        }
    }

    /// The keys of a member of a set: one, or several in brackets.
    #[tactic(auto, using(crate::proofs::MemberLaws::member_is))]
    fn member_keys(&self, keys: &[SimpleType], one: &Expr) -> Result<Vec<Typed>, Refusal>
        requires { Judges self.now.depth (F.pre self.now.part) (F.post self.now.part) }
        ensures { Tells all_typed result (making.member_keys (rules.expr_to self.now.depth (env_of self.now.env.now)) (env_of self.now.env.now) keys.now one.now) }
    {
        match lone_key(keys) {
            Some(key) => {
                let wanted = ValueType::Simple(key);
                self.one_value(Wanted::Type(&wanted), one)
            }
            None => self.several_keys(keys, one),
        }
    }

    /// The keys and the value of an entry.
    fn entry_parts(
        &self,
        keys: &[SimpleType],
        value: &ValueType,
        place: Place,
        items: &[Item],
        right: &Expr,
    ) -> Result<Vec<Typed>, Refusal>
        requires { Judges self.now.depth (F.pre self.now.part) (F.post self.now.part) }
        ensures { Tells all_typed result (with_last (making.each_key (rules.expr_to self.now.depth (env_of self.now.env.now)) (env_of self.now.env.now) place keys.now items.now) (rules.expr_to self.now.depth (env_of self.now.env.now) (spec.Wants (type_of value.now)) right.now)) }
    {
        let before = self.each_key(place, keys, items);
        let last = self.check(Wanted::Type(value), right);
        with_part(before, last)
    }

    /// An entry of a table, `[k] = v`.
    fn entry(
        &self,
        keys: &[SimpleType],
        value: &ValueType,
        one: &Expr,
    ) -> Result<Vec<Typed>, Refusal>
        requires { Judges self.now.depth (F.pre self.now.part) (F.post self.now.part) }
        ensures { Tells all_typed result (making.entry (rules.expr_to self.now.depth (env_of self.now.env.now)) (env_of self.now.env.now) keys.now (type_of value.now) one.now) }
    {
        match one {
            Expr::Assign {
                left,
                operator: Assigning::Set,
                right,
            } => match bracketed(left.get()) {
                Some((place, items)) => {
                    self.entry_parts(keys, value, self.env.at(place), items, right.get())
                }
                None => Err(self.misplaced(one)),
            },
            _ => Err(self.misplaced(one)),
        }
    }
}

impl<F: Fn(Global, &Env<'_>, u64, Wanted<'_>, &Expr) -> Result<Typed, Refusal>> Judge<'_, F> {
    /// The keys one by one, and the value of an entry behind them.
    fn loose_parts(
        &self,
        wanted: Wanted<'_>,
        items: &[Item],
        right: &Expr,
    ) -> Result<Vec<Typed>, Refusal>
        requires { Judges self.now.depth (F.pre self.now.part) (F.post self.now.part) }
        ensures { Tells all_typed result (with_last (each (making.argument (rules.expr_to self.now.depth (env_of self.now.env.now)) (env_of self.now.env.now) (wanted_in wanted.entry)) items.now) (rules.expr_to self.now.depth (env_of self.now.env.now) (wanted_in wanted.entry) right.now)) }
    {
        let before = self.each_argument(wanted, items);
        let last = self.check(wanted, right);
        with_part(before, last)
    }

    /// A member where no container of its kind is wanted: an entry by its keys and its value, and what stands
    /// in brackets one by one.
    fn loose(&self, wanted: Wanted<'_>, one: &Expr) -> Result<Vec<Typed>, Refusal>
        requires { Judges self.now.depth (F.pre self.now.part) (F.post self.now.part) }
        ensures { Tells all_typed result (making.loose (rules.expr_to self.now.depth (env_of self.now.env.now)) (env_of self.now.env.now) (wanted_in wanted.entry) one.now) }
    {
        match one {
            Expr::Assign {
                left,
                operator: Assigning::Set,
                right,
            } => match bracketed(left.get()) {
                Some((_, items)) => self.loose_parts(wanted, items, right.get()),
                None => self.one_value(wanted, one),
            },
            Expr::List { items, .. } => self.item_values(wanted, items.as_slice()),
            _ => self.one_value(wanted, one),
        }
    }

    /// A member of a container.
    fn member(&self, kind: Member<'_>, one: &Expr) -> Result<Vec<Typed>, Refusal>
        requires { Judges self.now.depth (F.pre self.now.part) (F.post self.now.part) }
        ensures { Tells all_typed result (member_of (rules.expr_to self.now.depth (env_of self.now.env.now)) (env_of self.now.env.now) kind.entry one.now) }
    {
        match kind {
            Member::Entry { keys, value } => self.entry(keys, value, one),
            Member::Keys(keys) => self.member_keys(keys, one),
            Member::Value(wanted) => self.one_value(wanted, one),
            Member::Free => self.left_of_in(one),
            Member::Loose(wanted) => self.loose(wanted, one),
        }
    }

    /// A member of a container, as an item.
    #[tactic(auto, using(crate::proofs::Refusals::refused))]
    fn member_item(&self, kind: Member<'_>, item: &Item) -> Result<Vec<Typed>, Refusal>
        requires { Judges self.now.depth (F.pre self.now.part) (F.post self.now.part) }
        ensures { Tells all_typed result (spec.on_item (rules.expr_to self.now.depth (env_of self.now.env.now)) (env_of self.now.env.now) (member_of (rules.expr_to self.now.depth (env_of self.now.env.now)) (env_of self.now.env.now) kind.entry) item.now) }
    {
        match item {
            Item::Value { value } => self.member(kind, value),
            Item::Field { place, value, .. } => {
                let judged = self.check(Wanted::Nothing, value);
                Err(wrong(self.alloc, judged, self.env.at(*place)))
            }
        }
    }

    /// The members that are items.
    fn member_items(&self, kind: Member<'_>, items: &[Item]) -> Result<Vec<Vec<Typed>>, Refusal>
        requires { Judges self.now.depth (F.pre self.now.part) (F.post self.now.part) }
        ensures { Tells all_members result (making.members_in (rules.expr_to self.now.depth (env_of self.now.env.now)) (env_of self.now.env.now) items.now (member_of (rules.expr_to self.now.depth (env_of self.now.env.now)) (env_of self.now.env.now) kind.entry)) }
    {
        let mut all = Ok(Vec::new(self.alloc));
        for item in items {
            all = with_part(all, self.member_item(kind, item));
        }
        all
    }

    /// The members in braces.
    fn member_values(&self, kind: Member<'_>, values: &[Expr]) -> Result<Vec<Vec<Typed>>, Refusal>
        requires { Judges self.now.depth (F.pre self.now.part) (F.post self.now.part) }
        ensures { Tells all_members result (each (member_of (rules.expr_to self.now.depth (env_of self.now.env.now)) (env_of self.now.env.now) kind.entry) values.now) }
    {
        let mut all = Ok(Vec::new(self.alloc));
        for value in values {
            all = with_part(all, self.member(kind, value));
        }
        all
    }

    /// The members of a container.
    pub fn members(
        &self,
        kind: Member<'_>,
        members: Members<'_>,
    ) -> Result<Vec<Vec<Typed>>, Refusal>
        requires { Judges self.now.depth (F.pre self.now.part) (F.post self.now.part) }
        ensures { Tells all_members result (members_of (rules.expr_to self.now.depth (env_of self.now.env.now)) (env_of self.now.env.now) members.entry (member_of (rules.expr_to self.now.depth (env_of self.now.env.now)) (env_of self.now.env.now) kind.entry)) }
    {
        match members {
            Members::Items(items) => self.member_items(kind, items),
            Members::Values(values) => self.member_values(kind, values),
        }
    }
}

/// The members' parts, one after another.
pub fn joined(alloc: Global, members: Vec<Vec<Typed>>) -> Result<Vec<Typed>, AllocError>
    ensures { IfOk result (λ all. typed_all all.items ≡ making.joined (map all_typed members.items)) }
{
    let mut all = Vec::new(alloc);
    for mut one in members {
        all.append(&mut one)?;
    }
    Ok(all)
}
