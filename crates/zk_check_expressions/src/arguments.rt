ghost use Rattle.std.specs.Prelude.{◌≡◌, drop, map, Ok};
ghost use Rattle.zk_check_operators.specs.Views.{typed_of, all_typed};
ghost use Rattle.zk_typed.specs.Checked as checked;
ghost use Rattle.zk_typed.specs.declared.rule.Rule.TheVariants as rule;
ghost use Rattle.zk_typed.specs.Expressions as rules;
ghost use Rattle.zk_typed.specs.Making as making;
ghost use Rattle.zk_typed.specs.Tells.{Tells};
ghost use Rattle.zk_typed.specs.Typing as spec;
ghost use Rattle.zk_typed.specs.View.{type_of};
ghost use Rattle.zk_check_expressions.specs.Envs.{env_of};
ghost use Rattle.zk_check_expressions.specs.Judging.{Judges};

use crate::env::Env;
use crate::judge::Judge;
use crate::refuse::with_rule;
use std::alloc::Global;
use zk_check_operators::{Typed, Wanted, along, simple_type, with_part};
use zk_tree::{Expr, Item, Place};
use zk_typed::script::ValueType;
use zk_typed::{Refusal, Rule};

/// The items past so many.
#[tactic(auto, using(crate::proofs::Matching::none_left))]
fn past(items: &[Item], count: usize) -> &[Item]
    ensures { result.now ≡ drop count items.entry.now }
{
    if count < items.len() {
        &items[count..]
    } else {
        &[]
    }
}

impl<F: Fn(Global, &Env<'_>, u64, Wanted<'_>, &Expr) -> Result<Typed, Refusal>> Judge<'_, F> {
    /// A value whose text `print` writes.
    #[tactic(auto, using(crate::proofs::Steps::passed))]
    pub fn printed(&self, one: &Expr) -> Result<Typed, Refusal>
        requires { Judges self.now.depth (F.pre self.now.part) (F.post self.now.part) }
        ensures { Tells typed_of result (making.printed (rules.expr_to self.now.depth (env_of self.now.env.now)) (env_of self.now.env.now) one.now) }
    {
        match self.check(Wanted::Nothing, one) {
            Ok(made) => match simple_type(self.alloc, self.env.expr_place(one), &made) {
                Ok(_) => Ok(made),
                Err(refusal) => {
                    drop(made);
                    Err(refusal)
                }
            },
            Err(refusal) => Err(refusal),
        }
    }

    /// Values whose texts `print` writes.
    pub fn each_printed(&self, ones: &[Expr]) -> Result<Vec<Typed>, Refusal>
        requires { Judges self.now.depth (F.pre self.now.part) (F.post self.now.part) }
        ensures { Tells all_typed result (checked.each (making.printed (rules.expr_to self.now.depth (env_of self.now.env.now)) (env_of self.now.env.now)) ones.now) }
    {
        let mut all = Ok(Vec::new(self.alloc));
        for one in ones {
            all = with_part(all, self.printed(one));
        }
        all
    }

    /// The arguments that have a parameter.
    pub fn matched(&self, params: &[ValueType], items: &[Item]) -> Result<Vec<Typed>, Refusal>
        requires { Judges self.now.depth (F.pre self.now.part) (F.post self.now.part) }
        ensures { Tells all_typed result (making.matched (rules.expr_to self.now.depth (env_of self.now.env.now)) (env_of self.now.env.now) (map type_of params.now) items.now) }
    {
        let mut all = Ok(Vec::new(self.alloc));
        let mut others = params;
        for item in items {
            match others.split_first() {
                None => return all,
                Some((param, rest)) => {
                    all = with_part(all, self.argument(Wanted::Type(param), item));
                    others = rest;
                }
            }
        }
        all
    }

    /// Items as many as these types, each of its own; those past the types are judged by themselves.
    #[tactic(auto, using(crate::proofs::Matching::many_told))]
    pub fn as_many(
        &self,
        rule: Rule,
        place: Place,
        types: &[ValueType],
        items: &[Item],
    ) -> Result<Vec<Typed>, Refusal>
        requires { Judges self.now.depth (F.pre self.now.part) (F.post self.now.part) }
        ensures { Tells all_typed result (making.as_many (rules.expr_to self.now.depth (env_of self.now.env.now)) (env_of self.now.env.now) rule place (map type_of types.now) items.now) }
    {
        let placed = self.matched(types, items);
        let counted = with_rule(self.alloc, placed, types.len() == items.len(), rule, place);
        let others = self.each_argument(Wanted::Unclear, past(items, types.len()));
        along(counted, others)
    }

    /// The arguments of what has these parameters, called at a place.
    pub fn arguments(
        &self,
        place: Place,
        params: &[ValueType],
        items: &[Item],
    ) -> Result<Vec<Typed>, Refusal>
        requires { Judges self.now.depth (F.pre self.now.part) (F.post self.now.part) }
        ensures { Tells all_typed result (making.arguments (rules.expr_to self.now.depth (env_of self.now.env.now)) (env_of self.now.env.now) place (Ok (map type_of params.now)) items.now) }
    {
        self.as_many(Rule::Arguments, place, params, items)
    }
}
