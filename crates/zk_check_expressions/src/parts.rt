ghost use Rattle.std.specs.Prelude.{List, Err};
ghost use Rattle.zk_check_operators.specs.Views.{typed_of};
ghost use Rattle.zk_typed.specs.Checked as checked;
ghost use Rattle.zk_typed.specs.Checked.{Checked, broken_anyway, each};
ghost use Rattle.zk_typed.specs.declared.rule.Rule.TheVariants as rule;
ghost use Rattle.zk_typed.specs.Expressions as rules;
ghost use Rattle.zk_typed.specs.Making as making;
ghost use Rattle.zk_typed.specs.Tells.{Tells};
ghost use Rattle.zk_typed.specs.Typing as spec;
ghost use Rattle.zk_typed.specs.Typing.{Typed as TypedForm};
ghost use Rattle.zk_check_expressions.specs.Envs.{env_of};
ghost use Rattle.zk_check_expressions.specs.Judging.{Judges};
ghost use Rattle.zk_check_expressions.specs.Parts.{and_then, element_view, element_pair, field_read, field_tested};

use crate::elements::element;
use crate::env::Env;
use crate::fields::field_of;
use crate::judge::Judge;
use crate::refuse::wrong;
use std::alloc::Global;
use zk_check_operators::{Typed, Wanted, applied, both, value_operand};
use zk_tree::{Expr, Item, Name, Part, Place};
use zk_typed::script::{Primitive, SimpleType, ValueType};
use zk_typed::{Refusal, Rule, one_broken};

/// `a[k, l]` of what stands before, and its keys.
fn element_of(
    alloc: Global,
    env: &Env<'_>,
    place: Place,
    keys: &[Expr],
    pair: Result<(Typed, Vec<Typed>), Refusal>,
) -> Result<Typed, Refusal>
    ensures { (given : Checked (TypedForm × List TypedForm)) → Tells element_view pair given → Tells typed_of result (and_then given (element_pair (env_of env.now) place keys.now)) }
{
    match pair {
        Ok((one, values)) => element(alloc, env, place, one, keys, values),
        Err(refusal) => Err(refusal),
    }
}

impl<F: Fn(Global, &Env<'_>, u64, Wanted<'_>, &Expr) -> Result<Typed, Refusal>> Judge<'_, F> {
    /// `a$f`
    #[tactic(auto, using(crate::proofs::Steps::field_passed))]
    fn read(&self, place: Place, one: Typed, name: &Name) -> Result<Typed, Refusal>
        ensures { Tells typed_of result (field_read (env_of self.now.env.now) place name.now (typed_of one)) }
    {
        match field_of(self.alloc, self.env, place, name, &one) {
            Ok((field, value_type)) => {
                let operands = value_operand(self.alloc, one)?;
                Ok(applied(value_type, Primitive::Field(field), operands))
            }
            Err(refusal) => {
                drop(one);
                Err(refusal)
            }
        }
    }

    /// `a?$f`
    #[tactic(auto, using(crate::proofs::Steps::field_passed))]
    fn tested(&self, place: Place, one: Typed, name: &Name) -> Result<Typed, Refusal>
        ensures { Tells typed_of result (field_tested (env_of self.now.env.now) place name.now (typed_of one)) }
    {
        match field_of(self.alloc, self.env, place, name, &one) {
            Ok((field, _)) => {
                let operands = value_operand(self.alloc, one)?;
                let truth = ValueType::Simple(SimpleType::Bool);
                Ok(applied(truth, Primitive::HasField(field), operands))
            }
            Err(refusal) => {
                drop(one);
                Err(refusal)
            }
        }
    }

    /// What stands before keys, and those.
    fn with_keys(
        &self,
        before: Result<Typed, Refusal>,
        keys: &[Expr],
    ) -> Result<(Typed, Vec<Typed>), Refusal>
        requires { Judges self.now.depth (F.pre self.now.part) (F.post self.now.part) }
        ensures { (given : Checked TypedForm) → Tells typed_of before given → Tells element_view result (checked.both given (each (rules.expr_to self.now.depth (env_of self.now.env.now) spec.Nothing) keys.now)) }
    {
        let judged = self.each_part(keys);
        both(before, judged)
    }

    /// What stands before items, and those.
    fn with_items(
        &self,
        before: Result<Typed, Refusal>,
        items: &[Item],
    ) -> Result<(Typed, Vec<Typed>), Refusal>
        requires { Judges self.now.depth (F.pre self.now.part) (F.post self.now.part) }
        ensures { (given : Checked TypedForm) → Tells typed_of before given → Tells element_view result (checked.both given (each (making.argument (rules.expr_to self.now.depth (env_of self.now.env.now)) (env_of self.now.env.now) spec.Nothing) items.now)) }
    {
        let judged = self.each_argument(Wanted::Nothing, items);
        both(before, judged)
    }

    /// `a[k, l]`
    fn indexed(
        &self,
        place: Place,
        before: Result<Typed, Refusal>,
        keys: &[Expr],
    ) -> Result<Typed, Refusal>
        requires { Judges self.now.depth (F.pre self.now.part) (F.post self.now.part) }
        ensures { (given : Checked TypedForm) → Tells typed_of before given → Tells typed_of result (and_then (checked.both given (each (rules.expr_to self.now.depth (env_of self.now.env.now) spec.Nothing) keys.now)) (element_pair (env_of self.now.env.now) place keys.now)) }
    {
        let pair = self.with_keys(before, keys);
        element_of(self.alloc, self.env, place, keys, pair)
    }

    /// `a(b)` where no name of a function stands in front.
    fn misplaced_call(
        &self,
        place: Place,
        before: Result<Typed, Refusal>,
        items: &[Item],
    ) -> Refusal
        requires { Judges self.now.depth (F.pre self.now.part) (F.post self.now.part) }
        ensures { (given : Checked TypedForm) → Tells typed_of before given → Tells typed_of (Err result) (broken_anyway (checked.both given (each (making.argument (rules.expr_to self.now.depth (env_of self.now.env.now)) (env_of self.now.env.now) spec.Nothing) items.now)) rule.WrongType place) }
    {
        let pair = self.with_items(before, items);
        wrong(self.alloc, pair, place)
    }

    /// What stands before a part, with it.
    fn part_typed(
        &self,
        place: Place,
        before: Result<Typed, Refusal>,
        part: &Part,
    ) -> Result<Typed, Refusal>
        requires { Judges self.now.depth (F.pre self.now.part) (F.post self.now.part) }
        ensures { (given : Checked TypedForm) → Tells typed_of before given → Tells typed_of result (making.part_typed (rules.expr_to self.now.depth (env_of self.now.env.now)) (env_of self.now.env.now) place given part.now) }
    {
        match part {
            Part::Field { name } => match before {
                Ok(one) => self.read(place, one, name),
                Err(refusal) => Err(refusal),
            },
            Part::HasField { name } => match before {
                Ok(one) => self.tested(place, one, name),
                Err(refusal) => Err(refusal),
            },
            Part::Index { keys } => self.indexed(place, before, keys.as_slice()),
            Part::Call { items } => Err(self.misplaced_call(place, before, items.as_slice())),
        }
    }

    /// What stands before some parts, with them. Its place is that of the whole expression.
    pub fn parts_typed(
        &self,
        place: Place,
        first: Result<Typed, Refusal>,
        parts: &[Part],
    ) -> Result<Typed, Refusal>
        requires { Judges self.now.depth (F.pre self.now.part) (F.post self.now.part) }
        ensures { (given : Checked TypedForm) → Tells typed_of first given → Tells typed_of result (making.parts_typed (rules.expr_to self.now.depth (env_of self.now.env.now)) (env_of self.now.env.now) place given parts.now) }
    {
        let mut before = first;
        for part in parts {
            before = self.part_typed(place, before, part);
        }
        before
    }
}
