ghost use Rattle.std.specs.Prelude.{◌≡◌};
ghost use Rattle.zk_check_operators.specs.Views.{typed_of, pair_of};
ghost use Rattle.zk_typed.specs.Checked as checked;
ghost use Rattle.zk_typed.specs.Checked.{Checked};
ghost use Rattle.zk_typed.specs.Expressions as rules;
ghost use Rattle.zk_typed.specs.Predefined as type;
ghost use Rattle.zk_typed.specs.Tells.{Tells};
ghost use Rattle.zk_typed.specs.Typing as spec;
ghost use Rattle.zk_typed.specs.Typing.{Typed as TypedForm};
ghost use Rattle.zk_check_expressions.specs.Envs.{env_of};
ghost use Rattle.zk_check_expressions.specs.Judging.{Judges};
ghost use Rattle.zk_check_expressions.specs.Parts.{and_then, truth_pair, arithmetic_pair};

use crate::env::Env;
use crate::judge::Judge;
use std::alloc::Global;
use zk_check_operators::{Typed, Wanted, arithmetic, beside, binary_of, both, fit, truths};
use zk_tree::{Expr, Level, Link, Place};
use zk_typed::Refusal;
use zk_typed::script::{Binary, SimpleType, ValueType};

/// What stands before an operator, as a truth value.
#[tactic(auto, using(crate::proofs::Steps::passed))]
fn as_truth(alloc: Global, place: Place, before: Result<Typed, Refusal>) -> Result<Typed, Refusal>
    ensures { (given : Checked TypedForm) → Tells typed_of before given → Tells typed_of result (and_then given (spec.fit place (spec.Wants type.bool))) }
{
    let truth = ValueType::Simple(SimpleType::Bool);
    match before {
        Ok(one) => fit(alloc, place, Wanted::Type(&truth), one),
        Err(refusal) => Err(refusal),
    }
}

/// `a || b` and `a && b` of two operands.
fn truths_of(
    alloc: Global,
    level: Level,
    pair: Result<(Typed, Typed), Refusal>,
) -> Result<Typed, Refusal>
    ensures { (given : Checked (TypedForm × TypedForm)) → Tells pair_of pair given → Tells typed_of result (and_then given (truth_pair level)) }
{
    match pair {
        Ok((first, second)) => Ok(truths(alloc, level, first, second)?),
        Err(refusal) => Err(refusal),
    }
}

/// `a + b` and the like of two operands.
fn computed(
    alloc: Global,
    operator: Binary,
    first_place: Place,
    second_place: Place,
    pair: Result<(Typed, Typed), Refusal>,
) -> Result<Typed, Refusal>
    ensures { (given : Checked (TypedForm × TypedForm)) → Tells pair_of pair given → Tells typed_of result (and_then given (arithmetic_pair operator first_place second_place)) }
{
    match pair {
        Ok((first, second)) => {
            let (first, second) = beside(alloc, first, second)?;
            arithmetic(alloc, operator, first_place, second_place, first, second)
        }
        Err(refusal) => Err(refusal),
    }
}

impl<F: Fn(Global, &Env<'_>, u64, Wanted<'_>, &Expr) -> Result<Typed, Refusal>> Judge<'_, F> {
    /// What stands before an operator of truth values, with the operand behind it.
    fn truth_linked(
        &self,
        level: Level,
        place: Place,
        before: Result<Typed, Refusal>,
        behind: &Expr,
    ) -> Result<Typed, Refusal>
        requires { Judges self.now.depth (F.pre self.now.part) (F.post self.now.part) }
        ensures { (given : Checked TypedForm) → Tells typed_of before given → Tells typed_of result (and_then (checked.both (and_then given (spec.fit place (spec.Wants type.bool))) (rules.expr_to self.now.depth (env_of self.now.env.now) (spec.Wants type.bool) behind.now)) (truth_pair level)) }
    {
        let one = as_truth(self.alloc, place, before);
        let other = self.truth(behind);
        let pair = both(one, other);
        truths_of(self.alloc, level, pair)
    }

    /// What stands before an operator that computes, with the operand behind it.
    fn computed_linked(
        &self,
        operator: Binary,
        place: Place,
        before: Result<Typed, Refusal>,
        behind: &Expr,
    ) -> Result<Typed, Refusal>
        requires { Judges self.now.depth (F.pre self.now.part) (F.post self.now.part) }
        ensures { (given : Checked TypedForm) → Tells typed_of before given → Tells typed_of result (and_then (checked.both given (rules.expr_to self.now.depth (env_of self.now.env.now) spec.Nothing behind.now)) (arithmetic_pair operator place (spec.expr_place (env_of self.now.env.now) behind.now))) }
    {
        let other = self.check(Wanted::Nothing, behind);
        let pair = both(before, other);
        computed(
            self.alloc,
            operator,
            place,
            self.env.expr_place(behind),
            pair,
        )
    }

    /// What stands before an operator, with the operand behind it.
    fn linked(
        &self,
        level: Level,
        place: Place,
        before: Result<Typed, Refusal>,
        link: &Link,
    ) -> Result<Typed, Refusal>
        requires { Judges self.now.depth (F.pre self.now.part) (F.post self.now.part) }
        ensures { (given : Checked TypedForm) → Tells typed_of before given → Tells typed_of result (spec.linked (rules.expr_to self.now.depth (env_of self.now.env.now)) (env_of self.now.env.now) level place given link.now) }
    {
        match binary_of(link.operator) {
            None => self.truth_linked(level, place, before, &link.operand),
            Some(operator) => self.computed_linked(operator, place, before, &link.operand),
        }
    }

    /// Operands with operators of a level between them.
    pub fn chained(
        &self,
        level: Level,
        place: Place,
        first: Result<Typed, Refusal>,
        links: &[Link],
    ) -> Result<Typed, Refusal>
        requires { Judges self.now.depth (F.pre self.now.part) (F.post self.now.part) }
        ensures { (given : Checked TypedForm) → Tells typed_of first given → Tells typed_of result (spec.chained (rules.expr_to self.now.depth (env_of self.now.env.now)) (env_of self.now.env.now) level place given links.now) }
    {
        let mut before = first;
        for link in links {
            before = self.linked(level, place, before, link);
        }
        before
    }

    /// Operands with operators of a level between them, from the first on.
    pub fn chain(&self, level: Level, first: &Expr, links: &[Link]) -> Result<Typed, Refusal>
        requires { Judges self.now.depth (F.pre self.now.part) (F.post self.now.part) }
        ensures { Tells typed_of result (spec.chained (rules.expr_to self.now.depth (env_of self.now.env.now)) (env_of self.now.env.now) level (spec.expr_place (env_of self.now.env.now) first.now) (rules.expr_to self.now.depth (env_of self.now.env.now) (rules.wanted_first level) first.now) links.now) }
    {
        let before = match level {
            Level::Or | Level::And => self.truth(first),
            Level::Sum | Level::Term => self.check(Wanted::Nothing, first),
        };
        self.chained(level, self.env.expr_place(first), before, links)
    }
}
