ghost use Rattle.std.specs.Prelude.{◌≡◌};
ghost use Rattle.zk_check_operators.specs.Views.{typed_of, pair_of, wanted_in};
ghost use Rattle.zk_typed.specs.Checked as checked;
ghost use Rattle.zk_typed.specs.Expressions as rules;
ghost use Rattle.zk_typed.specs.Predefined as type;
ghost use Rattle.zk_typed.specs.Tells.{Tells};
ghost use Rattle.zk_typed.specs.Typing as spec;
ghost use Rattle.zk_check_expressions.specs.Envs.{env_of};
ghost use Rattle.zk_check_expressions.specs.Judging.{Judges};

use crate::env::Env;
use crate::judge::Judge;
use std::alloc::Global;
use zk_check_operators::{Typed, Wanted, both, choice, same_type};
use zk_tree::Expr;
use zk_typed::{Refusal, Rule, one_broken};

impl<F: Fn(Global, &Env<'_>, u64, Wanted<'_>, &Expr) -> Result<Typed, Refusal>> Judge<'_, F> {
    /// Two parts, or all that is broken in either.
    pub fn both_parts(
        &self,
        first_wanted: Wanted<'_>,
        first: &Expr,
        second_wanted: Wanted<'_>,
        second: &Expr,
    ) -> Result<(Typed, Typed), Refusal>
        requires { Judges self.now.depth (F.pre self.now.part) (F.post self.now.part) }
        ensures { Tells pair_of result (checked.both (rules.expr_to self.now.depth (env_of self.now.env.now) (wanted_in first_wanted.entry) first.now) (rules.expr_to self.now.depth (env_of self.now.env.now) (wanted_in second_wanted.entry) second.now)) }
    {
        let one = self.check(first_wanted, first);
        let other = self.check(second_wanted, second);
        both(one, other)
    }

    /// The arms of a choice that get no type: the second has the type of the first.
    #[tactic(auto, using(crate::proofs::Steps::pair_passed))]
    fn free_arms(&self, yes: &Expr, no: &Expr) -> Result<(Typed, Typed), Refusal>
        requires { Judges self.now.depth (F.pre self.now.part) (F.post self.now.part) }
        ensures { Tells pair_of result (rules.arms (rules.expr_to self.now.depth (env_of self.now.env.now)) (env_of self.now.env.now) spec.Nothing yes.now no.now) }
    {
        match self.both_parts(Wanted::Nothing, yes, Wanted::Nothing, no) {
            Ok((first, second)) => {
                if same_type(&first.value_type, &second.value_type) {
                    Ok((first, second))
                } else {
                    drop(first);
                    drop(second);
                    Err(Refusal::Broken(one_broken(
                        self.alloc,
                        Rule::WrongType,
                        self.env.expr_place(no),
                    )?))
                }
            }
            Err(refusal) => Err(refusal),
        }
    }

    /// The arms of a choice.
    fn arms(&self, wanted: Wanted<'_>, yes: &Expr, no: &Expr) -> Result<(Typed, Typed), Refusal>
        requires { Judges self.now.depth (F.pre self.now.part) (F.post self.now.part) }
        ensures { Tells pair_of result (rules.arms (rules.expr_to self.now.depth (env_of self.now.env.now)) (env_of self.now.env.now) (wanted_in wanted.entry) yes.now no.now) }
    {
        match wanted {
            Wanted::Nothing => self.free_arms(yes, no),
            Wanted::Type(one) => self.both_parts(Wanted::Type(one), yes, Wanted::Type(one), no),
            Wanted::Unclear => self.both_parts(Wanted::Unclear, yes, Wanted::Unclear, no),
        }
    }

    /// The test and the arms of a choice.
    fn tested_arms(
        &self,
        wanted: Wanted<'_>,
        test: &Expr,
        yes: &Expr,
        no: &Expr,
    ) -> Result<(Typed, (Typed, Typed)), Refusal>
        requires { Judges self.now.depth (F.pre self.now.part) (F.post self.now.part) }
        ensures { Tells (λ one. (typed_of one.0, pair_of one.1)) result (checked.both (rules.expr_to self.now.depth (env_of self.now.env.now) (spec.Wants type.bool) test.now) (rules.arms (rules.expr_to self.now.depth (env_of self.now.env.now)) (env_of self.now.env.now) (wanted_in wanted.entry) yes.now no.now)) }
    {
        let tested = self.truth(test);
        let arms = self.arms(wanted, yes, no);
        both(tested, arms)
    }

    /// `test ? yes : no`
    #[tactic(auto, using(crate::proofs::Steps::tested_passed))]
    pub fn choice(
        &self,
        wanted: Wanted<'_>,
        test: &Expr,
        yes: &Expr,
        no: &Expr,
    ) -> Result<Typed, Refusal>
        requires { Judges self.now.depth (F.pre self.now.part) (F.post self.now.part) }
        ensures { Tells typed_of result (rules.choice (rules.expr_to self.now.depth (env_of self.now.env.now)) (env_of self.now.env.now) (wanted_in wanted.entry) test.now yes.now no.now) }
    {
        match self.tested_arms(wanted, test, yes, no) {
            Ok((tested, arms)) => {
                let (first, second) = arms;
                Ok(choice(self.alloc, tested, first, second)?)
            }
            Err(refusal) => Err(refusal),
        }
    }
}
