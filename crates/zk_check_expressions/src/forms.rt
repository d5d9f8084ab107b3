ghost use Rattle.std.specs.Prelude.{◌≡◌};
ghost use Rattle.zk_tree.specs.declared.operator.Prefix.TheVariants as prefix;
ghost use Rattle.zk_check_operators.specs.Views.{typed_of, wanted_in};
ghost use Rattle.zk_typed.specs.Expressions as rules;
ghost use Rattle.zk_typed.specs.Tells.{Tells};
ghost use Rattle.zk_typed.specs.Typing as spec;
ghost use Rattle.zk_check_expressions.specs.Envs.{env_of};
ghost use Rattle.zk_check_expressions.specs.Judging.{Judges};
ghost use Rattle.zk_check_expressions.specs.Parts.{and_then};

use crate::env::Env;
use crate::judge::Judge;
use std::alloc::Global;
use zk_check_operators::{Typed, Wanted, fit, inverted, negative, size_typed};
use zk_tree::{Expr, Place};
use zk_typed::Refusal;

impl<F: Fn(Global, &Env<'_>, u64, Wanted<'_>, &Expr) -> Result<Typed, Refusal>> Judge<'_, F> {
    /// What a place gets that wants a type.
    pub fn fitting(&self, wanted: Wanted<'_>, one: &Expr, made: Typed) -> Result<Typed, Refusal>
        ensures { Tells typed_of result (spec.fit (spec.expr_place (env_of self.now.env.now) one.now) (wanted_in wanted.entry) (typed_of made)) }
    {
        fit(self.alloc, self.env.expr_place(one), wanted, made)
    }

    /// `|a|`
    #[tactic(auto, using(crate::proofs::Steps::passed))]
    pub fn size(&self, inner: &Expr) -> Result<Typed, Refusal>
        requires { Judges self.now.depth (F.pre self.now.part) (F.post self.now.part) }
        ensures { Tells typed_of result (and_then (rules.expr_to self.now.depth (env_of self.now.env.now) spec.Nothing inner.now) (rules.size_typed (spec.expr_place (env_of self.now.env.now) inner.now))) }
    {
        match self.check(Wanted::Nothing, inner) {
            Ok(one) => size_typed(self.alloc, self.env.expr_place(inner), one),
            Err(refusal) => Err(refusal),
        }
    }

    /// `!a`
    #[tactic(auto, using(crate::proofs::Steps::passed))]
    pub fn inverse(&self, place: Place, operand: &Expr) -> Result<Typed, Refusal>
        requires { Judges self.now.depth (F.pre self.now.part) (F.post self.now.part) }
        ensures { Tells typed_of result (rules.unary_typed (rules.expr_to self.now.depth (env_of self.now.env.now)) (env_of self.now.env.now) place prefix.Not operand.now) }
    {
        match self.truth(operand) {
            Ok(one) => Ok(inverted(self.alloc, one)?),
            Err(refusal) => Err(refusal),
        }
    }

    /// `-a`
    #[tactic(auto, using(crate::proofs::Steps::passed))]
    pub fn negative(&self, place: Place, operand: &Expr) -> Result<Typed, Refusal>
        requires { Judges self.now.depth (F.pre self.now.part) (F.post self.now.part) }
        ensures { Tells typed_of result (rules.unary_typed (rules.expr_to self.now.depth (env_of self.now.env.now)) (env_of self.now.env.now) place prefix.Negate operand.now) }
    {
        match self.check(Wanted::Nothing, operand) {
            Ok(one) => negative(self.alloc, self.env.expr_place(operand), one),
            Err(refusal) => Err(refusal),
        }
    }
}
