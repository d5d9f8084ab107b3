ghost use Rattle.zk_check_operators.specs.Views.{typed_of, all_typed};
ghost use Rattle.zk_typed.specs.Checked as checked;
ghost use Rattle.zk_typed.specs.Expressions as rules;
ghost use Rattle.zk_typed.specs.Tells.{Tells};
ghost use Rattle.zk_typed.specs.Typing as spec;
ghost use Rattle.zk_check_expressions.specs.Envs.{env_of};
ghost use Rattle.zk_check_expressions.specs.Judging.{Judges};
ghost use Rattle.zk_check_expressions.specs.Parts.{and_then, related_pair, member_pair, member_view};

use crate::env::Env;
use crate::judge::Judge;
use crate::membership::membership;
use crate::refuse::wrong;
use std::alloc::Global;
use zk_check_operators::{Typed, Wanted, beside, both, related, relation_of};
use zk_tree::{Comparing, Expr};
use zk_typed::Refusal;
use zk_typed::script::Relation;

impl<F: Fn(Global, &Env<'_>, u64, Wanted<'_>, &Expr) -> Result<Typed, Refusal>> Judge<'_, F> {
    /// `a == b` and the like.
    #[tactic(auto, using(crate::proofs::Steps::pair_passed))]
    fn related(&self, relation: Relation, left: &Expr, right: &Expr) -> Result<Typed, Refusal>
        requires { Judges self.now.depth (F.pre self.now.part) (F.post self.now.part) }
        ensures { Tells typed_of result (and_then (checked.both (rules.expr_to self.now.depth (env_of self.now.env.now) spec.Nothing left.now) (rules.expr_to self.now.depth (env_of self.now.env.now) spec.Nothing right.now))
            (related_pair relation (spec.expr_place (env_of self.now.env.now) left.now) (spec.expr_place (env_of self.now.env.now) right.now))) }
    {
        match self.both_parts(Wanted::Nothing, left, Wanted::Nothing, right) {
            Ok((first, second)) => {
                let (first, second) = beside(self.alloc, first, second)?;
                related(
                    self.alloc,
                    relation,
                    self.env.expr_place(left),
                    self.env.expr_place(right),
                    first,
                    second,
                )
            }
            Err(refusal) => Err(refusal),
        }
    }

    /// Keys whose types no place asks, as the left operand of `in`: several in brackets, or one.
    #[tactic(auto, using(crate::proofs::Refusals::refused))]
    pub fn left_of_in(&self, one: &Expr) -> Result<Vec<Typed>, Refusal>
        requires { Judges self.now.depth (F.pre self.now.part) (F.post self.now.part) }
        ensures { Tells all_typed result (spec.left_of_in (rules.expr_to self.now.depth (env_of self.now.env.now)) (env_of self.now.env.now) one.now) }
    {
        match one {
            Expr::List { place, items } => {
                let keys = self.each_argument(Wanted::Nothing, items.as_slice());
                if items.len() > 1 {
                    keys
                } else {
                    Err(wrong(self.alloc, keys, self.env.at(*place)))
                }
            }
            _ => self.one_value(Wanted::Nothing, one),
        }
    }

    /// Keys, and what they are to be in.
    fn keys_and_container(&self, left: &Expr, right: &Expr) -> Result<(Vec<Typed>, Typed), Refusal>
        requires { Judges self.now.depth (F.pre self.now.part) (F.post self.now.part) }
        ensures { Tells member_view result (checked.both (spec.left_of_in (rules.expr_to self.now.depth (env_of self.now.env.now)) (env_of self.now.env.now) left.now) (rules.expr_to self.now.depth (env_of self.now.env.now) spec.Nothing right.now)) }
    {
        let keys = self.left_of_in(left);
        let one = self.check(Wanted::Nothing, right);
        both(keys, one)
    }

    /// `a in b` and `a !in b`
    #[tactic(auto, using(crate::proofs::Steps::member_passed))]
    fn contained(&self, is_turned: bool, left: &Expr, right: &Expr) -> Result<Typed, Refusal>
        requires { Judges self.now.depth (F.pre self.now.part) (F.post self.now.part) }
        ensures { Tells typed_of result (and_then (checked.both (spec.left_of_in (rules.expr_to self.now.depth (env_of self.now.env.now)) (env_of self.now.env.now) left.now) (rules.expr_to self.now.depth (env_of self.now.env.now) spec.Nothing right.now))
            (member_pair is_turned (spec.expr_place (env_of self.now.env.now) left.now) (spec.expr_place (env_of self.now.env.now) right.now))) }
    {
        match self.keys_and_container(left, right) {
            Ok((keys, one)) => membership(
                self.alloc,
                is_turned,
                self.env.expr_place(left),
                self.env.expr_place(right),
                keys,
                one,
            ),
            Err(refusal) => Err(refusal),
        }
    }

    /// An operator that compares.
    pub fn compared(&self, operator: Comparing, left: &Expr, right: &Expr) -> Result<Typed, Refusal>
        requires { Judges self.now.depth (F.pre self.now.part) (F.post self.now.part) }
        ensures { Tells typed_of result (rules.compared (rules.expr_to self.now.depth (env_of self.now.env.now)) (env_of self.now.env.now) operator left.now right.now) }
    {
        match relation_of(operator) {
            Some(relation) => self.related(relation, left, right),
            None => self.contained(operator == Comparing::NotIn, left, right),
        }
    }
}
