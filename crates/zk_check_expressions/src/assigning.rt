//! Assignments that stand where a value should: they have none, and their parts are judged as those of others.
ghost use Rattle.zk_check_operators.specs.Views.{typed_of};
ghost use Rattle.zk_typed.specs.Checked.{Checked, broken_anyway};
ghost use Rattle.zk_typed.specs.declared.rule.Rule.TheVariants as rule;
ghost use Rattle.zk_typed.specs.Expressions as rules;
ghost use Rattle.zk_typed.specs.Tells.{Tells};
ghost use Rattle.zk_check_expressions.specs.Envs.{env_of, side_of};
ghost use Rattle.zk_check_expressions.specs.Judging.{Judges};

use crate::env::Env;
use crate::judge::Judge;
use crate::refuse::wrong;
use crate::side::Side;
use std::alloc::Global;
use zk_check_operators::{Typed, Wanted, added_type, both};
use zk_tree::{Assigning, Expr, Place};
use zk_typed::Refusal;

impl<F: Fn(Global, &Env<'_>, u64, Wanted<'_>, &Expr) -> Result<Typed, Refusal>> Judge<'_, F> {
    /// A left side, or what is broken in it and on the right.
    pub fn rest_of(&self, side: Result<Side, Refusal>, right: &Expr) -> Result<Side, Refusal>
        requires { Judges self.now.depth (F.pre self.now.part) (F.post self.now.part) }
        ensures { (wanted : Checked rules.Side) → Tells side_of side wanted → Tells side_of result (rules.rest_of (rules.expr_to self.now.depth (env_of self.now.env.now)) right.now wanted) }
    {
        match side {
            Ok(side) => Ok(side),
            Err(refusal) => {
                let before: Result<(), Refusal> = Err(refusal);
                let behind = self.check(Wanted::Unclear, right);
                match both(before, behind) {
                    Ok(_) => unreachable!(),
                    Err(refusal) => Err(refusal),
                }
            }
        }
    }

    /// The right side of an assignment, by what its left side takes.
    fn right_side(&self, operator: Assigning, side: &Side, right: &Expr) -> Result<Typed, Refusal>
        requires { Judges self.now.depth (F.pre self.now.part) (F.post self.now.part) }
        ensures { Tells typed_of result (rules.expr_to self.now.depth (env_of self.now.env.now) (rules.option_wanted (rules.assigned_type operator (side_of side.now).type)) right.now) }
    {
        match operator {
            Assigning::Set => self.check(Wanted::Type(&side.value_type), right),
            Assigning::Add | Assigning::Subtract => {
                match added_type(self.alloc, operator, &side.value_type)? {
                    Some(wanted) => self.check(Wanted::Type(&wanted), right),
                    None => self.check(Wanted::Nothing, right),
                }
            }
        }
    }

    /// The parts of an assignment that stands where a value should.
    #[tactic(auto, using(crate::proofs::Steps::side_passed))]
    fn assigned_parts(
        &self,
        operator: Assigning,
        left: &Expr,
        right: &Expr,
    ) -> Result<Typed, Refusal>
        requires { Judges self.now.depth (F.pre self.now.part) (F.post self.now.part) }
        ensures { Tells typed_of result (rules.assigned_parts (rules.expr_to self.now.depth (env_of self.now.env.now)) (env_of self.now.env.now) operator left.now right.now) }
    {
        let side = self.left_side(left);
        match self.rest_of(side, right) {
            Ok(side) => self.right_side(operator, &side, right),
            Err(refusal) => Err(refusal),
        }
    }

    /// An assignment, which has no value, at its place.
    #[tactic(auto, using(crate::proofs::Refusals::refused))]
    pub fn assignment(
        &self,
        place: Place,
        operator: Assigning,
        left: &Expr,
        right: &Expr,
    ) -> Result<Typed, Refusal>
        requires { Judges self.now.depth (F.pre self.now.part) (F.post self.now.part) }
        ensures { Tells typed_of result (broken_anyway (rules.assigned_parts (rules.expr_to self.now.depth (env_of self.now.env.now)) (env_of self.now.env.now) operator left.now right.now) rule.WrongType place) }
    {
        let judged = self.assigned_parts(operator, left, right);
        Err(wrong(self.alloc, judged, place))
    }
}
