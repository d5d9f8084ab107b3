ghost use Rattle.std.specs.Prelude.{◌≡◌, suc, Err, IfOk};
ghost use Rattle.std.specs.Option.{option_map};
ghost use Rattle.zk_tree.specs.declared.expr.Expr.{out-Expr};
ghost use Rattle.zk_check_operators.specs.Views.{typed_of, wanted_in};
ghost use Rattle.zk_typed.specs.Expressions as rules;
ghost use Rattle.zk_typed.specs.Tells.{Tells};
ghost use Rattle.zk_typed.specs.Typing as spec;
ghost use Rattle.zk_typed.specs.Typing.{Wanted as WantedForm};
ghost use Rattle.zk_check_expressions.specs.Envs.{env_of};
ghost use Rattle.zk_check_expressions.specs.Judging.{Judges};
ghost use Rattle.zk_check_expressions.specs.Values.{constant_of, value_typed, fitted};

use crate::env::Env;
use crate::judge::Judge;
use crate::names::name_typed;
use crate::refuse::broken;
use std::alloc::Global;
use zk_base::Mem;
use zk_check_operators::{Typed, Wanted, constant, interval_of, literal_typed};
use zk_tree::Expr;
use zk_typed::script::{Literal, SimpleType};
use zk_typed::{Refusal, Rule};

/// The constant that an expression is which one token or two write.
fn constant_of(alloc: Global, one: &Expr) -> Result<Option<Typed>, Mem>
    ensures { IfOk result (λ made. option_map typed_of made ≡ constant_of (out-Expr one.now)) }
{
    match one {
        Expr::Number { number, .. } => {
            let literal = Literal::Count(*number);
            Ok(Some(constant(SimpleType::Count, literal)))
        }
        Expr::Interval { number, unit, .. } => {
            let literal = Literal::Interval(interval_of(*number, *unit));
            Ok(Some(constant(SimpleType::Interval, literal)))
        }
        Expr::Literal { literal, .. } => Ok(Some(literal_typed(alloc, literal)?)),
        Expr::Truth { truth, .. } => {
            let literal = Literal::Bool(*truth);
            Ok(Some(constant(SimpleType::Bool, literal)))
        }
        _ => Ok(None),
    }
}

impl<F: Fn(Global, &Env<'_>, u64, Wanted<'_>, &Expr) -> Result<Typed, Refusal>> Judge<'_, F> {
    /// An expression of a form whose value is what it is wherever it stands.
    fn value(&self, one: &Expr) -> Result<Typed, Refusal>
        requires { Judges self.now.depth (F.pre self.now.part) (F.post self.now.part) }
        ensures { Tells typed_of result (value_typed (rules.expr_to self.now.depth (env_of self.now.env.now)) (env_of self.now.env.now) one.now (out-Expr one.now)) }
    {
        match one {
            Expr::Chain {
                level,
                first,
                others,
            } => self.chain(*level, first.get(), others.as_slice()),
            Expr::Compare {
                left,
                operator,
                right,
            } => self.compared(*operator, left.get(), right.get()),
            Expr::Unary {
                place,
                operator,
                operand,
            } => self.unary_typed(self.env.at(*place), *operator, operand.get()),
            Expr::Post { first, parts } => {
                let place = self.env.expr_place(first.get());
                self.post_typed(place, first.get(), parts.as_slice())
            }
            Expr::Name { name } => name_typed(self.alloc, self.env, name),
            Expr::Size { inner, .. } => self.size(inner.get()),
            Expr::Hook { place, name, items } => {
                self.hook_typed(self.env.at(*place), name, items.as_slice())
            }
            _ => self.check(Wanted::Nothing, one),
        }
    }

    /// An expression of a form whose value has to fit what is wanted.
    fn fitted(&self, wanted: Wanted<'_>, one: &Expr) -> Result<Typed, Refusal>
        requires { Judges self.now.depth (F.pre self.now.part) (F.post self.now.part) }
        ensures { Tells typed_of result (fitted (rules.expr_to self.now.depth (env_of self.now.env.now)) (env_of self.now.env.now) (wanted_in wanted.entry) one.now (out-Expr one.now)) }
    {
        match constant_of(self.alloc, one)? {
            Some(made) => self.fitting(wanted, one, made),
            None => match self.value(one) {
                Ok(made) => self.fitting(wanted, one, made),
                Err(refusal) => Err(refusal),
            },
        }
    }

    /// An expression whose parts are as deep as this at most.
    fn form(&self, wanted: Wanted<'_>, one: &Expr) -> Result<Typed, Refusal>
        requires { Judges self.now.depth (F.pre self.now.part) (F.post self.now.part) }
        ensures { Tells typed_of result (rules.expr_to (suc self.now.depth) (env_of self.now.env.now) (wanted_in wanted.entry) one.now) }
    {
        match one {
            Expr::Assign {
                left,
                operator,
                right,
            } => {
                let place = self.env.expr_place(one);
                self.assignment(place, *operator, left.get(), right.get())
            }
            Expr::Choice { test, yes, no } => {
                self.choice(wanted, test.get(), yes.get(), no.get())
            }
            Expr::Parenthesis { inner, .. } => self.check(wanted, inner.get()),
            Expr::List { place, items } => {
                self.brackets_typed(self.env.at(*place), items.as_slice(), wanted)
            }
            Expr::Make {
                place,
                container,
                items,
            } => self.container_typed(self.env.at(*place), *container, items.as_slice(), wanted),
            _ => self.fitted(wanted, one),
        }
    }
}

/// An expression that is too deep.
#[tactic(auto, using(crate::proofs::Refusals::broken_is))]
fn too_deep(alloc: Global, env: &Env<'_>, one: &Expr) -> Refusal
    ensures { (wanted : WantedForm) → Tells typed_of (Err result) (rules.expr_to 0 (env_of env.now) wanted one.now) }
{
    broken(alloc, Rule::WrongType, env.expr_place(one))
}

/// An expression that is at most so deep, where a type is wanted.
pub fn expr_to(
    alloc: Global,
    env: &Env<'_>,
    depth: u64,
    wanted: Wanted<'_>,
    one: &Expr,
) -> Result<Typed, Refusal>
    ensures { Tells typed_of result (rules.expr_to depth (env_of env.now) (wanted_in wanted.entry) one.now) }
{
    if depth == 0 {
        return Err(too_deep(alloc, &*env, &*one));
    }
    let judge = Judge {
        alloc,
        env: &*env,
        depth: depth - 1,
        part: expr_to,
    };
    judge.form(wanted, &*one)
}
