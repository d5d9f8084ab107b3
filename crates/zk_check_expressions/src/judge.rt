ghost use Rattle.std.specs.Prelude.{◌≡◌};
ghost use Rattle.zk_check_operators.specs.Views.{typed_of, all_typed, wanted_in};
ghost use Rattle.zk_typed.specs.Checked.{broken_anyway, each};
ghost use Rattle.zk_typed.specs.declared.rule.Rule.TheVariants as rule;
ghost use Rattle.zk_typed.specs.Expressions as rules;
ghost use Rattle.zk_typed.specs.LogCalls.{item_expr};
ghost use Rattle.zk_typed.specs.Making as making;
ghost use Rattle.zk_typed.specs.Predefined as type;
ghost use Rattle.zk_typed.specs.Tells.{Tells};
ghost use Rattle.zk_typed.specs.Typing as spec;
ghost use Rattle.zk_check_expressions.specs.Envs.{env_of};
ghost use Rattle.zk_check_expressions.specs.Judging.{Judges};

use crate::env::Env;
use crate::refuse::wrong;
use std::alloc::Global;
use zk_check_operators::{Typed, Wanted, with_part};
use zk_tree::{Expr, Item};
use zk_typed::Refusal;
use zk_typed::script::{SimpleType, ValueType};

/// What checks the parts of an expression.
#[derive(Clone, Copy)]
pub struct Judge<'a, F> {
    pub alloc: Global,
    pub env: &'a Env<'a>,
    /// How deep the parts may be.
    pub depth: u64,
    pub part: F,
}

impl<F: Fn(Global, &Env<'_>, u64, Wanted<'_>, &Expr) -> Result<Typed, Refusal>> Judge<'_, F> {
    /// A part where a type is wanted.
    pub fn check(&self, wanted: Wanted<'_>, one: &Expr) -> Result<Typed, Refusal>
        requires { Judges self.now.depth (F.pre self.now.part) (F.post self.now.part) }
        ensures { Tells typed_of result (rules.expr_to self.now.depth (env_of self.now.env.now) (wanted_in wanted.entry) one.now) }
    {
        (self.part)(self.alloc, self.env, self.depth, wanted, one)
    }

    /// A part where a truth value is wanted.
    pub fn truth(&self, one: &Expr) -> Result<Typed, Refusal>
        requires { Judges self.now.depth (F.pre self.now.part) (F.post self.now.part) }
        ensures { Tells typed_of result (rules.expr_to self.now.depth (env_of self.now.env.now) (spec.Wants type.bool) one.now) }
    {
        let truth = ValueType::Simple(SimpleType::Bool);
        self.check(Wanted::Type(&truth), one)
    }

    /// A part where a string is wanted.
    pub fn string(&self, one: &Expr) -> Result<Typed, Refusal>
        requires { Judges self.now.depth (F.pre self.now.part) (F.post self.now.part) }
        ensures { Tells typed_of result (rules.expr_to self.now.depth (env_of self.now.env.now) (spec.Wants type.string) one.now) }
    {
        let string = ValueType::Simple(SimpleType::String);
        self.check(Wanted::Type(&string), one)
    }

    /// An item that names a field where a value is to stand.
    #[tactic(auto, using(crate::proofs::Refusals::refused))]
    pub fn named_item(&self, place: u64, value: &Expr) -> Result<Typed, Refusal>
        requires { Judges self.now.depth (F.pre self.now.part) (F.post self.now.part) }
        ensures { Tells typed_of result (broken_anyway (rules.expr_to self.now.depth (env_of self.now.env.now) spec.Nothing value.now) rule.WrongType (spec.at (env_of self.now.env.now) place)) }
    {
        let judged = self.check(Wanted::Nothing, value);
        Err(wrong(self.alloc, judged, self.env.at(place)))
    }

    /// An argument where a type is wanted.
    pub fn argument(&self, wanted: Wanted<'_>, item: &Item) -> Result<Typed, Refusal>
        requires { Judges self.now.depth (F.pre self.now.part) (F.post self.now.part) }
        ensures { Tells typed_of result (making.argument (rules.expr_to self.now.depth (env_of self.now.env.now)) (env_of self.now.env.now) (wanted_in wanted.entry) item.now) }
    {
        match item {
            Item::Value { value } => self.check(wanted, value),
            Item::Field { place, value, .. } => self.named_item(*place, value),
        }
    }

    /// The arguments, whatever each is.
    pub fn each_argument(&self, wanted: Wanted<'_>, items: &[Item]) -> Result<Vec<Typed>, Refusal>
        requires { Judges self.now.depth (F.pre self.now.part) (F.post self.now.part) }
        ensures { Tells all_typed result (each (making.argument (rules.expr_to self.now.depth (env_of self.now.env.now)) (env_of self.now.env.now) (wanted_in wanted.entry)) items.now) }
    {
        let mut all = Ok(Vec::new(self.alloc));
        for item in items {
            all = with_part(all, self.argument(wanted, item));
        }
        all
    }

    /// The value of an item, whatever it is an item of.
    fn item_value(&self, wanted: Wanted<'_>, item: &Item) -> Result<Typed, Refusal>
        requires { Judges self.now.depth (F.pre self.now.part) (F.post self.now.part) }
        ensures { Tells typed_of result (rules.expr_to self.now.depth (env_of self.now.env.now) (wanted_in wanted.entry) (item_expr item.now)) }
    {
        match item {
            Item::Value { value } => self.check(wanted, value),
            Item::Field { value, .. } => self.check(wanted, value),
        }
    }

    /// The values of items, whatever they are items of.
    pub fn item_values(&self, wanted: Wanted<'_>, items: &[Item]) -> Result<Vec<Typed>, Refusal>
        requires { Judges self.now.depth (F.pre self.now.part) (F.post self.now.part) }
        ensures { Tells all_typed result (making.item_values (rules.expr_to self.now.depth (env_of self.now.env.now)) (wanted_in wanted.entry) items.now) }
    {
        let mut all = Ok(Vec::new(self.alloc));
        for item in items {
            all = with_part(all, self.item_value(wanted, item));
        }
        all
    }

    /// The parts of an expression where no type is wanted.
    pub fn each_part(&self, ones: &[Expr]) -> Result<Vec<Typed>, Refusal>
        requires { Judges self.now.depth (F.pre self.now.part) (F.post self.now.part) }
        ensures { Tells all_typed result (each (rules.expr_to self.now.depth (env_of self.now.env.now) spec.Nothing) ones.now) }
    {
        let mut all = Ok(Vec::new(self.alloc));
        for one in ones {
            all = with_part(all, self.check(Wanted::Nothing, one));
        }
        all
    }
}
