ghost use Rattle.std.specs.Prelude.{List, Some, Err};
ghost use Rattle.zk_scope.specs.Lent.{signature_of, declared_of, log_function_of};
ghost use Rattle.zk_check_operators.specs.Views.{typed_of, typed_all, all_typed};
ghost use Rattle.zk_typed.specs.Checked.{Checked, each};
ghost use Rattle.zk_typed.specs.declared.rule.Rule.TheVariants as rule;
ghost use Rattle.zk_typed.specs.Expressions as rules;
ghost use Rattle.zk_typed.specs.LogCalls as logs;
ghost use Rattle.zk_typed.specs.Making as making;
ghost use Rattle.zk_typed.specs.Resolving as resolving;
ghost use Rattle.zk_typed.specs.Tells.{Tells};
ghost use Rattle.zk_typed.specs.Types.{ValueType as ValueForm};
ghost use Rattle.zk_typed.specs.Typing as spec;
ghost use Rattle.zk_typed.specs.Typing.{Typed as TypedForm};
ghost use Rattle.zk_typed.specs.View.{type_of};
ghost use Rattle.zk_check_expressions.specs.Envs.{env_of, called_of};
ghost use Rattle.zk_check_expressions.specs.Judging.{Judges};
ghost use Rattle.zk_check_expressions.specs.Calls.{hook_of};
ghost use Rattle.zk_check_expressions.specs.Parts.{and_then, behind_wrong, behind_view};

use crate::called::{Called, called_name};
use crate::env::Env;
use crate::found::{Found, look_up};
use crate::judge::Judge;
use std::alloc::Global;
use zk_base::HookNo;
use zk_check_operators::{Typed, Wanted, along, operands_of};
use zk_scope::{Declared, Kind, LogFunction, Meant, Signature};
use zk_tree::{Expr, Item, Name, Part, Place};
use zk_typed::script::{Expr as TypedExpr, SimpleType, ValueType};
use zk_typed::{Refusal, Rule, one_broken};

/// The rules that are broken where a name is wrong, with those of what stands behind it.
fn wrong_behind(
    alloc: Global,
    rule: Rule,
    place: Place,
    behind: Result<Vec<Typed>, Refusal>,
) -> Refusal
    ensures { (told : Checked (List TypedForm)) → Tells all_typed behind told → Tells behind_view (Err result) (behind_wrong rule place told) }
{
    let Ok(mut rules) = one_broken(alloc, rule, place) else {
        return Refusal::NoMemory;
    };
    match behind {
        Ok(_) => Refusal::Broken(rules),
        Err(Refusal::Broken(more)) => match rules.append(more) {
            Ok(()) => Refusal::Broken(rules),
            Err(_) => Refusal::NoMemory,
        },
        Err(Refusal::NoMemory) => Refusal::NoMemory,
    }
}

impl<F: Fn(Global, &Env<'_>, u64, Wanted<'_>, &Expr) -> Result<Typed, Refusal>> Judge<'_, F> {
    /// The arguments of an event, a hook or a function, called at a place.
    pub fn signed_arguments(
        &self,
        place: Place,
        signature: &Signature<'_>,
        items: &[Item],
    ) -> Result<Vec<Typed>, Refusal>
        requires { Judges self.now.depth (F.pre self.now.part) (F.post self.now.part) }
        ensures { Tells all_typed result (making.arguments (rules.expr_to self.now.depth (env_of self.now.env.now)) (env_of self.now.env.now) place (resolving.params_of (env_of self.now.env.now).scripts (signature_of signature.now)) items.now) }
    {
        match self.env.scripts.names.params_of(self.alloc, signature) {
            Ok(params) => self.arguments(place, params.as_slice(), items),
            Err(Refusal::NoMemory) => Err(Refusal::NoMemory),
            Err(Refusal::Broken(rules)) => match self.each_argument(Wanted::Unclear, items) {
                Ok(_) => Err(Refusal::Broken(rules)),
                Err(refusal) => Err(refusal),
            },
        }
    }

    /// A call of a declared function with its arguments.
    #[tactic(auto, using(crate::proofs::Steps::result_passed))]
    fn with_result(
        &self,
        one: &Declared<'_>,
        signature: &Signature<'_>,
        args: Vec<Typed>,
    ) -> Result<Called, Refusal>
        ensures { Tells called_of result (and_then (resolving.result_of (env_of self.now.env.now).scripts (signature_of signature.now)) (making.with_result (spec.number_among spec.is_function (env_of self.now.env.now).scripts (declared_of one.now)) (typed_all args.items))) }
    {
        let function = self.env.scripts.names.number_among(Kind::Function, one)?;
        match self.env.scripts.names.result_of(self.alloc, signature) {
            Ok(None) => Ok(Called::Performs { function, args }),
            Ok(Some(value_type)) => {
                let operands = operands_of(self.alloc, args)?;
                let expr = TypedExpr::Call { function, operands };
                Ok(Called::Gives(Typed { value_type, expr }))
            }
            Err(refusal) => Err(refusal),
        }
    }

    /// A call of a declared function.
    #[tactic(auto, using(crate::proofs::Steps::all_passed))]
    fn function_typed(
        &self,
        place: Place,
        one: &Declared<'_>,
        signature: &Signature<'_>,
        items: &[Item],
    ) -> Result<Called, Refusal>
        requires { Judges self.now.depth (F.pre self.now.part) (F.post self.now.part) }
        ensures { Tells called_of result (making.function_typed (rules.expr_to self.now.depth (env_of self.now.env.now)) (env_of self.now.env.now) place (declared_of one.now) (signature_of signature.now) items.now) }
    {
        match self.signed_arguments(place, signature, items) {
            Ok(args) => self.with_result(one, signature, args),
            Err(refusal) => Err(refusal),
        }
    }

    /// The items of what is no constructor of a record, behind its name.
    fn wrong_constructor(&self, place: Place, items: &[Item]) -> Refusal
        requires { Judges self.now.depth (F.pre self.now.part) (F.post self.now.part) }
        ensures { Tells behind_view (Err result) (behind_wrong rule.WrongType place (making.item_values (rules.expr_to self.now.depth (env_of self.now.env.now)) spec.Unclear items.now)) }
    {
        let behind = self.item_values(Wanted::Unclear, items);
        wrong_behind(self.alloc, Rule::WrongType, place, behind)
    }

    /// The constructor of a record type by its name.
    #[tactic(auto, using(crate::proofs::Steps::passed))]
    fn made_of(&self, place: Place, items: &[Item], one: &ValueType) -> Result<Called, Refusal>
        requires { Judges self.now.depth (F.pre self.now.part) (F.post self.now.part) }
        ensures { Tells called_of result (making.made_of (rules.expr_to self.now.depth (env_of self.now.env.now)) (env_of self.now.env.now) place items.now (type_of one.now)) }
    {
        match one {
            ValueType::Record(record) => match self.record_typed(place, *record, items) {
                Ok(made) => Ok(Called::Gives(made)),
                Err(refusal) => Err(refusal),
            },
            ValueType::Simple(_)
            | ValueType::Table { .. }
            | ValueType::Set { .. }
            | ValueType::Vector { .. } => Err(self.wrong_constructor(place, items)),
        }
    }

    /// Items behind a name whose type is broken.
    fn broken_constructor(
        &self,
        place: Place,
        refusal: Refusal,
        items: &[Item],
    ) -> Result<Called, Refusal>
        requires { Judges self.now.depth (F.pre self.now.part) (F.post self.now.part) }
        ensures { (told : Checked ValueForm) → Tells type_of (Err refusal) told → Tells called_of result (making.made_by (rules.expr_to self.now.depth (env_of self.now.env.now)) (env_of self.now.env.now) place items.now told) }
    {
        let items = self.item_values(Wanted::Unclear, items);
        along(Err(refusal), items)
    }

    /// The constructor of a record type that a declaration names.
    fn made_of_written(&self, place: Place, name: &Name, items: &[Item]) -> Result<Called, Refusal>
        requires { Judges self.now.depth (F.pre self.now.part) (F.post self.now.part) }
        ensures { Tells called_of result (making.made_by (rules.expr_to self.now.depth (env_of self.now.env.now)) (env_of self.now.env.now) place items.now (resolving.type_named (env_of self.now.env.now).scripts (env_of self.now.env.now).home name.now)) }
    {
        match self
            .env
            .scripts
            .names
            .type_named(self.alloc, self.env.home, name)
        {
            Ok(one) => self.made_of(place, items, &one),
            Err(refusal) => self.broken_constructor(place, refusal, items),
        }
    }

    /// The rules that are broken where a name is wrong, with those of the arguments behind it.
    pub fn wrong_name(&self, rule: Rule, place: Place, items: &[Item]) -> Refusal
        requires { Judges self.now.depth (F.pre self.now.part) (F.post self.now.part) }
        ensures { Tells behind_view (Err result) (behind_wrong rule place (each (making.argument (rules.expr_to self.now.depth (env_of self.now.env.now)) (env_of self.now.env.now) spec.Unclear) items.now)) }
    {
        let behind = self.each_argument(Wanted::Unclear, items);
        wrong_behind(self.alloc, rule, place, behind)
    }

    /// A call of the log framework.
    #[tactic(auto, using(crate::proofs::Steps::passed))]
    fn logged(&self, place: Place, function: LogFunction, items: &[Item]) -> Result<Called, Refusal>
        requires { Judges self.now.depth (F.pre self.now.part) (F.post self.now.part) }
        ensures { Tells called_of result (and_then (logs.log_typed (rules.expr_to self.now.depth (env_of self.now.env.now)) (env_of self.now.env.now) place (log_function_of function) items.now) making.gives) }
    {
        match self.log_typed(place, function, items) {
            Ok(made) => Ok(Called::Gives(made)),
            Err(refusal) => Err(refusal),
        }
    }

    /// A call of what a declared name means.
    fn declared_call(
        &self,
        one: &Declared<'_>,
        name: &Name,
        items: &[Item],
    ) -> Result<Called, Refusal>
        requires { Judges self.now.depth (F.pre self.now.part) (F.post self.now.part) }
        ensures { Tells called_of result (making.call_typed (rules.expr_to self.now.depth (env_of self.now.env.now)) (env_of self.now.env.now) name.now items.now (Some (declared_of one.now))) }
    {
        let place = self.env.at(name.place);
        match &one.meant {
            Meant::Function { signature } => self.function_typed(place, one, signature, items),
            Meant::BuiltInFunction { function } => self.built_in_typed(place, *function, items),
            Meant::Log { function } => self.logged(place, *function, items),
            Meant::KnownType { known } => self.made_of(place, items, known),
            Meant::WrittenType { .. } => self.made_of_written(place, name, items),
            Meant::Word { .. }
            | Meant::Variable { .. }
            | Meant::Event { .. }
            | Meant::Hook { .. } => Err(self.wrong_name(Rule::WrongType, place, items)),
        }
    }

    /// A call of what a name means.
    pub fn call_of(&self, name: &Name, items: &[Item]) -> Result<Called, Refusal>
        requires { Judges self.now.depth (F.pre self.now.part) (F.post self.now.part) }
        ensures { Tells called_of result (making.call_of (rules.expr_to self.now.depth (env_of self.now.env.now)) (env_of self.now.env.now) name.now items.now) }
    {
        match look_up(self.alloc, self.env, name)? {
            Found::Declared(one) => self.declared_call(one, name, items),
            Found::Local => Err(self.wrong_name(Rule::WrongType, self.env.at(name.place), items)),
            Found::Nothing => Err(self.wrong_name(Rule::Unknown, self.env.at(name.place), items)),
        }
    }

    /// A call of a hook with its arguments.
    #[tactic(auto, using(crate::proofs::Steps::all_passed))]
    fn hook_call(
        &self,
        place: Place,
        one: &Declared<'_>,
        signature: &Signature<'_>,
        items: &[Item],
    ) -> Result<Typed, Refusal>
        requires { Judges self.now.depth (F.pre self.now.part) (F.post self.now.part) }
        ensures { Tells typed_of result (hook_of (rules.expr_to self.now.depth (env_of self.now.env.now)) (env_of self.now.env.now) place (declared_of one.now) (signature_of signature.now) items.now) }
    {
        match self.signed_arguments(place, signature, items) {
            Ok(args) => {
                let number = self.env.scripts.names.number_among(Kind::Hook, one)?;
                let operands = operands_of(self.alloc, args)?;
                Ok(Typed {
                    value_type: ValueType::Simple(SimpleType::Bool),
                    expr: TypedExpr::Hook {
                        hook: HookNo(number),
                        operands,
                    },
                })
            }
            Err(refusal) => Err(refusal),
        }
    }

    /// `hook NAME(..)`
    pub fn hook_typed(&self, place: Place, name: &Name, items: &[Item]) -> Result<Typed, Refusal>
        requires { Judges self.now.depth (F.pre self.now.part) (F.post self.now.part) }
        ensures { Tells typed_of result (making.hook_typed (rules.expr_to self.now.depth (env_of self.now.env.now)) (env_of self.now.env.now) place name.now items.now (spec.found (env_of self.now.env.now) name.now)) }
    {
        let one = match look_up(self.alloc, self.env, name)? {
            Found::Declared(one) => one,
            Found::Local => {
                return Err(self.wrong_name(Rule::WrongType, self.env.at(name.place), items));
            }
            Found::Nothing => {
                return Err(self.wrong_name(Rule::Unknown, self.env.at(name.place), items));
            }
        };
        match &one.meant {
            Meant::Hook { signature } => self.hook_call(place, one, signature, items),
            _ => Err(self.wrong_name(Rule::WrongType, self.env.at(name.place), items)),
        }
    }

    /// A call where a value is wanted.
    #[tactic(auto, using(crate::proofs::Steps::called_passed))]
    fn called_value(&self, place: Place, name: &Name, items: &[Item]) -> Result<Typed, Refusal>
        requires { Judges self.now.depth (F.pre self.now.part) (F.post self.now.part) }
        ensures { Tells typed_of result (and_then (making.call_of (rules.expr_to self.now.depth (env_of self.now.env.now)) (env_of self.now.env.now) name.now items.now) (making.value_of place)) }
    {
        match self.call_of(name, items) {
            Ok(Called::Gives(one)) => Ok(one),
            Ok(Called::Performs { args, .. }) => {
                drop(args);
                Err(Refusal::Broken(one_broken(self.alloc, Rule::WrongType, place)?))
            }
            Err(refusal) => Err(refusal),
        }
    }

    /// An expression with the parts behind it, or a call of a name with those behind it.
    pub fn post_typed(&self, place: Place, first: &Expr, parts: &[Part]) -> Result<Typed, Refusal>
        requires { Judges self.now.depth (F.pre self.now.part) (F.post self.now.part) }
        ensures { Tells typed_of result (making.post_typed (rules.expr_to self.now.depth (env_of self.now.env.now)) (env_of self.now.env.now) place first.now parts.now (making.called_name first.now parts.now)) }
    {
        match called_name(first, parts) {
            None => {
                let before = self.check(Wanted::Nothing, first);
                self.parts_typed(place, before, parts)
            }
            Some((name, items, others)) => {
                let before = self.called_value(place, name, items);
                self.parts_typed(place, before, others)
            }
        }
    }
}
