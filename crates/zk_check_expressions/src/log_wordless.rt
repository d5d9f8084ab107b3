//! The arguments of calls of the log framework behind a word that is broken: they are judged as far as they don't rest on it.
ghost use Rattle.zk_scope.specs.Lent.{log_function_of};
ghost use Rattle.zk_typed.specs.Expressions as rules;
ghost use Rattle.zk_typed.specs.LogCalls as logs;
ghost use Rattle.zk_typed.specs.Names.{AddFilter, CreateStream};
ghost use Rattle.zk_typed.specs.Tells.{Tells};
ghost use Rattle.zk_typed.specs.Typing as spec;
ghost use Rattle.zk_check_expressions.specs.Envs.{env_of};
ghost use Rattle.zk_check_expressions.specs.Judging.{Judges};

use crate::env::Env;
use crate::judge::Judge;
use crate::refuse::wrong;
use std::alloc::Global;
use zk_check_operators::{Typed, Wanted, along};
use zk_scope::LogFunction;
use zk_tree::{Expr, Item};
use zk_typed::Refusal;

impl<F: Fn(Global, &Env<'_>, u64, Wanted<'_>, &Expr) -> Result<Typed, Refusal>> Judge<'_, F> {
    /// The settings of `Log::create_stream`.
    #[tactic(auto, using(crate::proofs::LogLaws::stream_passed, crate::proofs::Refusals::refused))]
    fn wordless_stream(&self, one: &Expr) -> Result<(), Refusal>
        requires { Judges self.now.depth (F.pre self.now.part) (F.post self.now.part) }
        ensures { Tells (λ done. done) result (logs.wordless (rules.expr_to self.now.depth (env_of self.now.env.now)) (env_of self.now.env.now) CreateStream one.now) }
    {
        match one {
            Expr::List { place, items } => {
                match self.stream_settings(self.env.at(*place), items.as_slice()) {
                    Ok(parts) => {
                        drop(parts);
                        Ok(())
                    }
                    Err(refusal) => Err(refusal),
                }
            }
            _ => {
                let judged = self.check(Wanted::Nothing, one);
                Err(wrong(self.alloc, judged, self.env.expr_place(one)))
            }
        }
    }

    /// The settings of `Log::add_filter`.
    #[tactic(auto, using(crate::proofs::LogLaws::filter_passed, crate::proofs::Refusals::refused))]
    fn wordless_filter(&self, one: &Expr) -> Result<(), Refusal>
        requires { Judges self.now.depth (F.pre self.now.part) (F.post self.now.part) }
        ensures { Tells (λ done. done) result (logs.wordless (rules.expr_to self.now.depth (env_of self.now.env.now)) (env_of self.now.env.now) AddFilter one.now) }
    {
        match one {
            Expr::List { place, items } => {
                match self.filter_settings(None, self.env.at(*place), items.as_slice()) {
                    Ok(parts) => {
                        drop(parts);
                        Ok(())
                    }
                    Err(refusal) => Err(refusal),
                }
            }
            _ => {
                let judged = self.check(Wanted::Nothing, one);
                Err(wrong(self.alloc, judged, self.env.expr_place(one)))
            }
        }
    }

    /// The argument behind the word.
    #[tactic(auto, using(crate::proofs::Steps::passed))]
    fn wordless(&self, function: LogFunction, one: &Expr) -> Result<(), Refusal>
        requires { Judges self.now.depth (F.pre self.now.part) (F.post self.now.part) }
        ensures { Tells (λ done. done) result (logs.wordless (rules.expr_to self.now.depth (env_of self.now.env.now)) (env_of self.now.env.now) (log_function_of function) one.now) }
    {
        match function {
            LogFunction::CreateStream => self.wordless_stream(one),
            LogFunction::AddFilter => self.wordless_filter(one),
            LogFunction::RemoveFilter => match self.path_literal(one) {
                Ok(name) => {
                    drop(name);
                    Ok(())
                }
                Err(refusal) => Err(refusal),
            },
            LogFunction::RemoveDefaultFilter | LogFunction::Write => {
                match self.check(Wanted::Unclear, one) {
                    Ok(made) => {
                        drop(made);
                        Ok(())
                    }
                    Err(refusal) => Err(refusal),
                }
            }
        }
    }

    /// The item behind the word.
    #[tactic(auto, using(crate::proofs::Refusals::refused))]
    fn wordless_item(&self, function: LogFunction, item: &Item) -> Result<(), Refusal>
        requires { Judges self.now.depth (F.pre self.now.part) (F.post self.now.part) }
        ensures { Tells (λ done. done) result (spec.on_item (rules.expr_to self.now.depth (env_of self.now.env.now)) (env_of self.now.env.now) (logs.wordless (rules.expr_to self.now.depth (env_of self.now.env.now)) (env_of self.now.env.now) (log_function_of function)) item.now) }
    {
        match item {
            Item::Value { value } => self.wordless(function, value),
            Item::Field { place, value, .. } => {
                let judged = self.check(Wanted::Nothing, value);
                Err(wrong(self.alloc, judged, self.env.at(*place)))
            }
        }
    }

    /// The items behind the word.
    #[tactic(auto, using(zk_check_operators::proofs::BothLaws::along_tells))]
    pub fn all_wordless(&self, function: LogFunction, items: &[Item]) -> Result<(), Refusal>
        requires { Judges self.now.depth (F.pre self.now.part) (F.post self.now.part) }
        ensures { Tells (λ done. done) result (logs.all_wordless (rules.expr_to self.now.depth (env_of self.now.env.now)) (env_of self.now.env.now) (log_function_of function) items.now) }
    {
        match items.split_first() {
            None => Ok(()),
            Some((item, others)) => {
                let first = self.wordless_item(function, item);
                along(first, self.each_argument(Wanted::Unclear, others))
            }
        }
    }
}
