//! The typing of calls of the log framework (Zeek manual, Logging Framework).
ghost use Rattle.std.specs.Prelude.{◌≡◌, codes, [], Err, IfOk, Option, is_some};
ghost use Rattle.zk_scope.specs.Lent.{declared_of, log_function_of};
ghost use Rattle.zk_check_operators.specs.Views.{typed_of};
ghost use Rattle.zk_tree.specs.declared.expr.Item.{out-Item};
ghost use Rattle.zk_base.specs.declared.numbers.RecordNo.{RecordNo as RecordNumber};
ghost use Rattle.zk_typed.specs.Checked.{Checked, along, both, broken};
ghost use Rattle.zk_typed.specs.declared.rule.Rule.TheVariants as rule;
ghost use Rattle.zk_typed.specs.Expressions as rules;
ghost use Rattle.zk_typed.specs.LogCalls as logs;
ghost use Rattle.zk_typed.specs.Names.{Declared as DeclaredName};
ghost use Rattle.zk_typed.specs.Tells.{Tells};
ghost use Rattle.zk_typed.specs.Typing as spec;
ghost use Rattle.zk_check_expressions.specs.Envs.{env_of};
ghost use Rattle.zk_check_expressions.specs.Judging.{Judges};
ghost use Rattle.zk_check_expressions.specs.LogSettings.{AreAlike, all_texts, filter_names, filter_view, kept_told, log_word_of, paths_told, stream_names, stream_told, texts_lent};

use crate::env::Env;
use crate::judge::Judge;
use crate::log_columns::is_among;
use crate::log_made::{default_removed, filter_made, row_written, stream_made};
use crate::log_parts::{FilterParts, StreamParts};
use crate::log_words::{LogWord, logged_word};
use crate::refuse::{broken, refused, with_rule, wrong};
use std::alloc::{AllocError, Global};
use zk_base::RecordNo;
use zk_check_operators::{Typed, Wanted, along, also, both};
use zk_scope::{Declared, LogFunction, setting};
use zk_tree::{Expr, Item, Place};
use zk_typed::script::ValueType;
use zk_typed::{Refusal, Rule, one_broken};

/// The names of settings that were given, with one more where it is allowed.
fn given_names<'a>(
    allowed: &[&[u8]],
    mut given: Vec<&'a [u8]>,
    item: &'a Item,
) -> Result<Vec<&'a [u8]>, AllocError>
    ensures { IfOk result (λ names. AreAlike (texts_lent allowed.now) (all_texts names) (logs.setting_name (out-Item item.entry.now) (all_texts given.entry))) }
{
    match item {
        Item::Field { name, .. } => {
            let name = name.text.as_slice();
            if is_among(name, allowed) && !is_among(name, &given) {
                given.push(name)?;
            }
            Ok(given)
        }
        Item::Value { .. } => Ok(given),
    }
}

/// Whether a setting is there.
fn has_setting(name: &[u8], items: &[Item]) -> bool
    ensures { result ≡ is_some (logs.setting name.now items.now) }
{
    setting(name, items).is_some()
}

impl<F: Fn(Global, &Env<'_>, u64, Wanted<'_>, &Expr) -> Result<Typed, Refusal>> Judge<'_, F> {
    /// A setting: one that is allowed, and wasn't given before.
    #[tactic(auto, using(crate::proofs::Refusals::refused))]
    fn setting_rules(&self, allowed: &[&[u8]], given: &[&[u8]], item: &Item) -> Result<(), Refusal>
        requires { Judges self.now.depth (F.pre self.now.part) (F.post self.now.part) }
        ensures { Tells (λ done. done) result (logs.setting_rules (rules.expr_to self.now.depth (env_of self.now.env.now)) (env_of self.now.env.now) (texts_lent allowed.now) (texts_lent given.now) (out-Item item.now)) }
    {
        match item {
            Item::Field { place, name, .. } => {
                let place = self.env.at(*place);
                if !is_among(name.text.as_slice(), allowed) {
                    return Err(Refusal::Broken(one_broken(self.alloc, Rule::Field, place)?));
                }
                if is_among(name.text.as_slice(), given) {
                    return Err(Refusal::Broken(one_broken(self.alloc, Rule::Twice, place)?));
                }
                Ok(())
            }
            Item::Value { value } => {
                let judged = self.check(Wanted::Nothing, value);
                Err(wrong(self.alloc, judged, self.env.expr_place(value)))
            }
        }
    }

    /// No other settings than those that are allowed, and none twice.
    fn only_settings(&self, allowed: &[&[u8]], items: &[Item]) -> Result<(), Refusal>
        requires { Judges self.now.depth (F.pre self.now.part) (F.post self.now.part) }
        ensures { Tells (λ done. done) result (logs.only_settings (rules.expr_to self.now.depth (env_of self.now.env.now)) (env_of self.now.env.now) (texts_lent allowed.now) [] items.now) }
    {
        let mut told = Ok(());
        let mut given = Vec::new(self.alloc);
        for item in items {
            told = also(told, self.setting_rules(allowed, &given, item));
            given = given_names(allowed, given, item)?;
        }
        told
    }

    /// The settings of `Log::create_stream`, whatever is missing.
    fn stream_given(&self, items: &[Item]) -> Result<((), StreamParts), Refusal>
        requires { Judges self.now.depth (F.pre self.now.part) (F.post self.now.part) }
        ensures { Tells (λ parts. parts) result (both (logs.only_settings (rules.expr_to self.now.depth (env_of self.now.env.now)) (env_of self.now.env.now) stream_names [] items.now) (stream_told (rules.expr_to self.now.depth (env_of self.now.env.now)) (env_of self.now.env.now) items.now)) }
    {
        let allowed: [&[u8]; 4] = [b"columns", b"ev", b"path", b"policy"];
        let only = self.only_settings(&allowed, items);
        both(only, self.stream_parts(items))
    }

    /// The settings of `Log::create_stream`, in brackets at a place.
    #[tactic(auto, using(crate::proofs::Refusals::held))]
    pub fn stream_settings(
        &self,
        brackets: Place,
        items: &[Item],
    ) -> Result<((), StreamParts), Refusal>
        requires { Judges self.now.depth (F.pre self.now.part) (F.post self.now.part) }
        ensures { Tells (λ parts. parts) result (logs.stream_settings (rules.expr_to self.now.depth (env_of self.now.env.now)) (env_of self.now.env.now) brackets items.now) }
    {
        let given = self.stream_given(items);
        with_rule(
            self.alloc,
            given,
            has_setting(b"columns", items),
            Rule::Field,
            brackets,
        )
    }

    /// `Log::create_stream`, by the settings in its brackets.
    #[tactic(auto, using(crate::proofs::LogLaws::stream_passed))]
    fn stream_typed(
        &self,
        place: Place,
        word: &Declared<'_>,
        brackets: Place,
        items: &[Item],
    ) -> Result<Typed, Refusal>
        requires { Judges self.now.depth (F.pre self.now.part) (F.post self.now.part) }
        ensures { Tells typed_of result (logs.create_typed (rules.expr_to self.now.depth (env_of self.now.env.now)) (env_of self.now.env.now) place (declared_of word.now) brackets items.now) }
    {
        match self.stream_settings(brackets, items) {
            Ok(((), parts)) => stream_made(self.alloc, self.env, place, word, brackets, parts),
            Err(refusal) => Err(refusal),
        }
    }

    /// The settings of `Log::add_filter`, whatever is missing.
    fn filter_given<'i>(
        &self,
        known: Option<RecordNo>,
        items: &'i [Item],
    ) -> Result<FilterParts<'i>, Refusal>
        requires { Judges self.now.depth (F.pre self.now.part) (F.post self.now.part) }
        ensures { Tells filter_view result (both (both (logs.only_settings (rules.expr_to self.now.depth (env_of self.now.env.now)) (env_of self.now.env.now) filter_names [] items.entry.now) (paths_told (rules.expr_to self.now.depth (env_of self.now.env.now)) (env_of self.now.env.now) items.entry.now)) (kept_told (rules.expr_to self.now.depth (env_of self.now.env.now)) (env_of self.now.env.now) known items.entry.now)) }
    {
        let allowed: [&[u8]; 5] = [b"name", b"path", b"include", b"exclude", b"policy"];
        let only = self.only_settings(&allowed, items);
        let paths = self.path_parts(items);
        let kept = self.column_parts(known, items);
        both(both(only, paths), kept)
    }

    /// The settings of `Log::add_filter`, in brackets at a place.
    #[tactic(auto, using(crate::proofs::Refusals::held))]
    pub fn filter_settings<'i>(
        &self,
        known: Option<RecordNo>,
        brackets: Place,
        items: &'i [Item],
    ) -> Result<FilterParts<'i>, Refusal>
        requires { Judges self.now.depth (F.pre self.now.part) (F.post self.now.part) }
        ensures { Tells filter_view result (logs.filter_settings (rules.expr_to self.now.depth (env_of self.now.env.now)) (env_of self.now.env.now) known brackets items.entry.now) }
    {
        let given = self.filter_given(known, items);
        with_rule(
            self.alloc,
            given,
            has_setting(b"name", items),
            Rule::Field,
            brackets,
        )
    }

    /// `Log::add_filter`, by the settings in its brackets.
    #[tactic(auto, using(crate::proofs::LogLaws::filter_passed))]
    fn filter_typed(
        &self,
        word: &LogWord<'_>,
        brackets: Place,
        items: &[Item],
    ) -> Result<Typed, Refusal>
        requires { Judges self.now.depth (F.pre self.now.part) (F.post self.now.part) }
        ensures { Tells typed_of result (logs.filter_typed (rules.expr_to self.now.depth (env_of self.now.env.now)) (env_of self.now.env.now) (declared_of word.now.declared.now) word.now.columns brackets items.now) }
    {
        match self.filter_settings(word.columns, brackets, items) {
            Ok((named, kept)) => {
                let ((), paths) = named;
                filter_made(self.alloc, self.env, word, brackets, paths, kept)
            }
            Err(refusal) => Err(refusal),
        }
    }

    /// `Log::create_stream` of an argument in brackets.
    #[tactic(auto, using(crate::proofs::Refusals::refused))]
    fn stream_created(
        &self,
        place: Place,
        word: &Declared<'_>,
        one: &Expr,
    ) -> Result<Typed, Refusal>
        requires { Judges self.now.depth (F.pre self.now.part) (F.post self.now.part) }
        ensures { Tells typed_of result (logs.with_settings (rules.expr_to self.now.depth (env_of self.now.env.now)) (env_of self.now.env.now) (logs.create_typed (rules.expr_to self.now.depth (env_of self.now.env.now)) (env_of self.now.env.now) place (declared_of word.now)) one.now) }
    {
        match one {
            Expr::List { place: at, items } => {
                self.stream_typed(place, word, self.env.at(*at), items.as_slice())
            }
            _ => {
                let judged = self.check(Wanted::Nothing, one);
                Err(wrong(self.alloc, judged, self.env.expr_place(one)))
            }
        }
    }

    /// `Log::add_filter` of an argument in brackets.
    #[tactic(auto, using(crate::proofs::Refusals::refused))]
    fn filter_added(&self, word: &LogWord<'_>, one: &Expr) -> Result<Typed, Refusal>
        requires { Judges self.now.depth (F.pre self.now.part) (F.post self.now.part) }
        ensures { Tells typed_of result (logs.with_settings (rules.expr_to self.now.depth (env_of self.now.env.now)) (env_of self.now.env.now) (logs.filter_typed (rules.expr_to self.now.depth (env_of self.now.env.now)) (env_of self.now.env.now) (declared_of word.now.declared.now) word.now.columns) one.now) }
    {
        match one {
            Expr::List { place: at, items } => {
                self.filter_typed(word, self.env.at(*at), items.as_slice())
            }
            _ => {
                let judged = self.check(Wanted::Nothing, one);
                Err(wrong(self.alloc, judged, self.env.expr_place(one)))
            }
        }
    }

    /// A row of a log, whose record type may be known.
    fn row(&self, known: Option<RecordNo>, one: &Expr) -> Result<Typed, Refusal>
        requires { Judges self.now.depth (F.pre self.now.part) (F.post self.now.part) }
        ensures { Tells typed_of result (rules.expr_to self.now.depth (env_of self.now.env.now) (logs.row_wanted known) one.now) }
    {
        match known {
            Some(number) => {
                let wanted = ValueType::Record(number);
                self.check(Wanted::Type(&wanted), one)
            }
            None => self.check(Wanted::Unclear, one),
        }
    }

    /// What a function of the log framework does with a word and its other argument.
    #[tactic(auto, using(crate::proofs::Steps::passed))]
    fn log_with(
        &self,
        place: Place,
        function: LogFunction,
        word: &LogWord<'_>,
        one: &Expr,
    ) -> Result<Typed, Refusal>
        requires { Judges self.now.depth (F.pre self.now.part) (F.post self.now.part) }
        ensures { Tells typed_of result (logs.log_with (rules.expr_to self.now.depth (env_of self.now.env.now)) (env_of self.now.env.now) place (log_function_of function) (declared_of word.now.declared.now) word.now.columns one.now) }
    {
        match function {
            LogFunction::CreateStream => self.stream_created(place, word.declared, one),
            LogFunction::AddFilter => self.filter_added(word, one),
            LogFunction::RemoveFilter => self.filter_removed(word.declared, one),
            LogFunction::RemoveDefaultFilter => {
                Err(Refusal::Broken(one_broken(self.alloc, Rule::Arguments, place)?))
            }
            LogFunction::Write => match self.row(word.columns, one) {
                Ok(row) => Ok(row_written(self.alloc, self.env, word.declared, row)?),
                Err(refusal) => Err(refusal),
            },
        }
    }

    /// What a function of the log framework does with a word and the item behind it.
    #[tactic(auto, using(crate::proofs::Refusals::refused))]
    fn log_item(
        &self,
        place: Place,
        function: LogFunction,
        word: &LogWord<'_>,
        item: &Item,
    ) -> Result<Typed, Refusal>
        requires { Judges self.now.depth (F.pre self.now.part) (F.post self.now.part) }
        ensures { Tells typed_of result (spec.on_item (rules.expr_to self.now.depth (env_of self.now.env.now)) (env_of self.now.env.now) (logs.log_with (rules.expr_to self.now.depth (env_of self.now.env.now)) (env_of self.now.env.now) place (log_function_of function) (declared_of word.now.declared.now) word.now.columns) item.now) }
    {
        match item {
            Item::Value { value } => self.log_with(place, function, word, value),
            Item::Field { place, value, .. } => self.named_item(*place, value),
        }
    }

    /// A function of the log framework with a word and nothing behind it.
    fn log_alone(
        &self,
        place: Place,
        function: LogFunction,
        word: &LogWord<'_>,
    ) -> Result<Typed, Refusal>
        requires { Judges self.now.depth (F.pre self.now.part) (F.post self.now.part) }
        ensures { Tells typed_of result (logs.log_of (rules.expr_to self.now.depth (env_of self.now.env.now)) (env_of self.now.env.now) place (log_function_of function) (declared_of word.now.declared.now) word.now.columns []) }
    {
        match function {
            LogFunction::RemoveDefaultFilter => {
                Ok(default_removed(self.alloc, self.env, word.declared)?)
            }
            LogFunction::CreateStream
            | LogFunction::AddFilter
            | LogFunction::RemoveFilter
            | LogFunction::Write => {
                Err(Refusal::Broken(one_broken(self.alloc, Rule::Arguments, place)?))
            }
        }
    }

    /// A function of the log framework with a word, an item behind it, and others that have no place.
    fn log_arguments(
        &self,
        place: Place,
        function: LogFunction,
        word: &LogWord<'_>,
        item: &Item,
        others: &[Item],
    ) -> Result<Typed, Refusal>
        requires { Judges self.now.depth (F.pre self.now.part) (F.post self.now.part) }
        ensures { Tells typed_of result (logs.log_arguments (rules.expr_to self.now.depth (env_of self.now.env.now)) (env_of self.now.env.now) place (log_function_of function) (declared_of word.now.declared.now) word.now.columns item.now others.now) }
    {
        let judged = self.log_item(place, function, word, item);
        match others.split_first() {
            None => judged,
            Some(_) => {
                let refusal = refused(self.alloc, judged, Rule::Arguments, place);
                along(Err(refusal), self.each_argument(Wanted::Unclear, others))
            }
        }
    }

    /// `Log::remove_default_filter` with items behind the word.
    fn none_removed(&self, place: Place, items: &[Item]) -> Result<Typed, Refusal>
        requires { Judges self.now.depth (F.pre self.now.part) (F.post self.now.part) }
        ensures { Tells typed_of result (along (broken rule.Arguments place) (logs.astray (rules.expr_to self.now.depth (env_of self.now.env.now)) (env_of self.now.env.now) items.now)) }
    {
        let refusal = broken(self.alloc, Rule::Arguments, place);
        along(Err(refusal), self.each_argument(Wanted::Unclear, items))
    }

    /// A function of the log framework with a word and the items behind it.
    fn log_of(
        &self,
        place: Place,
        function: LogFunction,
        word: &LogWord<'_>,
        items: &[Item],
    ) -> Result<Typed, Refusal>
        requires { Judges self.now.depth (F.pre self.now.part) (F.post self.now.part) }
        ensures { Tells typed_of result (logs.log_of (rules.expr_to self.now.depth (env_of self.now.env.now)) (env_of self.now.env.now) place (log_function_of function) (declared_of word.now.declared.now) word.now.columns items.now) }
    {
        match items.split_first() {
            None => self.log_alone(place, function, word),
            Some((item, others)) => match function {
                LogFunction::RemoveDefaultFilter => self.none_removed(place, items),
                LogFunction::CreateStream
                | LogFunction::AddFilter
                | LogFunction::RemoveFilter
                | LogFunction::Write => self.log_arguments(place, function, word, item, others),
            },
        }
    }

    /// The word of a log that has a stream, with its record type.
    fn log_word(&self, one: &Expr) -> Result<LogWord<'_>, Refusal>
        requires { Judges self.now.depth (F.pre self.now.part) (F.post self.now.part) }
        ensures { Tells log_word_of result (logs.log_word (rules.expr_to self.now.depth (env_of self.now.env.now)) (env_of self.now.env.now) one.now) }
    {
        match logged_word(self.alloc, self.env, one)? {
            Some(word) => Ok(word),
            None => {
                let judged = self.check(Wanted::Nothing, one);
                Err(wrong(self.alloc, judged, self.env.expr_place(one)))
            }
        }
    }

    /// The item that is the word of a log.
    #[tactic(auto, using(crate::proofs::Refusals::refused))]
    fn word_item(&self, item: &Item) -> Result<LogWord<'_>, Refusal>
        requires { Judges self.now.depth (F.pre self.now.part) (F.post self.now.part) }
        ensures { Tells log_word_of result (spec.on_item (rules.expr_to self.now.depth (env_of self.now.env.now)) (env_of self.now.env.now) (logs.log_word (rules.expr_to self.now.depth (env_of self.now.env.now)) (env_of self.now.env.now)) item.now) }
    {
        match item {
            Item::Value { value } => self.log_word(value),
            Item::Field { place, value, .. } => {
                let judged = self.check(Wanted::Nothing, value);
                Err(wrong(self.alloc, judged, self.env.at(*place)))
            }
        }
    }

    /// A function of the log framework with what its first argument is, and the items behind that.
    fn log_behind(
        &self,
        place: Place,
        function: LogFunction,
        word: Result<LogWord<'_>, Refusal>,
        others: &[Item],
    ) -> Result<Typed, Refusal>
        requires { Judges self.now.depth (F.pre self.now.part) (F.post self.now.part) }
        ensures { (told : Checked (DeclaredName × Option RecordNumber)) → Tells log_word_of word.entry told → Tells typed_of result (logs.log_behind (rules.expr_to self.now.depth (env_of self.now.env.now)) (env_of self.now.env.now) place (log_function_of function) others.now told) }
    {
        match word {
            Ok(word) => self.log_of(place, function, &word, others),
            Err(refusal) => along(Err(refusal), self.all_wordless(function, others)),
        }
    }

    /// A call of a function of the log framework, at a place.
    pub fn log_typed(
        &self,
        place: Place,
        function: LogFunction,
        items: &[Item],
    ) -> Result<Typed, Refusal>
        requires { Judges self.now.depth (F.pre self.now.part) (F.post self.now.part) }
        ensures { Tells typed_of result (logs.log_typed (rules.expr_to self.now.depth (env_of self.now.env.now)) (env_of self.now.env.now) place (log_function_of function) items.now) }
    {
        match items.split_first() {
            None => Err(Refusal::Broken(one_broken(self.alloc, Rule::Arguments, place)?)),
            Some((first, others)) => {
                let word = self.word_item(first);
                self.log_behind(place, function, word, others)
            }
        }
    }
}
