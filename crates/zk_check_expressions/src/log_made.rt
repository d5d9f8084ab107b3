//! What calls of the log framework are, once their settings are right.
ghost use Rattle.std.specs.Prelude.{◌≡◌, codes, IfOk};
ghost use Rattle.zk_scope.specs.Lent.{declared_of};
ghost use Rattle.zk_check_operators.specs.Views.{typed_of};
ghost use Rattle.zk_typed.specs.Expressions as rules;
ghost use Rattle.zk_typed.specs.LogCalls as logs;
ghost use Rattle.zk_typed.specs.Tells.{Tells};
ghost use Rattle.zk_check_expressions.specs.Envs.{env_of};
ghost use Rattle.zk_check_expressions.specs.Judging.{Judges};
ghost use Rattle.zk_check_expressions.specs.LogSettings.{filter_made, filter_of, kept_view, removed, removed_named, stream_made, written_row};
ghost use Rattle.zk_check_expressions.specs.Parts.{and_then};

use crate::env::Env;
use crate::judge::Judge;
use crate::log_columns::{filter_columns, stream_columns};
use crate::log_parts::{ColumnParts, PathParts, StreamParts};
use crate::log_settings::path_or_module;
use crate::log_words::{LogWord, log_no};
use sqlite_items::{Boxed, Items};
use std::alloc::Global;
use zk_base::{Bytes, Mem, RecordNo};
use zk_check_operators::{Typed, Wanted, applied};
use zk_scope::Declared;
use zk_tree::{Expr, Place};
use zk_typed::script::{Expr as TypedExpr, LogCall, Primitive, SimpleType, ValueType};
use zk_typed::{Refusal, Rule, one_broken};

/// A call of the log framework, which gives a truth value.
fn log_form(alloc: Global, call: LogCall) -> Typed
    ensures { typed_of result ≡ logs.log_form call }
{
    let truth = ValueType::Simple(SimpleType::Bool);
    applied(truth, Primitive::Log(call), Items::new(alloc))
}

/// A stream by its settings.
pub fn stream_made(
    alloc: Global,
    env: &Env<'_>,
    place: Place,
    word: &Declared<'_>,
    brackets: Place,
    parts: StreamParts,
) -> Result<Typed, Refusal>
    ensures { Tells typed_of result (stream_made (env_of env.now) place (declared_of word.now) brackets parts) }
{
    let (stream, shown) = parts;
    let (columns, event) = stream;
    let (path, policy) = shown;
    let Some(number) = columns else {
        return Err(Refusal::Broken(one_broken(alloc, Rule::Field, brackets)?));
    };
    let path = path_or_module(alloc, place, word, path)?;
    let log = log_no(env, word)?;
    let columns = stream_columns(alloc, env, number)?;
    Ok(log_form(
        alloc,
        LogCall::Create {
            log,
            event,
            path,
            policy,
            columns,
        },
    ))
}

/// A filter of a log of this record type, by its settings.
fn filter_of(
    alloc: Global,
    env: &Env<'_>,
    word: &Declared<'_>,
    number: RecordNo,
    name: Bytes,
    path: Option<Bytes>,
    kept: ColumnParts<'_>,
) -> Result<Typed, Mem>
    ensures { IfOk result (λ made. typed_of made ≡ filter_of (env_of env.now) (declared_of word.now) number name path (kept_view kept.entry)) }
{
    let (named, policy) = kept;
    let (included, excluded) = named;
    let log = log_no(env, word)?;
    let columns = filter_columns(alloc, env, included.as_deref(), excluded.as_deref(), number)?;
    Ok(log_form(
        alloc,
        LogCall::AddFilter {
            log,
            name,
            path,
            policy,
            columns,
        },
    ))
}

/// A filter by its settings.
pub fn filter_made(
    alloc: Global,
    env: &Env<'_>,
    word: &LogWord<'_>,
    brackets: Place,
    paths: PathParts,
    kept: ColumnParts<'_>,
) -> Result<Typed, Refusal>
    ensures { Tells typed_of result (filter_made (env_of env.now) (declared_of word.now.declared.now) word.now.columns brackets paths (kept_view kept.entry)) }
{
    let (name, path) = paths;
    let Some(name) = name else {
        return Err(Refusal::Broken(one_broken(alloc, Rule::Field, brackets)?));
    };
    match word.columns {
        Some(number) => Ok(filter_of(alloc, env, word.declared, number, name, path, kept)?),
        None => Err(Refusal::Broken(Items::new(alloc))),
    }
}

/// The removal of a filter by its name.
fn removal(alloc: Global, env: &Env<'_>, word: &Declared<'_>, name: Bytes) -> Result<Typed, Mem>
    ensures { IfOk result (λ made. typed_of made ≡ removed (env_of env.now) (declared_of word.now) name) }
{
    let log = log_no(env, word)?;
    Ok(log_form(alloc, LogCall::RemoveFilter { log, name }))
}

/// `Log::remove_default_filter`
pub fn default_removed(alloc: Global, env: &Env<'_>, word: &Declared<'_>) -> Result<Typed, Mem>
    ensures { IfOk result (λ made. typed_of made ≡ removed (env_of env.now) (declared_of word.now) (codes "default")) }
{
    let name = Bytes::copy_of(alloc, b"default")?;
    removal(alloc, env, word, name)
}

impl<F: Fn(Global, &Env<'_>, u64, Wanted<'_>, &Expr) -> Result<Typed, Refusal>> Judge<'_, F> {
    /// `Log::remove_filter`, with the name of a filter.
    #[tactic(auto, using(crate::proofs::Steps::passed))]
    pub fn filter_removed(&self, word: &Declared<'_>, one: &Expr) -> Result<Typed, Refusal>
        requires { Judges self.now.depth (F.pre self.now.part) (F.post self.now.part) }
        ensures { Tells typed_of result (and_then (logs.path_literal (rules.expr_to self.now.depth (env_of self.now.env.now)) (env_of self.now.env.now) one.now) (removed_named (env_of self.now.env.now) (declared_of word.now))) }
    {
        match self.path_literal(one) {
            Ok(name) => Ok(removal(self.alloc, self.env, word, name)?),
            Err(refusal) => Err(refusal),
        }
    }
}

/// `Log::write` of a row.
pub fn row_written(
    alloc: Global,
    env: &Env<'_>,
    word: &Declared<'_>,
    row: Typed,
) -> Result<Typed, Mem>
    ensures { IfOk result (λ made. typed_of made ≡ written_row (env_of env.now) (declared_of word.now) (typed_of row)) }
{
    let row = Boxed::new(alloc, row.expr)?;
    let log = log_no(env, word)?;
    Ok(Typed {
        value_type: ValueType::Simple(SimpleType::Bool),
        expr: TypedExpr::Write { log, row },
    })
}
