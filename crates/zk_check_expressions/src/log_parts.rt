//! The settings of streams and filters, each where it is given.
ghost use Rattle.std.specs.Prelude.{◌≡◌, codes, IfOk, Option};
ghost use Rattle.std.specs.Option.{option_map};
ghost use Rattle.zk_base.specs.declared.numbers.RecordNo.{RecordNo as RecordNumber};
ghost use Rattle.zk_typed.specs.Checked.{Checked};
ghost use Rattle.zk_typed.specs.Expressions as rules;
ghost use Rattle.zk_typed.specs.LogCalls as logs;
ghost use Rattle.zk_typed.specs.Tells.{Tells};
ghost use Rattle.zk_check_expressions.specs.Envs.{env_of};
ghost use Rattle.zk_check_expressions.specs.Judging.{Judges};
ghost use Rattle.zk_check_expressions.specs.LogSettings.{all_texts, columns_told, kept_told, kept_view, maybe, paths_told, stream_told};

use crate::env::Env;
use crate::judge::Judge;
use crate::log_names::{event_setting, policy_setting};
use crate::names::local_meant;
use std::alloc::Global;
use zk_base::{Bytes, EventNo, HookNo, Mem, RecordNo};
use zk_check_operators::{Typed, Wanted, both};
use zk_scope::{columns_type, setting};
use zk_tree::{Expr, Item};
use zk_typed::{Refusal, Rule, one_broken};

/// The record type, the event, the path and the policy of a stream.
pub type StreamParts = (
    (Option<RecordNo>, Option<EventNo>),
    (Option<Bytes>, Option<HookNo>),
);

/// The name and the path of a filter.
pub type PathParts = (Option<Bytes>, Option<Bytes>);

/// The columns that a filter includes and excludes, and its policy.
pub type ColumnParts<'a> = (
    (Option<Vec<&'a [u8]>>, Option<Vec<&'a [u8]>>),
    Option<HookNo>,
);

/// All settings of a filter.
pub type FilterParts<'a> = (((), PathParts), ColumnParts<'a>);

/// A name that no local hides.
fn not_local(alloc: Global, env: &Env<'_>, one: &Expr) -> Result<(), Refusal>
    ensures { Tells (λ done. done) result (logs.not_local (env_of env.now) one.now) }
{
    match one {
        Expr::Name { name } => {
            if local_meant(alloc, env.locals, name.text.as_slice())?.is_some() {
                let place = env.expr_place(one);
                return Err(Refusal::Broken(one_broken(alloc, Rule::WrongType, place)?));
            }
            Ok(())
        }
        _ => Ok(()),
    }
}

/// The record type that `$columns` names, which no local hides.
fn columns_setting(
    alloc: Global,
    env: &Env<'_>,
    items: &[Item],
) -> Result<Option<RecordNo>, Refusal>
    ensures { Tells (λ number. number) result (columns_told (env_of env.now) items.now) }
{
    match setting(b"columns", items) {
        Some(one) => match not_local(alloc, env, one) {
            Ok(()) => columns_type(alloc, &env.scripts.names, env.home, items),
            Err(refusal) => Err(refusal),
        },
        None => columns_type(alloc, &env.scripts.names, env.home, items),
    }
}

/// A record type, where it is known.
fn known_columns(columns: &Result<Option<RecordNo>, Refusal>) -> Result<Option<RecordNo>, Mem>
    ensures { IfOk result (λ known. (told : Checked (Option RecordNumber)) → Tells (λ number. number) columns.now told → known ≡ logs.if_known told) }
{
    match columns {
        Ok(number) => Ok(*number),
        Err(Refusal::Broken(_)) => Ok(None),
        Err(Refusal::NoMemory) => Err(Mem),
    }
}

/// The event of `$ev`, where it is given.
fn maybe_event(
    alloc: Global,
    env: &Env<'_>,
    known: Option<RecordNo>,
    items: &[Item],
) -> Result<Option<EventNo>, Refusal>
    ensures { Tells (λ number. number) result (maybe (logs.event_setting (env_of env.now) known) (codes "ev") items.now) }
{
    match setting(b"ev", items) {
        Some(one) => Ok(Some(event_setting(alloc, env, known, one)?)),
        None => Ok(None),
    }
}

/// The hook of `$policy`, where it is given.
fn maybe_policy(
    alloc: Global,
    env: &Env<'_>,
    known: Option<RecordNo>,
    items: &[Item],
) -> Result<Option<HookNo>, Refusal>
    ensures { Tells (λ number. number) result (maybe (logs.policy_setting (env_of env.now) known) (codes "policy") items.now) }
{
    match setting(b"policy", items) {
        Some(one) => Ok(Some(policy_setting(alloc, env, known, one)?)),
        None => Ok(None),
    }
}

impl<F: Fn(Global, &Env<'_>, u64, Wanted<'_>, &Expr) -> Result<Typed, Refusal>> Judge<'_, F> {
    /// The path of `$path`, where it is given.
    fn maybe_path(&self, items: &[Item]) -> Result<Option<Bytes>, Refusal>
        requires { Judges self.now.depth (F.pre self.now.part) (F.post self.now.part) }
        ensures { Tells (λ path. path) result (maybe (logs.log_path (rules.expr_to self.now.depth (env_of self.now.env.now)) (env_of self.now.env.now)) (codes "path") items.now) }
    {
        match setting(b"path", items) {
            Some(one) => Ok(Some(self.log_path(one)?)),
            None => Ok(None),
        }
    }

    /// The name of `$name`, where it is given.
    fn maybe_name(&self, items: &[Item]) -> Result<Option<Bytes>, Refusal>
        requires { Judges self.now.depth (F.pre self.now.part) (F.post self.now.part) }
        ensures { Tells (λ name. name) result (maybe (logs.path_literal (rules.expr_to self.now.depth (env_of self.now.env.now)) (env_of self.now.env.now)) (codes "name") items.now) }
    {
        match setting(b"name", items) {
            Some(one) => Ok(Some(self.path_literal(one)?)),
            None => Ok(None),
        }
    }

    /// The names of `$include` or `$exclude`, where they are given.
    fn maybe_names<'i>(
        &self,
        name: &[u8],
        items: &'i [Item],
    ) -> Result<Option<Vec<&'i [u8]>>, Refusal>
        requires { Judges self.now.depth (F.pre self.now.part) (F.post self.now.part) }
        ensures { Tells (option_map all_texts) result (maybe (logs.names_setting (rules.expr_to self.now.depth (env_of self.now.env.now)) (env_of self.now.env.now)) name.now items.entry.now) }
    {
        match setting(name, items) {
            Some(one) => Ok(Some(self.names_setting(one)?)),
            None => Ok(None),
        }
    }

    /// What the settings of a stream are.
    pub fn stream_parts(&self, items: &[Item]) -> Result<StreamParts, Refusal>
        requires { Judges self.now.depth (F.pre self.now.part) (F.post self.now.part) }
        ensures { Tells (λ parts. parts) result (stream_told (rules.expr_to self.now.depth (env_of self.now.env.now)) (env_of self.now.env.now) items.now) }
    {
        let columns = columns_setting(self.alloc, self.env, items);
        let known = known_columns(&columns)?;
        let event = maybe_event(self.alloc, self.env, known, items);
        let path = self.maybe_path(items);
        let policy = maybe_policy(self.alloc, self.env, known, items);
        both(both(columns, event), both(path, policy))
    }

    /// The name and the path of a filter.
    pub fn path_parts(&self, items: &[Item]) -> Result<PathParts, Refusal>
        requires { Judges self.now.depth (F.pre self.now.part) (F.post self.now.part) }
        ensures { Tells (λ parts. parts) result (paths_told (rules.expr_to self.now.depth (env_of self.now.env.now)) (env_of self.now.env.now) items.now) }
    {
        let name = self.maybe_name(items);
        let path = self.maybe_path(items);
        both(name, path)
    }

    /// The columns and the policy of a filter.
    pub fn column_parts<'i>(
        &self,
        known: Option<RecordNo>,
        items: &'i [Item],
    ) -> Result<ColumnParts<'i>, Refusal>
        requires { Judges self.now.depth (F.pre self.now.part) (F.post self.now.part) }
        ensures { Tells kept_view result (kept_told (rules.expr_to self.now.depth (env_of self.now.env.now)) (env_of self.now.env.now) known items.entry.now) }
    {
        let included = self.maybe_names(b"include", items);
        let excluded = self.maybe_names(b"exclude", items);
        let policy = maybe_policy(self.alloc, self.env, known, items);
        both(both(included, excluded), policy)
    }
}
