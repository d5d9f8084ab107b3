ghost use Rattle.std.specs.Prelude.{◌≡◌, ◌++◌, IfOk, OnOk, flat_map};
ghost use Rattle.zk_tree.specs.declared.decl.Decl.{out-Decl};
ghost use Rattle.zk_typed.specs.LogCalls as spec;
ghost use Rattle.zk_scope.specs.Calls.{call_of, calls_lent};
ghost use Rattle.zk_scope.specs.Lent.{home_of, stated_lent, stated_of};
ghost use Rattle.zk_scope.specs.Scripted.{scripts_in};
ghost use Rattle.zk_scope.specs.Streams.{call_created, created_by, created_lent, others_type, stated_created, with_stream};

use crate::arguing::{settings, settings_type, word_in};
use crate::calls::{Call, item_expr};
use crate::declared::{LogFunction, Meant};
use crate::home::{Home, Stated};
use crate::known::Names;
use crate::statement_calls::decl_calls;
use std::alloc::Global;
use zk_base::{Mem, RecordNo};
use zk_tree::Item;

/// What a call of `create_stream` says of a log (Zeek manual, Logging Framework).
#[derive(Drop)]
pub struct Created {
    /// The whole name of the log.
    pub word: Vec<u8>,
    /// The record type of its rows, where it is known.
    pub columns: Option<RecordNo>,
}

/// Whether a call is one of `create_stream`.
fn creates(alloc: Global, names: &Names<'_>, call: &Call<'_>) -> Result<bool, Mem>
    ensures { IfOk result (λ found. found ≡ spec.creates (scripts_in names.now) (call_of call.now)) }
{
    let found = names.look_up(alloc, call.home.module_name, call.name.text.as_slice())?;
    match found {
        Some(one) => match &one.meant {
            Meant::Log { function } => Ok(*function == LogFunction::CreateStream),
            Meant::KnownType { .. }
            | Meant::WrittenType { .. }
            | Meant::Word { .. }
            | Meant::Variable { .. }
            | Meant::Event { .. }
            | Meant::Hook { .. }
            | Meant::Function { .. }
            | Meant::BuiltInFunction { .. } => Ok(false),
        },
        None => Ok(false),
    }
}

/// The record type that the arguments behind a call's word name.
fn others_type(
    alloc: Global,
    names: &Names<'_>,
    home: Home<'_>,
    others: &[Item],
) -> Result<Option<RecordNo>, Mem>
    ensures { IfOk result (λ number. number ≡ others_type (scripts_in names.now) (home_of home.entry) others.now) }
{
    let Some((one, more)) = others.split_first() else {
        return Ok(None);
    };
    if !more.is_empty() {
        return Ok(None);
    }
    settings_type(alloc, names, home, settings(item_expr(one)))
}

/// Adds what a call of `create_stream` says of a log.
fn add_created(
    alloc: Global,
    names: &Names<'_>,
    call: &Call<'_>,
    all: &mut Vec<Created>,
) -> Result<(), Mem>
    ensures { OnOk result (created_lent all.new.items ≡ created_lent all.old.items ++ created_by (scripts_in names.now) (call_of call.now)) }
{
    let Some((first, others)) = call.items.split_first() else {
        return Ok(());
    };
    let word = word_in(alloc, names, call.home, item_expr(first))?;
    let Some(word) = word else {
        return Ok(());
    };
    let columns = others_type(alloc, names, call.home, others)?;
    let word = Vec::from_slice(alloc, word.name.as_slice())?;
    all.push(Created { word, columns })?;
    Ok(())
}

/// Adds what a call says of a log, where it is one of `create_stream`.
fn add_call_created(
    alloc: Global,
    names: &Names<'_>,
    call: &Call<'_>,
    all: &mut Vec<Created>,
) -> Result<(), Mem>
    ensures { OnOk result (created_lent all.new.items ≡ created_lent all.old.items ++ call_created (scripts_in names.now) (call_of call.now)) }
{
    if creates(alloc, names, call)? {
        add_created(alloc, names, call, all)?;
    }
    Ok(())
}

/// Adds what calls among some say of logs.
fn add_all_created(
    alloc: Global,
    names: &Names<'_>,
    calls: &[Call<'_>],
    all: &mut Vec<Created>,
) -> Result<(), Mem>
    ensures { OnOk result (created_lent all.new.items ≡ created_lent all.old.items ++ flat_map (call_created (scripts_in names.now)) (calls_lent calls.now)) }
{
    for call in calls {
        add_call_created(alloc, names, call, all)?;
    }
    Ok(())
}

/// Adds what a declaration says of logs.
fn add_stated_created(
    alloc: Global,
    names: &Names<'_>,
    one: Stated<'_>,
    all: &mut Vec<Created>,
) -> Result<(), Mem>
    ensures { OnOk result (created_lent all.new.items ≡ created_lent all.old.items ++ stated_created (scripts_in names.now) (stated_of one.entry)) }
{
    let calls = decl_calls(alloc, one)?;
    add_all_created(alloc, names, &calls, all)?;
    Ok(())
}

/// Adds what declarations say of logs.
fn add_every_created(
    alloc: Global,
    names: &Names<'_>,
    stated: &[Stated<'_>],
    all: &mut Vec<Created>,
) -> Result<(), Mem>
    ensures { OnOk result (created_lent all.new.items ≡ created_lent all.old.items ++ flat_map (stated_created (scripts_in names.now)) (stated_lent stated.now)) }
{
    for one in stated {
        add_stated_created(alloc, names, *one, all)?;
    }
    Ok(())
}

/// What all declarations say of logs, in load order.
pub fn all_created(alloc: Global, names: &Names<'_>) -> Result<Vec<Created>, Mem>
    ensures { IfOk result (λ all. created_lent all.items ≡ flat_map (stated_created (scripts_in names.now)) (scripts_in names.now).stated) }
{
    let mut all = Vec::new(alloc);
    add_every_created(alloc, names, names.stated(), &mut all)?;
    Ok(all)
}

/// What two streams of one log say of its type.
fn agreed(first: Option<RecordNo>, other: Option<RecordNo>) -> Option<Option<RecordNo>>
    ensures { result ≡ spec.agreed first other }
{
    match (first, other) {
        (None, other) => Some(other),
        (Some(first), None) => Some(Some(first)),
        (Some(first), Some(other)) => {
            if first.0 == other.0 {
                Some(Some(first))
            } else {
                None
            }
        }
    }
}

/// What a stream and those behind it say of the type of a log.
pub fn with_stream(
    first: Option<RecordNo>,
    so_far: Option<Option<Option<RecordNo>>>,
) -> Option<Option<RecordNo>>
    ensures { result ≡ with_stream first so_far }
{
    match so_far {
        None => Some(first),
        Some(None) => None,
        Some(Some(other)) => agreed(first, other),
    }
}
