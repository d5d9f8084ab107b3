ghost use Rattle.std.specs.Prelude.{◌≡◌, ◌++◌, IfOk, OnOk};
ghost use Rattle.zk_scope.specs.Lent.{declared_of};
ghost use Rattle.zk_scope.specs.Scripted.{scripts_in};
ghost use Rattle.zk_typed.specs.LogCalls.{stream_type};
ghost use Rattle.zk_check_declarations.specs.Logging.{logs_by, logs_of};

use std::alloc::Global;
use zk_base::{Bytes, Mem, RecordNo};
use zk_scope::{Declared, Kind, Scripts};
use zk_typed::script::Log;

/// The record type of the columns of a log, where a stream of it is created.
fn columns_of(alloc: Global, scripts: &Scripts<'_>, word: &[u8]) -> Result<Option<RecordNo>, Mem>
    ensures { IfOk result (λ columns. columns ≡ stream_type (scripts_in scripts.now.names) word.now) }
{
    match scripts.log_type(alloc, word)? {
        Some(columns) => Ok(columns),
        None => Ok(None),
    }
}

/// Adds the log that a name stands for.
fn add_log(
    alloc: Global,
    scripts: &Scripts<'_>,
    one: &Declared<'_>,
    all: &mut Vec<Log>,
) -> Result<(), Mem>
    ensures { OnOk result (all.new.items ≡ all.old.items ++ logs_by (scripts_in scripts.now.names) (declared_of one.now)) }
{
    if Kind::LogWord.is_of(one) {
        let columns = columns_of(alloc, scripts, one.name.as_slice())?;
        let word = Bytes::copy_of(alloc, one.name.as_slice())?;
        all.push(Log { word, columns })?;
    }
    Ok(())
}

/// The logs of a program, in the order of their words.
pub fn all_logs(alloc: Global, scripts: &Scripts<'_>) -> Result<Vec<Log>, Mem>
    ensures { IfOk result (λ logs. logs.items ≡ logs_of (scripts_in scripts.now.names)) }
{
    let mut all = Vec::new(alloc);
    for one in scripts.names.declared() {
        add_log(alloc, scripts, one, &mut all)?;
    }
    Ok(all)
}
