//! The words of `Log::ID` that calls of the log framework name.
ghost use Rattle.std.specs.Prelude.{◌≡◌, IfOk};
ghost use Rattle.std.specs.Option.{option_map};
ghost use Rattle.zk_scope.specs.Lent.{declared_of};
ghost use Rattle.zk_typed.specs.LogCalls as logs;
ghost use Rattle.zk_typed.specs.Typing.{found};
ghost use Rattle.zk_check_expressions.specs.Envs.{env_of};
ghost use Rattle.zk_check_expressions.specs.LogSettings.{log_word_of, logged_word, typed_word};

use crate::env::Env;
use crate::found::{Found, look_up};
use std::alloc::Global;
use zk_base::{LogId, Mem, RecordNo};
use zk_scope::{Declared, Kind};
use zk_tree::Expr;

/// A word of `Log::ID` whose log has a stream, and the record type of the log where it is known.
#[derive(Clone, Copy)]
pub struct LogWord<'a> {
    pub declared: &'a Declared<'a>,
    pub columns: Option<RecordNo>,
}

/// The word of an argument that is one of `Log::ID`.
fn word_of<'a>(alloc: Global, env: &Env<'a>, one: &Expr) -> Result<Option<&'a Declared<'a>>, Mem>
    ensures { IfOk result (λ word. option_map (λ one. declared_of one.now) word ≡ logs.word_of (found (env_of env.now)) one.now) }
{
    match one {
        Expr::Name { name } => match look_up(alloc, env, name)? {
            Found::Declared(declared) => {
                if Kind::LogWord.is_of(declared) {
                    Ok(Some(declared))
                } else {
                    Ok(None)
                }
            }
            Found::Local | Found::Nothing => Ok(None),
        },
        _ => Ok(None),
    }
}

/// A word with the record type of its log, where the log has a stream.
fn typed_word<'a>(
    alloc: Global,
    env: &Env<'a>,
    word: Option<&'a Declared<'a>>,
) -> Result<Option<LogWord<'a>>, Mem>
    ensures { IfOk result (λ made. option_map log_word_of made ≡ typed_word (env_of env.now) (option_map (λ one. declared_of one.now) word.entry)) }
{
    match word {
        Some(declared) => match env.scripts.log_type(alloc, declared.name.as_slice())? {
            Some(columns) => Ok(Some(LogWord { declared, columns })),
            None => Ok(None),
        },
        None => Ok(None),
    }
}

/// The word of an argument whose log has a stream.
pub fn logged_word<'a>(alloc: Global, env: &Env<'a>, one: &Expr) -> Result<Option<LogWord<'a>>, Mem>
    ensures { IfOk result (λ word. option_map log_word_of word ≡ logged_word (env_of env.now) one.now) }
{
    let word = word_of(alloc, env, one)?;
    typed_word(alloc, env, word)
}

/// The number of a log, by its word.
pub fn log_no(env: &Env<'_>, word: &Declared<'_>) -> Result<LogId, Mem>
    ensures { IfOk result (λ log. log ≡ logs.log_no (env_of env.now) (declared_of word.now)) }
{
    let number = env.scripts.names.number_among(Kind::LogWord, word)?;
    Ok(LogId(number))
}
