//! The paths and texts that calls of the log framework give (Zeek manual, Logging Framework).
ghost use Rattle.std.specs.Prelude.{◌≡◌, None};
ghost use Rattle.std.specs.List.{list_all};
ghost use Rattle.zk_scope.specs.Lent.{declared_of};
ghost use Rattle.zk_typed.specs.Expressions as rules;
ghost use Rattle.zk_typed.specs.LogCalls as logs;
ghost use Rattle.zk_typed.specs.Tells.{Tells};
ghost use Rattle.zk_check_expressions.specs.Envs.{env_of};
ghost use Rattle.zk_check_expressions.specs.Judging.{Judges};
ghost use Rattle.zk_check_expressions.specs.LogSettings.{path_text, text_lent};

use crate::env::Env;
use crate::judge::Judge;
use std::alloc::Global;
use zk_base::Bytes;
use zk_check_operators::{Typed, Wanted};
use zk_scope::{Declared, module_of};
use zk_tree::{Expr, Literal, Place};
use zk_typed::{Refusal, Rule, one_broken};

/// The bytes of a string in quotes.
pub fn text_of(one: &Expr) -> Option<&[u8]>
    ensures { text_lent result ≡ logs.text_of one.now }
{
    match one {
        Expr::Literal {
            literal: Literal::String(bytes),
            ..
        } => Some(bytes.as_slice()),
        _ => None,
    }
}

/// Whether a byte may stand in a path.
fn is_path_byte(byte: u8) -> bool
    ensures { result ≡ logs.is_path_byte byte }
{
    matches!(byte, b'a'..=b'z' | b'0'..=b'9' | b'_' | b'-')
}

/// Whether all bytes may stand in a path.
fn are_path_bytes(bytes: &[u8]) -> bool
    ensures { result ≡ list_all logs.is_path_byte bytes.now }
{
    for byte in bytes {
        if !is_path_byte(*byte) {
            return false;
        }
    }
    true
}

/// Whether bytes can be a path or the name of a filter: 1 to 64 of `a-z 0-9 _ -`.
fn is_path(bytes: &[u8]) -> bool
    ensures { result ≡ logs.is_path bytes.now }
{
    1 <= bytes.len() && bytes.len() <= 64 && are_path_bytes(bytes)
}

/// A path or the name of a filter, where it is a string in quotes.
fn path_text(alloc: Global, place: Place, one: &Expr) -> Result<Bytes, Refusal>
    ensures { Tells (λ path. path) result (path_text place one.now) }
{
    match text_of(one) {
        Some(bytes) => {
            if is_path(bytes) {
                Ok(Bytes::copy_of(alloc, bytes)?)
            } else {
                Err(Refusal::Broken(one_broken(alloc, Rule::Format, place)?))
            }
        }
        None => Err(Refusal::Broken(one_broken(alloc, Rule::Format, place)?)),
    }
}

impl<F: Fn(Global, &Env<'_>, u64, Wanted<'_>, &Expr) -> Result<Typed, Refusal>> Judge<'_, F> {
    /// A path or the name of a filter, which a string in quotes gives.
    #[tactic(auto, using(crate::proofs::Steps::passed))]
    pub fn path_literal(&self, one: &Expr) -> Result<Bytes, Refusal>
        requires { Judges self.now.depth (F.pre self.now.part) (F.post self.now.part) }
        ensures { Tells (λ path. path) result (logs.path_literal (rules.expr_to self.now.depth (env_of self.now.env.now)) (env_of self.now.env.now) one.now) }
    {
        match self.string(one) {
            Ok(judged) => {
                drop(judged);
                path_text(self.alloc, self.env.expr_place(one), one)
            }
            Err(refusal) => Err(refusal),
        }
    }

    /// The path of a log: `reporter` is kept for the rows that tell faults.
    #[tactic(auto, using(crate::proofs::Steps::passed))]
    pub fn log_path(&self, one: &Expr) -> Result<Bytes, Refusal>
        requires { Judges self.now.depth (F.pre self.now.part) (F.post self.now.part) }
        ensures { Tells (λ path. path) result (logs.log_path (rules.expr_to self.now.depth (env_of self.now.env.now)) (env_of self.now.env.now) one.now) }
    {
        match self.path_literal(one) {
            Ok(path) => {
                if path.as_slice() == b"reporter".as_slice() {
                    let place = self.env.expr_place(one);
                    return Err(Refusal::Broken(one_broken(self.alloc, Rule::Twice, place)?));
                }
                Ok(path)
            }
            Err(refusal) => Err(refusal),
        }
    }
}

/// The module of a name in lower case, as a path that is told at a place.
fn module_path(alloc: Global, place: Place, word: &Declared<'_>) -> Result<Bytes, Refusal>
    ensures { Tells (λ path. path) result (logs.path_or_module place (declared_of word.now) None) }
{
    let path = Bytes::from(module_of(word.name.as_slice()).to_ascii_lowercase(alloc)?);
    if !is_path(path.as_slice()) {
        return Err(Refusal::Broken(one_broken(alloc, Rule::Format, place)?));
    }
    if path.as_slice() == b"reporter".as_slice() {
        return Err(Refusal::Broken(one_broken(alloc, Rule::Twice, place)?));
    }
    Ok(path)
}

/// The path of a log, or where none is given that of its word's module in lower case.
pub fn path_or_module(
    alloc: Global,
    place: Place,
    word: &Declared<'_>,
    path: Option<Bytes>,
) -> Result<Bytes, Refusal>
    ensures { Tells (λ path. path) result (logs.path_or_module place (declared_of word.now) path) }
{
    match path {
        Some(path) => Ok(path),
        None => module_path(alloc, place, word),
    }
}
