ghost use Rattle.std.specs.Prelude.{◌≡◌, IfOk};
ghost use Rattle.std.specs.Option.{option_copied, option_map};
ghost use Rattle.zk_typed.specs.LogCalls as spec;
ghost use Rattle.zk_typed.specs.Tells.{Tells};
ghost use Rattle.zk_scope.specs.Lent.{declared_of, home_of};
ghost use Rattle.zk_scope.specs.Scripted.{scripts_in};
ghost use Rattle.zk_scope.specs.Streams.{option_items, settings_type, word_in};

use crate::declared::Declared;
use crate::home::Home;
use crate::kind::Kind;
use crate::known::Names;
use crate::typing::place_in;
use std::alloc::Global;
use zk_base::{Mem, RecordNo};
use zk_tree::{Expr, Item};
use zk_typed::script::ValueType;
use zk_typed::{Refusal, Rule, one_broken};

/// The items of a bracketed argument.
pub fn settings(one: &Expr) -> Option<&[Item]>
    ensures { option_items result ≡ spec.settings one.now }
{
    match one {
        Expr::List { items, .. } => Some(items.as_slice()),
        Expr::Assign { .. }
        | Expr::Choice { .. }
        | Expr::Chain { .. }
        | Expr::Compare { .. }
        | Expr::Unary { .. }
        | Expr::Post { .. }
        | Expr::Number { .. }
        | Expr::Interval { .. }
        | Expr::Literal { .. }
        | Expr::Truth { .. }
        | Expr::Name { .. }
        | Expr::Parenthesis { .. }
        | Expr::Size { .. }
        | Expr::Make { .. }
        | Expr::Hook { .. } => None,
    }
}

/// The value of a setting, `$NAME=VALUE`: of several the first.
pub fn setting<'a>(name: &[u8], items: &'a [Item]) -> Option<&'a Expr>
    ensures { option_copied result ≡ spec.setting name.now items.entry.now }
{
    for item in items {
        match item {
            Item::Field {
                name: other,
                value,
                ..
            } => {
                if other.text.as_slice() == name {
                    return Some(value);
                }
            }
            Item::Value { .. } => {}
        }
    }
    None
}

/// A name that is a word of `Log::ID`.
fn if_word<'a, 'b>(one: Option<&'b Declared<'a>>) -> Option<&'b Declared<'a>>
    ensures { option_map (λ one. declared_of one.now) result ≡ spec.if_word (option_map (λ one. declared_of one.now) one.entry) }
{
    match one {
        Some(one) => {
            if Kind::LogWord.is_of(one) {
                Some(one)
            } else {
                None
            }
        }
        None => None,
    }
}

/// The word of an argument that is one of `Log::ID`, by what its name means in a module.
pub fn word_in<'a, 'b>(
    alloc: Global,
    names: &'b Names<'a>,
    home: Home<'_>,
    one: &Expr,
) -> Result<Option<&'b Declared<'a>>, Mem>
    ensures { IfOk result (λ found. option_map (λ one. declared_of one.now) found ≡ word_in (scripts_in names.entry.now) (home_of home.entry) one.now) }
{
    match one {
        Expr::Name { name } => {
            let found = names.look_up(alloc, home.module_name, name.text.as_slice())?;
            Ok(if_word(found))
        }
        Expr::Assign { .. }
        | Expr::Choice { .. }
        | Expr::Chain { .. }
        | Expr::Compare { .. }
        | Expr::Unary { .. }
        | Expr::Post { .. }
        | Expr::Number { .. }
        | Expr::Interval { .. }
        | Expr::Literal { .. }
        | Expr::Truth { .. }
        | Expr::Parenthesis { .. }
        | Expr::Size { .. }
        | Expr::List { .. }
        | Expr::Make { .. }
        | Expr::Hook { .. } => Ok(None),
    }
}

/// The record type that a name names.
fn named_record(
    alloc: Global,
    names: &Names<'_>,
    home: Home<'_>,
    one: &Expr,
) -> Result<RecordNo, Refusal>
    ensures { Tells (λ number. number) result (spec.named_record (scripts_in names.now) (home_of home.entry) one.now) }
{
    let place = place_in(home, one.place());
    match one {
        Expr::Name { name } => match names.type_named(alloc, home, name) {
            Ok(ValueType::Record(number)) => Ok(number),
            Ok(ValueType::Simple(_))
            | Ok(ValueType::Table { .. })
            | Ok(ValueType::Set { .. })
            | Ok(ValueType::Vector { .. }) => {
                Err(Refusal::Broken(one_broken(alloc, Rule::WrongType, place)?))
            }
            Err(refusal) => Err(refusal),
        },
        Expr::Assign { .. }
        | Expr::Choice { .. }
        | Expr::Chain { .. }
        | Expr::Compare { .. }
        | Expr::Unary { .. }
        | Expr::Post { .. }
        | Expr::Number { .. }
        | Expr::Interval { .. }
        | Expr::Literal { .. }
        | Expr::Truth { .. }
        | Expr::Parenthesis { .. }
        | Expr::Size { .. }
        | Expr::List { .. }
        | Expr::Make { .. }
        | Expr::Hook { .. } => Err(Refusal::Broken(one_broken(alloc, Rule::WrongType, place)?)),
    }
}

/// The record type that `$columns` names.
pub fn columns_type(
    alloc: Global,
    names: &Names<'_>,
    home: Home<'_>,
    items: &[Item],
) -> Result<Option<RecordNo>, Refusal>
    ensures { Tells (λ number. number) result (spec.columns_type (scripts_in names.now) (home_of home.entry) items.now) }
{
    match setting(b"columns", items) {
        Some(one) => match named_record(alloc, names, home, one) {
            Ok(number) => Ok(Some(number)),
            Err(refusal) => Err(refusal),
        },
        None => Ok(None),
    }
}

/// The record type that the settings of a call of `create_stream` name, where it is known.
pub fn settings_type(
    alloc: Global,
    names: &Names<'_>,
    home: Home<'_>,
    items: Option<&[Item]>,
) -> Result<Option<RecordNo>, Mem>
    ensures { IfOk result (λ number. number ≡ settings_type (scripts_in names.now) (home_of home.entry) (option_items items.entry)) }
{
    match items {
        Some(items) => match columns_type(alloc, names, home, items) {
            Ok(number) => Ok(number),
            Err(Refusal::Broken(_)) => Ok(None),
            Err(Refusal::NoMemory) => Err(Mem),
        },
        None => Ok(None),
    }
}
