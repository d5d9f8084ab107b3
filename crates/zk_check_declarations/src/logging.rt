ghost use Rattle.std.specs.Prelude.{◌≡◌, [], ◌∷◌, ◌++◌, false, flat_map, map, slice_get, IfOk, OnOk};
ghost use Rattle.std.specs.Option.{option_map};
ghost use Rattle.zk_typed.specs.Errors as spec;
ghost use Rattle.zk_typed.specs.LogCalls as log_spec;
ghost use Rattle.zk_typed.specs.Logs as logs_spec;
ghost use Rattle.zk_typed.specs.View.{expr_of};
ghost use Rattle.zk_scope.specs.Calls.{call_of};
ghost use Rattle.zk_scope.specs.Leaves.{leaves_lent};
ghost use Rattle.zk_scope.specs.Lent.{declared_of, stated_lent, stated_of};
ghost use Rattle.zk_check_declarations.specs.Sources.{IsSource, scripts_from};
ghost use Rattle.zk_check_declarations.specs.Uses.{created_by, created_in, if_there, log_form, log_primitive, means_log, paths_of, stated_created, streams_lent, use_with};
ghost use Rattle.zk_check_declarations.specs.Paths.{use_of, uses_lent};

use crate::bodiless::bodiless_expr;
use crate::paths::{PathUse, copied_leaf};
use crate::source::Source;
use sqlite_items::at;
use std::alloc::Global;
use zk_base::{Bytes, LogId, Mem};
use zk_check_expressions::called_name;
use zk_check_operators::Wanted;
use zk_scope::{Call, Declared, Leaf, Meant, Stated, decl_calls};
use zk_tree::Expr;
use zk_typed::Refusal;
use zk_typed::script::{Expr as TypedExpr, LogCall, Primitive};

/// A stream of a log, and the path that it writes to.
#[derive(Debug, Drop)]
pub struct StreamPath {
    pub log: LogId,
    pub path: Bytes,
}

/// The call of the log framework that a primitive is.
fn log_primitive(one: Primitive) -> Option<LogCall>
    ensures { result ≡ log_primitive one }
{
    match one {
        Primitive::Log(call) => Some(call),
        Primitive::Unary(_)
        | Primitive::Binary(_)
        | Primitive::Compare(_)
        | Primitive::HasKey
        | Primitive::HasText
        | Primitive::HasAddress
        | Primitive::HasIndex
        | Primitive::Size
        | Primitive::Field(_)
        | Primitive::HasField(_)
        | Primitive::Element
        | Primitive::Item
        | Primitive::NewTable(_)
        | Primitive::NewSet(_)
        | Primitive::NewVector
        | Primitive::Step { .. }
        | Primitive::BuiltIn(_) => None,
    }
}

/// The call of the log framework that an expression is.
fn log_form(one: TypedExpr) -> Option<LogCall>
    ensures { result ≡ log_form (expr_of one) }
{
    match one {
        TypedExpr::Apply {
            primitive,
            operands: _,
        } => log_primitive(primitive),
        TypedExpr::Literal(_)
        | TypedExpr::Local(_)
        | TypedExpr::Global(_)
        | TypedExpr::New { .. }
        | TypedExpr::And(..)
        | TypedExpr::Or(..)
        | TypedExpr::Choice { .. }
        | TypedExpr::Call { .. }
        | TypedExpr::Hook { .. }
        | TypedExpr::Write { .. } => None,
    }
}

/// Whether a name means a function of the log framework.
fn means_log(found: Option<&Declared<'_>>) -> bool
    ensures { result ≡ means_log (option_map (λ one. declared_of one.now) found.entry) }
{
    match found {
        Some(one) => match &one.meant {
            Meant::Log { .. } => true,
            Meant::KnownType { .. }
            | Meant::WrittenType { .. }
            | Meant::Word { .. }
            | Meant::Variable { .. }
            | Meant::Event { .. }
            | Meant::Hook { .. }
            | Meant::Function { .. }
            | Meant::BuiltInFunction { .. } => false,
        },
        None => false,
    }
}

/// Whether a call may be one of the log framework, by the name that it calls.
fn may_log(source: &Source<'_>, call: &Call<'_>) -> Result<bool, Mem>
    ensures { IfOk result (λ may. may ≡ false → spec.log_call (scripts_from source.now) (call_of call.now) ≡ []) }
{
    let Expr::Post { first, parts } = call.whole else {
        return Ok(true);
    };
    match called_name(first.get(), parts.as_slice()) {
        Some((name, _, _)) => {
            let names = &source.scripts.names;
            let text = name.text.as_slice();
            let found = names.look_up(source.alloc, call.home.module_name, text)?;
            Ok(means_log(found))
        }
        None => Ok(true),
    }
}

/// What a call of the log framework is, where it says something of streams and filters.
pub fn log_call(source: &Source<'_>, call: &Call<'_>) -> Result<Option<LogCall>, Mem>
    requires { IsSource source.now }
    ensures { IfOk result (λ found. if_there found ≡ spec.log_call (scripts_from source.now) (call_of call.now)) }
{
    if !may_log(source, call)? {
        return Ok(None);
    }
    let one = bodiless_expr(
        source.alloc,
        source.scripts,
        source.globals,
        call.home,
        Wanted::Nothing,
        call.whole,
    );
    match one {
        Ok(one) => Ok(log_form(one.expr)),
        Err(Refusal::Broken(_)) => Ok(None),
        Err(Refusal::NoMemory) => Err(Mem),
    }
}

/// Adds the stream that a call creates.
fn add_stream(source: &Source<'_>, call: &Call<'_>, all: &mut Vec<StreamPath>) -> Result<(), Mem>
    requires { IsSource source.now }
    ensures { OnOk result (streams_lent all.new.items ≡ streams_lent all.old.items ++ flat_map created_by (spec.log_call (scripts_from source.now) (call_of call.now))) }
{
    match log_call(source, call)? {
        Some(LogCall::Create { log, path, .. }) => {
            all.push(StreamPath { log, path })?;
            Ok(())
        }
        Some(LogCall::AddFilter { .. }) | Some(LogCall::RemoveFilter { .. }) | None => Ok(()),
    }
}

/// Adds the streams that a declaration creates.
fn add_streams(source: &Source<'_>, one: Stated<'_>, all: &mut Vec<StreamPath>) -> Result<(), Mem>
    requires { IsSource source.now }
    ensures { OnOk result (streams_lent all.new.items ≡ streams_lent all.old.items ++ stated_created (scripts_from source.now) (stated_of one.entry)) }
{
    let calls = decl_calls(source.alloc, one)?;
    for call in &calls {
        add_stream(source, call, all)?;
    }
    Ok(())
}

/// The streams that declarations create.
fn streams_among(source: &Source<'_>, stated: &[Stated<'_>]) -> Result<Vec<StreamPath>, Mem>
    requires { IsSource source.now }
    ensures { IfOk result (λ all. streams_lent all.items ≡ flat_map (stated_created (scripts_from source.now)) (stated_lent stated.now)) }
{
    let mut all = Vec::new(source.alloc);
    for one in stated {
        add_streams(source, *one, &mut all)?;
    }
    Ok(all)
}

/// The streams that scripts create, with their paths, in load order.
pub fn all_streams(source: &Source<'_>) -> Result<Vec<StreamPath>, Mem>
    requires { IsSource source.now }
    ensures { IfOk result (λ all. streams_lent all.items ≡ created_in (scripts_from source.now)) }
{
    streams_among(source, source.scripts.names.stated())
}

/// Adds the column with a number, where there is one.
#[tactic(auto, using(crate::proofs::UseLaws::picked_one, crate::proofs::UseLaws::picked_none))]
fn add_picked(alloc: Global, leaves: &[Leaf], place: u32, made: &mut Vec<Leaf>) -> Result<(), Mem>
    ensures { OnOk result (leaves_lent made.new.items ≡ leaves_lent made.old.items ++ if_there (slice_get (leaves_lent leaves.now) place)) }
{
    match at(leaves, place as usize) {
        Some(leaf) => {
            let copy = copied_leaf(alloc, leaf)?;
            made.push(copy)?;
            Ok(())
        }
        None => Ok(()),
    }
}

/// The columns with these numbers.
fn picked(alloc: Global, leaves: &[Leaf], places: &[u32]) -> Result<Vec<Leaf>, Mem>
    ensures { IfOk result (λ made. leaves_lent made.items ≡ logs_spec.picked (leaves_lent leaves.now) places.now) }
{
    let mut made = Vec::new(alloc);
    for place in places {
        add_picked(alloc, leaves, *place, &mut made)?;
    }
    Ok(made)
}

/// The columns of a stream: those that are marked `&log`.
pub fn logged(alloc: Global, leaves: &[Leaf]) -> Result<Vec<Leaf>, Mem>
    ensures { IfOk result (λ made. leaves_lent made.items ≡ log_spec.logged (leaves_lent leaves.now)) }
{
    let mut made = Vec::new(alloc);
    for leaf in leaves {
        if leaf.log {
            let copy = copied_leaf(alloc, leaf)?;
            made.push(copy)?;
        }
    }
    Ok(made)
}

/// What writes columns to a path.
fn use_with(alloc: Global, leaves: &[Leaf], places: &[u32], path: &[u8]) -> Result<PathUse, Mem>
    ensures { IfOk result (λ made. use_of made ≡ use_with (leaves_lent leaves.now) places.now path.now) }
{
    let path = Vec::from_slice(alloc, path)?;
    let columns = picked(alloc, leaves, places)?;
    Ok(PathUse { path, columns })
}

/// What writes columns to a path, alone.
pub fn one_use(
    alloc: Global,
    leaves: &[Leaf],
    places: &[u32],
    path: &[u8],
) -> Result<Vec<PathUse>, Mem>
    ensures { IfOk result (λ made. uses_lent made.items ≡ use_with (leaves_lent leaves.now) places.now path.now ∷ []) }
{
    let mut uses = Vec::new(alloc);
    let one = use_with(alloc, leaves, places, path)?;
    uses.push(one)?;
    Ok(uses)
}

/// What writes columns to the paths of the streams of a log.
pub fn stream_uses(
    alloc: Global,
    streams: &[StreamPath],
    number: LogId,
    leaves: &[Leaf],
    places: &[u32],
) -> Result<Vec<PathUse>, Mem>
    ensures { IfOk result (λ made. uses_lent made.items ≡ map (use_with (leaves_lent leaves.now) places.now) (paths_of number (streams_lent streams.now))) }
{
    let mut uses = Vec::new(alloc);
    for one in streams {
        if one.log == number {
            let made = use_with(alloc, leaves, places, one.path.as_slice())?;
            uses.push(made)?;
        }
    }
    Ok(uses)
}
