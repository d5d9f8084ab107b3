ghost use Rattle.std.specs.Prelude.{◌≡◌, fold, is_some, IfOk, OnOk};
ghost use Rattle.std.specs.Option.{option_map};
ghost use Rattle.zk_tree.specs.declared.decl.Decl.{out-Decl};
ghost use Rattle.zk_typed.specs.Declaring as spec;
ghost use Rattle.zk_typed.specs.Names.{Written, declare, look_up};
ghost use Rattle.zk_typed.specs.Within.{maybe_one};
ghost use Rattle.zk_scope.specs.Lent.{declared_lent, declared_of, home_of, meant_of, stated_lent, stated_of};
ghost use Rattle.zk_names.specs.Words.{with_body};

use crate::outright::declare;
use std::alloc::Global;
use zk_base::Mem;
use zk_scope::{Declared, Home, Meant, Stated, Table, own_module, whole_name, written};
use zk_tree::{BodyKind, Decl, Name, Param};

/// Whether a name has another module before its `::`.
fn is_foreign(home: Home<'_>, name: &Name) -> bool
    ensures { result ≡ spec.is_foreign (home_of home.entry) name.now }
{
    match own_module(name.text.as_slice()) {
        Some(module_name) => module_name != home.module_name,
        None => false,
    }
}

/// Whether a name is in its module already.
fn in_module(alloc: Global, table: &Table<'_>, home: Home<'_>, name: &Name) -> Result<bool, Mem>
    ensures { IfOk result (λ found. found ≡ spec.in_module (declared_lent table.now.names.items) (home_of home.entry) name.now) }
{
    let whole = whole_name(alloc, home.module_name, name.text.as_slice())?;
    Ok(table.has(&whole))
}

/// Whether a name means something.
fn is_known(alloc: Global, table: &Table<'_>, home: Home<'_>, name: &Name) -> Result<bool, Mem>
    ensures { IfOk result (λ found. found ≡ is_some (look_up (declared_lent table.now.names.items) home.entry.module_name.now name.now.text)) }
{
    match table.look_up(alloc, home.module_name, name.text.as_slice())? {
        Some(_) => Ok(true),
        None => Ok(false),
    }
}

/// What a body of a handler or a hook declares its name as.
fn body_meaning<'a>(kind: BodyKind, home: Home<'a>, params: &'a [Param]) -> Meant<'a>
    ensures { meant_of result ≡ spec.body_meaning kind (Written (home_of home.entry) params.entry.now None) }
{
    let signature = written(home, params, None);
    match kind {
        BodyKind::Event => Meant::Event { signature },
        BodyKind::Hook => Meant::Hook { signature },
    }
}

/// A name that is declared unless it is there.
fn unless<'a>(
    alloc: Global,
    is_there: bool,
    home: Home<'a>,
    name: &Name,
    meant: Meant<'a>,
) -> Result<Option<Declared<'a>>, Mem>
    ensures { IfOk result (λ found. maybe_one (option_map declared_of found) ≡ spec.unless is_there (declare (home_of home.entry) name.now (meant_of meant.entry))) }
{
    if is_there {
        drop(meant);
        return Ok(None);
    }
    let one = declare(alloc, home, name, meant)?;
    Ok(Some(one))
}

/// What a body declares beside the names that there are.
fn by_body<'a>(
    alloc: Global,
    table: &Table<'_>,
    one: Stated<'a>,
) -> Result<Option<Declared<'a>>, Mem>
    ensures { IfOk result (λ found. maybe_one (option_map declared_of found) ≡ spec.by_body (declared_lent table.now.names.items) (home_of one.entry.home) (out-Decl one.entry.decl.now)) }
{
    let home = one.home;
    match one.decl {
        Decl::Body {
            place: _,
            kind,
            name,
            params,
            attrs: _,
            body: _,
        } => {
            let known = is_known(alloc, table, home, name)?;
            let is_there = known || is_foreign(home, name);
            let meant = body_meaning(*kind, home, params.as_slice());
            unless(alloc, is_there, home, name, meant)
        }
        Decl::Function {
            place: _,
            name,
            params,
            result_type,
            body: _,
        } => {
            let known = in_module(alloc, table, home, name)?;
            let is_there = known || is_foreign(home, name);
            let signature = written(home, params.as_slice(), result_type.as_ref());
            unless(alloc, is_there, home, name, Meant::Function { signature })
        }
        Decl::Module { .. }
        | Decl::Export { .. }
        | Decl::Load { .. }
        | Decl::Variable { .. }
        | Decl::Redef { .. }
        | Decl::RedefEnum { .. }
        | Decl::RedefRecord { .. }
        | Decl::Type { .. } => Ok(None),
    }
}

/// The round in which a declaration declares by its body: functions, then handlers and hooks of no module,
/// then those of modules.
fn round_of(one: Stated<'_>) -> u8
    ensures { result ≡ spec.round_of (stated_of one.entry) }
{
    match one.decl {
        Decl::Body { .. } => {
            if one.home.module_name.is_empty() {
                1
            } else {
                2
            }
        }
        _ => 0,
    }
}

/// Adds what the body of a declaration declares, in its round.
fn add_body<'a>(alloc: Global, round: u8, one: Stated<'a>, table: &mut Table<'a>) -> Result<(), Mem>
    ensures { OnOk result (declared_lent table.new.names.items ≡ with_body round (declared_lent table.old.names.items) (stated_of one.entry)) }
{
    if round_of(one) != round {
        return Ok(());
    }
    match by_body(alloc, table, one)? {
        Some(declared) => {
            table.add(alloc, declared)?;
            Ok(())
        }
        None => Ok(()),
    }
}

/// Adds what bodies declare, of the declarations of a round.
pub fn add_bodies<'a>(
    alloc: Global,
    round: u8,
    stated: &[Stated<'a>],
    table: &mut Table<'a>,
) -> Result<(), Mem>
    ensures { OnOk result (declared_lent table.new.names.items ≡ fold (with_body round) (declared_lent table.old.names.items) (stated_lent stated.now)) }
{
    for one in stated {
        add_body(alloc, round, *one, table)?;
    }
    Ok(())
}
