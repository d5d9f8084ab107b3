ghost use Rattle.std.specs.Prelude.{◌≡◌, ◌++◌, fold, flat_map, IfOk, OnOk};
ghost use Rattle.zk_typed.specs.Declaring.{outright_of, predefined_names, scripts_of, with_words};
ghost use Rattle.zk_typed.specs.LoadOrder.{load_order};
ghost use Rattle.zk_scope.specs.Lent.{declared_lent, files_of, nodes_lent, stated_lent};
ghost use Rattle.zk_scope.specs.Scripted.{scripts_in};
ghost use Rattle.zk_names.specs.Words.{known_scripts, with_bodies};

use crate::bodies::add_bodies;
use crate::given::add_predefined;
use crate::nodes::all_nodes;
use crate::order::load_order;
use crate::words::{add_all_outright, add_all_words};
use std::alloc::Global;
use zk_base::{Bytes, Mem};
use zk_scope::{Names, Node, Stated, Table};
use zk_tree::Tree;

/// Adds the names that are predefined or declared outright.
fn add_known<'a>(alloc: Global, stated: &[Stated<'a>], table: &mut Table<'a>) -> Result<(), Mem>
    ensures { OnOk result (declared_lent table.new.names.items ≡ (declared_lent table.old.names.items ++ predefined_names) ++ flat_map outright_of (stated_lent stated.now)) }
{
    add_predefined(alloc, table)?;
    add_all_outright(alloc, stated, table)?;
    Ok(())
}

/// A table of the names that are predefined or declared outright.
fn known_table<'a>(alloc: Global, stated: &[Stated<'a>]) -> Result<Table<'a>, Mem>
    ensures { IfOk result (λ table. declared_lent table.names.items ≡ predefined_names ++ flat_map outright_of (stated_lent stated.now)) }
{
    let mut table = Table::new(alloc);
    match add_known(alloc, stated, &mut table) {
        Ok(()) => Ok(table),
        Err(refusal) => {
            drop(table);
            Err(refusal)
        }
    }
}

/// The names that are predefined or declared outright.
fn known_names<'a>(alloc: Global, files: &'a [(Bytes, Tree)]) -> Result<Names<'a>, Mem>
    ensures { IfOk result (λ known. scripts_in known ≡ known_scripts (load_order (files_of files.now))) }
{
    let stated = load_order(alloc, files)?;
    let nodes = all_nodes(alloc, &stated)?;
    let table = known_table(alloc, &stated)?;
    let known = Names::of(alloc, stated, nodes, table)?;
    Ok(known)
}

/// Adds all names, by those that are predefined or declared outright.
fn add_names<'a>(alloc: Global, known: &Names<'a>, table: &mut Table<'a>) -> Result<(), Mem>
    ensures { OnOk result (declared_lent table.new.names.items ≡
        with_bodies (scripts_in known.now).stated ((declared_lent table.old.names.items ++ predefined_names) ++ flat_map (with_words (scripts_in known.now)) (scripts_in known.now).stated)) }
{
    add_predefined(alloc, table)?;
    let stated = known.stated();
    add_all_words(alloc, known, stated, table)?;
    add_bodies(alloc, 0, stated, table)?;
    add_bodies(alloc, 1, stated, table)?;
    add_bodies(alloc, 2, stated, table)?;
    Ok(())
}

/// A table of all names, by those that are predefined or declared outright.
fn all_names<'a>(alloc: Global, known: &Names<'a>) -> Result<Table<'a>, Mem>
    ensures { IfOk result (λ table. declared_lent table.names.items ≡
        with_bodies (scripts_in known.now).stated (predefined_names ++ flat_map (with_words (scripts_in known.now)) (scripts_in known.now).stated)) }
{
    let mut table = Table::new(alloc);
    match add_names(alloc, known, &mut table) {
        Ok(()) => Ok(table),
        Err(refusal) => {
            drop(table);
            Err(refusal)
        }
    }
}

/// The declarations, and the records and enums in their texts.
#[tactic(auto, unfolding(zk_scope::specs::Scripted::scripts_in))]
fn texts_of<'a>(names: Names<'a>) -> (Vec<Stated<'a>>, Vec<Node<'a>>)
    ensures stated { stated_lent result.0.items ≡ (scripts_in names.entry).stated }
    ensures nodes { nodes_lent result.1.items ≡ (scripts_in names.entry).nodes }
{
    let Names { stated, nodes, .. } = names;
    (stated, nodes)
}

/// The names of scripts.
pub fn names<'a>(alloc: Global, files: &'a [(Bytes, Tree)]) -> Result<Names<'a>, Mem>
    ensures { IfOk result (λ names. scripts_in names ≡ scripts_of (files_of files.now)) }
{
    let known = known_names(alloc, files)?;
    match all_names(alloc, &known) {
        Ok(table) => {
            let (stated, nodes) = texts_of(known);
            let names = Names::of(alloc, stated, nodes, table)?;
            Ok(names)
        }
        Err(refusal) => {
            drop(known);
            Err(refusal)
        }
    }
}
