ghost use Rattle.std.specs.Prelude.{◌≡◌, ◌++◌, ℕ, List, [], map, flat_map, OnOk, IfOk};
ghost use Rattle.zk_tree.specs.declared.decl.Decl.{out-Decl};
ghost use Rattle.zk_typed.specs.Errors as spec;
ghost use Rattle.zk_typed.specs.Tells.{Tells};
ghost use Rattle.zk_scope.specs.Lent.{home_of, node_of, nodes_lent};
ghost use Rattle.zk_check_operators.specs.Gather.{Told};
ghost use Rattle.zk_typed.specs.Names.{decl_nodes};
ghost use Rattle.zk_check_declarations.specs.Naming.{all_named, place_names, words_named};
ghost use Rattle.zk_check_declarations.specs.Seeing.{Sees};

use crate::seen::Seen;
use crate::told::require;
use std::alloc::Global;
use zk_base::Mem;
use zk_check_operators::also;
use zk_scope::{Home, Node, Stated, Whole, add_decl_nodes, place_in, whole_name};
use zk_tree::{Decl, Name};
use zk_typed::{Refusal, Rule};

/// A whole name that a declaration declares, and the place where it would be told.
#[derive(Drop)]
pub struct Named {
    pub name: Whole,
    pub place: u64,
}

/// Adds a name that a declaration declares.
fn add_name(
    alloc: Global,
    home: Home<'_>,
    name: &Name,
    place: u64,
    names: &mut Vec<Named>,
) -> Result<(), Mem>
    ensures { OnOk result (all_named names.new.items ≡ all_named names.old.items ++ place_names (home_of home.entry) name.now place) }
{
    let name = whole_name(alloc, home.module_name, name.text.as_slice())?;
    names.push(Named { name, place })?;
    Ok(())
}

/// Adds the words of an enum.
fn add_words(
    alloc: Global,
    home: Home<'_>,
    words: &[Name],
    names: &mut Vec<Named>,
) -> Result<(), Mem>
    ensures { OnOk result (all_named names.new.items ≡ all_named names.old.items ++ words_named (home_of home.entry) words.now) }
{
    for word in words {
        add_name(alloc, home, word, word.place, names)?;
    }
    Ok(())
}

/// Adds the names that a type in a declaration declares: the words of an enum.
fn add_node_names(
    alloc: Global,
    home: Home<'_>,
    node: &Node<'_>,
    names: &mut Vec<Named>,
) -> Result<(), Mem>
    ensures { OnOk result (all_named names.new.items ≡ all_named names.old.items ++ spec.node_names (home_of home.entry) (node_of node.now)) }
{
    match node {
        Node::Record { .. } => Ok(()),
        Node::Enum {
            home: _,
            place: _,
            words,
        } => {
            add_words(alloc, home, words, names)?;
            Ok(())
        }
    }
}

/// Adds the names that the types in a declaration declare.
fn add_nodes_names(
    alloc: Global,
    home: Home<'_>,
    nodes: &[Node<'_>],
    names: &mut Vec<Named>,
) -> Result<(), Mem>
    ensures { OnOk result (all_named names.new.items ≡ all_named names.old.items ++ flat_map (spec.node_names (home_of home.entry)) (nodes_lent nodes.now)) }
{
    for node in nodes {
        add_node_names(alloc, home, node, names)?;
    }
    Ok(())
}

/// Adds the names that the types in a declaration declare.
fn add_inner(alloc: Global, one: Stated<'_>, names: &mut Vec<Named>) -> Result<(), Mem>
    ensures { OnOk result (all_named names.new.items ≡ all_named names.old.items ++ flat_map (spec.node_names (home_of one.entry.home)) (decl_nodes (home_of one.entry.home) (out-Decl one.entry.decl.now))) }
{
    let mut nodes = Vec::new(alloc);
    add_decl_nodes(alloc, one, &mut nodes)?;
    add_nodes_names(alloc, one.home, &nodes, names)?;
    Ok(())
}

/// The names that a declaration declares.
pub fn declares(alloc: Global, one: Stated<'_>) -> Result<Vec<Named>, Mem>
    ensures { IfOk result (λ names. all_named names.items ≡ spec.declares (home_of one.entry.home) (out-Decl one.entry.decl.now)) }
{
    let mut names = Vec::new(alloc);
    match one.decl {
        Decl::Variable { place, name, .. } => {
            add_name(alloc, one.home, name, *place, &mut names)?;
            add_inner(alloc, one, &mut names)?;
            Ok(names)
        }
        Decl::Type { place, name, .. } => {
            add_name(alloc, one.home, name, *place, &mut names)?;
            add_inner(alloc, one, &mut names)?;
            Ok(names)
        }
        Decl::RedefEnum { words, .. } => {
            add_words(alloc, one.home, words.as_slice(), &mut names)?;
            Ok(names)
        }
        Decl::Module { .. }
        | Decl::Export { .. }
        | Decl::Load { .. }
        | Decl::Redef { .. }
        | Decl::RedefRecord { .. }
        | Decl::Body { .. }
        | Decl::Function { .. } => {
            add_inner(alloc, one, &mut names)?;
            Ok(names)
        }
    }
}

/// The rules of names that are declared twice. These are met besides.
pub fn twice_rules(
    alloc: Global,
    home: Home<'_>,
    names: &[Named],
    seen: &mut Seen,
) -> Result<(), Refusal>
    ensures rules { (before : List (List ℕ)) → Sees seen.old before → Tells (λ done. done) result (spec.twice_rules (home_of home.entry) before (all_named names.now)) }
    ensures met { Told result → (before : List (List ℕ)) → Sees seen.old before → Sees seen.new (before ++ map (λ one. one.0) (all_named names.now)) }
{
    let mut rules = Ok(());
    for one in names {
        let twice = seen.add(alloc, one.name.as_slice())?;
        let place = place_in(home, one.place);
        let once = require(alloc, !twice, Rule::Twice, place);
        rules = also(rules, once);
    }
    rules
}
