ghost use Rattle.std.specs.Prelude.{◌≡◌, ◌++◌, flat_map, IfOk, OnOk};
ghost use Rattle.zk_tree.specs.declared.decl.Decl.{out-Decl};
ghost use Rattle.zk_typed.specs.Declaring.{added_words, node_words, outright_of, with_words};
ghost use Rattle.zk_typed.specs.Names.{decl_nodes};
ghost use Rattle.zk_typed.specs.Resolving as spec;
ghost use Rattle.zk_typed.specs.View.{type_of};
ghost use Rattle.zk_scope.specs.Lent.{declared_lent, home_of, node_of, nodes_lent, stated_lent, stated_of};
ghost use Rattle.zk_scope.specs.Scripted.{scripts_in};
ghost use Rattle.zk_names.specs.Words.{enum_in, enum_of, enum_words, words_in};

use crate::outright::{declare, outright_name};
use std::alloc::Global;
use zk_base::Mem;
use zk_scope::{Home, Meant, Names, Node, Stated, Table, add_decl_nodes};
use zk_tree::{Decl, Name};
use zk_typed::Refusal;
use zk_typed::script::{SimpleType, ValueType};

/// Adds words of the enum of a number.
fn add_enum_words<'a>(
    alloc: Global,
    home: Home<'a>,
    words: &[Name],
    number: u32,
    table: &mut Table<'a>,
) -> Result<(), Mem>
    ensures { OnOk result (declared_lent table.new.names.items ≡ declared_lent table.old.names.items ++ enum_words (home_of home.entry) number words.now) }
{
    for word in words {
        let one = declare(alloc, home, word, Meant::Word { number })?;
        table.add(alloc, one)?;
    }
    Ok(())
}

/// Adds the words of an enum of a text.
fn add_node_words<'a>(
    alloc: Global,
    known: &Names<'_>,
    node: Node<'a>,
    table: &mut Table<'a>,
) -> Result<(), Mem>
    ensures { OnOk result (declared_lent table.new.names.items ≡ declared_lent table.old.names.items ++ node_words (scripts_in known.now).nodes (node_of node.entry)) }
{
    match node {
        Node::Record { .. } => Ok(()),
        Node::Enum { home, place, words } => {
            let number = known.enum_number(home.file, place)?;
            add_enum_words(alloc, home, words, number, table)?;
            Ok(())
        }
    }
}

/// Adds the words of enums of a text.
fn add_nodes_words<'a>(
    alloc: Global,
    known: &Names<'_>,
    own: &[Node<'a>],
    table: &mut Table<'a>,
) -> Result<(), Mem>
    ensures { OnOk result (declared_lent table.new.names.items ≡ declared_lent table.old.names.items ++ flat_map (node_words (scripts_in known.now).nodes) (nodes_lent own.now)) }
{
    for node in own {
        add_node_words(alloc, known, *node, table)?;
    }
    Ok(())
}

/// The number of an enum.
fn enum_of(one: &ValueType) -> Option<u32>
    ensures { result ≡ enum_of (type_of one.now) }
{
    match one {
        ValueType::Simple(SimpleType::Enum(number)) => Some(*number),
        _ => None,
    }
}

/// The number of the enum that a name names.
fn enum_named(
    alloc: Global,
    known: &Names<'_>,
    home: Home<'_>,
    name: &Name,
) -> Result<Option<u32>, Mem>
    ensures { IfOk result (λ number. number ≡ enum_in (spec.type_named (scripts_in known.now) (home_of home.entry) name.now)) }
{
    match known.type_named(alloc, home, name) {
        Ok(one) => Ok(enum_of(&one)),
        Err(Refusal::Broken(_)) => Ok(None),
        Err(Refusal::NoMemory) => Err(Mem),
    }
}

/// Adds words of the enum of a number, where there is one.
fn add_words_in<'a>(
    alloc: Global,
    home: Home<'a>,
    words: &[Name],
    number: Option<u32>,
    table: &mut Table<'a>,
) -> Result<(), Mem>
    ensures { OnOk result (declared_lent table.new.names.items ≡ declared_lent table.old.names.items ++ words_in number (home_of home.entry) words.now) }
{
    match number {
        Some(number) => {
            add_enum_words(alloc, home, words, number, table)?;
            Ok(())
        }
        None => Ok(()),
    }
}

/// Adds the words that `redef enum` adds.
fn add_added_words<'a>(
    alloc: Global,
    known: &Names<'_>,
    one: Stated<'a>,
    table: &mut Table<'a>,
) -> Result<(), Mem>
    ensures { OnOk result (declared_lent table.new.names.items ≡ declared_lent table.old.names.items ++ added_words (scripts_in known.now) (home_of one.entry.home) (out-Decl one.entry.decl.now)) }
{
    match one.decl {
        Decl::RedefEnum {
            place: _,
            name,
            words,
            comma: _,
        } => {
            let number = enum_named(alloc, known, one.home, name)?;
            add_words_in(alloc, one.home, words.as_slice(), number, table)?;
            Ok(())
        }
        Decl::Module { .. }
        | Decl::Export { .. }
        | Decl::Load { .. }
        | Decl::Variable { .. }
        | Decl::Redef { .. }
        | Decl::RedefRecord { .. }
        | Decl::Type { .. }
        | Decl::Body { .. }
        | Decl::Function { .. } => Ok(()),
    }
}

/// Adds the name that a declaration declares outright.
fn add_outright<'a>(alloc: Global, one: Stated<'a>, table: &mut Table<'a>) -> Result<(), Mem>
    ensures { OnOk result (declared_lent table.new.names.items ≡ declared_lent table.old.names.items ++ outright_of (stated_of one.entry)) }
{
    match outright_name(alloc, one)? {
        Some(declared) => {
            table.add(alloc, declared)?;
            Ok(())
        }
        None => Ok(()),
    }
}

/// Adds the names that declarations declare outright.
pub fn add_all_outright<'a>(
    alloc: Global,
    stated: &[Stated<'a>],
    table: &mut Table<'a>,
) -> Result<(), Mem>
    ensures { OnOk result (declared_lent table.new.names.items ≡ declared_lent table.old.names.items ++ flat_map outright_of (stated_lent stated.now)) }
{
    for one in stated {
        add_outright(alloc, *one, table)?;
    }
    Ok(())
}

/// The records and enums in the text of a declaration.
fn own_nodes<'a>(alloc: Global, one: Stated<'a>) -> Result<Vec<Node<'a>>, Mem>
    ensures { IfOk result (λ nodes. nodes_lent nodes.items ≡ decl_nodes (home_of one.entry.home) (out-Decl one.entry.decl.now)) }
{
    let mut nodes = Vec::new(alloc);
    add_decl_nodes(alloc, one, &mut nodes)?;
    Ok(nodes)
}

/// Adds the words of the enums in the text of a declaration.
fn add_own_words<'a>(
    alloc: Global,
    known: &Names<'_>,
    one: Stated<'a>,
    table: &mut Table<'a>,
) -> Result<(), Mem>
    ensures { OnOk result (declared_lent table.new.names.items ≡ declared_lent table.old.names.items ++ flat_map (node_words (scripts_in known.now).nodes) (decl_nodes (home_of one.entry.home) (out-Decl one.entry.decl.now))) }
{
    let own = own_nodes(alloc, one)?;
    add_nodes_words(alloc, known, &own, table)?;
    Ok(())
}

/// Adds the names that a declaration declares, but for that of a body.
fn add_with_words<'a>(
    alloc: Global,
    known: &Names<'_>,
    one: Stated<'a>,
    table: &mut Table<'a>,
) -> Result<(), Mem>
    ensures { OnOk result (declared_lent table.new.names.items ≡ declared_lent table.old.names.items ++ with_words (scripts_in known.now) (stated_of one.entry)) }
{
    add_outright(alloc, one, table)?;
    add_own_words(alloc, known, one, table)?;
    add_added_words(alloc, known, one, table)?;
    Ok(())
}

/// Adds the names that declarations declare, but for those of bodies.
pub fn add_all_words<'a>(
    alloc: Global,
    known: &Names<'_>,
    stated: &[Stated<'a>],
    table: &mut Table<'a>,
) -> Result<(), Mem>
    ensures { OnOk result (declared_lent table.new.names.items ≡ declared_lent table.old.names.items ++ flat_map (with_words (scripts_in known.now)) (stated_lent stated.now)) }
{
    for one in stated {
        add_with_words(alloc, known, *one, table)?;
    }
    Ok(())
}
