ghost use Rattle.std.specs.Prelude.{◌≡◌, ◌+◌, ◌≤◌, ◌^◌, ◌++◌, [], ◌∷◌, filter, flat_map, length, OnOk, OnErr, IfOk, if◌then◌else◌};
ghost use Rattle.zk_tree.specs.declared.decl.Decl.{out-Decl};
ghost use Rattle.zk_typed.specs.Within.{within};
ghost use Rattle.zk_typed.specs.Names.{decl_nodes, is_record, node, type_nodes};
ghost use Rattle.zk_scope.specs.Indexing.{passing};
ghost use Rattle.zk_scope.specs.Lent.{home_of, node_of, nodes_lent, types_lent};
ghost use Rattle.zk_scope.specs.Numbering.{spot};

use crate::home::{Home, Stated};
use crate::inner::within;
use crate::types::add_decl_types;
use std::alloc::Global;
use zk_base::Mem;
use zk_tree::{Field, Name, Type};

/// How many record types the predefined ones are.
pub const RECORDS: u32 = 8;

/// A `record {` or an `enum {` in a text: each is a type of its own.
#[derive(Clone, Copy)]
pub enum Node<'a> {
    Record {
        home: Home<'a>,
        place: u64,
        fields: &'a [Field],
    },
    Enum {
        home: Home<'a>,
        place: u64,
        words: &'a [Name],
    },
}

impl Node<'_> {
    /// Whether it is a record type.
    pub fn is_record(&self) -> bool
        ensures { result ≡ is_record (node_of self.now) }
    {
        match self {
            Node::Record { .. } => true,
            Node::Enum { .. } => false,
        }
    }

    /// Where its text begins: the file and the place in it.
    pub fn spot(&self) -> (usize, u64)
        ensures { result ≡ spot (node_of self.now) }
    {
        match self {
            Node::Record { home, place, .. } => (home.file, *place),
            Node::Enum { home, place, .. } => (home.file, *place),
        }
    }
}

/// Adds the node that a type is.
fn add_node<'a>(home: Home<'a>, tree: &'a Type, nodes: &mut Vec<Node<'a>>) -> Result<(), Mem>
    ensures { OnOk result (nodes_lent nodes.new.items ≡ nodes_lent nodes.old.items ++ node (home_of home.entry) tree.now) }
{
    match tree {
        Type::Record { place, fields } => {
            nodes.push(Node::Record {
                home,
                place: *place,
                fields: fields.as_slice(),
            })?;
            Ok(())
        }
        Type::Enum {
            place,
            words,
            comma: _,
        } => {
            nodes.push(Node::Enum {
                home,
                place: *place,
                words: words.as_slice(),
            })?;
            Ok(())
        }
        Type::Atomic { .. }
        | Type::Named { .. }
        | Type::Table { .. }
        | Type::Set { .. }
        | Type::Vector { .. }
        | Type::Event { .. }
        | Type::Hook { .. }
        | Type::Procedure { .. }
        | Type::Function { .. } => Ok(()),
    }
}

/// Adds the nodes that types are.
fn add_nodes<'a>(home: Home<'a>, trees: &[&'a Type], nodes: &mut Vec<Node<'a>>) -> Result<(), Mem>
    ensures { OnOk result (nodes_lent nodes.new.items ≡ nodes_lent nodes.old.items ++ flat_map (node (home_of home.entry)) (types_lent trees.now)) }
{
    for tree in trees {
        add_node(home, tree, nodes)?;
    }
    Ok(())
}

/// Adds types and the types within them.
fn all_within<'a>(trees: &[&'a Type], found: &mut Vec<&'a Type>) -> Result<(), Mem>
    ensures { OnOk result (types_lent found.new.items ≡ types_lent found.old.items ++ flat_map within (types_lent trees.now)) }
{
    for tree in trees {
        within(tree, found)?;
    }
    Ok(())
}

/// Adds the nodes of a declaration.
pub fn add_decl_nodes<'a>(
    alloc: Global,
    one: Stated<'a>,
    nodes: &mut Vec<Node<'a>>,
) -> Result<(), Mem>
    ensures { OnOk result (nodes_lent nodes.new.items ≡ nodes_lent nodes.old.items ++ decl_nodes (home_of one.entry.home) (out-Decl one.entry.decl.now)) }
{
    let mut types = Vec::new(alloc);
    add_decl_types(one.decl, &mut types)?;
    let mut found = Vec::new(alloc);
    all_within(&types, &mut found)?;
    add_nodes(one.home, &found, nodes)?;
    Ok(())
}

/// Adds the place of a record type.
fn add_record(node: &Node<'_>, place: usize, places: &mut Vec<usize>) -> Result<(), Mem>
    ensures { OnOk result (places.new.items ≡ places.old.items ++ (if is_record (node_of node.now) then place ∷ [] else [])) }
{
    if node.is_record() {
        places.push(place)?;
        return Ok(());
    }
    Ok(())
}

/// Where the record types stand among the records and enums of texts.
pub fn record_places(alloc: Global, nodes: &[Node<'_>]) -> Result<Vec<usize>, Mem>
    ensures { IfOk result (λ places. places.items ≡ passing is_record (nodes_lent nodes.now)) }
{
    let mut places = Vec::new(alloc);
    for (place, node) in nodes.iter().enumerate() {
        add_record(node, place, &mut places)?;
    }
    Ok(places)
}

/// How many record types there are, with the predefined ones. More than numbers are more than memory holds.
pub fn record_count(nodes: &[Node<'_>]) -> Result<u32, Mem>
    ensures count { IfOk result (λ count. count ≡ 8 + length (filter is_record (nodes_lent nodes.now))) }
    ensures err { OnErr result (2 ^ 32 ≤ 8 + length (filter is_record (nodes_lent nodes.now))) }
{
    let mut count = RECORDS;
    for node in nodes {
        if node.is_record() {
            let Some(more) = count.checked_add(1) else {
                return Err(Mem);
            };
            count = more;
        }
    }
    Ok(count)
}
