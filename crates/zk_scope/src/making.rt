ghost use Rattle.std.specs.Prelude.{◌≡◌, IfOk};
ghost use Rattle.zk_typed.specs.Names.{is_record};
ghost use Rattle.zk_scope.specs.Ends.{AreEnds};
ghost use Rattle.zk_scope.specs.Indexing.{passing};
ghost use Rattle.zk_scope.specs.Leading.{AreCircles, HasWays};
ghost use Rattle.zk_scope.specs.Lent.{declared_lent, nodes_lent, stated_lent};
ghost use Rattle.zk_scope.specs.Numbering.{IsNumbered};
ghost use Rattle.zk_scope.specs.Scripted.{scripts_in};

use crate::circles::all_circles;
use crate::ends::{End, all_ends, unknown_ends};
use crate::home::Stated;
use crate::known::Names;
use crate::node::{Node, record_places};
use crate::numbers::Numbers;
use crate::table::Table;
use crate::ways::Ways;
use std::alloc::Global;
use zk_base::Mem;

/// What is found of record types, enums and names.
#[derive(Drop)]
struct Found {
    records: Vec<usize>,
    numbers: Numbers,
    ways: Ways,
    circles: Vec<bool>,
}

/// What is found of these record types, enums and names.
fn find(alloc: Global, nodes: &[Node<'_>], table: &Table<'_>) -> Result<Found, Mem>
    ensures recorded { IfOk result (λ found. found.records.items ≡ passing is_record (nodes_lent nodes.now)) }
    ensures numbered { IfOk result (λ found. IsNumbered found.numbers (nodes_lent nodes.now) (declared_lent table.now.names.items)) }
    ensures led { IfOk result (λ found. HasWays found.ways (declared_lent table.now.names.items)) }
    ensures circled { IfOk result (λ found. AreCircles found.circles.items (declared_lent table.now.names.items)) }
{
    let records = record_places(alloc, nodes)?;
    let ways = Ways::of(alloc, table)?;
    let circles = all_circles(alloc, table, &ways)?;
    let numbers = Numbers::of(alloc, nodes, &table.names)?;
    Ok(Found {
        records,
        numbers,
        ways,
        circles,
    })
}

/// What scripts declare by their declarations, their record types and enums, and their names, with the ends of names
/// not found yet.
#[tactic(auto, unfolding(crate::specs::Scripted::scripts_in))]
fn begun<'a>(
    alloc: Global,
    stated: Vec<Stated<'a>>,
    nodes: Vec<Node<'a>>,
    table: Table<'a>,
) -> Result<Names<'a>, Mem>
    ensures stated { IfOk result (λ names. (scripts_in names).stated ≡ stated_lent stated.entry.items) }
    ensures nodes { IfOk result (λ names. (scripts_in names).nodes ≡ nodes_lent nodes.entry.items) }
    ensures names { IfOk result (λ names. (scripts_in names).names ≡ declared_lent table.entry.names.items) }
{
    match find(alloc, &nodes, &table) {
        Ok(found) => Ok(Names {
            stated,
            nodes,
            table,
            records: found.records,
            numbers: found.numbers,
            ways: found.ways,
            circles: found.circles,
            ends: unknown_ends(alloc),
        }),
        Err(refusal) => {
            drop(table);
            Err(refusal)
        }
    }
}

/// The same names, with the ends of names found.
#[tactic(auto, unfolding(crate::specs::Scripted::scripts_in))]
fn ended<'a>(names: Names<'a>, ends: Vec<End>) -> Names<'a>
    requires { AreEnds ends.items (scripts_in names) }
    ensures stated { (scripts_in result).stated ≡ (scripts_in names.entry).stated }
    ensures nodes { (scripts_in result).nodes ≡ (scripts_in names.entry).nodes }
    ensures names { (scripts_in result).names ≡ (scripts_in names.entry).names }
{
    let mut names = names;
    names.ends = ends;
    names
}

impl<'a> Names<'a> {
    /// What scripts declare by their declarations, their record types and enums, and their names.
    #[tactic(auto, unfolding(crate::specs::Scripted::scripts_in))]
    pub fn of(
        alloc: Global,
        stated: Vec<Stated<'a>>,
        nodes: Vec<Node<'a>>,
        table: Table<'a>,
    ) -> Result<Names<'a>, Mem>
        ensures stated { IfOk result (λ names. (scripts_in names).stated ≡ stated_lent stated.entry.items) }
        ensures nodes { IfOk result (λ names. (scripts_in names).nodes ≡ nodes_lent nodes.entry.items) }
        ensures names { IfOk result (λ names. (scripts_in names).names ≡ declared_lent table.entry.names.items) }
    {
        let names = begun(alloc, stated, nodes, table)?;
        match all_ends(alloc, &names) {
            Ok(ends) => Ok(ended(names, ends)),
            Err(refusal) => {
                drop(names);
                Err(refusal)
            }
        }
    }
}
