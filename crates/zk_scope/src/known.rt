ghost use Rattle.std.specs.Prelude.{◌≡◌};
ghost use Rattle.zk_typed.specs.Names.{is_record};
ghost use Rattle.zk_scope.specs.Ends.{AreEnds};
ghost use Rattle.zk_scope.specs.Indexing.{passing};
ghost use Rattle.zk_scope.specs.Leading.{AreCircles, HasWays};
ghost use Rattle.zk_scope.specs.Lent.{declared_lent, nodes_lent, stated_lent};
ghost use Rattle.zk_scope.specs.Numbering.{IsNumbered};

use crate::ends::End;
use crate::home::Stated;
use crate::node::Node;
use crate::numbers::Numbers;
use crate::table::Table;
use crate::ways::Ways;

/// What all scripts declare: the declarations in load order, their record types and enums, and their names.
#[derive(Drop)]
pub struct Names<'a> {
    pub stated: Vec<Stated<'a>>,
    pub nodes: Vec<Node<'a>>,
    pub table: Table<'a>,
    /// Where the record types stand among the nodes.
    pub(crate) records: Vec<usize>,
    pub(crate) numbers: Numbers,
    pub(crate) ways: Ways,
    /// Whether names are those of declared types that lead back to them, by their places.
    pub(crate) circles: Vec<bool>,
    /// Where the texts stand that declared types stand for, by their places.
    pub(crate) ends: Vec<End>,
    ghost recorded: { records.items ≡ passing is_record (nodes_lent nodes.items) },
    ghost numbered: { IsNumbered numbers (nodes_lent nodes.items) (declared_lent table.names.items) },
    ghost led: { HasWays ways (declared_lent table.names.items) },
    ghost circled: { AreCircles circles.items (declared_lent table.names.items) },
    ghost ended: { AreEnds ends.items (record { stated = stated_lent stated.items; nodes = nodes_lent nodes.items; names = declared_lent table.names.items }) },
}
