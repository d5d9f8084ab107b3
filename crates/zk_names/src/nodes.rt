ghost use Rattle.std.specs.Prelude.{◌≡◌, IfOk};
ghost use Rattle.zk_typed.specs.Names.{all_nodes};
ghost use Rattle.zk_scope.specs.Lent.{nodes_lent, stated_lent};

use std::alloc::Global;
use zk_base::Mem;
use zk_scope::{Node, Stated, add_decl_nodes};

/// The records and enums in the texts, in load order.
pub fn all_nodes<'a>(alloc: Global, stated: &[Stated<'a>]) -> Result<Vec<Node<'a>>, Mem>
    ensures { IfOk result (λ nodes. nodes_lent nodes.items ≡ all_nodes (stated_lent stated.now)) }
{
    let mut nodes = Vec::new(alloc);
    for one in stated {
        add_decl_nodes(alloc, *one, &mut nodes)?;
    }
    Ok(nodes)
}
