ghost use Rattle.std.specs.Prelude.{◌≡◌, slice_get, IfOk};
ghost use Rattle.zk_typed.specs.Resolving.{Scripts};
ghost use Rattle.zk_scope.specs.Leading.{AreCircles, HasWays, is_circle};
ghost use Rattle.zk_scope.specs.Lent.{declared_lent};

use crate::leading::search;
use crate::table::Table;
use crate::ways::Ways;
use sqlite_items::at;
use std::alloc::Global;
use zk_base::Mem;

/// Whether the name at a place is that of a declared type that leads back to it.
fn is_circle(alloc: Global, table: &Table<'_>, ways: &Ways, place: usize) -> Result<bool, Mem>
    requires { HasWays ways.now (declared_lent table.now.names.items) }
    ensures { IfOk result (λ found. (scripts : Scripts) → scripts.names ≡ declared_lent table.now.names.items → found ≡ is_circle scripts (slice_get scripts.names place)) }
{
    match at(&table.names, place) {
        Some(one) => {
            let found = search(
                alloc,
                table,
                ways,
                one.name.as_slice(),
                ways.steps_at(place),
            )?;
            Ok(found)
        }
        None => Ok(false),
    }
}

/// Whether each name is that of a declared type that leads back to it.
pub fn all_circles(alloc: Global, table: &Table<'_>, ways: &Ways) -> Result<Vec<bool>, Mem>
    requires { HasWays ways.now (declared_lent table.now.names.items) }
    ensures { IfOk result (λ all. AreCircles all.items (declared_lent table.now.names.items)) }
{
    let mut all = Vec::new(alloc);
    for place in 0..table.names.len() {
        let found = is_circle(alloc, table, ways, place)?;
        all.push(found)?;
    }
    Ok(all)
}
