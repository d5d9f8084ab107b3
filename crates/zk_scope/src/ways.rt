ghost use Rattle.std.specs.Prelude.{◌≡◌, ℕ, List, slice_get, IfOk};
ghost use Rattle.zk_typed.specs.Names.{Declared};
ghost use Rattle.zk_scope.specs.Grouping.{AreFirsts, IsGrouped, first_of};
ghost use Rattle.zk_scope.specs.Indexing.{items_at};
ghost use Rattle.zk_scope.specs.Leading.{steps};
ghost use Rattle.zk_scope.specs.Lent.{declared_lent};

use crate::grouping::grouped;
use crate::groups::Groups;
use crate::leading::steps;
use crate::table::Table;
use crate::whole::Whole;
use sqlite_items::at;
use std::alloc::Global;
use zk_base::Mem;

/// Where names lead, by their places.
#[derive(Drop)]
pub struct Ways {
    /// Where each name leads.
    pub steps: Vec<Vec<usize>>,
    /// Names that lead to each other.
    pub groups: Groups,
}

/// Where each name leads.
fn all_steps(alloc: Global, table: &Table<'_>) -> Result<Vec<Vec<usize>>, Mem>
    ensures { IfOk result (λ all. (place : ℕ) → items_at all.items place ≡ steps (declared_lent table.now.names.items) place) }
{
    let mut all = Vec::new(alloc);
    for place in 0..table.names.len() {
        let more = steps(alloc, table, place)?;
        all.push(more)?;
    }
    Ok(all)
}

/// Where the name at a place stands first.
fn first_of(alloc: Global, table: &Table<'_>, place: usize) -> Result<usize, Mem>
    ensures { IfOk result (λ first. first ≡ first_of (declared_lent table.now.names.items) (slice_get (declared_lent table.now.names.items) place)) }
{
    match at(&table.names, place) {
        Some(one) => {
            let whole = Whole::copy_of(alloc, one.name.as_slice())?;
            Ok(table.first_named(&whole))
        }
        None => Ok(table.names.len()),
    }
}

/// Where each name stands first.
fn all_firsts(alloc: Global, table: &Table<'_>) -> Result<Vec<usize>, Mem>
    ensures { IfOk result (λ all. AreFirsts all.items (declared_lent table.now.names.items)) }
{
    let mut all = Vec::new(alloc);
    for place in 0..table.names.len() {
        let first = first_of(alloc, table, place)?;
        all.push(first)?;
    }
    Ok(all)
}

/// The groups of names that lead to each other: those that were found, if all that they tell is so, which it is.
fn all_groups(alloc: Global, steps: &[Vec<usize>], firsts: &[usize]) -> Result<Groups, Mem>
    ensures { IfOk result (λ groups. (names : List Declared) → AreFirsts firsts.now names → IsGrouped groups steps.now names) }
{
    let groups = grouped(alloc, steps, firsts)?;
    if groups.are_told(steps, firsts) {
        return Ok(groups);
    }
    Ok(Groups::none(alloc))
}

impl Ways {
    ghost use Rattle.zk_scope.specs.Leading.{HasWays};

    /// Where the names of a table lead.
    pub fn of(alloc: Global, table: &Table<'_>) -> Result<Ways, Mem>
        ensures { IfOk result (λ ways. HasWays ways (declared_lent table.now.names.items)) }
    {
        let steps = all_steps(alloc, table)?;
        let firsts = all_firsts(alloc, table)?;
        let groups = all_groups(alloc, &steps, &firsts)?;
        Ok(Ways { steps, groups })
    }

    /// Where the name at a place leads.
    pub fn steps_at(&self, place: usize) -> &[usize]
        ensures { result.now ≡ items_at self.now.steps.items place }
    {
        match at(&self.steps, place) {
            Some(more) => more,
            None => &[],
        }
    }
}
