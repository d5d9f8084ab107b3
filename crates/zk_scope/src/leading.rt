ghost use Rattle.std.specs.Prelude.{◌≡◌, Bool, List, Some, [], ◌++◌, flat_map, length, fold, nat_eq, slice_get, OnOk, IfOk};
ghost use Rattle.std.specs.List.{list_any};
ghost use Rattle.indexmap.specs.IndexSet.{insert_key};
ghost use Rattle.zk_typed.specs.Names.{Declared};
ghost use Rattle.zk_typed.specs.Resolving.{Scripts};
ghost use Rattle.zk_typed.specs.Within.{maybe_one, mentions};
ghost use Rattle.zk_scope.specs.Leading.{HasWays, is_target, led, meant_steps, mention_places, place_up, places, steps};
ghost use Rattle.zk_scope.specs.Lent.{declared_lent, meant_of, types_lent};

use crate::declared::Meant;
use crate::inner::within;
use crate::table::Table;
use crate::ways::Ways;
use crate::whole::Whole;
use indexmap::IndexSet;
use sqlite_items::at;
use std::alloc::Global;
use zk_base::Mem;
use zk_tree::Type;

/// Adds where a name leads.
pub fn add_place(
    alloc: Global,
    table: &Table<'_>,
    from_module: &[u8],
    name: &[u8],
    places: &mut Vec<usize>,
) -> Result<(), Mem>
    ensures { OnOk result (places.new.items ≡ places.old.items ++ maybe_one (place_up (declared_lent table.now.names.items) from_module.now name.now)) }
{
    match table.place_of(alloc, from_module, name)? {
        Some(place) => {
            places.push(place)?;
            Ok(())
        }
        None => Ok(()),
    }
}

/// Adds where the name leads that a type is.
#[tactic(auto, using(crate::proofs::LeadLaws::mentioning))]
fn add_mention(
    alloc: Global,
    table: &Table<'_>,
    from_module: &[u8],
    tree: &Type,
    places: &mut Vec<usize>,
) -> Result<(), Mem>
    ensures { OnOk result (places.new.items ≡ places.old.items ++ mention_places (declared_lent table.now.names.items) from_module.now tree.now) }
{
    match tree {
        Type::Named { name } => {
            add_place(alloc, table, from_module, name.text.as_slice(), places)?;
            Ok(())
        }
        Type::Atomic { .. }
        | Type::Table { .. }
        | Type::Set { .. }
        | Type::Vector { .. }
        | Type::Record { .. }
        | Type::Enum { .. }
        | Type::Event { .. }
        | Type::Hook { .. }
        | Type::Procedure { .. }
        | Type::Function { .. } => Ok(()),
    }
}

/// Adds where the names lead that types are.
fn add_mentions(
    alloc: Global,
    table: &Table<'_>,
    from_module: &[u8],
    trees: &[&Type],
    places: &mut Vec<usize>,
) -> Result<(), Mem>
    ensures { OnOk result (places.new.items ≡ places.old.items ++ flat_map (mention_places (declared_lent table.now.names.items) from_module.now) (types_lent trees.now)) }
{
    for tree in trees {
        add_mention(alloc, table, from_module, tree, places)?;
    }
    Ok(())
}

/// Where the names lead that a type mentions.
fn mentioned(
    alloc: Global,
    table: &Table<'_>,
    from_module: &[u8],
    tree: &Type,
) -> Result<Vec<usize>, Mem>
    ensures { IfOk result (λ found. found.items ≡ places (declared_lent table.now.names.items) from_module.now (mentions tree.now)) }
{
    let mut types = Vec::new(alloc);
    within(tree, &mut types)?;
    let mut found = Vec::new(alloc);
    add_mentions(alloc, table, from_module, &types, &mut found)?;
    Ok(found)
}

/// Where what a name means leads.
fn meant_steps(alloc: Global, table: &Table<'_>, meant: &Meant<'_>) -> Result<Vec<usize>, Mem>
    ensures { IfOk result (λ found. found.items ≡ meant_steps (declared_lent table.now.names.items) (meant_of meant.now)) }
{
    match meant {
        Meant::WrittenType { home, tree } => mentioned(alloc, table, home.module_name, tree),
        Meant::KnownType { .. }
        | Meant::Word { .. }
        | Meant::Variable { .. }
        | Meant::Event { .. }
        | Meant::Hook { .. }
        | Meant::Function { .. }
        | Meant::BuiltInFunction { .. }
        | Meant::Log { .. } => Ok(Vec::new(alloc)),
    }
}

/// Where the name at a place leads.
pub fn steps(alloc: Global, table: &Table<'_>, place: usize) -> Result<Vec<usize>, Mem>
    ensures { IfOk result (λ found. found.items ≡ steps (declared_lent table.now.names.items) place) }
{
    match at(&table.names, place) {
        Some(one) => meant_steps(alloc, table, &one.meant),
        None => Ok(Vec::new(alloc)),
    }
}

/// Adds the places that weren't found before.
#[tactic(auto, using(crate::proofs::LeadLaws::fold_on))]
fn add_found(found: &mut IndexSet<usize>, places: &[usize]) -> Result<(), Mem>
    ensures { OnOk result (found.new.keys ≡ fold (insert_key nat_eq) found.old.keys places.now) }
{
    for place in places {
        found.insert(*place)?;
    }
    Ok(())
}

/// Places, each once.
fn found_of(alloc: Global, places: &[usize]) -> Result<IndexSet<usize>, Mem>
    ensures { IfOk result (λ found. found.keys ≡ fold (insert_key nat_eq) [] places.now) }
{
    let mut found = IndexSet::new(alloc);
    add_found(&mut found, places)?;
    Ok(found)
}

/// Adds where the name at a place leads.
fn add_steps(ways: &Ways, place: usize, found: &mut IndexSet<usize>) -> Result<(), Mem>
    ensures { OnOk result ((names : List Declared) → HasWays ways.now names → found.new.keys ≡ fold (insert_key nat_eq) found.old.keys (steps names place)) }
{
    add_found(found, ways.steps_at(place))?;
    Ok(())
}

/// The place that was found so many places after the first.
fn found_at(found: &IndexSet<usize>, at: usize) -> Option<usize>
    ensures { result ≡ slice_get found.now.keys at }
{
    found.get_index(at).copied()
}

/// Whether a name stands at a place.
fn is_at(table: &Table<'_>, place: usize, target: &[u8]) -> bool
    ensures { result ≡ is_target (declared_lent table.now.names.items) target.now place }
{
    match at(&table.names, place) {
        Some(one) => one.name.as_slice() == target,
        None => false,
    }
}

/// Whether some places lead to a name, by a search that looks at each place once.
fn searched(
    alloc: Global,
    table: &Table<'_>,
    ways: &Ways,
    target: &[u8],
    starts: &[usize],
) -> Result<bool, Mem>
    requires { HasWays ways.now (declared_lent table.now.names.items) }
    ensures { IfOk result (λ leads. (scripts : Scripts) → scripts.names ≡ declared_lent table.now.names.items → leads ≡ list_any (led scripts target.now (length scripts.names)) starts.now) }
{
    let most = table.names.len();
    let mut found = found_of(alloc, starts)?;
    for step in 0..most {
        match found_at(&found, step) {
            None => return Ok(false),
            Some(place) => {
                if is_at(table, place, target) {
                    return Ok(true);
                }
                add_steps(ways, place, &mut found)?;
            }
        }
    }
    // No place is found twice, so no more are found than there are names.
    match found_at(&found, most) {
        None => Ok(false),
        Some(_) => Err(Mem),
    }
}

/// Whether some places lead to a name, as far as the groups of names tell it.
fn told(
    alloc: Global,
    table: &Table<'_>,
    ways: &Ways,
    target: &[u8],
    starts: &[usize],
) -> Result<Option<bool>, Mem>
    requires { HasWays ways.now (declared_lent table.now.names.items) }
    ensures { IfOk result (λ told. (leads : Bool) → told ≡ Some leads → (scripts : Scripts) → scripts.names ≡ declared_lent table.now.names.items → leads ≡ list_any (led scripts target.now (length scripts.names)) starts.now) }
{
    let whole = Whole::copy_of(alloc, target)?;
    let first = table.first_named(&whole);
    if ways.groups.are_below(first, starts) {
        return Ok(Some(false));
    }
    if is_at(table, first, target) && ways.groups.are_together(first, starts) {
        return Ok(Some(true));
    }
    Ok(None)
}

/// Whether some places lead to a name.
pub fn search(
    alloc: Global,
    table: &Table<'_>,
    ways: &Ways,
    target: &[u8],
    starts: &[usize],
) -> Result<bool, Mem>
    requires { HasWays ways.now (declared_lent table.now.names.items) }
    ensures { IfOk result (λ leads. (scripts : Scripts) → scripts.names ≡ declared_lent table.now.names.items → leads ≡ list_any (led scripts target.now (length scripts.names)) starts.now) }
{
    match told(alloc, table, ways, target, starts)? {
        Some(leads) => Ok(leads),
        None => {
            let found = searched(alloc, table, ways, target, starts)?;
            Ok(found)
        }
    }
}
