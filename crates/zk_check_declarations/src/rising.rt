ghost use Rattle.std.specs.Prelude.{◌≡◌, ◌||◌, ◌≤◌, ℕ, nat_lt, filter, length, OnOk, OnErr, IfOk};
ghost use Rattle.std.specs.List.{list_all, list_any};
ghost use Rattle.zk_typed.specs.Declarations.{adds_well};
ghost use Rattle.zk_typed.specs.Resolving as spec;
ghost use Rattle.zk_typed.specs.Resolving.{Scripts};
ghost use Rattle.zk_scope.specs.Lent.{home_of, stated_lent, stated_of};
ghost use Rattle.zk_scope.specs.Scripted.{scripts_in};
ghost use Rattle.zk_check_declarations.specs.Edges.{edge_at, edges_at, kinds};
ghost use Rattle.zk_check_declarations.specs.Heights.{IsDepths, Measures, field_fits, height_at, is_raised};

use crate::edges::{Edge, all_edges, all_records};
use crate::heights::{Depths, Heights, raised};
use std::alloc::Global;
use zk_base::Mem;
use zk_scope::{Home, Names, Stated};
use zk_tree::{Decl, Field};
use zk_typed::Refusal;

/// How often heights are raised before they tell what nests too deep.
const ROUNDS: u32 = 200;

/// Raises the height of a record type to that of one of its fields and one more.
fn raise(heights: &Heights, edge: &Edge, next: &mut [u8]) -> Result<(), Mem>
    ensures raised { OnOk result ((number most : ℕ) → nat_lt most (height_at next.new number) ≡ nat_lt most (height_at next.old number) || list_any (is_raised heights.now.heights.items most) (edge_at number edge.now)) }
    ensures err { OnErr result (length next.old ≤ edge.now.owner) }
{
    let index = edge.owner as usize;
    let height = raised(heights.height(&edge.part));
    if index >= next.len() {
        return Err(Mem);
    }
    if next[index] < height {
        next[index] = height;
    }
    Ok(())
}

/// Raises the heights of the record types to those of their fields and one more.
fn raise_all(heights: &Heights, edges: &[Edge], next: &mut [u8]) -> Result<(), Mem>
    ensures { OnOk result ((number most : ℕ) → nat_lt most (height_at next.new number) ≡ nat_lt most (height_at next.old number) || list_any (is_raised heights.now.heights.items most) (edges_at number edges.now)) }
{
    for edge in edges {
        raise(heights, edge, next)?;
    }
    Ok(())
}

/// Record types of the height 1.
fn lowest(alloc: Global, count: usize) -> Result<Heights, Mem>
    ensures { IfOk result (λ heights. (number : ℕ) → height_at heights.heights.items number ≡ 1) }
{
    let heights = vec![in alloc; 1_u8; count]?;
    Ok(Heights { heights })
}

/// The heights of record types by those of their fields.
fn risen(alloc: Global, count: usize, heights: &Heights, edges: &[Edge]) -> Result<Heights, Mem>
    ensures { IfOk result (λ next. (number most : ℕ) → nat_lt most (height_at next.heights.items number) ≡ nat_lt most 1 || list_any (is_raised heights.now.heights.items most) (edges_at number edges.now)) }
{
    let mut next = lowest(alloc, count)?;
    raise_all(heights, edges, &mut next.heights)?;
    Ok(next)
}

/// The heights of record types that have these fields.
fn heights(alloc: Global, count: usize, edges: &[Edge]) -> Result<Heights, Mem>
    ensures { IfOk result (λ heights. (scripts : Scripts) → ((number : ℕ) → edges_at number edges.now ≡ kinds (spec.fields_of scripts number)) → Measures heights scripts) }
{
    let mut heights = lowest(alloc, count)?;
    for round in 0..ROUNDS {
        let _ = round;
        heights = risen(alloc, count, &heights, edges)?;
    }
    Ok(heights)
}

/// Whether a field that is added to a record type doesn't nest too deep.
fn field_fits(
    alloc: Global,
    names: &Names<'_>,
    heights: &Heights,
    home: Home<'_>,
    field: &Field,
) -> Result<bool, Mem>
    ensures { IfOk result (λ fits. Measures heights.now (scripts_in names.now) → fits ≡ field_fits (scripts_in names.now) (home_of home.entry) field.now) }
{
    match names.type_of(alloc, home, &field.field_type) {
        Ok(one) => Ok(heights.height(&one) <= 199),
        Err(Refusal::Broken(_)) => Ok(true),
        Err(Refusal::NoMemory) => Err(Mem),
    }
}

/// Whether none of the fields that are added to a record type nests too deep.
fn fields_fit(
    alloc: Global,
    names: &Names<'_>,
    heights: &Heights,
    home: Home<'_>,
    fields: &[Field],
) -> Result<bool, Mem>
    ensures { IfOk result (λ fit. Measures heights.now (scripts_in names.now) → fit ≡ list_all (field_fits (scripts_in names.now) (home_of home.entry)) fields.now) }
{
    for field in fields {
        if !field_fits(alloc, names, heights, home, field)? {
            return Ok(false);
        }
    }
    Ok(true)
}

/// Whether a declaration adds no field that nests too deep.
fn adds_well(
    alloc: Global,
    names: &Names<'_>,
    heights: &Heights,
    one: Stated<'_>,
) -> Result<bool, Mem>
    ensures { IfOk result (λ well. Measures heights.now (scripts_in names.now) → well ≡ adds_well (scripts_in names.now) (stated_of one.entry)) }
{
    match one.decl {
        Decl::RedefRecord {
            place: _,
            name: _,
            fields,
        } => fields_fit(alloc, names, heights, one.home, fields.as_slice()),
        Decl::Module { .. }
        | Decl::Export { .. }
        | Decl::Load { .. }
        | Decl::Variable { .. }
        | Decl::Redef { .. }
        | Decl::RedefEnum { .. }
        | Decl::Type { .. }
        | Decl::Body { .. }
        | Decl::Function { .. } => Ok(true),
    }
}

/// The declarations among some that add no field that nests too deep.
fn fitting<'a>(
    alloc: Global,
    names: &Names<'_>,
    heights: &Heights,
    stated: &[Stated<'a>],
) -> Result<Vec<Stated<'a>>, Mem>
    ensures { IfOk result (λ fitting. Measures heights.now (scripts_in names.now) → stated_lent fitting.items ≡ filter (adds_well (scripts_in names.now)) (stated_lent stated.now)) }
{
    let mut fitting = Vec::new(alloc);
    for one in stated {
        if adds_well(alloc, names, heights, *one)? {
            fitting.push(*one)?;
        }
    }
    Ok(fitting)
}

/// How deep the record types of scripts nest.
pub fn depths(alloc: Global, names: &Names<'_>) -> Result<Depths, Mem>
    ensures { IfOk result (λ depths. IsDepths depths (scripts_in names.now)) }
{
    let count = all_records(names)? as usize;
    let edges = all_edges(alloc, names, names.stated())?;
    let all = heights(alloc, count, &edges)?;
    let kept = fitting(alloc, names, &all, names.stated())?;
    let edges = all_edges(alloc, names, &kept)?;
    let fitting = heights(alloc, count, &edges)?;
    Ok(Depths { all, fitting })
}
