ghost use Rattle.std.specs.Prelude.{◌≡◌, ◌&&◌, true, length, nat_le, slice_get, IfOk};
ghost use Rattle.zk_typed.specs.Resolving.{Scripts};
ghost use Rattle.zk_scope.specs.Ends.{AreEnds, AreNexts, end_of, goes_on, is_end};
ghost use Rattle.zk_scope.specs.Scripted.{scripts_in};

use crate::known::Names;
use crate::typing::next_place;
use sqlite_items::at;
use std::alloc::Global;
use zk_base::Mem;

/// Where the text stands that a declared type stands for, by the names followed.
#[derive(Clone, Copy)]
pub struct End {
    /// Where it stands, if it does.
    pub place: usize,
    /// There is none, since names stand for each other.
    pub endless: bool,
    /// How many names are followed to it.
    pub steps: usize,
}

/// Where the text stands, if it does.
pub fn end_of(end: &End) -> Option<usize>
    ensures { result ≡ end_of end.now }
{
    if end.endless { None } else { Some(end.place) }
}

/// Whether what is told of a place is told of the next one.
fn goes_on(ends: &[End], next: usize, end: &End) -> bool
    ensures { result ≡ goes_on end.now (slice_get ends.now next) }
{
    match at(ends, next) {
        Some(other) => {
            if end.endless {
                other.endless
            } else {
                !other.endless && other.place == end.place && other.steps < end.steps
            }
        }
        None => false,
    }
}

/// Whether what is told of a place ends there, or is told of the next one too.
fn is_end(ends: &[End], place: usize, next: Option<usize>, end: &End) -> bool
    ensures { result ≡ is_end ends.now place next end.now }
{
    match next {
        Some(next) => goes_on(ends, next, end),
        None => !end.endless && end.place == place,
    }
}

/// Whether what is told of a place is so.
fn is_told(ends: &[End], most: usize, place: usize, next: Option<usize>, end: &End) -> bool
    ensures { result ≡ (nat_le end.now.steps most && is_end ends.now place next end.now) }
{
    end.steps <= most && is_end(ends, place, next, end)
}

/// Where the text stands that the text of each declared type stands for, if that is a name.
fn all_nexts(alloc: Global, names: &Names<'_>) -> Result<Vec<Option<usize>>, Mem>
    ensures { IfOk result (λ nexts. AreNexts nexts.items (scripts_in names.now)) }
{
    let mut nexts = Vec::new(alloc);
    for place in 0..names.declared().len() {
        let next = next_place(names, place);
        nexts.push(next)?;
    }
    Ok(nexts)
}

/// Whether all that is told is so.
fn are_ends(ends: &[End], nexts: &[Option<usize>], most: usize) -> bool
    ensures { result ≡ true → (scripts : Scripts) → AreNexts nexts.now scripts → length scripts.names ≡ most → AreEnds ends.now scripts }
{
    for (place, end) in ends.iter().enumerate() {
        match at(nexts, place) {
            Some(next) if is_told(ends, most, place, *next, end) => {}
            _ => return false,
        }
    }
    true
}

/// No places, at each of so many.
fn no_places(alloc: Global, count: usize) -> Result<Vec<Vec<usize>>, Mem> {
    let mut all = Vec::new(alloc);
    for _ in 0..count {
        all.push(Vec::new(alloc))?;
    }
    Ok(all)
}

/// The places that go on at each place.
fn all_before(alloc: Global, nexts: &[Option<usize>]) -> Result<Vec<Vec<usize>>, Mem> {
    let mut all = no_places(alloc, nexts.len())?;
    for (place, next) in nexts.iter().enumerate() {
        if let Some(next) = next {
            if *next < all.len() {
                all[*next].push(place)?;
            }
        }
    }
    Ok(all)
}

/// Each of so many places, without an end.
fn no_ends(alloc: Global, count: usize) -> Result<Vec<End>, Mem> {
    let mut ends = Vec::new(alloc);
    for place in 0..count {
        ends.push(End {
            place,
            endless: true,
            steps: 0,
        })?;
    }
    Ok(ends)
}

/// Takes the end of a place, and puts the place in the row of those whose ends are known.
fn put(ends: &mut Vec<End>, row: &mut Vec<usize>, place: usize, end: End) -> Result<(), Mem> {
    row.push(place)?;
    if place < ends.len() {
        ends[place] = end;
    }
    Ok(())
}

/// The places that go on at none.
fn put_last(nexts: &[Option<usize>], ends: &mut Vec<End>, row: &mut Vec<usize>) -> Result<(), Mem> {
    for (place, next) in nexts.iter().enumerate() {
        if next.is_none() {
            put(
                ends,
                row,
                place,
                End {
                    place,
                    endless: false,
                    steps: 0,
                },
            )?;
        }
    }
    Ok(())
}

/// The places that go on at one whose end is known.
fn put_before(
    before: &[usize],
    end: End,
    ends: &mut Vec<End>,
    row: &mut Vec<usize>,
) -> Result<(), Mem> {
    for place in before {
        put(
            ends,
            row,
            *place,
            End {
                place: end.place,
                endless: false,
                steps: end.steps.saturating_add(1),
            },
        )?;
    }
    Ok(())
}

/// Where the texts stand behind all names, from the last ones on. It is a hint, of which nothing is promised.
fn found_ends(alloc: Global, nexts: &[Option<usize>]) -> Result<Vec<End>, Mem> {
    let before = all_before(alloc, nexts)?;
    let mut ends = no_ends(alloc, nexts.len())?;
    let mut row = Vec::new(alloc);
    put_last(nexts, &mut ends, &mut row)?;
    for turn in 0..nexts.len() {
        if turn >= row.len() {
            return Ok(ends);
        }
        let place = row[turn];
        if place < before.len() && place < ends.len() {
            let end = ends[place];
            put_before(before[place].as_slice(), end, &mut ends, &mut row)?;
        }
    }
    Ok(ends)
}

/// No ends.
pub fn unknown_ends(alloc: Global) -> Vec<End>
    ensures { (scripts : Scripts) → AreEnds result.items scripts }
{
    Vec::new(alloc)
}

/// Where the texts stand behind all names: those that were found, if all that they tell is so, which it is.
#[tactic(auto, using(crate::proofs::LeadLaws::lent_length))]
pub fn all_ends(alloc: Global, names: &Names<'_>) -> Result<Vec<End>, Mem>
    ensures { IfOk result (λ ends. AreEnds ends.items (scripts_in names.now)) }
{
    let nexts = all_nexts(alloc, names)?;
    let ends = found_ends(alloc, &nexts)?;
    let most = names.declared().len();
    if are_ends(&ends, &nexts, most) {
        return Ok(ends);
    }
    Ok(unknown_ends(alloc))
}
