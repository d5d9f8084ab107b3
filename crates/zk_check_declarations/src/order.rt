//! An order in which the types of globals are told. It is a hint: in any other order the types are the same, and
//! only told later.
use crate::mentions::mentioned;
use sqlite_items::at;
use std::alloc::Global;
use zk_base::Mem;
use zk_check_expressions::GlobalType;
use zk_scope::{Home, Kind, Meant, Scripts};
use zk_tree::{Init, Name};

/// Whether the type of a global isn't told yet.
fn is_waiting(types: &[GlobalType], number: usize) -> bool {
    match types.get(number) {
        Some(GlobalType::Circular) => true,
        Some(GlobalType::Known(_) | GlobalType::Unknown) | None => false,
    }
}

/// The number of the global that a name means, if it means one.
fn number_named(
    alloc: Global,
    scripts: &Scripts<'_>,
    home: Home<'_>,
    name: &Name,
) -> Result<Option<usize>, Mem> {
    let found = scripts
        .names
        .look_up(alloc, home.module_name, name.text.as_slice())?;
    let Some(one) = found else {
        return Ok(None);
    };
    if !Kind::Variable.is_of(one) {
        return Ok(None);
    }
    let number = scripts.names.number_among(Kind::Variable, one)?;
    Ok(Some(number as usize))
}

/// The numbers of the globals in an initial value whose types aren't told yet, once for each time that one is
/// named.
fn needs_in(
    alloc: Global,
    scripts: &Scripts<'_>,
    types: &[GlobalType],
    home: Home<'_>,
    init: &Init,
) -> Result<Vec<usize>, Mem> {
    let names = mentioned(alloc, init)?;
    let mut needs = Vec::new(alloc);
    for name in names.as_slice() {
        if let Some(number) = number_named(alloc, scripts, home, *name)? {
            if is_waiting(types, number) {
                needs.push(number)?;
            }
        }
    }
    Ok(needs)
}

/// The numbers of the globals that the one at a place among names waits for.
fn needs_at(
    alloc: Global,
    scripts: &Scripts<'_>,
    types: &[GlobalType],
    place: usize,
) -> Result<Vec<usize>, Mem> {
    let Some(one) = at(scripts.names.declared(), place) else {
        return Ok(Vec::new(alloc));
    };
    match &one.meant {
        Meant::Variable {
            home,
            lasting: _,
            tree: _,
            init: Some(init),
            attrs: _,
        } => needs_in(alloc, scripts, types, *home, init),
        Meant::Variable { .. }
        | Meant::KnownType { .. }
        | Meant::WrittenType { .. }
        | Meant::Word { .. }
        | Meant::Event { .. }
        | Meant::Hook { .. }
        | Meant::Function { .. }
        | Meant::BuiltInFunction { .. }
        | Meant::Log { .. } => Ok(Vec::new(alloc)),
    }
}

/// The numbers of the globals that each global waits for, by its number.
fn all_needs(
    alloc: Global,
    scripts: &Scripts<'_>,
    places: &[usize],
    types: &[GlobalType],
) -> Result<Vec<Vec<usize>>, Mem> {
    let mut all = Vec::new(alloc);
    for (number, place) in places.iter().enumerate() {
        let needs = if is_waiting(types, number) {
            needs_at(alloc, scripts, types, *place)?
        } else {
            Vec::new(alloc)
        };
        all.push(needs)?;
    }
    Ok(all)
}

/// No numbers, for each of so many globals.
fn no_namers(alloc: Global, count: usize) -> Result<Vec<Vec<usize>>, Mem> {
    let mut namers = Vec::new(alloc);
    for _ in 0..count {
        namers.push(Vec::new(alloc))?;
    }
    Ok(namers)
}

/// Adds a global to those that wait for the ones that it needs.
fn add_namer(needs: &[usize], number: usize, namers: &mut Vec<Vec<usize>>) -> Result<(), Mem> {
    for need in needs {
        if *need < namers.len() {
            namers[*need].push(number)?;
        }
    }
    Ok(())
}

/// The numbers of the globals that wait for each global, by its number.
fn namers_of(alloc: Global, needs: &[Vec<usize>]) -> Result<Vec<Vec<usize>>, Mem> {
    let mut namers = no_namers(alloc, needs.len())?;
    for (number, one) in needs.iter().enumerate() {
        add_namer(one.as_slice(), number, &mut namers)?;
    }
    Ok(namers)
}

/// How many names each global waits for.
fn counts(alloc: Global, needs: &[Vec<usize>]) -> Result<Vec<usize>, Mem> {
    let mut left = Vec::new(alloc);
    for one in needs {
        left.push(one.len())?;
    }
    Ok(left)
}

/// The globals whose types aren't told yet and that wait for none.
fn free_ones(alloc: Global, types: &[GlobalType], needs: &[Vec<usize>]) -> Result<Vec<usize>, Mem> {
    let mut free = Vec::new(alloc);
    for (number, one) in needs.iter().enumerate() {
        if one.is_empty() && is_waiting(types, number) {
            free.push(number)?;
        }
    }
    Ok(free)
}

/// Takes a name off those that a global waits for, and tells whether it was the last.
fn was_last(left: &mut [usize], number: usize) -> bool {
    if number >= left.len() || left[number] == 0 {
        return false;
    }
    left[number] -= 1;
    left[number] == 0
}

/// Puts those at the end of the order that waited for a global alone.
fn free_namers(namers: &[usize], left: &mut [usize], order: &mut Vec<usize>) -> Result<(), Mem> {
    for number in namers {
        if was_last(left, *number) {
            order.push(*number)?;
        }
    }
    Ok(())
}

/// The globals whose types aren't told yet, each behind those that its initial value names. Those that rest on
/// themselves, and those that name them, aren't among them. It is a hint, of which nothing is promised.
pub fn order_of(
    alloc: Global,
    scripts: &Scripts<'_>,
    places: &[usize],
    types: &[GlobalType],
) -> Result<Vec<usize>, Mem> {
    let needs = all_needs(alloc, scripts, places, types)?;
    let namers = namers_of(alloc, needs.as_slice())?;
    let mut left = counts(alloc, needs.as_slice())?;
    let mut order = free_ones(alloc, types, needs.as_slice())?;
    for turn in 0..namers.len() {
        if turn >= order.len() {
            return Ok(order);
        }
        let number = order[turn];
        if number < namers.len() {
            free_namers(namers[number].as_slice(), &mut left, &mut order)?;
        }
    }
    Ok(order)
}
