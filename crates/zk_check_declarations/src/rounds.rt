ghost use Rattle.std.specs.Prelude.{◌≡◌, ℕ, [], ◌∷◌, ◌++◌, Some, map, filter, slice_get, if◌then◌else◌, IfOk, OnOk};
ghost use Rattle.std.specs.Bool.{OnTrue};
ghost use Rattle.zk_typed.specs.Checked.{Checked};
ghost use Rattle.zk_typed.specs.Declarations as spec;
ghost use Rattle.zk_typed.specs.Resolving as resolving;
ghost use Rattle.zk_typed.specs.Tells.{Tells};
ghost use Rattle.zk_typed.specs.Typing as typing;
ghost use Rattle.zk_scope.specs.Indexing.{passing};
ghost use Rattle.zk_scope.specs.Lent.{declared_lent, declared_of, home_of};
ghost use Rattle.zk_scope.specs.Scripted.{scripts_in};
ghost use Rattle.zk_check_operators.specs.Views.{typed_of};
ghost use Rattle.zk_check_expressions.specs.Envs.{global_of, globals_at};
ghost use Rattle.zk_check_declarations.specs.Rounds.{IsAfter, IsGlobals, by_init, filled, types_at};

use crate::bodiless::bodiless_init;
use crate::order::order_of;
use sqlite_items::at;
use std::alloc::Global;
use zk_base::Mem;
use zk_check_expressions::{GlobalType, Globals};
use zk_check_operators::{Typed, Wanted, same_type};
use zk_scope::{Declared, Home, Kind, Meant, Scripts};
use zk_tree::{Init, Type};
use zk_typed::{Broken, Refusal, Rule, copied_type};

/// Whether a rule marks what can't be told for globals that rest on each other's initial values.
pub fn is_mark(one: &Broken) -> bool
    ensures { result ≡ spec.is_mark one.now }
{
    match one.rule {
        Rule::Recursive => true,
        Rule::Unknown
        | Rule::Twice
        | Rule::WrongType
        | Rule::Field
        | Rule::NotConst
        | Rule::FixedGlobal
        | Rule::Arguments
        | Rule::Return
        | Rule::Break
        | Rule::Attribute
        | Rule::Format => false,
    }
}

/// Whether what is broken is marked so.
pub fn is_circular(rules: &[Broken]) -> bool
    ensures { result ≡ spec.is_circular rules.now }
{
    rules.iter().any(|one| is_mark(one))
}

/// The type of an initial value.
fn marked(one: Result<Typed, Refusal>) -> Result<GlobalType, Mem>
    ensures { IfOk result (λ made. (checked : Checked typing.Typed) → Tells typed_of one checked → global_of made ≡ spec.marked checked) }
{
    match one {
        Ok(one) => Ok(GlobalType::Known(one.value_type)),
        Err(Refusal::Broken(rules)) => {
            if is_circular(rules.as_slice()) {
                Ok(GlobalType::Circular)
            } else {
                Ok(GlobalType::Unknown)
            }
        }
        Err(Refusal::NoMemory) => Err(Mem),
    }
}

/// The type that a declaration writes.
fn by_type(
    alloc: Global,
    scripts: &Scripts<'_>,
    home: Home<'_>,
    tree: &Type,
) -> Result<GlobalType, Mem>
    ensures { IfOk result (λ made. global_of made ≡ resolving.hushed (resolving.type_of (scripts_in scripts.now.names) (home_of home.entry) tree.now)) }
{
    match scripts.names.type_of(alloc, home, tree) {
        Ok(one) => Ok(GlobalType::Known(one)),
        Err(Refusal::Broken(_)) => Ok(GlobalType::Unknown),
        Err(Refusal::NoMemory) => Err(Mem),
    }
}

/// The type of an initial value, by those of the globals that it names.
fn by_init(
    alloc: Global,
    scripts: &Scripts<'_>,
    globals: Globals<'_>,
    home: Home<'_>,
    init: &Option<Init>,
) -> Result<GlobalType, Mem>
    ensures { IfOk result (λ made. global_of made ≡ by_init (scripts_in scripts.now.names) (globals_at globals.entry) (home_of home.entry) init.now) }
{
    match init {
        Some(init) => marked(bodiless_init(alloc, scripts, globals, home, Wanted::Nothing, init)),
        None => Ok(GlobalType::Unknown),
    }
}

/// The type of a global, by those of the others.
fn variable_type(
    alloc: Global,
    scripts: &Scripts<'_>,
    globals: Globals<'_>,
    one: &Declared<'_>,
) -> Result<GlobalType, Mem>
    ensures { IfOk result (λ made. global_of made ≡ spec.variable_type (scripts_in scripts.now.names) (globals_at globals.entry) (Some (declared_of one.now))) }
{
    match &one.meant {
        Meant::Variable {
            home,
            lasting: _,
            tree,
            init,
            attrs: _,
        } => match tree {
            Some(tree) => by_type(alloc, scripts, *home, tree),
            None => by_init(alloc, scripts, globals, *home, init),
        },
        Meant::KnownType { .. }
        | Meant::WrittenType { .. }
        | Meant::Word { .. }
        | Meant::Event { .. }
        | Meant::Hook { .. }
        | Meant::Function { .. }
        | Meant::BuiltInFunction { .. }
        | Meant::Log { .. } => Ok(GlobalType::Unknown),
    }
}

/// Adds the place of a global or a constant.
fn add_place(one: &Declared<'_>, place: usize, places: &mut Vec<usize>) -> Result<(), Mem>
    ensures { OnOk result (places.new.items ≡ places.old.items ++ (if typing.is_variable (declared_of one.now) then place ∷ [] else [])) }
{
    if Kind::Variable.is_of(one) {
        places.push(place)?;
        return Ok(());
    }
    Ok(())
}

/// Where the globals and constants stand among names, by their numbers.
fn places_of(alloc: Global, declared: &[Declared<'_>]) -> Result<Vec<usize>, Mem>
    ensures { IfOk result (λ places. places.items ≡ passing typing.is_variable (declared_lent declared.now)) }
{
    let mut places = Vec::new(alloc);
    for (place, one) in declared.iter().enumerate() {
        add_place(one, place, &mut places)?;
    }
    Ok(places)
}

/// The types of all globals, by those that they had.
fn types_by(
    alloc: Global,
    scripts: &Scripts<'_>,
    globals: Globals<'_>,
    declared: &[Declared<'_>],
) -> Result<Vec<GlobalType>, Mem>
    ensures { IfOk result (λ types. map global_of types.items ≡ filled (scripts_in scripts.now.names) (globals_at globals.entry) (filter typing.is_variable (declared_lent declared.now))) }
{
    let mut types = Vec::new(alloc);
    for one in declared {
        if Kind::Variable.is_of(one) {
            let made = variable_type(alloc, scripts, globals, one)?;
            types.push(made)?;
        }
    }
    Ok(types)
}

/// The types of all globals before the type of any is told.
fn first_types(alloc: Global, scripts: &Scripts<'_>) -> Result<Vec<GlobalType>, Mem>
    ensures { IfOk result (λ types. IsAfter (scripts_in scripts.now.names) 0 types.items) }
{
    let globals = Globals {
        types: &[],
        circular: true,
    };
    types_by(alloc, scripts, globals, scripts.names.declared())
}

/// The types of all globals after a round more.
fn round(
    alloc: Global,
    scripts: &Scripts<'_>,
    before: &[GlobalType],
) -> Result<Vec<GlobalType>, Mem>
    ensures { IfOk result (λ types. map global_of types.items ≡ filled (scripts_in scripts.now.names) (types_at (map global_of before.now)) (spec.variables (scripts_in scripts.now.names))) }
{
    let globals = Globals {
        types: before,
        circular: false,
    };
    types_by(alloc, scripts, globals, scripts.names.declared())
}

/// The type of the name at a place, by those that the globals have so far.
fn told_at(
    alloc: Global,
    scripts: &Scripts<'_>,
    types: &[GlobalType],
    place: usize,
) -> Result<GlobalType, Mem>
    ensures { IfOk result (λ made. global_of made ≡ spec.variable_type (scripts_in scripts.now.names) (types_at (map global_of types.now)) (slice_get (scripts_in scripts.now.names).names place)) }
{
    let globals = Globals {
        types,
        circular: false,
    };
    match at(scripts.names.declared(), place) {
        Some(one) => variable_type(alloc, scripts, globals, one),
        None => Ok(GlobalType::Unknown),
    }
}

/// Tells the type of one global, by those that the others have so far.
fn tell(
    alloc: Global,
    scripts: &Scripts<'_>,
    places: &[usize],
    number: usize,
    types: &mut Vec<GlobalType>,
) -> Result<(), Mem>
    ensures { OnOk result ((round : ℕ) → places.now ≡ passing typing.is_variable (scripts_in scripts.now.names).names
        → IsAfter (scripts_in scripts.now.names) round types.old.items → IsAfter (scripts_in scripts.now.names) round types.new.items) }
{
    if number >= places.len() || number >= types.len() {
        return Ok(());
    }
    let made = told_at(alloc, scripts, types.as_slice(), places[number])?;
    types[number] = made;
    Ok(())
}

/// Tells the types of those globals that wait for others, each behind those that its initial value names.
fn tell_in_order(
    alloc: Global,
    scripts: &Scripts<'_>,
    places: &[usize],
    types: &mut Vec<GlobalType>,
) -> Result<(), Mem>
    ensures { OnOk result ((round : ℕ) → places.now ≡ passing typing.is_variable (scripts_in scripts.now.names).names
        → IsAfter (scripts_in scripts.now.names) round types.old.items → IsAfter (scripts_in scripts.now.names) round types.new.items) }
{
    let order = order_of(alloc, scripts, places, types.as_slice())?;
    for number in order.as_slice() {
        tell(alloc, scripts, places, *number, types)?;
    }
    Ok(())
}

/// Whether two types of globals are the same.
fn same_global(a: &GlobalType, b: &GlobalType) -> bool
    ensures { OnTrue result (global_of a.now ≡ global_of b.now) }
{
    match a {
        GlobalType::Known(one) => match b {
            GlobalType::Known(other) => same_type(one, other),
            GlobalType::Unknown | GlobalType::Circular => false,
        },
        GlobalType::Unknown => match b {
            GlobalType::Unknown => true,
            GlobalType::Known(_) | GlobalType::Circular => false,
        },
        GlobalType::Circular => match b {
            GlobalType::Circular => true,
            GlobalType::Known(_) | GlobalType::Unknown => false,
        },
    }
}

/// Whether the types of globals are the same, one by one.
fn same_globals(a: &[GlobalType], b: &[GlobalType]) -> bool
    ensures { OnTrue result (map global_of a.now ≡ map global_of b.now) }
{
    let mut others = b;
    for one in a {
        match others.split_first() {
            None => return false,
            Some((first, rest)) => {
                if !same_global(one, first) {
                    return false;
                }
                others = rest;
            }
        }
    }
    others.is_empty()
}

/// The types of the globals and constants, by their numbers. That of an initial value is told by those of the
/// globals that it names: first by those that come before it in an order of these names, and then round after
/// round until nothing changes. No way from one initial value to the next is longer than there are globals.
pub fn told_types(alloc: Global, scripts: &Scripts<'_>) -> Result<Vec<GlobalType>, Mem>
    ensures { IfOk result (λ types. IsGlobals types.items (spec.told_type (scripts_in scripts.now.names))) }
{
    let places = places_of(alloc, scripts.names.declared())?;
    let mut types = first_types(alloc, scripts)?;
    for at in 0..places.len() {
        let _ = at;
        tell_in_order(alloc, scripts, &places, &mut types)?;
        let next = round(alloc, scripts, &types)?;
        if same_globals(&types, &next) {
            return Ok(types);
        }
        types = next;
    }
    Ok(types)
}

/// What is known of a type of a global elsewhere.
fn hushed(alloc: Global, one: &GlobalType) -> Result<GlobalType, Mem>
    ensures { IfOk result (λ made. global_of made ≡ resolving.hushed (global_of one.now)) }
{
    match one {
        GlobalType::Known(one) => Ok(GlobalType::Known(copied_type(alloc, one)?)),
        GlobalType::Unknown | GlobalType::Circular => Ok(GlobalType::Unknown),
    }
}

/// The types of the globals and constants as other declarations know them.
pub fn known_types(alloc: Global, told: &[GlobalType]) -> Result<Vec<GlobalType>, Mem>
    ensures { IfOk result (λ types. map global_of types.items ≡ map (λ one. resolving.hushed (global_of one)) told.now) }
{
    let mut types = Vec::new(alloc);
    for one in told {
        let made = hushed(alloc, one)?;
        types.push(made)?;
    }
    Ok(types)
}
