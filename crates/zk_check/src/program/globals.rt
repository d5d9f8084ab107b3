ghost use Rattle.std.specs.Prelude.{◌≡◌, ◌≤◌, ◌++◌, List, [], ◌∷◌, drop, filter, length, map, IfOk, OnOk};
ghost use Rattle.std.specs.Option.{option_map};
ghost use Rattle.zk_check_expressions.specs.Envs.{env_of};
ghost use Rattle.zk_scope.specs.Lent.{declared_of, home_of};
ghost use Rattle.zk_typed.specs.Declarations.{ValueGiven, env_at, global_type, variables};
ghost use Rattle.zk_typed.specs.Errors.{redef_wants};
ghost use Rattle.zk_typed.specs.Names.{Declared as DeclaredName};
ghost use Rattle.zk_typed.specs.Predefined as type;
ghost use Rattle.zk_typed.specs.Programs as spec;
ghost use Rattle.zk_typed.specs.Statements as statement;
ghost use Rattle.zk_typed.specs.Typing.{is_variable};
ghost use Rattle.zk_typed.specs.View as view;
ghost use Rattle.zk_typed.specs.View.{expr_of, type_of};
ghost use Rattle.zk_check.specs.Globals.{ArePlaces, global_by, globals_by, start_after};
ghost use Rattle.zk_check_declarations.specs.Sources.{IsSource, scripts_from};
ghost use Rattle.zk_check_declarations.specs.Valuing.{IsValues, given_lent, given_of};

use crate::program::attrs::{default_of, expire_func_of, expiry_of, shaped};
use crate::program::bodies::if_checked;
use crate::program::places::{place_among, places_by_name};
use sqlite_items::at;
use std::alloc::Global;
use zk_base::{Mem, Sequence};
use zk_check_declarations::{Given, Groups, Source, Values};
use zk_check_expressions::{Env, GlobalType, init_typed};
use zk_check_operators::{Wanted, added_type, empty_of};
use zk_scope::{Declared, Home, Kind, Meant};
use zk_tree::{Assigning, Attr, Place, Redefining};
use zk_typed::copied_type;
use zk_typed::script::{Expr, Global as ProgramGlobal, SimpleType, ValueType};

/// Where an expression of no body stands.
fn env_at<'a>(source: &Source<'a>, home: Home<'a>) -> Env<'a>
    requires { IsSource source.now }
    ensures { env_of result ≡ env_at (scripts_from source.entry.now) (home_of home.entry) }
{
    Env {
        scripts: source.scripts,
        home,
        locals: None,
        globals: source.globals,
    }
}

/// The type of what a value is to have that is given to a global of a type.
fn wanted_of(alloc: Global, operator: Redefining, one: &ValueType) -> Result<Option<ValueType>, Mem>
    ensures { IfOk result (λ wanted. option_map type_of wanted ≡ redef_wants operator (type_of one.now)) }
{
    match operator {
        Redefining::Set => Ok(Some(copied_type(alloc, one)?)),
        Redefining::Add => Ok(added_type(alloc, Assigning::Add, one)?),
    }
}

/// A value that is given to a global of a type, where it is right.
fn given_value<'a>(
    source: &Source<'a>,
    one: &ValueType,
    given: &Given<'a>,
) -> Result<Option<Expr>, Mem>
    requires { IsSource source.now }
    ensures { IfOk result (λ made. option_map expr_of made ≡ spec.given_value (scripts_from source.now) (type_of one.now) (given_of given.now)) }
{
    let Some(wanted) = wanted_of(source.alloc, given.operator, one)? else {
        return Ok(None);
    };
    let env = env_at(source, given.home);
    let typed = init_typed(source.alloc, &env, Wanted::Type(&wanted), given.init);
    match if_checked(typed)? {
        Some(typed) => Ok(Some(typed.expr)),
        None => Ok(None),
    }
}

/// Where the last `=` stands so far, after one value more.
fn with_more(start: usize, index: usize, one: &Given<'_>) -> usize
    ensures { result ≡ start_after start index (given_of one.now) }
{
    match one.operator {
        Redefining::Set => index,
        Redefining::Add => start,
    }
}

/// How many of the values that a name is given stand before the last `=`.
fn last_set(all: &[Given<'_>]) -> usize
    ensures within { result ≤ length all.now }
    ensures since { given_lent (drop result all.now) ≡ spec.since_set [] (given_lent all.now) }
{
    let mut start = 0;
    for (index, one) in all.iter().enumerate() {
        start = with_more(start, index, one);
    }
    start
}

/// What values are added to where no `=` gives one.
fn added_to(alloc: Global, number: u32, one: &ValueType) -> Result<Expr, Mem>
    ensures { IfOk result (λ made. expr_of made ≡ spec.added_to number (statement.empty_of (type_of one.now))) }
{
    match empty_of(alloc, one)? {
        Some(made) => Ok(made),
        None => Ok(Expr::Global(number)),
    }
}

/// What a global begins with: its last `=`, or the empty value of its type.
fn first_given<'a>(
    source: &Source<'a>,
    number: u32,
    one: &ValueType,
    given: &[Given<'a>],
) -> Result<Option<Expr>, Mem>
    requires { IsSource source.now }
    ensures { IfOk result (λ made. option_map expr_of made ≡ spec.first_given (scripts_from source.now) number (type_of one.now) (given_lent given.now)) }
{
    match given.split_first() {
        None => empty_of(source.alloc, one),
        Some((first, _)) => match first.operator {
            Redefining::Set => given_value(source, one, first),
            Redefining::Add => Ok(Some(added_to(source.alloc, number, one)?)),
        },
    }
}

/// How many values stand before those that are added.
fn first_added(given: &[Given<'_>]) -> usize
    ensures within { result ≤ length given.now }
    ensures later { given_lent (drop result given.now) ≡ spec.later_given (given_lent given.now) }
{
    match given.split_first() {
        None => 0,
        Some((first, _)) => match first.operator {
            Redefining::Set => 1,
            Redefining::Add => 0,
        },
    }
}

/// Adds a value that is given, where it is right.
fn add_value<'a>(
    source: &Source<'a>,
    one: &ValueType,
    given: &Given<'a>,
    all: &mut Vec<Expr>,
) -> Result<(), Mem>
    requires { IsSource source.now }
    ensures { (others : List ValueGiven) → OnOk result (map expr_of all.new.items ++ spec.all_given (scripts_from source.now) (type_of one.now) others
        ≡ map expr_of all.old.items ++ spec.all_given (scripts_from source.now) (type_of one.now) (given_of given.now ∷ others)) }
{
    match given_value(source, one, given)? {
        Some(made) => {
            all.push(made)?;
            Ok(())
        }
        None => Ok(()),
    }
}

/// The values that are given, where they are right.
fn all_given<'a>(
    source: &Source<'a>,
    one: &ValueType,
    given: &[Given<'a>],
) -> Result<Vec<Expr>, Mem>
    requires { IsSource source.now }
    ensures { IfOk result (λ made. map expr_of made.items ≡ spec.all_given (scripts_from source.now) (type_of one.now) (given_lent given.now)) }
{
    let mut all = Vec::new(source.alloc);
    for value in given {
        add_value(source, one, value, &mut all)?;
    }
    Ok(all)
}

/// The type of a global. A truth value stands for one that is broken.
fn type_or_bool(source: &Source<'_>, number: u32) -> Result<ValueType, Mem>
    requires { IsSource source.now }
    ensures { IfOk result (λ made. type_of made ≡ spec.checked_or type.bool (global_type (scripts_from source.now) number)) }
{
    match at(source.globals.types, number as usize) {
        Some(GlobalType::Known(one)) => Ok(copied_type(source.alloc, one)?),
        Some(GlobalType::Unknown) => Ok(ValueType::Simple(SimpleType::Bool)),
        Some(GlobalType::Circular) => Ok(ValueType::Simple(SimpleType::Bool)),
        None => Ok(ValueType::Simple(SimpleType::Bool)),
    }
}

/// What a global begins with, with the expiry and the default that it has.
fn initial_of<'a>(
    source: &Source<'a>,
    number: u32,
    one: &ValueType,
    home: Home<'_>,
    attrs: &[Attr],
    given: &[Given<'a>],
) -> Result<Option<Expr>, Mem>
    requires { IsSource source.now }
    ensures { IfOk result (λ made. option_map expr_of made ≡ option_map (spec.shaped (spec.expiry_of (scripts_from source.now) (home_of home.entry) attrs.now) (spec.default_of (scripts_from source.now) (home_of home.entry) (type_of one.now) attrs.now)) (spec.first_given (scripts_from source.now) number (type_of one.now) (given_lent given.now))) }
{
    let expiry = expiry_of(source.alloc, home, attrs)?;
    let default = default_of(source.alloc, home, one, attrs)?;
    match first_given(source, number, one, given)? {
        Some(made) => Ok(Some(shaped(expiry, default, made))),
        None => Ok(None),
    }
}

/// The values that are added to what a global begins with, where they are right.
fn added_of<'a>(source: &Source<'a>, one: &ValueType, given: &[Given<'a>]) -> Result<Vec<Expr>, Mem>
    requires { IsSource source.now }
    ensures { IfOk result (λ made. map expr_of made.items ≡ spec.all_given (scripts_from source.now) (type_of one.now) (spec.later_given (given_lent given.now))) }
{
    let later = &given[first_added(given)..];
    all_given(source, one, later)
}

/// A global or a constant, by the place of its declaration and its values since the last `=`.
fn global_by<'a>(
    source: &Source<'a>,
    place: Place,
    number: u32,
    home: Home<'_>,
    attrs: &[Attr],
    given: &[Given<'a>],
) -> Result<ProgramGlobal, Mem>
    requires { IsSource source.now }
    ensures { IfOk result (λ made. view.global_of made ≡ global_by (scripts_from source.now) number place (home_of home.entry) attrs.now (given_lent given.now)) }
{
    let expiry = expiry_of(source.alloc, home, attrs)?;
    let expire_func = expire_func_of(source, home, attrs)?;
    let global_type = type_or_bool(source, number)?;
    let initial = initial_of(source, number, &global_type, home, attrs, given)?;
    let added = added_of(source, &global_type, given)?;
    Ok(ProgramGlobal {
        place,
        global_type,
        initial,
        added: Sequence::from(added),
        expiry,
        expire_func,
    })
}

/// A global or a constant of a program.
fn global_made<'a>(
    source: &Source<'a>,
    values: &Values<'a>,
    places: &Groups<Place>,
    number: u32,
    one: &Declared<'_>,
    home: Home<'_>,
    attrs: &[Attr],
) -> Result<ProgramGlobal, Mem>
    requires known { IsSource source.now }
    requires values { IsValues values.now (scripts_from source.now) }
    requires places { ArePlaces places.now (scripts_from source.now) }
    ensures { IfOk result (λ made. view.global_of made ≡ spec.global_made (scripts_from source.now) number (declared_of one.now) (home_of home.entry) attrs.now) }
{
    let name = one.name.as_slice();
    let place = place_among(source.alloc, places, name)?;
    let all = values.of(source.alloc, name)?;
    let given = &all[last_set(all)..];
    global_by(source, place, number, home, attrs, given)
}

/// Adds the global that a name stands for.
fn add_global<'a>(
    source: &Source<'a>,
    values: &Values<'a>,
    places: &Groups<Place>,
    number: u32,
    one: &Declared<'_>,
    all: &mut Vec<ProgramGlobal>,
) -> Result<(), Mem>
    requires known { IsSource source.now }
    requires values { IsValues values.now (scripts_from source.now) }
    requires places { ArePlaces places.now (scripts_from source.now) }
    ensures { OnOk result (map view.global_of all.new.items ≡ map view.global_of all.old.items ++ globals_by (scripts_from source.now) number (declared_of one.now)) }
{
    match &one.meant {
        Meant::Variable { home, attrs, .. } => {
            all.push(global_made(source, values, places, number, one, *home, attrs)?)?;
            Ok(())
        }
        Meant::KnownType { .. }
        | Meant::WrittenType { .. }
        | Meant::Word { .. }
        | Meant::Event { .. }
        | Meant::Hook { .. }
        | Meant::Function { .. }
        | Meant::BuiltInFunction { .. }
        | Meant::Log { .. } => Ok(()),
    }
}

/// Adds the global that a name stands for, where it is one of a variable, and counts it.
fn next_global<'a>(
    source: &Source<'a>,
    values: &Values<'a>,
    places: &Groups<Place>,
    one: &Declared<'_>,
    number: &mut u32,
    all: &mut Vec<ProgramGlobal>,
) -> Result<(), Mem>
    requires known { IsSource source.now }
    requires values { IsValues values.now (scripts_from source.now) }
    requires places { ArePlaces places.now (scripts_from source.now) }
    ensures { (others : List DeclaredName) → OnOk result (map view.global_of all.new.items ++ spec.globals_from (scripts_from source.now) number.new (filter is_variable others)
        ≡ map view.global_of all.old.items ++ spec.globals_from (scripts_from source.now) number.old (filter is_variable (declared_of one.now ∷ others))) }
{
    if Kind::Variable.is_of(one) {
        add_global(source, values, places, *number, one, all)?;
        *number = number.checked_add(1).ok_or(Mem)?;
    }
    Ok(())
}

/// The globals and constants of all names of variables, numbered from 0.
fn globals_of<'a>(
    source: &Source<'a>,
    values: &Values<'a>,
    places: &Groups<Place>,
) -> Result<Vec<ProgramGlobal>, Mem>
    requires known { IsSource source.now }
    requires values { IsValues values.now (scripts_from source.now) }
    requires places { ArePlaces places.now (scripts_from source.now) }
    ensures { IfOk result (λ made. map view.global_of made.items ≡ spec.globals_from (scripts_from source.now) 0 (variables (scripts_from source.now))) }
{
    let mut all = Vec::new(source.alloc);
    let mut number = 0_u32;
    for one in source.scripts.names.declared() {
        next_global(source, values, places, one, &mut number, &mut all)?;
    }
    Ok(all)
}

/// The globals and constants of a program.
pub fn all_globals<'a>(source: &Source<'a>, values: &Values<'a>) -> Result<Vec<ProgramGlobal>, Mem>
    requires known { IsSource source.now }
    requires values { IsValues values.now (scripts_from source.now) }
    ensures { IfOk result (λ made. map view.global_of made.items ≡ spec.globals_from (scripts_from source.now) 0 (variables (scripts_from source.now))) }
{
    let places = places_by_name(source)?;
    globals_of(source, values, &places)
}
