ghost use Rattle.std.specs.Prelude.{◌≡◌, ℕ, List, length, map, IfOk, Ok};
ghost use Rattle.zk_check_expressions.specs.Envs.{locals_of};
ghost use Rattle.zk_check_operators.specs.Gather.{Told};
ghost use Rattle.zk_check_operators.specs.Views.{typed_of};
ghost use Rattle.zk_typed.specs.Checked.{Checked};
ghost use Rattle.zk_typed.specs.Forms as form;
ghost use Rattle.zk_typed.specs.Statements as spec;
ghost use Rattle.zk_typed.specs.Tells.{Tells};
ghost use Rattle.zk_typed.specs.Types as types;
ghost use Rattle.zk_typed.specs.Typing as typing;
ghost use Rattle.zk_typed.specs.View.{stmt_of, type_of};
ghost use Rattle.zk_check_statements.specs.Bodies.{context_of};
ghost use Rattle.zk_check_statements.specs.Loops.{Again, for_of, loop_of, over_of, over_typed, types_over};
ghost use Rattle.zk_check_statements.specs.Numbers.{GivesNumbers, givens_in, items_of};
ghost use Rattle.zk_check_statements.specs.Turns.{names_lent};

use crate::context::{Context, check_in, expr_place};
use crate::made::{index_loop, key_and_value_names, key_loop, key_names};
use crate::numbers::for_names;
use crate::over::for_over;
use crate::turns::wanted_names;
use sqlite_items::Items;
use std::alloc::{AllocError, Global};
use zk_base::Mem;
use zk_check_expressions::Locals;
use zk_check_operators::{Typed, Wanted, both, is_vector};
use zk_tree::{Expr, Keys, Name, Place};
use zk_typed::script::{Names, Stmt, ValueType};
use zk_typed::{Refusal, copied_type};

/// What is broken in what a `for` goes over is told for the types of its names too.
fn told_twice(alloc: Global, refusal: Refusal) -> Refusal
    ensures { Again refusal result }
{
    match refusal {
        Refusal::Broken(mut rules) => match Items::from_slice(alloc, rules.as_slice()) {
            Ok(more) => match rules.append(more) {
                Ok(()) => Refusal::Broken(rules),
                Err(_) => Refusal::NoMemory,
            },
            Err(_) => Refusal::NoMemory,
        },
        Refusal::NoMemory => Refusal::NoMemory,
    }
}

/// What a `for` goes over, and the types of its names.
#[tactic(auto, using(crate::proofs::Turning::over_refused))]
pub fn over_and_types(
    context: &Context<'_, '_>,
    locals: &Locals<'_>,
    place: u64,
    keys: &Keys,
    named: &Option<Name>,
    over: &Expr,
) -> Result<(Typed, Vec<ValueType>), Refusal>
    ensures many { IfOk result (λ made. length made.1.items ≡ length (spec.wanted_names keys.now named.now)) }
    ensures over { Tells over_of result (over_typed (context_of context.now) (locals_of locals.now) place keys.now named.now over.now) }
{
    match check_in(context, locals, Wanted::Nothing, over) {
        Ok(one) => {
            let over_place = expr_place(context, over);
            match for_over(context, place, over_place, keys, named, &one) {
                Ok(types) => Ok((one, types)),
                Err(refusal) => {
                    drop(one);
                    Err(refusal)
                }
            }
        }
        Err(refusal) => Err(told_twice(context.alloc, refusal)),
    }
}

/// The types of names, where all are known.
fn known_types(alloc: Global, types: &[ValueType]) -> Result<Vec<Option<ValueType>>, Mem>
    ensures many { IfOk result (λ all. length all.items ≡ length types.now) }
    ensures types { IfOk result (λ all. givens_in all.items ≡ map Ok (map type_of types.now)) }
{
    let mut all = Vec::new(alloc);
    for one in types {
        let copy = copied_type(alloc, one)?;
        all.push(Some(copy))?;
    }
    Ok(all)
}

/// The types of names, where none is known.
fn unknown_types(alloc: Global, names: &[&Name]) -> Result<Vec<Option<ValueType>>, Mem>
    ensures many { IfOk result (λ all. length all.items ≡ length names.now) }
    ensures types { IfOk result (λ all. givens_in all.items ≡ spec.unknown_types (names_lent names.now)) }
{
    let mut all = Vec::new(alloc);
    for _name in names {
        all.push(None)?;
    }
    Ok(all)
}

/// The types of the names of a `for`, where they are known.
fn name_types(
    alloc: Global,
    names: &[&Name],
    over: &Result<(Typed, Vec<ValueType>), Refusal>,
) -> Result<Vec<Option<ValueType>>, Mem>
    requires { IfOk over.now (λ made. length made.1.items ≡ length names.now) }
    ensures many { IfOk result (λ all. length all.items ≡ length names.now) }
    ensures types { IfOk result (λ all. (wanted : Checked (typing.Typed × List types.ValueType)) → Told over.now → Tells over_of over.now wanted → givens_in all.items ≡ spec.types_or_unknown (names_lent names.now) (types_over wanted)) }
{
    match over {
        Ok((_, types)) => known_types(alloc, types.as_slice()),
        Err(_) => unknown_types(alloc, names),
    }
}

/// The numbers of the names of a `for`, by what it goes over.
pub fn loop_names<'a>(
    context: &Context<'a, '_>,
    locals: &mut Locals<'a>,
    keys: &'a Keys,
    named: &'a Option<Name>,
    over: &Result<(Typed, Vec<ValueType>), Refusal>,
) -> Result<Vec<u32>, Refusal>
    requires { IfOk over.now (λ made. length made.1.items ≡ length (spec.wanted_names keys.now named.now)) }
    ensures { (wanted : Checked (typing.Typed × List types.ValueType)) → Told over.now → Tells over_of over.now wanted →
        GivesNumbers result locals.new (spec.for_names (context_of context.now) (locals_of locals.old) (spec.wanted_names keys.now named.now) (spec.types_or_unknown (spec.wanted_names keys.now named.now) (types_over wanted))) }
{
    let names = wanted_names(context.alloc, keys, named)?;
    let types = name_types(context.alloc, names.as_slice(), over)?;
    for_names(context, locals, names.as_slice(), types.as_slice())
}

/// The locals that a `for` sets, by their numbers.
fn names_of(named: &Option<Name>, numbers: Vec<u32>) -> Names
    ensures { result ≡ spec.as_names named.now numbers.items }
{
    match named {
        None => key_names(numbers),
        Some(_) => key_and_value_names(numbers),
    }
}

/// A loop over the indexes of a vector, or over the keys of a table or a set.
fn loop_made(
    alloc: Global,
    place: Place,
    named: &Option<Name>,
    one: Typed,
    numbers: Vec<u32>,
    body: Stmt,
) -> Result<Stmt, AllocError>
    ensures { IfOk result (λ made. stmt_of made ≡ loop_of place named.now (typed_of one) numbers.items (stmt_of body)) }
{
    let names = names_of(named, numbers);
    if is_vector(&one.value_type) {
        index_loop(alloc, place, names, one.expr, body)
    } else {
        key_loop(alloc, place, names, one.expr, body)
    }
}

/// `for` of its parts, or what is broken in them.
pub fn for_made(
    alloc: Global,
    place: Place,
    named: &Option<Name>,
    over: Result<(Typed, Vec<ValueType>), Refusal>,
    names: Result<Vec<u32>, Refusal>,
    body: Result<Stmt, Refusal>,
) -> Result<Stmt, Refusal>
    ensures made { (wanted : Checked (typing.Typed × List types.ValueType)) (numbers : Checked (List ℕ)) (inner : Checked form.Stmt) →
        Tells over_of over wanted → Tells items_of names numbers → Tells stmt_of body inner → Tells stmt_of result (for_of place named.now wanted numbers inner) }
    ensures known { Told result → Told over × Told names × Told body }
{
    let parts = both(names, body);
    match both(over, parts) {
        Ok((over, parts)) => {
            let (one, _) = over;
            let (numbers, body) = parts;
            match loop_made(alloc, place, named, one, numbers, body) {
                Ok(made) => Ok(made),
                Err(_) => Err(Refusal::NoMemory),
            }
        }
        Err(refusal) => Err(refusal),
    }
}
