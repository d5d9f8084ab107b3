ghost use Rattle.std.specs.Prelude.{◌≡◌, ◌≤◌, length, IfOk};
ghost use Rattle.std.specs.Option.{option_map};
ghost use Rattle.zk_check_expressions.specs.Envs.{locals_of};
ghost use Rattle.zk_check_expressions.specs.Envs.{known_or};
ghost use Rattle.zk_typed.specs.Statements as spec;
ghost use Rattle.zk_typed.specs.View.{type_of};
ghost use Rattle.zk_check_statements.specs.Bodies.{context_of};
ghost use Rattle.zk_check_statements.specs.Turns.{GivesNumber, names_lent};
ghost use Rattle.zk_check_statements.specs.Numbers.{GivesNumbers, givens_in};

use crate::context::Context;
use crate::turns::for_name;
use std::alloc::Global;
use zk_base::Mem;
use zk_check_expressions::Locals;
use zk_check_operators::with_part;
use zk_tree::Name;
use zk_typed::script::ValueType;
use zk_typed::{Refusal, copied_type};

/// A type, where it is known.
fn copied_given(alloc: Global, one: &Option<ValueType>) -> Result<Option<ValueType>, Mem>
    ensures { IfOk result (λ copy. option_map type_of copy ≡ option_map type_of one.now) }
{
    match one {
        None => Ok(None),
        Some(one) => match copied_type(alloc, one) {
            Ok(copy) => Ok(Some(copy)),
            Err(_) => Err(Mem),
        },
    }
}

/// A name of a `for` with the type that is given to it.
fn named_one<'a>(
    context: &Context<'a, '_>,
    locals: &mut Locals<'a>,
    name: &'a Name,
    given: &Option<ValueType>,
) -> Result<u32, Refusal>
    ensures { GivesNumber result locals.new (spec.for_name (context_of context.now) (locals_of locals.old) name.now (known_or (option_map type_of given.now))) }
{
    match copied_given(context.alloc, given) {
        Ok(given) => for_name(context, locals, name, given),
        Err(_) => Err(Refusal::NoMemory),
    }
}

/// The numbers of the names of a `for`, each with the type that is given to it.
pub fn for_names<'a>(
    context: &Context<'a, '_>,
    locals: &mut Locals<'a>,
    names: &[&'a Name],
    types: &[Option<ValueType>],
) -> Result<Vec<u32>, Refusal>
    requires { length names.now ≤ length types.now }
    ensures { GivesNumbers result locals.new (spec.for_names (context_of context.now) (locals_of locals.old) (names_lent names.now) (givens_in types.now)) }
{
    let mut all = Ok(Vec::new(context.alloc));
    for index in 0..names.len() {
        let number = named_one(context, locals, names[index], &types[index]);
        all = with_part(all, number);
    }
    all
}
