ghost use Rattle.std.specs.Prelude.{◌≡◌, IfOk};
ghost use Rattle.std.specs.Option.{option_map};
ghost use Rattle.zk_check_expressions.specs.Envs.{known_or, locals_of};
ghost use Rattle.zk_scope.specs.Lent.{home_of};
ghost use Rattle.zk_scope.specs.Scripted.{scripts_in};
ghost use Rattle.zk_typed.specs.Errors as spec;
ghost use Rattle.zk_typed.specs.Resolving as resolving;
ghost use Rattle.zk_typed.specs.Statements as statement;
ghost use Rattle.zk_typed.specs.View.{type_of};
ghost use Rattle.zk_check_statements.specs.Bodies.{within_of};
ghost use Rattle.zk_check_declarations.specs.Sources.{IsSource, scripts_from};
ghost use Rattle.zk_check.specs.Judging.{IsJudged};

use std::alloc::Global;
use zk_base::Mem;
use zk_check_declarations::Source;
use zk_check_expressions::{LocalName, Locals};
use zk_check_operators::Wanted;
use zk_check_statements::{Context, Within, body_typed};
use zk_scope::{Home, Names};
use zk_tree::{Block, Param, Type};
use zk_typed::Refusal;
use zk_typed::script::{Stmt, ValueType};

/// The typed form of a body, and how many parameters and locals it has.
#[derive(Debug, Drop)]
pub struct Judged {
    pub made: Result<Stmt, Refusal>,
    pub locals: usize,
}

/// A type, where it isn't broken.
pub fn known_type(
    alloc: Global,
    names: &Names<'_>,
    home: Home<'_>,
    tree: &Type,
) -> Result<Option<ValueType>, Mem>
    ensures { IfOk result (λ one. known_or (option_map type_of one) ≡ resolving.hushed (resolving.type_of (scripts_in names.now) (home_of home.entry) tree.now)) }
{
    match names.type_of(alloc, home, tree) {
        Ok(one) => Ok(Some(one)),
        Err(Refusal::Broken(_)) => Ok(None),
        Err(Refusal::NoMemory) => Err(Mem),
    }
}

/// The parameters of a body, which are visible at its start.
fn param_locals<'a>(
    alloc: Global,
    names: &Names<'_>,
    home: Home<'_>,
    params: &'a [Param],
) -> Result<Locals<'a>, Mem>
    ensures { IfOk result (λ locals. locals_of locals ≡ spec.param_locals (scripts_in names.now) (home_of home.entry) params.entry.now) }
{
    let mut locals = Locals::new(alloc);
    for param in params {
        let value_type = known_type(alloc, names, home, &param.param_type)?;
        let name = param.name.text.as_slice();
        locals.add(alloc, LocalName { name, value_type })?;
    }
    Ok(locals)
}

/// A body by its parameters and its statements.
pub fn body_made<'a>(
    source: &Source<'a>,
    home: Home<'a>,
    within: Within<'_>,
    params: &'a [Param],
    block: &'a Block,
) -> Judged
    requires { IsSource source.now }
    ensures { IsJudged result (spec.body_made (scripts_from source.now) (home_of home.entry) (within_of within.entry) params.now block.now) }
{
    let Source {
        alloc,
        scripts,
        globals,
    } = *source;
    match param_locals(alloc, &scripts.names, home, params) {
        Ok(mut locals) => {
            let context = Context {
                alloc,
                scripts,
                home,
                globals,
                within,
                in_loop: false,
            };
            let made = body_typed(&context, &mut locals, block);
            Judged {
                made,
                locals: locals.len(),
            }
        }
        Err(_) => Judged {
            made: Err(Refusal::NoMemory),
            locals: 0,
        },
    }
}

/// The body of a function, by its parameters, its result and its statements.
pub fn function_body_made<'a>(
    source: &Source<'a>,
    home: Home<'a>,
    params: &'a [Param],
    result_type: &'a Option<Type>,
    block: &'a Block,
) -> Judged
    requires { IsSource source.now }
    ensures { IsJudged result (spec.body_made (scripts_from source.now) (home_of home.entry) (statement.InFunction (spec.result_wanted (scripts_from source.now) (home_of home.entry) result_type.now)) params.now block.now) }
{
    let Some(tree) = result_type else {
        return body_made(source, home, Within::Function(None), params, block);
    };
    match known_type(source.alloc, &source.scripts.names, home, tree) {
        Ok(Some(one)) => {
            let within = Within::Function(Some(Wanted::Type(&one)));
            body_made(source, home, within, params, block)
        }
        Ok(None) => {
            let within = Within::Function(Some(Wanted::Unclear));
            body_made(source, home, within, params, block)
        }
        Err(_) => Judged {
            made: Err(Refusal::NoMemory),
            locals: 0,
        },
    }
}
