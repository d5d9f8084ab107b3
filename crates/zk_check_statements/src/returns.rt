ghost use Rattle.std.specs.Prelude.{◌≡◌};
ghost use Rattle.zk_check_expressions.specs.Envs.{locals_of};
ghost use Rattle.zk_typed.specs.Statements as spec;
ghost use Rattle.zk_typed.specs.Tells.{Tells};
ghost use Rattle.zk_typed.specs.View.{stmt_of};
ghost use Rattle.zk_check_operators.specs.Views.{wanted_in};
ghost use Rattle.zk_check_statements.specs.Bodies.{context_of};
ghost use Rattle.zk_check_statements.specs.Returns.{given_back, nothing_back};

use crate::context::{Context, Within, check_in};
use zk_check_expressions::{Locals, refused};
use zk_check_operators::Wanted;
use zk_tree::{Expr, Place};
use zk_typed::script::Stmt;
use zk_typed::{Refusal, Rule, one_broken};

/// `return` in a function with a result.
#[tactic(auto, using(zk_check_operators::proofs::BothLaws::passed))]
fn return_given(
    context: &Context<'_, '_>,
    locals: &Locals<'_>,
    place: Place,
    wanted: Wanted<'_>,
    value: &Option<Expr>,
) -> Result<Stmt, Refusal>
    ensures { Tells stmt_of result (given_back (spec.check_in (context_of context.now) (locals_of locals.now)) place (wanted_in wanted.entry) value.now) }
{
    match value {
        Some(one) => match check_in(context, locals, wanted, one) {
            Ok(given) => Ok(Stmt::Return {
                place,
                value: Some(given.expr),
            }),
            Err(refusal) => Err(refusal),
        },
        None => Err(Refusal::Broken(one_broken(context.alloc, Rule::Return, place)?)),
    }
}

/// `return` in a body without a result.
#[tactic(auto, using(zk_check_expressions::proofs::Refusals::refused))]
fn return_alone(
    context: &Context<'_, '_>,
    locals: &Locals<'_>,
    place: Place,
    value: &Option<Expr>,
) -> Result<Stmt, Refusal>
    ensures { Tells stmt_of result (nothing_back (spec.check_in (context_of context.now) (locals_of locals.now)) place value.now) }
{
    match value {
        Some(one) => {
            let judged = check_in(context, locals, Wanted::Nothing, one);
            Err(refused(context.alloc, judged, Rule::Return, place))
        }
        None => Ok(Stmt::Return { place, value: None }),
    }
}

/// `return`, which has a value exactly where a result is declared.
pub fn return_stmt(
    context: &Context<'_, '_>,
    locals: &Locals<'_>,
    place: Place,
    value: &Option<Expr>,
) -> Result<Stmt, Refusal>
    ensures { Tells stmt_of result (spec.return_typed (context_of context.now) (spec.check_in (context_of context.now) (locals_of locals.now)) place value.now) }
{
    match context.within {
        Within::Function(given) => match given {
            Some(wanted) => return_given(context, locals, place, wanted, value),
            None => return_alone(context, locals, place, value),
        },
        Within::Hook => return_alone(context, locals, place, value),
        Within::Handler => return_alone(context, locals, place, value),
    }
}
