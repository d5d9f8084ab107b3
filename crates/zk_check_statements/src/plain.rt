ghost use Rattle.std.specs.Prelude.{ℕ, ◌<◌, IsTrue};
ghost use Rattle.zk_check_expressions.specs.Envs.{locals_of};
ghost use Rattle.zk_typed.specs.Statements as spec;
ghost use Rattle.zk_typed.specs.Tells.{Tells};
ghost use Rattle.zk_typed.specs.View.{stmt_of};
ghost use Rattle.zk_check_statements.specs.Acting.{is_plain};
ghost use Rattle.zk_check_statements.specs.Bodies.{context_of};

use crate::acting::print_stmt;
use crate::context::{Context, breaks, env_in, place_of};
use crate::elements::element_stmt;
use crate::events::{event_stmt, schedule_stmt};
use crate::expressions::expr_stmt;
use crate::made::{break_stmt, next_stmt, no_stmt};
use crate::returns::return_stmt;
use zk_check_expressions::Locals;
use zk_tree::Stmt as Syntax;
use zk_typed::Refusal;
use zk_typed::script::{Action, Stmt};

/// A statement that has no others within it, and declares no name.
pub fn plain_stmt(
    context: &Context<'_, '_>,
    locals: &Locals<'_>,
    one: &Syntax,
) -> Result<Stmt, Refusal>
    requires { IsTrue (is_plain one.now) }
    ensures { (depth : ℕ) → 0 < depth → Tells stmt_of result (spec.stmt_to depth (context_of context.now) (locals_of locals.now) one.now).made }
{
    let alloc = context.alloc;
    match one {
        Syntax::Empty { .. } => Ok(no_stmt(alloc)),
        Syntax::Print { place, values } => print_stmt(context, locals, *place, values.as_slice()),
        Syntax::Event { place, name, items } => {
            event_stmt(context, locals, *place, name, items.as_slice())
        }
        Syntax::Schedule {
            place,
            delay,
            name,
            items,
        } => schedule_stmt(context, locals, *place, delay, name, items.as_slice()),
        Syntax::Add { place, element } => {
            element_stmt(context, locals, *place, Action::Add, false, element)
        }
        Syntax::Delete { place, element } => {
            element_stmt(context, locals, *place, Action::Delete, true, element)
        }
        Syntax::Return { place, value } => {
            return_stmt(context, locals, place_of(context, *place), value)
        }
        Syntax::Next { place } => next_stmt(alloc, place_of(context, *place), context.in_loop),
        Syntax::Break { place } => break_stmt(alloc, place_of(context, *place), breaks(context)),
        Syntax::Expr { value } => expr_stmt(alloc, &env_in(context, locals), value),
        Syntax::Block { .. }
        | Syntax::If { .. }
        | Syntax::IfElse { .. }
        | Syntax::While { .. }
        | Syntax::For { .. }
        | Syntax::Local { .. } => unreachable!(),
    }
}
