ghost use Rattle.std.specs.Prelude.{◌≡◌, List, IfOk};
ghost use Rattle.zk_check_expressions.specs.Envs.{locals_of};
ghost use Rattle.zk_check_operators.specs.Views.{all_typed, typed_of};
ghost use Rattle.zk_typed.specs.Checked.{Checked};
ghost use Rattle.zk_typed.specs.Forms as form;
ghost use Rattle.zk_typed.specs.Tells.{Tells};
ghost use Rattle.zk_typed.specs.Typing as typing;
ghost use Rattle.zk_typed.specs.View.{all_of, expr_of, stmt_of};
ghost use Rattle.zk_check_statements.specs.Acting.{acted, print_of};
ghost use Rattle.zk_check_statements.specs.Bodies.{context_of};

use crate::context::{Context, env_in, place_of};
use crate::made::done;
use sqlite_items::Items;
use std::alloc::{AllocError, Global};
use zk_check_expressions::{Locals, each_printed};
use zk_check_operators::{Typed, operands_of};
use zk_tree::{Expr as Syntax, Place};
use zk_typed::Refusal;
use zk_typed::script::{Action, Expr, Stmt};

/// An action of operands, or what is broken in them.
#[tactic(auto, using(zk_check_operators::proofs::BothLaws::passed))]
pub fn do_with(
    alloc: Global,
    place: Place,
    action: Action,
    operands: Result<Vec<Typed>, Refusal>,
) -> Result<Stmt, Refusal>
    ensures { (wanted : Checked (List typing.Typed)) → Tells all_typed operands wanted → Tells stmt_of result (acted place action wanted) }
{
    match operands {
        Ok(operands) => Ok(done(place, action, operands_of(alloc, operands)?)),
        Err(refusal) => Err(refusal),
    }
}

/// An operand, and others behind it.
pub fn with_first(
    alloc: Global,
    first: Expr,
    others: Items<Expr>,
) -> Result<Items<Expr>, AllocError>
    ensures { IfOk result (λ all. all_of all ≡ form.AndExpr (expr_of first) (all_of others)) }
{
    let mut all = Items::new(alloc);
    all.push(first)?;
    all.append(others)?;
    Ok(all)
}

/// `print`
pub fn print_stmt(
    context: &Context<'_, '_>,
    locals: &Locals<'_>,
    place: u64,
    values: &[Syntax],
) -> Result<Stmt, Refusal>
    ensures { Tells stmt_of result (print_of (context_of context.now) (locals_of locals.now) place values.now) }
{
    let values = each_printed(context.alloc, &env_in(context, locals), values);
    do_with(
        context.alloc,
        place_of(context, place),
        Action::Print,
        values,
    )
}
