ghost use Rattle.std.specs.Prelude.{◌≡◌, IfOk};
ghost use Rattle.zk_check_operators.specs.Gather.{Told};
ghost use Rattle.zk_check_operators.specs.Views.{typed_of};
ghost use Rattle.zk_typed.specs.Checked.{Checked};
ghost use Rattle.zk_typed.specs.Forms as form;
ghost use Rattle.zk_typed.specs.Tells.{Tells};
ghost use Rattle.zk_typed.specs.Typing as typing;
ghost use Rattle.zk_typed.specs.View.{expr_of, stmt_of};
ghost use Rattle.zk_check_statements.specs.Bodies.{if_of, while_of};

use crate::made::{choice, while_loop};
use sqlite_items::Boxed;
use std::alloc::{AllocError, Global};
use zk_check_operators::{Typed, both};
use zk_tree::Place;
use zk_typed::Refusal;
use zk_typed::script::{Expr, Stmt};

/// `if` of right parts.
fn choice_of(
    alloc: Global,
    place: Place,
    test: Expr,
    yes: Stmt,
    no: Stmt,
) -> Result<Stmt, AllocError>
    ensures { IfOk result (λ made. stmt_of made ≡ form.If place (expr_of test) (stmt_of yes) (stmt_of no)) }
{
    let yes = Boxed::new(alloc, yes);
    let no = Boxed::new(alloc, no);
    match yes {
        Ok(yes) => match no {
            Ok(no) => Ok(choice(place, test, yes, no)),
            Err(refused) => {
                drop(test);
                Err(refused)
            }
        },
        Err(refused) => {
            drop(test);
            Err(refused)
        }
    }
}

/// `if` of its parts, or what is broken in them.
pub fn if_made(
    alloc: Global,
    place: Place,
    test: Result<Typed, Refusal>,
    yes: Result<Stmt, Refusal>,
    no: Result<Stmt, Refusal>,
) -> Result<Stmt, Refusal>
    ensures made { (c : Checked typing.Typed) (a : Checked form.Stmt) (b : Checked form.Stmt) → Tells typed_of test c → Tells stmt_of yes a → Tells stmt_of no b → Tells stmt_of result (if_of place c a b) }
    ensures known { Told result → Told test × Told yes × Told no }
{
    let arms = both(yes, no);
    match both(test, arms) {
        Ok((test, arms)) => {
            let (yes, no) = arms;
            match choice_of(alloc, place, test.expr, yes, no) {
                Ok(made) => Ok(made),
                Err(_) => Err(Refusal::NoMemory),
            }
        }
        Err(refusal) => Err(refusal),
    }
}

/// `while` of its parts, or what is broken in them.
pub fn while_made(
    alloc: Global,
    place: Place,
    test: Result<Typed, Refusal>,
    body: Result<Stmt, Refusal>,
) -> Result<Stmt, Refusal>
    ensures made { (c : Checked typing.Typed) (a : Checked form.Stmt) → Tells typed_of test c → Tells stmt_of body a → Tells stmt_of result (while_of place c a) }
    ensures known { Told result → Told test × Told body }
{
    match both(test, body) {
        Ok((test, body)) => match while_loop(alloc, place, test.expr, body) {
            Ok(made) => Ok(made),
            Err(_) => Err(Refusal::NoMemory),
        },
        Err(refusal) => Err(refusal),
    }
}
