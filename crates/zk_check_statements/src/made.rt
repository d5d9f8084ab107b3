ghost use Rattle.std.specs.Prelude.{◌≡◌, IfOk};
ghost use Rattle.zk_tree.specs.declared.name.Name.{Name as SyntaxName};
ghost use Rattle.zk_typed.specs.Forms as form;
ghost use Rattle.zk_typed.specs.Statements as spec;
ghost use Rattle.zk_typed.specs.Tells.{Tells};
ghost use Rattle.zk_typed.specs.View.{all_of, expr_of, stmt_of};
ghost use Rattle.zk_check_statements.specs.Blocks.{all_stated};
ghost use Rattle.zk_check_statements.specs.Steps.{next_where, break_where};

use sqlite_items::{Boxed, Items};
use std::alloc::{AllocError, Global};
use zk_base::Sequence;
use zk_tree::Place;
use zk_typed::script::{Action, Expr, Names, Stmt};
use zk_typed::{Refusal, Rule, one_broken};

/// An action and its operands.
#[tactic(auto, using(crate::proofs::Stated::do_is))]
pub fn done(place: Place, action: Action, operands: Items<Expr>) -> Stmt
    ensures { stmt_of result ≡ form.Do place action (all_of operands) }
{
    Stmt::Do {
        place,
        action,
        operands,
    }
}

/// Statements in braces.
#[tactic(auto, using(crate::proofs::Stated::block_is))]
pub fn block(stmts: Items<Stmt>) -> Stmt
    ensures { stmt_of result ≡ form.Block (all_stated stmts) }
{
    Stmt::Block(stmts)
}

/// What stands for `;`.
#[tactic(auto, using(crate::proofs::Stated::block_is))]
pub fn no_stmt(alloc: Global) -> Stmt
    ensures { stmt_of result ≡ spec.no_stmt }
{
    Stmt::Block(Items::new(alloc))
}

/// `if (test) yes else no`
#[tactic(auto, using(crate::proofs::Stated::if_is))]
pub fn choice(place: Place, test: Expr, yes: Boxed<Stmt>, no: Boxed<Stmt>) -> Stmt
    ensures { stmt_of result ≡ form.If place (expr_of test) (stmt_of yes) (stmt_of no) }
{
    Stmt::If {
        place,
        test,
        yes,
        no,
    }
}

/// `while (test) body`
#[tactic(auto, using(crate::proofs::Stated::while_is))]
pub fn while_loop(alloc: Global, place: Place, test: Expr, body: Stmt) -> Result<Stmt, AllocError>
    ensures { IfOk result (λ made. stmt_of made ≡ form.While place (expr_of test) (stmt_of body)) }
{
    match Boxed::new(alloc, body) {
        Ok(body) => Ok(Stmt::While { place, test, body }),
        Err(refused) => {
            drop(test);
            Err(refused)
        }
    }
}

/// `for` over the keys of a table or a set.
#[tactic(auto, using(crate::proofs::Stated::for_keys_is))]
pub fn key_loop(
    alloc: Global,
    place: Place,
    names: Names,
    over: Expr,
    body: Stmt,
) -> Result<Stmt, AllocError>
    ensures { IfOk result (λ made. stmt_of made ≡ form.ForKeys place names (expr_of over) (stmt_of body)) }
{
    match Boxed::new(alloc, body) {
        Ok(body) => Ok(Stmt::ForKeys {
            place,
            names,
            over,
            body,
        }),
        Err(refused) => {
            drop(over);
            Err(refused)
        }
    }
}

/// `for` over the indexes of a vector.
#[tactic(auto, using(crate::proofs::Stated::for_indexes_is))]
pub fn index_loop(
    alloc: Global,
    place: Place,
    names: Names,
    over: Expr,
    body: Stmt,
) -> Result<Stmt, AllocError>
    ensures { IfOk result (λ made. stmt_of made ≡ form.ForIndexes place names (expr_of over) (stmt_of body)) }
{
    match Boxed::new(alloc, body) {
        Ok(body) => Ok(Stmt::ForIndexes {
            place,
            names,
            over,
            body,
        }),
        Err(refused) => {
            drop(over);
            Err(refused)
        }
    }
}

/// `next;`, which stands in a loop.
pub fn next_stmt(alloc: Global, place: Place, in_loop: bool) -> Result<Stmt, Refusal>
    ensures { Tells stmt_of result (next_where in_loop place) }
{
    if in_loop {
        Ok(Stmt::Next { place })
    } else {
        Err(Refusal::Broken(one_broken(alloc, Rule::Break, place)?))
    }
}

/// `break;`, which stands in a loop or a hook.
pub fn break_stmt(alloc: Global, place: Place, breaks: bool) -> Result<Stmt, Refusal>
    ensures { Tells stmt_of result (break_where breaks place) }
{
    if breaks {
        Ok(Stmt::Break { place })
    } else {
        Err(Refusal::Broken(one_broken(alloc, Rule::Break, place)?))
    }
}

/// The locals of a `for` that names no value.
pub fn key_names(numbers: Vec<u32>) -> Names
    ensures { result ≡ spec.as_names None numbers.items }
{
    Names {
        keys: Sequence::from(numbers),
        value: None,
    }
}

/// The locals of a `for`, the last of which takes the value of an entry or item.
#[tactic(auto, using(crate::proofs::Stated::names_are))]
pub fn key_and_value_names(mut numbers: Vec<u32>) -> Names
    ensures { (name : SyntaxName) → result ≡ spec.as_names (Some name) numbers.items }
{
    match numbers.pop() {
        Some(last) => Names {
            keys: Sequence::from(numbers),
            value: Some(last),
        },
        None => Names {
            keys: Sequence::from(numbers),
            value: None,
        },
    }
}
