ghost use Rattle.std.specs.Prelude.{◌≡◌, ◌++◌, OnOk, IfOk};
ghost use Rattle.std.specs.Option.{option_copied};
ghost use Rattle.zk_tree.specs.declared.decl.Decl.{out-Decl};
ghost use Rattle.zk_typed.specs.LogCalls as spec;
ghost use Rattle.zk_scope.specs.Calls.{all_exprs_calls, all_items_calls, calls_lent, stmts_calls};
ghost use Rattle.zk_scope.specs.Lent.{home_of};

use crate::calls::{Call, add_expr_calls, item_expr};
use crate::home::{Home, Stated};
use std::alloc::Global;
use zk_base::Mem;
use zk_tree::{Block, Decl, Expr, Init, Item, Stmt};

/// Adds the calls in a whole expression.
#[tactic(auto, unfolding(zk_typed::specs::Within::depth_max))]
fn add_calls<'a>(home: Home<'a>, one: &'a Expr, found: &mut Vec<Call<'a>>) -> Result<(), Mem>
    ensures { OnOk result (calls_lent found.new.items ≡ calls_lent found.old.items ++ spec.expr_calls (home_of home.entry) one.entry.now) }
{
    add_expr_calls(u64::MAX, home, one, found)
}

/// Adds the calls in an expression that may be there.
fn add_maybe_calls<'a>(
    home: Home<'a>,
    one: Option<&'a Expr>,
    found: &mut Vec<Call<'a>>,
) -> Result<(), Mem>
    ensures { OnOk result (calls_lent found.new.items ≡ calls_lent found.old.items ++ spec.maybe_calls (home_of home.entry) (option_copied one.entry)) }
{
    match one {
        Some(one) => add_calls(home, one, found),
        None => Ok(()),
    }
}

/// Adds the calls in expressions.
fn add_all_exprs<'a>(home: Home<'a>, ones: &'a [Expr], found: &mut Vec<Call<'a>>) -> Result<(), Mem>
    ensures { OnOk result (calls_lent found.new.items ≡ calls_lent found.old.items ++ all_exprs_calls (home_of home.entry) ones.entry.now) }
{
    for one in ones {
        add_calls(home, one, found)?;
    }
    Ok(())
}

/// Adds the calls in arguments.
fn add_all_items<'a>(
    home: Home<'a>,
    items: &'a [Item],
    found: &mut Vec<Call<'a>>,
) -> Result<(), Mem>
    ensures { OnOk result (calls_lent found.new.items ≡ calls_lent found.old.items ++ all_items_calls (home_of home.entry) items.entry.now) }
{
    for item in items {
        add_calls(home, item_expr(item), found)?;
    }
    Ok(())
}

/// Adds the calls in an initial value that may be there.
fn add_init_calls<'a>(
    home: Home<'a>,
    init: Option<&'a Init>,
    found: &mut Vec<Call<'a>>,
) -> Result<(), Mem>
    ensures { OnOk result (calls_lent found.new.items ≡ calls_lent found.old.items ++ spec.init_calls (home_of home.entry) (option_copied init.entry)) }
{
    match init {
        Some(Init::Value { value }) => add_calls(home, value, found),
        Some(Init::Braces { values, .. }) => add_all_exprs(home, values.as_slice(), found),
        None => Ok(()),
    }
}

/// Adds the calls in a statement, as deep as this, in the order of the text.
#[cycle(stating)]
#[tactic(auto, using(crate::proofs::StatementCallLaws::in_local, crate::proofs::StatementCallLaws::in_print, crate::proofs::StatementCallLaws::in_event, crate::proofs::StatementCallLaws::in_schedule, crate::proofs::StatementCallLaws::in_add, crate::proofs::StatementCallLaws::in_delete, crate::proofs::StatementCallLaws::in_return, crate::proofs::StatementCallLaws::in_value))]
fn add_stmt_calls<'a>(
    depth: u64,
    home: Home<'a>,
    one: &'a Stmt,
    found: &mut Vec<Call<'a>>,
) -> Result<(), Mem>
    ensures { OnOk result (calls_lent found.new.items ≡ calls_lent found.old.items ++ spec.stmt_calls_to depth (home_of home.entry) one.entry.now) }
{
    if depth == 0 {
        return Ok(());
    }
    let depth = depth - 1;
    match one {
        Stmt::Block { block } => add_stmts_calls(depth, home, block.stmts.as_slice(), found),
        Stmt::If { test, yes, .. } => {
            add_calls(home, test, found)?;
            add_stmt_calls(depth, home, yes.get(), found)
        }
        Stmt::IfElse { test, yes, no, .. } => {
            add_calls(home, test, found)?;
            add_stmt_calls(depth, home, yes.get(), found)?;
            add_stmt_calls(depth, home, no.get(), found)
        }
        Stmt::While { test, body, .. } => {
            add_calls(home, test, found)?;
            add_stmt_calls(depth, home, body.get(), found)
        }
        Stmt::For { over, body, .. } => {
            add_calls(home, over, found)?;
            add_stmt_calls(depth, home, body.get(), found)
        }
        Stmt::Local { init, .. } => add_init_calls(home, init.as_ref(), found),
        Stmt::Print { values, .. } => add_all_exprs(home, values.as_slice(), found),
        Stmt::Event { items, .. } => add_all_items(home, items.as_slice(), found),
        Stmt::Schedule { delay, items, .. } => {
            add_calls(home, delay, found)?;
            add_all_items(home, items.as_slice(), found)?;
            Ok(())
        }
        Stmt::Add { element, .. } => add_calls(home, element, found),
        Stmt::Delete { element, .. } => add_calls(home, element, found),
        Stmt::Return { value, .. } => add_maybe_calls(home, value.as_ref(), found),
        Stmt::Expr { value } => add_calls(home, value, found),
        Stmt::Empty { .. } | Stmt::Next { .. } | Stmt::Break { .. } => Ok(()),
    }
}

/// Adds the calls in statements.
#[cycle(stating)]
fn add_stmts_calls<'a>(
    depth: u64,
    home: Home<'a>,
    stmts: &'a [Stmt],
    found: &mut Vec<Call<'a>>,
) -> Result<(), Mem>
    ensures { OnOk result (calls_lent found.new.items ≡ calls_lent found.old.items ++ stmts_calls depth (home_of home.entry) stmts.entry.now) }
{
    for stmt in stmts {
        add_stmt_calls(depth, home, stmt, found)?;
    }
    Ok(())
}

/// Adds the calls in a block.
#[tactic(auto, unfolding(zk_typed::specs::Within::depth_max))]
fn add_block_calls<'a>(
    home: Home<'a>,
    block: &'a Block,
    found: &mut Vec<Call<'a>>,
) -> Result<(), Mem>
    ensures { OnOk result (calls_lent found.new.items ≡ calls_lent found.old.items ++ spec.block_calls (home_of home.entry) block.entry.now) }
{
    add_stmts_calls(u64::MAX, home, block.stmts.as_slice(), found)
}

/// Adds the calls in a declaration, in the order of the text.
fn add_decl_calls<'a>(one: Stated<'a>, found: &mut Vec<Call<'a>>) -> Result<(), Mem>
    ensures { OnOk result (calls_lent found.new.items ≡ calls_lent found.old.items ++ spec.decl_calls (home_of one.entry.home) (out-Decl one.entry.decl.now)) }
{
    let home = one.home;
    match one.decl {
        Decl::Variable { init, .. } => add_init_calls(home, init.as_ref(), found),
        Decl::Redef { init, .. } => add_init_calls(home, Some(init), found),
        Decl::Body { body, .. } => add_block_calls(home, body, found),
        Decl::Function { body, .. } => add_block_calls(home, body, found),
        Decl::Module { .. }
        | Decl::Export { .. }
        | Decl::Load { .. }
        | Decl::RedefEnum { .. }
        | Decl::RedefRecord { .. }
        | Decl::Type { .. } => Ok(()),
    }
}

/// The calls in a declaration, in the order of the text.
pub fn decl_calls<'a>(alloc: Global, one: Stated<'a>) -> Result<Vec<Call<'a>>, Mem>
    ensures { IfOk result (λ found. calls_lent found.items ≡ spec.decl_calls (home_of one.entry.home) (out-Decl one.entry.decl.now)) }
{
    let mut found = Vec::new(alloc);
    add_decl_calls(one, &mut found)?;
    Ok(found)
}
