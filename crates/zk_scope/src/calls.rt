ghost use Rattle.std.specs.Prelude.{◌≡◌, ◌++◌, OnOk};
ghost use Rattle.zk_typed.specs.LogCalls as spec;
ghost use Rattle.zk_scope.specs.Calls.{calls_lent, exprs_calls, items_calls, links_calls, part_calls, parts_calls};
ghost use Rattle.zk_scope.specs.Lent.{home_of};

use crate::home::Home;
use zk_base::Mem;
use zk_tree::{Expr, Item, Link, Name, Part};

/// A call of a name, where it stands, and the whole expression.
#[derive(Clone, Copy)]
pub struct Call<'a> {
    pub home: Home<'a>,
    pub whole: &'a Expr,
    pub name: &'a Name,
    pub items: &'a [Item],
}

/// The expression of an argument.
pub fn item_expr(item: &Item) -> &Expr
    ensures { result.now ≡ spec.item_expr item.now }
{
    match item {
        Item::Value { value } => value,
        Item::Field { value, .. } => value,
    }
}

/// Adds the call that an expression with parts begins with.
fn add_named_call<'a>(
    home: Home<'a>,
    whole: &'a Expr,
    first: &'a Expr,
    parts: &'a [Part],
    found: &mut Vec<Call<'a>>,
) -> Result<(), Mem>
    ensures { OnOk result (calls_lent found.new.items ≡ calls_lent found.old.items ++ spec.named_call (home_of home.entry) whole.entry.now first.entry.now parts.entry.now) }
{
    let Some(part) = parts.first() else {
        return Ok(());
    };
    match first {
        Expr::Name { name } => match part {
            Part::Call { items } => {
                found.push(Call {
                    home,
                    whole,
                    name,
                    items: items.as_slice(),
                })?;
                Ok(())
            }
            Part::Field { .. } | Part::HasField { .. } | Part::Index { .. } => Ok(()),
        },
        Expr::Assign { .. }
        | Expr::Choice { .. }
        | Expr::Chain { .. }
        | Expr::Compare { .. }
        | Expr::Unary { .. }
        | Expr::Post { .. }
        | Expr::Number { .. }
        | Expr::Interval { .. }
        | Expr::Literal { .. }
        | Expr::Truth { .. }
        | Expr::Parenthesis { .. }
        | Expr::Size { .. }
        | Expr::List { .. }
        | Expr::Make { .. }
        | Expr::Hook { .. } => Ok(()),
    }
}

/// Adds the calls in an expression, as deep as this, in the order of the text.
#[cycle(calling)]
pub fn add_expr_calls<'a>(
    depth: u64,
    home: Home<'a>,
    one: &'a Expr,
    found: &mut Vec<Call<'a>>,
) -> Result<(), Mem>
    ensures { OnOk result (calls_lent found.new.items ≡ calls_lent found.old.items ++ spec.expr_calls_to depth (home_of home.entry) one.entry.now) }
{
    if depth == 0 {
        return Ok(());
    }
    let depth = depth - 1;
    match one {
        Expr::Assign { left, right, .. } => {
            add_expr_calls(depth, home, left.get(), found)?;
            add_expr_calls(depth, home, right.get(), found)
        }
        Expr::Choice { test, yes, no } => {
            add_expr_calls(depth, home, test.get(), found)?;
            add_expr_calls(depth, home, yes.get(), found)?;
            add_expr_calls(depth, home, no.get(), found)
        }
        Expr::Chain { first, others, .. } => {
            add_expr_calls(depth, home, first.get(), found)?;
            add_links_calls(depth, home, others.as_slice(), found)
        }
        Expr::Compare { left, right, .. } => {
            add_expr_calls(depth, home, left.get(), found)?;
            add_expr_calls(depth, home, right.get(), found)
        }
        Expr::Unary { operand, .. } => add_expr_calls(depth, home, operand.get(), found),
        Expr::Post { first, parts } => {
            add_named_call(home, one, first.get(), parts.as_slice(), found)?;
            add_expr_calls(depth, home, first.get(), found)?;
            add_parts_calls(depth, home, parts.as_slice(), found)?;
            Ok(())
        }
        Expr::Parenthesis { inner, .. } => add_expr_calls(depth, home, inner.get(), found),
        Expr::Size { inner, .. } => add_expr_calls(depth, home, inner.get(), found),
        Expr::List { items, .. } => add_items_calls(depth, home, items.as_slice(), found),
        Expr::Make { items, .. } => add_items_calls(depth, home, items.as_slice(), found),
        Expr::Hook { items, .. } => add_items_calls(depth, home, items.as_slice(), found),
        Expr::Number { .. }
        | Expr::Interval { .. }
        | Expr::Literal { .. }
        | Expr::Truth { .. }
        | Expr::Name { .. } => Ok(()),
    }
}

/// Adds the calls in expressions.
#[cycle(calling)]
fn add_exprs_calls<'a>(
    depth: u64,
    home: Home<'a>,
    ones: &'a [Expr],
    found: &mut Vec<Call<'a>>,
) -> Result<(), Mem>
    ensures { OnOk result (calls_lent found.new.items ≡ calls_lent found.old.items ++ exprs_calls (spec.expr_calls_to depth (home_of home.entry)) ones.entry.now) }
{
    for one in ones {
        add_expr_calls(depth, home, one, found)?;
    }
    Ok(())
}

/// Adds the calls in arguments.
#[cycle(calling)]
fn add_items_calls<'a>(
    depth: u64,
    home: Home<'a>,
    items: &'a [Item],
    found: &mut Vec<Call<'a>>,
) -> Result<(), Mem>
    ensures { OnOk result (calls_lent found.new.items ≡ calls_lent found.old.items ++ items_calls (spec.expr_calls_to depth (home_of home.entry)) items.entry.now) }
{
    for item in items {
        add_expr_calls(depth, home, item_expr(item), found)?;
    }
    Ok(())
}

/// Adds the calls in the operands of a chain.
#[cycle(calling)]
fn add_links_calls<'a>(
    depth: u64,
    home: Home<'a>,
    links: &'a [Link],
    found: &mut Vec<Call<'a>>,
) -> Result<(), Mem>
    ensures { OnOk result (calls_lent found.new.items ≡ calls_lent found.old.items ++ links_calls (spec.expr_calls_to depth (home_of home.entry)) links.entry.now) }
{
    for link in links {
        add_expr_calls(depth, home, &link.operand, found)?;
    }
    Ok(())
}

/// Adds the calls in what stands behind an expression.
#[cycle(calling)]
#[tactic(auto, using(crate::proofs::CallLaws::in_index, crate::proofs::CallLaws::in_call, crate::proofs::CallLaws::in_field, crate::proofs::CallLaws::in_test))]
fn add_part_calls<'a>(
    depth: u64,
    home: Home<'a>,
    part: &'a Part,
    found: &mut Vec<Call<'a>>,
) -> Result<(), Mem>
    ensures { OnOk result (calls_lent found.new.items ≡ calls_lent found.old.items ++ part_calls depth (home_of home.entry) part.entry.now) }
{
    match part {
        Part::Index { keys } => add_exprs_calls(depth, home, keys.as_slice(), found),
        Part::Call { items } => add_items_calls(depth, home, items.as_slice(), found),
        Part::Field { name: _ } => Ok(()),
        Part::HasField { name: _ } => Ok(()),
    }
}

/// Adds the calls in the parts behind an expression.
#[cycle(calling)]
fn add_parts_calls<'a>(
    depth: u64,
    home: Home<'a>,
    parts: &'a [Part],
    found: &mut Vec<Call<'a>>,
) -> Result<(), Mem>
    ensures { OnOk result (calls_lent found.new.items ≡ calls_lent found.old.items ++ parts_calls depth (home_of home.entry) parts.entry.now) }
{
    for part in parts {
        add_part_calls(depth, home, part, found)?;
    }
    Ok(())
}
