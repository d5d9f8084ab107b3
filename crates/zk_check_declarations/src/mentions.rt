//! The names in initial values, as a hint of what their types rest on.
use std::alloc::Global;
use zk_base::Mem;
use zk_scope::item_expr;
use zk_tree::{Expr, Init, Item, Link, Name, Part};

/// Adds the names in an expression, as deep as this.
#[cycle(mentioning)]
fn add_expr_names<'a>(depth: u64, one: &'a Expr, found: &mut Vec<&'a Name>) -> Result<(), Mem> {
    if depth == 0 {
        return Ok(());
    }
    let depth = depth - 1;
    match one {
        Expr::Name { name } => {
            found.push(name)?;
            Ok(())
        }
        Expr::Assign { left, right, .. } => add_pair_names(depth, left.get(), right.get(), found),
        Expr::Choice { test, yes, no } => {
            add_expr_names(depth, test.get(), found)?;
            add_pair_names(depth, yes.get(), no.get(), found)
        }
        Expr::Chain { first, others, .. } => {
            add_expr_names(depth, first.get(), found)?;
            add_links_names(depth, others.as_slice(), found)
        }
        Expr::Compare { left, right, .. } => add_pair_names(depth, left.get(), right.get(), found),
        Expr::Unary { operand, .. } => add_expr_names(depth, operand.get(), found),
        Expr::Post { first, parts } => {
            add_expr_names(depth, first.get(), found)?;
            add_parts_names(depth, parts.as_slice(), found)
        }
        Expr::Parenthesis { inner, .. } => add_expr_names(depth, inner.get(), found),
        Expr::Size { inner, .. } => add_expr_names(depth, inner.get(), found),
        Expr::List { items, .. } => add_items_names(depth, items.as_slice(), found),
        Expr::Make { items, .. } => add_items_names(depth, items.as_slice(), found),
        Expr::Hook { items, .. } => add_items_names(depth, items.as_slice(), found),
        Expr::Number { .. } | Expr::Interval { .. } | Expr::Literal { .. } | Expr::Truth { .. } =>
            Ok(()),
    }
}

/// Adds the names in two expressions.
#[cycle(mentioning)]
fn add_pair_names<'a>(
    depth: u64,
    first: &'a Expr,
    second: &'a Expr,
    found: &mut Vec<&'a Name>,
) -> Result<(), Mem> {
    add_expr_names(depth, first, found)?;
    add_expr_names(depth, second, found)
}

/// Adds the names in expressions.
#[cycle(mentioning)]
fn add_exprs_names<'a>(depth: u64, ones: &'a [Expr], found: &mut Vec<&'a Name>) -> Result<(), Mem> {
    for one in ones {
        add_expr_names(depth, one, found)?;
    }
    Ok(())
}

/// Adds the names in arguments.
#[cycle(mentioning)]
fn add_items_names<'a>(
    depth: u64,
    items: &'a [Item],
    found: &mut Vec<&'a Name>,
) -> Result<(), Mem> {
    for item in items {
        add_expr_names(depth, item_expr(item), found)?;
    }
    Ok(())
}

/// Adds the names in the operands of a chain.
#[cycle(mentioning)]
fn add_links_names<'a>(
    depth: u64,
    links: &'a [Link],
    found: &mut Vec<&'a Name>,
) -> Result<(), Mem> {
    for link in links {
        add_expr_names(depth, &link.operand, found)?;
    }
    Ok(())
}

/// Adds the names in what stands behind an expression.
#[cycle(mentioning)]
fn add_part_names<'a>(depth: u64, part: &'a Part, found: &mut Vec<&'a Name>) -> Result<(), Mem> {
    match part {
        Part::Index { keys } => add_exprs_names(depth, keys.as_slice(), found),
        Part::Call { items } => add_items_names(depth, items.as_slice(), found),
        Part::Field { name: _ } => Ok(()),
        Part::HasField { name: _ } => Ok(()),
    }
}

/// Adds the names in the parts behind an expression.
#[cycle(mentioning)]
fn add_parts_names<'a>(
    depth: u64,
    parts: &'a [Part],
    found: &mut Vec<&'a Name>,
) -> Result<(), Mem> {
    for part in parts {
        add_part_names(depth, part, found)?;
    }
    Ok(())
}

/// The names in an initial value, for a hint: nothing is promised of them.
pub fn mentioned<'a>(alloc: Global, init: &'a Init) -> Result<Vec<&'a Name>, Mem> {
    let mut found = Vec::new(alloc);
    match init {
        Init::Value { value } => add_expr_names(u64::MAX, value, &mut found)?,
        Init::Braces { values, .. } => {
            add_exprs_names(u64::MAX, values.as_slice(), &mut found)?;
        }
    }
    Ok(found)
}
