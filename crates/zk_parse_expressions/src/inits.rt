ghost use Rattle.std.specs.Prelude.{◌≡◌};
ghost use Rattle.zk_tree.specs.declared.keyword.Mark.TheVariants as mark;
ghost use Rattle.zk_tree.specs.declared.token.Sign.TheVariants as sign;
ghost use Rattle.zk_tree.specs.Grammar as grammar;
ghost use Rattle.zk_tree.specs.Rules.{After};
ghost use Rattle.zk_parse_core.specs.Reading.{Gives, read, within};

use crate::expr::{Counted, Exprs};
use crate::operands::nested_expr;
use crate::types::nested_type;
use sqlite_items::Items;
use std::alloc::Global;
use zk_parse_core::{FormFault, Tokens, listed, trailing};
use zk_tree::{Expr, Init, Item, Name, Sign, Type};

/// One or more expressions, with commas between.
#[tactic(auto, unfolding(zk_tree::specs::Grammar::some_exprs))]
pub fn exprs(alloc: Global, tokens: &mut Tokens<'_>, depth: u64) -> Result<Items<Expr>, FormFault>
    ensures { Gives (read (within depth) grammar.some_exprs tokens.old) result tokens.new }
{
    let exprs = Exprs {
        alloc,
        depth,
        nested: nested_expr,
    };
    listed(alloc, &exprs, tokens)
}

/// `NAME(..)`
#[tactic(auto, unfolding(zk_tree::specs::Grammar::named_args))]
pub fn named_args(
    alloc: Global,
    tokens: &mut Tokens<'_>,
    depth: u64,
) -> Result<(Name, Items<Item>), FormFault>
    ensures { Gives (read (within depth) grammar.named_args tokens.old) result tokens.new }
{
    let name = tokens.name(alloc)?;
    let exprs = Exprs {
        alloc,
        depth,
        nested: nested_expr,
    };
    let items = exprs.args(tokens)?;
    Ok((name, items))
}

/// `a, b` before a closing brace, or nothing.
#[tactic(auto, unfolding(zk_tree::specs::Grammar::brace_values))]
fn brace_values(
    alloc: Global,
    tokens: &mut Tokens<'_>,
    depth: u64,
) -> Result<(Items<Expr>, bool), FormFault>
    ensures { Gives (read (within depth) grammar.brace_values tokens.old) result tokens.new }
{
    if tokens.begins(Sign::CloseBrace) {
        tokens.sign(Sign::CloseBrace)?;
        return Ok((Items::new(alloc), false));
    }
    let exprs = Exprs {
        alloc,
        depth,
        nested: nested_expr,
    };
    trailing(alloc, &exprs, tokens)
}

/// `{ a, b, }`
#[tactic(auto, unfolding(zk_tree::specs::Grammar::braces))]
fn braces(alloc: Global, tokens: &mut Tokens<'_>, depth: u64) -> Result<Init, FormFault>
    ensures { Gives (read (within depth) grammar.braces tokens.old) result tokens.new }
{
    let place = tokens.place();
    tokens.sign(Sign::OpenBrace)?;
    let (values, comma) = brace_values(alloc, tokens, depth)?;
    Ok(Init::Braces {
        place,
        values,
        comma,
    })
}

/// An initial value.
#[tactic(auto, unfolding(zk_tree::specs::Grammar::initial, zk_tree::specs::Grammar::braces))]
pub fn initial(alloc: Global, tokens: &mut Tokens<'_>, depth: u64) -> Result<Init, FormFault>
    ensures { Gives (read (within depth) grammar.initial tokens.old) result tokens.new }
{
    if tokens.begins(Sign::OpenBrace) {
        return braces(alloc, tokens, depth);
    }
    let value = nested_expr(alloc, tokens, depth, Counted::Expr)?;
    Ok(Init::Value { value })
}

/// `NAME`, `NAME: TYPE`
#[tactic(auto, unfolding(zk_tree::specs::Grammar::perhaps_typed))]
fn perhaps_typed(
    alloc: Global,
    tokens: &mut Tokens<'_>,
    depth: u64,
) -> Result<(Name, Option<Type>), FormFault>
    ensures { Gives (read (within depth) grammar.perhaps_typed tokens.old) result tokens.new }
{
    let name = tokens.name(alloc)?;
    if !tokens.begins(Sign::Colon) {
        return Ok((name, None));
    }
    tokens.sign(Sign::Colon)?;
    let typed = nested_type(alloc, tokens, depth)?;
    Ok((name, Some(typed)))
}

/// `= INIT`
fn given(alloc: Global, tokens: &mut Tokens<'_>, depth: u64) -> Result<Init, FormFault>
    ensures { Gives (read (within depth) (After (mark.Sign sign.Equal) grammar.initial) tokens.old) result tokens.new }
{
    tokens.sign(Sign::Equal)?;
    initial(alloc, tokens, depth)
}

/// `NAME`, `NAME: TYPE`, `NAME = INIT`, `NAME: TYPE = INIT`
#[tactic(auto, unfolding(zk_tree::specs::Grammar::variable))]
pub fn variable(
    alloc: Global,
    tokens: &mut Tokens<'_>,
    depth: u64,
) -> Result<((Name, Option<Type>), Option<Init>), FormFault>
    ensures { Gives (read (within depth) grammar.variable tokens.old) result tokens.new }
{
    let typed = perhaps_typed(alloc, tokens, depth)?;
    if !tokens.begins(Sign::Equal) {
        return Ok((typed, None));
    }
    given(alloc, tokens, depth).map(|value| (typed, Some(value)))
}
