ghost use Rattle.std.specs.Prelude.{◌≡◌, ◌∷◌, [], List, Bool, Option, length, IfOk};
ghost use Rattle.zk_tree.specs.declared.token.Token.{Token as SyntaxToken};
ghost use Rattle.zk_tree.specs.Grammar as grammar;
ghost use Rattle.zk_tree.specs.declared.keyword.Mark.TheVariants as mark;
ghost use Rattle.zk_tree.specs.declared.token.Sign.TheVariants as sign;
ghost use Rattle.zk_parse_core.specs.Reading.{Gives, read, unread, with_front, repeated, listed_at, enclosed_at, until_at, trailing_at};

use crate::fault::FormFault;
use crate::tokens::Tokens;
use crate::turns::{BeforeBrace, BehindCommas, PastCommas, Turns};
use sqlite_items::Items;
use std::alloc::{AllocError, Global};
use zk_tree::{Name, Sign};

/// What stands in lists. A context knows how deep it may nest.
pub trait Element<C>: Sized {
    ghost ready: { C → Type 0 };

    ghost at: { C → List SyntaxToken → Option (Self × List SyntaxToken) };

    /// Reads one.
    fn read(context: &C, tokens: &mut Tokens<'_>) -> Result<Self, FormFault>
        requires { ready context.now }
        ensures { Gives (at context.now tokens.old) result tokens.new };
}

/// Goes on with what was found before, for as long as the turns do. Each turn takes a token, so as
/// many turns as tokens are enough.
pub fn repeat<T: Drop, N: Turns<T>>(
    turns: &N,
    tokens: &mut Tokens<'_>,
    mut found: Items<T>,
) -> Result<Items<T>, FormFault>
    requires { N.ready turns.now }
    ensures { Gives (with_front found (repeated (N.goes turns.now) (N.at turns.now) (length tokens.old) tokens.old)) result tokens.new }
{
    for _turn in 0..tokens.left() {
        if !turns.goes_on(tokens) {
            return Ok(found);
        }
        found.push(turns.turn(tokens)?)?;
    }
    if turns.goes_on(tokens) {
        Err(FormFault::NoForm)
    } else {
        Ok(found)
    }
}

/// A list of one.
fn only<T: Drop>(alloc: Global, one: T) -> Result<Items<T>, AllocError>
    ensures { IfOk result (λ items. items ≡ one ∷ []) }
{
    let mut items = Items::new(alloc);
    items.push(one)?;
    Ok(items)
}

/// One or more, with commas between.
#[tactic(auto, unfolding(crate::specs::Reading::listed_at))]
pub fn listed<C, T: Element<C> + Drop>(
    alloc: Global,
    context: &C,
    tokens: &mut Tokens<'_>,
) -> Result<Items<T>, FormFault>
    requires { T.ready context.now }
    ensures { Gives (listed_at (mark.Sign sign.Comma) (T.at context.now) tokens.old) result tokens.new }
{
    let first = T::read(context, tokens)?;
    let found = only(alloc, first)?;
    repeat(&BehindCommas { context }, tokens, found)
}

/// Any number between two signs, with commas between.
#[tactic(auto, unfolding(crate::specs::Reading::enclosed_at))]
pub fn enclosed<C, T: Element<C> + Drop>(
    alloc: Global,
    context: &C,
    tokens: &mut Tokens<'_>,
    opening: Sign,
    closing: Sign,
) -> Result<Items<T>, FormFault>
    requires { T.ready context.now }
    ensures { Gives (enclosed_at (mark.Sign opening) (mark.Sign sign.Comma) (mark.Sign closing) (T.at context.now) tokens.old) result tokens.new }
{
    tokens.sign(opening)?;
    if tokens.begins(closing) {
        tokens.sign(closing)?;
        return Ok(Items::new(alloc));
    }
    let all = listed(alloc, context, tokens)?;
    tokens.sign(closing)?;
    Ok(all)
}

/// Any number up to a closing brace.
#[tactic(auto, unfolding(crate::specs::Reading::until_at))]
pub fn up_to_brace<C, T: Element<C> + Drop>(
    alloc: Global,
    context: &C,
    tokens: &mut Tokens<'_>,
) -> Result<Items<T>, FormFault>
    requires { T.ready context.now }
    ensures { Gives (until_at (mark.Sign sign.CloseBrace) (T.at context.now) tokens.old) result tokens.new }
{
    let all = repeat(&BeforeBrace { context }, tokens, Items::new(alloc))?;
    tokens.sign(Sign::CloseBrace)?;
    Ok(all)
}

/// One or more with commas between, up to a closing brace, and whether a comma stands before it.
#[tactic(auto, unfolding(crate::specs::Reading::trailing_at))]
pub fn trailing<C, T: Element<C> + Drop>(
    alloc: Global,
    context: &C,
    tokens: &mut Tokens<'_>,
) -> Result<(Items<T>, bool), FormFault>
    requires { T.ready context.now }
    ensures { Gives (trailing_at (mark.Sign sign.Comma) (mark.Sign sign.CloseBrace) (T.at context.now) tokens.old) result tokens.new }
{
    let first = T::read(context, tokens)?;
    let found = only(alloc, first)?;
    let all = repeat(&PastCommas { context }, tokens, found)?;
    let comma = tokens.ending()?;
    Ok((all, comma))
}

/// Names stand in lists as they are.
impl Element<Global> for Name {
    ghost ready = { λ a. Unit {0} };

    ghost at = { λ a. read unread grammar.name };

    fn read(alloc: &Global, tokens: &mut Tokens<'_>) -> Result<Name, FormFault> {
        tokens.name(*alloc)
    }
}
