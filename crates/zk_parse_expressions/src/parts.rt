ghost use Rattle.std.specs.Prelude.{◌≡◌};
ghost use Rattle.zk_tree.specs.Grammar as grammar;
ghost use Rattle.zk_parse_core.specs.Reading.{Gives, read, within};

use crate::types::{Types, nested_type};
use sqlite_items::Items;
use std::alloc::Global;
use zk_parse_core::{FormFault, Tokens};
use zk_tree::{Field, Name, Param, Type};

/// Parameters between parentheses.
#[tactic(auto, unfolding(zk_tree::specs::Grammar::params))]
pub fn params(alloc: Global, tokens: &mut Tokens<'_>, depth: u64) -> Result<Items<Param>, FormFault>
    ensures { Gives (read (within depth) grammar.params tokens.old) result tokens.new }
{
    let types = Types {
        alloc,
        depth,
        nested: nested_type,
    };
    types.params(tokens)
}

/// `(..)`, `(..): RESULT`
#[tactic(auto, unfolding(zk_tree::specs::Grammar::signature))]
pub fn signature(
    alloc: Global,
    tokens: &mut Tokens<'_>,
    depth: u64,
) -> Result<(Items<Param>, Option<Type>), FormFault>
    ensures { Gives (read (within depth) grammar.signature tokens.old) result tokens.new }
{
    let types = Types {
        alloc,
        depth,
        nested: nested_type,
    };
    types.signature(tokens)
}

/// `NAME: TYPE`
#[tactic(auto, unfolding(zk_tree::specs::Grammar::typed))]
pub fn typed(alloc: Global, tokens: &mut Tokens<'_>, depth: u64) -> Result<(Name, Type), FormFault>
    ensures { Gives (read (within depth) grammar.typed tokens.old) result tokens.new }
{
    let types = Types {
        alloc,
        depth,
        nested: nested_type,
    };
    types.typed(tokens)
}

/// Fields between braces.
#[tactic(auto, unfolding(zk_tree::specs::Grammar::fields))]
pub fn fields(alloc: Global, tokens: &mut Tokens<'_>, depth: u64) -> Result<Items<Field>, FormFault>
    ensures { Gives (read (within depth) grammar.fields tokens.old) result tokens.new }
{
    let types = Types {
        alloc,
        depth,
        nested: nested_type,
    };
    types.fields(tokens)
}
