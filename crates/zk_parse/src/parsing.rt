ghost use Rattle.std.specs.Prelude.{◌≡◌, ◌↔◌, ℕ, List, None, Some, Err, Ok, IfOk};
ghost use Rattle.zk_tree.specs.declared.decl.Decl.{Decl as SyntaxDecl};
ghost use Rattle.zk_tree.specs.declared.decl.Tree.{Tree as Syntax};
ghost use Rattle.zk_tree.specs.Reading.{Reads, IsRefusedAt};
ghost use Rattle.zk_parse.specs.Trees.{front_of, tree_of, IsStopped, UnlessNoMemory};

use crate::decls::nested_decl;
use crate::fault::ParseFault;
use sqlite_items::Items;
use std::alloc::Global;
use zk_base::Mem;
use zk_parse_core::{FormFault, Tokens};
use zk_tree::{Decl, Token, Tree};

/// How deep a declaration may be nested: itself, and the statements, types, expressions, arms behind a
/// colon and operands of prefixes within each other.
const MAX_NESTING: u64 = 200;

/// The declarations that tokens begin with.
#[derive(Debug, Drop)]
pub struct Front {
    pub decls: Items<Decl>,
    /// The token behind them, by its number from 0, from which no declaration reads. `None` where no
    /// token is left.
    pub stop: Option<usize>,
}

/// The syntax tree whose tokens these are (Zeek manual, Script Reference).
///
/// `NoTree` comes exactly where the tokens are those of no tree, and names the token at which a
/// declaration should begin and none reads that is nested at most 200 deep.
pub fn parse(alloc: Global, tokens: &[Token]) -> Result<Tree, ParseFault>
    ensures exact { UnlessNoMemory result (tree_of tokens.now) }

    // A tree is read exactly where the tokens are those that it spells: so they are those of no other.
    ensures read { (tree : Syntax) → (tree_of tokens.now ≡ Ok tree) ↔ Reads tokens.now tree }
    // A token is refused exactly where those before it are whole declarations and none reads from it.
    ensures refused { (at : ℕ) → (tree_of tokens.now ≡ Err at) ↔ IsRefusedAt tokens.now at }
{
    tree(alloc, tokens)
}

/// The tree of the declarations, if no token is left behind them.
fn tree(alloc: Global, tokens: &[Token]) -> Result<Tree, ParseFault>
    ensures { UnlessNoMemory result (tree_of tokens.now) }
{
    let Front { decls, stop } = parse_front(alloc, tokens)?;
    match stop {
        None => Ok(Tree { decls }),
        Some(at) => Err(ParseFault::NoTree { at }),
    }
}

/// The declarations that tokens begin with, one after another, for as long as one reads that is nested
/// at most 200 deep.
pub fn parse_front(alloc: Global, tokens: &[Token]) -> Result<Front, Mem>
    ensures exact { IfOk result (λ front. front ≡ front_of tokens.now) }

    // The declarations are all of the tokens exactly where these are those that they spell.
    ensures whole { (decls : List SyntaxDecl) → (front_of tokens.now ≡ record { decls = decls; stop = None }) ↔ Reads tokens.now (record { decls = decls }) }
    // They end at a token exactly where those before it spell them and none reads from it.
    ensures stopped { (decls : List SyntaxDecl) (at : ℕ) → (front_of tokens.now ≡ record { decls = decls; stop = Some at }) ↔ IsStopped tokens.now decls at }
{
    declarations(alloc, tokens)
}

/// The declarations, read one after another.
fn declarations(alloc: Global, tokens: &[Token]) -> Result<Front, Mem>
    ensures { IfOk result (λ front. front ≡ front_of tokens.now) }
{
    let mut decls = Items::new(alloc);
    let mut rest = Tokens::new(tokens);
    'decls: while rest.left() != 0 {
        let left = rest.left();
        match nested_decl(alloc, &mut rest, MAX_NESTING) {
            Ok(decl) => decls.push(decl)?,
            Err(FormFault::NoForm) => {
                let stop = Some(tokens.len() - left);
                return Ok(Front { decls, stop });
            }
            Err(FormFault::NoMemory) => return Err(Mem),
        }
    }
    Ok(Front { decls, stop: None })
}
