ghost use Rattle.std.specs.Prelude.{◌≡◌, List, Bool, Option};
ghost use Rattle.zk_tree.specs.declared.expr.Expr.{Expr as SyntaxExpr};
ghost use Rattle.zk_tree.specs.declared.token.Token.{Token as SyntaxToken};
ghost use Rattle.zk_tree.specs.Grammar as grammar;
ghost use Rattle.zk_tree.specs.Rules.{AnExpr, AUnary};
ghost use Rattle.zk_parse_core.specs.Reading.{Gives, read, within, opens};
ghost use Rattle.zk_parse_expressions.specs.Nesting.{Nests, nest_of};

use sqlite_items::{Boxed, Items};
use std::alloc::Global;
use zk_parse_core::{Element, FormFault, Tokens, enclosed, listed};
use zk_tree::{Expr, Item, Keyword, Sign};

/// The nodes of an expression whose nesting counts.
#[derive(Clone, Copy, Debug, PartialEq, Eq)]
pub enum Counted {
    Expr,
    Cond,
    Unary,
}

/// What reads the parts of an expression.
#[derive(Clone, Copy)]
pub struct Exprs<F> {
    pub alloc: Global,
    /// How deep the nodes in it may still nest.
    pub depth: u64,
    pub nested: F,
}

impl<F: Fn(Global, &mut Tokens<'_>, u64, Counted) -> Result<Expr, FormFault>> Exprs<F> {
    /// A node of one of the kinds whose nesting counts.
    pub fn nested(&self, tokens: &mut Tokens<'_>, what: Counted) -> Result<Expr, FormFault>
        requires { Nests self.now.depth (F.pre self.now.nested) (F.post self.now.nested) }
        ensures { Gives (within self.now.depth SyntaxExpr (nest_of what) tokens.old) result tokens.new }
    {
        (self.nested)(self.alloc, tokens, self.depth, what)
    }

    /// Such a node where a tree holds it in a box.
    pub fn boxed(&self, tokens: &mut Tokens<'_>, what: Counted) -> Result<Boxed<Expr>, FormFault>
        requires { Nests self.now.depth (F.pre self.now.nested) (F.post self.now.nested) }
        ensures { Gives (within self.now.depth SyntaxExpr (nest_of what) tokens.old) result tokens.new }
    {
        let node = self.nested(tokens, what)?;
        Ok(Boxed::new(self.alloc, node)?)
    }

    /// `$NAME=a`
    #[tactic(auto, unfolding(zk_tree::specs::Grammar::named_item))]
    fn named_item(&self, tokens: &mut Tokens<'_>) -> Result<Item, FormFault>
        requires { Nests self.now.depth (F.pre self.now.nested) (F.post self.now.nested) }
        ensures { Gives (read (within self.now.depth) grammar.named_item tokens.old) result tokens.new }
    {
        let place = tokens.place();
        tokens.sign(Sign::Dollar)?;
        let name = tokens.name(self.alloc)?;
        tokens.sign(Sign::Equal)?;
        let value = self.nested(tokens, Counted::Expr)?;
        Ok(Item::Field { place, name, value })
    }

    /// `(a, $f=b)`
    #[tactic(auto, unfolding(zk_tree::specs::Grammar::args))]
    pub fn args(&self, tokens: &mut Tokens<'_>) -> Result<Items<Item>, FormFault>
        requires { Nests self.now.depth (F.pre self.now.nested) (F.post self.now.nested) }
        ensures { Gives (read (within self.now.depth) grammar.args tokens.old) result tokens.new }
    {
        enclosed(
            self.alloc,
            self,
            tokens,
            Sign::OpenParenthesis,
            Sign::CloseParenthesis,
        )
    }

    /// `[a, b]` behind what is indexed.
    #[tactic(auto, unfolding(zk_tree::specs::Grammar::index))]
    pub fn index(&self, tokens: &mut Tokens<'_>) -> Result<Items<Expr>, FormFault>
        requires { Nests self.now.depth (F.pre self.now.nested) (F.post self.now.nested) }
        ensures { Gives (read (within self.now.depth) grammar.index tokens.old) result tokens.new }
    {
        tokens.sign(Sign::OpenBracket)?;
        let keys = listed(self.alloc, self, tokens)?;
        tokens.sign(Sign::CloseBracket)?;
        Ok(keys)
    }

    #[tactic(auto, unfolding(zk_tree::specs::Grammar::parenthesis))]
    fn parenthesis(&self, tokens: &mut Tokens<'_>) -> Result<Expr, FormFault>
        requires { Nests self.now.depth (F.pre self.now.nested) (F.post self.now.nested) }
        ensures { Gives (read (within self.now.depth) grammar.parenthesis tokens.old) result tokens.new }
    {
        let place = tokens.place();
        tokens.sign(Sign::OpenParenthesis)?;
        let inner = self.boxed(tokens, Counted::Expr)?;
        tokens.sign(Sign::CloseParenthesis)?;
        Ok(Expr::Parenthesis { place, inner })
    }

    /// `|a|`
    #[tactic(auto, unfolding(zk_tree::specs::Grammar::size))]
    fn size(&self, tokens: &mut Tokens<'_>) -> Result<Expr, FormFault>
        requires { Nests self.now.depth (F.pre self.now.nested) (F.post self.now.nested) }
        ensures { Gives (read (within self.now.depth) grammar.size tokens.old) result tokens.new }
    {
        let place = tokens.place();
        tokens.sign(Sign::Bar)?;
        let inner = self.boxed(tokens, Counted::Expr)?;
        tokens.sign(Sign::Bar)?;
        Ok(Expr::Size { place, inner })
    }

    /// `[a, $f=b]`
    #[tactic(auto, unfolding(zk_tree::specs::Grammar::list))]
    fn list(&self, tokens: &mut Tokens<'_>) -> Result<Expr, FormFault>
        requires { Nests self.now.depth (F.pre self.now.nested) (F.post self.now.nested) }
        ensures { Gives (read (within self.now.depth) grammar.list tokens.old) result tokens.new }
    {
        let place = tokens.place();
        let items = enclosed(
            self.alloc,
            self,
            tokens,
            Sign::OpenBracket,
            Sign::CloseBracket,
        )?;
        Ok(Expr::List { place, items })
    }

    /// `table(..)`, `set(..)`, `vector(..)`
    #[tactic(auto, unfolding(zk_tree::specs::Grammar::make))]
    fn make(&self, tokens: &mut Tokens<'_>) -> Result<Expr, FormFault>
        requires { Nests self.now.depth (F.pre self.now.nested) (F.post self.now.nested) }
        ensures { Gives (read (within self.now.depth) grammar.make tokens.old) result tokens.new }
    {
        let place = tokens.place();
        let Some(container) = tokens.container() else {
            return Err(FormFault::NoForm);
        };
        tokens.step();
        let items = self.args(tokens)?;
        Ok(Expr::Make {
            place,
            container,
            items,
        })
    }

    #[tactic(auto, unfolding(zk_tree::specs::Grammar::hook_call))]
    fn hook_call(&self, tokens: &mut Tokens<'_>) -> Result<Expr, FormFault>
        requires { Nests self.now.depth (F.pre self.now.nested) (F.post self.now.nested) }
        ensures { Gives (read (within self.now.depth) grammar.hook_call tokens.old) result tokens.new }
    {
        let place = tokens.place();
        tokens.word(Keyword::Hook)?;
        let name = tokens.name(self.alloc)?;
        let items = self.args(tokens)?;
        Ok(Expr::Hook { place, name, items })
    }

    /// What an operand begins with.
    #[tactic(auto, unfolding(zk_tree::specs::Grammar::prim, zk_tree::specs::Grammar::parenthesis, zk_tree::specs::Grammar::size, zk_tree::specs::Grammar::list, zk_tree::specs::Grammar::make))]
    pub fn prim(&self, tokens: &mut Tokens<'_>) -> Result<Expr, FormFault>
        requires { Nests self.now.depth (F.pre self.now.nested) (F.post self.now.nested) }
        ensures { Gives (read (within self.now.depth) grammar.prim tokens.old) result tokens.new }
    {
        if tokens.begins_number() {
            tokens.number()
        } else if tokens.begins_literal() {
            tokens.literal(self.alloc)
        } else if tokens.truth().is_some() {
            tokens.truth_value()
        } else if tokens.begins_name() {
            tokens.name_value(self.alloc)
        } else if tokens.begins(Sign::OpenParenthesis) {
            self.parenthesis(tokens)
        } else if tokens.begins(Sign::Bar) {
            self.size(tokens)
        } else if tokens.begins(Sign::OpenBracket) {
            self.list(tokens)
        } else if tokens.container().is_some() {
            self.make(tokens)
        } else {
            self.hook_call(tokens)
        }
    }
}

impl<F: Fn(Global, &mut Tokens<'_>, u64, Counted) -> Result<Expr, FormFault>> Element<Exprs<F>>
    for Expr {
    ghost ready = { λ e. Nests e.depth (F.pre e.nested) (F.post e.nested) };

    ghost at = { λ e. read (within e.depth) grammar.an_expr };

    #[tactic(auto, unfolding(zk_tree::specs::Grammar::an_expr))]
    fn read(exprs: &Exprs<F>, tokens: &mut Tokens<'_>) -> Result<Expr, FormFault> {
        exprs.nested(tokens, Counted::Expr)
    }
}

impl<F: Fn(Global, &mut Tokens<'_>, u64, Counted) -> Result<Expr, FormFault>> Element<Exprs<F>>
    for Item {
    ghost ready = { λ e. Nests e.depth (F.pre e.nested) (F.post e.nested) };

    ghost at = { λ e. read (within e.depth) grammar.an_item };

    #[tactic(auto, unfolding(zk_tree::specs::Grammar::an_item, zk_tree::specs::Grammar::named_item))]
    fn read(exprs: &Exprs<F>, tokens: &mut Tokens<'_>) -> Result<Item, FormFault> {
        if tokens.begins(Sign::Dollar) {
            return exprs.named_item(tokens);
        }
        let value = exprs.nested(tokens, Counted::Expr)?;
        Ok(Item::Value { value })
    }
}
