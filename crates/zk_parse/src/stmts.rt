ghost use Rattle.std.specs.Prelude.{◌≡◌};
ghost use Rattle.zk_tree.specs.declared.stmt.Stmt.{Stmt as SyntaxStmt};
ghost use Rattle.zk_tree.specs.declared.keyword.Keyword.TheVariants as keyword;
ghost use Rattle.zk_tree.specs.declared.keyword.Mark.TheVariants as mark;
ghost use Rattle.zk_tree.specs.declared.token.Sign.TheVariants as sign;
ghost use Rattle.zk_tree.specs.Grammar as grammar;
ghost use Rattle.zk_tree.specs.Rules.{AnExpr, AStmt, After, Before, Nested};
ghost use Rattle.zk_parse_core.specs.Reading.{Gives, NestsOf, read, unread, within};

use sqlite_items::{Boxed, Items};
use std::alloc::Global;
use zk_parse_core::{Element, FormFault, Tokens, listed, up_to_brace};
use zk_parse_expressions::{Counted, exprs, named_args, nested_expr, variable};
use zk_tree::{Block, Expr, Item, Keys, Keyword, Name, Sign, Stmt};

/// An expression, and the sign behind it.
fn ended_expr(
    alloc: Global,
    tokens: &mut Tokens<'_>,
    depth: u64,
    end: Sign,
) -> Result<Expr, FormFault>
    ensures { Gives (read (within depth) (Before (Nested AnExpr) (mark.Sign end)) tokens.old) result tokens.new }
{
    let value = nested_expr(alloc, tokens, depth, Counted::Expr)?;
    tokens.sign(end).map(|()| value)
}

/// `NAME`, `[NAME, ..]`
#[tactic(auto, unfolding(zk_tree::specs::Grammar::for_keys))]
fn for_keys(alloc: Global, tokens: &mut Tokens<'_>) -> Result<Keys, FormFault>
    ensures { Gives (read unread grammar.for_keys tokens.old) result tokens.new }
{
    if !tokens.begins(Sign::OpenBracket) {
        let name = tokens.name(alloc)?;
        return Ok(Keys::One { name });
    }
    tokens.sign(Sign::OpenBracket)?;
    let names = listed(alloc, &alloc, tokens)?;
    tokens.sign(Sign::CloseBracket)?;
    Ok(Keys::Several { names })
}

/// `NAME`, `NAME, NAME`
#[tactic(auto, unfolding(zk_tree::specs::Grammar::for_names, zk_tree::specs::Grammar::for_keys))]
fn for_names(alloc: Global, tokens: &mut Tokens<'_>) -> Result<(Keys, Option<Name>), FormFault>
    ensures { Gives (read unread grammar.for_names tokens.old) result tokens.new }
{
    let keys = for_keys(alloc, tokens)?;
    if !tokens.begins(Sign::Comma) {
        return Ok((keys, None));
    }
    tokens.sign(Sign::Comma)?;
    let value = tokens.name(alloc)?;
    Ok((keys, Some(value)))
}

/// `(NAME, NAME in a)`
#[tactic(auto, unfolding(zk_tree::specs::Grammar::for_head, zk_tree::specs::Grammar::for_names, zk_tree::specs::Grammar::for_keys))]
fn for_head(
    alloc: Global,
    tokens: &mut Tokens<'_>,
    depth: u64,
) -> Result<((Keys, Option<Name>), Expr), FormFault>
    ensures { Gives (read (within depth) grammar.for_head tokens.old) result tokens.new }
{
    tokens.sign(Sign::OpenParenthesis)?;
    let names = for_names(alloc, tokens)?;
    tokens.word(Keyword::In)?;
    ended_expr(alloc, tokens, depth, Sign::CloseParenthesis).map(|over| (names, over))
}

/// `local NAME: TYPE = INIT;`
#[tactic(auto, unfolding(zk_tree::specs::Grammar::local_stmt))]
fn local_stmt(alloc: Global, tokens: &mut Tokens<'_>, depth: u64) -> Result<Stmt, FormFault>
    ensures { Gives (read (within depth) grammar.local_stmt tokens.old) result tokens.new }
{
    let place = tokens.place();
    tokens.word(Keyword::Local)?;
    let ((name, local_type), init) = variable(alloc, tokens, depth)?;
    tokens.sign(Sign::Semicolon).map(|()| Stmt::Local {
        place,
        name,
        local_type,
        init,
    })
}

/// `print VALUE, ..;`
#[tactic(auto, unfolding(zk_tree::specs::Grammar::print_stmt))]
fn print_stmt(alloc: Global, tokens: &mut Tokens<'_>, depth: u64) -> Result<Stmt, FormFault>
    ensures { Gives (read (within depth) grammar.print_stmt tokens.old) result tokens.new }
{
    let place = tokens.place();
    tokens.word(Keyword::Print)?;
    let values = exprs(alloc, tokens, depth)?;
    tokens.sign(Sign::Semicolon)?;
    Ok(Stmt::Print { place, values })
}

/// `event NAME(..);`
#[tactic(auto, unfolding(zk_tree::specs::Grammar::event_stmt))]
fn event_stmt(alloc: Global, tokens: &mut Tokens<'_>, depth: u64) -> Result<Stmt, FormFault>
    ensures { Gives (read (within depth) grammar.event_stmt tokens.old) result tokens.new }
{
    let place = tokens.place();
    tokens.word(Keyword::Event)?;
    let (name, items) = named_args(alloc, tokens, depth)?;
    tokens.sign(Sign::Semicolon)?;
    Ok(Stmt::Event { place, name, items })
}

/// `{ NAME(..) };`
#[tactic(auto, unfolding(zk_tree::specs::Grammar::scheduled))]
fn scheduled(
    alloc: Global,
    tokens: &mut Tokens<'_>,
    depth: u64,
) -> Result<(Name, Items<Item>), FormFault>
    ensures { Gives (read (within depth) (Before grammar.scheduled (mark.Sign sign.Semicolon)) tokens.old) result tokens.new }
{
    tokens.sign(Sign::OpenBrace)?;
    let event = named_args(alloc, tokens, depth)?;
    tokens.sign(Sign::CloseBrace)?;
    tokens.sign(Sign::Semicolon)?;
    Ok(event)
}

/// `schedule DELAY { NAME(..) };`
#[tactic(auto, unfolding(zk_tree::specs::Grammar::schedule_stmt))]
fn schedule_stmt(alloc: Global, tokens: &mut Tokens<'_>, depth: u64) -> Result<Stmt, FormFault>
    ensures { Gives (read (within depth) grammar.schedule_stmt tokens.old) result tokens.new }
{
    let place = tokens.place();
    tokens.word(Keyword::Schedule)?;
    let delay = nested_expr(alloc, tokens, depth, Counted::Expr)?;
    scheduled(alloc, tokens, depth).map(|(name, items)| Stmt::Schedule {
        place,
        delay,
        name,
        items,
    })
}

/// `add ELEMENT;`
#[tactic(auto, unfolding(zk_tree::specs::Grammar::add_stmt))]
fn add_stmt(alloc: Global, tokens: &mut Tokens<'_>, depth: u64) -> Result<Stmt, FormFault>
    ensures { Gives (read (within depth) grammar.add_stmt tokens.old) result tokens.new }
{
    let place = tokens.place();
    tokens.word(Keyword::Add)?;
    let element = ended_expr(alloc, tokens, depth, Sign::Semicolon)?;
    Ok(Stmt::Add { place, element })
}

/// `delete ELEMENT;`
#[tactic(auto, unfolding(zk_tree::specs::Grammar::delete_stmt))]
fn delete_stmt(alloc: Global, tokens: &mut Tokens<'_>, depth: u64) -> Result<Stmt, FormFault>
    ensures { Gives (read (within depth) grammar.delete_stmt tokens.old) result tokens.new }
{
    let place = tokens.place();
    tokens.word(Keyword::Delete)?;
    let element = ended_expr(alloc, tokens, depth, Sign::Semicolon)?;
    Ok(Stmt::Delete { place, element })
}

/// `;`, `VALUE;`
#[tactic(auto, unfolding(zk_tree::specs::Grammar::returned))]
fn returned(alloc: Global, tokens: &mut Tokens<'_>, depth: u64) -> Result<Option<Expr>, FormFault>
    ensures { Gives (read (within depth) grammar.returned tokens.old) result tokens.new }
{
    if tokens.begins(Sign::Semicolon) {
        tokens.sign(Sign::Semicolon)?;
        return Ok(None);
    }
    let value = ended_expr(alloc, tokens, depth, Sign::Semicolon)?;
    Ok(Some(value))
}

/// `return;`, `return VALUE;`
#[tactic(auto, unfolding(zk_tree::specs::Grammar::return_stmt))]
fn return_stmt(alloc: Global, tokens: &mut Tokens<'_>, depth: u64) -> Result<Stmt, FormFault>
    ensures { Gives (read (within depth) grammar.return_stmt tokens.old) result tokens.new }
{
    let place = tokens.place();
    tokens.word(Keyword::Return)?;
    let value = returned(alloc, tokens, depth)?;
    Ok(Stmt::Return { place, value })
}

/// `VALUE;`
#[tactic(auto, unfolding(zk_tree::specs::Grammar::expr_stmt))]
fn expr_stmt(alloc: Global, tokens: &mut Tokens<'_>, depth: u64) -> Result<Stmt, FormFault>
    ensures { Gives (read (within depth) grammar.expr_stmt tokens.old) result tokens.new }
{
    let value = ended_expr(alloc, tokens, depth, Sign::Semicolon)?;
    Ok(Stmt::Expr { value })
}

/// `next;`
fn next_stmt(tokens: &mut Tokens<'_>) -> Result<Stmt, FormFault>
    ensures { Gives (read unread grammar.next_stmt tokens.old) result tokens.new }
{
    let place = tokens.place();
    tokens.word(Keyword::Next)?;
    tokens.sign(Sign::Semicolon)?;
    Ok(Stmt::Next { place })
}

/// `break;`
fn break_stmt(tokens: &mut Tokens<'_>) -> Result<Stmt, FormFault>
    ensures { Gives (read unread grammar.break_stmt tokens.old) result tokens.new }
{
    let place = tokens.place();
    tokens.word(Keyword::Break)?;
    tokens.sign(Sign::Semicolon)?;
    Ok(Stmt::Break { place })
}

/// `;`
fn empty_stmt(tokens: &mut Tokens<'_>) -> Result<Stmt, FormFault>
    ensures { Gives (read unread grammar.empty_stmt tokens.old) result tokens.new }
{
    let place = tokens.place();
    tokens.sign(Sign::Semicolon)?;
    Ok(Stmt::Empty { place })
}

/// `if ( TEST ) YES`, or with an `else`.
fn if_from(place: u64, guarded: (Expr, Boxed<Stmt>), other: Option<Boxed<Stmt>>) -> Stmt
    ensures { result ≡ grammar.if_from place guarded.0 guarded.1 other }
{
    let (test, yes) = guarded;
    match other {
        None => Stmt::If { place, test, yes },
        Some(other) => Stmt::IfElse {
            place,
            test,
            yes,
            no: other,
        },
    }
}

/// What reads the parts of a statement.
#[derive(Clone, Copy)]
pub struct Stmts<F> {
    pub alloc: Global,
    /// How deep the nodes in it may still nest.
    pub depth: u64,
    pub nested: F,
}

impl<F: Fn(Global, &mut Tokens<'_>, u64) -> Result<Stmt, FormFault>> Stmts<F> {
    fn nested(&self, tokens: &mut Tokens<'_>) -> Result<Stmt, FormFault>
        requires { NestsOf AStmt self.now.depth (F.pre self.now.nested) (F.post self.now.nested) }
        ensures { Gives (within self.now.depth SyntaxStmt AStmt tokens.old) result tokens.new }
    {
        (self.nested)(self.alloc, tokens, self.depth)
    }

    /// A statement, in a box as trees hold it.
    fn boxed(&self, tokens: &mut Tokens<'_>) -> Result<Boxed<Stmt>, FormFault>
        requires { NestsOf AStmt self.now.depth (F.pre self.now.nested) (F.post self.now.nested) }
        ensures { Gives (within self.now.depth SyntaxStmt AStmt tokens.old) result tokens.new }
    {
        let stmt = self.nested(tokens)?;
        Ok(Boxed::new(self.alloc, stmt)?)
    }

    /// Statements between braces.
    #[tactic(auto, unfolding(zk_tree::specs::Grammar::block))]
    pub fn block(&self, tokens: &mut Tokens<'_>) -> Result<Block, FormFault>
        requires { NestsOf AStmt self.now.depth (F.pre self.now.nested) (F.post self.now.nested) }
        ensures { Gives (read (within self.now.depth) grammar.block tokens.old) result tokens.new }
    {
        let place = tokens.place();
        tokens.sign(Sign::OpenBrace)?;
        let stmts = up_to_brace(self.alloc, self, tokens)?;
        Ok(Block { place, stmts })
    }

    /// A block as a statement.
    #[tactic(auto, unfolding(zk_tree::specs::Grammar::block_stmt))]
    fn block_stmt(&self, tokens: &mut Tokens<'_>) -> Result<Stmt, FormFault>
        requires { NestsOf AStmt self.now.depth (F.pre self.now.nested) (F.post self.now.nested) }
        ensures { Gives (read (within self.now.depth) grammar.block_stmt tokens.old) result tokens.new }
    {
        let block = self.block(tokens)?;
        Ok(Stmt::Block { block })
    }

    /// `(TEST) BODY`
    #[tactic(auto, unfolding(zk_tree::specs::Grammar::guarded))]
    fn guarded(&self, tokens: &mut Tokens<'_>) -> Result<(Expr, Boxed<Stmt>), FormFault>
        requires { NestsOf AStmt self.now.depth (F.pre self.now.nested) (F.post self.now.nested) }
        ensures { Gives (read (within self.now.depth) grammar.guarded tokens.old) result tokens.new }
    {
        tokens.sign(Sign::OpenParenthesis)?;
        let test = ended_expr(self.alloc, tokens, self.depth, Sign::CloseParenthesis)?;
        self.boxed(tokens).map(|body| (test, body))
    }

    /// `else NO`
    fn other(&self, tokens: &mut Tokens<'_>) -> Result<Boxed<Stmt>, FormFault>
        requires { NestsOf AStmt self.now.depth (F.pre self.now.nested) (F.post self.now.nested) }
        ensures { Gives (read (within self.now.depth) (After (mark.Word keyword.Else) (Nested AStmt)) tokens.old) result tokens.new }
    {
        tokens.word(Keyword::Else)?;
        self.boxed(tokens)
    }

    /// `(TEST) YES`, `(TEST) YES else NO`
    #[tactic(auto, unfolding(zk_tree::specs::Grammar::perhaps_else))]
    fn perhaps_else(
        &self,
        tokens: &mut Tokens<'_>,
    ) -> Result<((Expr, Boxed<Stmt>), Option<Boxed<Stmt>>), FormFault>
        requires { NestsOf AStmt self.now.depth (F.pre self.now.nested) (F.post self.now.nested) }
        ensures { Gives (read (within self.now.depth) grammar.perhaps_else tokens.old) result tokens.new }
    {
        let guarded = self.guarded(tokens)?;
        if !tokens.begins_word(Keyword::Else) {
            return Ok((guarded, None));
        }
        self.other(tokens).map(|other| (guarded, Some(other)))
    }

    /// `if ( TEST ) YES`, `if ( TEST ) YES else NO`
    #[tactic(auto, unfolding(zk_tree::specs::Grammar::if_stmt))]
    fn if_stmt(&self, tokens: &mut Tokens<'_>) -> Result<Stmt, FormFault>
        requires { NestsOf AStmt self.now.depth (F.pre self.now.nested) (F.post self.now.nested) }
        ensures { Gives (read (within self.now.depth) grammar.if_stmt tokens.old) result tokens.new }
    {
        let place = tokens.place();
        tokens.word(Keyword::If)?;
        let (guarded, other) = self.perhaps_else(tokens)?;
        Ok(if_from(place, guarded, other))
    }

    /// `while ( TEST ) BODY`
    #[tactic(auto, unfolding(zk_tree::specs::Grammar::while_stmt))]
    fn while_stmt(&self, tokens: &mut Tokens<'_>) -> Result<Stmt, FormFault>
        requires { NestsOf AStmt self.now.depth (F.pre self.now.nested) (F.post self.now.nested) }
        ensures { Gives (read (within self.now.depth) grammar.while_stmt tokens.old) result tokens.new }
    {
        let place = tokens.place();
        tokens.word(Keyword::While)?;
        let (test, body) = self.guarded(tokens)?;
        Ok(Stmt::While { place, test, body })
    }

    /// `for ( KEYS in OVER ) BODY`
    #[tactic(auto, unfolding(zk_tree::specs::Grammar::for_stmt))]
    fn for_stmt(&self, tokens: &mut Tokens<'_>) -> Result<Stmt, FormFault>
        requires { NestsOf AStmt self.now.depth (F.pre self.now.nested) (F.post self.now.nested) }
        ensures { Gives (read (within self.now.depth) grammar.for_stmt tokens.old) result tokens.new }
    {
        let place = tokens.place();
        tokens.word(Keyword::For)?;
        let ((keys, value), over) = for_head(self.alloc, tokens, self.depth)?;
        self.boxed(tokens).map(|body| Stmt::For {
            place,
            keys,
            value,
            over,
            body,
        })
    }

    /// A statement.
    #[tactic(auto, unfolding(zk_tree::specs::Grammar::statement, zk_tree::specs::Grammar::block_stmt, zk_tree::specs::Grammar::block, zk_tree::specs::Grammar::if_stmt, zk_tree::specs::Grammar::while_stmt, zk_tree::specs::Grammar::for_stmt))]
    pub fn statement(&self, tokens: &mut Tokens<'_>) -> Result<Stmt, FormFault>
        requires { NestsOf AStmt self.now.depth (F.pre self.now.nested) (F.post self.now.nested) }
        ensures { Gives (read (within self.now.depth) grammar.statement tokens.old) result tokens.new }
    {
        if tokens.begins(Sign::OpenBrace) {
            self.block_stmt(tokens)
        } else if tokens.begins(Sign::Semicolon) {
            empty_stmt(tokens)
        } else if tokens.begins_word(Keyword::If) {
            self.if_stmt(tokens)
        } else if tokens.begins_word(Keyword::While) {
            self.while_stmt(tokens)
        } else if tokens.begins_word(Keyword::For) {
            self.for_stmt(tokens)
        } else {
            plain_stmt(self.alloc, tokens, self.depth)
        }
    }
}

/// A statement in which no statement is nested.
#[tactic(auto, unfolding(zk_tree::specs::Grammar::plain_stmt, zk_tree::specs::Grammar::local_stmt, zk_tree::specs::Grammar::print_stmt, zk_tree::specs::Grammar::event_stmt, zk_tree::specs::Grammar::schedule_stmt))]
fn plain_stmt(alloc: Global, tokens: &mut Tokens<'_>, depth: u64) -> Result<Stmt, FormFault>
    ensures { Gives (read (within depth) grammar.plain_stmt tokens.old) result tokens.new }
{
    if tokens.begins_word(Keyword::Local) {
        local_stmt(alloc, tokens, depth)
    } else if tokens.begins_word(Keyword::Print) {
        print_stmt(alloc, tokens, depth)
    } else if tokens.begins_word(Keyword::Event) {
        event_stmt(alloc, tokens, depth)
    } else if tokens.begins_word(Keyword::Schedule) {
        schedule_stmt(alloc, tokens, depth)
    } else {
        short_stmt(alloc, tokens, depth)
    }
}

/// A statement with one expression, or none.
#[tactic(auto, unfolding(zk_tree::specs::Grammar::short_stmt, zk_tree::specs::Grammar::add_stmt, zk_tree::specs::Grammar::delete_stmt, zk_tree::specs::Grammar::return_stmt))]
fn short_stmt(alloc: Global, tokens: &mut Tokens<'_>, depth: u64) -> Result<Stmt, FormFault>
    ensures { Gives (read (within depth) grammar.short_stmt tokens.old) result tokens.new }
{
    if tokens.begins_word(Keyword::Add) {
        add_stmt(alloc, tokens, depth)
    } else if tokens.begins_word(Keyword::Delete) {
        delete_stmt(alloc, tokens, depth)
    } else if tokens.begins_word(Keyword::Return) {
        return_stmt(alloc, tokens, depth)
    } else if tokens.begins_word(Keyword::Next) {
        next_stmt(tokens)
    } else if tokens.begins_word(Keyword::Break) {
        break_stmt(tokens)
    } else {
        expr_stmt(alloc, tokens, depth)
    }
}

impl<F: Fn(Global, &mut Tokens<'_>, u64) -> Result<Stmt, FormFault>> Element<Stmts<F>> for Stmt {
    ghost ready = { λ c. NestsOf AStmt c.depth (F.pre c.nested) (F.post c.nested) };

    ghost at = { λ c. read (within c.depth) grammar.a_stmt };

    #[tactic(auto, unfolding(zk_tree::specs::Grammar::a_stmt))]
    fn read(stmts: &Stmts<F>, tokens: &mut Tokens<'_>) -> Result<Stmt, FormFault> {
        stmts.nested(tokens)
    }
}

/// A statement that is nested at most so deep, itself counted.
pub fn nested_stmt(alloc: Global, tokens: &mut Tokens<'_>, depth: u64) -> Result<Stmt, FormFault>
    ensures { Gives (within depth SyntaxStmt AStmt tokens.old) result tokens.new }
{
    if depth == 0 {
        return Err(FormFault::NoForm);
    }
    let stmts = Stmts {
        alloc,
        depth: depth - 1,
        nested: nested_stmt,
    };
    stmts.statement(tokens)
}
