ghost use Rattle.std.specs.Prelude.{◌≡◌, length, Some};
ghost use Rattle.zk_tree.specs.declared.expr.Expr.{Expr as SyntaxExpr};
ghost use Rattle.zk_tree.specs.declared.operator.Level.TheVariants as level;
ghost use Rattle.zk_tree.specs.Grammar as grammar;
ghost use Rattle.zk_parse_core.specs.Reading.{Gives, read, repeated, ◌>>=◌ as and_then, within, opens};
ghost use Rattle.zk_parse_expressions.specs.Nesting.{Nests, nest_of};

use crate::expr::{Counted, Exprs};
use sqlite_items::{Boxed, Items};
use std::alloc::Global;
use zk_parse_core::{FormFault, Tokens, Turns, repeat};
use zk_tree::{Expr, Level, Link, Part, Sign};

impl<F: Fn(Global, &mut Tokens<'_>, u64, Counted) -> Result<Expr, FormFault>> Turns<Part>
    for Exprs<F> {
    ghost ready = { λ e. Nests e.depth (F.pre e.nested) (F.post e.nested) };

    ghost goes = { λ e. opens grammar.a_part };

    ghost at = { λ e. read (within e.depth) grammar.a_part };

    #[tactic(auto, unfolding(zk_tree::specs::Grammar::a_part, zk_tree::specs::Grammar::index, zk_tree::specs::Grammar::args))]
    fn goes_on(&self, tokens: &Tokens<'_>) -> bool {
        tokens.begins(Sign::Dollar)
            || tokens.begins(Sign::QuestionDollar)
            || tokens.begins(Sign::OpenBracket)
            || tokens.begins(Sign::OpenParenthesis)
    }

    #[tactic(auto, unfolding(zk_tree::specs::Grammar::a_part, zk_tree::specs::Grammar::index, zk_tree::specs::Grammar::args))]
    fn turn(&self, tokens: &mut Tokens<'_>) -> Result<Part, FormFault> {
        if tokens.begins(Sign::Dollar) {
            tokens.sign(Sign::Dollar)?;
            let name = tokens.name(self.alloc)?;
            Ok(Part::Field { name })
        } else if tokens.begins(Sign::QuestionDollar) {
            tokens.sign(Sign::QuestionDollar)?;
            let name = tokens.name(self.alloc)?;
            Ok(Part::HasField { name })
        } else if tokens.begins(Sign::OpenBracket) {
            let keys = self.index(tokens)?;
            Ok(Part::Index { keys })
        } else {
            let items = self.args(tokens)?;
            Ok(Part::Call { items })
        }
    }
}

/// An operand, and behind it operators of a level with an operand each.
fn chain<N: Turns<Link>>(
    alloc: Global,
    tokens: &mut Tokens<'_>,
    level: Level,
    first: Expr,
    links: &N,
) -> Result<Expr, FormFault>
    requires { N.ready links.now }
    ensures { Gives (and_then (repeated (N.goes links.now) (N.at links.now) (length tokens.old) tokens.old) (λ x. Some (grammar.chained level first x.0, x.1))) result tokens.new }
{
    if !links.goes_on(tokens) {
        return Ok(first);
    }
    let first = Boxed::new(alloc, first)?;
    let others = repeat(links, tokens, Items::new(alloc))?;
    Ok(Expr::Chain {
        level,
        first,
        others,
    })
}

/// The operands of a level that stand behind an operator.
#[derive(Drop)]
struct Terms<'e, F> {
    exprs: &'e Exprs<F>,
}

#[derive(Drop)]
struct Sums<'e, F> {
    exprs: &'e Exprs<F>,
}

#[derive(Drop)]
struct Conjunctions<'e, F> {
    exprs: &'e Exprs<F>,
}

#[derive(Drop)]
struct Disjunctions<'e, F> {
    exprs: &'e Exprs<F>,
}

impl<F: Fn(Global, &mut Tokens<'_>, u64, Counted) -> Result<Expr, FormFault>> Turns<Link>
    for Terms<'_, F> {
    ghost ready = { λ t. Nests t.exprs.now.depth (F.pre t.exprs.now.nested) (F.post t.exprs.now.nested) };

    ghost goes = { λ t. opens (grammar.a_link level.Term grammar.an_operand) };

    ghost at = { λ t. read (within t.exprs.now.depth) (grammar.a_link level.Term grammar.an_operand) };

    fn goes_on(&self, tokens: &Tokens<'_>) -> bool {
        tokens.operator(Level::Term).is_some()
    }

    fn turn(&self, tokens: &mut Tokens<'_>) -> Result<Link, FormFault> {
        let Some(operator) = tokens.operator(Level::Term) else {
            return Err(FormFault::NoForm);
        };
        tokens.step();
        let operand = self.exprs.operand(tokens)?;
        Ok(Link { operator, operand })
    }
}

impl<F: Fn(Global, &mut Tokens<'_>, u64, Counted) -> Result<Expr, FormFault>> Turns<Link>
    for Sums<'_, F> {
    ghost ready = { λ t. Nests t.exprs.now.depth (F.pre t.exprs.now.nested) (F.post t.exprs.now.nested) };

    ghost goes = { λ t. opens (grammar.a_link level.Sum grammar.term) };

    ghost at = { λ t. read (within t.exprs.now.depth) (grammar.a_link level.Sum grammar.term) };

    fn goes_on(&self, tokens: &Tokens<'_>) -> bool {
        tokens.operator(Level::Sum).is_some()
    }

    fn turn(&self, tokens: &mut Tokens<'_>) -> Result<Link, FormFault> {
        let Some(operator) = tokens.operator(Level::Sum) else {
            return Err(FormFault::NoForm);
        };
        tokens.step();
        let operand = self.exprs.term(tokens)?;
        Ok(Link { operator, operand })
    }
}

impl<F: Fn(Global, &mut Tokens<'_>, u64, Counted) -> Result<Expr, FormFault>> Turns<Link>
    for Conjunctions<'_, F> {
    ghost ready = { λ t. Nests t.exprs.now.depth (F.pre t.exprs.now.nested) (F.post t.exprs.now.nested) };

    ghost goes = { λ t. opens (grammar.a_link level.And grammar.compare) };

    ghost at = { λ t. read (within t.exprs.now.depth) (grammar.a_link level.And grammar.compare) };

    fn goes_on(&self, tokens: &Tokens<'_>) -> bool {
        tokens.operator(Level::And).is_some()
    }

    fn turn(&self, tokens: &mut Tokens<'_>) -> Result<Link, FormFault> {
        let Some(operator) = tokens.operator(Level::And) else {
            return Err(FormFault::NoForm);
        };
        tokens.step();
        let operand = self.exprs.compare(tokens)?;
        Ok(Link { operator, operand })
    }
}

impl<F: Fn(Global, &mut Tokens<'_>, u64, Counted) -> Result<Expr, FormFault>> Turns<Link>
    for Disjunctions<'_, F> {
    ghost ready = { λ t. Nests t.exprs.now.depth (F.pre t.exprs.now.nested) (F.post t.exprs.now.nested) };

    ghost goes = { λ t. opens (grammar.a_link level.Or grammar.conjunction) };

    ghost at = { λ t. read (within t.exprs.now.depth) (grammar.a_link level.Or grammar.conjunction) };

    fn goes_on(&self, tokens: &Tokens<'_>) -> bool {
        tokens.operator(Level::Or).is_some()
    }

    fn turn(&self, tokens: &mut Tokens<'_>) -> Result<Link, FormFault> {
        let Some(operator) = tokens.operator(Level::Or) else {
            return Err(FormFault::NoForm);
        };
        tokens.step();
        let operand = self.exprs.conjunction(tokens)?;
        Ok(Link { operator, operand })
    }
}

impl<F: Fn(Global, &mut Tokens<'_>, u64, Counted) -> Result<Expr, FormFault>> Exprs<F> {
    /// An operand and what belongs to it.
    #[tactic(auto, unfolding(zk_tree::specs::Grammar::post))]
    fn post(&self, tokens: &mut Tokens<'_>) -> Result<Expr, FormFault>
        requires { Nests self.now.depth (F.pre self.now.nested) (F.post self.now.nested) }
        ensures { Gives (read (within self.now.depth) grammar.post tokens.old) result tokens.new }
    {
        let first = self.prim(tokens)?;
        if !self.goes_on(tokens) {
            return Ok(first);
        }
        let first = Boxed::new(self.alloc, first)?;
        let parts = repeat(self, tokens, Items::new(self.alloc))?;
        Ok(Expr::Post { first, parts })
    }

    /// `!a`, `-a`, `++a`, `--a`
    #[tactic(auto, unfolding(zk_tree::specs::Grammar::prefixed))]
    fn prefixed(&self, tokens: &mut Tokens<'_>) -> Result<Expr, FormFault>
        requires { Nests self.now.depth (F.pre self.now.nested) (F.post self.now.nested) }
        ensures { Gives (read (within self.now.depth) grammar.prefixed tokens.old) result tokens.new }
    {
        let place = tokens.place();
        let Some(operator) = tokens.prefix() else {
            return Err(FormFault::NoForm);
        };
        tokens.step();
        let operand = self.boxed(tokens, Counted::Unary)?;
        Ok(Expr::Unary {
            place,
            operator,
            operand,
        })
    }

    /// An operand with what stands before and behind it.
    #[tactic(auto, unfolding(zk_tree::specs::Grammar::unary, zk_tree::specs::Grammar::prefixed))]
    pub fn unary(&self, tokens: &mut Tokens<'_>) -> Result<Expr, FormFault>
        requires { Nests self.now.depth (F.pre self.now.nested) (F.post self.now.nested) }
        ensures { Gives (read (within self.now.depth) grammar.unary tokens.old) result tokens.new }
    {
        if tokens.prefix().is_some() {
            self.prefixed(tokens)
        } else {
            self.post(tokens)
        }
    }

    /// An operand of `*`.
    #[tactic(auto, unfolding(zk_tree::specs::Grammar::an_operand))]
    fn operand(&self, tokens: &mut Tokens<'_>) -> Result<Expr, FormFault>
        requires { Nests self.now.depth (F.pre self.now.nested) (F.post self.now.nested) }
        ensures { Gives (read (within self.now.depth) grammar.an_operand tokens.old) result tokens.new }
    {
        self.nested(tokens, Counted::Unary)
    }

    /// `a * b / c`
    #[tactic(auto, unfolding(zk_tree::specs::Grammar::term))]
    fn term(&self, tokens: &mut Tokens<'_>) -> Result<Expr, FormFault>
        requires { Nests self.now.depth (F.pre self.now.nested) (F.post self.now.nested) }
        ensures { Gives (read (within self.now.depth) grammar.term tokens.old) result tokens.new }
    {
        let first = self.operand(tokens)?;
        chain(
            self.alloc,
            tokens,
            Level::Term,
            first,
            &Terms { exprs: self },
        )
    }

    /// `a + b - c`
    #[tactic(auto, unfolding(zk_tree::specs::Grammar::sum))]
    fn sum(&self, tokens: &mut Tokens<'_>) -> Result<Expr, FormFault>
        requires { Nests self.now.depth (F.pre self.now.nested) (F.post self.now.nested) }
        ensures { Gives (read (within self.now.depth) grammar.sum tokens.old) result tokens.new }
    {
        let first = self.term(tokens)?;
        chain(self.alloc, tokens, Level::Sum, first, &Sums { exprs: self })
    }

    /// `a`, `a == b`, `a in b`
    #[tactic(auto, unfolding(zk_tree::specs::Grammar::compare))]
    fn compare(&self, tokens: &mut Tokens<'_>) -> Result<Expr, FormFault>
        requires { Nests self.now.depth (F.pre self.now.nested) (F.post self.now.nested) }
        ensures { Gives (read (within self.now.depth) grammar.compare tokens.old) result tokens.new }
    {
        let left = self.sum(tokens)?;
        let Some(operator) = tokens.comparing() else {
            return Ok(left);
        };
        tokens.step();
        let left = Boxed::new(self.alloc, left)?;
        let right = self.sum(tokens)?;
        let right = Boxed::new(self.alloc, right)?;
        Ok(Expr::Compare {
            left,
            operator,
            right,
        })
    }

    /// `a && b`
    #[tactic(auto, unfolding(zk_tree::specs::Grammar::conjunction))]
    fn conjunction(&self, tokens: &mut Tokens<'_>) -> Result<Expr, FormFault>
        requires { Nests self.now.depth (F.pre self.now.nested) (F.post self.now.nested) }
        ensures { Gives (read (within self.now.depth) grammar.conjunction tokens.old) result tokens.new }
    {
        let first = self.compare(tokens)?;
        chain(
            self.alloc,
            tokens,
            Level::And,
            first,
            &Conjunctions { exprs: self },
        )
    }

    /// `a || b`
    #[tactic(auto, unfolding(zk_tree::specs::Grammar::disjunction))]
    fn disjunction(&self, tokens: &mut Tokens<'_>) -> Result<Expr, FormFault>
        requires { Nests self.now.depth (F.pre self.now.nested) (F.post self.now.nested) }
        ensures { Gives (read (within self.now.depth) grammar.disjunction tokens.old) result tokens.new }
    {
        let first = self.conjunction(tokens)?;
        chain(
            self.alloc,
            tokens,
            Level::Or,
            first,
            &Disjunctions { exprs: self },
        )
    }

    /// `? b : c`
    #[tactic(auto, unfolding(zk_tree::specs::Grammar::arms))]
    fn arms(&self, tokens: &mut Tokens<'_>) -> Result<(Boxed<Expr>, Boxed<Expr>), FormFault>
        requires { Nests self.now.depth (F.pre self.now.nested) (F.post self.now.nested) }
        ensures { Gives (read (within self.now.depth) grammar.arms tokens.old) result tokens.new }
    {
        tokens.sign(Sign::Question)?;
        let yes = self.boxed(tokens, Counted::Expr)?;
        tokens.sign(Sign::Colon)?;
        let no = self.boxed(tokens, Counted::Cond)?;
        Ok((yes, no))
    }

    /// `a`, `a ? b : c`
    #[tactic(auto, unfolding(zk_tree::specs::Grammar::choice, zk_tree::specs::Grammar::arms))]
    pub fn choice(&self, tokens: &mut Tokens<'_>) -> Result<Expr, FormFault>
        requires { Nests self.now.depth (F.pre self.now.nested) (F.post self.now.nested) }
        ensures { Gives (read (within self.now.depth) grammar.choice tokens.old) result tokens.new }
    {
        let test = self.disjunction(tokens)?;
        if !tokens.begins(Sign::Question) {
            return Ok(test);
        }
        let test = Boxed::new(self.alloc, test)?;
        let (yes, no) = self.arms(tokens)?;
        Ok(Expr::Choice { test, yes, no })
    }

    /// `a`, `a = b`
    #[tactic(auto, unfolding(zk_tree::specs::Grammar::assignment))]
    pub fn assignment(&self, tokens: &mut Tokens<'_>) -> Result<Expr, FormFault>
        requires { Nests self.now.depth (F.pre self.now.nested) (F.post self.now.nested) }
        ensures { Gives (read (within self.now.depth) grammar.assignment tokens.old) result tokens.new }
    {
        let left = self.nested(tokens, Counted::Cond)?;
        let Some(operator) = tokens.assigning() else {
            return Ok(left);
        };
        tokens.step();
        let left = Boxed::new(self.alloc, left)?;
        let right = self.boxed(tokens, Counted::Expr)?;
        Ok(Expr::Assign {
            left,
            operator,
            right,
        })
    }
}

/// A node of an expression that is nested at most so deep, itself counted.
pub fn nested_expr(
    alloc: Global,
    tokens: &mut Tokens<'_>,
    depth: u64,
    what: Counted,
) -> Result<Expr, FormFault>
    ensures { Gives (within depth SyntaxExpr (nest_of what) tokens.old) result tokens.new }
{
    if depth == 0 {
        return Err(FormFault::NoForm);
    }
    let exprs = Exprs {
        alloc,
        depth: depth - 1,
        nested: nested_expr,
    };
    match what {
        Counted::Expr => exprs.assignment(tokens),
        Counted::Cond => exprs.choice(tokens),
        Counted::Unary => exprs.unary(tokens),
    }
}
