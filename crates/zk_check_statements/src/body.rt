ghost use Rattle.std.specs.Prelude.{◌≡◌};
ghost use Rattle.std.specs.Option.{option_copied};
ghost use Rattle.zk_check_expressions.specs.Envs.{locals_of};
ghost use Rattle.zk_typed.specs.Statements as spec;
ghost use Rattle.zk_check_statements.specs.Bodies.{Gives, context_of, other_typed};

use crate::begins::local_stmt;
use crate::context::{Context, check_in, looping, place_of};
use crate::joins::{if_made, while_made};
use crate::loops::{for_made, loop_names, over_and_types};
use crate::made::{block, no_stmt};
use crate::plain::plain_stmt;
use sqlite_items::Items;
use zk_check_expressions::Locals;
use zk_check_operators::{Wanted, with_part};
use zk_tree::{Block, Expr, Keys, Name, Stmt as Syntax};
use zk_typed::script::{SimpleType, Stmt, ValueType};
use zk_typed::{Refusal, Rule, one_broken};

const BOOL: ValueType = ValueType::Simple(SimpleType::Bool);

/// The arm behind `else`, where there is one.
#[cycle(stmt)]
fn other_arm<'a>(
    context: &Context<'a, '_>,
    locals: &mut Locals<'a>,
    depth: u64,
    other: Option<&'a Syntax>,
) -> Result<Stmt, Refusal>
    ensures { Gives result locals.new (other_typed (spec.stmt_to depth) (context_of context.now) (locals_of locals.old) (option_copied other.entry)) }
{
    match other {
        Some(one) => stmt(context, locals, depth, one),
        None => Ok(no_stmt(context.alloc)),
    }
}

/// `if`, with the arm behind `else` where there is one.
#[cycle(stmt)]
fn if_stmt<'a>(
    context: &Context<'a, '_>,
    locals: &mut Locals<'a>,
    depth: u64,
    place: u64,
    test: &'a Expr,
    one: &'a Syntax,
    other: Option<&'a Syntax>,
) -> Result<Stmt, Refusal>
    ensures { Gives result locals.new (spec.if_typed (spec.stmt_to depth) (context_of context.now) (locals_of locals.old) place test.now one.now (option_copied other.entry)) }
{
    let test = check_in(context, locals, Wanted::Type(&BOOL), test);
    let yes = stmt(context, locals, depth, one);
    let no = other_arm(context, locals, depth, other);
    if_made(context.alloc, place_of(context, place), test, yes, no)
}

/// `while`
#[cycle(stmt)]
fn while_stmt<'a>(
    context: &Context<'a, '_>,
    locals: &mut Locals<'a>,
    depth: u64,
    place: u64,
    test: &'a Expr,
    body: &'a Syntax,
) -> Result<Stmt, Refusal>
    ensures { Gives result locals.new (spec.while_typed (spec.stmt_to depth) (context_of context.now) (locals_of locals.old) place test.now body.now) }
{
    let test = check_in(context, locals, Wanted::Type(&BOOL), test);
    let body = stmt(&looping(context), locals, depth, body);
    while_made(context.alloc, place_of(context, place), test, body)
}

/// `for`
#[cycle(stmt)]
fn for_stmt<'a>(
    context: &Context<'a, '_>,
    locals: &mut Locals<'a>,
    depth: u64,
    place: u64,
    keys: &'a Keys,
    named: &'a Option<Name>,
    over: &'a Expr,
    body: &'a Syntax,
) -> Result<Stmt, Refusal>
    ensures { Gives result locals.new (spec.for_typed (spec.stmt_to depth) (context_of context.now) (locals_of locals.old) place keys.now named.now over.now body.now) }
{
    let over = over_and_types(context, locals, place, keys, named, over);
    let names = loop_names(context, locals, keys, named, &over);
    let body = stmt(&looping(context), locals, depth, body);
    let place = place_of(context, place);
    for_made(context.alloc, place, named, over, names, body)
}

/// Statements in braces.
#[cycle(stmt)]
fn block_stmt<'a>(
    context: &Context<'a, '_>,
    locals: &mut Locals<'a>,
    depth: u64,
    one: &'a Block,
) -> Result<Stmt, Refusal>
    ensures { Gives result locals.new (spec.block_typed (spec.stmt_to depth) (context_of context.now) (locals_of locals.old) one.now) }
{
    let mut all = Ok(Vec::new(context.alloc));
    for one in one.stmts.as_slice() {
        all = with_part(all, stmt(context, locals, depth, one));
    }
    match all {
        Ok(stmts) => Ok(block(Items::from_vec(stmts))),
        Err(refusal) => Err(refusal),
    }
}

/// A statement that is at most so deep.
#[cycle(stmt)]
pub fn stmt<'a>(
    context: &Context<'a, '_>,
    locals: &mut Locals<'a>,
    depth: u64,
    one: &'a Syntax,
) -> Result<Stmt, Refusal>
    ensures { Gives result locals.new (spec.stmt_to depth (context_of context.now) (locals_of locals.old) one.now) }
{
    if depth == 0 {
        let place = place_of(context, one.place());
        return Err(Refusal::Broken(one_broken(context.alloc, Rule::WrongType, place)?));
    }
    let less = depth - 1;
    match one {
        Syntax::Block { block } => block_stmt(context, locals, less, block),
        Syntax::If { place, test, yes } => {
            if_stmt(context, locals, less, *place, test, yes.get(), None)
        }
        Syntax::IfElse {
            place,
            test,
            yes,
            no,
        } => if_stmt(
            context,
            locals,
            less,
            *place,
            test,
            yes.get(),
            Some(no.get()),
        ),
        Syntax::While { place, test, body } => {
            while_stmt(context, locals, less, *place, test, body.get())
        }
        Syntax::For {
            place,
            keys,
            value,
            over,
            body,
        } => for_stmt(context, locals, less, *place, keys, value, over, body.get()),
        Syntax::Local {
            place,
            name,
            local_type,
            init,
        } => local_stmt(context, locals, *place, name, local_type, init),
        _ => plain_stmt(context, locals, one),
    }
}

/// The statements of a body, beside the names that are visible at its start.
#[tactic(auto, unfolding(zk_typed::specs::Within::depth_max))]
pub fn body_typed<'a>(
    context: &Context<'a, '_>,
    locals: &mut Locals<'a>,
    one: &'a Block,
) -> Result<Stmt, Refusal>
    ensures { Gives result locals.new (spec.body_typed (context_of context.now) (locals_of locals.old) one.now) }
{
    block_stmt(context, locals, u64::MAX, one)
}
