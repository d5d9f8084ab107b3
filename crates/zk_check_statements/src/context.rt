ghost use Rattle.std.specs.Prelude.{◌≡◌};
ghost use Rattle.zk_check_expressions.specs.Envs.{env_of, locals_of};
ghost use Rattle.zk_check_operators.specs.Views.{typed_of, wanted_in};
ghost use Rattle.zk_typed.specs.Statements as spec;
ghost use Rattle.zk_typed.specs.Tells.{Tells};
ghost use Rattle.zk_typed.specs.Typing as typing;
ghost use Rattle.zk_check_statements.specs.Bodies.{context_of};

use std::alloc::Global;
use zk_check_expressions::{Env, Globals, Locals, expr_typed};
use zk_check_operators::{Typed, Wanted};
use zk_scope::{Home, Scripts};
use zk_tree::{Expr, Place};
use zk_typed::Refusal;

/// What a body is of.
#[derive(Clone, Copy)]
pub enum Within<'a> {
    /// A function, with what its result has to be, where it has one.
    Function(Option<Wanted<'a>>),
    Hook,
    Handler,
}

/// The body that statements stand in, and whether they stand in a loop of it.
#[derive(Clone, Copy)]
pub struct Context<'a, 'w> {
    pub alloc: Global,
    pub scripts: &'a Scripts<'a>,
    pub home: Home<'a>,
    /// The types of the globals and constants.
    pub globals: Globals<'a>,
    pub within: Within<'w>,
    pub in_loop: bool,
}

/// A place in the file of a body.
pub fn place_of(context: &Context<'_, '_>, byte: u64) -> Place
    ensures { result ≡ spec.place_of (context_of context.now) byte }
{
    Place {
        file: context.home.file,
        byte,
    }
}

/// The place of an expression of a body.
pub fn expr_place(context: &Context<'_, '_>, one: &Expr) -> Place
    ensures { (locals : spec.Locals) → result ≡ typing.expr_place (spec.env_of (context_of context.now) locals) one.now }
{
    place_of(context, one.place())
}

/// Whether `break` may stand.
pub fn breaks(context: &Context<'_, '_>) -> bool
    ensures { result ≡ spec.breaks (context_of context.now) }
{
    let in_hook = match context.within {
        Within::Hook => true,
        Within::Function(_) | Within::Handler => false,
    };
    context.in_loop || in_hook
}

/// The same body, in a loop.
pub fn looping<'a, 'w>(context: &Context<'a, 'w>) -> Context<'a, 'w>
    ensures { context_of result ≡ spec.looping (context_of context.entry.now) }
{
    Context {
        alloc: context.alloc,
        scripts: context.scripts,
        home: context.home,
        globals: context.globals,
        within: context.within,
        in_loop: true,
    }
}

/// Where the expressions of a body stand, beside the names that are visible.
pub fn env_in<'e>(context: &Context<'e, '_>, locals: &'e Locals<'e>) -> Env<'e>
    ensures { env_of result ≡ spec.env_of (context_of context.entry.now) (locals_of locals.entry.now) }
{
    Env {
        scripts: context.scripts,
        home: context.home,
        locals: Some(locals),
        globals: context.globals,
    }
}

/// An expression where a type is wanted.
pub fn check_in(
    context: &Context<'_, '_>,
    locals: &Locals<'_>,
    wanted: Wanted<'_>,
    one: &Expr,
) -> Result<Typed, Refusal>
    ensures { Tells typed_of result (spec.check_in (context_of context.now) (locals_of locals.now) (wanted_in wanted.entry) one.now) }
{
    expr_typed(context.alloc, &env_in(context, locals), wanted, one)
}
