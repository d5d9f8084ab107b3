//! Expressions that stand in no body.
ghost use Rattle.zk_typed.specs.Declarations.{bodiless};
ghost use Rattle.zk_typed.specs.Expressions as rules;
ghost use Rattle.zk_typed.specs.Statements as statements;
ghost use Rattle.zk_typed.specs.Tells.{Tells};
ghost use Rattle.zk_scope.specs.Lent.{home_of};
ghost use Rattle.zk_scope.specs.Scripted.{scripts_in};
ghost use Rattle.zk_check_operators.specs.Views.{typed_of, wanted_in};
ghost use Rattle.zk_check_expressions.specs.Envs.{globals_at};

use std::alloc::Global;
use zk_check_expressions::{Env, Globals, expr_typed, init_typed};
use zk_check_operators::{Typed, Wanted};
use zk_scope::{Home, Scripts};
use zk_tree::{Expr, Init};
use zk_typed::Refusal;

/// An expression of no body, where a type is wanted.
pub fn bodiless_expr<'a>(
    alloc: Global,
    scripts: &'a Scripts<'a>,
    globals: Globals<'a>,
    home: Home<'a>,
    wanted: Wanted<'_>,
    one: &Expr,
) -> Result<Typed, Refusal>
    ensures { Tells typed_of result (rules.expr_typed (bodiless (scripts_in scripts.now.names) (home_of home.entry) (globals_at globals.entry)) (wanted_in wanted.entry) one.now) }
{
    let env = Env {
        scripts,
        home,
        locals: None,
        globals,
    };
    expr_typed(alloc, &env, wanted, one)
}

/// An initial value of no body, where a type is wanted.
pub fn bodiless_init<'a>(
    alloc: Global,
    scripts: &'a Scripts<'a>,
    globals: Globals<'a>,
    home: Home<'a>,
    wanted: Wanted<'_>,
    init: &Init,
) -> Result<Typed, Refusal>
    ensures { Tells typed_of result (statements.init_typed (bodiless (scripts_in scripts.now.names) (home_of home.entry) (globals_at globals.entry)) (wanted_in wanted.entry) init.now) }
{
    let env = Env {
        scripts,
        home,
        locals: None,
        globals,
    };
    init_typed(alloc, &env, wanted, init)
}
