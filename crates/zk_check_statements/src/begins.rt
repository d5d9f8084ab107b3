ghost use Rattle.std.specs.Prelude.{◌≡◌, length, IfOk, Some, None};
ghost use Rattle.std.specs.Option.{option_map};
ghost use Rattle.zk_check_expressions.specs.Envs.{env_of, locals_of};
ghost use Rattle.zk_scope.specs.Scripted.{scripts_in};
ghost use Rattle.zk_scope.specs.Lent.{home_of};
ghost use Rattle.zk_check_operators.specs.Gather.{Told};
ghost use Rattle.zk_check_operators.specs.Views.{typed_of, wanted_in};
ghost use Rattle.zk_typed.specs.Checked.{Checked, each};
ghost use Rattle.zk_typed.specs.Declarations.{nothing};
ghost use Rattle.zk_typed.specs.Forms as form;
ghost use Rattle.zk_typed.specs.Resolving as resolving;
ghost use Rattle.zk_typed.specs.Statements as spec;
ghost use Rattle.zk_typed.specs.Tells.{Tells};
ghost use Rattle.zk_typed.specs.Types as types;
ghost use Rattle.zk_typed.specs.Typing as typing;
ghost use Rattle.zk_typed.specs.declared.script.action.Action.TheVariants as action;
ghost use Rattle.zk_typed.specs.declared.script.action.Left.TheVariants as left;
ghost use Rattle.zk_typed.specs.View.{expr_of, stmt_of, type_of};
ghost use Rattle.zk_check_statements.specs.Begins.{Begins, IsKnown, IsMade, declared_type, given_of, is_bare, named, once, seen};
ghost use Rattle.zk_check_statements.specs.Bodies.{Gives, context_of};
ghost use Rattle.zk_check_statements.specs.Turns.{names_lent};

use crate::context::{Context, env_in, place_of};
use crate::made::done;
use crate::mentions::mentions;
use crate::turns::{new_local, next_local};
use sqlite_items::Items;
use std::alloc::{AllocError, Global};
use zk_base::Mem;
use zk_check_expressions::{Locals, init_typed, local_meant};
use zk_check_operators::{Typed, Wanted, also, both, empty_of, one_operand};
use zk_tree::{Init, Name, Place, Type};
use zk_typed::script::{Action, Expr, Left, Stmt, ValueType};
use zk_typed::{Refusal, Rule, one_broken};

/// The statement that a `local` is, and the type that its name has from then on, where it is known.
pub struct Begun {
    pub value_type: Option<ValueType>,
    pub made: Result<Stmt, Refusal>,
}

/// Whether a name that a type mentions is hidden by a local.
fn seen(context: &Context<'_, '_>, locals: &Locals<'_>, name: &Name) -> Result<(), Refusal>
    ensures { Tells (λ done. done) result (seen (context_of context.now) (locals_of locals.now) name.now) }
{
    match local_meant(context.alloc, Some(locals), name.text.as_slice())? {
        None => Ok(()),
        Some(_) => {
            let place = place_of(context, name.place);
            Err(Refusal::Broken(one_broken(context.alloc, Rule::WrongType, place)?))
        }
    }
}

/// Whether names that a type mentions are hidden by locals.
fn all_seen(context: &Context<'_, '_>, locals: &Locals<'_>, names: &[&Name]) -> Result<(), Refusal>
    ensures { Tells (λ done. done) result (nothing (each (seen (context_of context.now) (locals_of locals.now)) (names_lent names.now))) }
{
    let mut all = Ok(());
    for name in names {
        all = also(all, seen(context, locals, name));
    }
    all
}

/// The type that a `local` is declared with, whose names no local hides.
#[tactic(auto, using(zk_check_operators::proofs::BothLaws::passed))]
fn local_type(
    context: &Context<'_, '_>,
    locals: &Locals<'_>,
    tree: &Type,
) -> Result<ValueType, Refusal>
    ensures { Tells type_of result (declared_type (context_of context.now) (locals_of locals.now) tree.now) }
{
    let names = mentions(context.alloc, tree)?;
    match all_seen(context, locals, names.as_slice()) {
        Ok(()) => context
            .scripts
            .names
            .type_of(context.alloc, context.home, tree),
        Err(refusal) => Err(refusal),
    }
}

/// A local begins with the empty value of its type, or with none.
fn begin(alloc: Global, place: Place, local: u32, one: &ValueType) -> Result<Stmt, Mem>
    ensures { IfOk result (λ made. stmt_of made ≡ spec.local_begin place local (type_of one.now)) }
{
    match empty_of(alloc, one)? {
        None => Ok(done(place, Action::Forget { local }, Items::new(alloc))),
        Some(empty) => assigned(alloc, place, local, empty),
    }
}

/// A local is given a value.
fn assigned(alloc: Global, place: Place, local: u32, value: Expr) -> Result<Stmt, Mem>
    ensures { IfOk result (λ made. stmt_of made ≡ form.Do place (action.Assign (left.Local local)) (form.AndExpr (expr_of value) form.NoExpr)) }
{
    let operands = one_operand(alloc, value)?;
    Ok(done(place, Action::Assign(Left::Local(local)), operands))
}

/// A local with a number of its own begins with the empty value of its type, or with none.
fn begin_local(
    alloc: Global,
    locals: &Locals<'_>,
    place: Place,
    one: &ValueType,
) -> Result<Stmt, Mem>
    ensures { IfOk result (λ made. stmt_of made ≡ spec.local_begin place (length (locals_of locals.now)) (type_of one.now)) }
{
    let local = next_local(locals)?;
    begin(alloc, place, local, one)
}

/// A local with a number of its own is given a value.
fn give_local(alloc: Global, locals: &Locals<'_>, place: Place, value: Expr) -> Result<Stmt, Mem>
    ensures { IfOk result (λ made. stmt_of made ≡ form.Do place (action.Assign (left.Local (length (locals_of locals.now)))) (form.AndExpr (expr_of value) form.NoExpr)) }
{
    match next_local(locals) {
        Ok(local) => assigned(alloc, place, local, value),
        Err(refused) => {
            drop(value);
            Err(refused)
        }
    }
}

/// A local of a type, without an initial value.
fn typed_local(
    context: &Context<'_, '_>,
    locals: &Locals<'_>,
    place: Place,
    declared: Result<ValueType, Refusal>,
) -> Begun
    ensures { (type : Checked types.ValueType) → Tells type_of declared type → Begins result (Some type) (spec.local_value (context_of context.now) (locals_of locals.now) place (Some type) None) }
{
    match declared {
        Ok(one) => match begin_local(context.alloc, locals, place, &one) {
            Ok(made) => Begun {
                value_type: Some(one),
                made: Ok(made),
            },
            Err(_) => Begun {
                value_type: None,
                made: Err(Refusal::NoMemory),
            },
        },
        Err(refusal) => Begun {
            value_type: None,
            made: Err(refusal),
        },
    }
}

/// A local of the type of its initial value.
fn given_local(context: &Context<'_, '_>, locals: &Locals<'_>, place: Place, init: &Init) -> Begun
    ensures { Begins result None (spec.local_value (context_of context.now) (locals_of locals.now) place None (Some init.now)) }
{
    let alloc = context.alloc;
    match init_typed(alloc, &env_in(context, locals), Wanted::Nothing, init) {
        Ok(one) => match give_local(alloc, locals, place, one.expr) {
            Ok(made) => Begun {
                value_type: Some(one.value_type),
                made: Ok(made),
            },
            Err(_) => Begun {
                value_type: None,
                made: Err(Refusal::NoMemory),
            },
        },
        Err(refusal) => Begun {
            value_type: None,
            made: Err(refusal),
        },
    }
}

/// An initial value where a type is declared.
fn wanted_init(
    context: &Context<'_, '_>,
    locals: &Locals<'_>,
    declared: &Result<ValueType, Refusal>,
    init: &Init,
) -> Result<Typed, Refusal>
    ensures { (type : Checked types.ValueType) → Told declared.now → Tells type_of declared.now type → Tells typed_of result (spec.init_typed (spec.env_of (context_of context.now) (locals_of locals.now)) (spec.local_wants (Some type)) init.now) }
{
    let env = env_in(context, locals);
    match declared {
        Ok(one) => init_typed(context.alloc, &env, Wanted::Type(one), init),
        Err(_) => init_typed(context.alloc, &env, Wanted::Unclear, init),
    }
}

/// Whether a type is right, and the type, where it is known.
fn known(declared: Result<ValueType, Refusal>) -> (Result<(), Refusal>, Option<ValueType>)
    ensures { IsKnown declared result }
{
    match declared {
        Ok(one) => (Ok(()), Some(one)),
        Err(refusal) => (Err(refusal), None),
    }
}

/// A local with an initial value, of right parts.
fn given_parts(
    context: &Context<'_, '_>,
    locals: &Locals<'_>,
    place: Place,
    declared: Result<(), Refusal>,
    given: Result<Typed, Refusal>,
) -> Result<Stmt, Refusal>
    ensures made { (type : Checked (Unit {0})) (value : Checked typing.Typed) → Tells (λ done. done) declared type → Tells typed_of given value →
        Tells stmt_of result (given_of place (length (locals_of locals.now)) type value) }
    ensures known { Told result → Told declared × Told given }
{
    match both(declared, given) {
        Ok((_, one)) => match give_local(context.alloc, locals, place, one.expr) {
            Ok(made) => Ok(made),
            Err(_) => Err(Refusal::NoMemory),
        },
        Err(refusal) => Err(refusal),
    }
}

/// A local of a type with an initial value.
fn typed_and_given_local(
    context: &Context<'_, '_>,
    locals: &Locals<'_>,
    place: Place,
    declared: Result<ValueType, Refusal>,
    init: &Init,
) -> Begun
    ensures { (type : Checked types.ValueType) → Tells type_of declared type → Begins result (Some type) (spec.local_value (context_of context.now) (locals_of locals.now) place (Some type) (Some init.now)) }
{
    let given = wanted_init(context, locals, &declared, init);
    let (declared, value_type) = known(declared);
    let made = given_parts(context, locals, place, declared, given);
    Begun { value_type, made }
}

/// What a `local` begins with, of a type that is declared.
fn declared_local(
    context: &Context<'_, '_>,
    locals: &Locals<'_>,
    place: Place,
    tree: &Type,
    init: &Option<Init>,
) -> Begun
    ensures { Begins result (Some (declared_type (context_of context.now) (locals_of locals.now) tree.now)) (spec.local_value (context_of context.now) (locals_of locals.now) place (Some (declared_type (context_of context.now) (locals_of locals.now) tree.now)) init.now) }
{
    let declared = local_type(context, locals, tree);
    match init {
        None => typed_local(context, locals, place, declared),
        Some(init) => typed_and_given_local(context, locals, place, declared, init),
    }
}

/// A local without a type and without an initial value.
fn bare_local(alloc: Global, place: Place) -> Begun
    ensures { (context : spec.Context) (locals : spec.Locals) → Begins result None (spec.local_value context locals place None None) }
{
    let made = match one_broken(alloc, Rule::WrongType, place) {
        Ok(rules) => Err(Refusal::Broken(rules)),
        Err(_) => Err(Refusal::NoMemory),
    };
    Begun {
        value_type: None,
        made,
    }
}

/// What a `local` begins with.
fn local_begun(
    context: &Context<'_, '_>,
    locals: &Locals<'_>,
    place: Place,
    tree: &Option<Type>,
    init: &Option<Init>,
) -> Begun
    ensures { Begins result (spec.local_type (context_of context.now) (locals_of locals.now) tree.now) (spec.local_value (context_of context.now) (locals_of locals.now) place (spec.local_type (context_of context.now) (locals_of locals.now) tree.now) init.now) }
{
    match tree {
        Some(tree) => declared_local(context, locals, place, tree, init),
        None => match init {
            Some(init) => given_local(context, locals, place, init),
            None => bare_local(context.alloc, place),
        },
    }
}

/// That no other local has a name.
fn once(alloc: Global, locals: &Locals<'_>, place: Place, name: &Name) -> Result<(), Refusal>
    ensures { Tells (λ done. done) result (once name.now (locals_of locals.now) place) }
{
    match locals.named(alloc, name.text.as_slice())? {
        None => Ok(()),
        Some(_) => Err(Refusal::Broken(one_broken(alloc, Rule::Twice, place)?)),
    }
}

/// A declaration with what is said of its name: beside it where it is bare, and else once its parts are right.
#[tactic(auto, using(zk_check_operators::proofs::BothLaws::passed))]
fn named(
    bare: bool,
    once: Result<(), Refusal>,
    made: Result<Stmt, Refusal>,
) -> Result<Stmt, Refusal>
    ensures made { (name : Checked (Unit {0})) (wanted : Checked form.Stmt) → Tells (λ done. done) once name → Tells stmt_of made wanted → Tells stmt_of result (named bare name wanted) }
    ensures known { Told result → Told made }
{
    if bare {
        return match both(once, made) {
            Ok((_, made)) => Ok(made),
            Err(refusal) => Err(refusal),
        };
    }
    match made {
        Ok(made) => match once {
            Ok(()) => Ok(made),
            Err(refusal) => {
                drop(made);
                Err(refusal)
            }
        },
        Err(refusal) => Err(refusal),
    }
}

/// Whether a declaration has neither a type nor a value.
fn is_bare(tree: &Option<Type>, init: &Option<Init>) -> bool
    ensures { result ≡ is_bare tree.now init.now }
{
    match tree {
        Some(_) => false,
        None => match init {
            Some(_) => false,
            None => true,
        },
    }
}

/// What a `local` is at its place, with what is said of its name.
fn local_made(
    context: &Context<'_, '_>,
    locals: &Locals<'_>,
    place: Place,
    name: &Name,
    tree: &Option<Type>,
    init: &Option<Init>,
) -> Begun
    ensures { IsMade result (context_of context.now) (locals_of locals.now) place name.now tree.now init.now }
{
    let Begun { value_type, made } = local_begun(context, locals, place, tree, init);
    let once = once(context.alloc, locals, place, name);
    let made = named(is_bare(tree, init), once, made);
    Begun { value_type, made }
}

/// `local`, whose name is visible from its end on.
pub fn local_stmt<'a>(
    context: &Context<'a, '_>,
    locals: &mut Locals<'a>,
    place: u64,
    name: &'a Name,
    tree: &'a Option<Type>,
    init: &'a Option<Init>,
) -> Result<Stmt, Refusal>
    ensures { Gives result locals.new (spec.local_stated (context_of context.now) (locals_of locals.old) place name.now tree.now init.now) }
{
    let place = place_of(context, place);
    let Begun { value_type, made } = local_made(context, locals, place, name, tree, init);
    match new_local(context.alloc, locals, name.text.as_slice(), value_type) {
        Ok(_) => made,
        Err(_) => {
            drop(made);
            Err(Refusal::NoMemory)
        }
    }
}
