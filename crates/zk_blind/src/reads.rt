ghost use Rattle.std.specs.Prelude.{◌≡◌, ◌&&◌};
ghost use Rattle.std.specs.List.{list_all};
ghost use Rattle.std.specs.Option.{option_map};
ghost use Rattle.zk_blind.specs.Givens.{given_of, all_given};
ghost use Rattle.zk_typed.specs.Blind as spec;
ghost use Rattle.zk_typed.specs.Forms.{Givens};
ghost use Rattle.zk_typed.specs.View as view;

use zk_base::EventNo;
use zk_typed::script::{
    Action, Expr, FieldNo, Given, Global, Handler, Hook, HookBody, Left, Primitive, Program, Stmt,
};

/// `packet_seen(t: time, caplen: count, len: count)`, the third of the events that every program has: for
/// each packet of a capture.
pub const PACKET_SEEN: EventNo = EventNo(2);

/// Whether a field is marked `&wire`.
fn is_wire(program: &Program, one: FieldNo) -> bool
    ensures { result ≡ spec.is_wire (view.program_of program.now) one }
{
    let Some(record) = program.records.as_slice().get(one.record.0 as usize) else {
        return false;
    };
    match record.fields.as_slice().get(one.field as usize) {
        None => false,
        Some(field) => field.wire,
    }
}

fn reads_none(program: &Program, left: Left) -> bool
    ensures { result ≡ spec.reads_none (view.program_of program.now) left }
{
    match left {
        Left::Field(field) => !is_wire(program, field),
        Left::Local(_) | Left::Global(_) | Left::Element | Left::Item => true,
    }
}

fn primitive_blind(program: &Program, one: &Primitive) -> bool
    ensures { result ≡ spec.primitive_blind (view.program_of program.now) one.now }
{
    match one {
        Primitive::Field(field) | Primitive::HasField(field) => !is_wire(program, *field),
        Primitive::Step { left, .. } => reads_none(program, *left),
        _ => true,
    }
}

fn action_blind(program: &Program, one: Action) -> bool
    ensures { result ≡ spec.action_blind (view.program_of program.now) one }
{
    match one {
        Action::Update { left, .. } => reads_none(program, left),
        _ => true,
    }
}

#[cycle(expr)]
fn expr_blind(program: &Program, one: &Expr) -> bool
    ensures { result ≡ spec.expr_blind (view.program_of program.now) (view.expr_of one.now) }
{
    match one {
        Expr::Literal(_) | Expr::Local(_) | Expr::Global(_) => true,
        Expr::Apply {
            primitive,
            operands,
        } => primitive_blind(program, primitive) && exprs_blind(program, operands.as_slice()),
        Expr::New { given, .. } => givens_blind(program, given.as_slice()),
        Expr::And(left, right) | Expr::Or(left, right) => {
            expr_blind(program, left.get()) && expr_blind(program, right.get())
        }
        Expr::Choice { test, yes, no } => {
            expr_blind(program, test.get())
                && expr_blind(program, yes.get())
                && expr_blind(program, no.get())
        }
        Expr::Call { operands, .. } => exprs_blind(program, operands.as_slice()),
        Expr::Hook { operands, .. } => exprs_blind(program, operands.as_slice()),
        Expr::Write { row, .. } => expr_blind(program, row.get()),
    }
}

#[cycle(expr)]
fn exprs_blind(program: &Program, all: &[Expr]) -> bool
    ensures { result ≡ spec.exprs_blind (view.program_of program.now) (view.all_of all.now) }
{
    for one in all {
        if !expr_blind(program, one) {
            return false;
        }
    }
    true
}

#[cycle(expr)]
fn given_blind(program: &Program, one: &Given) -> bool
    ensures { (others : Givens) → spec.givens_blind (view.program_of program.now) (given_of one.now others) ≡ result && spec.givens_blind (view.program_of program.now) others }
{
    match one {
        Given::Value { value, .. } => expr_blind(program, value),
        Given::Wire { from, .. } => expr_blind(program, from),
    }
}

#[cycle(expr)]
fn givens_blind(program: &Program, all: &[Given]) -> bool
    ensures { result ≡ spec.givens_blind (view.program_of program.now) (all_given all.now) }
{
    for one in all {
        if !given_blind(program, one) {
            return false;
        }
    }
    true
}

fn maybe_blind(program: &Program, one: &Option<Expr>) -> bool
    ensures { result ≡ spec.maybe_blind (view.program_of program.now) (option_map view.expr_of one.now) }
{
    match one {
        None => true,
        Some(one) => expr_blind(program, one),
    }
}

#[cycle(stmt)]
fn stmt_blind(program: &Program, one: &Stmt) -> bool
    ensures { result ≡ spec.stmt_blind (view.program_of program.now) (view.stmt_of one.now) }
{
    match one {
        Stmt::Block(all) => stmts_blind(program, all.as_slice()),
        Stmt::Do {
            action,
            operands,
            ..
        } => action_blind(program, *action) && exprs_blind(program, operands.as_slice()),
        Stmt::Move { to, from, .. } => expr_blind(program, to) && expr_blind(program, from),
        Stmt::Evaluate { value, .. } => expr_blind(program, value),
        Stmt::Call { operands, .. } => exprs_blind(program, operands.as_slice()),
        Stmt::If { test, yes, no, .. } => {
            expr_blind(program, test)
                && stmt_blind(program, yes.get())
                && stmt_blind(program, no.get())
        }
        Stmt::While { test, body, .. } => {
            expr_blind(program, test) && stmt_blind(program, body.get())
        }
        Stmt::ForKeys { over, body, .. } | Stmt::ForIndexes { over, body, .. } => {
            expr_blind(program, over) && stmt_blind(program, body.get())
        }
        Stmt::Return { value, .. } => maybe_blind(program, value),
        Stmt::Next { .. } | Stmt::Break { .. } => true,
    }
}

#[cycle(stmt)]
fn stmts_blind(program: &Program, all: &[Stmt]) -> bool
    ensures { result ≡ list_all (λ one. spec.stmt_blind (view.program_of program.now) (view.stmt_of one)) all.now }
{
    for one in all {
        if !stmt_blind(program, one) {
            return false;
        }
    }
    true
}

#[tactic(auto, using(crate::proofs::Views::exprs_are_all))]
fn global_blind(program: &Program, one: &Global) -> bool
    ensures { result ≡ spec.global_blind (view.program_of program.now) (view.global_of one.now) }
{
    maybe_blind(program, &one.initial) && exprs_blind(program, one.added.as_slice())
}

fn bodies_blind(program: &Program, all: &[HookBody]) -> bool
    ensures { result ≡ list_all (λ body. spec.stmt_blind (view.program_of program.now) (view.stmt_of body.body)) all.now }
{
    all.iter().all(|one| stmt_blind(program, &one.body))
}

#[tactic(auto, using(crate::proofs::Views::hook_is_blind))]
fn hook_blind(program: &Program, one: &Hook) -> bool
    ensures { result ≡ spec.hook_blind (view.program_of program.now) (view.hook_of one.now) }
{
    bodies_blind(program, one.bodies.as_slice())
}

fn handler_blind(program: &Program, one: &Handler) -> bool
    ensures { result ≡ spec.handler_blind (view.program_of program.now) (view.handler_of one.now) }
{
    one.event.0 != PACKET_SEEN.0 && stmt_blind(program, &one.body)
}

fn globals_blind(program: &Program) -> bool
    ensures { result ≡ list_all (λ one. spec.global_blind (view.program_of program.now) (view.global_of one)) program.now.globals }
{
    program
        .globals
        .as_slice()
        .iter()
        .all(|one| global_blind(program, one))
}

fn functions_blind(program: &Program) -> bool
    ensures { result ≡ list_all (λ one. spec.stmt_blind (view.program_of program.now) (view.stmt_of one.body)) program.now.functions }
{
    program
        .functions
        .as_slice()
        .iter()
        .all(|one| stmt_blind(program, &one.body))
}

fn hooks_blind(program: &Program) -> bool
    ensures { result ≡ list_all (λ one. spec.hook_blind (view.program_of program.now) (view.hook_of one)) program.now.hooks }
{
    program
        .hooks
        .as_slice()
        .iter()
        .all(|one| hook_blind(program, one))
}

fn handlers_blind(program: &Program) -> bool
    ensures { result ≡ list_all (λ one. spec.handler_blind (view.program_of program.now) (view.handler_of one)) program.now.handlers }
{
    program
        .handlers
        .as_slice()
        .iter()
        .all(|one| handler_blind(program, one))
}

/// Whether a program handles no `packet_seen`, and reads a field marked `&wire` only to give another
/// such field its value: then what it writes doesn't depend on how streams were cut into packets.
#[tactic(auto, using(crate::proofs::Views::program_is_blind))]
pub fn blind(program: &Program) -> bool
    ensures { result ≡ spec.is_blind (view.program_of program.now) }
{
    globals_blind(program)
        && functions_blind(program)
        && hooks_blind(program)
        && handlers_blind(program)
}
