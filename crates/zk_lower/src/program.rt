ghost use Rattle.std.specs.Prelude.{◌≡◌, [], ◌∷◌, ◌++◌, length, map, OnOk, IfOk};
ghost use Rattle.zk_typed.specs.declared.script.action.Action.TheVariants as action;
ghost use Rattle.zk_typed.specs.declared.script.action.Left.TheVariants as left;
ghost use Rattle.zk_typed.specs.Meaning.{in_order};
ghost use Rattle.zk_typed.specs.View.{expr_of, stmt_of, handler_of, function_of, hook_body_of, hook_of, global_of, program_of};
ghost use Rattle.zk_lower.specs.Code as plain;
ghost use Rattle.zk_lower.specs.Lowering.{expr_code, added_code, initial_code, initials_code, body_code, laid, placed, handler_ops, handler_found, function_ops, function_found, hook_body_ops, hook_body_found, hook_ops, hook_found, entry_of, globals_found, lowered};
ghost use Rattle.zk_lower.specs.View as view;

use crate::code::{BodyCode, Code, GlobalCode, HandlerCode, number_at};
use crate::exprs::put_expr;
use crate::leaves::leaves_of_logs;
use crate::op::Op;
use crate::ops::Ops;
use crate::order::in_order;
use crate::stmts::put_body;
use crate::tail::Tail;
use crate::types::{files_copy, logs_copy, records_copy};
use std::alloc::Global;
use zk_base::{Mem, Sequence};
use zk_tree::Place;
use zk_typed::script::{
    Action, Expr, Function, Global as Variable, Handler, Hook, HookBody, Left, Program, Stmt,
};

/// Puts the code of a body to the end, and says where it begins.
fn add_body(alloc: Global, ops: &mut Ops, locals: u32, body: &Stmt) -> Result<BodyCode, Mem>
    ensures ops { OnOk result (ops.new ≡ ops.old ++ body_code (stmt_of body.now)) }
    ensures found { IfOk result (λ code. view.body_of code ≡ record { entry = length ops.old; locals = locals }) }
{
    let entry = ops.len();
    let mut tail = Tail::new(alloc);
    put_body(alloc, &mut tail, body)?;
    ops.append(tail)?;
    Ok(BodyCode { entry, locals })
}

/// Puts the code of handlers to the end, and says where each begins.
fn add_handlers(
    alloc: Global,
    ops: &mut Ops,
    handlers: &[Handler],
) -> Result<Sequence<HandlerCode>, Mem>
    ensures ops { OnOk result (ops.new ≡ ops.old ++ laid handler_ops (map handler_of handlers.now)) }
    ensures found { IfOk result (λ list. map view.handler_of list ≡ placed handler_ops handler_found (length ops.old) (map handler_of handlers.now)) }
{
    let mut list = Vec::new(alloc);
    for handler in handlers {
        let body = add_body(alloc, ops, handler.locals, &handler.body)?;
        list.push(HandlerCode {
            event: handler.event,
            priority: handler.priority,
            body,
        })?;
    }
    Ok(Sequence::from(list))
}

/// Puts the code of functions to the end, and says where each begins.
fn add_functions(
    alloc: Global,
    ops: &mut Ops,
    functions: &[Function],
) -> Result<Sequence<BodyCode>, Mem>
    ensures ops { OnOk result (ops.new ≡ ops.old ++ laid function_ops (map function_of functions.now)) }
    ensures found { IfOk result (λ list. map view.body_of list ≡ placed function_ops function_found (length ops.old) (map function_of functions.now)) }
{
    let mut list = Vec::new(alloc);
    for function in functions {
        let code = add_body(alloc, ops, function.locals, &function.body)?;
        list.push(code)?;
    }
    Ok(Sequence::from(list))
}

/// Puts the code of the bodies of a hook to the end, in the order in which they run, and says where each
/// begins.
fn add_bodies(alloc: Global, ops: &mut Ops, bodies: &[&HookBody]) -> Result<Sequence<BodyCode>, Mem>
    ensures ops { OnOk result (ops.new ≡ ops.old ++ laid hook_body_ops (map (λ body. hook_body_of body.now) bodies.now)) }
    ensures found { IfOk result (λ list. map view.body_of list ≡ placed hook_body_ops hook_body_found (length ops.old) (map (λ body. hook_body_of body.now) bodies.now)) }
{
    let mut list = Vec::new(alloc);
    for body in bodies {
        let code = add_body(alloc, ops, body.locals, &body.body)?;
        list.push(code)?;
    }
    Ok(Sequence::from(list))
}

/// Puts the code of hooks to the end, and says where each of their bodies begins.
fn add_hooks(
    alloc: Global,
    ops: &mut Ops,
    hooks: &[Hook],
) -> Result<Sequence<Sequence<BodyCode>>, Mem>
    ensures ops { OnOk result (ops.new ≡ ops.old ++ laid hook_ops (map hook_of hooks.now)) }
    ensures found { IfOk result (λ list. map (map view.body_of) list ≡ placed hook_ops hook_found (length ops.old) (map hook_of hooks.now)) }
{
    let mut list = Vec::new(alloc);
    for hook in hooks {
        let bodies = in_order(alloc, hook.bodies.as_slice())?;
        let codes = add_bodies(alloc, ops, bodies.as_slice())?;
        list.push(codes)?;
    }
    Ok(Sequence::from(list))
}

/// Puts the code of what is added to an initial value before what there is.
fn put_added(alloc: Global, tail: &mut Tail, place: Place, added: &[Expr]) -> Result<(), Mem>
    ensures { OnOk result (tail.new ≡ added_code place (map expr_of added.now) ++ tail.old) }
{
    for index in (0..added.len()).rev() {
        tail.put(Op::Sum { place })?;
        put_expr(alloc, tail, place, &added[index])?;
    }
    Ok(())
}

/// The code of an initial value, with what is added to it.
fn initial_tail(
    alloc: Global,
    number: u32,
    place: Place,
    initial: &Expr,
    added: &[Expr],
) -> Result<Tail, Mem>
    ensures { IfOk result (λ tail. tail ≡ expr_code place (expr_of initial.now)
        ++ (added_code place (map expr_of added.now) ++ plain.Do place (action.Assign (left.Global number)) 1 ∷ plain.End ∷ [])) }
{
    let mut tail = Tail::new(alloc);
    tail.put(Op::End)?;
    tail.put(Op::Do {
        place,
        action: Action::Assign(Left::Global(number)),
        count: 1,
    })?;
    put_added(alloc, &mut tail, place, added)?;
    put_expr(alloc, &mut tail, place, initial)?;
    Ok(tail)
}

/// Puts the code of the initial value of a global to the end, and says where it begins.
fn add_initial(
    alloc: Global,
    ops: &mut Ops,
    number: u32,
    global: &Variable,
) -> Result<Option<usize>, Mem>
    ensures ops { OnOk result (ops.new ≡ ops.old ++ initial_code number (global_of global.now) (global_of global.now).initial) }
    ensures found { IfOk result (λ entry. entry ≡ entry_of (length ops.old) (global_of global.now).initial) }
{
    match &global.initial {
        None => Ok(None),
        Some(initial) => {
            let entry = ops.len();
            let added = global.added.as_slice();
            ops.append(initial_tail(alloc, number, global.place, initial, added)?)?;
            Ok(Some(entry))
        }
    }
}

/// Puts the code of the initial values of globals to the end, and says where each begins.
fn add_globals(
    alloc: Global,
    ops: &mut Ops,
    globals: &[Variable],
) -> Result<Sequence<GlobalCode>, Mem>
    ensures ops { OnOk result (ops.new ≡ ops.old ++ initials_code 0 (map global_of globals.now)) }
    ensures found { IfOk result (λ list. map view.global_of list ≡ globals_found (length ops.old) 0 (map global_of globals.now)) }
{
    let mut list = Vec::new(alloc);
    for (index, global) in globals.iter().enumerate() {
        let Some(number) = number_at(index) else {
            return Err(Mem);
        };
        let initial = add_initial(alloc, ops, number, global)?;
        list.push(GlobalCode {
            place: global.place,
            initial,
            expiry: global.expiry,
            expire_func: global.expire_func,
        })?;
    }
    Ok(Sequence::from(list))
}

/// The code of a program. The bodies of its handlers stand first, then its functions and its hooks, and
/// what computes initial values stands last. More globals than a `u32` numbers are refused for want of
/// memory.
pub fn lower(alloc: Global, program: &Program) -> Result<Code, Mem>
    ensures { IfOk result (λ code. view.code_of code ≡ lowered (program_of program.now)) }
{
    let mut ops = Ops::new(alloc);
    let handlers = add_handlers(alloc, &mut ops, program.handlers.as_slice())?;
    let functions = add_functions(alloc, &mut ops, program.functions.as_slice())?;
    let hooks = add_hooks(alloc, &mut ops, program.hooks.as_slice())?;
    let globals = add_globals(alloc, &mut ops, program.globals.as_slice())?;
    let records = records_copy(alloc, program.records.as_slice())?;
    let logs = logs_copy(alloc, program.logs.as_slice())?;
    let leaves = leaves_of_logs(alloc, records.as_slice(), logs.as_slice())?;
    Ok(Code {
        files: files_copy(alloc, program.files.as_slice())?,
        records,
        logs,
        leaves,
        ops: ops.into_sequence(),
        globals,
        functions,
        hooks,
        handlers,
    })
}
