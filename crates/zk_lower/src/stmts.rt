ghost use Rattle.std.specs.Prelude.{◌≡◌, ◌≤◌, ◌+◌, ◌-◌, List, [], ◌∷◌, ◌++◌, length, map, OnOk, IfOk};
ghost use Rattle.std.specs.Option.{option_map};
ghost use Rattle.zk_typed.specs.declared.script.action.Action.TheVariants as action;
ghost use Rattle.zk_typed.specs.declared.script.action.Left.TheVariants as left;
ghost use Rattle.zk_typed.specs.declared.script.primitive.Primitive.TheVariants as primitive;
ghost use Rattle.zk_typed.specs.View.{expr_of, all_of, stmt_of, stmts_of};
ghost use Rattle.zk_lower.specs.Code as plain;
ghost use Rattle.zk_lower.specs.Lowering.{expr_code, exprs_code, stmt_code, stmts_code, while_code, for_code, given_code, body_code};
ghost use Rattle.zk_lower.specs.View.{op_of, exits_at, begin_of, next_of};

use crate::copies::names_copy;
use crate::exprs::{put_expr, put_exprs};
use crate::op::Op;
use crate::tail::Tail;
use crate::ways::{Walk, Ways};
use std::alloc::Global;
use zk_base::Mem;
use zk_tree::Place;
use zk_typed::script::{Action, Expr, FieldNo, Left, Names, Primitive, Stmt};

/// Puts the code of a statement before what there is.
#[cycle(put_stmt)]
fn put_stmt(alloc: Global, tail: &mut Tail, ways: Ways, stmt: &Stmt) -> Result<(), Mem>
    ensures { OnOk result (ways.break_at ≤ length tail.old → ways.next_at ≤ length tail.old
        → tail.new ≡ stmt_code (exits_at ways (length tail.old)) (stmt_of stmt.now) ++ tail.old) }
{
    match stmt {
        Stmt::Block(stmts) => put_stmts(alloc, tail, ways, stmts.as_slice()),
        Stmt::Do {
            place,
            action,
            operands,
        } => {
            let op = Op::Do {
                place: *place,
                action: *action,
                count: operands.len(),
            };
            put_operands(alloc, tail, *place, operands.as_slice(), op)
        }
        Stmt::Move {
            place,
            to,
            field,
            from,
            read,
        } => put_move(alloc, tail, *place, to, *field, from, *read),
        Stmt::Evaluate { place, value } => put_value(alloc, tail, *place, value, Op::Drop),
        Stmt::Call {
            place,
            function,
            operands,
        } => {
            let op = Op::Perform {
                place: *place,
                function: *function,
                count: operands.len(),
            };
            put_operands(alloc, tail, *place, operands.as_slice(), op)
        }
        Stmt::If {
            place,
            test,
            yes,
            no,
        } => {
            let end = tail.len();
            put_stmt(alloc, tail, ways, no.get())?;
            let otherwise = tail.len();
            tail.put_jump(end)?;
            put_stmt(alloc, tail, ways, yes.get())?;
            put_test(alloc, tail, *place, test, otherwise)
        }
        Stmt::While { place, test, body } => put_while(alloc, tail, body.get(), *place, test),
        Stmt::ForKeys {
            place,
            names,
            over,
            body,
        } => put_for(alloc, tail, body.get(), *place, Walk::Keys, names, over),
        Stmt::ForIndexes {
            place,
            names,
            over,
            body,
        } => put_for(alloc, tail, body.get(), *place, Walk::Indexes, names, over),
        Stmt::Return { place, value } => {
            put_given(alloc, tail, *place, value)?;
            tail.put(Op::Tick { place: *place })
        }
        Stmt::Next { place } => {
            tail.put_jump(ways.next_at)?;
            tail.put(Op::Tick { place: *place })
        }
        Stmt::Break { place } => {
            tail.put_jump(ways.break_at)?;
            tail.put(Op::Tick { place: *place })
        }
    }
}

/// Puts the code of statements before what there is.
#[cycle(put_stmt)]
fn put_stmts(alloc: Global, tail: &mut Tail, ways: Ways, stmts: &[Stmt]) -> Result<(), Mem>
    ensures { OnOk result (ways.break_at ≤ length tail.old → ways.next_at ≤ length tail.old
        → tail.new ≡ stmts_code (exits_at ways (length tail.old)) (stmts_of (map stmt_of stmts.now)) ++ tail.old) }
{
    for index in (0..stmts.len()).rev() {
        put_stmt(alloc, tail, ways, &stmts[index])?;
    }
    Ok(())
}

/// Puts the code of a `while` before what there is.
#[cycle(put_stmt)]
fn put_while(
    alloc: Global,
    tail: &mut Tail,
    body: &Stmt,
    place: Place,
    test: &Expr,
) -> Result<(), Mem>
    ensures { OnOk result (tail.new ≡ while_code place (expr_code place (expr_of test.now))
        (stmt_code (record { «break» = length (expr_code place (expr_of test.now)) + 1; next = 0 }) (stmt_of body.now)) ++ tail.old) }
{
    let ways = put_turn(alloc, tail, place, test)?;
    put_stmt(alloc, tail, ways, body)?;
    end_while(tail, place, ways)
}

/// Puts the code of a `for` before what there is.
#[cycle(put_stmt)]
fn put_for(
    alloc: Global,
    tail: &mut Tail,
    body: &Stmt,
    place: Place,
    walk: Walk,
    names: &Names,
    over: &Expr,
) -> Result<(), Mem>
    ensures { OnOk result (tail.new ≡ for_code place (expr_code place (expr_of over.now)) (begin_of walk place)
        (stmt_code (record { «break» = 1; next = 0 }) (stmt_of body.now)) (next_of walk place names.now) ++ tail.old) }
{
    let ways = put_end(tail)?;
    put_stmt(alloc, tail, ways, body)?;
    end_for(alloc, tail, place, walk, names, ways)?;
    put_expr(alloc, tail, place, over)?;
    tail.put(Op::Tick { place })
}

/// Puts the test of a `while` before what there is, and behind it what begins another turn, over a distance
/// that isn't known yet.
fn put_turn(alloc: Global, tail: &mut Tail, place: Place, test: &Expr) -> Result<Ways, Mem>
    ensures turn { OnOk result (tail.new ≡ expr_code place (expr_of test.now) ++ plain.Turn place 0 ∷ tail.old) }
    ensures ways { IfOk result (λ ways. ways ≡ record { break_at = length tail.old; next_at = length tail.new }) }
{
    let break_at = tail.len();
    tail.put(Op::Turn { place, back: 0 })?;
    put_expr(alloc, tail, place, test)?;
    Ok(Ways {
        break_at,
        next_at: tail.len(),
    })
}

/// Puts before the body of a `while` what goes to its test first, and gives the turn its distance.
fn end_while(tail: &mut Tail, place: Place, ways: Ways) -> Result<(), Mem>
    ensures { OnOk result ((body test old : List plain.Op) (was : plain.Op) → tail.old ≡ body ++ (test ++ was ∷ old) → ways.break_at ≡ length old → ways.next_at ≡ length (test ++ was ∷ old)
        → tail.new ≡ while_code place test body ++ old) }
{
    let back = tail.len().saturating_sub(ways.break_at).saturating_sub(1);
    tail.replace(ways.break_at, Op::Turn { place, back });
    tail.put_jump(ways.next_at)?;
    tail.put(Op::Tick { place })
}

/// Puts the end of a loop before what there is, and before it what begins a turn, which isn't known yet.
fn put_end(tail: &mut Tail) -> Result<Ways, Mem>
    ensures end { OnOk result (tail.new ≡ plain.EndLoop ∷ plain.EndLoop ∷ tail.old) }
    ensures ways { IfOk result (λ ways. ways ≡ record { break_at = length tail.old + 1; next_at = length tail.old + 2 }) }
{
    tail.put(Op::EndLoop)?;
    let break_at = tail.len();
    tail.put(Op::EndLoop)?;
    Ok(Ways {
        break_at,
        next_at: tail.len(),
    })
}

/// Puts before the body of a `for` what begins it and goes to the first turn, and puts in what begins a turn.
fn end_for(
    alloc: Global,
    tail: &mut Tail,
    place: Place,
    walk: Walk,
    names: &Names,
    ways: Ways,
) -> Result<(), Mem>
    ensures { OnOk result ((body old : List plain.Op) → tail.old ≡ body ++ (plain.EndLoop ∷ plain.EndLoop ∷ old) → ways.break_at ≡ length old + 1 → ways.next_at ≡ length old + 2
        → tail.new ≡ begin_of walk place ∷ plain.Jump (length body) ∷ (body ++ next_of walk place names.now (length body) ∷ plain.EndLoop ∷ old)) }
{
    let back = tail.len().saturating_sub(ways.next_at);
    let names = names_copy(alloc, names)?;
    tail.replace(ways.break_at, walk.next(place, names, back));
    tail.put_jump(ways.next_at)?;
    tail.put(walk.begin(place))
}

/// Puts a statement that does something with operands before what there is.
#[tactic(auto, using(crate::proofs::Seams::before_one))]
fn put_operands(
    alloc: Global,
    tail: &mut Tail,
    place: Place,
    operands: &[Expr],
    op: Op,
) -> Result<(), Mem>
    ensures { OnOk result (tail.new ≡ (plain.Tick place ∷ (exprs_code place (all_of operands.now) ++ op_of op ∷ [])) ++ tail.old) }
{
    tail.put(op)?;
    put_exprs(alloc, tail, place, operands)?;
    tail.put(Op::Tick { place })
}

/// Puts a statement that does something with a value before what there is.
#[tactic(auto, using(crate::proofs::Seams::before_one))]
fn put_value(alloc: Global, tail: &mut Tail, place: Place, value: &Expr, op: Op) -> Result<(), Mem>
    ensures { OnOk result (tail.new ≡ (plain.Tick place ∷ (expr_code place (expr_of value.now) ++ op_of op ∷ [])) ++ tail.old) }
{
    tail.put(op)?;
    put_expr(alloc, tail, place, value)?;
    tail.put(Op::Tick { place })
}

/// Puts the test of an `if` before what there is, from which `F` leads to a place.
fn put_test(
    alloc: Global,
    tail: &mut Tail,
    place: Place,
    test: &Expr,
    otherwise: usize,
) -> Result<(), Mem>
    ensures { OnOk result (tail.new ≡ plain.Tick place ∷ (expr_code place (expr_of test.now) ++ plain.Unless place (length tail.old - otherwise) ∷ tail.old)) }
{
    tail.put_unless(place, otherwise)?;
    put_expr(alloc, tail, place, test)?;
    tail.put(Op::Tick { place })
}

/// Puts an assignment of one field to another before what there is.
fn put_move(
    alloc: Global,
    tail: &mut Tail,
    place: Place,
    to: &Expr,
    field: FieldNo,
    from: &Expr,
    read: FieldNo,
) -> Result<(), Mem>
    ensures { OnOk result (tail.new ≡ plain.Tick place ∷ (expr_code place (expr_of from.now) ++ plain.Apply place (primitive.Field read) 1
        ∷ (expr_code place (expr_of to.now) ++ plain.Do place (action.Assign (left.Field field)) 2 ∷ tail.old))) }
{
    tail.put(Op::Do {
        place,
        action: Action::Assign(Left::Field(field)),
        count: 2,
    })?;
    put_expr(alloc, tail, place, to)?;
    tail.put(Op::Apply {
        place,
        primitive: Primitive::Field(read),
        count: 1,
    })?;
    put_expr(alloc, tail, place, from)?;
    tail.put(Op::Tick { place })
}

/// Puts what a `return` does before what there is.
fn put_given(alloc: Global, tail: &mut Tail, place: Place, value: &Option<Expr>) -> Result<(), Mem>
    ensures { OnOk result (tail.new ≡ given_code place (option_map expr_of value.now) ++ tail.old) }
{
    match value {
        None => tail.put(Op::End),
        Some(value) => {
            tail.put(Op::Give)?;
            put_expr(alloc, tail, place, value)
        }
    }
}

/// Puts the code of a body before what there is.
pub fn put_body(alloc: Global, tail: &mut Tail, body: &Stmt) -> Result<(), Mem>
    ensures { OnOk result (tail.new ≡ body_code (stmt_of body.now) ++ tail.old) }
{
    tail.put(Op::Break)?;
    let break_at = tail.len();
    tail.put(Op::End)?;
    let ways = Ways {
        break_at,
        next_at: tail.len(),
    };
    put_stmt(alloc, tail, ways, body)
}
