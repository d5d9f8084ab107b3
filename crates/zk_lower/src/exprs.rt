ghost use Rattle.std.specs.Prelude.{◌≡◌, ◌∷◌, ◌++◌, OnOk, IfOk};
ghost use Rattle.zk_typed.specs.View.{expr_of, all_of};
ghost use Rattle.zk_lower.specs.Lowering.{expr_code, exprs_code, givens_code, field_numbers};
ghost use Rattle.zk_lower.specs.View.{prefix_of, givens_in};
ghost use Rattle.zk_typed.specs.Forms.{Givens};

use crate::copies::{literal_value, primitive_copy};
use crate::op::Op;
use crate::tail::Tail;
use std::alloc::Global;
use zk_base::{Mem, Sequence};
use zk_tree::Place;
use zk_typed::script::{Expr, Given, Primitive};
use zk_value::Value;

/// Puts the code of an expression, in a statement at a place, before what there is.
#[cycle(put_expr)]
pub fn put_expr(alloc: Global, tail: &mut Tail, place: Place, expr: &Expr) -> Result<(), Mem>
    ensures { OnOk result (tail.new ≡ expr_code place (expr_of expr.now) ++ tail.old) }
{
    match expr {
        Expr::Literal(literal) => {
            let value = literal_value(alloc, literal)?;
            tail.put(Op::Push(value))
        }
        Expr::Local(number) => tail.put(Op::Local {
            place,
            number: *number,
        }),
        Expr::Global(number) => tail.put(Op::Global {
            place,
            number: *number,
        }),
        Expr::Apply {
            primitive,
            operands,
        } => {
            let primitive = primitive_copy(alloc, primitive)?;
            tail.put(Op::Apply {
                place,
                primitive,
                count: operands.len(),
            })?;
            put_exprs(alloc, tail, place, operands.as_slice())
        }
        Expr::New { record, given } => {
            let fields = fields_of(alloc, given.as_slice())?;
            tail.put(Op::New {
                place,
                record: *record,
                fields,
            })?;
            put_givens(alloc, tail, place, given.as_slice())
        }
        Expr::And(left, right) => {
            let end = tail.len();
            tail.put(Op::Push(Value::Bool(false)))?;
            let otherwise = tail.len();
            tail.put_jump(end)?;
            put_expr(alloc, tail, place, right.get())?;
            tail.put_unless(place, otherwise)?;
            put_expr(alloc, tail, place, left.get())
        }
        Expr::Or(left, right) => {
            let end = tail.len();
            put_expr(alloc, tail, place, right.get())?;
            let otherwise = tail.len();
            tail.put_jump(end)?;
            tail.put(Op::Push(Value::Bool(true)))?;
            tail.put_unless(place, otherwise)?;
            put_expr(alloc, tail, place, left.get())
        }
        Expr::Choice { test, yes, no } => {
            let end = tail.len();
            put_expr(alloc, tail, place, no.get())?;
            let otherwise = tail.len();
            tail.put_jump(end)?;
            put_expr(alloc, tail, place, yes.get())?;
            tail.put_unless(place, otherwise)?;
            put_expr(alloc, tail, place, test.get())
        }
        Expr::Call { function, operands } => {
            tail.put(Op::Call {
                place,
                function: *function,
                count: operands.len(),
            })?;
            put_exprs(alloc, tail, place, operands.as_slice())
        }
        Expr::Hook { hook, operands } => {
            tail.put(Op::Hook {
                place,
                hook: *hook,
                count: operands.len(),
            })?;
            put_exprs(alloc, tail, place, operands.as_slice())
        }
        Expr::Write { log, row } => {
            tail.put(Op::Write { place, log: *log })?;
            put_expr(alloc, tail, place, row.get())
        }
    }
}

/// Puts the code of operands before what there is.
#[cycle(put_expr)]
pub fn put_exprs(alloc: Global, tail: &mut Tail, place: Place, exprs: &[Expr]) -> Result<(), Mem>
    ensures { OnOk result (tail.new ≡ exprs_code place (all_of exprs.now) ++ tail.old) }
{
    for index in (0..exprs.len()).rev() {
        put_expr(alloc, tail, place, &exprs[index])?;
    }
    Ok(())
}

/// Puts the code of the fields of a constructor before what there is.
#[cycle(put_expr)]
fn put_givens(alloc: Global, tail: &mut Tail, place: Place, given: &[Given]) -> Result<(), Mem>
    ensures { OnOk result (tail.new ≡ givens_code place (givens_in given.now) ++ tail.old) }
{
    for index in (0..given.len()).rev() {
        match &given[index] {
            Given::Value { value, .. } => put_expr(alloc, tail, place, value)?,
            Given::Wire { from, read, .. } => {
                tail.put(Op::Apply {
                    place,
                    primitive: Primitive::Field(*read),
                    count: 1,
                })?;
                put_expr(alloc, tail, place, from)?;
            }
        }
    }
    Ok(())
}

/// The numbers of the fields that a constructor gives.
fn fields_of(alloc: Global, given: &[Given]) -> Result<Sequence<u32>, Mem>
    ensures { IfOk result (λ fields. fields ≡ field_numbers (givens_in given.now)) }
{
    let mut fields = Vec::new(alloc);
    for index in (0..given.len()).rev() {
        fields.push(field_of(&given[index]))?;
    }
    fields.reverse();
    Ok(Sequence::from(fields))
}

/// The number of a field that a constructor gives.
fn field_of(given: &Given) -> u32
    ensures { (others : Givens) → field_numbers (prefix_of given.now others) ≡ result ∷ field_numbers others }
{
    match given {
        Given::Value { field, .. } => *field,
        Given::Wire { field, .. } => *field,
    }
}
