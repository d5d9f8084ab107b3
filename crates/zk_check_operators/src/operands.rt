ghost use Rattle.std.specs.Prelude.{◌≡◌, ◌&&◌, ◌∷◌, [], IfOk, if◌then◌else◌};
ghost use Rattle.std.specs.Option.{option_map};
ghost use Rattle.zk_typed.specs.declared.rule.Rule.TheVariants as rule;
ghost use Rattle.zk_typed.specs.Forms as form;
ghost use Rattle.zk_typed.specs.Operations as operations;
ghost use Rattle.zk_typed.specs.Predefined as type;
ghost use Rattle.zk_typed.specs.Tells.{Tells};
ghost use Rattle.zk_typed.specs.Types.{Simple};
ghost use Rattle.zk_typed.specs.Typing as spec;
ghost use Rattle.zk_typed.specs.View.{type_of, expr_of, all_of};
ghost use Rattle.zk_check_operators.specs.Views.{typed_of, wanted_in, pair_of};

use crate::same::{is_simple, same_type};
use sqlite_items::Items;
use std::alloc::{AllocError, Global};
use zk_tree::Place;
use zk_typed::script::{Expr, Primitive, SimpleType, Unary, ValueType};
use zk_typed::{Refusal, Rule, one_broken};

/// An expression's typed form, and its type.
#[derive(Debug, Drop)]
pub struct Typed {
    pub value_type: ValueType,
    pub expr: Expr,
}

impl Typed {
    /// The typed form alone.
    pub fn into_expr(self) -> Expr
        ensures { result ≡ self.expr }
    {
        self.expr
    }
}

/// The type that a place wants.
#[derive(Clone, Copy)]
pub enum Wanted<'a> {
    /// It takes any.
    Nothing,
    Type(&'a ValueType),
    /// It isn't known for what is broken elsewhere.
    Unclear,
}

/// An operand.
pub fn one_operand(alloc: Global, one: Expr) -> Result<Items<Expr>, AllocError>
    ensures { IfOk result (λ all. all ≡ one ∷ []) }
{
    let all = Vec::from_array(alloc, [one])?;
    Ok(Items::from_vec(all))
}

/// Two operands.
pub fn two_operands(alloc: Global, one: Expr, other: Expr) -> Result<Items<Expr>, AllocError>
    ensures { IfOk result (λ all. all ≡ one ∷ other ∷ []) }
{
    let all = Vec::from_array(alloc, [one, other])?;
    Ok(Items::from_vec(all))
}

/// A value as an operand.
pub fn value_operand(alloc: Global, one: Typed) -> Result<Items<Expr>, AllocError>
    ensures { IfOk result (λ all. all ≡ one.expr ∷ []) }
{
    one_operand(alloc, one.into_expr())
}

/// Two values as operands.
pub fn value_operands(alloc: Global, one: Typed, other: Typed) -> Result<Items<Expr>, AllocError>
    ensures { IfOk result (λ all. all ≡ one.expr ∷ other.expr ∷ []) }
{
    two_operands(alloc, one.into_expr(), other.into_expr())
}

/// A primitive of operands.
#[tactic(auto, using(crate::proofs::Forms::apply_is))]
pub fn apply(primitive: Primitive, operands: Items<Expr>) -> Expr
    ensures { expr_of result ≡ form.Apply primitive (all_of operands) }
{
    Expr::Apply {
        primitive,
        operands,
    }
}

/// What a primitive makes of operands.
pub fn applied(value_type: ValueType, primitive: Primitive, operands: Items<Expr>) -> Typed
    ensures { typed_of result ≡ spec.typed (type_of value_type) (form.Apply primitive (all_of operands)) }
{
    Typed {
        value_type,
        expr: apply(primitive, operands),
    }
}

/// A count as an int.
pub fn to_int(alloc: Global, one: Typed) -> Result<Typed, AllocError>
    ensures { IfOk result (λ made. typed_of made ≡ spec.to_int (typed_of one)) }
{
    let operands = value_operand(alloc, one)?;
    Ok(applied(
        ValueType::Simple(SimpleType::Int),
        Primitive::Unary(Unary::ToInt),
        operands,
    ))
}

/// A value where a type is wanted. Where an int is wanted a count is converted.
pub fn fits(alloc: Global, wanted: &ValueType, one: Typed) -> Result<Option<Typed>, AllocError>
    ensures { IfOk result (λ made. option_map typed_of made ≡ spec.fits (type_of wanted.now) (typed_of one)) }
{
    if same_type(wanted, &one.value_type) {
        return Ok(Some(one));
    }
    if is_simple(wanted, SimpleType::Int) && is_simple(&one.value_type, SimpleType::Count) {
        return Ok(Some(to_int(alloc, one)?));
    }
    drop(one);
    Ok(None)
}

/// What a place gets that wants a type.
pub fn fit(alloc: Global, place: Place, wanted: Wanted<'_>, one: Typed) -> Result<Typed, Refusal>
    ensures { Tells typed_of result (spec.fit place (wanted_in wanted.entry) (typed_of one)) }
{
    match wanted {
        Wanted::Nothing | Wanted::Unclear => Ok(one),
        Wanted::Type(wanted) => match fits(alloc, wanted, one)? {
            Some(one) => Ok(one),
            None => Err(Refusal::Broken(one_broken(alloc, Rule::WrongType, place)?)),
        },
    }
}

/// The type of a value whose text `print` writes.
pub fn simple_type(alloc: Global, place: Place, one: &Typed) -> Result<SimpleType, Refusal>
    ensures { Tells (λ simple. simple) result (spec.simple_type place (typed_of one.now)) }
{
    match &one.value_type {
        ValueType::Simple(simple) => Ok(*simple),
        ValueType::Record(_)
        | ValueType::Table { .. }
        | ValueType::Set { .. }
        | ValueType::Vector { .. } => {
            Err(Refusal::Broken(one_broken(alloc, Rule::WrongType, place)?))
        }
    }
}

/// A value, or a count as an int.
fn converted(alloc: Global, converts: bool, one: Typed) -> Result<Typed, AllocError>
    ensures { IfOk result (λ made. typed_of made ≡ (if converts then spec.to_int (typed_of one) else typed_of one)) }
{
    if converts {
        to_int(alloc, one)
    } else {
        Ok(one)
    }
}

/// Whether two values have these types.
fn are(a: &Typed, first: SimpleType, b: &Typed, second: SimpleType) -> bool
    ensures { result ≡ (operations.same_type (typed_of a.now).type (Simple first) && operations.same_type (typed_of b.now).type (Simple second)) }
{
    is_simple(&a.value_type, first) && is_simple(&b.value_type, second)
}

/// Two operands, a count beside an int as an int.
pub fn beside(alloc: Global, a: Typed, b: Typed) -> Result<(Typed, Typed), AllocError>
    ensures { IfOk result (λ pair. pair_of pair ≡ spec.beside (typed_of a) (typed_of b)) }
{
    let first = are(&a, SimpleType::Count, &b, SimpleType::Int);
    let second = !first && are(&a, SimpleType::Int, &b, SimpleType::Count);
    match converted(alloc, first, a) {
        Ok(a) => match converted(alloc, second, b) {
            Ok(b) => Ok((a, b)),
            Err(error) => {
                drop(a);
                Err(error)
            }
        },
        Err(error) => {
            drop(b);
            Err(error)
        }
    }
}
