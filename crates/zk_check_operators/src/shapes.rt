ghost use Rattle.std.specs.Prelude.{◌≡◌, ◌≤◌, ◌^◌, length, IfOk, OnErr};
ghost use Rattle.std.specs.Option.{option_map};
ghost use Rattle.zk_typed.specs.Making as making;
ghost use Rattle.zk_typed.specs.Expressions.{added_type};
ghost use Rattle.zk_typed.specs.Statements as spec;
ghost use Rattle.zk_typed.specs.Forms as form;
ghost use Rattle.zk_typed.specs.View.{type_of, expr_of};
ghost use Rattle.zk_check_operators.specs.Rows.{adds_simple};

use sqlite_items::Items;
use std::alloc::{AllocError, Global};
use zk_base::Mem;
use zk_tree::Assigning;
use zk_typed::script::{Binary, Expr, Primitive, Shape, SimpleType, ValueType};
use zk_typed::{copied_keys, copied_type};

/// What a table or set is made with that has neither an expiry nor a default. More keys than their number
/// can be are more than memory holds.
pub fn plain_shape(keys: &[SimpleType]) -> Result<Shape, Mem>
    ensures shape { IfOk result (λ shape. shape ≡ making.plain_shape keys.now) }
    ensures err { OnErr result (2 ^ 32 ≤ length keys.now) }
{
    match u32::try_from(keys.len()) {
        Ok(keys) => Ok(Shape {
            keys,
            expiry: None,
            default: None,
        }),
        Err(_) => Err(Mem),
    }
}

fn empty(alloc: Global, primitive: Primitive) -> Expr
    ensures { expr_of result ≡ form.Apply primitive form.NoExpr }
{
    Expr::Apply {
        primitive,
        operands: Items::new(alloc),
    }
}

/// The empty value of a container's type.
pub fn empty_of(alloc: Global, one: &ValueType) -> Result<Option<Expr>, Mem>
    ensures { IfOk result (λ made. option_map expr_of made ≡ spec.empty_of (type_of one.now)) }
{
    match one {
        ValueType::Table { keys, .. } => {
            let shape = plain_shape(keys.as_slice())?;
            Ok(Some(empty(alloc, Primitive::NewTable(shape))))
        }
        ValueType::Set { keys } => {
            let shape = plain_shape(keys.as_slice())?;
            Ok(Some(empty(alloc, Primitive::NewSet(shape))))
        }
        ValueType::Vector { .. } => Ok(Some(empty(alloc, Primitive::NewVector))),
        ValueType::Record(_) | ValueType::Simple(_) => Ok(None),
    }
}

/// Whether a type is that of vectors.
pub fn is_vector(one: &ValueType) -> bool
    ensures { result ≡ spec.is_vector (type_of one.now) }
{
    match one {
        ValueType::Vector { .. } => true,
        ValueType::Simple(_)
        | ValueType::Record(_)
        | ValueType::Table { .. }
        | ValueType::Set { .. } => false,
    }
}

/// The types of the keys of a set, and of a table where it may be one.
pub fn keys_in(tables: bool, one: &ValueType) -> Option<&[SimpleType]>
    ensures { option_map (λ keys. keys.now) result ≡ spec.keys_in tables (type_of one.now) }
{
    match one {
        ValueType::Set { keys } => Some(keys.as_slice()),
        ValueType::Table { keys, .. } => { if tables { Some(keys.as_slice()) } else { None } }
        ValueType::Simple(_) | ValueType::Record(_) | ValueType::Vector { .. } => None,
    }
}

/// What an assignment that adds or takes away computes.
pub fn update_of(operator: Assigning) -> Binary
    ensures { result ≡ spec.binary_of operator }
{
    match operator {
        Assigning::Subtract => Binary::Minus,
        Assigning::Set | Assigning::Add => Binary::Plus,
    }
}

/// Whether a value of a type without parts can be added to one of the same type, or taken from it.
fn adds(operator: Assigning, simple: SimpleType) -> bool
    ensures { result ≡ adds_simple operator simple }
{
    match simple {
        SimpleType::Count | SimpleType::Int | SimpleType::Interval => true,
        SimpleType::String => match operator {
            Assigning::Add => true,
            Assigning::Set | Assigning::Subtract => false,
        },
        SimpleType::Bool
        | SimpleType::Time
        | SimpleType::Addr
        | SimpleType::Port
        | SimpleType::Subnet
        | SimpleType::Enum(_) => false,
    }
}

/// The type of what may be added to or taken from a value of a type.
pub fn added_type(
    alloc: Global,
    operator: Assigning,
    one: &ValueType,
) -> Result<Option<ValueType>, AllocError>
    ensures { IfOk result (λ made. option_map type_of made ≡ added_type operator (type_of one.now)) }
{
    match one {
        ValueType::Simple(simple) => {
            if adds(operator, *simple) {
                Ok(Some(ValueType::Simple(*simple)))
            } else {
                Ok(None)
            }
        }
        ValueType::Set { keys } => {
            let keys = copied_keys(alloc, keys.as_slice())?;
            Ok(Some(ValueType::Set { keys }))
        }
        ValueType::Vector { item } => match operator {
            Assigning::Add => Ok(Some(copied_type(alloc, item.get())?)),
            Assigning::Set | Assigning::Subtract => Ok(None),
        },
        ValueType::Record(_) | ValueType::Table { .. } => Ok(None),
    }
}
