ghost use Rattle.std.specs.Prelude.{◌≡◌, ◌∷◌, [], map, IfOk};
ghost use Rattle.std.specs.Option.{option_map};
ghost use Rattle.zk_check_operators.specs.Views.{typed_of, typed_all};
ghost use Rattle.zk_typed.specs.declared.script.primitive.BuiltIn.TheVariants as built_in;
ghost use Rattle.zk_typed.specs.declared.script.types.ValueType.TheVariants as value_type;
ghost use Rattle.zk_typed.specs.Operations as operations;
ghost use Rattle.zk_typed.specs.Types.{Simple, Vector};
ghost use Rattle.zk_typed.specs.View.{type_of};
ghost use Rattle.zk_check_expressions.specs.Calls.{row_of};

use sqlite_items::Boxed;
use std::alloc::{AllocError, Global};
use zk_check_operators::Typed;
use zk_typed::script::{BuiltIn, SimpleType, ValueType};

/// One value.
pub fn alone(alloc: Global, one: Typed) -> Result<Vec<Typed>, AllocError>
    ensures { IfOk result (λ all. typed_all all.items ≡ typed_of one ∷ []) }
{
    Ok(Vec::from_array(alloc, [one])?)
}

/// Each of some types without parts.
fn each_simple(alloc: Global, simple: &[SimpleType]) -> Result<Vec<ValueType>, AllocError>
    ensures { IfOk result (λ types. types.items ≡ map (λ one. value_type.Simple one) simple.now) }
{
    simple
        .iter()
        .map(|one| ValueType::Simple(*one))
        .collect(alloc)
}

/// Types without parts, as types.
pub fn simple_types(alloc: Global, simple: &[SimpleType]) -> Result<Vec<ValueType>, AllocError>
    ensures { IfOk result (λ types. map type_of types.items ≡ map Simple simple.now) }
{
    let types = each_simple(alloc, simple)?;
    Ok(types)
}

/// The type of vectors of values without parts.
fn vector_of(alloc: Global, item: SimpleType) -> Result<ValueType, AllocError>
    ensures { IfOk result (λ made. type_of made ≡ Vector (Simple item)) }
{
    let item = Boxed::new(alloc, ValueType::Simple(item))?;
    Ok(ValueType::Vector { item })
}

/// The types of `join_string_vec`.
fn joining_row(alloc: Global) -> Result<Option<(Vec<ValueType>, ValueType)>, AllocError>
    ensures { IfOk result (λ row. option_map row_of row ≡ operations.built_in_type built_in.JoinStringVec) }
{
    let mut params = Vec::new(alloc);
    params.push(vector_of(alloc, SimpleType::String)?)?;
    params.push(ValueType::Simple(SimpleType::String))?;
    Ok(Some((params, ValueType::Simple(SimpleType::String))))
}

/// The types of `addr_to_counts`.
fn counting_row(alloc: Global) -> Result<Option<(Vec<ValueType>, ValueType)>, AllocError>
    ensures { IfOk result (λ row. option_map row_of row ≡ operations.built_in_type built_in.AddrToCounts) }
{
    let mut params = Vec::new(alloc);
    params.push(ValueType::Simple(SimpleType::Addr))?;
    let gives = vector_of(alloc, SimpleType::Count)?;
    Ok(Some((params, gives)))
}

/// The types of the parameters of a built-in function, and the type that it gives. `fmt`, `cat` and `copy`
/// have rules of their own.
pub fn built_in_row(
    alloc: Global,
    function: BuiltIn,
) -> Result<Option<(Vec<ValueType>, ValueType)>, AllocError>
    ensures { IfOk result (λ row. option_map row_of row ≡ operations.built_in_type function) }
{
    let (params, gives): (&[SimpleType], SimpleType) = match function {
        BuiltIn::Fmt | BuiltIn::Cat | BuiltIn::Copy => return Ok(None),
        BuiltIn::JoinStringVec => return joining_row(alloc),
        BuiltIn::AddrToCounts => return counting_row(alloc),
        BuiltIn::ToLower | BuiltIn::ToUpper => (&[SimpleType::String], SimpleType::String),
        BuiltIn::SubBytes => (
            &[SimpleType::String, SimpleType::Count, SimpleType::Int],
            SimpleType::String,
        ),
        BuiltIn::Strstr => (&[SimpleType::String, SimpleType::String], SimpleType::Count),
        BuiltIn::ToCount => (&[SimpleType::String], SimpleType::Count),
        BuiltIn::StartsWith => (&[SimpleType::String, SimpleType::String], SimpleType::Bool),
        BuiltIn::NetworkTime => (&[], SimpleType::Time),
    };
    let params = simple_types(alloc, params)?;
    Ok(Some((params, ValueType::Simple(gives))))
}
