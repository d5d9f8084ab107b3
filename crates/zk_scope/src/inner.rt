ghost use Rattle.std.specs.Prelude.{◌≡◌, ◌++◌, flat_map, OnOk};
ghost use Rattle.zk_tree.specs.declared.types.Field.{out-Field};
ghost use Rattle.zk_tree.specs.declared.types.Param.{out-Param};
ghost use Rattle.zk_typed.specs.Within.{within};
ghost use Rattle.zk_scope.specs.Lent.{types_lent};

use zk_base::Mem;
use zk_tree::{Field, Param, Type};

/// Adds a type and the types within it, in the order of the text.
#[cycle(within)]
pub fn within<'a>(tree: &'a Type, found: &mut Vec<&'a Type>) -> Result<(), Mem>
    ensures { OnOk result (types_lent found.new.items ≡ types_lent found.old.items ++ within tree.now) }
{
    found.push(tree)?;
    match tree {
        Type::Table {
            place: _,
            keys,
            value,
        } => {
            within_types(keys.as_slice(), found)?;
            within(value.get(), found)?;
            Ok(())
        }
        Type::Set { place: _, keys } => {
            within_types(keys.as_slice(), found)?;
            Ok(())
        }
        Type::Vector { place: _, item } => {
            within(item.get(), found)?;
            Ok(())
        }
        Type::Record { place: _, fields } => {
            within_fields(fields.as_slice(), found)?;
            Ok(())
        }
        Type::Event { place: _, params } => {
            within_params(params.as_slice(), found)?;
            Ok(())
        }
        Type::Hook { place: _, params } => {
            within_params(params.as_slice(), found)?;
            Ok(())
        }
        Type::Procedure { place: _, params } => {
            within_params(params.as_slice(), found)?;
            Ok(())
        }
        Type::Function {
            place: _,
            params,
            result,
        } => {
            within_params(params.as_slice(), found)?;
            within(result.get(), found)?;
            Ok(())
        }
        Type::Atomic { .. } | Type::Named { .. } | Type::Enum { .. } => Ok(()),
    }
}

/// Adds types and the types within them.
#[cycle(within)]
fn within_types<'a>(trees: &'a [Type], found: &mut Vec<&'a Type>) -> Result<(), Mem>
    ensures { OnOk result (types_lent found.new.items ≡ types_lent found.old.items ++ flat_map within trees.now) }
{
    for tree in trees {
        within(tree, found)?;
    }
    Ok(())
}

/// Adds the types of fields and the types within them.
#[cycle(within)]
fn within_fields<'a>(fields: &'a [Field], found: &mut Vec<&'a Type>) -> Result<(), Mem>
    ensures { OnOk result (types_lent found.new.items ≡ types_lent found.old.items ++ flat_map (λ field. within (out-Field field).field_type) fields.now) }
{
    for field in fields {
        within(&field.field_type, found)?;
    }
    Ok(())
}

/// Adds the types of parameters and the types within them.
#[cycle(within)]
fn within_params<'a>(params: &'a [Param], found: &mut Vec<&'a Type>) -> Result<(), Mem>
    ensures { OnOk result (types_lent found.new.items ≡ types_lent found.old.items ++ flat_map (λ param. within (out-Param param).param_type) params.now) }
{
    for param in params {
        within(&param.param_type, found)?;
    }
    Ok(())
}
