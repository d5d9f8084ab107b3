ghost use Rattle.std.specs.Prelude.{◌≡◌, ◌++◌, flat_map, IfOk, OnOk};
ghost use Rattle.zk_scope.specs.Lent.{types_lent};
ghost use Rattle.zk_typed.specs.Within.{mention, mentions};
ghost use Rattle.zk_check_statements.specs.Turns.{names_lent};

use std::alloc::Global;
use zk_base::Mem;
use zk_scope::within;
use zk_tree::{Name, Type};

/// Adds the name that a type is.
fn add_mention<'a>(tree: &'a Type, names: &mut Vec<&'a Name>) -> Result<(), Mem>
    ensures { OnOk result (names_lent names.new.items ≡ names_lent names.old.items ++ mention tree.now) }
{
    match tree {
        Type::Named { name } => {
            names.push(name)?;
            Ok(())
        }
        Type::Atomic { .. }
        | Type::Table { .. }
        | Type::Set { .. }
        | Type::Vector { .. }
        | Type::Record { .. }
        | Type::Enum { .. }
        | Type::Event { .. }
        | Type::Hook { .. }
        | Type::Procedure { .. }
        | Type::Function { .. } => Ok(()),
    }
}

/// Adds the names that types are.
fn add_mentions<'a>(trees: &[&'a Type], names: &mut Vec<&'a Name>) -> Result<(), Mem>
    ensures { OnOk result (names_lent names.new.items ≡ names_lent names.old.items ++ flat_map mention (types_lent trees.now)) }
{
    for tree in trees {
        add_mention(tree, names)?;
    }
    Ok(())
}

/// The names that a type mentions.
pub fn mentions<'a>(alloc: Global, tree: &'a Type) -> Result<Vec<&'a Name>, Mem>
    ensures { IfOk result (λ names. names_lent names.items ≡ mentions tree.now) }
{
    let mut types = Vec::new(alloc);
    within(tree, &mut types)?;
    let mut names = Vec::new(alloc);
    add_mentions(types.as_slice(), &mut names)?;
    Ok(names)
}
