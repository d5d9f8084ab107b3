ghost use Rattle.std.specs.Prelude.{◌≡◌};
ghost use Rattle.zk_typed.specs.Expressions as rules;
ghost use Rattle.zk_typed.specs.Tells.{Tells};
ghost use Rattle.zk_check_expressions.specs.Envs.{side_of};

use sqlite_items::Items;
use std::alloc::Global;
use zk_tree::Place;
use zk_typed::script::{Expr, Left, ValueType};
use zk_typed::{Refusal, Rule, one_broken};

/// What can be assigned: the left side with its operands, and its type.
#[derive(Debug, Drop)]
pub struct Side {
    pub left: Left,
    pub operands: Items<Expr>,
    pub value_type: ValueType,
    /// Only its own declaration may give it a value.
    pub fixed: bool,
    /// Its entries expire.
    pub expires: bool,
}

/// Whether a side may be given a value: no constant is, nor a global whose entries expire.
pub fn assignable(alloc: Global, place: Place, one: &Side) -> Result<(), Refusal>
    ensures { Tells (λ done. done) result (rules.assignable place (side_of one.now)) }
{
    if one.fixed {
        return Err(Refusal::Broken(one_broken(alloc, Rule::FixedGlobal, place)?));
    }
    if one.expires {
        return Err(Refusal::Broken(one_broken(alloc, Rule::Attribute, place)?));
    }
    Ok(())
}
