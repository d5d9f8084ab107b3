// What the types of operators promise of their values.
ghost use Rattle.std.specs.Prelude.{All};
ghost use Rattle.zk_check_operators.specs.Values.{RowHolds, OperatorHolds};
ghost use Rattle.zk_typed.specs.declared.script.primitive.Direction.TheVariants.{Up, Down};
ghost use Rattle.zk_typed.specs.declared.script.primitive.Unary.TheVariants.{Not, Negate, ToInt};
ghost use Rattle.zk_typed.specs.declared.script.types.SimpleType.TheVariants as simple;
ghost use Rattle.zk_typed.specs.Operations.{arithmetic};
ghost use Rattle.zk_typed.specs.Operators.{unary, stepped};

/// From values of the types of its operands an operator gives a value of the type that its rule says, within
/// that type's range, or it is at fault for a number or a text that is too great or a divisor of 0: it never
/// meets a value of another type. There is nothing to run.
pub fn operators_keep_types()
    ensures rows { All RowHolds arithmetic }
    ensures not { OperatorHolds (λ place. unary place Not) simple.Bool simple.Bool }
    ensures negated_count { OperatorHolds (λ place. unary place Negate) simple.Count simple.Int }
    ensures negated_int { OperatorHolds (λ place. unary place Negate) simple.Int simple.Int }
    ensures negated_interval { OperatorHolds (λ place. unary place Negate) simple.Interval simple.Interval }
    ensures to_int { OperatorHolds (λ place. unary place ToInt) simple.Count simple.Int }
    ensures up { OperatorHolds (λ place. stepped place Up) simple.Count simple.Count × OperatorHolds (λ place. stepped place Up) simple.Int simple.Int }
    ensures down { OperatorHolds (λ place. stepped place Down) simple.Count simple.Count × OperatorHolds (λ place. stepped place Down) simple.Int simple.Int }
{}
