ghost use Rattle.std.specs.Prelude.{◌≡◌, IfSome};
ghost use Rattle.zk_tree.specs.declared.place.Place.{Place as At};
ghost use Rattle.zk_tree.specs.Value as plain;
ghost use Rattle.zk_typed.specs.Does as does;
ghost use Rattle.zk_typed.specs.Operators as operators;
ghost use Rattle.zk_typed.specs.Primitives as primitive;
ghost use Rattle.zk_typed.specs.State as typed;
ghost use Rattle.zk_value.specs.Plain.{value_of};

use zk_typed::script::{Binary, Direction};
use zk_value::Value;

/// The sum or the difference of two counts, where both are counts and it is one too: the commonest of what
/// scripts compute, for which no whole value is copied. None tells nothing.
pub fn counted(operator: Binary, a: &Value, b: &Value) -> Option<u64>
    ensures computes { IfSome result (λ count. (place : At) (state : typed.State) → operators.binary place operator (value_of a.now) (value_of b.now) state ≡ does.Gives (plain.Count count) state) }
    ensures updates { IfSome result (λ count. (place : At) (state : typed.State) → primitive.updated place operator (value_of a.now) (value_of b.now) state ≡ does.Gives (plain.Count count) state) }
{
    match (a, b) {
        (Value::Count(a), Value::Count(b)) => match count_of(operator, *a, *b) {
            Some(count) => Some(count),
            None => None,
        },
        _ => None,
    }
}

/// The sum or the difference of two counts, where it is one too. None tells nothing.
pub fn count_of(operator: Binary, a: u64, b: u64) -> Option<u64>
    ensures { IfSome result (λ count. (place : At) (state : typed.State) → operators.binary place operator (plain.Count a) (plain.Count b) state ≡ does.Gives (plain.Count count) state) }
{
    match operator {
        Binary::Plus => a.checked_add(b),
        Binary::Minus => a.checked_sub(b),
        _ => None,
    }
}

/// A count that is one more or one less, where it is within the range of its type. None tells nothing.
pub fn stepped_count(by: Direction, value: &Value) -> Option<u64>
    ensures { IfSome result (λ count. (place : At) (state : typed.State) → operators.stepped place by (value_of value.now) state ≡ does.Gives (plain.Count count) state) }
{
    match value {
        Value::Count(count) => match step_of(by, *count) {
            Some(after) => Some(after),
            None => None,
        },
        _ => None,
    }
}

/// A count that is one more or one less, where it is within the range of its type. None tells nothing.
pub fn step_of(by: Direction, count: u64) -> Option<u64>
    ensures { IfSome result (λ after. (place : At) (state : typed.State) → operators.stepped place by (plain.Count count) state ≡ does.Gives (plain.Count after) state) }
{
    match by {
        Direction::Up => count.checked_add(1),
        Direction::Down => count.checked_sub(1),
    }
}
