ghost use Rattle.std.specs.Prelude.{◌≡◌, ◌<◌, ◌∷◌, map, reverse, vec_len, vec_capacity, OnOk};
ghost use Rattle.zk_tree.specs.Value as plain;
ghost use Rattle.zk_value.specs.Plain.{value_of};

use zk_base::Mem;
use zk_value::Value;

/// Makes room for another operand.
fn make_room(stack: &mut Vec<Value>) -> Result<(), Mem>
    ensures same { stack.new.items ≡ stack.old.items }
    ensures room { OnOk result (vec_len stack.new < vec_capacity stack.new) }
{
    if stack.len() < stack.capacity() {
        return Ok(());
    }
    stack.reserve(1)?;
    Ok(())
}

/// Pushes a count. It is written where it will stand, since a whole value is slow to copy.
pub fn push_count(stack: &mut Vec<Value>, count: u64) -> Result<(), Mem>
    ensures { OnOk result (map value_of (reverse stack.new.items) ≡ plain.Count count ∷ map value_of (reverse stack.old.items)) }
{
    make_room(stack)?;
    stack.push_reserved(Value::Count(count));
    Ok(())
}

/// Pushes `T` or `F`, written where it will stand.
pub fn push_truth(stack: &mut Vec<Value>, truth: bool) -> Result<(), Mem>
    ensures { OnOk result (map value_of (reverse stack.new.items) ≡ plain.Bool truth ∷ map value_of (reverse stack.old.items)) }
{
    make_room(stack)?;
    stack.push_reserved(Value::Bool(truth));
    Ok(())
}
