ghost use Rattle.std.specs.Prelude.{◌≡◌};
ghost use Rattle.zk_tree.specs.declared.place.Place.{Place as At};
ghost use Rattle.zk_typed.specs.Objects as meant;
ghost use Rattle.zk_typed.specs.State as typed;
ghost use Rattle.zk_value.specs.Plain.{value_of};
ghost use Rattle.zk_builtin.specs.Computes.{Computes};
ghost use Rattle.zk_machine.specs.Comes.{Comes};
ghost use Rattle.zk_machine.specs.State.{storing};

use crate::halt::Halt;
use std::alloc::Global;
use zk_builtin::{OperatorFault, unary};
use zk_lower::literal_value;
use zk_table::{Heap, Table};
use zk_typed::script::{DefaultValue, Sign, Unary};
use zk_value::Value;

/// The value of a literal with what is done to it.
fn signed(sign: Sign, value: Value) -> Result<Value, OperatorFault>
    ensures { Computes result (λ place. meant.signed place sign (value_of value)) }
{
    match sign {
        Sign::Plain => Ok(value),
        Sign::Converted => unary(Unary::ToInt, &value),
        Sign::Negated => unary(Unary::Negate, &value),
    }
}

/// The value of a `&default`, for which an object may be made (Zeek manual, Attributes, &default).
pub fn made(alloc: Global, heap: &mut Heap, default: &DefaultValue) -> Result<Value, Halt>
    ensures made { (place : At) (state : typed.State) → state.world.store ≡ heap.old.objects → Comes value_of place result (meant.default_value place default.now state) (storing heap.new.objects state) }
    ensures unwatched { heap.new.unwatched ≡ heap.old.unwatched }
{
    match default {
        DefaultValue::Literal { literal, sign } => {
            let value = literal_value(alloc, literal)?;
            let value = signed(*sign, value)?;
            Ok(value)
        }
        DefaultValue::EmptyTable => {
            let number = heap.add_table(Table::new(alloc, None))?;
            Ok(Value::Object(number))
        }
        DefaultValue::EmptyVector => {
            let number = heap.add_vector(Vec::new(alloc))?;
            Ok(Value::Object(number))
        }
    }
}
