ghost use Rattle.std.specs.Prelude.{◌≡◌, map, reverse, take, length};
ghost use Rattle.zk_lower.specs.Code.{types_in};
ghost use Rattle.zk_lower.specs.Steps as steps;
ghost use Rattle.zk_lower.specs.View.{code_of};
ghost use Rattle.zk_tree.specs.declared.place.Place.{Place as At};
ghost use Rattle.zk_typed.specs.Columns.{record_fields};
ghost use Rattle.zk_typed.specs.Objects.{new_record};
ghost use Rattle.zk_typed.specs.View.{field_of};
ghost use Rattle.zk_value.specs.Plain.{value_of};
ghost use Rattle.zk_machine.specs.Comes.{Comes};
ghost use Rattle.zk_machine.specs.Leads.{Leads};
ghost use Rattle.zk_machine.specs.Running.{held_of, machine_of, Moves};
ghost use Rattle.zk_machine.specs.State.{state_of};

use crate::ends::{Next, placed};
use crate::halt::Halt;
use crate::running::{Running, cut};
use crate::state::State;
use zk_base::{Mem, RecordNo};
use zk_lower::Code;
use zk_tree::Place;
use zk_typed::script::Field;
use zk_value::Value;

/// The fields of a record type, where the code has it.
pub fn fields_in(code: &Code, number: RecordNo) -> &[Field]
    ensures { map field_of result.now ≡ record_fields (types_in (code_of code.now)) number }
{
    match code.records.as_slice().get(number.0 as usize) {
        Some(one) => one.fields.as_slice(),
        None => &[],
    }
}

/// A new record whose given fields have the last operands as values.
fn make_last(
    state: &mut State,
    stack: &[Value],
    number: RecordNo,
    fields: &[Field],
    given: &[u32],
) -> Result<Value, Halt>
    ensures { (place : At) → Comes value_of place result (new_record place number (map field_of fields.now) (steps.given given.now (reverse (take (length given.now) (map value_of (reverse stack.now))))) (state_of state.old)) (state_of state.new) }
{
    let from = stack.len().saturating_sub(given.len());
    state.new_record(number, fields, given, &stack[from..])
}

impl Running {
    /// Takes the values of the given fields, and pushes a new record that has them.
    fn push_record(&mut self, code: &Code, number: RecordNo, given: &[u32]) -> Result<(), Halt>
        ensures { (place : At) → Moves place result (steps.by (new_record place number (record_fields (types_in (code_of code.now)) number) (steps.given given.now (steps.operands (length given.now) (held_of self.old))) (state_of self.old.state))
            (steps.push self.old.at (steps.without (length given.now) (held_of self.old)))) (machine_of self.new) }
    {
        let fields = fields_in(code, number);
        let value = make_last(&mut self.state, &self.stack, number, fields, given)?;
        cut(&mut self.stack, given.len());
        self.push(value)?;
        Ok(())
    }

    /// Pushes a new record whose given fields have the last operands as values.
    #[inline(never)]
    pub fn make(
        &mut self,
        code: &Code,
        place: Place,
        number: RecordNo,
        given: &[u32],
    ) -> Result<Next, Mem>
        ensures { Leads result (steps.by (new_record place number (record_fields (types_in (code_of code.now)) number) (steps.given given.now (steps.operands (length given.now) (held_of self.old))) (state_of self.old.state))
            (steps.push self.old.at (steps.without (length given.now) (held_of self.old)))) self.new }
    {
        let done = self.push_record(code, number, given);
        placed(done, place, &mut self.ending)
    }
}
