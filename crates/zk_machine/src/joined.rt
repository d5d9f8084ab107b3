//! Several operations at once, where they commonly stand together: what they do is what they do one after another,
//! and no operand is pushed to be taken away at once.
ghost use Rattle.std.specs.Prelude.{◌≡◌, ◌+◌, ◌≤◌, ◌^◌, [], ◌∷◌, Some, slice_get, IfOk, IfSome, OnErr};
ghost use Rattle.std.specs.Option.{option_map};
ghost use Rattle.zk_lower.specs.Code as op;
ghost use Rattle.zk_lower.specs.Frames.{pushed};
ghost use Rattle.zk_lower.specs.Steps as steps;
ghost use Rattle.zk_lower.specs.View.{code_of, op_of};
ghost use Rattle.zk_tree.specs.declared.place.Place.{Place as At};
ghost use Rattle.zk_tree.specs.Value as plain;
ghost use Rattle.zk_typed.specs.Does as does;
ghost use Rattle.zk_typed.specs.Objects as meant;
ghost use Rattle.zk_typed.specs.Operators as operators;
ghost use Rattle.zk_typed.specs.Primitives.{act};
ghost use Rattle.zk_typed.specs.declared.script.action.Action.TheVariants as action;
ghost use Rattle.zk_typed.specs.declared.script.action.Left.TheVariants as left;
ghost use Rattle.zk_typed.specs.declared.script.primitive.Primitive.TheVariants as primitive;
ghost use Rattle.zk_value.specs.Plain.{value_of};
ghost use Rattle.zk_machine.specs.Comes.{Comes};
ghost use Rattle.zk_machine.specs.Leads.{Joins, Leads};
ghost use Rattle.zk_machine.specs.Running.{held_of, machine_of, Moves};
ghost use Rattle.zk_machine.specs.Soon.{Stands};
ghost use Rattle.zk_machine.specs.State.{state_of};

use crate::counts::{count_of, step_of};
use crate::ends::{Next, placed};
use crate::halt::Halt;
use crate::objects::UNFIT;
use crate::pushes::push_count;
use crate::running::Running;
use crate::state::State;
use zk_base::{Mem, ObjectNo};
use zk_lower::{Code, Op};
use zk_tree::Place;
use zk_typed::script::{Action, Binary, Direction, Left, Primitive, Relation};
use zk_value::{Key, Value};

/// Whether a relation holds between two counts.
#[tactic(auto, unfolding(zk_tree::specs::Value::same))]
fn counts_hold(relation: Relation, a: u64, b: u64) -> bool
    ensures { result ≡ operators.holds relation (plain.Count a) (plain.Count b) }
{
    match relation {
        Relation::Equal => a == b,
        Relation::NotEqual => a != b,
        Relation::Less => a < b,
        Relation::LessEqual => a <= b,
        Relation::Greater => a > b,
        Relation::GreaterEqual => a >= b,
    }
}

/// The place so many operations on, where it has a number. No memory holds code in which it has none.
fn past(at: usize, count: usize) -> Result<usize, Mem>
    ensures place { IfOk result (λ to. to ≡ at + count) }
    ensures err { OnErr result (2 ^ 64 ≤ at + count) }
{
    match at.checked_add(count) {
        Some(to) => Ok(to),
        None => Err(Mem),
    }
}

/// The operation at a place, where there is one.
pub fn op_at(code: &Code, at: usize) -> Option<&Op>
    ensures { option_map (λ one. op_of one.now) result ≡ slice_get (code_of code.now).ops at }
{
    match code.ops.as_slice().get(at) {
        Some(one) => Some(one),
        None => None,
    }
}

/// The operation so many places on, where there is one.
fn op_behind(code: &Code, at: usize, count: usize) -> Option<&Op>
    ensures { IfSome result (λ one. Stands (code_of code.now) (at + count) (op_of one.now)) }
{
    let to = at.checked_add(count)?;
    let one = op_at(code, to)?;
    Some(one)
}

impl State {
    /// `t[k]` at a count.
    fn element_of(&mut self, table: ObjectNo, key: u64) -> Result<Value, Halt>
        ensures { (place : At) → Comes value_of place result (meant.element place (plain.Object table) (plain.Count key ∷ []) (state_of self.old)) (state_of self.new) }
    {
        self.element_at(table, &Key::from(Value::Count(key)))
    }

    /// `k in t` of a count.
    fn has_count(&mut self, table: ObjectNo, key: u64) -> Result<bool, Halt>
        ensures { (place : At) → Comes plain.Bool place result (meant.has_key place (plain.Object table) (plain.Count key ∷ []) (state_of self.old)) (state_of self.new) }
    {
        self.is_there(table, &Key::from(Value::Count(key)))
    }
}

impl Running {
    /// Does several operations at once, where the one that is next and those behind it are such as commonly
    /// stand together. None where it is to be done alone: then nothing is done.
    pub fn joined(&mut self, code: &Code, first: &Op) -> Option<Result<Next, Mem>>
        ensures { Stands (code_of code.now) self.old.at (op_of first.now) → Joins result (code_of code.now) self.old self.new }
    {
        match first {
            Op::Local { number, .. } => self.with_operand(code, *number),
            Op::Tick { place } => self.unit_and_step(code, *place),
            _ => None,
        }
    }

    /// A local, with another operand behind it.
    fn with_operand(&mut self, code: &Code, number: u32) -> Option<Result<Next, Mem>>
        ensures { (place : At) → Stands (code_of code.now) self.old.at (op.Local place number) → Joins result (code_of code.now) self.old self.new }
    {
        match op_behind(code, self.at, 1)? {
            Op::Push(Value::Count(count)) => self.with_count(code, number, *count),
            Op::Local { number: other, .. } => self.with_local(code, number, *other),
            _ => None,
        }
    }

    /// A local, then a count, and what is made of both.
    fn with_count(&mut self, code: &Code, number: u32, count: u64) -> Option<Result<Next, Mem>>
        ensures { (place : At) → Stands (code_of code.now) self.old.at (op.Local place number) → Stands (code_of code.now) (self.old.at + 1) (op.Push (plain.Count count)) → Joins result (code_of code.now) self.old self.new }
    {
        match op_behind(code, self.at, 2)? {
            Op::Apply {
                primitive: Primitive::Compare(relation),
                count: 2,
                ..
            } => self.compare_and_turn(code, number, count, *relation),
            Op::Apply {
                primitive: Primitive::Binary(operator),
                count: 2,
                ..
            } => self.compute_at_once(number, count, *operator),
            _ => None,
        }
    }

    /// A local is compared with a count, and a turn begins or not.
    fn compare_and_turn(
        &mut self,
        code: &Code,
        number: u32,
        count: u64,
        relation: Relation,
    ) -> Option<Result<Next, Mem>>
        ensures { (place of : At) → Stands (code_of code.now) self.old.at (op.Local place number) → Stands (code_of code.now) (self.old.at + 1) (op.Push (plain.Count count)) → Stands (code_of code.now) (self.old.at + 2) (op.Apply of (primitive.Compare relation) 2) → Joins result (code_of code.now) self.old self.new }
    {
        let Op::Turn { place, back } = op_behind(code, self.at, 3)? else {
            return None;
        };
        let value = self.count_in(number)?;
        let truth = counts_hold(relation, value, count);
        let done = self.turn_at_once(truth, *back);
        Some(placed(done, *place, &mut self.ending))
    }

    /// A count is computed of a local and a count.
    fn compute_at_once(
        &mut self,
        number: u32,
        count: u64,
        operator: Binary,
    ) -> Option<Result<Next, Mem>>
        ensures { (code : op.Code) (place of : At) → Stands code self.old.at (op.Local place number) → Stands code (self.old.at + 1) (op.Push (plain.Count count)) → Stands code (self.old.at + 2) (op.Apply of (primitive.Binary operator) 2) → Joins result code self.old self.new }
    {
        let value = self.count_in(number)?;
        let computed = count_of(operator, value, count)?;
        Some(self.push_at_once(computed))
    }

    /// Two locals, and what is made of both.
    fn with_local(&mut self, code: &Code, number: u32, other: u32) -> Option<Result<Next, Mem>>
        ensures { (place of : At) → Stands (code_of code.now) self.old.at (op.Local place number) → Stands (code_of code.now) (self.old.at + 1) (op.Local of other) → Joins result (code_of code.now) self.old self.new }
    {
        match op_behind(code, self.at, 2)? {
            Op::Apply {
                place,
                primitive: Primitive::HasKey,
                count: 2,
            } => self.unless_there(code, number, other, *place),
            Op::Apply {
                place,
                primitive: Primitive::Element,
                count: 2,
            } => self.update_by_element(code, number, other, *place),
            Op::Do {
                place,
                action: Action::Assign(Left::Element),
                count: 3,
            } => self.put_element(number, other, *place),
            _ => None,
        }
    }

    /// It goes on by whether a table or a set has an entry at a key.
    fn unless_there(
        &mut self,
        code: &Code,
        number: u32,
        other: u32,
        place: Place,
    ) -> Option<Result<Next, Mem>>
        ensures { (first second : At) → Stands (code_of code.now) self.old.at (op.Local first number) → Stands (code_of code.now) (self.old.at + 1) (op.Local second other) → Stands (code_of code.now) (self.old.at + 2) (op.Apply place primitive.HasKey 2) → Joins result (code_of code.now) self.old self.new }
    {
        let Op::Unless { over, .. } = op_behind(code, self.at, 3)? else {
            return None;
        };
        let key = self.count_in(number)?;
        let table = self.object_in(other)?;
        let done = self.go_on_unless_there(table, key, *over);
        Some(placed(done, place, &mut self.ending))
    }

    /// A local is changed by an element of a table.
    fn update_by_element(
        &mut self,
        code: &Code,
        number: u32,
        other: u32,
        place: Place,
    ) -> Option<Result<Next, Mem>>
        ensures { (first second : At) → Stands (code_of code.now) self.old.at (op.Local first number) → Stands (code_of code.now) (self.old.at + 1) (op.Local second other) → Stands (code_of code.now) (self.old.at + 2) (op.Apply place primitive.Element 2) → Joins result (code_of code.now) self.old self.new }
    {
        let Op::Do {
            place: of,
            action: Action::Update {
                left: Left::Local(local),
                by,
            },
            count: 1,
        } = op_behind(code, self.at, 3)?
        else {
            return None;
        };
        self.update_local_by_element(number, other, place, *of, *local, *by)
    }

    /// A local is changed by the element of a table that a local has, at the count that another one has.
    fn update_local_by_element(
        &mut self,
        number: u32,
        other: u32,
        place: Place,
        of: Place,
        local: u32,
        by: Binary,
    ) -> Option<Result<Next, Mem>>
        ensures { (code : op.Code) (first second : At) → Stands code self.old.at (op.Local first number) → Stands code (self.old.at + 1) (op.Local second other) → Stands code (self.old.at + 2) (op.Apply place primitive.Element 2) → Stands code (self.old.at + 3) (op.Do of (action.Update (left.Local local) by) 1) → Joins result code self.old self.new }
    {
        let table = self.object_in(number)?;
        let key = self.count_in(other)?;
        match self.state.element_of(table, key) {
            Ok(value) => {
                let done = self.update_at_once(local, by, &value);
                Some(placed(done, of, &mut self.ending))
            }
            Err(halt) => Some(placed(Err(halt), place, &mut self.ending)),
        }
    }

    /// An element of a table is given the value that was pushed last.
    fn put_element(&mut self, number: u32, other: u32, place: Place) -> Option<Result<Next, Mem>>
        ensures { (code : op.Code) (first second : At) → Stands code self.old.at (op.Local first number) → Stands code (self.old.at + 1) (op.Local second other) → Stands code (self.old.at + 2) (op.Do place (action.Assign left.Element) 3) → Joins result code self.old self.new }
    {
        let table = self.object_in(number)?;
        let key = self.count_in(other)?;
        let done = self.put_at_once(table, key);
        Some(placed(done, place, &mut self.ending))
    }

    /// A unit is taken, and a local is one more or one less.
    fn unit_and_step(&mut self, code: &Code, place: Place) -> Option<Result<Next, Mem>>
        ensures { Stands (code_of code.now) self.old.at (op.Tick place) → Joins result (code_of code.now) self.old self.new }
    {
        let Op::Apply {
            primitive: Primitive::Step {
                left: Left::Local(number),
                by,
            },
            count: 0,
            ..
        } = op_behind(code, self.at, 1)?
        else {
            return None;
        };
        self.unit_and_step_of(code, place, *number, *by)
    }

    /// A unit is taken for a statement, and a local that has a count is stepped, whose value nobody asks for.
    fn unit_and_step_of(
        &mut self,
        code: &Code,
        place: Place,
        number: u32,
        by: Direction,
    ) -> Option<Result<Next, Mem>>
        ensures { (of : At) → Stands (code_of code.now) self.old.at (op.Tick place) → Stands (code_of code.now) (self.old.at + 1) (op.Apply of (primitive.Step (left.Local number) by) 0) → Joins result (code_of code.now) self.old self.new }
    {
        let Op::Drop = op_behind(code, self.at, 2)? else {
            return None;
        };
        let before = self.count_in(number)?;
        let after = step_of(by, before)?;
        let done = self.step_at_once(number, after);
        Some(placed(done, place, &mut self.ending))
    }

    /// The count that a local has.
    fn count_in(&self, number: u32) -> Option<u64>
        ensures { IfSome result (λ count. does.named (state_of self.now.state).locals number ≡ Some (plain.Count count)) }
    {
        let value = self.state.locals.get(number as usize)?;
        match value {
            Some(Value::Count(count)) => Some(*count),
            _ => None,
        }
    }

    /// The object that a local has.
    fn object_in(&self, number: u32) -> Option<ObjectNo>
        ensures { IfSome result (λ object. does.named (state_of self.now.state).locals number ≡ Some (plain.Object object)) }
    {
        let value = self.state.locals.get(number as usize)?;
        match value {
            Some(Value::Object(object)) => Some(*object),
            _ => None,
        }
    }

    /// Begins another turn or not, three operations on.
    fn turn_at_once(&mut self, truth: bool, back: usize) -> Result<(), Halt>
        ensures { (place : At) → Moves place result (steps.turn place back (self.old.at + 3) (state_of self.old.state) (plain.Bool truth) (held_of self.old)) (machine_of self.new) }
    {
        self.at = past(self.at, 3)?;
        self.turn_if(truth, back)
    }

    /// Pushes a count two operations on.
    fn push_at_once(&mut self, count: u64) -> Result<Next, Mem>
        ensures { Leads result (steps.push (self.old.at + 2) (held_of self.old) (plain.Count count) (state_of self.old.state)) self.new }
    {
        self.at = past(self.at, 2)?;
        push_count(&mut self.stack, count)?;
        self.advance()?;
        Ok(Next::Goes)
    }

    /// Goes on by whether a table or a set has an entry at a key, three operations on.
    fn go_on_unless_there(&mut self, table: ObjectNo, key: u64, over: usize) -> Result<(), Halt>
        ensures { (place of : At) → Moves place result (steps.by (meant.has_key place (plain.Object table) (plain.Count key ∷ []) (state_of self.old.state)) (λ truth state. steps.unless of over (self.old.at + 3) state truth (held_of self.old))) (machine_of self.new) }
    {
        let there = self.state.has_count(table, key)?;
        self.at = past(self.at, 3)?;
        self.unless_true(there, over)?;
        Ok(())
    }

    /// Changes a local by a value three operations on.
    fn update_at_once(&mut self, number: u32, by: Binary, value: &Value) -> Result<(), Halt>
        ensures { (place : At) → Moves place result (steps.by (act place (action.Update (left.Local number) by) (value_of value.now ∷ []) (state_of self.old.state)) (λ _. steps.goes (self.old.at + 3 + 1) (held_of self.old))) (machine_of self.new) }
    {
        self.state.update(Left::Local(number), by, value, &[])?;
        self.at = past(self.at, 3)?;
        self.advance()?;
        Ok(())
    }

    /// Gives an element of a table the last operand two operations on, as if the table and the key had been pushed.
    fn put_at_once(&mut self, table: ObjectNo, key: u64) -> Result<(), Halt>
        ensures { (place : At) → let held = pushed (plain.Count key) (pushed (plain.Object table) (held_of self.old)) in Moves place result (steps.by (act place (action.Assign left.Element) (steps.operands 3 held) (state_of self.old.state)) (λ _. steps.goes (self.old.at + 2 + 1) (steps.without 3 held))) (machine_of self.new) }
    {
        let Some(value) = self.stack.pop() else {
            return Err(UNFIT);
        };
        self.state
            .insert(table, Key::from(Value::Count(key)), value)?;
        self.at = past(self.at, 2)?;
        self.advance()?;
        Ok(())
    }

    /// Takes a unit and gives a local a count two operations on.
    fn step_at_once(&mut self, number: u32, count: u64) -> Result<(), Halt>
        ensures { (place : At) → Moves place result (steps.by (does.tick place (state_of self.old.state)) (λ _ state. steps.by (does.set_local number (Some (plain.Count count)) state) (λ _. steps.goes (self.old.at + 2 + 1) (held_of self.old)))) (machine_of self.new) }
    {
        self.state.tick()?;
        self.state.set_count(number, count);
        self.at = past(self.at, 2)?;
        self.advance()?;
        Ok(())
    }
}
