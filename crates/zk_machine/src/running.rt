ghost use Rattle.std.specs.Prelude.{◌≡◌, ◌+◌, ◌∷◌, ◌≤◌, ◌^◌, map, reverse, take, drop, IfSome, IfNone, OnOk, OnErr};
ghost use Rattle.zk_lower.specs.Frames.{with_loops};
ghost use Rattle.zk_lower.specs.Steps as steps;
ghost use Rattle.zk_tree.specs.declared.place.Place.{Place as At};
ghost use Rattle.zk_typed.specs.Does as does;
ghost use Rattle.zk_typed.specs.Primitives.{perform, act};
ghost use Rattle.zk_typed.specs.State as typed;
ghost use Rattle.zk_typed.specs.declared.script.action.Left.TheVariants as left;
ghost use Rattle.zk_typed.specs.declared.script.primitive.Primitive.TheVariants as primitive;
ghost use Rattle.zk_tree.specs.Value as plain;
ghost use Rattle.zk_value.specs.Plain.{value_of, key_of};
ghost use Rattle.zk_machine.specs.Comes.{Comes};
ghost use Rattle.zk_machine.specs.Running.{held_of, machine_of, Moves};
ghost use Rattle.zk_machine.specs.State.{state_of};

use crate::counts::{counted, stepped_count};
use crate::ends::Ending;
use crate::frames::{Frame, Loop};
use crate::halt::Halt;
use crate::objects::UNFIT;
use crate::primitives::compared;
use crate::pushes::{push_count, push_truth};
use crate::state::{State, named};
use zk_base::Mem;
use zk_typed::script::{Action, Binary, Direction, Left, Primitive, Relation};
use zk_value::Value;

/// What code runs with: where it is, the operands, loops and waiting bodies, the innermost one last, and the
/// state.
#[derive(Debug, Drop)]
pub struct Running {
    pub at: usize,
    pub stack: Vec<Value>,
    pub loops: Vec<Loop>,
    pub frames: Vec<Frame>,
    pub state: State,
    /// How the code ends, once it does.
    pub ending: Ending,
}

impl Running {
    /// Goes on behind the next operation. No memory holds code in which that place has no number.
    pub fn advance(&mut self) -> Result<(), Mem>
        ensures goes { OnOk result (steps.goes (self.old.at + 1) (held_of self.old) (state_of self.old.state) ≡ steps.Goes (machine_of self.new)) }
        ensures err { OnErr result (2 ^ 64 ≤ self.old.at + 1) }
    {
        match self.at.checked_add(1) {
            Some(at) => {
                self.at = at;
                Ok(())
            }
            None => Err(Mem),
        }
    }

    /// Pushes a value, and goes on.
    pub fn push(&mut self, value: Value) -> Result<(), Mem>
        ensures { OnOk result (steps.push self.old.at (held_of self.old) (value_of value) (state_of self.old.state) ≡ steps.Goes (machine_of self.new)) }
    {
        match value {
            Value::Count(count) => push_count(&mut self.stack, count)?,
            Value::Bool(truth) => push_truth(&mut self.stack, truth)?,
            _ => self.stack.push(value)?,
        }
        self.advance()
    }

    /// Pushes another handle to a value, and goes on.
    pub fn push_handle(&mut self, value: &Value) -> Result<(), Mem>
        ensures { OnOk result (steps.push self.old.at (held_of self.old) (value_of value.now) (state_of self.old.state) ≡ steps.Goes (machine_of self.new)) }
    {
        push_handle(&mut self.stack, value)?;
        self.advance()
    }

    /// Pushes the value of a local.
    pub fn local(&mut self, number: u32) -> Result<(), Halt>
        ensures { (place : At) → Moves place result (steps.by (does.local place number (state_of self.old.state)) (steps.push self.old.at (held_of self.old))) (machine_of self.new) }
    {
        let value = named(&self.state.locals, number)?;
        push_handle(&mut self.stack, value)?;
        self.advance()?;
        Ok(())
    }

    /// Pushes the value of a global.
    pub fn global(&mut self, number: u32) -> Result<(), Halt>
        ensures { (place : At) → Moves place result (steps.by (does.global place number (state_of self.old.state)) (steps.push self.old.at (held_of self.old))) (machine_of self.new) }
    {
        let world = &self.state.world;
        let value = named(world.globals.as_slice(), number)?;
        push_handle(&mut self.stack, value)?;
        self.advance()?;
        Ok(())
    }

    /// Takes a unit.
    pub fn tick(&mut self) -> Result<(), Halt>
        ensures { (place : At) → Moves place result (steps.by (does.tick place (state_of self.old.state)) (λ _. steps.goes (self.old.at + 1) (held_of self.old))) (machine_of self.new) }
    {
        self.state.tick()?;
        self.advance()?;
        Ok(())
    }

    /// Takes an operand, of which nothing is made.
    pub fn drop_value(&mut self) -> Result<(), Mem>
        ensures { OnOk result (steps.goes (self.old.at + 1) (steps.without 1 (held_of self.old)) (state_of self.old.state) ≡ steps.Goes (machine_of self.new)) }
    {
        self.stack.pop();
        self.advance()
    }

    /// Ends the innermost loop.
    pub fn end_loop(&mut self) -> Result<(), Mem>
        ensures { OnOk result (steps.goes (self.old.at + 1) (with_loops (drop 1 (held_of self.old).loops) (held_of self.old)) (state_of self.old.state) ≡ steps.Goes (machine_of self.new)) }
    {
        self.loops.pop();
        self.advance()
    }

    /// Pushes what a primitive gives for so many operands.
    pub fn apply(&mut self, primitive: &Primitive, count: usize) -> Result<(), Halt>
        ensures { (place : At) → Moves place result (steps.by (perform place primitive.now (steps.operands count (held_of self.old)) (state_of self.old.state)) (steps.push self.old.at (steps.without count (held_of self.old)))) (machine_of self.new) }
    {
        match primitive {
            Primitive::Compare(relation) => self.compare(*relation, count),
            Primitive::Step { left, by } => self.step_side(*left, *by, count),
            Primitive::Binary(operator) => self.compute(*operator, count),
            _ => self.perform(primitive, count),
        }
    }

    /// Pushes what a primitive gives for the last operands, so many of them.
    fn perform(&mut self, primitive: &Primitive, count: usize) -> Result<(), Halt>
        ensures { (place : At) → Moves place result (steps.by (perform place primitive.now (steps.operands count (held_of self.old)) (state_of self.old.state)) (steps.push self.old.at (steps.without count (held_of self.old)))) (machine_of self.new) }
    {
        let value = perform_last(&mut self.state, &self.stack, primitive, count)?;
        cut(&mut self.stack, count);
        self.push(value)?;
        Ok(())
    }

    /// Pushes what an operator computes from the last operands, so many of them. No whole value is copied where
    /// they are counts.
    fn compute(&mut self, operator: Binary, count: usize) -> Result<(), Halt>
        ensures { (place : At) → Moves place result (steps.by (perform place (primitive.Binary operator) (steps.operands count (held_of self.old)) (state_of self.old.state)) (steps.push self.old.at (steps.without count (held_of self.old)))) (machine_of self.new) }
    {
        match counted_last(&self.stack, operator, count) {
            Some(value) => {
                cut(&mut self.stack, count);
                push_count(&mut self.stack, value)?;
                self.advance()?;
                Ok(())
            }
            None => self.perform(&Primitive::Binary(operator), count),
        }
    }

    /// `++x` or `--x`, whose new value is pushed (Zeek manual, Operators).
    fn step_side(&mut self, side: Left, by: Direction, count: usize) -> Result<(), Halt>
        ensures { (place : At) → Moves place result (steps.by (perform place (primitive.Step side by) (steps.operands count (held_of self.old)) (state_of self.old.state)) (steps.push self.old.at (steps.without count (held_of self.old)))) (machine_of self.new) }
    {
        match side {
            Left::Local(number) => self.step_local(number, by, count),
            _ => self.perform(&Primitive::Step { left: side, by }, count),
        }
    }

    /// `++x` or `--x` of a local, whose new value is pushed.
    fn step_local(&mut self, number: u32, by: Direction, count: usize) -> Result<(), Halt>
        ensures { (place : At) → Moves place result (steps.by (perform place (primitive.Step (left.Local number) by) (steps.operands count (held_of self.old)) (state_of self.old.state)) (steps.push self.old.at (steps.without count (held_of self.old)))) (machine_of self.new) }
    {
        let left = Left::Local(number);
        if count > 0 {
            return self.perform(&Primitive::Step { left, by }, count);
        }
        let before = named(&self.state.locals, number)?;
        match stepped_count(by, before) {
            Some(after) => {
                self.state.set_count(number, after);
                push_count(&mut self.stack, after)?;
                self.advance()?;
                Ok(())
            }
            None => self.perform(&Primitive::Step { left, by }, count),
        }
    }

    /// Pushes whether a relation holds between the last operands, so many of them.
    fn compare(&mut self, relation: Relation, count: usize) -> Result<(), Halt>
        ensures { (place : At) → Moves place result (steps.by (perform place (primitive.Compare relation) (steps.operands count (held_of self.old)) (state_of self.old.state)) (steps.push self.old.at (steps.without count (held_of self.old)))) (machine_of self.new) }
    {
        let truth = compare_last(&self.stack, relation, count)?;
        cut(&mut self.stack, count);
        push_truth(&mut self.stack, truth)?;
        self.advance()?;
        Ok(())
    }

    /// Adds the last operand to the one before it.
    pub fn add(&mut self) -> Result<(), Halt>
        ensures { (place : At) → Moves place result (steps.add place self.old.at (held_of self.old) (state_of self.old.state)) (machine_of self.new) }
    {
        let Some(more) = self.stack.pop() else {
            return Err(UNFIT);
        };
        let Some(before) = self.stack.pop() else {
            return Err(UNFIT);
        };
        let value = self.state.add(&before, &more)?;
        self.push(value)?;
        Ok(())
    }

    /// Does what an action says with so many operands.
    pub fn act(&mut self, action: &Action, count: usize) -> Result<(), Halt>
        ensures { (place : At) → Moves place result (steps.by (act place action.now (steps.operands count (held_of self.old)) (state_of self.old.state)) (λ _. steps.goes (self.old.at + 1) (steps.without count (held_of self.old)))) (machine_of self.new) }
    {
        act_last(&mut self.state, &self.stack, action, count)?;
        cut(&mut self.stack, count);
        self.advance()?;
        Ok(())
    }

    /// Goes on behind the next operations, so many of them.
    pub fn jump(&mut self, over: usize) -> Result<(), Mem>
        ensures goes { OnOk result (steps.goes (self.old.at + 1 + over) (held_of self.old) (state_of self.old.state) ≡ steps.Goes (machine_of self.new)) }
        ensures err { OnErr result (2 ^ 64 ≤ self.old.at + 1 + over) }
    {
        match behind(self.at, over) {
            Some(at) => {
                self.at = at;
                Ok(())
            }
            None => Err(Mem),
        }
    }

    /// Goes on behind so many operations where the value that it takes is `F`.
    pub fn unless(&mut self, over: usize) -> Result<(), Halt>
        ensures { (place : At) → Moves place result (steps.with_top place (held_of self.old) (state_of self.old.state) (steps.unless place over self.old.at (state_of self.old.state))) (machine_of self.new) }
    {
        match self.stack.pop() {
            Some(Value::Bool(truth)) => {
                self.unless_true(truth, over)?;
                Ok(())
            }
            _ => Err(UNFIT),
        }
    }

    /// Goes on behind so many operations where a truth value is `F`.
    pub fn unless_true(&mut self, truth: bool, over: usize) -> Result<(), Mem>
        ensures { (place : At) → OnOk result (steps.unless place over self.old.at (state_of self.old.state) (plain.Bool truth) (held_of self.old) ≡ steps.Goes (machine_of self.new)) }
    {
        if truth {
            self.advance()
        } else {
            self.jump(over)
        }
    }

    /// Begins another turn so many operations before where the value that it takes is `T`.
    pub fn turn(&mut self, back: usize) -> Result<(), Halt>
        ensures { (place : At) → Moves place result (steps.with_top place (held_of self.old) (state_of self.old.state) (steps.turn place back self.old.at (state_of self.old.state))) (machine_of self.new) }
    {
        match self.stack.pop() {
            Some(Value::Bool(truth)) => {
                self.turn_if(truth, back)?;
                Ok(())
            }
            _ => Err(UNFIT),
        }
    }

    /// Begins another turn so many operations before where a truth value is `T`.
    pub fn turn_if(&mut self, truth: bool, back: usize) -> Result<(), Halt>
        ensures { (place : At) → Moves place result (steps.turn place back self.old.at (state_of self.old.state) (plain.Bool truth) (held_of self.old)) (machine_of self.new) }
    {
        if truth {
            self.state.tick()?;
            self.at = self.at.saturating_sub(back);
            return Ok(());
        }
        self.advance()?;
        Ok(())
    }
}

/// Pushes a clone of a value. It stands out of line, so that the push of a count has little to clear.
#[inline(never)]
fn push_clone(stack: &mut Vec<Value>, value: &Value) -> Result<(), Mem>
    ensures { OnOk result (map value_of (reverse stack.new.items) ≡ value_of value.now ∷ map value_of (reverse stack.old.items)) }
{
    stack.push(value.clone()?)?;
    Ok(())
}

/// Pushes another handle to a value. A count is written anew, since a whole value is slow to copy.
fn push_handle(stack: &mut Vec<Value>, value: &Value) -> Result<(), Mem>
    ensures { OnOk result (map value_of (reverse stack.new.items) ≡ value_of value.now ∷ map value_of (reverse stack.old.items)) }
{
    match value {
        Value::Count(count) => push_count(stack, *count),
        _ => push_clone(stack, value),
    }
}

/// The place behind the next operations, so many of them, where it has a number.
pub fn behind(at: usize, over: usize) -> Option<usize>
    ensures some { IfSome result (λ to. to ≡ at + 1 + over) }
    ensures none { IfNone result (2 ^ 64 ≤ at + 1 + over) }
{
    match at.checked_add(1) {
        Some(next) => next.checked_add(over),
        None => None,
    }
}

/// What a primitive gives for the last operands, so many of them.
fn perform_last(
    state: &mut State,
    stack: &[Value],
    primitive: &Primitive,
    count: usize,
) -> Result<Value, Halt>
    ensures { (place : At) → Comes value_of place result (perform place primitive.now (reverse (take count (map value_of (reverse stack.now)))) (state_of state.old)) (state_of state.new) }
{
    let from = stack.len().saturating_sub(count);
    state.perform(primitive, &stack[from..])
}

/// What an operator computes from two counts, where it is a count.
fn counted_of(operator: Binary, operands: &[Value]) -> Option<u64>
    ensures { IfSome result (λ count. (place : At) (state : typed.State) → perform place (primitive.Binary operator) (key_of operands.now) state ≡ does.Gives (plain.Count count) state) }
{
    match operands {
        [a, b] => match counted(operator, a, b) {
            Some(count) => Some(count),
            None => None,
        },
        [] | [_] | [_, _, _, ..] => None,
    }
}

/// What an operator computes from the last operands, where these are two counts and it is one.
fn counted_last(stack: &[Value], operator: Binary, count: usize) -> Option<u64>
    ensures { IfSome result (λ value. (place : At) (state : typed.State) → perform place (primitive.Binary operator) (reverse (take count (map value_of (reverse stack.now)))) state ≡ does.Gives (plain.Count value) state) }
{
    let from = stack.len().saturating_sub(count);
    counted_of(operator, &stack[from..])
}

/// Whether a relation holds between the last operands, so many of them.
fn compare_last(stack: &[Value], relation: Relation, count: usize) -> Result<bool, Halt>
    ensures { (place : At) (state : typed.State) → Comes plain.Bool place result (perform place (primitive.Compare relation) (reverse (take count (map value_of (reverse stack.now)))) state) state }
{
    let from = stack.len().saturating_sub(count);
    compared(relation, &stack[from..])
}

/// What an action does with the last operands, so many of them.
fn act_last(state: &mut State, stack: &[Value], action: &Action, count: usize) -> Result<(), Halt>
    ensures { (place : At) → Comes (λ _. tt) place result (act place action.now (reverse (take count (map value_of (reverse stack.now)))) (state_of state.old)) (state_of state.new) }
{
    let from = stack.len().saturating_sub(count);
    state.act(action, &stack[from..])
}

/// Takes the last operands away, so many of them.
pub fn cut(stack: &mut Vec<Value>, count: usize)
    ensures { map value_of (reverse stack.new.items) ≡ drop count (map value_of (reverse stack.old.items)) }
{
    let from = stack.len().saturating_sub(count);
    stack.truncate(from);
}
