ghost use Rattle.std.specs.Prelude.{◌≡◌, ◌+◌, ◌≤◌, ◌^◌, List, ◌∷◌, map, reverse, length, OnErr};
ghost use Rattle.zk_tree.specs.Value.{Value as PlainValue};
ghost use Rattle.zk_typed.specs.declared.script.stmt.Names.{Names as PlainNames};
ghost use Rattle.zk_machine.specs.Found.{Found, turn_with};
ghost use Rattle.zk_lower.specs.Frames.{Keys, Indexes, with_loops};
ghost use Rattle.zk_lower.specs.Steps as steps;
ghost use Rattle.zk_tree.specs.declared.place.Place.{Place as At};
ghost use Rattle.zk_typed.specs.Does as does;
ghost use Rattle.zk_typed.specs.Objects.{keys_of, table, vector};
ghost use Rattle.zk_value.specs.Plain.{value_of, key_of};
ghost use Rattle.zk_machine.specs.Comes.{Comes};
ghost use Rattle.zk_machine.specs.Leads.{Leads};
ghost use Rattle.zk_machine.specs.Running.{held_of, machine_of, Moves};
ghost use Rattle.zk_machine.specs.State.{state_of};

use crate::ends::{Next, placed};
use crate::frames::Loop;
use crate::halt::Halt;
use crate::objects::UNFIT;
use crate::running::{Running, behind};
use crate::state::State;
use zk_base::Mem;
use zk_tree::Place;
use zk_typed::script::Names;
use zk_value::{Key, Value};

/// A key whose entry is there, with its value.
#[derive(Debug, Drop)]
pub struct Turn {
    pub key: Key,
    pub value: Value,
}

/// Takes keys up to the first whose entry is still there.
fn next_there(state: &State, over: &Value, keys: &mut Vec<Key>) -> Result<Option<Turn>, Halt>
    ensures { (place : At) (names : PlainNames) → Found place names result (steps.next_key place names (value_of over.now) (map key_of (reverse keys.old.items)) (state_of state.now)) (map key_of (reverse keys.new.items)) (state_of state.now) }
{
    while let Some(key) = keys.pop() {
        match state.entry(over, &key) {
            Ok(Some(value)) => return Ok(Some(Turn { key, value })),
            Ok(None) => {}
            Err(halt) => return Err(halt),
        }
    }
    Ok(None)
}

/// A turn over a table: the key and its value are the values of names.
fn begin_turn(state: &mut State, names: &Names, turn: Turn) -> Result<(), Halt>
    ensures { (place : At) (left : List (List PlainValue)) → Comes (λ _. Some left) place result
        (turn_with place names.now (key_of turn.key) (value_of turn.value) left (state_of state.old)) (state_of state.new) }
{
    let Turn { key, value } = turn;
    state.tick()?;
    state.set_names(names, key.as_slice(), value)
}

/// A turn over a vector: the next item is the value of a name.
fn index_turn(state: &mut State, names: &Names, over: &Value, index: u64) -> Result<(), Halt>
    ensures { (place : At) → Comes (λ _. tt) place result (steps.next_index place names.now (value_of over.now) index (state_of state.old)) (state_of state.new) }
{
    state.tick()?;
    let at = Value::Count(index);
    let item = state.item(over, &at)?;
    state.set_names(names, &[at], item)
}

impl Running {
    /// Goes on with a loop over these keys.
    fn with_keys(&mut self, over: Value) -> Result<(), Halt>
        ensures { (place : At) → Moves place result (steps.by (does.and_then (table place (value_of over) (state_of self.old.state)) (λ start state. does.Gives (keys_of start) state))
            (λ keys. steps.goes (self.old.at + 1) (with_loops (Keys (value_of over) keys ∷ (held_of self.old).loops) (held_of self.old)))) (machine_of self.new) }
    {
        let mut keys = self.state.keys(&over)?;
        keys.reverse();
        self.loops.push(Loop::Keys { over, keys })?;
        self.advance()?;
        Ok(())
    }

    fn begin_keys_over(&mut self, over: Value) -> Result<(), Halt>
        ensures { (place : At) → Moves place result (steps.begin_keys place self.old.at (state_of self.old.state) (value_of over) (held_of self.old)) (machine_of self.new) }
    {
        self.with_keys(over)
    }

    /// Begins a loop over the keys of the table or the set that it takes.
    fn begin_keys_over_top(&mut self) -> Result<(), Halt>
        ensures { (place : At) → Moves place result (steps.with_top place (held_of self.old) (state_of self.old.state) (steps.begin_keys place self.old.at (state_of self.old.state))) (machine_of self.new) }
    {
        match self.stack.pop() {
            Some(over) => self.begin_keys_over(over),
            None => Err(UNFIT),
        }
    }

    /// Begins a loop over the keys of a table or a set.
    #[inline(never)]
    pub fn begin_keys(&mut self, place: Place) -> Result<Next, Mem>
        ensures { Leads result (steps.with_top place (held_of self.old) (state_of self.old.state) (steps.begin_keys place self.old.at (state_of self.old.state))) self.new }
    {
        let done = self.begin_keys_over_top();
        placed(done, place, &mut self.ending)
    }

    /// Goes on with a loop over the indexes of a vector.
    fn with_indexes(&mut self, over: Value) -> Result<(), Halt>
        ensures { (place : At) → Moves place result (steps.by (does.and_then (vector place (value_of over) (state_of self.old.state)) (λ start state. does.Gives (length start) state))
            (λ left. steps.goes (self.old.at + 1) (with_loops (Indexes (value_of over) 0 left ∷ (held_of self.old).loops) (held_of self.old)))) (machine_of self.new) }
    {
        let left = self.state.items(&over)?;
        self.loops.push(Loop::Indexes {
            over,
            index: 0,
            left,
        })?;
        self.advance()?;
        Ok(())
    }

    fn begin_indexes_over(&mut self, over: Value) -> Result<(), Halt>
        ensures { (place : At) → Moves place result (steps.begin_indexes place self.old.at (state_of self.old.state) (value_of over) (held_of self.old)) (machine_of self.new) }
    {
        self.with_indexes(over)
    }

    /// Begins a loop over the indexes of the vector that it takes.
    fn begin_indexes_over_top(&mut self) -> Result<(), Halt>
        ensures { (place : At) → Moves place result (steps.with_top place (held_of self.old) (state_of self.old.state) (steps.begin_indexes place self.old.at (state_of self.old.state))) (machine_of self.new) }
    {
        match self.stack.pop() {
            Some(over) => self.begin_indexes_over(over),
            None => Err(UNFIT),
        }
    }

    /// Begins a loop over the indexes of a vector.
    #[inline(never)]
    pub fn begin_indexes(&mut self, place: Place) -> Result<Next, Mem>
        ensures { Leads result (steps.with_top place (held_of self.old) (state_of self.old.state) (steps.begin_indexes place self.old.at (state_of self.old.state))) self.new }
    {
        let done = self.begin_indexes_over_top();
        placed(done, place, &mut self.ending)
    }

    /// The next turn of the innermost loop, which goes over a vector, or its end.
    fn next_turn_of_indexes(&mut self, names: &Names, back: usize) -> Result<(), Halt>
        ensures { (place : At) → Moves place result (steps.indexes_step place names.now back self.old.at (held_of self.old) (state_of self.old.state) (held_of self.old).loops) (machine_of self.new) }
    {
        match self.loops.pop() {
            Some(Loop::Indexes { over, index, left }) => {
                if left == 0 {
                    return self.jump_out();
                }
                let Some(next) = index.checked_add(1) else {
                    return Err(Halt::NoMemory);
                };
                index_turn(&mut self.state, names, &over, index)?;
                self.loops.push(Loop::Indexes {
                    over,
                    index: next,
                    left: left - 1,
                })?;
                self.at = self.at.saturating_sub(back);
                Ok(())
            }
            _ => Err(UNFIT),
        }
    }

    /// Begins the next turn over a vector, or goes on behind the end of the loop.
    #[inline(never)]
    pub fn next_index(&mut self, place: Place, names: &Names, back: usize) -> Result<Next, Mem>
        ensures { Leads result (steps.indexes_step place names.now back self.old.at (held_of self.old) (state_of self.old.state) (held_of self.old).loops) self.new }
    {
        let done = self.next_turn_of_indexes(names, back);
        placed(done, place, &mut self.ending)
    }

    /// The next turn of the innermost loop, which goes over a table, or its end.
    fn next_turn_of_keys(&mut self, names: &Names, back: usize) -> Result<(), Halt>
        ensures { (place : At) → Moves place result (steps.keys_step place names.now back self.old.at (held_of self.old) (state_of self.old.state) (held_of self.old).loops) (machine_of self.new) }
    {
        match self.loops.pop() {
            Some(Loop::Keys { over, keys }) => self.key_turn(names, back, over, keys),
            _ => Err(UNFIT),
        }
    }

    /// Begins the next turn over a table, or goes on behind the end of the loop.
    #[inline(never)]
    pub fn next_key(&mut self, place: Place, names: &Names, back: usize) -> Result<Next, Mem>
        ensures { Leads result (steps.keys_step place names.now back self.old.at (held_of self.old) (state_of self.old.state) (held_of self.old).loops) self.new }
    {
        let done = self.next_turn_of_keys(names, back);
        placed(done, place, &mut self.ending)
    }

    /// The next turn of a loop over these keys, the next one last.
    fn key_turn(
        &mut self,
        names: &Names,
        back: usize,
        over: Value,
        mut keys: Vec<Key>,
    ) -> Result<(), Halt>
        ensures { (place : At) → Moves place result (steps.by (steps.next_key place names.now (value_of over) (map key_of (reverse keys.items)) (state_of self.old.state))
            (steps.keys_turn self.old.at back (value_of over) (held_of self.old).loops (held_of self.old))) (machine_of self.new) }
    {
        match next_there(&self.state, &over, &mut keys)? {
            None => self.jump_out(),
            Some(turn) => self.turn_on(names, back, over, keys, turn),
        }
    }

    /// A turn with a key, behind which these are left.
    fn turn_on(
        &mut self,
        names: &Names,
        back: usize,
        over: Value,
        keys: Vec<Key>,
        turn: Turn,
    ) -> Result<(), Halt>
        ensures { (place : At) → Moves place result (steps.by (turn_with place names.now (key_of turn.key) (value_of turn.value) (map key_of (reverse keys.items)) (state_of self.old.state))
            (steps.keys_turn self.old.at back (value_of over) (held_of self.old).loops (held_of self.old))) (machine_of self.new) }
    {
        match begin_turn(&mut self.state, names, turn) {
            Ok(()) => {
                self.loops.push(Loop::Keys { over, keys })?;
                self.at = self.at.saturating_sub(back);
                Ok(())
            }
            Err(halt) => Err(halt),
        }
    }

    /// Goes on behind the end of a loop.
    fn jump_out(&mut self) -> Result<(), Halt>
        ensures goes { (place : At) → Moves place result (steps.goes (self.old.at + 2) (held_of self.old) (state_of self.old.state)) (machine_of self.new) }
        ensures err { OnErr result (2 ^ 64 ≤ self.old.at + 2) }
    {
        match behind(self.at, 1) {
            Some(at) => {
                self.at = at;
                Ok(())
            }
            None => Err(Halt::NoMemory),
        }
    }
}
