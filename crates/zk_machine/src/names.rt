ghost use Rattle.zk_tree.specs.declared.place.Place.{Place as At};
ghost use Rattle.zk_typed.specs.Meaning as meant;
ghost use Rattle.zk_value.specs.Plain.{value_of, key_of};
ghost use Rattle.zk_machine.specs.Comes.{Comes};
ghost use Rattle.zk_machine.specs.State.{state_of};

use crate::halt::Halt;
use crate::state::State;
use zk_typed::script::Names;
use zk_value::Value;

impl State {
    /// Gives names the values of a key, as far as there are both.
    fn set_keys(&mut self, names: &[u32], key: &[Value]) -> Result<(), Halt>
        ensures { (place : At) → Comes (λ _. tt) place result (meant.set_keys names.now (key_of key.now) (state_of self.old)) (state_of self.new) }
    {
        for place in 0..names.len().min(key.len()) {
            self.set_local(names[place], Some(key[place].clone()?));
        }
        Ok(())
    }

    /// Gives the names of a loop their values at a turn.
    pub fn set_names(&mut self, names: &Names, key: &[Value], value: Value) -> Result<(), Halt>
        ensures { (place : At) → Comes (λ _. tt) place result (meant.set_names names.now (key_of key.now) (value_of value) (state_of self.old)) (state_of self.new) }
    {
        self.set_keys(names.keys.as_slice(), key)?;
        if let Some(number) = names.value {
            self.set_local(number, Some(value));
        }
        Ok(())
    }
}
