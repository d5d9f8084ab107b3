ghost use Rattle.std.specs.Prelude.{◌≡◌, ℕ, List, map, IfOk};
ghost use Rattle.zk_tree.specs.declared.place.Place.{Place as At};
ghost use Rattle.zk_tree.specs.Store as object;
ghost use Rattle.zk_tree.specs.Value as plain;
ghost use Rattle.zk_typed.specs.Does as does;
ghost use Rattle.zk_typed.specs.BuiltIns.{address_counts};
ghost use Rattle.zk_typed.specs.Operators as operators;
ghost use Rattle.zk_typed.specs.Primitives as primitive;
ghost use Rattle.zk_typed.specs.declared.script.primitive.BuiltIn.TheVariants as built_in;
ghost use Rattle.zk_typed.specs.State as typed;
ghost use Rattle.zk_typed.specs.Text.{text_of};
ghost use Rattle.zk_value.specs.Plain.{value_of, key_of};
ghost use Rattle.zk_tree.specs.Value.{Value as PlainValue};
ghost use Rattle.zk_machine.specs.Called.{GivesValue};
ghost use Rattle.zk_builtin.specs.Given.{GivesText, IsText};
ghost use Rattle.zk_machine.specs.Comes.{Comes};
ghost use Rattle.zk_machine.specs.State.{state_of};

use crate::halt::Halt;
use crate::objects::UNFIT;
use crate::state::State;
use std::alloc::Global;
use zk_base::{Addr, Bytes, Mem};
use zk_builtin::{
    BuiltinFault, addr_to_counts, cat, fmt, join_string_vec, push_value, starts_with, strstr,
    sub_bytes, to_count, to_lower, to_upper,
};
use zk_typed::FaultKind;
use zk_typed::script::BuiltIn;
use zk_value::{SharedBytes, Value};

/// A text that may be too long for a string.
fn limited(given: Result<Value, BuiltinFault>) -> Result<Value, Halt>
    ensures { (text : List ℕ) (place : At) (state : typed.State) → GivesText given text → Comes value_of place result (operators.string place text state) state }
{
    match given {
        Ok(value) => Ok(value),
        Err(BuiltinFault::TooLong) => Err(Halt::Fault(FaultKind::TooLong)),
        Err(BuiltinFault::NoMemory) => Err(Halt::NoMemory),
    }
}

/// A text that is a string whatever its length.
fn unlimited(given: Result<Value, BuiltinFault>) -> Result<Value, Halt>
    ensures { (text : List ℕ) (place : At) (state : typed.State) → IsText given text → Comes value_of place result (does.pure (plain.String text) state) state }
{
    match given {
        Ok(value) => Ok(value),
        Err(_) => Err(Halt::NoMemory),
    }
}

/// A value for which no memory is taken.
fn sure(given: Result<Value, BuiltinFault>) -> Result<Value, Halt>
    ensures { (value : PlainValue) (place : At) (state : typed.State) → GivesValue given value → Comes value_of place result (does.pure value state) state }
{
    match given {
        Ok(value) => Ok(value),
        Err(_) => Err(Halt::NoMemory),
    }
}

/// The text of a value as `print` writes it. That of a string isn't copied.
fn shared_text(alloc: Global, value: &Value) -> Result<SharedBytes, Mem>
    ensures { IfOk result (λ text. text ≡ text_of (value_of value.now)) }
{
    match value {
        Value::String(bytes) => Ok(bytes.clone()?),
        _ => {
            let mut text = Vec::new(alloc);
            push_value(&mut text, value)?;
            SharedBytes::of(Bytes::from(text))
        }
    }
}

/// The texts of values.
fn shared_texts(alloc: Global, values: &[Value]) -> Result<Vec<SharedBytes>, Mem>
    ensures { IfOk result (λ texts. texts.items ≡ map text_of (key_of values.now)) }
{
    let mut texts = Vec::with_capacity(alloc, values.len())?;
    for value in values {
        texts.push(shared_text(alloc, value)?)?;
    }
    Ok(texts)
}

/// The numbers that an address is made of.
fn count_values(alloc: Global, counts: &[u64]) -> Result<Vec<Value>, Mem>
    ensures { IfOk result (λ values. key_of values.items ≡ map plain.Count counts.now) }
{
    let mut values = Vec::with_capacity(alloc, counts.len())?;
    for count in counts {
        values.push(Value::Count(*count))?;
    }
    Ok(values)
}

impl State {
    /// `join_string_vec` (Zeek manual, Built-in functions).
    fn join_strings(&self, strings: &Value, separator: &[u8]) -> Result<Value, Halt>
        ensures { (place : At) → Comes value_of place result (primitive.join_strings place (value_of strings.now) separator.now (state_of self.now)) (state_of self.now) }
    {
        let Value::Object(number) = strings else {
            return Err(UNFIT);
        };
        let items = self.vector(*number)?;
        let texts = shared_texts(self.world.alloc, items)?;
        limited(join_string_vec(self.world.alloc, &texts, separator))
    }

    /// `addr_to_counts` (Zeek manual, Built-in functions).
    fn address_counts(&mut self, address: Addr) -> Result<Value, Halt>
        ensures { (place : At) → Comes value_of place result (does.new_object (object.Vector (map plain.Count (address_counts address))) (state_of self.old)) (state_of self.new) }
    {
        let alloc = self.world.alloc;
        let counts = addr_to_counts(alloc, address).map_err(|_| Halt::NoMemory)?;
        let items = count_values(alloc, &counts)?;
        self.made_vector(items)
    }

    /// `fmt` (Zeek manual, Built-in functions).
    fn call_fmt(&self, values: &[Value]) -> Result<Value, Halt>
        ensures { (place : At) → Comes value_of place result (primitive.called place built_in.Fmt (key_of values.now) (state_of self.now)) (state_of self.now) }
    {
        match values {
            [Value::String(text), values @ ..] => {
                limited(fmt(self.world.alloc, text.as_slice(), values))
            }
            _ => Err(UNFIT),
        }
    }

    /// `to_lower` (Zeek manual, Built-in functions).
    fn call_to_lower(&self, values: &[Value]) -> Result<Value, Halt>
        ensures { (place : At) → Comes value_of place result (primitive.called place built_in.ToLower (key_of values.now) (state_of self.now)) (state_of self.now) }
    {
        match values {
            [Value::String(text)] => unlimited(to_lower(self.world.alloc, text.as_slice())),
            _ => Err(UNFIT),
        }
    }

    /// `to_upper` (Zeek manual, Built-in functions).
    fn call_to_upper(&self, values: &[Value]) -> Result<Value, Halt>
        ensures { (place : At) → Comes value_of place result (primitive.called place built_in.ToUpper (key_of values.now) (state_of self.now)) (state_of self.now) }
    {
        match values {
            [Value::String(text)] => unlimited(to_upper(self.world.alloc, text.as_slice())),
            _ => Err(UNFIT),
        }
    }

    /// `sub_bytes` (Zeek manual, Built-in functions).
    fn call_sub_bytes(&self, values: &[Value]) -> Result<Value, Halt>
        ensures { (place : At) → Comes value_of place result (primitive.called place built_in.SubBytes (key_of values.now) (state_of self.now)) (state_of self.now) }
    {
        match values {
            [Value::String(text), Value::Count(start), Value::Int(n)] => {
                unlimited(sub_bytes(self.world.alloc, text.as_slice(), *start, *n))
            }
            _ => Err(UNFIT),
        }
    }

    /// `strstr` (Zeek manual, Built-in functions).
    fn call_strstr(&self, values: &[Value]) -> Result<Value, Halt>
        ensures { (place : At) → Comes value_of place result (primitive.called place built_in.Strstr (key_of values.now) (state_of self.now)) (state_of self.now) }
    {
        match values {
            [Value::String(big), Value::String(little)] => {
                sure(strstr(big.as_slice(), little.as_slice()))
            }
            _ => Err(UNFIT),
        }
    }

    /// `to_count` (Zeek manual, Built-in functions).
    fn call_to_count(&self, values: &[Value]) -> Result<Value, Halt>
        ensures { (place : At) → Comes value_of place result (primitive.called place built_in.ToCount (key_of values.now) (state_of self.now)) (state_of self.now) }
    {
        match values {
            [Value::String(text)] => sure(to_count(text.as_slice())),
            _ => Err(UNFIT),
        }
    }

    /// `starts_with` (Zeek manual, Built-in functions).
    fn call_starts_with(&self, values: &[Value]) -> Result<Value, Halt>
        ensures { (place : At) → Comes value_of place result (primitive.called place built_in.StartsWith (key_of values.now) (state_of self.now)) (state_of self.now) }
    {
        match values {
            [Value::String(text), Value::String(start)] => {
                sure(starts_with(text.as_slice(), start.as_slice()))
            }
            _ => Err(UNFIT),
        }
    }

    /// `join_string_vec` (Zeek manual, Built-in functions).
    fn call_join_strings(&self, values: &[Value]) -> Result<Value, Halt>
        ensures { (place : At) → Comes value_of place result (primitive.called place built_in.JoinStringVec (key_of values.now) (state_of self.now)) (state_of self.now) }
    {
        match values {
            [strings, Value::String(separator)] => self.join_strings(strings, separator.as_slice()),
            _ => Err(UNFIT),
        }
    }

    /// `addr_to_counts` (Zeek manual, Built-in functions).
    fn call_address_counts(&mut self, values: &[Value]) -> Result<Value, Halt>
        ensures { (place : At) → Comes value_of place result (primitive.called place built_in.AddrToCounts (key_of values.now) (state_of self.old)) (state_of self.new) }
    {
        match values {
            [value] => match value {
                Value::Addr(address) => self.address_counts(address.get()),
                _ => Err(UNFIT),
            },
            [] | [_, _, ..] => Err(UNFIT),
        }
    }

    /// A call of a built-in function (Zeek manual, Built-in functions).
    pub fn called(&mut self, function: BuiltIn, values: &[Value]) -> Result<Value, Halt>
        ensures { (place : At) → Comes value_of place result (primitive.called place function (key_of values.now) (state_of self.old)) (state_of self.new) }
    {
        match function {
            BuiltIn::Fmt => self.call_fmt(values),
            BuiltIn::Cat => limited(cat(self.world.alloc, values)),
            BuiltIn::ToLower => self.call_to_lower(values),
            BuiltIn::ToUpper => self.call_to_upper(values),
            BuiltIn::SubBytes => self.call_sub_bytes(values),
            BuiltIn::Strstr => self.call_strstr(values),
            BuiltIn::ToCount => self.call_to_count(values),
            BuiltIn::StartsWith => self.call_starts_with(values),
            BuiltIn::JoinStringVec => self.call_join_strings(values),
            BuiltIn::AddrToCounts => self.call_address_counts(values),
            BuiltIn::NetworkTime => match values {
                [] => Ok(Value::Time(self.world.time)),
                [_, ..] => Err(UNFIT),
            },
            BuiltIn::Copy => match values {
                [value] => self.copy(value),
                [] | [_, _, ..] => Err(UNFIT),
            },
        }
    }
}
