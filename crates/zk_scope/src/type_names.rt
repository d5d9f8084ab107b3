ghost use Rattle.std.specs.Prelude.{◌≡◌, ◌++◌, codes, flat_map, map, IfOk, OnOk};
ghost use Rattle.zk_tree.specs.Lists.{joined_by};
ghost use Rattle.zk_typed.specs.Columns as spec;
ghost use Rattle.zk_typed.specs.View.{type_of};
ghost use Rattle.zk_scope.specs.Leaves.{further_key};

use std::alloc::Global;
use zk_base::Mem;
use zk_typed::script::{SimpleType, ValueType};

/// The name of a type without parts.
fn simple_name(one: SimpleType) -> &'static [u8]
    ensures { result.now ≡ spec.simple_name one }
{
    match one {
        SimpleType::Bool => b"bool",
        SimpleType::Count => b"count",
        SimpleType::Int => b"int",
        SimpleType::String => b"string",
        SimpleType::Time => b"time",
        SimpleType::Interval => b"interval",
        SimpleType::Addr => b"addr",
        SimpleType::Port => b"port",
        SimpleType::Subnet => b"subnet",
        SimpleType::Enum(_) => b"enum",
    }
}

/// Adds bytes.
fn add_text(text: &mut Vec<u8>, more: &[u8]) -> Result<(), Mem>
    ensures { OnOk result (text.new.items ≡ text.old.items ++ more.now) }
{
    text.extend_from_slice(more)?;
    Ok(())
}

/// Adds a comma and the name of a key.
fn add_further_key(text: &mut Vec<u8>, key: SimpleType) -> Result<(), Mem>
    ensures { OnOk result (text.new.items ≡ text.old.items ++ further_key key) }
{
    add_text(text, b",")?;
    add_text(text, simple_name(key))?;
    Ok(())
}

/// Adds commas and the names of keys.
fn add_further_keys(text: &mut Vec<u8>, keys: &[SimpleType]) -> Result<(), Mem>
    ensures { OnOk result (text.new.items ≡ text.old.items ++ flat_map further_key keys.now) }
{
    for key in keys {
        add_further_key(text, *key)?;
    }
    Ok(())
}

/// Adds the names of keys, with commas between.
#[tactic(auto, using(crate::proofs::TypeNameLaws::all_joined))]
fn add_keys(text: &mut Vec<u8>, keys: &[SimpleType]) -> Result<(), Mem>
    ensures { OnOk result (text.new.items ≡ text.old.items ++ joined_by (codes ",") (map spec.simple_name keys.now)) }
{
    let Some((first, others)) = keys.split_first() else {
        return Ok(());
    };
    add_text(text, simple_name(*first))?;
    add_further_keys(text, others)?;
    Ok(())
}

/// Adds the name of a type (Zeek manual, Logging Framework, the line `#types`).
#[cycle(naming)]
pub fn add_type_name(text: &mut Vec<u8>, one: &ValueType) -> Result<(), Mem>
    ensures { OnOk result (text.new.items ≡ text.old.items ++ spec.type_name (type_of one.now)) }
{
    match one {
        ValueType::Simple(simple) => add_text(text, simple_name(*simple)),
        ValueType::Set { keys } => {
            add_text(text, b"set[")?;
            add_keys(text, keys.as_slice())?;
            add_text(text, b"]")
        }
        ValueType::Vector { item } => {
            add_text(text, b"vector[")?;
            add_type_name(text, item.get())?;
            add_text(text, b"]")
        }
        ValueType::Record(_) => add_text(text, b"record"),
        ValueType::Table { .. } => add_text(text, b"table"),
    }
}

/// The name of a type.
pub fn type_name(alloc: Global, one: &ValueType) -> Result<Vec<u8>, Mem>
    ensures { IfOk result (λ name. name.items ≡ spec.type_name (type_of one.now)) }
{
    let mut text = Vec::new(alloc);
    add_type_name(&mut text, one)?;
    Ok(text)
}
