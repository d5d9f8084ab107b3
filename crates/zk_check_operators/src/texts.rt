ghost use Rattle.std.specs.Prelude.{◌≡◌, ◌∷◌, ℕ, List, None, IfOk, MatchOption};
ghost use Rattle.std.specs.Option.{option_map};
ghost use Rattle.zk_typed.specs.Making as spec;
ghost use Rattle.zk_typed.specs.View.{type_of};
ghost use Rattle.zk_check_operators.specs.Verbs.{after, verbs_in};
ghost use Rattle.zk_check_operators.specs.Views.{typed_all};

use crate::operands::Typed;
use crate::same::is_simple;
use std::alloc::{AllocError, Global};
use zk_base::Bytes;
use zk_typed::script::{SimpleType, ValueType};

/// Whether a byte behind `%` is a verb that takes an argument.
fn is_verb(byte: u8) -> bool
    ensures { result ≡ spec.is_verb byte }
{
    byte == b'd' || byte == b's' || byte == b'x'
}

/// Goes past a byte of a text, which stands behind a `%` or not, and finds its verb. It answers whether
/// what follows stands behind a `%`, or `None` where no text goes on so.
#[tactic(auto, using(crate::proofs::FoundVerbs::after_one))]
fn step(behind: bool, byte: u8, found: &mut Vec<u8>) -> Result<Option<bool>, AllocError>
    ensures { IfOk result (λ next. MatchOption next
        ((rest : List ℕ) → verbs_in behind (byte ∷ rest) ≡ None)
        (λ now. (rest : List ℕ) → after found.old.items (verbs_in behind (byte ∷ rest)) ≡ after found.new.items (verbs_in now rest))) }
{
    if !behind {
        return Ok(Some(byte == b'%'));
    }
    if byte == b'%' {
        return Ok(Some(false));
    }
    if !is_verb(byte) {
        return Ok(None);
    }
    found.push(byte)?;
    Ok(Some(false))
}

/// The verbs of a text of `fmt` that take an argument, where it has no other than `%d %s %x %%`.
pub fn verbs(alloc: Global, text: &[u8]) -> Result<Option<Bytes>, AllocError>
    ensures { IfOk result (λ found. found ≡ spec.verbs text.now) }
{
    let mut found = Vec::new(alloc);
    let mut behind = false;
    for byte in text {
        match step(behind, *byte, &mut found)? {
            None => return Ok(None),
            Some(now) => behind = now,
        }
    }
    if behind {
        Ok(None)
    } else {
        Ok(Some(Bytes::from(found)))
    }
}

/// Whether a verb takes a value of a type: `%d` a count or an int, `%x` a count, `%s` any.
pub fn verb_takes(verb: u8, one: &ValueType) -> bool
    ensures { result ≡ spec.verb_takes verb (type_of one.now) }
{
    verb == b's'
        || is_simple(one, SimpleType::Count)
        || (verb == b'd' && is_simple(one, SimpleType::Int))
}

/// Whether verbs take values, one each.
pub fn verbs_take(verbs: &[u8], values: &[Typed]) -> bool
    ensures { result ≡ spec.verbs_take verbs.now (typed_all values.now) }
{
    let mut others = values;
    for verb in verbs {
        match others.split_first() {
            None => return false,
            Some((first, rest)) => {
                if !verb_takes(*verb, &first.value_type) {
                    return false;
                }
                others = rest;
            }
        }
    }
    match others.split_first() {
        None => true,
        Some(_) => false,
    }
}
