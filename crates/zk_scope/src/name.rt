ghost use Rattle.std.specs.Prelude.{◌≡◌, ◌≤◌, length, take, is_some, IfOk, IfSome};
ghost use Rattle.std.specs.Option.{option_copied, option_map};
ghost use Rattle.zk_typed.specs.Names.{is_open, module_in, module_of, whole_name};

use crate::whole::Whole;
use std::alloc::Global;
use zk_base::Mem;

/// How long the part of a name before its last `::` is, where it has one.
#[tactic(auto, using(crate::proofs::NameLaws::reading))]
fn module_len(name: &[u8]) -> Option<usize>
    ensures module { option_map (λ len. take len name.now) result ≡ module_in name.now }
    ensures within { IfSome result (λ len. len ≤ length name.now) }
{
    for at in (0..name.len()).rev() {
        if name[at..].starts_with(b"::") {
            return Some(at);
        }
    }
    None
}

/// Whether a name has a module of its own.
pub fn has_module(name: &[u8]) -> bool
    ensures { result ≡ is_some (module_in name.now) }
{
    module_len(name).is_some()
}

/// The part of a name before its last `::`, where it has one.
pub fn own_module(name: &[u8]) -> Option<&[u8]>
    ensures { option_copied result ≡ module_in name.now }
{
    match module_len(name) {
        Some(len) => Some(&name[..len]),
        None => None,
    }
}

/// The module of a name, which is empty for none.
pub fn module_of(name: &[u8]) -> &[u8]
    ensures { result.now ≡ module_of name.now }
{
    match module_len(name) {
        Some(len) => &name[..len],
        None => &[],
    }
}

/// Whether a name that isn't exported is seen from a module.
pub fn is_open(from_module: &[u8], whole: &[u8]) -> bool
    ensures { result ≡ is_open from_module.now whole.now }
{
    let module_name = module_of(whole);
    module_name.is_empty() || module_name == from_module
}

/// The whole name of a name that is declared in a module.
pub fn whole_name(alloc: Global, module_name: &[u8], name: &[u8]) -> Result<Whole, Mem>
    ensures { IfOk result (λ whole. whole ≡ whole_name module_name.now name.now) }
{
    let mut whole = Vec::new(alloc);
    if !module_name.is_empty() && !has_module(name) {
        whole.extend_from_slice(module_name)?;
        whole.extend_from_slice(b"::")?;
    }
    whole.extend_from_slice(name)?;
    Ok(Whole::of(whole))
}
