ghost use Rattle.std.specs.Prelude.{◌≡◌, [], Ok};
ghost use Rattle.zk_typed.specs.Declarations as spec;
ghost use Rattle.zk_typed.specs.LoadOrder.{Home};
ghost use Rattle.zk_typed.specs.Tells.{Tells};

use crate::attributes::is_name;
use crate::attrs::{Attributes, attr_rules};
use std::alloc::Global;
use zk_tree::Attr;
use zk_typed::Refusal;

/// The attributes of a name of events, hooks or functions.
#[derive(Drop)]
struct SignatureAttributes;

impl Attributes for SignatureAttributes {
    ghost stands = { λ kind. Unit {0} };

    ghost allowed = { λ kind. spec.const_attribute };

    ghost value_rules = { λ kind attr. Ok tt };

    fn allows(&self, name: &[u8]) -> bool {
        is_name(name, b"redef")
    }

    fn value(&self, alloc: Global, attr: &Attr) -> Result<(), Refusal> {
        let _ = alloc;
        let _ = attr;
        Ok(())
    }
}

/// The rules that the attributes of a name of events, hooks or functions break.
pub fn signature_attrs(alloc: Global, file: usize, attrs: &[Attr]) -> Result<(), Refusal>
    ensures { (home : Home) → home.file ≡ file → Tells (λ done. done) result (spec.attr_rules home spec.const_attribute spec.with_value (λ attr. Ok tt) [] attrs.now) }
{
    attr_rules(alloc, file, &SignatureAttributes, attrs)
}
