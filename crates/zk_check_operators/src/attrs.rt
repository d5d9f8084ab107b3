ghost use Rattle.std.specs.Prelude.{◌≡◌, ◌≤◌, length, List, ℕ, Bool, [], is_some};
ghost use Rattle.zk_tree.specs.declared.types.Attr.{Attr as SyntaxAttr};
ghost use Rattle.zk_typed.specs.Checked.{Checked};
ghost use Rattle.zk_typed.specs.Declarations as spec;
ghost use Rattle.zk_typed.specs.LoadOrder.{Home};
ghost use Rattle.zk_typed.specs.Tells.{Tells};
ghost use Rattle.zk_check_operators.specs.Attributes.{before, one_rule, stands_behind, fitting};

use crate::attributes::{is_expiry, with_value};
use crate::gather::also;
use crate::placed::{expiry_before, is_before};
use std::alloc::Global;
use zk_tree::{Attr, Expr, Place};
use zk_typed::{Refusal, Rule, one_broken};

/// Which attributes may stand at a declaration, and the rules of their values, which are known where what
/// these rest on `stands`.
pub trait Attributes {
    ghost stands: { Self → Type 0 };

    ghost allowed: { Self → List ℕ → Bool };

    ghost value_rules: { Self → SyntaxAttr → Checked (Unit {0}) };

    /// Whether an attribute of this name may stand.
    fn allows(&self, name: &[u8]) -> bool
        ensures { result ≡ allowed self.now name.now };

    /// The rules that the value of an attribute breaks.
    fn value(&self, alloc: Global, attr: &Attr) -> Result<(), Refusal>
        requires { stands self.now }
        ensures { Tells (λ done. done) result (value_rules self.now attr.now) };
}

/// Whether an attribute may stand behind the first so many.
fn stands<A: Attributes>(kind: &A, attrs: &[Attr], end: usize, name: &[u8]) -> bool
    requires { end ≤ length attrs.now }
    ensures { result ≡ stands_behind (A.allowed kind.now) (before end attrs.now) name.now }
{
    kind.allows(name)
        && !is_before(attrs, end, name)
        && !(is_expiry(name) && expiry_before(attrs, end))
}

/// Whether an attribute has a value exactly where it should.
fn is_fitting(name: &[u8], value: &Option<Expr>) -> bool
    ensures { result ≡ fitting (spec.with_value name.now) (is_some value.now) }
{
    let given = match value {
        Some(_) => true,
        None => false,
    };
    if with_value(name) { given } else { !given }
}

/// The rules that an attribute breaks behind the first so many.
fn one_attr<A: Attributes>(
    alloc: Global,
    file: usize,
    kind: &A,
    attrs: &[Attr],
    end: usize,
    attr: &Attr,
) -> Result<(), Refusal>
    requires end { end ≤ length attrs.now }
    requires stands { A.stands kind.now }
    ensures { (home : Home) → home.file ≡ file → Tells (λ done. done) result (one_rule home (A.allowed kind.now) (A.value_rules kind.now) (before end attrs.now) attr.now) }
{
    let name = attr.name.as_slice();
    if stands(kind, attrs, end, name) && is_fitting(name, &attr.value) {
        return kind.value(alloc, attr);
    }
    let place = Place {
        file,
        byte: attr.place,
    };
    Err(Refusal::Broken(one_broken(alloc, Rule::Attribute, place)?))
}

/// The rules that the attributes of a declaration break, which stands in the file of this number.
#[tactic(auto, using(crate::proofs::AttrLaws::rules_step))]
pub fn attr_rules<A: Attributes>(
    alloc: Global,
    file: usize,
    kind: &A,
    attrs: &[Attr],
) -> Result<(), Refusal>
    requires { A.stands kind.now }
    ensures { (home : Home) → home.file ≡ file → Tells (λ done. done) result (spec.attr_rules home (A.allowed kind.now) spec.with_value (A.value_rules kind.now) [] attrs.now) }
{
    let mut rules = Ok(());
    for (end, attr) in attrs.iter().enumerate() {
        let one = one_attr(alloc, file, kind, attrs, end, attr);
        rules = also(rules, one);
    }
    rules
}
