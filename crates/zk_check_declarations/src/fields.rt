ghost use Rattle.std.specs.Prelude.{◌≡◌, List, ℕ};
ghost use Rattle.zk_tree.specs.declared.types.Field.{out-Field};
ghost use Rattle.zk_typed.specs.Declarations as spec;
ghost use Rattle.zk_typed.specs.Tells.{Tells};
ghost use Rattle.zk_scope.specs.Lent.{home_of};
ghost use Rattle.zk_scope.specs.Scripted.{scripts_in};
ghost use Rattle.zk_check_declarations.specs.Grounds.{IsGround};
ghost use Rattle.zk_check_declarations.specs.Nesting.{nested_fields, typed_field};

use crate::ground::Ground;
use crate::seen::Seen;
use crate::told::require;
use zk_check_operators::also;
use zk_scope::{Home, place_in};
use zk_tree::{Field, Type};
use zk_typed::{Refusal, Rule, one_broken};

/// The rules that the type and the attributes of a field break.
#[tactic(auto, using(crate::proofs::RuleLaws::type_passed))]
fn typed_field(ground: &Ground<'_>, home: Home<'_>, field: &Field) -> Result<(), Refusal>
    requires { IsGround ground.now }
    ensures { Tells (λ done. done) result (typed_field (scripts_in ground.now.names.now) (home_of home.entry) field.now) }
{
    match ground.names.type_of(ground.alloc, home, &field.field_type) {
        Ok(one) => ground.field_attrs(home, &one, field.attrs.as_slice()),
        Err(refusal) => Err(refusal),
    }
}

/// The rules that a field breaks; `twice` says whether a field before it has its name.
pub fn field_rules(
    ground: &Ground<'_>,
    home: Home<'_>,
    twice: bool,
    field: &Field,
) -> Result<(), Refusal>
    requires { IsGround ground.now }
    ensures { (before : List (List ℕ)) → twice ≡ spec.is_one_of before (out-Field field.now).name.text → Tells (λ done. done) result (spec.field_rules (scripts_in ground.now.names.now) (home_of home.entry) before field.now) }
{
    let place = place_in(home, field.name.place);
    let once = require(ground.alloc, !twice, Rule::Twice, place);
    let typed = typed_field(ground, home, field);
    also(once, typed)
}

/// The rules that the record types within a type break, as deep as this.
#[cycle(nesting)]
pub fn nested(ground: &Ground<'_>, depth: u64, home: Home<'_>, tree: &Type) -> Result<(), Refusal>
    requires { IsGround ground.now }
    ensures { Tells (λ done. done) result (spec.nested_to depth (scripts_in ground.now.names.now) (home_of home.entry) tree.now) }
{
    if depth == 0 {
        let place = place_in(home, tree.place());
        return Err(Refusal::Broken(one_broken(ground.alloc, Rule::Recursive, place)?));
    }
    match tree {
        Type::Table {
            place: _,
            keys: _,
            value,
        } => nested(ground, depth - 1, home, value.get()),
        Type::Vector { place: _, item } => nested(ground, depth - 1, home, item.get()),
        Type::Record { place: _, fields } => {
            nested_fields(ground, depth - 1, home, fields.as_slice())
        }
        Type::Atomic { .. }
        | Type::Named { .. }
        | Type::Set { .. }
        | Type::Enum { .. }
        | Type::Event { .. }
        | Type::Hook { .. }
        | Type::Procedure { .. }
        | Type::Function { .. } => Ok(()),
    }
}

/// The rules that the fields of a record type break, and the record types within theirs.
#[cycle(nesting)]
fn nested_fields(
    ground: &Ground<'_>,
    depth: u64,
    home: Home<'_>,
    fields: &[Field],
) -> Result<(), Refusal>
    requires { IsGround ground.now }
    ensures { Tells (λ done. done) result (nested_fields depth (scripts_in ground.now.names.now) (home_of home.entry) fields.now) }
{
    let mut seen = Seen::new(ground.alloc);
    let mut rules = Ok(());
    for field in fields {
        let twice = seen.add(ground.alloc, field.name.text.as_slice())?;
        let own = field_rules(ground, home, twice, field);
        let inner = nested(ground, depth, home, &field.field_type);
        rules = also(rules, also(own, inner));
    }
    rules
}
