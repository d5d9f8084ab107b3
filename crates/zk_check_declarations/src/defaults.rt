ghost use Rattle.std.specs.Prelude.{◌≡◌, ◌∷◌, [], codes};
ghost use Rattle.zk_typed.specs.Declarations as spec;
ghost use Rattle.zk_typed.specs.Errors as errors;
ghost use Rattle.zk_typed.specs.Predefined.{int};
ghost use Rattle.zk_typed.specs.Tells.{Tells};
ghost use Rattle.zk_typed.specs.View.{type_of};
ghost use Rattle.zk_scope.specs.Lent.{home_of};
ghost use Rattle.zk_scope.specs.Scripted.{scripts_in};
ghost use Rattle.zk_check_declarations.specs.Grounds.{IsGround};

use crate::bodiless::bodiless_expr;
use crate::globals::is_name;
use crate::ground::Ground;
use crate::told::dropped;
use std::alloc::Global;
use zk_check_operators::{Attributes, Wanted, attr_rules, constant_typed, field_attribute};
use zk_scope::{Home, place_in};
use zk_tree::{Attr, Expr};
use zk_typed::script::{DefaultValue, Literal, Sign, SimpleType, ValueType};
use zk_typed::{Refusal, Rule, one_broken};

/// The type of ints.
const INT: ValueType = ValueType::Simple(SimpleType::Int);

/// The greatest int and one, which is the least int without its sign.
const PAST_INTS: u64 = 1 << 63;

/// Whether a number that a minus sign may stand before is one of an int.
fn is_int_number(one: &DefaultValue) -> bool
    ensures { result ≡ errors.is_int_number one.now }
{
    match one {
        DefaultValue::Literal {
            literal: Literal::Count(number),
            sign,
        } => match sign {
            Sign::Negated => *number <= PAST_INTS,
            Sign::Plain | Sign::Converted => *number < PAST_INTS,
        },
        _ => true,
    }
}

impl Ground<'_> {
    /// The value of `&default`, of `&priority` or of an expiry, where a type is wanted.
    #[tactic(auto, using(crate::proofs::ValueLaws::typed_passed))]
    pub fn default_typed(
        &self,
        home: Home<'_>,
        wanted: &ValueType,
        value: &Expr,
    ) -> Result<DefaultValue, Refusal>
        requires { IsGround self.now }
        ensures { Tells (λ made. made) result (spec.default_typed (spec.env_at (scripts_in self.now.names.now) (home_of home.entry)) (type_of wanted.now) value.now) }
    {
        let source = self.source;
        let one = bodiless_expr(
            self.alloc,
            source.scripts,
            source.globals,
            home,
            Wanted::Type(wanted),
            value,
        );
        match one {
            Ok(_) => constant_typed(self.alloc, home.file, wanted, value),
            Err(refusal) => Err(refusal),
        }
    }

    /// The rules of the value of a field's attribute.
    fn field_default(
        &self,
        home: Home<'_>,
        field_type: &ValueType,
        value: &Option<Expr>,
    ) -> Result<(), Refusal>
        requires { IsGround self.now }
        ensures { Tells (λ done. done) result (spec.field_default (spec.env_at (scripts_in self.now.names.now) (home_of home.entry)) (type_of field_type.now) value.now) }
    {
        match value {
            Some(one) => dropped(self.default_typed(home, field_type, one)),
            None => Ok(()),
        }
    }

    /// The value of an attribute where an int is wanted.
    fn int_typed(&self, home: Home<'_>, value: &Expr) -> Result<DefaultValue, Refusal>
        requires { IsGround self.now }
        ensures { Tells (λ made. made) result (spec.default_typed (spec.env_at (scripts_in self.now.names.now) (home_of home.entry)) int value.now) }
    {
        self.default_typed(home, &INT, value)
    }

    /// The value of `&priority`: a number with at most one minus sign, in the range of ints.
    #[tactic(auto, using(zk_check_operators::proofs::BothLaws::passed))]
    fn priority_typed(&self, home: Home<'_>, value: &Expr) -> Result<DefaultValue, Refusal>
        requires { IsGround self.now }
        ensures { Tells (λ made. made) result (errors.priority_typed (spec.env_at (scripts_in self.now.names.now) (home_of home.entry)) value.now) }
    {
        match self.int_typed(home, value) {
            Ok(given) => {
                if is_int_number(&given) {
                    Ok(given)
                } else {
                    let place = place_in(home, value.place());
                    Err(Refusal::Broken(one_broken(self.alloc, Rule::WrongType, place)?))
                }
            }
            Err(refusal) => Err(refusal),
        }
    }

    /// The rules of the value of `&priority`.
    fn priority_rules(&self, home: Home<'_>, value: &Option<Expr>) -> Result<(), Refusal>
        requires { IsGround self.now }
        ensures { Tells (λ done. done) result (errors.priority_rules (scripts_in self.now.names.now) (home_of home.entry) value.now) }
    {
        match value {
            Some(one) => dropped(self.priority_typed(home, one)),
            None => Ok(()),
        }
    }
}

/// The attributes of a field of a type.
#[derive(Drop)]
struct FieldAttributes<'a> {
    ground: Ground<'a>,
    home: Home<'a>,
    field_type: &'a ValueType,
}

/// The attributes of a handler or a hook body.
#[derive(Drop)]
struct BodyAttributes<'a> {
    ground: Ground<'a>,
    home: Home<'a>,
}

impl Attributes for FieldAttributes<'_> {
    ghost stands = { λ kind. IsGround kind.ground };

    ghost allowed = { λ kind. spec.field_attribute (type_of kind.field_type.now) };

    ghost value_rules = { λ kind attr. spec.field_default (spec.env_at (scripts_in kind.ground.names.now) (home_of kind.home)) (type_of kind.field_type.now) attr.value };

    fn allows(&self, name: &[u8]) -> bool {
        field_attribute(self.field_type, name)
    }

    fn value(&self, alloc: Global, attr: &Attr) -> Result<(), Refusal> {
        let _ = alloc;
        self.ground
            .field_default(self.home, self.field_type, &attr.value)
    }
}

impl Attributes for BodyAttributes<'_> {
    ghost stands = { λ kind. IsGround kind.ground };

    ghost allowed = { λ kind. spec.is_one_of (codes "priority" ∷ []) };

    ghost value_rules = { λ kind attr. errors.priority_rules (scripts_in kind.ground.names.now) (home_of kind.home) attr.value };

    fn allows(&self, name: &[u8]) -> bool {
        is_name(b"priority", name)
    }

    fn value(&self, alloc: Global, attr: &Attr) -> Result<(), Refusal> {
        let _ = alloc;
        self.ground.priority_rules(self.home, &attr.value)
    }
}

impl Ground<'_> {
    /// The rules that the attributes of a field of a type break.
    pub fn field_attrs(
        &self,
        home: Home<'_>,
        field_type: &ValueType,
        attrs: &[Attr],
    ) -> Result<(), Refusal>
        requires { IsGround self.now }
        ensures { Tells (λ done. done) result (spec.attr_rules (home_of home.entry) (spec.field_attribute (type_of field_type.now)) spec.with_value (λ attr. spec.field_default (spec.env_at (scripts_in self.now.names.now) (home_of home.entry)) (type_of field_type.now) attr.value) [] attrs.now) }
    {
        let kind = FieldAttributes {
            ground: *self,
            home,
            field_type,
        };
        attr_rules(self.alloc, home.file, &kind, attrs)
    }

    /// The rules that the attributes of a handler or a hook body break.
    pub fn body_attrs(&self, home: Home<'_>, attrs: &[Attr]) -> Result<(), Refusal>
        requires { IsGround self.now }
        ensures { Tells (λ done. done) result (spec.attr_rules (home_of home.entry) (spec.is_one_of (codes "priority" ∷ [])) spec.with_value (λ attr. errors.priority_rules (scripts_in self.now.names.now) (home_of home.entry) attr.value) [] attrs.now) }
    {
        let kind = BodyAttributes {
            ground: *self,
            home,
        };
        attr_rules(self.alloc, home.file, &kind, attrs)
    }
}
