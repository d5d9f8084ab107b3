ghost use Rattle.std.specs.Prelude.{◌≡◌, map};
ghost use Rattle.std.specs.Option.{option_map};
ghost use Rattle.zk_typed.specs.Errors as spec;
ghost use Rattle.zk_typed.specs.Tells.{Tells};
ghost use Rattle.zk_typed.specs.View.{type_of};
ghost use Rattle.zk_scope.specs.Lent.{home_of, meant_of, signature_of};
ghost use Rattle.zk_scope.specs.Scripted.{scripts_in};
ghost use Rattle.zk_check_declarations.specs.Grounds.{IsGround};
ghost use Rattle.zk_check_declarations.specs.Signing.{alike, of_kind, signed};

use crate::ground::Ground;
use crate::told::require;
use zk_base::Sequence;
use zk_check_operators::{also, both, same_type, same_types};
use zk_scope::{Home, Meant, Signature, place_in};
use zk_tree::{Name, Place};
use zk_typed::script::ValueType;
use zk_typed::{Refusal, Rule, one_broken};

/// Whether results are the same: of the same type, or none.
fn same_result(a: &Option<ValueType>, b: &Option<ValueType>) -> bool
    ensures { result ≡ spec.same_result (option_map type_of a.now) (option_map type_of b.now) }
{
    match a {
        None => match b {
            None => true,
            Some(_) => false,
        },
        Some(one) => match b {
            None => false,
            Some(other) => same_type(one, other),
        },
    }
}

/// The signature of a name of functions.
pub fn function_signature<'a, 'b>(meant: &'b Meant<'a>) -> Option<&'b Signature<'a>>
    ensures { option_map (λ one. signature_of one.now) result ≡ spec.function_kind (meant_of meant.entry.now) }
{
    match meant {
        Meant::Function { signature } => Some(signature),
        Meant::KnownType { .. }
        | Meant::WrittenType { .. }
        | Meant::Word { .. }
        | Meant::Variable { .. }
        | Meant::Event { .. }
        | Meant::Hook { .. }
        | Meant::BuiltInFunction { .. }
        | Meant::Log { .. } => None,
    }
}

impl Ground<'_> {
    /// The rules of a signature.
    pub fn signature_rules(&self, signature: &Signature<'_>) -> Result<(), Refusal>
        requires { IsGround self.now }
        ensures { Tells (λ done. done) result (spec.signature_rules (scripts_in self.now.names.now) (signature_of signature.now)) }
    {
        match signature {
            Signature::Known { params: _ } => Ok(()),
            Signature::Written {
                home,
                params,
                result,
            } => {
                let params = self.param_rules(*home, params);
                let result = self.maybe_rules(*home, *result);
                also(params, result)
            }
        }
    }

    /// The types of the parameters and of the result.
    pub fn signed(
        &self,
        signature: &Signature<'_>,
    ) -> Result<(Sequence<ValueType>, Option<ValueType>), Refusal>
        ensures { Tells (λ one. (map type_of one.0, option_map type_of one.1)) result (signed (scripts_in self.now.names.now) (signature_of signature.now)) }
    {
        let params = self.names.params_of(self.alloc, signature);
        let result = self.names.result_of(self.alloc, signature);
        both(params, result)
    }

    /// The rule that two signatures have the same parameters and the same result.
    pub fn alike(
        &self,
        place: Place,
        given: &Signature<'_>,
        declared: &Signature<'_>,
    ) -> Result<(), Refusal>
        ensures { Tells (λ done. done) result (alike (scripts_in self.now.names.now) place (signature_of given.now) (signature_of declared.now)) }
    {
        let given = self.signed(given);
        let declared = self.signed(declared);
        match both(given, declared) {
            Ok(parts) => {
                let (one, other) = parts;
                let same = same_types(one.0.as_slice(), other.0.as_slice())
                    && same_result(&one.1, &other.1);
                require(self.alloc, same, Rule::Arguments, place)
            }
            Err(refusal) => Err(refusal),
        }
    }

    /// The rules of the head of a body whose name is visible, by the signature that it has as one of its
    /// kind.
    pub fn of_kind(
        &self,
        home: Home<'_>,
        place: Place,
        name: &Name,
        given: &Signature<'_>,
        declared: Option<&Signature<'_>>,
    ) -> Result<(), Refusal>
        ensures { Tells (λ done. done) result (of_kind (scripts_in self.now.names.now) (home_of home.entry) place name.now (signature_of given.now) (option_map (λ one. signature_of one.now) declared.entry)) }
    {
        match declared {
            Some(declared) => self.alike(place, given, declared),
            None => {
                let place = place_in(home, name.place);
                Err(Refusal::Broken(one_broken(self.alloc, Rule::WrongType, place)?))
            }
        }
    }
}
