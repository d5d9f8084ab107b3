ghost use Rattle.std.specs.Prelude.{◌≡◌, [], map, None, IfOk};
ghost use Rattle.std.specs.Option.{option_map};
ghost use Rattle.zk_scope.specs.Lent.{declared_of, signature_of};
ghost use Rattle.zk_typed.specs.Programs as spec;
ghost use Rattle.zk_typed.specs.Programs.{checked_or};
ghost use Rattle.zk_typed.specs.Resolving as resolving;
ghost use Rattle.zk_typed.specs.View.{type_of};
ghost use Rattle.zk_check_declarations.specs.Sources.{scripts_from};
ghost use Rattle.zk_check.specs.Programming.{signature_or};

use zk_base::{Mem, Sequence};
use zk_check_declarations::Source;
use zk_scope::{Declared, Meant, Signature};
use zk_typed::Refusal;
use zk_typed::script::ValueType;

/// The parameters of a signature. There are none where one is broken.
pub fn params_of(source: &Source<'_>, signature: &Signature<'_>) -> Result<Sequence<ValueType>, Mem>
    ensures { IfOk result (λ params. map type_of params ≡ checked_or [] (resolving.params_of (scripts_from source.now) (signature_of signature.now))) }
{
    match source.scripts.names.params_of(source.alloc, signature) {
        Ok(params) => Ok(params),
        Err(Refusal::Broken(_)) => Ok(Sequence::from(Vec::new(source.alloc))),
        Err(Refusal::NoMemory) => Err(Mem),
    }
}

/// The result of a signature, where it has one that isn't broken.
pub fn result_of(source: &Source<'_>, signature: &Signature<'_>) -> Result<Option<ValueType>, Mem>
    ensures { IfOk result (λ one. option_map type_of one ≡ checked_or None (resolving.result_of (scripts_from source.now) (signature_of signature.now))) }
{
    match source.scripts.names.result_of(source.alloc, signature) {
        Ok(one) => Ok(one),
        Err(Refusal::Broken(_)) => Ok(None),
        Err(Refusal::NoMemory) => Err(Mem),
    }
}

/// The signature of an event, a hook or a function.
fn signature_in<'d, 'a>(one: &'d Declared<'a>) -> Option<&'d Signature<'a>>
    ensures { signature_or result ≡ spec.signature_of (declared_of one.entry.now) }
{
    match &one.meant {
        Meant::Event { signature } => Some(signature),
        Meant::Hook { signature } => Some(signature),
        Meant::Function { signature } => Some(signature),
        Meant::KnownType { .. }
        | Meant::WrittenType { .. }
        | Meant::Word { .. }
        | Meant::Variable { .. }
        | Meant::BuiltInFunction { .. }
        | Meant::Log { .. } => None,
    }
}

/// The parameters of an event or a hook.
pub fn declared_params(source: &Source<'_>, one: &Declared<'_>) -> Result<Sequence<ValueType>, Mem>
    ensures { IfOk result (λ params. map type_of params ≡ checked_or [] (resolving.params_of (scripts_from source.now) (spec.signature_of (declared_of one.now)))) }
{
    match signature_in(one) {
        Some(signature) => params_of(source, signature),
        None => Ok(Sequence::from(Vec::new(source.alloc))),
    }
}
