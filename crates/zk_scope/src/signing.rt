ghost use Rattle.std.specs.Prelude.{◌≡◌, List, Option, map, IfOk};
ghost use Rattle.std.specs.Option.{option_copied, option_map};
ghost use Rattle.zk_typed.specs.Checked.{Checked};
ghost use Rattle.zk_typed.specs.Errors.{kind_of};
ghost use Rattle.zk_typed.specs.Names.{Written};
ghost use Rattle.zk_typed.specs.Resolving as spec;
ghost use Rattle.zk_typed.specs.Tells.{Tells};
ghost use Rattle.zk_typed.specs.Types as typed;
ghost use Rattle.zk_typed.specs.View.{type_of};
ghost use Rattle.zk_scope.specs.Keys.{param_types_of};
ghost use Rattle.zk_scope.specs.Lent.{home_of, meant_of, signature_of};
ghost use Rattle.zk_scope.specs.Scripted.{scripts_in};

use crate::declared::{Meant, Signature};
use crate::gathering::appended;
use crate::home::Home;
use crate::known::Names;
use crate::typing::{named_type, type_to};
use sqlite_items::Items;
use std::alloc::{AllocError, Global};
use zk_base::Sequence;
use zk_tree::{BodyKind, Name, Param, Type};
use zk_typed::script::ValueType;
use zk_typed::{Refusal, copied_type};

/// How deep types nest.
const DEPTH: u8 = 200;

/// A copy of types.
fn copied_types(alloc: Global, types: &[ValueType]) -> Result<Sequence<ValueType>, AllocError>
    ensures { IfOk result (λ copy. copy ≡ types.now) }
{
    let mut copy = Vec::new(alloc);
    for one in types {
        let one = copied_type(alloc, one)?;
        copy.push(one)?;
    }
    Ok(Sequence::from(copy))
}

/// Types that are told where they stand.
fn hushed_types(
    alloc: Global,
    types: Result<Sequence<ValueType>, Refusal>,
) -> Result<Sequence<ValueType>, Refusal>
    ensures { (checked : Checked (List typed.ValueType)) → Tells (map type_of) types checked → Tells (map type_of) result (spec.hushed checked) }
{
    match types {
        Ok(types) => Ok(types),
        Err(Refusal::Broken(_)) => Err(Refusal::Broken(Items::new(alloc))),
        Err(Refusal::NoMemory) => Err(Refusal::NoMemory),
    }
}

/// A type that is told where it stands.
fn hushed_type(
    alloc: Global,
    one: Result<Option<ValueType>, Refusal>,
) -> Result<Option<ValueType>, Refusal>
    ensures { (checked : Checked (Option typed.ValueType)) → Tells (option_map type_of) one checked → Tells (option_map type_of) result (spec.hushed checked) }
{
    match one {
        Ok(one) => Ok(one),
        Err(Refusal::Broken(_)) => Err(Refusal::Broken(Items::new(alloc))),
        Err(Refusal::NoMemory) => Err(Refusal::NoMemory),
    }
}

/// A signature that is written.
pub fn written<'a>(home: Home<'a>, params: &'a [Param], given: Option<&'a Type>) -> Signature<'a>
    ensures { signature_of result ≡ Written (home_of home.entry) params.entry.now (option_copied given.entry) }
{
    Signature::Written {
        home,
        params,
        result: given,
    }
}

/// The signature of a name of events or of hooks.
pub fn body_signature<'a, 'b>(kind: BodyKind, meant: &'b Meant<'a>) -> Option<&'b Signature<'a>>
    ensures { option_map (λ one. signature_of one.now) result ≡ kind_of kind (meant_of meant.entry.now) }
{
    match (kind, meant) {
        (BodyKind::Event, Meant::Event { signature })
        | (BodyKind::Hook, Meant::Hook { signature }) => Some(signature),
        _ => None,
    }
}

impl Names<'_> {
    /// The type that a type of a text is, with names followed.
    pub fn type_of(&self, alloc: Global, home: Home<'_>, tree: &Type) -> Result<ValueType, Refusal>
        ensures { Tells type_of result (spec.type_of (scripts_in self.now) (home_of home.entry) tree.now) }
    {
        type_to(alloc, DEPTH, self, home, tree)
    }

    /// The type that a type of a text is, where there is one.
    pub fn maybe_type(
        &self,
        alloc: Global,
        home: Home<'_>,
        tree: Option<&Type>,
    ) -> Result<Option<ValueType>, Refusal>
        ensures { Tells (option_map type_of) result (spec.maybe_type (scripts_in self.now) (home_of home.entry) (option_copied tree.entry)) }
    {
        match tree {
            Some(tree) => {
                let one = self.type_of(alloc, home, tree)?;
                Ok(Some(one))
            }
            None => Ok(None),
        }
    }

    /// The type that a name names.
    pub fn type_named(
        &self,
        alloc: Global,
        home: Home<'_>,
        name: &Name,
    ) -> Result<ValueType, Refusal>
        ensures { Tells type_of result (spec.type_named (scripts_in self.now) (home_of home.entry) name.now) }
    {
        named_type(alloc, DEPTH - 1, self, home, name)
    }

    /// The types of parameters.
    fn param_types(
        &self,
        alloc: Global,
        home: Home<'_>,
        params: &[Param],
    ) -> Result<Sequence<ValueType>, Refusal>
        ensures { Tells (map type_of) result (param_types_of (scripts_in self.now) (home_of home.entry) params.now) }
    {
        let mut all = Ok(Sequence::new(alloc));
        for param in params {
            let one = self.type_of(alloc, home, &param.param_type);
            all = appended(all, one);
        }
        all
    }

    /// The types of the parameters of an event, a hook or a function.
    pub fn params_of(
        &self,
        alloc: Global,
        signature: &Signature<'_>,
    ) -> Result<Sequence<ValueType>, Refusal>
        ensures { Tells (map type_of) result (spec.params_of (scripts_in self.now) (signature_of signature.now)) }
    {
        match signature {
            Signature::Known { params } => Ok(copied_types(alloc, params)?),
            Signature::Written {
                home,
                params,
                result: _,
            } => {
                let types = self.param_types(alloc, *home, params);
                hushed_types(alloc, types)
            }
        }
    }

    /// The type of the result of an event, a hook or a function, where it has one.
    pub fn result_of(
        &self,
        alloc: Global,
        signature: &Signature<'_>,
    ) -> Result<Option<ValueType>, Refusal>
        ensures { Tells (option_map type_of) result (spec.result_of (scripts_in self.now) (signature_of signature.now)) }
    {
        match signature {
            Signature::Known { params: _ } => Ok(None),
            Signature::Written {
                home,
                params: _,
                result,
            } => {
                let one = self.maybe_type(alloc, *home, *result);
                hushed_type(alloc, one)
            }
        }
    }
}
