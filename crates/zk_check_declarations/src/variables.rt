ghost use Rattle.std.specs.Prelude.{◌≡◌, filter, not, IfOk};
ghost use Rattle.zk_typed.specs.Checked.{Checked};
ghost use Rattle.zk_typed.specs.Declarations.{is_mark};
ghost use Rattle.zk_typed.specs.Errors as spec;
ghost use Rattle.zk_typed.specs.Resolving as resolving;
ghost use Rattle.zk_typed.specs.Tells.{Tells};
ghost use Rattle.zk_typed.specs.Types as typed;
ghost use Rattle.zk_typed.specs.Typing as typing;
ghost use Rattle.zk_typed.specs.View.{type_of};
ghost use Rattle.zk_scope.specs.Lent.{declared_of, home_of, signature_of};
ghost use Rattle.zk_scope.specs.Scripted.{scripts_in};
ghost use Rattle.zk_check_operators.specs.Views.{typed_of, wanted_in};
ghost use Rattle.zk_check_declarations.specs.Valued.{IsValued, global_rules, inferred, place_of_init, variable_rules, written, written_with};

use crate::bodiless::bodiless_init;
use crate::ground::Ground;
use crate::rounds::{is_circular, is_mark};
use crate::told::dropped;
use sqlite_items::Items;
use std::alloc::Global;
use zk_base::Mem;
use zk_check_expressions::{Globals, refused};
use zk_check_operators::{Typed, Wanted, also, signature_attrs};
use zk_scope::{Declared, Home, Meant, Scripts, Signature, place_in};
use zk_tree::{Attr, Init, Lasting, Place, Type};
use zk_typed::script::ValueType;
use zk_typed::{Broken, Refusal, Rule, one_broken};

/// What the rules of initial values stand on.
#[derive(Clone, Copy)]
pub struct Valued<'a> {
    pub ground: Ground<'a>,
    /// The scripts, whose names the ground has.
    pub scripts: &'a Scripts<'a>,
    /// The types of the globals, as far as they are told.
    pub told: Globals<'a>,
    /// Their types as other declarations know them.
    pub known: Globals<'a>,
}

/// A declaration of a value, or of an event, a hook or a function, at its place.
#[derive(Clone, Copy)]
pub struct Declaration<'a> {
    pub home: Home<'a>,
    pub place: Place,
    pub tree: &'a Option<Type>,
    pub init: &'a Option<Init>,
    pub attrs: &'a [Attr],
}

/// The rules that are broken beside what can't be told for a circle.
fn unmarked(alloc: Global, rules: &[Broken]) -> Result<Items<Broken>, Mem>
    ensures { IfOk result (λ others. others ≡ filter (λ one. not (is_mark one)) rules.now) }
{
    let mut others = Items::new(alloc);
    for one in rules {
        if !is_mark(one) {
            others.push(*one)?;
        }
    }
    Ok(others)
}

/// An initial value that rests on names whose types rest on it has no type that can be told. What else is
/// broken in it hides that.
fn told(alloc: Global, place: Place, one: Result<Typed, Refusal>) -> Result<Typed, Refusal>
    ensures { (checked : Checked typing.Typed) → Tells typed_of one checked → Tells typed_of result (spec.told place checked) }
{
    match one {
        Ok(one) => Ok(one),
        Err(Refusal::Broken(rules)) => {
            if !is_circular(rules.as_slice()) {
                return Err(Refusal::Broken(rules));
            }
            let others = unmarked(alloc, rules.as_slice())?;
            if others.is_empty() {
                Err(Refusal::Broken(one_broken(alloc, Rule::WrongType, place)?))
            } else {
                Err(Refusal::Broken(others))
            }
        }
        Err(Refusal::NoMemory) => Err(Refusal::NoMemory),
    }
}

/// The place of an initial value.
pub fn init_place(home: Home<'_>, init: &Init) -> Place
    ensures { result ≡ place_of_init (home_of home.entry) init.now }
{
    match init {
        Init::Value { value } => place_in(home, value.place()),
        Init::Braces { place, .. } => place_in(home, *place),
    }
}

impl Valued<'_> {
    /// The initial value that tells a name's type.
    fn telling_value(&self, home: Home<'_>, init: &Init) -> Result<Typed, Refusal>
        requires { IsValued self.now }
        ensures { Tells typed_of result (spec.telling_value (scripts_in self.now.ground.names.now) (home_of home.entry) init.now) }
    {
        let one = bodiless_init(
            self.ground.alloc,
            self.scripts,
            self.told,
            home,
            Wanted::Nothing,
            init,
        );
        told(self.ground.alloc, init_place(home, init), one)
    }

    /// A value that is given to a name whose type is told elsewhere, where a type is wanted.
    pub fn init_checked(
        &self,
        home: Home<'_>,
        wanted: Wanted<'_>,
        init: &Init,
    ) -> Result<Typed, Refusal>
        requires { IsValued self.now }
        ensures { Tells typed_of result (spec.init_checked (scripts_in self.now.ground.names.now) (home_of home.entry) (wanted_in wanted.entry) init.now) }
    {
        bodiless_init(
            self.ground.alloc,
            self.scripts,
            self.known,
            home,
            wanted,
            init,
        )
    }

    /// An initial value where the type of a declaration is wanted.
    fn init_of_type(
        &self,
        home: Home<'_>,
        wanted: &Result<ValueType, Refusal>,
        init: &Init,
    ) -> Result<Typed, Refusal>
        requires { IsValued self.now }
        ensures { (checked : Checked typed.ValueType) → Tells type_of wanted.now checked → Tells typed_of result (spec.init_checked (scripts_in self.now.ground.names.now) (home_of home.entry) (typing.wanted_of checked) init.now) }
    {
        match wanted {
            Ok(wanted) => self.init_checked(home, Wanted::Type(wanted), init),
            Err(Refusal::Broken(_)) => self.init_checked(home, Wanted::Unclear, init),
            Err(Refusal::NoMemory) => Err(Refusal::NoMemory),
        }
    }

    /// The type of an initial value.
    #[tactic(auto, using(crate::proofs::ValueLaws::typed_passed))]
    fn inferred(&self, home: Home<'_>, init: &Init) -> Result<ValueType, Refusal>
        requires { IsValued self.now }
        ensures { Tells type_of result (inferred (scripts_in self.now.ground.names.now) (home_of home.entry) init.now) }
    {
        match self.telling_value(home, init) {
            Ok(one) => Ok(one.value_type),
            Err(refusal) => Err(refusal),
        }
    }

    /// The type that a declaration writes, once its rules are kept.
    fn written(&self, home: Home<'_>, tree: &Type) -> Result<ValueType, Refusal>
        requires { IsValued self.now }
        ensures { Tells type_of result (written (scripts_in self.now.ground.names.now) (home_of home.entry) tree.now) }
    {
        match self.ground.type_rules(home, tree) {
            Ok(()) => self.ground.names.type_of(self.ground.alloc, home, tree),
            Err(refusal) => Err(refusal),
        }
    }

    /// The type that a declaration writes, once its rules are kept and its initial value has it.
    fn written_with(&self, home: Home<'_>, tree: &Type, init: &Init) -> Result<ValueType, Refusal>
        requires { IsValued self.now }
        ensures { Tells type_of result (written_with (scripts_in self.now.ground.names.now) (home_of home.entry) tree.now init.now) }
    {
        let rules = self.ground.type_rules(home, tree);
        let wanted = self.ground.names.type_of(self.ground.alloc, home, tree);
        let given = self.init_of_type(home, &wanted, init);
        match also(rules, dropped(given)) {
            Ok(()) => wanted,
            Err(refusal) => Err(refusal),
        }
    }

    /// The type of a declaration of a value, once its rules are kept.
    fn value_rules(
        &self,
        home: Home<'_>,
        place: Place,
        tree: &Option<Type>,
        init: &Option<Init>,
    ) -> Result<ValueType, Refusal>
        requires { IsValued self.now }
        ensures { Tells type_of result (spec.value_rules (scripts_in self.now.ground.names.now) (home_of home.entry) place tree.now init.now) }
    {
        match tree {
            Some(tree) => match init {
                Some(init) => self.written_with(home, tree, init),
                None => self.written(home, tree),
            },
            None => match init {
                Some(init) => self.inferred(home, init),
                None => Err(Refusal::Broken(one_broken(
                    self.ground.alloc,
                    Rule::WrongType,
                    place,
                )?)),
            },
        }
    }
}

impl Valued<'_> {
    /// The rule of a value that a name of events, hooks or functions is given.
    #[tactic(auto, using(zk_check_expressions::proofs::Refusals::refused))]
    fn no_value(&self, home: Home<'_>, init: &Option<Init>) -> Result<(), Refusal>
        requires { IsValued self.now }
        ensures { Tells (λ done. done) result (spec.no_value (scripts_in self.now.ground.names.now) (home_of home.entry) init.now) }
    {
        match init {
            Some(init) => {
                let judged = self.init_checked(home, Wanted::Nothing, init);
                let place = init_place(home, init);
                Err(refused(self.ground.alloc, judged, Rule::WrongType, place))
            }
            None => Ok(()),
        }
    }

    /// The rules of a declaration of an event, a hook or a function.
    fn bodiless_rules(
        &self,
        home: Home<'_>,
        signature: &Signature<'_>,
        init: &Option<Init>,
        attrs: &[Attr],
    ) -> Result<(), Refusal>
        requires { IsValued self.now }
        ensures { Tells (λ done. done) result (spec.bodiless_rules (scripts_in self.now.ground.names.now) (home_of home.entry) (signature_of signature.now) init.now attrs.now) }
    {
        let signed = self.ground.signature_rules(signature);
        let valued = self.no_value(home, init);
        let marked = signature_attrs(self.ground.alloc, home.file, attrs);
        also(also(signed, valued), marked)
    }

    /// The rules of a declaration of a value.
    #[tactic(auto, using(crate::proofs::RuleLaws::type_passed))]
    fn global_rules(
        &self,
        one: &Declaration<'_>,
        lasting: Lasting,
        whole: &[u8],
    ) -> Result<(), Refusal>
        requires { IsValued self.now }
        ensures { Tells (λ done. done) result (global_rules (scripts_in self.now.ground.names.now) (home_of one.now.home) one.now.place one.now.tree.now one.now.init.now one.now.attrs.now lasting whole.now) }
    {
        match self.value_rules(one.home, one.place, one.tree, one.init) {
            Ok(made) => self
                .ground
                .global_attrs(one.home, lasting, whole, &made, one.attrs),
            Err(refusal) => Err(refusal),
        }
    }

    /// The rules of a declaration of a value, or of an event, a hook or a function, by what its whole name is
    /// declared as.
    pub fn variable_rules(
        &self,
        one: &Declaration<'_>,
        declared: &Declared<'_>,
    ) -> Result<(), Refusal>
        requires { IsValued self.now }
        ensures { Tells (λ done. done) result (variable_rules (scripts_in self.now.ground.names.now) (home_of one.now.home) one.now.place one.now.tree.now one.now.init.now one.now.attrs.now (declared_of declared.now)) }
    {
        match &declared.meant {
            Meant::Variable { lasting, .. } => self.global_rules(one, *lasting, &declared.name),
            Meant::Event { signature } => {
                self.bodiless_rules(one.home, signature, one.init, one.attrs)
            }
            Meant::Hook { signature } => {
                self.bodiless_rules(one.home, signature, one.init, one.attrs)
            }
            Meant::Function { signature } => {
                self.bodiless_rules(one.home, signature, one.init, one.attrs)
            }
            Meant::KnownType { .. }
            | Meant::WrittenType { .. }
            | Meant::Word { .. }
            | Meant::BuiltInFunction { .. }
            | Meant::Log { .. } => Ok(()),
        }
    }
}
