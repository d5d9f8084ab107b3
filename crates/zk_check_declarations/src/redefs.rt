ghost use Rattle.std.specs.Prelude.{◌≡◌, Ok, IfOk};
ghost use Rattle.std.specs.Option.{option_map};
ghost use Rattle.zk_typed.specs.Errors as spec;
ghost use Rattle.zk_typed.specs.Tells.{Tells};
ghost use Rattle.zk_typed.specs.View.{type_of};
ghost use Rattle.zk_scope.specs.Lent.{declared_of, home_of};
ghost use Rattle.zk_scope.specs.Scripted.{scripts_in};
ghost use Rattle.zk_check_expressions.specs.Envs.{global_of, globals_at};
ghost use Rattle.zk_typed.specs.Names.{look_up};
ghost use Rattle.zk_typed.specs.Declarations.{nothing};
ghost use Rattle.zk_typed.specs.Typing.{Unclear};
ghost use Rattle.zk_check_declarations.specs.Valued.{IsValued, anew_value, redef_variable};

use crate::told::dropped;
use crate::variables::{Valued, init_place};
use sqlite_items::at;
use zk_base::Mem;
use zk_check_expressions::GlobalType;
use zk_check_operators::{Wanted, added_type};
use zk_scope::{Declared, Home, Kind, Meant, has_attr, place_in};
use zk_tree::{Assigning, Attr, Init, Name, Place, Redefining};
use zk_typed::script::ValueType;
use zk_typed::{Refusal, Rule, copied_type, one_broken};

impl Valued<'_> {
    /// The type that is wanted of a value that a global of a type is given anew, where one can be given.
    fn redef_wants(&self, operator: Redefining, one: &ValueType) -> Result<Option<ValueType>, Mem>
        ensures { IfOk result (λ wanted. option_map type_of wanted ≡ spec.redef_wants operator (type_of one.now)) }
    {
        match operator {
            Redefining::Set => Ok(Some(copied_type(self.ground.alloc, one)?)),
            Redefining::Add => Ok(added_type(self.ground.alloc, Assigning::Add, one)?),
        }
    }

    /// The rules of a value that is given anew, where a type is wanted.
    fn anew_wanted(
        &self,
        home: Home<'_>,
        init: &Init,
        wanted: Option<ValueType>,
    ) -> Result<(), Refusal>
        requires { IsValued self.now }
        ensures { Tells (λ done. done) result (spec.redef_value (scripts_in self.now.ground.names.now) (home_of home.entry) init.now (Ok (option_map type_of wanted))) }
    {
        match wanted {
            Some(wanted) => dropped(self.init_checked(home, Wanted::Type(&wanted), init)),
            None => Err(Refusal::Broken(one_broken(
                self.ground.alloc,
                Rule::WrongType,
                init_place(home, init),
            )?)),
        }
    }

    /// The rules of a value that is given anew where no type is known.
    fn anew_unclear(&self, home: Home<'_>, init: &Init) -> Result<(), Refusal>
        requires { IsValued self.now }
        ensures { Tells (λ done. done) result (nothing (spec.init_checked (scripts_in self.now.ground.names.now) (home_of home.entry) Unclear init.now)) }
    {
        dropped(self.init_checked(home, Wanted::Unclear, init))
    }

    /// The rules of a value that a global is given anew, by what is known of its type.
    fn anew_as(
        &self,
        home: Home<'_>,
        operator: Redefining,
        init: &Init,
        one: &GlobalType,
    ) -> Result<(), Refusal>
        requires { IsValued self.now }
        ensures { Tells (λ done. done) result (anew_value (scripts_in self.now.ground.names.now) (home_of home.entry) operator init.now (global_of one.now)) }
    {
        match one {
            GlobalType::Known(one) => {
                let wanted = self.redef_wants(operator, one)?;
                self.anew_wanted(home, init, wanted)
            }
            GlobalType::Unknown => self.anew_unclear(home, init),
            GlobalType::Circular => self.anew_unclear(home, init),
        }
    }

    /// The rules of a value that a global is given anew, by its number.
    fn anew(
        &self,
        home: Home<'_>,
        operator: Redefining,
        init: &Init,
        number: u32,
    ) -> Result<(), Refusal>
        requires { IsValued self.now }
        ensures { Tells (λ done. done) result (anew_value (scripts_in self.now.ground.names.now) (home_of home.entry) operator init.now (globals_at self.now.known number)) }
    {
        match at(self.known.types, number as usize) {
            Some(one) => self.anew_as(home, operator, init, one),
            None => self.anew_unclear(home, init),
        }
    }
}

impl Valued<'_> {
    /// The rules of `redef` of a global or a constant.
    fn redef_variable(
        &self,
        home: Home<'_>,
        place: Place,
        operator: Redefining,
        init: &Init,
        attrs: &[Attr],
        one: &Declared<'_>,
    ) -> Result<(), Refusal>
        requires { IsValued self.now }
        ensures { Tells (λ done. done) result (redef_variable (scripts_in self.now.ground.names.now) (home_of home.entry) place operator init.now attrs.now (declared_of one.now)) }
    {
        if !has_attr(attrs, b"redef") {
            return Err(Refusal::Broken(one_broken(self.ground.alloc, Rule::FixedGlobal, place)?));
        }
        let number = self.ground.names.number_among(Kind::Variable, one)?;
        self.anew(home, operator, init, number)
    }

    /// The rules of `redef NAME = INIT` and `redef NAME += INIT`.
    pub fn redef_rules(
        &self,
        home: Home<'_>,
        place: Place,
        name: &Name,
        operator: Redefining,
        init: &Init,
    ) -> Result<(), Refusal>
        requires { IsValued self.now }
        ensures { Tells (λ done. done) result (spec.redef_rules (scripts_in self.now.ground.names.now) (home_of home.entry) place name.now operator init.now (look_up (scripts_in self.now.ground.names.now).names home.entry.module_name.now name.now.text)) }
    {
        let alloc = self.ground.alloc;
        let at_name = place_in(home, name.place);
        let text = name.text.as_slice();
        let found = self.ground.names.look_up(alloc, home.module_name, text)?;
        let Some(one) = found else {
            return Err(Refusal::Broken(one_broken(alloc, Rule::Unknown, at_name)?));
        };
        match &one.meant {
            Meant::Variable { attrs, .. } => {
                self.redef_variable(home, place, operator, init, attrs, one)
            }
            Meant::KnownType { .. }
            | Meant::WrittenType { .. }
            | Meant::Word { .. }
            | Meant::Event { .. }
            | Meant::Hook { .. }
            | Meant::Function { .. }
            | Meant::BuiltInFunction { .. }
            | Meant::Log { .. } => {
                Err(Refusal::Broken(one_broken(alloc, Rule::WrongType, at_name)?))
            }
        }
    }
}
