ghost use Rattle.std.specs.Prelude.{◌≡◌, None};
ghost use Rattle.std.specs.Option.{option_copied, option_map};
ghost use Rattle.zk_typed.specs.Errors as spec;
ghost use Rattle.zk_typed.specs.Checked as checked;
ghost use Rattle.zk_typed.specs.declared.rule.Rule.TheVariants as rule;
ghost use Rattle.zk_typed.specs.Names.{look_up};
ghost use Rattle.zk_typed.specs.Resolving.{place_in};
ghost use Rattle.zk_typed.specs.Tells.{Tells};
ghost use Rattle.zk_scope.specs.Lent.{declared_of, home_of};
ghost use Rattle.zk_scope.specs.Scripted.{scripts_in};

use crate::ground::Ground;
use crate::signatures::function_signature;
use zk_scope::{Declared, Home, body_signature, place_in, written};
use zk_tree::{BodyKind, Name, Param, Place, Type};
use zk_typed::{Refusal, Rule, one_broken};

impl Ground<'_> {
    /// The rule of a name in the head of a body that means nothing visible.
    fn unknown_head(&self, home: Home<'_>, name: &Name) -> Result<(), Refusal>
        ensures { Tells (λ done. done) result (checked.broken rule.Unknown (place_in (home_of home.entry) name.now.place)) }
    {
        let place = place_in(home, name.place);
        Err(Refusal::Broken(one_broken(self.alloc, Rule::Unknown, place)?))
    }

    /// The rules of the head of a handler or a hook body.
    pub fn body_head<'b>(
        &self,
        home: Home<'b>,
        place: Place,
        kind: BodyKind,
        name: &Name,
        params: &'b [Param],
    ) -> Result<(), Refusal>
        ensures { Tells (λ done. done) result (spec.head_rules (scripts_in self.now.names.now) (home_of home.entry) place name.now (spec.kind_of kind) params.entry.now None (look_up (scripts_in self.now.names.now).names home.entry.module_name.now name.now.text)) }
    {
        let given = written(home, params, None);
        let text = name.text.as_slice();
        match self.names.look_up(self.alloc, home.module_name, text)? {
            Some(one) => {
                let declared = body_signature(kind, &one.meant);
                self.of_kind(home, place, name, &given, declared)
            }
            None => self.unknown_head(home, name),
        }
    }

    /// The rules of the head of a function body, by what is declared of its whole name.
    pub fn function_head<'b>(
        &self,
        home: Home<'b>,
        place: Place,
        name: &Name,
        params: &'b [Param],
        result_type: Option<&'b Type>,
        found: Option<&Declared<'_>>,
    ) -> Result<(), Refusal>
        ensures { Tells (λ done. done) result (spec.head_rules (scripts_in self.now.names.now) (home_of home.entry) place name.now spec.function_kind params.entry.now (option_copied result_type.entry) (option_map (λ one. declared_of one.now) found.entry)) }
    {
        let given = written(home, params, result_type);
        match found {
            Some(one) => {
                let declared = function_signature(&one.meant);
                self.of_kind(home, place, name, &given, declared)
            }
            None => self.unknown_head(home, name),
        }
    }
}
