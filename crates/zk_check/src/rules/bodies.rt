ghost use Rattle.std.specs.Prelude.{◌≡◌, List, IfOk};
ghost use Rattle.std.specs.List.{list_any};
ghost use Rattle.std.specs.Option.{option_map};
ghost use Rattle.zk_typed.specs.Checked.{Checked};
ghost use Rattle.zk_typed.specs.Declarations.{nothing};
ghost use Rattle.zk_typed.specs.Errors as spec;
ghost use Rattle.zk_typed.specs.LoadOrder.{Stated};
ghost use Rattle.zk_typed.specs.Names.{find_whole, look_up, whole_name};
ghost use Rattle.zk_typed.specs.Statements as statement;
ghost use Rattle.zk_typed.specs.Tells.{Tells};
ghost use Rattle.zk_scope.specs.Lent.{declared_of, home_of};
ghost use Rattle.zk_scope.specs.Scripted.{scripts_in};
ghost use Rattle.zk_check_statements.specs.Bodies.{within_of};
ghost use Rattle.zk_check.specs.Bodied.{IsBodied};

use crate::judged::{body_made, function_body_made};
use zk_check_declarations::{Source, StreamPath, Valued, dropped, require};
use zk_check_operators::also;
use zk_check_statements::Within;
use zk_scope::{Declared, Home, Meant};
use zk_tree::{Attr, Block, BodyKind, Name, Param, Place, Type};
use zk_typed::script::Log;
use zk_typed::{Refusal, Rule};

/// What the rules of bodies and of the paths of logs stand on.
#[derive(Clone, Copy)]
pub struct Bodied<'a> {
    pub valued: Valued<'a>,
    pub source: &'a Source<'a>,
    /// The logs, by their numbers.
    pub logs: &'a [Log],
    /// The streams that all declarations create.
    pub streams: &'a [StreamPath],
}

/// The head of a body and what stands in it.
#[derive(Clone, Copy)]
pub struct Body<'a> {
    pub home: Home<'a>,
    pub place: Place,
    pub name: &'a Name,
    pub params: &'a [Param],
    pub block: &'a Block,
}

/// Whether a name is that of a built-in function, which has its body.
fn is_built_in(found: Option<&Declared<'_>>) -> bool
    ensures { result ≡ spec.is_built_in (option_map (λ one. declared_of one.now) found.entry) }
{
    match found {
        Some(one) => match &one.meant {
            Meant::BuiltInFunction { .. } => true,
            Meant::Log { .. } => true,
            Meant::KnownType { .. }
            | Meant::WrittenType { .. }
            | Meant::Word { .. }
            | Meant::Variable { .. }
            | Meant::Event { .. }
            | Meant::Hook { .. }
            | Meant::Function { .. } => false,
        },
        None => false,
    }
}

/// Where the statements of a body stand.
fn within(kind: BodyKind) -> Within<'static>
    ensures { within_of result ≡ spec.within_of kind }
{
    match kind {
        BodyKind::Event => Within::Handler,
        BodyKind::Hook => Within::Hook,
    }
}

impl<'a> Bodied<'a> {
    /// The rules of the statements of a handler or a hook body.
    fn body_rules(&self, kind: BodyKind, body: &Body<'a>) -> Result<(), Refusal>
        requires { IsBodied self.now }
        ensures { Tells (λ done. done) result (nothing (spec.body_made (scripts_in self.now.valued.ground.names.now) (home_of body.now.home) (spec.within_of kind) body.now.params.now body.now.block.now).made) }
    {
        let judged = body_made(
            self.source,
            body.home,
            within(kind),
            body.params,
            body.block,
        );
        dropped(judged.made)
    }

    /// The rules of a body of a handler or a hook.
    pub fn event_rules(
        &self,
        kind: BodyKind,
        body: &Body<'a>,
        attrs: &[Attr],
    ) -> Result<(), Refusal>
        requires { IsBodied self.now }
        ensures { Tells (λ done. done) result (spec.event_rules (scripts_in self.now.valued.ground.names.now) (home_of body.now.home) body.now.place kind body.now.name.now body.now.params.now attrs.now body.now.block.now) }
    {
        let ground = &self.valued.ground;
        let params = ground.param_rules(body.home, body.params);
        let head = ground.body_head(body.home, body.place, kind, body.name, body.params);
        let marked = ground.body_attrs(body.home, attrs);
        let locals = ground.local_rules(body.home, body.block);
        let stated = self.body_rules(kind, body);
        also(also(params, head), also(marked, also(locals, stated)))
    }

    /// The rules of the statements of a function body.
    fn function_body(&self, body: &Body<'a>, result_type: &'a Option<Type>) -> Result<(), Refusal>
        requires { IsBodied self.now }
        ensures { Tells (λ done. done) result (nothing (spec.body_made (scripts_in self.now.valued.ground.names.now) (home_of body.now.home) (statement.InFunction (spec.result_wanted (scripts_in self.now.valued.ground.names.now) (home_of body.now.home) result_type.now)) body.now.params.now body.now.block.now).made) }
    {
        let judged = function_body_made(
            self.source,
            body.home,
            body.params,
            result_type,
            body.block,
        );
        dropped(judged.made)
    }

    /// The rules of the head of a function body; `twice` says whether an earlier one has its whole name.
    fn function_head(
        &self,
        body: &Body<'a>,
        result_type: &'a Option<Type>,
        whole: &[u8],
        twice: bool,
    ) -> Result<(), Refusal>
        requires { IsBodied self.now }
        ensures { (earlier : List Stated) → twice ≡ list_any (spec.is_body_of whole.now) earlier → Tells (λ done. done) result (spec.function_head (scripts_in self.now.valued.ground.names.now) earlier (home_of body.now.home) body.now.place body.now.name.now body.now.params.now result_type.now whole.now) }
    {
        let ground = &self.valued.ground;
        let found = ground
            .names
            .find_whole(ground.alloc, body.home.module_name, whole)?;
        let again = twice || is_built_in(found);
        match require(ground.alloc, !again, Rule::Twice, body.place) {
            Ok(()) => ground.function_head(
                body.home,
                body.place,
                body.name,
                body.params,
                result_type.as_ref(),
                found,
            ),
            Err(refusal) => Err(refusal),
        }
    }

    /// The rules of a function body; `twice` says whether an earlier one has its whole name.
    pub fn function_rules(
        &self,
        body: &Body<'a>,
        result_type: &'a Option<Type>,
        whole: &[u8],
        twice: bool,
    ) -> Result<(), Refusal>
        requires { IsBodied self.now }
        ensures { (earlier : List Stated) → whole.now ≡ whole_name body.now.home.module_name.now body.now.name.now.text → twice ≡ list_any (spec.is_body_of whole.now) earlier
            → Tells (λ done. done) result (spec.function_rules (scripts_in self.now.valued.ground.names.now) earlier (home_of body.now.home) body.now.place body.now.name.now body.now.params.now result_type.now body.now.block.now) }
    {
        let ground = &self.valued.ground;
        let params = ground.param_rules(body.home, body.params);
        let given = ground.maybe_rules(body.home, result_type.as_ref());
        let head = self.function_head(body, result_type, whole, twice);
        let locals = ground.local_rules(body.home, body.block);
        let stated = self.function_body(body, result_type);
        also(also(params, given), also(head, also(locals, stated)))
    }
}
