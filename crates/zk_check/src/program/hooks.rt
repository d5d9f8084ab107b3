ghost use Rattle.std.specs.Prelude.{◌≡◌, ◌++◌, filter, flat_map, map, IfOk, OnOk};
ghost use Rattle.zk_scope.specs.Lent.{declared_of, stated_of};
ghost use Rattle.zk_typed.specs.Names.{Declared as DeclaredName, look_up};
ghost use Rattle.zk_typed.specs.Programs as spec;
ghost use Rattle.zk_typed.specs.Typing.{is_hook};
ghost use Rattle.zk_typed.specs.View as view;
ghost use Rattle.zk_check_declarations.specs.Choosing.{chosen};
ghost use Rattle.zk_check.specs.Hooks.{hook_among, hook_body_typed, hook_bodies_at, hooks_in, stated_hook};
ghost use Rattle.zk_check_declarations.specs.Sources.{IsSource, scripts_from};

use crate::program::bodies::{body_in, priority_of};
use crate::program::signatures::declared_params;
use zk_base::{Mem, Sequence};
use zk_check_declarations::{Groups, Source};
use zk_check_statements::Within;
use zk_scope::{Declared, Home, Kind, Stated};
use zk_tree::{Attr, Block, BodyKind, Decl, Name, Param};
use zk_typed::script::{Hook, HookBody};

/// A body of a hook, where it stands.
#[derive(Clone, Copy)]
pub struct HookDecl<'a> {
    pub home: Home<'a>,
    pub params: &'a [Param],
    pub attrs: &'a [Attr],
    pub block: &'a Block,
}

/// A body of a hook.
fn hook_body_made<'a>(source: &Source<'a>, one: &HookDecl<'a>) -> Result<HookBody, Mem>
    requires { IsSource source.now }
    ensures { IfOk result (λ made. view.hook_body_of made ≡ hook_body_typed (scripts_from source.now) one.now) }
{
    let priority = priority_of(source.alloc, one.home, one.attrs)?;
    let made = body_in(source, one.home, Within::Hook, one.params, one.block)?;
    Ok(HookBody {
        priority,
        locals: made.locals,
        body: made.body,
    })
}

/// Bodies of a hook.
fn hook_bodies_made<'a>(source: &Source<'a>, ones: &[HookDecl<'a>]) -> Result<Vec<HookBody>, Mem>
    requires { IsSource source.now }
    ensures { IfOk result (λ made. map view.hook_body_of made.items ≡ map (hook_body_typed (scripts_from source.now)) ones.now) }
{
    let mut all = Vec::new(source.alloc);
    for one in ones {
        all.push(hook_body_made(source, one)?)?;
    }
    Ok(all)
}

/// The hook of a name, among bodies by the whole names of hooks.
fn hook_of<'a>(
    source: &Source<'a>,
    bodies: &Groups<HookDecl<'a>>,
    one: &Declared<'_>,
) -> Result<Hook, Mem>
    requires { IsSource source.now }
    ensures { IfOk result (λ made. view.hook_of made ≡ hook_among (scripts_from source.now) bodies.now (declared_of one.now)) }
{
    let params = declared_params(source, one)?;
    let ones = bodies.of(source.alloc, one.name.as_slice())?;
    let bodies = hook_bodies_made(source, ones)?;
    Ok(Hook {
        params,
        bodies: Sequence::from(bodies),
    })
}

/// Adds the hook that a name stands for.
fn add_hook<'a>(
    source: &Source<'a>,
    bodies: &Groups<HookDecl<'a>>,
    one: &Declared<'_>,
    all: &mut Vec<Hook>,
) -> Result<(), Mem>
    requires { IsSource source.now }
    ensures { OnOk result (map view.hook_of all.new.items ≡ map view.hook_of all.old.items ++ chosen is_hook (hook_among (scripts_from source.now) bodies.now) (declared_of one.now)) }
{
    if Kind::Hook.is_of(one) {
        all.push(hook_of(source, bodies, one)?)?;
    }
    Ok(())
}

/// The hooks of all names of hooks.
fn hooks_of<'a>(source: &Source<'a>, bodies: &Groups<HookDecl<'a>>) -> Result<Vec<Hook>, Mem>
    requires { IsSource source.now }
    ensures { IfOk result (λ made. map view.hook_of made.items ≡ map (hook_among (scripts_from source.now) bodies.now) (filter is_hook (scripts_from source.now).names)) }
{
    let mut all = Vec::new(source.alloc);
    for one in source.scripts.names.declared() {
        add_hook(source, bodies, one, &mut all)?;
    }
    Ok(all)
}

/// Adds a body of a hook under what its name means.
fn add_body<'a>(
    source: &Source<'a>,
    name: &Name,
    decl: HookDecl<'a>,
    bodies: &mut Groups<HookDecl<'a>>,
) -> Result<(), Mem>
    ensures { OnOk result ((other : DeclaredName) → hook_bodies_at (scripts_from source.now) bodies.new other ≡ hook_bodies_at (scripts_from source.now) bodies.old other ++ hooks_in (scripts_from source.now) other decl.entry (look_up (scripts_from source.now).names decl.entry.home.module_name.now name.now.text)) }
{
    let from_module = decl.home.module_name;
    let found = source
        .scripts
        .names
        .look_up(source.alloc, from_module, name.text.as_slice())?;
    match found {
        Some(one) => {
            bodies.add(source.alloc, one.name.as_slice(), decl)?;
            Ok(())
        }
        None => Ok(()),
    }
}

/// Adds the body of a hook that a declaration is.
fn add_stated<'a>(
    source: &Source<'a>,
    one: Stated<'a>,
    bodies: &mut Groups<HookDecl<'a>>,
) -> Result<(), Mem>
    ensures { OnOk result ((name : DeclaredName) → hook_bodies_at (scripts_from source.now) bodies.new name ≡ hook_bodies_at (scripts_from source.now) bodies.old name ++ stated_hook (scripts_from source.now) name (stated_of one.entry)) }
{
    match one.decl {
        Decl::Body {
            place: _,
            kind,
            name,
            params,
            attrs,
            body,
        } => match kind {
            BodyKind::Hook => {
                let decl = HookDecl {
                    home: one.home,
                    params: params.as_slice(),
                    attrs: attrs.as_slice(),
                    block: body,
                };
                add_body(source, name, decl, bodies)?;
                Ok(())
            }
            BodyKind::Event => Ok(()),
        },
        Decl::Module { .. }
        | Decl::Export { .. }
        | Decl::Load { .. }
        | Decl::Variable { .. }
        | Decl::Redef { .. }
        | Decl::RedefEnum { .. }
        | Decl::RedefRecord { .. }
        | Decl::Type { .. }
        | Decl::Function { .. } => Ok(()),
    }
}

/// The bodies of hooks by the whole names that they belong to, in load order.
fn bodies_by_name<'a>(source: &Source<'a>) -> Result<Groups<HookDecl<'a>>, Mem>
    ensures { IfOk result (λ bodies. (name : DeclaredName) → hook_bodies_at (scripts_from source.now) bodies name ≡ flat_map (stated_hook (scripts_from source.now) name) (scripts_from source.now).stated) }
{
    let mut bodies = Groups::new(source.alloc);
    for one in source.scripts.names.stated() {
        add_stated(source, *one, &mut bodies)?;
    }
    Ok(bodies)
}

/// The hooks of a program.
pub fn all_hooks(source: &Source<'_>) -> Result<Vec<Hook>, Mem>
    requires { IsSource source.now }
    ensures { IfOk result (λ made. map view.hook_of made.items ≡ map (spec.hook_of (scripts_from source.now)) (filter is_hook (scripts_from source.now).names)) }
{
    let bodies = bodies_by_name(source)?;
    let all = hooks_of(source, &bodies)?;
    Ok(all)
}
