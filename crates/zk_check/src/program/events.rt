ghost use Rattle.std.specs.Prelude.{◌≡◌, ◌++◌, filter, flat_map, map, IfOk, OnOk};
ghost use Rattle.zk_scope.specs.Lent.{declared_of, home_of, stated_lent};
ghost use Rattle.zk_typed.specs.Names.{look_up};
ghost use Rattle.zk_typed.specs.Programs as spec;
ghost use Rattle.zk_typed.specs.Typing.{is_event};
ghost use Rattle.zk_typed.specs.View as view;
ghost use Rattle.zk_tree.specs.declared.decl.Decl.{out-Decl};
ghost use Rattle.zk_check_declarations.specs.Choosing.{chosen};
ghost use Rattle.zk_check_declarations.specs.Sources.{IsSource, scripts_from};
ghost use Rattle.zk_check.specs.Programming.{handler_made, handlers_at, stated_handlers};

use crate::program::bodies::{body_in, priority_of};
use crate::program::signatures::declared_params;
use zk_base::{Bytes, EventNo, Mem};
use zk_check_declarations::Source;
use zk_check_statements::Within;
use zk_scope::{Declared, Home, Kind, Stated};
use zk_tree::{Attr, Block, BodyKind, Decl, Name, Param};
use zk_typed::script::{Event, Handler};

/// An event of a program.
fn event_of(source: &Source<'_>, one: &Declared<'_>) -> Result<Event, Mem>
    ensures { IfOk result (λ made. view.event_of made ≡ spec.event_of (scripts_from source.now) (declared_of one.now)) }
{
    let name = Bytes::copy_of(source.alloc, one.name.as_slice())?;
    let params = declared_params(source, one)?;
    Ok(Event { name, params })
}

/// Adds the event that a name stands for.
fn add_event(source: &Source<'_>, one: &Declared<'_>, all: &mut Vec<Event>) -> Result<(), Mem>
    ensures { OnOk result (map view.event_of all.new.items ≡ map view.event_of all.old.items ++ chosen is_event (spec.event_of (scripts_from source.now)) (declared_of one.now)) }
{
    if Kind::Event.is_of(one) {
        all.push(event_of(source, one)?)?;
    }
    Ok(())
}

/// The events of a program.
pub fn all_events(source: &Source<'_>) -> Result<Vec<Event>, Mem>
    ensures { IfOk result (λ made. map view.event_of made.items ≡ map (spec.event_of (scripts_from source.now)) (filter is_event (scripts_from source.now).names)) }
{
    let mut all = Vec::new(source.alloc);
    for one in source.scripts.names.declared() {
        add_event(source, one, &mut all)?;
    }
    Ok(all)
}

/// A handler of an event.
fn handler_of<'a>(
    source: &Source<'a>,
    home: Home<'a>,
    one: &Declared<'_>,
    params: &'a [Param],
    attrs: &[Attr],
    block: &'a Block,
) -> Result<Handler, Mem>
    requires { IsSource source.now }
    ensures { IfOk result (λ made. view.handler_of made ≡ handler_made (scripts_from source.now) (declared_of one.now) (home_of home.entry) params.now attrs.now block.now) }
{
    let event = source.scripts.names.number_among(Kind::Event, one)?;
    let priority = priority_of(source.alloc, home, attrs)?;
    let made = body_in(source, home, Within::Handler, params, block)?;
    Ok(Handler {
        event: EventNo(event),
        priority,
        locals: made.locals,
        body: made.body,
    })
}

/// Adds the handler that a body is.
fn add_handler<'a>(
    source: &Source<'a>,
    home: Home<'a>,
    name: &Name,
    params: &'a [Param],
    attrs: &[Attr],
    block: &'a Block,
    all: &mut Vec<Handler>,
) -> Result<(), Mem>
    requires { IsSource source.now }
    ensures { OnOk result (map view.handler_of all.new.items ≡ map view.handler_of all.old.items ++ handlers_at (scripts_from source.now) (home_of home.entry) params.now attrs.now block.now (look_up (scripts_from source.now).names home.entry.module_name.now name.now.text)) }
{
    let found = source
        .scripts
        .names
        .look_up(source.alloc, home.module_name, name.text.as_slice())?;
    match found {
        Some(one) => {
            all.push(handler_of(source, home, one, params, attrs, block)?)?;
            Ok(())
        }
        None => Ok(()),
    }
}

/// Adds the handler that a declaration is.
fn add_stated<'a>(source: &Source<'a>, one: Stated<'a>, all: &mut Vec<Handler>) -> Result<(), Mem>
    requires { IsSource source.now }
    ensures { OnOk result (map view.handler_of all.new.items ≡ map view.handler_of all.old.items ++ spec.handler_in (scripts_from source.now) (home_of one.entry.home) (out-Decl one.entry.decl.now)) }
{
    match one.decl {
        Decl::Body {
            place: _,
            kind,
            name,
            params,
            attrs,
            body,
        } => match kind {
            BodyKind::Event => {
                let params = params.as_slice();
                add_handler(source, one.home, name, params, attrs.as_slice(), body, all)?;
                Ok(())
            }
            BodyKind::Hook => Ok(()),
        },
        Decl::Module { .. }
        | Decl::Export { .. }
        | Decl::Load { .. }
        | Decl::Variable { .. }
        | Decl::Redef { .. }
        | Decl::RedefEnum { .. }
        | Decl::RedefRecord { .. }
        | Decl::Type { .. }
        | Decl::Function { .. } => Ok(()),
    }
}

/// The handlers of a program.
pub fn all_handlers<'a>(source: &Source<'a>) -> Result<Vec<Handler>, Mem>
    requires { IsSource source.now }
    ensures { IfOk result (λ made. map view.handler_of made.items ≡ flat_map (stated_handlers (scripts_from source.now)) (scripts_from source.now).stated) }
{
    let mut all = Vec::new(source.alloc);
    for one in source.scripts.names.stated() {
        add_stated(source, *one, &mut all)?;
    }
    Ok(all)
}
