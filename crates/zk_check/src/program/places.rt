ghost use Rattle.std.specs.Prelude.{◌≡◌, ◌++◌, ℕ, List, IfOk, OnOk};
ghost use Rattle.zk_scope.specs.Lent.{stated_of};
ghost use Rattle.zk_typed.specs.Programs as spec;
ghost use Rattle.zk_check.specs.Globals.{ArePlaces, no_place, stated_place};
ghost use Rattle.zk_check_declarations.specs.Grouping.{group_at};
ghost use Rattle.zk_check_declarations.specs.Sources.{scripts_from};

use std::alloc::Global;
use zk_base::Mem;
use zk_check_declarations::{Groups, Source};
use zk_scope::{Stated, whole_name};
use zk_tree::{Decl, Place};

/// The place of the first declaration of a name, among places by whole names.
pub fn place_among(alloc: Global, places: &Groups<Place>, name: &[u8]) -> Result<Place, Mem>
    ensures { IfOk result (λ place. place ≡ spec.first_or no_place (group_at places.now name.now)) }
{
    match places.of(alloc, name)?.first() {
        Some(place) => Ok(*place),
        None => Ok(Place { file: 0, byte: 0 }),
    }
}

/// Adds the place of a declaration of a global.
fn add_stated(source: &Source<'_>, one: Stated<'_>, places: &mut Groups<Place>) -> Result<(), Mem>
    ensures { OnOk result ((whole : List ℕ) → group_at places.new whole ≡ group_at places.old whole ++ stated_place whole (stated_of one.entry)) }
{
    match one.decl {
        Decl::Variable {
            place,
            lasting: _,
            name,
            variable_type: _,
            init: _,
            attrs: _,
        } => {
            let alloc = source.alloc;
            let whole = whole_name(alloc, one.home.module_name, name.text.as_slice())?;
            let place = Place {
                file: one.home.file,
                byte: *place,
            };
            places.add(alloc, whole.as_slice(), place)?;
            Ok(())
        }
        Decl::Module { .. }
        | Decl::Export { .. }
        | Decl::Load { .. }
        | Decl::Redef { .. }
        | Decl::RedefEnum { .. }
        | Decl::RedefRecord { .. }
        | Decl::Type { .. }
        | Decl::Body { .. }
        | Decl::Function { .. } => Ok(()),
    }
}

/// The places of declarations of globals by their whole names, in load order.
pub fn places_by_name(source: &Source<'_>) -> Result<Groups<Place>, Mem>
    ensures { IfOk result (λ places. ArePlaces places (scripts_from source.now)) }
{
    let mut places = Groups::new(source.alloc);
    for one in source.scripts.names.stated() {
        add_stated(source, *one, &mut places)?;
    }
    Ok(places)
}
