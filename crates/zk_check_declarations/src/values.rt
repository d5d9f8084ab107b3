ghost use Rattle.std.specs.Prelude.{◌≡◌, ◌++◌, ℕ, List, flat_map, OnOk, IfOk};
ghost use Rattle.zk_typed.specs.Names.{look_up};
ghost use Rattle.zk_scope.specs.Lent.{home_of, stated_lent, stated_of};
ghost use Rattle.zk_scope.specs.Scripted.{scripts_in};
ghost use Rattle.zk_check_declarations.specs.Grouping.{group_at};
ghost use Rattle.zk_check_declarations.specs.Valuing.{IsValues, anew_at, given_at, given_lent, initial_at, stated_given};

use crate::groups::Groups;
use std::alloc::Global;
use zk_base::Mem;
use zk_scope::{Home, Names, Stated, whole_name};
use zk_tree::{Decl, Init, Name, Redefining};

/// A value that a name is given, by its declaration or by `redef`, and where that stands.
#[derive(Clone, Copy)]
pub struct Given<'a> {
    pub home: Home<'a>,
    pub operator: Redefining,
    pub init: &'a Init,
}

/// The values that names are given, by their whole names, each in load order.
#[derive(Drop)]
pub struct Values<'a> {
    given: Groups<Given<'a>>,
}

/// Adds the initial value of a declaration.
fn add_initial<'a>(
    alloc: Global,
    home: Home<'a>,
    name: &Name,
    init: &'a Option<Init>,
    given: &mut Groups<Given<'a>>,
) -> Result<(), Mem>
    ensures { OnOk result ((whole : List ℕ) → given_lent (group_at given.new whole) ≡ given_lent (group_at given.old whole) ++ initial_at whole (home_of home.entry) name.now init.now) }
{
    match init {
        Some(init) => {
            let whole = whole_name(alloc, home.module_name, name.text.as_slice())?;
            let one = Given {
                home,
                operator: Redefining::Set,
                init,
            };
            given.add(alloc, whole.as_slice(), one)?;
            Ok(())
        }
        None => Ok(()),
    }
}

/// Adds a value that `redef` gives.
fn add_anew<'a>(
    alloc: Global,
    names: &Names<'_>,
    home: Home<'a>,
    name: &Name,
    operator: Redefining,
    init: &'a Init,
    given: &mut Groups<Given<'a>>,
) -> Result<(), Mem>
    ensures { OnOk result ((whole : List ℕ) → given_lent (group_at given.new whole) ≡ given_lent (group_at given.old whole) ++ anew_at whole (home_of home.entry) operator init.now (look_up (scripts_in names.now).names home.entry.module_name.now name.now.text)) }
{
    match names.look_up(alloc, home.module_name, name.text.as_slice())? {
        Some(one) => {
            let value = Given {
                home,
                operator,
                init,
            };
            given.add(alloc, &one.name, value)?;
            Ok(())
        }
        None => Ok(()),
    }
}

/// Adds the value that a declaration gives.
fn add_given<'a>(
    alloc: Global,
    names: &Names<'_>,
    one: Stated<'a>,
    given: &mut Groups<Given<'a>>,
) -> Result<(), Mem>
    ensures { OnOk result ((whole : List ℕ) → given_lent (group_at given.new whole) ≡ given_lent (group_at given.old whole) ++ stated_given whole (scripts_in names.now) (stated_of one.entry)) }
{
    match one.decl {
        Decl::Variable {
            place: _,
            lasting: _,
            name,
            variable_type: _,
            init,
            attrs: _,
        } => {
            add_initial(alloc, one.home, name, init, given)?;
            Ok(())
        }
        Decl::Redef {
            place: _,
            name,
            operator,
            init,
        } => {
            add_anew(alloc, names, one.home, name, *operator, init, given)?;
            Ok(())
        }
        Decl::Module { .. }
        | Decl::Export { .. }
        | Decl::Load { .. }
        | Decl::RedefEnum { .. }
        | Decl::RedefRecord { .. }
        | Decl::Type { .. }
        | Decl::Body { .. }
        | Decl::Function { .. } => Ok(()),
    }
}

/// Adds the values that declarations give.
fn add_all_given<'a>(
    alloc: Global,
    names: &Names<'_>,
    stated: &[Stated<'a>],
    given: &mut Groups<Given<'a>>,
) -> Result<(), Mem>
    ensures { OnOk result ((whole : List ℕ) → given_lent (group_at given.new whole) ≡ given_lent (group_at given.old whole) ++ flat_map (stated_given whole (scripts_in names.now)) (stated_lent stated.now)) }
{
    for one in stated {
        add_given(alloc, names, *one, given)?;
    }
    Ok(())
}

/// The values that the names of scripts are given.
pub fn given_values<'a>(alloc: Global, names: &Names<'a>) -> Result<Values<'a>, Mem>
    ensures { IfOk result (λ values. IsValues values (scripts_in names.now)) }
{
    let mut given = Groups::new(alloc);
    add_all_given(alloc, names, names.stated(), &mut given)?;
    Ok(Values { given })
}

impl<'a> Values<'a> {
    /// The values that a whole name is given, in load order.
    pub fn of(&self, alloc: Global, whole: &[u8]) -> Result<&[Given<'a>], Mem>
        ensures { IfOk result (λ given. given_lent given.now ≡ given_at self.now whole.now) }
    {
        self.given.of(alloc, whole)
    }
}
