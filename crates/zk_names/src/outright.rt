ghost use Rattle.std.specs.Prelude.{◌≡◌, IfOk};
ghost use Rattle.std.specs.Option.{option_map};
ghost use Rattle.zk_typed.specs.Declaring.{outright_of, variable_meaning};
ghost use Rattle.zk_typed.specs.Names.{declare};
ghost use Rattle.zk_typed.specs.Within.{maybe_one};
ghost use Rattle.zk_scope.specs.Lent.{declared_of, home_of, meant_of, stated_of};

use std::alloc::Global;
use zk_base::Mem;
use zk_scope::{Declared, Home, Meant, Stated, whole_name, written};
use zk_tree::{Attr, Decl, Init, Lasting, Name, Param, Type};

/// What a name means that is declared as a variable: one of a type of events, hooks or functions is one of
/// these.
fn variable_meaning<'a>(
    home: Home<'a>,
    lasting: Lasting,
    tree: &'a Option<Type>,
    init: &'a Option<Init>,
    attrs: &'a [Attr],
) -> Meant<'a>
    ensures { meant_of result ≡ variable_meaning (home_of home.entry) lasting tree.entry.now init.entry.now attrs.entry.now }
{
    match tree {
        Some(Type::Event { place: _, params }) => Meant::Event {
            signature: written(home, params.as_slice(), None),
        },
        Some(Type::Hook { place: _, params }) => Meant::Hook {
            signature: written(home, params.as_slice(), None),
        },
        Some(Type::Procedure { place: _, params }) => Meant::Function {
            signature: written(home, params.as_slice(), None),
        },
        Some(
            Type::Function {
                place: _,
                params,
                result,
            },
        ) => Meant::Function {
            signature: written(home, params.as_slice(), Some(result.get())),
        },
        _ => Meant::Variable {
            home,
            lasting,
            tree,
            init,
            attrs,
        },
    }
}

/// A name that a declaration declares.
pub fn declare<'a>(
    alloc: Global,
    home: Home<'a>,
    name: &Name,
    meant: Meant<'a>,
) -> Result<Declared<'a>, Mem>
    ensures { IfOk result (λ one. declared_of one ≡ declare (home_of home.entry) name.now (meant_of meant.entry)) }
{
    match whole_name(alloc, home.module_name, name.text.as_slice()) {
        Ok(whole) => Ok(Declared {
            name: whole.into_vec(),
            exported: home.exported,
            meant,
        }),
        Err(refusal) => {
            drop(meant);
            Err(refusal)
        }
    }
}

/// The name that a declaration declares outright.
pub fn outright_name<'a>(alloc: Global, one: Stated<'a>) -> Result<Option<Declared<'a>>, Mem>
    ensures { IfOk result (λ named. maybe_one (option_map declared_of named) ≡ outright_of (stated_of one.entry)) }
{
    let home = one.home;
    match one.decl {
        Decl::Variable {
            place: _,
            lasting,
            name,
            variable_type,
            init,
            attrs,
        } => {
            let meant = variable_meaning(home, *lasting, variable_type, init, attrs.as_slice());
            Ok(Some(declare(alloc, home, name, meant)?))
        }
        Decl::Type {
            place: _,
            name,
            meant,
        } => {
            let meant = Meant::WrittenType { home, tree: meant };
            Ok(Some(declare(alloc, home, name, meant)?))
        }
        _ => Ok(None),
    }
}
