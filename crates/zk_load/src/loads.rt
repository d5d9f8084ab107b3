//! The files that a script loads.

ghost use Rattle.std.specs.Prelude.{◌≡◌, ◌++◌, flat_map, OnOk, IfOk, [], ◌∷◌, codes, nat_eq, if◌then◌else◌};
ghost use Rattle.std.specs.List.{starts_with};
ghost use Rattle.zk_load.specs.Loading.{loads_in, loads_of};

use std::alloc::Global;
use zk_base::Mem;
use zk_scope::Whole;
use zk_tree::{Decl, Tree};

/// The files that a script loads, in order.
pub fn loads_of(alloc: Global, tree: &Tree) -> Result<Vec<Whole>, Mem>
    ensures { IfOk result (λ names. names.items ≡ loads_of tree.now) }
{
    let mut names = Vec::new(alloc);
    add_all(alloc, tree.decls.as_slice(), &mut names)?;
    Ok(names)
}

/// Adds the files that declarations load.
#[cycle(loads)]
fn add_all(alloc: Global, decls: &[Decl], names: &mut Vec<Whole>) -> Result<(), Mem>
    ensures { OnOk result (names.new.items ≡ names.old.items ++ flat_map loads_in decls.now) }
{
    for decl in decls {
        add_loads(alloc, decl, names)?;
    }
    Ok(())
}

/// Adds the files that a declaration loads.
#[cycle(loads)]
fn add_loads(alloc: Global, decl: &Decl, names: &mut Vec<Whole>) -> Result<(), Mem>
    ensures { OnOk result (names.new.items ≡ names.old.items ++ loads_in decl.now) }
{
    match decl {
        Decl::Export { place: _, decls } => {
            add_all(alloc, decls.as_slice(), names)?;
            Ok(())
        }
        Decl::Load { place: _, file } => {
            add_file(alloc, file.as_slice(), names)?;
            Ok(())
        }
        Decl::Module { .. }
        | Decl::Variable { .. }
        | Decl::Redef { .. }
        | Decl::RedefEnum { .. }
        | Decl::RedefRecord { .. }
        | Decl::Type { .. }
        | Decl::Body { .. }
        | Decl::Function { .. } => Ok(()),
    }
}

/// Adds a file, unless it is one of the default scripts.
fn add_file(alloc: Global, file: &[u8], names: &mut Vec<Whole>) -> Result<(), Mem>
    ensures { OnOk result (names.new.items ≡ names.old.items ++ (if starts_with nat_eq file.now (codes "base/") then [] else file.now ∷ [])) }
{
    if !file.starts_with(b"base/") {
        names.push(Whole::copy_of(alloc, file)?)?;
    }
    Ok(())
}
