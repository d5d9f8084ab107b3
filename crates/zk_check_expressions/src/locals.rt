ghost use Rattle.std.specs.Prelude.{◌≡◌, [], ◌∷◌, ◌++◌, length, IfOk, OnOk};
ghost use Rattle.std.specs.Option.{option_map};
ghost use Rattle.zk_typed.specs.Typing as spec;
ghost use Rattle.zk_check_expressions.specs.Envs.{local_found, locals_of};

use crate::env::LocalName;
use sqlite_items::at;
use std::alloc::Global;
use std::marker::Model;
use zk_base::Mem;
use zk_scope::{FirstPlaces, Whole};

/// Parameters and locals by their numbers, found by their names. Contracts see the list of them.
#[derive(Drop)]
pub struct Locals<'a> {
    all: Vec<LocalName<'a>>,
    names: FirstPlaces<Whole>,
}

impl<'a> Model for Locals<'a> {
    ghost use Rattle.std.specs.Prelude.{List};
    ghost use Rattle.std.specs.Coded.{codes};
    ghost use Rattle.std.specs.Str.{bytes_eq};
    ghost use Rattle.zk_scope.specs.Numbering.{Stands};
    ghost use Rattle.zk_typed.specs.contracts.script.types.ValueType.{the_row};
    ghost use Rattle.zk_check_expressions.specs.declared.env.LocalName.{LocalName as LentLocal};
    ghost use Rattle.zk_check_expressions.specs.Locals.{named};

    ghost Value = { List LentLocal };

    // A `ValueType` may hold others, so its code is named here.
    ghost coded = { Prim.hlevel (codes, the_row.coded) };

    ghost view = { λ locals. locals.all.items };

    ghost invariant = { λ locals. Stands bytes_eq locals.names (named locals.all.items) };
}

impl<'a> Locals<'a> {
    /// None.
    pub fn new(alloc: Global) -> Locals<'a>
        ensures { result ≡ [] }
    {
        Locals {
            all: Vec::new(alloc),
            names: FirstPlaces::new(alloc),
        }
    }

    /// Adds one at the end.
    pub fn add(&mut self, alloc: Global, one: LocalName<'a>) -> Result<(), Mem>
        ensures { OnOk result (self.new ≡ self.old ++ one.entry ∷ []) }
    {
        let name = Whole::copy_of(alloc, one.name)?;
        self.all.reserve(1)?;
        self.names.add(name)?;
        let Ok(()) = self.all.push(one) else {
            unreachable!()
        };
        Ok(())
    }

    /// How many there are.
    pub fn len(&self) -> usize
        ensures { result ≡ length self.now }
    {
        self.all.len()
    }

    /// The first of a name, and its number.
    pub fn named(&self, alloc: Global, name: &[u8]) -> Result<Option<(u32, &LocalName<'a>)>, Mem>
        ensures { IfOk result (λ found. option_map local_found found ≡ spec.local_named name.now 0 (locals_of self.now)) }
    {
        let name = Whole::copy_of(alloc, name)?;
        let number = self.names.number(&name);
        match at(&self.all, number as usize) {
            Some(local) => Ok(Some((number, local))),
            None => Ok(None),
        }
    }
}
