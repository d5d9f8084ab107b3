ghost use Rattle.std.specs.Prelude.{◌≡◌, ◌==◌, ◌+◌, ◌≤◌, ◌++◌, ◌∷◌, ℕ, [], Some, None as Nothing, find as first_of, slice_get, IfSome, IfNone, IsSomeAnd, OnOk, OnErr};
ghost use Rattle.std.specs.Option.{option_map};
ghost use Rattle.zk_machine.specs.Defaulted.{Rises};

use std::alloc::Global;
use std::marker::Model;
use zk_base::{Mem, ObjectNo};
use zk_typed::script::DefaultValue;

/// A table's `&default`, and the number of the table's object.
#[derive(Debug, Drop)]
pub struct TableDefault {
    pub object: ObjectNo,
    pub default: DefaultValue,
}

/// The tables that have a `&default`, in the order in which they were noted. Contracts see their list.
#[derive(Debug, Drop)]
pub struct TableDefaults {
    all: Vec<TableDefault>,
    /// What is above each of their numbers where these rise, as those of new objects do: then one is found by
    /// halving.
    above: Option<u64>,
}

impl Model for TableDefaults {
    ghost use Rattle.std.specs.Prelude.{◌≡◌, ℕ, List, Some};
    ghost use Rattle.zk_machine.specs.Defaulted.{Rises};
    ghost use Rattle.zk_machine.specs.declared.table_defaults.TableDefault.{TableDefault as One};

    ghost Value = { List One };

    ghost view = { λ defaults. defaults.all.items };

    ghost invariant = { λ defaults. (above : ℕ) → defaults.above ≡ Some above → Rises 0 defaults.all.items above };
}

/// The place of a number among those that rise.
fn place_of(all: &[TableDefault], number: u64) -> Option<usize>
    ensures found { IfSome result (λ place. option_map (λ one. one.object.0) (slice_get all.now place) ≡ Some number) }
    ensures none { IfNone result ((from above : ℕ) → Rises from all.now above → first_of (λ one. one.object.0 == number) all.now ≡ Nothing) }
{
    all.binary_search_by_key(&number, |one| one.object.0).ok()
}

/// The one in a place, lent.
fn at(all: &[TableDefault], place: usize) -> Option<&TableDefault>
    ensures { option_map (λ one. one.now) result ≡ slice_get all.now place }
{
    all.get(place)
}

/// The first that has a number, found by halving.
fn halved(all: &[TableDefault], number: u64) -> Option<&TableDefault>
    ensures { (above : ℕ) → Rises 0 all.now above → option_map (λ one. one.now) result ≡ first_of (λ one. one.object.0 == number) all.now }
{
    match place_of(all, number) {
        Some(place) => at(all, place),
        None => None,
    }
}

/// The first that has a number, found one after another.
fn walked(all: &[TableDefault], number: u64) -> Option<&TableDefault>
    ensures { option_map (λ one. one.now) result ≡ first_of (λ one. one.object.0 == number) all.now }
{
    all.iter().find(|one| one.object.0 == number)
}

/// What is above each number where another one stands behind them, and they rise.
fn above_with(above: Option<u64>, number: u64) -> Option<u64>
    ensures next { IfSome result (λ next. next ≡ number + 1) }
    ensures rises { IfSome result (λ next. IsSomeAnd above (λ above. above ≤ number)) }
{
    let above = above?;
    if above <= number {
        number.checked_add(1)
    } else {
        None
    }
}

impl TableDefaults {
    /// None. No memory is taken.
    pub fn new(alloc: Global) -> TableDefaults
        ensures { result ≡ [] }
    {
        TableDefaults {
            all: Vec::new(alloc),
            above: Some(0),
        }
    }

    /// Notes another one. At `Mem` nothing is changed.
    pub fn push(&mut self, one: TableDefault) -> Result<(), Mem>
        ensures ok { OnOk result (self.new ≡ self.old ++ one ∷ []) }
        ensures err { OnErr result (self.new ≡ self.old) }
    {
        let above = above_with(self.above, one.object.0);
        self.all.push(one)?;
        self.above = above;
        Ok(())
    }

    /// The first one of an object, lent.
    pub fn of(&self, object: ObjectNo) -> Option<&TableDefault>
        ensures { option_map (λ one. one.now) result ≡ first_of (λ one. one.object.0 == object.0) self.now }
    {
        match self.above {
            Some(_) => halved(&self.all, object.0),
            None => walked(&self.all, object.0),
        }
    }
}
