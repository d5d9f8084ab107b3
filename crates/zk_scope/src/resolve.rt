ghost use Rattle.std.specs.Prelude.{◌≡◌, ◌≤◌, ◌^◌, slice_get, IfOk, OnErr};
ghost use Rattle.std.specs.Option.{option_map};
ghost use Rattle.zk_typed.specs.Names.{enum_number, find_whole, look_up, record_number};
ghost use Rattle.zk_typed.specs.Resolving as spec;
ghost use Rattle.zk_typed.specs.Typing.{number_among};
ghost use Rattle.zk_scope.specs.Kinds.{is_of};
ghost use Rattle.zk_scope.specs.Leading.{is_circle, place_up, steps, text_at, text_in};
ghost use Rattle.zk_scope.specs.Lent.{declared_lent, declared_of, home_of, meant_of, nodes_lent, stated_lent, stated_of, text_lent};
ghost use Rattle.zk_scope.specs.Scripted.{scripts_in};

use crate::declared::{Declared, Meant};
use crate::home::{Home, Stated};
use crate::kind::Kind;
use crate::known::Names;
use crate::leading::{add_place, search};
use crate::node::Node;
use crate::whole::Whole;
use sqlite_items::at;
use std::alloc::Global;
use zk_base::Mem;
use zk_tree::{Name, Type};

/// The text of what a declared type means, with where it stands.
fn written_text<'a>(meant: &Meant<'a>) -> Option<(Home<'a>, &'a Type)>
    ensures { option_map text_lent result ≡ text_in (meant_of meant.now) }
{
    match meant {
        Meant::WrittenType { home, tree } => Some((*home, tree)),
        _ => None,
    }
}

impl<'a> Names<'a> {
    /// The declarations, in load order.
    pub fn stated(&self) -> &[Stated<'a>]
        ensures { stated_lent result.now ≡ (scripts_in self.now).stated }
    {
        &self.stated
    }

    /// The declaration at a place among them.
    pub(crate) fn stated_at(&self, place: usize) -> Option<&Stated<'a>>
        ensures { option_map (λ one. stated_of one.now) result ≡ slice_get (scripts_in self.now).stated place }
    {
        at(&self.stated, place)
    }

    /// The records and enums in the texts, in load order.
    pub fn nodes(&self) -> &[Node<'a>]
        ensures { nodes_lent result.now ≡ (scripts_in self.now).nodes }
    {
        &self.nodes
    }

    /// The names, in the order of their declarations.
    pub fn declared(&self) -> &[Declared<'a>]
        ensures { declared_lent result.now ≡ (scripts_in self.now).names }
    {
        &self.table.names
    }

    /// What a name means in a module: one of the module, or else one of none.
    pub fn look_up(
        &self,
        alloc: Global,
        from_module: &[u8],
        name: &[u8],
    ) -> Result<Option<&Declared<'a>>, Mem>
        ensures { IfOk result (λ found. option_map (λ one. declared_of one.now) found ≡ look_up (scripts_in self.now).names from_module.now name.now) }
    {
        self.table.look_up(alloc, from_module, name)
    }

    /// Where the name stands among the names that a name means in a module.
    pub(crate) fn place_of(
        &self,
        alloc: Global,
        from_module: &[u8],
        name: &[u8],
    ) -> Result<Option<usize>, Mem>
        ensures { IfOk result (λ place. place ≡ place_up (scripts_in self.now).names from_module.now name.now) }
    {
        self.table.place_of(alloc, from_module, name)
    }

    /// The name at a place.
    pub(crate) fn name_at(&self, place: usize) -> Option<&Declared<'a>>
        ensures { option_map (λ one. declared_of one.now) result ≡ slice_get (scripts_in self.now).names place }
    {
        at(&self.table.names, place)
    }

    /// The text of the declared type at a place, with where it stands.
    pub(crate) fn text_at(&self, place: usize) -> Option<(Home<'a>, &'a Type)>
        ensures { option_map text_lent result ≡ text_at (scripts_in self.now).names place }
    {
        match at(&self.table.names, place) {
            Some(one) => written_text(&one.meant),
            None => None,
        }
    }

    /// Where the name at a place leads.
    pub(crate) fn steps_at(&self, place: usize) -> &[usize]
        ensures { result.now ≡ steps (scripts_in self.now).names place }
    {
        self.ways.steps_at(place)
    }

    /// Whether the name at a place is that of a declared type that leads back to it.
    pub(crate) fn is_circle(&self, place: usize) -> bool
        ensures { result ≡ is_circle (scripts_in self.now) (slice_get (scripts_in self.now).names place) }
    {
        match at(&self.circles, place) {
            Some(circle) => *circle,
            None => false,
        }
    }

    /// What a whole name means, as it is seen from a module.
    pub fn find_whole(
        &self,
        alloc: Global,
        from_module: &[u8],
        whole: &[u8],
    ) -> Result<Option<&Declared<'a>>, Mem>
        ensures { IfOk result (λ found. option_map (λ one. declared_of one.now) found ≡ find_whole (scripts_in self.now).names from_module.now whole.now) }
    {
        let whole = Whole::copy_of(alloc, whole)?;
        Ok(self.table.find_whole(from_module, &whole))
    }

    /// The number of a name among those of a kind: that of the first that has its name, or how many there
    /// are.
    pub fn number_among(&self, kind: Kind, one: &Declared<'_>) -> Result<u32, Mem>
        ensures { IfOk result (λ number. number ≡ number_among (is_of kind) (scripts_in self.now) (declared_of one.now)) }
    {
        let number = self.numbers.name_number(kind, one.name.as_slice())?;
        Ok(number)
    }

    /// The number of the record type whose text begins at a place.
    pub fn record_number(&self, file: usize, place: u64) -> Result<u32, Mem>
        ensures number { IfOk result (λ number. number ≡ record_number (scripts_in self.now).nodes file place) }
        ensures err { OnErr result (2 ^ 32 ≤ record_number (scripts_in self.now).nodes file place) }
    {
        match self.numbers.record_number(file, place) {
            Ok(number) => Ok(number),
            Err(refused) => Err(refused),
        }
    }

    /// The number of the enum whose text begins at a place.
    pub fn enum_number(&self, file: usize, place: u64) -> Result<u32, Mem>
        ensures number { IfOk result (λ number. number ≡ enum_number (scripts_in self.now).nodes file place) }
        ensures err { OnErr result (2 ^ 32 ≤ enum_number (scripts_in self.now).nodes file place) }
    {
        match self.numbers.enum_number(file, place) {
            Ok(number) => Ok(number),
            Err(refused) => Err(refused),
        }
    }

    /// Whether a name leads to a declared type of a whole name, by way of the names that types mention.
    pub fn leads(
        &self,
        alloc: Global,
        target: &[u8],
        home: Home<'_>,
        name: &Name,
    ) -> Result<bool, Mem>
        ensures { IfOk result (λ found. found ≡ spec.leads (scripts_in self.now) target.now (home_of home.entry) name.now) }
    {
        let mut starts = Vec::new(alloc);
        let text = name.text.as_slice();
        add_place(alloc, &self.table, home.module_name, text, &mut starts)?;
        let leads = search(alloc, &self.table, &self.ways, target, &starts)?;
        Ok(leads)
    }
}
