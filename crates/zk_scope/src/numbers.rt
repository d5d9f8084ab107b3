ghost use Rattle.std.specs.Prelude.{◌≡◌, ◌≤◌, ◌^◌, ◌++◌, ℕ, List, filter, IfOk, OnOk, OnErr};
ghost use Rattle.std.specs.Str.{bytes_eq};
ghost use Rattle.zk_typed.specs.Names.{Declared as DeclaredName, Node as TypeNode, count_before, enum_number, record_number};
ghost use Rattle.zk_scope.specs.Kinds.{is_of};
ghost use Rattle.zk_scope.specs.Lent.{declared_lent, declared_of, node_of, nodes_lent};
ghost use Rattle.zk_scope.specs.Numbering.{IsNumbered, Stands, names_of, of_kind, own_name, own_spot, spot_eq, spots};

use crate::declared::Declared;
use crate::first_places::FirstPlaces;
use crate::kind::Kind;
use crate::node::{Node, RECORDS};
use crate::whole::Whole;
use sqlite_items::Boxed;
use std::alloc::Global;
use zk_base::Mem;

/// How many enums the predefined ones are.
const ENUMS: u32 = 3;

/// The numbers of names among those of their kinds, and of record types and enums by the file and the place
/// where their texts begin, each map in a box, since what scripts declare is handed on by value.
#[derive(Drop)]
pub struct Numbers {
    alloc: Global,
    variables: Boxed<FirstPlaces<Whole>>,
    events: Boxed<FirstPlaces<Whole>>,
    hooks: Boxed<FirstPlaces<Whole>>,
    functions: Boxed<FirstPlaces<Whole>>,
    log_words: Boxed<FirstPlaces<Whole>>,
    records: Boxed<FirstPlaces<(usize, u64)>>,
    enums: Boxed<FirstPlaces<(usize, u64)>>,
}

/// Adds a name where it is of a kind.
fn add_name(
    alloc: Global,
    kind: Kind,
    one: &Declared<'_>,
    found: &mut FirstPlaces<Whole>,
) -> Result<(), Mem>
    ensures { OnOk result ((names : List (List ℕ)) → Stands bytes_eq found.old names → Stands bytes_eq found.new (names ++ own_name kind (declared_of one.now))) }
{
    if kind.is_of(one) {
        let name = Whole::copy_of(alloc, &one.name)?;
        found.add(name)?;
        return Ok(());
    }
    Ok(())
}

/// Where names stand first among those of a kind.
fn names_of(
    alloc: Global,
    kind: Kind,
    names: &[Declared<'_>],
) -> Result<Boxed<FirstPlaces<Whole>>, Mem>
    ensures { IfOk result (λ found. Stands bytes_eq found (names_of kind (declared_lent names.now))) }
{
    let mut found = FirstPlaces::new(alloc);
    for one in names {
        add_name(alloc, kind, one, &mut found)?;
    }
    let found = Boxed::new(alloc, found)?;
    Ok(found)
}

/// Adds the place of a record type, or of an enum.
fn add_spot(
    records: bool,
    node: &Node<'_>,
    found: &mut FirstPlaces<(usize, u64)>,
) -> Result<(), Mem>
    ensures { OnOk result ((places : List (ℕ × ℕ)) → Stands spot_eq found.old places → Stands spot_eq found.new (places ++ own_spot records (node_of node.now))) }
{
    if node.is_record() == records {
        found.add(node.spot())?;
        return Ok(());
    }
    Ok(())
}

/// Where record types stand first among their kind, or enums.
fn spots(
    alloc: Global,
    records: bool,
    nodes: &[Node<'_>],
) -> Result<Boxed<FirstPlaces<(usize, u64)>>, Mem>
    ensures { IfOk result (λ found. Stands spot_eq found (spots records (nodes_lent nodes.now))) }
{
    let mut found = FirstPlaces::new(alloc);
    for node in nodes {
        add_spot(records, node, &mut found)?;
    }
    let found = Boxed::new(alloc, found)?;
    Ok(found)
}

impl Numbers {
    /// The numbers of record types, enums and names.
    pub fn of(alloc: Global, nodes: &[Node<'_>], names: &[Declared<'_>]) -> Result<Numbers, Mem>
        ensures { IfOk result (λ numbers. IsNumbered numbers (nodes_lent nodes.now) (declared_lent names.now)) }
    {
        let variables = names_of(alloc, Kind::Variable, names)?;
        let events = names_of(alloc, Kind::Event, names)?;
        let hooks = names_of(alloc, Kind::Hook, names)?;
        let functions = names_of(alloc, Kind::Function, names)?;
        let log_words = names_of(alloc, Kind::LogWord, names)?;
        let records = spots(alloc, true, nodes)?;
        let enums = spots(alloc, false, nodes)?;
        Ok(Numbers {
            alloc,
            variables,
            events,
            hooks,
            functions,
            log_words,
            records,
            enums,
        })
    }

    /// The names of a kind.
    fn of_kind(&self, kind: Kind) -> &FirstPlaces<Whole>
        ensures { result.now ≡ of_kind kind self.now }
    {
        match kind {
            Kind::Variable => self.variables.get(),
            Kind::Event => self.events.get(),
            Kind::Hook => self.hooks.get(),
            Kind::Function => self.functions.get(),
            Kind::LogWord => self.log_words.get(),
        }
    }

    /// The number of a name among those of a kind: that of the first that has its name, or how many there
    /// are.
    pub fn name_number(&self, kind: Kind, name: &[u8]) -> Result<u32, Mem>
        ensures { IfOk result (λ number. (nodes : List TypeNode) (names : List DeclaredName) → IsNumbered self.now nodes names
            → number ≡ count_before (λ other. bytes_eq other.name name.now) (filter (is_of kind) names)) }
    {
        let name = Whole::copy_of(self.alloc, name)?;
        Ok(self.of_kind(kind).number(&name))
    }

    /// The number of the record type whose text begins at a place.
    pub fn record_number(&self, file: usize, place: u64) -> Result<u32, Mem>
        ensures number { IfOk result (λ number. (nodes : List TypeNode) (names : List DeclaredName) → IsNumbered self.now nodes names → number ≡ record_number nodes file place) }
        ensures err { OnErr result ((nodes : List TypeNode) (names : List DeclaredName) → IsNumbered self.now nodes names → 2 ^ 32 ≤ record_number nodes file place) }
    {
        let among = self.records.get().number(&(file, place));
        match among.checked_add(RECORDS) {
            Some(number) => Ok(number),
            None => Err(Mem),
        }
    }

    /// The number of the enum whose text begins at a place.
    pub fn enum_number(&self, file: usize, place: u64) -> Result<u32, Mem>
        ensures number { IfOk result (λ number. (nodes : List TypeNode) (names : List DeclaredName) → IsNumbered self.now nodes names → number ≡ enum_number nodes file place) }
        ensures err { OnErr result ((nodes : List TypeNode) (names : List DeclaredName) → IsNumbered self.now nodes names → 2 ^ 32 ≤ enum_number nodes file place) }
    {
        let among = self.enums.get().number(&(file, place));
        match among.checked_add(ENUMS) {
            Some(number) => Ok(number),
            None => Err(Mem),
        }
    }
}
