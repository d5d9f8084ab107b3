ghost use Rattle.std.specs.Prelude.{◌≡◌, ◌++◌, ◌∷◌, [], ℕ, List, reverse, IfSome, IfNone, IfOk, OnOk, IfErr};
ghost use Rattle.std.specs.Str.{bytes_eq};
ghost use Rattle.indexmap.specs.IndexSet.{contains};
ghost use Rattle.zk_base.specs.declared.endings.ScriptKind.TheVariants.{TooMany};
ghost use Rattle.zk_tree.specs.declared.decl.Tree.{Tree as TreeData};
ghost use Rattle.zk_load.specs.Loads.{LoadsAll, LoadsPart};
ghost use Rattle.zk_load.specs.Loading.{is_read, loads_of, unread};

use crate::loads::loads_of;
use crate::script::read_script;
use indexmap::IndexSet;
use std::alloc::Global;
use zk_base::{Bytes, Ending, Mem, ScriptKind, Sequence, Shelf, Word};
use zk_outcome::{Found, Stop};
use zk_scope::Whole;
use zk_tree::Tree;

/// The most files that a run may read.
const FILES_MAX: usize = 256;

/// The scripts that were read, and the names that are to be read.
#[derive(Drop)]
pub struct Scripts {
    read: Vec<(Bytes, Tree)>,
    /// The names of those that were read.
    names: IndexSet<Whole>,
    /// The names that are to be read, the next one last.
    pending: Vec<Whole>,
}

impl Scripts {
    ghost use Rattle.zk_load.specs.Pending.{Waits};

    /// These are read, and those of these names are to be read.
    fn new(alloc: Global, before: Sequence<(Bytes, Tree)>, names: &[Word]) -> Result<Scripts, Mem>
        ensures { IfOk result (λ scripts. Waits scripts before names.now) }
    {
        let mut pending = Vec::with_capacity(alloc, names.len())?;
        for name in names {
            pending.push(Whole::copy_of(alloc, name.as_slice())?)?;
        }
        pending.reverse();
        let known = names_of(alloc, before.as_slice())?;
        Ok(Scripts {
            read: before.into_vec(),
            names: known,
            pending,
        })
    }

    /// The next name that was not read.
    fn next(&mut self) -> Option<Whole>
        ensures some { IfSome result (λ name. (read : List (List ℕ × TreeData)) (names : List (List ℕ)) → Waits self.old read names
            → (others : List (List ℕ)) × (unread read names ≡ name ∷ others) × Waits self.new read others) }
        ensures none { IfNone result ((read : List (List ℕ × TreeData)) (names : List (List ℕ)) → Waits self.old read names → (unread read names ≡ []) × Waits self.new read []) }
        ensures stays { self.new.read ≡ self.old.read }
    {
        'names: while let Some(name) = self.pending.pop() {
            if !self.names.contains(&name) {
                return Some(name);
            }
        }
        None
    }

    /// Adds a script that was read, and the names that it loads.
    fn add(&mut self, alloc: Global, name: Whole, tree: Tree) -> Result<(), Mem>
        ensures { OnOk result ((read : List (List ℕ × TreeData)) (names : List (List ℕ)) → Waits self.old read names
            → Waits self.new (read ++ (name, tree) ∷ []) (loads_of tree ++ names)) }
    {
        let mut loads = loads_of(alloc, &tree)?;
        loads.reverse();
        let bytes = Bytes::copy_of(alloc, name.as_slice())?;
        self.read.push((bytes, tree))?;
        self.pending.append(&mut loads)?;
        self.names.insert(name)?;
        Ok(())
    }
}

/// The names of scripts.
fn names_of(alloc: Global, scripts: &[(Bytes, Tree)]) -> Result<IndexSet<Whole>, Mem>
    ensures { IfOk result (λ names. (name : List ℕ) → contains bytes_eq names name ≡ is_read scripts.now name) }
{
    let mut names = IndexSet::new(alloc);
    for script in scripts {
        names.insert(Whole::copy_of(alloc, script.0.as_slice())?)?;
    }
    Ok(names)
}

/// Reads the scripts of a run behind those that were read before: those of these names in order, each
/// followed by the files that it loads. A file is read once. More than 256 are refused at the next one,
/// before it is asked for; those before don't count.
pub fn load_scripts<S: Shelf>(
    alloc: Global,
    shelf: &mut S,
    before: Sequence<(Bytes, Tree)>,
    names: &[Word],
) -> Result<Found<Sequence<(Bytes, Tree)>>, Stop>
    ensures loaded { IfOk result (λ found. LoadsAll before names.now (S.outside shelf.old) found (S.outside shelf.new)) }
    ensures stopped { IfErr result (λ stop. LoadsPart before names.now (S.outside shelf.old) stop (S.outside shelf.new)) }
{
    let most = before.as_slice().len() + FILES_MAX;
    let mut scripts = Scripts::new(alloc, before, names)?;
    'files: while let Some(name) = scripts.next() {
        if scripts.read.len() == most {
            return Ok(Found::Refused(too_many(name)));
        }
        match read_script(alloc, shelf, name.as_slice())? {
            Found::Accepted(tree) => scripts.add(alloc, name, tree)?,
            Found::Refused(ending) => return Ok(Found::Refused(ending)),
        }
    }
    let Scripts { read, .. } = scripts;
    Ok(Found::Accepted(Sequence::from(read)))
}

/// How a run ends that would read one file too many.
fn too_many(name: Whole) -> Ending
    ensures { result ≡ Ending.ScriptRefused name 0 TooMany }
{
    Ending::ScriptRefused {
        file: Bytes::from(name.into_vec()),
        place: 0,
        kind: ScriptKind::TooMany,
    }
}
