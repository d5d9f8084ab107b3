ghost use Rattle.std.specs.Prelude.{◌≡◌, ◌++◌, List, ℕ, Some, [], IfOk, OnOk, if◌then◌else◌};
ghost use Rattle.std.specs.List.{list_all};
ghost use Rattle.std.specs.Str.{bytes_eq};
ghost use Rattle.zk_typed.specs.Errors as spec;
ghost use Rattle.zk_scope.specs.Leaves.{leaf_of, leaves_lent};
ghost use Rattle.zk_check_declarations.specs.Paths.{HasPaths, agreeing, joined, same_column, use_of, uses_lent, writing_at};

use indexmap::IndexMap;
use std::alloc::Global;
use zk_base::Mem;
use zk_scope::{Leaf, Whole};

/// A path, and the columns of a stream or filter that writes to it.
#[derive(Debug, Drop)]
pub struct PathUse {
    pub path: Vec<u8>,
    pub columns: Vec<Leaf>,
}

/// What writes to a path.
#[derive(Debug, Drop)]
struct Writers {
    /// The columns that were first.
    columns: Vec<Leaf>,
    /// Whether there are others too.
    mixed: bool,
}

/// The paths that streams and filters write to.
#[derive(Drop)]
pub struct Paths {
    writers: IndexMap<Whole, Writers>,
}

/// Whether two columns are the same.
fn same_column(a: &Leaf, b: &Leaf) -> bool
    ensures { result ≡ same_column (leaf_of a.now) (leaf_of b.now) }
{
    let same_wire = if a.wire { b.wire } else { !b.wire };
    a.name.as_slice() == b.name.as_slice() && a.kind.as_slice() == b.kind.as_slice() && same_wire
}

/// Whether columns are the same, one by one.
fn same_columns(a: &[Leaf], b: &[Leaf]) -> bool
    ensures { result ≡ spec.same_columns (leaves_lent a.now) (leaves_lent b.now) }
{
    let mut others = b;
    for one in a {
        match others.split_first() {
            None => return false,
            Some((first, rest)) => {
                if !same_column(one, first) {
                    return false;
                }
                others = rest;
            }
        }
    }
    others.is_empty()
}

/// A copy of a column.
pub fn copied_leaf(alloc: Global, one: &Leaf) -> Result<Leaf, Mem>
    ensures { IfOk result (λ copy. leaf_of copy ≡ leaf_of one.now) }
{
    Ok(Leaf {
        name: Vec::from_slice(alloc, &one.name)?,
        kind: Vec::from_slice(alloc, &one.kind)?,
        wire: one.wire,
        log: one.log,
    })
}

/// A copy of columns.
fn copied_leaves(alloc: Global, ones: &[Leaf]) -> Result<Vec<Leaf>, Mem>
    ensures { IfOk result (λ copies. leaves_lent copies.items ≡ leaves_lent ones.now) }
{
    let mut copies = Vec::new(alloc);
    for one in ones {
        let copy = copied_leaf(alloc, one)?;
        copies.push(copy)?;
    }
    Ok(copies)
}

impl Paths {
    /// No paths.
    pub fn new(alloc: Global) -> Paths
        ensures { HasPaths result [] }
    {
        Paths {
            writers: IndexMap::new(alloc),
        }
    }

    /// Whether all columns at a path are those of a stream or filter.
    fn agrees(&self, alloc: Global, one: &PathUse) -> Result<bool, Mem>
        ensures { IfOk result (λ agreed. agreed ≡ agreeing (writing_at self.now one.now.path.items) (leaves_lent one.now.columns.items)) }
    {
        let path = Whole::copy_of(alloc, &one.path)?;
        match self.writers.get(&path) {
            Some(writers) => Ok(!writers.mixed && same_columns(&writers.columns, &one.columns)),
            None => Ok(true),
        }
    }

    /// Adds a stream or filter.
    fn add(&mut self, alloc: Global, one: &PathUse) -> Result<(), Mem>
        ensures { OnOk result ((path : List ℕ) → writing_at self.new path ≡ (if bytes_eq one.now.path.items path then Some (joined (writing_at self.old one.now.path.items) (leaves_lent one.now.columns.items)) else writing_at self.old path)) }
    {
        let path = Whole::copy_of(alloc, &one.path)?;
        if let Some(writers) = self.writers.get_mut(&path) {
            let same = same_columns(&writers.columns, &one.columns);
            writers.mixed = writers.mixed || !same;
            return Ok(());
        }
        let writers = Writers {
            columns: copied_leaves(alloc, &one.columns)?,
            mixed: false,
        };
        self.writers.insert(path, writers)?;
        Ok(())
    }

    /// Whether streams and filters have the columns that stand at their paths.
    fn all_agree(&self, alloc: Global, uses: &[PathUse]) -> Result<bool, Mem>
        ensures { IfOk result (λ agreed. (before : List spec.PathUse) → HasPaths self.now before → agreed ≡ list_all (spec.agrees before) (uses_lent uses.now)) }
    {
        for one in uses {
            let agreed = self.agrees(alloc, one)?;
            if !agreed {
                return Ok(false);
            }
        }
        Ok(true)
    }

    /// Adds streams and filters.
    fn add_all(&mut self, alloc: Global, uses: &[PathUse]) -> Result<(), Mem>
        ensures { OnOk result ((before : List spec.PathUse) → HasPaths self.old before → HasPaths self.new (before ++ uses_lent uses.now)) }
    {
        for one in uses {
            self.add(alloc, one)?;
        }
        Ok(())
    }

    /// Adds streams and filters, and says whether they have the columns that stood at their paths.
    pub fn meet(&mut self, alloc: Global, uses: &[PathUse]) -> Result<bool, Mem>
        ensures agreed { IfOk result (λ agreed. (before : List spec.PathUse) → HasPaths self.old before → agreed ≡ list_all (spec.agrees before) (uses_lent uses.now)) }
        ensures met { OnOk result ((before : List spec.PathUse) → HasPaths self.old before → HasPaths self.new (before ++ uses_lent uses.now)) }
    {
        let agreed = self.all_agree(alloc, uses)?;
        self.add_all(alloc, uses)?;
        Ok(agreed)
    }
}
