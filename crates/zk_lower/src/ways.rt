ghost use Rattle.std.specs.Prelude.{◌≡◌};
ghost use Rattle.zk_lower.specs.View.{op_of, begin_of, next_of};

use crate::op::Op;
use zk_tree::Place;
use zk_typed::script::Names;

/// Where `break` and `next` lead: how many operations stand behind their places.
#[derive(Clone, Copy, Debug, PartialEq, Eq)]
pub struct Ways {
    pub break_at: usize,
    pub next_at: usize,
}

/// What a `for` goes over.
#[derive(Clone, Copy, Debug, PartialEq, Eq)]
pub enum Walk {
    /// The keys of a table or a set.
    Keys,
    /// The indexes of a vector.
    Indexes,
}

impl Walk {
    /// The operation with which the loop begins.
    pub fn begin(self, place: Place) -> Op
        ensures { op_of result ≡ begin_of self place }
    {
        match self {
            Walk::Keys => Op::BeginKeys { place },
            Walk::Indexes => Op::BeginIndexes { place },
        }
    }

    /// The operation with which a turn begins.
    pub fn next(self, place: Place, names: Names, back: usize) -> Op
        ensures { op_of result ≡ next_of self place names back }
    {
        match self {
            Walk::Keys => Op::NextKey { place, names, back },
            Walk::Indexes => Op::NextIndex { place, names, back },
        }
    }
}
