ghost use Rattle.std.specs.Prelude.{◌≡◌, ◌+◌, ◌<◌, ◌≤◌, ◌==◌, [], ◌∷◌, ◌++◌, if◌then◌else◌, length, vec_len, OnOk, Option, All};
ghost use Rattle.zk_traffic.specs.declared.news.Run.{Run};

use std::alloc::Global;
use std::collections::VecDeque;
use zk_base::{ConnNo, Mem, Side};
use zk_units::Freed;

/// A run of bytes by which a packet moved the front of a side's stream.
#[derive(Clone, Copy, Debug)]
pub struct Fresh<'a> {
    pub conn: ConnNo,
    pub side: Side,
    /// The place of its first byte.
    pub from: u64,
    pub bytes: &'a [u8],
}

/// Gap places that a packet let a front pass.
#[derive(Clone, Copy, Debug, PartialEq, Eq)]
pub struct Gap {
    pub side: Side,
    pub from: u64,
    pub length: u64,
}

/// Where a run of bytes stands: its place in its stream, and where it lies among the bytes that are
/// kept.
#[derive(Clone, Copy, Debug, PartialEq, Eq)]
struct Run {
    conn: ConnNo,
    side: Side,
    from: u64,
    start: usize,
    end: usize,
}

/// What a packet brought the streams of its connection, up to their fronts: runs of bytes, the gaps
/// between them, and the units that they free.
#[derive(Debug, Drop)]
pub struct News {
    bytes: Vec<u8>,
    runs: Vec<Run>,
    pub gaps: Vec<Gap>,
    /// The units that it freed.
    pub units: VecDeque<Freed>,
    ghost within: { All (λ (run : Run). run.end ≤ vec_len bytes) runs.items },
    ghost order: { All (λ (run : Run). run.start ≤ run.end) runs.items },
}

impl News {
    ghost use Rattle.std.specs.Prelude.{slice_get, map};
    ghost use Rattle.std.specs.Option.{option_map};
    ghost use Rattle.zk_traffic.specs.Fresh.{fresh_lent};
    ghost use Rattle.zk_traffic.specs.News.{runs_of};

    /// Nothing yet.
    #[tactic(auto, unfolding(crate::specs::News::runs_of))]
    pub fn new(alloc: Global) -> News
        ensures runs { runs_of result ≡ [] }
        ensures gaps { result.gaps.items ≡ [] }
        ensures units { result.units.items ≡ [] }
    {
        News {
            bytes: Vec::new(alloc),
            runs: Vec::new(alloc),
            gaps: Vec::new(alloc),
            units: VecDeque::new(alloc),
        }
    }

    /// Begins anew, and keeps no bytes.
    #[tactic(auto, unfolding(crate::specs::News::runs_of))]
    pub fn clear(&mut self)
        ensures runs { runs_of self.new ≡ [] }
        ensures gaps { self.new.gaps.items ≡ [] }
        ensures units { self.new.units.items ≡ [] }
        ensures lean { self.new.bytes.items ≡ [] }
    {
        self.runs.clear();
        self.bytes.clear();
        self.gaps.clear();
        self.units.clear();
    }

    /// Adds a run of bytes, if there are any.
    pub fn add_run(&mut self, conn: ConnNo, side: Side, from: u64, bytes: &[u8]) -> Result<(), Mem>
        ensures runs { OnOk result (runs_of self.new ≡ runs_of self.old
            ++ (if length bytes.now == 0 then [] else record { conn = conn; side = side; from = from; bytes = bytes.now } ∷ [])) }
        ensures gaps { self.new.gaps ≡ self.old.gaps }
        ensures units { self.new.units.items ≡ self.old.units.items }
    {
        if bytes.is_empty() {
            return Ok(());
        }
        let start = self.bytes.len();
        self.bytes.extend_from_slice(bytes)?;
        let end = self.bytes.len();
        self.runs.push(Run {
            conn,
            side,
            from,
            start,
            end,
        })?;
        Ok(())
    }

    /// Adds gap places, if there are any.
    #[tactic(auto, unfolding(crate::specs::News::runs_of))]
    pub fn add_gap(&mut self, side: Side, from: u64, length: u64) -> Result<(), Mem>
        ensures gaps { OnOk result (self.new.gaps.items ≡ self.old.gaps.items
            ++ (if length == 0 then [] else record { side = side; from = from; length = length } ∷ [])) }
        ensures runs { runs_of self.new ≡ runs_of self.old }
        ensures units { self.new.units.items ≡ self.old.units.items }
    {
        if length > 0 {
            self.gaps.push(Gap { side, from, length })?;
        }
        Ok(())
    }

    /// The k-th run.
    pub fn run(&self, k: usize) -> Option<Fresh<'_>>
        ensures { option_map fresh_lent result ≡ slice_get (runs_of self.now) k }
    {
        match self.runs.get(k) {
            Some(run) => Some(Fresh {
                conn: run.conn,
                side: run.side,
                from: run.from,
                bytes: &self.bytes[run.start..run.end],
            }),
            None => None,
        }
    }
}
