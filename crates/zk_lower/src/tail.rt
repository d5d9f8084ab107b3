ghost use Rattle.std.specs.Prelude.{◌≡◌, ◌<◌, ◌-◌, [], ◌∷◌, length, slice_set, OnOk, MatchOption};
ghost use Rattle.zk_lower.specs.Code as plain;
ghost use Rattle.zk_lower.specs.View.{op_of};

use crate::op::Op;
use sqlite_items::Items;
use std::alloc::Global;
use std::marker::Model;
use zk_base::Mem;
use zk_tree::Place;

/// The code behind a place. It grows to the front, so that all places to which a jump may lead are there
/// before the jump. Contracts see its operations from the place on.
#[derive(Debug, Drop)]
pub struct Tail {
    /// The last operation first.
    ops: Items<Op>,
}

impl Model for Tail {
    ghost use Rattle.std.specs.Prelude.{List, map, reverse};
    ghost use Rattle.zk_lower.specs.Code as plain;
    ghost use Rattle.zk_lower.specs.View.{op_of};

    ghost Value = { List plain.Op };

    ghost view = { λ tail. map op_of (reverse tail.ops) };
}

impl Tail {
    /// No operation.
    pub fn new(alloc: Global) -> Tail
        ensures { result ≡ [] }
    {
        Tail {
            ops: Items::new(alloc),
        }
    }

    /// How many operations there are.
    pub fn len(&self) -> usize
        ensures { result ≡ length self.now }
    {
        self.ops.len()
    }

    /// Puts an operation before the others.
    pub fn put(&mut self, op: Op) -> Result<(), Mem>
        ensures { OnOk result (self.new ≡ op_of op ∷ self.old) }
    {
        self.ops.push(op)?;
        Ok(())
    }

    /// Puts a jump to the place behind which so many operations stand.
    pub fn put_jump(&mut self, to: usize) -> Result<(), Mem>
        ensures { OnOk result (self.new ≡ plain.Jump (length self.old - to) ∷ self.old) }
    {
        let over = self.len().saturating_sub(to);
        self.put(Op::Jump { over })
    }

    /// Puts a jump to the place behind which so many operations stand, where a truth value is `F`.
    pub fn put_unless(&mut self, place: Place, to: usize) -> Result<(), Mem>
        ensures { OnOk result (self.new ≡ plain.Unless place (length self.old - to) ∷ self.old) }
    {
        let over = self.len().saturating_sub(to);
        self.put(Op::Unless { place, over })
    }

    /// Replaces the operation behind which so many others stand, where there is one.
    pub fn replace(&mut self, behind: usize, op: Op)
        ensures { behind < length self.old → self.new ≡ slice_set self.old (length self.old - 1 - behind) (op_of op) }
    {
        if behind < self.ops.len() {
            self.ops.set(behind, op);
        }
    }

    /// Takes the first operation off, where there is one.
    pub fn take_first(&mut self) -> Option<Op>
        ensures { MatchOption result (self.old ≡ []) (λ op. self.old ≡ op_of op ∷ self.new) }
    {
        self.ops.pop()
    }
}
