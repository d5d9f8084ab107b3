ghost use Rattle.std.specs.Prelude.{◌≡◌, [], ◌++◌, length, map, OnOk};
ghost use Rattle.zk_lower.specs.View.{op_of};

use crate::op::Op;
use crate::tail::Tail;
use std::alloc::Global;
use std::marker::Model;
use zk_base::{Mem, Sequence};

/// Code to whose end bodies are put. Contracts see its operations.
#[derive(Debug, Drop)]
pub struct Ops {
    list: Vec<Op>,
}

impl Model for Ops {
    ghost use Rattle.std.specs.Prelude.{List, map};
    ghost use Rattle.zk_lower.specs.Code as plain;
    ghost use Rattle.zk_lower.specs.View.{op_of};

    ghost Value = { List plain.Op };

    ghost view = { λ ops. map op_of ops.list.items };
}

impl Ops {
    /// No operation.
    pub fn new(alloc: Global) -> Ops
        ensures { result ≡ [] }
    {
        Ops {
            list: Vec::new(alloc),
        }
    }

    /// How many operations there are.
    pub fn len(&self) -> usize
        ensures { result ≡ length self.now }
    {
        self.list.len()
    }

    /// Puts operations behind the others.
    pub fn append(&mut self, tail: Tail) -> Result<(), Mem>
        ensures { OnOk result (self.new ≡ self.old ++ tail) }
    {
        append(&mut self.list, tail)
    }

    /// All of them.
    pub fn into_sequence(self) -> Sequence<Op>
        ensures { map op_of result ≡ self }
    {
        let Ops { list } = self;
        Sequence::from(list)
    }
}

/// Puts operations behind those of a list.
fn append(list: &mut Vec<Op>, mut tail: Tail) -> Result<(), Mem>
    ensures { OnOk result (map op_of list.new.items ≡ map op_of list.old.items ++ tail) }
{
    while let Some(op) = tail.take_first() {
        list.push(op)?;
    }
    Ok(())
}
