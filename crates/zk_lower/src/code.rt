ghost use Rattle.std.specs.Prelude.{◌≡◌, ◌≤◌, ◌^◌, map, IfSome, IfNone};
ghost use Rattle.zk_typed.specs.View.{record_of};
ghost use Rattle.zk_lower.specs.Leaves.{leaves_in, leaves_of};

use crate::leaves::Leaf;
use crate::op::Op;
use zk_base::{Bytes, EventNo, LogId, Sequence};
use zk_tree::{Expiry, Place};
use zk_typed::script::{Log, RecordType};

/// The number of what stands at a place of a list: none past the numbers of 32 bits.
pub fn number_at(index: usize) -> Option<u32>
    ensures some { IfSome result (λ number. number ≡ index) }
    ensures none { IfNone result (2 ^ 32 ≤ index) }
{
    u32::try_from(index).ok()
}

/// Where a body begins, and how many parameters and locals it has.
#[derive(Clone, Copy, Debug)]
pub struct BodyCode {
    /// The number of its first operation.
    pub entry: usize,
    pub locals: u32,
}

/// The code of a handler.
#[derive(Clone, Copy, Debug)]
pub struct HandlerCode {
    pub event: EventNo,
    pub priority: i64,
    pub body: BodyCode,
}

/// The code of a global or a constant.
#[derive(Clone, Copy, Debug)]
pub struct GlobalCode {
    /// Of its declaration.
    pub place: Place,
    /// The number of the operation with which its initial value begins, where it has one.
    pub initial: Option<usize>,
    /// When its entries expire, where they do.
    pub expiry: Option<Expiry>,
    /// The function that is called before an entry expires.
    pub expire_func: Option<u32>,
}

/// The code of a program: one list of operations, and where its bodies begin. Its files, record types, words
/// of `Log::ID`, globals, functions, hooks and handlers stand in load order, and the bodies of a hook in the
/// order in which they run.
#[derive(Debug, Drop)]
pub struct Code {
    /// The names of the files.
    pub files: Sequence<Bytes>,
    pub records: Sequence<RecordType>,
    pub logs: Sequence<Log>,
    /// What the stream of each of these logs has as columns. They are made once, since each row has them.
    pub leaves: Vec<Vec<Leaf>>,
    pub ops: Sequence<Op>,
    pub globals: Sequence<GlobalCode>,
    pub functions: Sequence<BodyCode>,
    pub hooks: Sequence<Sequence<BodyCode>>,
    pub handlers: Sequence<HandlerCode>,
    ghost by_log: { map leaves_in leaves.items ≡ map (leaves_of (map record_of records)) logs },
}

impl Code {
    ghost use Rattle.zk_typed.specs.Logs.{log_leaves};
    ghost use Rattle.zk_lower.specs.Code.{types_in};
    ghost use Rattle.zk_lower.specs.Leaves.{leaf_of};
    ghost use Rattle.zk_lower.specs.View.{code_of};

    /// What the stream of a log has as columns, and the fields from which they are filled.
    pub fn leaves_of(&self, log: LogId) -> &[Leaf]
        ensures { map leaf_of result.now ≡ log_leaves (types_in (code_of self.now)) log }
    {
        match self.leaves.get(log.0 as usize) {
            Some(leaves) => leaves,
            None => &[],
        }
    }
}
