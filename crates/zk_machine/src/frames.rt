ghost use Rattle.std.specs.Prelude.{◌≡◌};
ghost use Rattle.zk_typed.specs.Meaning.{result_of};
ghost use Rattle.zk_value.specs.Plain.{field_of};
ghost use Rattle.zk_machine.specs.Flows.{flow_of};

use zk_base::LogId;
use zk_lower::BodyCode;
use zk_streams::{Filter, LogStream};
use zk_tree::Place;
use zk_value::{Key, Value};

/// A loop under way.
#[derive(Debug, Drop)]
pub enum Loop {
    /// Over a table, with the keys of its start that are left, the next one last.
    Keys {
        over: Value,
        keys: Vec<Key>,
    },
    /// Over a vector, with the next index and how many are left.
    Indexes {
        over: Value,
        index: u64,
        left: usize,
    },
}

/// What a body waits for.
#[derive(Debug, Drop)]
pub enum Awaits {
    /// The value of a function.
    Result { place: Place },
    /// The end of a function.
    Return,
    /// The bodies of a hook.
    Bodies(Box<Waiting>),
}

/// What waits for the bodies of a hook. It is boxed, so that the frame of a function is small.
#[derive(Debug, Drop)]
pub struct Waiting {
    pub place: Place,
    pub args: Vec<Value>,
    /// The bodies that are left, the next one last.
    pub others: Vec<BodyCode>,
    /// The write that waits for the hook.
    pub write: Option<Write>,
}

/// A write to a log under way: the row, and the stream with its filters as they were at the write.
#[derive(Debug, Drop)]
pub struct Write {
    pub log: LogId,
    pub stream: LogStream,
    pub filters: Vec<Filter>,
    /// The number of the filter that is next, or whose policy runs.
    pub at: usize,
    pub row: Value,
}

/// How a body comes out.
#[derive(Debug, Drop)]
pub enum Flow {
    Normal,
    Broke,
    Returned(Option<Value>),
}

impl Flow {
    /// The value that a function gives, where it gives one.
    pub fn given(self) -> Option<Value>
        ensures { field_of result ≡ result_of (flow_of self) }
    {
        match self {
            Flow::Returned(given) => given,
            Flow::Normal => None,
            Flow::Broke => None,
        }
    }
}

/// A body that waits: where it goes on, its names and its loops, the innermost one last.
#[derive(Debug, Drop)]
pub struct Frame {
    pub back: usize,
    pub locals: Vec<Option<Value>>,
    pub loops: Vec<Loop>,
    pub awaits: Awaits,
}
