use zk_base::{EventNo, HookNo, LogId, RecordNo, Sequence};
use zk_tree::Place;
use zk_typed::script::{Action, Names, Primitive};
use zk_value::Value;

/// An operation. It takes operands off a stack and puts its value there; it holds numbers, values, names
/// and places, and no other operation. A jump goes over so many operations; what leads back takes a unit.
#[derive(Debug, Drop)]
pub enum Op {
    /// A value is pushed.
    Push(Value),
    /// The value of a local or a parameter is pushed.
    Local {
        place: Place,
        number: u32,
    },
    /// The value of a global or a constant is pushed.
    Global {
        place: Place,
        number: u32,
    },
    /// So many operands are taken, and a value is pushed.
    Apply {
        place: Place,
        primitive: Primitive,
        count: usize,
    },
    /// A value is taken for each of the fields of a new record.
    New {
        place: Place,
        record: RecordNo,
        fields: Sequence<u32>,
    },
    /// A value is taken, and then another to which it is added.
    Sum {
        place: Place,
    },
    /// So many operands are taken.
    Do {
        place: Place,
        action: Action,
        count: usize,
    },
    /// A value is taken.
    Drop,
    /// A unit is taken.
    Tick {
        place: Place,
    },
    /// It goes on behind so many operations.
    Jump {
        over: usize,
    },
    /// A truth value is taken: `T` goes on, and `F` jumps.
    Unless {
        place: Place,
        over: usize,
    },
    /// A truth value is taken: `T` begins another turn so many operations before, and `F` goes on.
    Turn {
        place: Place,
        back: usize,
    },
    /// A table is taken, over whose keys a loop begins.
    BeginKeys {
        place: Place,
    },
    /// The next turn so many operations before, or the end of the loop behind the next operation.
    NextKey {
        place: Place,
        names: Names,
        back: usize,
    },
    /// A vector is taken, over whose indexes a loop begins.
    BeginIndexes {
        place: Place,
    },
    /// The next turn so many operations before, or the end of the loop behind the next operation.
    NextIndex {
        place: Place,
        names: Names,
        back: usize,
    },
    /// A loop ends.
    EndLoop,
    /// So many arguments are taken, and the value of a function is pushed.
    Call {
        place: Place,
        function: u32,
        count: usize,
    },
    /// So many arguments are taken by a function whose value is not used.
    Perform {
        place: Place,
        function: u32,
        count: usize,
    },
    /// So many arguments are taken, and whether all bodies of a hook ran is pushed.
    Hook {
        place: Place,
        hook: HookNo,
        count: usize,
    },
    /// A record is taken and written to a log.
    Write {
        place: Place,
        log: LogId,
    },
    /// The end of a body without a value.
    End,
    /// The end of a body with a value, which is taken.
    Give,
    /// The end of a body by a `break`.
    Break,
}
