ghost use Rattle.std.specs.Prelude.{◌≡◌, Err};
ghost use Rattle.zk_lower.specs.Steps.{Step};
ghost use Rattle.zk_machine.specs.Leads.{Leads};
ghost use Rattle.zk_machine.specs.Running.{Moves, machine_of};
ghost use Rattle.zk_machine.specs.declared.running.Running as running;

use crate::halt::Halt;
use zk_base::Mem;
use zk_tree::Place;
use zk_typed::FaultKind;
use zk_value::Value;

/// How code ends.
#[derive(Debug, Drop)]
pub enum Ending {
    /// With the value that it gives, where it gives one.
    Done(Option<Value>),
    Fault { kind: FaultKind, place: Place },
    /// For want of a unit.
    Spent { place: Place },
}

/// What a step comes to. It is small, since each operation gives one: how the code ends stays with what runs.
#[derive(Clone, Copy, Debug)]
pub enum Next {
    Goes,
    Ends,
}

/// What a step comes to that halts at the statement at a place. It stands out of line, since steps seldom do.
#[inline(never)]
fn halted(halt: Halt, place: Place, ending: &mut Ending) -> Result<Next, Mem>
    ensures { (step : Step) (now : running.Running) → now.ending ≡ ending.new → Moves {A = Unit {0}} place (Err halt) step (machine_of now) → Leads result step now }
{
    match halt {
        Halt::Fault(kind) => {
            *ending = Ending::Fault { kind, place };
            Ok(Next::Ends)
        }
        Halt::Spent => {
            *ending = Ending::Spent { place };
            Ok(Next::Ends)
        }
        Halt::NoMemory => Err(Mem),
    }
}

/// What a step comes to that is of the statement at a place. Where it ends the code, that is noted.
pub fn placed(done: Result<(), Halt>, place: Place, ending: &mut Ending) -> Result<Next, Mem>
    ensures { (step : Step) (now : running.Running) → now.ending ≡ ending.new → Moves place done step (machine_of now) → Leads result step now }
{
    match done {
        Ok(()) => Ok(Next::Goes),
        Err(halt) => halted(halt, place, ending),
    }
}
