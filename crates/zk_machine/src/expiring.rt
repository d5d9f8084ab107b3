ghost use Rattle.std.specs.Prelude.{◌≡◌, IfOk, IfSome};
ghost use Rattle.std.specs.Option.{option_map};
ghost use Rattle.zk_lower.specs.Meant as meant;
ghost use Rattle.zk_lower.specs.View as lower;
ghost use Rattle.zk_tree.specs.declared.place.Place.{Place as At};
ghost use Rattle.zk_typed.specs.Running.{wait_of};
ghost use Rattle.zk_typed.specs.State as typed;
ghost use Rattle.zk_value.specs.Plain.{key_of};
ghost use Rattle.zk_machine.specs.Expiring.{interval_in, span_ran};
ghost use Rattle.zk_machine.specs.Leads.{ran_of};
ghost use Rattle.zk_machine.specs.State.{state_of, world_of};

use crate::calls::function_in;
use crate::ends::Ending;
use crate::running::Running;
use zk_base::{Mem, Span};
use zk_lower::{BodyCode, Code};
use zk_tree::Place;
use zk_typed::FaultKind;
use zk_value::Value;

/// How an expiry function ends, and the interval that it gives where it runs to its end.
#[derive(Debug, Drop)]
pub struct Expiring {
    pub ending: Ending,
    pub wait: Span,
}

/// No interval.
const NONE: Span = Span(0);

/// What an expiry function of a place comes to that ends so.
fn interval_given(place: Place, ending: Ending) -> Expiring
    ensures ran { (state : typed.State) → span_ran result state ≡ interval_in place (ran_of ending state) }
    ensures wait { (state : typed.State) → result.wait ≡ wait_of (span_ran result state) }
{
    let unset = Ending::Fault {
        kind: FaultKind::Unset,
        place,
    };
    match ending {
        Ending::Done(Some(Value::Interval(wait))) => Expiring {
            ending: Ending::Done(None),
            wait,
        },
        Ending::Done(_) => Expiring {
            ending: unset,
            wait: NONE,
        },
        Ending::Fault { kind, place } => Expiring {
            ending: Ending::Fault { kind, place },
            wait: NONE,
        },
        Ending::Spent { place } => Expiring {
            ending: Ending::Spent { place },
            wait: NONE,
        },
    }
}

impl Running {
    /// Runs an expiry function of a place, where the code has it.
    fn run_found(
        &mut self,
        code: &Code,
        place: Place,
        found: Option<BodyCode>,
        args: &[Value],
        budget: u64,
    ) -> Result<Ending, Mem>
        ensures { IfOk result (λ ending. meant.run_found (lower.code_of code.now) place (key_of args.now) (world_of self.old.state.world) budget (option_map lower.body_of found) ≡ ran_of ending (state_of self.new.state)) }
    {
        match found {
            Some(body) => self.run_body(code, body, args, budget),
            None => {
                self.state.units = budget;
                Ok(Ending::Fault {
                    kind: FaultKind::Unset,
                    place,
                })
            }
        }
    }

    /// Asks the expiry function of a global, where it has one, how much longer an entry stays.
    pub fn run_expiry(
        &mut self,
        code: &Code,
        place: Place,
        function: Option<u32>,
        args: &[Value],
        budget: u64,
    ) -> Result<Expiring, Mem>
        ensures wait { IfOk result (λ expiring. (state : typed.State) → expiring.wait ≡ wait_of (span_ran expiring state)) }
        ensures ran { IfOk result (λ expiring. meant.without_names (meant.run_expiry (lower.code_of code.now) place (key_of args.now) (world_of self.old.state.world) budget function) ≡ meant.without_names (span_ran expiring (state_of self.new.state))) }
    {
        match function {
            Some(function) => {
                let found = function_in(code, function);
                let ending = self.run_found(code, place, found, args, budget)?;
                Ok(interval_given(place, ending))
            }
            None => {
                self.state.units = budget;
                Ok(Expiring {
                    ending: Ending::Done(None),
                    wait: NONE,
                })
            }
        }
    }

    /// Asks the expiry function of a global, where the code has that.
    pub fn expiry_of(
        &mut self,
        code: &Code,
        number: u32,
        args: &[Value],
        budget: u64,
    ) -> Result<Option<Expiring>, Mem>
        ensures wait { IfOk result (λ found. IfSome found (λ expiring. (state : typed.State) → expiring.wait ≡ wait_of (span_ran expiring state))) }
        ensures ran { IfOk result (λ found. meant.expiry_run (lower.code_of code.now) number (key_of args.now) (world_of self.old.state.world) budget ≡ option_map (λ one. meant.without_names (span_ran one (state_of self.new.state))) found) }
    {
        let global = match code.globals.as_slice().get(number as usize) {
            Some(global) => *global,
            None => return Ok(None),
        };
        let expiring = self.run_expiry(code, global.place, global.expire_func, args, budget)?;
        Ok(Some(expiring))
    }
}
