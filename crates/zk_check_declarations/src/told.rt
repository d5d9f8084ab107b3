ghost use Rattle.std.specs.Prelude.{◌≡◌};
ghost use Rattle.zk_typed.specs.Checked as checked;
ghost use Rattle.zk_typed.specs.Tells.{Tells};
ghost use Rattle.zk_check_declarations.specs.Telling.{dropped};

use std::alloc::Global;
use zk_tree::Place;
use zk_typed::{Refusal, Rule, one_broken};

/// A rule that is broken at a place unless something holds.
pub fn require(alloc: Global, holds: bool, rule: Rule, place: Place) -> Result<(), Refusal>
    ensures { Tells (λ done. done) result (checked.require holds rule place) }
{
    if holds {
        Ok(())
    } else {
        Err(Refusal::Broken(one_broken(alloc, rule, place)?))
    }
}

/// The rules that are broken in a part, without what it is.
pub fn dropped<T: Drop>(one: Result<T, Refusal>) -> Result<(), Refusal>
    ensures { result ≡ dropped one }
{
    match one {
        Ok(_) => Ok(()),
        Err(refusal) => Err(refusal),
    }
}
