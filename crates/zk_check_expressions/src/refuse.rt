ghost use Rattle.std.specs.Prelude.{Err};
ghost use Rattle.zk_typed.specs.Checked as checked;
ghost use Rattle.zk_typed.specs.declared.rule.Rule.TheVariants as rule;
ghost use Rattle.zk_typed.specs.Tells.{Tells};
ghost use Rattle.zk_check_expressions.specs.Refusing.{Holds, Hushes, Refuses};

use sqlite_items::Items;
use std::alloc::Global;
use zk_tree::Place;
use zk_typed::{Refusal, Rule, one_broken};

/// A broken rule.
pub fn broken(alloc: Global, rule: Rule, place: Place) -> Refusal
    ensures { Tells {A = Unit {0}} {B = Unit {0}} (λ done. done) (Err result) (checked.broken rule place) }
{
    match one_broken(alloc, rule, place) {
        Ok(rules) => Refusal::Broken(rules),
        Err(_) => Refusal::NoMemory,
    }
}

/// The rules that are told of a part, or else one of the whole: what is broken elsewhere hides none that doesn't rest on it.
#[tactic(auto, using(crate::proofs::Refusals::told_first, crate::proofs::Refusals::told_right))]
pub fn refused<T: Drop>(
    alloc: Global,
    part: Result<T, Refusal>,
    rule: Rule,
    place: Place,
) -> Refusal
    ensures { Refuses rule place part result }
{
    match part {
        Ok(_) => broken(alloc, rule, place),
        Err(Refusal::NoMemory) => Refusal::NoMemory,
        Err(Refusal::Broken(rules)) => {
            if rules.is_empty() {
                broken(alloc, rule, place)
            } else {
                Refusal::Broken(rules)
            }
        }
    }
}

/// A part, where a rule of the whole holds that doesn't rest on what the part is.
pub fn with_rule<T: Drop>(
    alloc: Global,
    part: Result<T, Refusal>,
    holds: bool,
    rule: Rule,
    place: Place,
) -> Result<T, Refusal>
    ensures { Holds holds rule place part result }
{
    if holds {
        part
    } else {
        Err(refused(alloc, part, rule, place))
    }
}

/// The rules that are told of a part, or else that it can't stand where it does.
pub fn wrong<T: Drop>(alloc: Global, part: Result<T, Refusal>, place: Place) -> Refusal
    ensures { Refuses rule.WrongType place part result }
{
    refused(alloc, part, Rule::WrongType, place)
}

/// What is broken in a part, beside what is broken elsewhere.
pub fn unclear<T: Drop>(alloc: Global, part: Result<T, Refusal>) -> Refusal
    ensures { Hushes part result }
{
    match part {
        Ok(_) => Refusal::Broken(Items::new(alloc)),
        Err(refusal) => refusal,
    }
}
