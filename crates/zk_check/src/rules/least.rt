ghost use Rattle.std.specs.Prelude.{◌≡◌, Some};
ghost use Rattle.zk_typed.specs.Errors as spec;
ghost use Rattle.zk_check.specs.Faults.{head_of};
ghost use Rattle.zk_check.specs.Sooner.{sooner};

use zk_typed::{Broken, Rule};

/// The number of a rule, by which it is told among others that are broken at its place.
fn rule_number(rule: Rule) -> u8
    ensures { result ≡ spec.rule_number rule }
{
    match rule {
        Rule::Unknown => 1,
        Rule::Twice => 2,
        Rule::WrongType => 3,
        Rule::Field => 4,
        Rule::Recursive => 5,
        Rule::NotConst => 6,
        Rule::FixedGlobal => 7,
        Rule::Arguments => 8,
        Rule::Return => 9,
        Rule::Break => 10,
        Rule::Attribute => 11,
        Rule::Format => 12,
    }
}

/// Whether a broken rule is told before another of the same declaration.
fn is_told_before(a: &Broken, b: &Broken) -> bool
    ensures { result ≡ spec.is_told_before a.now b.now }
{
    a.place.byte < b.place.byte
        || (a.place.byte == b.place.byte && rule_number(a.rule) < rule_number(b.rule))
}

/// The one that is told first of a broken rule and of those behind it.
fn sooner(first: Option<Broken>, one: Broken) -> Broken
    ensures { result ≡ sooner first one }
{
    match first {
        Some(other) => {
            if is_told_before(&other, &one) {
                other
            } else {
                one
            }
        }
        None => one,
    }
}

/// The broken rule that is told first of those of a declaration.
pub fn first_told(rules: &[Broken]) -> Option<Broken>
    ensures { result ≡ head_of (spec.by_place rules.now) }
{
    let mut first = None;
    let mut at = rules.len();
    while at > 0 {
        at -= 1;
        first = Some(sooner(first, rules[at]));
    }
    first
}
