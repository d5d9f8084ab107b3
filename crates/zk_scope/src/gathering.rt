ghost use Rattle.zk_scope.specs.Gathering.{Appends};

use zk_base::Sequence;
use zk_typed::Refusal;

/// Values with one more at their end.
fn pushed<T: Drop>(all: Sequence<T>, one: T) -> Result<Sequence<T>, Refusal>
    ensures { Appends (Ok all) (Ok one) result }
{
    let mut all = all.into_vec();
    match all.push(one) {
        Ok(()) => Ok(Sequence::from(all)),
        Err(_) => Err(Refusal::NoMemory),
    }
}

/// What was checked so far with one more part, or all that is broken in either.
pub fn appended<T: Drop>(
    all: Result<Sequence<T>, Refusal>,
    one: Result<T, Refusal>,
) -> Result<Sequence<T>, Refusal>
    ensures { Appends all one result }
{
    match all {
        Ok(all) => match one {
            Ok(one) => pushed(all, one),
            Err(refusal) => Err(refusal),
        },
        Err(Refusal::Broken(mut rules)) => match one {
            Ok(_) => Err(Refusal::Broken(rules)),
            Err(Refusal::Broken(more)) => match rules.append(more) {
                Ok(()) => Err(Refusal::Broken(rules)),
                Err(_) => Err(Refusal::NoMemory),
            },
            Err(Refusal::NoMemory) => Err(Refusal::NoMemory),
        },
        Err(Refusal::NoMemory) => Err(Refusal::NoMemory),
    }
}
