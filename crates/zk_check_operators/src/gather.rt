ghost use Rattle.zk_check_operators.specs.Gather.{Adds, Follows, IsAlong, IsBoth};

use zk_typed::Refusal;

/// What is broken in two parts.
fn joined(first: Refusal, second: Refusal) -> Refusal
    ensures { Follows first second result }
{
    match first {
        Refusal::Broken(mut rules) => match second {
            Refusal::Broken(more) => match rules.append(more) {
                Ok(()) => Refusal::Broken(rules),
                Err(_) => Refusal::NoMemory,
            },
            Refusal::NoMemory => Refusal::NoMemory,
        },
        Refusal::NoMemory => Refusal::NoMemory,
    }
}

/// Two parts of a construct, or all that is broken in either.
pub fn both<A: Drop, B: Drop>(
    first: Result<A, Refusal>,
    second: Result<B, Refusal>,
) -> Result<(A, B), Refusal>
    ensures { IsBoth first second result }
{
    match first {
        Ok(first) => match second {
            Ok(second) => Ok((first, second)),
            Err(refusal) => Err(refusal),
        },
        Err(refusal) => match second {
            Ok(_) => Err(refusal),
            Err(more) => Err(joined(refusal, more)),
        },
    }
}

/// The rules that are broken in one part, and then those of another.
pub fn also(first: Result<(), Refusal>, second: Result<(), Refusal>) -> Result<(), Refusal>
    ensures { Adds first second result }
{
    match both(first, second) {
        Ok(_) => Ok(()),
        Err(refusal) => Err(refusal),
    }
}

/// A part, and what is judged beside it for its own sake: all rules that are broken in either.
pub fn along<A: Drop, B: Drop>(
    part: Result<A, Refusal>,
    other: Result<B, Refusal>,
) -> Result<A, Refusal>
    ensures { IsAlong part other result }
{
    match both(part, other) {
        Ok((part, other)) => {
            drop(other);
            Ok(part)
        }
        Err(refusal) => Err(refusal),
    }
}
