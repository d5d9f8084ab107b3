ghost use Rattle.std.specs.Prelude.{◌≡◌};
ghost use Rattle.zk_check_operators.specs.Gathering.{IsNext};

use zk_typed::Refusal;

/// Parts of a construct that were checked, and one more; or all that is broken in them.
pub fn with_part<T: Drop>(
    all: Result<Vec<T>, Refusal>,
    part: Result<T, Refusal>,
) -> Result<Vec<T>, Refusal>
    ensures { IsNext all part result }
{
    match all {
        Ok(mut made) => match part {
            Ok(one) => match made.push(one) {
                Ok(()) => Ok(made),
                Err(_) => Err(Refusal::NoMemory),
            },
            Err(refusal) => Err(refusal),
        },
        Err(Refusal::Broken(mut rules)) => match part {
            Ok(_) => Err(Refusal::Broken(rules)),
            Err(Refusal::Broken(more)) => match rules.append(more) {
                Ok(()) => Err(Refusal::Broken(rules)),
                Err(_) => Err(Refusal::NoMemory),
            },
            Err(Refusal::NoMemory) => Err(Refusal::NoMemory),
        },
        Err(Refusal::NoMemory) => Err(Refusal::NoMemory),
    }
}
