ghost use Rattle.std.specs.Prelude.{◌≡◌};
ghost use Rattle.std.specs.Option.{option_map};
ghost use Rattle.zk_typed.specs.Making as making;
ghost use Rattle.zk_check_expressions.specs.Envs.{call_in};

use zk_check_operators::Typed;
use zk_tree::{Expr, Item, Name, Part};

/// A call.
#[derive(Debug, Drop)]
pub enum Called {
    /// Of what gives a value.
    Gives(Typed),
    /// Of a function that gives none, by its number.
    Performs { function: u32, args: Vec<Typed> },
}

/// The call of a name that stands at the front: the name, the items, and the parts behind them.
pub fn called_name<'a>(
    first: &'a Expr,
    parts: &'a [Part],
) -> Option<(&'a Name, &'a [Item], &'a [Part])>
    ensures { option_map call_in result ≡ making.called_name first.entry.now parts.entry.now }
{
    let (part, others) = parts.split_first()?;
    match (first, part) {
        (Expr::Name { name }, Part::Call { items }) => Some((name, items.as_slice(), others)),
        _ => None,
    }
}
