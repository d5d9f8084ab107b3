ghost use Rattle.std.specs.Prelude.{◌≡◌, ◌∷◌, [], IfOk};
ghost use Rattle.zk_typed.specs.declared.refusal.Refusal.TheVariants as refusal;

use crate::rule::Rule;
use sqlite_items::Items;
use std::alloc::{AllocError, Global};
use zk_base::Mem;
use zk_tree::Place;

/// A rule that is broken, and the place of the construct that breaks it.
#[derive(Clone, Copy, Debug, PartialEq, Eq)]
pub struct Broken {
    pub rule: Rule,
    pub place: Place,
}

/// Why something has no typed form.
#[derive(Debug, Drop)]
pub enum Refusal {
    /// It breaks these rules. There are none where what it rests on is broken elsewhere.
    Broken(Items<Broken>),
    /// Memory ran out.
    NoMemory,
}

impl From<Mem> for Refusal {
    ghost from_gives = { λ _ e. e ≡ refusal.NoMemory };

    fn from(_: Mem) -> Refusal {
        Refusal::NoMemory
    }
}

impl From<AllocError> for Refusal {
    ghost from_gives = { λ _ e. e ≡ refusal.NoMemory };

    fn from(_: AllocError) -> Refusal {
        Refusal::NoMemory
    }
}

/// The list of one broken rule.
pub fn one_broken(alloc: Global, rule: Rule, place: Place) -> Result<Items<Broken>, AllocError>
    ensures { IfOk result (λ rules. rules ≡ record { rule = rule; place = place } ∷ []) }
{
    let mut rules = Items::new(alloc);
    rules.push(Broken { rule, place })?;
    Ok(rules)
}
