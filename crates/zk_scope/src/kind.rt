ghost use Rattle.std.specs.Prelude.{◌≡◌};
ghost use Rattle.zk_scope.specs.Kinds.{is_of};
ghost use Rattle.zk_scope.specs.Lent.{declared_of};

use crate::declared::{Declared, Meant};

/// The number of the enum that names logs.
const LOG_ID: u32 = 1;

/// A kind of names whose members have numbers of their own.
#[derive(Clone, Copy, PartialEq, Eq)]
pub enum Kind {
    /// A global or a constant.
    Variable,
    Event,
    Hook,
    Function,
    /// A word of `Log::ID`, which names a log.
    LogWord,
}

impl Kind {
    /// Whether a name is of the kind.
    pub fn is_of(self, one: &Declared<'_>) -> bool
        ensures { result ≡ is_of self (declared_of one.now) }
    {
        match self {
            Kind::Variable => matches!(&one.meant, Meant::Variable { .. }),
            Kind::Event => matches!(&one.meant, Meant::Event { .. }),
            Kind::Hook => matches!(&one.meant, Meant::Hook { .. }),
            Kind::Function => matches!(&one.meant, Meant::Function { .. }),
            Kind::LogWord => match &one.meant {
                Meant::Word { number } => *number == LOG_ID,
                _ => false,
            },
        }
    }
}
