ghost use Rattle.std.specs.Prelude.{◌≡◌};
ghost use Rattle.zk_parse.specs.declared.fault.ParseFault.TheVariants as fault;

use thiserror::Error;
use zk_base::Mem;

/// Why tokens were not read as a tree.
#[derive(Clone, Copy, Debug, PartialEq, Eq, Error)]
pub enum ParseFault {
    /// The tokens before the token of this number, from 0, are whole declarations, and no declaration
    /// reads from it.
    #[error("no declaration reads from token {at}")]
    NoTree { at: usize },
    /// Memory ran out.
    #[error("out of memory")]
    NoMemory,
}

impl From<Mem> for ParseFault {
    ghost from_gives = { λ _ e. e ≡ fault.NoMemory };

    fn from(_: Mem) -> ParseFault {
        ParseFault::NoMemory
    }
}
