ghost use Rattle.std.specs.Prelude.{◌≡◌};
ghost use Rattle.zk_parse_core.specs.declared.fault.FormFault.TheVariants as form;

use std::alloc::AllocError;
use thiserror::Error;
use zk_base::Mem;

/// Why a form was not read from the front of tokens.
#[derive(Clone, Copy, Debug, PartialEq, Eq, Error)]
pub enum FormFault {
    /// The tokens don't begin with it.
    #[error("the tokens don't begin with this form")]
    NoForm,
    /// Memory ran out.
    #[error("out of memory")]
    NoMemory,
}

impl From<Mem> for FormFault {
    ghost from_gives = { λ _ e. e ≡ form.NoMemory };

    fn from(_: Mem) -> FormFault {
        FormFault::NoMemory
    }
}

impl From<AllocError> for FormFault {
    ghost from_gives = { λ _ e. e ≡ form.NoMemory };

    fn from(_: AllocError) -> FormFault {
        FormFault::NoMemory
    }
}
