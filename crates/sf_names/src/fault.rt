ghost use Rattle.std.specs.Prelude.{◌≡◌};
ghost use Rattle.sf_names.specs.declared.fault.Fault.TheVariants.{Memory};

use std::alloc::{AllocError, AllocFailed};
use thiserror::Error;

/// Why a file of names is refused.
#[derive(Clone, Copy, Debug, PartialEq, Eq, Error)]
pub enum Fault {
    #[error("no TOML")]
    Syntax,
    /// A key is unknown or missing, a value is of another kind, or a name isn't 1 to 64 letters, digits and `_`; or a
    /// file contradicts the set of another file that it adds to.
    #[error("an unknown key, a missing one, a value of another kind, a wrong name, or another number or name than before")]
    Key,
    /// A file has more than 64 sets, or a set more than 1,024 calls, where several files add to it too.
    #[error("more than 64 sets in a file, or more than 1024 calls in a set")]
    Count,
    /// A number is outside 32 bits.
    #[error("a number outside 32 bits")]
    Range,
    #[error("out of memory")]
    Memory,
}

impl From<AllocError> for Fault {
    ghost from_gives = { λ _ e. e ≡ Memory };

    fn from(_e: AllocError) -> Fault {
        Fault::Memory
    }
}

impl<T: Drop> From<AllocFailed<T>> for Fault {
    ghost from_gives = { λ _ e. e ≡ Memory };

    fn from(_e: AllocFailed<T>) -> Fault {
        Fault::Memory
    }
}
