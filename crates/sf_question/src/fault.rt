ghost use Rattle.std.specs.Prelude.{◌≡◌};
ghost use Rattle.sf_question.specs.declared.fault.Fault.TheVariants.{Memory};
ghost use Rattle.sf_question.specs.Numbers.{fault_number};

use std::alloc::{AllocError, AllocFailed};
use thiserror::Error;

/// Why a question was refused.
#[derive(Clone, Copy, Debug, PartialEq, Eq, Error)]
pub enum Fault {
    /// 1 to 64 bytes from 0x21 to 0x7e make a name.
    #[error("the name is not 1 to 64 printable characters")]
    Name,
    #[error("a range has no number")]
    Range,
    #[error("a value has a bit outside its mask")]
    Mask,
    #[error("no action is named")]
    Actions,
    #[error("out of memory")]
    Memory,
}

impl Fault {
    /// The number under which the program reports the fault.
    pub fn number(&self) -> u16
        ensures { result ≡ fault_number self.now }
    {
        match self {
            Fault::Name => 44,
            Fault::Range => 42,
            Fault::Mask => 48,
            Fault::Actions => 43,
            Fault::Memory => 60,
        }
    }
}

impl From<AllocError> for Fault {
    ghost from_gives = { λ _ e. e ≡ Memory };

    fn from(_e: AllocError) -> Fault {
        Fault::Memory
    }
}

impl<T: Drop> From<AllocFailed<T>> for Fault {
    ghost from_gives = { λ _ e. e ≡ Memory };

    fn from(_e: AllocFailed<T>) -> Fault {
        Fault::Memory
    }
}
