ghost use Rattle.std.specs.Prelude.{◌≡◌};
ghost use Rattle.sf_run.specs.declared.fault.Fault.TheVariants.{Memory};
ghost use Rattle.sf_run.specs.Numbers.{fault_number};

use std::alloc::{AllocError, AllocFailed};
use thiserror::Error;

/// Why a run was not recorded.
#[derive(Clone, Copy, Debug, PartialEq, Eq, Error)]
pub enum Fault {
    #[error("out of memory")]
    Memory,
}

impl Fault {
    /// The number under which `seccomp_audit` reports the fault.
    pub fn number(&self) -> u16
        ensures { result ≡ fault_number self.now }
    {
        match self {
            Fault::Memory => 60,
        }
    }
}

impl From<AllocError> for Fault {
    ghost from_gives = { λ _ e. e ≡ Memory };

    fn from(_e: AllocError) -> Fault {
        Fault::Memory
    }
}

impl<T: Drop> From<AllocFailed<T>> for Fault {
    ghost from_gives = { λ _ e. e ≡ Memory };

    fn from(_e: AllocFailed<T>) -> Fault {
        Fault::Memory
    }
}
