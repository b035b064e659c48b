ghost use Rattle.std.specs.Prelude.{◌≡◌};
ghost use Rattle.sf_stack.specs.declared.fault.Fault.TheVariants.{Memory};
ghost use Rattle.sf_evaluate.specs.declared.fault.Fault.TheVariants.{Other};
ghost use Rattle.sf_evaluate.specs.Faults.{fault_number, of_profile};

use std::alloc::AllocError;
use thiserror::Error;

/// Why the program ends with an error.
#[derive(Clone, Copy, Debug, PartialEq, Eq, Error)]
pub enum Fault {
    /// A profile is refused for this fault, which isn't `Memory`.
    #[error("{0}")]
    Profile(sf_profile::Fault),
    #[error("{0}")]
    Other(sf_stack::Fault),
}

impl Fault {
    /// The number at the head of the fault's text.
    pub fn number(&self) -> u16
        ensures { result ≡ fault_number self.now }
    {
        match self {
            Fault::Profile(refusal) => refusal.number(),
            Fault::Other(fault) => fault.number(),
        }
    }
}

impl From<AllocError> for Fault {
    ghost from_gives = { λ _ e. e ≡ Other Memory };

    fn from(_e: AllocError) -> Fault {
        Fault::Other(sf_stack::Fault::Memory)
    }
}

impl From<sf_stack::Fault> for Fault {
    ghost from_gives = { λ e f. f ≡ Other e };

    fn from(e: sf_stack::Fault) -> Fault {
        Fault::Other(e)
    }
}

impl From<sf_profile::Fault> for Fault {
    ghost from_gives = { λ e f. f ≡ of_profile e };

    /// `Memory` for refused memory; any other fault is that of a profile.
    fn from(e: sf_profile::Fault) -> Fault {
        match e {
            sf_profile::Fault::Memory => Fault::Other(sf_stack::Fault::Memory),
            refusal => Fault::Profile(refusal),
        }
    }
}
