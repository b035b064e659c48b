//! Why a book refused what it was asked to do.

ghost use Rattle.std.specs.Prelude.{◌≡◌};
ghost use Rattle.sf_book.specs.Numbers.{fault_number};
ghost use Rattle.sf_book.specs.declared.fault.Fault.TheVariants.{Memory};

use std::alloc::{AllocError, AllocFailed};
use thiserror::Error;

/// Why a call on a book was refused.
#[derive(Clone, Copy, Debug, PartialEq, Eq, Error)]
pub enum Fault {
    /// What was handed in is of another stack than the book's.
    #[error("another stack than the book's")]
    Foreign,
    /// No piece is outstanding under the id, or one with another name than the work's piece.
    #[error("no such piece is outstanding")]
    Stale,
    /// The budget is spent: as many works are committed as it allows.
    #[error("the budget is spent")]
    Spent,
    /// An allocation was refused, or something that is shared has too many owners.
    #[error("out of memory")]
    Memory,
}

impl Fault {
    /// The number under which the program reports the fault.
    pub fn number(&self) -> u16
        ensures { result ≡ fault_number self.now }
    {
        match self {
            Fault::Foreign => 30,
            Fault::Stale => 31,
            Fault::Spent => 32,
            Fault::Memory => 60,
        }
    }
}

impl From<AllocError> for Fault {
    ghost from_gives = { λ _ e. e ≡ Memory };

    fn from(_e: AllocError) -> Fault {
        Fault::Memory
    }
}

impl<T: Drop> From<AllocFailed<T>> for Fault {
    ghost from_gives = { λ _ e. e ≡ Memory };

    fn from(_e: AllocFailed<T>) -> Fault {
        Fault::Memory
    }
}

impl From<sf_piece::Fault> for Fault {
    ghost from_gives = { λ _ e. e ≡ Memory };

    fn from(_e: sf_piece::Fault) -> Fault {
        Fault::Memory
    }
}
