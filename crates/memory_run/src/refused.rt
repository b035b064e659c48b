//! Calls that answer a fault, and how many there are.

use std::alloc::{AllocError, AllocFailed};

/// A call that answered a fault.
#[derive(Clone, Copy)]
pub struct Refused {
    /// The number of the fault.
    pub number: u16,
}

/// The number of the fault that says that memory is refused.
pub const MEMORY: u16 = 60;

/// How many calls got no memory, and how often something was wrong.
#[derive(Drop)]
pub struct Score {
    /// How many calls got no memory.
    pub refused: u64,
    /// How often a call answered or left something wrong.
    pub wrong: u64,
}

impl Score {
    /// Counts a fault. It has to be refused memory, and what the call was made on has to be as it was (`is_same`).
    pub fn refuse(&mut self, refused: Refused, is_same: bool) {
        self.refused = self.refused.saturating_add(1);
        self.expect(refused.number == MEMORY && is_same);
    }

    /// Counts what has to hold as wrong, where it doesn't hold.
    pub fn expect(&mut self, holds: bool) {
        if !holds {
            self.wrong = self.wrong.saturating_add(1);
        }
    }
}

impl From<AllocError> for Refused {
    fn from(_error: AllocError) -> Refused {
        Refused { number: MEMORY }
    }
}

impl<T: Drop> From<AllocFailed<T>> for Refused {
    fn from(_error: AllocFailed<T>) -> Refused {
        Refused { number: MEMORY }
    }
}

impl From<sf_insn::Fault> for Refused {
    fn from(fault: sf_insn::Fault) -> Refused {
        let number = fault.number();
        Refused { number }
    }
}

impl From<sf_profile::Fault> for Refused {
    fn from(fault: sf_profile::Fault) -> Refused {
        let number = fault.number();
        Refused { number }
    }
}

impl From<sf_names::Fault> for Refused {
    fn from(fault: sf_names::Fault) -> Refused {
        let number = sf_stack::Fault::from(fault).number();
        Refused { number }
    }
}

impl From<sf_check::Fault> for Refused {
    fn from(fault: sf_check::Fault) -> Refused {
        let number = fault.number();
        Refused { number }
    }
}

impl From<sf_sym::Fault> for Refused {
    fn from(fault: sf_sym::Fault) -> Refused {
        let number = fault.number();
        Refused { number }
    }
}

impl From<sf_dom::Fault> for Refused {
    fn from(fault: sf_dom::Fault) -> Refused {
        let number = fault.number();
        Refused { number }
    }
}

impl From<sf_piece::Fault> for Refused {
    fn from(fault: sf_piece::Fault) -> Refused {
        let number = fault.number();
        Refused { number }
    }
}

impl From<sf_book::Fault> for Refused {
    fn from(fault: sf_book::Fault) -> Refused {
        let number = fault.number();
        Refused { number }
    }
}

impl From<sf_ask::Fault> for Refused {
    fn from(fault: sf_ask::Fault) -> Refused {
        let number = fault.number();
        Refused { number }
    }
}

impl From<sf_crew::Fault> for Refused {
    fn from(fault: sf_crew::Fault) -> Refused {
        let number = fault.number();
        Refused { number }
    }
}

impl From<sf_stack::Fault> for Refused {
    fn from(fault: sf_stack::Fault) -> Refused {
        let number = fault.number();
        Refused { number }
    }
}
