ghost use Rattle.std.specs.Prelude.{◌≡◌};
ghost use Rattle.sf_rows.specs.Faults.{of_parts, of_store, told_fault};

/// Why no rows are shown.
#[derive(Clone, Copy, Debug, PartialEq, Eq)]
pub enum Fault {
    /// The diagrams would have more nodes than are allowed.
    Nodes,
    /// There would be more rows than are allowed, or a word is tested more often.
    Rows,
    Memory,
}

impl Fault {
    /// The fault with which the program ends. `nodes` is how many nodes the diagrams may have.
    pub fn told(self, nodes: u32) -> sf_stack::Fault
        ensures { result ≡ told_fault self nodes }
    {
        match self {
            Fault::Nodes => sf_stack::Fault::TooLarge { nodes },
            Fault::Rows => sf_stack::Fault::TooManyRows,
            Fault::Memory => sf_stack::Fault::Memory,
        }
    }
}

impl From<sf_diagram::Fault> for Fault {
    ghost from_gives = { λ e f. f ≡ of_store e };

    fn from(e: sf_diagram::Fault) -> Fault {
        match e {
            sf_diagram::Fault::Spent => Fault::Nodes,
            sf_diagram::Fault::Memory => Fault::Memory,
        }
    }
}

impl From<sf_parts::Fault> for Fault {
    ghost from_gives = { λ e f. f ≡ of_parts e };

    fn from(e: sf_parts::Fault) -> Fault {
        match e {
            sf_parts::Fault::Spent => Fault::Rows,
            sf_parts::Fault::Memory => Fault::Memory,
        }
    }
}
