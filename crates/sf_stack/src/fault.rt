//! Why a policy, a filter, a file of names, an input or a report was refused.

ghost use Rattle.std.specs.Prelude.{◌≡◌};
ghost use Rattle.sf_stack.specs.declared.fault.Fault.TheVariants.{Memory};
ghost use Rattle.sf_stack.specs.Faults.{fault_number, of_diagrams};

use std::alloc::{AllocError, AllocFailed};
use thiserror::Error;

/// Why something was refused. Filters and questions are numbered from 1 in the order in which they were given,
/// instructions from 0. The text of a fault is its number, the name of that number, and its place, where it has one.
#[derive(Clone, Copy, Debug, PartialEq, Eq, Error)]
pub enum Fault {
    #[error("10 Ragged filter {filter}")]
    Ragged { filter: usize },
    #[error("11 Empty filter {filter}")]
    Empty { filter: usize },
    #[error("12 TooLong filter {filter}")]
    TooLong { filter: usize },
    #[error("20 Code filter {filter} instruction {instruction}")]
    Code { filter: usize, instruction: usize },
    /// Its k is no word of the input, no scratch word, a divisor of 0, or a shift of 32 or more.
    #[error("21 Field filter {filter} instruction {instruction}")]
    Field { filter: usize, instruction: usize },
    /// A jump or a test leads outside the filter.
    #[error("22 Jump filter {filter} instruction {instruction}")]
    Jump { filter: usize, instruction: usize },
    #[error("23 Last filter {filter}")]
    Last { filter: usize },
    /// Some path from the start to this load has not stored the scratch word.
    #[error("24 Scratch filter {filter} instruction {instruction}")]
    Scratch { filter: usize, instruction: usize },
    #[error("25 NoFilter")]
    NoFilter,
    #[error("26 TooMany")]
    TooMany,
    /// The path counts the instructions of all filters, and 4 more for each but the newest; 32768 are allowed.
    #[error("27 PathLength")]
    PathLength,
    /// The diagrams would have more nodes than this. The text has no number, since nothing that was given is wrong.
    #[error("too large: more than {nodes} nodes; --nodes takes more")]
    TooLarge { nodes: u32 },
    /// There would be more than 65,536 rows, or more tests of one word on all ways through it. The text has no number.
    #[error("too large: more than 65536 rows, or more than 65536 tests of one word")]
    TooManyRows,
    #[error("40 Version")]
    Version,
    /// The policy has an unknown key at its top, or its questions aren't an array of tables.
    #[error("41 Key")]
    TopKey,
    /// A question, or the table of a word in it, has an unknown key or lacks one, or a value is of a wrong kind.
    #[error("41 Key question {question}")]
    Key { question: usize },
    /// A number of a word is outside 32 bits, or the low end of a range is above its high end.
    #[error("42 Range question {question}")]
    Range { question: usize },
    /// The array at `actions` names no action, or an unknown one.
    #[error("43 Actions question {question}")]
    Actions { question: usize },
    /// The name isn't 1 to 64 bytes from 0x21 to 0x7e.
    #[error("44 Name question {question}")]
    Name { question: usize },
    /// There is no question, or more than 256.
    #[error("45 Count")]
    Count,
    /// The policy or a file of names is no UTF-8 or no TOML, or the file of questions that may be allowed is no UTF-8.
    #[error("46 Syntax")]
    Syntax,
    /// The input isn't 128 hexadecimal digits, or a number of a call has too many bits or another form.
    #[error("47 Input")]
    Input,
    /// A value has a bit outside its mask.
    #[error("48 Mask question {question}")]
    Mask { question: usize },
    /// A file of names has a wrong key, value or name, or contradicts an earlier file to whose set it adds.
    #[error("41 Key")]
    NamesKey,
    /// A file of names has more than 64 sets, or a set more than 1,024 calls, where several files add to it too.
    #[error("45 Count")]
    NamesCount,
    #[error("42 Range")]
    NamesRange,
    /// A set of calls is named that no file of names has, or a call that isn't in the set named with it, or in any set.
    #[error("44 Name")]
    UnknownName,
    /// The file of questions that may be allowed has a line, numbered from 1, with a word that isn't the name of
    /// exactly one question, or with more than one word.
    #[error("44 Name line {line}")]
    Accepted { line: usize },
    /// A file can't be read, or has more than 1 MiB.
    #[error("50 Read")]
    Read,
    #[error("51 Write")]
    Write,
    #[error("60 Memory")]
    Memory,
}

impl Fault {
    /// The number of the fault, at the head of the text of all but `TooLarge` and `TooManyRows`.
    pub fn number(&self) -> u16
        ensures { result ≡ fault_number self.now }
    {
        match self {
            Fault::Ragged { .. } => 10,
            Fault::Empty { .. } => 11,
            Fault::TooLong { .. } => 12,
            Fault::Code { .. } => 20,
            Fault::Field { .. } => 21,
            Fault::Jump { .. } => 22,
            Fault::Last { .. } => 23,
            Fault::Scratch { .. } => 24,
            Fault::NoFilter => 25,
            Fault::TooMany => 26,
            Fault::PathLength => 27,
            Fault::TooLarge { .. } | Fault::TooManyRows => 32,
            Fault::Version => 40,
            Fault::TopKey | Fault::Key { .. } | Fault::NamesKey => 41,
            Fault::Range { .. } | Fault::NamesRange => 42,
            Fault::Actions { .. } => 43,
            Fault::Name { .. } | Fault::UnknownName | Fault::Accepted { .. } => 44,
            Fault::Count | Fault::NamesCount => 45,
            Fault::Syntax => 46,
            Fault::Input => 47,
            Fault::Mask { .. } => 48,
            Fault::Read => 50,
            Fault::Write => 51,
            Fault::Memory => 60,
        }
    }

    /// The fault where a store of diagrams, which may have `nodes` nodes, has this one.
    pub fn of_diagrams(fault: sf_diagram::Fault, nodes: u32) -> Fault
        ensures { result ≡ of_diagrams fault nodes }
    {
        match fault {
            sf_diagram::Fault::Spent => Fault::TooLarge { nodes },
            sf_diagram::Fault::Memory => Fault::Memory,
        }
    }
}

impl From<AllocError> for Fault {
    ghost from_gives = { λ _ e. e ≡ Memory };

    fn from(_e: AllocError) -> Fault {
        Fault::Memory
    }
}

impl<T: Drop> From<AllocFailed<T>> for Fault {
    ghost from_gives = { λ _ e. e ≡ Memory };

    fn from(_e: AllocFailed<T>) -> Fault {
        Fault::Memory
    }
}

impl From<sf_run::Fault> for Fault {
    ghost from_gives = { λ _ e. e ≡ Memory };

    fn from(_e: sf_run::Fault) -> Fault {
        Fault::Memory
    }
}

impl From<sf_names::Fault> for Fault {
    ghost use Rattle.sf_stack.specs.Faults.{of_names};

    ghost from_gives = { λ e f. f ≡ of_names e };

    /// The same fault; `Key`, `Count` and `Range` mean policies here, so they become `NamesKey` and so on.
    fn from(e: sf_names::Fault) -> Fault {
        match e {
            sf_names::Fault::Syntax => Fault::Syntax,
            sf_names::Fault::Key => Fault::NamesKey,
            sf_names::Fault::Count => Fault::NamesCount,
            sf_names::Fault::Range => Fault::NamesRange,
            sf_names::Fault::Memory => Fault::Memory,
        }
    }
}
