//! The subcommands `check`, `eval` and `profile`, which explore nothing; the files that all subcommands read; whether
//! the words of the command line fit together; and how a fault is reported and explained.
//!
//! Where memory runs out, functions fail with `Memory` or `AllocError`. What they were to add to a text may be there in
//! part: their callers drop it.
#![tactic(auto)]

mod architectures;
mod calls;
mod checking;
mod explaining;
mod fault;
mod files;
mod profiling;
mod telling;
mod words;

pub use checking::{CheckManner, Evaluation, Manner, check, evaluate, print};
pub use explaining::{Cause, Notes};
pub use fault::Fault;
pub use files::{
    FileRead, FileRole, Files, INSTALLED_GROUPS, Identity, MOST_BYTES, Policies, accepted_in,
    all_questions_in, control_in, groups_in, identified, join_documents, read_needed_names,
    read_stack, read_stacks,
};
pub use profiling::profile;
pub use telling::{tell, tell_fault, warn};
pub use words::{
    asked_input, is_given, is_switched_on, known_calls, numbers_fit, tell_wrong_words,
    wants_summary, words_fit_for,
};
