//! Verdicts on regions, and replies to questions.

use sf_insn::Input;

/// The verdict on a settled region, for one question.
#[derive(Clone, Copy, Debug, PartialEq, Eq)]
pub enum Verdict {
    /// No member of the region breaks the question.
    Clear,
    /// This member breaks it.
    Hit(Input),
    /// The one input that was tried is no member of the region. Whether a member breaks the question isn't known.
    Doubt,
}

/// The reply to a question about a stack.
#[derive(Clone, Copy, Debug, PartialEq, Eq)]
pub enum Reply {
    /// No input breaks the question.
    Never,
    /// This input breaks it.
    Allowed(Input),
    /// Nothing was found, but a piece is outstanding or a region is in doubt.
    Unsettled,
}
