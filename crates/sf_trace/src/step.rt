//! What a filter meets on its way, as texts and documents show it.

ghost use Rattle.std.specs.Prelude.{◌≡◌, ◌==◌};
ghost use Rattle.sf_trace.specs.Traces.{is_false, sign_text, step_of};

use sf_insn::Test;
use sf_run::{Meeting, Met};

/// A number that an instruction meets, and what becomes of it.
#[derive(Clone, Copy)]
pub(crate) struct Step {
    /// The place of the word of the input, 0 to 15, that the number is known to be.
    pub(crate) word: Option<u8>,
    pub(crate) value: u32,
    /// How it is compared, with which other number, and whether that is true; `None` where it is returned.
    pub(crate) compared: Option<(Test, u32, bool)>,
}

/// A division by X compares X with 0.
pub(crate) fn step_of(meeting: Meeting) -> Step
    ensures { result ≡ step_of meeting }
{
    match meeting.met {
        Met::Tested(test, value, other, passed) => Step {
            word: meeting.word,
            value,
            compared: Some((test, other, passed)),
        },
        Met::Divided(value) => Step {
            word: None,
            value,
            compared: Some((Test::Equal, 0, value == 0)),
        },
        Met::Returned(value) => Step {
            word: None,
            value,
            compared: None,
        },
    }
}

/// The sign of a test. `&` asks whether some bit is set in both words.
pub(crate) fn sign_of(test: Test) -> &'static str
    ensures { result.now ≡ sign_text test }
{
    match test {
        Test::Equal => "=",
        Test::Greater => ">",
        Test::GreaterOrEqual => ">=",
        Test::AnyBit => "&",
    }
}

pub(crate) fn is_false(meeting: Meeting) -> bool
    ensures { result ≡ is_false meeting }
{
    match step_of(meeting).compared {
        Some((_, _, truth)) => !truth,
        None => false,
    }
}
