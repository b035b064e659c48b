//! What rows show, and how it is shown.

ghost use Rattle.std.specs.Prelude.{◌≡◌, ◌++◌, OnOk, string_bytes};
ghost use Rattle.sf_stack.specs.Texts.{answer_words};
ghost use Rattle.sf_behaviour.specs.Answering.{answer_with};
ghost use Rattle.sf_rows.specs.Rows.{after_of, before_of, hidden_number};
ghost use Rattle.sf_rows.specs.Lines.{answers_words};

use sf_run::{Action, Answer};
use sf_stack::push_action;
use std::alloc::AllocError;

/// What rows show.
#[derive(Clone, Copy, Debug, PartialEq, Eq)]
pub enum Subject {
    /// What a stack answers. The number of a row is that of an answer.
    Stack,
    /// What changes from one stack to another. The number of a row stands for two answers, the old one in the upper
    /// half.
    Change,
}

pub(crate) fn hidden_number(subject: Subject) -> u64
    ensures { result ≡ hidden_number subject }
{
    match subject {
        Subject::Stack => 0x1_0000_0000,
        Subject::Change => 0,
    }
}

/// The answer that a number names. Bits above the lowest 32 don't count.
pub(crate) fn answer_of(number: u64) -> Answer
    ensures { result ≡ answer_with number }
{
    Answer {
        action: Action::of_number((number & 0xffff0000) as u32),
        info: (number & 0xffff) as u16,
    }
}

pub(crate) fn before_of(number: u64) -> Answer
    ensures { result ≡ before_of number }
{
    answer_of(number / 0x1_0000_0000)
}

pub(crate) fn after_of(number: u64) -> Answer
    ensures { result ≡ after_of number }
{
    answer_of(number % 0x1_0000_0000)
}

fn push_answer(text: &mut String, answer: Answer) -> Result<(), AllocError>
    ensures { OnOk result (string_bytes text.new ≡ string_bytes text.old ++ answer_words answer) }
{
    push_action(text, answer.action)?;
    let info = answer.info;
    write!(text, " {info}")
}

pub(crate) fn push_answers(
    text: &mut String,
    subject: Subject,
    number: u64,
) -> Result<(), AllocError>
    ensures { OnOk result (string_bytes text.new ≡ string_bytes text.old
        ++ answers_words subject number) }
{
    match subject {
        Subject::Stack => push_answer(text, answer_of(number)),
        Subject::Change => {
            push_answer(text, before_of(number))?;
            text.push_str(" -> ")?;
            push_answer(text, after_of(number))
        }
    }
}
