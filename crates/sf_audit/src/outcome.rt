//! What an audit found.

ghost use Rattle.std.specs.Prelude.{◌≡◌, length};

use sf_ask::{Question, Reply};
use sf_book::Settled;
use std::marker::Model;

/// What an audit found: how the exploration of the stack ended, the questions that were asked, and a reply to each.
#[derive(Drop)]
pub struct Outcome {
    pub(crate) settled: Settled,
    pub(crate) questions: Vec<Question>,
    /// One for each question, in the same order.
    pub(crate) replies: Vec<Reply>,
}

impl Model for Outcome {
    ghost use Rattle.sf_audit.specs.Outcomes.{Found, IsAnswered};

    ghost Value = { Found };

    ghost view = { λ o. record {
      settled = o.settled;
      questions = o.questions.items;
      replies = o.replies.items;
    } };

    ghost invariant = { λ o. IsAnswered (record {
      settled = o.settled;
      questions = o.questions.items;
      replies = o.replies.items;
    }) };
}

impl Outcome {
    /// How the exploration ended.
    pub fn settled(&self) -> &Settled
        ensures { result.now ≡ self.now.settled }
    {
        &self.settled
    }

    /// The questions, in the order in which they were asked.
    pub fn questions(&self) -> &[Question]
        ensures same { result.now ≡ self.now.questions }
        ensures answered { length self.now.questions ≡ length self.now.replies }
    {
        self.questions.as_slice()
    }

    /// The reply to each question, in the order of the questions.
    pub fn replies(&self) -> &[Reply]
        ensures same { result.now ≡ self.now.replies }
        ensures answered { length self.now.questions ≡ length self.now.replies }
    {
        self.replies.as_slice()
    }
}
