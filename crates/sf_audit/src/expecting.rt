//! What a build expects of an audit, and the lines that say what isn't as expected. After an error a part of what was
//! to be added may stand in the text; `text_of_expected` drops it.

ghost use Rattle.std.specs.Prelude.{◌≡◌, ◌++◌, IfOk, OnOk, length, map, string_bytes};
ghost use Rattle.std.specs.List.{list_all};
ghost use Rattle.sf_audit.specs.Reports.{is_allowed};
ghost use Rattle.sf_audit.specs.Expectations.{control_line, control_lines, deviation_line, deviation_lines, expected_text, has_unexpected, is_accepted, is_unexpected};

use crate::counting::is_allowed;
use crate::outcome::Outcome;
use sf_ask::{Question, Reply};
use std::alloc::{AllocError, Global};
use std::marker::Model;

/// What a build expects of an audit: that each question of a control is allowed, and that no question is allowed but
/// those with an accepted name.
#[derive(Drop)]
pub struct Expected {
    control: Vec<Question>,
    /// The replies to the control, one for each question, in the same order.
    held: Vec<Reply>,
    /// The names of the questions that may be allowed.
    accepted: Vec<String>,
}

impl Model for Expected {
    ghost use Rattle.std.specs.Prelude.{map, string_bytes};
    ghost use Rattle.sf_audit.specs.Expectations.{ExpectedData, IsHeld};

    ghost Value = { ExpectedData };

    ghost view = { λ e. record {
      control = e.control.items;
      held = e.held.items;
      accepted = map string_bytes e.accepted.items;
    } };

    ghost invariant = { λ e. IsHeld (record {
      control = e.control.items;
      held = e.held.items;
      accepted = map string_bytes e.accepted.items;
    }) };
}

impl Expected {
    /// What is expected: that each question of `control` is allowed, and that no question is allowed but those with a
    /// name in `accepted`.
    pub fn of(control: Vec<Question>, held: Vec<Reply>, accepted: Vec<String>) -> Expected
        requires { length control.items ≡ length held.items }
        ensures { result ≡ record {
          control = control.items;
          held = held.items;
          accepted = map string_bytes accepted.items;
        } }
    {
        Expected {
            control,
            held,
            accepted,
        }
    }

    pub(crate) fn control(&self) -> &[Question]
        ensures same { result.now ≡ self.now.control }
        ensures held { length self.now.control ≡ length self.now.held }
    {
        self.control.as_slice()
    }

    pub(crate) fn held(&self) -> &[Reply]
        ensures same { result.now ≡ self.now.held }
        ensures held { length self.now.control ≡ length self.now.held }
    {
        self.held.as_slice()
    }

    pub(crate) fn is_accepted(&self, name: &str) -> bool
        ensures { result ≡ is_accepted self.now.accepted name.now }
    {
        is_accepted(&self.accepted, name)
    }

    pub(crate) fn is_unexpected(&self, name: &str, reply: Reply) -> bool
        ensures { result ≡ is_unexpected self.now.accepted name.now reply }
    {
        is_allowed(&reply) && !self.is_accepted(name)
    }

    /// Whether the control holds: each of its questions is allowed. `true` where it has no questions.
    pub fn does_hold(&self) -> bool
        ensures { result ≡ list_all is_allowed self.now.held }
    {
        self.held.iter().all(is_allowed)
    }

    /// Whether an audit has a question that is allowed and whose name isn't an accepted one.
    pub fn has_unexpected(&self, outcome: &Outcome) -> bool
        ensures { result ≡ has_unexpected self.now.accepted
            outcome.now.questions outcome.now.replies }
    {
        has_unexpected(self, outcome.questions(), outcome.replies())
    }
}

pub(crate) fn push_control(text: &mut String, name: &str, reply: Reply) -> Result<(), AllocError>
    ensures { OnOk result (string_bytes text.new ≡ string_bytes text.old
        ++ control_line name.now reply) }
{
    match reply {
        Reply::Never => write!(text, "control {name} never\n"),
        Reply::Allowed(_) => Ok(()),
        Reply::Unsettled => write!(text, "control {name} unsettled\n"),
    }
}

fn push_controls(
    text: &mut String,
    questions: &[Question],
    replies: &[Reply],
) -> Result<(), AllocError>
    requires { length questions.now ≡ length replies.now }
    ensures { OnOk result (string_bytes text.new ≡ string_bytes text.old
        ++ control_lines questions.now replies.now) }
{
    for (i, question) in questions.iter().enumerate() {
        push_control(text, question.name(), replies[i])?;
    }
    Ok(())
}

pub(crate) fn is_accepted(accepted: &[String], name: &str) -> bool
    ensures { result ≡ is_accepted (map string_bytes accepted.now) name.now }
{
    accepted.iter().any(|one| one.as_str() == name)
}

fn push_deviation(
    text: &mut String,
    accepted: &[String],
    name: &str,
    reply: Reply,
) -> Result<(), AllocError>
    ensures { OnOk result (string_bytes text.new ≡ string_bytes text.old
        ++ deviation_line (map string_bytes accepted.now) name.now reply) }
{
    let accepted = is_accepted(accepted, name);
    match reply {
        Reply::Never if accepted => write!(text, "accepted {name} never\n"),
        Reply::Allowed(_) if !accepted => write!(text, "unexpected {name}\n"),
        _ => Ok(()),
    }
}

fn push_questions(
    text: &mut String,
    accepted: &[String],
    questions: &[Question],
    replies: &[Reply],
) -> Result<(), AllocError>
    requires { length questions.now ≡ length replies.now }
    ensures { OnOk result (string_bytes text.new ≡ string_bytes text.old
        ++ deviation_lines (map string_bytes accepted.now) questions.now replies.now) }
{
    for (i, question) in questions.iter().enumerate() {
        push_deviation(text, accepted, question.name(), replies[i])?;
    }
    Ok(())
}

/// The lines behind a report that say what isn't as expected; empty where all is.
pub fn text_of_expected(
    alloc: Global,
    expected: &Expected,
    outcome: &Outcome,
) -> Result<String, AllocError>
    ensures { IfOk result (λ text. string_bytes text ≡ expected_text expected.now outcome.now) }
{
    let mut text = String::new(alloc);
    push_controls(&mut text, expected.control(), &expected.held)?;
    push_questions(
        &mut text,
        &expected.accepted,
        outcome.questions(),
        outcome.replies(),
    )?;
    Ok(text)
}

fn has_unexpected(expected: &Expected, questions: &[Question], replies: &[Reply]) -> bool
    requires { length questions.now ≡ length replies.now }
    ensures { result ≡ has_unexpected expected.now.accepted questions.now replies.now }
{
    for (i, question) in questions.iter().enumerate() {
        if expected.is_unexpected(question.name(), replies[i]) {
            return true;
        }
    }
    false
}
