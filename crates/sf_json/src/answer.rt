ghost use Rattle.std.specs.Prelude.{◌≡◌, string_bytes, IfOk};
ghost use Rattle.sf_json.specs.Documents.{action_document, answer_document};
ghost use Rattle.sf_stack.specs.Texts.{action_text};
ghost use Rattle.serde_json.specs.View.{view};

use crate::document::{Document, Fields};
use sf_run::{Action, Answer};
use sf_stack::push_action;
use std::alloc::{AllocError, Global};

fn name_of(alloc: Global, action: Action) -> Result<String, AllocError>
    ensures { IfOk result (λ text. string_bytes text ≡ action_text action) }
{
    let mut text = String::new(alloc);
    push_action(&mut text, action)?;
    Ok(text)
}

/// The object of an action and of the number `info` that goes with it.
pub fn action_document(alloc: Global, action: Action, info: u32) -> Result<Document, AllocError>
    ensures { IfOk result (λ d. view d ≡ action_document action info) }
{
    let name = name_of(alloc, action)?;
    let fields = Fields::new(alloc)
        .with("action", Document::text(name))?
        .with("data", Document::number(info))?;
    Ok(Document::object(fields))
}

/// An answer as the object of its action and its number.
pub fn answer_document(alloc: Global, answer: Answer) -> Result<Document, AllocError>
    ensures { IfOk result (λ d. view d ≡ answer_document answer) }
{
    action_document(alloc, answer.action, u32::from(answer.info))
}
