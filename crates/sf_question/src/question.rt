ghost use Rattle.std.specs.Prelude.{◌≡◌, ◌<◌, List, ℕ, true};
ghost use Rattle.std.specs.List.{list_all};
ghost use Rattle.sf_question.specs.QuestionData.{range_at, mask_at, no_masks};
ghost use Rattle.sf_question.specs.Questions.{is_name, is_printable, is_in_order, is_inside_mask, question_of, MakesQuestion};

use crate::actions::ActionSet;
use crate::fault::Fault;
use std::alloc::Global;
use std::marker::Model;

/// A question about a filter stack: is any input with these words answered with one of these actions?
///
/// For each of the sixteen 32-bit words of `struct seccomp_data` (seccomp(2)) it has a range, both ends included, and a
/// pair (mask, value): on the bits of the mask, the word has those of the value.
#[derive(Debug, Drop)]
pub struct Question {
    name: String,
    ranges: [(u32, u32); 16],
    masks: [(u32, u32); 16],
    actions: ActionSet,
}

impl Model for Question {
    ghost use Rattle.std.specs.Prelude.{string_bytes};
    ghost use Rattle.sf_question.specs.QuestionData.{QuestionData};
    ghost use Rattle.sf_question.specs.Questions.{IsQuestion};

    ghost Value = { QuestionData };

    ghost view = { λ q. record {
      name = string_bytes q.name;
      ranges = q.ranges;
      masks = q.masks;
      actions = q.actions;
    } };

    ghost invariant = { λ q. IsQuestion (record {
      name = string_bytes q.name;
      ranges = q.ranges;
      masks = q.masks;
      actions = q.actions;
    }) };
}

fn is_visible_text(bytes: &[u8]) -> bool
    ensures { result ≡ list_all is_printable bytes.now }
{
    bytes.iter().all(|byte| 0x21 <= *byte && *byte <= 0x7e)
}

fn are_in_order(ranges: &[(u32, u32)]) -> bool
    ensures { result ≡ list_all is_in_order ranges.now }
{
    ranges.iter().all(|range| range.0 <= range.1)
}

fn are_inside_masks(masks: &[(u32, u32)]) -> bool
    ensures { result ≡ list_all is_inside_mask masks.now }
{
    masks.iter().all(|mask| mask.1 & mask.0 == mask.1)
}

impl Question {
    /// Whether a text can be the name of a question: it is 1 to 64 bytes from 0x21 to 0x7e.
    pub fn is_name(text: &str) -> bool
        ensures { result ≡ is_name text.now }
    {
        1 <= text.len() && text.len() <= 64 && is_visible_text(text.as_bytes())
    }

    /// The question with this name, these ranges and no masks. Refusals are tried in the order `Name`, `Range`,
    /// `Actions`.
    pub fn of(
        alloc: Global,
        name: &str,
        ranges: [(u32, u32); 16],
        actions: ActionSet,
    ) -> Result<Question, Fault>
        ensures { MakesQuestion result (question_of name.now ranges no_masks actions) }
    {
        Question::of_masked(alloc, name, ranges, [(0, 0); 16], actions)
    }

    /// The question with this name, these ranges and these pairs (mask, value). Refusals are tried in the order `Name`,
    /// `Range`, `Mask`, `Actions`.
    pub fn of_masked(
        alloc: Global,
        name: &str,
        ranges: [(u32, u32); 16],
        masks: [(u32, u32); 16],
        actions: ActionSet,
    ) -> Result<Question, Fault>
        ensures { MakesQuestion result (question_of name.now ranges masks actions) }
    {
        if !Question::is_name(name) {
            return Err(Fault::Name);
        }
        if !are_in_order(&ranges) {
            return Err(Fault::Range);
        }
        if !are_inside_masks(&masks) {
            return Err(Fault::Mask);
        }
        if actions.is_empty() {
            return Err(Fault::Actions);
        }
        Ok(Question {
            name: String::from_str(alloc, name)?,
            ranges,
            masks,
            actions,
        })
    }

    /// The name.
    pub fn name(&self) -> &str
        ensures { result.now ≡ self.now.name }
    {
        self.name.as_str()
    }

    /// The range of a word, 0 to 15: its low and its high end, both included.
    pub fn range(&self, word: usize) -> (u32, u32)
        requires { word < 16 }
        ensures { result ≡ range_at self.now word }
    {
        self.ranges[word]
    }

    /// The mask of a word, 0 to 15, and the value that the word has on the mask's bits.
    pub fn mask(&self, word: usize) -> (u32, u32)
        requires { word < 16 }
        ensures value { result ≡ mask_at self.now word }
        ensures inside { is_inside_mask result ≡ true }
    {
        self.masks[word]
    }

    /// The actions that are asked about.
    pub fn actions(&self) -> ActionSet
        ensures { result ≡ self.now.actions }
    {
        self.actions
    }
}
