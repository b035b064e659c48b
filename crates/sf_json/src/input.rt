ghost use Rattle.std.specs.Prelude.{◌≡◌, map, string_bytes, IfOk};
ghost use Rattle.sf_calls.specs.Calls.{arguments_in, whole_of};
ghost use Rattle.sf_json.specs.Documents.{call_document, input_document, list_of, long_word, word};
ghost use Rattle.serde_json.specs.View.{view};

use crate::document::{Document, Fields};
use sf_calls::{is_named, push_call_words};
use sf_insn::Input;
use sf_names::Names;
use sf_stack::hex_of;
use std::alloc::{AllocError, Global};

/// A number of 32 bits as `0x` and eight hexadecimal digits in lower case.
pub fn word_document(alloc: Global, number: u32) -> Result<Document, AllocError>
    ensures { IfOk result (λ d. view d ≡ word number) }
{
    let text = format!(in alloc; "0x{number:08x}")?;
    Ok(Document::text(text))
}

fn long_word(alloc: Global, low: u32, high: u32) -> Result<Document, AllocError>
    ensures { IfOk result (λ d. view d ≡ long_word (whole_of low high)) }
{
    let number = u64::from(high) * 0x1_0000_0000 + u64::from(low);
    let text = format!(in alloc; "0x{number:016x}")?;
    Ok(Document::text(text))
}

fn call_document(alloc: Global, names: &[Names], input: &Input) -> Result<Document, AllocError>
    ensures { IfOk result (λ d. view d ≡ call_document names.now input.now) }
{
    if !is_named(names, input) {
        return Ok(Document::null());
    }
    let mut text = String::new(alloc);
    push_call_words(&mut text, names, input)?;
    Ok(Document::text(text))
}

fn arguments(alloc: Global, input: &Input) -> Result<Document, AllocError>
    ensures { IfOk result (λ d. view d ≡ list_of (map long_word (arguments_in input.now))) }
{
    let words = &input.words;
    let arguments = vec![in alloc;
        long_word(alloc, words[4], words[5])?,
        long_word(alloc, words[6], words[7])?,
        long_word(alloc, words[8], words[9])?,
        long_word(alloc, words[10], words[11])?,
        long_word(alloc, words[12], words[13])?,
        long_word(alloc, words[14], words[15])?,
    ]?;
    Document::array(alloc, arguments)
}

/// An input as an object, with its call in words where a set of names has it.
pub fn input_document(alloc: Global, names: &[Names], input: &Input) -> Result<Document, AllocError>
    ensures { IfOk result (λ d. view d ≡ input_document names.now input.now) }
{
    let words = &input.words;
    let bytes = hex_of(alloc, input)?;
    let fields = Fields::new(alloc)
        .with("bytes", Document::text(bytes))?
        .with("nr", Document::number(words[0]))?
        .with("arch", word_document(alloc, words[1])?)?
        .with("instruction_pointer", long_word(alloc, words[2], words[3])?)?
        .with("args", arguments(alloc, input)?)?
        .with("call", call_document(alloc, names, input)?)?;
    Ok(Document::object(fields))
}
