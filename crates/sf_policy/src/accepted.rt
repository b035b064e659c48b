ghost use Rattle.std.specs.Prelude.{◌≡◌, ◌⊎◌, ◌+◌, ℕ, map, string_bytes, IfOk, IfErr};
ghost use Rattle.std.specs.Str.Lines.{lines};
ghost use Rattle.sf_policy.specs.Accepted.{AreAccepted, IsMisfitAt, is_comment, is_name_once, words_of_line};
ghost use Rattle.sf_stack.specs.declared.fault.Fault.TheVariants.{Accepted as AcceptedFault, Memory as MemoryFault};

use sf_question::Question;
use sf_stack::Fault;
use std::alloc::{AllocError, Global};

fn is_comment(part: &str) -> bool
    ensures { result ≡ is_comment part.now }
{
    matches!(part.as_bytes(), [b'#', ..])
}

fn lines_of<'a>(alloc: Global, text: &'a str) -> Result<Vec<&'a str>, AllocError>
    ensures { IfOk result (λ v. map (λ t. t.now) v.items ≡ lines text.now) }
{
    text.lines().collect(alloc)
}

/// The words of a line before its comment. Only the byte 0x20 is a space, so a tab belongs to a word.
fn words_of_line<'a>(alloc: Global, line: &'a str) -> Result<Vec<&'a str>, AllocError>
    ensures { IfOk result (λ v. map (λ t. t.now) v.items ≡ words_of_line line.now) }
{
    line.split(' ')
        .take_while(|part| !is_comment(part))
        .filter(|part| !part.is_empty())
        .collect(alloc)
}

fn is_name_once(questions: &[Question], name: &str) -> bool
    ensures { result ≡ is_name_once questions.now name.now }
{
    let named = questions.iter().filter(|question| question.name() == name);
    named.count() == 1
}

/// The names of the questions that may be allowed, in the order of the lines of their file: each line has one name or
/// none, and a `#` at its beginning or after a space begins a comment.
///
/// `Accepted` comes at the first line, counted from 1, that has more than one word, or a word that isn't the name of
/// exactly one of the questions.
pub fn read_accepted(
    alloc: Global,
    text: &str,
    questions: &[Question],
) -> Result<Vec<String>, Fault>
    ensures named { IfOk result (λ v. AreAccepted questions.now text.now
        (map string_bytes v.items)) }
    ensures refused { IfErr result (λ e. (e ≡ MemoryFault)
        ⊎ ((place : ℕ) × (e ≡ AcceptedFault (place + 1))
        × IsMisfitAt questions.now text.now place)) }
{
    let lines = lines_of(alloc, text)?;
    let mut names = Vec::new(alloc);
    for (place, line) in lines.iter().enumerate() {
        let words = words_of_line(alloc, line)?;
        match words.as_slice() {
            [] => {}
            [name] if is_name_once(questions, name) => {
                names.push(String::from_str(alloc, name)?)?;
            }
            _ => return Err(Fault::Accepted { line: place + 1 }),
        }
    }
    Ok(names)
}
