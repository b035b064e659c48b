//! What is shown of a policy that is refused. It is safe on a terminal: long texts are cut, and characters that a
//! terminal obeys or hides are replaced.

use sf_policy::{MOST_QUESTIONS, Refusal, line_of, position_of};
use sf_stack::Fault;
use std::alloc::{AllocError, Global};

/// The most characters of a line, a name or a key that are shown.
const MOST_CHARACTERS: usize = 160;

/// The first `MOST_CHARACTERS` characters of a text; and the mark behind them, ` ..`, where the text was cut.
fn front_of(alloc: Global, text: &str) -> Result<(String, &'static str), AllocError> {
    let mut front = String::new(alloc);
    for character in text.chars().take(MOST_CHARACTERS) {
        front.push(character)?;
    }
    let mark = if front.len() < text.len() { " .." } else { "" };
    Ok((front, mark))
}

/// A policy that is refused, and the text that gets what is shown of it.
#[derive(Drop)]
pub struct Page<'a> {
    pub alloc: Global,
    pub text: &'a mut String,
    /// Without a byte order mark.
    pub policy: &'a str,
}

impl Page<'_> {
    /// Adds a name or a key in quotes, with escapes, cut as by `front_of`, and the end of the line.
    fn push_quoted(&mut self, quoted: &str) -> Result<(), AllocError> {
        let (front, mark) = front_of(self.alloc, quoted)?;
        write!(self.text, "{front:?}{mark}\n")
    }

    /// Adds `: ` and the text of the policy's line with this number, from 1, cut as by `front_of`: with a blank for a
    /// control character, and as `\u{200b}` one that can't be seen by itself.
    fn push_line(&mut self, number: usize) -> Result<(), AllocError> {
        let lines = &mut self.policy.lines();
        let line = lines.nth(number.saturating_sub(1)).unwrap_or("");
        let (front, mark) = front_of(self.alloc, line)?;
        self.text.push_str(": ")?;
        for character in front.chars() {
            if character.is_control() {
                self.text.push(' ')?;
            } else if character.is_ascii() {
                self.text.push(character)?;
            } else {
                for shown in character.escape_debug() {
                    self.text.push(shown)?;
                }
            }
        }
        write!(self.text, "{mark}\n")
    }

    /// Adds the number and the text of the line that `line_of` finds, if it finds one.
    fn push_place(&mut self, question: Option<usize>, key: Option<&str>) -> Result<(), AllocError> {
        let Some(number) = line_of(self.alloc, self.policy, question, key) else {
            return Ok(());
        };
        write!(self.text, "line {number}")?;
        self.push_line(number)
    }

    /// Adds the key that is refused, and the line on which it stands, or that it is missing, and the line on which its
    /// question begins.
    fn push_key(&mut self, refusal: &Refusal) -> Result<(), AllocError> {
        let key = refusal.key().unwrap_or("");
        let is_there = refusal.table().is_some_and(|table| table.contains_key(key));
        self.text
            .push_str(if is_there { "key " } else { "no key " })?;
        self.push_quoted(key)?;
        let place = if is_there { Some(key) } else { None };
        self.push_place(refusal.question(), place)
    }

    /// Adds where the policy is refused, as far as that is known: where it is no TOML, by the reason, the line and the
    /// column of the error, and the text of this line; where it has too many questions, by the first that is too many;
    /// else by the question that is refused, if one is, and by `push_key`. `hidden` is the length in bytes of the byte
    /// order mark, which the place of an error counts too.
    pub fn push_refusal(&mut self, refusal: &Refusal, hidden: usize) -> Result<(), AllocError> {
        if let Err(error) = &refusal.read {
            let Some(span) = error.span() else {
                return Err(AllocError);
            };
            let message = error.message();
            let before = span.start.saturating_sub(hidden);
            let (line, column) = position_of(self.policy.as_bytes(), before);
            write!(self.text, "{message}\nline {line} column {column}")?;
            return self.push_line(line);
        }
        let count = refusal.count();
        if refusal.fault == Fault::Count && MOST_QUESTIONS < count {
            write!(
                self.text,
                "questions {count}, and {MOST_QUESTIONS} are the most\n"
            )?;
            return self.push_place(Some(MOST_QUESTIONS + 1), None);
        }
        if let Some(number) = refusal.question() {
            write!(self.text, "question {number}")?;
            match refusal.name() {
                Some(name) => {
                    self.text.push_str(" ")?;
                    self.push_quoted(name)?;
                }
                None => self.text.push_str("\n")?,
            }
        }
        self.push_key(refusal)
    }
}
