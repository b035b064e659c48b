//! On which line of a policy a key or a question stands. The tokens of the policy are read for it once more.
//!
//! A policy here has no byte order mark. Where memory runs out, what is looked for may not be found.
ghost use Rattle.std.specs.Prelude.{◌≡◌, ◌≤◌, ◌++◌, ◌==◌, List, ℕ, is_none, length, not, take, true, IfSome, Some};
ghost use Rattle.std.specs.List.{after_last, suffix_len};
ghost use Rattle.toml_parser.specs.Lexical as lexical;
ghost use Rattle.toml_parser.specs.Strings as strings;
ghost use Rattle.toml_parser.specs.Reading.{key_view};
ghost use Rattle.sf_policy.specs.Places.{BeginsAt, IsHeaderSought, IsLineOf, begins_character, column_after, is_header_sought, is_question, is_sought, line_after, name_of_header, part_of};

use crate::comments::comment_above;
use std::alloc::{AllocError, Global};
use toml_parser::text::{first, skip, skip_blank, skip_ws};
use toml_parser::{Key, dotted_key, quoted, starts_string, unquoted};

/// What is looked for: a key of a question, a key at the top, or a question itself.
#[derive(Clone, Copy)]
struct Wanted<'a> {
    /// The number, from 1, of the question that is looked for, or of the one whose key is.
    question: Option<usize>,
    /// The key that is looked for; `None` where a question itself is.
    key: Option<&'a str>,
}

impl Wanted<'_> {
    /// Whether this key of the question with this number, or without a number this key at the top, is looked for.
    fn is_key(&self, question: Option<usize>, key: &str) -> bool
        ensures { result ≡ true → is_sought self.now.key key.now ≡ true }
    {
        self.question == question && matches!(self.key, Some(sought) if sought == key)
    }

    fn is_question(&self, number: usize) -> bool
        ensures { result ≡ true → is_none self.now.key ≡ true }
    {
        self.question == Some(number) && self.key.is_none()
    }
}

/// How far the tokens of a policy were read.
#[derive(Drop)]
struct Reading {
    /// Whether no header was read yet, so that keys stand at the top.
    is_top: bool,
    /// How many brackets are open.
    depth: usize,
    /// The depth at which a key is that of a question: 0 below `[[question]]`, and 2 in a table of
    /// `question = [{ .. }]`.
    depth_of_questions: Option<usize>,
    questions: usize,
}

/// The part of a dotted key at a place, or its last part.
fn part_of(key: &Key, place: usize) -> &str
    ensures { result.now ≡ part_of (key_view key.now) place }
{
    key.path.get(place).unwrap_or(&key.last).as_str()
}

fn is_question(key: &Key) -> bool
    ensures { result ≡ is_question (key_view key.now) }
{
    key.path.is_empty() && key.last.as_str() == "question"
}

/// The key at the head of a text, and the text from its value on.
fn key_and_value(alloc: Global, text: &str) -> Option<(Key, &str)>
    ensures { IfSome result (λ found. (rest : List ℕ)
        × (strings.key text.now ≡ Some (key_view found.0, rest))
        × (lexical.first rest ≡ lexical.equals)) }
{
    let (key, rest) = dotted_key(alloc, text).ok()?;
    if first(rest) == b'=' {
        Some((key, skip_ws(skip(rest, 1))))
    } else {
        None
    }
}

/// The text from the name of a header on, by the text behind its first bracket.
fn name_of_header(inner: &str) -> &str
    ensures { result.now ≡ name_of_header inner.now }
{
    if first(inner) == b'[' {
        skip_ws(skip(inner, 1))
    } else {
        skip_ws(inner)
    }
}

impl Reading {
    fn new() -> Reading {
        Reading {
            is_top: true,
            depth: 0,
            depth_of_questions: None,
            questions: 0,
        }
    }

    /// Reads a key that stands before a value, and says whether it is looked for. Of a dotted key only the first part
    /// is compared.
    fn take_key(&mut self, wanted: &Wanted, key: &Key) -> bool
        ensures { result ≡ true → is_sought wanted.now.key (part_of (key_view key.now) 0) ≡ true }
    {
        if self.is_top && self.depth == 0 {
            self.depth_of_questions = if is_question(key) { Some(2) } else { None };
            return wanted.is_key(None, part_of(key, 0));
        }
        self.depth_of_questions == Some(self.depth)
            && wanted.is_key(Some(self.questions), part_of(key, 0))
    }

    /// Reads the key of a header, `[key]`, or where `is_array` `[[key]]`, and says whether what is looked for stands
    /// there. The keys behind `[[question]]` are those of a question.
    fn take_header(&mut self, wanted: &Wanted, key: &Key, is_array: bool) -> bool
        ensures { result ≡ true → is_header_sought wanted.now.key (key_view key.now) is_array ≡ true }
    {
        self.is_top = false;
        self.depth_of_questions = None;
        if is_array && is_question(key) {
            self.depth_of_questions = Some(0);
            return self.begin_question(wanted);
        }
        let (front, behind) = (part_of(key, 0), part_of(key, 1));
        wanted.is_key(None, front)
            || front == "question" && wanted.is_key(Some(self.questions), behind)
    }

    fn begin_question(&mut self, wanted: &Wanted) -> bool
        ensures { result ≡ true → is_none wanted.now.key ≡ true }
    {
        self.questions = self.questions.saturating_add(1);
        wanted.is_question(self.questions)
    }

    /// Reads an opening bracket, and says whether a question that is looked for begins there, as at each `{` in
    /// `question = [{ .. }]`.
    fn open(&mut self, wanted: &Wanted, bracket: u8) -> bool
        ensures brace { result ≡ true → bracket ≡ lexical.left_brace }
        ensures question { result ≡ true → is_none wanted.now.key ≡ true }
    {
        let begins = bracket == b'{' && self.depth == 1 && self.depth_of_questions == Some(2);
        self.depth = self.depth.saturating_add(1);
        begins && self.begin_question(wanted)
    }

    /// Reads a header behind its first bracket, as `step` does.
    fn header<'a>(
        &mut self,
        alloc: Global,
        wanted: &Wanted,
        inner: &'a str,
    ) -> Option<(bool, &'a str)>
        ensures { IfSome result (λ read. read.0 ≡ true → IsHeaderSought wanted.now.key inner.now) }
    {
        let is_array = first(inner) == b'[';
        let (key, rest) = dotted_key(alloc, name_of_header(inner)).ok()?;
        Some((self.take_header(wanted, &key, is_array), rest))
    }

    /// Reads the token at the head of a text that begins with none of blanks, ends of lines and comments. Gives whether
    /// what is looked for stands there, and the text behind the token.
    ///
    /// A key and its `=` are one token, and a `[` behind the `=` belongs to it too. Any other `[` begins a header where
    /// no bracket is open. The token of a header ends before its closing brackets, which are tokens themselves.
    fn step<'a>(&mut self, alloc: Global, wanted: &Wanted, text: &'a str) -> Option<(bool, &'a str)>
        ensures { IfSome result (λ read. read.0 ≡ true → BeginsAt wanted.now.key text.now) }
    {
        if let Some((key, value)) = key_and_value(alloc, text) {
            let found = self.take_key(wanted, &key);
            if first(value) == b'[' {
                self.open(wanted, b'[');
                return Some((found, skip(value, 1)));
            }
            return Some((found, value));
        }
        if starts_string(text) {
            return Some((false, quoted(alloc, text).ok()?.1));
        }
        match first(text) {
            b'[' if self.depth == 0 => self.header(alloc, wanted, skip(text, 1)),
            b'[' | b'{' => Some((self.open(wanted, first(text)), skip(text, 1))),
            b']' | b'}' => {
                self.depth = self.depth.saturating_sub(1);
                Some((false, skip(text, 1)))
            }
            b',' => Some((false, skip(text, 1))),
            _ => Some((false, unquoted(alloc, text).ok()?.1)),
        }
    }
}

/// The number, from 1, of the line on which the end of a policy begins.
fn line_at(policy: &str, end: &str) -> Option<usize>
    ensures { IfSome result (λ line. (front : List ℕ)
        × (policy.now ≡ front ++ end.now) × (line ≡ line_after front)) }
{
    let front = policy.strip_suffix(end)?;
    Some(position_of(front.as_bytes(), front.len()).0)
}

/// The number, from 1, of the line of a policy on which a key of the question with this number, from 1, or without a
/// number a key at the top stands. Without a key it is the line on which the question begins.
///
/// That the question is the one with this number isn't proved.
pub fn line_of(
    alloc: Global,
    policy: &str,
    question: Option<usize>,
    key: Option<&str>,
) -> Option<usize>
    ensures { IfSome result (IsLineOf key.entry policy.now) }
{
    let wanted = Wanted { question, key };
    let mut reading = Reading::new();
    let mut rest = policy;
    // Each token has a byte at least, so there are no more tokens than bytes.
    for _ in 0..policy.len() {
        let start = skip_blank(rest, true);
        let (found, after) = reading.step(alloc, &wanted, start)?;
        if found {
            return line_at(policy, start);
        }
        rest = after;
    }
    None
}

fn count_ends(text: &str, length: usize) -> usize {
    let front = text.as_bytes().iter().take(length);
    front.filter(|byte| **byte == b'\n').count()
}

/// Where a question of a policy begins.
#[derive(Drop)]
pub struct Mark {
    /// The number, from 1, of the line.
    pub line: usize,
    /// The text of the comment that stands directly above.
    pub comment: Option<String>,
}

/// Where the questions of a policy begin. The list ends early where a token can't be read.
pub fn marks_of_questions(alloc: Global, policy: &str) -> Result<Vec<Mark>, AllocError> {
    // Nothing is looked for: the reading only counts the questions that have begun.
    let wanted = Wanted {
        question: None,
        key: None,
    };
    let mut reading = Reading::new();
    let mut marks = Vec::new(alloc);
    let mut line = 1usize;
    let mut rest = policy;
    for _ in 0..policy.len() {
        let start = skip_blank(rest, true);
        line = line.saturating_add(count_ends(rest, rest.len().saturating_sub(start.len())));
        let begun = reading.questions;
        let Some((_, after)) = reading.step(alloc, &wanted, start) else {
            break;
        };
        if begun < reading.questions {
            let gap = rest.strip_suffix(start).unwrap_or("");
            let comment = comment_above(alloc, gap)?;
            marks.push(Mark { line, comment })?;
        }
        line = line.saturating_add(count_ends(start, start.len().saturating_sub(after.len())));
        rest = after;
    }
    Ok(marks)
}

/// The line and the column, both from 1, of the place in a policy that has `before` bytes before it. A column counts
/// characters, so the bytes 0x80 to 0xBF, which continue a character of UTF-8, aren't counted.
pub fn position_of(policy: &[u8], before: usize) -> (usize, usize)
    ensures line { result.0 ≡ line_after (take before policy.now) }
    ensures column { result.1 ≡ column_after (take before policy.now) }
{
    let front = policy.get(..before).unwrap_or(policy);
    let ends = front.iter().filter(|byte| **byte == b'\n').count();
    let last = last_line(front);
    let characters = last.iter().filter(|byte| begins_character(**byte)).count();
    (ends + 1, characters + 1)
}

/// What stands behind the last end of line.
fn last_line(text: &[u8]) -> &[u8]
    ensures { result.now ≡ after_last (λ byte. byte == lexical.line_feed) text.now }
{
    text.split_at(text.len() - length_of_last_line(text)).1
}

fn length_of_last_line(text: &[u8]) -> usize
    ensures counted { result ≡ suffix_len (λ byte. not (byte == lexical.line_feed)) text.now }
    ensures within { result ≤ length text.now }
{
    text.iter().rev().take_while(|byte| **byte != b'\n').count()
}

fn begins_character(byte: u8) -> bool
    ensures { result ≡ begins_character byte }
{
    !(0x80 <= byte && byte <= 0xBF)
}
