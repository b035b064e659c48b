//! Fragments of a script's text, which are in short form: `00*64` stands for `00` sixty-four times, and
//! `15000000+5+2*3` for `15000000` three times, with the number 5, 7 or 9 behind it, each in four bytes with the lowest
//! first.

use std::alloc::{AllocError, Global};
use std::test::Fail;

/// The text of a fragment, and how often it is repeated.
fn parts_of(fragment: &str) -> (&str, usize) {
    match fragment.split_once('*') {
        Some((text, count)) => (text, count.parse::<usize>().unwrap_or(1)),
        None => (fragment, 1),
    }
}

/// Adds what a fragment stands for.
fn push_fragment(text: &mut String, fragment: &str) -> Result<(), AllocError> {
    let (part, count) = parts_of(fragment);
    for _ in 0..count {
        text.push_str(part)?;
    }
    Ok(())
}

/// Adds `head` and a number in eight digits, `count` times. The first number is `first`, and each is greater by `step`
/// than the one before.
fn push_numbered(
    text: &mut String,
    head: &str,
    first: u32,
    step: u32,
    count: usize,
) -> Result<(), AllocError> {
    let mut number = first;
    for _ in 0..count {
        let digits = number.swap_bytes();
        write!(text, "{head}{digits:08x}")?;
        number = number.wrapping_add(step);
    }
    Ok(())
}

/// Adds the digits that a fragment of a file stands for.
pub fn push_digits(text: &mut String, fragment: &str) -> Result<(), AllocError> {
    let Some((head, numbers)) = fragment.split_once('+') else {
        return push_fragment(text, fragment);
    };
    let (numbers, count) = parts_of(numbers);
    let (first, step) = numbers.split_once('+').unwrap_or((numbers, "1"));
    let (first, step) = (first.parse::<u32>(), step.parse::<u32>());
    push_numbered(text, head, first.unwrap_or(0), step.unwrap_or(1), count)
}

/// What fragments stand for that are separated by commas, as one text.
fn join(alloc: Global, fragments: &str) -> Result<String, AllocError> {
    let mut text = String::new(alloc);
    for fragment in fragments.split(',') {
        push_fragment(&mut text, fragment)?;
    }
    Ok(text)
}

/// Adds the words that a word of a script stands for: `allow*64` is sixty-four words, `@00*63,02` is one, and so is
/// `%1b5b`, whose bytes these are.
fn push_words(alloc: Global, words: &mut Vec<String>, word: &str) -> Result<(), Fail> {
    if let Some(digits) = word.strip_prefix('%') {
        let bytes = hex::decode(alloc, digits)?;
        words.push(String::from_str(alloc, std::str::from_utf8(&bytes)?)?)?;
        return Ok(());
    }
    if let Some(fragments) = word.strip_prefix('@') {
        let text = join(alloc, fragments)?;
        words.push(text)?;
        return Ok(());
    }
    let (text, count) = parts_of(word);
    for _ in 0..count {
        words.push(String::from_str(alloc, text)?)?;
    }
    Ok(())
}

/// The words that a line of a script stands for.
pub fn words_of(alloc: Global, line: &str) -> Result<Vec<String>, Fail> {
    let mut words = Vec::new(alloc);
    for word in line.split_whitespace() {
        push_words(alloc, &mut words, word)?;
    }
    Ok(words)
}
