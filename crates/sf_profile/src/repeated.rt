//! The key that comes twice in a file. It is for a person: contracts say nothing of it.

ghost use Rattle.json.specs.Value.{value_view, items_view};
ghost use Rattle.sf_profile.specs.Repeats.{AreReadBack, IsReadBack};

use crate::repeats::{items_of, rules_below};
use json::{Reader, Scratch, Token, Value};
use std::alloc::{AllocError, Global};

/// A key that comes twice among these, which are sorted by it.
fn twice_among<'a>(keys: &mut Vec<&'a str>) -> Result<Option<&'a str>, AllocError> {
    keys.sort()?;
    for later in 1..keys.len() {
        if keys[later - 1] == keys[later] {
            return Ok(Some(keys[later]));
        }
    }
    Ok(None)
}

fn push_key<'a>(open: &mut Vec<Vec<&'a str>>, key: &'a str) -> Result<(), AllocError> {
    if let Some(keys) = open.last_mut() {
        keys.push(key)?;
    }
    Ok(())
}

/// Takes the innermost object away, and gives a key that comes twice in it.
fn close<'a>(open: &mut Vec<Vec<&'a str>>) -> Result<Option<&'a str>, AllocError> {
    match open.pop() {
        Some(mut keys) => twice_among(&mut keys),
        None => Ok(None),
    }
}

/// A key that comes twice in an object of the text.
fn repeated_in<'a>(alloc: Global, reader: &mut Reader<'a>) -> Result<Option<&'a str>, AllocError> {
    // The keys of each object that the reader is in, the outermost first.
    let mut open = Vec::new(alloc);
    while let Some(token) = reader.next() {
        match token {
            Token::BeginObject => open.push(Vec::new(alloc))?,
            Token::Key(key) => push_key(&mut open, key)?,
            Token::EndObject => {
                let found = close(&mut open)?;
                if found.is_some() {
                    return Ok(found);
                }
            }
            _ => {}
        }
    }
    Ok(None)
}

fn key_in_text(alloc: Global, text: &str) -> Result<Option<String>, AllocError> {
    let mut scratch = Scratch::new(alloc);
    let mut reader = Reader::new(text, &mut scratch)?;
    match repeated_in(alloc, &mut reader)? {
        Some(key) => Ok(Some(String::from_str(alloc, key)?)),
        None => Ok(None),
    }
}

fn key_in_value(alloc: Global, value: &Value<'_>) -> Result<Option<String>, AllocError>
    requires { IsReadBack (value_view value.now) }
{
    let written = json::to_vec(alloc, value)?;
    match str::from_utf8(&written) {
        Ok(text) => key_in_text(alloc, text),
        Err(_) => Ok(None),
    }
}

/// A key that comes twice in the first of these rules in which one does.
fn key_in_rules(alloc: Global, rules: &[Value<'_>]) -> Result<Option<String>, AllocError>
    requires { AreReadBack (items_view rules.now) }
{
    for rule in rules {
        let key = key_in_value(alloc, rule)?;
        if key.is_some() {
            return Ok(key);
        }
    }
    Ok(None)
}

/// A key that comes twice in the first rule in which one does, or else in another object of the document.
fn key_in_document(
    alloc: Global,
    text: &str,
    whole: &Value<'_>,
) -> Result<Option<String>, AllocError>
    requires { IsReadBack (value_view whole.now) }
{
    if let Some(rules) = rules_below(whole) {
        let key = key_in_rules(alloc, items_of(rules))?;
        if key.is_some() {
            return Ok(key);
        }
    }
    key_in_text(alloc, text)
}

/// The key that comes twice in a file that `tree_of` refuses for it.
pub(crate) fn repeated_key(alloc: Global, bytes: &[u8]) -> Result<Option<String>, AllocError> {
    let Ok(text) = str::from_utf8(bytes) else {
        return Ok(None);
    };
    let mut scratch = Scratch::new(alloc);
    match Value::parse(alloc, text, &mut scratch) {
        Ok(whole) => key_in_document(alloc, text, &whole),
        Err(_) => Err(AllocError),
    }
}
