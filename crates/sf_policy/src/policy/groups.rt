//! Files of groups of questions, by which a summary puts questions in order.

ghost use Rattle.std.specs.Prelude.{◌≡◌, map, option_and_then, option_map, string_bytes, IfOk};
ghost use Rattle.std.specs.List.{list_all};
ghost use Rattle.toml.specs.Data.{get_member};
ghost use Rattle.toml.specs.View.{view, table_view};
ghost use Rattle.sf_policy.specs.Actions.{texts_of_value};
ghost use Rattle.sf_policy.specs.Encoding.{table_or_empty, text_or_empty};
ghost use Rattle.sf_policy.specs.Groups.{IsRead, group_of, groups_in, groups_of, is_title_byte, title_of};
ghost use Rattle.sf_policy.specs.Trees.{each_of, text_at};

use super::actions::{text_of, texts_of};
use super::keys::{GROUPS_KEYS, has_group_keys, has_only, text_in, value_at};
use super::tables_in;
use sf_stack::Fault;
use std::alloc::{AllocError, Global};
use std::marker::Model;
use toml::{Table, Value};

/// A group of questions, under its title.
#[derive(Drop)]
pub struct Group {
    title: String,
    /// The names of its questions.
    questions: Vec<String>,
}

impl Model for Group {
    ghost use Rattle.std.specs.Prelude.{map, string_bytes};
    ghost use Rattle.sf_policy.specs.Groups.{GroupData};

    ghost Value = { GroupData };

    ghost view = { λ g. record {
      title = string_bytes g.title;
      questions = map string_bytes g.questions.items;
    } };
}

impl Group {
    pub fn title(&self) -> &str
        ensures { result.now ≡ self.now.title }
    {
        self.title.as_str()
    }

    /// The names of the questions.
    pub fn questions(&self) -> &[String]
        ensures { map string_bytes result.now ≡ self.now.questions }
    {
        self.questions.as_slice()
    }
}

fn is_title_byte(byte: u8) -> bool
    ensures { result ≡ is_title_byte byte }
{
    0x20 <= byte && byte <= 0x7e
}

fn are_title_bytes(bytes: &[u8]) -> bool
    ensures { result ≡ list_all is_title_byte bytes.now }
{
    bytes.iter().all(|byte| is_title_byte(*byte))
}

fn title_in<'a>(table: &'a Table, key: &str) -> Option<&'a str>
    ensures { option_map (λ s. s.now) result ≡ title_of (text_at key.now (table_view table.now)) }
{
    let title = text_in(table, key)?;
    if are_title_bytes(title.as_bytes()) {
        Some(title)
    } else {
        None
    }
}

fn texts_in<'a>(table: &'a Table, key: &str) -> Option<&'a [Value]>
    ensures { option_map (λ vs. map (λ v. text_or_empty (view v)) vs.now) result
        ≡ option_and_then texts_of_value (get_member key.now (table_view table.now)) }
{
    texts_of(value_at(table, key)?)
}

fn parts_in(table: &Table) -> Option<(&str, &[Value])>
    ensures { option_map (λ p. record {
      title = p.0.now;
      questions = map (λ v. text_or_empty (view v)) p.1.now;
    }) result ≡ group_of (table_view table.now) }
{
    if !has_group_keys(table) {
        return None;
    }
    let _name = text_in(table, "name")?;
    let title = title_in(table, "title")?;
    let _why = text_in(table, "why")?;
    let questions = texts_in(table, "questions")?;
    Some((title, questions))
}

fn strings_of(alloc: Global, items: &[Value]) -> Result<Vec<String>, AllocError>
    ensures { IfOk result (λ v. map string_bytes v.items
        ≡ map (λ v. text_or_empty (view v)) items.now) }
{
    let mut texts = Vec::new(alloc);
    for value in items {
        texts.push(String::from_str(alloc, text_of(value))?)?;
    }
    Ok(texts)
}

fn group_in(alloc: Global, table: &Table) -> Result<Group, Fault>
    ensures { IsRead (λ g. g) result (group_of (table_view table.now)) }
{
    let (title, questions) = parts_in(table).ok_or(Fault::Syntax)?;
    Ok(Group {
        title: String::from_str(alloc, title)?,
        questions: strings_of(alloc, questions)?,
    })
}

fn groups_of(alloc: Global, items: &[Value]) -> Result<Vec<Group>, Fault>
    ensures { IsRead (λ v. v.items) result
        (each_of group_of (map (λ v. table_or_empty (view v)) items.now)) }
{
    let mut groups = Vec::new(alloc);
    for value in items {
        let table = value.as_table().ok_or(Fault::Syntax)?;
        groups.push(group_in(alloc, table)?)?;
    }
    Ok(groups)
}

fn groups_in_table(alloc: Global, table: &Table) -> Result<Vec<Group>, Fault>
    ensures { IsRead (λ v. v.items) result (groups_of (table_view table.now)) }
{
    if !has_only(table, GROUPS_KEYS.as_slice()) {
        return Err(Fault::Syntax);
    }
    let value = value_at(table, "group").ok_or(Fault::Syntax)?;
    let items = tables_in(value).ok_or(Fault::Syntax)?;
    groups_of(alloc, items)
}

/// The groups of a file of groups, in order: TOML with a table `[[group]]` for each. A table has just the keys `name`,
/// `title` and `why`, which are texts, and `questions`, an array of names. A title is one of printable ASCII. Anything
/// else is `Syntax`.
pub fn read_groups(alloc: Global, text: &str) -> Result<Vec<Group>, Fault>
    ensures { IsRead (λ v. v.items) result (groups_in text.now) }
{
    match toml::table_from_str(alloc, text) {
        Ok(table) => groups_in_table(alloc, &table),
        Err(error) if error.is_memory() => Err(Fault::Memory),
        Err(_) => Err(Fault::Syntax),
    }
}
