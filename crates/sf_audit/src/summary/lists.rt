//! The questions of a summary, each with all that is told of it, and which of them are listed where.

ghost use Rattle.std.specs.Prelude.{◌≡◌, ◌++◌, IfOk, OnOk, length, map, position};
ghost use Rattle.serde_json.specs.View.{view};
ghost use Rattle.sf_audit.specs.Summaries.{comment_at, count_of, has_question, is_in, is_kind, is_listed, listed_name, names_of, row_of, rows_of, section_of, summary_data};

use super::Summary;
use crate::counting::is_allowed;
use crate::expecting::{Expected, is_accepted};
use sf_ask::{Question, Reply};
use sf_json::Document;
use sf_policy::Group;
use std::alloc::{AllocError, Global};
use std::marker::Model;

/// Which questions are meant.
#[derive(Clone, Copy)]
pub(super) enum Kind {
    Asked,
    Allowed,
    /// Allowed, and accepted.
    Accepted,
    /// Allowed, and not accepted.
    Unexpected,
    Unsettled,
}

/// A question of a summary.
#[derive(Drop)]
pub(super) struct Row<'q> {
    pub(super) name: &'q str,
    pub(super) reply: Reply,
    /// The place of its group; behind all groups where none has it.
    place: usize,
    accepted: bool,
    /// The comment that stands above it in its policy; empty where there is none.
    pub(super) comment: &'q str,
}

impl<'q> Model for Row<'q> {
    ghost use Rattle.sf_audit.specs.Summaries.{RowData};

    ghost Value = { RowData };

    ghost view = { λ r. record {
      name = r.name.now;
      reply = r.reply;
      place = r.place;
      accepted = r.accepted;
      comment = r.comment.now;
    } };
}

impl Row<'_> {
    fn is_kind(&self, kind: Kind) -> bool
        ensures { result ≡ is_kind kind self.now }
    {
        match kind {
            Kind::Asked => true,
            Kind::Allowed => is_allowed(&self.reply),
            Kind::Accepted => is_allowed(&self.reply) && self.accepted,
            Kind::Unexpected => is_allowed(&self.reply) && !self.accepted,
            Kind::Unsettled => matches!(self.reply, Reply::Unsettled),
        }
    }

    fn is_in(&self, place: Option<usize>) -> bool
        ensures { result ≡ is_in place self.now }
    {
        match place {
            Some(place) => self.place == place,
            None => true,
        }
    }

    pub(super) fn is_listed(&self, place: Option<usize>, kind: Kind) -> bool
        ensures { result ≡ is_listed place kind self.now }
    {
        self.is_in(place) && self.is_kind(kind)
    }
}

fn has_question(group: &Group, name: &str) -> bool
    ensures { result ≡ has_question name.now group.now }
{
    is_accepted(group.questions(), name)
}

fn place_of(groups: &[Group], name: &str) -> Option<usize>
    ensures { result ≡ position (has_question name.now) groups.now }
{
    groups.iter().position(|group| has_question(group, name))
}

fn section_of(groups: &[Group], name: &str) -> usize
    ensures { result ≡ section_of groups.now name.now }
{
    place_of(groups, name).unwrap_or(groups.len())
}

fn comment_at<'o>(origins: &'o [Document], place: usize) -> &'o str
    ensures { result.now ≡ comment_at (map view origins.now) place }
{
    match origins.get(place) {
        Some(origin) => match origin.text_at("comment") {
            Some(comment) => comment,
            None => "",
        },
        None => "",
    }
}

fn row_of<'q>(
    summary: &Summary<'q>,
    expected: &Expected,
    place: usize,
    name: &'q str,
    reply: Reply,
) -> Row<'q>
    ensures { result ≡ row_of (summary_data summary.now) expected.now place name.now reply }
{
    Row {
        name,
        reply,
        place: section_of(summary.groups, name),
        accepted: expected.is_accepted(name),
        comment: comment_at(summary.origins, place),
    }
}

pub(super) fn rows_of<'q>(
    alloc: Global,
    summary: &Summary<'q>,
    expected: &Expected,
    questions: &'q [Question],
    replies: &[Reply],
) -> Result<Vec<Row<'q>>, AllocError>
    requires { length questions.now ≡ length replies.now }
    ensures { IfOk result (λ v. v.items
        ≡ rows_of (summary_data summary.now) expected.now 0 questions.now replies.now) }
{
    let mut rows = Vec::new(alloc);
    for (i, question) in questions.iter().enumerate() {
        rows.push(row_of(summary, expected, i, question.name(), replies[i]))?;
    }
    Ok(rows)
}

pub(super) fn push_listed<'q>(
    names: &mut Vec<&'q str>,
    listed: bool,
    name: &'q str,
) -> Result<(), AllocError>
    ensures { OnOk result (map (λ t. t.now) names.new.items
        ≡ map (λ t. t.now) names.old.items ++ listed_name listed name.now) }
{
    if listed {
        names.push(name)?;
    }
    Ok(())
}

pub(super) fn names_of<'q>(
    alloc: Global,
    rows: &'q [Row<'_>],
    place: Option<usize>,
    kind: Kind,
) -> Result<Vec<&'q str>, AllocError>
    ensures { IfOk result (λ v. map (λ t. t.now) v.items ≡ names_of place kind rows.now) }
{
    let mut names = Vec::new(alloc);
    for row in rows {
        push_listed(&mut names, row.is_listed(place, kind), row.name)?;
    }
    Ok(names)
}

pub(super) fn count_of(rows: &[Row<'_>], place: Option<usize>, kind: Kind) -> usize
    ensures { result ≡ count_of place kind rows.now }
{
    rows.iter().filter(|row| row.is_listed(place, kind)).count()
}
