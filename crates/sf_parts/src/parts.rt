//! The parts of a word: behind the numbers of a part comes the same.

ghost use Rattle.std.specs.Prelude.{◌≡◌, ◌==◌, ◌||◌, ◌-◌, ◌<◌, [], ◌∷◌, ◌++◌, length, map, not, true, false, All, IfOk, IfErr, OnOk, nat_le, if◌then◌else◌};
ghost use Rattle.std.specs.List.{list_any};
ghost use Rattle.sf_diagram.specs.Stores.{tree_at, IsLawfulStore};
ghost use Rattle.sf_parts.specs.Words.{test_count};
ghost use Rattle.sf_parts.specs.Parts.{behinds_after, joined_parts, part_in, parts_in, rest_in, span_part, spans_of, ways_from};
ghost use Rattle.sf_parts.specs.Stored.{part_seen, run_seen};

use crate::bits::{mask_of, with_bit};
use crate::fault::Fault;
use crate::form::{Form, Span};
use crate::runs::{Run, runs_of};
use crate::word::{TESTS, fork_in, tested_bits};
use sf_diagram::{Id, Store};
use std::alloc::{AllocError, Global};
use std::marker::Model;

#[derive(Drop)]
pub(crate) struct Part {
    /// How its numbers are written.
    pub(crate) form: Form,
    /// What comes behind them.
    pub(crate) behind: Id,
}

impl Model for Part {
    ghost use Rattle.sf_parts.specs.Stored.{StoredPart};

    ghost Value = { StoredPart };

    ghost view = { λ p. record { form = p.form; behind = p.behind } };
}

fn longer(best: Run, run: Run) -> Run
    ensures { result ≡ (if nat_le (best.last - best.first) (run.last - run.first)
        then run else best) }
{
    if best.last.saturating_sub(best.first) <= run.last.saturating_sub(run.first) {
        run
    } else {
        best
    }
}

/// What comes behind the longest run, the last one of several.
fn rest_of(store: &Store, runs: &[Run]) -> Id
    requires kept { All (λ r. r.behind < length store.now.trees) runs.now }
    requires some { 0 < length runs.now }
    ensures within { result < length store.now.trees }
    ensures rest { tree_at store.now.trees result
        ≡ rest_in (map (run_seen store.now.trees) runs.now) }
{
    let mut best = runs[0];
    for run in runs {
        let pick = longer(best, *run);
        best = pick;
    }
    best.behind
}

fn is_known(known: &[Id], behind: Id) -> bool
    ensures { result ≡ list_any (λ b. behind == b) known.now }
{
    known.iter().any(|b| behind == *b)
}

fn is_old(known: &[Id], rest: Id, behind: Id) -> bool
    ensures { result ≡ (behind == rest || list_any (λ b. behind == b) known.now) }
{
    let found = is_known(known, behind);
    behind == rest || found
}

fn push_known(known: &mut Vec<Id>, rest: Id, behind: Id) -> Result<(), AllocError>
    ensures { OnOk result (known.new.items
        ≡ (if behind == rest || list_any (λ b. behind == b) known.old.items
        then known.old.items else known.old.items ++ behind ∷ [])) }
{
    if is_old(known, rest, behind) {
        return Ok(());
    }
    known.push(behind)?;
    Ok(())
}

/// What comes behind runs but the rest, each once.
fn behinds_of(alloc: Global, store: &Store, runs: &[Run], rest: Id) -> Result<Vec<Id>, AllocError>
    requires lawful { IsLawfulStore store.now }
    requires kept { All (λ r. r.behind < length store.now.trees) runs.now }
    requires within { rest < length store.now.trees }
    ensures kept { IfOk result (λ v. All (λ b. b < length store.now.trees) v.items) }
    ensures behinds { IfOk result (λ v. map (tree_at store.now.trees) v.items
        ≡ behinds_after (tree_at store.now.trees rest ∷ [])
        (map (run_seen store.now.trees) runs.now)) }
{
    let mut known = Vec::new(alloc);
    for run in runs {
        push_known(&mut known, rest, run.behind)?;
    }
    Ok(known)
}

/// Whether a run is meant: one that leads to a node, or one that doesn't.
fn is_meant(same: bool, without: bool) -> bool
    ensures { result ≡ (if without then not same else same) }
{
    if without { !same } else { same }
}

/// The numbers of a run.
fn span_of(run: Run) -> Span
    ensures { result ≡ record { first = run.first; last = run.last } }
{
    let first = run.first;
    let last = run.last;
    Span { first, last }
}

/// Adds the span of a run, if it is meant.
fn push_span(spans: &mut Vec<Span>, run: Run, meant: bool) -> Result<(), AllocError>
    ensures { OnOk result (spans.new.items ≡ spans.old.items ++ (if meant
        then record { first = run.first; last = run.last } ∷ [] else [])) }
{
    if meant {
        spans.push(span_of(run))?;
    }
    Ok(())
}

/// The spans of the runs that lead to a node, or of the others.
fn spans_of(
    alloc: Global,
    store: &Store,
    runs: &[Run],
    behind: Id,
    without: bool,
) -> Result<Vec<Span>, AllocError>
    requires lawful { IsLawfulStore store.now }
    requires kept { All (λ r. r.behind < length store.now.trees) runs.now }
    requires within { behind < length store.now.trees }
    ensures { IfOk result (λ v. v.items
        ≡ spans_of (map (run_seen store.now.trees) runs.now)
        (tree_at store.now.trees behind) without) }
{
    let mut spans = Vec::new(alloc);
    for run in runs {
        let meant = is_meant(run.behind == behind, without);
        push_span(&mut spans, *run, meant)?;
    }
    Ok(spans)
}

/// The part of the runs that lead to a node, or of what the others leave.
fn part_of(
    alloc: Global,
    store: &Store,
    mask: u32,
    runs: &[Run],
    behind: Id,
    without: bool,
) -> Result<Part, AllocError>
    requires lawful { IsLawfulStore store.now }
    requires kept { All (λ r. r.behind < length store.now.trees) runs.now }
    requires within { behind < length store.now.trees }
    ensures behind { IfOk result (λ p. p.behind ≡ behind) }
    ensures part { IfOk result (λ p. part_seen store.now.trees p
        ≡ part_in mask (map (run_seen store.now.trees) runs.now) without
        (tree_at store.now.trees behind)) }
{
    let spans = spans_of(alloc, store, runs, behind, without)?;
    let form = Form {
        mask,
        without,
        spans,
    };
    Ok(Part { form, behind })
}

/// The parts of what comes behind runs under the mask, the rest last.
fn parts_by(
    alloc: Global,
    store: &Store,
    mask: u32,
    runs: &[Run],
    behinds: &[Id],
    rest: Id,
) -> Result<Vec<Part>, AllocError>
    requires lawful { IsLawfulStore store.now }
    requires kept { All (λ r. r.behind < length store.now.trees) runs.now }
    requires behinds { All (λ b. b < length store.now.trees) behinds.now }
    requires within { rest < length store.now.trees }
    ensures kept { IfOk result (λ v. All (λ p. p.behind < length store.now.trees) v.items) }
    ensures parts { IfOk result (λ v. map (part_seen store.now.trees) v.items
        ≡ map (part_in mask (map (run_seen store.now.trees) runs.now) false)
        (map (tree_at store.now.trees) behinds.now)
        ++ part_in mask (map (run_seen store.now.trees) runs.now) true
        (tree_at store.now.trees rest) ∷ []) }
{
    let mut parts = Vec::new(alloc);
    for behind in behinds {
        let part = part_of(alloc, store, mask, runs, *behind, false)?;
        parts.push(part)?;
    }
    let last = part_of(alloc, store, mask, runs, rest, true)?;
    parts.push(last)?;
    Ok(parts)
}

fn joined_parts(
    alloc: Global,
    store: &Store,
    mask: u32,
    runs: &[Run],
) -> Result<Vec<Part>, AllocError>
    requires lawful { IsLawfulStore store.now }
    requires kept { All (λ r. r.behind < length store.now.trees) runs.now }
    requires some { 0 < length runs.now }
    ensures kept { IfOk result (λ v. All (λ p. p.behind < length store.now.trees) v.items) }
    ensures parts { IfOk result (λ v. map (part_seen store.now.trees) v.items
        ≡ joined_parts mask (map (run_seen store.now.trees) runs.now)) }
{
    let rest = rest_of(store, runs);
    let behinds = behinds_of(alloc, store, runs, rest)?;
    let parts = parts_by(alloc, store, mask, runs, &behinds, rest)?;
    Ok(parts)
}

/// A part whose numbers are, under the mask, those of one span.
fn span_part(alloc: Global, mask: u32, span: Span, behind: Id) -> Result<Part, AllocError>
    ensures { IfOk result (λ p. p ≡ record {
      form = record { mask = mask; without = false; spans = span ∷ [] };
      behind = behind;
    }) }
{
    let mut spans = Vec::new(alloc);
    spans.push(span)?;
    let form = Form {
        mask,
        without: false,
        spans,
    };
    Ok(Part { form, behind })
}

fn apart_parts(
    alloc: Global,
    store: &Store,
    mask: u32,
    runs: &[Run],
) -> Result<Vec<Part>, AllocError>
    requires kept { All (λ r. r.behind < length store.now.trees) runs.now }
    ensures kept { IfOk result (λ v. All (λ p. p.behind < length store.now.trees) v.items) }
    ensures parts { IfOk result (λ v. map (part_seen store.now.trees) v.items
        ≡ map (λ r. span_part mask r.first r.last r.behind)
        (map (run_seen store.now.trees) runs.now)) }
{
    let mut parts = Vec::new(alloc);
    for run in runs {
        let part = span_part(alloc, mask, span_of(*run), run.behind)?;
        parts.push(part)?;
    }
    Ok(parts)
}

/// A way through a word, or its beginning: the bits that are tested on it, and the number that they make.
#[derive(Clone, Copy)]
struct Way {
    word: u16,
    mask: u32,
    number: u32,
}

/// Adds the ways that begin so, and lead on from a node.
fn push_ways(
    alloc: Global,
    store: &Store,
    way: Way,
    id: Id,
    parts: &mut Vec<Part>,
) -> Result<(), AllocError>
    requires within { id < length store.now.trees }
    requires kept { All (λ p. p.behind < length store.now.trees) parts.old.items }
    ensures kept { OnOk result (All (λ p. p.behind < length store.now.trees) parts.new.items) }
    ensures parts { OnOk result (map (part_seen store.now.trees) parts.new.items
        ≡ map (part_seen store.now.trees) parts.old.items
        ++ ways_from way.word way.mask way.number (tree_at store.now.trees id)) }
{
    let (variable, lower, higher) = match fork_in(store, way.word, id) {
        None => {
            let first = way.number;
            let last = way.number;
            let part = span_part(alloc, way.mask, Span { first, last }, id)?;
            parts.push(part)?;
            return Ok(());
        }
        Some(fork) => fork,
    };
    let mask = with_bit(way.mask, variable);
    let number = with_bit(way.number, variable);
    let clear = Way {
        word: way.word,
        mask,
        number: way.number,
    };
    push_ways(alloc, store, clear, lower, parts)?;
    let set = Way {
        word: way.word,
        mask,
        number,
    };
    push_ways(alloc, store, set, higher, parts)?;
    Ok(())
}

/// The ways through a word of a node.
fn ways_of(alloc: Global, store: &Store, word: u16, id: Id) -> Result<Vec<Part>, AllocError>
    requires { id < length store.now.trees }
    ensures kept { IfOk result (λ v. All (λ p. p.behind < length store.now.trees) v.items) }
    ensures parts { IfOk result (λ v. map (part_seen store.now.trees) v.items
        ≡ ways_from word 0 0 (tree_at store.now.trees id)) }
{
    let mut parts = Vec::new(alloc);
    let start = Way {
        word,
        mask: 0,
        number: 0,
    };
    push_ways(alloc, store, start, id, &mut parts)?;
    Ok(parts)
}

/// The parts of a word of a node. `Spent` where the word is tested more often than is allowed.
pub(crate) fn parts_of(
    alloc: Global,
    store: &Store,
    word: u16,
    apart: bool,
    id: Id,
) -> Result<Vec<Part>, Fault>
    requires lawful { IsLawfulStore store.now }
    requires within { id < length store.now.trees }
    ensures kept { IfOk result (λ v. All (λ p. p.behind < length store.now.trees) v.items) }
    ensures parts { IfOk result (λ v. map (part_seen store.now.trees) v.items
        ≡ parts_in word apart (tree_at store.now.trees id)) }
    ensures spent { IfErr result (λ e. e ≡ Fault.Spent
        → TESTS < test_count word (tree_at store.now.trees id)) }
{
    let (tested, left) = tested_bits(store, word, id, TESTS)?;
    let mask = mask_of(tested);
    let ways = TESTS - left + 1;
    let found = runs_of(alloc, store, word, mask, ways, id)?;
    let runs = match found {
        None => return Ok(ways_of(alloc, store, word, id)?),
        Some(runs) => runs,
    };
    if apart {
        return Ok(apart_parts(alloc, store, mask, &runs)?);
    }
    Ok(joined_parts(alloc, store, mask, &runs)?)
}
