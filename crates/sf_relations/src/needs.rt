ghost use Rattle.std.specs.Prelude.{◌≡◌, ◌<◌, length, All, IfOk, IfErr};
ghost use Rattle.sf_diagram.specs.Stores.{KeepsStore, IsFull};
ghost use Rattle.sf_relations.specs.Parts.{AreParts};
ghost use Rattle.sf_relations.specs.Needs.{AreFoundWithout, AreKeptUpTo, AreNeedsOf};

use crate::examples::{Example, least_example};
use crate::parts::{join, parts_of};
use crate::relation::Relation;
use sf_behaviour::equal_behaviours_make_equal_ids;
use sf_check::Program;
use sf_diagram::{Fault, Id, Store};
use std::alloc::Global;

/// What was found of each filter of a stack, and which filters are kept.
#[derive(Drop)]
pub struct Needs {
    /// Of each filter, in order of installation, the least input that gets further without it: then it is needed, and
    /// otherwise spare.
    pub findings: Vec<Option<Example>>,
    /// The places, from 0, of the filters that are kept, in rising order.
    pub kept: Vec<usize>,
}

/// Of each filter the least input that gets further without it. `alone` and `last` are the parts of the stack.
fn find_each(
    alloc: Global,
    store: &mut Store,
    programs: &[Program],
    alone: &[Id],
    last: &[Id],
) -> Result<Vec<Option<Example>>, Fault>
    requires { AreParts store.old.trees programs.now (length programs.now) alone.now last.now }
    ensures found { IfOk result (λ v. AreFoundWithout programs.now v.items) }
    ensures keeps { KeepsStore store.old store.new }
    ensures spent { IfErr result (λ e. e ≡ Fault.Spent → IsFull store.new) }
{
    let mut findings = Vec::new(alloc);
    let mut older = last[0];
    for place in 0..programs.len() {
        let behind = programs.len() - 1 - place;
        let without = join(store, last[behind], older)?;
        let all = last[programs.len()];
        let found = least_example(alloc, store, Relation::Looser, all, without)?;
        findings.push(found)?;
        older = join(store, alone[behind], older)?;
    }
    Ok(findings)
}

/// The places of the filters that are kept: from the first to the last, a filter is dropped where those that are left
/// without it answer each input as the whole stack does.
fn keep_each(
    alloc: Global,
    store: &mut Store,
    programs: &[Program],
    alone: &[Id],
    last: &[Id],
) -> Result<Vec<usize>, Fault>
    requires { AreParts store.old.trees programs.now (length programs.now) alone.now last.now }
    ensures below { IfOk result (λ v. All (λ p. p < length programs.now) v.items) }
    ensures kept { IfOk result (λ v. AreKeptUpTo programs.now (length programs.now) v.items) }
    ensures keeps { KeepsStore store.old store.new }
    ensures spent { IfErr result (λ e. e ≡ Fault.Spent → IsFull store.new) }
{
    // For the prover: two stacks answer alike just where they have one diagram.
    equal_behaviours_make_equal_ids();
    let mut kept = Vec::new(alloc);
    let mut older = last[0];
    for place in 0..programs.len() {
        let behind = programs.len() - 1 - place;
        let others = join(store, last[behind], older)?;
        if others == last[programs.len()] {
            continue;
        }
        kept.push(place)?;
        older = join(store, alone[behind], older)?;
    }
    Ok(kept)
}

/// Which filters a stack, given by its programs, the oldest one first, needs for all inputs, and which are kept: from
/// the first to the last, each is dropped where those that are left answer each input as the whole stack does.
pub fn needed(alloc: Global, store: &mut Store, programs: &[Program]) -> Result<Needs, Fault>
    ensures below { IfOk result (λ n. All (λ p. p < length programs.now) n.kept.items) }
    ensures needs { IfOk result (AreNeedsOf programs.now) }
    ensures keeps { KeepsStore store.old store.new }
    ensures spent { IfErr result (λ e. e ≡ Fault.Spent → IsFull store.new) }
{
    let parts = parts_of(alloc, store, programs)?;
    let findings = find_each(alloc, store, programs, &parts.alone, &parts.last)?;
    let kept = keep_each(alloc, store, programs, &parts.alone, &parts.last)?;
    Ok(Needs { findings, kept })
}
