//! Which filters of a stack are needed.

ghost use Rattle.std.specs.Prelude.{◌≡◌, ◌⊎◌, ◌<◌, ◌≤◌, count_by, All, IfOk, IfErr};
ghost use Rattle.sf_relations.specs.Needs.{AreNeedsOf};
ghost use Rattle.sf_needed.specs.Needs.{AreNeeds};
ghost use Rattle.sf_needed.specs.Texts.{is_needed, is_spare};

use sf_check::Stack;
use sf_diagram::Store;
use sf_relations::{Example, Needs};
use sf_stack::Fault;
use std::alloc::Global;
use std::marker::Model;

/// What was found of each filter of a stack, and which filters are kept.
#[derive(Drop)]
pub struct NeededFilters {
    stack: Stack,
    // How many nodes the diagrams have.
    nodes: usize,
    // What gets further without each filter.
    findings: Vec<Option<Example>>,
    // The places of the filters that are kept.
    kept: Vec<usize>,
}

impl Model for NeededFilters {
    ghost use Rattle.std.specs.Prelude.{◌<◌, All};
    ghost use Rattle.sf_needed.specs.Needs.{NeedsData};

    ghost Value = { NeedsData };

    ghost view = { λ n. record {
      stack = n.stack;
      nodes = n.nodes;
      findings = n.findings.items;
      kept = n.kept.items;
    } };

    ghost invariant = { λ n. All (λ p. p < 64) n.kept.items };
}

impl NeededFilters {
    /// The stack.
    pub fn stack(&self) -> &Stack
        ensures { result.now ≡ self.now.stack }
    {
        &self.stack
    }

    /// How many nodes the diagrams have.
    pub fn nodes(&self) -> usize
        ensures { result ≡ self.now.nodes }
    {
        self.nodes
    }

    /// Of each filter, in order of installation, the least input that gets further without it: then it is needed.
    /// `None` where no input does: then it is spare.
    pub fn findings(&self) -> &[Option<Example>]
        ensures { result.now ≡ self.now.findings }
    {
        self.findings.as_slice()
    }

    /// The places, from 0, of the filters that are kept, in rising order. Empty where all filters were dropped: a stack
    /// without filters allows each input.
    pub fn kept(&self) -> &[usize]
        ensures same { result.now ≡ self.now.kept }
        ensures below { All (λ p. p < 64) result.now }
    {
        self.kept.as_slice()
    }

    /// How many filters are needed.
    pub fn count_needed(&self) -> usize
        ensures { result ≡ count_by is_needed self.now.findings }
    {
        self.findings
            .iter()
            .filter(|finding| matches!(finding, Some(_)))
            .count()
    }

    /// How many filters are spare.
    pub fn count_spare(&self) -> usize
        ensures { result ≡ count_by is_spare self.now.findings }
    {
        self.findings
            .iter()
            .filter(|finding| matches!(finding, None))
            .count()
    }
}

fn find(alloc: Global, nodes: u32, stack: &Stack) -> Result<(Needs, usize), sf_diagram::Fault>
    ensures below { IfOk result (λ f. All (λ p. p < 64) f.0.kept.items) }
    ensures needs { IfOk result (λ f. AreNeedsOf stack.now f.0) }
    ensures few { IfOk result (λ f. f.1 ≤ nodes) }
{
    let mut store = Store::new(alloc, nodes)?;
    let needs = sf_relations::needed(alloc, &mut store, stack.programs())?;
    Ok((needs, store.count()))
}

/// Finds which filters of a stack are needed, for all inputs, and which are kept.
///
/// A filter is needed where some input gets further without it, and spare where none does. Beside that, filters are
/// dropped from the first to the last, each where those that are left without it answer each input as the whole stack
/// does; the others are kept. It may be that none is kept: a stack without filters allows each input.
///
/// `TooLarge` where the diagrams of the answers would have more than `nodes` nodes.
pub fn needed(alloc: Global, nodes: u32, stack: Stack) -> Result<NeededFilters, Fault>
    ensures stack { IfOk result (λ n. n.stack ≡ stack) }
    ensures needs { IfOk result AreNeeds }
    ensures few { IfOk result (λ n. n.nodes ≤ nodes) }
    ensures refused { IfErr result (λ e. (e ≡ Fault.Memory) ⊎ (e ≡ Fault.TooLarge nodes)) }
{
    match find(alloc, nodes, &stack) {
        Ok((needs, nodes)) => Ok(NeededFilters {
            stack,
            nodes,
            findings: needs.findings,
            kept: needs.kept,
        }),
        Err(fault) => Err(Fault::of_diagrams(fault, nodes)),
    }
}
