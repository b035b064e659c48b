//! The comparison of two stacks.

ghost use Rattle.std.specs.Prelude.{◌≡◌, ◌⊎◌, ◌↔◌, ◌<◌, ◌≤◌, List, length, IfOk, IfErr, IsTrue};
ghost use Rattle.sf_check.specs.declared.insn.Insn.{Insn};
ghost use Rattle.sf_diagram.specs.Stores.{KeepsStore};
ghost use Rattle.sf_behaviour.specs.Answering.{IsBehaviour};
ghost use Rattle.sf_relations.specs.Comparing.{AreFindingsBetween};
ghost use Rattle.sf_compare.specs.Comparisons.{IsComparison, LetsSomeThrough, finding_of};

use sf_behaviour::behaviour;
use sf_check::Stack;
use sf_diagram::{Id, Store};
use sf_relations::{Example, Findings, Relation, find_changes, least_example};
use sf_stack::Fault;
use std::alloc::Global;
use std::marker::Model;

/// What is found of each relation between the answers of two stacks.
#[derive(Drop)]
pub struct Comparison {
    old: Stack,
    new: Stack,
    // How many nodes the diagrams have.
    nodes: usize,
    findings: Findings,
    // Whether some call may get through the old stack, and through the new one.
    through_old: bool,
    through_new: bool,
}

impl Model for Comparison {
    ghost use Rattle.sf_compare.specs.Comparisons.{Compared};

    ghost Value = { Compared };

    ghost view = { λ c. record {
      old = c.old;
      new = c.new;
      nodes = c.nodes;
      findings = c.findings;
      through_old = c.through_old;
      through_new = c.through_new;
    } };
}

impl Comparison {
    /// The old stack.
    pub fn old_stack(&self) -> &Stack
        ensures { result.now ≡ self.now.old }
    {
        &self.old
    }

    /// The new stack.
    pub fn new_stack(&self) -> &Stack
        ensures { result.now ≡ self.now.new }
    {
        &self.new
    }

    /// How many nodes the diagrams have.
    pub fn nodes(&self) -> usize
        ensures { result ≡ self.now.nodes }
    {
        self.nodes
    }

    /// Whether some call may get through the old stack, and whether one may through the new one.
    pub fn passing(&self) -> (bool, bool)
        ensures old { result.0 ≡ self.now.through_old }
        ensures new { result.1 ≡ self.now.through_new }
    {
        (self.through_old, self.through_new)
    }

    /// What is found of a relation: the least input that has it, with both answers.
    pub fn finding(&self, relation: Relation) -> Option<Example>
        ensures { result ≡ finding_of self.now.findings relation }
    {
        match relation {
            Relation::Looser => self.findings.looser,
            Relation::Tighter => self.findings.tighter,
            Relation::Different => self.findings.different,
            Relation::Pretended => self.findings.pretended,
        }
    }
}

/// Whether some call may get through a stack, by the diagram of its answers: by some answer it gets further than by
/// KILL_THREAD, whose number is 0.
fn lets_some_through(
    alloc: Global,
    store: &mut Store,
    answers: Id,
) -> Result<bool, sf_diagram::Fault>
    requires { answers < length store.old.trees }
    ensures through { IfOk result (λ through. (programs : List (List Insn))
        → IsBehaviour programs store.old.trees answers
        → (IsTrue through ↔ LetsSomeThrough programs)) }
    ensures keeps { KeepsStore store.old store.new }
{
    let refused = store.leaf(0)?;
    let found = least_example(alloc, store, Relation::Looser, refused, answers)?;
    Ok(found.is_some())
}

fn find(
    alloc: Global,
    nodes: u32,
    old: &Stack,
    new: &Stack,
) -> Result<(Findings, bool, bool, usize), sf_diagram::Fault>
    ensures findings { IfOk result (λ f. AreFindingsBetween old.now new.now f.0) }
    ensures old { IfOk result (λ f. IsTrue f.1 ↔ LetsSomeThrough old.now) }
    ensures new { IfOk result (λ f. IsTrue f.2 ↔ LetsSomeThrough new.now) }
    ensures few { IfOk result (λ f. f.3 ≤ nodes) }
{
    let mut store = Store::new(alloc, nodes)?;
    let before = behaviour(alloc, &mut store, old.programs())?;
    let after = behaviour(alloc, &mut store, new.programs())?;
    let findings = find_changes(alloc, &mut store, before, after)?;
    let through_old = lets_some_through(alloc, &mut store, before)?;
    let through_new = lets_some_through(alloc, &mut store, after)?;
    Ok((findings, through_old, through_new, store.count()))
}

/// Compares two stacks, for all inputs. `TooLarge` where the diagrams of their answers would have more than `nodes`
/// nodes.
pub fn compare(alloc: Global, nodes: u32, old: Stack, new: Stack) -> Result<Comparison, Fault>
    ensures old { IfOk result (λ c. c.old ≡ old) }
    ensures new { IfOk result (λ c. c.new ≡ new) }
    ensures found { IfOk result IsComparison }
    ensures few { IfOk result (λ c. c.nodes ≤ nodes) }
    ensures refused { IfErr result (λ e. (e ≡ Fault.Memory) ⊎ (e ≡ Fault.TooLarge nodes)) }
{
    match find(alloc, nodes, &old, &new) {
        Ok((findings, through_old, through_new, nodes)) => Ok(Comparison {
            old,
            new,
            nodes,
            findings,
            through_old,
            through_new,
        }),
        Err(fault) => Err(Fault::of_diagrams(fault, nodes)),
    }
}
