//! The listing of a stack.

ghost use Rattle.std.specs.Prelude.{◌≡◌, ◌⊎◌, IfErr, IfOk, map, option_map};
ghost use Rattle.sf_list.specs.Listings.{IsListing};

use sf_behaviour::behaviour;
use sf_check::Stack;
use sf_diagram::Store;
use sf_names::Names;
use sf_rows::{Shown, Subject, show};
use sf_stack::Fault;
use std::alloc::Global;
use std::marker::Model;

/// What a stack does to each input: rows that are read off the diagram of its answers.
#[derive(Drop)]
pub struct Listing<'a> {
    stack: Stack,
    shown: Shown<'a>,
}

impl<'a> Model for Listing<'a> {
    ghost use Rattle.sf_list.specs.Listings.{Listed};

    ghost Value = { Listed };

    ghost view = { λ l. record { programs = l.stack; shown = l.shown } };
}

impl<'a> Listing<'a> {
    /// The stack.
    pub fn stack(&self) -> &Stack
        ensures { result.now ≡ self.now.programs }
    {
        &self.stack
    }

    /// The rows that are shown.
    pub fn shown(&self) -> &Shown<'a>
        ensures { result.now ≡ self.now.shown }
    {
        &self.shown
    }
}

fn listing_of<'a>(
    alloc: Global,
    nodes: u32,
    stack: Stack,
    sets: &'a [Names],
    calls: &Option<Vec<&str>>,
) -> Result<Listing<'a>, sf_rows::Fault>
    ensures stack { IfOk result (λ l. l.programs ≡ stack) }
    ensures listed { IfOk result (IsListing sets.now
        (option_map (λ v. map (λ t. t.now) v.items) calls.now)) }
{
    let mut store = Store::new(alloc, nodes)?;
    let answers = behaviour(alloc, &mut store, stack.programs())?;
    // For the prover: the trees of a store are canonical.
    let _node = store.node(answers);
    let shown = show(alloc, &mut store, Subject::Stack, answers, sets, calls)?;
    Ok(Listing { stack, shown })
}

/// Lists what a stack does to each input. Without `calls` each row stands by itself. Where `calls` names some, there
/// are the rows of these calls of `sets`; a name that no set has adds nothing. Where it names none, there are those of
/// all calls, and beside them the rows of the inputs of calls without a name.
///
/// `TooLarge` where the diagrams of the answers would have more than `nodes` nodes; `TooManyRows` where there would be
/// too many rows, or a word is tested too often.
pub fn list<'a>(
    alloc: Global,
    nodes: u32,
    stack: Stack,
    sets: &'a [Names],
    calls: &Option<Vec<&str>>,
) -> Result<Listing<'a>, Fault>
    ensures stack { IfOk result (λ l. l.programs ≡ stack) }
    ensures listed { IfOk result (IsListing sets.now
        (option_map (λ v. map (λ t. t.now) v.items) calls.now)) }
    ensures refused { IfErr result (λ e. (e ≡ Fault.Memory) ⊎ ((e ≡ Fault.TooLarge nodes)
        ⊎ (e ≡ Fault.TooManyRows))) }
{
    listing_of(alloc, nodes, stack, sets, calls).map_err(|fault| fault.told(nodes))
}
