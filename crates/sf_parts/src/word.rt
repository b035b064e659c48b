//! The bits of a word that a diagram tests.

ghost use Rattle.std.specs.Prelude.{◌≡◌, ◌+◌, ◌/◌, ◌<◌, ◌≤◌, length, false, true, IfOk, IfErr, MatchOption};
ghost use Rattle.sf_diagram.specs.Trees.{Fork};
ghost use Rattle.sf_diagram.specs.Stores.{tree_at, IsLawfulStore};
ghost use Rattle.sf_parts.specs.Words.{is_in, tested, test_count, lower_at, higher_at};

use crate::bits::weight;
use crate::fault::Fault;
use sf_diagram::{Id, Node, Store};

/// How often a word may be tested, counted along each way.
pub const TESTS: u32 = 65536;

/// The variable of a node, where it leads if this is false, and where if it is true; `None` where the node does not
/// test the word.
pub(crate) fn fork_in(store: &Store, word: u16, id: Id) -> Option<(u16, Id, Id)>
    requires { id < length store.now.trees }
    ensures fork { MatchOption result (is_in word (tree_at store.now.trees id) ≡ false)
        (λ f. (f.0 / 32 ≡ word) × (f.1 < id) × (f.2 < id) × (tree_at store.now.trees id
        ≡ Fork f.0 (tree_at store.now.trees f.1) (tree_at store.now.trees f.2))) }
    ensures lawful { IsLawfulStore store.now }
{
    match store.node(id) {
        Node::Number(_) => None,
        Node::Choice(variable, lower, higher) => {
            if variable / 32 == word {
                Some((variable, lower, higher))
            } else {
                None
            }
        }
    }
}

/// Where a node leads if a bit of the word is not set, and if it is; `None` where the node does not test the word.
pub(crate) fn sides_in(store: &Store, word: u16, bit: u32, id: Id) -> Option<(Id, Id)>
    requires within { id < length store.now.trees }
    requires bit { bit < 32 }
    ensures sides { MatchOption result (is_in word (tree_at store.now.trees id) ≡ false)
        (λ s. (is_in word (tree_at store.now.trees id) ≡ true) × (s.0 ≤ id) × (s.1 ≤ id)
        × (tree_at store.now.trees s.0 ≡ lower_at bit (tree_at store.now.trees id))
        × (tree_at store.now.trees s.1 ≡ higher_at bit (tree_at store.now.trees id))) }
{
    let (variable, lower, higher) = match fork_in(store, word, id) {
        None => return None,
        Some(fork) => fork,
    };
    if variable as u32 % 32 + bit == 31 {
        return Some((lower, higher));
    }
    Some((id, id))
}

/// The bits of the word that a node tests, and what is left of as many tests as are allowed.
pub(crate) fn tested_bits(store: &Store, word: u16, id: Id, left: u32) -> Result<(u32, u32), Fault>
    requires { id < length store.now.trees }
    ensures tested { IfOk result (λ r. r.0 ≡ tested word (tree_at store.now.trees id)) }
    ensures left { IfOk result (λ r. r.1 + test_count word (tree_at store.now.trees id) ≡ left) }
    ensures spent { IfErr result (λ e. (e ≡ Fault.Spent)
        × (left < test_count word (tree_at store.now.trees id))) }
{
    let (variable, lower, higher) = match fork_in(store, word, id) {
        None => return Ok((0, left)),
        Some(fork) => fork,
    };
    if left == 0 {
        return Err(Fault::Spent);
    }
    let (below, left) = tested_bits(store, word, lower, left - 1)?;
    let (above, left) = tested_bits(store, word, higher, left)?;
    let here = weight(31 - variable as u32 % 32);
    Ok((here | below | above, left))
}
