//! Laws of lawful books, for the reader and the crates above.

ghost use Rattle.std.specs.Prelude.{◌≡◌, ◌+◌, ◌*◌, ◌<◌, ◌≤◌, ◌↔◌, ◌⊎◌, [], length};
ghost use Rattle.sf_insn.specs.declared.input.Input.{Input};
ghost use Rattle.sf_insn.specs.Inputs.{IsInput};
ghost use Rattle.sf_run.specs.Feasible.{feasible_traces};
ghost use Rattle.sf_book.specs.Books.{BookData, IsLawfulBook, IsSettled};
ghost use Rattle.sf_book.specs.Exact.{IsWorkedOff};
ghost use Rattle.sf_book.specs.PlainBooks.{IsPlainBook};
ghost use Rattle.sf_book.specs.Unfoldings.{ExplorationsHaveOneResult};
ghost use Rattle.sf_book.specs.Partition.{parts_of, names_of, LiesInOne, NoneBeginsAnother};

use sf_piece::laws::execution_has_one_result;

/// For the prover: each input lies in exactly one outstanding piece or settled region of a lawful book.
#[tactic(auto, using(crate::specs::laws::PartitionLaws::lies_in_one))]
pub fn each_input_lies_in_one()
    ensures { (b : BookData) → IsLawfulBook b → (d : Input) → IsInput d
        → LiesInOne (parts_of b) d }
{}

/// For the prover: in a lawful book no name is the beginning of another one.
#[tactic(auto, using(crate::specs::laws::PartitionLaws::none_begins_another))]
pub fn no_name_begins_another()
    ensures { (b : BookData) → IsLawfulBook b → NoneBeginsAnother (names_of b) }
{}

/// For the prover: a lawful book of a plain stack has at most as many outstanding pieces and regions as the stack has
/// feasible traces. A trace is feasible where some input has it.
pub fn at_most_one_for_each_trace()
    ensures { (b : BookData) → IsLawfulBook b → IsPlainBook b →
        length b.outstanding + length b.regions ≤ length (feasible_traces b.stack) }
{}

/// For the prover: where an exploration of a plain stack ended with nothing outstanding, the names of its regions are
/// the feasible traces. For n traces there were 2 n - 1 commits: n settled a piece, and the others split one.
pub fn what_is_worked_off_names_each_trace()
    ensures { (b : BookData) → IsSettled b → IsPlainBook b → b.outstanding ≡ [] →
        IsWorkedOff b (feasible_traces b.stack) }
{}

/// For the prover: while a lawful book of a plain stack with n feasible traces has something outstanding, fewer than 2
/// n - 1 works are committed.
pub fn what_is_left_took_fewer_works()
    ensures { (b : BookData) → IsLawfulBook b → IsPlainBook b → 0 < length b.outstanding →
        b.commits + 1 < 2 * length (feasible_traces b.stack) }
{}

/// For the prover: an exploration of a plain stack with n feasible traces ends with nothing outstanding exactly where
/// its budget is at least 2 n - 1.
pub fn the_least_budget_that_leaves_nothing()
    ensures { (b : BookData) → IsSettled b → IsPlainBook b → (b.outstanding ≡ [])
        ⊎ (b.commits ≡ b.budget) →
        (b.outstanding ≡ []) ↔ (2 * length (feasible_traces b.stack) ≤ b.budget + 1) }
{}

/// For the prover: two explorations of one stack that ended with nothing outstanding have one result, whatever their
/// budgets were, and in whatever order the works came.
pub fn explorations_have_one_result()
    ensures { ExplorationsHaveOneResult }
{
    execution_has_one_result();
}
