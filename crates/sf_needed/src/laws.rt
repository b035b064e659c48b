//! Laws of the definitions, each the contract of a function that only calls other laws.

ghost use Rattle.std.specs.Prelude.{◌≡◌};
ghost use Rattle.sf_relations.specs.Needs.{AnswerTheSame, filters_at};
ghost use Rattle.sf_needed.specs.Needs.{AreNeeds, NeedsData};

use sf_relations::{kept_filters_answer_alike, one_finding, one_list_of_kept_filters};

/// What is found of the same stack differs at most in how many nodes the diagrams have. So it has one text and one
/// document, where this number is the same.
pub fn one_result()
    ensures { (m n : NeedsData) → AreNeeds m → AreNeeds n → m.stack ≡ n.stack → m.nodes ≡ n.nodes
        → m ≡ n }
{
    one_finding();
    one_list_of_kept_filters();
}

/// The filters that are kept answer each input as the whole stack does.
pub fn kept_filters_of_a_stack_answer_alike()
    ensures { (n : NeedsData) → AreNeeds n
        → AnswerTheSame n.stack (filters_at n.stack n.kept) }
{
    kept_filters_answer_alike();
}
