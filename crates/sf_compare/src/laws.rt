//! Laws of the definitions, each the contract of a function that does nothing, or only calls other laws.

ghost use Rattle.std.specs.Prelude.{◌≡◌, List, None, codes, ◌∷◌, []};
ghost use Rattle.sf_insn.specs.declared.input.Input.{Input};
ghost use Rattle.sf_insn.specs.Inputs.{IsInput};
ghost use Rattle.sf_check.specs.declared.insn.Insn.{Insn};
ghost use Rattle.sf_question.specs.QuestionData.{QuestionData};
ghost use Rattle.sf_question.specs.Breaking.{Breaks};
ghost use Rattle.sf_policy.specs.Actions.{actions_of};
ghost use Rattle.sf_relations.specs.declared.relation.Relation.TheVariants.{Looser};
ghost use Rattle.sf_relations.specs.Changes.{IsFinding};
ghost use Rattle.sf_compare.specs.Comparisons.{Compared, IsComparison};
ghost use Rattle.sf_compare.specs.Upward.{IsUpward};

use sf_relations::one_finding;

/// Two comparisons of the same stacks differ at most in how many nodes their diagrams have. So they have one text and
/// one document, where this number is the same.
pub fn one_comparison()
    ensures { (c d : Compared) → IsComparison c → IsComparison d → c.old ≡ d.old → c.new ≡ d.new
        → c.nodes ≡ d.nodes → c ≡ d }
{
    one_finding();
}

/// Where no input gets further under the new stack, each input that breaks a question under the new stack also breaks
/// it under the old one. The condition on the question: with each of its actions, it asks about all actions that let a
/// call get as far or further. So where the reply to such a question is `never` for the old stack, `never` holds for
/// the new one too.
pub fn never_looser_breaks_no_more()
    ensures { (old new : List (List Insn)) (q : QuestionData) (d : Input)
        → IsFinding old new Looser None → IsUpward q.actions → IsInput d → Breaks new q d
        → Breaks old q d }
{}

/// A question that names no actions in a policy asks about ALLOW and LOG. No other action lets a call get as far as
/// these two, so the question meets the condition of `never_looser_breaks_no_more`.
pub fn usual_actions_are_upward()
    ensures { IsUpward (actions_of (codes "ALLOW" ∷ codes "LOG" ∷ [])) }
{}
