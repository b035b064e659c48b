//! A law of what profiles mean and of what comparisons find, the contract of a function that only calls another law.

ghost use Rattle.std.specs.Prelude.{◌≡◌, ◌∷◌, [], None, ℕ, List};
ghost use Rattle.sf_insn.specs.declared.input.Input.{Input};
ghost use Rattle.sf_insn.specs.Inputs.{IsInput};
ghost use Rattle.sf_run.specs.Answers.{Answers};
ghost use Rattle.sf_run.specs.declared.action.Answer.{Answer};
ghost use Rattle.sf_profile.specs.Data.{PlanData};
ghost use Rattle.sf_profile.specs.Filters.{IsFilterOf};
ghost use Rattle.sf_profile.specs.Meaning.{meaning};
ghost use Rattle.sf_relations.specs.Relations.{AreRelated};
ghost use Rattle.sf_relations.specs.declared.relation.Relation.TheVariants.{Looser};
ghost use Rattle.sf_stack.specs.Filters.{SpellStack};
ghost use Rattle.sf_compare.specs.Comparisons.{Compared, IsComparison, finding_of};

use sf_check::laws::one_program_of_a_file;

/// Let the filter of a profile be compared, as the old stack, with other filters, and let *looser* be never. Then no
/// input gets further under these filters than the profile lets it.
pub fn never_looser_keeps_the_profile()
    ensures { (bytes : List ℕ) (plan : PlanData) (c : Compared) (d : Input) (a : Answer)
        → IsFilterOf bytes plan → SpellStack (bytes ∷ []) c.old → IsComparison c
        → finding_of c.findings Looser ≡ None → IsInput d → Answers c.new d a
        → AreRelated Looser (meaning plan d) a → ⊥ }
{
    // For the prover: the bytes of a filter file spell at most one program.
    one_program_of_a_file();
}
