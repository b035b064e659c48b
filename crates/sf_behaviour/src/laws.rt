//! Laws of the definitions, each the contract of a function that does nothing, or only calls other laws.

ghost use Rattle.std.specs.Prelude.{◌≡◌, ℕ, List};
ghost use Rattle.sf_insn.specs.declared.input.Input.{Input};
ghost use Rattle.sf_insn.specs.Inputs.{IsInput};
ghost use Rattle.sf_check.specs.declared.insn.Insn.{Insn};
ghost use Rattle.sf_run.specs.declared.action.Answer.{Answer};
ghost use Rattle.sf_run.specs.Answers.{Answers};
ghost use Rattle.sf_diagram.specs.Trees.{Tree, Bits};
ghost use Rattle.sf_diagram.specs.Stores.{AreCanonical};
ghost use Rattle.sf_behaviour.specs.Answering.{IsBehaviour};
ghost use Rattle.sf_behaviour.specs.InputBits.{input_bits, input_by};

use sf_diagram::equal_values_make_equal_ids;

/// Each input is the input of some variables, and variables have an input: what is said of all variables is said of all
/// inputs, and of nothing else.
pub fn each_input_has_variables()
    ensures variables { (d : Input) → IsInput d → input_by (input_bits d) ≡ d }
    ensures input { (bits : Bits) → IsInput (input_by bits) }
{}

/// Two stacks that answer alike on each input have one diagram in a store.
pub fn equal_behaviours_make_equal_ids()
    ensures { (p q : List (List Insn)) (ts : List Tree) (i j : ℕ) → AreCanonical ts
        → IsBehaviour p ts i → IsBehaviour q ts j
        → ((d : Input) (a : Answer) → IsInput d → Answers p d a → Answers q d a)
        → i ≡ j }
{
    equal_values_make_equal_ids();
}
