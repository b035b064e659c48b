//! Laws of the definitions, each the contract of a function that does nothing.

ghost use Rattle.std.specs.Prelude.{◌≡◌, Bool, ℕ, List};
ghost use Rattle.sf_check.specs.declared.insn.Insn.{Insn};
ghost use Rattle.sf_trace.specs.Texts.{IsCheckText};

/// For the prover: the text of `check` is determined by the stack, and by whether instructions are listed.
pub fn one_check_text()
    ensures { (listed : Bool) (programs : List (List Insn)) (a b : List ℕ)
        → IsCheckText listed programs a → IsCheckText listed programs b → a ≡ b }
{}
