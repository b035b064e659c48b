//! Laws of the definitions, each the contract of a function that only calls other laws.

ghost use Rattle.std.specs.Prelude.{◌≡◌, ℕ, List};
ghost use Rattle.sf_check.specs.declared.insn.Insn.{Insn};
ghost use Rattle.sf_stack.specs.declared.fault.Fault.{Fault};
ghost use Rattle.sf_stack.specs.Filters.{SpellPrograms, SpellStack, IsFirstRefusal};

use sf_check::laws::{a_fault_spells_no_lawful_program, one_first_fault, one_program_of_a_file};
use sf_insn::laws::one_spelling;

/// For the prover: filter files spell at most one list of lawful programs.
#[tactic(auto, using(crate::proofs::RefusalLemmas::same_programs))]
pub fn one_stack()
    ensures { (files : List (List ℕ)) (a b : List (List Insn)) →
        SpellPrograms files a → SpellPrograms files b → a ≡ b }
{
    one_program_of_a_file();
}

/// For the prover: filter files with a first refusal spell no lawful stack. So `stack_of` refuses no files that spell
/// one, unless memory runs out.
#[tactic(auto, using(crate::proofs::RefusalLemmas::refused_no_stack))]
pub fn a_refusal_spells_no_stack()
    ensures { (files : List (List ℕ)) (e : Fault) (programs : List (List Insn)) →
        IsFirstRefusal files e → SpellStack files programs → ⊥ }
{
    one_stack();
    one_spelling();
    a_fault_spells_no_lawful_program();
}

/// For the prover: filter files have at most one first refusal. So a fault that `stack_of` answers is the only possible
/// one, unless it is `Memory`.
#[tactic(auto, using(crate::proofs::OneRefusal::same_refusal))]
pub fn one_refusal()
    ensures { (files : List (List ℕ)) (e f : Fault) → IsFirstRefusal files e
        → IsFirstRefusal files f → e ≡ f }
{
    one_spelling();
    one_first_fault();
    a_fault_spells_no_lawful_program();
}
