//! Laws of the definitions, each the contract of a function that does nothing, or only calls other laws.

ghost use Rattle.std.specs.Prelude.{◌≡◌, ℕ, List};
ghost use Rattle.sf_insn.specs.declared.raw.RawInsn.{RawInsn};
ghost use Rattle.sf_check.specs.declared.insn.Insn.{Insn};
ghost use Rattle.sf_check.specs.declared.fault.Fault.{Fault};
ghost use Rattle.sf_check.specs.Programs.{IsLawfulProgram, Spells, SpellsProgram};
ghost use Rattle.sf_check.specs.Refusals.{IsFirstFault};

use sf_insn::laws::one_spelling;

/// Instructions spell at most one program.
pub fn one_program()
    ensures { (raws : List RawInsn) (a b : List Insn) → Spells raws a
        → Spells raws b → a ≡ b }
{}

/// The bytes of a filter file spell at most one lawful program.
pub fn one_program_of_a_file()
    ensures { (bytes : List ℕ) (a b : List Insn) → SpellsProgram bytes a
        → SpellsProgram bytes b → a ≡ b }
{
    // For the prover: bytes spell at most one list of instructions.
    one_spelling();
}

/// Instructions with a first fault spell no lawful program. So `check` accepts exactly the instructions that spell one,
/// unless memory runs out.
pub fn a_fault_spells_no_lawful_program()
    ensures { (raws : List RawInsn) (e : Fault) (code : List Insn) →
        IsFirstFault raws e → Spells raws code → IsLawfulProgram code → ⊥ }
{}

/// Instructions have at most one first fault. So `check` refuses them for this one, or because memory runs out.
pub fn one_first_fault()
    ensures { (raws : List RawInsn) (e f : Fault) → IsFirstFault raws e
        → IsFirstFault raws f → e ≡ f }
{}
