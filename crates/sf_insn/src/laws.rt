//! Laws of the definitions: contracts of functions that do nothing.

ghost use Rattle.std.specs.Prelude.{◌≡◌, List};
ghost use Rattle.sf_insn.specs.declared.input.Input.{Input};
ghost use Rattle.sf_insn.specs.declared.raw.RawInsn.{RawInsn};
ghost use Rattle.sf_insn.specs.Inputs.{IsInput, input_bytes};
ghost use Rattle.sf_insn.specs.Spelling.{spelling, AreInsns};

/// Bytes spell at most one list of instructions. So `decode` and `encode` undo each other.
pub fn one_spelling()
    ensures { (a b : List RawInsn) → AreInsns a → AreInsns b
        → spelling a ≡ spelling b → a ≡ b }
{}

/// Bytes spell at most one input, so `input_of_bytes` and `bytes_of_input` undo each other.
pub fn one_input()
    ensures { (a b : Input) → IsInput a → IsInput b → input_bytes a
        ≡ input_bytes b → a ≡ b }
{}
