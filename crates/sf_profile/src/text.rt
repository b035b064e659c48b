//! The tree of a file's bytes.

ghost use Rattle.std.specs.Prelude.{◌≡◌, ◌⊎◌, Some, None, IfOk, IfErr};
ghost use Rattle.serde_json.specs.Read.{read};
ghost use Rattle.serde_json.specs.View.{view};
ghost use Rattle.sf_profile.specs.Filters.{HasNoTree, IsTree};

use crate::fault::Fault;
use crate::repeats::refuse_repeats;
use serde_json::Value;
use std::alloc::Global;

/// The tree of a text. Where an object has a key twice, the tree has the last value.
fn read_text(alloc: Global, text: &str) -> Result<Value, Fault>
    ensures tree { IfOk result (λ v. read text.now ≡ Some (view v)) }
    ensures refused { IfErr result (λ e. (e ≡ Fault.Memory)
        ⊎ ((e ≡ Fault.Syntax) × (read text.now ≡ None))) }
{
    match Value::from_str(alloc, text) {
        Ok(value) => Ok(value),
        Err(error) => {
            if error.is_memory() {
                Err(Fault::Memory)
            } else {
                Err(Fault::Syntax)
            }
        }
    }
}

#[tactic(auto, using(crate::proofs::text::TextLemmas::none_read, crate::proofs::text::TextLemmas::none_unique))]
fn tree_of_text(alloc: Global, text: &str) -> Result<Value, Fault>
    ensures tree { IfOk result (λ v. IsTree text.now (view v)) }
    ensures refused { IfErr result (λ e. HasNoTree text.now e) }
{
    let value = read_text(alloc, text)?;
    refuse_repeats(alloc, text)?;
    Ok(value)
}

/// The tree of a file's bytes, in which no object has a key twice: runtimes differ in which of two they take.
pub(crate) fn tree_of(alloc: Global, bytes: &[u8]) -> Result<Value, Fault>
    ensures tree { IfOk result (λ v. IsTree bytes.now (view v)) }
    ensures refused { IfErr result (λ e. HasNoTree bytes.now e) }
{
    match str::from_utf8(bytes) {
        Ok(text) => tree_of_text(alloc, text),
        Err(_) => Err(Fault::Syntax),
    }
}
