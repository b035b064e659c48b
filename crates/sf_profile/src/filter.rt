ghost use Rattle.std.specs.Prelude.{◌≡◌, ◌≤◌, ◌⊎◌, false, length, IfOk, IfErr};
ghost use Rattle.sf_profile.specs.Filters.{IsFilterOf};
ghost use Rattle.sf_profile.specs.Form.{fits, form, form_bytes};

use crate::fault::Fault;
use crate::form::filter_code;
use crate::instruction::raws_of;
use crate::rules::Plan;
use std::alloc::Global;

/// The filter of a plan, as bytes.
#[tactic(auto, using(crate::proofs::MadeLemmas::made, crate::proofs::MadeLemmas::fitting))]
pub(crate) fn filter_of(alloc: Global, plan: &Plan) -> Result<Vec<u8>, Fault>
    ensures made { IfOk result (λ v. IsFilterOf v.items plan.now) }
    ensures is_form { IfOk result (λ v. v.items ≡ form_bytes plan.now) }
    ensures short { IfOk result (λ v. length (form plan.now) ≤ 4096) }
    ensures refused { IfErr result (λ e. (e ≡ Fault.Memory)
        ⊎ ((e ≡ Fault.TooLong) × (fits (form plan.now) ≡ false))) }
{
    let code = filter_code(alloc, plan)?;
    let raws = raws_of(alloc, &code)?;
    // `encode` fails only where an allocation is refused.
    match sf_insn::encode(alloc, &raws) {
        Ok(bytes) => Ok(bytes),
        Err(_) => Err(Fault::Memory),
    }
}
