//! Laws of the rules of facts, each the contract of a function that does nothing.

ghost use Rattle.sf_dom.specs.SoundRules.{IsForwardSound, DecidesResults, IsReductionSound, IsTellingSound, IsLearningSound, HaveOneResult, PassKeepsOlder, CarriedAreBuilt, ForcedIsLearnt};

/// A law for the prover: forward propagation, reduction, told tests and learning lose no input.
pub fn rules_are_sound()
    ensures forward { IsForwardSound }
    ensures decided { DecidesResults }
    ensures reduction { IsReductionSound }
    ensures telling { IsTellingSound }
    ensures learning { IsLearningSound }
{}

/// A law for the prover: the rules have one result.
pub fn rules_have_one_result()
    ensures { HaveOneResult }
{}

/// A law for the prover: a forward pass changes no node before the first one of which more follows.
pub fn passes_keep_older_nodes()
    ensures { PassKeepsOlder }
{}

/// A law for the prover: facts that are carried along equal the facts that are built anew from the same conditions.
pub fn carried_facts_are_built()
    ensures { CarriedAreBuilt }
{}

/// A law for the prover: where a test is told, a condition with the result that is told can be learnt, and the same
/// condition with the other result can't.
pub fn forced_results_are_learnt()
    ensures { ForcedIsLearnt }
{}
