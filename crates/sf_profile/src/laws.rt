//! Laws of what a profile means, for the prover: contracts of functions that do nothing.

ghost use Rattle.std.specs.Prelude.{◌≡◌, ◌<◌, ◌≤◌, ℕ, All, List, Bool, true, false, Option, None, Some, [], ◌&&◌, filter};
ghost use Rattle.serde_json.specs.Data.{Data};
ghost use Rattle.sf_insn.specs.declared.input.Input.{Input};
ghost use Rattle.sf_run.specs.Answers.{action_number, rank};
ghost use Rattle.sf_profile.specs.declared.rules.CallSet.{CallSet};
ghost use Rattle.sf_profile.specs.declared.rules.CallSet.TheVariants.{I386};
ghost use Rattle.sf_profile.specs.declared.rules.Reading.{Reading};
ghost use Rattle.sf_profile.specs.declared.rules.Reading.TheVariants.{Strictest, Mildest};
ghost use Rattle.sf_profile.specs.declared.rules.Response.{Response};
ghost use Rattle.sf_profile.specs.declared.settings.Settings.{Settings as ASettings};
ghost use Rattle.sf_profile.specs.Data.{SetRulesData, PlanData, RuleData};
ghost use Rattle.sf_profile.specs.Meaning.{answer_of_response, is_newer, number_in, pick, response_in, response_of, strictness};
ghost use Rattle.sf_profile.specs.Plans.{calls_named, through_calls};
ghost use Rattle.sf_profile.specs.Reads.{is_excluded, is_included};
ghost use Rattle.sf_profile.specs.Settings.{is_same_set, number_of};

/// A name for which a set has no number, also not behind `socketcall` or `ipc`, stands for no call of the set, and a
/// rule says nothing by it.
pub fn unknown_names_say_nothing()
    ensures { (s : ASettings) (set : CallSet) (alone : Bool) (name : List ℕ) →
        number_of s set name ≡ None → through_calls (is_same_set set I386 && alone) name ≡ []
        → calls_named s set alone name ≡ [] }
{}

/// Asking for ENOSYS at newer calls (`Plan::newer`) changes nothing at other calls. A call is newer where its number is
/// above those of all calls of the set's rules.
#[tactic(auto, using(crate::proofs::laws::LawLemmas::only_newer))]
pub fn newer_changes_only_newer()
    ensures { (plan : PlanData) (d : Input) (part : SetRulesData) →
        is_newer (number_in d) part.rules ≡ false
        → response_in plan d part ≡ response_in (record plan { newer = false }) d part }
{}

/// Of the same rules, no reading picks one whose action has a higher precedence than that of `Strictest`, or a lower
/// one than that of `Mildest`.
pub fn readings_are_bounds()
    ensures { (reading : Reading) (rules : List RuleData) (a b c : RuleData) →
        pick Strictest rules ≡ Some a → pick reading rules ≡ Some b
        → pick Mildest rules ≡ Some c
        → (strictness a.response ≤ strictness b.response)
        × (strictness b.response ≤ strictness c.response) }
{}

/// Where all rules that say something have one response, a rule that any reading picks has this response.
pub fn readings_agree_without_conflict()
    ensures { (reading : Reading) (rules : List RuleData) (response : Response) (a : RuleData) →
        All (λ (r : RuleData). r.response ≡ response) rules → pick reading rules ≡ Some a
        → a.response ≡ response }
{}

/// Whether what a rule includes and excludes holds depends on its own text, the machine, the capabilities and the
/// kernel, and on nothing else.
pub fn rules_apply_by_words()
    ensures { (s t : ASettings) (d : Option Data) → s.machine ≡ t.machine → s.caps ≡ t.caps
        → s.kernel ≡ t.kernel
        → (is_included s d ≡ is_included t d) × (is_excluded s d ≡ is_excluded t d) }
{}

/// The order of the actions by `strictness` is that in which the kernel prefers them.
#[tactic(auto, using(crate::proofs::laws::LawLemmas::before_by_rank))]
pub fn strictness_is_precedence()
    ensures { (a b : Response) → strictness a < strictness b
        → rank (action_number (answer_of_response a).action)
        < rank (action_number (answer_of_response b).action) }
{}
