//! Laws of the definitions, each the contract of a function that does nothing.

ghost use Rattle.std.specs.Prelude.{◌≡◌, ◌↔◌, ◌+◌, ◌*◌, ◌≤◌, ℕ, Bool, List, ◌++◌, length, IsSome, Contains};
ghost use Rattle.sf_insn.specs.declared.input.Input.{Input};
ghost use Rattle.sf_insn.specs.Inputs.{IsInput};
ghost use Rattle.sf_check.specs.declared.insn.Insn.{Insn};
ghost use Rattle.sf_check.specs.Programs.{IsLawfulProgram};
ghost use Rattle.sf_check.specs.Stacks.{IsLawfulStack};
ghost use Rattle.sf_run.specs.declared.action.Answer.{Answer};
ghost use Rattle.sf_run.specs.Machine.{outcome_of, trace_of};
ghost use Rattle.sf_run.specs.Answers.{IsAnswer};
ghost use Rattle.sf_run.specs.Routes.{IsRoute, IsWholeRoute};
ghost use Rattle.sf_run.specs.Feasible.{AreFeasibleTraces, all_inputs, feasible_traces};

/// The machine is never stuck in a lawful program, and comes to a return.
pub fn lawful_programs_return()
    ensures { (code : List Insn) (d : Input) → IsLawfulProgram code
        → IsSome (outcome_of code d) }
{}

/// Return values make at most one answer.
pub fn one_answer()
    ensures { (values : List ℕ) (a b : Answer) → IsAnswer values a
        → IsAnswer values b → a ≡ b }
{}

/// Each trace of a lawful stack is a whole route: it leads through each program to a return.
pub fn traces_are_whole_routes()
    ensures { (programs : List (List Insn)) (d : Input) →
        IsLawfulStack programs → IsWholeRoute programs (trace_of programs d) }
{}

/// No whole route of a stack is the beginning of another one.
pub fn no_whole_route_begins_another()
    ensures { (programs : List (List Insn)) (a b more : List Bool) →
        IsWholeRoute programs a → IsWholeRoute programs b → a ++ more ≡ b → a ≡ b }
{}

/// A route of a lawful stack has at most 32768 + 32 * 64 truth values, and so has each trace.
pub fn routes_are_short()
    ensures { (programs : List (List Insn)) (route : List Bool) → IsLawfulStack programs
        → IsRoute programs route → length route ≤ 32768 + 32 * 64 }
{}

/// `all_inputs`, from which `feasible_traces` is made, has each input, and nothing else.
pub fn all_inputs_are_listed()
    ensures { (d : Input) → Contains all_inputs d ↔ IsInput d }
{}

/// `feasible_traces` has each trace that some input has, once, and nothing else, in lexicographic order, false first.
/// So each stack, lawful or not, has such a list.
pub fn each_stack_has_its_feasible_traces()
    ensures { (programs : List (List Insn)) → AreFeasibleTraces programs
        (feasible_traces programs) }
{}

/// A stack has at most one list of feasible traces.
pub fn one_list_of_feasible_traces()
    ensures { (programs : List (List Insn)) (a b : List (List Bool)) →
        AreFeasibleTraces programs a → AreFeasibleTraces programs b → a ≡ b }
{}
