//! The runs of a stack's filters on an input.

ghost use Rattle.std.specs.Prelude.{◌≡◌, ◌==◌, ◌&&◌, not, IfOk};
ghost use Rattle.sf_run.specs.Answers.{action_bits, action_number};
ghost use Rattle.sf_trace.specs.Runs.{runs_of};

use sf_check::Stack;
use sf_insn::Input;
use sf_names::Names;
use sf_run::{Answer, Course, Fault, walk};
use std::alloc::Global;
use std::marker::Model;

/// What is shown of the runs of a stack's filters on an input: in the lines of `eval --trace` and of `audit --why`, and
/// in the JSON of `eval`.
#[derive(Clone, Copy, Drop)]
pub struct Trace<'a> {
    pub stack: &'a Stack,
    pub input: &'a Input,
    /// The answer of the stack to this input.
    pub answer: Answer,
    /// Whether comparisons that are false are left out. It isn't looked at for `audit --why`.
    pub brief: bool,
    pub names: &'a [Names],
}

/// The run of a filter.
#[derive(Drop)]
pub(crate) struct Run {
    /// The filter's number, from 1.
    pub number: usize,
    /// Whether its answer stands.
    pub stands: bool,
    pub course: Course,
}

impl Model for Run {
    ghost use Rattle.sf_trace.specs.Runs.{RunData};

    ghost Value = { RunData };

    ghost view = { λ r. record {
      number = r.number;
      stands = r.stands;
      course = record { met = r.course.met.items; place = r.course.place; value = r.course.value };
    } };
}

fn is_standing(stood: bool, value: u32, answer: Answer) -> bool
    ensures { result ≡ (not stood && (action_bits value == action_number answer.action)) }
{
    !stood && value & 0xffff0000 == answer.action.number()
}

pub(crate) fn runs_of(alloc: Global, trace: &Trace<'_>) -> Result<Vec<Run>, Fault>
    ensures { IfOk result (λ v. v.items
        ≡ runs_of trace.now.stack.now trace.now.input.now trace.now.answer) }
{
    let programs = trace.stack.programs();
    let mut runs = Vec::new(alloc);
    let mut stood = false;
    for i in 0..programs.len() {
        let number = programs.len() - i;
        let program = &programs[number - 1];
        let course = walk(alloc, program, trace.input)?;
        let stands = is_standing(stood, course.value, trace.answer);
        stood = stood || stands;
        runs.push(Run {
            number,
            stands,
            course,
        })?;
    }
    Ok(runs)
}
