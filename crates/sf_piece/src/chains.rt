//! Chains of tests of one word against numbers.

ghost use Rattle.std.specs.Prelude.{◌≡◌, ◌<◌, length, IfSome};
ghost use Rattle.sf_dom.specs.Facts.{known_at};
ghost use Rattle.sf_piece.specs.SymbolicRun.{IsLawfulPiece};
ghost use Rattle.sf_dom.specs.SoundRules.{ForcedIsLearnt};
ghost use Rattle.sf_piece.specs.declared.deciding.SmallStep.{SmallStep};
ghost use Rattle.sf_piece.specs.Works.{HasGoneOn, IsFailing, AreFailing, IsAPropagatedBack, IsOver, IsExecuted};

use crate::run::Run;
use sf_check::{Insn, Operand, Program, Skipped};
use sf_dom::Known;
use sf_insn::Test;

/// How many instructions `insn` skips, if it asks whether A equals a number outside the interval of `known`.
fn failing_skips(insn: Insn, known: Known) -> Option<u8>
    ensures { IfSome result (λ n. IsFailing insn known n) }
{
    let test = insn.equal_test()?;
    match known.tell(Test::Equal, test.number) {
        Some(false) => Some(test.skips),
        _ => None,
    }
}

/// The failing tests in a row from `place` on, by the program's tables. These serve only where A has one number; else
/// none is counted, and the caller looks at each instruction.
fn skip_failing(program: &Program, place: usize, known: Known) -> Skipped
    requires { place < length program.now }
    ensures { AreFailing program.now known result.count place result.behind }
{
    match known.decided() {
        Some(number) => program.skip_others(place, number),
        None => Skipped {
            count: 0,
            behind: place,
        },
    }
}

/// The tests in a row, from the machine's place on, that `failing_skips` shows to fail, each where the one before it
/// leads. `known` is what is known of A, without its excluded numbers.
fn failing_chain(run: &Run, known: Known) -> Skipped
    requires lawful { IsLawfulPiece run.now }
    requires known { known ≡ known_at run.now.facts.known run.now.machine.a.0 }
    ensures { IsOver run.now result.count result.behind }
{
    let first = run.machine.place;
    let Some(program) = run.program() else {
        return Skipped {
            count: 0,
            behind: first,
        };
    };
    let code = program.insns();
    // Without a first one there are no others, and the tables needn't be asked.
    if failing_skips(code[first], known).is_none() {
        return Skipped {
            count: 0,
            behind: first,
        };
    }
    let Skipped {
        mut count,
        mut behind,
    } = skip_failing(program, first, known);
    // Where A may have several numbers, the tests are gone through one by one.
    while let Some(skips) = failing_skips(code[behind], known) {
        count += 1;
        behind += 1 + skips as usize;
    }
    Skipped { count, behind }
}

/// Takes the tests of `failing_chain` at once: the name gets a false for each, and the machine moves behind them.
pub(crate) fn take_failing(run: &mut Run)
    requires { IsLawfulPiece run.old }
    ensures gone { HasGoneOn run.old run.new }
    ensures rule { ForcedIsLearnt → IsAPropagatedBack run.old
        → IsExecuted run.old run.new SmallStep.On }
{
    let known = run.facts.known(run.machine.a);
    let chain = failing_chain(run, known);
    run.name.push_falses(chain.count);
    run.machine.place = chain.behind;
}
