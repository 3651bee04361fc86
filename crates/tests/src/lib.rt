// Test k as a live run (01, "Test k and a live run"). The three entry points, `open_test`, `step` and `take_report`,
// take any content and answer, or refuse with a number.
#![tactic(auto)]

mod offers;
mod reports;

ghost use Rattle.std.specs.Prelude.{◌≡◌};
ghost use Rattle.refusals.specs.Numbers.{refusal_in};
ghost use Rattle.tests_spec.specs.Runs.{open_fault, open_of, report_fault, step_of};
ghost use Rattle.tests_spec.specs.Numbers.{said};

use refusals::Refusal;
use sheet_spec::Sheet;
use tests_spec::{Answer, Report, Run, Stepped};

// ---- opening

// The refusal of an opening, if there is one.
#[tactic(auto, unfolding(tests_spec::specs::Runs::open_fault))]
fn open_fault(sheet: Sheet, k: u16) -> Result<(), Refusal>
    ensures { refusal_in result ≡ open_fault sheet k }
{
    sheet::check(sheet)?;
    if k > 1023 {
        return Err(Refusal::Test);
    }
    Ok(())
}

// Opens test `k` with the choice number `h`: the first offer and the record, or a refusal and a record of zeros.
pub fn open_test(sheet: Sheet, k: u16, h: u16, trace_only: bool) -> Stepped
    ensures { (result ≡ open_of trace_only sheet k h)
        × ((said result.answer).refusal ≡ open_fault sheet k) }
{
    match open_fault(sheet, k) {
        Ok(()) => {
            let run = Run {
                k,
                h,
                trace_only: u8::from(trace_only),
                ended: 0,
                node: 0,
                depth: 0,
            };
            let first = offers::offer(&sheet, run);
            Stepped {
                answer: Answer::Going(first),
                run,
            }
        }
        Err(refusal) => Stepped {
            answer: Answer::Denied(u8::from(refusal)),
            run: Run {
                k: 0,
                h: 0,
                trace_only: 0,
                ended: 0,
                node: 0,
                depth: 0,
            },
        },
    }
}

// ---- reports

// Answers a report, and gives the record after it; a refusal gives the record as it came.
pub fn step(sheet: Sheet, run: Run, report: Report) -> Stepped
    ensures { (result ≡ step_of sheet run report) × ((said result.answer).refusal ≡ report_fault sheet run report) }
{
    match reports::report_fault(&sheet, run, report) {
        Ok(()) => {
            let (answer, run) = reports::answer(&sheet, run, report);
            Stepped { answer, run }
        }
        Err(refusal) => Stepped {
            answer: Answer::Denied(u8::from(refusal)),
            run,
        },
    }
}

// Answers a report on the record that the bench holds, and stores the record after it there.
pub fn take_report(run: &mut Run, sheet: Sheet, report: Report) -> Answer
    ensures { (result ≡ (step_of sheet run.old report).answer)
        × ((said result).refusal ≡ report_fault sheet run.old report)
        × (run.new ≡ (step_of sheet run.old report).run) }
{
    let stepped = step(sheet, *run, report);
    *run = stepped.run;
    stepped.answer
}
