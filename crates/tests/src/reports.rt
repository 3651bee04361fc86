// One report on a run (01, "Test k and a live run"; 02, K4): why it is refused, and else its answer, at an event or at
// "blocked".
ghost use Rattle.std.specs.Prelude.{◌≡◌, ◌≤◌, ◌<◌};
ghost use Rattle.refusals.specs.Numbers.{refusal_in};
ghost use Rattle.sheet_spec.specs.Refusals.{sheet_fault};
ghost use Rattle.tests_spec.specs.Runs.{answered, ended_run, event_fault, report_fault, answer_of};
ghost use Rattle.tests_spec.specs.declared.Report.TheVariants.{Event, Blocked};

use super::offers;
use refusals::Refusal;
use sheet_spec::Sheet;
use tests_spec::{Answer, Report, Run};

// ---- refusals

// The refusal that comes from the event of a report, if there is one: it is not on the sheet, or was not offered.
#[tactic(auto, unfolding(tests_spec::specs::Runs::event_fault))]
fn event_fault(sheet: &Sheet, run: Run, event: u8) -> Result<(), Refusal>
    requires { (sheet_fault sheet.now ≡ 0) × (run.node < sheet.now.n) }
    ensures { refusal_in result ≡ event_fault sheet.now run (Event event) }
{
    if event >= sheet.e {
        return Err(Refusal::Event);
    }
    if !events::contains(offers::offer(sheet, run), usize::from(event)) {
        return Err(Refusal::NotOffered);
    }
    Ok(())
}

// The refusal of a report, if there is one.
#[tactic(auto, unfolding(tests_spec::specs::Runs::report_fault, tests_spec::specs::Runs::record_ok, tests_spec::specs::Runs::event_fault, tests_spec::specs::Flags::flag))]
pub(crate) fn report_fault(sheet: &Sheet, run: Run, report: Report) -> Result<(), Refusal>
    ensures { refusal_in result ≡ report_fault sheet.now run report }
{
    sheet::check(*sheet)?;
    if run.ended != 0 {
        return Err(Refusal::Ended);
    }
    if run.node >= sheet.n || run.depth > run.k || run.k > 1023 {
        return Err(Refusal::Node);
    }
    match report {
        Report::Event(event) => event_fault(sheet, run, event),
        Report::Blocked => Ok(()),
    }
}

// ---- answers

// The record, marked with 1 as ended.
#[tactic(auto, unfolding(tests_spec::specs::Runs::ended_run))]
fn ended(run: Run) -> Run
    ensures { result ≡ ended_run run }
{
    Run { ended: 1, ..run }
}

// The answer to an event: failed as stray outside the initials; inside them the run moves on below depth k, and has
// passed at depth k.
#[tactic(auto, unfolding(tests_spec::specs::Runs::answer_of, tests_spec::specs::Runs::moved_by), using(probes::proofs::Lists::sheet_nodes, crate::proofs::Steps::lands))]
fn on_event(sheet: &Sheet, run: Run, event: u8) -> (Answer, Run)
    requires { (sheet_fault sheet.now ≡ 0) × (run.node < sheet.now.n) × (run.k ≤ 1023) }
    ensures { answered result.0 result.1 ≡ answer_of sheet.now run (Event event) }
{
    let row = sheet.rows[usize::from(run.node)];
    let i = usize::from(event);
    if !events::contains(sheet_rows::initials_of(row, usize::from(sheet.e)), i) {
        return (Answer::Stray(event), ended(run));
    }
    if run.depth >= run.k {
        return (Answer::Passed, ended(run));
    }
    let moved = Run {
        node: sheet_rows::successor_of(row, i),
        depth: run.depth + 1,
        ..run
    };
    (Answer::Going(offers::offer(sheet, moved)), moved)
}

// The answer to "blocked": in a trace-only run inconclusive below depth k, passed at depth k; in any other passed if the
// node may stop, else failed as refused.
#[tactic(auto, unfolding(tests_spec::specs::Runs::answer_of, tests_spec::specs::Flags::flag), using(probes::proofs::Lists::sheet_nodes))]
fn on_blocked(sheet: &Sheet, run: Run) -> (Answer, Run)
    requires { (sheet_fault sheet.now ≡ 0) × (run.node < sheet.now.n) }
    ensures { answered result.0 result.1 ≡ answer_of sheet.now run Blocked }
{
    let after = ended(run);
    if run.trace_only != 0 {
        if run.depth < run.k {
            return (Answer::Inconclusive, after);
        }
        return (Answer::Passed, after);
    }
    let row = sheet.rows[usize::from(run.node)];
    if sheet_rows::may_stop(row) {
        return (Answer::Passed, after);
    }
    (Answer::Refused(offers::offer(sheet, run)), after)
}

// The answer to a report that is not refused, and the record after it.
pub(crate) fn answer(sheet: &Sheet, run: Run, report: Report) -> (Answer, Run)
    requires { (sheet_fault sheet.now ≡ 0) × (run.node < sheet.now.n) × (run.k ≤ 1023) }
    ensures { answered result.0 result.1 ≡ answer_of sheet.now run report }
{
    match report {
        Report::Event(event) => on_event(sheet, run, event),
        Report::Blocked => on_blocked(sheet, run),
    }
}
