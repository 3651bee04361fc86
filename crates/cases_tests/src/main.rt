// The Run cases of tests (01, "Test k and a live run", refusals 9 to 11 and 14 to 17; 02, K1, K3, K4). Each line of
// standard input is a case: its name, a colon, and numbers, of which the first says what is called:
//   1, sheet, k h traces                           a test is opened
//   2, sheet, k h traces ended node depth, report  a report on that record
//   3, sheet, k h traces, reports                  a test is opened, and each report is made
//   4, sheet, k h traces, n report                 a test is opened, and the report is made n times and once more
//   5, sheet, sheet, k traces                      the verdict on the second sheet by the first
//   6, sheet, sheet, traces len                    all verdicts on the second sheet, with a list of len places
// A sheet is two numbers: which one of those of `cases_samples`, and which refusal it is changed to deserve, 0 for
// none. A report is an event, or 256 for blocked. Numbers that are not there count as 0.
// Each case writes its name and its answers. A refusal is `denied` and the number. An opening and a report write the
// answer and, after a bar, the record: k, h, traces, ended, node, depth; of a report that is made many times only the
// last is written. All verdicts at once write how many there are, and after a bar 16 places, of which the first len are
// lent; all hold 255 before the call.
#![tactic(auto)]

ghost use Rattle.std.specs.Prelude.{◌≤◌};

use cases_lines::Line;
use refusals::Refusal;
use sheet_spec::Sheet;
use tests_spec::{Answer, Report, Run, Stepped};
use verdicts_spec::Verdict;

// The number of standard input.
const STDIN_FILENO: i32 = 0;

// ---- tests

// The sheet that two numbers of a line name: which one, and the refusal that it is changed to deserve.
fn sheet_at(line: Line, which: usize, refusal: usize) -> Sheet {
    cases_samples::sample(
        cases_lines::number(line, which),
        cases_lines::number(line, refusal),
    )
}

// Writes an answer.
fn say_answer(answer: Answer) {
    match answer {
        Answer::Going(set) => {
            cases_lines::say(b" going");
            cases_lines::say_number(set);
        }
        Answer::Stray(event) => {
            cases_lines::say(b" stray");
            cases_lines::say_number(u16::from(event));
        }
        Answer::Refused(set) => {
            cases_lines::say(b" refused");
            cases_lines::say_number(set);
        }
        Answer::Passed => cases_lines::say(b" passed"),
        Answer::Inconclusive => cases_lines::say(b" inconclusive"),
        Answer::Denied(number) => cases_lines::say_denied(number),
    }
}

// Writes an answer and the record beside it.
fn say_stepped(stepped: Stepped) {
    let run = stepped.run;
    say_answer(stepped.answer);
    cases_lines::say(b" |");
    cases_lines::say_number(run.k);
    cases_lines::say_number(run.h);
    cases_lines::say_number(u16::from(run.trace_only));
    cases_lines::say_number(u16::from(run.ended));
    cases_lines::say_number(u16::from(run.node));
    cases_lines::say_number(run.depth);
    cases_lines::say(b";");
}

// The report that a number says.
fn report_of(x: u16) -> Report {
    match u8::try_from(x) {
        Ok(event) => Report::Event(event),
        Err(_) => Report::Blocked,
    }
}

// The record that a line says.
fn record_of(line: Line) -> Run {
    Run {
        k: cases_lines::number(line, 3),
        h: cases_lines::number(line, 4),
        trace_only: cases_lines::small(line, 5),
        ended: cases_lines::small(line, 6),
        node: cases_lines::small(line, 7),
        depth: cases_lines::number(line, 8),
    }
}

// Opens the test of a line.
fn opened(line: Line) -> Stepped {
    let s = sheet_at(line, 1, 2);
    tests::open_test(
        s,
        cases_lines::number(line, 3),
        cases_lines::number(line, 4),
        cases_lines::flag(line, 5),
    )
}

// Makes the report of a line on its record.
fn report_once(line: Line) {
    let s = sheet_at(line, 1, 2);
    say_stepped(tests::step(s, record_of(line), report_of(cases_lines::number(line, 9))));
}

// How many numbers a line has.
fn numbers_of(line: Line) -> usize
    ensures { result ≤ 32 }
{
    line.count.min(32)
}

// Makes every report of a line in the test that it opens.
fn report_each(line: Line) {
    let s = sheet_at(line, 1, 2);
    let first = opened(line);
    let mut run = first.run;
    say_stepped(first);
    for i in 6..numbers_of(line) {
        let next = tests::step(s, run, report_of(cases_lines::number(line, i)));
        run = next.run;
        say_stepped(next);
    }
}

// The record after the report of a line was made n times in the test that it opens.
fn record_after(line: Line, s: Sheet, n: u16) -> Run {
    let mut run = opened(line).run;
    for _ in 0..n {
        run = tests::step(s, run, report_of(cases_lines::number(line, 7))).run;
    }
    run
}

// Makes the report of a line many times, and once more.
fn report_often(line: Line) {
    let s = sheet_at(line, 1, 2);
    let run = record_after(line, s, cases_lines::number(line, 6));
    say_stepped(tests::step(s, run, report_of(cases_lines::number(line, 7))));
}

// Writes the verdict that a line asks for.
fn give_verdict(line: Line) {
    let reference = sheet_at(line, 1, 2);
    let device = sheet_at(line, 3, 4);
    match verdicts::judge(
        reference,
        device,
        cases_lines::number(line, 5),
        cases_lines::flag(line, 6),
    ) {
        Ok(Verdict::Passes) => cases_lines::say(b" passes"),
        Ok(Verdict::Fails) => cases_lines::say(b" fails"),
        Err(refusal) => cases_lines::say_denied(u8::from(refusal)),
    }
}

// Number i of a line as a length of at most 16.
fn length(line: Line, i: usize) -> usize
    ensures { result ≤ 16 }
{
    usize::from(cases_lines::number(line, i)).min(16)
}

// Writes the answer for all tests, and the places of its list.
fn say_suite(judged: Result<u16, Refusal>, list: [u8; 16]) {
    match judged {
        Ok(n) => {
            cases_lines::say(b" judged");
            cases_lines::say_number(n);
        }
        Err(refusal) => cases_lines::say_denied(u8::from(refusal)),
    }
    cases_lines::say(b" |");
    for place in list {
        cases_lines::say_number(u16::from(place));
    }
}

// Judges all tests of the two sheets of a line at once.
fn judge_all(line: Line) {
    let reference = sheet_at(line, 1, 2);
    let device = sheet_at(line, 3, 4);
    let trace_only = cases_lines::flag(line, 5);
    let n = length(line, 6);
    let mut list = [255; 16];
    let judged = verdicts::judge_all(reference, device, trace_only, &mut list[..n]);
    say_suite(judged, list);
}

// ---- standard input

// Answers a line.
fn answer(line: Line) {
    match cases_lines::number(line, 0) {
        1 => say_stepped(opened(line)),
        2 => report_once(line),
        3 => report_each(line),
        4 => report_often(line),
        6 => judge_all(line),
        _ => give_verdict(line),
    }
    cases_lines::say(b"\n");
}

// Reads the cases and answers them.
fn main() {
    let mut space = io::large_buffer();
    let n = io::read_full(STDIN_FILENO, &mut space);
    cases_lines::answer_lines(&space[..n], answer);
}
