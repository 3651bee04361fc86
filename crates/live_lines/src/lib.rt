// What `live` prints: at an opening, at the answer to a report, and where a run has not ended; the set that stands
// offered, and whether the run goes on.
#![tactic(auto, using(text::proofs::PageLaws::puts_then))]

ghost use Rattle.std.specs.Prelude.{◌≢◌, ◌≡◌, ◌++◌, ℕ};
ghost use Rattle.text.specs.Pages.{Puts};
ghost use Rattle.tests_spec.specs.declared.Answer.{Answer};
ghost use Rattle.tests_spec.specs.declared.Answer.TheVariants.{Denied};
ghost use Rattle.live_lines_spec.specs.declared.Asked.{Asked};
ghost use Rattle.live_lines_spec.specs.Answers.{kind_words, head_line, offer_line, refused_set_line};
ghost use Rattle.live_lines_spec.specs.Answers.{report_words, report_refused_line};
ghost use Rattle.live_lines_spec.specs.Answers.{answer_lines, next_offer, goes_on, test_lines, opening_lines, ended_line};

use live_lines_spec::Asked;
use tests_spec::Answer;
use text::Page;

// ---- lines

// What the first line says before `test`.
#[tactic(auto, unfolding(live_lines_spec::specs::Answers::kind_words))]
fn kind(trace_only: bool) -> &'static [u8]
    ensures { result.now ≡ kind_words trace_only }
{
    if trace_only { b"trace-only " } else { b"" }
}

// Puts the first line of a run of the test that is asked for, on a reference of n nodes and e events.
#[tactic(auto, unfolding(live_lines_spec::specs::Answers::head_line), using(text::proofs::PageLaws::puts_then))]
fn put_head(page: &mut Page, asked: Asked, n: u8, e: u8)
    ensures { Puts (head_line asked.trace_only asked.k asked.h n e) page.old page.new }
{
    page.put(kind(asked.trace_only));
    page.put_numbers(b"test ", asked.k, b" choice ", asked.h, b" ");
    page.put_sheet_line(b"reference ", n, e);
}

// Puts the line of an offer.
#[tactic(auto, unfolding(live_lines_spec::specs::Answers::offer_line), using(text::proofs::PageLaws::puts_then))]
fn put_offer(page: &mut Page, set: u16)
    ensures { Puts (offer_line set) page.old page.new }
{
    page.put(b"offer");
    page.put_members(set);
    page.put(b"\n");
}

// Puts the line of a failed run, with the set that was offered.
#[tactic(auto, unfolding(live_lines_spec::specs::Answers::refused_set_line), using(text::proofs::PageLaws::puts_then))]
fn put_refused(page: &mut Page, set: u16)
    ensures { Puts (refused_set_line set) page.old page.new }
{
    page.put(b"run failed refused ");
    page.put_set(set);
    page.put(b"\n");
}

// Why a report is refused.
#[tactic(auto, unfolding(live_lines_spec::specs::Answers::report_words))]
fn why(number: u8) -> &'static [u8]
    ensures { result.now ≡ report_words number }
{
    match number {
        15 => b"no event of the sheet, or no report",
        17 => b"the event was not offered",
        _ => b"the run takes no report",
    }
}

// Puts the line of a refused report.
#[tactic(auto, unfolding(live_lines_spec::specs::Answers::report_refused_line), using(text::proofs::PageLaws::puts_then))]
fn put_report_refused(page: &mut Page, number: u8)
    ensures { Puts (report_refused_line number) page.old page.new }
{
    page.put(b"report refused ");
    page.put_number(number);
    page.put(b" ");
    page.put(why(number));
    page.put(b"\n");
}

// ---- what is printed

// Puts the line of a refused report and the offer again.
fn put_again(page: &mut Page, set: u16, number: u8)
    ensures { Puts (report_refused_line number ++ offer_line set) page.old page.new }
{
    put_report_refused(page, number);
    put_offer(page, set);
}

// Puts what the answer to a report prints, where `offered` is the set that stood offered.
#[tactic(auto, unfolding(live_lines_spec::specs::Answers::answer_lines))]
pub fn put_answer(page: &mut Page, offered: u16, answer: Answer)
    ensures { Puts (answer_lines offered answer) page.old page.new }
{
    match answer {
        Answer::Going(set) => put_offer(page, set),
        Answer::Stray(event) => page.put_number_line(b"run failed stray ", event),
        Answer::Refused(set) => put_refused(page, set),
        Answer::Passed => page.put(b"run passed\n"),
        Answer::Inconclusive => page.put(b"run inconclusive\n"),
        Answer::Denied(number) => put_again(page, offered, number),
    }
}

// The set that stands offered after an answer, where `offered` stood offered before it.
#[tactic(auto, unfolding(live_lines_spec::specs::Answers::next_offer))]
pub fn next_offer(offered: u16, answer: Answer) -> u16
    ensures { result ≡ next_offer offered answer }
{
    match answer {
        Answer::Going(set) => set,
        _ => offered,
    }
}

// Whether the run goes on after the answer to a report: with the next offer, or with the same one after a refused
// report.
#[tactic(auto, unfolding(live_lines_spec::specs::Answers::goes_on))]
pub fn goes_on(answer: Answer) -> bool
    ensures { result ≡ goes_on answer }
{
    match answer {
        Answer::Going(_) | Answer::Denied(_) => true,
        _ => false,
    }
}

// Puts the first line of a run and its first offer.
fn put_first(page: &mut Page, asked: Asked, n: u8, e: u8, set: u16)
    ensures { Puts (head_line asked.trace_only asked.k asked.h n e ++ offer_line set) page.old page.new }
{
    put_head(page, asked, n, e);
    put_offer(page, set);
}

// Puts what the opening of a test prints that is refused.
#[tactic(auto, unfolding(live_lines_spec::specs::Answers::opening_lines, live_lines_spec::specs::Answers::test_lines))]
pub fn put_test_refused(page: &mut Page, number: u8)
    ensures { (asked : Asked) (n e : ℕ) → Puts (opening_lines asked n e 0 (Denied number)) page.old page.new }
{
    page.put_number_line(b"test refused ", number);
}

// Puts what the opening of a test prints, on a reference of n nodes and e events.
#[tactic(auto, unfolding(live_lines_spec::specs::Answers::test_lines), using(text::proofs::PageLaws::puts_none))]
fn put_test(page: &mut Page, asked: Asked, n: u8, e: u8, answer: Answer)
    ensures { Puts (test_lines asked n e answer) page.old page.new }
{
    match answer {
        Answer::Going(set) => put_first(page, asked, n, e, set),
        Answer::Denied(number) => put_test_refused(page, number),
        _ => {}
    }
}

// Puts what an opening prints where the reference itself is refused, whatever is asked for.
pub fn put_reference_refused(page: &mut Page, number: u8)
    ensures { (asked : Asked) (n e : ℕ) (answer : Answer) → number ≢ 0
        → Puts (opening_lines asked n e number answer) page.old page.new }
{
    page.put_number_line(b"reference refused ", number);
}

// Puts what an opening prints, on a reference of n nodes and e events, where `fault` is its own refusal, 0 for none.
#[tactic(auto, unfolding(live_lines_spec::specs::Answers::opening_lines))]
pub fn put_opening(page: &mut Page, asked: Asked, n: u8, e: u8, fault: u8, answer: Answer)
    ensures { Puts (opening_lines asked n e fault answer) page.old page.new }
{
    if fault != 0 {
        put_reference_refused(page, fault);
    } else {
        put_test(page, asked, n, e, answer);
    }
}

// Puts what is printed where the run has not ended: the lines were too many, or the input ended.
#[tactic(auto, unfolding(live_lines_spec::specs::Answers::ended_line))]
pub fn put_stop(page: &mut Page, many: bool)
    ensures { Puts (ended_line many) page.old page.new }
{
    if many {
        page.put(b"lines ended\n");
    } else {
        page.put(b"input ended\n");
    }
}
