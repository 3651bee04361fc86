// The text of the program `compare` (01, "The program `compare`"): every byte that it prints, from the bytes that it
// reads.
#![tactic(auto)]

ghost use Rattle.std.specs.Prelude.{◌≡◌};
ghost use Rattle.refusals.specs.Numbers.{numbered};
ghost use Rattle.text_spec.specs.Adds.{Holds};
ghost use Rattle.text.specs.Pages.{Puts};
ghost use Rattle.compare_lines_spec.specs.Lines.{violates_line, refused_probe_line, outcome_lines};
ghost use Rattle.compare_lines_spec.specs.Program.{compared_lines, compare_text, kept_text};

use compare_lines_spec::Text;
use comparison_spec::Outcome;
use refusals::Refusal;
use sheet_spec::Sheet;
use text::Page;

// Puts the first line of a violation.
#[tactic(auto, unfolding(compare_lines_spec::specs::Lines::violates_line))]
fn put_violates_line(page: &mut Page, d: u16, cleared: u16)
    ensures { Puts (violates_line d cleared) page.old page.new }
{
    page.put_numbers(b"violates after ", d, b" cleared ", cleared, b"\n");
}

// Puts the line of a refusal: the probe and the acceptance.
#[tactic(auto, unfolding(compare_lines_spec::specs::Lines::refused_probe_line))]
fn put_refused_line(page: &mut Page, probe: u16, acceptance: u16)
    ensures { Puts (refused_probe_line probe acceptance) page.old page.new }
{
    page.put_numbers(b"refused ", probe, b" by ", acceptance, b"\n");
}

// Puts the lines of a comparison's answer; the trace is at the front of its list.
#[tactic(auto, using(text::proofs::PageLaws::puts_then), unfolding(compare_lines_spec::specs::Lines::outcome_lines))]
fn put_outcome(page: &mut Page, outcome: Result<Outcome, Refusal>, trace: &[u8])
    ensures { Puts (outcome_lines (numbered outcome) trace.now) page.old page.new }
{
    match outcome {
        Ok(Outcome::Refines(cleared)) => page.put_number_line(b"refines cleared ", cleared),
        Ok(Outcome::Stray(d, cleared, event)) => {
            put_violates_line(page, d, cleared);
            page.put_trace_line(text::front(trace, usize::from(d)));
            page.put_number_line(b"stray ", event)
        }
        Ok(Outcome::Refusal(d, cleared, probe, acceptance)) => {
            put_violates_line(page, d, cleared);
            page.put_trace_line(text::front(trace, usize::from(d)));
            put_refused_line(page, probe, acceptance)
        }
        Err(cause) => page.put_refusal_line(b"comparison refused ", cause),
    }
}

// Compares two sheets and puts the lines of the answer.
fn put_compared(page: &mut Page, p: Sheet, q: Sheet)
    ensures { Puts (compared_lines p q) page.old page.new }
{
    let mut work = [0u16; 2048];
    let mut trace = [0u8; 1023];
    let outcome = comparison::compare(p, q, false, &mut work, &mut trace);
    put_outcome(page, outcome, &trace);
}

// Puts all lines of an input: those of its sheets, and after two accepted ones those of their comparison.
#[tactic(auto, using(text_pair_spec::proofs::OpeningLaws::opens_refused), unfolding(compare_lines_spec::specs::Program::compare_text, text_pair_spec::specs::Program::pair_text))]
fn put_text(page: &mut Page, input: &[u8])
    ensures { Puts (compare_text input.now) page.old page.new }
{
    let (reference, device) = text_pair::put_pair(page, input);
    if let Some((p, q)) = reference.ok().zip(device.ok()) {
        put_compared(page, p, q);
    }
}

// Puts the program's text for an input over the front of a list, and answers how many bytes of it stand there.
#[tactic(auto, using(text::proofs::PageLaws::page_holds))]
fn write_text(out: &mut [u8], input: &[u8]) -> usize
    ensures { Holds out.old (compare_text input.now) out.new result }
{
    let mut page = Page::new(out);
    put_text(&mut page, input);
    page.at
}

// The program's text for an input.
pub fn compare_text(input: &[u8]) -> Text
    ensures { result ≡ kept_text (compare_text input.now) }
{
    let mut bytes = [0u8; 4096];
    let len = write_text(&mut bytes, input);
    Text { bytes, len }
}
