// The text of the program `suite`: every byte that it prints, from the bytes that it reads, put over the front of a
// lent list.
#![tactic(auto)]

ghost use Rattle.std.specs.Prelude.{◌≡◌, ◌++◌, ◌*◌, ◌≤◌, length};
ghost use Rattle.refusals.specs.Numbers.{numbered};
ghost use Rattle.text_spec.specs.Adds.{Holds};
ghost use Rattle.text_spec.specs.Lines.{ascii, decimal};
ghost use Rattle.text.specs.Pages.{Puts};
ghost use Rattle.suite_lines_spec.specs.Lines.{test_line, test_lines, passed_of, last_words, last_line, suite_lines};
ghost use Rattle.suite_lines_spec.specs.Program.{judged_lines, suite_text};
ghost use Rattle.suite_lines.specs.Shapes.{Room};

use refusals::Refusal;
use sheet_spec::Sheet;
use text::Page;

// ---- lines

// Puts the line of test `k`.
#[tactic(auto, using(text::proofs::PageLaws::puts_then), unfolding(suite_lines_spec::specs::Lines::test_line))]
fn put_test_line(page: &mut Page, k: u16, verdict: u8)
    ensures { Puts (test_line k verdict) page.old page.new }
{
    page.put(b"test ");
    page.put_number(k);
    if verdict == 11 {
        page.put(b" passes\n")
    } else {
        page.put(b" fails\n")
    }
}

// Puts the lines of the first `n` tests.
#[tactic(auto, using(crate::proofs::Steps::lines_one_by_one), unfolding(suite_lines_spec::specs::Lines::test_lines))]
fn put_test_lines(page: &mut Page, verdicts: &[u8], n: u16)
    requires { n ≤ length verdicts.now }
    ensures { Puts (test_lines verdicts.now n) page.old page.new }
{
    for k in 0..n {
        put_test_line(page, k, verdicts[usize::from(k)]);
    }
}

// How many of the first `n` tests pass.
#[tactic(auto, using(crate::proofs::Steps::passed_none, crate::proofs::Steps::passed_more))]
fn count_passed(verdicts: &[u8], n: u16) -> u16
    requires { n ≤ length verdicts.now }
    ensures { result ≡ passed_of verdicts.now n }
{
    let mut passed = 0;
    for k in 0..n {
        passed += u16::from(verdicts[usize::from(k)] == 11);
    }
    passed
}

// Puts the end of the last line: "all pass" only if as many passed as there are tests.
#[tactic(auto, unfolding(suite_lines_spec::specs::Lines::last_words))]
fn put_last_words(page: &mut Page, total: u16, run: u16, passed: u16)
    requires { passed ≤ run }
    ensures { Puts (last_words total run passed) page.old page.new }
{
    if passed == total {
        page.put(b" all pass\n")
    } else {
        page.put_number_line(b" failed ", run - passed)
    }
}

// Puts the last line's part on the tests that were run: how many, and whether all passed.
#[tactic(auto, using(text::proofs::PageLaws::puts_then))]
fn put_run(page: &mut Page, total: u16, run: u16, passed: u16)
    requires { passed ≤ run }
    ensures { Puts (ascii " run " ++ (decimal run ++ last_words total run passed)) page.old page.new }
{
    page.put(b" run ");
    page.put_number(run);
    put_last_words(page, total, run, passed);
}

// Puts the last line: how many tests there are, how many were run, whether all passed.
#[tactic(auto, using(text::proofs::PageLaws::puts_then), unfolding(suite_lines_spec::specs::Lines::last_line))]
fn put_last_line(page: &mut Page, total: u16, run: u16, passed: u16)
    requires { passed ≤ run }
    ensures { Puts (last_line total run passed) page.old page.new }
{
    page.put(b"tests ");
    page.put_number(total);
    put_run(page, total, run, passed);
}

// Puts the lines of an answer, where there are so many tests; the verdicts are at the front of their list.
#[tactic(auto, using(text::proofs::PageLaws::puts_then, suite_lines_spec::proofs::ProgramLaws::passed_few), unfolding(suite_lines_spec::specs::Lines::suite_lines, crate::specs::Shapes::Room))]
fn put_suite(page: &mut Page, total: u16, judged: Result<u16, Refusal>, verdicts: &[u8])
    requires { Room (numbered judged) verdicts.now }
    ensures { Puts (suite_lines total (numbered judged) verdicts.now) page.old page.new }
{
    match judged {
        Ok(n) => {
            put_test_lines(page, verdicts, n);
            put_last_line(page, total, n, count_passed(verdicts, n))
        }
        Err(cause) => page.put_refusal_line(b"suite refused ", cause),
    }
}

// ---- the whole text

// How many tests there are for p and q nodes.
fn test_count(p: u8, q: u8) -> u16
    ensures { result ≡ p * q }
{
    u16::from(p) * u16::from(q)
}

// Judges all tests of two sheets and puts the lines of the answer.
fn put_judged(page: &mut Page, p: Sheet, q: Sheet)
    ensures { Puts (judged_lines p q) page.old page.new }
{
    let mut verdicts = [0u8; 1024];
    let judged = verdicts::judge_all(p, q, false, &mut verdicts);
    put_suite(page, test_count(p.n, q.n), judged, &verdicts);
}

// Puts the program's text for an input.
#[tactic(auto, using(text_pair_spec::proofs::OpeningLaws::opens_found, text_pair_spec::proofs::OpeningLaws::opens_refused), unfolding(suite_lines_spec::specs::Program::suite_text, text_pair_spec::specs::Program::pair_text))]
fn put_text(page: &mut Page, input: &[u8])
    ensures { Puts (suite_text input.now) page.old page.new }
{
    let (reference, device) = text_pair::put_pair(page, input);
    if let Some((p, q)) = reference.ok().zip(device.ok()) {
        put_judged(page, p, q);
    }
}

// Puts the program's text for an input over the front of the lent list, and answers how many bytes of it stand there.
#[tactic(auto, using(text::proofs::PageLaws::page_holds))]
pub fn suite_text(input: &[u8], out: &mut [u8]) -> usize
    ensures { Holds out.old (suite_text input.now) out.new result }
{
    let mut page = Page::new(out);
    put_text(&mut page, input);
    page.at
}
