// The text of the program `script_counts`: every byte that it prints, from the word that it is started with and the
// bytes that it reads, put over the front of a lent list.
#![tactic(auto)]

ghost use Rattle.std.specs.Prelude.{◌≡◌, ◌+◌, ◌≤◌};
ghost use Rattle.text_spec.specs.Adds.{Holds};
ghost use Rattle.text.specs.Pages.{Puts};
ghost use Rattle.script_counts_lines_spec.specs.Lines.{total_line, count_lines};
ghost use Rattle.script_counts_lines_spec.specs.Program.{length_of, counted_lines, scripts_text};

use scripts_spec::Counts;
use sheet_spec::Sheet;
use text::Page;

// ---- lines

// Puts the line of all scripts of so many events.
#[tactic(auto, using(text::proofs::PageLaws::puts_then), unfolding(script_counts_lines_spec::specs::Lines::total_line))]
fn put_total(page: &mut Page, length: u16, total: u64)
    ensures { Puts (total_line length total) page.old page.new }
{
    page.put(b"scripts of ");
    page.put_number(length);
    page.put_number_line(b" events ", total);
}

// Puts the lines of the counts; the counts sum to all scripts.
#[tactic(auto, using(text::proofs::PageLaws::puts_then), unfolding(script_counts_lines_spec::specs::Lines::count_lines))]
fn put_counts(page: &mut Page, length: u16, counts: Counts)
    requires { counts.walked + (counts.device + counts.reference) ≤ 184884258895036416 }
    ensures { Puts (count_lines length (counts.walked + (counts.device + counts.reference)) counts.walked counts.device
        counts.reference) page.old page.new }
{
    let early = counts.device + counts.reference;
    put_total(page, length, counts.walked + early);
    page.put_number_line(b"walked ", counts.walked);
    page.put_number_line(b"device stops ", counts.device);
    page.put_number_line(b"reference stops ", counts.reference);
    page.put_number_line(b"ends early ", early);
}

// ---- the whole text

// The length that a word is; a word that is none gives 65,535.
#[tactic(auto, unfolding(script_counts_lines_spec::specs::Program::length_of))]
fn length_of(word: &[u8]) -> u16
    ensures { result ≡ length_of word.now }
{
    words::number_in(word, 5, 65534).unwrap_or(65535) as u16
}

// Counts the scripts of two sheets and puts the lines of the answer.
fn put_counted(page: &mut Page, word: &[u8], p: Sheet, q: Sheet)
    ensures { Puts (counted_lines word.now p q) page.old page.new }
{
    let length = length_of(word);
    match scripts::count(p, q, length) {
        Ok(counts) => put_counts(page, length, counts),
        Err(cause) => page.put_refusal_line(b"scripts refused ", cause),
    }
}

// Puts the program's text for a word and an input.
fn put_text(page: &mut Page, word: &[u8], input: &[u8])
    ensures { Puts (scripts_text word.now input.now) page.old page.new }
{
    let (reference, device) = text_pair::put_pair(page, input);
    if let Some((p, q)) = reference.ok().zip(device.ok()) {
        put_counted(page, word, p, q);
    }
}

// Puts the program's text for a word and an input over the front of the lent list, and answers how many bytes of it
// stand there.
#[tactic(auto, using(text::proofs::PageLaws::page_holds))]
pub fn scripts_text(word: &[u8], input: &[u8], out: &mut [u8]) -> usize
    ensures { Holds out.old (scripts_text word.now input.now) out.new result }
{
    let mut page = Page::new(out);
    put_text(&mut page, word, input);
    page.at
}
