// What the program `bound_pair` writes: every byte of its standard output and of its standard error, from the three
// words that it is started with, put over the front of a lent list.
#![tactic(auto)]

ghost use Rattle.std.specs.Prelude.{◌≡◌, ◌-◌, ◌*◌};
ghost use Rattle.refusals.specs.Numbers.{numbered};
ghost use Rattle.text_spec.specs.Adds.{Holds};
ghost use Rattle.text.specs.Pages.{Puts};
ghost use Rattle.bound_lines_spec.specs.Lines.{bytes_line, bound_lines, reference_part, device_part, refusal_part};
ghost use Rattle.bound_lines_spec.specs.Program.{size_of, asked_of, told_of, said_of, bound_text, bound_error};

use bound_lines_spec::Asked;
use bound_spec::Lengths;
use refusals::Refusal;
use text::Page;

// ---- the words

// The number of nodes that a word is; a word that is none gives 33.
#[tactic(auto, unfolding(bound_lines_spec::specs::Program::size_of))]
fn size_of(word: &[u8]) -> u8
    ensures { result ≡ size_of word.now }
{
    words::number_in(word, 3, 32).unwrap_or(33) as u8
}

// What a word asks for, if it is one that the program knows.
#[tactic(auto, unfolding(bound_lines_spec::specs::Program::asked_of))]
fn asked_of(word: &[u8]) -> Option<Asked>
    ensures { result ≡ asked_of word.now }
{
    if words::same_text(word, b"lines") {
        return Some(Asked::Lines);
    }
    if words::same_text(word, b"reference") {
        return Some(Asked::Reference);
    }
    if words::same_text(word, b"device") {
        return Some(Asked::Device);
    }
    None
}

// ---- the parts

// The number of the last of p q tests, 0 where there is none.
fn last_test(p: u8, q: u8) -> u16
    ensures { result ≡ p * q - 1 }
{
    (u16::from(p) * u16::from(q)).saturating_sub(1)
}

// Puts the line of a sheet: whose it is, its nodes, its bytes.
#[tactic(auto, unfolding(bound_lines_spec::specs::Lines::bytes_line))]
fn put_bytes_line(page: &mut Page, who: &[u8], n: u8, bytes: u16)
    ensures { Puts (bytes_line who.now n bytes) page.old page.new }
{
    page.put_numbers(who, n, b" nodes ", bytes, b" bytes\n");
}

// Puts the lines of an answer.
#[tactic(auto, using(text::proofs::PageLaws::puts_then), unfolding(bound_lines_spec::specs::Lines::bound_lines, bound_lines_spec::specs::Lines::refused_line))]
fn put_lines(page: &mut Page, p: u8, q: u8, written: Result<Lengths, Refusal>)
    ensures { Puts (bound_lines p q (numbered written)) page.old page.new }
{
    match written {
        Ok(l) => {
            put_bytes_line(page, b"reference ", p, l.reference);
            put_bytes_line(page, b"device ", q, l.device);
            page.put_number_line(b"first failing test ", last_test(p, q));
        }
        Err(cause) => page.put_refusal_line(b"bound refused ", cause),
    }
}

// Puts the bytes of the reference, which stand at the front of a list.
#[tactic(auto, using(text::proofs::PageLaws::puts_none), unfolding(bound_lines_spec::specs::Lines::reference_part))]
fn put_reference(page: &mut Page, written: Result<Lengths, Refusal>, list: &[u8])
    ensures { Puts (reference_part (numbered written) list.now) page.old page.new }
{
    match written {
        Ok(l) => page.put(text::front(list, usize::from(l.reference))),
        Err(_) => {}
    }
}

// Puts the bytes of the device, which stand at the front of a list.
#[tactic(auto, using(text::proofs::PageLaws::puts_none), unfolding(bound_lines_spec::specs::Lines::device_part))]
fn put_device(page: &mut Page, written: Result<Lengths, Refusal>, list: &[u8])
    ensures { Puts (device_part (numbered written) list.now) page.old page.new }
{
    match written {
        Ok(l) => page.put(text::front(list, usize::from(l.device))),
        Err(_) => {}
    }
}

// Puts the line of a refusal, if there is one.
#[tactic(auto, using(text::proofs::PageLaws::puts_none), unfolding(bound_lines_spec::specs::Lines::refusal_part, bound_lines_spec::specs::Lines::refused_line))]
fn put_refusal(page: &mut Page, written: Result<Lengths, Refusal>)
    ensures { Puts (refusal_part (numbered written)) page.old page.new }
{
    match written {
        Ok(_) => {}
        Err(cause) => page.put_refusal_line(b"bound refused ", cause),
    }
}

// ---- the texts

// Puts what standard output gets for what is asked.
#[tactic(auto, using(text::proofs::PageLaws::puts_none), unfolding(bound_lines_spec::specs::Program::told_of, bound_lines_spec::specs::Program::answered, bound_lines_spec::specs::Program::lent_reference, bound_lines_spec::specs::Program::lent_device))]
fn put_told(page: &mut Page, p: u8, q: u8, asked: Option<Asked>)
    ensures { Puts (told_of p q asked) page.old page.new }
{
    let mut reference = [0u8; 229];
    let mut device = [0u8; 167];
    let written = bound::write_pair(p, q, &mut reference, &mut device);
    match asked {
        Some(Asked::Lines) => put_lines(page, p, q, written),
        Some(Asked::Reference) => put_reference(page, written, &reference),
        Some(Asked::Device) => put_device(page, written, &device),
        None => {}
    }
}

// Puts what standard error gets for what is asked.
#[tactic(auto, using(text::proofs::PageLaws::puts_none), unfolding(bound_lines_spec::specs::Program::said_of, bound_lines_spec::specs::Program::answered, bound_lines_spec::specs::Program::lent_reference, bound_lines_spec::specs::Program::lent_device))]
fn put_said(page: &mut Page, p: u8, q: u8, asked: Option<Asked>)
    ensures { Puts (said_of p q asked) page.old page.new }
{
    let mut reference = [0u8; 229];
    let mut device = [0u8; 167];
    let written = bound::write_pair(p, q, &mut reference, &mut device);
    match asked {
        Some(Asked::Lines) => {}
        Some(Asked::Reference | Asked::Device) => put_refusal(page, written),
        None => page.put(b"bound_pair: WORD is reference, device or lines\n"),
    }
}

// Puts the program's standard output for three words over the front of the lent list, and answers how many bytes of it
// stand there.
#[tactic(auto, using(text::proofs::PageLaws::page_holds), unfolding(bound_lines_spec::specs::Program::bound_text))]
pub fn bound_text(p: &[u8], q: &[u8], word: &[u8], out: &mut [u8]) -> usize
    ensures { Holds out.old (bound_text p.now q.now word.now)
        out.new result }
{
    let mut page = Page::new(out);
    put_told(&mut page, size_of(p), size_of(q), asked_of(word));
    page.at
}

// The same for its standard error.
#[tactic(auto, using(text::proofs::PageLaws::page_holds), unfolding(bound_lines_spec::specs::Program::bound_error))]
pub fn bound_error(p: &[u8], q: &[u8], word: &[u8], out: &mut [u8]) -> usize
    ensures { Holds out.old (bound_error p.now q.now word.now)
        out.new result }
{
    let mut page = Page::new(out);
    put_said(&mut page, size_of(p), size_of(q), asked_of(word));
    page.at
}
