// The text of the program `walk`: every byte that it prints, from the two words that it is started with and the bytes
// that it reads, put over the front of a lent list.
#![tactic(auto)]

ghost use Rattle.std.specs.Prelude.{◌≡◌};
ghost use Rattle.refusals.specs.Numbers.{numbered};
ghost use Rattle.text_spec.specs.Adds.{Holds};
ghost use Rattle.text.specs.Pages.{Puts};
ghost use Rattle.walk_lines_spec.specs.Lines.{walk_lines};
ghost use Rattle.walk_lines_spec.specs.Program.{seed_of, wish_of, walked_lines, walk_text};

use refusals::Refusal;
use sheet_spec::Sheet;
use text::Page;

// ---- the words

// The seed that a word is; a word that is none gives 0.
#[tactic(auto, unfolding(walk_lines_spec::specs::Program::seed_of))]
fn seed_of(word: &[u8]) -> u32
    ensures { result ≡ seed_of word.now }
{
    words::number_in(word, 10, 4294967295).unwrap_or(0)
}

// The wished length that a word is; a word that is none gives 65,535.
#[tactic(auto, unfolding(walk_lines_spec::specs::Program::wish_of))]
fn wish_of(word: &[u8]) -> u16
    ensures { result ≡ wish_of word.now }
{
    words::number_in(word, 5, 65534).unwrap_or(65535) as u16
}

// ---- the lines of a walk

// Puts the lines of a call's answer; the walk is at the front of the list.
#[tactic(auto, using(text::proofs::PageLaws::puts_then), unfolding(walk_lines_spec::specs::Lines::walk_lines, walk_lines_spec::specs::Lines::length_line))]
fn put_answer(page: &mut Page, wish: u16, walked: Result<u16, Refusal>, list: &[u8])
    ensures { Puts (walk_lines wish (numbered walked) list.now) page.old page.new }
{
    match walked {
        Ok(length) => {
            page.put_numbers(b"walked ", length, b" of ", wish, b"\n");
            page.put_trace_line(text::front(list, usize::from(length)))
        }
        Err(cause) => page.put_refusal_line(b"walk refused ", cause),
    }
}

// Puts the lines of a walk on an accepted sheet.
#[tactic(auto, unfolding(walk_lines_spec::specs::Program::walked_lines, walk_lines_spec::specs::Program::lent))]
fn put_walked(page: &mut Page, seed: u32, wish: u16, sheet: Sheet)
    ensures { Puts (walked_lines seed wish sheet) page.old page.new }
{
    let mut list = [0u8; 4096];
    let walked = load::walk(sheet, seed, wish, &mut list);
    put_answer(page, wish, walked, &list);
}

// ---- the text

// Puts the program's text for two words and an input, of which no more than 4,096 bytes count.
fn put_text(page: &mut Page, seed: &[u8], wish: &[u8], input: &[u8])
    ensures { Puts (walk_text seed.now wish.now input.now) page.old page.new }
{
    match sheet::read(text::front(input, 4096)) {
        Ok(s) => {
            text_sheet::put_head(page, &Ok(s));
            put_walked(page, seed_of(seed), wish_of(wish), s);
        }
        Err(cause) => text_sheet::put_head(page, &Err(u8::from(cause))),
    }
}

// Puts the program's text for two words and an input over the front of the lent list, and answers how many bytes of it
// stand there.
#[tactic(auto, using(text::proofs::PageLaws::page_holds))]
pub fn walk_text(seed: &[u8], wish: &[u8], input: &[u8], out: &mut [u8]) -> usize
    ensures { Holds out.old (walk_text seed.now wish.now input.now) out.new result }
{
    let mut page = Page::new(out);
    put_text(&mut page, seed, wish, input);
    page.at
}
