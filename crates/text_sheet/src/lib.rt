// The first line of the programs `show`, `probe_list`, `keypad_check` and `walk`: the size of an accepted sheet, or the
// refusal of another with its meaning.
#![tactic(auto)]

ghost use Rattle.std.specs.Prelude.{◌≡◌};
ghost use Rattle.text.specs.Pages.{Puts};
ghost use Rattle.text_sheet_spec.specs.Head.{refusal_words, refused_sheet_line, told, head_line};

use sheet_spec::Sheet;
use text::Page;

// What the number of a sheet's refusal means, in few words; no other number has some.
#[tactic(auto, unfolding(text_sheet_spec::specs::Head::refusal_words, text_sheet_spec::specs::Head::rule_words))]
fn meaning(number: u8) -> &'static [u8]
    ensures { result.now ≡ refusal_words number }
{
    match number {
        1 => b"too short or its length field is wrong",
        2 => b"version is neither 1 nor 2",
        3 => b"events or nodes out of range",
        4 => b"the bytes end too early or some remain",
        5 => b"number of acceptances out of range",
        6 => b"a successor is no node",
        7 => b"a rule of acceptances is broken",
        8 => b"a node cannot be reached",
        18 => b"a code is given twice",
        _ => b"",
    }
}

// Puts the line of a refused sheet.
#[tactic(auto, using(text::proofs::PageLaws::puts_then), unfolding(text_sheet_spec::specs::Head::refused_sheet_line))]
fn put_refused_line(page: &mut Page, number: u8)
    ensures { Puts (refused_sheet_line number) page.old page.new }
{
    page.put(b"sheet refused ");
    page.put_number(number);
    page.put(b" ");
    page.put(meaning(number));
    page.put(b"\n");
}

// Puts the first line of a sheet, or of one that was refused with a number.
#[tactic(auto, unfolding(text_sheet_spec::specs::Head::head_line))]
pub fn put_head(page: &mut Page, read: &Result<Sheet, u8>)
    ensures { Puts (head_line (told read.now)) page.old page.new }
{
    match read {
        Ok(s) => page.put_sheet_line(b"sheet ", s.n, s.e),
        Err(0) => page.put_sheet_line(b"sheet ", 0u8, 0u8),
        Err(number) => put_refused_line(page, *number),
    }
}
