// The text of the program `keypad_check`: every byte that it prints, from the words that it is started with and the
// bytes that it reads, put over the front of a lent list.
#![tactic(auto)]

ghost use Rattle.std.specs.Prelude.{◌≡◌};
ghost use Rattle.refusals.specs.Numbers.{numbered};
ghost use Rattle.text_spec.specs.Adds.{Holds};
ghost use Rattle.text.specs.Pages.{Puts};
ghost use Rattle.keypad_check_lines_spec.specs.Lines.{rules_line, overlap_line, told_lines, found_line};
ghost use Rattle.keypad_check_lines_spec.specs.Program.{asked_of, asked_line, table_lines, input_lines, keypad_text};

use keypad_check_lines_spec::AskedCode;
use keypad_spec::{Found, Keypad};
use refusals::Refusal;
use sheet_spec::Sheet;
use text::Page;

// ---- the words

// What the program is asked for, by how many words it is started with, and the word where there is one.
#[tactic(auto, unfolding(keypad_check_lines_spec::specs::Program::asked_of, keypad_check_lines_spec::specs::Program::word_code))]
pub fn asked_of(count: usize, word: &[u8]) -> AskedCode
    ensures { result ≡ asked_of count word.now }
{
    if count == 0 {
        return AskedCode::Nothing;
    }
    if count != 1 {
        return AskedCode::Wrong;
    }
    match words::number_in(word, 5, 255) {
        Some(code) => AskedCode::Code(code as u8),
        None => AskedCode::Wrong,
    }
}

// ---- the lines of a table

// Puts the line of a table's size.
#[tactic(auto, using(text::proofs::PageLaws::puts_then), unfolding(keypad_check_lines_spec::specs::Lines::rules_line))]
fn put_rules(page: &mut Page, n: u64)
    ensures { Puts (rules_line n) page.old page.new }
{
    page.put(b"table ");
    page.put_number(n);
    page.put(b" rules\n");
}

// Puts the line of an overlap.
#[tactic(auto, using(text::proofs::PageLaws::puts_then), unfolding(keypad_check_lines_spec::specs::Lines::overlap_line))]
fn put_overlap(page: &mut Page, c: u8, i: u8, k: u8)
    ensures { Puts (overlap_line c i k) page.old page.new }
{
    page.put(b"overlap ");
    page.put_number(c);
    page.put_numbers(b" by ", i, b" and ", k, b"\n");
}

// Puts the lines of what a check answers for a table of `n` rules.
#[tactic(auto, using(text::proofs::PageLaws::puts_then), unfolding(keypad_check_lines_spec::specs::Lines::told_lines))]
fn put_told(page: &mut Page, n: u64, told: Result<Keypad, Refusal>)
    ensures { Puts (told_lines n (numbered told)) page.old page.new }
{
    match told {
        Ok(Keypad::Good) => {
            put_rules(page, n);
            page.put(b"good\n")
        }
        Ok(Keypad::Gap(c)) => {
            put_rules(page, n);
            page.put_number_line(b"gap ", c)
        }
        Ok(Keypad::Overlap(c, i, k)) => {
            put_rules(page, n);
            put_overlap(page, c, i, k)
        }
        Err(cause) => page.put_refusal_line(b"table refused ", cause),
    }
}

// Puts the line of what a lookup of the code answers, if it is an event.
#[tactic(auto, using(text::proofs::PageLaws::puts_none), unfolding(keypad_check_lines_spec::specs::Lines::found_line))]
fn put_found(page: &mut Page, code: u8, found: Result<Found, Refusal>)
    ensures { Puts (found_line code (numbered found)) page.old page.new }
{
    match found {
        Ok(Found::Event(e)) => page.put_numbers(b"code ", code, b" event ", e, b"\n"),
        _ => {}
    }
}

// Puts the line of the code that is asked for, if one is.
#[tactic(auto, using(text::proofs::PageLaws::puts_none), unfolding(keypad_check_lines_spec::specs::Program::asked_line))]
fn put_asked(page: &mut Page, asked: AskedCode, sheet: Sheet, table: &[u8])
    ensures { Puts (asked_line asked sheet table.now) page.old page.new }
{
    match asked {
        AskedCode::Code(c) => put_found(page, c, keypad::find(sheet, table, c)),
        _ => {}
    }
}

// Puts the lines of a table, after an accepted sheet's.
#[tactic(auto, using(text::proofs::PageLaws::puts_then), unfolding(keypad_check_lines_spec::specs::Program::table_lines))]
fn put_table(page: &mut Page, asked: AskedCode, sheet: Sheet, table: &[u8])
    ensures { Puts (table_lines asked sheet table.now) page.old page.new }
{
    let rules = (table.len() / 3) as u64;
    put_told(page, rules, keypad::check(sheet, table));
    put_asked(page, asked, sheet, table);
}

// ---- the text

// Puts the lines of an input that is not too long: a sheet, and a table after it.
fn put_input(page: &mut Page, asked: AskedCode, input: &[u8])
    ensures { Puts (input_lines asked input.now) page.old page.new }
{
    let (first, second) = input.split_at(text_pair::first_end(input));
    match sheet::read(first) {
        Ok(s) => {
            text_sheet::put_head(page, &Ok(s));
            put_table(page, asked, s, second);
        }
        Err(cause) => text_sheet::put_head(page, &Err(u8::from(cause))),
    }
}

// Puts the program's text for what is asked and an input, of which no more than 4,096 bytes count; wrong use has none.
#[tactic(auto, using(text::proofs::PageLaws::puts_none), unfolding(keypad_check_lines_spec::specs::Program::keypad_text, text_spec::specs::Input::cut_input))]
fn put_text(page: &mut Page, asked: AskedCode, input: &[u8])
    ensures { Puts (keypad_text asked input.now) page.old page.new }
{
    match asked {
        AskedCode::Wrong => {}
        _ => put_input(page, asked, text::front(input, 4096)),
    }
}

// Puts the program's text for what is asked and an input over the front of the lent list, and answers how many bytes of
// it stand there.
#[tactic(auto, using(text::proofs::PageLaws::page_holds))]
pub fn keypad_text(asked: AskedCode, input: &[u8], out: &mut [u8]) -> usize
    ensures { Holds out.old (keypad_text asked input.now) out.new result }
{
    let mut page = Page::new(out);
    put_text(&mut page, asked, input);
    page.at
}
