// The text of the program `show`: every byte that it prints, from the bytes that it reads.
#![tactic(auto, using(crate::proofs::Shown::lines))]

ghost use Rattle.std.specs.Prelude.{◌≤◌, ◌<◌};
ghost use Rattle.base.specs.Joined.{joined};
ghost use Rattle.text_spec.specs.Adds.{Holds};
ghost use Rattle.text.specs.Pages.{Puts};
ghost use Rattle.text_sheet_spec.specs.Show.{codes_lines, successor_line, accepts_line};
ghost use Rattle.text_sheet_spec.specs.Show.{rest_lines, row_lines, node_lines, show_text};

use sheet_spec::{Row, Sheet};
use text::Page;

// ---- the lines of the codes

// Puts the lines of the codes of the first e events, unless the codes are those of version 1.
#[tactic(auto, using(crate::proofs::Shown::codes), unfolding(text_sheet_spec::specs::Show::code_line))]
fn put_codes(page: &mut Page, codes: &[u16; 12], e: u8)
    requires { e ≤ 12 }
    ensures { Puts (codes_lines e codes.now) page.old page.new }
{
    if sheet_codes::is_first(codes, e) {
        return;
    }
    for i in 0..e {
        page.put_numbers(b"code ", i, b" ", codes[usize::from(i)], b"\n");
    }
}

// ---- the lines of a node

// Puts the line of event i at a node, if it has a successor.
#[tactic(auto, using(crate::proofs::Shown::lines), unfolding(text_sheet_spec::specs::Show::event_line))]
fn put_successor(page: &mut Page, row: Row, i: u8)
    ensures { Puts (successor_line row i) page.old page.new }
{
    let w = sheet_rows::successor_of(row, usize::from(i));
    if w != 255 {
        page.put_numbers(b"event ", i, b" to ", w, b"\n");
    }
}

// Puts the lines of the events below e that have a successor.
fn put_successors(page: &mut Page, row: Row, e: u8)
    ensures { Puts (joined (successor_line row) e) page.old page.new }
{
    for i in 0..e {
        put_successor(page, row, i);
    }
}

// Puts the line of an acceptance.
#[tactic(auto, using(crate::proofs::Shown::lines), unfolding(text_sheet_spec::specs::Show::accepts_line))]
fn put_acceptance(page: &mut Page, x: u16)
    ensures { Puts (accepts_line x) page.old page.new }
{
    page.put(b"accepts ");
    page.put_set(x);
    page.put(b"\n");
}

// Puts that a node may stop, or its acceptances.
#[tactic(auto, using(crate::proofs::Shown::rest), unfolding(text_sheet_spec::specs::Show::acceptance_line))]
fn put_rest(page: &mut Page, row: Row)
    ensures { Puts (rest_lines row) page.old page.new }
{
    if sheet_rows::may_stop(row) {
        page.put(b"may stop\n");
        return;
    }
    for j in 0..row.c {
        put_acceptance(page, sheet_rows::acceptance_at(row, usize::from(j)));
    }
}

// Puts all lines of node v.
#[tactic(auto, using(crate::proofs::Shown::lines), unfolding(text_sheet_spec::specs::Show::row_lines))]
fn put_row(page: &mut Page, row: Row, e: u8, v: u8)
    ensures { Puts (row_lines e row v) page.old page.new }
{
    page.put_number_line(b"node ", v);
    put_successors(page, row, e);
    put_rest(page, row);
}

// ---- the text

// Puts the lines of every node; each row is copied out once.
#[tactic(auto, using(crate::proofs::Shown::lines), unfolding(text_sheet_spec::specs::Show::node_lines))]
fn put_nodes(page: &mut Page, s: Sheet)
    requires { s.n ≤ 32 }
    ensures { Puts (joined (node_lines s) s.n) page.old page.new }
{
    for v in 0..s.n {
        put_row(page, s.rows[usize::from(v)], s.e, v);
    }
}

// Puts the program's text for an input.
#[tactic(auto, using(crate::proofs::Shown::nodes_shown))]
fn put_text(page: &mut Page, input: &[u8])
    ensures { Puts (show_text input.now) page.old page.new }
{
    match sheet::read(text::front(input, 4096)) {
        Ok(s) => {
            text_sheet::put_head(page, &Ok(s));
            put_codes(page, &s.codes, s.e);
            put_nodes(page, s);
        }
        Err(cause) => text_sheet::put_head(page, &Err(u8::from(cause))),
    }
}

// Puts the program's text for an input over the front of the list and answers where it ends; what has no room is left
// out.
pub fn put_show(input: &[u8], out: &mut [u8]) -> usize
    ensures { Holds out.old (show_text input.now) out.new result }
{
    let mut page = Page::new(out);
    put_text(&mut page, input);
    page.at
}
