// The lines of the program `probe_list`: the probes of one node, or that it may stop, and its optional events.
#![tactic(auto)]

ghost use Rattle.std.specs.Prelude.{◌≡◌, ◌<◌};
ghost use Rattle.refusals.specs.Numbers.{number};
ghost use Rattle.sheet_spec.specs.Kept.{row};
ghost use Rattle.text_spec.specs.Adds.{Holds};
ghost use Rattle.text.specs.Pages.{Puts};
ghost use Rattle.text_sheet_spec.specs.Node.{set_list, probes_line, may_stop_line, denied_line};
ghost use Rattle.text_sheet_spec.specs.Node.{optional, optional_line, optional_text, node_text};
ghost use Rattle.probe_list_lines.specs.Shapes.{found_line, without};

use refusals::Refusal;
use sheet_spec::{Row, Sheet};
use text::Page;

// ---- the line of probes

// Puts the sets of a list in order, a blank before each.
#[tactic(auto, unfolding(text_sheet_spec::specs::Node::set_list), using(text::proofs::PageLaws::joined_none, text::proofs::PageLaws::joined_end))]
fn put_sets(page: &mut Page, sets: &[u16])
    ensures { Puts (set_list sets.now) page.old page.new }
{
    for set in sets {
        page.put(b" ");
        page.put_set(*set);
    }
}

// Puts the line of a node with these probes.
#[tactic(auto, unfolding(text_sheet_spec::specs::Node::probes_line), using(text::proofs::PageLaws::puts_then))]
fn put_probes_line(page: &mut Page, node: u8, sets: &[u16])
    ensures { Puts (probes_line node sets.now) page.old page.new }
{
    page.put(b"node ");
    page.put_number(node);
    page.put(b" probes");
    put_sets(page, sets);
    page.put(b"\n");
}

// Puts the line of a node that may stop.
#[tactic(auto, unfolding(text_sheet_spec::specs::Node::may_stop_line), using(text::proofs::PageLaws::puts_then))]
fn put_stop_line(page: &mut Page, node: u8)
    ensures { Puts (may_stop_line node) page.old page.new }
{
    page.put(b"node ");
    page.put_number(node);
    page.put(b" may stop\n");
}

// Puts the line of a node whose probe call is refused.
#[tactic(auto, unfolding(text_sheet_spec::specs::Node::denied_line))]
fn put_denied_line(page: &mut Page, node: u8, refusal: Refusal)
    ensures { Puts (denied_line node (number refusal)) page.old page.new }
{
    page.put_numbers(b"node ", node, b" refused ", u8::from(refusal), b"\n");
}

// Puts the line of a node whose probes were found; a node without probes may stop.
#[tactic(auto, unfolding(crate::specs::Shapes::found_line))]
fn put_found(page: &mut Page, node: u8, sets: &[u16])
    ensures { Puts (found_line node sets.now) page.old page.new }
{
    if sets.is_empty() {
        put_stop_line(page, node);
    } else {
        put_probes_line(page, node, sets);
    }
}

// ---- the line of optional events

// The events of a set that are not in the other.
#[tactic(auto, unfolding(crate::specs::Shapes::without))]
fn without(set: u16, other: u16) -> u16
    ensures { result ≡ without set other }
{
    set - (set & other)
}

// The events that a row can do and that stand in none of its acceptances, as a set.
#[tactic(auto, using(crate::proofs::Rest::rest_none, crate::proofs::Rest::rest_more, crate::proofs::Rest::rest_all))]
fn optional_of(row: Row, e: usize) -> u16
    ensures { result ≡ optional e row }
{
    let mut rest = sheet_rows::initials_of(row, e);
    for j in 0..usize::from(row.c) {
        rest = without(rest, sheet_rows::acceptance_at(row, j));
    }
    rest
}

// Puts the line of a node with these optional events, also where there are none.
#[tactic(auto, unfolding(text_sheet_spec::specs::Node::optional_line), using(text::proofs::PageLaws::puts_then))]
fn put_optional_line(page: &mut Page, node: u8, set: u16)
    ensures { Puts (optional_line node set) page.old page.new }
{
    page.put(b"node ");
    page.put_number(node);
    page.put(b" optional");
    page.put_members(set);
    page.put(b"\n");
}

// Puts the line of the optional events of a node, where there are any.
#[tactic(auto, unfolding(text_sheet_spec::specs::Node::optional_text), using(text::proofs::PageLaws::puts_none))]
fn put_optional(page: &mut Page, node: u8, set: u16)
    ensures { Puts (optional_text node set) page.old page.new }
{
    if set != 0 {
        put_optional_line(page, node, set);
    }
}

// Puts the optional events of a node of the sheet.
fn put_optional_of(page: &mut Page, sheet: Sheet, node: u8)
    requires { node < 32 }
    ensures { Puts (optional_text node (optional sheet.e (row sheet node))) page.old page.new }
{
    let set = optional_of(sheet.rows[usize::from(node)], usize::from(sheet.e));
    put_optional(page, node, set);
}

// ---- the text

// Puts the text of a node.
fn put_text(page: &mut Page, sheet: Sheet, node: u8)
    ensures { Puts (node_text sheet node) page.old page.new }
{
    let mut sets = [0; 4096];
    match probes::list(sheet, node, &mut sets) {
        Ok(count) => {
            put_found(page, node, &sets[..usize::from(count)]);
            put_optional_of(page, sheet, node);
        }
        Err(refusal) => put_denied_line(page, node, refusal),
    }
}

// Puts the text of a node over the front of the list and answers where it ends; what has no room is left out.
#[tactic(auto, using(text::proofs::PageLaws::page_holds))]
pub fn put_node(sheet: Sheet, node: u8, out: &mut [u8]) -> usize
    ensures { Holds out.old (node_text sheet node) out.new result }
{
    let mut page = Page::new(out);
    put_text(&mut page, sheet, node);
    page.at
}
