// The bytes of a kept sheet (01, "A sheet"; 02, K1) on a page: version 1 where its codes are 1 to E, else version 2.
#![tactic(auto)]

ghost use Rattle.std.specs.Prelude.{◌≡◌, ◌≤◌, length, take};
ghost use Rattle.sheet_spec.specs.Encoding.{encode_words, encode_row, encode_rows, encode_codes, encode_body};
ghost use Rattle.sheet_spec.specs.Encoding.{written_version, sheet_bytes};
ghost use Rattle.sheet_spec.specs.Form.{SheetForm};
ghost use Rattle.sheet_spec.specs.Refusals.{sheet_fault};
ghost use Rattle.text.specs.Pages.{Puts};
ghost use Rattle.sheet_writer.specs.Shapes.{version_of, all_bytes, Small};

use sheet_spec::{Row, Sheet};
use text::Page;

// Puts numbers of 16 bits, the high byte of each first.
#[tactic(auto, using(crate::proofs::WriterLaws::words))]
fn put_words(page: &mut Page, words: &[u16])
    ensures { Puts (encode_words words.now) page.old page.new }
{
    for word in words {
        page.put(&word.to_be_bytes());
    }
}

// ---- the codes

// The version in which a sheet is written: 1 where its codes are 1 to E, else 2.
#[tactic(auto, unfolding(sheet_spec::specs::Encoding::written_version))]
fn version_of(s: &Sheet) -> u8
    requires { Small s.now }
    ensures { result ≡ written_version s.now }
{
    if sheet_codes::is_first(&s.codes, s.e) {
        1
    } else {
        2
    }
}

// Puts the codes of a sheet in version 2, and nothing in version 1.
#[tactic(auto, using(text::proofs::PageLaws::puts_none), unfolding(sheet_spec::specs::Encoding::encode_codes))]
fn put_codes(page: &mut Page, s: &Sheet, version: u8)
    requires { Small s.now }
    ensures { Puts (encode_codes version s.now) page.old page.new }
{
    if version == 2 {
        put_words(page, &s.codes[..usize::from(s.e)]);
    }
}

// How many bytes the codes of a sheet have in a version.
#[tactic(auto, using(crate::proofs::WriterLaws::counts), unfolding(sheet_spec::specs::Encoding::encode_codes))]
fn codes_size(s: &Sheet, version: u8) -> u32
    requires small { Small s.now }
    requires form { SheetForm s.now }
    ensures size { result ≡ length (encode_codes version s.now) }
    ensures few { result ≤ 24 }
{
    if version == 2 { u32::from(s.e) * 2 } else { 0 }
}

// ---- the nodes

// Puts a row: its successors, its C, its sets.
#[tactic(auto, using(text::proofs::PageLaws::puts_then), unfolding(sheet_spec::specs::Encoding::encode_row))]
fn put_row(page: &mut Page, row: Row, e: u8)
    requires { (e ≤ 12) × (row.c ≤ 16) }
    ensures { Puts (encode_row e row) page.old page.new }
{
    page.put(&row.succ[..usize::from(e)]);
    page.put_byte(row.c);
    put_words(page, &row.sets[..usize::from(row.c)]);
}

// Puts the rows of the nodes in use.
#[tactic(auto, using(crate::proofs::WriterLaws::rows))]
fn put_rows(page: &mut Page, s: &Sheet)
    requires { Small s.now }
    ensures { Puts (encode_rows s.now.e (take s.now.n s.now.rows)) page.old page.new }
{
    for row in &s.rows[..usize::from(s.n)] {
        put_row(page, *row, s.e);
    }
}

// How many bytes the rows of the nodes in use have.
fn rows_size(s: &Sheet) -> u32
    requires small { Small s.now }
    requires form { SheetForm s.now }
    ensures size { result ≡ length (encode_rows s.now.e (take s.now.n s.now.rows)) }
    ensures few { result ≤ 1440 }
{
    let mut size = 0;
    for row in &s.rows[..usize::from(s.n)] {
        let row = *row;
        size += u32::from(s.e) + 1 + u32::from(row.c) * 2;
    }
    size
}

// ---- the sheet

// How many bytes follow the first four, in a version: the version, E and N, the codes, the nodes.
fn body_size(s: &Sheet, version: u8) -> u32
    requires small { Small s.now }
    requires form { SheetForm s.now }
    ensures { result ≡ length (encode_body version s.now) }
{
    3 + codes_size(s, version) + rows_size(s)
}

// Puts the bytes of a sheet that a later call accepts: the head, the codes, the nodes, one piece after another.
pub fn put_sheet(page: &mut Page, s: Sheet)
    requires { sheet_fault s ≡ 0 }
    ensures { Puts (sheet_bytes s) page.old page.new
        × Puts (all_bytes s (version_of s.e s.codes)) page.old page.new }
{
    let version = version_of(&s);
    page.put(&body_size(&s, version).to_be_bytes());
    page.put(&[version, s.e, s.n]);
    put_codes(page, &s, version);
    put_rows(page, &s);
}
