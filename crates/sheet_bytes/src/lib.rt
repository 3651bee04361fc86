// The bytes of a sheet (01, "A sheet"; 02, K1): the refusals 1 to 5 and 18, and the sheet that they spell, whatever
// they are: each row from its place, the codes, unused places as 01 and 02 have them.
#![tactic(auto)]

mod codes;
mod layout;

ghost use Rattle.std.specs.Prelude.{◌≡◌, ◌≤◌, ◌<◌};
ghost use Rattle.base.specs.Table.{up_to};
ghost use Rattle.base.specs.Refusal.{or_else};
ghost use Rattle.refusals.specs.Numbers.{refusal_in};
ghost use Rattle.sheet_spec.specs.Spelling.{event_count, node_count, nodes_at, start_of, succ_of, sets_of, row_at, unused_row, row_of, sheet_of};
ghost use Rattle.sheet_spec.specs.Refusals.{head_fault, codes_fault, layout_fault};

use refusals::Refusal;
use sheet_spec::{Row, Sheet};
use std::array;

// The refusal of the bytes before the graph that they spell is looked at: 1, 2, 3; 4 and 18 of the codes; then 4 and 5
// of the nodes, by position.
pub fn fault_in(bytes: &[u8]) -> Result<(), Refusal>
    ensures { refusal_in result ≡ or_else (head_fault bytes.now)
        (or_else (codes_fault bytes.now)
        (layout_fault bytes.now (event_count bytes.now)
        (node_count bytes.now) (nodes_at bytes.now))) }
{
    layout::head_fault(bytes)?;
    codes::codes_fault(bytes)?;
    layout::layout_fault(bytes, layout::byte_at(bytes, 5), layout::byte_at(bytes, 6))
}

// The successor on event i of the node at a place, 255 from event `e` on.
fn succ_of(bytes: &[u8], at: usize, e: usize, i: usize) -> u8
    requires { (at < 1000000) × (i < 12) }
    ensures { result ≡ succ_of bytes.now at e i }
{
    if i < e {
        layout::byte_at(bytes, at + i)
    } else {
        255
    }
}

// All twelve successor places of a node whose bytes begin at a place.
fn succs_of(bytes: &[u8], at: usize, e: usize) -> [u8; 12]
    requires { at < 1000000 }
    ensures { result ≡ up_to (succ_of bytes.now at e) 12 }
{
    array::from_fn(|i| succ_of(bytes, at, e, i))
}

// The set at place j of the sets that begin at a place, 0 from place `c` on.
fn set_of(bytes: &[u8], at: usize, c: usize, j: usize) -> u16
    requires { (at < 900000) × (j < 16) }
    ensures { result ≡ sets_of bytes.now at c j }
{
    if j < c {
        layout::word_at(bytes, at + j * 2)
    } else {
        0
    }
}

// All sixteen set places of a node whose sets begin at a place.
fn sets_of(bytes: &[u8], at: usize, c: usize) -> [u16; 16]
    requires { at < 900000 }
    ensures { result ≡ up_to (sets_of bytes.now at c) 16 }
{
    array::from_fn(|j| set_of(bytes, at, c, j))
}

// The row of the node that begins at a place.
fn row_at(bytes: &[u8], e: usize, at: usize) -> Row
    requires { (e ≤ 255) × (at < 500000) }
    ensures { result ≡ row_at bytes.now e at }
{
    let c = layout::byte_at(bytes, at + e);
    Row {
        succ: succs_of(bytes, at, e),
        sets: sets_of(bytes, at + e + 1, usize::from(c)),
        c,
    }
}

// The row of an unused node: 255 for each successor, 0 for each set and for C.
fn unused_row() -> Row
    ensures { result ≡ unused_row }
{
    Row {
        succ: [255; 12],
        sets: [0; 16],
        c: 0,
    }
}

// The row of node `v`, which begins at a place if it is in use.
fn row_of(bytes: &[u8], e: usize, n: usize, v: usize, at: usize) -> Row
    requires { (e ≤ 255) × (at < 500000) × (at ≡ start_of bytes.now e v) }
    ensures { result ≡ row_of bytes.now e n v }
{
    if v < n {
        row_at(bytes, e, at)
    } else {
        unused_row()
    }
}

// The rows that the bytes spell, one for each of 32 nodes.
fn rows_of(bytes: &[u8], e: usize, n: usize) -> [Row; 32]
    requires { e ≤ 255 }
    ensures { result ≡ up_to (row_of bytes.now e n) 32 }
{
    let mut rows = [unused_row(); 32];
    let mut at = layout::nodes_at(bytes);
    for v in 0..32 {
        rows[v] = row_of(bytes, e, n, v, at);
        at = layout::next_at(bytes, e, at);
    }
    rows
}

// The sheet that the bytes spell.
pub fn sheet_of(bytes: &[u8]) -> Sheet
    ensures { result ≡ sheet_of bytes.now }
{
    let e = layout::byte_at(bytes, 5);
    let n = layout::byte_at(bytes, 6);
    Sheet {
        rows: rows_of(bytes, usize::from(e), usize::from(n)),
        e,
        n,
        codes: codes::codes_of(bytes),
    }
}
