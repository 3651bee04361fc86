// The tables from which a verdict on a device is worked out, each filled once from the rows of the two sheets: where
// the events lead, and at which pairs of nodes a test fails. A set of the device's nodes is a word with a bit for each
// node.
#![tactic(auto)]

ghost use Rattle.std.specs.Prelude.{◌≡◌, ◌≤◌, ◌<◌};
ghost use Rattle.base.specs.Table.{up_to};
ghost use Rattle.verdicts_tables.specs.Shapes.{node_if, stray_word, stop_word, refusal_word, early_word, late_word};
ghost use Rattle.verdicts_tables.specs.Shapes.{stray_words, early_words, late_words, bit_at, tables_of};

use sheet_spec::Row;

// What a verdict is worked out from: the successors of both sheets' nodes, the device's as sets of one, and where a
// test fails early and late.
#[derive(Clone, Copy)]
pub struct Tables {
    pub mine: [u8; 384],
    pub theirs: [u32; 384],
    pub early: [u32; 32],
    pub late: [u32; 32],
}

// ---- words

// The set with node `v`, if `is_in`; else the set as it is.
#[tactic(auto, unfolding(crate::specs::Shapes::node_if))]
fn with_node_if(set: u32, v: usize, is_in: bool) -> u32
    requires { v < 32 }
    ensures { result ≡ node_if set v is_in }
{
    if is_in { nodes::with_node(set, v) } else { set }
}

// ---- where events lead

// Where event j / 32 leads from node j % 32, as a set: of one node or, where it leads to none of the first `q`, of
// none. From `q` on there is no node.
#[tactic(auto, unfolding(crate::specs::Shapes::bit_at, crate::specs::Shapes::node_if))]
fn bit_at(table: &[u8; 384], q: usize, j: usize) -> u32
    requires { (j < 384) × (q ≤ 32) }
    ensures { result ≡ bit_at table.now q j }
{
    let m = j % 32;
    if m < q {
        let y = usize::from(table[m * 12 + j / 32]);
        if y < q {
            return nodes::with_node(0, y);
        }
    }
    0
}

// Where each event leads from each node, as sets of one node or none, thirty-two to an event.
#[tactic(auto, using(crate::proofs::Words::filling))]
fn bits_of(table: &[u8; 384], q: usize) -> [u32; 384]
    requires { q ≤ 32 }
    ensures { result ≡ up_to (bit_at table.now q) 384 }
{
    let mut bits = [0u32; 384];
    for j in 0..384 {
        bits[j] = bit_at(table, q, j);
    }
    bits
}

// ---- where a test fails

// The nodes of the device that have an initial outside those of a node of the reference.
#[tactic(auto, unfolding(crate::specs::Shapes::stray_word), using(crate::proofs::Words::gathering))]
fn stray_word(mine: u16, theirs: [u16; 32], q: usize) -> u32
    requires { q ≤ 32 }
    ensures { result ≡ stray_word mine theirs q }
{
    let mut set: u32 = 0;
    for m in 0..q {
        set = with_node_if(set, m, refinement::stray_events(mine, theirs[m]) != 0);
    }
    set
}

// For every node of the reference, by its initials, the nodes of the device that have an initial outside these.
#[tactic(auto, unfolding(crate::specs::Shapes::stray_words), using(crate::proofs::Words::filling))]
fn stray_words(mine: [u16; 32], theirs: [u16; 32], q: usize) -> [u32; 32]
    requires { q ≤ 32 }
    ensures { result ≡ up_to (stray_words mine theirs q) 32 }
{
    let mut words = [0u32; 32];
    for n in 0..32 {
        words[n] = stray_word(mine[n], theirs, q);
    }
    words
}

// The nodes of the device that may stop.
#[tactic(auto, unfolding(crate::specs::Shapes::stop_word), using(crate::proofs::Words::gathering))]
fn stop_word(rows: [Row; 32], q: usize) -> u32
    requires { q ≤ 32 }
    ensures { result ≡ stop_word rows q }
{
    let mut set: u32 = 0;
    for m in 0..q {
        set = with_node_if(set, m, sheet_rows::may_stop(rows[m]));
    }
    set
}

// The nodes of the device with a refusal against a row of the reference.
#[tactic(auto, unfolding(crate::specs::Shapes::refusal_word), using(crate::proofs::Words::gathering))]
fn refusal_word(row: Row, rows: [Row; 32], q: usize) -> u32
    requires { q ≤ 32 }
    ensures { result ≡ refusal_word row rows q }
{
    let mut set: u32 = 0;
    for m in 0..q {
        set = with_node_if(set, m, refinement::has_refusal(row, rows[m]));
    }
    set
}

// The nodes of the device at which a test fails before its last event: at a stray, or where the device may stop and the
// reference may not.
#[tactic(auto, unfolding(crate::specs::Shapes::early_word))]
fn early_word(strays: u32, may_stop: bool, stops: u32, trace_only: bool) -> u32
    ensures { result ≡ early_word trace_only strays may_stop stops }
{
    if trace_only || may_stop {
        strays
    } else {
        strays | stops
    }
}

// For every node of the reference, the nodes of the device at which a test fails before its last event.
#[tactic(auto, unfolding(crate::specs::Shapes::early_words), using(crate::proofs::Words::filling))]
fn early_words(strays: [u32; 32], mine: [Row; 32], stops: u32, trace_only: bool) -> [u32; 32]
    ensures { result ≡ up_to (early_words trace_only strays mine stops) 32 }
{
    let mut words = [0u32; 32];
    for n in 0..32 {
        words[n] = early_word(strays[n], sheet_rows::may_stop(mine[n]), stops, trace_only);
    }
    words
}

// The nodes of the device at which a test fails at its last event: at a stray or a refusal.
#[tactic(auto, unfolding(crate::specs::Shapes::late_word))]
fn late_word(strays: u32, row: Row, theirs: [Row; 32], q: usize, trace_only: bool) -> u32
    requires { q ≤ 32 }
    ensures { result ≡ late_word trace_only strays row theirs q }
{
    if trace_only {
        strays
    } else {
        strays | refusal_word(row, theirs, q)
    }
}

// For every node of the reference, the nodes of the device at which a test fails at its last event.
#[tactic(auto, unfolding(crate::specs::Shapes::late_words), using(crate::proofs::Words::filling))]
fn late_words(
    strays: [u32; 32],
    mine: [Row; 32],
    theirs: [Row; 32],
    q: usize,
    trace_only: bool,
) -> [u32; 32]
    requires { q ≤ 32 }
    ensures { result ≡ up_to (late_words trace_only strays mine theirs q) 32 }
{
    let mut words = [0u32; 32];
    for n in 0..32 {
        words[n] = late_word(strays[n], mine[n], theirs, q, trace_only);
    }
    words
}

// ---- all tables

// All tables of two sheets' rows.
#[tactic(auto, unfolding(crate::specs::Shapes::tables_of))]
pub fn tables_of(mine: [Row; 32], theirs: [Row; 32], q: usize, e: usize, trace_only: bool) -> Tables
    requires { q ≤ 32 }
    ensures { result ≡ tables_of trace_only mine theirs q e }
{
    let strays = stray_words(
        sheet_rows::all_initials(mine, e),
        sheet_rows::all_initials(theirs, e),
        q,
    );
    let stops = stop_word(theirs, q);
    let device = sheet_rows::flat(theirs);
    Tables {
        mine: sheet_rows::flat(mine),
        theirs: bits_of(&device, q),
        early: early_words(strays, mine, stops, trace_only),
        late: late_words(strays, mine, theirs, q, trace_only),
    }
}
