// The sheets that the Run programs name by two numbers: which sheet, and which refusal it is changed to deserve, of its
// own or, 19, beside a sheet with its codes.
#![tactic(auto)]

ghost use Rattle.std.specs.Prelude.{◌≡◌};
ghost use Rattle.sheet_spec.specs.Reading.{read_sheet};
ghost use Rattle.cases_samples.specs.Samples.{small_bytes, ordered_bytes, sample_bytes, sample_of};
ghost use Rattle.cases_samples.specs.Samples.{with_new_node, with_code, changed_to};

use sheet_spec::{Row, Sheet};

// A row with 0 in every place.
const ZERO_ROW: Row = Row {
    succ: [0; 12],
    sets: [0; 16],
    c: 0,
};

// A sheet with 0 in every place.
pub const ZERO: Sheet = Sheet {
    rows: [ZERO_ROW; 32],
    e: 0,
    n: 0,
    codes: [0; 12],
};

// The sheet of these bytes, of zeros if they are refused.
fn kept(bytes: &[u8]) -> Sheet
    ensures { result ≡ (read_sheet bytes.now).sheet }
{
    sheet::read(bytes).unwrap_or(ZERO)
}

// The small sheets: 1 and 2 are 01's reference and device; 3 and 4 loop on only event 0, or 1, of two; of one event, 5
// loops and may stop, 6 has no successor, 7 loops and may not stop; 8 goes on event 0 of two to a node that has no
// successor.
#[tactic(auto, unfolding(crate::specs::Samples::small_bytes, sheet_spec::specs::Examples::example_reference, sheet_spec::specs::Examples::example_device, sheet_spec::specs::Examples::only_zero, sheet_spec::specs::Examples::only_one, sheet_spec::specs::Examples::may_loop, sheet_spec::specs::Examples::stopped, sheet_spec::specs::Examples::must_loop, crate::specs::Samples::leads_to_end))]
fn small_bytes(which: u16) -> &'static [u8]
    ensures { result.now ≡ small_bytes which }
{
    match which {
        1 => b"\x00\x00\x00\x0F\x01\x02\x02\x01\x01\x02\x00\x01\x00\x02\x00\x00\x01\x00\x03",
        2 =>
            b"\x00\x00\x00\x12\x01\x02\x03\x01\x01\x01\x00\x03\x02\x02\x01\x00\x03\x00\xFF\x01\x00\x01",
        3 => b"\x00\x00\x00\x08\x01\x02\x01\x00\xFF\x01\x00\x01",
        4 => b"\x00\x00\x00\x08\x01\x02\x01\xFF\x00\x01\x00\x02",
        5 => b"\x00\x00\x00\x07\x01\x01\x01\x00\x01\x00\x00",
        6 => b"\x00\x00\x00\x07\x01\x01\x01\xFF\x01\x00\x00",
        7 => b"\x00\x00\x00\x07\x01\x01\x01\x00\x01\x00\x01",
        8 => b"\x00\x00\x00\x0D\x01\x02\x02\x01\xFF\x01\x00\x01\xFF\xFF\x01\x00\x00",
        _ => b"",
    }
}

// The sheets whose probes show the order of a probe list. One node that loops on three events: 20 with the acceptances
// 5, 6, so that the probe 4, of one event, comes before 3, of two; 21 with 3, 4; 22 with 4; 23 with 0. Of four events,
// 24 goes on event 0 to a node like 20's, which has no successor on event 3, and 25 to one like 21's. One node that
// loops on 12 events: 26 with eleven acceptances, each of the events 0 to 10 with event 11, so that the probes are 2048
// and 2047; 27 with twelve, each event alone, so that all events are the one probe. Else a small sheet.
#[tactic(auto, unfolding(crate::specs::Samples::ordered_bytes, crate::specs::Samples::small_probe_first, crate::specs::Samples::misses_both, crate::specs::Samples::misses_second, crate::specs::Samples::misses_all, crate::specs::Samples::small_probe_later, crate::specs::Samples::misses_later, crate::specs::Samples::last_with_each, crate::specs::Samples::each_alone))]
fn ordered_bytes(which: u16) -> &'static [u8]
    ensures { result.now ≡ ordered_bytes which }
{
    match which {
        20 => b"\x00\x00\x00\x0B\x01\x03\x01\x00\x00\x00\x02\x00\x05\x00\x06",
        21 => b"\x00\x00\x00\x0B\x01\x03\x01\x00\x00\x00\x02\x00\x03\x00\x04",
        22 => b"\x00\x00\x00\x09\x01\x03\x01\x00\x00\x00\x01\x00\x04",
        23 => b"\x00\x00\x00\x09\x01\x03\x01\x00\x00\x00\x01\x00\x00",
        24 =>
            b"\x00\x00\x00\x13\x01\x04\x02\x01\xFF\xFF\xFF\x01\x00\x01\x01\x01\x01\xFF\x02\x00\x05\x00\x06",
        25 =>
            b"\x00\x00\x00\x13\x01\x04\x02\x01\xFF\xFF\xFF\x01\x00\x01\x01\x01\x01\xFF\x02\x00\x03\x00\x04",
        26 =>
            b"\x00\x00\x00\x26\x01\x0C\x01\x00\x00\x00\x00\x00\x00\x00\x00\x00\x00\x00\x00\x0B\x08\x01\x08\x02\x08\x04\x08\x08\x08\x10\x08\x20\x08\x40\x08\x80\x09\x00\x0A\x00\x0C\x00",
        27 =>
            b"\x00\x00\x00\x28\x01\x0C\x01\x00\x00\x00\x00\x00\x00\x00\x00\x00\x00\x00\x00\x0C\x00\x01\x00\x02\x00\x04\x00\x08\x00\x10\x00\x20\x00\x40\x00\x80\x01\x00\x02\x00\x04\x00\x08\x00",
        _ => small_bytes(which),
    }
}

// One node that loops on 12 events: 9 with the sixteen acceptances 3, 5, 6, 9, 10, 12, 17, 18, 20, 24, 33, 34, 36, 40,
// 48, 65; 10 with 3, 5, 6, 9, 10, 12, 257, 258, 260, 264, 513, 514, 1025, 1026, 2049, 3072; 11 with 7, 56, 448, 3584.
// Of two events, 12 loops on event 0 and goes on event 1 to a node that has only event 0, which leads back; 13 loops on
// both. 16 and 17 are 01's reference and device in version 2, with the codes 257 and 258, and 1 and 2. Else a sheet
// that shows the order, or a small one. (The numbers 14, 15, 18 and 19, and those from 28 on, are left to the
// programs.)
#[tactic(auto, unfolding(crate::specs::Samples::sample_bytes, crate::specs::Samples::sixteen_pairs, crate::specs::Samples::sixteen_others, crate::specs::Samples::four_triples, crate::specs::Samples::leads_back, crate::specs::Samples::loops_on_both, sheet_spec::specs::Examples::coded_reference, sheet_spec::specs::Examples::coded_device))]
fn sample_bytes(which: u16) -> &'static [u8]
    ensures { result.now ≡ sample_bytes which }
{
    match which {
        9 =>
            b"\x00\x00\x00\x30\x01\x0C\x01\x00\x00\x00\x00\x00\x00\x00\x00\x00\x00\x00\x00\x10\x00\x03\x00\x05\x00\x06\x00\x09\x00\x0A\x00\x0C\x00\x11\x00\x12\x00\x14\x00\x18\x00\x21\x00\x22\x00\x24\x00\x28\x00\x30\x00\x41",
        10 =>
            b"\x00\x00\x00\x30\x01\x0C\x01\x00\x00\x00\x00\x00\x00\x00\x00\x00\x00\x00\x00\x10\x00\x03\x00\x05\x00\x06\x00\x09\x00\x0A\x00\x0C\x01\x01\x01\x02\x01\x04\x01\x08\x02\x01\x02\x02\x04\x01\x04\x02\x08\x01\x0C\x00",
        11 =>
            b"\x00\x00\x00\x18\x01\x0C\x01\x00\x00\x00\x00\x00\x00\x00\x00\x00\x00\x00\x00\x04\x00\x07\x00\x38\x01\xC0\x0E\x00",
        12 => b"\x00\x00\x00\x0D\x01\x02\x02\x00\x01\x01\x00\x01\x00\xFF\x01\x00\x01",
        13 => b"\x00\x00\x00\x08\x01\x02\x01\x00\x00\x01\x00\x01",
        16 =>
            b"\x00\x00\x00\x13\x02\x02\x02\x01\x01\x01\x02\x01\x01\x02\x00\x01\x00\x02\x00\x00\x01\x00\x03",
        17 =>
            b"\x00\x00\x00\x16\x02\x02\x03\x00\x01\x00\x02\x01\x01\x01\x00\x03\x02\x02\x01\x00\x03\x00\xFF\x01\x00\x01",
        _ => ordered_bytes(which),
    }
}

// The sheet with a node more, a copy of node 0 that is not reached.
#[tactic(auto, unfolding(crate::specs::Samples::with_new_node))]
fn with_new_node(s: Sheet) -> Sheet
    ensures { result ≡ with_new_node s }
{
    let mut t = s;
    if s.n < 32 {
        t.rows[usize::from(s.n)] = s.rows[0];
        t.n += 1;
    }
    t
}

// The sheet with another code of event 1.
#[tactic(auto, unfolding(crate::specs::Samples::with_code))]
fn with_code(s: Sheet, x: u16) -> Sheet
    ensures { result ≡ with_code s x }
{
    let mut t = s;
    t.codes[1] = x;
    t
}

// The sheet, changed to deserve a refusal: 3 by its E, 5 by the C of node 0, 6 by a successor 40, 7 by the C of an
// unused node, 8 by a node that is not reached; if it has two events, 18 by the code of event 0 for event 1, and 19 by
// the code 500 for event 1.
#[tactic(auto, unfolding(crate::specs::Samples::changed_to, crate::specs::Samples::with_row, crate::specs::Samples::with_count))]
fn changed(s: Sheet, refusal: u16) -> Sheet
    ensures { result ≡ changed_to s refusal }
{
    let mut t = s;
    match refusal {
        3 => t.e = 13,
        5 => t.rows[0].c = 17,
        6 => t.rows[0].succ[0] = 40,
        7 => t.rows[31].c = 1,
        8 => return with_new_node(s),
        18 => return with_code(s, s.codes[0]),
        19 => return with_code(s, 500),
        _ => {}
    }
    t
}

// The sheet that two numbers name: which one, and the refusal that it is changed to deserve.
#[tactic(auto, unfolding(crate::specs::Samples::sample_of))]
pub fn sample(which: u16, refusal: u16) -> Sheet
    ensures { result ≡ changed_to (sample_of which) refusal }
{
    changed(kept(sample_bytes(which)), refusal)
}
