// The Run cases of a sheet (01, "A sheet", refusals 1 to 8, "Cases"; 02, K1), and of adding an event to a set (02, K5).
// Each line of standard input is a case: its name, a colon, and numbers, of which the first says what is done:
//   1, bytes                       the bytes are read
//   2, i x j y                     the sample below is read with x at place i and y at place j
//   3, E N C cut len               the sheet of a plan, which is described below, is read
//   4, changes                     the kept sample is checked after at most two changes
//   5, changes                     the largest sheet, kept, is checked after them
//   6, i x j y                     the places that hold 0 in the answer of 2 are counted
//   7, bytes; 8, E N C cut len     the places that hold 255 and 0 in the answer of 1 or of 3 are counted
//   9                              the sheet of a refused answer is checked
//   10, set event                  the event, below 16, is added to the set
//   11, E N C cut len j            the sheet of a plan in version 2 is read; event j has the code of event 0
//   12, changes                    the largest sheet of version 2, kept, is checked after them
//   13, E N C cut len j            the places that hold 255 and 0 in the answer of 11 are counted
//   14, bytes; 15, E N C cut len j the codes in the answer of 1 or of 11
// Numbers that are not there count as 0, which is what the sample has at place 0: so `2 i x` changes one place only.
// A change is four numbers: 1 for a successor, 2 for a set, 3 for a C, 4 for E, 5 for N, 6 for a code; a node, a place
// and the value.
// Each case writes its name and its answer. Reading writes `refused` and the number, or `accepted` and E and N. A check
// writes its number. A count writes how many successors hold the value, how many sets, how many Cs and how many codes
// hold 0, and E and N. Adding writes the set. Codes are written in order, all twelve.
#![tactic(auto)]

ghost use Rattle.std.specs.Prelude.{◌≤◌};

use cases_lines::Line;
use cases_samples::ZERO;
use refusals::Refusal;
use sheet_spec::{Row, Sheet};
use std::array;

// The number of standard input.
const STDIN_FILENO: i32 = 0;

// ---- a sample of 25 bytes, and the same with one or two places changed

// The sample's bytes with x at place i.
fn changed(mut bytes: [u8; 25], i: usize, x: u8) -> [u8; 25] {
    if i < 25 {
        bytes[i] = x;
    }
    bytes
}

// Reads the sample with x at place i and y at place j. Its bytes: length 21, version, E 4, N 2; at 7 the successors of
// node 0, at 11 its C, at 12 its sets 1, 2, 4; at 18 the successors of node 1, at 22 its C, at 23 its set 1.
fn sample_with(i: usize, x: u8, j: usize, y: u8) -> Result<Sheet, Refusal> {
    let bytes =
        *b"\x00\x00\x00\x15\x01\x04\x02\x01\x00\x00\x00\x03\x00\x01\x00\x02\x00\x04\x00\xFF\xFF\xFF\x01\x00\x01";
    let first = changed(bytes, i, x);
    let second = changed(first, j, y);
    sheet::read(&second)
}

// The sample as it is.
fn sample() -> Result<Sheet, Refusal> {
    sample_with(0, 0, 0, 0)
}

// ---- changes of a kept sheet

// The sheet with x as the successor of node v on event i.
fn with_succ(mut s: Sheet, v: usize, i: usize, x: u8) -> Sheet {
    if v < 32 && i < 12 {
        s.rows[v].succ[i] = x;
    }
    s
}

// The sheet with x as the set at place j of node v.
fn with_set(mut s: Sheet, v: usize, j: usize, x: u16) -> Sheet {
    if v < 32 && j < 16 {
        s.rows[v].sets[j] = x;
    }
    s
}

// The sheet with x as the C of node v.
fn with_count(mut s: Sheet, v: usize, x: u8) -> Sheet {
    if v < 32 {
        s.rows[v].c = x;
    }
    s
}

// The sheet with x as the code of event i.
fn with_code(mut s: Sheet, i: usize, x: u16) -> Sheet {
    if i < 12 {
        s.codes[i] = x;
    }
    s
}

// ---- sheets of many nodes

// A description of a sheet in which every node has the same C, event 0 leads from each node to the next, and every
// other event leads to node 0; only from node `cut` event 0 leads to itself. `len` is the number of bytes that are
// there. In version 2 event i has the code 500 + i, but event `twice` has that of event 0.
#[derive(Clone, Copy)]
struct Plan {
    version: u8,
    e: u8,
    n: u8,
    c: u8,
    cut: u8,
    len: u16,
    twice: u8,
}

// Byte i of the sheet of a plan, before its nodes.
fn head_byte(p: Plan, i: usize) -> u8 {
    let len = p.len;
    if len < 4 {
        return 0;
    }
    let field = len - 4;
    match i {
        2 => (field / 256) as u8,
        3 => (field % 256) as u8,
        4 => p.version,
        5 => p.e,
        6 => p.n,
        _ => 0,
    }
}

// The successor of node v of a plan on an event.
fn link(p: Plan, v: usize, event: usize) -> u8 {
    let cut = p.cut;
    if event != 0 {
        return 0;
    }
    if v == usize::from(cut) {
        return cut;
    }
    if v < 255 && v + 1 < usize::from(p.n) {
        return (v + 1) as u8;
    }
    0
}

// Byte k of the sets: 3, 5, 6, 9, 10, 12, 257, 258, 260, 264, 513, 514, 1025, 1026, 2049, 3072, of two events each.
fn set_byte(k: usize) -> u8 {
    let sets =
        b"\x00\x03\x00\x05\x00\x06\x00\x09\x00\x0A\x00\x0C\x01\x01\x01\x02\x01\x04\x01\x08\x02\x01\x02\x02\x04\x01\x04\x02\x08\x01\x0C\x00";
    sets.get(k).copied().unwrap_or(0)
}

// Byte k of node v of a plan.
fn node_byte(p: Plan, v: usize, k: usize) -> u8 {
    let e = usize::from(p.e);
    if k < e {
        return link(p, v, k);
    }
    if k == e {
        return p.c;
    }
    set_byte(k - e - 1)
}

// Byte k of the codes of a plan.
fn code_byte(p: Plan, k: usize) -> u8 {
    if k % 2 == 0 {
        return 1;
    }
    let event = k / 2;
    if event == usize::from(p.twice) {
        return 244;
    }
    if event < 12 { 244 + event as u8 } else { 0 }
}

// How many bytes the codes of a plan have.
fn codes_size(p: Plan) -> usize
    ensures { result ≤ 510 }
{
    if p.version == 2 {
        return usize::from(p.e) * 2;
    }
    0
}

// Byte i of the sheet of a plan.
fn plan_byte(p: Plan, i: usize) -> u8 {
    if i < 7 {
        return head_byte(p, i);
    }
    let e = usize::from(p.e);
    let c = usize::from(p.c);
    let size = e + 1 + c * 2;
    let codes = codes_size(p);
    let k = i - 7;
    if k < codes {
        return code_byte(p, k);
    }
    let at = k - codes;
    node_byte(p, at / size, at % size)
}

// The first 2,048 bytes of the sheet of a plan whose nodes go on.
fn plan_bytes(p: Plan) -> [u8; 2048] {
    array::from_fn(|i| plan_byte(p, i))
}

// Reads the sheet of a plan.
fn planned(p: Plan) -> Result<Sheet, Refusal> {
    let bytes = plan_bytes(p);
    sheet::read(&bytes[..usize::from(p.len).min(2048)])
}

// The largest sheet of a version, which has so many bytes: 12 events, 32 nodes and C 16.
fn largest(version: u8, len: u16) -> Result<Sheet, Refusal> {
    planned(Plan {
        version,
        e: 12,
        n: 32,
        c: 16,
        cut: 255,
        len,
        twice: 0,
    })
}

// ---- what the places of an answer hold

// How many successors hold a value, and how many sets and how many Cs hold 0.
#[derive(Clone, Copy)]
struct Tally {
    succs: usize,
    sets: usize,
    counts: usize,
}

// How many successors of a row hold x.
fn succs_holding(row: &Row, x: u8) -> usize
    ensures { result ≤ 12 }
{
    row.succ.iter().filter(|y| **y == x).count()
}

// How many sets of a row hold 0.
fn sets_empty(row: &Row) -> usize
    ensures { result ≤ 16 }
{
    row.sets.iter().filter(|y| **y == 0).count()
}

// How many successors of a sheet hold x, and how many of its sets and Cs hold 0.
fn tally_of(s: &Sheet, x: u8) -> Tally {
    let mut succs = 0;
    let mut sets = 0;
    let mut counts = 0;
    for row in &s.rows {
        succs += succs_holding(row, x);
        sets += sets_empty(row);
        counts += usize::from(row.c == 0);
    }
    Tally {
        succs,
        sets,
        counts,
    }
}

// How many codes hold 0.
fn codes_empty(codes: &[u16; 12]) -> usize {
    codes.iter().filter(|x| **x == 0).count()
}

// ---- the numbers of a line

// Number i of a line as a place.
fn place(line: Line, i: usize) -> usize {
    usize::from(cases_lines::number(line, i))
}

// ---- what a line asks for

// The numbers of a line after the first as bytes.
fn spelt_bytes(line: Line) -> [u8; 63] {
    array::from_fn(|i| cases_lines::small(line, i + 1))
}

// Reads the bytes of a line.
fn spelt(line: Line) -> Result<Sheet, Refusal> {
    let count = line.count;
    if count < 1 || count > 64 {
        return sheet::read(b"");
    }
    let bytes = spelt_bytes(line);
    sheet::read(&bytes[..count - 1])
}

// Reads the sample as a line changes it.
fn sample_of(line: Line) -> Result<Sheet, Refusal> {
    sample_with(
        place(line, 1),
        cases_lines::small(line, 2),
        place(line, 3),
        cases_lines::small(line, 4),
    )
}

// The plan of a line in a version.
fn plan_of(line: Line, version: u8) -> Plan {
    Plan {
        version,
        e: cases_lines::small(line, 1),
        n: cases_lines::small(line, 2),
        c: cases_lines::small(line, 3),
        cut: cases_lines::small(line, 4),
        len: cases_lines::number(line, 5),
        twice: cases_lines::small(line, 6),
    }
}

// The sheet with the change of E, N or a code, at a place, that stands from number i on.
fn with_outside(s: Sheet, line: Line, i: usize, at: usize) -> Sheet {
    if i >= 60 {
        return s;
    }
    let x = cases_lines::small(line, i + 3);
    match cases_lines::number(line, i) {
        4 => Sheet { e: x, ..s },
        5 => Sheet { n: x, ..s },
        6 => with_code(s, at, cases_lines::number(line, i + 3)),
        _ => s,
    }
}

// The sheet with the change that stands from number i on.
fn with(s: Sheet, line: Line, i: usize) -> Sheet {
    if i >= 60 {
        return s;
    }
    let v = place(line, i + 1);
    let at = place(line, i + 2);
    let x = cases_lines::small(line, i + 3);
    match cases_lines::number(line, i) {
        1 => with_succ(s, v, at, x),
        2 => with_set(s, v, at, cases_lines::number(line, i + 3)),
        3 => with_count(s, v, x),
        _ => with_outside(s, line, i, at),
    }
}

// ---- answers

// Writes E and N.
fn say_size(e: u8, n: u8) {
    cases_lines::say_count(usize::from(e));
    cases_lines::say_count(usize::from(n));
}

// Writes the answer of reading.
fn tell(a: Result<Sheet, Refusal>) {
    match a {
        Ok(s) => {
            cases_lines::say(b" accepted");
            say_size(s.e, s.n);
        }
        Err(cause) => {
            cases_lines::say(b" refused");
            say_refusal(cause);
        }
    }
}

// Writes the number of a refusal.
fn say_refusal(cause: Refusal) {
    cases_lines::say_count(usize::from(u8::from(cause)));
}

// The sheet of an answer, of zeros if it is refused.
fn kept(a: Result<Sheet, Refusal>) -> Sheet {
    a.unwrap_or(ZERO)
}

// Writes the answer of checking a sheet after the changes of a line.
fn tell_kept(s: Sheet, line: Line) {
    match sheet::check(with(with(s, line, 1), line, 5)) {
        Ok(_) => cases_lines::say_count(0),
        Err(cause) => say_refusal(cause),
    }
}

// Writes a tally.
fn say_tally(p: Tally) {
    cases_lines::say_count(p.succs);
    cases_lines::say_count(p.sets);
    cases_lines::say_count(p.counts);
}

// Writes how many successors of a sheet hold x, how many of its sets, Cs and codes hold 0, and E and N.
fn tell_places(s: Sheet, x: u8) {
    say_tally(tally_of(&s, x));
    cases_lines::say_count(codes_empty(&s.codes));
    say_size(s.e, s.n);
}

// Writes the codes of a sheet.
fn tell_codes(s: Sheet) {
    for code in &s.codes {
        cases_lines::say_number(*code);
    }
}

// Writes the set of a line with its event added; an event from 16 on has no place in a set, and nothing is written.
fn tell_added(line: Line) {
    let set = cases_lines::number(line, 1);
    let event = place(line, 2);
    if event < 16 {
        let added = events::with_event(set, event);
        cases_lines::say_count(usize::from(added));
    }
}

// Answers a line about version 2 or about codes, and any other as 9.
fn answer_codes(line: Line) {
    match cases_lines::number(line, 0) {
        11 => tell(planned(plan_of(line, 2))),
        12 => tell_kept(kept(largest(2, 1471)), line),
        13 => tell_places(kept(planned(plan_of(line, 2))), 255),
        14 => tell_codes(kept(spelt(line))),
        15 => tell_codes(kept(planned(plan_of(line, 2)))),
        _ => tell_kept(kept(sheet::read(b"")), cases_lines::new_line()),
    }
}

// Answers a line.
fn answer(line: Line) {
    match cases_lines::number(line, 0) {
        1 => tell(spelt(line)),
        2 => tell(sample_of(line)),
        3 => tell(planned(plan_of(line, 1))),
        4 => tell_kept(kept(sample()), line),
        5 => tell_kept(kept(largest(1, 1447)), line),
        6 => tell_places(kept(sample_of(line)), 0),
        7 => tell_places(kept(spelt(line)), 255),
        8 => tell_places(kept(planned(plan_of(line, 1))), 255),
        10 => tell_added(line),
        _ => answer_codes(line),
    }
    cases_lines::say(b"\n");
}

// ---- standard input

// Reads the cases and answers them.
fn main() {
    let mut space = io::large_buffer();
    let n = io::read_full(STDIN_FILENO, &mut space);
    cases_lines::answer_lines(&space[..n], answer);
}
