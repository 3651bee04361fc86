// The Run cases of the two calls that are lent lists (01, "Probes", "A comparison", refusals 9 to 13; 02, K1, K3, K7).
// Each line of standard input is a case: its name, a colon, and numbers, of which the first says what is called:
//   1, sheet, node len                    the probe list, with len places
//   2, sheet, sheet, traces words places  the comparison, with a work list and a trace list of these lengths
//   3, sheet, sheet, traces words places  the comparison, with long lists of these lengths
//   4, sheet, node len                    the probe list, with len places, of which each is written
// A sheet is two numbers: which one, and which refusal it is changed to deserve, 0 for none. Sheets 14 and 15, of 32
// nodes, are made here and are not changed; the others are those of `cases_samples`. Numbers that are not there count
// as 0. The lists are parts of 128 places, long ones of 3,200 words and of 1,152 bytes, enough for 32 x 32 pairs. All
// places hold the highest number before the call.
// Each case writes its name and its answer. A refusal is `denied` and the number. The probe list gives the count, the
// first and the last probe and the sum of all, or, by 4, the count and, after a refusal too, what each of the len
// places then holds; then comes how many of the 128 places are as before. A comparison gives `refines` and cleared, or
// `stray` with d, cleared and the event, or `refusal` with d, cleared, the probe and the acceptance; then come the
// trace, how many places of trace are as before, and how many words of work are 0 and how many are as before.
#![tactic(auto)]

ghost use Rattle.std.specs.Prelude.{◌≤◌};

use cases_lines::Line;
use comparison_spec::Outcome;
use probes_spec::Listed;
use refusals::Refusal;
use sheet_spec::Sheet;

// The number of standard input.
const STDIN_FILENO: i32 = 0;

// The number of standard output.
const STDOUT_FILENO: i32 = 1;

// ---- sheets of 32 nodes and two events: a node has two successors, its C, and two bytes for each set

// Node v as a successor, 255 where there is none.
fn successor(v: usize) -> u8 {
    if v < 32 { v as u8 } else { 255 }
}

// Byte i of the nodes of sheet 14. Each has 7: it stays on event 0 and climbs to the next on event 1, with the
// acceptances 1 and 2. The last has 5: it stays on event 0 and has no successor on event 1, with the acceptance 1.
fn climbing_byte(i: usize) -> u8 {
    let v = i / 7;
    match i % 7 {
        0 => successor(v),
        1 => successor(v + 1),
        2 => if v < 31 { 2 } else { 1 },
        4 => 1,
        6 => 2,
        _ => 0,
    }
}

// Byte i of the nodes of sheet 15. Each has 5: it climbs to the next on event 0 and has no successor on event 1, with
// the acceptance 1. The last has none on event 0 and goes to node 0 on event 1, with the acceptance 2.
fn circling_byte(i: usize) -> u8 {
    let w = i / 5;
    match i % 5 {
        0 => successor(w + 1),
        1 => if w < 31 { 255 } else { 0 },
        2 => 1,
        4 => if w < 31 { 1 } else { 2 },
        _ => 0,
    }
}

// Byte i of the nodes of sheet 14 or 15.
fn node_byte(which: u16, i: usize) -> u8 {
    if which == 14 {
        climbing_byte(i)
    } else {
        circling_byte(i)
    }
}

// Sheet 14 or 15, which has `rest` bytes after its length field.
fn long_sheet(which: u16, rest: u8) -> Sheet {
    let mut bytes = [0; 259];
    bytes[3] = rest;
    bytes[4] = 1;
    bytes[5] = 2;
    bytes[6] = 32;
    for i in 0..252 {
        bytes[i + 7] = node_byte(which, i);
    }
    sheet::read(&bytes[..usize::from(rest) + 4]).unwrap_or(cases_samples::ZERO)
}

// ---- the numbers of a line

// The sheet that two numbers of a line name: which one, and the refusal that it is changed to deserve.
fn sheet_at(line: Line, which: usize, refusal: usize) -> Sheet {
    let x = cases_lines::number(line, which);
    match x {
        14 => long_sheet(14, 225),
        15 => long_sheet(15, 163),
        _ => cases_samples::sample(x, cases_lines::number(line, refusal)),
    }
}

// Number i of a line as a length of at most `most`.
fn length(line: Line, i: usize, most: usize) -> usize
    ensures { result ≤ most }
{
    usize::from(cases_lines::number(line, i)).min(most)
}

// ---- probes

// How many places of a list of words hold x.
fn holding(list: &[u16], x: u16) -> usize {
    list.iter().filter(|y| **y == x).count()
}

// A set of 12 events as a number, 0 for what is none.
fn value(set: u16) -> u64
    ensures { result ≤ 4095 }
{
    if set < 4096 { u64::from(set) } else { 0 }
}

// The sum of the sets of 12 events in a list.
fn sum(list: [u16; 128]) -> u64 {
    let mut total = 0;
    for set in list {
        total += value(set);
    }
    total
}

// Writes the first and the last of n probes.
fn say_ends(list: [u16; 128], n: usize) {
    if (1..=128).contains(&n) {
        cases_lines::say_number(list[0]);
        cases_lines::say_number(list[n - 1]);
    }
}

// Writes how many of 128 places are as before.
fn say_left(list: [u16; 128]) {
    cases_lines::say(b", left");
    cases_lines::say_count(holding(&list, 65535));
}

// Writes the answer of a probe call: of its list the first and the last probe and the sum.
fn say_listed(listed: Listed, list: [u16; 128]) {
    match listed {
        Ok(count) => {
            cases_lines::say(b" count");
            cases_lines::say_number(count);
            say_ends(list, usize::from(count));
            cases_lines::say(b" sum ");
            io::print_decimal(STDOUT_FILENO, sum(list));
        }
        Err(refusal) => cases_lines::say_denied(u8::from(refusal)),
    }
    say_left(list);
}

// Writes the answer of a probe call: of its list the n places that were lent.
fn say_whole(listed: Listed, list: [u16; 128], n: usize)
    requires { n ≤ 128 }
{
    match listed {
        Ok(count) => {
            cases_lines::say(b" count");
            cases_lines::say_number(count);
        }
        Err(refusal) => cases_lines::say_denied(u8::from(refusal)),
    }
    cases_lines::say(b", places");
    for set in &list[..n] {
        cases_lines::say_number(*set);
    }
    say_left(list);
}

// Lists the probes of the node that a line names.
fn list_probes(line: Line) {
    let s = sheet_at(line, 1, 2);
    let node = cases_lines::small(line, 3);
    let n = length(line, 4, 128);
    let mut list = [65535; 128];
    let listed = probes::list(s, node, &mut list[..n]);
    if cases_lines::number(line, 0) == 4 {
        say_whole(listed, list, n);
    } else {
        say_listed(listed, list);
    }
}

// ---- comparison

// Writes the answer of a comparison, without its lists.
fn say_outcome(outcome: Result<Outcome, Refusal>) {
    match outcome {
        Ok(Outcome::Refines(cleared)) => {
            cases_lines::say(b" refines");
            cases_lines::say_number(cleared);
        }
        Ok(Outcome::Stray(d, cleared, event)) => {
            cases_lines::say(b" stray");
            cases_lines::say_number(d);
            cases_lines::say_number(cleared);
            cases_lines::say_number(u16::from(event));
        }
        Ok(Outcome::Refusal(d, cleared, probe, acceptance)) => {
            cases_lines::say(b" refusal");
            cases_lines::say_number(d);
            cases_lines::say_number(cleared);
            cases_lines::say_number(probe);
            cases_lines::say_number(acceptance);
        }
        Err(refusal) => cases_lines::say_denied(u8::from(refusal)),
    }
}

// Writes the events of a trace list; 255 is none.
fn say_trace(trace: &[u8]) {
    for event in trace {
        if *event != 255 {
            cases_lines::say_number(u16::from(*event));
        }
    }
}

// How many places of a trace list hold 255.
fn unused(trace: &[u8]) -> usize {
    trace.iter().filter(|event| **event == 255).count()
}

// Writes the answer of a comparison, and what its lists then hold.
fn say_compared(outcome: Result<Outcome, Refusal>, work: &[u16], trace: &[u8]) {
    say_outcome(outcome);
    cases_lines::say(b", trace");
    say_trace(trace);
    cases_lines::say(b", left");
    cases_lines::say_count(unused(trace));
    cases_lines::say(b", work");
    cases_lines::say_count(holding(work, 0));
    cases_lines::say_count(holding(work, 65535));
}

// Compares two sheets, with the fronts of two lists, as long as the line says.
fn compare_in(line: Line, work: &mut [u16], trace: &mut [u8]) {
    let reference = sheet_at(line, 1, 2);
    let device = sheet_at(line, 3, 4);
    let trace_only = cases_lines::flag(line, 5);
    let n = length(line, 6, work.len());
    let m = length(line, 7, trace.len());
    let outcome = comparison::compare(
        reference,
        device,
        trace_only,
        &mut work[..n],
        &mut trace[..m],
    );
    say_compared(outcome, work, trace);
}

// Compares the two sheets of a line, with lists of at most 128 places.
fn compare_sheets(line: Line) {
    let mut work = [65535; 128];
    let mut trace = [255; 128];
    compare_in(line, &mut work, &mut trace);
}

// Compares the two sheets of a line, with long lists.
fn compare_long(line: Line) {
    let mut work = [65535; 3200];
    let mut trace = [255; 1152];
    compare_in(line, &mut work, &mut trace);
}

// ---- standard input

// Answers a line.
fn answer(line: Line) {
    match cases_lines::number(line, 0) {
        1 | 4 => list_probes(line),
        3 => compare_long(line),
        _ => compare_sheets(line),
    }
    cases_lines::say(b"\n");
}

// Reads the cases and answers them.
fn main() {
    let mut space = io::large_buffer();
    let n = io::read_full(STDIN_FILENO, &mut space);
    cases_lines::answer_lines(&space[..n], answer);
}
