// The Run cases of a keypad's table (02, K6). Each line of standard input is a case: its name, a colon, and numbers:
//   sheet, ask code, n from front, bytes
// A sheet is two numbers: which one of `cases_samples`, and which refusal it is changed to deserve, 0 for none. `ask`
// is 0 for a check of the table, in which the code plays no part, and 1 for a lookup of the code. The table is the
// first `front` of the bytes, then n rules that are made here, then the other bytes. Rule i of those that are made has
// the mask 252, the value 4·j modulo 256 and the event j modulo 2, where j is `from` + i: it matches four codes, and 64
// of them match each code once. Numbers that are not there count as 0. A table has at most 1,024 bytes.
// Each case writes its name and its answer: `good`; `gap` and the code; `overlap`, the code and the two rules; `event`
// and the event; or `denied` and the number.
#![tactic(auto)]

ghost use Rattle.std.specs.Prelude.{◌≤◌, ◌<◌};

use cases_lines::Line;
use keypad_spec::{Found, Keypad};
use refusals::Refusal;

// The number of standard input.
const STDIN_FILENO: i32 = 0;

// ---- the table of a line

// Number i of a line as a length.
fn length(line: Line, i: usize) -> usize
    ensures { result < 65536 }
{
    usize::from(cases_lines::number(line, i))
}

// How many bytes stand in a line itself.
fn spelt(line: Line) -> usize
    ensures { result ≤ 57 }
{
    line.count.saturating_sub(7).min(57)
}

// Byte k of the rules that are made.
fn made_byte(from: usize, k: usize) -> u8
    requires { (from < 65536) × (k < 1024) }
{
    let j = from + k / 3;
    match k % 3 {
        0 => 252,
        1 => (j % 64 * 4) as u8,
        _ => (j % 2) as u8,
    }
}

// Byte k of the table of a line of which `made` bytes are made.
fn table_byte(line: Line, made: usize, k: usize) -> u8
    requires { k < 1024 }
{
    let front = length(line, 6);
    if k < front {
        return cases_lines::small(line, k + 7);
    }
    if k - front < made {
        return made_byte(length(line, 5), k - front);
    }
    cases_lines::small(line, k - made + 7)
}

// The table of a line, and zeros after it.
fn table_bytes(line: Line, made: usize) -> [u8; 1024] {
    std::array::from_fn(|k| table_byte(line, made, k))
}

// ---- answers

// Writes a bad code that no rule matches.
fn say_gap(c: u8) {
    cases_lines::say(b" gap");
    cases_lines::say_number(u16::from(c));
}

// Writes a bad code that more than one rule matches, and the two lowest that do.
fn say_overlap(c: u8, i: u8, k: u8) {
    cases_lines::say(b" overlap");
    cases_lines::say_number(u16::from(c));
    cases_lines::say_number(u16::from(i));
    cases_lines::say_number(u16::from(k));
}

// Writes the answer of a check.
fn say_keypad(told: Result<Keypad, Refusal>) {
    match told {
        Ok(Keypad::Good) => cases_lines::say(b" good"),
        Ok(Keypad::Gap(c)) => say_gap(c),
        Ok(Keypad::Overlap(c, i, k)) => say_overlap(c, i, k),
        Err(cause) => cases_lines::say_denied(u8::from(cause)),
    }
}

// Writes an event.
fn say_event(e: u8) {
    cases_lines::say(b" event");
    cases_lines::say_number(u16::from(e));
}

// Writes the answer of a lookup.
fn say_found(found: Result<Found, Refusal>) {
    match found {
        Ok(Found::Event(e)) => say_event(e),
        Ok(Found::Gap(c)) => say_gap(c),
        Ok(Found::Overlap(c, i, k)) => say_overlap(c, i, k),
        Err(cause) => cases_lines::say_denied(u8::from(cause)),
    }
}

// Answers a line.
fn answer(line: Line) {
    let sheet = cases_samples::sample(cases_lines::number(line, 0), cases_lines::number(line, 1));
    let made = length(line, 4) * 3;
    let bytes = table_bytes(line, made);
    let n = io::count((made + spelt(line)) as isize, &bytes);
    if cases_lines::flag(line, 2) {
        say_found(keypad::find(sheet, &bytes[..n], cases_lines::small(line, 3)));
    } else {
        say_keypad(keypad::check(sheet, &bytes[..n]));
    }
    cases_lines::say(b"\n");
}

// ---- standard input

// Reads the cases and answers them.
fn main() {
    let mut space = io::large_buffer();
    let n = io::read_full(STDIN_FILENO, &mut space);
    cases_lines::answer_lines(&space[..n], answer);
}
