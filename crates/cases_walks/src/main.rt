// The Run cases of walks (02, K9). Each line of standard input is a case: its name, a colon, and numbers:
//   sheet, high low, wish len, first rises, front, places
// A sheet is two numbers: which one, and which refusal it is changed to deserve, 0 for none. Sheets 14, 15, 18, 19, 28
// and 29, of 32 nodes and 12 events, and 30, whose second node has no initials, are made here and are not changed; the
// others are those of `cases_samples`. The seed is 65,536·high + low. The list is the first len of 8,192 places. Before
// the call each place holds `first` or, if `rises` is not 0, place i holds first + 7·i modulo 256. Numbers that are not
// there count as 0.
// Each case writes its name and its answer: `length` and the walk's length, or `denied` and the number. Then comes what
// the first `front` of the 8,192 places hold, and those that the line names; then how many of all places are as before,
// and a check number over all: from 0 on, place after place, 31 times the number before plus the byte, modulo 65,521.
#![tactic(auto)]

ghost use Rattle.std.specs.Prelude.{◌≤◌, ◌<◌};

use cases_lines::Line;
use refusals::Refusal;
use sheet_spec::Sheet;

// The number of standard input.
const STDIN_FILENO: i32 = 0;

// ---- sheets of 32 nodes and twelve events: a node has twelve successors, its C, 1, and the acceptance 0

// Whether event k is an initial of node v: on sheet 14 each is; on 15 one, v modulo 12; on 18 three, those that are v
// modulo 4; on 19 five; on 28 one more than v modulo 12; on 29 those of 18, but none at node 31.
fn is_initial(which: u16, v: usize, k: usize) -> bool
    requires { (v < 32) × (k < 12) }
{
    match which {
        14 => true,
        15 => k == v % 12,
        18 => k % 4 == v % 4,
        19 => (k * 5 + v) % 12 < 5,
        28 => (k * 7 + v) % 12 <= v % 12,
        _ => if v < 31 { k % 4 == v % 4 } else { false },
    }
}

// How much further than to the next node event k leads.
fn further(which: u16, k: usize) -> usize
    requires { k < 12 }
    ensures { result < 12 }
{
    match which {
        14 | 19 | 28 => k,
        18 => k / 4,
        _ => 0,
    }
}

// The successor of node v on event k, modulo 32; 255 where there is none.
fn successor(which: u16, v: usize, k: usize) -> u8
    requires { (v < 32) × (k < 12) }
{
    if is_initial(which, v, k) {
        return ((v + further(which, k) + 1) % 32) as u8;
    }
    255
}

// Byte i of the nodes of a sheet.
fn node_byte(which: u16, i: usize) -> u8
    requires { i < 480 }
{
    let v = i / 15;
    let k = i % 15;
    if k == 12 {
        return 1;
    }
    if k > 12 {
        return 0;
    }
    successor(which, v, k)
}

// A sheet, which has 483 bytes after its length field.
fn large_sheet(which: u16) -> Sheet {
    let mut bytes = [0u8; 487];
    bytes[2] = 1;
    bytes[3] = 227;
    bytes[4] = 1;
    bytes[5] = 12;
    bytes[6] = 32;
    for (i, b) in bytes[7..].iter_mut().enumerate() {
        *b = node_byte(which, i);
    }
    sheet::read(&bytes).unwrap_or(cases_samples::ZERO)
}

// ---- a sheet of two nodes and two events: event 0 leads to a node without initials, event 1 back to node 0

// Sheet 30.
fn ending_sheet() -> Sheet {
    sheet::read(b"\x00\x00\x00\x0D\x01\x02\x02\x01\x00\x01\x00\x01\xFF\xFF\x01\x00\x00").unwrap_or(
        cases_samples::ZERO,
    )
}

// ---- the numbers of a line

// The sheet that a line names: which one, and the refusal that it is changed to deserve.
fn sheet_of(line: Line) -> Sheet {
    let x = cases_lines::number(line, 0);
    match x {
        14 | 15 | 18 | 19 | 28 | 29 => large_sheet(x),
        30 => ending_sheet(),
        _ => cases_samples::sample(x, cases_lines::number(line, 1)),
    }
}

// The seed of a line.
fn seed_of(line: Line) -> u32 {
    let high = u32::from(cases_lines::number(line, 2));
    let low = u32::from(cases_lines::number(line, 3));
    high * 65536 + low
}

// Number i of a line as a count of places, at most all.
fn count_at(line: Line, i: usize) -> usize
    ensures { result ≤ 8192 }
{
    usize::from(cases_lines::number(line, i)).min(8192)
}

// What place i of a line's list holds before the call.
fn before(line: Line, i: usize) -> u8
    requires { i < 8192 }
{
    let first = cases_lines::small(line, 6);
    if cases_lines::flag(line, 7) {
        return ((usize::from(first) + i * 7) % 256) as u8;
    }
    first
}

// The places of a line's list before the call.
fn places(line: Line) -> [u8; 8192] {
    std::array::from_fn(|i| before(line, i))
}

// ---- what is written

// Writes an answer.
fn say_walked(walked: Result<u16, Refusal>) {
    match walked {
        Ok(length) => {
            cases_lines::say(b" length");
            cases_lines::say_number(length);
        }
        Err(cause) => cases_lines::say_denied(u8::from(cause)),
    }
}

// Writes what place i holds, if there is one.
fn say_at(list: &[u8], i: usize) {
    if let Some(x) = list.get(i) {
        cases_lines::say_number(u16::from(*x));
    }
}

// Writes what the places hold that a line names.
fn say_named(list: &[u8], line: Line) {
    for i in 9..line.count {
        say_at(list, count_at(line, i));
    }
}

// How many places are as before.
fn left(list: &[u8; 8192], line: Line) -> usize {
    (0..8192).filter(|i| list[*i] == before(line, *i)).count()
}

// Writes what the list of a line then holds.
fn say_list(list: &[u8; 8192], line: Line) {
    cases_lines::say(b", places");
    cases_lines::say_front(list, count_at(line, 8));
    say_named(list, line);
    cases_lines::say(b", left");
    cases_lines::say_count(left(list, line));
    cases_lines::say(b", check");
    cases_lines::say_count(cases_lines::check_of(list, 0));
}

// ---- standard input

// Answers a line.
fn answer(line: Line) {
    let mut list = places(line);
    let n = count_at(line, 5);
    let a = load::walk(
        sheet_of(line),
        seed_of(line),
        cases_lines::number(line, 4),
        &mut list[..n],
    );
    say_walked(a);
    say_list(&list, line);
    cases_lines::say(b"\n");
}

// Reads the cases and answers them.
fn main() {
    let mut space = io::large_buffer();
    let n = io::read_full(STDIN_FILENO, &mut space);
    cases_lines::answer_lines(&space[..n], answer);
}
