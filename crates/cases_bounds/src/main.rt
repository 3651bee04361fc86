// The Run cases of the call that writes the pair of sheets that reaches the bound (02, K11). Each line of standard
// input is a case: its name, a colon, and numbers, of which the first says what is done:
//   1, p q, places others, first rises, front fronts   the call, with lists of so many places
//   3, p q, places others, first rises, p-end q-end    the call for each p from this one on to below p-end, with each
//                                                      q from this one on to below q-end
// Each list is the front of 256 places. Before a call each place holds `first` or, if `rises` is not 0, place i of the
// reference's list holds first + 7·i modulo 256, and of the device's first + 11·i. Numbers that are not there count
// as 0.
// Each case writes its name and its answer. That of a call is `lengths` and the two lengths, or `denied` and the
// number. By 1 there follow, for each list, what the first `front` or `fronts` of the 256 places hold, how many of all
// places are as before, and a check number over all: from 0 on, place after place, 31 times the number before plus the
// byte, modulo 65,521. By 3 there are only how many calls were answered with lengths, with 30 and with 31, and one
// check number over the three numbers of each answer and all places of both lists after it.
#![tactic(auto)]

ghost use Rattle.std.specs.Prelude.{◌≤◌, ◌<◌};

use bound_spec::Lengths;
use cases_lines::Line;
use refusals::Refusal;

// The number of standard input.
const STDIN_FILENO: i32 = 0;

// ---- the numbers of a line

// A number as a count of places, at most all.
fn at_most(x: u16) -> usize
    ensures { result ≤ 256 }
{
    usize::from(x).min(256)
}

// Number i of a line as a count of places, at most all.
fn count_at(line: Line, i: usize) -> usize
    ensures { result ≤ 256 }
{
    at_most(cases_lines::number(line, i))
}

// How much more than the first place i holds, where the places of the device's list rise, or of the reference's.
fn risen(device: bool, i: usize) -> usize
    requires { i < 256 }
    ensures { result < 2816 }
{
    if device { i * 11 } else { i * 7 }
}

// What place i of a line's list, the device's or the reference's, holds before the call.
fn before(line: Line, device: bool, i: usize) -> u8
    requires { i < 256 }
{
    let first = cases_lines::small(line, 5);
    if cases_lines::flag(line, 6) {
        return ((usize::from(first) + risen(device, i)) % 256) as u8;
    }
    first
}

// The places of a line's list before the call.
fn places(line: Line, device: bool) -> [u8; 256] {
    std::array::from_fn(|i| before(line, device, i))
}

// How many places of a line's list are as before.
fn left(list: &[u8; 256], line: Line, device: bool) -> usize {
    (0..256)
        .filter(|i| list[*i] == before(line, device, *i))
        .count()
}

// ---- a call

// What a call answers, and what the two lists then hold.
#[derive(Clone, Copy)]
struct Made {
    answer: Result<Lengths, Refusal>,
    reference: [u8; 256],
    device: [u8; 256],
}

// Makes a call with the lists of a line.
fn make(line: Line, p: u8, q: u8) -> Made {
    let mut reference = places(line, false);
    let mut device = places(line, true);
    let n = count_at(line, 3);
    let m = count_at(line, 4);
    let answer = bound::write_pair(p, q, &mut reference[..n], &mut device[..m]);
    Made {
        answer,
        reference,
        device,
    }
}

// ---- 1: a call

// Writes the answer of a call.
fn say_bounded(answer: Result<Lengths, Refusal>) {
    match answer {
        Ok(l) => {
            cases_lines::say(b" lengths");
            cases_lines::say_number(l.reference);
            cases_lines::say_number(l.device);
        }
        Err(cause) => cases_lines::say_denied(u8::from(cause)),
    }
}

// Writes what a line's list then holds: the first n places, how many are as before, and the check number.
fn say_list(list: &[u8; 256], line: Line, device: bool, n: usize) {
    cases_lines::say_front(list, n);
    cases_lines::say(b", left");
    cases_lines::say_count(left(list, line, device));
    cases_lines::say(b", check");
    cases_lines::say_count(cases_lines::check_of(list, 0));
}

// Makes the call of a line.
fn call(line: Line) {
    let made = make(
        line,
        cases_lines::small(line, 1),
        cases_lines::small(line, 2),
    );
    say_bounded(made.answer);
    cases_lines::say(b", reference");
    say_list(&made.reference, line, false, count_at(line, 7));
    cases_lines::say(b", device");
    say_list(&made.device, line, true, count_at(line, 8));
}

// ---- 3: calls for many p and q

// How many calls were answered with lengths, with 30 and with 31, and the check number.
#[derive(Clone, Copy)]
struct Tally {
    written: usize,
    sizes: usize,
    short: usize,
    check: usize,
}

// One more than a count of calls, of which there are at most 65,536.
fn more(n: usize) -> usize {
    if n < 65536 { n + 1 } else { n }
}

// A check number with the three numbers of an answer more.
fn with_answer(check: usize, refusal: u16, r: u16, d: u16) -> usize {
    let c = cases_lines::check_with(check, refusal);
    let e = cases_lines::check_with(c, r);
    cases_lines::check_with(e, d)
}

// A tally with a refusal more.
fn with_denied(t: Tally, cause: Refusal) -> Tally {
    let mut u = t;
    u.check = with_answer(t.check, u16::from(u8::from(cause)), 0, 0);
    match cause {
        Refusal::BoundNodes => {
            u.sizes = more(t.sizes);
        }
        Refusal::BoundList => {
            u.short = more(t.short);
        }
        _ => {}
    }
    u
}

// A tally with two lengths more.
fn with_lengths(t: Tally, l: Lengths) -> Tally {
    let mut u = t;
    u.written = more(t.written);
    u.check = with_answer(t.check, 0, l.reference, l.device);
    u
}

// A tally with an answer more.
fn with_bounded(t: Tally, answer: Result<Lengths, Refusal>) -> Tally {
    match answer {
        Ok(l) => with_lengths(t, l),
        Err(cause) => with_denied(t, cause),
    }
}

// A tally with all places of two lists more.
fn with_lists(t: Tally, reference: &[u8; 256], device: &[u8; 256]) -> Tally {
    let mut u = t;
    let c = cases_lines::check_of(reference, t.check);
    u.check = cases_lines::check_of(device, c);
    u
}

// A tally with a call more: its answer, and both lists.
fn with_call(line: Line, t: Tally, p: u8, q: u8) -> Tally {
    let made = make(line, p, q);
    let u = with_bounded(t, made.answer);
    with_lists(u, &made.reference, &made.device)
}

// A tally with the calls of a line for p more.
fn with_row(line: Line, t: Tally, p: u8) -> Tally {
    let mut u = t;
    let begin = count_at(line, 2);
    let end = count_at(line, 8);
    for q in begin..end {
        u = with_call(line, u, p, q as u8);
    }
    u
}

// The tally of all calls of a line.
fn tally_of(line: Line) -> Tally {
    let mut u = Tally {
        written: 0,
        sizes: 0,
        short: 0,
        check: 0,
    };
    let begin = count_at(line, 1);
    let end = count_at(line, 7);
    for p in begin..end {
        u = with_row(line, u, p as u8);
    }
    u
}

// Makes all calls of a line.
fn call_all(line: Line) {
    let t = tally_of(line);
    cases_lines::say(b" written");
    cases_lines::say_count(t.written);
    cases_lines::say(b", out of range");
    cases_lines::say_count(t.sizes);
    cases_lines::say(b", too short");
    cases_lines::say_count(t.short);
    cases_lines::say(b", check");
    cases_lines::say_count(t.check);
}

// ---- standard input

// Answers a line.
fn answer(line: Line) {
    match cases_lines::number(line, 0) {
        1 => call(line),
        _ => call_all(line),
    }
    cases_lines::say(b"\n");
}

// Reads the cases and answers them.
fn main() {
    let mut space = io::large_buffer();
    let n = io::read_full(STDIN_FILENO, &mut space);
    cases_lines::answer_lines(&space[..n], answer);
}
