// The Run cases of what the pair of sheets that reaches the bound is worth (02, K11), and of the writer of any accepted
// sheet. Each line of standard input is a case: its name, a colon, and numbers, of which the first says what is done:
//   2, p q, traces, front   the pair is written, read, compared and judged
//   4, at, length, bytes    the sheet of so many bytes, at most 60, is read and written again to a list of 256 places,
//                           from the place `at` on
//   5, p q                  the sheets of the pair are read and written again
// Each case writes its name and its answer. That of the call is `lengths` and the two lengths, or `denied` and the
// number. By 2 there follow the refusal, E and N of both sheets, read from as many bytes as are answered; `stray` with
// d, cleared and the event, as the comparison answers; what the first `front` places of its trace list hold, how many
// of all 1,023 hold 255, as before, and the check number over these; how many tests were judged, how many passed and
// failed, and the first that failed. By 4 there are the refusal of the sheet, or the place after it, what the first 64
// places hold, how many of all 256 hold 255, as before, and the check number over these: from 0 on, place after place,
// 31 times the number before plus the byte, modulo 65,521. By 5 there are, for each sheet, the place after it and in
// how many of 256 places, which were 0 before, the list is as the call left it.
#![tactic(auto)]

ghost use Rattle.std.specs.Prelude.{◌≡◌, ◌≤◌};
ghost use Rattle.sheet_spec.specs.Refusals.{sheet_fault};

use bound_spec::Lengths;
use cases_lines::Line;
use cases_samples::ZERO;
use comparison_spec::Outcome;
use refusals::Refusal;
use sheet_spec::Sheet;
use text::Page;

// The number of standard input.
const STDIN_FILENO: i32 = 0;

// ---- counts, and what a list holds

// A number as a count of places, at most all.
fn at_most(x: u16) -> usize
    ensures { result ≤ 256 }
{
    usize::from(x).min(256)
}

// How many places of a list hold x.
fn holding(list: &[u8], x: u8) -> usize {
    list.iter().filter(|y| **y == x).count()
}

// The first place of a list that holds x; as many as there are, if none does.
fn first_of(list: &[u8], x: u8) -> usize {
    list.iter().position(|y| *y == x).unwrap_or(list.len())
}

// ---- 2: a pair that is written, read, compared and judged

// Writes the answer of a call.
fn say_bounded(written: &Result<Lengths, Refusal>) {
    match written {
        Ok(lengths) => {
            cases_lines::say(b" lengths");
            cases_lines::say_number(lengths.reference);
            cases_lines::say_number(lengths.device);
        }
        Err(cause) => cases_lines::say_denied(u8::from(*cause)),
    }
}

// The sheet of the first n bytes of a list.
fn read_front(list: &[u8; 256], n: u16) -> Result<Sheet, Refusal> {
    sheet::read(&list[..at_most(n)])
}

// Writes the refusal, E and N of a sheet: 0 for no refusal, and for what is not there.
fn say_read(read: &Result<Sheet, Refusal>) {
    match read {
        Ok(s) => {
            cases_lines::say_number(0);
            cases_lines::say_number(u16::from(s.e));
            cases_lines::say_number(u16::from(s.n));
        }
        Err(cause) => {
            cases_lines::say_number(u16::from(u8::from(*cause)));
            cases_lines::say(b" 0 0");
        }
    }
}

// Writes the answer of a comparison.
fn say_outcome(outcome: Result<Outcome, Refusal>) {
    match outcome {
        Ok(Outcome::Stray(d, cleared, event)) => {
            cases_lines::say(b" stray");
            cases_lines::say_number(d);
            cases_lines::say_number(cleared);
            cases_lines::say_number(u16::from(event));
        }
        Ok(_) => cases_lines::say(b" no stray"),
        Err(cause) => cases_lines::say_denied(u8::from(cause)),
    }
}

// Compares two sheets.
fn compare_sheets(line: Line, reference: Sheet, device: Sheet) {
    let mut work = [65535u16; 2048];
    let mut trace = [255u8; 1023];
    let trace_only = cases_lines::flag(line, 3);
    say_outcome(comparison::compare(reference, device, trace_only, &mut work, &mut trace));
    cases_lines::say(b", trace");
    cases_lines::say_front(&trace, usize::from(cases_lines::number(line, 4)));
    cases_lines::say(b", left");
    cases_lines::say_count(holding(&trace, 255));
    cases_lines::say(b", check");
    cases_lines::say_count(cases_lines::check_of(&trace, 0));
}

// Writes how many tests were judged, how many passed and failed, and the first that failed.
fn say_verdicts(judged: Result<u16, Refusal>, list: &[u8]) {
    match judged {
        Ok(n) => {
            cases_lines::say(b" tests");
            cases_lines::say_number(n);
            cases_lines::say(b" passed");
            cases_lines::say_count(holding(list, 11));
            cases_lines::say(b" failed");
            cases_lines::say_count(holding(list, 12));
            cases_lines::say(b" first");
            cases_lines::say_count(first_of(list, 12));
        }
        Err(cause) => cases_lines::say_denied(u8::from(cause)),
    }
}

// Judges all tests of two sheets.
fn judge_sheets(line: Line, reference: Sheet, device: Sheet) {
    let mut list = [0u8; 1024];
    let trace_only = cases_lines::flag(line, 3);
    let judged = verdicts::judge_all(reference, device, trace_only, &mut list);
    say_verdicts(judged, &list);
}

// Writes what two sheets are read as, and compares and judges them.
fn test_read(line: Line, first: Result<Sheet, Refusal>, second: Result<Sheet, Refusal>) {
    cases_lines::say(b", read");
    say_read(&first);
    cases_lines::say(b" and");
    say_read(&second);
    let reference = first.unwrap_or(ZERO);
    let device = second.unwrap_or(ZERO);
    cases_lines::say(b",");
    compare_sheets(line, reference, device);
    cases_lines::say(b",");
    judge_sheets(line, reference, device);
}

// Writes the pair of a line, and tests what was written.
fn test_pair(line: Line) {
    let mut reference = [0u8; 256];
    let mut device = [0u8; 256];
    let p = cases_lines::small(line, 1);
    let q = cases_lines::small(line, 2);
    let written = bound::write_pair(p, q, &mut reference, &mut device);
    say_bounded(&written);
    if let Ok(lengths) = written {
        let first = read_front(&reference, lengths.reference);
        let second = read_front(&device, lengths.device);
        test_read(line, first, second);
    }
}

// ---- 4: a sheet that is read and written again

// The bytes of a line's sheet.
fn bytes_of(line: Line) -> [u8; 60] {
    let mut bytes = [0u8; 60];
    for i in 0..60 {
        bytes[i] = cases_lines::small(line, i + 3);
    }
    bytes
}

// A count of bytes, at most 60.
fn few(x: u16) -> usize
    ensures { result ≤ 60 }
{
    usize::from(x).min(60)
}

// Writes a sheet that is accepted to a list of a line, and what the list then holds.
fn write_sheet(line: Line, sheet: Sheet)
    requires { sheet_fault sheet ≡ 0 }
{
    let mut list = [255u8; 256];
    let mut page = Page {
        list: &mut list,
        at: at_most(cases_lines::number(line, 1)),
    };
    sheet_writer::put_sheet(&mut page, sheet);
    let next = page.at;
    cases_lines::say(b" to");
    cases_lines::say_count(next);
    cases_lines::say(b", list");
    cases_lines::say_front(&list, 64);
    cases_lines::say(b", left");
    cases_lines::say_count(holding(&list, 255));
    cases_lines::say(b", check");
    cases_lines::say_count(cases_lines::check_of(&list, 0));
}

// Reads the sheet of a line, and writes it again.
fn write_again(line: Line) {
    let bytes = bytes_of(line);
    let n = few(cases_lines::number(line, 2));
    match sheet::read(&bytes[..n]) {
        Ok(sheet) => write_sheet(line, sheet),
        Err(cause) => cases_lines::say_denied(u8::from(cause)),
    }
}

// ---- 5: a pair whose sheets are read and written again

// In how many places two lists are alike.
fn alike_in(list: &[u8; 256], other: &[u8; 256]) -> usize {
    let mut count: usize = 0;
    for i in 0..256 {
        count += usize::from(list[i] == other[i]);
    }
    count
}

// Writes a sheet that is accepted anew, and how far it is as the call wrote it.
fn hold_sheet(sheet: Sheet, written: &[u8; 256])
    requires { sheet_fault sheet ≡ 0 }
{
    let mut list = [0u8; 256];
    let mut page = Page::new(&mut list);
    sheet_writer::put_sheet(&mut page, sheet);
    let next = page.at;
    cases_lines::say(b" to");
    cases_lines::say_count(next);
    cases_lines::say(b" alike");
    cases_lines::say_count(alike_in(&list, written));
}

// Reads the sheet of the first n bytes, and writes it again.
fn hold_front(list: &[u8; 256], n: u16) {
    match sheet::read(&list[..at_most(n)]) {
        Ok(sheet) => hold_sheet(sheet, list),
        Err(cause) => cases_lines::say_denied(u8::from(cause)),
    }
}

// Writes the pair of a line, and its sheets again.
fn hold_pair(line: Line) {
    let mut reference = [0u8; 256];
    let mut device = [0u8; 256];
    let p = cases_lines::small(line, 1);
    let q = cases_lines::small(line, 2);
    let written = bound::write_pair(p, q, &mut reference, &mut device);
    say_bounded(&written);
    if let Ok(lengths) = written {
        hold_front(&reference, lengths.reference);
        hold_front(&device, lengths.device);
    }
}

// ---- standard input

// Answers a line.
fn answer(line: Line) {
    match cases_lines::number(line, 0) {
        2 => test_pair(line),
        4 => write_again(line),
        _ => hold_pair(line),
    }
    cases_lines::say(b"\n");
}

// Reads the cases and answers them.
fn main() {
    let mut space = io::large_buffer();
    let n = io::read_full(STDIN_FILENO, &mut space);
    cases_lines::answer_lines(&space[..n], answer);
}
