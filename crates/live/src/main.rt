// The program `live`, a live run of test k at the bench (01, "Test k and a live run"; 02, K4):
//   live REF K H [traces]
// REF names a file with the reference's bytes, of which no more than 4,096 are kept; later bytes count as absent. A
// name that is no UTF-8 counts as a file that cannot be opened. K and H are numbers in base ten, and `traces` makes the
// run trace-only. Other counts of words are refused with 14 before the file is opened. It prints a first line, with the
// test, the choice number, whether it is trace-only and the size of the reference, and the first offer; or one refusal.
// Then it reads one report a line from standard input, `event e` or `blocked`, and prints the answer to each, until the
// run ends. A line that is no report is refused with 15, and the offer, which stands, is printed again. A last line
// without its newline is no line: the input has ended. Where an answer cannot be written, the program says so on
// standard error and ends.
#![tactic(auto)]

use live_lines_spec::Asked;
use refusals::Refusal;
use sheet_spec::Sheet;
use std::env::{Env, FillError};
use std::fs::File;
use std::io::{Error, ErrorKind, Read, Write};
use std::rt::Files;
use tests_spec::{Answer, Run};
use text::Page;

// The number of standard input.
const STDIN_FILENO: i32 = 0;

// The number of standard output.
const STDOUT_FILENO: i32 = 1;

// The number of standard error.
const STDERR_FILENO: i32 = 2;

// The system's number for a word that is not there.
const EINVAL: i32 = 22;

// The system's number for a name that is too long.
const ENAMETOOLONG: i32 = 36;

// The program ends after so many lines.
const LINES: u32 = 1000000;

// So many bytes of one line are read, or of the file; what follows in a longer line counts as another line.
const LONGEST: u32 = 1000000;

// ---- reading

// The next byte of standard input; none at its end, and where the read fails.
fn heard_byte() -> Option<u8> {
    let mut one = [0; 1];
    if io::read_full(STDIN_FILENO, &mut one) == 0 {
        None
    } else {
        Some(one[0])
    }
}

// Reads a line of standard input into the front of a list, up to its newline, and answers how many bytes of it the list
// holds; bytes that have no room are dropped. None where the input ends, or cannot be read, before the line ends.
fn read_line(list: &mut [u8]) -> Option<usize> {
    let mut page = Page::new(list);
    for _ in 0..LONGEST {
        let b = heard_byte()?;
        if b == b'\n' {
            break;
        }
        page.put_byte(b);
    }
    Some(page.at)
}

// The next byte of a file; none at its end.
fn read_byte(file: &mut impl Read) -> std::io::Result<Option<u8>> {
    let mut one = [0; 1];
    if file.read(&mut one)? == 0 {
        return Ok(None);
    }
    Ok(Some(one[0]))
}

// Reads a file into the front of a list, up to its end, and answers how many bytes of it the list holds; bytes that
// have no room are dropped.
fn read_to_end(file: &mut impl Read, list: &mut [u8]) -> std::io::Result<usize> {
    let mut page = Page::new(list);
    for _ in 0..LONGEST {
        match read_byte(file)? {
            None => break,
            Some(b) => page.put_byte(b),
        }
    }
    Ok(page.at)
}

// Opens the file that some bytes name. A name that is no text is refused.
fn open_named<R: Files>(rt: &R, name: &[u8]) -> std::io::Result<R::File> {
    match str::from_utf8(name) {
        Ok(path) => File::open(rt, path),
        Err(_) => Err(Error::from(ErrorKind::InvalidFilename)),
    }
}

// Opens the file that the first word names; 4,095 bytes hold every name that the system takes.
fn open_reference<R: Env + Files>(rt: &R) -> std::io::Result<R::File> {
    let mut name = [0; 4095];
    match rt.arg(1, &mut name) {
        Ok(n) => open_named(rt, text::front(&name, n)),
        Err(FillError::TooLong) => Err(Error::from_raw_os_error(ENAMETOOLONG)),
        Err(FillError::NotPresent) => Err(Error::from_raw_os_error(EINVAL)),
    }
}

// Reads the file that the first word names, and answers how many bytes of it the list holds.
fn read_file(rt: &(impl Env + Files), list: &mut [u8]) -> std::io::Result<usize> {
    let mut file = open_reference(rt)?;
    read_to_end(&mut file, list)
}

// The test that the words ask for, where `four` says whether there is a fourth.
fn asked_for(rt: &impl Env, four: bool) -> Asked {
    let mut k = [0; 64];
    let mut h = [0; 64];
    let mut word = [0; 64];
    let a = arguments::put_word(rt, 2, &mut k);
    let b = arguments::put_word(rt, 3, &mut h);
    let c = arguments::put_word(rt, 4, &mut word);
    live_words::test_of(
        text::front(&k, a),
        text::front(&h, b),
        four,
        text::front(&word, c),
    )
}

// ---- writing

// Writes a text and answers whether all of it was written; where it was not, standard error says so.
fn written(bytes: &[u8]) -> bool {
    if io::write_all(STDOUT_FILENO, bytes) {
        return true;
    }
    io::write_all(STDERR_FILENO, b"live: the output could not be written\n");
    false
}

// Puts what an error says over the front of a list, and answers how many bytes of it the list holds.
fn put_error(list: &mut [u8], error: Error) -> usize {
    let room = list.len();
    let mut rest: &mut [u8] = list;
    match write!(rest, "{error}") {
        Ok(()) => room.saturating_sub(rest.len()),
        Err(_) => 0,
    }
}

// The system's words for an error, without its number, which std puts after them.
fn without_number(said: &str) -> &str {
    match said.split_once(" (os error ") {
        Some((words, _)) => words,
        None => said,
    }
}

// Says on standard error why the file cannot be read.
fn unread(error: Error) {
    let mut list = [0; 256];
    let n = put_error(&mut list, error);
    let said = match str::from_utf8(text::front(&list, n)) {
        Ok(said) => without_number(said),
        Err(_) => "",
    };
    io::write_all(STDERR_FILENO, b"live: ");
    io::write_all(STDERR_FILENO, said.as_bytes());
    io::write_all(STDERR_FILENO, b"\n");
}

// Writes what an opening prints, on a reference of n nodes and e events; `fault` is its own refusal, 0 for none.
fn say_opening(asked: Asked, n: u8, e: u8, fault: u8, answer: Answer) -> bool {
    let mut out = [0; 128];
    let mut page = Page::new(&mut out);
    live_lines::put_opening(&mut page, asked, n, e, fault, answer);
    let len = page.at;
    written(text::front(&out, len))
}

// Writes that there are too few words for a test, or too many.
fn say_no_test() {
    let mut out = [0; 128];
    let mut page = Page::new(&mut out);
    live_lines::put_test_refused(&mut page, u8::from(Refusal::Test));
    let len = page.at;
    written(text::front(&out, len));
}

// Writes what the answer to a report prints, where `offered` is the set that stood offered.
fn say_answer(offered: u16, answer: Answer) -> bool {
    let mut out = [0; 128];
    let mut page = Page::new(&mut out);
    live_lines::put_answer(&mut page, offered, answer);
    let len = page.at;
    written(text::front(&out, len))
}

// Writes that the lines were too many, or that the input ended.
fn say_stop(many: bool) {
    let mut out = [0; 128];
    let mut page = Page::new(&mut out);
    live_lines::put_stop(&mut page, many);
    let len = page.at;
    written(text::front(&out, len));
}

// ---- the run

// The run after a line, the set that stands offered, and whether the run goes on.
#[derive(Clone, Copy)]
struct Heard {
    going: bool,
    offered: u16,
    run: Run,
}

// One round of a run: hears a line, steps the run and writes the answer; a run whose answer is not written ends.
fn take_line(sheet: Sheet, run: Run, offered: u16, line: &[u8]) -> Heard {
    let stepped = tests::step(sheet, run, live_words::heard(line));
    let said = say_answer(offered, stepped.answer);
    Heard {
        going: said && live_lines::goes_on(stepped.answer),
        offered: live_lines::next_offer(offered, stepped.answer),
        run: stepped.run,
    }
}

// Reads a line and answers it; of a longer line the first 64 bytes are kept, which are no report. Bytes after which the
// input ends are no line.
fn next_line(sheet: Sheet, run: Run, offered: u16) -> Heard {
    let mut line = [0; 64];
    match read_line(&mut line) {
        Some(len) => take_line(sheet, run, offered, text::front(&line, len)),
        None => {
            say_stop(false);
            Heard {
                going: false,
                offered,
                run,
            }
        }
    }
}

// Answers line after line until the run ends; `set` is its first offer.
fn answer_lines(sheet: Sheet, first: Run, set: u16) {
    let mut run = first;
    let mut offered = set;
    for _ in 0..LINES {
        let next = next_line(sheet, run, offered);
        if !next.going {
            return;
        }
        run = next.run;
        offered = next.offered;
    }
    say_stop(true);
}

// Opens the test that is asked for, and answers its lines.
fn run_test(sheet: Sheet, asked: Asked) {
    let opened = tests::open_test(sheet, asked.k, asked.h, asked.trace_only);
    if !say_opening(asked, sheet.n, sheet.e, 0, opened.answer) {
        return;
    }
    if let Answer::Going(offered) = opened.answer {
        answer_lines(sheet, opened.run, offered);
    }
}

// Opens the test that is asked for on the reference that the bytes spell; one that is refused has no test to open.
fn run_bytes(bytes: &[u8], asked: Asked) {
    match sheet::read(bytes) {
        Ok(sheet) => run_test(sheet, asked),
        Err(refusal) => {
            let number = u8::from(refusal);
            say_opening(asked, 0, 0, number, Answer::Denied(number));
        }
    }
}

// Reads the file and the words, and runs the test. The program's own name counts as a word.
fn main(rt: HostRuntime) {
    let words = arguments::word_count(&rt);
    if !(4..=5).contains(&words) {
        say_no_test();
        return;
    }
    let mut space = io::buffer();
    match read_file(&rt, &mut space) {
        Ok(n) => run_bytes(text::front(&space, n), asked_for(&rt, words == 5)),
        Err(error) => unread(error),
    }
}
