// The program `keypad_check`: whether a keypad's table is good, and the event of a code.
//   keypad_check [CODE]
// It reads a sheet and a table, back to back, from standard input, at most 4,096 bytes, and prints the size of the
// sheet, the size of the table and whether it is good: if it is not, its smallest bad code, with the gap or the
// overlap. CODE is a number in base ten of at most five digits, 0 to 255; of a good table its event is printed too. A
// word that is no such number, and more than one word, is wrong use: standard error says so, and nothing is printed.
#![tactic(auto)]

use keypad_check_lines_spec::AskedCode;
use std::env::Env;

// The number of standard input.
const STDIN_FILENO: i32 = 0;

// The number of standard output.
const STDOUT_FILENO: i32 = 1;

// The number of standard error.
const STDERR_FILENO: i32 = 2;

// How many words the program was started with, after its own name.
fn word_count(rt: &impl Env) -> usize {
    arguments::word_count(rt).saturating_sub(1)
}

// What the words ask for. A word that is longer than the list is left out, so that it is no code.
fn asked(rt: &impl Env) -> AskedCode {
    let mut word = [0u8; 64];
    let w = arguments::put_word(rt, 1, &mut word);
    keypad_check_lines::asked_of(word_count(rt), text::front(&word, w))
}

// Says on standard error what a code is.
fn wrong_use() {
    io::write_all(
        STDERR_FILENO,
        b"keypad_check: it takes one code at most, a number of 0 to 255\n",
    );
}

// Reads the input and writes the text.
fn answer(asked: AskedCode) {
    let mut space = io::buffer();
    let n = io::read_full(STDIN_FILENO, &mut space);
    let mut out = io::buffer();
    let len = keypad_check_lines::keypad_text(asked, &space[..n], &mut out);
    if !io::write_all(STDOUT_FILENO, text::front(&out, len)) {
        io::write_all(
            STDERR_FILENO,
            b"keypad_check: the output could not be written\n",
        );
    }
}

// Answers what the words ask for, or says that they are wrong.
fn main(rt: HostRuntime) {
    match asked(&rt) {
        AskedCode::Wrong => wrong_use(),
        asked => answer(asked),
    }
}
