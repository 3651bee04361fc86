// The program `bound_pair`: a pair of sheets whose first failing test is the last of their suite.
//   bound_pair P Q WORD
// P and Q are numbers in base ten of at most three digits, 1 to 32: the nodes of the reference and of the device. WORD
// `reference` writes the reference's bytes, `device` the device's, and `lines` the nodes and the bytes of both and the
// number of the first failing test, p q - 1. A P or Q that is no such number is refused with 30: on standard output
// where lines are asked for, else on standard error, so that no line is taken for a sheet. Another WORD, or another
// count of words, is told on standard error.
#![tactic(auto)]

use std::env::Env;

// The number of standard output.
const STDOUT_FILENO: i32 = 1;

// The number of standard error.
const STDERR_FILENO: i32 = 2;

// Word i that the program was started with, over the front of a list, and how many bytes it has: none where there are
// not three words, or where it is longer than the list. The program's own name counts as a word.
fn put_word(rt: &impl Env, i: usize, list: &mut [u8]) -> usize {
    if arguments::word_count(rt) != 4 {
        return 0;
    }
    arguments::put_word(rt, i, list)
}

// Says on standard error that the output could not be written.
fn unwritten() {
    io::write_all(
        STDERR_FILENO,
        b"bound_pair: the output could not be written\n",
    );
}

// Reads the words and writes what they ask for.
fn main(rt: HostRuntime) {
    let mut p = [0u8; 64];
    let a = put_word(&rt, 1, &mut p);
    let mut q = [0u8; 64];
    let b = put_word(&rt, 2, &mut q);
    let mut word = [0u8; 64];
    let w = put_word(&rt, 3, &mut word);
    let mut out = io::buffer();
    let len = bound_lines::bound_text(
        text::front(&p, a),
        text::front(&q, b),
        text::front(&word, w),
        &mut out,
    );
    if !io::write_all(STDOUT_FILENO, text::front(&out, len)) {
        unwritten();
    }
    let said = bound_lines::bound_error(
        text::front(&p, a),
        text::front(&q, b),
        text::front(&word, w),
        &mut out,
    );
    io::write_all(STDERR_FILENO, text::front(&out, said));
}
