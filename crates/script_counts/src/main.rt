// The program `script_counts`: how many key scripts of a length go where.
//   script_counts L
// L is a number in base ten, 0 to 16; the program reads two sheets from standard input, as `compare` reads them, and
// prints how many scripts of L events both walk, how many the device stops and how many the reference stops. Other
// counts of words, and a word that is no such number, are refused with 20, after the refusals of the sheets.
#![tactic(auto)]

use std::env::Env;

// The number of standard input.
const STDIN_FILENO: i32 = 0;

// The number of standard output.
const STDOUT_FILENO: i32 = 1;

// The number of standard error.
const STDERR_FILENO: i32 = 2;

// The word that the program was started with, over the front of a list, and how many bytes it has: none where there is
// no word, where there are more, or where it is longer than the list. The program's own name counts as a word.
fn put_word(rt: &impl Env, list: &mut [u8]) -> usize {
    if arguments::word_count(rt) != 2 {
        return 0;
    }
    arguments::put_word(rt, 1, list)
}

// Says on standard error that the text could not be written.
fn unwritten() {
    io::write_all(
        STDERR_FILENO,
        b"script_counts: the output could not be written\n",
    );
}

// Reads the word and the input and writes the text.
fn main(rt: HostRuntime) {
    let mut word = [0u8; 64];
    let w = put_word(&rt, &mut word);
    let mut space = io::buffer();
    let n = io::read_full(STDIN_FILENO, &mut space);
    let mut out = io::buffer();
    let len = script_counts_lines::scripts_text(text::front(&word, w), &space[..n], &mut out);
    if !io::write_all(STDOUT_FILENO, text::front(&out, len)) {
        unwritten();
    }
}
