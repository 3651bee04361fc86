// The program `walk`: a walk on a sheet that two sites can repeat.
//   walk SEED LENGTH
// SEED is a number in base ten of at most ten digits, 1 to 4,294,967,295, and LENGTH one of at most five digits, 0 to
// 4,096; the program reads a sheet from standard input, at most 4,096 bytes, and prints its size, the length of the
// walk that the seed draws, and its events. A SEED that is no such number, and another count of words, is refused with
// 27, and then a LENGTH that is none with 28, after the refusals of the sheet.
#![tactic(auto)]

use std::env::Env;

// The number of standard input.
const STDIN_FILENO: i32 = 0;

// The number of standard output.
const STDOUT_FILENO: i32 = 1;

// The number of standard error.
const STDERR_FILENO: i32 = 2;

// Word i that the program was started with, over the front of a list, and how many bytes it has: none where there are
// not two words, or where it is longer than the list. The program's own name counts as a word.
fn put_word(rt: &impl Env, i: usize, list: &mut [u8]) -> usize {
    if arguments::word_count(rt) != 3 {
        return 0;
    }
    arguments::put_word(rt, i, list)
}

// Says on standard error that the text could not be written.
fn unwritten() {
    io::write_all(STDERR_FILENO, b"walk: the output could not be written\n");
}

// Reads the words and the input and writes the text.
fn main(rt: HostRuntime) {
    let mut seed = [0u8; 64];
    let s = put_word(&rt, 1, &mut seed);
    let mut wish = [0u8; 64];
    let w = put_word(&rt, 2, &mut wish);
    let mut space = io::buffer();
    let n = io::read_full(STDIN_FILENO, &mut space);
    let mut out = io::large_buffer();
    let len = walk_lines::walk_text(
        text::front(&seed, s),
        text::front(&wish, w),
        &space[..n],
        &mut out,
    );
    if !io::write_all(STDOUT_FILENO, text::front(&out, len)) {
        unwritten();
    }
}
