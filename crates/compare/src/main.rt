// The program `compare` (01): two sheets from standard input, and the text of their comparison on standard output.
#![tactic(auto)]

// The number of standard input.
const STDIN_FILENO: i32 = 0;

// The number of standard output.
const STDOUT_FILENO: i32 = 1;

// The number of standard error.
const STDERR_FILENO: i32 = 2;

// Says on standard error that the text could not be written.
fn unwritten() {
    io::write_all(STDERR_FILENO, b"compare: the output could not be written\n");
}

// Reads the input and writes the text.
fn main() {
    let mut space = io::buffer();
    let n = io::read_full(STDIN_FILENO, &mut space);
    let text = compare_lines::compare_text(&space[..n]);
    if !io::write_all(STDOUT_FILENO, text::front(&text.bytes, text.len)) {
        unwritten();
    }
}
