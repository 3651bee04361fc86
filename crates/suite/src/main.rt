// The program `suite`: two sheets from standard input, as `compare` reads them, and on standard output the verdict of
// every test of the device and how many fail.
#![tactic(auto)]

// The number of standard input.
const STDIN_FILENO: i32 = 0;

// The number of standard output.
const STDOUT_FILENO: i32 = 1;

// The number of standard error.
const STDERR_FILENO: i32 = 2;

// Says on standard error that the text could not be written.
fn unwritten() {
    io::write_all(STDERR_FILENO, b"suite: the output could not be written\n");
}

// Reads the input and writes the text.
fn main() {
    let mut space = io::buffer();
    let n = io::read_full(STDIN_FILENO, &mut space);
    let mut out = io::large_buffer();
    let len = suite_lines::suite_text(&space[..n], &mut out);
    if !io::write_all(STDOUT_FILENO, text::front(&out, len)) {
        unwritten();
    }
}
