// The program `show`: a sheet from standard input, at most 4,096 bytes, and its nodes in words on standard output.
#![tactic(auto)]

// The number of standard input.
const STDIN_FILENO: i32 = 0;

// The number of standard output.
const STDOUT_FILENO: i32 = 1;

// The number of standard error.
const STDERR_FILENO: i32 = 2;

// Says on standard error that the text could not be written.
fn unwritten() {
    io::write_all(STDERR_FILENO, b"show: the output could not be written\n");
}

// Reads the input and writes the text.
#[tactic(auto, using(text_spec::proofs::HoldsLaws::holds_front))]
fn main() {
    let mut space = io::buffer();
    let n = io::read_full(STDIN_FILENO, &mut space);
    let mut out = io::large_buffer();
    let len = show_lines::put_show(&space[..n], &mut out);
    if !io::write_all(STDOUT_FILENO, &out[..len]) {
        unwritten();
    }
}
