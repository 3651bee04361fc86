// The program `probe_list`: a sheet from standard input, at most 4,096 bytes, and the probes and the optional events of
// each node on standard output.
#![tactic(auto)]

ghost use Rattle.std.specs.Prelude.{◌≡◌, length};

use refusals::Refusal;
use sheet_spec::Sheet;
use text::Page;

// The number of standard input.
const STDIN_FILENO: i32 = 0;

// The number of standard output.
const STDOUT_FILENO: i32 = 1;

// The number of standard error.
const STDERR_FILENO: i32 = 2;

// 262,144 zeros, enough for the text of any node. The `ensures` gives only the length, which lending the array as a
// slice needs.
fn line_space() -> [u8; 262144]
    ensures { 262144 ≡ length result }
{
    [0; 262144]
}

// Writes the first line of a sheet as it was read, and answers whether it could.
fn say_head(read: &Result<Sheet, Refusal>) -> bool {
    let mut out = io::buffer();
    let mut page = Page::new(&mut out);
    text_sheet::put_head(&mut page, &read.map_err(u8::from));
    let len = page.at;
    io::write_all(STDOUT_FILENO, text::front(&out, len))
}

// Writes the lines of each node, and answers whether it could.
fn say_nodes(sheet: Sheet) -> bool {
    let mut out = line_space();
    for v in 0..sheet.n {
        let len = probe_list_lines::put_node(sheet, v, &mut out);
        if !io::write_all(STDOUT_FILENO, text::front(&out, len)) {
            return false;
        }
    }
    true
}

// Writes the lines of a sheet as it was read, and answers whether it could; a refused sheet has the first line alone.
fn say_sheet(read: &Result<Sheet, Refusal>) -> bool {
    if !say_head(read) {
        return false;
    }
    match read {
        Ok(sheet) => say_nodes(*sheet),
        Err(_) => true,
    }
}

// Reads the sheet and writes its lines, or says on standard error that they could not be written.
fn main() {
    let mut space = io::buffer();
    let n = io::read_full(STDIN_FILENO, &mut space);
    if !say_sheet(&sheet::read(&space[..n])) {
        io::write_all(
            STDERR_FILENO,
            b"probe_list: the output could not be written\n",
        );
    }
}
