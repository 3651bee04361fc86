// The Run cases of scripts (02, K2). Each line of standard input is a case: its name, a colon, and five numbers: sheet,
// sheet, L. The scripts of L events are counted for the first sheet as the reference and the second as the device.
// A sheet is two numbers: which one, and which refusal it is changed to deserve, 0 for none. Sheets 14 and 15, of 32
// nodes and 12 events, and 18 and 19, the reference and the device of samples/tray, are made here and are not changed;
// the others are those of `cases_samples`. Numbers that are not there count as 0.
// Each case writes its name and its answer: `counted`, or `denied` and the number; and after a bar the three counts: of
// scripts that both walk, that the device stops, and that the reference stops.
#![tactic(auto)]

ghost use Rattle.std.specs.Prelude.{◌<◌};

use cases_lines::Line;
use refusals::Refusal;
use scripts_spec::Counts;
use sheet_spec::Sheet;

// The number of standard input.
const STDIN_FILENO: i32 = 0;

// ---- sheets of 32 nodes and twelve events: a node has twelve successors, its C, 1, and the acceptance 0

// The successor of node v of sheet 14 on event k: v + k + 1 modulo 32, and none where v + 2·k is 4 modulo 5.
fn near_successor(v: usize, k: usize) -> u8
    requires { (v < 32) × (k < 12) }
{
    if (v + k * 2) % 5 == 4 {
        return 255;
    }
    ((v + k + 1) % 32) as u8
}

// The successor of node v of sheet 15 on event k: 5·v + k + 1 modulo 32, and none where v + 3·k is 6 modulo 7.
fn far_successor(v: usize, k: usize) -> u8
    requires { (v < 32) × (k < 12) }
{
    if (v + k * 3) % 7 == 6 {
        return 255;
    }
    ((v * 5 + k + 1) % 32) as u8
}

// Byte i of the nodes of sheet 14 or 15.
fn node_byte(which: u16, i: usize) -> u8
    requires { i < 480 }
{
    let v = i / 15;
    let k = i % 15;
    if k == 12 {
        return 1;
    }
    if k > 12 {
        return 0;
    }
    if which == 14 {
        near_successor(v, k)
    } else {
        far_successor(v, k)
    }
}

// Sheet 14 or 15, which has 483 bytes after its length field.
fn large_sheet(which: u16) -> Sheet {
    let mut bytes = [0u8; 487];
    bytes[2] = 1;
    bytes[3] = 227;
    bytes[4] = 1;
    bytes[5] = 12;
    bytes[6] = 32;
    for (i, b) in bytes[7..].iter_mut().enumerate() {
        *b = node_byte(which, i);
    }
    sheet::read(&bytes).unwrap_or(cases_samples::ZERO)
}

// ---- the sheets of a tray

// The reference of samples/tray: 6 nodes, 8 events.
fn tray_reference() -> Sheet {
    sheet::read(
        b"\x00\x00\x00\x45\x01\x08\x06\x01\xFF\xFF\xFF\xFF\xFF\x00\xFF\x01\x00\x41\xFF\x02\xFF\xFF\x00\xFF\xFF\xFF\x01\x00\x12\xFF\xFF\x03\xFF\x00\xFF\xFF\xFF\x01\x00\x14\xFF\xFF\x04\xFF\x00\xFF\xFF\xFF\x01\x00\x14\xFF\xFF\xFF\x05\x00\xFF\xFF\xFF\x01\x00\x18\xFF\xFF\xFF\xFF\xFF\x00\xFF\xFF\x01\x00\x20",
    ).unwrap_or(cases_samples::ZERO)
}

// The device of samples/tray: 9 nodes, 8 events.
fn tray_device() -> Sheet {
    sheet::read(
        b"\x00\x00\x00\x66\x01\x08\x09\x01\xFF\xFF\xFF\xFF\xFF\x00\xFF\x01\x00\x41\xFF\x02\xFF\xFF\x00\xFF\xFF\xFF\x01\x00\x12\xFF\xFF\x03\xFF\x00\xFF\xFF\xFF\x01\x00\x14\xFF\xFF\x04\xFF\x00\xFF\xFF\xFF\x01\x00\x14\xFF\xFF\xFF\x05\x00\xFF\xFF\xFF\x01\x00\x18\xFF\xFF\xFF\xFF\xFF\x06\xFF\xFF\x01\x00\x20\x07\xFF\xFF\xFF\xFF\xFF\x06\xFF\x01\x00\x41\xFF\x02\xFF\xFF\x08\xFF\xFF\xFF\x01\x00\x12\x07\xFF\xFF\xFF\xFF\xFF\xFF\x08\x01\x00\x01",
    ).unwrap_or(cases_samples::ZERO)
}

// ---- a line

// The sheet that two numbers of a line name: which one, and the refusal that it is changed to deserve.
fn sheet_at(line: Line, which: usize, refusal: usize) -> Sheet {
    let x = cases_lines::number(line, which);
    match x {
        14 => large_sheet(14),
        15 => large_sheet(15),
        18 => tray_reference(),
        19 => tray_device(),
        _ => cases_samples::sample(x, cases_lines::number(line, refusal)),
    }
}

// The counts of a refused call.
const NONE: Counts = Counts {
    walked: 0,
    device: 0,
    reference: 0,
};

// Writes the three counts.
fn say_counts(counts: Counts) {
    cases_lines::say(b" |");
    cases_lines::say_count(counts.walked as usize);
    cases_lines::say_count(counts.device as usize);
    cases_lines::say_count(counts.reference as usize);
}

// Writes an answer: whether it is refused, and the three counts.
fn say_scripts(counted: Result<Counts, Refusal>) {
    match counted {
        Ok(counts) => {
            cases_lines::say(b" counted");
            say_counts(counts);
        }
        Err(cause) => {
            cases_lines::say_denied(u8::from(cause));
            say_counts(NONE);
        }
    }
}

// Counts the scripts that a line asks for.
fn answer(line: Line) {
    let reference = sheet_at(line, 0, 1);
    let device = sheet_at(line, 2, 3);
    say_scripts(scripts::count(reference, device, cases_lines::number(line, 4)));
    cases_lines::say(b"\n");
}

// ---- standard input

// Reads the cases and answers them.
fn main() {
    let mut space = io::large_buffer();
    let n = io::read_full(STDIN_FILENO, &mut space);
    cases_lines::answer_lines(&space[..n], answer);
}
