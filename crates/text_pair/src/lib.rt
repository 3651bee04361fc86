// An input of two sheets, split, and their lines as `compare` and `suite` print them before their own: the size of
// each, or the refusal that ends the text. `keypad_check` asks where the first sheet ends.
#![tactic(auto)]

ghost use Rattle.std.specs.Prelude.{◌≡◌, ◌≤◌, ◌<◌, length};
ghost use Rattle.sheet_spec.specs.declared.Sheet.{Sheet};
ghost use Rattle.sheet_spec.specs.Reading.{kept};
ghost use Rattle.sheet_spec.specs.Spelling.{length_field};
ghost use Rattle.text.specs.Pages.{Puts};
ghost use Rattle.text_spec.specs.Input.{cut_input};
ghost use Rattle.text_pair_spec.specs.Split.{first_end};
ghost use Rattle.text_pair_spec.specs.Program.{device_lines, sheets_lines};
ghost use Rattle.text_pair_spec.specs.Opening.{silent, Opens};

use refusals::Refusal;
use sheet_spec::Sheet;
use text::Page;

// ---- the split of an input

// The length field of the first sheet of an input.
#[tactic(auto, unfolding(sheet_spec::specs::Spelling::length_field))]
fn length_field(input: &[u8]) -> usize
    requires { 4 ≤ length input.now }
    ensures { (result ≡ length_field input.now) × (result < 4294967296) }
{
    u32::from_be_bytes([input[0], input[1], input[2], input[3]]) as usize
}

// Where the first sheet of an input ends.
#[tactic(auto, unfolding(text_pair_spec::specs::Split::first_end))]
pub fn first_end(input: &[u8]) -> usize
    ensures { (result ≡ first_end input.now) × (result ≤ length input.now) }
{
    if input.len() < 4 {
        return input.len();
    }
    input.len().min(length_field(input) + 4)
}

// ---- the lines of two sheets

// Puts the line of the device, after an accepted reference, whichever that is.
#[tactic(auto, using(crate::proofs::Parts::device_read, crate::proofs::Parts::device_refused))]
fn put_device(page: &mut Page, device: &Result<Sheet, Refusal>)
    ensures { (P : Sheet) → Puts (device_lines silent P (kept device.now)) page.old page.new }
{
    match device {
        Ok(s) => page.put_sheet_line(b"device ", s.n, s.e),
        Err(cause) => page.put_refusal_line(b"device refused ", *cause),
    }
}

// Puts the lines of two sheets as they were read.
#[tactic(auto, using(text::proofs::PageLaws::puts_then, crate::proofs::Parts::pair_read, crate::proofs::Parts::pair_refused))]
fn put_sheets(page: &mut Page, reference: &Result<Sheet, Refusal>, device: &Result<Sheet, Refusal>)
    ensures { Puts (sheets_lines silent (kept reference.now) (kept device.now)) page.old page.new }
{
    match reference {
        Ok(s) => {
            page.put_sheet_line(b"reference ", s.n, s.e);
            put_device(page, device);
        }
        Err(cause) => page.put_refusal_line(b"reference refused ", *cause),
    }
}

// Reads the two sheets of an input that is not too long, the reference and the device, and puts their lines.
fn put_input(page: &mut Page, input: &[u8]) -> (Result<Sheet, Refusal>, Result<Sheet, Refusal>)
    ensures { Opens input.now page.old page.new result.0 result.1 }
{
    let (first, second) = input.split_at(first_end(input));
    let reference = sheet::read(first);
    let device = sheet::read(second);
    put_sheets(page, &reference, &device);
    (reference, device)
}

// Reads the two sheets of an input, of which no more than 4,096 bytes count, the reference and the device, and puts
// their lines.
#[tactic(auto, unfolding(text_spec::specs::Input::cut_input))]
pub fn put_pair(page: &mut Page, input: &[u8]) -> (Result<Sheet, Refusal>, Result<Sheet, Refusal>)
    ensures { Opens (cut_input input.now) page.old page.new result.0 result.1 }
{
    put_input(page, text::front(input, 4096))
}
