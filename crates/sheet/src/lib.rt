// A sheet read from bytes, and kept sheets checked (01, "A sheet" and the refusals 1 to 8; 02, K1, the refusals 11, 18
// and 19). Each entry point takes any content: `read` answers with the sheet or the refusal, `check` and `check_pair`
// with the refusal, if there is one.
#![tactic(auto)]

ghost use Rattle.std.specs.Prelude.{◌≡◌};
ghost use Rattle.refusals.specs.Numbers.{refusal_in};
ghost use Rattle.sheet_spec.specs.Refusals.{sheet_fault, pair_fault};
ghost use Rattle.sheet_spec.specs.Reading.{kept, read_sheet};

use refusals::Refusal;
use sheet_spec::Sheet;

// The refusal of a kept sheet with any content.
pub fn check(s: Sheet) -> Result<(), Refusal>
    ensures { refusal_in result ≡ sheet_fault s }
{
    sheet_rules::sheet_fault(s)
}

// The refusal of two kept sheets with any content, handed together: the reference's own, the device's own; 11, E
// differs; 19, an event has another code.
pub fn check_pair(reference: Sheet, device: Sheet) -> Result<(), Refusal>
    ensures { refusal_in result ≡ pair_fault reference device 0 }
{
    check(reference)?;
    check(device)?;
    let own = reference.codes;
    let others = device.codes;
    sheet_codes::shared_fault(reference.e, &own, device.e, &others)
}

// The sheet that the bytes spell, or the refusal.
pub fn read(bytes: &[u8]) -> Result<Sheet, Refusal>
    ensures { kept result ≡ read_sheet bytes.now }
{
    sheet_bytes::fault_in(bytes)?;
    let s = sheet_bytes::sheet_of(bytes);
    sheet_rules::graph_fault(s)?;
    Ok(s)
}
