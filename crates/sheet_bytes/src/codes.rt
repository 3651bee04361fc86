// The catalogue codes in the bytes of a sheet (02, K1): those that are kept, and the refusals 4 and 18 of them. Version
// 2 has them after N, version 1 has none and counts from 1.
ghost use Rattle.std.specs.Prelude.{◌≡◌, ◌≤◌, ◌<◌};
ghost use Rattle.refusals.specs.Numbers.{refusal_in};
ghost use Rattle.sheet_spec.specs.Spelling.{event_count, code_of, codes_of};
ghost use Rattle.sheet_spec.specs.Refusals.{codes_fault};

use super::layout;
use refusals::Refusal;
use std::array;

// The code of event i: in version 2 its two bytes, in version 1 i + 1; 0 where it is unused.
fn code_of(bytes: &[u8], i: usize) -> u16
    requires { i < 12 }
    ensures { result ≡ code_of bytes.now i }
{
    if i >= usize::from(layout::byte_at(bytes, 5)) {
        return 0;
    }
    if layout::byte_at(bytes, 4) == 2 {
        layout::word_at(bytes, 7 + i * 2)
    } else {
        (i + 1) as u16
    }
}

// All twelve code places of a sheet.
pub(crate) fn codes_of(bytes: &[u8]) -> [u16; 12]
    ensures { result ≡ codes_of bytes.now }
{
    array::from_fn(|i| code_of(bytes, i))
}

// The refusals of the codes: 4: cut off; 18: one given twice.
#[tactic(auto, unfolding(sheet_spec::specs::Refusals::codes_fault))]
pub(crate) fn codes_fault(bytes: &[u8]) -> Result<(), Refusal>
    requires { event_count bytes.now ≤ 12 }
    ensures { refusal_in result ≡ codes_fault bytes.now }
{
    if layout::nodes_at(bytes) > bytes.len() {
        return Err(Refusal::Bytes);
    }
    let codes = codes_of(bytes);
    if !sheet_codes::is_distinct(&codes, layout::byte_at(bytes, 5)) {
        return Err(Refusal::CodeTwice);
    }
    Ok(())
}
