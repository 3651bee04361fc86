// How a sheet stands in its bytes (01, the refusals 1 to 5; 02, K1): its length, version and ranges, where its nodes
// begin, and one walk over them. Reads past the end give 0.
ghost use Rattle.std.specs.Prelude.{◌≡◌, ◌+◌, ◌≤◌, ◌<◌};
ghost use Rattle.sheet_spec.specs.Spelling.{byte, word, nodes_at, next_at};
ghost use Rattle.sheet_spec.specs.Rules.{version_ok};
ghost use Rattle.sheet_spec.specs.Refusals.{head_fault, layout_fault};
ghost use Rattle.sheet_bytes.specs.LayoutShapes.{length_ok};
ghost use Rattle.refusals.specs.Numbers.{refusal_in};

use refusals::Refusal;

// The byte at a place, 0 past the end.
pub(crate) fn byte_at(bytes: &[u8], i: usize) -> u8
    ensures { result ≡ byte bytes.now i }
{
    if i < bytes.len() { bytes[i] } else { 0 }
}

// The number in the two bytes at a place, big-endian.
pub(crate) fn word_at(bytes: &[u8], i: usize) -> u16
    requires { i < 1000000 }
    ensures { result ≡ word bytes.now i }
{
    let high = byte_at(bytes, i);
    let low = byte_at(bytes, i + 1);
    u16::from(high) * 256 + u16::from(low)
}

// 1: whether there are at least 7 bytes, and as many as the first four say.
#[tactic(auto, unfolding(crate::specs::LayoutShapes::length_ok, sheet_spec::specs::Spelling::length_field))]
fn length_ok(bytes: &[u8]) -> bool
    ensures { result ≡ length_ok bytes.now }
{
    let high = usize::from(word_at(bytes, 0));
    let low = usize::from(word_at(bytes, 2));
    bytes.len() >= 7 && high * 65536 + low + 4 == bytes.len()
}

// 2: whether the version is 1 or 2.
#[tactic(auto, unfolding(sheet_spec::specs::Rules::version_ok))]
fn version_ok(version: u8) -> bool
    ensures { result ≡ version_ok version }
{
    version == 1 || version == 2
}

// The refusals 1, 2 and 3, of the bytes up to N.
#[tactic(auto, unfolding(sheet_spec::specs::Refusals::head_fault, crate::specs::LayoutShapes::length_ok))]
pub(crate) fn head_fault(bytes: &[u8]) -> Result<(), Refusal>
    ensures { refusal_in result ≡ head_fault bytes.now }
{
    if !length_ok(bytes) {
        return Err(Refusal::Length);
    }
    if !version_ok(byte_at(bytes, 4)) {
        return Err(Refusal::Version);
    }
    if !sheet_rules::ranges_ok(byte_at(bytes, 5), byte_at(bytes, 6)) {
        return Err(Refusal::Ranges);
    }
    Ok(())
}

// Where the nodes begin: version 2 has two bytes for each event before them.
pub(crate) fn nodes_at(bytes: &[u8]) -> usize
    ensures { (result ≡ nodes_at bytes.now) × (result ≤ 517) }
{
    if byte_at(bytes, 4) == 2 {
        7 + usize::from(byte_at(bytes, 5)) * 2
    } else {
        7
    }
}

// Where the node after the one at a place begins.
pub(crate) fn next_at(bytes: &[u8], e: usize, at: usize) -> usize
    requires { (e ≤ 255) × (at < 500000) }
    ensures { (result ≡ next_at bytes.now e at) × (result ≤ at + 766) }
{
    let c = usize::from(byte_at(bytes, at + e));
    at + e + 1 + c * 2
}

// The refusals 4 and 5, by position in one walk over the nodes from the front.
pub(crate) fn layout_fault(bytes: &[u8], e: u8, n: u8) -> Result<(), Refusal>
    ensures { refusal_in result ≡ layout_fault bytes.now e n (nodes_at bytes.now) }
{
    let width = e as usize;
    let mut at = nodes_at(bytes);
    for v in 0..n {
        let place = at + width;
        if place >= bytes.len() {
            return Err(Refusal::Bytes);
        }
        if !sheet_rules::count_ok(byte_at(bytes, place)) {
            return Err(Refusal::Count);
        }
        at = next_at(bytes, width, at);
        if at > bytes.len() {
            return Err(Refusal::Bytes);
        }
    }
    if at != bytes.len() {
        return Err(Refusal::Bytes);
    }
    Ok(())
}
