// The words and the lines that `live` is given: the words that ask for a test, and the reports of a device.
#![tactic(auto)]

ghost use Rattle.std.specs.Prelude.{◌≡◌, unwrap_or};
ghost use Rattle.live_lines_spec.specs.Words.{event_named, report_of, heard};
ghost use Rattle.live_lines_spec.specs.Words.{last_ok, no_test, asked_of};

use live_lines_spec::Asked;
use tests_spec::Report;

// An event that no sheet has.
const NO_EVENT: u8 = 255;

// Test 65,535, which is none: its opening is refused with 14.
const NO_TEST: Asked = Asked {
    k: 65535,
    h: 0,
    trace_only: false,
};

// The event that a text names, if it names one.
#[tactic(auto, unfolding(live_lines_spec::specs::Words::event_named), using(words::proofs::Same::same_bytes))]
fn event_named(words: &[u8]) -> Option<u8>
    ensures { unwrap_or result 255 ≡ event_named words.now }
{
    let number = words.strip_prefix(b"event ")?;
    words::number_in(number, 3, 254).map(|n| n as u8)
}

// The report that a text is; a text that is none is an event that no sheet has.
#[tactic(auto, unfolding(live_lines_spec::specs::Words::report_of))]
fn report_of(words: &[u8]) -> Report
    ensures { result ≡ report_of words.now }
{
    if words::same_text(words, b"blocked") {
        Report::Blocked
    } else {
        Report::Event(event_named(words).unwrap_or(NO_EVENT))
    }
}

// The report that a line is; one carriage return at its end does not count.
#[tactic(auto, unfolding(live_lines_spec::specs::Words::heard, live_lines_spec::specs::Words::counted_bytes), using(crate::proofs::Last::last_byte))]
pub fn heard(line: &[u8]) -> Report
    ensures { result ≡ heard line.now }
{
    report_of(line.strip_suffix(b"\r").unwrap_or(line))
}

// Whether the word after k and h, if there is one, is `traces`.
#[tactic(auto, unfolding(live_lines_spec::specs::Words::last_ok))]
fn last_ok(there: bool, word: &[u8]) -> bool
    ensures { result ≡ last_ok there word.now }
{
    !there || words::same_text(word, b"traces")
}

// The test that the words ask for, if they ask for one.
#[tactic(auto, unfolding(live_lines_spec::specs::Words::asked_of, live_lines_spec::specs::Words::words_ok))]
pub fn asked_of(k: &[u8], h: &[u8], there: bool, word: &[u8]) -> Option<Asked>
    ensures { unwrap_or result no_test ≡ asked_of k.now h.now there word.now }
{
    let k = words::number_of(k)?;
    let h = words::number_of(h)?;
    if !last_ok(there, word) {
        return None;
    }
    Some(Asked {
        k,
        h,
        trace_only: there,
    })
}

// The test that the words ask for; bad words ask for one that is none.
pub fn test_of(k: &[u8], h: &[u8], there: bool, word: &[u8]) -> Asked
    ensures { result ≡ asked_of k.now h.now there word.now }
{
    asked_of(k, h, there, word).unwrap_or(NO_TEST)
}
