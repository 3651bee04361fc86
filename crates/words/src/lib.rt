// Numbers from words: the number that some digits write in base ten, if they are few enough and it is not too large;
// and whether a word is one that a program knows.
#![tactic(auto)]

ghost use Rattle.std.specs.Prelude.{◌≡◌, ◌+◌, ◌≤◌, unwrap_or};
ghost use Rattle.text_spec.specs.Lines.{value_from};
ghost use Rattle.words_spec.specs.Same.{same_text};
ghost use Rattle.words_spec.specs.Numbers.{all_digits, few_digits, number_in, number_of, Digits};

// Whether every byte is the code of a digit.
fn all_digits(bytes: &[u8]) -> bool
    ensures { result ≡ all_digits bytes.now }
{
    bytes.iter().all(u8::is_ascii_digit)
}

// Whether these bytes are one to `most` digits.
#[tactic(auto, unfolding(words_spec::specs::Numbers::few_digits))]
fn few_digits(bytes: &[u8], most: usize) -> bool
    ensures { result ≡ few_digits most bytes.now }
{
    !bytes.is_empty() && bytes.len() <= most && all_digits(bytes)
}

// The number that at most ten digits write.
fn value(bytes: &[u8]) -> u64
    requires { Digits 10 bytes.now }
    ensures { result ≡ value_from 0 bytes.now }
{
    let mut v = 0;
    for b in bytes {
        v = v * 10 + u64::from(b - b'0');
    }
    v
}

// The number that one to `most` digits write, if it is not above `top`.
#[tactic(auto, using(crate::proofs::Parts::few_ten), unfolding(words_spec::specs::Numbers::number_in))]
pub fn number_in(bytes: &[u8], most: usize, top: u32) -> Option<u32>
    requires { most ≤ 10 }
    ensures number { unwrap_or result (top + 1) ≡ number_in most top bytes.now }
    ensures within { unwrap_or result top ≤ top }
{
    if !few_digits(bytes, most) {
        return None;
    }
    let v = value(bytes);
    if v > u64::from(top) {
        return None;
    }
    Some(v as u32)
}

// The number that a word is, if it is one.
#[tactic(auto, unfolding(words_spec::specs::Numbers::number_of))]
pub fn number_of(bytes: &[u8]) -> Option<u16>
    ensures { unwrap_or result 65536 ≡ number_of bytes.now }
{
    number_in(bytes, 5, 65535).map(|n| n as u16)
}

// Whether two texts are the same.
#[tactic(auto, using(crate::proofs::Same::same_decided))]
pub fn same_text(a: &[u8], b: &[u8]) -> bool
    ensures { result ≡ same_text a.now b.now }
{
    a == b
}
