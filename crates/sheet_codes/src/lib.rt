// The catalogue codes of events (02, K1): all that is tested of them, over lent lists. A code may be any number. The
// proofs do not know that a lent list has twelve places, so the tests of the first `e` events ask for an E up to 12.
#![tactic(auto)]

ghost use Rattle.std.specs.Prelude.{◌≡◌, ◌||◌, ◌≤◌, ◌<◌, eqb, ltb};
ghost use Rattle.refusals.specs.Numbers.{refusal_in};
ghost use Rattle.sheet_spec.specs.Kept.{code_at};
ghost use Rattle.sheet_spec.specs.Rules.{code_new, codes_ok, codes_blank, codes_agree, first_codes_ok};
ghost use Rattle.sheet_spec.specs.Refusals.{shared_fault};

use refusals::Refusal;

// 18: whether no event before event `j` has its code.
fn is_new(codes: &[u16; 12], j: usize) -> bool
    requires { j < 12 }
    ensures { result ≡ code_new codes.now j }
{
    let code = codes[j];
    (0..j).all(|i| codes[i] != code)
}

// 18: whether no two of the first `e` events have one code.
pub fn is_distinct(codes: &[u16; 12], e: u8) -> bool
    requires { e ≤ 12 }
    ensures { result ≡ codes_ok e codes.now }
{
    (0..usize::from(e)).all(|j| is_new(codes, j))
}

// 7: whether the codes from event `e` on hold 0.
pub fn is_blank_from(codes: &[u16; 12], e: u8) -> bool
    ensures { result ≡ codes_blank e codes.now }
{
    (0..12).all(|i| i < usize::from(e) || codes[i] == 0)
}

// 19: whether each of the first `e` events has one code in both lists.
fn agree(codes: &[u16; 12], others: &[u16; 12], e: u8) -> bool
    requires { e ≤ 12 }
    ensures { result ≡ codes_agree e codes.now others.now }
{
    (0..usize::from(e)).all(|i| codes[i] == others[i])
}

// The refusal of what two sheets must share, of the E and the codes of each: 11: E differs; 19: an event has another
// code.
#[tactic(auto, unfolding(sheet_spec::specs::Refusals::shared_fault))]
pub fn shared_fault(e: u8, codes: &[u16; 12], other: u8, others: &[u16; 12]) -> Result<(), Refusal>
    requires { e ≤ 12 }
    ensures { refusal_in result ≡ shared_fault e codes.now other others.now }
{
    if e != other {
        return Err(Refusal::Events);
    }
    if !agree(codes, others, e) {
        return Err(Refusal::CodesDiffer);
    }
    Ok(())
}

// Whether each of the first `e` events has its code of version 1: i + 1 for event i.
pub fn is_first(codes: &[u16; 12], e: u8) -> bool
    requires { e ≤ 12 }
    ensures { result ≡ first_codes_ok e codes.now }
{
    (0..usize::from(e)).all(|i| usize::from(codes[i]) == i + 1)
}
