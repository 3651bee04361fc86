// How many key scripts of a length go where (02, K2). `count` takes any two sheets and any length: it answers the three
// counts, or why it refuses. The successors are laid out in flat tables once; the counts of all pairs of
// nodes for one event more are worked from those for one event fewer, and no script is enumerated.
#![tactic(auto)]

mod tables;

ghost use Rattle.std.specs.Prelude.{◌≡◌, ◌≤◌, ◌<◌};
ghost use Rattle.refusals.specs.Numbers.{refusal_in};
ghost use Rattle.sheet_spec.specs.Kept.{sheet_with};
ghost use Rattle.scripts_spec.specs.Scripts.{scripts_fault, scripts_of, counted};
ghost use Rattle.scripts.specs.Shapes.{counts_from};

use refusals::Refusal;
use scripts_spec::Counts;
use sheet_spec::{Row, Sheet};

// Why a call is refused, if it is: the reference's own, the device's own; 11, E differs; 19, a code differs; 20, a
// length above 16.
fn fault_on(reference: Sheet, device: Sheet, length: u16) -> Result<(), Refusal>
    ensures { refusal_in result ≡ scripts_fault reference device length }
{
    sheet::check_pair(reference, device)?;
    if length > 16 {
        return Err(Refusal::ScriptLength);
    }
    Ok(())
}

// The counts of scripts of `length` events, from the pair of the two first nodes on.
fn count_rows(
    mine: [Row; 32],
    p: usize,
    theirs: [Row; 32],
    q: usize,
    e: usize,
    length: usize,
) -> Counts
    requires { (0 < p) × (p ≤ 32) × (0 < q) × (q ≤ 32) × (e ≤ 12) × (length ≤ 16) }
    ensures { result ≡ counts_from (sheet_with mine e p) (sheet_with theirs e q) length 0 0 }
{
    let a = sheet_rows::flat(mine);
    let b = sheet_rows::flat(theirs);
    let mut from = [0u64; 3078];
    let mut to = [0u64; 3078];
    let mut out = [0u64; 3];
    tables::start(&mut from, p, q);
    tables::advance(&a, &b, p, q, e, 0, length, 1, &mut from, &mut to, &mut out);
    Counts {
        walked: out[0],
        device: out[1],
        reference: out[2],
    }
}

// Counts the scripts of `length` events by what becomes of them: both sheets walk them to the end; they stop first at an
// event that the device cannot do; or at one that the device can do and the reference cannot. Or answers why it refuses.
pub fn count(reference: Sheet, device: Sheet, length: u16) -> Result<Counts, Refusal>
    ensures { counted result ≡ scripts_of reference device length }
{
    fault_on(reference, device, length)?;
    let e = usize::from(reference.e);
    let p = usize::from(reference.n);
    let q = usize::from(device.n);
    Ok(count_rows(reference.rows, p, device.rows, q, e, usize::from(length)))
}
