// The answer that follows from what the search of a comparison found: that the device refines the reference, or what is
// named at the violating pair (01, "A comparison").
ghost use Rattle.std.specs.Prelude.{◌≡◌, ◌≤◌};
ghost use Rattle.sheet_spec.specs.Refusals.{sheet_fault};
ghost use Rattle.comparison_spec.specs.Comparison.{named};
ghost use Rattle.comparison.specs.Told.{least_event, told, Fits};

use comparison_spec::Outcome;
use search_theory::Found;
use sheet_spec::{Row, Sheet};

// The smallest event of a set, if there is one.
fn first_event(set: u16) -> Option<u8>
    ensures { result ≡ least_event set }
{
    for i in 0..12u8 {
        if events::contains(set, usize::from(i)) {
            return Some(i);
        }
    }
    None
}

// The answer for a violation at a pair of rows: a stray before a refusal, the smallest; else the first probe that an
// acceptance of the device misses.
fn name(reference: Row, device: Row, e: usize, d: u16, cleared: u16) -> Outcome
    requires { (reference.c ≤ 16) × (e ≤ 12) × (device.c ≤ 16) }
    ensures { result ≡ named d cleared e reference device }
{
    let x = sheet_rows::initials_of(reference, e);
    let y = sheet_rows::initials_of(device, e);
    let strays = refinement::stray_events(x, y);
    if let Some(event) = first_event(strays) {
        return Outcome::Stray(d, cleared, event);
    }
    let c = usize::from(reference.c);
    let k = usize::from(device.c);
    match probes::first_missed(&reference.sets[..c], e, &device.sets[..k]) {
        Some(missed) => Outcome::Refusal(d, cleared, missed.probe, missed.acceptance),
        None => Outcome::Refusal(d, cleared, 0, 0),
    }
}

// The answer that follows from what the search found.
#[tactic(auto, using(crate::proofs::named::Tells::tells))]
pub(crate) fn tell(reference: Sheet, device: Sheet, found: Found) -> Outcome
    requires { (sheet_fault reference ≡ 0) × (sheet_fault device ≡ 0) × Fits reference device found }
    ensures { result ≡ told reference device found }
{
    match found {
        Found::Clear { cleared } => Outcome::Refines(cleared as u16),
        Found::Bad {
            distance,
            reference: v,
            device: w,
            cleared,
        } => {
            let e = usize::from(reference.e);
            let x = reference.rows[v];
            let y = device.rows[w];
            name(x, y, e, distance as u16, cleared as u16)
        }
    }
}
