// When a pair of nodes is violating: what the device does or may refuse at its node and the reference does not at its
// own. Every public function takes every row.
#![tactic(auto)]

ghost use Rattle.std.specs.Prelude.{◌≡◌};
ghost use Rattle.refinement_spec.specs.ViolatingPairs.{strays, has_refusal};
ghost use Rattle.refinement.specs.Shapes.{covering, refusing, violates_by};

use sheet_spec::Row;

// The events of the device's initials that are not among the reference's.
#[tactic(auto, unfolding(refinement_spec::specs::ViolatingPairs::strays))]
pub fn stray_events(reference: u16, device: u16) -> u16
    ensures { result ≡ strays reference device }
{
    device - (reference & device)
}

// Whether a set includes one of some sets; they are lent, so that a call for each acceptance copies no row.
fn is_covering(sets: &[u16], set: u16) -> bool
    ensures { result ≡ covering sets.now set }
{
    for &x in sets {
        if events::is_inside(x, set) {
            return true;
        }
    }
    false
}

// Whether one of the others includes none of the sets.
fn is_refusing(sets: &[u16], others: &[u16]) -> bool
    ensures { result ≡ refusing sets.now others.now }
{
    for &x in others {
        if !is_covering(sets, x) {
            return true;
        }
    }
    false
}

// Whether some acceptance of the device includes none of the reference's. A place from 16 on holds the empty set: every
// set includes it, and it includes no other. (The sets are copied out first: lent inside their rows they are read more
// slowly.)
#[tactic(auto, using(crate::proofs::Refusals::reference_over, crate::proofs::Refusals::device_over, crate::proofs::Refusals::covering_is, crate::proofs::Refusals::refusing_is))]
pub fn has_refusal(reference: Row, device: Row) -> bool
    ensures { result ≡ has_refusal reference device }
{
    let c = usize::from(reference.c);
    let d = usize::from(device.c);
    let sets = reference.sets;
    let others = device.sets;
    if c > 16 {
        return false;
    }
    if d > 16 {
        return !is_covering(&sets[..c], 0);
    }
    is_refusing(&sets[..c], &others[..d])
}

// Whether a pair of rows is violating, by the initials `x` of the reference and `y` of the device; with traces alone
// only strays count.
#[tactic(auto, unfolding(crate::specs::Shapes::violates_by))]
pub fn is_violating(x: u16, y: u16, reference: Row, device: Row, trace_only: bool) -> bool
    ensures { result ≡ violates_by trace_only x y reference device }
{
    stray_events(x, y) != 0 || (!trace_only && has_refusal(reference, device))
}
