// The refusal of a comparison's call (01, "Who can cause a refusal"): which one, or none.
ghost use Rattle.std.specs.Prelude.{◌≡◌};
ghost use Rattle.refusals.specs.Numbers.{refusal_in};
ghost use Rattle.comparison.specs.FaultOn.{fault_on};

use refusals::Refusal;
use sheet_spec::Sheet;

// The refusal of a comparison with a work list of so many words and a trace list of so many bytes: the reference's own;
// the device's own; 11, E differs; 19, a code differs; 12, too few words; 13, too few bytes.
#[tactic(auto, using(crate::proofs::faults::Faults::size_of))]
pub(crate) fn fault_on(
    reference: Sheet,
    device: Sheet,
    words: usize,
    places: usize,
) -> Result<(), Refusal>
    ensures { refusal_in result ≡ fault_on reference device words places }
{
    sheet::check_pair(reference, device)?;
    let n = usize::from(reference.n) * usize::from(device.n);
    if words < 2 * n {
        return Err(Refusal::WorkList);
    }
    if places < n - 1 {
        return Err(Refusal::TraceList);
    }
    Ok(())
}
