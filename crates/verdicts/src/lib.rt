// The verdict of a reference on a device: for one test, and for all tests from one pass over the layers of node pairs.
// The entry points, `judge` and `judge_all`, take any content and answer, or refuse.
#![tactic(auto)]

ghost use Rattle.std.specs.Prelude.{◌≡◌};
ghost use Rattle.refusals.specs.Numbers.{numbered};
ghost use Rattle.verdicts_spec.specs.Numbers.{judged, suited};
ghost use Rattle.verdicts_spec.specs.Verdicts.{verdict_fault, verdict_of};
ghost use Rattle.verdicts_spec.specs.Suites.{suite_fault, suite_of, verdicts_after};

use refusals::Refusal;
use sheet_spec::Sheet;
use verdicts_spec::Verdict;

// The verdict of a reference on a device for test `k`, or the refusal: the reference's own, the device's own; 11, E
// differs; 19, a code differs; 14, no test has this number.
pub fn judge(reference: Sheet, device: Sheet, k: u16, trace_only: bool) -> Result<Verdict, Refusal>
    ensures { (numbered result ≡ verdict_of trace_only reference device k)
        × ((judged (numbered result)).refusal ≡ verdict_fault reference device k) }
{
    sheet::check_pair(reference, device)?;
    if k > 1023 {
        return Err(Refusal::Test);
    }
    let e = usize::from(reference.e);
    let p = usize::from(reference.n);
    let q = usize::from(device.n);
    if verdicts_layers::is_failing(
        reference.rows,
        p,
        device.rows,
        q,
        e,
        usize::from(k),
        trace_only,
    ) {
        Ok(Verdict::Fails)
    } else {
        Ok(Verdict::Passes)
    }
}

// Judges tests 0 to p·q − 1: writes 11 for "passes" or 12 for "fails" for each from the front of the lent list, and
// answers how many there are; or the refusal, and the list is as it was: the reference's own, the device's own; 11, E
// differs; 19, a code differs; 10, a list shorter than the tests.
#[tactic(auto, using(crate::proofs::Pairs::sizes))]
pub fn judge_all(
    reference: Sheet,
    device: Sheet,
    trace_only: bool,
    out: &mut [u8],
) -> Result<u16, Refusal>
    ensures { (numbered result ≡ suite_of reference device out.old)
        × ((suited (numbered result)).refusal ≡ suite_fault reference device out.old)
        × (out.new ≡ verdicts_after trace_only reference device out.old) }
{
    sheet::check_pair(reference, device)?;
    let e = usize::from(reference.e);
    let p = usize::from(reference.n);
    let q = usize::from(device.n);
    let total = p * q;
    if out.len() < total {
        return Err(Refusal::ShortList);
    }
    verdicts_layers::failing_all(reference.rows, p, device.rows, q, e, trace_only, total, out);
    Ok(total as u16)
}
