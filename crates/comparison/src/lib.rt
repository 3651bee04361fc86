// The comparison of two sheets (01, "A comparison"). `compare` takes any two sheets and any two lists: it answers
// "refines", a violation with what is named, or the refusal, and says what the lists then hold. The
// successors and the violating pairs are laid out in flat tables once, and a search over these finds the nearest
// violating pair.
#![tactic(auto)]

mod faults;
mod named;
mod violating;

ghost use Rattle.std.specs.Prelude.{◌≡◌, Ok};
ghost use Rattle.refusals.specs.Numbers.{numbered};
ghost use Rattle.comparison_spec.specs.Comparison.{compare_fault};
ghost use Rattle.comparison_spec.specs.Contract.{Compares};

use comparison_spec::Outcome;
use refusals::Refusal;
use sheet_spec::Sheet;

// Compares two sheets in a call that is not refused.
fn compare_accepted(
    reference: Sheet,
    device: Sheet,
    trace_only: bool,
    work: &mut [u16],
    trace: &mut [u8],
) -> Outcome
    requires { compare_fault reference device work.old trace.old ≡ 0 }
    ensures { Compares trace_only reference device work.old trace.old
        work.new trace.new (Ok result) }
{
    let e = usize::from(reference.e);
    let p = usize::from(reference.n);
    let q = usize::from(device.n);
    let a = sheet_rows::flat(reference.rows);
    let b = sheet_rows::flat(device.rows);
    let bad = violating::table(reference, device, trace_only);
    let found = search::search(&a, &b, p, q, e, &bad, work, trace);
    named::tell(reference, device, found)
}

// Compares a device's sheet with a reference's, `trace_only` with traces alone. The work list is to have 2 p q words,
// which are 0 afterwards, the trace list p q - 1 bytes, which the trace fills from the front.
pub fn compare(
    reference: Sheet,
    device: Sheet,
    trace_only: bool,
    work: &mut [u16],
    trace: &mut [u8],
) -> Result<Outcome, Refusal>
    ensures { Compares trace_only reference device work.old trace.old
        work.new trace.new (numbered result) }
{
    faults::fault_on(reference, device, work.len(), trace.len())?;
    Ok(compare_accepted(reference, device, trace_only, work, trace))
}
