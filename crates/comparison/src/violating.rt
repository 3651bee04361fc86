// The violating pairs of two sheets, laid out once in a flat table that the search of a comparison reads.
ghost use Rattle.std.specs.Prelude.{◌≡◌};
ghost use Rattle.sheet_spec.specs.Refusals.{sheet_fault};
ghost use Rattle.comparison.specs.ViolatingTable.{violating_table};

use sheet_spec::Sheet;

// The violating pairs: with q nodes in the device, the pair (v, w) stands at place q v + w.
#[tactic(auto, using(crate::proofs::violating::Pairs::places))]
pub(crate) fn table(reference: Sheet, device: Sheet, trace_only: bool) -> [bool; 1024]
    requires { (sheet_fault reference ≡ 0) × (sheet_fault device ≡ 0) }
    ensures { result ≡ violating_table trace_only reference device }
{
    let e = usize::from(reference.e);
    let q = usize::from(device.n);
    let n = usize::from(reference.n) * q;
    let xs = sheet_rows::all_initials(reference.rows, e);
    let ys = sheet_rows::all_initials(device.rows, e);
    let mut table = [false; 1024];
    for k in 0..n {
        let v = k / q;
        let w = k % q;
        let a = reference.rows[v];
        let b = device.rows[w];
        table[k] = refinement::is_violating(xs[v], ys[w], a, b, trace_only);
    }
    table
}
