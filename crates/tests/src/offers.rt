// What a run offers at a node (01, "Test k and a live run"): all events below depth k, and at depth k the chosen probe
// and the events outside the node's initials; in a trace-only run all events at every depth.
ghost use Rattle.std.specs.Prelude.{◌≡◌, ◌≤◌, ◌<◌};
ghost use Rattle.probes_spec.specs.Probes.{probes};
ghost use Rattle.sheet_spec.specs.Kept.{acceptances};
ghost use Rattle.sheet_spec.specs.Refusals.{sheet_fault};
ghost use Rattle.tests_spec.specs.Runs.{all_events, chosen, offer_of};

use sheet_spec::{Row, Sheet};
use tests_spec::Run;

// All `e` events, as a set.
fn all_events(e: usize) -> u16
    requires { e ≤ 12 }
    ensures { result ≡ all_events e }
{
    (1 << e) - 1
}

// Probe number (h remainder m) of the m probes of a node with this row, the empty set where there is none. (Its local
// list stays out of the frames of its callers, which would hold it in every call.)
#[inline(never)]
#[tactic(auto, using(probes_spec::proofs::ProbeLaws::probes_most))]
fn chosen_probe(row: Row, e: usize, h: u16) -> u16
    requires { (row.c ≤ 16) × (e ≤ 12) }
    ensures { result ≡ chosen (probes (acceptances row) e) h }
{
    let mut found = [0; 4096];
    let m = probes::fill(&row.sets[..usize::from(row.c)], e, &mut found);
    if m == 0 { 0 } else { found[usize::from(h) % m] }
}

// What a run offers at its node: all events, or the chosen probe and the events outside the initials.
#[tactic(auto, unfolding(tests_spec::specs::Runs::offer_of, tests_spec::specs::Runs::outside, tests_spec::specs::Runs::probes_at, tests_spec::specs::Flags::flag), using(probes::proofs::Lists::sheet_nodes, probes::proofs::Lists::sheet_events, probes::proofs::Lists::node_count_lem, crate::proofs::offers::Offers::inside))]
pub(crate) fn offer(sheet: &Sheet, run: Run) -> u16
    requires { (sheet_fault sheet.now ≡ 0) × (run.node < sheet.now.n) }
    ensures { result ≡ offer_of sheet.now run }
{
    let e = usize::from(sheet.e);
    let all = all_events(e);
    if run.trace_only != 0 || run.depth < run.k {
        return all;
    }
    let row = sheet.rows[usize::from(run.node)];
    let probe = chosen_probe(row, e, run.h);
    probe | (all - sheet_rows::initials_of(row, e))
}
