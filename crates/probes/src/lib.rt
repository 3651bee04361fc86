// The probes of a node (01, "Probes"): its minimal hitting sets, listed, those with fewer events first (02, K3), and
// looked through for the first that a device's acceptances miss. `list` takes any sheet, node and list; the others take
// any acceptances, and E up to 12.
#![tactic(auto)]

mod candidates;
mod several;
mod sizes;

ghost use Rattle.std.specs.Prelude.{◌≡◌, ◌<◌, ◌≤◌, ◌↔◌, Ok, Err, if◌then◌else◌, leb, length};
ghost use Rattle.base.specs.Front.{at_front};
ghost use Rattle.refusals.specs.Numbers.{numbered};
ghost use Rattle.refusals.specs.declared.Refusal.TheVariants.{ShortList};
ghost use Rattle.probes_spec.specs.Probes.{probes};
ghost use Rattle.probes_spec.specs.Shapes.{probes_by_number};
ghost use Rattle.probes_spec.specs.FirstMissed.{first_missing, first_missed, missed_numbers, NoneMissed};
ghost use Rattle.probes_spec.specs.Listing.{list_fault, list_count, listed_numbers, listed_of, list_after};
ghost use Rattle.probes_spec.specs.Nodes.{node_set_ok, nodes_fault, nodes_count, nodes_listed, nodes_list_after};

use probes_spec::{Listed, Missed};
use refusals::Refusal;
use sheet_spec::Sheet;

// ---- all probes

// Writes the probes by their number to the front of a list that is long enough, and answers how many they are.
fn find(sets: &[u16], e: usize, out: &mut [u16]) -> usize
    requires { (e ≤ 12) × (length (probes_by_number sets.now e) ≤ length out.old) }
    ensures { (out.new ≡ at_front out.old (probes_by_number sets.now e))
        × (result ≡ length (probes_by_number sets.now e)) }
{
    let mut found = 0;
    for x in 0..candidates::set_count(e) {
        if candidates::is_probe(sets, x) {
            out[found] = x;
            found += 1;
        }
    }
    found
}

// Writes the probes to the front of a list that is long enough, and answers how many they are. (Its local list stays
// out of the frames of its callers, which would hold it in every call.)
#[inline(never)]
#[tactic(auto, using(crate::proofs::Lists::found_most, probes_spec::proofs::ShapeLaws::found_count))]
pub fn fill(sets: &[u16], e: usize, out: &mut [u16]) -> usize
    requires { (e ≤ 12) × (length (probes sets.now e) ≤ length out.old) }
    ensures { (out.new ≡ at_front out.old (probes sets.now e))
        × (result ≡ length (probes sets.now e)) }
{
    let mut found = [0; 4096];
    let m = find(sets, e, &mut found);
    sizes::put_by_size(&found[..m], e, out);
    m
}

// Writes the probes to the front of the lent list and answers how many there are; or refuses a list shorter than the
// probes, and the list is as it was. (It stays out of the frames of its callers as `fill` does.)
#[inline(never)]
#[tactic(auto, using(crate::proofs::Lists::found_most, probes_spec::proofs::ShapeLaws::found_count))]
fn list_sets(sets: &[u16], e: usize, out: &mut [u16]) -> Listed
    requires { e ≤ 12 }
    ensures { let few = leb (length (probes sets.now e)) (length out.old) in
        (result ≡ (if few then Ok (length (probes sets.now e)) else Err ShortList))
        × (out.new ≡ (if few then at_front out.old (probes sets.now e) else out.old)) }
{
    let mut found = [0; 4096];
    let m = find(sets, e, &mut found);
    if out.len() < m {
        return Err(Refusal::ShortList);
    }
    sizes::put_by_size(&found[..m], e, out);
    Ok(m as u16)
}

// Writes the probes of a node to the front of the lent list and answers how many there are; or refuses, and the list is
// as it was: the sheet's own refusal; a node that is not below N; a list shorter than the probes.
#[tactic(auto, unfolding(probes_spec::specs::Listing::list_fault, probes_spec::specs::Listing::listed_of, probes_spec::specs::Listing::list_after, probes_spec::specs::Listing::list_count, probes_spec::specs::Listing::listed_numbers), using(crate::proofs::Lists::sheet_nodes, crate::proofs::Lists::sheet_events, crate::proofs::Lists::node_count_lem))]
pub fn list(sheet: Sheet, node: u8, out: &mut [u16]) -> Listed
    ensures { (numbered result ≡ listed_of sheet node out.old)
        × (listed_numbers (numbered result) ≡ (list_fault sheet node out.old, list_count sheet node out.old))
        × (out.new ≡ list_after sheet node out.old) }
{
    sheet::check(sheet)?;
    if node >= sheet.n {
        return Err(Refusal::Node);
    }
    let row = sheet.rows[usize::from(node)];
    list_sets(&row.sets[..usize::from(row.c)], usize::from(sheet.e), out)
}

// ---- several nodes

// Whether a set of nodes is not empty, and has only nodes below `n`.
fn is_named(nodes: u32, n: usize) -> bool
    requires { n ≤ 32 }
    ensures { result ≡ node_set_ok n nodes }
{
    nodes != 0 && u64::from(nodes) < 1 << n
}

// Writes the probes for the nodes of a set, each set of events that is minimal among those that no node of it may
// refuse, to the front of the lent list and answers how many there are; or refuses, and the list is as it was: the
// sheet's own refusal; a set that is empty or names a node not on the sheet; a list shorter than the probes.
#[tactic(auto, unfolding(probes_spec::specs::Nodes::nodes_fault, probes_spec::specs::Nodes::nodes_listed, probes_spec::specs::Nodes::nodes_list_after, probes_spec::specs::Nodes::nodes_count, probes_spec::specs::Listing::listed_numbers), using(crate::proofs::Lists::sheet_nodes, crate::proofs::Lists::sheet_events, crate::proofs::several::Gathered::gathered_probes))]
pub fn list_nodes(sheet: Sheet, nodes: u32, out: &mut [u16]) -> Listed
    ensures { (numbered result ≡ nodes_listed sheet nodes out.old)
        × (listed_numbers (numbered result) ≡ (nodes_fault sheet nodes out.old, nodes_count sheet nodes out.old))
        × (out.new ≡ nodes_list_after sheet nodes out.old) }
{
    sheet::check(sheet)?;
    if !is_named(nodes, usize::from(sheet.n)) {
        return Err(Refusal::Nodes);
    }
    let mut sets = [0; 512];
    let count = several::gather(sheet, nodes, &mut sets);
    list_sets(&sets[..count], usize::from(sheet.e), out)
}

// ---- a comparison

// The first set of a list that some acceptance misses, with the first such acceptance.
fn first_missing(list: &[u16], device: &[u16]) -> Option<Missed>
    ensures { result ≡ first_missing list.now device.now }
{
    let mut missed = None;
    'probes: for probe in list {
        for acceptance in device {
            if probe & acceptance == 0 {
                missed = Some(Missed {
                    probe: *probe,
                    acceptance: *acceptance,
                });
                break 'probes;
            }
        }
    }
    missed
}

// The first probe of the reference that some device acceptance misses, with the first such acceptance.
#[tactic(auto, using(probes_spec::proofs::ProbeLaws::probes_most))]
pub fn first_missed(sets: &[u16], e: usize, device: &[u16]) -> Option<Missed>
    requires { e ≤ 12 }
    ensures { (result ≡ first_missed sets.now e device.now)
        × (((missed_numbers result).found ≡ 0) ↔ NoneMissed (probes sets.now e) device.now) }
{
    let mut list = [0; 4096];
    let m = fill(sets, e, &mut list);
    first_missing(&list[..m], device)
}
