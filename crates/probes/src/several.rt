// The acceptances of several nodes (02, K10), in one list, node after node.
ghost use Rattle.std.specs.Prelude.{◌≡◌, ◌+◌, ◌<◌, ◌≤◌, [], ◌++◌, length, take, if◌then◌else◌};
ghost use Rattle.base.specs.Front.{at_front};
ghost use Rattle.events.specs.Sets.{has};
ghost use Rattle.sheet_spec.specs.Kept.{acceptances};
ghost use Rattle.sheet_spec.specs.Refusals.{sheet_fault};
ghost use Rattle.probes_spec.specs.Nodes.{set_acceptances};

use sheet_spec::{Row, Sheet};

// Writes sets from place `at` of a list on, and answers the place after them.
fn put_sets(sets: &[u16], out: &mut [u16], at: usize) -> usize
    requires { at + length sets.now ≤ length out.old }
    ensures { (out.new
        ≡ at_front out.old (take at out.old ++ sets.now))
        × (result ≡ at + length sets.now) }
{
    let end = at + sets.len();
    out[at..end].copy_from_slice(sets);
    end
}

// Writes the acceptances of node `v`, if it is one of the nodes, from place `at` of a list on, and answers the place
// after them.
fn put_node(row: Row, nodes: u32, v: usize, out: &mut [u16], at: usize) -> usize
    requires { (v < 32) × (row.c ≤ 16) × (at + 16 ≤ length out.old) }
    ensures { (out.new
        ≡ at_front out.old (take at out.old ++ (if has nodes v then acceptances row else [])))
        × (result ≡ at + length (if has nodes v then acceptances row else [])) }
{
    if nodes::has_node(nodes, v) {
        put_sets(&row.sets[..usize::from(row.c)], out, at)
    } else {
        at
    }
}

// Writes the acceptances of the nodes to the front of a list of 512 places or more, and answers how many they are.
#[tactic(auto, using(crate::proofs::Lists::sheet_nodes, crate::proofs::Lists::node_count_lem, crate::proofs::several::Gathered::of_room))]
pub(crate) fn gather(sheet: Sheet, nodes: u32, out: &mut [u16]) -> usize
    requires { (sheet_fault sheet ≡ 0) × (512 ≤ length out.old) }
    ensures { (out.new ≡ at_front out.old (set_acceptances sheet nodes))
        × (result ≡ length (set_acceptances sheet nodes)) }
{
    let mut at = 0;
    for v in 0..usize::from(sheet.n) {
        at = put_node(sheet.rows[v], nodes, v, out, at);
    }
    at
}
