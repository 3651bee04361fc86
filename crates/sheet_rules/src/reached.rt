// Whether every node of a sheet is reached from node 0 (01, rule 8): sets of nodes as 32-bit numbers, round by round.
ghost use Rattle.std.specs.Prelude.{◌≡◌, ◌≤◌, ◌<◌};
ghost use Rattle.base.specs.Table.{up_to};
ghost use Rattle.sheet_spec.specs.Rules.{reached_ok};
ghost use Rattle.sheet_rules.specs.ReachShapes.{targets_of, with_targets, grown, rounds};

use super::rows;
use sheet_spec::Sheet;
use std::array;

// For each node the set of nodes to which one event leads.
fn targets(s: &Sheet) -> [u32; 32]
    ensures { result ≡ up_to (targets_of s.now) 32 }
{
    let e = usize::from(s.e);
    array::from_fn(|v| rows::targets_of(s.rows[v], e))
}

// The nodes of `set` join `next`, if node `u` is among those seen.
fn join(next: u32, seen: u32, u: usize, set: u32) -> u32
    requires { u < 32 }
    ensures { result ≡ with_targets next seen u set }
{
    if nodes::has_node(seen, u) {
        next | set
    } else {
        next
    }
}

// One round: node 0, and all nodes to which one event leads from a node that was seen.
fn grow(sets: [u32; 32], n: usize, seen: u32) -> u32
    requires { n ≤ 32 }
    ensures { result ≡ grown sets seen n }
{
    let mut next: u32 = 1;
    for u in 0..n {
        next = join(next, seen, u, sets[u]);
    }
    next
}

// The nodes that fewer than `n` events reach, round by round.
fn seen_after(sets: [u32; 32], n: usize) -> u32
    requires { n ≤ 32 }
    ensures { result ≡ rounds sets n n }
{
    let mut seen: u32 = 0;
    for k in 0..n {
        seen = grow(sets, n, seen);
    }
    seen
}

// 8: whether the rounds have seen every node.
pub(crate) fn reached_ok(s: &Sheet) -> bool
    requires { s.now.n ≤ 32 }
    ensures { result ≡ reached_ok s.now }
{
    let n = usize::from(s.n);
    let seen = seen_after(targets(s), n);
    (0..n).all(|v| nodes::has_node(seen, v))
}
