// The queue of a breadth-first search over the pairs of nodes of two graphs that are given as flat tables of
// successors: one entry of the work list after another is taken, and the pairs that its events lead to become entries,
// until one is bad or none is left.
ghost use Rattle.std.specs.Prelude.{◌≡◌, false, cond, ◌+◌, ◌/◌, ◌%◌, ◌≤◌, ◌<◌, ltb, length, get_or, drop};
ghost use Rattle.search_theory.specs.Tables.{table_pairs, bad_code};
ghost use Rattle.search_theory.specs.Words.{words_for, st, node_at, scanned};
ghost use Rattle.search_theory.specs.Found.{Ended};
ghost use Rattle.search_theory.specs.Steps.{ScanOk, RunOk};

use super::entries;
use super::entries::Entry;

// Where a search ended: the entry at which it did and how many entries there are; and, where that entry is a bad one,
// its distance and how many are nearer.
#[derive(Clone, Copy)]
pub(crate) struct Stop {
    pub head: usize,
    pub tail: usize,
    pub distance: usize,
    pub nearer: usize,
}

// A level of the queue: the entries at one distance, from one place to another.
#[derive(Clone, Copy)]
struct Level {
    distance: usize,
    start: usize,
    end: usize,
}

// The level of the entry `head`, from that of the entry before it: the same or, where that has ended, the next one, up
// to `tail`.
fn level_at(level: Level, head: usize, tail: usize) -> Level
    requires { level.distance < 1024 }
    ensures { (result.distance ≡ cond (ltb head level.end) level.distance (level.distance + 1))
        × (result.start ≡ cond (ltb head level.end) level.start level.end)
        × (result.end ≡ cond (ltb head level.end) level.end tail) }
{
    if head < level.end {
        return level;
    }
    Level {
        distance: level.distance + 1,
        start: level.end,
        end: tail,
    }
}

// x / q, for x below 1,024 and q up to 32, as a product. Where each entry is the first that leads to the next, the
// search waits for x / q at every entry; nothing waits for 65,536 / q, which is the same for all.
fn quotient(x: usize, q: usize) -> usize
    requires { (x < 1024) × (1 ≤ q) × (q ≤ 32) }
    ensures { result ≡ x / q }
{
    x * (65536 / q + 1) / 65536
}

// The entry at a place: its pair, taken apart.
fn entry_at(work: &[u16], q: usize, place: usize) -> Entry
    requires { (place < length work.now) × (node_at work.now place < 1024) × (1 ≤ q) × (q ≤ 32) }
    ensures { (result.place ≡ place) × (result.reference ≡ node_at work.now place / q)
        × (result.device ≡ node_at work.now place % q) }
{
    let node = entries::node_at(work, place);
    let reference = quotient(node, q);
    Entry {
        place,
        reference,
        device: node - reference * q,
    }
}

// Tries all events of the entry at a place.
fn scan(
    a: &[u8; 384],
    b: &[u8; 384],
    p: usize,
    q: usize,
    e: usize,
    work: &mut [u16],
    n: usize,
    tail: usize,
    place: usize,
) -> usize
    requires { ScanOk a.now b.now p q e n place (st tail work.old) }
    ensures { st result work.new ≡ scanned (table_pairs a.now b.now p q e) place
        (node_at work.old place) e (st tail work.old) }
{
    let at = entry_at(work, q, place);
    let mut t = tail;
    for k in 0..e {
        t = entries::try_event(a, b, p, q, e, work, n, t, at, k);
    }
    t
}

// Whether the pair of an entry is bad.
fn is_bad(bad: &[bool; 1024], work: &[u16], place: usize) -> bool
    requires { (place < length work.now) × (node_at work.now place < 1024) }
    ensures { result ≡ get_or bad.now (node_at work.now place) false }
{
    let node = entries::node_at(work, place);
    bad[node]
}

// The search from the start: it takes one entry after another and stops at the first bad one.
pub(crate) fn explore(
    a: &[u8; 384],
    b: &[u8; 384],
    p: usize,
    q: usize,
    e: usize,
    bad: &[bool; 1024],
    work: &mut [u16],
    n: usize,
) -> Stop
    requires { RunOk p q e n work.old }
    ensures { Ended (table_pairs a.now b.now p q e) (bad_code bad.now q)
        result.head result.distance result.nearer (st result.tail work.new)
        × (drop (words_for n) work.new ≡ drop (words_for n) work.old) }
{
    let mut t = entries::visit(work, n, 0, 0, 1);
    let mut h = 0;
    let mut level = Level {
        distance: 0,
        start: 0,
        end: 1,
    };
    while h < t {
        if is_bad(bad, work, h) {
            return Stop {
                head: h,
                tail: t,
                distance: level.distance,
                nearer: level.start,
            };
        }
        t = scan(a, b, p, q, e, work, n, t, h);
        h += 1;
        level = level_at(level, h, t);
    }
    Stop {
        head: h,
        tail: t,
        distance: level.distance,
        nearer: level.start,
    }
}
