// A breadth-first search over the pairs of nodes of two graphs that are given as flat tables of successors, for the
// nearest pair of a given table of bad ones, in a lent work list (module `entries`).
#![tactic(auto)]

mod entries;
mod queue;
mod trace_back;

ghost use Rattle.std.specs.Prelude.{◌≡◌, ◌≤◌, length, drop, replicate};
ghost use Rattle.search_theory.specs.Words.{words_for};
ghost use Rattle.search_theory.specs.Found.{settled, read_out, Searched};
ghost use Rattle.search_theory.specs.Read.{SettleOk, SearchOk};

use queue::Stop;
use search_theory::Found;

// The answer where a search ended, with its trace. Links may then stand in the places of the queue.
fn settle(q: usize, work: &mut [u16], n: usize, stop: Stop, trace: &mut [u8]) -> Found
    requires { (1 ≤ q) × SettleOk n work.old stop.head stop.tail stop.distance trace.old }
    ensures { (result ≡ settled q work.old stop.head stop.tail stop.distance stop.nearer)
        × (trace.new
        ≡ read_out n work.old stop.head stop.tail stop.distance trace.old)
        × (drop (words_for n) work.new ≡ drop (words_for n) work.old) }
{
    if stop.head < stop.tail {
        let node = entries::node_at(work, stop.head);
        trace_back::write_trace(work, n, stop.head, stop.distance, trace);
        return Found::Bad {
            distance: stop.distance,
            reference: node / q,
            device: node % q,
            cleared: stop.nearer,
        };
    }
    Found::Clear { cleared: stop.tail }
}

// Sets every word of a list to 0.
fn clear(words: &mut [u16])
    ensures { words.new ≡ replicate (length words.old) 0 }
{
    words.fill(0);
}

// Searches the pairs that common traces of two graphs reach for the nearest bad one. Node v's successor on event i
// stands at 12 v + i of its table, a number that is no node stands for none; whether the pair (v, w) is bad stands at
// q v + w. Of the search's 2 p q words in the work list the links are set to 0 before, and all of them at the end;
// later words are left.
pub fn search(
    reference: &[u8; 384],
    device: &[u8; 384],
    p: usize,
    q: usize,
    e: usize,
    bad: &[bool; 1024],
    work: &mut [u16],
    trace: &mut [u8],
) -> Found
    requires { SearchOk p q e work.old trace.old }
    ensures { Searched reference.now device.now p q e bad.now
        work.old trace.old work.new trace.new result }
{
    let n = p * q;
    let words = 2 * n;
    clear(&mut work[n..words]);
    let stop = queue::explore(reference, device, p, q, e, bad, work, n);
    let found = settle(q, work, n, stop, trace);
    clear(&mut work[..words]);
    found
}
