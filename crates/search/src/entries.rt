// The entries of a search's work list: they are read, and the pair that an event of one leads to becomes a new one.
// With n pairs the work list has n words for the queue of the pairs reached and n for each pair's link: 0 while it has
// not been reached, 1 at the start, else 16 times the entry that led to it, the event, and 2 (16 is above every event,
// and a link is taken apart by shifts). No word has a pair's distance: the queue counts its levels.
ghost use Rattle.std.specs.Prelude.{◌≡◌, ◌+◌, ◌*◌, ◌<◌, length};
ghost use Rattle.search_theory.specs.Tables.{table_pairs};
ghost use Rattle.search_theory.specs.Words.{st, node_at, visited, tried, VisitOk};
ghost use Rattle.search_theory.specs.Steps.{StepOk};

// An entry of the queue: its place and its two nodes.
#[derive(Clone, Copy)]
pub(crate) struct Entry {
    pub place: usize,
    pub reference: usize,
    pub device: usize,
}

// The pair of an entry.
#[tactic(auto, unfolding(search_theory::specs::Words::node_at))]
pub(crate) fn node_at(work: &[u16], place: usize) -> usize
    requires { place < length work.now }
    ensures { result ≡ node_at work.now place }
{
    usize::from(work[place])
}

// Makes a pair the last entry, unless it is an entry; the new number of entries.
pub(crate) fn visit(work: &mut [u16], n: usize, tail: usize, node: usize, link: usize) -> usize
    requires { VisitOk n node (st tail work.old) × (link < 65536) }
    ensures { st result work.new ≡ visited n node link (st tail work.old) }
{
    if work[n + node] == 0 {
        work[n + node] = link as u16;
        work[tail] = node as u16;
        tail + 1
    } else {
        tail
    }
}

// Tries event k of an entry: the pair that it leads to, if both graphs have a successor, becomes an entry unless it is
// one.
pub(crate) fn try_event(
    a: &[u8; 384],
    b: &[u8; 384],
    p: usize,
    q: usize,
    e: usize,
    work: &mut [u16],
    n: usize,
    tail: usize,
    at: Entry,
    k: usize,
) -> usize
    requires { StepOk a.now b.now p q e n at.place at.reference at.device k (st tail work.old) }
    ensures { st result work.new ≡ tried (table_pairs a.now b.now p q e) at.place
        (at.reference * q + at.device) k (st tail work.old) }
{
    let r = usize::from(a[at.reference * 12 + k]);
    if r < p {
        let d = usize::from(b[at.device * 12 + k]);
        if d < q {
            return visit(work, n, tail, r * q + d, at.place * 16 + k + 2);
        }
    }
    tail
}
