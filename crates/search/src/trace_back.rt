// The trace to an entry of a search's work list: its events are read back from link to link, the last one first, and
// written in their order to the front of the trace list. The links are put in the places of their entries first, so
// that each names the place of the next.
ghost use Rattle.std.specs.Prelude.{◌≡◌, ◌++◌, ◌+◌, ◌≤◌, length, drop};
ghost use Rattle.search_theory.specs.Queue.{read_back};
ghost use Rattle.search_theory.specs.Words.{node_at, link_at};
ghost use Rattle.search_theory.specs.Read.{link_in, linked, front_of, LinksOk, BackOk, TraceOk};

// Puts the links of the first m entries in the entries' places.
fn put_links(work: &mut [u16], n: usize, m: usize)
    requires { LinksOk n work.old m }
    ensures { work.new ≡ linked n work.old m }
{
    for x in 0..m {
        let node = usize::from(work[x]);
        work[x] = work[n + node];
    }
}

// Writes the d events that lead to an entry to the front of a list, the last one first: it stands in the entry's link,
// and the others lead to the entry that the link names. (The links are lent by a reference to the list, and the events'
// list is of fixed size, so that the compiler makes a loop of it: a slice handed on costs a frame on the stack for each
// event.)
fn read_back(links: &&[u16], place: usize, d: usize, events: &mut [u8; 1024])
    requires { BackOk links.now.now place d × (length events.old ≡ 1024) }
    ensures { events.new
        ≡ read_back (λ x. x) (link_in links.now.now) d place ++ drop d events.old }
{
    if d == 0 {
        return;
    }
    let link = usize::from(links[place]);
    events[d - 1] = ((link - 2) % 16) as u8;
    read_back(links, (link - 2) / 16, d - 1, events);
}

// Writes the first d events of a list to the front of the trace list.
fn put_front(events: &[u8; 1024], d: usize, trace: &mut [u8])
    requires { (d ≤ 1024) × (d ≤ length trace.old) }
    ensures { trace.new ≡ front_of events.now d ++ drop d trace.old }
{
    for i in 0..d {
        trace[i] = events[i];
    }
}

// Writes the d events that are read back from a place of the links to the front of the trace list.
fn write_events(links: &[u16], place: usize, d: usize, trace: &mut [u8])
    requires { BackOk links.now place d × (d ≤ length trace.old) }
    ensures { trace.new
        ≡ read_back (λ x. x) (link_in links.now) d place ++ drop d trace.old }
{
    let mut events = [0u8; 1024];
    read_back(&links, place, d, &mut events);
    put_front(&events, d, trace);
}

// Writes the d events that lead to an entry to the front of the trace list. The links of the entries up to it then
// stand in their places.
pub(crate) fn write_trace(work: &mut [u16], n: usize, place: usize, d: usize, trace: &mut [u8])
    requires { TraceOk n work.old place d × (d ≤ length trace.old) }
    ensures { (trace.new
        ≡ read_back (node_at work.old) (link_at n work.old) d place ++ drop d trace.old)
        × (work.new ≡ linked n work.old (place + 1)) }
{
    put_links(work, n, place + 1);
    write_events(work, place, d, trace);
}
