// Tables of counts: for each pair of nodes three numbers, how many scripts of so many events go each way from that pair
// on; with 32 times 32 pairs and the two places after them these are 3,078. The two places are for an event that cannot
// be done: what the reference stops, and what the device stops. So a step adds the counts of one place, whatever the
// sheets can do, and no jump hangs on them. The table for one event more is filled from the one before; two tables
// change places.
ghost use Rattle.std.specs.Prelude.{◌≡◌, ◌+◌, ◌*◌, ◌≤◌, ◌<◌, length};
ghost use Rattle.scripts.specs.Shapes.{one, most, cell, plus, place, place_sums, next_cell, table_counts};
ghost use Rattle.scripts.specs.Shapes.{Most, Sizes, Small, Stored, Stopped, Filled, Begun};

use scripts_spec::Counts;

// The counts at a place.
fn load(table: &[u64; 3078], place: usize) -> Counts
    requires { place < 1026 }
    ensures { result ≡ cell table.now place }
{
    Counts {
        walked: table[place * 3],
        device: table[place * 3 + 1],
        reference: table[place * 3 + 2],
    }
}

// Puts the counts of a place.
fn store(table: &mut [u64; 3078], place: usize, counts: Counts)
    requires { (place < 1026) × (length table.old ≡ 3078) }
    ensures { Stored table.old place counts table.new }
{
    table[place * 3] = counts.walked;
    table[place * 3 + 1] = counts.device;
    table[place * 3 + 2] = counts.reference;
}

// The place of an event that leads the reference to x and the device to y: that of the pair; if the device has no node
// y, the place of what the device stops, whatever x is; if the reference has no node x, that of what it stops.
fn place_of(p: usize, q: usize, x: u8, y: u8) -> usize
    requires { (p ≤ 32) × (q ≤ 32) }
    ensures { result ≡ place p q x y }
{
    let n = usize::from(x);
    let m = usize::from(y);
    let mut place = n * q + m;
    if n >= p {
        place = p * q;
    }
    if m >= q {
        place = p * q + 1;
    }
    place
}

// The sums with the counts of one place more.
fn with_place(sums: Counts, table: &[u64; 3078], place: usize) -> Counts
    requires { (place < 1026) × Most (11 * most) sums × Most most (cell table.now place) }
    ensures { result ≡ plus sums (cell table.now place) }
{
    let more = load(table, place);
    Counts {
        walked: sums.walked + more.walked,
        device: sums.device + more.device,
        reference: sums.reference + more.reference,
    }
}

// The counts of the pair of nodes n and m for one event more: the sums over the places of its events.
fn pair_counts(
    a: &[u8; 384],
    b: &[u8; 384],
    p: usize,
    q: usize,
    e: usize,
    before: &[u64; 3078],
    n: usize,
    m: usize,
) -> Counts
    requires { Sizes p q e × (n < 32) × (m < 32) × Small before.now p q }
    ensures { result ≡ place_sums a.now b.now p q before.now n m e }
{
    let mut s = Counts {
        walked: 0,
        device: 0,
        reference: 0,
    };
    for i in 0..e {
        let place = place_of(p, q, a[n * 12 + i], b[m * 12 + i]);
        s = with_place(s, before, place);
    }
    s
}

// Fills the table for the pairs of node n.
fn fill_row(
    a: &[u8; 384],
    b: &[u8; 384],
    p: usize,
    q: usize,
    e: usize,
    before: &[u64; 3078],
    after: &mut [u64; 3078],
    n: usize,
)
    requires { Sizes p q e × (n < p) × Small before.now p q
        × Filled (next_cell a.now b.now p q e before.now) (n * q) after.old }
    ensures { Filled (next_cell a.now b.now p q e before.now)
        ((n + 1) * q) after.new }
{
    for m in 0..q {
        let counts = pair_counts(a, b, p, q, e, before, n, m);
        store(after, n * q + m, counts);
    }
}

// Fills the table for one event more, for all pairs.
fn fill(
    a: &[u8; 384],
    b: &[u8; 384],
    p: usize,
    q: usize,
    e: usize,
    before: &[u64; 3078],
    after: &mut [u64; 3078],
)
    requires { Sizes p q e × Small before.now p q × (length after.old ≡ 3078) }
    ensures { Filled (next_cell a.now b.now p q e before.now)
        (p * q) after.new }
{
    for n in 0..p {
        fill_row(a, b, p, q, e, before, after, n);
    }
}

// Puts what an event that cannot be done adds, after the pairs: all of the scripts that go on with it, `power` of them,
// stop there, by the reference or by the device.
fn put_stops(table: &mut [u64; 3078], pairs: usize, power: u64)
    requires { (pairs ≤ 1024) × (length table.old ≡ 3078) }
    ensures { Stopped table.old pairs power table.new }
{
    store(
        table,
        pairs,
        Counts {
            walked: 0,
            device: 0,
            reference: power,
        },
    );
    store(
        table,
        pairs + 1,
        Counts {
            walked: 0,
            device: power,
            reference: 0,
        },
    );
}

// The table for no event: from each pair on there is one script, which both walk to its end.
pub(crate) fn start(table: &mut [u64; 3078], p: usize, q: usize)
    requires { (p ≤ 32) × (q ≤ 32) × (length table.old ≡ 3078) }
    ensures { Filled (λ c. one) (p * q) table.new }
{
    let pairs = p * q;
    for c in 0..pairs {
        store(
            table,
            c,
            Counts {
                walked: 1,
                device: 0,
                reference: 0,
            },
        );
    }
}

// Puts the counts of the pair of the two first nodes for `wanted` events into `out`, from the table for `l` events: it
// fills the table for one event more and goes on from that one. `power` is E to the power l. It answers nothing, so that
// the compiler makes a loop of it.
pub(crate) fn advance(
    a: &[u8; 384],
    b: &[u8; 384],
    p: usize,
    q: usize,
    e: usize,
    l: usize,
    wanted: usize,
    power: u64,
    from: &mut [u64; 3078],
    to: &mut [u64; 3078],
    out: &mut [u64; 3],
)
    requires { Begun a.now b.now p q e l wanted power from.old to.old × (length out.old ≡ 3) }
    ensures { cell out.new 0 ≡ table_counts a.now b.now p q e wanted 0 0 }
{
    if l >= wanted {
        out[0] = from[0];
        out[1] = from[1];
        out[2] = from[2];
        return;
    }
    put_stops(from, p * q, power);
    fill(a, b, p, q, e, from, to);
    advance(
        a,
        b,
        p,
        q,
        e,
        l + 1,
        wanted,
        power * (e as u64),
        to,
        from,
        out,
    );
}
