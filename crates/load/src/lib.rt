// A reproducible load (02, K9). `walk` takes any sheet, seed, wish and list: it writes the walk of the seed to the
// front of the list and answers its length, or why it refuses. The initials of each node are listed once,
// and its successors laid out in a flat table; the walk goes by these tables alone.
#![tactic(auto)]

ghost use Rattle.std.specs.Prelude.{◌≡◌, ◌≤◌, ◌<◌, length};
ghost use Rattle.refusals.specs.Numbers.{refusal_in, numbered};
ghost use Rattle.base.specs.Front.{at_front};
ghost use Rattle.events.specs.Lists.{events_in};
ghost use Rattle.load_spec.specs.Xorshift.{next_state};
ghost use Rattle.load_spec.specs.Calls.{walk_fault, walked_numbers, walk_length, walked_of, walk_after};
ghost use Rattle.load.specs.Shapes.{count_with, Listed, Tabled, Leads, table_walk};

use refusals::Refusal;
use sheet_spec::{Row, Sheet};

// ---- the generator

// The state that follows another.
#[tactic(auto, unfolding(load_spec::specs::Xorshift::next_state, load_spec::specs::Xorshift::mixed_left, load_spec::specs::Xorshift::mixed_right, load_spec::specs::Xorshift::shifted_left, load_spec::specs::Xorshift::shifted_right))]
fn next_state(x: u32) -> u32
    ensures { result ≡ next_state x }
{
    let a = x ^ (x << 13);
    let b = a ^ (a >> 17);
    b ^ (b << 5)
}

// ---- the tables

// How many events of a set are listed once event i was written: one more if it is in the set.
#[tactic(auto, unfolding(crate::specs::Shapes::count_with))]
fn count_with(count: usize, set: u16, i: usize) -> usize
    requires { (count ≤ i) × (i < 12) }
    ensures { result ≡ count_with count set i }
{
    count + usize::from(events::contains(set, i))
}

// Lists the events of a set, ascending, in the first of the twelve places of node v, and answers how many they are. An
// event that is not in the set is written over by the next.
fn list_events(lists: &mut [u8; 384], set: u16, v: usize) -> usize
    requires { (v < 32) × (length lists.old ≡ 384) }
    ensures { (result ≡ length (events_in set 12)) × Listed set v 12 lists.old lists.new }
{
    let mut count: usize = 0;
    for i in 0..12 {
        lists[v * 12 + count] = i as u8;
        count = count_with(count, set, i);
    }
    count
}

// Lists the initials of each of the first n nodes, and puts how many each has.
fn list_initials(rows: [Row; 32], e: usize, n: usize, lists: &mut [u8; 384], counts: &mut [u32; 32])
    requires { (n ≤ 32) × (length lists.old ≡ 384) × (length counts.old ≡ 32) }
    ensures { Tabled rows e n lists.new counts.new }
{
    for v in 0..n {
        let set = sheet_rows::initials_of(rows[v], e);
        let count = list_events(lists, set, v);
        counts[v] = count as u32;
    }
}

// ---- the walk

// Writes the walk that the tables lead along from node 0 to the front of a list that is long enough, and answers its
// length.
fn walk_tables(
    lists: &[u8; 384],
    counts: &[u32; 32],
    next: &[u8; 384],
    seed: u32,
    wish: usize,
    out: &mut [u8],
) -> usize
    requires { Leads lists.now counts.now next.now × (wish ≤ length out.old) }
    ensures { (result ≡ length (table_walk lists.now counts.now next.now wish 0 seed))
        × (out.new ≡ at_front out.old
        (table_walk lists.now counts.now next.now wish 0 seed)) }
{
    let mut x = seed;
    let mut v: usize = 0;
    for j in 0..wish {
        let m = counts[v];
        if m == 0 {
            return j;
        }
        x = next_state(x);
        let event = lists[v * 12 + (x % m) as usize];
        out[j] = event;
        v = usize::from(next[v * 12 + usize::from(event)]);
    }
    wish
}

// ---- the call

// Why a call is refused, if it is: the sheet's own; 27, the seed is 0; 28, a list shorter than the wish, or a wish over
// 4,096.
#[tactic(auto, unfolding(load_spec::specs::Calls::walk_fault, load_spec::specs::Calls::seed_ok, load_spec::specs::Calls::wish_ok))]
fn fault_on(sheet: Sheet, seed: u32, wish: u16, out: &[u8]) -> Result<(), Refusal>
    ensures { refusal_in result ≡ walk_fault sheet seed wish out.now }
{
    sheet::check(sheet)?;
    if seed == 0 {
        return Err(Refusal::Seed);
    }
    if out.len() < usize::from(wish) || wish > 4096 {
        return Err(Refusal::Wish);
    }
    Ok(())
}

// Writes the walk of the seed, of at most `wish` events, to the front of the lent list and answers its length; or why it
// refuses, and the list is as it was: the sheet's own; 27, the seed is 0; 28, a list shorter than the wish, or a wish
// over 4,096.
pub fn walk(sheet: Sheet, seed: u32, wish: u16, out: &mut [u8]) -> Result<u16, Refusal>
    ensures { (numbered result ≡ walked_of sheet seed wish out.old)
        × (walked_numbers (numbered result)
        ≡ (walk_fault sheet seed wish out.old, walk_length sheet seed wish out.old))
        × (out.new ≡ walk_after sheet seed wish out.old) }
{
    fault_on(sheet, seed, wish, out)?;
    let next = sheet_rows::flat(sheet.rows);
    let e = usize::from(sheet.e);
    let n = usize::from(sheet.n);
    let mut lists = [0u8; 384];
    let mut counts = [0u32; 32];
    list_initials(sheet.rows, e, n, &mut lists, &mut counts);
    let length = walk_tables(&lists, &counts, &next, seed, usize::from(wish), out);
    Ok(length as u16)
}
