// The row of one node: its successors, sets and initials, and whether it may stop there. Every public function takes
// every row, event and place. And the tables of all rows: the successors of each node, and its initials.
#![tactic(auto)]

ghost use Rattle.std.specs.Prelude.{◌≡◌, ◌<◌, ◌+◌, ◌*◌, ◌++◌, take, drop};
ghost use Rattle.sheet_spec.specs.Kept.{successor, acceptance, initials, may_stop};
ghost use Rattle.base.specs.Table.{up_to};
ghost use Rattle.sheet_rows.specs.Tables.{initials_in, flat_at};
ghost use Rattle.sheet_rows.specs.Shapes.{initial_added};

use sheet_spec::Row;
use std::array;

// The successor of a row on an event, 255 for none; no event from 12 on has one.
pub fn successor_of(row: Row, event: usize) -> u8
    ensures { result ≡ successor row event }
{
    if event < 12 { row.succ[event] } else { 255 }
}

// The set at a place of a row, 0 from place 16 on.
pub fn acceptance_at(row: Row, place: usize) -> u16
    ensures { result ≡ acceptance row place }
{
    if place < 16 { row.sets[place] } else { 0 }
}

// The initials of a row: the events below `e` that have a successor, as a set.
pub fn initials_of(row: Row, e: usize) -> u16
    ensures { result ≡ initials e row }
{
    let mut set: u16 = 0;
    for i in 0..12 {
        set = with_initial(set, row.succ[i], e, i);
    }
    set
}

// The set with event i, if i is below `e` and its successor `x` is one.
fn with_initial(set: u16, x: u8, e: usize, i: usize) -> u16
    requires { i < 12 }
    ensures { (row : Row) → x ≡ successor row i → result ≡ initial_added e row set i }
{
    if i < e {
        if x != 255 {
            return events::with_event(set, i);
        }
    }
    set
}

// Whether one of the node's sets is the empty one.
pub fn may_stop(row: Row) -> bool
    ensures { result ≡ may_stop row }
{
    let c = usize::from(row.c);
    (0..16).any(|j| j < c && row.sets[j] == 0)
}

// ---- a table of all rows

// The successors of node `v` are put in its twelve places.
fn put_row(table: &mut [u8; 384], row: Row, v: usize)
    requires { v < 32 }
    ensures { table.new ≡ take (v * 12) table.old ++ row.succ ++ drop (v * 12 + 12) table.old }
{
    table[v * 12..v * 12 + 12].copy_from_slice(&row.succ);
}

// The successors of all nodes, twelve to a node.
pub fn flat(rows: [Row; 32]) -> [u8; 384]
    ensures { result ≡ up_to (flat_at rows) 384 }
{
    let mut table = [255; 384];
    for v in 0..32 {
        put_row(&mut table, rows[v], v);
    }
    table
}

// The initials of all nodes.
pub fn all_initials(rows: [Row; 32], e: usize) -> [u16; 32]
    ensures { result ≡ up_to (initials_in e rows) 32 }
{
    array::from_fn(|v| initials_of(rows[v], e))
}
