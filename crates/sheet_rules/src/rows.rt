// What one row can break beside its count and its sets (01, rules 6 and 7): its successors and its unused places; and
// the nodes to which it leads. Every public function takes every row, event and place.
ghost use Rattle.std.specs.Prelude.{◌≡◌, cond, ltb, get_or};
ghost use Rattle.sheet_spec.specs.Rules.{successor_ok, row_successors_ok, blank, unused_ok};
ghost use Rattle.sheet_rules.specs.RowShapes.{blank_succs, blank_sets, node_added, targets};

use sheet_spec::Row;

// The successor on an event, 255 for none, of the successors alone; they are lent, so that a call for each event copies
// no row.
fn succ_at(succ: &[u8; 12], event: usize) -> u8
    ensures { result ≡ cond (ltb event 12) (get_or succ.now event 0) 255 }
{
    if event < 12 { succ[event] } else { 255 }
}

// 6: whether a successor is 255 or below `n`.
#[tactic(auto, unfolding(sheet_spec::specs::Rules::successor_ok))]
fn successor_ok(n: usize, x: u8) -> bool
    ensures { result ≡ successor_ok n x }
{
    x == 255 || usize::from(x) < n
}

// 6: whether the successor on every event below `e` is 255 or below `n`.
pub(crate) fn row_successors_ok(row: Row, e: usize, n: usize) -> bool
    ensures { result ≡ row_successors_ok e n row }
{
    (0..e).all(|i| successor_ok(n, succ_at(&row.succ, i)))
}

// 7: whether the successors from event `e` on hold 255.
fn succs_blank(row: Row, e: usize) -> bool
    ensures { result ≡ blank_succs e row }
{
    (0..12).all(|i| i < e || succ_at(&row.succ, i) == 255)
}

// 7: whether the sets from place `c` on hold 0.
fn sets_blank(row: Row, c: usize) -> bool
    ensures { result ≡ blank_sets c row }
{
    (0..16).all(|j| j < c || row.sets[j] == 0)
}

// 7: whether the successors from event `e` on hold 255 and the sets from place `c` on hold 0.
#[tactic(auto, unfolding(sheet_spec::specs::Rules::blank, crate::specs::RowShapes::blank_succs, crate::specs::RowShapes::blank_sets))]
fn is_blank(row: Row, e: usize, c: usize) -> bool
    ensures { result ≡ blank e c row }
{
    succs_blank(row, e) && sets_blank(row, c)
}

// 7: whether the unused places of node `v`, all of them if it is an unused node, hold 255 and 0.
#[tactic(auto, unfolding(sheet_spec::specs::Rules::unused_ok))]
pub(crate) fn unused_ok(row: Row, e: usize, n: usize, v: usize) -> bool
    ensures { result ≡ unused_ok e n v row }
{
    if v < n {
        is_blank(row, e, usize::from(row.c))
    } else {
        row.c == 0 && is_blank(row, 0, 0)
    }
}

// A set of nodes with a successor added; a number from 32 on is no node.
fn with_target(set: u32, node: usize) -> u32
    ensures { result ≡ node_added set node }
{
    if node < 32 {
        nodes::with_node(set, node)
    } else {
        set
    }
}

// The nodes to which one event below `e` leads, as a set of nodes.
pub(crate) fn targets_of(row: Row, e: usize) -> u32
    ensures { result ≡ targets e row }
{
    let mut set: u32 = 0;
    for i in 0..e {
        set = with_target(set, usize::from(succ_at(&row.succ, i)));
    }
    set
}
