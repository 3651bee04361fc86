// The verdict on a device, worked out layer by layer of node pairs over the tables of the two sheets' rows. Nothing
// here takes a sheet: rows and tables do.
#![tactic(auto)]

mod images;

ghost use Rattle.std.specs.Prelude.{◌≡◌, ◌||◌, ◌++◌, ◌≤◌, ◌<◌, length, drop};
ghost use Rattle.base.specs.Table.{up_to};
ghost use Rattle.verdicts_spec.specs.Verdicts.{fails_from};
ghost use Rattle.verdicts_layers.specs.ImageShapes.{layer_hits, start};
ghost use Rattle.sheet_spec.specs.Kept.{sheet_with};
ghost use Rattle.verdicts_layers.specs.LayerShapes.{fails_on, kind_of};

use sheet_spec::Row;
use verdicts_tables::Tables;

// ---- over tables

// Whether test `k` fails, layer after layer from the pair of the two first nodes: `k` times an early fault is looked
// for, at last a late one.
#[tactic(auto, using(crate::proofs::Rounds::layer_by_layer))]
fn is_failing_on(
    mine: &[u8; 384],
    theirs: &[u32; 384],
    early: [u32; 32],
    late: [u32; 32],
    p: usize,
    e: usize,
    k: usize,
) -> bool
    requires { (p ≤ 32) × (e ≤ 12) }
    ensures { result ≡ fails_on mine.now theirs.now early late p e k start }
{
    let mut layer = images::first_layer();
    for j in 0..k {
        if images::is_hit(layer, early, p) {
            return true;
        }
        let after = images::next(mine, theirs, p, e, layer);
        layer = after;
    }
    images::is_hit(layer, late, p)
}

// The number of a verdict: 12, fails, after an early fault or at a late one in this layer; else 11, passes.
#[tactic(auto, unfolding(crate::specs::LayerShapes::kind_of))]
fn kind_at(faulty: bool, layer: [u32; 32], late: [u32; 32], p: usize) -> u8
    requires { p ≤ 32 }
    ensures { result ≡ kind_of («faulty» || layer_hits layer late p) }
{
    if faulty || images::is_hit(layer, late, p) {
        12
    } else {
        11
    }
}

// Whether there was an early fault, or there is one in this layer.
fn is_faulty(faulty: bool, layer: [u32; 32], early: [u32; 32], p: usize) -> bool
    requires { p ≤ 32 }
    ensures { result ≡ («faulty» || layer_hits layer early p) }
{
    faulty || images::is_hit(layer, early, p)
}

// The verdicts of the first `total` tests from one pass over the layers: each is written when its last layer is
// reached.
#[tactic(auto, using(crate::proofs::Rounds::judged_all))]
fn write_verdicts(
    mine: &[u8; 384],
    theirs: &[u32; 384],
    early: [u32; 32],
    late: [u32; 32],
    p: usize,
    e: usize,
    total: usize,
    out: &mut [u8],
)
    requires { (p ≤ 32) × (e ≤ 12) × (total ≤ length out.old) }
    ensures { out.new
        ≡ up_to (λ k. kind_of (fails_on mine.now theirs.now early late p e k start)) total
        ++ drop total out.old }
{
    let mut layer = images::first_layer();
    let mut faulty = false;
    for k in 0..total {
        out[k] = kind_at(faulty, layer, late, p);
        faulty = is_faulty(faulty, layer, early, p);
        let after = images::next(mine, theirs, p, e, layer);
        layer = after;
    }
}

// ---- over rows

// Whether the device with the rows `theirs` fails test `k` of the reference with the rows `mine`.
#[tactic(auto, using(crate::proofs::Fails::failing))]
pub fn is_failing(
    mine: [Row; 32],
    p: usize,
    theirs: [Row; 32],
    q: usize,
    e: usize,
    k: usize,
    trace_only: bool,
) -> bool
    requires { (0 < p) × (p ≤ 32) × (0 < q) × (q ≤ 32) × (e ≤ 12) }
    ensures { result ≡ fails_from trace_only (sheet_with mine e p) (sheet_with theirs e q) k 0 0 }
{
    let Tables {
        mine: reference,
        theirs: device,
        early,
        late,
    } = verdicts_tables::tables_of(mine, theirs, q, e, trace_only);
    is_failing_on(&reference, &device, early, late, p, e, k)
}

// Writes 12 for each of the first `total` tests that the device fails and 11 for each that it passes; the rest of the
// list stays.
pub fn failing_all(
    mine: [Row; 32],
    p: usize,
    theirs: [Row; 32],
    q: usize,
    e: usize,
    trace_only: bool,
    total: usize,
    out: &mut [u8],
)
    requires { (0 < p) × (p ≤ 32) × (0 < q) × (q ≤ 32) × (e ≤ 12) × (total ≤ length out.old) }
    ensures { out.new
        ≡ up_to (λ k. kind_of (fails_from trace_only (sheet_with mine e p) (sheet_with theirs e q) k 0 0)) total
        ++ drop total out.old }
{
    let Tables {
        mine: reference,
        theirs: device,
        early,
        late,
    } = verdicts_tables::tables_of(mine, theirs, q, e, trace_only);
    write_verdicts(&reference, &device, early, late, p, e, total, out);
}
