// One layer of node pairs and the next: a layer has for each node of the reference one word, with a bit for each node
// of the device. The next layer is where one event leads from its pairs; only the nodes that are in a set are looked
// at.
ghost use Rattle.std.specs.Prelude.{◌≡◌, ◌≤◌, ◌<◌};
ghost use Rattle.verdicts_layers.specs.ImageShapes.{image, placed, spread, next, layer_hits, start};

// The first layer: the pair of the two first nodes alone.
pub(crate) fn first_layer() -> [u32; 32]
    ensures { result ≡ start }
{
    let mut layer = [0u32; 32];
    layer[0] = 1;
    layer
}

// Whether some pair of the layer is among the words.
pub(crate) fn is_hit(layer: [u32; 32], words: [u32; 32], p: usize) -> bool
    requires { p ≤ 32 }
    ensures { result ≡ layer_hits layer words p }
{
    for n in 0..p {
        if layer[n] & words[n] != 0 {
            return true;
        }
    }
    false
}

// Where event `i` leads from the nodes of a set; only these are looked at.
#[tactic(auto, using(crate::proofs::images::Images::walking))]
fn image(bits: &[u32; 384], i: usize, from: u32) -> u32
    requires { i < 12 }
    ensures { result ≡ image bits.now i from 32 }
{
    let mut out: u32 = 0;
    let mut rest = from;
    while rest != 0 {
        let m = nodes::least_node(rest);
        out |= bits[i * 32 + m];
        rest = nodes::without_least(rest);
    }
    out
}

// The pairs of the reference's node `x` and the nodes to which event `i` leads join the layer; from `p` on `x` is no
// node.
#[tactic(auto, unfolding(crate::specs::ImageShapes::placed))]
fn place(out: &mut [u32; 32], theirs: &[u32; 384], x: usize, i: usize, p: usize, from: u32)
    requires { (i < 12) × (p ≤ 32) }
    ensures { out.new ≡ placed out.old theirs.now x i p from }
{
    if x < p {
        out[x] |= image(theirs, i, from);
    }
}

// The pairs to which one event leads from node `n` of the reference and the nodes of `from`: none from no node.
#[tactic(auto, unfolding(crate::specs::ImageShapes::spread), using(crate::proofs::images::Moves::spread_none, crate::proofs::images::Moves::spread_more))]
fn spread(
    out: &mut [u32; 32],
    mine: &[u8; 384],
    theirs: &[u32; 384],
    n: usize,
    p: usize,
    e: usize,
    from: u32,
)
    requires { (n < 32) × (p ≤ 32) × (e ≤ 12) }
    ensures { out.new
        ≡ spread out.old mine.now theirs.now n p from e }
{
    if from == 0 {
        return;
    }
    for i in 0..e {
        place(out, theirs, usize::from(mine[n * 12 + i]), i, p, from);
    }
}

// The next layer: the pairs to which one event leads from the pairs of a layer.
#[tactic(auto, unfolding(crate::specs::ImageShapes::next), using(crate::proofs::images::Moves::next_more))]
pub(crate) fn next(
    mine: &[u8; 384],
    theirs: &[u32; 384],
    p: usize,
    e: usize,
    layer: [u32; 32],
) -> [u32; 32]
    requires { (p ≤ 32) × (e ≤ 12) }
    ensures { result ≡ next mine.now theirs.now p e layer p }
{
    let mut out = [0u32; 32];
    for n in 0..p {
        spread(&mut out, mine, theirs, n, p, e, layer[n]);
    }
    out
}
