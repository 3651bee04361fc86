// What a search over the pairs of two graphs answers. The crate's specs say what the answer is, and why a queue finds
// it.
#![tactic(auto)]

// What a search found: no bad pair is reached, with the number of pairs that are; or the nearest one, with its
// distance, its two nodes and the number of pairs that are nearer.
#[derive(Clone, Copy)]
pub enum Found {
    Clear {
        cleared: usize,
    },
    Bad {
        distance: usize,
        reference: usize,
        device: usize,
        cleared: usize,
    },
}
