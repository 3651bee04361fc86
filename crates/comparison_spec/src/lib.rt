// The comparison of two sheets (01, "A comparison"): the nearest violation. The crate has the type of its answer; its
// specs say what the answer and the two lent lists are, and what they mean. It has no function.
#![tactic(auto)]

// What a comparison answers where its call is not refused.
#[derive(Clone, Copy)]
pub enum Outcome {
    // the device refines the reference: the number of different pairs reached (01's "cleared")
    Refines(u16),
    // a violation by a stray: the length d of the nearest trace, the pairs nearer than d, the smallest stray event
    Stray(u16, u16, u8),
    // a violation by a refusal: d, the pairs nearer than d, the probe refused, the device's acceptance that misses it
    Refusal(u16, u16, u16, u16),
}
