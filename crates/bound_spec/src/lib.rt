// The bound is reached (02, K11): a pair of sheets of p and q nodes whose first failing test is number p q - 1. The
// crate has the type of the answer; its specs say what the two sheets are, what the call that writes them answers and
// what two lent lists then hold, and prove of the bytes that are written that no smaller bound than p q serves. It has
// no function.
#![tactic(auto)]

// What the call answers: the lengths of the two sheets in bytes; each stands at the front of its lent list.
#[derive(Clone, Copy)]
pub struct Lengths {
    pub reference: u16,
    pub device: u16,
}
