// What a probe is (01, "Probes"; 001, section 2.2): a minimal hitting set of a node's acceptances. The crate has the
// types of two answers; its specs say which sets are probes, in which order they are listed, and what upper crates may
// rely on. It has no function.
#![tactic(auto)]

use refusals::Refusal;

// What the probe call answers: how many probes there are, or why it is refused.
pub type Listed = Result<u16, Refusal>;

// What a comparison names: a probe, and an acceptance that has no event of it.
#[derive(Clone, Copy)]
pub struct Missed {
    pub probe: u16,
    pub acceptance: u16,
}
