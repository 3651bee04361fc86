// The lines of the program `live`, a live run of test k (01, "Test k and a live run"; 02, K4): which test its words ask
// for, which report a line is, and what it prints. The crate has the type of a test that is asked for; its specs say
// the rest. It has no function.
#![tactic(auto)]

// A test that is asked for: its number k, the choice number h, and whether it is trace-only.
#[derive(Clone, Copy)]
pub struct Asked {
    pub k: u16,
    pub h: u16,
    pub trace_only: bool,
}
