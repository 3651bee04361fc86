// Numbered tests as live runs (01, "Test k and a live run"; 001's adaptive tests): the record of a run, the reports of
// a device and the answers. The crate has the types; its specs say what each call answers. It has no function.
#![tactic(auto)]

// A live run: the test's number k, the choice number h, whether it is trace-only, whether it has ended, the node
// reached on the reference and how many events were accepted on the way. A flag is a byte: 0 is false, any other value
// is true.
#[repr(C)]
#[derive(Clone, Copy)]
pub struct Run {
    pub k: u16,
    pub h: u16,
    pub trace_only: u8,
    pub ended: u8,
    pub node: u8,
    pub depth: u16,
}

// What the device did with the last offer: one of its events, or nothing.
#[derive(Clone, Copy)]
pub enum Report {
    Event(u8),
    Blocked,
}

// The answer to an opening or a report: the run goes on with the next offer, or has ended failed as stray with the
// event, failed as refused with the set offered, passed, or inconclusive; or the call is refused with a number.
#[derive(Clone, Copy)]
pub enum Answer {
    Going(u16),
    Stray(u8),
    Refused(u16),
    Passed,
    Inconclusive,
    Denied(u8),
}

// An answer and the record beside it.
#[derive(Clone, Copy)]
pub struct Stepped {
    pub answer: Answer,
    pub run: Run,
}
