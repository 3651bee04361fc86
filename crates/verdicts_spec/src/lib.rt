// Verdicts on a device (01, "Test k and a live run"): of one test, and of tests 0 to p·q − 1 at once, which together
// decide whether the device refines the reference. The crate has the type of a verdict; its specs say what is answered,
// what a lent list then holds, and what a verdict means: whether some run can end failed. It has no function.
#![tactic(auto)]

// The verdict on a device.
#[derive(Clone, Copy)]
pub enum Verdict {
    Passes,
    Fails,
}
