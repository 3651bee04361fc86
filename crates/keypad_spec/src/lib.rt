// A keypad's table (02, K6): which rule matches which code, whether each code has just one, and the event of a code.
// The crate has what the two calls answer where they do not refuse; its specs say what a table is, what is refused, what
// is answered and what that means. It has no function.
#![tactic(auto)]

// What a check of a table answers.
#[derive(Clone, Copy)]
pub enum Keypad {
    // just one rule matches each code
    Good,
    // the smallest bad code, which no rule matches
    Gap(u8),
    // the smallest bad code, which more than one rule matches, and the two lowest rules that do
    Overlap(u8, u8, u8),
}

// What a lookup of a code answers.
#[derive(Clone, Copy)]
pub enum Found {
    // the event of the code, in a good table
    Event(u8),
    // the gap that a check of the table answers, whatever code was asked
    Gap(u8),
    // the overlap that a check of the table answers, whatever code was asked
    Overlap(u8, u8, u8),
}
