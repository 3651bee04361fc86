// The text of the program `keypad_check`: whether a keypad's table is good, and the event of a code. The crate has the
// type of what the program's words ask for; its specs say which text these and an input give. It has no function.
#![tactic(auto)]

// What the words ask for that the program is started with.
#[derive(Clone, Copy)]
pub enum AskedCode {
    // no code: there is no word
    Nothing,
    // the event of a code
    Code(u8),
    // a word that is no code, or more than one word: wrong use
    Wrong,
}
