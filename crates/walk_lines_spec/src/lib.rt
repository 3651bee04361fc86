// What the program `walk` prints (02, K9): its lines, and its text as a function of the two words that it is started
// with and of its input. The crate has no function.
#![tactic(auto)]
