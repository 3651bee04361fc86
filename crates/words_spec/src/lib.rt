// The number that a word is: some digits in base ten, or none. The crate has no function; its specs say which words are
// numbers, which number each is, and whether two words are the same.
#![tactic(auto)]
