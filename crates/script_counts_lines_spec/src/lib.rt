// The text of the program `script_counts`: how many key scripts of a length go where on two sheets. Its specs say which
// text a word and an input give. The crate has no function.
#![tactic(auto)]
