// The text of the program `suite`: the verdict of every test of a device, and how many fail. Its specs say which text
// an input gives. The crate has no function.
#![tactic(auto)]
