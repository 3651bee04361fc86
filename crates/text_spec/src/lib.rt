// The texts that the programs print: characters as numbers, numbers in base ten, lists of events, texts one after
// another, how much of an input counts, and what it means that a list holds a text. The crate has no function.
#![tactic(auto)]
