// A reproducible load (02, K9): walks on a sheet that two sites can repeat. The crate's specs say which states follow a
// seed, which events they draw, what the call answers and what a lent list then holds. It has no type and no function.
#![tactic(auto)]
