// The text of a program that reads two sheets, back to back: their sizes, or a refusal, and after two accepted sheets
// the program's findings. `compare` and `suite` differ in the findings alone. The crate's specs say how an input is
// split, and which text it gives, whatever the findings; it has no function.
#![tactic(auto)]
