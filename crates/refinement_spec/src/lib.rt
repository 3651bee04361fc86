// Refinement (001): what it is that a device refines a reference, and when a pair of nodes is violating. The crate has
// definitions and laws, and no function.
#![tactic(auto)]
