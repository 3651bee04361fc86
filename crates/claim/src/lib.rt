// Demand 3, and demand 2 beside it: one record and one theorem over every two accepted sheets (specs/Claim.antt). It
// has no function.
#![tactic(auto)]
