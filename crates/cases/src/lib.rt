// The cases of 01 and of 02 (K1 to K7, K9, K11) that are proved: one table of rows, each beside its answer, and
// one equation over the whole table (specs/Table.antt). It has no function.
#![tactic(auto)]
