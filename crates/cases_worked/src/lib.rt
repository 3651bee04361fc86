// Worked cases of 01 and of 02 (K3, K4) that are proved and compute through the probe lists: a run that fails and one
// that is inconclusive (specs/Runs.antt), texts of `compare` (Text.antt), lines of `probe_list` (Nodes.antt). It has no
// function.
#![tactic(auto)]
