// Walks in finite labelled graphs. This crate has definitions and theorems (specs/) and no function.
#![tactic(auto)]
